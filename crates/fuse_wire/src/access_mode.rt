ghost use Rattle.std.specs.Prelude.{◌≡◌};
ghost use Rattle.fuse_wire.specs.Flags.{access_of};

/// The bits of the flags of OPEN that say what the file is opened for: O_ACCMODE of Linux.
pub const O_ACCMODE: u32 = 3;

/// For reading alone.
pub const O_RDONLY: u32 = 0;

/// For writing alone.
pub const O_WRONLY: u32 = 1;

/// For both.
pub const O_RDWR: u32 = 2;

/// A flag that OPEN is answered with: the kernel keeps what it has of the file's content.
/// `FOPEN_KEEP_CACHE` of `fuse.h`.
pub const FOPEN_KEEP_CACHE: u32 = 2;

/// How an open file may be used.
#[derive(Clone, Copy, Debug, PartialEq, Eq)]
pub enum AccessMode {
    ReadOnly,
    WriteOnly,
    ReadWrite,
}

impl AccessMode {
    /// The access that the flags of OPEN ask for. `None` for the value 3, which has no meaning.
    pub fn of(flags: u32) -> Option<AccessMode>
        ensures { result ≡ access_of flags }
    {
        match flags & O_ACCMODE {
            O_RDONLY => Some(AccessMode::ReadOnly),
            O_WRONLY => Some(AccessMode::WriteOnly),
            O_RDWR => Some(AccessMode::ReadWrite),
            _ => None,
        }
    }
}
