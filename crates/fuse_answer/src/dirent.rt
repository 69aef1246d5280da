ghost use Rattle.std.specs.Prelude.{◌≡◌, ◌≤◌};
ghost use Rattle.fuse_wire.specs.Bounds.{max_name_len};
ghost use Rattle.fuse_answer.specs.Entries.{entry_len, padding as padding_of};

/// The most bytes that a name has.
pub const MAX_NAME: usize = 255;

/// An entry of a directory, `fuse_dirent` of `fuse.h`, where `kind` is called `type`.
#[derive(Clone, Copy, Debug)]
pub struct Dirent<'a> {
    pub ino: u64,
    /// The offset that continues after it.
    pub off: u64,
    pub kind: u32,
    pub name: &'a [u8],
}

impl<'a> Dirent<'a> {
    /// The place of the name.
    pub const NAME_AT: usize = 24;
}

// How many bytes follow a name of so many.
pub(crate) fn padding(name_len: usize) -> usize
    ensures { result ≡ padding_of name_len }
{
    (8 - name_len % 8) % 8
}

// How many bytes an entry takes whose name has so many.
pub(crate) fn packed_len(name_len: usize) -> usize
    requires { name_len ≤ max_name_len }
    ensures { result ≡ entry_len name_len }
{
    Dirent::NAME_AT + name_len.next_multiple_of(8)
}
