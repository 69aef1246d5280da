ghost use Rattle.std.specs.Prelude.{◌≡◌};
ghost use Rattle.fuse_data_host.specs.declared.fault.OpenFault.TheVariants.{Io, Memory};

use std::alloc::AllocError;
use std::io;

/// Why the data file can't be opened.
#[derive(Clone, Copy, Debug)]
pub enum OpenFault {
    /// There is none.
    Missing,
    /// What has its name is no regular file, or has another name too.
    Unsuited,
    /// An allocation was refused.
    Memory,
    /// A call of the system failed.
    Io(io::Error),
}

impl From<io::Error> for OpenFault {
    ghost from_gives = { λ e f. f ≡ Io e };

    fn from(error: io::Error) -> OpenFault {
        OpenFault::Io(error)
    }
}

impl From<AllocError> for OpenFault {
    ghost from_gives = { λ _ f. f ≡ Memory };

    fn from(_error: AllocError) -> OpenFault {
        OpenFault::Memory
    }
}
