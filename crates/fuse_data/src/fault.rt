ghost use Rattle.std.specs.Prelude.{◌≡◌};
ghost use Rattle.fuse_data.specs.declared.fault.DataFault.TheVariants.{Disk, Memory as NoMemory};

use crate::extent::Extent;
use fuse_wire::Memory;
use std::alloc::{AllocError, AllocFailed};
use std::io;

/// Why a call of the data file failed.
#[derive(Clone, Copy, Debug)]
pub enum DataFault {
    /// A call of the disk failed.
    Disk(io::Error),
    /// An allocation was refused.
    Memory,
    /// A sync has failed before, so nothing more may be asked of the disk.
    Unusable,
    /// The file isn't the data file of this store.
    Foreign,
    /// No gap has so many blocks.
    Full,
    /// The bytes aren't 1 to 32 whole blocks.
    NotBlocks,
    /// The list isn't in order of place, or this extent overlaps the one before it, or no data file
    /// can have it.
    Overlapping(Extent),
    /// A listed extent ends past the end of the file.
    Beyond(Extent),
    /// The file has other bytes than the extent's.
    Damaged(Extent),
    /// A block of the extent is free, or no data file can have it.
    NotInUse(Extent),
}

impl From<io::Error> for DataFault {
    ghost from_gives = { λ e f. f ≡ Disk e };

    fn from(e: io::Error) -> DataFault {
        DataFault::Disk(e)
    }
}

impl From<Memory> for DataFault {
    ghost from_gives = { λ _ f. f ≡ NoMemory };

    fn from(_e: Memory) -> DataFault {
        DataFault::Memory
    }
}

impl From<AllocError> for DataFault {
    ghost from_gives = { λ _ f. f ≡ NoMemory };

    fn from(_e: AllocError) -> DataFault {
        DataFault::Memory
    }
}

impl<T: Drop> From<AllocFailed<T>> for DataFault {
    ghost from_gives = { λ _ f. f ≡ NoMemory };

    fn from(_e: AllocFailed<T>) -> DataFault {
        DataFault::Memory
    }
}
