use fuse_wire::Memory;
use sqlite::ErrorCode;
use std::alloc::{AllocError, AllocFailed};
use thiserror::Error;

/// Why a call of a store failed.
#[derive(Debug, Drop, Error)]
pub enum StoreFault {
    /// An allocation was refused.
    #[error("out of memory")]
    Memory,
    /// The database, or its file, refused.
    #[error("sql: {0}")]
    Sql(sqlite::Error),
    /// The table `meta` is missing, or its row of the version.
    #[error("not a store")]
    NotAStore,
    /// The tables are of another version.
    #[error("a store of version {0}")]
    Version(u64),
    /// Another table is missing, or a row holds what none may.
    #[error("a damaged store")]
    Damaged,
    /// The guest that does the requests ended, hung or broke the protocol. No store of this
    /// repository answers it.
    #[error("the guest failed")]
    Guest,
}

impl From<Memory> for StoreFault {
    ghost use Rattle.std.specs.Prelude.{◌≡◌};
    ghost use Rattle.fuse_keeper.specs.declared.fault.StoreFault.TheVariants.{Memory as NoMemory};

    ghost from_gives = { λ _ e. e ≡ NoMemory };

    fn from(_e: Memory) -> StoreFault {
        StoreFault::Memory
    }
}

impl From<AllocError> for StoreFault {
    ghost use Rattle.std.specs.Prelude.{◌≡◌};
    ghost use Rattle.fuse_keeper.specs.declared.fault.StoreFault.TheVariants.{Memory as NoMemory};

    ghost from_gives = { λ _ e. e ≡ NoMemory };

    fn from(_e: AllocError) -> StoreFault {
        StoreFault::Memory
    }
}

impl<T: Drop> From<AllocFailed<T>> for StoreFault {
    ghost use Rattle.std.specs.Prelude.{◌≡◌};
    ghost use Rattle.fuse_keeper.specs.declared.fault.StoreFault.TheVariants.{Memory as NoMemory};

    ghost from_gives = { λ _ e. e ≡ NoMemory };

    fn from(_e: AllocFailed<T>) -> StoreFault {
        StoreFault::Memory
    }
}

impl From<sqlite::Error> for StoreFault {
    ghost use Rattle.std.specs.Prelude.{◌≡◌};
    ghost use Rattle.fuse_keeper.specs.Faults.{fault_of};

    ghost from_gives = { λ e f. f ≡ fault_of e };

    fn from(e: sqlite::Error) -> StoreFault {
        if matches!(e, sqlite::Error::SqliteFailure(ErrorCode::OutOfMemory)) {
            StoreFault::Memory
        } else {
            StoreFault::Sql(e)
        }
    }
}
