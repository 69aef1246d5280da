//! Why a database failed, for the second line on standard error.
ghost use Rattle.std.specs.Prelude.{◌≡◌};
ghost use Rattle.fuse_commands.specs.Causes.{cause_of};

use sqlite::{Error, ErrorCode};

/// Why a database failed, as far as a user can do something about it.
#[derive(Clone, Copy, Debug, PartialEq, Eq)]
pub enum Cause {
    /// One of its files can't be opened.
    CannotOpen,
    /// Another process has it open.
    InUse,
    /// The disk is full.
    NoRoom,
    /// The disk failed.
    InputOutput,
    /// A page of it is missing or wrong.
    Corrupt,
    /// Another cause.
    Other,
}

impl Cause {
    /// The cause of an error.
    pub(crate) fn of(error: Error) -> Cause
        ensures { result ≡ cause_of error }
    {
        match error {
            Error::SqliteFailure(ErrorCode::CannotOpen) => Cause::CannotOpen,
            Error::SqliteFailure(ErrorCode::DatabaseBusy) => Cause::InUse,
            Error::SqliteFailure(ErrorCode::DiskFull) => Cause::NoRoom,
            Error::SqliteFailure(ErrorCode::SystemIoFailure) => Cause::InputOutput,
            Error::SqliteFailure(ErrorCode::DatabaseCorrupt) => Cause::Corrupt,
            _ => Cause::Other,
        }
    }
}
