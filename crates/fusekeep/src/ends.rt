// How a run ended, and whether the data file of its store is the cause.

use fuse_commands::Ending;
use sqlite_disk::Disk;

/// What became of the data file.
#[derive(Clone, Copy, PartialEq, Eq)]
pub(crate) enum DataEnd {
    Sound,
    /// Something wasn't written for lack of room.
    NoRoom,
    /// It may be used no more.
    Failed,
}

impl DataEnd {
    /// Of what a run left.
    pub(crate) fn of<D: Disk>(disk: &Option<D>) -> DataEnd {
        match disk {
            Some(disk) if disk.tally().refused > 0 => DataEnd::NoRoom,
            Some(disk) if !disk.may_be_used() => DataEnd::Failed,
            _ => DataEnd::Sound,
        }
    }
}

/// The ending of a run, and what became of its data file.
#[derive(Clone, Copy)]
pub(crate) struct End {
    pub(crate) ending: Ending,
    pub(crate) data: DataEnd,
}

impl End {
    /// Of a run whose data file has nothing to do with it.
    pub(crate) fn of(ending: Ending) -> End {
        End {
            ending,
            data: DataEnd::Sound,
        }
    }
}
