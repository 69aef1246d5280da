// The laws of values in a data file.
ghost use Rattle.guest_values.specs.Laws.{ListsServe, ValuesStay};

use sqlite_disk::Disk;

/// Values stay where the data file changes in free blocks alone.
pub fn values_stay()
    ensures { ValuesStay }
{}

/// A data file at rest serves a transaction, and in it a list in any order.
pub fn lists_serve<D: Disk>()
    ensures { ListsServe D.Disk }
{}
