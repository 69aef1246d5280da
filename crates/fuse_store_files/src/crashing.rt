// Disks whose crashes a contract can name, and a crash of all files of a store.
ghost use Rattle.std.specs.Prelude.{◌≡◌, IsTrue, IfSome};
ghost use Rattle.sqlite_disk.specs.Disk.{Only};
ghost use Rattle.fuse_store_files.specs.Crashing.{Crashes, DataCrashes, FilesCrash};
ghost use Rattle.fuse_store_files.specs.Crashing.{crash_relations};
ghost use Rattle.fuse_store_files.specs.CrashMemory.{bytes_in, synced_in};

use crate::crash_memory::CrashMemory;
use crate::left::CrashedFiles;
use fuse_store::StoreParts;
use sqlite::{Connection, FileStore, Files};
use sqlite_disk::Disk;

/// A disk whose crashes a contract can name.
pub trait Crashing: Disk {
    /// The second is what one crash made of the first. Of a type parameter nothing but the call
    /// below says so.
    ghost crashed: { Self → Self → Type 0 };

    /// Crashes, and comes back.
    fn crash_once(&mut self)
        ensures crashed { crashed self.old self.new }
        ensures left { Self.Disk.may_leave self.old (Self.Disk.seen self.new) }
        ensures usable { IsTrue (Self.Disk.is_usable self.new) }
        ensures clean { IsTrue (Self.Disk.is_clean self.new)
            → IsTrue (Self.Disk.is_clean self.old) }
        // What came back is on the disk.
        ensures settled { Only (Self.Disk.seen self.new) (Self.Disk.may_leave self.new) };
}

/// What was synced last is what is left.
impl Crashing for CrashMemory {
    ghost crashed = { λ a b. bytes_in b ≡ synced_in a };

    fn crash_once(&mut self) {
        self.lose_unsynced();
    }
}

/// Drops the connection, lets both files crash, and gives them back.
pub(crate) fn crash_files<D: Crashing + Drop>(conn: Connection<FileStore<D>>) -> Files<D>
    ensures crashed { Crashes D.Crashing.crashed conn result }
    ensures log { IsTrue (D.Disk.is_usable result.log) }
    ensures db { IsTrue (D.Disk.is_usable result.db) }
{
    let mut files = conn.into_store().close();
    files.log.crash_once();
    files.db.crash_once();
    files
}

// Lets a data file crash, if there is one.
fn crash_data<E: Crashing + Drop>(disk: Option<E>) -> Option<E>
    ensures crashed { DataCrashes E.Disk E.Crashing.crashed disk result }
    ensures usable { IfSome result (λ d. IsTrue (E.Disk.is_usable d)) }
{
    match disk {
        Some(mut disk) => {
            disk.crash_once();
            Some(disk)
        }
        None => None,
    }
}

/// Drops the connection, lets all files of a store crash, and gives them back.
pub(crate) fn crash_store<D: Crashing + Drop, E: Crashing + Drop>(
    parts: StoreParts<FileStore<D>, E>,
) -> CrashedFiles<D, E>
    ensures crashed { FilesCrash E.Disk (crash_relations D.Crashing.crashed E.Crashing.crashed)
        parts.conn parts.disk result }
    ensures log { IsTrue (D.Disk.is_usable result.tables.log) }
    ensures db { IsTrue (D.Disk.is_usable result.tables.db) }
    ensures disk { IfSome result.disk (λ d. IsTrue (E.Disk.is_usable d)) }
{
    let StoreParts { conn, disk } = parts;
    CrashedFiles {
        tables: crash_files(conn),
        disk: crash_data(disk),
    }
}
