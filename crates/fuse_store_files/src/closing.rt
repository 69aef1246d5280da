// The end of a run: the files of a keeper are given back.
ghost use Rattle.std.specs.Prelude.{IfOk, IfErr};
ghost use Rattle.sqlite_wal.specs.Reads.{AreClean};
ghost use Rattle.sqlite.specs.Files.{over_files};
ghost use Rattle.sqlite.specs.Closing.{IsCopied};
ghost use Rattle.fuse_store.specs.TableKeeper.{conn_of};
ghost use Rattle.fuse_store_files.specs.Left.{Closes};
ghost use Rattle.fuse_store_files.specs.inner.Connections.{EndsAsStore, IsClosedAs, IsCopiedTo};
ghost use Rattle.fuse_store_files.specs.inner.Connections.{IsUncopied};

use fuse_init::Profiled;
use fuse_store::{StoreParts, TableKeeper};
use sqlite::{Connection, FileStore, Files};
use sqlite_disk::Disk;
use sqlite_trees::store::Store;

/// Rolls back, copies the log into the database file, and gives the files back. Where the copying
/// fails, the store is given back.
pub(crate) fn close_connection<D: Disk + Drop>(
    conn: Connection<FileStore<D>>,
) -> Result<Files<D>, FileStore<D>>
    ensures ended { EndsAsStore conn }
    ensures closed { IfOk result (IsClosedAs conn) }
    ensures copied { IfOk result (IsCopiedTo conn) }
    ensures unclosed { IfErr result (IsUncopied conn) }
{
    let mut store = conn.into_store();
    store.rollback();
    match store.checkpoint() {
        Ok(()) => Ok(store.close()),
        Err(_) => Err(store),
    }
}

/// Closes the files of a keeper: rolls back, copies the log into the database file, and gives both
/// back, and the data file beside them. Where the copying fails, the store is given back; the log then
/// holds what is committed. Nothing is asked of the data file.
pub fn close_store<P: Profiled, D: Disk + Drop, E: Disk + Drop>(
    keeper: TableKeeper<P, FileStore<D>, E>,
) -> (Result<Files<D>, FileStore<D>>, Option<E>)
    ensures closes { Closes E.Disk P.PROFILE keeper result.0 result.1 }
    // What was committed last is in the database file alone.
    ensures copied { IfOk result.0 (λ files. AreClean D.Disk files.log files.db
        → IsCopied (conn_of over_files E.Disk keeper) files) }
{
    let StoreParts { conn, disk } = keeper.into_parts();
    (close_connection(conn), disk)
}
