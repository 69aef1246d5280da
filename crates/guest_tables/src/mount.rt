// The begin of a mount: all state of the last mount but the pairs is deleted, in one transaction.
ghost use Rattle.std.specs.Prelude.{◌≡◌, false, IfErr, OnOk, OnErr};
ghost use Rattle.sqlite.specs.State.{HasCleanDisk, KeepsCommit};
ghost use Rattle.sqlite.specs.Held.{state};
ghost use Rattle.fuse_store_tables.specs.Faults.{IsOutside};
ghost use Rattle.fuse_store_tables.specs.Moves.{ServesAs, IsSafe, StaysOpen, RollsBack, CommitsOnce};
ghost use Rattle.fuse_store_tables.specs.inner.Performing.{TransactsAs, StaysWithin};
ghost use Rattle.guest_tables.specs.Clearing.{cleared, without_settings};
ghost use Rattle.guest_tables.specs.Content.{Holds};
ghost use Rattle.guest_tables.specs.Moves.{Makes, Serves};
ghost use Rattle.guest_tables.specs.Opening.{IsStored};
ghost use Rattle.guest_tables.specs.inner.Steps.{without_records};

use crate::lots::delete_all_lots;
use crate::records::delete_all_kept;
use crate::settings::write_all;
use fuse_keeper::StoreFault;
use fuse_store_tables::{begin, commit, undo};
use sqlite::{Alter, Connection, Error};

// Deletes all records and lots.
fn clear_records<S: Alter>(conn: &mut Connection<S>) -> Result<(), Error>
    ensures made { Makes without_records (state S.Store conn.old) (state S.Store conn.new) result }
    ensures within { StaysWithin (state S.Store conn.old) (state S.Store conn.new) result }
{
    delete_all_kept(conn)?;
    delete_all_lots(conn)
}

// Deletes the settings and what was pledged.
fn clear_settings<S: Alter>(conn: &mut Connection<S>) -> Result<(), Error>
    ensures made { Makes without_settings (state S.Store conn.old) (state S.Store conn.new) result }
    ensures within { StaysWithin (state S.Store conn.old) (state S.Store conn.new) result }
{
    write_all(conn, 0, 0, 0, 0, 0)
}

/// Deletes all state of the last mount but the pairs.
pub(crate) fn clear<S: Alter>(conn: &mut Connection<S>) -> Result<(), Error>
    ensures made { Makes cleared (state S.Store conn.old) (state S.Store conn.new) result }
    ensures within { StaysWithin (state S.Store conn.old) (state S.Store conn.new) result }
{
    clear_records(conn)?;
    clear_settings(conn)
}

// The transaction. A fault may leave it open.
fn transact<S: Alter>(conn: &mut Connection<S>) -> Result<(), Error>
    ensures performs { TransactsAs Holds (λ c. Holds (cleared c)) (state S.Store conn.old)
        (state S.Store conn.new) result }
    ensures open { StaysOpen (state S.Store conn.old) (state S.Store conn.new) result }
    ensures keeps { OnErr result (HasCleanDisk (state S.Store conn.new)
        → KeepsCommit (state S.Store conn.old) (state S.Store conn.new)) }
    ensures once { CommitsOnce (state S.Store conn.old) (state S.Store conn.new) result }
    ensures ended { OnOk result (HasCleanDisk (state S.Store conn.new)
        → (state S.Store conn.new).in_transaction ≡ false) }
{
    begin(conn)?;
    match clear(conn) {
        Ok(()) => {
            commit(conn)?;
            Ok(())
        }
        Err(error) => Err(error),
    }
}

/// Begins a mount: deletes records, lots, settings and what was pledged. The pairs stay. The commit
/// is its last call of the database.
pub fn begin_mount<S: Alter>(conn: &mut Connection<S>) -> Result<(), StoreFault>
    ensures serves { Serves cleared (state S.Store conn.old) (state S.Store conn.new) result }
    ensures fit { ServesAs IsStored (λ c. IsStored (cleared c)) (state S.Store conn.old)
        (state S.Store conn.new) result }
    ensures open { StaysOpen (state S.Store conn.old) (state S.Store conn.new) result }
    // The fault is that of a statement, and says nothing of the tables.
    ensures outside { IfErr result IsOutside }
    // No transaction is left open.
    ensures ended { HasCleanDisk (state S.Store conn.new)
        → (state S.Store conn.new).in_transaction ≡ false }
    // Where the call fails, what was committed before is seen, whatever the database.
    ensures undone { OnErr result (RollsBack (state S.Store conn.old) (state S.Store conn.new)) }
    // It commits once at most: after a crash all of it is seen, or nothing.
    ensures once { CommitsOnce (state S.Store conn.old) (state S.Store conn.new) result }
{
    match transact(conn) {
        Ok(()) => Ok(()),
        Err(error) => {
            undo(conn);
            Err(error.into())
        }
    }
}
