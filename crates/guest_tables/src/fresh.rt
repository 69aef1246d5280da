// The opening of a store for a mount that begins, in one transaction.
ghost use Rattle.std.specs.Prelude.{◌≡◌, false, IsTrue, OnOk, OnErr, IfErr};
ghost use Rattle.sqlite.specs.State.{HasCleanDisk, KeepsCommit};
ghost use Rattle.sqlite.specs.Held.{state};
ghost use Rattle.fuse_store_tables.specs.Moves.{RestsAs, Takes, ServesAs, IsSafe};
ghost use Rattle.fuse_store_tables.specs.Moves.{LeavesAlone, RollsBack, CommitsOnce};
ghost use Rattle.fuse_store_tables.specs.Moves.{CommitsNothing};
ghost use Rattle.fuse_store_tables.specs.Saying.{IsRefusal};
ghost use Rattle.fuse_store_tables.specs.inner.Performing.{TransactsAs, IsSure, StaysWithin};
ghost use Rattle.guest_tables.specs.Clearing.{cleared};
ghost use Rattle.guest_tables.specs.Content.{GuestContent};
ghost use Rattle.guest_tables.specs.Opening.{IsStored, IsLaid, IsTested};
ghost use Rattle.guest_tables.specs.Saying.{Says, IsTabled};
ghost use Rattle.guest_tables.specs.inner.Checking.{Tests};

use crate::mount::clear;
use crate::opening::work;
use fuse_keeper::StoreFault;
use fuse_store_tables::{begin, commit, undo};
use sqlite::{Alter, Connection};

// Tests the store, and deletes all state of the last mount but the pairs.
fn renew<S: Alter>(conn: &mut Connection<S>) -> Result<(), StoreFault>
    ensures begun { Takes IsStored (λ c. IsStored (cleared c)) (state S.Store conn.old)
        (state S.Store conn.new) result }
    ensures fault { IsSure IsStored (state S.Store conn.old) (state S.Store conn.new) result }
    ensures says { HasCleanDisk (state S.Store conn.new)
        → IfErr result (Says (state S.Store conn.old).now) }
    ensures whole { Tests IsTested (state S.Store conn.old) (state S.Store conn.new) result }
    ensures tabled { HasCleanDisk (state S.Store conn.new)
        → OnOk result (IsTabled (state S.Store conn.old).now) }
    ensures within { StaysWithin (state S.Store conn.old) (state S.Store conn.new) result }
{
    work(conn)?;
    Ok(clear(conn)?)
}

// The transaction. A fault may leave it open.
fn transact<S: Alter>(conn: &mut Connection<S>) -> Result<(), StoreFault>
    ensures performs { TransactsAs IsStored (λ c. IsStored (cleared c)) (state S.Store conn.old)
        (state S.Store conn.new) result }
    ensures fault { IsSafe IsStored (state S.Store conn.old) (state S.Store conn.new) result }
    ensures was { HasCleanDisk (state S.Store conn.new)
        → OnOk result (IsTrue (state S.Store conn.old).is_open) }
    ensures says { HasCleanDisk (state S.Store conn.new)
        → IfErr result (Says (state S.Store conn.old).now) }
    ensures whole { HasCleanDisk (state S.Store conn.new) → OnOk result ((c : GuestContent)
        → RestsAs (IsLaid c) (state S.Store conn.old) → IsTested c) }
    ensures tabled { HasCleanDisk (state S.Store conn.new)
        → OnOk result (IsTabled (state S.Store conn.old).now) }
    ensures refused { IfErr result (λ f. IsRefusal f
        → CommitsNothing (state S.Store conn.old) (state S.Store conn.new)) }
    ensures keeps { OnErr result (HasCleanDisk (state S.Store conn.new)
        → KeepsCommit (state S.Store conn.old) (state S.Store conn.new)) }
    ensures once { CommitsOnce (state S.Store conn.old) (state S.Store conn.new) result }
    ensures ended { OnOk result (HasCleanDisk (state S.Store conn.new)
        → (state S.Store conn.new).in_transaction ≡ false) }
{
    begin(conn)?;
    match renew(conn) {
        Ok(()) => {
            commit(conn)?;
            Ok(())
        }
        Err(fault) => Err(fault),
    }
}

/// Opens a store as `open_store` does, and begins a mount of it in the same transaction. The commit
/// is its last call of the database.
pub fn open_fresh<S: Alter>(conn: &mut Connection<S>) -> Result<(), StoreFault>
    ensures serves { ServesAs IsStored (λ c. IsStored (cleared c)) (state S.Store conn.old)
        (state S.Store conn.new) result }
    ensures fault { IsSafe IsStored (state S.Store conn.old) (state S.Store conn.new) result }
    ensures was { HasCleanDisk (state S.Store conn.new)
        → OnOk result (IsTrue (state S.Store conn.old).is_open) }
    ensures says { HasCleanDisk (state S.Store conn.new)
        → IfErr result (Says (state S.Store conn.old).now) }
    // A store with a damaged `meta`, a lot at or above the next one, a record that isn't one, or a
    // schema other than that of a guest's store is never opened.
    ensures whole { HasCleanDisk (state S.Store conn.new) → OnOk result ((c : GuestContent)
        → RestsAs (IsLaid c) (state S.Store conn.old) → IsTested c) }
    ensures tabled { HasCleanDisk (state S.Store conn.new)
        → OnOk result (IsTabled (state S.Store conn.old).now) }
    // No database that is refused is changed. No transaction is left open.
    ensures refused { IfErr result (λ f. IsRefusal f
        → LeavesAlone (state S.Store conn.old) (state S.Store conn.new)) }
    ensures ended { HasCleanDisk (state S.Store conn.new)
        → (state S.Store conn.new).in_transaction ≡ false }
    // Where the call fails, what was committed before is seen, whatever the database.
    ensures undone { OnErr result (RollsBack (state S.Store conn.old) (state S.Store conn.new)) }
    // It commits once at most: after a crash all of it is seen, or nothing.
    ensures once { CommitsOnce (state S.Store conn.old) (state S.Store conn.new) result }
{
    match transact(conn) {
        Ok(()) => Ok(()),
        Err(fault) => {
            undo(conn);
            Err(fault)
        }
    }
}
