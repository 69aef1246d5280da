// The opening of a store, which changes nothing.
ghost use Rattle.std.specs.Prelude.{◌≡◌, ◌≢◌, [], ⊤, false, IsTrue, OnOk, IfErr};
ghost use Rattle.sqlite.specs.State.{HasCleanDisk};
ghost use Rattle.sqlite.specs.Held.{state};
ghost use Rattle.fuse_store_tables.specs.Faults.{IsPlain};
ghost use Rattle.fuse_store_tables.specs.Moves.{RestsAs, Takes, ServesAs, IsSafe, LeavesAlone};
ghost use Rattle.fuse_store_tables.specs.Moves.{CommitsNothing};
ghost use Rattle.fuse_store_tables.specs.inner.Performing.{IsSure, OnlyReads, StaysWithin};
ghost use Rattle.fuse_store_tables.specs.inner.Performing.{TransactsAs};
ghost use Rattle.guest_tables.specs.Content.{GuestContent};
ghost use Rattle.guest_tables.specs.Opening.{IsStored, IsLaid, IsTested, LotsAreBelow};
ghost use Rattle.guest_tables.specs.Saying.{Says, IsTabled};
ghost use Rattle.guest_tables.specs.inner.Checking.{ChecksIf, IsMetaIn, Tests, HasRowsOfMeta};
ghost use Rattle.guest_tables.specs.inner.Checking.{HasRowsInOrder};

use crate::meta::{check_meta, find_version, next_lot_in};
use crate::record_checks::check_records;
use crate::schema::is_guest;
use crate::values::number;
use fuse_keeper::StoreFault;
use fuse_store_tables::{begin, commit, undo};
use sqlite::{Alter, Connection, Row};

const LOTS_FROM: &str = "SELECT lot FROM lots WHERE lot >= ?1 ORDER BY lot LIMIT 1";

// Tests that there are no rows.
fn check_none(rows: &[Row]) -> Result<(), StoreFault>
    ensures none { OnOk result (rows.now ≡ []) }
    ensures some { IfErr result (λ _. rows.now ≢ []) }
    ensures plain { IfErr result IsPlain }
{
    if rows.is_empty() {
        Ok(())
    } else {
        Err(StoreFault::Damaged)
    }
}

// Tests that the lots are below the next one.
fn check_lots<S: Alter>(conn: &mut Connection<S>, meta: &[Row]) -> Result<(), StoreFault>
    ensures { ChecksIf (IsMetaIn meta.now) LotsAreBelow (state S.Store conn.old)
        (state S.Store conn.new) result }
{
    let next = next_lot_in(meta)?;
    let values = number(next);
    let rows = conn.query_all(LOTS_FROM, &values)?;
    check_none(rows.as_slice())
}

// Tests the rows of `meta`, and that the lots are below the next one.
fn check_counters<S: Alter>(conn: &mut Connection<S>) -> Result<(), StoreFault>
    ensures { ChecksIf (λ _. ⊤) HasRowsOfMeta (state S.Store conn.old) (state S.Store conn.new)
        result }
{
    let meta = check_meta(conn)?;
    check_lots(conn, meta.as_slice())
}

// Tests the rows of all tables but that of the pairs.
fn check<S: Alter>(conn: &mut Connection<S>) -> Result<(), StoreFault>
    ensures { ChecksIf (λ _. ⊤) HasRowsInOrder (state S.Store conn.old) (state S.Store conn.new)
        result }
{
    check_counters(conn)?;
    check_records(conn)
}

/// Tests the store, within a transaction.
pub(crate) fn work<S: Alter>(conn: &mut Connection<S>) -> Result<(), StoreFault>
    ensures kept { Takes IsStored IsStored (state S.Store conn.old) (state S.Store conn.new)
        result }
    ensures fault { IsSure IsStored (state S.Store conn.old) (state S.Store conn.new) result }
    ensures says { HasCleanDisk (state S.Store conn.new)
        → IfErr result (Says (state S.Store conn.old).now) }
    ensures whole { Tests IsTested (state S.Store conn.old) (state S.Store conn.new) result }
    ensures tabled { HasCleanDisk (state S.Store conn.new)
        → OnOk result (IsTabled (state S.Store conn.old).now) }
    ensures reads { OnlyReads (state S.Store conn.old) (state S.Store conn.new) result }
    ensures within { StaysWithin (state S.Store conn.old) (state S.Store conn.new) result }
{
    let guest = is_guest(conn.schema());
    let version = find_version(conn)?;
    if version != 1 {
        return Err(StoreFault::Version(version));
    }
    if !guest {
        return Err(StoreFault::Damaged);
    }
    check(conn)
}

// Outside a transaction, what is seen is what was committed.
fn law_of_rest<S: Alter>(conn: &Connection<S>)
    ensures { (state S.Store conn.now).in_transaction ≡ false
        → IsTrue (state S.Store conn.now).is_open
        → (state S.Store conn.now).now ≡ (state S.Store conn.now).committed }
{
    let _ = conn.is_autocommit();
}

// The transaction. A fault may leave it open.
fn transact<S: Alter>(conn: &mut Connection<S>) -> Result<(), StoreFault>
    ensures performs { TransactsAs IsStored IsStored (state S.Store conn.old)
        (state S.Store conn.new) result }
    ensures fault { IsSafe IsStored (state S.Store conn.old) (state S.Store conn.new) result }
    ensures was { HasCleanDisk (state S.Store conn.new)
        → OnOk result (IsTrue (state S.Store conn.old).is_open) }
    ensures says { HasCleanDisk (state S.Store conn.new)
        → IfErr result (Says (state S.Store conn.old).now) }
    ensures whole { HasCleanDisk (state S.Store conn.new) → OnOk result ((c : GuestContent)
        → RestsAs (IsLaid c) (state S.Store conn.old) → IsTested c) }
    ensures tabled { HasCleanDisk (state S.Store conn.new)
        → OnOk result (IsTabled (state S.Store conn.old).now) }
    ensures alone { CommitsNothing (state S.Store conn.old) (state S.Store conn.new) }
    ensures ended { OnOk result (HasCleanDisk (state S.Store conn.new)
        → ((state S.Store conn.new).in_transaction ≡ false)
        × ((state S.Store conn.new).now ≡ (state S.Store conn.new).committed)) }
{
    law_of_rest(conn);
    begin(conn)?;
    match work(conn) {
        Ok(()) => {
            commit(conn)?;
            Ok(())
        }
        Err(fault) => Err(fault),
    }
}

/// Tests a guest's store: its version, its tables, the rows of `meta`, the lots and the records.
/// Nothing is changed.
pub fn open_store<S: Alter>(conn: &mut Connection<S>) -> Result<(), StoreFault>
    ensures serves { ServesAs IsStored IsStored (state S.Store conn.old) (state S.Store conn.new)
        result }
    ensures fault { IsSafe IsStored (state S.Store conn.old) (state S.Store conn.new) result }
    ensures was { HasCleanDisk (state S.Store conn.new)
        → OnOk result (IsTrue (state S.Store conn.old).is_open) }
    ensures says { HasCleanDisk (state S.Store conn.new)
        → IfErr result (Says (state S.Store conn.old).now) }
    // A store with a damaged `meta`, a lot at or above the next one, a record that isn't one, or a
    // schema other than that of a guest's store is never opened.
    ensures whole { HasCleanDisk (state S.Store conn.new) → OnOk result ((c : GuestContent)
        → RestsAs (IsLaid c) (state S.Store conn.old) → IsTested c) }
    ensures tabled { HasCleanDisk (state S.Store conn.new)
        → OnOk result (IsTabled (state S.Store conn.old).now) }
    // Whatever the database is, and however the call ends. No transaction is left open.
    ensures alone { LeavesAlone (state S.Store conn.old) (state S.Store conn.new) }
{
    match transact(conn) {
        Ok(()) => Ok(()),
        Err(fault) => {
            undo(conn);
            Err(fault)
        }
    }
}
