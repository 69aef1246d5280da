// The records, as the opening of a store tests them.
ghost use Rattle.std.specs.Prelude.{◌≡◌, ◌≤◌, ⊤, List, map, IfOk, IfErr, OnOk};
ghost use Rattle.sqlite.specs.State.{HasCleanDisk};
ghost use Rattle.sqlite.specs.Held.{state};
ghost use Rattle.fuse_store_tables.specs.Content.{Kept};
ghost use Rattle.fuse_store_tables.specs.Faults.{IsOutside, IsPlain};
ghost use Rattle.fuse_store_tables.specs.Moves.{InsideAs, Takes};
ghost use Rattle.fuse_store_tables.specs.inner.Performing.{OnlyReads, StaysWithin};
ghost use Rattle.guest_tables.specs.Content.{GuestContent};
ghost use Rattle.guest_tables.specs.Opening.{IsLaid, IsRecord, AreRecords};
ghost use Rattle.guest_tables.specs.inner.Checking.{ChecksIf};
ghost use Rattle.guest_tables.specs.inner.Columns.{shown_record};

use fuse_answer::MAX_BODY;
use fuse_keeper::StoreFault;
use fuse_store_tables::number_at;
use sqlite::{Alter, Connection, Error, Row};

// The bytes of the bodies aren't read.
const SELECT: &str = "SELECT id, errno, length(body) FROM kept ORDER BY id";

// All records, in the order of their ids.
fn select_records<S: Alter>(conn: &mut Connection<S>) -> Result<Vec<Row>, Error>
    ensures laid { Takes IsLaid IsLaid (state S.Store conn.old) (state S.Store conn.new) result }
    ensures shows { HasCleanDisk (state S.Store conn.new) → IfOk result (λ rows. (c : GuestContent)
        → InsideAs (IsLaid c) (state S.Store conn.old) → rows.items ≡ map shown_record c.kept) }
    ensures reads { OnlyReads (state S.Store conn.old) (state S.Store conn.new) result }
    ensures within { StaysWithin (state S.Store conn.old) (state S.Store conn.new) result }
{
    conn.query_all(SELECT, &[])
}

// The greatest error number of 32 bits.
const GREATEST: u64 = u32::MAX as u64;

// The most bytes that a body has.
const LONGEST: u64 = MAX_BODY as u64;

// Tests that the row is that of a record.
fn check_record(row: &Row) -> Result<(), StoreFault>
    ensures plain { IfErr result IsPlain }
    ensures fault { IfErr result (λ f. (k : Kept) → row.now ≡ shown_record k → IsRecord k
        → IsOutside f) }
    ensures whole { OnOk result ((k : Kept) → row.now ≡ shown_record k → IsRecord k) }
{
    let _id = number_at(row, 0)?;
    let errno = number_at(row, 1)?;
    let len = number_at(row, 2)?;
    if errno > GREATEST {
        return Err(StoreFault::Damaged);
    }
    if len > LONGEST {
        return Err(StoreFault::Damaged);
    }
    if errno == 0 {
        return Ok(());
    }
    // A refusal has no body.
    if len != 0 {
        return Err(StoreFault::Damaged);
    }
    Ok(())
}

// Tests that the rows are those of records.
fn check_rows(rows: &[Row]) -> Result<(), StoreFault>
    ensures plain { IfErr result IsPlain }
    ensures fault { IfErr result (λ f. (ks : List Kept) → rows.now ≡ map shown_record ks
        → AreRecords ks → IsOutside f) }
    ensures whole { OnOk result ((ks : List Kept) → rows.now ≡ map shown_record ks
        → AreRecords ks) }
{
    let mut at = 0;
    'rows: while at < rows.len() {
        match check_record(&rows[at]) {
            Ok(()) => {}
            Err(fault) => return Err(fault),
        }
        at += 1;
    }
    Ok(())
}

/// Tests that each record has an id and an answer that a request may have.
pub(crate) fn check_records<S: Alter>(conn: &mut Connection<S>) -> Result<(), StoreFault>
    ensures { ChecksIf (λ _. ⊤) (λ c. AreRecords c.kept) (state S.Store conn.old)
        (state S.Store conn.new) result }
{
    let rows = select_records(conn)?;
    check_rows(rows.as_slice())
}
