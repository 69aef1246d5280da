// The table of lots.
ghost use Rattle.std.specs.Prelude.{◌≡◌, ◌+◌, ◌<◌, ◌^◌, [], ◌∷◌, length, map, IfOk, IfErr, None, OnOk};
ghost use Rattle.sqlite.specs.State.{HasCleanDisk};
ghost use Rattle.sqlite.specs.Held.{state};
ghost use Rattle.fuse_store_tables.specs.Clearing.{counted_to};
ghost use Rattle.fuse_store_tables.specs.Content.{at_by};
ghost use Rattle.fuse_store_tables.specs.Faults.{IsOutside, IsPlain};
ghost use Rattle.fuse_store_tables.specs.Moves.{InsideAs, IsSafe, StaysOpen, OnlyReads, Takes};
ghost use Rattle.fuse_store_tables.specs.inner.Columns.{shown_number};
ghost use Rattle.fuse_store_tables.specs.inner.Performing.{StaysWithin};
ghost use Rattle.guest_tables.specs.Content.{GuestContent, Holds, next_lot_key, set_counter};
ghost use Rattle.guest_tables.specs.Content.{shown_counter, value_at, with_lot, with_next_lot};
ghost use Rattle.guest_tables.specs.Moves.{Inside, Rests, Makes, Serves};
ghost use Rattle.guest_tables.specs.Opening.{IsMeta, IsStored};
ghost use Rattle.guest_tables.specs.inner.Steps.{without_lots};

use crate::columns::the_count;
use crate::counters::{NEXT_LOT, select_counters, update_counter};
use crate::statements::run;
use crate::values::number;
use fuse_keeper::StoreFault;
use fuse_store_tables::number_at;
use sqlite::{Alter, Connection, Error, Row};

const INSERT: &str = "INSERT INTO lots (lot) VALUES (?1)";

const DELETE_ALL: &str = "DELETE FROM lots";

const COUNT: &str = "SELECT count(*) FROM lots";

/// Adds a new lot.
pub fn insert_lot<S: Alter>(conn: &mut Connection<S>, lot: u64) -> Result<(), Error>
    requires { lot < 2 ^ 63 }
    ensures made { Makes (with_lot lot) (state S.Store conn.old) (state S.Store conn.new) result }
    // It fails where there is this lot.
    ensures fresh { HasCleanDisk (state S.Store conn.new) → OnOk result ((c : GuestContent)
        → Inside c (state S.Store conn.old) → at_by (λ n. n) lot c.lots ≡ None) }
{
    let values = number(lot);
    run(conn, INSERT, &values)
}

// All lots are below it.
const END: u64 = 1 << 62;

/// The next lot, among the values of the counters.
pub(crate) fn next_lot_of(rows: &[Row]) -> Result<u64, StoreFault>
    ensures value { IfOk result (λ n. (c : GuestContent) → IsMeta c
        → rows.now ≡ map shown_counter c.counters → n ≡ value_at next_lot_key c) }
    ensures fault { IfErr result (λ f. (c : GuestContent) → IsMeta c
        → rows.now ≡ map shown_counter c.counters → IsOutside f) }
    ensures plain { IfErr result IsPlain }
{
    match rows.get(4) {
        None => Err(StoreFault::Damaged),
        Some(row) => number_at(row, 0),
    }
}

// Adds a lot. The next lot follows it.
fn add_lot<S: Alter>(conn: &mut Connection<S>, lot: u64) -> Result<(), Error>
    requires { lot < 2 ^ 62 }
    ensures { Makes (λ c. set_counter next_lot_key (lot + 1) (with_lot lot c))
        (state S.Store conn.old) (state S.Store conn.new) result }
{
    insert_lot(conn, lot)?;
    update_counter(conn, NEXT_LOT, lot + 1)
}

/// Takes the next lot, which is new.
pub fn take_lot<S: Alter>(conn: &mut Connection<S>) -> Result<u64, StoreFault>
    ensures taken { Takes IsStored (λ c. IsStored (with_next_lot c)) (state S.Store conn.old)
        (state S.Store conn.new) result }
    ensures value { HasCleanDisk (state S.Store conn.new) → IfOk result (λ n. (c : GuestContent)
        → InsideAs (IsStored c) (state S.Store conn.old) → n ≡ value_at next_lot_key c) }
    ensures low { IfOk result (λ n. n < 2 ^ 62) }
    // Of a store in order, the fault is `Damaged` only where no lot is left.
    ensures fault { HasCleanDisk (state S.Store conn.new) → IfErr result (λ f. (c : GuestContent)
        → InsideAs (IsStored c) (state S.Store conn.old) → value_at next_lot_key c < 2 ^ 62
        → IsOutside f) }
    ensures plain { IfErr result IsPlain }
{
    let rows = select_counters(conn)?;
    let lot = next_lot_of(rows.as_slice())?;
    if lot >= END {
        return Err(StoreFault::Damaged);
    }
    add_lot(conn, lot)?;
    Ok(lot)
}

/// Deletes every lot.
pub(crate) fn delete_all_lots<S: Alter>(conn: &mut Connection<S>) -> Result<(), Error>
    ensures made { Makes without_lots (state S.Store conn.old) (state S.Store conn.new) result }
    ensures within { StaysWithin (state S.Store conn.old) (state S.Store conn.new) result }
{
    run(conn, DELETE_ALL, &[])
}

// The number of lots: one row.
fn select_count<S: Alter>(conn: &mut Connection<S>) -> Result<Vec<Row>, Error>
    ensures rests { Serves (λ c. c) (state S.Store conn.old) (state S.Store conn.new) result }
    ensures open { StaysOpen (state S.Store conn.old) (state S.Store conn.new) result }
    ensures reads { OnlyReads (state S.Store conn.old) (state S.Store conn.new) result }
    ensures found { HasCleanDisk (state S.Store conn.new) → IfOk result (λ rows. (c : GuestContent)
        → Rests c (state S.Store conn.old) → rows.items ≡ shown_number (counted_to c.lots) ∷ []) }
{
    conn.query_all(COUNT, &[])
}

/// The number of lots, outside a transaction.
pub fn count_lots<S: Alter>(conn: &mut Connection<S>) -> Result<u64, StoreFault>
    ensures rests { Serves (λ c. c) (state S.Store conn.old) (state S.Store conn.new) result }
    ensures open { StaysOpen (state S.Store conn.old) (state S.Store conn.new) result }
    // Whatever the database is, nothing is changed.
    ensures reads { OnlyReads (state S.Store conn.old) (state S.Store conn.new) result }
    ensures value { HasCleanDisk (state S.Store conn.new) → IfOk result (λ n. (c : GuestContent)
        → Rests c (state S.Store conn.old) → n ≡ length c.lots) }
    ensures fault { IsSafe Holds (state S.Store conn.old) (state S.Store conn.new) result }
    ensures plain { IfErr result IsPlain }
{
    let rows = select_count(conn)?;
    the_count(rows.as_slice())
}
