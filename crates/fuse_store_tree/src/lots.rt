// The lot number of an opening.
ghost use Rattle.std.specs.Prelude.{◌≡◌, ◌+◌, ◌<◌, ◌≤◌, ◌^◌, ℕ, List, length, map, IfOk, IfErr};
ghost use Rattle.std.specs.Prelude.{OnOk, OnErr, IfSome, None};
ghost use Rattle.sqlite.specs.State.{HasCleanDisk};
ghost use Rattle.sqlite.specs.Held.{state};
ghost use Rattle.fuse_store_tables.specs.Content.{Counter, shown_counter, set_counter, with_lot};
ghost use Rattle.fuse_store_tables.specs.Faults.{IsOutside, IsPlain};
ghost use Rattle.fuse_store_tables.specs.Moves.{Makes, Stays};
ghost use Rattle.fuse_store_tree.specs.inner.Reading.{value_of};
ghost use Rattle.fuse_store_tree.specs.Holding.{Holding};
ghost use Rattle.fuse_store_tree.specs.inner.Changing.{InsideFor, Turned, IsSureFor};
ghost use Rattle.fuse_store_tree.specs.Group.{with_new_lot, with_lot_for, lot_for};

use fuse_keeper::StoreFault;
use fuse_store_tables::{NEXT_LOT, insert_lot, number_at, select_counters, update_counter};
use sqlite::{Alter, Connection, Error, Row};

// All lot numbers are below it.
const END: u64 = 1 << 62;

// The number of the next lot, among the counters.
fn next_lot_of(rows: &[Row]) -> Result<u64, StoreFault>
    ensures value { IfOk result (λ n. (cs : List Counter) → rows.now ≡ map shown_counter cs
        → n ≡ value_of cs 10) }
    ensures fault { IfErr result (λ f. (cs : List Counter) → rows.now ≡ map shown_counter cs
        → 11 ≤ length cs → IsOutside f) }
    ensures plain { IfErr result IsPlain }
{
    match rows.get(10) {
        None => Err(StoreFault::Damaged),
        Some(row) => number_at(row, 0),
    }
}

// Adds a lot. The next lot number follows it.
fn add_lot<S: Alter>(conn: &mut Connection<S>, lot: u64) -> Result<(), Error>
    requires { lot < 2 ^ 62 }
    ensures { Makes (λ c. set_counter 11 (lot + 1) (with_lot lot c)) (state S.Store conn.old)
        (state S.Store conn.new) result }
{
    insert_lot(conn, lot)?;
    update_counter(conn, NEXT_LOT, lot + 1)
}

// Allocates the next lot number.
fn take_next<S: Alter>(conn: &mut Connection<S>) -> Result<u64, StoreFault>
    ensures turned { OnOk result ((file : List ℕ) → Turned file with_new_lot (state S.Store conn.old)
        (state S.Store conn.new)) }
    ensures fails { OnErr result (Stays (state S.Store conn.old) (state S.Store conn.new)) }
    ensures value { HasCleanDisk (state S.Store conn.new) → IfOk result (λ lot. (file : List ℕ)
        (y : Holding) → InsideFor file y (state S.Store conn.old) → lot ≡ y.next_lot) }
    ensures low { IfOk result (λ lot. lot < 2 ^ 62) }
    // Of a store that was sound, the fault is `Damaged` only where no lot number is left.
    ensures fault { (file : List ℕ) → IsSureFor file None (state S.Store conn.old) (state S.Store conn.new) result }
    ensures plain { IfErr result IsPlain }
{
    let rows = match select_counters(conn) {
        Ok(rows) => rows,
        Err(error) => return Err(StoreFault::from(error)),
    };
    let lot = match next_lot_of(rows.as_slice()) {
        Ok(lot) => lot,
        Err(fault) => return Err(fault),
    };
    if lot >= END {
        return Err(StoreFault::Damaged);
    }
    match add_lot(conn, lot) {
        Ok(()) => Ok(lot),
        Err(error) => Err(StoreFault::from(error)),
    }
}

/// This opening's lot number, which is allocated where there is none.
pub(crate) fn take_lot<S: Alter>(
    conn: &mut Connection<S>,
    lot: Option<u64>,
) -> Result<u64, StoreFault>
    requires { IfSome lot (λ n. n < 2 ^ 62) }
    ensures turned { OnOk result ((file : List ℕ) → Turned file (with_lot_for lot) (state S.Store conn.old)
        (state S.Store conn.new)) }
    ensures fails { OnErr result (Stays (state S.Store conn.old) (state S.Store conn.new)) }
    ensures value { HasCleanDisk (state S.Store conn.new) → IfOk result (λ n. (file : List ℕ)
        (y : Holding) → InsideFor file y (state S.Store conn.old) → n ≡ lot_for lot y) }
    ensures low { IfOk result (λ n. n < 2 ^ 62) }
    ensures fault { (file : List ℕ) → IsSureFor file lot (state S.Store conn.old) (state S.Store conn.new) result }
    ensures plain { IfErr result IsPlain }
{
    match lot {
        Some(lot) => Ok(lot),
        None => take_next(conn),
    }
}
