// Reads outside a transaction. They change nothing.
ghost use Rattle.std.specs.Prelude.{◌≡◌, ℕ, List, length, IfOk, IfErr};
ghost use Rattle.std.specs.List.{sum_by};
ghost use Rattle.sqlite.specs.Held.{state};
ghost use Rattle.fuse_tree.specs.Rowed.{rowed};
ghost use Rattle.fuse_tree.specs.Space.{room_of};
ghost use Rattle.fuse_store_tables.specs.Faults.{IsPlain};
ghost use Rattle.fuse_store_tables.specs.Moves.{ServesAs, StaysOpen, IsSafe, OnlyReads};
ghost use Rattle.fuse_store_tree.specs.Store.{records_of};
ghost use Rattle.fuse_store_tree.specs.Holding.{HeldFor, ReportsAfter};

use crate::bounds::END;
use crate::counters::{read_counters, read_room, read_settings};
use crate::laws::rows_in_order;
use crate::rows::read_answer;
use fuse_answer::Answer;
use fuse_init::Settings;
use fuse_keeper::{StoreCounts, StoreFault};
use fuse_rows::{Counters, Room};
use fuse_store_tables::{count_kept, count_lots, select_counters, select_kept, sum_sizes};
use sqlite::{Alter, Connection};

/// The answer in the record of this id. No record has an id from 2^63 on.
pub fn answer_at_rest<S: Alter>(
    conn: &mut Connection<S>,
    id: u64,
) -> Result<Option<Answer>, StoreFault>
    ensures serves { (file : List ℕ) → ServesAs (HeldFor file) (HeldFor file)
        (state S.Store conn.old) (state S.Store conn.new) result }
    ensures open { StaysOpen (state S.Store conn.old) (state S.Store conn.new) result }
    // Whatever the database is, nothing is changed.
    ensures reads { OnlyReads (state S.Store conn.old) (state S.Store conn.new) result }
    ensures value { IfOk result (λ r. (file : List ℕ)
        → ReportsAfter file (state S.Store conn.old) (state S.Store conn.new)
        (λ y. r ≡ records_of y.kept id)) }
    ensures fault { (file : List ℕ) → IsSafe (HeldFor file) (state S.Store conn.old)
        (state S.Store conn.new) result }
    // The fault is never `NotAStore` or `Version`.
    ensures plain { IfErr result IsPlain }
{
    if id >= END {
        return Ok(None);
    }
    let rows = select_kept(conn, id)?;
    read_answer(rows.as_slice())
}

/// The settings, if any were agreed on.
pub fn settings_at_rest<S: Alter>(conn: &mut Connection<S>) -> Result<Option<Settings>, StoreFault>
    ensures serves { (file : List ℕ) → ServesAs (HeldFor file) (HeldFor file)
        (state S.Store conn.old) (state S.Store conn.new) result }
    ensures open { StaysOpen (state S.Store conn.old) (state S.Store conn.new) result }
    // Whatever the database is, nothing is changed.
    ensures reads { OnlyReads (state S.Store conn.old) (state S.Store conn.new) result }
    ensures value { IfOk result (λ r. (file : List ℕ)
        → ReportsAfter file (state S.Store conn.old) (state S.Store conn.new)
        (λ y. r ≡ (rowed y.tree).settings)) }
    ensures fault { (file : List ℕ) → IsSafe (HeldFor file) (state S.Store conn.old)
        (state S.Store conn.new) result }
    ensures plain { IfErr result IsPlain }
{
    let rows = select_counters(conn)?;
    read_settings(rows.as_slice())
}

// The counters of the tree.
fn counters_at_rest<S: Alter>(conn: &mut Connection<S>) -> Result<Counters, StoreFault>
    ensures serves { (file : List ℕ) → ServesAs (HeldFor file) (HeldFor file)
        (state S.Store conn.old) (state S.Store conn.new) result }
    ensures open { StaysOpen (state S.Store conn.old) (state S.Store conn.new) result }
    ensures reads { OnlyReads (state S.Store conn.old) (state S.Store conn.new) result }
    ensures value { IfOk result (λ r. (file : List ℕ)
        → ReportsAfter file (state S.Store conn.old) (state S.Store conn.new)
        (λ y. r ≡ (rowed y.tree).counters)) }
    ensures fault { (file : List ℕ) → IsSafe (HeldFor file) (state S.Store conn.old)
        (state S.Store conn.new) result }
    ensures plain { IfErr result IsPlain }
{
    let rows = select_counters(conn)?;
    read_counters(rows.as_slice())
}

/// The room of an everyday store, none of a plain one.
pub fn room_at_rest<S: Alter>(conn: &mut Connection<S>) -> Result<Option<Room>, StoreFault>
    ensures serves { (file : List ℕ) → ServesAs (HeldFor file) (HeldFor file)
        (state S.Store conn.old) (state S.Store conn.new) result }
    ensures open { StaysOpen (state S.Store conn.old) (state S.Store conn.new) result }
    // Whatever the database is, nothing is changed.
    ensures reads { OnlyReads (state S.Store conn.old) (state S.Store conn.new) result }
    ensures value { IfOk result (λ r. (file : List ℕ)
        → ReportsAfter file (state S.Store conn.old) (state S.Store conn.new)
        (λ y. r ≡ room_of y.tree)) }
    ensures fault { (file : List ℕ) → IsSafe (HeldFor file) (state S.Store conn.old)
        (state S.Store conn.new) result }
    ensures plain { IfErr result IsPlain }
{
    let rows = select_counters(conn)?;
    read_room(rows.as_slice())
}

// The number of records.
fn records_at_rest<S: Alter>(conn: &mut Connection<S>) -> Result<u64, StoreFault>
    ensures serves { (file : List ℕ) → ServesAs (HeldFor file) (HeldFor file)
        (state S.Store conn.old) (state S.Store conn.new) result }
    ensures open { StaysOpen (state S.Store conn.old) (state S.Store conn.new) result }
    ensures reads { OnlyReads (state S.Store conn.old) (state S.Store conn.new) result }
    ensures value { IfOk result (λ n. (file : List ℕ)
        → ReportsAfter file (state S.Store conn.old) (state S.Store conn.new)
        (λ y. n ≡ length y.kept)) }
    ensures fault { (file : List ℕ) → IsSafe (HeldFor file) (state S.Store conn.old)
        (state S.Store conn.new) result }
    ensures plain { IfErr result IsPlain }
{
    count_kept(conn)
}

// The number of lots.
fn lots_at_rest<S: Alter>(conn: &mut Connection<S>) -> Result<u64, StoreFault>
    ensures serves { (file : List ℕ) → ServesAs (HeldFor file) (HeldFor file)
        (state S.Store conn.old) (state S.Store conn.new) result }
    ensures open { StaysOpen (state S.Store conn.old) (state S.Store conn.new) result }
    ensures reads { OnlyReads (state S.Store conn.old) (state S.Store conn.new) result }
    ensures value { IfOk result (λ n. (file : List ℕ)
        → ReportsAfter file (state S.Store conn.old) (state S.Store conn.new)
        (λ y. n ≡ length y.lots)) }
    ensures fault { (file : List ℕ) → IsSafe (HeldFor file) (state S.Store conn.old)
        (state S.Store conn.new) result }
    ensures plain { IfErr result IsPlain }
{
    count_lots(conn)
}

/// The numbers of nodes, handles, records and lots.
pub fn counts_at_rest<S: Alter>(conn: &mut Connection<S>) -> Result<StoreCounts, StoreFault>
    ensures serves { (file : List ℕ) → ServesAs (HeldFor file) (HeldFor file)
        (state S.Store conn.old) (state S.Store conn.new) result }
    ensures open { StaysOpen (state S.Store conn.old) (state S.Store conn.new) result }
    // Whatever the database is, nothing is changed.
    ensures reads { OnlyReads (state S.Store conn.old) (state S.Store conn.new) result }
    ensures nodes { IfOk result (λ counts. (file : List ℕ)
        → ReportsAfter file (state S.Store conn.old) (state S.Store conn.new)
        (λ y. counts.nodes ≡ (rowed y.tree).counters.nodes)) }
    ensures handles { IfOk result (λ counts. (file : List ℕ)
        → ReportsAfter file (state S.Store conn.old) (state S.Store conn.new)
        (λ y. counts.handles ≡ (rowed y.tree).counters.handles)) }
    ensures records { IfOk result (λ counts. (file : List ℕ)
        → ReportsAfter file (state S.Store conn.old) (state S.Store conn.new)
        (λ y. counts.records ≡ length y.kept)) }
    ensures lots { IfOk result (λ counts. (file : List ℕ)
        → ReportsAfter file (state S.Store conn.old) (state S.Store conn.new)
        (λ y. counts.lots ≡ length y.lots)) }
    ensures fault { (file : List ℕ) → IsSafe (HeldFor file) (state S.Store conn.old)
        (state S.Store conn.new) result }
    ensures plain { IfErr result IsPlain }
{
    let counters = counters_at_rest(conn)?;
    let records = records_at_rest(conn)?;
    let lots = lots_at_rest(conn)?;
    Ok(StoreCounts {
        nodes: counters.nodes,
        handles: counters.handles,
        records,
        lots,
    })
}

/// The size of all contents.
pub fn size_at_rest<S: Alter>(conn: &mut Connection<S>) -> Result<u64, StoreFault>
    ensures serves { (file : List ℕ) → ServesAs (HeldFor file) (HeldFor file)
        (state S.Store conn.old) (state S.Store conn.new) result }
    ensures open { StaysOpen (state S.Store conn.old) (state S.Store conn.new) result }
    // Whatever the database is, nothing is changed.
    ensures reads { OnlyReads (state S.Store conn.old) (state S.Store conn.new) result }
    ensures value { IfOk result (λ n. (file : List ℕ)
        → ReportsAfter file (state S.Store conn.old) (state S.Store conn.new)
        (λ y. n ≡ sum_by (λ f. f.row.size) (rowed y.tree).nodes)) }
    ensures fault { (file : List ℕ) → IsSafe (HeldFor file) (state S.Store conn.old)
        (state S.Store conn.new) result }
    ensures plain { IfErr result IsPlain }
{
    rows_in_order();
    sum_sizes(conn)
}
