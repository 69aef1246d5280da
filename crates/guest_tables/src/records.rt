// The table of records.
ghost use Rattle.std.specs.Prelude.{◌≡◌, ◌<◌, ◌≤◌, ◌^◌, [], ◌∷◌, pos, map, length, IfOk, IfErr};
ghost use Rattle.std.specs.Prelude.{None, OnOk, OnErr};
ghost use Rattle.std.specs.Option.{option_to_list};
ghost use Rattle.sqlite.specs.declared.types.Value.TheVariants.{Int, Blob};
ghost use Rattle.sqlite.specs.State.{HasCleanDisk};
ghost use Rattle.sqlite.specs.Held.{state};
ghost use Rattle.sqlite.specs.Values.{bound};
ghost use Rattle.fuse_store_tables.specs.Clearing.{counted_to};
ghost use Rattle.fuse_store_tables.specs.Content.{kept_key, at_by, shown_kept};
ghost use Rattle.fuse_store_tables.specs.Faults.{IsPlain};
ghost use Rattle.fuse_store_tables.specs.Moves.{IsSafe, StaysOpen, OnlyReads, Stays};
ghost use Rattle.fuse_store_tables.specs.inner.Columns.{shown_number};
ghost use Rattle.fuse_store_tables.specs.inner.Performing.{StaysWithin};
ghost use Rattle.guest_tables.specs.Content.{GuestContent, Holds, put_kept, without_kept};
ghost use Rattle.guest_tables.specs.Content.{without_four};
ghost use Rattle.guest_tables.specs.Moves.{Inside, Rests, Makes, LookedInside, Serves};
ghost use Rattle.guest_tables.specs.inner.Steps.{without_all_kept};

use crate::columns::the_count;
use crate::statements::run;
use crate::values::number;
use fuse_answer::Answer;
use fuse_keeper::StoreFault;
use sqlite::types::{ToSql, ValueRef};
use sqlite::{Alter, Connection, Error, Row};

const INSERT: &str = "INSERT INTO kept (id, lot, errno, body) VALUES (?1, ?2, ?3, ?4)";

const DELETE: &str = "DELETE FROM kept WHERE id = ?1";

// The bounds are there for the search: no row outside is read.
const DELETE_FOUR: &str = "DELETE FROM kept WHERE id >= ?1 AND id <= ?4 AND id IN (?1, ?2, ?3, ?4)";

const DELETE_ALL: &str = "DELETE FROM kept";

const SELECT: &str = "SELECT errno, body FROM kept WHERE id = ?1";

const COUNT: &str = "SELECT count(*) FROM kept";

// The parameters of a record.
fn kept_values<'a>(id: u64, lot: u64, answer: &'a Answer) -> [ValueRef<'a>; 4]
    requires id { id < 2 ^ 63 }
    requires lot { lot < 2 ^ 63 }
    ensures { bound result ≡ Int (pos id) ∷ Int (pos lot) ∷ Int (pos answer.now.errno)
        ∷ Blob answer.now.body ∷ [] }
{
    [
        (id as i64).to_sql(),
        (lot as i64).to_sql(),
        answer.errno.0.to_sql(),
        answer.body.as_slice().to_sql(),
    ]
}

/// Adds a record with a new id, under a lot.
pub fn insert_kept<S: Alter>(
    conn: &mut Connection<S>,
    id: u64,
    lot: u64,
    answer: &Answer,
) -> Result<(), Error>
    requires id { id < 2 ^ 63 }
    requires lot { lot < 2 ^ 63 }
    ensures made { Makes (put_kept (record { id = id; lot = lot; said = answer.now }))
        (state S.Store conn.old) (state S.Store conn.new) result }
    // It fails where there is a record of this id.
    ensures fresh { HasCleanDisk (state S.Store conn.new) → OnOk result ((c : GuestContent)
        → Inside c (state S.Store conn.old) → at_by kept_key id c.kept ≡ None) }
{
    let values = kept_values(id, lot, answer);
    run(conn, INSERT, &values)
}

/// Deletes the record of this id, if there is one.
pub fn delete_kept<S: Alter>(conn: &mut Connection<S>, id: u64) -> Result<(), Error>
    requires { id < 2 ^ 63 }
    ensures { Makes (without_kept id) (state S.Store conn.old) (state S.Store conn.new) result }
{
    let values = number(id);
    run(conn, DELETE, &values)
}

// The parameters of four ids.
fn four_values(first: u64, second: u64, third: u64, last: u64) -> [ValueRef<'static>; 4]
    requires first { first < 2 ^ 63 }
    requires second { second < 2 ^ 63 }
    requires third { third < 2 ^ 63 }
    requires last { last < 2 ^ 63 }
    ensures { bound result ≡ Int (pos first) ∷ Int (pos second) ∷ Int (pos third)
        ∷ Int (pos last) ∷ [] }
{
    [
        (first as i64).to_sql(),
        (second as i64).to_sql(),
        (third as i64).to_sql(),
        (last as i64).to_sql(),
    ]
}

/// Deletes the records of four ids in rising order, where there are any, by one statement.
pub fn delete_four_kept<S: Alter>(
    conn: &mut Connection<S>,
    first: u64,
    second: u64,
    third: u64,
    last: u64,
) -> Result<(), Error>
    requires second { first ≤ second }
    requires third { second ≤ third }
    requires last { third ≤ last }
    requires small { last < 2 ^ 63 }
    ensures { Makes (without_four first second third last) (state S.Store conn.old)
        (state S.Store conn.new) result }
{
    let values = four_values(first, second, third, last);
    run(conn, DELETE_FOUR, &values)
}

/// Deletes every record.
pub(crate) fn delete_all_kept<S: Alter>(conn: &mut Connection<S>) -> Result<(), Error>
    ensures made { Makes without_all_kept (state S.Store conn.old) (state S.Store conn.new) result }
    ensures within { StaysWithin (state S.Store conn.old) (state S.Store conn.new) result }
{
    run(conn, DELETE_ALL, &[])
}

/// The records of this id: one row or none.
pub fn select_kept<S: Alter>(conn: &mut Connection<S>, id: u64) -> Result<Vec<Row>, Error>
    requires { id < 2 ^ 63 }
    ensures looks { OnOk result (LookedInside (state S.Store conn.old) (state S.Store conn.new)) }
    ensures fails { OnErr result (Stays (state S.Store conn.old) (state S.Store conn.new)) }
    ensures found { HasCleanDisk (state S.Store conn.new) → IfOk result (λ rows. (c : GuestContent)
        → Inside c (state S.Store conn.old)
        → rows.items ≡ map shown_kept (option_to_list (at_by kept_key id c.kept))) }
    ensures rests { Serves (λ c. c) (state S.Store conn.old) (state S.Store conn.new) result }
    ensures open { StaysOpen (state S.Store conn.old) (state S.Store conn.new) result }
    // Whatever the database is, nothing is changed.
    ensures reads { OnlyReads (state S.Store conn.old) (state S.Store conn.new) result }
    ensures found_at_rest { HasCleanDisk (state S.Store conn.new) → IfOk result (λ rows.
        (c : GuestContent) → Rests c (state S.Store conn.old)
        → rows.items ≡ map shown_kept (option_to_list (at_by kept_key id c.kept))) }
{
    let values = number(id);
    conn.query_all(SELECT, &values)
}

// The number of records: one row.
fn select_count<S: Alter>(conn: &mut Connection<S>) -> Result<Vec<Row>, Error>
    ensures rests { Serves (λ c. c) (state S.Store conn.old) (state S.Store conn.new) result }
    ensures open { StaysOpen (state S.Store conn.old) (state S.Store conn.new) result }
    ensures reads { OnlyReads (state S.Store conn.old) (state S.Store conn.new) result }
    ensures found { HasCleanDisk (state S.Store conn.new) → IfOk result (λ rows. (c : GuestContent)
        → Rests c (state S.Store conn.old) → rows.items ≡ shown_number (counted_to c.kept) ∷ []) }
{
    conn.query_all(COUNT, &[])
}

/// The number of records, outside a transaction.
pub fn count_kept<S: Alter>(conn: &mut Connection<S>) -> Result<u64, StoreFault>
    ensures rests { Serves (λ c. c) (state S.Store conn.old) (state S.Store conn.new) result }
    ensures open { StaysOpen (state S.Store conn.old) (state S.Store conn.new) result }
    // Whatever the database is, nothing is changed.
    ensures reads { OnlyReads (state S.Store conn.old) (state S.Store conn.new) result }
    ensures value { HasCleanDisk (state S.Store conn.new) → IfOk result (λ n. (c : GuestContent)
        → Rests c (state S.Store conn.old) → n ≡ length c.kept) }
    ensures fault { IsSafe Holds (state S.Store conn.old) (state S.Store conn.new) result }
    ensures plain { IfErr result IsPlain }
{
    let rows = select_count(conn)?;
    the_count(rows.as_slice())
}
