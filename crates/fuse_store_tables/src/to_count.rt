// Whether a store is an everyday one of version 2, which its opening brings to version 3.
ghost use Rattle.std.specs.Prelude.{◌≡◌, true, false, map, codes, Option, None, Ok, IsTrue, IfOk, IfErr};
ghost use Rattle.std.specs.Prelude.{Decides};
ghost use Rattle.std.specs.Option.{is_some, option_to_list};
ghost use Rattle.sqlite.specs.State.{HasCleanDisk};
ghost use Rattle.sqlite.specs.Held.{state};
ghost use Rattle.sqlite_schema.specs.Names.{table_named};
ghost use Rattle.fuse_store_tables.specs.Content.{Content, Counter, shown_counter, counter_key, at_by};
ghost use Rattle.fuse_store_tables.specs.Faults.{IsOutside};
ghost use Rattle.fuse_store_tables.specs.Moves.{StaysOpen, OnlyReads};
ghost use Rattle.fuse_store_tables.specs.ToCount.{HoldsOfSecond, IsOfSecond, BlocksAreApart, SeesTheSame};

use crate::schema::{is_second, is_unindexed};
use fuse_keeper::StoreFault;
use sqlite::{Alter, Connection, Error, Row};
use sqlite_schema::schema::Schema;

const SELECT: &str = "SELECT v FROM meta WHERE k = 12";

// The number of the profile: one row, or none in a plain store.
fn select_profile<S: Alter>(conn: &mut Connection<S>) -> Result<Vec<Row>, Error>
    ensures open { StaysOpen (state S.Store conn.old) (state S.Store conn.new) result }
    ensures reads { OnlyReads (state S.Store conn.old) (state S.Store conn.new) result }
    ensures was { HasCleanDisk (state S.Store conn.new)
        → IfOk result (λ rows. IsTrue (state S.Store conn.old).is_open) }
    ensures found { HasCleanDisk (state S.Store conn.new) → IfOk result (λ rows. (c : Content)
        → HoldsOfSecond c (state S.Store conn.old).now
        → rows.items ≡ map shown_counter (option_to_list (at_by counter_key 12 c.counters))) }
{
    conn.query_all(SELECT, &[])
}

// Whether these are the tables of version 2, with its index or without.
fn is_of_second(schema: &Schema) -> bool
    ensures { Decides result (IsOfSecond schema.now) }
{
    is_second(schema) || is_unindexed(schema)
}

// Whether there is a row.
fn is_any(rows: &[Row]) -> bool
    ensures { (o : Option Counter) → rows.now ≡ map shown_counter (option_to_list o)
        → result ≡ is_some o }
{
    !rows.is_empty()
}

/// Whether an everyday store of version 2 is there, outside a transaction. No row is read where the
/// tables are others than those of version 2.
pub fn is_to_count<S: Alter>(conn: &mut Connection<S>) -> Result<bool, StoreFault>
    // Whatever the database is, nothing is changed.
    ensures same { IfOk result
        (λ b. SeesTheSame (state S.Store conn.old) (state S.Store conn.new)) }
    ensures open { StaysOpen (state S.Store conn.old) (state S.Store conn.new) result }
    ensures reads { OnlyReads (state S.Store conn.old) (state S.Store conn.new) result }
    ensures was { HasCleanDisk (state S.Store conn.new)
        → IfOk result (λ b. b ≡ true → IsTrue (state S.Store conn.old).is_open) }
    ensures outside { IfErr result IsOutside }
    ensures second { IfOk result (λ b. b ≡ true
        → IsOfSecond (state S.Store conn.old).now.schema) }
    // The entry of the profile is that of an everyday store.
    ensures value { HasCleanDisk (state S.Store conn.new)
        → (state S.Store conn.old).in_transaction ≡ false → IfOk result (λ b. (c : Content)
        → HoldsOfSecond c (state S.Store conn.old).now
        → b ≡ is_some (at_by counter_key 12 c.counters)) }
    ensures busy { (state S.Store conn.old).in_transaction ≡ true
        → (result ≡ Ok false) × (conn.new ≡ conn.old) }
    ensures absent { table_named (state S.Store conn.old).now.schema (codes "meta") ≡ None
        → (result ≡ Ok false) × (conn.new ≡ conn.old) }
{
    if !conn.is_autocommit() {
        return Ok(false);
    }
    if !is_of_second(conn.schema()) {
        return Ok(false);
    }
    let rows = select_profile(conn)?;
    Ok(is_any(rows.as_slice()))
}

/// In the tables of version 2, no two rows of `blocks` have the same block of a node.
pub fn blocks_are_apart()
    ensures { BlocksAreApart }
{}
