// The number of a store.
ghost use Rattle.std.specs.Prelude.{◌≡◌, ◌<◌, ◌^◌, map, IfOk, IfErr};
ghost use Rattle.std.specs.Option.{option_to_list};
ghost use Rattle.sqlite.specs.State.{HasCleanDisk};
ghost use Rattle.sqlite.specs.Held.{state};
ghost use Rattle.fuse_store_tables.specs.declared.version.Layout.TheVariants.{Third};
ghost use Rattle.fuse_store_tables.specs.Content.{Content, counter_key, at_by, shown_counter};
ghost use Rattle.fuse_store_tables.specs.Content.{value_at};
ghost use Rattle.fuse_store_tables.specs.Faults.{IsOutside, IsPlain};
ghost use Rattle.fuse_store_tables.specs.Moves.{Rests, Serves, StaysOpen, OnlyReads};
ghost use Rattle.fuse_store_tables.specs.Opening.{MetaOf, profile_in};

use crate::columns::the_number;
use crate::counters::NUMBER;
use crate::values::number;
use fuse_keeper::StoreFault;
use sqlite::{Alter, Connection, Error, Row};

const SELECT: &str = "SELECT v FROM meta WHERE k = ?1";

// The number: one row, or none where the tables are not those of version 3.
fn select_number<S: Alter>(conn: &mut Connection<S>) -> Result<Vec<Row>, Error>
    ensures rests { Serves (λ c. c) (state S.Store conn.old) (state S.Store conn.new) result }
    ensures open { StaysOpen (state S.Store conn.old) (state S.Store conn.new) result }
    ensures reads { OnlyReads (state S.Store conn.old) (state S.Store conn.new) result }
    ensures found { HasCleanDisk (state S.Store conn.new) → IfOk result (λ rows. (c : Content)
        → Rests c (state S.Store conn.old)
        → rows.items ≡ map shown_counter (option_to_list (at_by counter_key 15 c.counters))) }
{
    let values = number(NUMBER);
    conn.query_all(SELECT, &values)
}

/// The number of a store of version 3, outside a transaction. A store without one is damaged.
pub fn number_at_rest<S: Alter>(conn: &mut Connection<S>) -> Result<u64, StoreFault>
    ensures rests { Serves (λ c. c) (state S.Store conn.old) (state S.Store conn.new) result }
    ensures open { StaysOpen (state S.Store conn.old) (state S.Store conn.new) result }
    // Whatever the database is, nothing is changed.
    ensures reads { OnlyReads (state S.Store conn.old) (state S.Store conn.new) result }
    ensures value { HasCleanDisk (state S.Store conn.new) → IfOk result (λ n. (c : Content)
        → Rests c (state S.Store conn.old) → n ≡ value_at 15 c) }
    ensures small { IfOk result (λ n. n < 2 ^ 63) }
    ensures fault { HasCleanDisk (state S.Store conn.new) → IfErr result (λ f. (c : Content)
        → Rests c (state S.Store conn.old) → c.layout ≡ Third → MetaOf (profile_in c) c
        → IsOutside f) }
    ensures plain { IfErr result IsPlain }
{
    let rows = select_number(conn)?;
    the_number(rows.as_slice())
}
