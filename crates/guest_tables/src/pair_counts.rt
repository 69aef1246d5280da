// The number of pairs.
ghost use Rattle.std.specs.Prelude.{◌≡◌, [], ◌∷◌, length, IfOk, IfErr};
ghost use Rattle.sqlite.specs.State.{HasCleanDisk};
ghost use Rattle.sqlite.specs.Held.{state};
ghost use Rattle.fuse_store_tables.specs.Clearing.{counted_to};
ghost use Rattle.fuse_store_tables.specs.Faults.{IsPlain};
ghost use Rattle.fuse_store_tables.specs.Moves.{IsSafe, OnlyReads, RestsAs, StaysOpen};
ghost use Rattle.fuse_store_tables.specs.inner.Columns.{shown_number};
ghost use Rattle.guest_tables.specs.Content.{GuestContent, Holds};
ghost use Rattle.guest_tables.specs.Holding.{GuestHolding, HeldFor, pairs_in};
ghost use Rattle.guest_tables.specs.Moves.{Rests, Serves};

use crate::columns::the_count;
use fuse_keeper::StoreFault;
use sqlite::{Alter, Connection, Error, Row};

const COUNT: &str = "SELECT count(*) FROM pairs";

// The number of pairs: one row.
fn select_count<S: Alter>(conn: &mut Connection<S>) -> Result<Vec<Row>, Error>
    ensures rests { Serves (λ c. c) (state S.Store conn.old) (state S.Store conn.new) result }
    ensures open { StaysOpen (state S.Store conn.old) (state S.Store conn.new) result }
    ensures reads { OnlyReads (state S.Store conn.old) (state S.Store conn.new) result }
    ensures found { HasCleanDisk (state S.Store conn.new) → IfOk result (λ rows.
        (c : GuestContent) → Rests c (state S.Store conn.old)
        → rows.items ≡ shown_number (counted_to c.pairs) ∷ []) }
{
    conn.query_all(COUNT, &[])
}

/// The number of pairs, outside a transaction.
pub fn count_pairs<S: Alter>(conn: &mut Connection<S>) -> Result<u64, StoreFault>
    ensures rests { Serves (λ c. c) (state S.Store conn.old) (state S.Store conn.new) result }
    ensures open { StaysOpen (state S.Store conn.old) (state S.Store conn.new) result }
    // Whatever the database is, nothing is changed.
    ensures reads { OnlyReads (state S.Store conn.old) (state S.Store conn.new) result }
    ensures value { HasCleanDisk (state S.Store conn.new) → IfOk result (λ n. (y : GuestHolding)
        → RestsAs (HeldFor y) (state S.Store conn.old) → n ≡ length y.state.pairs) }
    // It is that of the rows, whether they are in order or not.
    ensures counted { HasCleanDisk (state S.Store conn.new) → IfOk result (λ n.
        (c : GuestContent) → Rests c (state S.Store conn.old) → n ≡ length (pairs_in c)) }
    ensures fault { IsSafe Holds (state S.Store conn.old) (state S.Store conn.new) result }
    ensures plain { IfErr result IsPlain }
{
    let rows = select_count(conn)?;
    the_count(rows.as_slice())
}
