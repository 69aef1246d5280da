// Blocks of a node in a range of numbers.
ghost use Rattle.std.specs.Prelude.{◌≡◌, ◌<◌, ◌-◌, ◌^◌, [], ◌∷◌, filter, length, IfOk, IfErr};
ghost use Rattle.std.specs.Prelude.{OnOk, OnErr};
ghost use Rattle.std.specs.Option.{is_some};
ghost use Rattle.sqlite.specs.State.{HasCleanDisk};
ghost use Rattle.sqlite.specs.Held.{state};
ghost use Rattle.fuse_rows.specs.Blocks.{numbers_from};
ghost use Rattle.fuse_store_tables.specs.Blocks.{block_at};
ghost use Rattle.fuse_store_tables.specs.Clearing.{counted_to};
ghost use Rattle.fuse_store_tables.specs.Content.{Content};
ghost use Rattle.fuse_store_tables.specs.Faults.{IsOutside, IsPlain};
ghost use Rattle.fuse_store_tables.specs.Moves.{Inside, Makes, LookedInside, Stays};
ghost use Rattle.fuse_store_tables.specs.Ranges.{is_between, without_blocks_between, ShowsBlocks};
ghost use Rattle.fuse_store_tables.specs.inner.Columns.{shown_number};

use crate::columns::the_count;
use crate::pieces::slice_values;
use crate::statements::run;
use crate::values::triple;
use fuse_keeper::StoreFault;
use sqlite::{Alter, Connection, Error, Row};

const DELETE: &str = "DELETE FROM blocks WHERE node = ?1 AND block >= ?2 AND block < ?3";

const SELECT: &str = "SELECT block, bytes FROM blocks \
    WHERE node = ?1 AND block >= ?2 AND block < ?3 ORDER BY block LIMIT ?4";

const COUNT: &str = "SELECT count(*) FROM blocks WHERE node = ?1 AND block >= ?2 AND block < ?3";

/// Deletes the blocks of a node from one number on, below another.
pub fn delete_blocks_between<S: Alter>(
    conn: &mut Connection<S>,
    node: u64,
    from: u64,
    to: u64,
) -> Result<(), Error>
    requires node { node < 2 ^ 63 }
    requires from { from < 2 ^ 63 }
    requires to { to < 2 ^ 63 }
    ensures { Makes (without_blocks_between node from to) (state S.Store conn.old)
        (state S.Store conn.new) result }
{
    let values = triple(node, from, to);
    run(conn, DELETE, &values)
}

/// The blocks of a node from one number on, below another, in the order of their numbers: at most
/// `limit` of them. Each number stands before the bytes.
pub fn select_blocks<S: Alter>(
    conn: &mut Connection<S>,
    node: u64,
    from: u64,
    to: u64,
    limit: u64,
) -> Result<Vec<Row>, Error>
    requires node { node < 2 ^ 63 }
    requires from { from < 2 ^ 63 }
    requires to { to < 2 ^ 63 }
    requires limit { limit < 2 ^ 63 }
    ensures looks { OnOk result (LookedInside (state S.Store conn.old) (state S.Store conn.new)) }
    ensures fails { OnErr result (Stays (state S.Store conn.old) (state S.Store conn.new)) }
    ensures found { HasCleanDisk (state S.Store conn.new) → IfOk result (λ rows. (c : Content)
        → Inside c (state S.Store conn.old)
        → ShowsBlocks limit (filter (is_between node from to) c.blocks) rows.items) }
{
    let values = slice_values(node, from, to, limit);
    conn.query_all(SELECT, &values)
}

// The number of blocks in a range: one row.
fn select_count<S: Alter>(
    conn: &mut Connection<S>,
    node: u64,
    from: u64,
    to: u64,
) -> Result<Vec<Row>, Error>
    requires node { node < 2 ^ 63 }
    requires from { from < 2 ^ 63 }
    requires to { to < 2 ^ 63 }
    ensures looks { Makes (λ c. c) (state S.Store conn.old) (state S.Store conn.new) result }
    ensures found { HasCleanDisk (state S.Store conn.new) → IfOk result (λ rows. (c : Content)
        → Inside c (state S.Store conn.old)
        → rows.items ≡ shown_number (counted_to (filter (is_between node from to) c.blocks)) ∷ []) }
{
    let values = triple(node, from, to);
    conn.query_all(COUNT, &values)
}

/// The number of blocks of a node from one number on, below another.
pub fn count_blocks<S: Alter>(
    conn: &mut Connection<S>,
    node: u64,
    from: u64,
    to: u64,
) -> Result<u64, StoreFault>
    requires node { node < 2 ^ 63 }
    requires from { from < 2 ^ 63 }
    requires to { to < 2 ^ 63 }
    ensures looks { OnOk result (LookedInside (state S.Store conn.old) (state S.Store conn.new)) }
    ensures fails { OnErr result (Stays (state S.Store conn.old) (state S.Store conn.new)) }
    ensures value { HasCleanDisk (state S.Store conn.new) → IfOk result (λ n. (c : Content)
        → Inside c (state S.Store conn.old)
        → n ≡ length (filter (is_between node from to) c.blocks)) }
    // No two of them have the same number.
    ensures numbers { HasCleanDisk (state S.Store conn.new) → IfOk result (λ n. (c : Content)
        → Inside c (state S.Store conn.old)
        → n ≡ length (filter (λ k. is_some (block_at node k c.blocks))
        (numbers_from from (to - from)))) }
    ensures small { IfOk result (λ n. n < 2 ^ 63) }
    ensures fault { HasCleanDisk (state S.Store conn.new) → IfErr result (λ f. (c : Content)
        → Inside c (state S.Store conn.old) → IsOutside f) }
    ensures plain { IfErr result IsPlain }
{
    let rows = select_count(conn, node, from, to)?;
    the_count(rows.as_slice())
}
