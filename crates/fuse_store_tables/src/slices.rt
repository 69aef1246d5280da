// Blocks and pieces of all nodes, read by slices.
ghost use Rattle.std.specs.Prelude.{◌≡◌, ◌<◌, ◌^◌, [], ◌∷◌, map, take, filter, length, IfOk, IfErr};
ghost use Rattle.std.specs.Prelude.{OnOk, OnErr};
ghost use Rattle.sqlite.specs.State.{HasCleanDisk};
ghost use Rattle.sqlite.specs.Held.{state};
ghost use Rattle.fuse_store_tables.specs.declared.version.Layout.TheVariants.{Third};
ghost use Rattle.fuse_store_tables.specs.Clearing.{counted_to};
ghost use Rattle.fuse_store_tables.specs.Content.{Content, HoldsIn};
ghost use Rattle.fuse_store_tables.specs.Faults.{IsOutside, IsPlain};
ghost use Rattle.fuse_store_tables.specs.Moves.{Inside, RestsAs, Makes, LookedInside, Stays};
ghost use Rattle.fuse_store_tables.specs.Moves.{ServesAs, StaysOpen, OnlyReads};
ghost use Rattle.fuse_store_tables.specs.Slices.{reaches, ShowsKeys, is_listed_above, shown_extent};
ghost use Rattle.fuse_store_tables.specs.inner.Columns.{shown_number};

use crate::columns::the_count;
use crate::values::{pair, triple};
use fuse_keeper::StoreFault;
use sqlite::{Alter, Connection, Error, Row};

const COUNT: &str = "SELECT count(*) FROM blocks";

// The first test alone bounds the scan of the index.
const SELECT_KEYS: &str = "SELECT node, block FROM blocks \
    WHERE node >= ?1 AND (node > ?1 OR block >= ?2) ORDER BY node, block LIMIT ?3";

const SELECT_LISTED: &str = "SELECT rowid, count, place, sum FROM pieces \
    WHERE rowid > ?1 AND place > 0 ORDER BY rowid LIMIT ?2";

// The number of blocks of all nodes: one row.
fn select_count<S: Alter>(conn: &mut Connection<S>) -> Result<Vec<Row>, Error>
    ensures looks { Makes (λ c. c) (state S.Store conn.old) (state S.Store conn.new) result }
    ensures found { HasCleanDisk (state S.Store conn.new) → IfOk result (λ rows. (c : Content)
        → Inside c (state S.Store conn.old)
        → rows.items ≡ shown_number (counted_to c.blocks) ∷ []) }
{
    conn.query_all(COUNT, &[])
}

/// The number of blocks of all nodes.
pub fn count_all_blocks<S: Alter>(conn: &mut Connection<S>) -> Result<u64, StoreFault>
    ensures looks { OnOk result (LookedInside (state S.Store conn.old) (state S.Store conn.new)) }
    ensures fails { OnErr result (Stays (state S.Store conn.old) (state S.Store conn.new)) }
    ensures value { HasCleanDisk (state S.Store conn.new) → IfOk result (λ n. (c : Content)
        → Inside c (state S.Store conn.old) → n ≡ length c.blocks) }
    ensures small { IfOk result (λ n. n < 2 ^ 63) }
    ensures fault { HasCleanDisk (state S.Store conn.new) → IfErr result (λ f. (c : Content)
        → Inside c (state S.Store conn.old) → IsOutside f) }
    ensures plain { IfErr result IsPlain }
{
    let rows = select_count(conn)?;
    the_count(rows.as_slice())
}

/// The nodes and numbers of the blocks from this number of this node on, in their order: at most
/// `limit` of them. No bytes are read.
pub fn select_block_keys<S: Alter>(
    conn: &mut Connection<S>,
    node: u64,
    block: u64,
    limit: u64,
) -> Result<Vec<Row>, Error>
    requires node { node < 2 ^ 63 }
    requires block { block < 2 ^ 63 }
    requires limit { limit < 2 ^ 63 }
    ensures looks { OnOk result (LookedInside (state S.Store conn.old) (state S.Store conn.new)) }
    ensures fails { OnErr result (Stays (state S.Store conn.old) (state S.Store conn.new)) }
    ensures found { HasCleanDisk (state S.Store conn.new) → IfOk result (λ rows. (c : Content)
        → Inside c (state S.Store conn.old)
        → ShowsKeys limit (filter (reaches node block) c.blocks) rows.items) }
{
    let values = triple(node, block, limit);
    conn.query_all(SELECT_KEYS, &values)
}

/// The pieces that have a place in the data file and whose slots are above this one, in the order of
/// their slots: at most `limit` of them. Each slot stands before the piece. Outside a transaction.
// There is no index on the places: a slice in their order would read all rows.
pub fn select_listed_pieces<S: Alter>(
    conn: &mut Connection<S>,
    slot: u64,
    limit: u64,
) -> Result<Vec<Row>, Error>
    requires slot { slot < 2 ^ 63 }
    requires limit { limit < 2 ^ 63 }
    ensures rests { ServesAs (HoldsIn Third) (HoldsIn Third) (state S.Store conn.old)
        (state S.Store conn.new) result }
    ensures open { StaysOpen (state S.Store conn.old) (state S.Store conn.new) result }
    // Whatever the database is, nothing is changed.
    ensures reads { OnlyReads (state S.Store conn.old) (state S.Store conn.new) result }
    ensures found { HasCleanDisk (state S.Store conn.new) → IfOk result (λ rows. (c : Content)
        → RestsAs (HoldsIn Third c) (state S.Store conn.old)
        → rows.items ≡ take limit (map shown_extent (filter (is_listed_above slot) c.pieces))) }
{
    let values = pair(slot, limit);
    conn.query_all(SELECT_LISTED, &values)
}
