// The table of blocks.
ghost use Rattle.std.specs.Prelude.{◌≡◌, ◌<◌, ◌^◌, [], ◌∷◌, pos, map, IfOk, OnOk, OnErr};
ghost use Rattle.std.specs.Option.{is_some, option_to_list};
ghost use Rattle.sqlite.specs.declared.types.Value.TheVariants.{Int, Blob};
ghost use Rattle.sqlite.specs.State.{HasCleanDisk};
ghost use Rattle.sqlite.specs.Held.{state};
ghost use Rattle.sqlite.specs.Values.{bound};
ghost use Rattle.fuse_store_tables.specs.Moves.{Inside, Makes, LookedInside, Stays};
ghost use Rattle.fuse_store_tables.specs.Blocks.{block_at, shown_block};
ghost use Rattle.fuse_store_tables.specs.Content.{Content, with_block, set_block, put_block};
ghost use Rattle.fuse_store_tables.specs.Content.{without_blocks_from};
ghost use Rattle.fuse_store_tables.specs.inner.Performing.{StaysWithin};

use crate::statements::{run, run_any};
use crate::values::pair;
use sqlite::types::{ToSql, ValueRef};
use sqlite::{Alter, Connection, Error, Row};

const INSERT: &str = "INSERT INTO blocks (node, block, bytes) VALUES (?1, ?2, ?3)";

const UPDATE: &str = "UPDATE blocks SET bytes = ?3 WHERE node = ?1 AND block = ?2";

const DELETE_FROM: &str = "DELETE FROM blocks WHERE node = ?1 AND block >= ?2";

const SELECT: &str = "SELECT bytes FROM blocks WHERE node = ?1 AND block = ?2";

// The parameters of a block.
fn block_values<'a>(node: u64, block: u64, bytes: &'a [u8]) -> [ValueRef<'a>; 3]
    requires node { node < 2 ^ 63 }
    requires block { block < 2 ^ 63 }
    ensures { bound result ≡ Int (pos node) ∷ Int (pos block) ∷ Blob bytes.now ∷ [] }
{
    [
        (node as i64).to_sql(),
        (block as i64).to_sql(),
        bytes.to_sql(),
    ]
}

/// Adds a block at a place without one.
pub fn insert_block<S: Alter>(
    conn: &mut Connection<S>,
    node: u64,
    block: u64,
    bytes: &[u8],
) -> Result<(), Error>
    requires node { node < 2 ^ 63 }
    requires block { block < 2 ^ 63 }
    ensures { Makes (with_block node block bytes.now) (state S.Store conn.old)
        (state S.Store conn.new) result }
{
    let values = block_values(node, block, bytes);
    run(conn, INSERT, &values)
}

/// Changes the bytes of the block at this place, and says whether there is one.
pub fn update_block<S: Alter>(
    conn: &mut Connection<S>,
    node: u64,
    block: u64,
    bytes: &[u8],
) -> Result<bool, Error>
    requires node { node < 2 ^ 63 }
    requires block { block < 2 ^ 63 }
    ensures made { Makes (set_block node block bytes.now) (state S.Store conn.old)
        (state S.Store conn.new) result }
    ensures found { HasCleanDisk (state S.Store conn.new) → IfOk result (λ found. (c : Content)
        → Inside c (state S.Store conn.old) → found ≡ is_some (block_at node block c.blocks)) }
{
    let values = block_values(node, block, bytes);
    run_any(conn, UPDATE, &values)
}

/// Writes the bytes of a block, in place of those before or as a new block.
pub fn write_block<S: Alter>(
    conn: &mut Connection<S>,
    node: u64,
    block: u64,
    bytes: &[u8],
) -> Result<(), Error>
    requires node { node < 2 ^ 63 }
    requires block { block < 2 ^ 63 }
    ensures { Makes (put_block node block bytes.now) (state S.Store conn.old)
        (state S.Store conn.new) result }
{
    match update_block(conn, node, block, bytes) {
        Ok(true) => Ok(()),
        Ok(false) => insert_block(conn, node, block, bytes),
        Err(error) => Err(error),
    }
}

/// Deletes the blocks of a node from this number on, and ends no transaction.
pub(crate) fn remove_blocks_from<S: Alter>(
    conn: &mut Connection<S>,
    node: u64,
    from: u64,
) -> Result<(), Error>
    requires node { node < 2 ^ 63 }
    requires from { from < 2 ^ 63 }
    ensures made { Makes (without_blocks_from node from) (state S.Store conn.old)
        (state S.Store conn.new) result }
    ensures within { StaysWithin (state S.Store conn.old) (state S.Store conn.new) result }
{
    let values = pair(node, from);
    run(conn, DELETE_FROM, &values)
}

/// Deletes the blocks of a node from this number on.
pub fn delete_blocks_from<S: Alter>(
    conn: &mut Connection<S>,
    node: u64,
    from: u64,
) -> Result<(), Error>
    requires node { node < 2 ^ 63 }
    requires from { from < 2 ^ 63 }
    ensures made { Makes (without_blocks_from node from) (state S.Store conn.old)
        (state S.Store conn.new) result }
{
    remove_blocks_from(conn, node, from)
}

/// The blocks at this place: one row or none.
pub fn select_block<S: Alter>(
    conn: &mut Connection<S>,
    node: u64,
    block: u64,
) -> Result<Vec<Row>, Error>
    requires node { node < 2 ^ 63 }
    requires block { block < 2 ^ 63 }
    ensures looks { OnOk result (LookedInside (state S.Store conn.old) (state S.Store conn.new)) }
    ensures fails { OnErr result (Stays (state S.Store conn.old) (state S.Store conn.new)) }
    ensures found { HasCleanDisk (state S.Store conn.new) → IfOk result (λ rows. (c : Content)
        → Inside c (state S.Store conn.old)
        → rows.items ≡ map shown_block (option_to_list (block_at node block c.blocks))) }
{
    let values = pair(node, block);
    conn.query_all(SELECT, &values)
}
