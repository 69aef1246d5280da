// The nodes of version 2, with what version 3 says more of them.
ghost use Rattle.std.specs.Prelude.{◌≡◌, ◌<◌, ◌≤◌, ◌^◌, ◌||◌, ◌==◌, ◌/◌, ◌%◌, [], ◌∷◌, List, map, filter};
ghost use Rattle.std.specs.Prelude.{pos, ℕ, ◌+◌, ⊤, None, IfOk, IfErr, IfSome, MatchOption, if◌then◌else◌};
ghost use Rattle.fuse_store_tables.specs.Content.{links_of};
ghost use Rattle.fuse_store_tables.specs.Faults.{IsOutside, IsPlain};
ghost use Rattle.std.specs.List.{sum_by};
ghost use Rattle.sqlite.specs.Held.{state};
ghost use Rattle.sqlite.specs.Values.{bound};
ghost use Rattle.fuse_rows.specs.Blocks.{how_many};
ghost use Rattle.fuse_rows.specs.declared.rows.NodeRow.{NodeRow as Node};
ghost use Rattle.fuse_store_tables.specs.Counted.{counted_to};
ghost use Rattle.fuse_store_tables.specs.Migrating.{is_block_of, with_written};
ghost use Rattle.fuse_store_tables.specs.Moves.{Takes};
ghost use Rattle.fuse_store_tables.specs.declared.version.Layout.TheVariants.{Second, Third};
ghost use Rattle.fuse_store_tables.specs.inner.Columns.{given_node, shown_number};
ghost use Rattle.fuse_store_tables.specs.inner.Copies.{added_of, NodeGiven, NodePut};
ghost use Rattle.fuse_store_tables.specs.inner.Copies.{NodesGiven, NodesPut};
ghost use Rattle.fuse_store_tables.specs.inner.Looking.{ReadsIf};

use crate::columns::{number_at, the_number};
use crate::copied::value_of;
use crate::statements::run;
use crate::values::number;
use fuse_keeper::StoreFault;
use sqlite::types::{ToSql, ValueRef};
use sqlite::{Alter, Connection, Error, Row};
use std::alloc::Global;

const SELECT: &str = "SELECT node, mode, uid, gid, rdev, size, atime, atimensec, mtime, mtimensec, \
    ctime, ctimensec, up, subdirs FROM nodes ORDER BY node";

const COUNT: &str = "SELECT count(*) FROM blocks WHERE node = ?1";

const INSERT: &str = "INSERT INTO nodes (node, mode, uid, gid, rdev, size, atime, \
    atimensec, mtime, mtimensec, ctime, ctimensec, up, subdirs, links, written, attributes) \
    VALUES (?1, ?2, ?3, ?4, ?5, ?6, ?7, ?8, ?9, ?10, ?11, ?12, ?13, ?14, ?15, ?16, ?17)";

/// What version 3 says more of a node.
#[derive(Clone, Copy)]
pub(crate) struct Added {
    pub(crate) links: i64,
    pub(crate) written: i64,
}

/// All nodes of version 2.
pub(crate) fn select_nodes<S: Alter>(conn: &mut Connection<S>) -> Result<Vec<Row>, StoreFault>
    ensures { ReadsIf (λ _. ⊤) (λ c rows. rows.items ≡ map (given_node Second) c.nodes)
        (state S.Store conn.old) (state S.Store conn.new) result }
{
    let rows = conn.query_all(SELECT, &[])?;
    Ok(rows)
}

// The number of blocks of a node: one row.
fn select_written<S: Alter>(conn: &mut Connection<S>, node: u64) -> Result<Vec<Row>, StoreFault>
    requires { node < 2 ^ 63 }
    ensures { ReadsIf (λ _. ⊤) (λ c rows.
        rows.items ≡ shown_number (counted_to (filter (is_block_of node) c.blocks)) ∷ [])
        (state S.Store conn.old) (state S.Store conn.new) result }
{
    let values = number(node);
    let rows = conn.query_all(COUNT, &values)?;
    Ok(rows)
}

// The number of blocks of a node.
fn count_written<S: Alter>(conn: &mut Connection<S>, node: u64) -> Result<u64, StoreFault>
    requires { node < 2 ^ 63 }
    ensures looks { ReadsIf (λ _. ⊤) (λ c n. n ≡ counted_to (filter (is_block_of node) c.blocks))
        (state S.Store conn.old) (state S.Store conn.new) result }
    ensures small { IfOk result (λ n. n < 2 ^ 63) }
{
    let rows = select_written(conn, node)?;
    the_number(rows.as_slice())
}

// The number of entries that lead to a node, by its mode and the directory above, 0 for a directory.
fn links_in(mode: u64, up: u64) -> i64
    ensures { result ≡ pos (if (mode / 4096 % 16 == 4) || (up == 0) then 0 else 1) }
{
    if mode / 4096 % 16 == 4 || up == 0 {
        0
    } else {
        1
    }
}

// The links of a node, and its number.
fn links_at(row: &Row) -> Result<(u64, i64), StoreFault>
    ensures value { IfOk result (λ p. (n : Node) → row.now ≡ given_node Second n
        → (p.0 ≡ n.node) × (p.1 ≡ pos (links_of n))) }
    ensures small { IfOk result (λ p. p.0 < 2 ^ 63) }
    ensures fault { IfErr result (λ f. (n : Node) → row.now ≡ given_node Second n → IsOutside f) }
    ensures plain { IfErr result IsPlain }
{
    let node = number_at(row, 0)?;
    let mode = number_at(row, 1)?;
    let up = number_at(row, 12)?;
    Ok((node, links_in(mode, up)))
}

// What is added to a node.
fn read_added<S: Alter>(conn: &mut Connection<S>, row: &Row) -> Result<Added, StoreFault>
    ensures { ReadsIf (λ _. (n : Node) × (row.now ≡ given_node Second n))
        (λ c a. (n : Node) → row.now ≡ given_node Second n → a ≡ added_of (with_written c.blocks n))
        (state S.Store conn.old) (state S.Store conn.new) result }
{
    let (node, links) = links_at(row)?;
    let written = count_written(conn, node)?;
    Ok(Added {
        links,
        written: written as i64,
    })
}

/// What is added to each of these nodes.
pub(crate) fn read_all_added<S: Alter>(
    alloc: Global,
    conn: &mut Connection<S>,
    nodes: &[Row],
) -> Result<Vec<Added>, StoreFault>
    ensures { ReadsIf (λ c. nodes.now ≡ map (given_node Second) c.nodes)
        (λ c v. v.items ≡ map (λ n. added_of (with_written c.blocks n)) c.nodes)
        (state S.Store conn.old) (state S.Store conn.new) result }
{
    let mut all = Vec::new(alloc);
    let mut at = 0;
    'nodes: while at < nodes.len() {
        match read_added(conn, &nodes[at]) {
            Ok(added) => match all.push(added) {
                Ok(()) => {}
                Err(_) => return Err(StoreFault::Memory),
            },
            Err(fault) => return Err(fault),
        }
        at += 1;
    }
    Ok(all)
}

// A sum with a number more, if it is no more than this.
fn sum_with(sum: u64, added: &Added, most: u64) -> Option<u64>
    requires { sum ≤ most }
    ensures value { (n : ℕ) → added.now.written ≡ pos n → MatchOption result (most < sum + n)
        (λ m. m ≡ sum + n) }
    ensures small { IfSome result (λ m. m ≤ most) }
{
    let written = added.written;
    if written < 0 {
        return None;
    }
    let more = written as u64;
    if more > most - sum {
        return None;
    }
    Some(sum + more)
}

/// The sum of the written blocks, if it is no more than this.
pub(crate) fn sum_within(all: &[Added], most: u64) -> Option<u64>
    ensures value { IfSome result (λ sum. (ns : List Node) → all.now ≡ map added_of ns
        → sum ≡ sum_by (λ n. how_many n.written) ns) }
    ensures small { IfSome result (λ sum. sum ≤ most) }
    ensures beyond { result ≡ None → (ns : List Node) → all.now ≡ map added_of ns
        → most < sum_by (λ n. how_many n.written) ns }
{
    let mut sum = 0;
    let mut at = 0;
    'all: while at < all.len() {
        match sum_with(sum, &all[at], most) {
            Some(next) => sum = next,
            None => return None,
        }
        at += 1;
    }
    Some(sum)
}

// The parameters of a node with what is added to it.
fn added_values<'a>(row: &'a Row, added: &Added) -> [ValueRef<'a>; 17]
    ensures { (n : Node) → row.now ≡ given_node Second n → added.now ≡ added_of n
        → bound result ≡ given_node Third n }
{
    [
        value_of(row, 0),
        value_of(row, 1),
        value_of(row, 2),
        value_of(row, 3),
        value_of(row, 4),
        value_of(row, 5),
        value_of(row, 6),
        value_of(row, 7),
        value_of(row, 8),
        value_of(row, 9),
        value_of(row, 10),
        value_of(row, 11),
        value_of(row, 12),
        value_of(row, 13),
        added.links.to_sql(),
        added.written.to_sql(),
        0i64.to_sql(),
    ]
}

// Puts a node into the table of version 3.
fn insert_counted<S: Alter>(conn: &mut Connection<S>, row: &Row, added: &Added) -> Result<(), Error>
    ensures { Takes (NodeGiven row.now added.now) NodePut (state S.Store conn.old)
        (state S.Store conn.new) result }
{
    let values = added_values(row, added);
    run(conn, INSERT, &values)
}

/// Puts these nodes into the table of version 3.
pub(crate) fn insert_nodes<S: Alter>(
    conn: &mut Connection<S>,
    rows: &[Row],
    added: &[Added],
) -> Result<(), Error>
    ensures { Takes (NodesGiven rows.now added.now) NodesPut (state S.Store conn.old)
        (state S.Store conn.new) result }
{
    let mut at = 0;
    'rows: while at < rows.len() {
        if at >= added.len() {
            return Err(Error::InvalidQuery);
        }
        match insert_counted(conn, &rows[at], &added[at]) {
            Ok(()) => {}
            Err(error) => return Err(error),
        }
        at += 1;
    }
    Ok(())
}
