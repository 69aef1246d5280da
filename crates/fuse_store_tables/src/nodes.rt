// The table of nodes.
ghost use Rattle.std.specs.Prelude.{◌≡◌, ◌<◌, ◌≤◌, ◌^◌, [], ◌∷◌, map, None, IfOk, IfErr, OnOk};
ghost use Rattle.std.specs.Prelude.{OnErr};
ghost use Rattle.std.specs.Option.{is_some, option_to_list};
ghost use Rattle.std.specs.List.{sum_by};
ghost use Rattle.sqlite.specs.State.{HasCleanDisk};
ghost use Rattle.sqlite.specs.Held.{state};
ghost use Rattle.sqlite.specs.Values.{bound};
ghost use Rattle.fuse_rows.specs.Columns.{FitsNode};
ghost use Rattle.fuse_store_tables.specs.Moves.{Inside, Rests, Makes, LookedInside, Stays, Serves};
ghost use Rattle.fuse_store_tables.specs.Moves.{StaysOpen, IsSafe, OnlyReads, Takes, InsideAs};
ghost use Rattle.fuse_store_tables.specs.inner.Performing.{IsSure, StaysWithin};
ghost use Rattle.fuse_store_tables.specs.Content.{Content, Holds, node_columns, node_key};
ghost use Rattle.fuse_store_tables.specs.Content.{links_of};
ghost use Rattle.fuse_store_tables.specs.inner.Columns.{given_node, shown_number};
ghost use Rattle.fuse_store_tables.specs.Content.{at_by, with_node, set_node, without_node};
ghost use Rattle.fuse_store_tables.specs.inner.Steps.{HoldsIn, without_unnamed, unnamed_extents};
ghost use Rattle.fuse_store_tables.specs.declared.version.Layout.TheVariants.{Second, Third};
ghost use Rattle.fuse_rows.specs.Blocks.{how_many};
ghost use Rattle.fuse_store_tables.specs.Clearing.{counted_to, unnamed_numbers};
ghost use Rattle.fuse_store_tables.specs.Faults.{IsPlain};

use crate::columns::the_number;
use crate::schema::layout_of;
use crate::statements::{run, run_any};
use crate::values::number;
use crate::version::Layout;
use fuse_keeper::StoreFault;
use fuse_rows::NodeRow;
use sqlite::types::{ToSql, ValueRef};
use sqlite::{Alter, Connection, Error, Row};

const INSERT: &str = "INSERT INTO nodes (node, mode, uid, gid, rdev, size, atime, atimensec, \
    mtime, mtimensec, ctime, ctimensec, up, subdirs) \
    VALUES (?1, ?2, ?3, ?4, ?5, ?6, ?7, ?8, ?9, ?10, ?11, ?12, ?13, ?14)";

const UPDATE: &str = "UPDATE nodes SET mode = ?2, uid = ?3, gid = ?4, rdev = ?5, size = ?6, \
    atime = ?7, atimensec = ?8, mtime = ?9, mtimensec = ?10, ctime = ?11, ctimensec = ?12, \
    up = ?13, subdirs = ?14 WHERE node = ?1";

const INSERT_THIRD: &str = "INSERT INTO nodes (node, mode, uid, gid, rdev, size, atime, \
    atimensec, mtime, mtimensec, ctime, ctimensec, up, subdirs, links, written, attributes) \
    VALUES (?1, ?2, ?3, ?4, ?5, ?6, ?7, ?8, ?9, ?10, ?11, ?12, ?13, ?14, ?15, ?16, ?17)";

const UPDATE_THIRD: &str = "UPDATE nodes SET mode = ?2, uid = ?3, gid = ?4, rdev = ?5, size = ?6, \
    atime = ?7, atimensec = ?8, mtime = ?9, mtimensec = ?10, ctime = ?11, ctimensec = ?12, \
    up = ?13, subdirs = ?14, links = ?15, written = ?16, attributes = ?17 WHERE node = ?1";

const DELETE: &str = "DELETE FROM nodes WHERE node = ?1";

const SELECT: &str = "SELECT mode, uid, gid, rdev, size, atime, atimensec, mtime, mtimensec, \
    ctime, ctimensec, up, subdirs FROM nodes WHERE node = ?1";

const SELECT_THIRD: &str = "SELECT mode, uid, gid, rdev, size, atime, atimensec, mtime, mtimensec, \
    ctime, ctimensec, up, subdirs, links, written, attributes FROM nodes WHERE node = ?1";

const SELECT_UNNAMED: &str = "SELECT node FROM nodes WHERE up = 0 AND node > 1 ORDER BY node";

const UNNAMED_SIZES: &str = "SELECT size FROM nodes WHERE up = 0 AND node > 1 ORDER BY node";

const UNNAMED_WRITTEN: &str = "SELECT written FROM nodes WHERE up = 0 AND node > 1 ORDER BY node";

const DELETE_UNNAMED: &str = "DELETE FROM nodes WHERE up = 0 AND node > 1";

const COUNT: &str = "SELECT count(*) FROM nodes";

const SUM_SIZES: &str = "SELECT coalesce(sum(size), 0) FROM nodes";

// The parameters of a node in version 2.
fn node_values(row: &NodeRow) -> [ValueRef<'static>; 14]
    requires { FitsNode row.now }
    ensures { bound result ≡ given_node Second row.now }
{
    [
        (row.node as i64).to_sql(),
        row.mode.to_sql(),
        row.uid.to_sql(),
        row.gid.to_sql(),
        row.rdev.to_sql(),
        (row.size as i64).to_sql(),
        row.atime.secs.cast_signed().to_sql(),
        row.atime.nanos.to_sql(),
        row.mtime.secs.cast_signed().to_sql(),
        row.mtime.nanos.to_sql(),
        row.ctime.secs.cast_signed().to_sql(),
        row.ctime.nanos.to_sql(),
        (row.up as i64).to_sql(),
        row.subdirs.to_sql(),
    ]
}

// The number of entries that lead to a node, 0 for a directory.
fn links_of(row: &NodeRow) -> u64
    ensures value { result ≡ links_of row.now }
    ensures small { result ≤ 1 }
{
    if row.mode / 4096 % 16 == 4 || row.up == 0 {
        0
    } else {
        1
    }
}

// The number of its written blocks, 0 where they aren't counted.
fn written_of(row: &NodeRow) -> u64
    ensures { result ≡ how_many row.now.written }
{
    match row.written {
        None => 0,
        Some(count) => count,
    }
}

// The same in version 3. No node has extended attributes yet.
fn third_values(row: &NodeRow) -> [ValueRef<'static>; 17]
    requires { FitsNode row.now }
    ensures { bound result ≡ given_node Third row.now }
{
    let links = links_of(row);
    let written = written_of(row);
    [
        (row.node as i64).to_sql(),
        row.mode.to_sql(),
        row.uid.to_sql(),
        row.gid.to_sql(),
        row.rdev.to_sql(),
        (row.size as i64).to_sql(),
        row.atime.secs.cast_signed().to_sql(),
        row.atime.nanos.to_sql(),
        row.mtime.secs.cast_signed().to_sql(),
        row.mtime.nanos.to_sql(),
        row.ctime.secs.cast_signed().to_sql(),
        row.ctime.nanos.to_sql(),
        (row.up as i64).to_sql(),
        row.subdirs.to_sql(),
        (links as i64).to_sql(),
        (written as i64).to_sql(),
        0i64.to_sql(),
    ]
}

// Adds a node to tables of this layout.
fn insert_in<S: Alter>(conn: &mut Connection<S>, layout: Layout, row: &NodeRow) -> Result<(), Error>
    requires { FitsNode row.now }
    ensures made { Takes (HoldsIn layout) (λ c. Holds (with_node row.now c))
        (state S.Store conn.old) (state S.Store conn.new) result }
    ensures fresh { HasCleanDisk (state S.Store conn.new) → OnOk result ((c : Content)
        → InsideAs (HoldsIn layout c) (state S.Store conn.old)
        → at_by node_key row.now.node c.nodes ≡ None) }
    ensures within { StaysWithin (state S.Store conn.old) (state S.Store conn.new) result }
{
    match layout {
        Layout::Second => {
            let values = node_values(row);
            run(conn, INSERT, &values)
        }
        Layout::Third => {
            let values = third_values(row);
            run(conn, INSERT_THIRD, &values)
        }
    }
}

/// Adds a node with a new number.
pub(crate) fn write_node<S: Alter>(conn: &mut Connection<S>, row: &NodeRow) -> Result<(), Error>
    requires { FitsNode row.now }
    ensures made { Makes (with_node row.now) (state S.Store conn.old) (state S.Store conn.new)
        result }
    // It fails where there is a node of this number.
    ensures fresh { HasCleanDisk (state S.Store conn.new) → OnOk result ((c : Content)
        → Inside c (state S.Store conn.old) → at_by node_key row.now.node c.nodes ≡ None) }
    ensures within { StaysWithin (state S.Store conn.old) (state S.Store conn.new) result }
{
    let layout = layout_of(conn);
    insert_in(conn, layout, row)
}

/// Adds a node with a new number.
pub fn insert_node<S: Alter>(conn: &mut Connection<S>, row: &NodeRow) -> Result<(), Error>
    requires { FitsNode row.now }
    ensures made { Makes (with_node row.now) (state S.Store conn.old) (state S.Store conn.new)
        result }
    // It fails where there is a node of this number.
    ensures fresh { HasCleanDisk (state S.Store conn.new) → OnOk result ((c : Content)
        → Inside c (state S.Store conn.old) → at_by node_key row.now.node c.nodes ≡ None) }
{
    write_node(conn, row)
}

// Changes the node of this number in tables of this layout.
fn update_in<S: Alter>(
    conn: &mut Connection<S>,
    layout: Layout,
    row: &NodeRow,
) -> Result<bool, Error>
    requires { FitsNode row.now }
    ensures made { Takes (HoldsIn layout) (λ c. Holds (set_node row.now c))
        (state S.Store conn.old) (state S.Store conn.new) result }
    ensures found { HasCleanDisk (state S.Store conn.new) → IfOk result (λ found. (c : Content)
        → InsideAs (HoldsIn layout c) (state S.Store conn.old)
        → found ≡ is_some (at_by node_key row.now.node c.nodes)) }
{
    match layout {
        Layout::Second => {
            let values = node_values(row);
            run_any(conn, UPDATE, &values)
        }
        Layout::Third => {
            let values = third_values(row);
            run_any(conn, UPDATE_THIRD, &values)
        }
    }
}

// Changes the node of this number, and says whether there is one.
fn update_node<S: Alter>(conn: &mut Connection<S>, row: &NodeRow) -> Result<bool, Error>
    requires { FitsNode row.now }
    ensures made { Makes (set_node row.now) (state S.Store conn.old) (state S.Store conn.new)
        result }
    ensures found { HasCleanDisk (state S.Store conn.new) → IfOk result (λ found. (c : Content)
        → Inside c (state S.Store conn.old)
        → found ≡ is_some (at_by node_key row.now.node c.nodes)) }
{
    let layout = layout_of(conn);
    update_in(conn, layout, row)
}

/// Changes the node of this number, or adds it where there is none.
pub fn put_node<S: Alter>(conn: &mut Connection<S>, row: &NodeRow) -> Result<(), Error>
    requires { FitsNode row.now }
    ensures { Makes (with_node row.now) (state S.Store conn.old) (state S.Store conn.new) result }
{
    match update_node(conn, row) {
        Ok(true) => Ok(()),
        Ok(false) => insert_node(conn, row),
        Err(error) => Err(error),
    }
}

/// Deletes the node of this number, if there is one. Its blocks, entries and handles go before it.
pub fn delete_node<S: Alter>(conn: &mut Connection<S>, node: u64) -> Result<(), Error>
    requires { node < 2 ^ 63 }
    ensures { Makes (without_node node) (state S.Store conn.old) (state S.Store conn.new) result }
{
    let values = number(node);
    run(conn, DELETE, &values)
}

// The nodes of this number in tables of this layout: one row or none.
fn select_in<S: Alter>(
    conn: &mut Connection<S>,
    layout: Layout,
    number_of: u64,
) -> Result<Vec<Row>, Error>
    requires { number_of < 2 ^ 63 }
    ensures made { Takes (HoldsIn layout) (HoldsIn layout) (state S.Store conn.old)
        (state S.Store conn.new) result }
    ensures found { HasCleanDisk (state S.Store conn.new) → IfOk result (λ rows. (c : Content)
        → InsideAs (HoldsIn layout c) (state S.Store conn.old) → rows.items
        ≡ map (node_columns layout) (option_to_list (at_by node_key number_of c.nodes))) }
{
    let values = number(number_of);
    match layout {
        Layout::Second => conn.query_all(SELECT, &values),
        Layout::Third => conn.query_all(SELECT_THIRD, &values),
    }
}

/// The nodes of this number: one row or none.
pub fn select_node<S: Alter>(conn: &mut Connection<S>, number_of: u64) -> Result<Vec<Row>, Error>
    requires { number_of < 2 ^ 63 }
    ensures looks { OnOk result (LookedInside (state S.Store conn.old) (state S.Store conn.new)) }
    ensures fails { OnErr result (Stays (state S.Store conn.old) (state S.Store conn.new)) }
    ensures found { HasCleanDisk (state S.Store conn.new) → IfOk result (λ rows. (c : Content)
        → Inside c (state S.Store conn.old) → rows.items
        ≡ map (node_columns c.layout) (option_to_list (at_by node_key number_of c.nodes))) }
{
    let layout = layout_of(conn);
    select_in(conn, layout, number_of)
}

/// The numbers of the nodes without a name, in rising order.
pub(crate) fn select_unnamed<S: Alter>(conn: &mut Connection<S>) -> Result<Vec<Row>, Error>
    ensures made { Makes (λ c. c) (state S.Store conn.old) (state S.Store conn.new) result }
    ensures found { HasCleanDisk (state S.Store conn.new) → IfOk result (λ rows. (c : Content)
        → Inside c (state S.Store conn.old)
        → rows.items ≡ map shown_number (unnamed_numbers c.nodes)) }
    ensures within { StaysWithin (state S.Store conn.old) (state S.Store conn.new) result }
{
    conn.query_all(SELECT_UNNAMED, &[])
}

/// What says how many blocks the nodes without a name use, in tables of this layout.
pub(crate) fn select_unnamed_extents<S: Alter>(
    conn: &mut Connection<S>,
    layout: Layout,
) -> Result<Vec<Row>, Error>
    ensures made { Takes (HoldsIn layout) (HoldsIn layout) (state S.Store conn.old)
        (state S.Store conn.new) result }
    ensures found { HasCleanDisk (state S.Store conn.new) → IfOk result (λ rows. (c : Content)
        → InsideAs (HoldsIn layout c) (state S.Store conn.old)
        → rows.items ≡ map shown_number (unnamed_extents layout c.nodes)) }
    ensures within { StaysWithin (state S.Store conn.old) (state S.Store conn.new) result }
{
    match layout {
        Layout::Second => conn.query_all(UNNAMED_SIZES, &[]),
        Layout::Third => conn.query_all(UNNAMED_WRITTEN, &[]),
    }
}

/// Deletes the nodes without a name, but never the root.
pub(crate) fn delete_unnamed<S: Alter>(conn: &mut Connection<S>) -> Result<(), Error>
    ensures made { Makes without_unnamed (state S.Store conn.old) (state S.Store conn.new) result }
    ensures within { StaysWithin (state S.Store conn.old) (state S.Store conn.new) result }
{
    run(conn, DELETE_UNNAMED, &[])
}

// The number of nodes: one row.
fn select_count<S: Alter>(conn: &mut Connection<S>) -> Result<Vec<Row>, Error>
    ensures made { Makes (λ c. c) (state S.Store conn.old) (state S.Store conn.new) result }
    ensures found { HasCleanDisk (state S.Store conn.new) → IfOk result (λ rows. (c : Content)
        → Inside c (state S.Store conn.old) → rows.items ≡ shown_number (counted_to c.nodes) ∷ []) }
    ensures within { StaysWithin (state S.Store conn.old) (state S.Store conn.new) result }
{
    conn.query_all(COUNT, &[])
}

/// The number of nodes.
pub(crate) fn count_nodes<S: Alter>(conn: &mut Connection<S>) -> Result<u64, StoreFault>
    ensures made { Makes (λ c. c) (state S.Store conn.old) (state S.Store conn.new) result }
    ensures value { HasCleanDisk (state S.Store conn.new) → IfOk result (λ n. (c : Content)
        → Inside c (state S.Store conn.old) → n ≡ counted_to c.nodes) }
    ensures small { IfOk result (λ n. n < 2 ^ 63) }
    ensures fault { IsSure Holds (state S.Store conn.old) (state S.Store conn.new) result }
    ensures plain { IfErr result IsPlain }
    ensures within { StaysWithin (state S.Store conn.old) (state S.Store conn.new) result }
{
    let rows = select_count(conn)?;
    the_number(rows.as_slice())
}

// The sum of the sizes: one row.
fn select_sizes<S: Alter>(conn: &mut Connection<S>) -> Result<Vec<Row>, Error>
    ensures rests { Serves (λ c. c) (state S.Store conn.old) (state S.Store conn.new) result }
    ensures open { StaysOpen (state S.Store conn.old) (state S.Store conn.new) result }
    ensures reads { OnlyReads (state S.Store conn.old) (state S.Store conn.new) result }
    ensures found { HasCleanDisk (state S.Store conn.new) → IfOk result (λ rows. (c : Content)
        → Rests c (state S.Store conn.old)
        → rows.items ≡ shown_number (sum_by (λ n. n.size) c.nodes) ∷ []) }
{
    conn.query_all(SUM_SIZES, &[])
}

/// The sum of the sizes of all nodes, outside a transaction. It is 0 where there is no node.
pub fn sum_sizes<S: Alter>(conn: &mut Connection<S>) -> Result<u64, StoreFault>
    ensures rests { Serves (λ c. c) (state S.Store conn.old) (state S.Store conn.new) result }
    ensures open { StaysOpen (state S.Store conn.old) (state S.Store conn.new) result }
    // Whatever the database is, nothing is changed.
    ensures reads { OnlyReads (state S.Store conn.old) (state S.Store conn.new) result }
    ensures value { HasCleanDisk (state S.Store conn.new) → IfOk result (λ n. (c : Content)
        → Rests c (state S.Store conn.old) → n ≡ sum_by (λ n. n.size) c.nodes) }
    ensures small { IfOk result (λ n. n < 2 ^ 63) }
    ensures fault { IsSafe Holds (state S.Store conn.old) (state S.Store conn.new) result }
    ensures plain { IfErr result IsPlain }
{
    let sums = select_sizes(conn)?;
    the_number(sums.as_slice())
}
