// A new store, made in one transaction.
ghost use Rattle.std.specs.Prelude.{◌≡◌, ◌<◌, ◌^◌, false, None, Some, IsTrue, IfSome, IfErr};
ghost use Rattle.std.specs.Prelude.{IsErrAnd, OnOk};
ghost use Rattle.sqlite.specs.State.{HasCleanDisk};
ghost use Rattle.sqlite.specs.Held.{state};
ghost use Rattle.fuse_store_tables.specs.Faults.{IsOutside};
ghost use Rattle.fuse_store_tables.specs.Layout.{no_schema, with_meta, with_nodes, with_entries};
ghost use Rattle.fuse_store_tables.specs.Layout.{with_blocks, with_handles, with_answers, with_lots};
ghost use Rattle.fuse_store_tables.specs.Layout.{with_kept, store_schema};
ghost use Rattle.fuse_store_tables.specs.Making.{IsBare, IsNew, IsVolume, root};
ghost use Rattle.fuse_store_tables.specs.declared.version.Layout.TheVariants.{Second};
ghost use Rattle.fuse_rows.specs.Columns.{FitsNode};
ghost use Rattle.fuse_store_tables.specs.Refusing.{HasMetaTable, IsOfStore, IsNameTaken};
ghost use Rattle.fuse_store_tables.specs.inner.Steps.{HasCounters, with_volume};
ghost use Rattle.fuse_store_tables.specs.Moves.{Takes, Makes, ServesAs, IsSafe, LeavesAlone, Begins};
ghost use Rattle.fuse_store_tables.specs.Moves.{CommitsNothing};
ghost use Rattle.fuse_store_tables.specs.inner.Performing.{TransactsAs, StaysWithin};

use crate::counters::{CAPACITY, NUMBER, PROFILE, USED, insert_counter};
use crate::nodes::write_node;
use crate::profile::EVERYDAY;
use crate::schema::is_empty;
use crate::statements::{begin, commit, run, undo};
use crate::third::make_third;
use crate::version::{Layout, Volume};
use fuse_keeper::StoreFault;
use fuse_rows::{NodeRow, Origin};
use sqlite::{Alter, Connection, Error};

const META: &str = "CREATE TABLE meta (k INTEGER PRIMARY KEY, v INTEGER NOT NULL) STRICT";

const NODES: &str = "CREATE TABLE nodes (node INTEGER PRIMARY KEY, mode INTEGER NOT NULL, \
    uid INTEGER NOT NULL, gid INTEGER NOT NULL, rdev INTEGER NOT NULL, size INTEGER NOT NULL, \
    atime INTEGER NOT NULL, atimensec INTEGER NOT NULL, mtime INTEGER NOT NULL, \
    mtimensec INTEGER NOT NULL, ctime INTEGER NOT NULL, ctimensec INTEGER NOT NULL, \
    up INTEGER NOT NULL, subdirs INTEGER NOT NULL) STRICT";

const ENTRIES: &str = "CREATE TABLE entries (cookie INTEGER PRIMARY KEY, \
    dir INTEGER NOT NULL REFERENCES nodes (node), name BLOB NOT NULL, \
    child INTEGER NOT NULL UNIQUE REFERENCES nodes (node), UNIQUE (dir, name)) STRICT";

pub(crate) const BLOCKS: &str =
    "CREATE TABLE blocks (node INTEGER NOT NULL REFERENCES nodes (node), \
    block INTEGER NOT NULL, bytes BLOB NOT NULL, PRIMARY KEY (node, block)) STRICT";

pub(crate) const HANDLES: &str = "CREATE TABLE handles (fh INTEGER PRIMARY KEY, \
    node INTEGER NOT NULL REFERENCES nodes (node), access INTEGER NOT NULL) STRICT";

const ANSWERS: &str = "CREATE TABLE answers (id INTEGER PRIMARY KEY, errno INTEGER NOT NULL, \
    body BLOB NOT NULL) STRICT";

pub(crate) const LOTS: &str = "CREATE TABLE lots (lot INTEGER PRIMARY KEY) STRICT";

pub(crate) const KEPT: &str = "CREATE TABLE kept (id INTEGER PRIMARY KEY, \
    lot INTEGER NOT NULL REFERENCES lots (lot), errno INTEGER NOT NULL, \
    body BLOB NOT NULL) STRICT";

pub(crate) const ENTRIES_IN_ORDER: &str = "CREATE INDEX entries_in_order ON entries (dir, cookie)";

const FILL: &str = "INSERT INTO meta (k, v) VALUES (1, 2), (2, 2), (3, 1), (4, 3), (5, 1), (6, 0), \
    (7, 0), (8, 0), (9, 0), (10, 0), (11, 1)";

pub(crate) fn make_meta<S: Alter>(conn: &mut Connection<S>) -> Result<(), Error>
    ensures made { Takes (IsBare no_schema) (IsBare with_meta) (state S.Store conn.old)
        (state S.Store conn.new) result }
    ensures within { StaysWithin (state S.Store conn.old) (state S.Store conn.new) result }
    ensures taken { HasCleanDisk (state S.Store conn.new)
        → HasMetaTable (state S.Store conn.old).now.schema → IsErrAnd result IsNameTaken }
{
    run(conn, META, &[])
}

fn make_nodes<S: Alter>(conn: &mut Connection<S>) -> Result<(), Error>
    ensures made { Takes (IsBare with_meta) (IsBare with_nodes) (state S.Store conn.old)
        (state S.Store conn.new) result }
    ensures within { StaysWithin (state S.Store conn.old) (state S.Store conn.new) result }
{
    run(conn, NODES, &[])
}

fn make_entries<S: Alter>(conn: &mut Connection<S>) -> Result<(), Error>
    ensures made { Takes (IsBare with_meta) (IsBare with_entries) (state S.Store conn.old)
        (state S.Store conn.new) result }
    ensures within { StaysWithin (state S.Store conn.old) (state S.Store conn.new) result }
{
    make_nodes(conn)?;
    run(conn, ENTRIES, &[])
}

fn make_blocks<S: Alter>(conn: &mut Connection<S>) -> Result<(), Error>
    ensures made { Takes (IsBare with_meta) (IsBare with_blocks) (state S.Store conn.old)
        (state S.Store conn.new) result }
    ensures within { StaysWithin (state S.Store conn.old) (state S.Store conn.new) result }
{
    make_entries(conn)?;
    run(conn, BLOCKS, &[])
}

fn make_handles<S: Alter>(conn: &mut Connection<S>) -> Result<(), Error>
    ensures made { Takes (IsBare with_meta) (IsBare with_handles) (state S.Store conn.old)
        (state S.Store conn.new) result }
    ensures within { StaysWithin (state S.Store conn.old) (state S.Store conn.new) result }
{
    make_blocks(conn)?;
    run(conn, HANDLES, &[])
}

fn make_answers<S: Alter>(conn: &mut Connection<S>) -> Result<(), Error>
    ensures made { Takes (IsBare with_meta) (IsBare with_answers) (state S.Store conn.old)
        (state S.Store conn.new) result }
    ensures within { StaysWithin (state S.Store conn.old) (state S.Store conn.new) result }
{
    make_handles(conn)?;
    run(conn, ANSWERS, &[])
}

fn make_lots<S: Alter>(conn: &mut Connection<S>) -> Result<(), Error>
    ensures made { Takes (IsBare with_meta) (IsBare with_lots) (state S.Store conn.old)
        (state S.Store conn.new) result }
    ensures within { StaysWithin (state S.Store conn.old) (state S.Store conn.new) result }
{
    make_answers(conn)?;
    run(conn, LOTS, &[])
}

fn make_kept<S: Alter>(conn: &mut Connection<S>) -> Result<(), Error>
    ensures made { Takes (IsBare with_meta) (IsBare with_kept) (state S.Store conn.old)
        (state S.Store conn.new) result }
    ensures within { StaysWithin (state S.Store conn.old) (state S.Store conn.new) result }
{
    make_lots(conn)?;
    run(conn, KEPT, &[])
}

// The index is made last: its root page follows those of all tables.
fn make_entries_in_order<S: Alter>(conn: &mut Connection<S>) -> Result<(), Error>
    ensures made { Takes (IsBare with_meta) (IsBare store_schema) (state S.Store conn.old)
        (state S.Store conn.new) result }
    ensures within { StaysWithin (state S.Store conn.old) (state S.Store conn.new) result }
{
    make_kept(conn)?;
    run(conn, ENTRIES_IN_ORDER, &[])
}

fn fill_meta<S: Alter>(conn: &mut Connection<S>) -> Result<(), Error>
    ensures made { Takes (IsBare with_meta) (HasCounters Second) (state S.Store conn.old)
        (state S.Store conn.new) result }
    ensures within { StaysWithin (state S.Store conn.old) (state S.Store conn.new) result }
{
    make_entries_in_order(conn)?;
    run(conn, FILL, &[])
}

// The tables and the counters of version 2.
fn make_tables<S: Alter>(conn: &mut Connection<S>) -> Result<(), Error>
    ensures made { Takes (IsBare no_schema) (HasCounters Second) (state S.Store conn.old)
        (state S.Store conn.new) result }
    ensures within { StaysWithin (state S.Store conn.old) (state S.Store conn.new) result }
    ensures taken { HasCleanDisk (state S.Store conn.new)
        → HasMetaTable (state S.Store conn.old).now.schema → IsErrAnd result IsNameTaken }
{
    make_meta(conn)?;
    fill_meta(conn)
}

// The tables and the first rows of a plain store.
fn make_plain<S: Alter>(conn: &mut Connection<S>, from: Origin) -> Result<(), Error>
    ensures made { Takes (IsBare no_schema) (IsNew None from) (state S.Store conn.old)
        (state S.Store conn.new) result }
    ensures within { StaysWithin (state S.Store conn.old) (state S.Store conn.new) result }
    ensures taken { HasCleanDisk (state S.Store conn.new)
        → HasMetaTable (state S.Store conn.old).now.schema → IsErrAnd result IsNameTaken }
{
    make_tables(conn)?;
    let root = root_row(Layout::Second, from);
    write_node(conn, &root)
}

// The root of a new store.
fn root_row(layout: Layout, from: Origin) -> NodeRow
    ensures value { result ≡ root layout from }
    ensures fits { FitsNode result }
{
    let written = match layout {
        Layout::Second => None,
        Layout::Third => Some(0),
    };
    NodeRow {
        node: 1,
        mode: 0o040755,
        uid: from.owner.uid,
        gid: from.owner.gid,
        rdev: 0,
        size: 0,
        atime: from.made,
        mtime: from.made,
        ctime: from.made,
        up: 0,
        subdirs: 0,
        written,
    }
}

// The rows of `meta` that an everyday store has more.
fn add_volume<S: Alter>(conn: &mut Connection<S>, volume: Volume) -> Result<(), Error>
    requires capacity { volume.capacity < 2 ^ 63 }
    requires number { volume.number < 2 ^ 63 }
    ensures made { Makes (with_volume volume.capacity volume.number) (state S.Store conn.old)
        (state S.Store conn.new) result }
    ensures within { StaysWithin (state S.Store conn.old) (state S.Store conn.new) result }
{
    insert_counter(conn, PROFILE, EVERYDAY)?;
    insert_counter(conn, CAPACITY, volume.capacity)?;
    insert_counter(conn, USED, 0)?;
    insert_counter(conn, NUMBER, volume.number)
}

// The tables and the first rows of an everyday store.
fn make_everyday<S: Alter>(
    conn: &mut Connection<S>,
    volume: Volume,
    from: Origin,
) -> Result<(), Error>
    requires capacity { volume.capacity < 2 ^ 51 }
    requires number { volume.number < 2 ^ 63 }
    ensures made { Takes (IsBare no_schema) (IsNew (Some volume) from) (state S.Store conn.old)
        (state S.Store conn.new) result }
    ensures within { StaysWithin (state S.Store conn.old) (state S.Store conn.new) result }
{
    make_third(conn)?;
    let root = root_row(Layout::Third, from);
    write_node(conn, &root)?;
    add_volume(conn, volume)
}

// The tables and their first rows. A store with a volume is of the everyday profile.
fn make_all<S: Alter>(
    conn: &mut Connection<S>,
    volume: Option<Volume>,
    from: Origin,
) -> Result<(), Error>
    requires { IfSome volume IsVolume }
    ensures made { Takes (IsBare no_schema) (IsNew volume from) (state S.Store conn.old)
        (state S.Store conn.new) result }
    ensures within { StaysWithin (state S.Store conn.old) (state S.Store conn.new) result }
{
    match volume {
        None => make_plain(conn, from),
        Some(volume) => make_everyday(conn, volume, from),
    }
}

// The transaction. A fault may leave it open.
fn transact<S: Alter>(
    conn: &mut Connection<S>,
    volume: Option<Volume>,
    from: Origin,
) -> Result<(), StoreFault>
    requires { IfSome volume IsVolume }
    ensures performs { TransactsAs (IsBare no_schema) (IsNew volume from) (state S.Store conn.old)
        (state S.Store conn.new) result }
    ensures fault { IsSafe (IsBare no_schema) (state S.Store conn.old) (state S.Store conn.new)
        result }
    ensures outside { IfErr result IsOutside }
    ensures was { HasCleanDisk (state S.Store conn.new)
        → OnOk result (IsTrue (state S.Store conn.old).is_open) }
    ensures alone { ((state S.Store conn.old).now.schema ≡ no_schema → ⊥)
        → CommitsNothing (state S.Store conn.old) (state S.Store conn.new) }
    ensures ended { OnOk result (HasCleanDisk (state S.Store conn.new)
        → ((state S.Store conn.new).in_transaction ≡ false)
        × ((state S.Store conn.new).now ≡ (state S.Store conn.new).committed)) }
{
    begin(conn)?;
    if !is_empty(conn.schema()) {
        return Err(StoreFault::Sql(Error::InvalidQuery));
    }
    make_all(conn, volume, from)?;
    commit(conn)?;
    Ok(())
}

/// Makes a new store of this origin in a database without tables: an everyday store, of version 3,
/// where there is a volume, and else a plain one, of version 2. Any other database is left as it was. The commit is
/// its last call of the database.
pub fn make_store<S: Alter>(
    conn: &mut Connection<S>,
    volume: Option<Volume>,
    from: Origin,
) -> Result<(), StoreFault>
    requires { IfSome volume IsVolume }
    ensures serves { ServesAs (IsBare no_schema) (IsNew volume from) (state S.Store conn.old)
        (state S.Store conn.new) result }
    ensures fault { IsSafe (IsBare no_schema) (state S.Store conn.old) (state S.Store conn.new)
        result }
    // The fault is that of a statement, and says nothing of the tables.
    ensures outside { IfErr result IsOutside }
    ensures was { HasCleanDisk (state S.Store conn.new)
        → OnOk result (IsTrue (state S.Store conn.old).is_open) }
    // Nothing is made beside other tables.
    ensures alone { ((state S.Store conn.old).now.schema ≡ no_schema → ⊥)
        → LeavesAlone (state S.Store conn.old) (state S.Store conn.new) }
    // No transaction is left open.
    ensures ended { HasCleanDisk (state S.Store conn.new)
        → (state S.Store conn.new).in_transaction ≡ false }
{
    match transact(conn, volume, from) {
        Ok(()) => Ok(()),
        Err(fault) => {
            undo(conn);
            Err(fault)
        }
    }
}

// Begins a transaction. Outside of one only the database may refuse it.
fn begin_first<S: Alter>(conn: &mut Connection<S>) -> Result<(), Error>
    ensures begins { Begins (state S.Store conn.old) (state S.Store conn.new) result }
    ensures fails { HasCleanDisk (state S.Store conn.new)
        → (state S.Store conn.old).in_transaction ≡ false → IfErr result IsOfStore }
{
    run(conn, "BEGIN", &[])
}

// The transaction without its commit.
fn attempt<S: Alter>(conn: &mut Connection<S>, from: Origin) -> Result<(), Error>
    ensures nothing { CommitsNothing (state S.Store conn.old) (state S.Store conn.new) }
    ensures taken { HasCleanDisk (state S.Store conn.new)
        → (state S.Store conn.old).in_transaction ≡ false
        → HasMetaTable (state S.Store conn.old).now.schema → IsErrAnd result IsNameTaken }
{
    begin_first(conn)?;
    make_plain(conn, from)
}

/// Makes the statements of a new store in any database, and takes them back. The error is the one
/// that SQLite gave.
pub fn try_store<S: Alter>(conn: &mut Connection<S>, from: Origin) -> Result<(), Error>
    ensures alone { LeavesAlone (state S.Store conn.old) (state S.Store conn.new) }
    // Where the first table is there, its statement is refused.
    ensures taken { HasCleanDisk (state S.Store conn.new)
        → (state S.Store conn.old).in_transaction ≡ false
        → HasMetaTable (state S.Store conn.old).now.schema → IsErrAnd result IsNameTaken }
{
    let tried = attempt(conn, from);
    undo(conn);
    tried
}
