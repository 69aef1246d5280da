// The tables of a new store of version 3, one after the other.
ghost use Rattle.sqlite.specs.Held.{state};
ghost use Rattle.fuse_store_tables.specs.declared.version.Layout.TheVariants.{Third};
ghost use Rattle.fuse_store_tables.specs.Layout.{no_schema, with_meta, third_with_nodes};
ghost use Rattle.fuse_store_tables.specs.Layout.{third_with_entries};
ghost use Rattle.fuse_store_tables.specs.Layout.{third_with_blocks, third_with_handles};
ghost use Rattle.fuse_store_tables.specs.Layout.{third_with_lots};
ghost use Rattle.fuse_store_tables.specs.Layout.{third_with_kept, third_with_pieces, third_schema};
ghost use Rattle.fuse_store_tables.specs.Making.{IsBare};
ghost use Rattle.fuse_store_tables.specs.Moves.{Takes};
ghost use Rattle.fuse_store_tables.specs.inner.Steps.{HasCounters};
ghost use Rattle.fuse_store_tables.specs.inner.Performing.{StaysWithin};

use crate::creation::{BLOCKS, KEPT, LOTS, make_meta};
use crate::statements::run;
use sqlite::{Alter, Connection, Error};

const NODES: &str = "CREATE TABLE nodes (node INTEGER PRIMARY KEY, mode INTEGER NOT NULL, \
    uid INTEGER NOT NULL, gid INTEGER NOT NULL, rdev INTEGER NOT NULL, size INTEGER NOT NULL, \
    atime INTEGER NOT NULL, atimensec INTEGER NOT NULL, mtime INTEGER NOT NULL, \
    mtimensec INTEGER NOT NULL, ctime INTEGER NOT NULL, ctimensec INTEGER NOT NULL, \
    up INTEGER NOT NULL, subdirs INTEGER NOT NULL, links INTEGER NOT NULL, \
    written INTEGER NOT NULL, attributes INTEGER NOT NULL) STRICT";

const ENTRIES: &str = "CREATE TABLE entries (cookie INTEGER PRIMARY KEY, dir INTEGER NOT NULL, \
    name BLOB NOT NULL, child INTEGER NOT NULL, UNIQUE (dir, name), UNIQUE (dir, cookie)) STRICT";

const HANDLES: &str = "CREATE TABLE handles (fh INTEGER PRIMARY KEY, \
    node INTEGER NOT NULL REFERENCES nodes (node), access INTEGER NOT NULL, UNIQUE (node, fh)) STRICT";

const PIECES: &str = "CREATE TABLE pieces (node INTEGER NOT NULL, first INTEGER NOT NULL, \
    count INTEGER NOT NULL, place INTEGER NOT NULL, sum INTEGER NOT NULL, \
    PRIMARY KEY (node, first)) STRICT";

const XATTRS: &str = "CREATE TABLE xattrs (node INTEGER NOT NULL, name BLOB NOT NULL, \
    value BLOB NOT NULL, PRIMARY KEY (node, name)) STRICT";

const FILL: &str = "INSERT INTO meta (k, v) VALUES (1, 3), (2, 2), (3, 1), (4, 3), (5, 1), (6, 0), \
    (7, 0), (8, 0), (9, 0), (10, 0), (11, 1)";

fn add_nodes<S: Alter>(conn: &mut Connection<S>) -> Result<(), Error>
    ensures made { Takes (IsBare with_meta) (IsBare third_with_nodes) (state S.Store conn.old)
        (state S.Store conn.new) result }
    ensures within { StaysWithin (state S.Store conn.old) (state S.Store conn.new) result }
{
    run(conn, NODES, &[])
}

fn add_entries<S: Alter>(conn: &mut Connection<S>) -> Result<(), Error>
    ensures made { Takes (IsBare with_meta) (IsBare third_with_entries) (state S.Store conn.old)
        (state S.Store conn.new) result }
    ensures within { StaysWithin (state S.Store conn.old) (state S.Store conn.new) result }
{
    add_nodes(conn)?;
    run(conn, ENTRIES, &[])
}

fn add_blocks<S: Alter>(conn: &mut Connection<S>) -> Result<(), Error>
    ensures made { Takes (IsBare with_meta) (IsBare third_with_blocks) (state S.Store conn.old)
        (state S.Store conn.new) result }
    ensures within { StaysWithin (state S.Store conn.old) (state S.Store conn.new) result }
{
    add_entries(conn)?;
    run(conn, BLOCKS, &[])
}

fn add_handles<S: Alter>(conn: &mut Connection<S>) -> Result<(), Error>
    ensures made { Takes (IsBare with_meta) (IsBare third_with_handles) (state S.Store conn.old)
        (state S.Store conn.new) result }
    ensures within { StaysWithin (state S.Store conn.old) (state S.Store conn.new) result }
{
    add_blocks(conn)?;
    run(conn, HANDLES, &[])
}

fn add_lots<S: Alter>(conn: &mut Connection<S>) -> Result<(), Error>
    ensures made { Takes (IsBare with_meta) (IsBare third_with_lots) (state S.Store conn.old)
        (state S.Store conn.new) result }
    ensures within { StaysWithin (state S.Store conn.old) (state S.Store conn.new) result }
{
    add_handles(conn)?;
    run(conn, LOTS, &[])
}

fn add_kept<S: Alter>(conn: &mut Connection<S>) -> Result<(), Error>
    ensures made { Takes (IsBare with_meta) (IsBare third_with_kept) (state S.Store conn.old)
        (state S.Store conn.new) result }
    ensures within { StaysWithin (state S.Store conn.old) (state S.Store conn.new) result }
{
    add_lots(conn)?;
    run(conn, KEPT, &[])
}

fn add_pieces<S: Alter>(conn: &mut Connection<S>) -> Result<(), Error>
    ensures made { Takes (IsBare with_meta) (IsBare third_with_pieces) (state S.Store conn.old)
        (state S.Store conn.new) result }
    ensures within { StaysWithin (state S.Store conn.old) (state S.Store conn.new) result }
{
    add_kept(conn)?;
    run(conn, PIECES, &[])
}

/// All tables but `meta`.
pub(crate) fn add_xattrs<S: Alter>(conn: &mut Connection<S>) -> Result<(), Error>
    ensures made { Takes (IsBare with_meta) (IsBare third_schema) (state S.Store conn.old)
        (state S.Store conn.new) result }
    ensures within { StaysWithin (state S.Store conn.old) (state S.Store conn.new) result }
{
    add_pieces(conn)?;
    run(conn, XATTRS, &[])
}

fn fill_third<S: Alter>(conn: &mut Connection<S>) -> Result<(), Error>
    ensures made { Takes (IsBare with_meta) (HasCounters Third) (state S.Store conn.old)
        (state S.Store conn.new) result }
    ensures within { StaysWithin (state S.Store conn.old) (state S.Store conn.new) result }
{
    add_xattrs(conn)?;
    run(conn, FILL, &[])
}

/// The tables and the counters. Each table has the tree that it has in version 2.
pub(crate) fn make_third<S: Alter>(conn: &mut Connection<S>) -> Result<(), Error>
    ensures made { Takes (IsBare no_schema) (HasCounters Third) (state S.Store conn.old)
        (state S.Store conn.new) result }
    ensures within { StaysWithin (state S.Store conn.old) (state S.Store conn.new) result }
{
    make_meta(conn)?;
    fill_third(conn)
}
