// The tables of version 2, dropped one after the other: each before those that it refers to.
ghost use Rattle.sqlite.specs.Held.{state};
ghost use Rattle.fuse_store_tables.specs.Layout.{no_schema, store_schema};
ghost use Rattle.fuse_store_tables.specs.Making.{IsBare};
ghost use Rattle.fuse_store_tables.specs.Moves.{Takes};
ghost use Rattle.fuse_store_tables.specs.inner.Dropping.{HasSchema, left_by_kept, left_by_lots};
ghost use Rattle.fuse_store_tables.specs.inner.Dropping.{left_by_answers, left_by_handles};
ghost use Rattle.fuse_store_tables.specs.inner.Dropping.{left_by_blocks, left_by_entries};
ghost use Rattle.fuse_store_tables.specs.inner.Dropping.{left_by_nodes};

use crate::statements::run;
use sqlite::{Alter, Connection, Error};

const KEPT: &str = "DROP TABLE kept";

const LOTS: &str = "DROP TABLE lots";

const ANSWERS: &str = "DROP TABLE answers";

const HANDLES: &str = "DROP TABLE handles";

const BLOCKS: &str = "DROP TABLE blocks";

const ENTRIES: &str = "DROP TABLE entries";

const NODES: &str = "DROP TABLE nodes";

const META: &str = "DROP TABLE meta";

fn drop_kept<S: Alter>(conn: &mut Connection<S>) -> Result<(), Error>
    ensures { Takes (HasSchema store_schema) (HasSchema left_by_kept) (state S.Store conn.old)
        (state S.Store conn.new) result }
{
    run(conn, KEPT, &[])
}

fn drop_lots<S: Alter>(conn: &mut Connection<S>) -> Result<(), Error>
    ensures { Takes (HasSchema store_schema) (HasSchema left_by_lots) (state S.Store conn.old)
        (state S.Store conn.new) result }
{
    drop_kept(conn)?;
    run(conn, LOTS, &[])
}

fn drop_answers<S: Alter>(conn: &mut Connection<S>) -> Result<(), Error>
    ensures { Takes (HasSchema store_schema) (HasSchema left_by_answers) (state S.Store conn.old)
        (state S.Store conn.new) result }
{
    drop_lots(conn)?;
    run(conn, ANSWERS, &[])
}

fn drop_handles<S: Alter>(conn: &mut Connection<S>) -> Result<(), Error>
    ensures { Takes (HasSchema store_schema) (HasSchema left_by_handles) (state S.Store conn.old)
        (state S.Store conn.new) result }
{
    drop_answers(conn)?;
    run(conn, HANDLES, &[])
}

fn drop_blocks<S: Alter>(conn: &mut Connection<S>) -> Result<(), Error>
    ensures { Takes (HasSchema store_schema) (HasSchema left_by_blocks) (state S.Store conn.old)
        (state S.Store conn.new) result }
{
    drop_handles(conn)?;
    run(conn, BLOCKS, &[])
}

fn drop_entries<S: Alter>(conn: &mut Connection<S>) -> Result<(), Error>
    ensures { Takes (HasSchema store_schema) (HasSchema left_by_entries) (state S.Store conn.old)
        (state S.Store conn.new) result }
{
    drop_blocks(conn)?;
    run(conn, ENTRIES, &[])
}

fn drop_nodes<S: Alter>(conn: &mut Connection<S>) -> Result<(), Error>
    ensures { Takes (HasSchema store_schema) (HasSchema left_by_nodes) (state S.Store conn.old)
        (state S.Store conn.new) result }
{
    drop_entries(conn)?;
    run(conn, NODES, &[])
}

/// Drops all tables of version 2.
pub(crate) fn drop_all<S: Alter>(conn: &mut Connection<S>) -> Result<(), Error>
    ensures { Takes (HasSchema store_schema) (IsBare no_schema) (state S.Store conn.old)
        (state S.Store conn.new) result }
{
    drop_nodes(conn)?;
    run(conn, META, &[])
}
