// Updates of the counters whose values are known. Those that stay aren't written.
ghost use Rattle.std.specs.Prelude.{◌<◌, ◌^◌, IfSome};
ghost use Rattle.sqlite.specs.Held.{state};
ghost use Rattle.fuse_store_tables.specs.Moves.{Makes};
ghost use Rattle.fuse_rows.specs.Columns.{FitsCounters, FitsRoom};
ghost use Rattle.fuse_store_tree.specs.inner.Knowing.{moved, used_moved, ids_moved, sums_moved};
ghost use Rattle.fuse_store_tree.specs.inner.Knowing.{numbers_moved, space_moved, counters_moved};

use fuse_rows::{Counters, Room};
use fuse_store_tables::{HANDLES, NEXT_NODE, USED, update_counter};
use sqlite::{Alter, Connection, Error};

// The keys that follow `NEXT_NODE`.
const NEXT_FH: u64 = NEXT_NODE + 1;

const NEXT_COOKIE: u64 = NEXT_NODE + 2;

const NODES: u64 = NEXT_NODE + 3;

// Changes a counter that had another value.
fn move_counter<S: Alter>(
    conn: &mut Connection<S>,
    key: u64,
    old: u64,
    new: u64,
) -> Result<(), Error>
    requires key { key < 2 ^ 63 }
    requires new { new < 2 ^ 63 }
    ensures { Makes (moved key old new) (state S.Store conn.old) (state S.Store conn.new) result }
{
    if old == new {
        return Ok(());
    }
    update_counter(conn, key, new)
}

// The numbers of the next node and the next handle.
fn move_ids<S: Alter>(conn: &mut Connection<S>, old: &Counters, new: &Counters) -> Result<(), Error>
    requires { FitsCounters new.now }
    ensures { Makes (ids_moved old.now new.now) (state S.Store conn.old) (state S.Store conn.new)
        result }
{
    move_counter(conn, NEXT_NODE, old.next_node, new.next_node)?;
    move_counter(conn, NEXT_FH, old.next_fh, new.next_fh)
}

// How many nodes and handles there are.
fn move_sums<S: Alter>(
    conn: &mut Connection<S>,
    old: &Counters,
    new: &Counters,
) -> Result<(), Error>
    requires { FitsCounters new.now }
    ensures { Makes (sums_moved old.now new.now) (state S.Store conn.old) (state S.Store conn.new)
        result }
{
    move_counter(conn, NODES, old.nodes, new.nodes)?;
    move_counter(conn, HANDLES, old.handles, new.handles)
}

// How many blocks are in use, where they are counted.
fn move_used<S: Alter>(
    conn: &mut Connection<S>,
    old: Option<Room>,
    new: Option<Room>,
) -> Result<(), Error>
    requires { IfSome new FitsRoom }
    ensures { Makes (used_moved old new) (state S.Store conn.old) (state S.Store conn.new) result }
{
    match (old, new) {
        (Some(old), Some(new)) => move_counter(conn, USED, old.used, new.used),
        _ => Ok(()),
    }
}

// The ids, then the next cookie.
fn move_numbers<S: Alter>(
    conn: &mut Connection<S>,
    old: &Counters,
    new: &Counters,
) -> Result<(), Error>
    requires { FitsCounters new.now }
    ensures { Makes (numbers_moved old.now new.now) (state S.Store conn.old)
        (state S.Store conn.new) result }
{
    move_ids(conn, old, new)?;
    move_counter(conn, NEXT_COOKIE, old.next_cookie, new.next_cookie)
}

// The sums, then the blocks in use.
fn move_space<S: Alter>(
    conn: &mut Connection<S>,
    old: &Counters,
    new: &Counters,
) -> Result<(), Error>
    requires { FitsCounters new.now }
    ensures { Makes (space_moved old.now new.now) (state S.Store conn.old)
        (state S.Store conn.new) result }
{
    move_sums(conn, old, new)?;
    move_used(conn, old.room, new.room)
}

/// Changes the counters that had other values.
pub(crate) fn move_counters<S: Alter>(
    conn: &mut Connection<S>,
    old: &Counters,
    new: &Counters,
) -> Result<(), Error>
    requires { FitsCounters new.now }
    ensures { Makes (counters_moved old.now new.now) (state S.Store conn.old)
        (state S.Store conn.new) result }
{
    move_numbers(conn, old, new)?;
    move_space(conn, old, new)
}
