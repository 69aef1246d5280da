// Updates of single rows, each a change of a plan.
ghost use Rattle.std.specs.Prelude.{◌≡◌, ◌<◌, ◌^◌, ◌+◌, ℕ, List, Some, OnOk, OnErr};
ghost use Rattle.std.specs.Prelude.{IfErr, IfSome};
ghost use Rattle.sqlite.specs.State.{HasCleanDisk};
ghost use Rattle.sqlite.specs.Held.{state};
ghost use Rattle.fuse_rows.specs.declared.rows.Change.TheVariants as changes;
ghost use Rattle.fuse_store_tables.specs.Faults.{IsOutside, IsPlain};
ghost use Rattle.fuse_store_tree.specs.inner.Changing.{ChangedIn};
ghost use Rattle.fuse_store_tables.specs.Content.{Content, IsTime, HasWidths, HasCount, set_counter};
ghost use Rattle.fuse_rows.specs.Columns.{FitsNode, FitsEntry, FitsHandle, FitsCounters};
ghost use Rattle.fuse_rows.specs.Columns.{FitsRoom};
ghost use Rattle.fuse_store_tables.specs.Moves.{Inside, Makes, Stays};
ghost use Rattle.fuse_store_tree.specs.inner.Knowing.{ChangedKnownIn, known_after, counters_written};
ghost use Rattle.fuse_store_tree.specs.inner.Writing.{with_change, with_used, counted_row};

use crate::meta::Meta;
use crate::moved_counters::move_counters;
use fuse_init::Settings;
use fuse_keeper::StoreFault;
use fuse_rows::{Counters, EntryRow, HandleRow, NodeRow, Room};
use fuse_store_tables::{
    AGREED, HANDLES, Layout, NEXT_NODE, USED, delete_entry, delete_handle, insert_entry,
    insert_handle, layout_of, update_counter,
};
use fuse_wire::Moment;
use sqlite::{Alter, Connection, Error};

/// Adds an entry with a new cookie.
pub(crate) fn add_entry<S: Alter>(
    conn: &mut Connection<S>,
    row: &EntryRow,
) -> Result<(), StoreFault>
    requires { FitsEntry row.now }
    ensures changed { OnOk result ((file : List ℕ) → ChangedIn file (with_change (changes.Entry row.now))
        (state S.Store conn.old) (state S.Store conn.new)) }
    ensures fails { OnErr result (Stays (state S.Store conn.old) (state S.Store conn.new)) }
    ensures fault { IfErr result (λ f. IsOutside f) }
    ensures plain { IfErr result IsPlain }
{
    match insert_entry(conn, row) {
        Ok(()) => Ok(()),
        Err(error) => Err(StoreFault::from(error)),
    }
}

/// Deletes the entry of this cookie.
pub(crate) fn remove_entry<S: Alter>(
    conn: &mut Connection<S>,
    cookie: u64,
) -> Result<(), StoreFault>
    requires { cookie < 2 ^ 63 }
    ensures changed { OnOk result ((file : List ℕ) → ChangedIn file (with_change (changes.EntryGone cookie))
        (state S.Store conn.old) (state S.Store conn.new)) }
    ensures fails { OnErr result (Stays (state S.Store conn.old) (state S.Store conn.new)) }
    ensures fault { IfErr result (λ f. IsOutside f) }
    ensures plain { IfErr result IsPlain }
{
    match delete_entry(conn, cookie) {
        Ok(()) => Ok(()),
        Err(error) => Err(StoreFault::from(error)),
    }
}

/// Adds a handle with a new number.
pub(crate) fn add_handle<S: Alter>(
    conn: &mut Connection<S>,
    row: &HandleRow,
) -> Result<(), StoreFault>
    requires { FitsHandle row.now }
    ensures changed { OnOk result ((file : List ℕ) → ChangedIn file (with_change (changes.Handle row.now))
        (state S.Store conn.old) (state S.Store conn.new)) }
    ensures fails { OnErr result (Stays (state S.Store conn.old) (state S.Store conn.new)) }
    ensures fault { IfErr result (λ f. IsOutside f) }
    ensures plain { IfErr result IsPlain }
{
    match insert_handle(conn, row) {
        Ok(()) => Ok(()),
        Err(error) => Err(StoreFault::from(error)),
    }
}

/// Deletes the handle of this number.
pub(crate) fn remove_handle<S: Alter>(conn: &mut Connection<S>, fh: u64) -> Result<(), StoreFault>
    requires { fh < 2 ^ 63 }
    ensures changed { OnOk result ((file : List ℕ) → ChangedIn file (with_change (changes.HandleGone fh))
        (state S.Store conn.old) (state S.Store conn.new)) }
    ensures fails { OnErr result (Stays (state S.Store conn.old) (state S.Store conn.new)) }
    ensures fault { IfErr result (λ f. IsOutside f) }
    ensures plain { IfErr result IsPlain }
{
    match delete_handle(conn, fh) {
        Ok(()) => Ok(()),
        Err(error) => Err(StoreFault::from(error)),
    }
}

// Changes the values of two counters.
fn set_two<S: Alter>(
    conn: &mut Connection<S>,
    key: u64,
    first: u64,
    second: u64,
) -> Result<(), Error>
    requires key { key < 32 }
    requires first { first < 2 ^ 63 }
    requires second { second < 2 ^ 63 }
    ensures { Makes (λ c. set_counter (key + 1) second (set_counter key first c))
        (state S.Store conn.old) (state S.Store conn.new) result }
{
    update_counter(conn, key, first)?;
    update_counter(conn, key + 1, second)
}

fn set_four<S: Alter>(
    conn: &mut Connection<S>,
    key: u64,
    first: u64,
    second: u64,
    third: u64,
    fourth: u64,
) -> Result<(), Error>
    requires key { key < 16 }
    requires first { first < 2 ^ 63 }
    requires second { second < 2 ^ 63 }
    requires third { third < 2 ^ 63 }
    requires fourth { fourth < 2 ^ 63 }
    ensures { Makes (λ c. set_counter (key + 2 + 1) fourth (set_counter (key + 2) third
        (set_counter (key + 1) second (set_counter key first c)))) (state S.Store conn.old)
        (state S.Store conn.new) result }
{
    set_two(conn, key, first, second)?;
    set_two(conn, key + 2, third, fourth)
}

fn set_numbers<S: Alter>(conn: &mut Connection<S>, n: &Counters) -> Result<(), Error>
    requires { FitsCounters n.now }
    ensures { Makes (λ c. set_counter 6 n.now.handles (set_counter (2 + 2 + 1) n.now.nodes
        (set_counter (2 + 2) n.now.next_cookie (set_counter (2 + 1) n.now.next_fh
        (set_counter 2 n.now.next_node c))))) (state S.Store conn.old) (state S.Store conn.new)
        result }
{
    set_four(
        conn,
        NEXT_NODE,
        n.next_node,
        n.next_fh,
        n.next_cookie,
        n.nodes,
    )?;
    update_counter(conn, HANDLES, n.handles)
}

fn set_agreed<S: Alter>(conn: &mut Connection<S>, v: Settings) -> Result<(), Error>
    requires { v.flags.0 < 2 ^ 63 }
    ensures { Makes (λ c. set_counter (7 + 2 + 1) v.flags.0 (set_counter (7 + 2) v.max_readahead
        (set_counter (7 + 1) v.minor (set_counter 7 1 c)))) (state S.Store conn.old)
        (state S.Store conn.new) result }
{
    set_four(
        conn,
        AGREED,
        1,
        u64::from(v.minor),
        u64::from(v.max_readahead),
        v.flags.0,
    )
}

// Changes the number of blocks in use, where there is a room for them.
fn set_used<S: Alter>(conn: &mut Connection<S>, room: Option<Room>) -> Result<(), Error>
    requires { IfSome room FitsRoom }
    ensures { Makes (with_used room) (state S.Store conn.old) (state S.Store conn.new) result }
{
    match room {
        None => Ok(()),
        Some(room) => update_counter(conn, USED, room.used),
    }
}

// The same after the other counters.
fn set_all<S: Alter>(conn: &mut Connection<S>, n: &Counters) -> Result<(), Error>
    requires { FitsCounters n.now }
    ensures { Makes (λ c. with_used n.now.room (set_counter 6 n.now.handles (set_counter 5
        n.now.nodes (set_counter 4 n.now.next_cookie (set_counter 3 n.now.next_fh (set_counter 2
        n.now.next_node c)))))) (state S.Store conn.old) (state S.Store conn.new) result }
{
    set_numbers(conn, n)?;
    set_used(conn, n.room)
}

// Changes the counters that aren't known to have these values.
fn write_counters<S: Alter>(
    conn: &mut Connection<S>,
    known: Option<Meta>,
    n: &Counters,
) -> Result<(), Error>
    requires { FitsCounters n.now }
    ensures { Makes (counters_written known n.now) (state S.Store conn.old)
        (state S.Store conn.new) result }
{
    match known {
        None => set_all(conn, n),
        Some(meta) => move_counters(conn, &meta.counters, n),
    }
}

/// Changes the counters. The capacity stays: no change of a plan has another one.
pub(crate) fn set_counters<S: Alter>(
    conn: &mut Connection<S>,
    known: Option<Meta>,
    n: &Counters,
) -> Result<(), StoreFault>
    requires { FitsCounters n.now }
    ensures changed { OnOk result ((file : List ℕ) → ChangedKnownIn file known (known_after known (changes.Counters n.now))
        (with_change (changes.Counters n.now)) (state S.Store conn.old)
        (state S.Store conn.new)) }
    ensures fails { OnErr result (Stays (state S.Store conn.old) (state S.Store conn.new)) }
    ensures fault { IfErr result (λ f. IsOutside f) }
    ensures plain { IfErr result IsPlain }
{
    match write_counters(conn, known, n) {
        Ok(()) => Ok(()),
        Err(error) => Err(StoreFault::from(error)),
    }
}

/// Changes the settings.
pub(crate) fn set_settings<S: Alter>(
    conn: &mut Connection<S>,
    v: Settings,
) -> Result<(), StoreFault>
    requires { v.flags.0 < 2 ^ 63 }
    ensures changed { OnOk result ((file : List ℕ) → ChangedIn file (with_change (changes.Settings v))
        (state S.Store conn.old) (state S.Store conn.new)) }
    ensures fails { OnErr result (Stays (state S.Store conn.old) (state S.Store conn.new)) }
    ensures fault { IfErr result (λ f. IsOutside f) }
    ensures plain { IfErr result IsPlain }
{
    narrow(v.minor);
    narrow(v.max_readahead);
    match set_agreed(conn, v) {
        Ok(()) => Ok(()),
        Err(error) => Err(StoreFault::from(error)),
    }
}

// A number of 64 bits.
fn wide(number: u64)
    ensures { number < 2 ^ 64 }
{
    let _ = number;
}

// A number of 32 bits.
pub(crate) fn narrow(number: u32)
    ensures { number < 2 ^ 32 }
{
    let _ = number;
}

// The seconds of a time are of 64 bits, and its nanoseconds of 32.
fn law_of_time(time: Moment)
    ensures { IsTime time }
{
    wide(time.secs);
    narrow(time.nanos);
}

// The columns are of 32 bits, but for the size and the directory above.
fn law_of_widths(row: &NodeRow)
    ensures { HasWidths row.now }
{
    narrow(row.mode);
    narrow(row.uid);
    narrow(row.gid);
    narrow(row.rdev);
    law_of_time(row.atime);
    law_of_time(row.mtime);
    law_of_time(row.ctime);
    narrow(row.subdirs);
}

// The row, with its written blocks counted where tables of this layout count them. A plan changes
// no row of a tree to another.
fn counted_in(row: &NodeRow, layout: Layout) -> NodeRow
    requires { FitsNode row.now }
    ensures value { result ≡ counted_row layout row.now }
    ensures fits { FitsNode result }
    ensures count { HasCount layout result }
{
    let written = match layout {
        Layout::Second => None,
        Layout::Third => match row.written {
            None => Some(0),
            Some(count) => Some(count),
        },
    };
    NodeRow { written, ..*row }
}

/// Changes the row of a node, or adds it where there is none with its number.
pub(crate) fn put_node<S: Alter>(conn: &mut Connection<S>, row: &NodeRow) -> Result<(), StoreFault>
    requires { FitsNode row.now }
    ensures changed { OnOk result ((file : List ℕ) → ChangedIn file
        (with_change (changes.Node row.now)) (state S.Store conn.old) (state S.Store conn.new)) }
    ensures fails { OnErr result (Stays (state S.Store conn.old) (state S.Store conn.new)) }
    ensures fault { IfErr result (λ f. IsOutside f) }
    ensures plain { IfErr result IsPlain }
{
    let row = counted_in(row, layout_of(conn));
    law_of_widths(&row);
    match fuse_store_tables::put_node(conn, &row) {
        Ok(()) => Ok(()),
        Err(error) => Err(StoreFault::from(error)),
    }
}
