// Reads of the entries of a directory, in order.
ghost use Rattle.std.specs.Prelude.{◌≡◌, ◌<◌, ◌≤◌, ◌^◌, ◌+◌, ◌⊎◌, ◌&&◌, not, nat_lt, pos, List};
ghost use Rattle.std.specs.Prelude.{map};
ghost use Rattle.sqlite.specs.Order.{column};
ghost use Rattle.sqlite.specs.declared.types.Value.TheVariants.{Int, Blob};
ghost use Rattle.std.specs.Prelude.{take, filter, length, IfOk, IfErr, OnOk, OnErr};
ghost use Rattle.std.specs.List.{AllByRecursion};
ghost use Rattle.sqlite.specs.State.{HasCleanDisk};
ghost use Rattle.sqlite.specs.Held.{state};
ghost use Rattle.fuse_rows.specs.declared.rows.EntryRow.{EntryRow as Entry};
ghost use Rattle.fuse_store_tables.specs.Content.{Content, shown_entry, stands_after};
ghost use Rattle.fuse_rows.specs.declared.rows.Child.{Child as Beside};
ghost use Rattle.fuse_store_tree.specs.Fits.{Fits};
ghost use Rattle.fuse_store_tree.specs.inner.Reading.{child_in, shown_beside, IsReadBack};
ghost use Rattle.fuse_store_tree.specs.inner.Reading.{node_width};
ghost use Rattle.fuse_store_tables.specs.Faults.{IsOutside, IsPlain};
ghost use Rattle.fuse_store_tables.specs.Moves.{Inside, LookedInside, Stays};

use crate::bounds::END;
use fuse_keeper::StoreFault;
use fuse_rows::{Child, EntryRow};
use fuse_store_tables::{
    Layout, bytes_at, layout_of, node_if_any, number_at, select_after, select_children,
};
use fuse_wire::ByteList;
use sqlite::{Alter, Connection, Row};
use std::alloc::Global;

// More rows than a table of entries or handles has.
pub(crate) const MOST: u64 = 0x4000_0000_0000_0000;

// The entry in three columns of a row, from this one on.
fn entry_at(row: &Row, dir: u64, at: usize) -> Result<EntryRow, StoreFault>
    requires { at ≤ 16 }
    ensures value { IfOk result (λ r. (e : Entry) → e.dir ≡ dir
        → column row.now at ≡ Int (pos e.cookie) → column row.now (at + 1) ≡ Blob e.name
        → column row.now (at + 2) ≡ Int (pos e.child) → r ≡ e) }
    ensures fault { IfErr result (λ f. (e : Entry) → at + 2 < length row.now
        → column row.now at ≡ Int (pos e.cookie) → column row.now (at + 1) ≡ Blob e.name
        → column row.now (at + 2) ≡ Int (pos e.child) → IsOutside f) }
    ensures plain { IfErr result IsPlain }
{
    let cookie = number_at(row, at)?;
    let name = ByteList::from_vec(bytes_at(row, at + 1)?);
    let child = number_at(row, at + 2)?;
    Ok(EntryRow {
        dir,
        name,
        child,
        cookie,
    })
}

fn read_entries(alloc: Global, rows: &[Row], dir: u64) -> Result<Vec<EntryRow>, StoreFault>
    ensures value { IfOk result (λ v. (es : List Entry) → AllByRecursion (λ e. e.dir ≡ dir) es
        → rows.now ≡ map shown_entry es → v.items ≡ es) }
    ensures fault { IfErr result (λ f. (es : List Entry) → AllByRecursion (λ e. e.dir ≡ dir) es
        → rows.now ≡ map shown_entry es → IsOutside f) }
    ensures plain { IfErr result IsPlain }
{
    let mut entries = Vec::new(alloc);
    for row in rows {
        let entry = match entry_at(row, dir, 0) {
            Ok(entry) => entry,
            Err(fault) => return Err(fault),
        };
        entries.push(entry)?;
    }
    Ok(entries)
}

// The limit of the statement.
pub(crate) fn most_of(limit: usize) -> u64
    ensures some { result ≤ limit }
    ensures small { result < 2 ^ 63 }
    ensures most { (result ≡ limit) ⊎ (result ≡ MOST) }
{
    (limit as u64).min(MOST)
}

// Whether the table has more rows than possible.
pub(crate) fn is_too_long(limit: usize, most: u64, count: usize) -> bool
    ensures { result ≡ (nat_lt most limit && not (nat_lt count most)) }
{
    most < limit as u64 && count as u64 >= most
}

/// At most `limit` entries of a directory after a cookie.
pub(crate) fn find_after<S: Alter>(
    conn: &mut Connection<S>,
    alloc: Global,
    dir: u64,
    cookie: u64,
    limit: usize,
) -> Result<Vec<EntryRow>, StoreFault>
    ensures looks { OnOk result (LookedInside (state S.Store conn.old) (state S.Store conn.new)) }
    ensures fails { OnErr result (Stays (state S.Store conn.old) (state S.Store conn.new)) }
    ensures value { HasCleanDisk (state S.Store conn.new) → IfOk result (λ v. (c : Content)
        → Inside c (state S.Store conn.old) → Fits c
        → v.items ≡ take limit (filter (stands_after dir cookie) c.entries)) }
    ensures fault { HasCleanDisk (state S.Store conn.new) → IfErr result (λ f. (c : Content)
        → Inside c (state S.Store conn.old) → length c.entries < MOST → IsOutside f) }
    ensures plain { IfErr result IsPlain }
{
    if dir >= END {
        return Ok(Vec::new(alloc));
    }
    if cookie >= END {
        return Ok(Vec::new(alloc));
    }
    let most = most_of(limit);
    let rows = select_after(conn, dir, cookie, most)?;
    if is_too_long(limit, most, rows.len()) {
        return Err(StoreFault::Damaged);
    }
    read_entries(alloc, rows.as_slice(), dir)
}

// How many columns a node has, before those of an entry.
fn width_of(layout: Layout) -> usize
    ensures value { result ≡ node_width layout }
    ensures small { result ≤ 16 }
{
    match layout {
        Layout::Second => 13,
        Layout::Third => 16,
    }
}

// The entry and its node, from the row of both in tables of this layout.
fn child_at(row: &Row, dir: u64, layout: Layout) -> Result<Child, StoreFault>
    ensures value { IfOk result (λ r. (x : Beside) → IsReadBack layout dir x
        → row.now ≡ shown_beside layout x → r ≡ x) }
    ensures fault { IfErr result (λ f. (x : Beside) → IsReadBack layout dir x
        → row.now ≡ shown_beside layout x → IsOutside f) }
    ensures plain { IfErr result IsPlain }
{
    let entry = match entry_at(row, dir, width_of(layout)) {
        Ok(entry) => entry,
        Err(fault) => return Err(fault),
    };
    match node_if_any(row, entry.child, layout) {
        Ok(node) => Ok(Child { entry, row: node }),
        Err(fault) => Err(fault),
    }
}

fn read_children(
    alloc: Global,
    rows: &[Row],
    dir: u64,
    layout: Layout,
) -> Result<Vec<Child>, StoreFault>
    ensures value { IfOk result (λ v. (xs : List Beside)
        → AllByRecursion (IsReadBack layout dir) xs → rows.now ≡ map (shown_beside layout) xs
        → v.items ≡ xs) }
    ensures fault { IfErr result (λ f. (xs : List Beside)
        → AllByRecursion (IsReadBack layout dir) xs → rows.now ≡ map (shown_beside layout) xs
        → IsOutside f) }
    ensures plain { IfErr result IsPlain }
{
    let mut children = Vec::new(alloc);
    for row in rows {
        let child = match child_at(row, dir, layout) {
            Ok(child) => child,
            Err(fault) => return Err(fault),
        };
        children.push(child)?;
    }
    Ok(children)
}

/// The same entries, each with the row of its node.
pub(crate) fn find_children<S: Alter>(
    conn: &mut Connection<S>,
    alloc: Global,
    dir: u64,
    cookie: u64,
    limit: usize,
) -> Result<Vec<Child>, StoreFault>
    ensures looks { OnOk result (LookedInside (state S.Store conn.old) (state S.Store conn.new)) }
    ensures fails { OnErr result (Stays (state S.Store conn.old) (state S.Store conn.new)) }
    ensures value { HasCleanDisk (state S.Store conn.new) → IfOk result (λ v. (c : Content)
        → Inside c (state S.Store conn.old) → Fits c
        → v.items ≡ map (child_in c) (take limit (filter (stands_after dir cookie) c.entries))) }
    ensures fault { HasCleanDisk (state S.Store conn.new) → IfErr result (λ f. (c : Content)
        → Inside c (state S.Store conn.old) → Fits c → length c.entries < MOST → IsOutside f) }
    ensures plain { IfErr result IsPlain }
{
    if dir >= END {
        return Ok(Vec::new(alloc));
    }
    if cookie >= END {
        return Ok(Vec::new(alloc));
    }
    let most = most_of(limit);
    let layout = layout_of(conn);
    let rows = select_children(conn, dir, cookie, most)?;
    if is_too_long(limit, most, rows.len()) {
        return Err(StoreFault::Damaged);
    }
    read_children(alloc, rows.as_slice(), dir, layout)
}
