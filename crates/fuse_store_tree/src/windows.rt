// The windows of blocks whose rows become pieces, and when they do.
ghost use Rattle.std.specs.Prelude.{◌≡◌, ◌<◌, ◌^◌, Option, false};
ghost use Rattle.std.specs.Prelude.{IsTrue, IfOk, IfErr, IfSome, OnOk, OnErr};
ghost use Rattle.sqlite.specs.State.{HasCleanDisk};
ghost use Rattle.sqlite.specs.Held.{state};
ghost use Rattle.fuse_data.specs.State.{state_in};
ghost use Rattle.fuse_store_tables.specs.Content.{Content};
ghost use Rattle.fuse_store_tables.specs.Faults.{IsOutside, IsPlain};
ghost use Rattle.fuse_store_tables.specs.Moves.{Inside, LookedInside, Stays};
ghost use Rattle.fuse_store_tree.specs.declared.meta.Meta.{Meta as Known};
ghost use Rattle.fuse_store_tree.specs.Holding.{Holding};
ghost use Rattle.fuse_store_tree.specs.Viewing.{view_in};
ghost use Rattle.fuse_store_tree.specs.inner.Knowing.{InsideKnown};
ghost use Rattle.fuse_store_tree.specs.inner.Moving.{AddsTo, MovesOver};
ghost use Rattle.fuse_store_tree.specs.inner.Over.{TurnedOver};
ghost use Rattle.fuse_store_tree.specs.inner.Reading.{IsSound};
ghost use Rattle.fuse_store_tree.specs.inner.Relisting.{IsAny};

use crate::bounds::END;
use crate::moving::move_runs;
use crate::piece_cuts::Gone;
use crate::range_reads::find_stored;
use crate::store_data::Data;
use fuse_keeper::StoreFault;
use fuse_request::Request;
use fuse_store_tables::{count_all_blocks, number_at, select_block_keys};
use fuse_wire::Moment;
use fuse_wire::opcode::{SETATTR, SYMLINK, WRITE};
use sqlite::{Alter, Connection, Row};
use sqlite_disk::Disk;
use std::alloc::Global;

// Rows are moved in windows of so many blocks, as a piece has at most.
const WINDOW: u64 = 32;

// All blocks of files are below it.
const LAST: u64 = 1 << 50;

// A window of a node's blocks, and how many rows it has.
#[derive(Clone, Copy)]
struct Window {
    node: u64,
    from: u64,
    rows: u64,
}

// Moves the rows of a window, with the pieces that they overlap with. It says whether more can be
// moved.
fn move_window<S: Alter, D: Disk>(
    conn: &mut Connection<S>,
    contents: &mut Data<D>,
    gone: &mut Gone,
    alloc: Global,
    window: Window,
) -> Result<bool, StoreFault>
    ensures adds { AddsTo (state_in D.Disk contents.old.file) (state_in D.Disk contents.new.file)
        contents.old.written.items contents.new.written.items }
    ensures moved { OnOk result (MovesOver (view_in D.Disk contents.old)
        (view_in D.Disk contents.new) IsAny (state S.Store conn.old) (state S.Store conn.new)) }
    ensures fails { OnErr result (Stays (state S.Store conn.old) (state S.Store conn.new)) }
    ensures fault { HasCleanDisk (state S.Store conn.new)
        → IsTrue (state_in D.Disk contents.new.file).is_clean → IfErr result (λ f.
        (c : Content) → Inside c (state S.Store conn.old)
        → IsSound (view_in D.Disk contents.old).bytes c → IsOutside f) }
    ensures plain { IfErr result IsPlain }
{
    if window.node >= END || window.from >= LAST {
        return Ok(true);
    }
    let to = window.from + WINDOW;
    let stored = match find_stored(conn, alloc, window.node, window.from, to) {
        Ok(stored) => stored,
        Err(fault) => return Err(fault),
    };
    move_runs(
        conn,
        contents,
        gone,
        alloc,
        &stored,
        window.node,
        window.from,
        to,
    )
}

// Moves the rows of windows, one after the other, until so many are moved. Where the data file takes
// or gives no bytes, the others stay as they are.
fn move_windows<S: Alter, D: Disk>(
    conn: &mut Connection<S>,
    contents: &mut Data<D>,
    gone: &mut Gone,
    alloc: Global,
    windows: &[Window],
    goal: u64,
) -> Result<(), StoreFault>
    ensures adds { AddsTo (state_in D.Disk contents.old.file) (state_in D.Disk contents.new.file)
        contents.old.written.items contents.new.written.items }
    ensures moved { OnOk result (MovesOver (view_in D.Disk contents.old)
        (view_in D.Disk contents.new) IsAny (state S.Store conn.old) (state S.Store conn.new)) }
    ensures fails { OnErr result (Stays (state S.Store conn.old) (state S.Store conn.new)) }
    ensures fault { HasCleanDisk (state S.Store conn.new)
        → IsTrue (state_in D.Disk contents.new.file).is_clean → IfErr result (λ f.
        (c : Content) → Inside c (state S.Store conn.old)
        → IsSound (view_in D.Disk contents.old).bytes c → IsOutside f) }
    ensures plain { IfErr result IsPlain }
{
    let mut moved: u64 = 0;
    for window in windows {
        if moved >= goal {
            return Ok(());
        }
        match move_window(conn, contents, gone, alloc, *window) {
            Ok(true) => moved = moved.saturating_add(window.rows),
            Ok(false) => return Ok(()),
            Err(fault) => return Err(fault),
        }
    }
    Ok(())
}

// How many rows are read at once, and at most.
const SLICE: usize = 1024;

const SLICES: usize = 64;

// Where a block stands, if the row says so.
fn key_in_row(row: &Row) -> Option<(u64, u64)>
    ensures { IfSome result (λ k. (k.0 < 2 ^ 63) × (k.1 < 2 ^ 63)) }
{
    let Ok(node) = number_at(row, 0) else {
        return None;
    };
    let Ok(block) = number_at(row, 1) else {
        return None;
    };
    Some((node, block))
}

// Counts a block in the window that has it, which is the last one or a new one.
fn count_block(windows: &mut Vec<Window>, node: u64, block: u64) -> Result<(), StoreFault>
    ensures fault { IfErr result IsOutside }
    ensures plain { IfErr result IsPlain }
{
    let from = block / WINDOW * WINDOW;
    let count = windows.len();
    if count > 0 {
        let last = windows[count - 1];
        if last.node == node && last.from == from {
            windows[count - 1] = Window {
                node,
                from,
                rows: last.rows.saturating_add(1),
            };
            return Ok(());
        }
    }
    windows.push(Window {
        node,
        from,
        rows: 1,
    })?;
    Ok(())
}

// Counts the blocks of a slice. It says where the last one stands, if there is any.
fn count_slice(windows: &mut Vec<Window>, rows: &[Row]) -> Result<Option<(u64, u64)>, StoreFault>
    ensures key { IfOk result (λ o. IfSome o (λ k. (k.0 < 2 ^ 63) × (k.1 < 2 ^ 63))) }
    ensures fault { IfErr result IsOutside }
    ensures plain { IfErr result IsPlain }
{
    let mut last = None;
    for row in rows {
        let Some(key) = key_in_row(row) else {
            return Ok(None);
        };
        match count_block(windows, key.0, key.1) {
            Ok(()) => last = Some(key),
            Err(fault) => return Err(fault),
        }
    }
    Ok(last)
}

// Where the block after the last one of a full slice can stand.
fn next_key(last: Option<(u64, u64)>, full: bool) -> Option<(u64, u64)>
    ensures { IfSome result (λ k. (k.0 < 2 ^ 63) × (k.1 < 2 ^ 63)) }
{
    let Some(key) = last else {
        return None;
    };
    let block = key.1.saturating_add(1);
    if !full || key.0 >= END || block >= END {
        return None;
    }
    Some((key.0, block))
}

// The windows that have rows, with how many: of the first 65,536 rows.
fn read_windows<S: Alter>(
    conn: &mut Connection<S>,
    alloc: Global,
) -> Result<Vec<Window>, StoreFault>
    ensures looks { OnOk result (LookedInside (state S.Store conn.old) (state S.Store conn.new)) }
    ensures fails { OnErr result (Stays (state S.Store conn.old) (state S.Store conn.new)) }
    ensures fault { IfErr result IsOutside }
    ensures plain { IfErr result IsPlain }
{
    let mut windows = Vec::new(alloc);
    let mut node: u64 = 0;
    let mut block: u64 = 0;
    let mut slices: usize = 0;
    while slices < SLICES {
        let rows = match select_block_keys(conn, node, block, SLICE as u64) {
            Ok(rows) => rows,
            Err(error) => return Err(StoreFault::from(error)),
        };
        let last = match count_slice(&mut windows, rows.as_slice()) {
            Ok(last) => last,
            Err(fault) => return Err(fault),
        };
        let Some(key) = next_key(last, rows.len() >= SLICE) else {
            return Ok(windows);
        };
        node = key.0;
        block = key.1;
        slices += 1;
    }
    Ok(windows)
}

// The rows are moved where a group that writes could make them more than so many, so that it isn't
// done for each one.
const FULL: u64 = 3072;

// The most rows. Only where there could be more are they moved before a group of cuts: a full disk
// must be possible to empty.
const MOST: u64 = 4096;

// The most rows that a WRITE adds: one of 16 whole blocks becomes a piece.
const OF_WRITE: u64 = 17;

// How many rows a request can add: a cut one, for what is left of the last block.
fn rows_of(opcode: u32) -> u64 {
    match opcode {
        WRITE => OF_WRITE,
        SYMLINK | SETATTR => 1,
        _ => 0,
    }
}

// How many rows the requests of a group can add.
fn rows_added(group: &[(Request<'_>, Moment)]) -> u64 {
    let mut rows: u64 = 0;
    for one in group {
        rows = rows.saturating_add(rows_of(one.0.op.opcode()));
    }
    rows
}

// How many rows there may be after a group without a move.
fn most_after(group: &[(Request<'_>, Moment)]) -> u64 {
    for one in group {
        if matches!(one.0.op.opcode(), WRITE | SYMLINK) {
            return FULL;
        }
    }
    MOST
}

// How many rows are to be moved before a group: half of them, where there could be too many.
fn rows_to_move<S: Alter, D: Disk>(
    conn: &mut Connection<S>,
    contents: &mut Data<D>,
    group: &[(Request<'_>, Moment)],
) -> Result<u64, StoreFault>
    ensures looks { OnOk result (LookedInside (state S.Store conn.old) (state S.Store conn.new)) }
    ensures fails { OnErr result (Stays (state S.Store conn.old) (state S.Store conn.new)) }
    ensures file { contents.new.file ≡ contents.old.file }
    ensures written { contents.new.written ≡ contents.old.written }
    ensures fault { HasCleanDisk (state S.Store conn.new) → IfErr result (λ f. (c : Content)
        → Inside c (state S.Store conn.old) → IsOutside f) }
    ensures plain { IfErr result IsPlain }
{
    let added = rows_added(group);
    let most = most_after(group);
    contents.rows = contents.rows.saturating_add(added);
    if added == 0 || contents.rows <= most || contents.file.is_none() {
        return Ok(0);
    }
    let rows = match count_all_blocks(conn) {
        Ok(rows) => rows,
        Err(fault) => return Err(fault),
    };
    contents.rows = rows.saturating_add(added);
    if contents.rows <= most {
        return Ok(0);
    }
    Ok(rows / 2)
}

// Moves so many rows, those of the fullest windows first.
fn move_fullest<S: Alter, D: Disk>(
    conn: &mut Connection<S>,
    contents: &mut Data<D>,
    gone: &mut Gone,
    alloc: Global,
    goal: u64,
) -> Result<(), StoreFault>
    ensures adds { AddsTo (state_in D.Disk contents.old.file) (state_in D.Disk contents.new.file)
        contents.old.written.items contents.new.written.items }
    ensures moved { OnOk result (MovesOver (view_in D.Disk contents.old)
        (view_in D.Disk contents.new) IsAny (state S.Store conn.old) (state S.Store conn.new)) }
    ensures fails { OnErr result (Stays (state S.Store conn.old) (state S.Store conn.new)) }
    ensures fault { HasCleanDisk (state S.Store conn.new)
        → IsTrue (state_in D.Disk contents.new.file).is_clean → IfErr result (λ f.
        (c : Content) → Inside c (state S.Store conn.old)
        → IsSound (view_in D.Disk contents.old).bytes c → IsOutside f) }
    ensures plain { IfErr result IsPlain }
{
    let mut windows = match read_windows(conn, alloc) {
        Ok(windows) => windows,
        Err(fault) => return Err(fault),
    };
    windows.sort_unstable_by_key(|w| u64::MAX - w.rows);
    move_windows(conn, contents, gone, alloc, windows.as_slice(), goal)
}

/// Moves rows of `blocks` into pieces, within the transaction and before the requests of a group,
/// where they could make them too many. It says whether bytes may have been written. What is stored
/// stays, and so what is held. Where the data file takes no bytes, the rows stay.
pub(crate) fn move_rows<S: Alter, D: Disk>(
    conn: &mut Connection<S>,
    contents: &mut Data<D>,
    gone: &mut Gone,
    alloc: Global,
    group: &[(Request<'_>, Moment)],
) -> Result<bool, StoreFault>
    ensures adds { AddsTo (state_in D.Disk contents.old.file) (state_in D.Disk contents.new.file)
        contents.old.written.items contents.new.written.items }
    ensures idle { IfOk result (λ wrote. wrote ≡ false
        → contents.new.file ≡ contents.old.file) }
    // Each block has the bytes that it had, and there are no more rows than before.
    ensures moved { OnOk result (MovesOver (view_in D.Disk contents.old)
        (view_in D.Disk contents.new) IsAny (state S.Store conn.old) (state S.Store conn.new)) }
    ensures turned { OnOk result ((known : Option Known) → TurnedOver
        (view_in D.Disk contents.old) (view_in D.Disk contents.new) known known (λ y. y)
        (state S.Store conn.old) (state S.Store conn.new)) }
    ensures fails { OnErr result (Stays (state S.Store conn.old) (state S.Store conn.new)) }
    ensures fault { HasCleanDisk (state S.Store conn.new)
        → IsTrue (state_in D.Disk contents.new.file).is_clean → IfErr result (λ f.
        (known : Option Known) (y : Holding)
        → InsideKnown (view_in D.Disk contents.old).bytes known y (state S.Store conn.old)
        → IsOutside f) }
    ensures plain { IfErr result IsPlain }
{
    let goal = match rows_to_move(conn, contents, group) {
        Ok(goal) => goal,
        Err(fault) => return Err(fault),
    };
    if goal == 0 {
        return Ok(false);
    }
    match move_fullest(conn, contents, gone, alloc, goal) {
        Ok(()) => Ok(true),
        Err(fault) => Err(fault),
    }
}
