// Runs of small blocks that become pieces.
ghost use Rattle.std.specs.Prelude.{◌≡◌, ◌<◌, ◌≤◌, ◌+◌, ◌*◌, ◌^◌, ℕ, List, true};
ghost use Rattle.std.specs.Prelude.{length, IsTrue, IfOk, IfErr, IfSome, OnOk, OnErr};
ghost use Rattle.sqlite.specs.State.{HasCleanDisk};
ghost use Rattle.sqlite.specs.Held.{state};
ghost use Rattle.fuse_rows.specs.Bounds.{block_bytes};
ghost use Rattle.fuse_data.specs.Extents.{AreBlocks, IsWhole};
ghost use Rattle.fuse_data.specs.State.{state_in};
ghost use Rattle.fuse_store_tables.specs.Content.{Content};
ghost use Rattle.fuse_store_tables.specs.Faults.{IsOutside, IsPlain};
ghost use Rattle.fuse_store_tables.specs.Moves.{Inside, LookedInside, Stays};
ghost use Rattle.fuse_store_tables.specs.Pieces.{FitsPiece};
ghost use Rattle.fuse_store_tree.specs.Pieces.{ReadsFile, is_written_in};
ghost use Rattle.fuse_store_tree.specs.Viewing.{view_in};
ghost use Rattle.fuse_store_tree.specs.Widening.{Widens};
ghost use Rattle.fuse_store_tree.specs.inner.Moving.{AddsTo, AreStored, HasStored, MovesOver};
ghost use Rattle.fuse_store_tree.specs.inner.Preparing.{IsAside, WritesAside};
ghost use Rattle.fuse_store_tree.specs.inner.Reading.{IsSound};
ghost use Rattle.fuse_store_tree.specs.inner.Relisting.{IsAny, extent_in};
ghost use Rattle.fuse_store_tree.specs.inner.Showing.{ShowsBlock};

use crate::contents::Contents;
use crate::piece_cuts::Gone;
use crate::piece_lists::{can_list, list_extent, put_piece};
use crate::piece_reads::extent_of;
use crate::range_reads::{Stored, find_stored, piece_with, read_stored, row_with};
use crate::store_data::{Data, write_aside};
use fuse_data::Extent;
use fuse_keeper::StoreFault;
use fuse_store_tables::PieceRow;
use sqlite::{Alter, Connection};
use sqlite_disk::Disk;
use std::alloc::Global;

// The bytes of a block.
const SIZE: u64 = 4096;

// Lists a piece that was written for this transaction, where the tables can, in the place of what it
// has. Else nothing changes.
fn list_move<S: Alter, C: Contents>(
    conn: &mut Connection<S>,
    contents: &mut C,
    gone: &mut Gone,
    alloc: Global,
    row: PieceRow,
) -> Result<(), StoreFault>
    requires fits { FitsPiece row }
    requires some { 1 ≤ row.count }
    requires end { row.first + row.count < 2 ^ 63 }
    requires whole { IsWhole (C.Contents.file contents.old).contents.seen (extent_in row) }
    ensures widens { Widens (C.Contents.file contents.old) (C.Contents.file contents.new) }
    ensures moved { OnOk result (MovesOver (C.Contents.file contents.old)
        (C.Contents.file contents.new) (HasStored (C.Contents.file contents.old).contents.seen
        (C.Contents.file contents.old).bytes row) (state S.Store conn.old)
        (state S.Store conn.new)) }
    ensures fails { OnErr result (Stays (state S.Store conn.old) (state S.Store conn.new)) }
    ensures fault { HasCleanDisk (state S.Store conn.new)
        → IsTrue (C.Contents.file contents.new).is_clean → IfErr result (λ f. (c : Content)
        → Inside c (state S.Store conn.old) → IsSound (C.Contents.file contents.old).bytes c
        → IsOutside f) }
    ensures plain { IfErr result IsPlain }
{
    let can = match can_list(conn, row.node) {
        Ok(can) => can,
        Err(fault) => return Err(fault),
    };
    let listed = list_extent(contents, can, extent_of(row));
    if listed {
        put_piece(conn, contents, gone, alloc, row)
    } else {
        Ok(())
    }
}

// Whether all blocks of a range are written.
fn are_written(stored: &Stored, from: u64, to: u64) -> bool
    ensures { result ≡ true → (file : List ℕ) (node : ℕ) (c : Content) → ((block : ℕ)
        → from ≤ block → block < to
        → ShowsBlock node block stored.now.rows.items stored.now.pieces.items c)
        → (block : ℕ) → from ≤ block → block < to → is_written_in file c node block ≡ true }
{
    let mut block = from;
    while block < to {
        if !is_written(stored, block) {
            return false;
        }
        block += 1;
    }
    true
}

// Whether a block is written.
fn is_written(stored: &Stored, block: u64) -> bool
    ensures { (file : List ℕ) (node : ℕ) (c : Content)
        → ShowsBlock node block stored.now.rows.items stored.now.pieces.items c
        → result ≡ is_written_in file c node block }
{
    row_with(stored.rows.as_slice(), block).is_some()
        || piece_with(stored.pieces.as_slice(), block).is_some()
}

// What is stored of a run of blocks, if they are all written and can be read.
fn read_run<S: Alter, C: Contents>(
    conn: &mut Connection<S>,
    contents: &mut C,
    alloc: Global,
    node: u64,
    first: u64,
    count: u64,
) -> Result<Option<Vec<u8>>, StoreFault>
    requires node { node < 2 ^ 63 }
    requires end { (first + count) * block_bytes < 2 ^ 63 }
    ensures looks { OnOk result (LookedInside (state S.Store conn.old) (state S.Store conn.new)) }
    ensures fails { OnErr result (Stays (state S.Store conn.old) (state S.Store conn.new)) }
    ensures reads { ReadsFile (C.Contents.file contents.old) (C.Contents.file contents.new) }
    ensures long { IfOk result (λ o. IfSome o (λ v. length v.items ≡ count * block_bytes)) }
    ensures stored { HasCleanDisk (state S.Store conn.new)
        → IsTrue (C.Contents.file contents.new).is_clean → IfOk result (λ o. IfSome o (λ v.
        (c : Content) → Inside c (state S.Store conn.old)
        → IsSound (C.Contents.file contents.new).bytes c
        → AreStored (C.Contents.file contents.new).bytes c node first count v.items)) }
    ensures fault { HasCleanDisk (state S.Store conn.new) → IfErr result (λ f. (file : List ℕ)
        (c : Content) → Inside c (state S.Store conn.old) → IsSound file c → IsOutside f) }
    ensures plain { IfErr result IsPlain }
{
    let stored = match find_stored(conn, alloc, node, first, first + count) {
        Ok(stored) => stored,
        Err(fault) => return Err(fault),
    };
    if !are_written(&stored, first, first + count) {
        return Ok(None);
    }
    match read_stored(stored, contents, alloc, first * SIZE, count * SIZE) {
        Ok(bytes) => Ok(whole_run(bytes, count)),
        Err(_) => Ok(None),
    }
}

// These bytes, if they are of so many blocks.
fn whole_run(bytes: Vec<u8>, count: u64) -> Option<Vec<u8>>
    requires { count * block_bytes < 2 ^ 63 }
    ensures same { IfSome result (λ v. v.items ≡ bytes.items) }
    ensures long { IfSome result (λ v. length v.items ≡ count * block_bytes) }
{
    if bytes.len() as u64 == count * SIZE {
        Some(bytes)
    } else {
        None
    }
}

// Writes bytes aside, if the data file takes them.
fn set_aside<D: Disk>(contents: &mut Data<D>, bytes: &[u8]) -> Option<Extent>
    requires { AreBlocks (length bytes.now) }
    ensures aside { WritesAside (state_in D.Disk contents.old.file)
        (state_in D.Disk contents.new.file) contents.old.written.items
        contents.new.written.items }
    ensures written { IfSome result (λ e. IsAside (state_in D.Disk contents.new.file)
        contents.new.written.items e bytes.now) }
{
    match &mut contents.file {
        None => None,
        Some(file) => match write_aside(file, &mut contents.written, bytes) {
            Ok(extent) => Some(extent),
            Err(_) => None,
        },
    }
}

// Moves a run of blocks into a piece, where they are all written. It says whether more can be moved:
// where the data file takes or gives no bytes, nothing is.
fn move_run<S: Alter, D: Disk>(
    conn: &mut Connection<S>,
    contents: &mut Data<D>,
    gone: &mut Gone,
    alloc: Global,
    node: u64,
    first: u64,
    count: u64,
) -> Result<bool, StoreFault>
    requires node { node < 2 ^ 63 }
    requires some { 1 ≤ count }
    requires most { count ≤ 32 }
    requires end { (first + count) * block_bytes < 2 ^ 63 }
    ensures adds { AddsTo (state_in D.Disk contents.old.file) (state_in D.Disk contents.new.file)
        contents.old.written.items contents.new.written.items }
    ensures moved { OnOk result (MovesOver (view_in D.Disk contents.old)
        (view_in D.Disk contents.new) IsAny (state S.Store conn.old) (state S.Store conn.new)) }
    ensures fails { OnErr result (Stays (state S.Store conn.old) (state S.Store conn.new)) }
    ensures fault { HasCleanDisk (state S.Store conn.new)
        → IsTrue (state_in D.Disk contents.new.file).is_clean → IfErr result (λ f.
        (c : Content) → Inside c (state S.Store conn.old)
        → IsSound (view_in D.Disk contents.old).bytes c → IsOutside f) }
    ensures plain { IfErr result IsPlain }
{
    let bytes = match read_run(conn, contents, alloc, node, first, count) {
        Ok(Some(bytes)) => bytes,
        Ok(None) => return Ok(false),
        Err(fault) => return Err(fault),
    };
    let Some(extent) = set_aside(contents, bytes.as_slice()) else {
        return Ok(false);
    };
    let row = PieceRow {
        node,
        first,
        count,
        place: extent.place as u64,
        sum: extent.sum,
    };
    match list_move(conn, contents, gone, alloc, row) {
        Ok(()) => Ok(true),
        Err(fault) => Err(fault),
    }
}

// The first block of a range that has a row, or its end.
fn row_from(stored: &Stored, from: u64, to: u64) -> u64
    requires { from ≤ to }
    ensures low { from ≤ result }
    ensures high { result ≤ to }
{
    let mut block = from;
    while block < to {
        if row_with(stored.rows.as_slice(), block).is_some() {
            return block;
        }
        block += 1;
    }
    to
}

// Where the run of written blocks with this one begins, from one on.
fn run_begin(stored: &Stored, from: u64, block: u64) -> u64
    requires { from ≤ block }
    ensures low { from ≤ result }
    ensures high { result ≤ block }
{
    let mut first = block;
    while first > from {
        if !is_written(stored, first - 1) {
            return first;
        }
        first -= 1;
    }
    first
}

// Where it ends, at most at another.
fn run_end(stored: &Stored, block: u64, to: u64) -> u64
    requires { block < to }
    ensures low { block < result }
    ensures high { result ≤ to }
{
    let mut end = block + 1;
    while end < to {
        if !is_written(stored, end) {
            return end;
        }
        end += 1;
    }
    end
}

/// Moves the runs of a range that have rows, with the pieces that they overlap with. It says whether
/// more can be moved.
pub(crate) fn move_runs<S: Alter, D: Disk>(
    conn: &mut Connection<S>,
    contents: &mut Data<D>,
    gone: &mut Gone,
    alloc: Global,
    stored: &Stored,
    node: u64,
    from: u64,
    to: u64,
) -> Result<bool, StoreFault>
    requires node { node < 2 ^ 63 }
    requires order { from ≤ to }
    requires most { to ≤ from + 32 }
    requires end { to * block_bytes < 2 ^ 63 }
    ensures adds { AddsTo (state_in D.Disk contents.old.file) (state_in D.Disk contents.new.file)
        contents.old.written.items contents.new.written.items }
    ensures moved { OnOk result (MovesOver (view_in D.Disk contents.old)
        (view_in D.Disk contents.new) IsAny (state S.Store conn.old) (state S.Store conn.new)) }
    ensures fails { OnErr result (Stays (state S.Store conn.old) (state S.Store conn.new)) }
    ensures fault { HasCleanDisk (state S.Store conn.new)
        → IsTrue (state_in D.Disk contents.new.file).is_clean → IfErr result (λ f.
        (c : Content) → Inside c (state S.Store conn.old)
        → IsSound (view_in D.Disk contents.old).bytes c → IsOutside f) }
    ensures plain { IfErr result IsPlain }
{
    let mut at = from;
    'runs: while at < to {
        let row = row_from(stored, at, to);
        if row >= to {
            return Ok(true);
        }
        let first = run_begin(stored, at, row);
        let end = run_end(stored, row, to);
        match move_run(conn, contents, gone, alloc, node, first, end - first) {
            Ok(true) => at = end,
            Ok(false) => return Ok(false),
            Err(fault) => return Err(fault),
        }
    }
    Ok(true)
}
