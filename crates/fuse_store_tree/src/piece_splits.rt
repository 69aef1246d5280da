// A piece that becomes two, of which the second begins with a given block.
ghost use Rattle.std.specs.Prelude.{◌≡◌, ◌≤◌, ◌<◌, ◌^◌, ◌+◌, ◌-◌, ◌==◌, if◌then◌else◌};
ghost use Rattle.std.specs.Prelude.{false, length, take, drop, OnOk, OnErr, IfOk, IfErr, IsTrue};
ghost use Rattle.sqlite.specs.State.{HasCleanDisk};
ghost use Rattle.sqlite.specs.Held.{state};
ghost use Rattle.fuse_data.specs.Extents.{IsPlaced, IsWhole, sum_of};
ghost use Rattle.fuse_store_tables.specs.declared.version.Layout.TheVariants.{Third};
ghost use Rattle.fuse_store_tables.specs.Content.{Content, HoldsIn};
ghost use Rattle.fuse_store_tables.specs.Faults.{IsOutside, IsPlain};
ghost use Rattle.fuse_store_tables.specs.Moves.{Inside, Stays, Takes};
ghost use Rattle.fuse_store_tables.specs.Pieces.{FitsPiece};
ghost use Rattle.fuse_store_tree.specs.Pieces.{ReadsFile};
ghost use Rattle.fuse_store_tree.specs.inner.Reading.{IsSound};
ghost use Rattle.fuse_store_tree.specs.inner.Relisting.{Relists, IsAny, Split, HasSums, extent_in};
ghost use Rattle.fuse_store_tree.specs.inner.Relisting.{part_in, with_parts};

use crate::contents::Contents;
use fuse_data::{Extent, is_placed, parts_hold, sum_of_bytes};
use fuse_keeper::StoreFault;
use fuse_rows::BLOCK_SIZE;
use fuse_store_tables::{PieceRow, delete_pieces, insert_piece, piece_in_row, select_piece_before};
use sqlite::{Alter, Connection};
use std::alloc::Global;

/// Where a piece lies in the data file.
pub(crate) fn extent_of(piece: PieceRow) -> Extent
    ensures is { result ≡ extent_in piece }
    ensures count { result.count ≡ piece.count }
{
    Extent {
        place: piece.place as usize,
        count: piece.count as usize,
        sum: piece.sum,
    }
}

// The digests of the first bytes and of the others.
fn digests_of(bytes: &[u8], middle: usize) -> (u64, u64)
    requires { middle ≤ length bytes.now }
    ensures front { result.0 ≡ sum_of (take middle bytes.now) }
    ensures back { result.1 ≡ sum_of (drop middle bytes.now) }
    ensures low { (result.0 < 2 ^ 64) × (result.1 < 2 ^ 64) }
{
    let front = sum_of_bytes(&bytes[..middle]);
    let back = sum_of_bytes(&bytes[middle..]);
    (front, back)
}

// The digests of the bytes of a piece before a block and from there on. Zeros have none.
fn sums_of<C: Contents>(
    contents: &mut C,
    alloc: Global,
    piece: PieceRow,
    block: u64,
) -> Result<(u64, u64), StoreFault>
    requires begins { piece.first < block }
    requires ends { block < piece.first + piece.count }
    ensures reads { ReadsFile (C.Contents.file contents.old) (C.Contents.file contents.new) }
    ensures placed { OnOk result (((piece.place == 0) ≡ false) → IsPlaced (extent_in piece)) }
    ensures sums { IsTrue (C.Contents.file contents.new).is_clean → IfOk result (λ s.
        HasSums (C.Contents.file contents.new).bytes piece block s.0 s.1) }
    ensures low { IfOk result (λ s. (s.0 < 2 ^ 64) × (s.1 < 2 ^ 64)) }
    ensures fault { IsTrue (C.Contents.file contents.new).is_clean
        → (((piece.place == 0) ≡ false) → IsWhole (C.Contents.file contents.new).bytes
        (extent_in piece)) → IfErr result IsOutside }
    ensures plain { IfErr result IsPlain }
{
    parts_hold();
    if piece.place == 0 {
        return Ok((0, 0));
    }
    let extent = extent_of(piece);
    if !is_placed(extent) {
        return Err(StoreFault::Damaged);
    }
    let bytes = match contents.read(alloc, extent) {
        Ok(bytes) => bytes,
        Err(fault) => return Err(fault),
    };
    let middle = (block - piece.first) as usize * BLOCK_SIZE as usize;
    Ok(digests_of(bytes.as_slice(), middle))
}

// The block of the data file where a part of a piece begins.
fn place_in(piece: PieceRow, from: u64) -> u64
    requires begins { piece.first ≤ from }
    requires ends { from < piece.first + piece.count }
    requires fits { FitsPiece piece }
    requires placed { ((piece.place == 0) ≡ false) → IsPlaced (extent_in piece) }
    ensures is { result
        ≡ (if piece.place == 0 then 0 else piece.place + (from - piece.first)) }
    ensures low { result < 2 ^ 63 }
{
    if piece.place == 0 {
        return 0;
    }
    piece.place + (from - piece.first)
}

// The part of a piece from one of its blocks on, below another, which has this digest.
fn part_of(piece: PieceRow, from: u64, to: u64, sum: u64) -> PieceRow
    requires begins { piece.first ≤ from }
    requires some { from < to }
    requires ends { to ≤ piece.first + piece.count }
    requires fits { FitsPiece piece }
    requires placed { ((piece.place == 0) ≡ false) → IsPlaced (extent_in piece) }
    ensures is { result ≡ part_in piece from to sum }
    ensures fits { from < 2 ^ 63 → FitsPiece result }
{
    PieceRow {
        node: piece.node,
        first: from,
        count: to - from,
        place: place_in(piece, from),
        sum,
    }
}

// Lists the parts of a piece in its place.
fn put_parts<S: Alter>(
    conn: &mut Connection<S>,
    piece: PieceRow,
    block: u64,
    sums: (u64, u64),
) -> Result<(), StoreFault>
    requires begins { piece.first < block }
    requires ends { block < piece.first + piece.count }
    requires block { block < 2 ^ 63 }
    requires fits { FitsPiece piece }
    requires placed { ((piece.place == 0) ≡ false) → IsPlaced (extent_in piece) }
    ensures made { Takes (HoldsIn Third) (λ c. HoldsIn Third (with_parts piece block sums.0 sums.1
        c)) (state S.Store conn.old) (state S.Store conn.new) result }
    ensures fault { IfErr result IsOutside }
    ensures plain { IfErr result IsPlain }
{
    let front = part_of(piece, piece.first, block, sums.0);
    let back = part_of(piece, block, piece.first + piece.count, sums.1);
    match delete_pieces(conn, piece.node, piece.first, piece.first + 1) {
        Ok(()) => {}
        Err(error) => return Err(StoreFault::from(error)),
    }
    match insert_piece(conn, front) {
        Ok(()) => {}
        Err(error) => return Err(StoreFault::from(error)),
    }
    match insert_piece(conn, back) {
        Ok(()) => Ok(()),
        Err(error) => Err(StoreFault::from(error)),
    }
}

/// Makes two pieces of the one that has the blocks before and after a block's begin, if one has.
pub(crate) fn split_at<S: Alter, C: Contents>(
    conn: &mut Connection<S>,
    contents: &mut C,
    alloc: Global,
    node: u64,
    block: u64,
) -> Result<(), StoreFault>
    requires node { node < 2 ^ 63 }
    requires block { block < 2 ^ 63 }
    ensures reads { ReadsFile (C.Contents.file contents.old) (C.Contents.file contents.new) }
    ensures split { OnOk result (Relists (C.Contents.file contents.new).is_clean
        (C.Contents.file contents.new).bytes IsAny
        (Split (C.Contents.file contents.new).bytes node block) (state S.Store conn.old)
        (state S.Store conn.new)) }
    ensures fails { OnErr result (Stays (state S.Store conn.old) (state S.Store conn.new)) }
    ensures fault { HasCleanDisk (state S.Store conn.new)
        → IsTrue (C.Contents.file contents.new).is_clean → IfErr result (λ f. (c : Content)
        → Inside c (state S.Store conn.old) → IsSound (C.Contents.file contents.new).bytes c
        → IsOutside f) }
    ensures plain { IfErr result IsPlain }
{
    parts_hold();
    if block == 0 {
        return Ok(());
    }
    let found = match select_piece_before(conn, node, block - 1) {
        Ok(found) => found,
        Err(error) => return Err(StoreFault::from(error)),
    };
    let row = match found {
        Some(row) => row,
        None => return Ok(()),
    };
    let piece = match piece_in_row(&row, node) {
        Ok(piece) => piece,
        Err(fault) => return Err(fault),
    };
    let end = piece.first + piece.count;
    if block <= piece.first {
        return Ok(());
    }
    if end <= block {
        return Ok(());
    }
    let sums = match sums_of(contents, alloc, piece, block) {
        Ok(sums) => sums,
        Err(fault) => return Err(fault),
    };
    put_parts(conn, piece, block, sums)
}
