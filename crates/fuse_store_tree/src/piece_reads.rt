// Reads of the rows of pieces, and of the bytes of one block of a piece.
ghost use Rattle.std.specs.Prelude.{◌≡◌, ◌≤◌, ◌<◌, ◌^◌, ◌+◌, ◌-◌, ℕ, List, Option, option_map};
ghost use Rattle.std.specs.Prelude.{find};
ghost use Rattle.std.specs.Prelude.{length, take, drop, Some, IsTrue, IfSome, IfOk, IfErr, OnOk};
ghost use Rattle.std.specs.Prelude.{OnErr};
ghost use Rattle.sqlite.specs.State.{HasCleanDisk};
ghost use Rattle.sqlite.specs.Held.{state};
ghost use Rattle.fuse_rows.specs.Bounds.{block_bytes};
ghost use Rattle.fuse_store_tables.specs.Content.{Content};
ghost use Rattle.fuse_store_tables.specs.Pieces.{Piece as APiece, FitsPiece, shown_piece};
ghost use Rattle.fuse_store_tables.specs.Ranges.{row_of};
ghost use Rattle.fuse_store_tables.specs.Faults.{IsOutside, IsPlain};
ghost use Rattle.fuse_store_tables.specs.Moves.{Inside, LookedInside, Stays};
ghost use Rattle.fuse_store_tree.specs.Fits.{Fits};
ghost use Rattle.fuse_store_tree.specs.Pieces.{ReadsFile, piece_at, block_in_piece};
ghost use Rattle.fuse_store_tree.specs.inner.Reading.{IsInFile, IsSound};
ghost use Rattle.fuse_store_tree.specs.inner.Showing.{TellsLast, extent_in, row_has};

use crate::block_reads::zeros;
use crate::contents::Contents;
use fuse_data::Extent;
use fuse_keeper::StoreFault;
use fuse_rows::BLOCK_SIZE;
use fuse_store_tables::{PieceRow, piece_in_row, select_piece_before};
use sqlite::{Alter, Connection, Row};
use std::alloc::Global;

// The piece in the row that was found, which begins at this block or before it.
fn read_last(row: &Row, node: u64, block: u64) -> Result<Option<PieceRow>, StoreFault>
    requires { node < 2 ^ 63 }
    ensures value { IfOk result (λ o. (p : APiece) → p.node ≡ node → p.sum < 2 ^ 64
        → row.now ≡ shown_piece p → o ≡ Some (row_of p)) }
    ensures begins { IfOk result (λ o. IfSome o (λ p. p.first ≤ block)) }
    ensures fits { IfOk result (λ o. IfSome o FitsPiece) }
    ensures fault { IfErr result (λ f. (p : APiece) → p.node ≡ node → p.sum < 2 ^ 64
        → p.first ≤ block → row.now ≡ shown_piece p → IsOutside f) }
    ensures plain { IfErr result IsPlain }
{
    let piece = piece_in_row(row, node)?;
    if piece.first > block {
        return Err(StoreFault::Damaged);
    }
    Ok(Some(piece))
}

/// The piece of a node that begins last, at this block or before it. Version 2 has none.
pub(crate) fn find_last<S: Alter>(
    conn: &mut Connection<S>,
    node: u64,
    block: u64,
) -> Result<Option<PieceRow>, StoreFault>
    requires node { node < 2 ^ 63 }
    requires block { block < 2 ^ 63 }
    ensures looks { OnOk result (LookedInside (state S.Store conn.old) (state S.Store conn.new)) }
    ensures fails { OnErr result (Stays (state S.Store conn.old) (state S.Store conn.new)) }
    ensures value { HasCleanDisk (state S.Store conn.new) → IfOk result (λ o. (c : Content)
        → Inside c (state S.Store conn.old) → Fits c → TellsLast node block c.pieces o) }
    ensures begins { IfOk result (λ o. IfSome o (λ p. p.first ≤ block)) }
    ensures fits { IfOk result (λ o. IfSome o FitsPiece) }
    ensures fault { HasCleanDisk (state S.Store conn.new) → IfErr result (λ f. (c : Content)
        → Inside c (state S.Store conn.old) → Fits c → IsOutside f) }
    ensures plain { IfErr result IsPlain }
{
    match select_piece_before(conn, node, block) {
        Ok(None) => Ok(None),
        Ok(Some(row)) => read_last(&row, node, block),
        Err(error) => Err(StoreFault::from(error)),
    }
}

/// The piece of a node that has this block, if one has. Version 2 has none.
pub(crate) fn find_piece<S: Alter>(
    conn: &mut Connection<S>,
    node: u64,
    block: u64,
) -> Result<Option<PieceRow>, StoreFault>
    requires node { node < 2 ^ 63 }
    requires block { block < 2 ^ 63 }
    ensures looks { OnOk result (LookedInside (state S.Store conn.old) (state S.Store conn.new)) }
    ensures fails { OnErr result (Stays (state S.Store conn.old) (state S.Store conn.new)) }
    ensures value { HasCleanDisk (state S.Store conn.new) → IfOk result (λ o. (file : List ℕ)
        (c : Content) → Inside c (state S.Store conn.old) → IsSound file c
        → o ≡ option_map row_of (piece_at node block c.pieces)) }
    ensures from { IfOk result (λ o. IfSome o (λ p. p.first ≤ block)) }
    ensures to { IfOk result (λ o. IfSome o (λ p. block < p.first + p.count)) }
    ensures fits { IfOk result (λ o. IfSome o FitsPiece) }
    ensures fault { HasCleanDisk (state S.Store conn.new) → IfErr result (λ f. (c : Content)
        → Inside c (state S.Store conn.old) → Fits c → IsOutside f) }
    ensures plain { IfErr result IsPlain }
{
    // Pieces of a node don't overlap: none but the last that begins no later can have the block.
    match find_last(conn, node, block) {
        Ok(None) => Ok(None),
        Ok(Some(piece)) => {
            if block - piece.first < piece.count {
                Ok(Some(piece))
            } else {
                Ok(None)
            }
        }
        Err(fault) => Err(fault),
    }
}

/// The pieces of a node that have blocks from one on, below another, the last one first. It takes a
/// statement for each, and one more.
pub(crate) fn find_pieces<S: Alter>(
    conn: &mut Connection<S>,
    alloc: Global,
    node: u64,
    from: u64,
    to: u64,
) -> Result<Vec<PieceRow>, StoreFault>
    requires node { node < 2 ^ 63 }
    requires to { to ≤ 2 ^ 63 }
    ensures looks { OnOk result (LookedInside (state S.Store conn.old) (state S.Store conn.new)) }
    ensures fails { OnErr result (Stays (state S.Store conn.old) (state S.Store conn.new)) }
    ensures value { HasCleanDisk (state S.Store conn.new) → IfOk result (λ v. (file : List ℕ)
        (c : Content) → Inside c (state S.Store conn.old) → IsSound file c → (block : ℕ)
        → from ≤ block → block < to
        → find (row_has block) v.items ≡ option_map row_of (piece_at node block c.pieces)) }
    // Whatever the rows say, there are no more than blocks.
    ensures few { IfOk result (λ v. length v.items ≤ to - from) }
    ensures fault { HasCleanDisk (state S.Store conn.new) → IfErr result (λ f. (c : Content)
        → Inside c (state S.Store conn.old) → Fits c → IsOutside f) }
    ensures plain { IfErr result IsPlain }
{
    let mut found = Vec::new(alloc);
    let mut end = to;
    'pieces: while from < end {
        match find_last(conn, node, end - 1) {
            Ok(Some(piece)) => {
                found.push(piece)?;
                end = piece.first;
            }
            Ok(None) => return Ok(found),
            Err(fault) => return Err(fault),
        }
    }
    Ok(found)
}

/// Whether a piece has a block.
pub(crate) fn has_block(piece: PieceRow, block: u64) -> bool
    ensures { result ≡ row_has block piece }
{
    piece.first <= block && block - piece.first < piece.count
}

/// Where the bytes of a piece are in the data file.
pub(crate) fn extent_of(piece: PieceRow) -> Extent
    ensures { result ≡ extent_in piece }
{
    Extent {
        place: piece.place as usize,
        count: piece.count as usize,
        sum: piece.sum,
    }
}

// A block of these bytes, from a place on.
fn copy_block(alloc: Global, bytes: &[u8], start: usize) -> Result<Vec<u8>, StoreFault>
    requires { start + block_bytes ≤ length bytes.now }
    ensures value { IfOk result (λ v. v.items ≡ take block_bytes (drop start bytes.now)) }
    ensures whole { IfOk result (λ v. length v.items ≡ block_bytes) }
    ensures fault { IfErr result (λ f. IsOutside f) }
    ensures plain { IfErr result IsPlain }
{
    let end = start + BLOCK_SIZE as usize;
    let block = Vec::from_slice(alloc, &bytes[start..end])?;
    Ok(block)
}

/// The bytes of one block of a piece, which has it.
pub(crate) fn read_block_of<C: Contents>(
    contents: &mut C,
    alloc: Global,
    piece: PieceRow,
    block: u64,
) -> Result<Vec<u8>, StoreFault>
    requires from { piece.first ≤ block }
    requires to { block < piece.first + piece.count }
    ensures reads { ReadsFile (C.Contents.file contents.old) (C.Contents.file contents.new) }
    ensures value { IsTrue (C.Contents.file contents.new).is_clean → IfOk result (λ v.
        (p : APiece) → row_of p ≡ piece
        → v.items ≡ block_in_piece (C.Contents.file contents.new).bytes block p) }
    ensures whole { IfOk result (λ v. length v.items ≡ block_bytes) }
    ensures fault { IsTrue (C.Contents.file contents.new).is_clean → IfErr result (λ f.
        (p : APiece) → row_of p ≡ piece → IsInFile (C.Contents.file contents.new).bytes p
        → IsOutside f) }
    ensures plain { IfErr result IsPlain }
{
    if piece.place == 0 {
        return zeros(alloc);
    }
    let bytes = contents.read(alloc, extent_of(piece))?;
    let start = (block - piece.first) as usize * BLOCK_SIZE as usize;
    copy_block(alloc, bytes.as_slice(), start)
}
