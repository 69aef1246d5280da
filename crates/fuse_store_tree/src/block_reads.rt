// Reads of single blocks of files.
ghost use Rattle.std.specs.Prelude.{◌≡◌, ◌<◌, ◌≤◌, ◌^◌, ◌+◌, ◌%◌, ℕ, List, length, replicate};
ghost use Rattle.std.specs.Prelude.{IsTrue};
ghost use Rattle.std.specs.Prelude.{true, false, map, Option, option_map, IfSome, IfOk, IfErr};
ghost use Rattle.std.specs.Prelude.{OnOk, OnErr};
ghost use Rattle.std.specs.Option.{is_some, option_to_list};
ghost use Rattle.sqlite.specs.State.{HasCleanDisk};
ghost use Rattle.sqlite.specs.Held.{state};
ghost use Rattle.fuse_rows.specs.Bounds.{block_bytes};
ghost use Rattle.fuse_store_tables.specs.Blocks.{Block, block_at, shown_block};
ghost use Rattle.fuse_store_tables.specs.Content.{Content};
ghost use Rattle.fuse_store_tables.specs.Pieces.{Piece as APiece};
ghost use Rattle.fuse_store_tables.specs.Ranges.{row_of};
ghost use Rattle.fuse_store_tables.specs.Faults.{IsOutside, IsPlain};
ghost use Rattle.fuse_store_tables.specs.Moves.{Inside, LookedInside, Stays};
ghost use Rattle.fuse_store_tree.specs.Fits.{IsWhole};
ghost use Rattle.fuse_store_tree.specs.Pieces.{ReadsFile, block_in_piece, piece_at, stored_block};
ghost use Rattle.fuse_store_tree.specs.Pieces.{is_written_in};
ghost use Rattle.fuse_store_tree.specs.inner.Reading.{whole_of, IsInFile, IsSound};
ghost use Rattle.fuse_store_tree.specs.inner.Relisting.{piece_block};

use crate::contents::Contents;
use crate::piece_reads::{find_piece, read_block_of};
use fuse_keeper::StoreFault;
use fuse_rows::BLOCK_SIZE;
use fuse_store_tables::{PieceRow, bytes_at, select_block};
use sqlite::{Alter, Connection, Row};
use std::alloc::Global;

/// A block of zeros.
pub(crate) fn zeros(alloc: Global) -> Result<Vec<u8>, StoreFault>
    ensures value { IfOk result (λ v. v.items ≡ replicate block_bytes 0) }
    ensures whole { IfOk result (λ v. length v.items ≡ block_bytes) }
    ensures fault { IfErr result (λ f. IsOutside f) }
    ensures plain { IfErr result IsPlain }
{
    let mut zeros = Vec::new(alloc);
    zeros.resize(BLOCK_SIZE as usize, 0)?;
    Ok(zeros)
}

/// The bytes of a block, zeros where it isn't written.
#[derive(Drop)]
pub(crate) struct FoundBlock {
    pub(crate) bytes: Vec<u8>,
    /// A row of `blocks` has it.
    pub(crate) stored: bool,
    /// A row or a piece has it.
    pub(crate) written: bool,
}

// The bytes of a block in its row.
fn read_row(row: &Row) -> Result<Vec<u8>, StoreFault>
    ensures value { IfOk result (λ v. (b : Block) → IsWhole b → row.now ≡ shown_block b
        → v.items ≡ b.bytes) }
    ensures whole { IfOk result (λ v. length v.items ≡ block_bytes) }
    ensures fault { IfErr result (λ f. (b : Block) → IsWhole b → row.now ≡ shown_block b
        → IsOutside f) }
    ensures plain { IfErr result IsPlain }
{
    let bytes = bytes_at(row, 0)?;
    if bytes.len() != BLOCK_SIZE as usize {
        return Err(StoreFault::Damaged);
    }
    Ok(bytes)
}

// The bytes of a block in the row that was found.
fn read_found(rows: &[Row]) -> Result<Option<Vec<u8>>, StoreFault>
    ensures value { IfOk result (λ r. (o : Option Block) → IfSome o IsWhole
        → rows.now ≡ map shown_block (option_to_list o)
        → option_map (λ v. v.items) r ≡ option_map (λ b. b.bytes) o) }
    ensures found { IfOk result (λ r. (o : Option Block)
        → rows.now ≡ map shown_block (option_to_list o) → is_some r ≡ is_some o) }
    ensures whole { IfOk result (λ r. IfSome r (λ v. length v.items ≡ block_bytes)) }
    ensures fault { IfErr result (λ f. (o : Option Block) → IfSome o IsWhole
        → rows.now ≡ map shown_block (option_to_list o) → IsOutside f) }
    ensures plain { IfErr result IsPlain }
{
    match rows.first() {
        None => Ok(None),
        Some(row) => match read_row(row) {
            Ok(bytes) => Ok(Some(bytes)),
            Err(fault) => Err(fault),
        },
    }
}

// A block that isn't written.
fn unwritten(alloc: Global) -> Result<FoundBlock, StoreFault>
    ensures value { IfOk result (λ f. f.bytes.items ≡ replicate block_bytes 0) }
    ensures stored { IfOk result (λ f. f.stored ≡ false) }
    ensures written { IfOk result (λ f. f.written ≡ false) }
    ensures whole { IfOk result (λ f. length f.bytes.items ≡ block_bytes) }
    ensures fault { IfErr result (λ f. IsOutside f) }
    ensures plain { IfErr result IsPlain }
{
    let bytes = zeros(alloc)?;
    Ok(FoundBlock {
        bytes,
        stored: false,
        written: false,
    })
}

// A block that this piece has.
fn find_in<C: Contents>(
    contents: &mut C,
    alloc: Global,
    piece: PieceRow,
    block: u64,
) -> Result<FoundBlock, StoreFault>
    requires from { piece.first ≤ block }
    requires to { block < piece.first + piece.count }
    ensures reads { ReadsFile (C.Contents.file contents.old) (C.Contents.file contents.new) }
    ensures value { IsTrue (C.Contents.file contents.new).is_clean → IfOk result (λ f.
        (p : APiece) → row_of p ≡ piece
        → f.bytes.items ≡ block_in_piece (C.Contents.file contents.new).bytes block p) }
    ensures stored { IfOk result (λ f. f.stored ≡ false) }
    ensures written { IfOk result (λ f. f.written ≡ true) }
    ensures whole { IfOk result (λ f. length f.bytes.items ≡ block_bytes) }
    ensures fault { IsTrue (C.Contents.file contents.new).is_clean → IfErr result (λ f.
        (p : APiece) → row_of p ≡ piece → IsInFile (C.Contents.file contents.new).bytes p
        → IsOutside f) }
    ensures plain { IfErr result IsPlain }
{
    let bytes = read_block_of(contents, alloc, piece, block)?;
    Ok(FoundBlock {
        bytes,
        stored: false,
        written: true,
    })
}

// A block that has no row.
fn find_in_piece<S: Alter, C: Contents>(
    conn: &mut Connection<S>,
    contents: &mut C,
    alloc: Global,
    node: u64,
    block: u64,
) -> Result<FoundBlock, StoreFault>
    requires node { node < 2 ^ 63 }
    requires block { block < 2 ^ 63 }
    ensures looks { OnOk result (LookedInside (state S.Store conn.old) (state S.Store conn.new)) }
    ensures fails { OnErr result (Stays (state S.Store conn.old) (state S.Store conn.new)) }
    ensures reads { ReadsFile (C.Contents.file contents.old) (C.Contents.file contents.new) }
    ensures value { HasCleanDisk (state S.Store conn.new)
        → IsTrue (C.Contents.file contents.new).is_clean → IfOk result (λ f. (c : Content)
        → Inside c (state S.Store conn.old) → IsSound (C.Contents.file contents.new).bytes c
        → f.bytes.items ≡ whole_of (piece_block (C.Contents.file contents.new).bytes c.pieces node
        block)) }
    ensures stored { IfOk result (λ f. f.stored ≡ false) }
    ensures written { HasCleanDisk (state S.Store conn.new) → IfOk result (λ f. (file : List ℕ)
        (c : Content) → Inside c (state S.Store conn.old) → IsSound file c
        → f.written ≡ is_some (piece_at node block c.pieces)) }
    ensures whole { IfOk result (λ f. length f.bytes.items ≡ block_bytes) }
    ensures fault { HasCleanDisk (state S.Store conn.new)
        → IsTrue (C.Contents.file contents.new).is_clean → IfErr result (λ f. (c : Content)
        → Inside c (state S.Store conn.old) → IsSound (C.Contents.file contents.new).bytes c
        → IsOutside f) }
    ensures plain { IfErr result IsPlain }
{
    match find_piece(conn, node, block) {
        Ok(None) => unwritten(alloc),
        Ok(Some(piece)) => find_in(contents, alloc, piece, block),
        Err(fault) => Err(fault),
    }
}

/// A block, and whether it is written. A row counts over a piece.
pub(crate) fn find_block<S: Alter, C: Contents>(
    conn: &mut Connection<S>,
    contents: &mut C,
    alloc: Global,
    node: u64,
    block: u64,
) -> Result<FoundBlock, StoreFault>
    requires node { node < 2 ^ 63 }
    requires block { block < 2 ^ 63 }
    ensures looks { OnOk result (LookedInside (state S.Store conn.old) (state S.Store conn.new)) }
    ensures fails { OnErr result (Stays (state S.Store conn.old) (state S.Store conn.new)) }
    ensures reads { ReadsFile (C.Contents.file contents.old) (C.Contents.file contents.new) }
    ensures value { HasCleanDisk (state S.Store conn.new)
        → IsTrue (C.Contents.file contents.new).is_clean → IfOk result (λ f. (c : Content)
        → Inside c (state S.Store conn.old) → IsSound (C.Contents.file contents.new).bytes c
        → f.bytes.items ≡ whole_of (stored_block (C.Contents.file contents.new).bytes c node
        block)) }
    ensures stored { HasCleanDisk (state S.Store conn.new) → IfOk result (λ f. (c : Content)
        → Inside c (state S.Store conn.old) → f.stored ≡ is_some (block_at node block c.blocks)) }
    ensures written { HasCleanDisk (state S.Store conn.new) → IfOk result (λ f. (file : List ℕ)
        (c : Content) → Inside c (state S.Store conn.old) → IsSound file c
        → f.written ≡ is_written_in file c node block) }
    ensures whole { IfOk result (λ f. length f.bytes.items ≡ block_bytes) }
    ensures fault { HasCleanDisk (state S.Store conn.new)
        → IsTrue (C.Contents.file contents.new).is_clean → IfErr result (λ f. (c : Content)
        → Inside c (state S.Store conn.old) → IsSound (C.Contents.file contents.new).bytes c
        → IsOutside f) }
    ensures plain { IfErr result IsPlain }
{
    let rows = select_block(conn, node, block)?;
    match read_found(rows.as_slice()) {
        Ok(Some(bytes)) => Ok(FoundBlock {
            bytes,
            stored: true,
            written: true,
        }),
        Ok(None) => find_in_piece(conn, contents, alloc, node, block),
        Err(fault) => Err(fault),
    }
}

// The number of these bytes in the first block.
pub(crate) fn first_count(here: u64, left: u64) -> u64
    requires { 1 ≤ left }
    ensures some { 1 ≤ result }
    ensures within { here % block_bytes + result ≤ block_bytes }
    ensures most { result ≤ left }
{
    left.min(u64::from(BLOCK_SIZE) - here % u64::from(BLOCK_SIZE))
}
