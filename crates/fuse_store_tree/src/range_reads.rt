// Reads of the bytes of files: the rows of all blocks at once, and each piece once.
ghost use Rattle.std.specs.Prelude.{◌≡◌, ◌<◌, ◌≤◌, ◌^◌, ◌+◌, ◌*◌, ◌/◌, ◌%◌, ◌++◌, ◌==◌, ℕ, List};
ghost use Rattle.std.specs.Prelude.{map};
ghost use Rattle.std.specs.Prelude.{None, find, option_map, take, drop, replicate, length, IsTrue};
ghost use Rattle.std.specs.Prelude.{IfSome, IfOk, IfErr, OnOk, OnErr};
ghost use Rattle.std.specs.Option.{option_copied};
ghost use Rattle.sqlite.specs.State.{HasCleanDisk};
ghost use Rattle.sqlite.specs.Held.{state};
ghost use Rattle.fuse_rows.specs.Bounds.{block_bytes, file_limit};
ghost use Rattle.fuse_data.specs.Extents.{IsWhole, bytes_of};
ghost use Rattle.fuse_store_tables.specs.Blocks.{Block, block_at};
ghost use Rattle.fuse_store_tables.specs.Content.{Content, node_key, at_by};
ghost use Rattle.fuse_store_tables.specs.Ranges.{numbered_block};
ghost use Rattle.fuse_store_tables.specs.Faults.{IsOutside, IsPlain};
ghost use Rattle.fuse_store_tables.specs.Moves.{Inside, LookedInside, Stays};
ghost use Rattle.fuse_store_tree.specs.Pieces.{ReadsFile, byte_in};
ghost use Rattle.fuse_store_tree.specs.inner.Reading.{range_of, bytes_told, bytes_within};
ghost use Rattle.fuse_store_tree.specs.inner.Reading.{IsSound};
ghost use Rattle.fuse_store_tree.specs.inner.Showing.{ShowsBlock, ShowsRange, HoldsAny, HoldsBytes};
ghost use Rattle.fuse_store_tree.specs.inner.Showing.{row_bytes, row_has, extent_in};

use crate::block_reads::first_count;
use crate::bounds::END;
use crate::contents::Contents;
use crate::piece_reads::{extent_of, find_pieces, has_block};
use crate::rows::find_node;
use fuse_keeper::StoreFault;
use fuse_rows::{BLOCK_SIZE, MAX_FILE};
use fuse_store_tables::{PieceRow, bytes_at, number_at, select_blocks};
use fuse_wire::ByteList;
use sqlite::{Alter, Connection, Row};
use std::alloc::Global;

// The bytes of a block.
const BLOCK: u64 = 4096;

// A row of `blocks`.
#[derive(Drop)]
pub(crate) struct BlockRow {
    block: u64,
    bytes: Vec<u8>,
}

// A piece, and its bytes.
#[derive(Drop)]
pub(crate) struct HeldPiece {
    piece: PieceRow,
    bytes: Vec<u8>,
}

/// What the tables have of a range of blocks.
#[derive(Drop)]
pub(crate) struct Stored {
    pub(crate) rows: Vec<BlockRow>,
    pub(crate) pieces: Vec<PieceRow>,
    // The piece that was read last.
    held: Option<HeldPiece>,
}

fn block_in_row(row: &Row) -> Result<BlockRow, StoreFault>
    ensures block { IfOk result (λ r. (b : Block) → row.now ≡ numbered_block b
        → r.block ≡ b.block) }
    ensures bytes { IfOk result (λ r. (b : Block) → row.now ≡ numbered_block b
        → r.bytes.items ≡ b.bytes) }
    ensures fault { IfErr result (λ f. (b : Block) → row.now ≡ numbered_block b → IsOutside f) }
    ensures plain { IfErr result IsPlain }
{
    let block = number_at(row, 0)?;
    let bytes = bytes_at(row, 1)?;
    Ok(BlockRow { block, bytes })
}

fn read_blocks(alloc: Global, rows: &[Row]) -> Result<Vec<BlockRow>, StoreFault>
    ensures value { IfOk result (λ v. (bs : List Block) → rows.now ≡ map numbered_block bs
        → (block : ℕ) → row_bytes block v.items
        ≡ option_map (λ b. b.bytes) (find (λ b. b.block == block) bs)) }
    ensures fault { IfErr result (λ f. (bs : List Block) → rows.now ≡ map numbered_block bs
        → IsOutside f) }
    ensures plain { IfErr result IsPlain }
{
    let mut blocks = Vec::new(alloc);
    for row in rows {
        let block = match block_in_row(row) {
            Ok(block) => block,
            Err(fault) => return Err(fault),
        };
        blocks.push(block)?;
    }
    Ok(blocks)
}

// The rows of a node's blocks from one on, below another.
fn find_blocks<S: Alter>(
    conn: &mut Connection<S>,
    alloc: Global,
    node: u64,
    from: u64,
    to: u64,
) -> Result<Vec<BlockRow>, StoreFault>
    requires node { node < 2 ^ 63 }
    requires from { from < 2 ^ 63 }
    requires to { to < 2 ^ 63 }
    ensures looks { OnOk result (LookedInside (state S.Store conn.old) (state S.Store conn.new)) }
    ensures fails { OnErr result (Stays (state S.Store conn.old) (state S.Store conn.new)) }
    ensures value { HasCleanDisk (state S.Store conn.new) → IfOk result (λ v. (c : Content)
        → Inside c (state S.Store conn.old) → (block : ℕ) → from ≤ block → block < to
        → row_bytes block v.items ≡ option_map (λ b. b.bytes) (block_at node block c.blocks)) }
    ensures fault { HasCleanDisk (state S.Store conn.new) → IfErr result (λ f. (c : Content)
        → Inside c (state S.Store conn.old) → IsOutside f) }
    ensures plain { IfErr result IsPlain }
{
    if to <= from {
        return Ok(Vec::new(alloc));
    }
    let rows = select_blocks(conn, node, from, to, to - from)?;
    read_blocks(alloc, rows.as_slice())
}

/// What the tables have of a node's blocks from one on, below another.
pub(crate) fn find_stored<S: Alter>(
    conn: &mut Connection<S>,
    alloc: Global,
    node: u64,
    from: u64,
    to: u64,
) -> Result<Stored, StoreFault>
    requires node { node < 2 ^ 63 }
    requires from { from < 2 ^ 63 }
    requires to { to < 2 ^ 63 }
    ensures looks { OnOk result (LookedInside (state S.Store conn.old) (state S.Store conn.new)) }
    ensures fails { OnErr result (Stays (state S.Store conn.old) (state S.Store conn.new)) }
    ensures value { HasCleanDisk (state S.Store conn.new) → IfOk result (λ x. (file : List ℕ)
        (c : Content) → Inside c (state S.Store conn.old) → IsSound file c → (block : ℕ)
        → from ≤ block → block < to → ShowsBlock node block x.rows.items x.pieces.items c) }
    ensures held { IfOk result (λ x. x.held ≡ None) }
    ensures fault { HasCleanDisk (state S.Store conn.new) → IfErr result (λ f. (file : List ℕ)
        (c : Content) → Inside c (state S.Store conn.old) → IsSound file c → IsOutside f) }
    ensures plain { IfErr result IsPlain }
{
    let rows = find_blocks(conn, alloc, node, from, to)?;
    match find_pieces(conn, alloc, node, from, to) {
        Ok(pieces) => Ok(Stored {
            rows,
            pieces,
            held: None,
        }),
        Err(fault) => Err(fault),
    }
}

/// The row of a block.
pub(crate) fn row_with(rows: &[BlockRow], block: u64) -> Option<&BlockRow>
    ensures { option_copied result ≡ find (λ r. r.block == block) rows.now }
{
    rows.iter().find(|row| row.block == block)
}

/// The piece that has a block.
pub(crate) fn piece_with(pieces: &[PieceRow], block: u64) -> Option<PieceRow>
    ensures value { result ≡ find (row_has block) pieces.now }
    ensures from { IfSome result (λ p. p.first ≤ block) }
    ensures to { IfSome result (λ p. block < p.first + p.count) }
{
    for piece in pieces {
        if has_block(*piece, block) {
            return Some(*piece);
        }
    }
    None
}

// Appends a part of the bytes.
fn append_part(
    out: &mut Vec<u8>,
    bytes: &[u8],
    start: usize,
    count: usize,
) -> Result<(), StoreFault>
    requires { start + count ≤ length bytes.now }
    ensures appended { OnOk result (out.new.items ≡ out.old.items
        ++ take count (drop start bytes.now)) }
    ensures long { OnOk result (length out.new.items ≡ length out.old.items + count) }
    ensures fault { IfErr result (λ f. IsOutside f) }
    ensures plain { IfErr result IsPlain }
{
    let end = start + count;
    out.extend_from_slice(&bytes[start..end])?;
    Ok(())
}

// Appends zeros.
fn append_zeros(out: &mut Vec<u8>, count: u64) -> Result<(), StoreFault>
    requires { length out.old.items + count < 2 ^ 63 }
    ensures appended { OnOk result (out.new.items ≡ out.old.items ++ replicate count 0) }
    ensures long { OnOk result (length out.new.items ≡ length out.old.items + count) }
    ensures fault { IfErr result (λ f. IsOutside f) }
    ensures plain { IfErr result IsPlain }
{
    let end = out.len() + count as usize;
    out.resize(end, 0)?;
    Ok(())
}

// Reads a piece, unless it was read last.
fn hold<C: Contents>(
    held: Option<HeldPiece>,
    contents: &mut C,
    alloc: Global,
    piece: PieceRow,
) -> Result<HeldPiece, StoreFault>
    requires { HoldsAny (C.Contents.file contents.old) held }
    ensures reads { ReadsFile (C.Contents.file contents.old) (C.Contents.file contents.new) }
    ensures piece { IfOk result (λ h. h.piece ≡ piece) }
    ensures held { IfOk result (HoldsBytes (C.Contents.file contents.new)) }
    ensures fault { IsTrue (C.Contents.file contents.new).is_clean → IfErr result (λ f.
        IsWhole (C.Contents.file contents.new).bytes (extent_in piece) → IsOutside f) }
    ensures plain { IfErr result IsPlain }
{
    match held {
        Some(held) if held.piece == piece => Ok(held),
        _ => {
            let bytes = contents.read(alloc, extent_of(piece))?;
            Ok(HeldPiece { piece, bytes })
        }
    }
}

// Appends bytes of a piece, from a place in it on.
fn append_of<C: Contents>(
    held: &mut Option<HeldPiece>,
    contents: &mut C,
    alloc: Global,
    piece: PieceRow,
    from: u64,
    count: u64,
    out: &mut Vec<u8>,
) -> Result<(), StoreFault>
    requires within { from + count ≤ piece.count * block_bytes }
    requires held { HoldsAny (C.Contents.file contents.old) held.old }
    ensures reads { ReadsFile (C.Contents.file contents.old) (C.Contents.file contents.new) }
    ensures held { HoldsAny (C.Contents.file contents.new) held.new }
    ensures appended { IsTrue (C.Contents.file contents.new).is_clean → OnOk result (out.new.items
        ≡ out.old.items ++ take count (drop from (bytes_of (C.Contents.file contents.new).bytes
        (extent_in piece)))) }
    ensures long { OnOk result (length out.new.items ≡ length out.old.items + count) }
    ensures fault { IsTrue (C.Contents.file contents.new).is_clean → IfErr result (λ f.
        IsWhole (C.Contents.file contents.new).bytes (extent_in piece) → IsOutside f) }
    ensures plain { IfErr result IsPlain }
{
    let was = held.take();
    let now = hold(was, contents, alloc, piece)?;
    append_part(out, now.bytes.as_slice(), from as usize, count as usize)?;
    *held = Some(now);
    Ok(())
}

// Appends bytes of a block in its row.
fn append_row(
    row: &BlockRow,
    start: usize,
    count: usize,
    out: &mut Vec<u8>,
) -> Result<(), StoreFault>
    requires { start + count ≤ block_bytes }
    ensures appended { OnOk result (out.new.items ≡ out.old.items
        ++ take count (drop start row.now.bytes.items)) }
    ensures long { OnOk result (length out.new.items ≡ length out.old.items + count) }
    ensures fault { IfErr result (λ f. length row.now.bytes.items ≡ block_bytes → IsOutside f) }
    ensures plain { IfErr result IsPlain }
{
    if row.bytes.len() != BLOCK_SIZE as usize {
        return Err(StoreFault::Damaged);
    }
    append_part(out, row.bytes.as_slice(), start, count)
}

// Appends bytes of a block that has no row.
fn append_other<C: Contents>(
    stored: &mut Stored,
    contents: &mut C,
    alloc: Global,
    here: u64,
    count: u64,
    out: &mut Vec<u8>,
) -> Result<(), StoreFault>
    requires here { here < 2 ^ 63 }
    requires room { length out.old.items + count < 2 ^ 63 }
    requires within { here % block_bytes + count ≤ block_bytes }
    requires held { HoldsAny (C.Contents.file contents.old) stored.old.held }
    ensures reads { ReadsFile (C.Contents.file contents.old) (C.Contents.file contents.new) }
    ensures rows { stored.new.rows ≡ stored.old.rows }
    ensures pieces { stored.new.pieces ≡ stored.old.pieces }
    ensures held { HoldsAny (C.Contents.file contents.new) stored.new.held }
    ensures value { IsTrue (C.Contents.file contents.new).is_clean → OnOk result ((node : ℕ)
        (c : Content) → row_bytes (here / block_bytes) stored.old.rows.items ≡ None
        → ShowsBlock node (here / block_bytes) stored.old.rows.items stored.old.pieces.items c
        → IsSound (C.Contents.file contents.new).bytes c → out.new.items ≡ out.old.items
        ++ range_of (byte_in (C.Contents.file contents.new).bytes c node) here count) }
    ensures long { OnOk result (length out.new.items ≡ length out.old.items + count) }
    ensures fault { IsTrue (C.Contents.file contents.new).is_clean → IfErr result (λ f. (node : ℕ)
        (c : Content) → ShowsBlock node (here / block_bytes) stored.old.rows.items
        stored.old.pieces.items c → IsSound (C.Contents.file contents.new).bytes c
        → IsOutside f) }
    ensures plain { IfErr result IsPlain }
{
    match piece_with(stored.pieces.as_slice(), here / BLOCK) {
        None => append_zeros(out, count),
        Some(piece) => {
            if piece.place == 0 {
                append_zeros(out, count)
            } else {
                let from = here - piece.first * BLOCK;
                append_of(&mut stored.held, contents, alloc, piece, from, count, out)
            }
        }
    }
}

// Appends bytes of one block. A row counts over a piece.
fn append_block<C: Contents>(
    stored: &mut Stored,
    contents: &mut C,
    alloc: Global,
    here: u64,
    count: u64,
    out: &mut Vec<u8>,
) -> Result<(), StoreFault>
    requires here { here < 2 ^ 63 }
    requires room { length out.old.items + count < 2 ^ 63 }
    requires within { here % block_bytes + count ≤ block_bytes }
    requires held { HoldsAny (C.Contents.file contents.old) stored.old.held }
    ensures reads { ReadsFile (C.Contents.file contents.old) (C.Contents.file contents.new) }
    ensures rows { stored.new.rows ≡ stored.old.rows }
    ensures pieces { stored.new.pieces ≡ stored.old.pieces }
    ensures held { HoldsAny (C.Contents.file contents.new) stored.new.held }
    ensures value { IsTrue (C.Contents.file contents.new).is_clean → OnOk result ((node : ℕ)
        (c : Content) → ShowsBlock node (here / block_bytes) stored.old.rows.items
        stored.old.pieces.items c → IsSound (C.Contents.file contents.new).bytes c
        → out.new.items ≡ out.old.items
        ++ range_of (byte_in (C.Contents.file contents.new).bytes c node) here count) }
    ensures long { OnOk result (length out.new.items ≡ length out.old.items + count) }
    ensures fault { IsTrue (C.Contents.file contents.new).is_clean → IfErr result (λ f. (node : ℕ)
        (c : Content) → ShowsBlock node (here / block_bytes) stored.old.rows.items
        stored.old.pieces.items c → IsSound (C.Contents.file contents.new).bytes c
        → IsOutside f) }
    ensures plain { IfErr result IsPlain }
{
    match row_with(stored.rows.as_slice(), here / BLOCK) {
        Some(row) => append_row(row, (here % BLOCK) as usize, count as usize, out),
        None => append_other(stored, contents, alloc, here, count, out),
    }
}

/// `len` bytes from a place on, of blocks of which this is stored.
pub(crate) fn read_stored<C: Contents>(
    mut stored: Stored,
    contents: &mut C,
    alloc: Global,
    at: u64,
    len: u64,
) -> Result<Vec<u8>, StoreFault>
    requires end { at + len < 2 ^ 63 }
    requires held { stored.held ≡ None }
    ensures reads { ReadsFile (C.Contents.file contents.old) (C.Contents.file contents.new) }
    ensures value { IsTrue (C.Contents.file contents.new).is_clean → IfOk result (λ v. (node : ℕ)
        (c : Content) → ShowsRange node at len stored.rows.items stored.pieces.items c
        → IsSound (C.Contents.file contents.new).bytes c
        → v.items ≡ range_of (byte_in (C.Contents.file contents.new).bytes c node) at len) }
    ensures fault { IsTrue (C.Contents.file contents.new).is_clean → IfErr result (λ f. (node : ℕ)
        (c : Content) → ShowsRange node at len stored.rows.items stored.pieces.items c
        → IsSound (C.Contents.file contents.new).bytes c → IsOutside f) }
    ensures plain { IfErr result IsPlain }
{
    let mut out = Vec::new(alloc);
    let mut done = 0;
    'parts: while done < len {
        let count = first_count(at + done, len - done);
        match append_block(&mut stored, contents, alloc, at + done, count, &mut out) {
            Ok(()) => {}
            Err(fault) => return Err(fault),
        }
        done += count;
    }
    Ok(out)
}

// The block after the last one that begins before this place.
fn end_block(end: u64) -> u64
    requires { end < 2 ^ 63 }
    ensures small { result < 2 ^ 63 }
    ensures above { (block : ℕ) → block * block_bytes < end → block < result }
{
    (end + (BLOCK - 1)) / BLOCK
}

/// `len` bytes of a node's blocks, from a place on.
pub(crate) fn find_range<S: Alter, C: Contents>(
    conn: &mut Connection<S>,
    contents: &mut C,
    alloc: Global,
    node: u64,
    at: u64,
    len: u64,
) -> Result<Vec<u8>, StoreFault>
    requires node { node < 2 ^ 63 }
    requires end { at + len < 2 ^ 63 }
    ensures looks { OnOk result (LookedInside (state S.Store conn.old) (state S.Store conn.new)) }
    ensures fails { OnErr result (Stays (state S.Store conn.old) (state S.Store conn.new)) }
    ensures reads { ReadsFile (C.Contents.file contents.old) (C.Contents.file contents.new) }
    ensures value { HasCleanDisk (state S.Store conn.new)
        → IsTrue (C.Contents.file contents.new).is_clean → IfOk result (λ v. (c : Content)
        → Inside c (state S.Store conn.old) → IsSound (C.Contents.file contents.new).bytes c
        → v.items ≡ range_of (byte_in (C.Contents.file contents.new).bytes c node) at len) }
    ensures fault { HasCleanDisk (state S.Store conn.new)
        → IsTrue (C.Contents.file contents.new).is_clean → IfErr result (λ f. (c : Content)
        → Inside c (state S.Store conn.old) → IsSound (C.Contents.file contents.new).bytes c
        → IsOutside f) }
    ensures plain { IfErr result IsPlain }
{
    match find_stored(conn, alloc, node, at / BLOCK, end_block(at + len)) {
        Ok(stored) => read_stored(stored, contents, alloc, at, len),
        Err(fault) => Err(fault),
    }
}

/// At most `len` bytes of the content of a node of this size, from `offset` on.
pub(crate) fn find_sized<S: Alter, C: Contents>(
    conn: &mut Connection<S>,
    contents: &mut C,
    alloc: Global,
    node: u64,
    size: u64,
    offset: u64,
    len: u32,
) -> Result<ByteList, StoreFault>
    requires node { node < 2 ^ 63 }
    requires size { size ≤ file_limit }
    ensures looks { OnOk result (LookedInside (state S.Store conn.old) (state S.Store conn.new)) }
    ensures fails { OnErr result (Stays (state S.Store conn.old) (state S.Store conn.new)) }
    ensures reads { ReadsFile (C.Contents.file contents.old) (C.Contents.file contents.new) }
    ensures value { HasCleanDisk (state S.Store conn.new)
        → IsTrue (C.Contents.file contents.new).is_clean → IfOk result (λ r. (c : Content)
        → Inside c (state S.Store conn.old) → IsSound (C.Contents.file contents.new).bytes c
        → r ≡ bytes_within (C.Contents.file contents.new).bytes size c node offset len) }
    ensures fault { HasCleanDisk (state S.Store conn.new)
        → IsTrue (C.Contents.file contents.new).is_clean → IfErr result (λ f. (c : Content)
        → Inside c (state S.Store conn.old) → IsSound (C.Contents.file contents.new).bytes c
        → IsOutside f) }
    ensures plain { IfErr result IsPlain }
{
    if offset >= size {
        return Ok(ByteList::from_vec(Vec::new(alloc)));
    }
    let count = u64::from(len).min(size - offset);
    let bytes = find_range(conn, contents, alloc, node, offset, count)?;
    Ok(ByteList::from_vec(bytes))
}

/// At most `len` bytes of a node's content, from `offset` on.
pub(crate) fn find_bytes<S: Alter, C: Contents>(
    conn: &mut Connection<S>,
    contents: &mut C,
    alloc: Global,
    node: u64,
    offset: u64,
    len: u32,
) -> Result<ByteList, StoreFault>
    ensures looks { OnOk result (LookedInside (state S.Store conn.old) (state S.Store conn.new)) }
    ensures fails { OnErr result (Stays (state S.Store conn.old) (state S.Store conn.new)) }
    ensures reads { ReadsFile (C.Contents.file contents.old) (C.Contents.file contents.new) }
    ensures value { HasCleanDisk (state S.Store conn.new)
        → IsTrue (C.Contents.file contents.new).is_clean → IfOk result (λ r. (c : Content)
        → Inside c (state S.Store conn.old) → IsSound (C.Contents.file contents.new).bytes c
        → r ≡ bytes_told (C.Contents.file contents.new).bytes (at_by node_key node c.nodes) c node
        offset len) }
    ensures fault { HasCleanDisk (state S.Store conn.new)
        → IsTrue (C.Contents.file contents.new).is_clean → IfErr result (λ f. (c : Content)
        → Inside c (state S.Store conn.old) → IsSound (C.Contents.file contents.new).bytes c
        → IfSome (at_by node_key node c.nodes) (λ n. n.size ≤ file_limit) → IsOutside f) }
    ensures plain { IfErr result IsPlain }
{
    if node >= END {
        return Ok(ByteList::from_vec(Vec::new(alloc)));
    }
    let Some(row) = find_node(conn, node)? else {
        return Ok(ByteList::from_vec(Vec::new(alloc)));
    };
    if row.size > MAX_FILE {
        return Err(StoreFault::Damaged);
    }
    let bytes = find_sized(conn, contents, alloc, node, row.size, offset, len)?;
    Ok(bytes)
}
