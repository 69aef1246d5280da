// Pieces that were written before the transaction, as its requests list them.
ghost use Rattle.std.specs.Prelude.{◌≡◌, ◌≤◌, ◌<◌, ◌+◌, ◌-◌, ◌*◌, ◌^◌, ℕ, List, [], length};
ghost use Rattle.std.specs.Prelude.{take, drop, true, false, IsTrue, IfErr, IfOk, OnOk, OnErr};
ghost use Rattle.sqlite.specs.State.{HasCleanDisk};
ghost use Rattle.sqlite.specs.Held.{state};
ghost use Rattle.fuse_data.specs.Extents.{IsWhole, bytes_of};
ghost use Rattle.fuse_data.specs.Leaving.{KeepsInUse};
ghost use Rattle.fuse_rows.specs.Bounds.{block_bytes};
ghost use Rattle.fuse_rows.specs.declared.rows.Change.TheVariants as changes;
ghost use Rattle.fuse_store_tables.specs.Content.{Content};
ghost use Rattle.fuse_store_tables.specs.Faults.{IsOutside, IsPlain};
ghost use Rattle.fuse_store_tables.specs.Moves.{Inside, LookedInside, Stays};
ghost use Rattle.fuse_store_tree.specs.Fits.{Fits};
ghost use Rattle.fuse_store_tables.specs.Pieces.{FitsPiece};
ghost use Rattle.fuse_store_tables.specs.inner.Performing.{IsSure};
ghost use Rattle.fuse_store_tree.specs.Store.{Held, HeldAs};
ghost use Rattle.fuse_store_tree.specs.Pieces.{ReadsFile};
ghost use Rattle.fuse_store_tree.specs.Widening.{Shows, Widens};
ghost use Rattle.fuse_store_tree.specs.inner.Listing.{ListsPiece, CanList};
ghost use Rattle.fuse_store_tree.specs.inner.Over.{ChangedOver, OverlaidOver};
ghost use Rattle.fuse_store_tree.specs.inner.Preparing.{AreMadeOf, IsMade};
ghost use Rattle.fuse_store_tree.specs.inner.Reading.{IsSound};
ghost use Rattle.fuse_store_tree.specs.inner.Relisting.{extent_in};
ghost use Rattle.fuse_store_tree.specs.inner.Writing.{with_change};

use crate::block_writes::{write_content, write_range};
use crate::contents::Contents;
use crate::made::{Made, MadePiece};
use crate::piece_cuts::{Gone, take_out};
use crate::rows::find_node;
use fuse_data::Extent;
use fuse_keeper::StoreFault;
use fuse_rows::BLOCK_SIZE;
use fuse_store_tables::{Layout, PieceRow, delete_blocks_between, insert_piece, layout_of};
use sqlite::{Alter, Connection};
use std::alloc::Global;

// The most extents that are remembered.
const MOST_GONE: usize = 65536;

// Remembers extents that are off the list, up to a number.
fn remember(gone: &mut Gone, more: &Gone) -> Result<(), StoreFault>
    ensures fault { IfErr result IsOutside }
    ensures plain { IfErr result IsPlain }
{
    if more.more {
        gone.more = true;
    }
    for extent in more.extents.as_slice() {
        if gone.extents.len() >= MOST_GONE {
            gone.more = true;
        } else {
            gone.extents.push(*extent)?;
        }
    }
    Ok(())
}

/// Lists a piece in the place of what was stored of its blocks. Its extent may be listed, and shares
/// no block with one that is.
pub(crate) fn put_piece<S: Alter, C: Contents>(
    conn: &mut Connection<S>,
    contents: &mut C,
    gone: &mut Gone,
    alloc: Global,
    piece: PieceRow,
) -> Result<(), StoreFault>
    requires fits { FitsPiece piece }
    requires some { 1 ≤ piece.count }
    requires end { piece.first + piece.count < 2 ^ 63 }
    requires whole { IsWhole (C.Contents.file contents.old).bytes (extent_in piece) }
    ensures reads { ReadsFile (C.Contents.file contents.old) (C.Contents.file contents.new) }
    // Of contents that are sound over a file that this one widens.
    ensures listed { OnOk result ((file : List ℕ)
        → KeepsInUse [] file (C.Contents.file contents.new).bytes
        → ListsPiece (C.Contents.file contents.new) file piece (state S.Store conn.old)
        (state S.Store conn.new)) }
    ensures fails { OnErr result (Stays (state S.Store conn.old) (state S.Store conn.new)) }
    ensures fault { HasCleanDisk (state S.Store conn.new)
        → IsTrue (C.Contents.file contents.new).is_clean → IfErr result (λ f. (c : Content)
        → Inside c (state S.Store conn.old)
        → IsSound (C.Contents.file contents.new).bytes c → IsOutside f) }
    ensures plain { IfErr result IsPlain }
{
    let end = piece.first + piece.count;
    let mut more = Gone::new(alloc);
    match take_out(
        conn,
        contents,
        &mut more,
        alloc,
        piece.node,
        piece.first,
        end,
    ) {
        Ok(()) => {}
        Err(fault) => return Err(fault),
    }
    match remember(gone, &more) {
        Ok(()) => {}
        Err(fault) => return Err(fault),
    }
    match delete_blocks_between(conn, piece.node, piece.first, end) {
        Ok(()) => {}
        Err(error) => return Err(StoreFault::from(error)),
    }
    match insert_piece(conn, piece) {
        Ok(()) => Ok(()),
        Err(error) => Err(StoreFault::from(error)),
    }
}

/// Whether the tables can list a piece of a node: they are of version 3, and the node is there.
pub(crate) fn can_list<S: Alter>(conn: &mut Connection<S>, node: u64) -> Result<bool, StoreFault>
    ensures looks { OnOk result (LookedInside (state S.Store conn.old) (state S.Store conn.new)) }
    ensures fails { OnErr result (Stays (state S.Store conn.old) (state S.Store conn.new)) }
    ensures value { HasCleanDisk (state S.Store conn.new) → IfOk result (λ can. can ≡ true
        → (c : Content) → Inside c (state S.Store conn.old) → Fits c → CanList node c) }
    ensures fault { HasCleanDisk (state S.Store conn.new) → IfErr result (λ f. (c : Content)
        → Inside c (state S.Store conn.old) → Fits c → IsOutside f) }
    ensures plain { IfErr result IsPlain }
{
    match layout_of(conn) {
        Layout::Second => Ok(false),
        Layout::Third => match find_node(conn, node) {
            Ok(found) => Ok(found.is_some()),
            Err(fault) => Err(fault),
        },
    }
}

/// Lets the tables list an extent, if they can.
pub(crate) fn list_extent<C: Contents>(contents: &mut C, can: bool, extent: Extent) -> bool
    ensures allowed { result ≡ true → can ≡ true }
    ensures shows { result ≡ true → Shows extent (C.Contents.file contents.old)
        (C.Contents.file contents.new) }
    ensures same { result ≡ false → ReadsFile (C.Contents.file contents.old)
        (C.Contents.file contents.new) }
{
    if can { contents.list(extent) } else { false }
}

// The row of a piece that was made.
fn row_of_made(node: u64, piece: MadePiece) -> PieceRow
    ensures extent { extent_in result ≡ piece.extent }
    ensures node { result.node ≡ node }
    ensures first { result.first ≡ piece.first }
{
    PieceRow {
        node,
        first: piece.first,
        count: piece.extent.count as u64,
        place: piece.extent.place as u64,
        sum: piece.extent.sum,
    }
}

// Lists a piece that was made, or else writes its bytes.
fn list_piece<S: Alter, C: Contents>(
    conn: &mut Connection<S>,
    contents: &mut C,
    gone: &mut Gone,
    alloc: Global,
    node: u64,
    piece: MadePiece,
    bytes: &[u8],
) -> Result<(), StoreFault>
    requires node { node < 2 ^ 63 }
    requires end { piece.first * block_bytes + length bytes.now < 2 ^ 63 }
    requires whole { IsWhole (C.Contents.file contents.old).contents.seen piece.extent }
    requires bytes { bytes_of (C.Contents.file contents.old).contents.seen piece.extent ≡ bytes.now }
    ensures widens { Widens (C.Contents.file contents.old) (C.Contents.file contents.new) }
    ensures overlaid { OnOk result (OverlaidOver (C.Contents.file contents.old)
        (C.Contents.file contents.new) node (piece.first * block_bytes) bytes.now
        (state S.Store conn.old) (state S.Store conn.new)) }
    ensures fails { OnErr result (Stays (state S.Store conn.old) (state S.Store conn.new)) }
    ensures fault { IsTrue (C.Contents.file contents.new).is_clean
        → IsSure (HeldAs (C.Contents.file contents.old).bytes) (state S.Store conn.old)
        (state S.Store conn.new) result }
    ensures plain { IfErr result IsPlain }
{
    let can = match can_list(conn, node) {
        Ok(can) => can,
        Err(fault) => return Err(fault),
    };
    let listed = list_extent(contents, can, piece.extent);
    if listed {
        let row = row_of_made(node, piece);
        put_piece(conn, contents, gone, alloc, row)
    } else {
        let at = piece.first * u64::from(BLOCK_SIZE);
        write_range(conn, contents, alloc, node, at, bytes)
    }
}

// Writes the bytes before a piece, and the piece. It says how many are written then.
fn write_up_to<S: Alter, C: Contents>(
    conn: &mut Connection<S>,
    contents: &mut C,
    gone: &mut Gone,
    alloc: Global,
    node: u64,
    made: &Made<'_>,
    piece: MadePiece,
    done: usize,
) -> Result<usize, StoreFault>
    requires node { node < 2 ^ 63 }
    requires end { made.now.at + length made.now.bytes.now < 2 ^ 63 }
    requires done { done ≤ length made.now.bytes.now }
    requires piece { IsMade (C.Contents.file contents.old).contents.seen made.now.at
        made.now.bytes.now piece }
    ensures widens { Widens (C.Contents.file contents.old) (C.Contents.file contents.new) }
    ensures further { IfOk result (λ next. (done ≤ next) × (next ≤ length made.now.bytes.now)) }
    ensures overlaid { IfOk result (λ next. OverlaidOver (C.Contents.file contents.old)
        (C.Contents.file contents.new) node (made.now.at + done)
        (take (next - done) (drop done made.now.bytes.now)) (state S.Store conn.old)
        (state S.Store conn.new)) }
    ensures fails { OnErr result (Stays (state S.Store conn.old) (state S.Store conn.new)) }
    ensures fault { IsTrue (C.Contents.file contents.new).is_clean
        → IsSure (HeldAs (C.Contents.file contents.old).bytes) (state S.Store conn.old)
        (state S.Store conn.new) result }
    ensures plain { IfErr result IsPlain }
{
    let start = (piece.first * u64::from(BLOCK_SIZE) - made.at) as usize;
    if start < done {
        return Ok(done);
    }
    let here = made.at + done as u64;
    match write_range(conn, contents, alloc, node, here, &made.bytes[done..start]) {
        Ok(()) => {}
        Err(fault) => return Err(fault),
    }
    let end = start + piece.extent.count * BLOCK_SIZE as usize;
    let bytes = &made.bytes[start..end];
    match list_piece(conn, contents, gone, alloc, node, piece, bytes) {
        Ok(()) => Ok(end),
        Err(fault) => Err(fault),
    }
}

// Writes the bytes that pieces were made of.
fn write_pieces<S: Alter, C: Contents>(
    conn: &mut Connection<S>,
    contents: &mut C,
    gone: &mut Gone,
    alloc: Global,
    node: u64,
    made: &Made<'_>,
) -> Result<(), StoreFault>
    requires node { node < 2 ^ 63 }
    requires end { made.now.at + length made.now.bytes.now < 2 ^ 63 }
    requires made { AreMadeOf (C.Contents.file contents.old).contents.seen made.now.at
        made.now.bytes.now made.now.pieces.now }
    ensures widens { Widens (C.Contents.file contents.old) (C.Contents.file contents.new) }
    ensures overlaid { OnOk result (OverlaidOver (C.Contents.file contents.old)
        (C.Contents.file contents.new) node made.now.at made.now.bytes.now
        (state S.Store conn.old) (state S.Store conn.new)) }
    ensures fails { OnErr result (Stays (state S.Store conn.old) (state S.Store conn.new)) }
    ensures fault { IsTrue (C.Contents.file contents.new).is_clean
        → IsSure (HeldAs (C.Contents.file contents.old).bytes) (state S.Store conn.old)
        (state S.Store conn.new) result }
    ensures plain { IfErr result IsPlain }
{
    let mut done: usize = 0;
    for piece in made.pieces {
        match write_up_to(conn, contents, gone, alloc, node, made, *piece, done) {
            Ok(next) => done = next,
            Err(fault) => return Err(fault),
        }
    }
    let here = made.at + done as u64;
    write_range(conn, contents, alloc, node, here, &made.bytes[done..])
}

// Whether pieces were made of these bytes at this place.
fn is_made_of(made: &Made<'_>, at: u64, bytes: &[u8]) -> bool
    ensures place { result ≡ true → made.now.at ≡ at }
    ensures bytes { result ≡ true → made.now.bytes.now ≡ bytes.now }
{
    at == made.at && bytes == made.bytes
}

/// Writes bytes of a node. Where pieces were made of them, the tables list these.
pub(crate) fn write_made<S: Alter, C: Contents>(
    conn: &mut Connection<S>,
    contents: &mut C,
    gone: &mut Gone,
    alloc: Global,
    node: u64,
    at: u64,
    bytes: &[u8],
    made: &Made<'_>,
) -> Result<(), StoreFault>
    requires node { node < 2 ^ 63 }
    requires end { at + length bytes.now < 2 ^ 63 }
    requires made { AreMadeOf (C.Contents.file contents.old).contents.seen made.now.at
        made.now.bytes.now made.now.pieces.now }
    ensures widens { Widens (C.Contents.file contents.old) (C.Contents.file contents.new) }
    ensures changed { OnOk result (ChangedOver (C.Contents.file contents.old)
        (C.Contents.file contents.new) (with_change (changes.Written node at bytes.now))
        (state S.Store conn.old) (state S.Store conn.new)) }
    ensures fails { OnErr result (Stays (state S.Store conn.old) (state S.Store conn.new)) }
    ensures fault { IsTrue (C.Contents.file contents.new).is_clean
        → IsSure (Held (C.Contents.file contents.old).bytes) (state S.Store conn.old)
        (state S.Store conn.new) result }
    ensures plain { IfErr result IsPlain }
{
    let listed = is_made_of(made, at, bytes);
    if listed {
        write_pieces(conn, contents, gone, alloc, node, made)
    } else {
        write_content(conn, contents, alloc, node, at, bytes)
    }
}
