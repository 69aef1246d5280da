// Blocks that are taken out of pieces.
ghost use Rattle.std.specs.Prelude.{◌≡◌, ◌≤◌, ◌<◌, ◌^◌, ℕ, [], List, map};
ghost use Rattle.std.specs.Prelude.{true, false, OnOk, OnErr, IfOk, IfErr, IsTrue};
ghost use Rattle.std.specs.List.{AllByRecursion};
ghost use Rattle.sqlite.specs.State.{HasCleanDisk};
ghost use Rattle.sqlite.specs.Held.{state};
ghost use Rattle.fuse_store_tables.specs.Content.{Content};
ghost use Rattle.fuse_store_tables.specs.Faults.{IsOutside, IsPlain};
ghost use Rattle.fuse_store_tables.specs.Moves.{Inside, Stays};
ghost use Rattle.fuse_store_tables.specs.Pieces.{Piece as APiece, shown_piece};
ghost use Rattle.fuse_store_tables.specs.Ranges.{row_of};
ghost use Rattle.fuse_store_tree.specs.Pieces.{ReadsFile};
ghost use Rattle.fuse_store_tree.specs.inner.Reading.{IsSound};
ghost use Rattle.fuse_store_tree.specs.inner.Relisting.{AreCut, Relists, Remembers, TakenOff};
ghost use Rattle.fuse_store_tree.specs.inner.Relisting.{EndsWithin, IsAny, IsEndOf, IsThird};
ghost use Rattle.fuse_store_tree.specs.inner.Relisting.{row_extents, rows_extents};
ghost use Rattle.fuse_store_tree.specs.inner.Relisting.{is_between, is_from_on};

use crate::bounds::END;
use crate::contents::Contents;
use crate::piece_splits::{extent_of, split_at};
use fuse_data::Extent;
use fuse_keeper::StoreFault;
use fuse_store_tables::{Layout, PieceRow, delete_pieces, layout_of, piece_in_row, select_pieces};
use sqlite::{Alter, Connection, Row};
use std::alloc::Global;

// How many rows are read at once, so that a file of any size takes little memory.
const SLICE: usize = 1024;

// The most extents that are remembered.
const MOST_GONE: usize = 65536;

/// The extents that a transaction takes off the list, to be given back once it is committed.
#[derive(Drop)]
pub struct Gone {
    pub extents: Vec<Extent>,
    /// There were more. The free space is then found anew, from the list.
    pub more: bool,
}

impl Gone {
    /// Allocates nothing.
    pub fn new(alloc: Global) -> Gone
        ensures none { result.extents.items ≡ [] }
        ensures no_more { result.more ≡ false }
    {
        Gone {
            extents: Vec::new(alloc),
            more: false,
        }
    }

    // Remembers where a piece lies in the data file.
    fn add(&mut self, piece: PieceRow) -> Result<(), StoreFault>
        ensures remembers { OnOk result (Remembers (row_extents piece) self.old self.new) }
        ensures fault { IfErr result IsOutside }
        ensures plain { IfErr result IsPlain }
    {
        if piece.place == 0 {
            return Ok(());
        }
        if self.extents.len() >= MOST_GONE {
            self.more = true;
            return Ok(());
        }
        self.extents.push(extent_of(piece))?;
        Ok(())
    }

    // Remembers where these pieces lie.
    fn add_all(&mut self, pieces: &[PieceRow]) -> Result<(), StoreFault>
        ensures remembers { OnOk result (Remembers (rows_extents pieces.now) self.old self.new) }
        ensures fault { IfErr result IsOutside }
        ensures plain { IfErr result IsPlain }
    {
        for piece in pieces {
            match self.add(*piece) {
                Ok(()) => {}
                Err(fault) => return Err(fault),
            }
        }
        Ok(())
    }
}

// The pieces of a node in rows.
fn read_pieces(alloc: Global, rows: &[Row], node: u64) -> Result<Vec<PieceRow>, StoreFault>
    ensures value { IfOk result (λ v. (ps : List APiece) → AllByRecursion (λ p. (p.node ≡ node)
        × (p.sum < 2 ^ 64)) ps → rows.now ≡ map shown_piece ps → v.items ≡ map row_of ps) }
    ensures fault { IfErr result (λ f. (ps : List APiece) → rows.now ≡ map shown_piece ps
        → IsOutside f) }
    ensures plain { IfErr result IsPlain }
{
    let mut pieces = Vec::new(alloc);
    for row in rows {
        let piece = match piece_in_row(row, node) {
            Ok(piece) => piece,
            Err(fault) => return Err(fault),
        };
        pieces.push(piece)?;
    }
    Ok(pieces)
}

// The block up to which a slice of the pieces of a range goes: where the last one ends, if there
// may be more.
fn end_of_slice(pieces: &[PieceRow], from: u64, to: u64) -> Result<u64, StoreFault>
    requires some { from < to }
    requires low { to < 2 ^ 63 }
    ensures on { IfOk result (λ next. (from < next) × (next ≤ to)) }
    ensures value { IfOk result (λ next. IsEndOf pieces.now to next) }
    ensures fault { IfErr result (λ f. EndsWithin pieces.now from to → IsOutside f) }
    ensures plain { IfErr result IsPlain }
{
    if pieces.len() < SLICE {
        return Ok(to);
    }
    let last = pieces[pieces.len() - 1];
    let end = last.first.saturating_add(last.count);
    if from < end && end <= to {
        Ok(end)
    } else {
        Err(StoreFault::Damaged)
    }
}

// Takes out the first pieces of a range, which none reaches over, and says up to which block.
fn take_slice<S: Alter>(
    conn: &mut Connection<S>,
    gone: &mut Gone,
    alloc: Global,
    node: u64,
    from: u64,
    to: u64,
) -> Result<u64, StoreFault>
    requires node { node < 2 ^ 63 }
    requires some { from < to }
    requires to { to < 2 ^ 63 }
    ensures on { IfOk result (λ next. (from < next) × (next ≤ to)) }
    ensures taken { IfOk result (λ next. (file : List ℕ) → Relists true file
        (AreCut node from to) (TakenOff file (is_between node from next) gone.old gone.new)
        (state S.Store conn.old) (state S.Store conn.new)) }
    ensures fails { OnErr result (Stays (state S.Store conn.old) (state S.Store conn.new)) }
    ensures fault { HasCleanDisk (state S.Store conn.new) → IfErr result (λ e. (file : List ℕ)
        (c : Content) → IsSound file c → AreCut node from to c
        → Inside c (state S.Store conn.old) → IsOutside e) }
    ensures plain { IfErr result IsPlain }
{
    let rows = match select_pieces(conn, node, from, to, SLICE as u64) {
        Ok(rows) => rows,
        Err(error) => return Err(StoreFault::from(error)),
    };
    let pieces = match read_pieces(alloc, rows.as_slice(), node) {
        Ok(pieces) => pieces,
        Err(fault) => return Err(fault),
    };
    let next = match end_of_slice(pieces.as_slice(), from, to) {
        Ok(next) => next,
        Err(fault) => return Err(fault),
    };
    match gone.add_all(pieces.as_slice()) {
        Ok(()) => {}
        Err(fault) => return Err(fault),
    }
    match delete_pieces(conn, node, from, next) {
        Ok(()) => {}
        Err(error) => return Err(StoreFault::from(error)),
    }
    Ok(next)
}

// Takes out the pieces of a range, which none reaches over, slice by slice.
fn take_slices<S: Alter>(
    conn: &mut Connection<S>,
    gone: &mut Gone,
    alloc: Global,
    node: u64,
    from: u64,
    to: u64,
) -> Result<(), StoreFault>
    requires node { node < 2 ^ 63 }
    requires order { from ≤ to }
    requires to { to < 2 ^ 63 }
    ensures taken { OnOk result ((file : List ℕ) → Relists true file (AreCut node from to)
        (TakenOff file (is_between node from to) gone.old gone.new)
        (state S.Store conn.old) (state S.Store conn.new)) }
    ensures fails { OnErr result (Stays (state S.Store conn.old) (state S.Store conn.new)) }
    ensures fault { HasCleanDisk (state S.Store conn.new) → IfErr result (λ e. (file : List ℕ)
        (c : Content) → IsSound file c → AreCut node from to c
        → Inside c (state S.Store conn.old) → IsOutside e) }
    ensures plain { IfErr result IsPlain }
{
    let mut at = from;
    'slices: while at < to {
        at = match take_slice(conn, gone, alloc, node, at, to) {
            Ok(next) => next,
            Err(fault) => return Err(fault),
        };
    }
    Ok(())
}

/// Takes out all pieces of a node.
pub(crate) fn take_all<S: Alter>(
    conn: &mut Connection<S>,
    gone: &mut Gone,
    alloc: Global,
    node: u64,
) -> Result<(), StoreFault>
    requires { node < 2 ^ 63 }
    ensures taken { OnOk result ((file : List ℕ) → Relists true file IsAny
        (TakenOff file (is_from_on node 0) gone.old gone.new) (state S.Store conn.old)
        (state S.Store conn.new)) }
    ensures fails { OnErr result (Stays (state S.Store conn.old) (state S.Store conn.new)) }
    ensures fault { HasCleanDisk (state S.Store conn.new) → IfErr result (λ e. (file : List ℕ)
        (c : Content) → Inside c (state S.Store conn.old) → IsSound file c → IsOutside e) }
    ensures plain { IfErr result IsPlain }
{
    match layout_of(conn) {
        Layout::Second => Ok(()),
        Layout::Third => take_slices(conn, gone, alloc, node, 0, END - 1),
    }
}

// Takes the blocks from one on out of the pieces of version 3.
fn take_rest<S: Alter, C: Contents>(
    conn: &mut Connection<S>,
    contents: &mut C,
    gone: &mut Gone,
    alloc: Global,
    node: u64,
    from: u64,
) -> Result<(), StoreFault>
    requires node { node < 2 ^ 63 }
    requires from { from < 2 ^ 63 }
    ensures reads { ReadsFile (C.Contents.file contents.old) (C.Contents.file contents.new) }
    ensures taken { OnOk result (Relists (C.Contents.file contents.new).is_clean
        (C.Contents.file contents.new).bytes IsThird
        (TakenOff (C.Contents.file contents.new).bytes (is_from_on node from) gone.old gone.new)
        (state S.Store conn.old) (state S.Store conn.new)) }
    ensures fails { OnErr result (Stays (state S.Store conn.old) (state S.Store conn.new)) }
    ensures fault { HasCleanDisk (state S.Store conn.new)
        → IsTrue (C.Contents.file contents.new).is_clean → IfErr result (λ e. (c : Content)
        → Inside c (state S.Store conn.old) → IsSound (C.Contents.file contents.new).bytes c
        → IsThird c → IsOutside e) }
    ensures plain { IfErr result IsPlain }
{
    match split_at(conn, contents, alloc, node, from) {
        Ok(()) => take_slices(conn, gone, alloc, node, from, END - 1),
        Err(fault) => Err(fault),
    }
}

/// Takes the blocks of a node from one on out of its pieces. What they still have stays as it is in
/// the data file.
pub(crate) fn take_from<S: Alter, C: Contents>(
    conn: &mut Connection<S>,
    contents: &mut C,
    gone: &mut Gone,
    alloc: Global,
    node: u64,
    from: u64,
) -> Result<(), StoreFault>
    requires node { node < 2 ^ 63 }
    requires from { from < 2 ^ 63 }
    ensures reads { ReadsFile (C.Contents.file contents.old) (C.Contents.file contents.new) }
    ensures taken { OnOk result (Relists (C.Contents.file contents.new).is_clean
        (C.Contents.file contents.new).bytes IsAny
        (TakenOff (C.Contents.file contents.new).bytes (is_from_on node from) gone.old gone.new)
        (state S.Store conn.old) (state S.Store conn.new)) }
    ensures fails { OnErr result (Stays (state S.Store conn.old) (state S.Store conn.new)) }
    ensures fault { HasCleanDisk (state S.Store conn.new)
        → IsTrue (C.Contents.file contents.new).is_clean → IfErr result (λ e. (c : Content)
        → Inside c (state S.Store conn.old) → IsSound (C.Contents.file contents.new).bytes c
        → IsOutside e) }
    ensures plain { IfErr result IsPlain }
{
    match layout_of(conn) {
        Layout::Second => Ok(()),
        Layout::Third => take_rest(conn, contents, gone, alloc, node, from),
    }
}

// Takes a range out of the pieces of version 3.
fn take_range<S: Alter, C: Contents>(
    conn: &mut Connection<S>,
    contents: &mut C,
    gone: &mut Gone,
    alloc: Global,
    node: u64,
    from: u64,
    to: u64,
) -> Result<(), StoreFault>
    requires node { node < 2 ^ 63 }
    requires order { from < to }
    requires to { to < 2 ^ 63 }
    ensures reads { ReadsFile (C.Contents.file contents.old) (C.Contents.file contents.new) }
    ensures taken { OnOk result (Relists (C.Contents.file contents.new).is_clean
        (C.Contents.file contents.new).bytes IsThird
        (TakenOff (C.Contents.file contents.new).bytes (is_between node from to) gone.old
        gone.new) (state S.Store conn.old) (state S.Store conn.new)) }
    ensures fails { OnErr result (Stays (state S.Store conn.old) (state S.Store conn.new)) }
    ensures fault { HasCleanDisk (state S.Store conn.new)
        → IsTrue (C.Contents.file contents.new).is_clean → IfErr result (λ e. (c : Content)
        → Inside c (state S.Store conn.old) → IsSound (C.Contents.file contents.new).bytes c
        → IsThird c → IsOutside e) }
    ensures plain { IfErr result IsPlain }
{
    match split_at(conn, contents, alloc, node, from) {
        Ok(()) => {}
        Err(fault) => return Err(fault),
    }
    match split_at(conn, contents, alloc, node, to) {
        Ok(()) => take_slices(conn, gone, alloc, node, from, to),
        Err(fault) => Err(fault),
    }
}

/// Takes the blocks of a node from one on, below another, out of its pieces. What they still have
/// stays as it is in the data file.
pub(crate) fn take_out<S: Alter, C: Contents>(
    conn: &mut Connection<S>,
    contents: &mut C,
    gone: &mut Gone,
    alloc: Global,
    node: u64,
    from: u64,
    to: u64,
) -> Result<(), StoreFault>
    requires node { node < 2 ^ 63 }
    requires order { from < to }
    requires to { to < 2 ^ 63 }
    ensures reads { ReadsFile (C.Contents.file contents.old) (C.Contents.file contents.new) }
    ensures taken { OnOk result (Relists (C.Contents.file contents.new).is_clean
        (C.Contents.file contents.new).bytes IsAny
        (TakenOff (C.Contents.file contents.new).bytes (is_between node from to) gone.old
        gone.new) (state S.Store conn.old) (state S.Store conn.new)) }
    ensures fails { OnErr result (Stays (state S.Store conn.old) (state S.Store conn.new)) }
    ensures fault { HasCleanDisk (state S.Store conn.new)
        → IsTrue (C.Contents.file contents.new).is_clean → IfErr result (λ e. (c : Content)
        → Inside c (state S.Store conn.old) → IsSound (C.Contents.file contents.new).bytes c
        → IsOutside e) }
    ensures plain { IfErr result IsPlain }
{
    match layout_of(conn) {
        Layout::Second => Ok(()),
        Layout::Third => take_range(conn, contents, gone, alloc, node, from, to),
    }
}
