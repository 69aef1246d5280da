// Where the pieces that the tables list lie in the data file.
ghost use Rattle.std.specs.Prelude.{◌≡◌, ◌<◌, ◌≤◌, ◌^◌, ◌++◌, ℕ, List, map};
ghost use Rattle.std.specs.Prelude.{OnOk, IfOk, IfErr};
ghost use Rattle.std.specs.List.{All, AllByRecursion};
ghost use Rattle.std.specs.List.Sorted.{IsPermutation, IsNonDecreasingBy};
ghost use Rattle.sqlite.specs.State.{HasCleanDisk};
ghost use Rattle.sqlite.specs.Held.{state};
ghost use Rattle.fuse_data.specs.declared.gaps.Gap.{Gap};
ghost use Rattle.fuse_data.specs.Extents.{AreByPlace, IsWhole};
ghost use Rattle.fuse_data.specs.Space.{AllInUse};
ghost use Rattle.fuse_store_tables.specs.declared.version.Layout.TheVariants.{Third};
ghost use Rattle.fuse_store_tables.specs.Content.{Content, HoldsIn};
ghost use Rattle.fuse_store_tables.specs.Faults.{IsOutside, IsPlain};
ghost use Rattle.fuse_store_tables.specs.Moves.{IsSafe, OnlyReads, RestsAs, Rests, Serves};
ghost use Rattle.fuse_store_tables.specs.Moves.{ServesAs, StaysOpen};
ghost use Rattle.fuse_store_tables.specs.Pieces.{Piece as APiece};
ghost use Rattle.fuse_store_tables.specs.Slices.{shown_extent};
ghost use Rattle.fuse_store_tree.specs.Fits.{Fits};
ghost use Rattle.fuse_store_tree.specs.Holding.{Holding, HeldFor};
ghost use Rattle.fuse_store_tree.specs.Leaving.{ListsInUse};
ghost use Rattle.fuse_store_tree.specs.Listings.{ListsExtents, extents_above, last_slot};
ghost use Rattle.fuse_store_tree.specs.Pieces.{extent_of as lies_at};

use crate::bounds::END;
use crate::piece_reads::extent_of;
use fuse_data::Extent;
use fuse_keeper::StoreFault;
use fuse_store_tables::{Layout, layout_of, piece_in_row, select_listed_pieces};
use sqlite::{Alter, Connection, Row};
use std::alloc::Global;

// How many rows are read at once.
const SLICE: usize = 1024;

// Appends where the pieces in rows lie. It says the slot of the last one, or this one.
fn add_rows(extents: &mut Vec<Extent>, rows: &[Row], slot: u64) -> Result<u64, StoreFault>
    requires { slot < 2 ^ 63 }
    ensures extents { OnOk result ((ps : List APiece) → AllByRecursion (λ p. p.sum < 2 ^ 64) ps
        → rows.now ≡ map shown_extent ps
        → extents.new.items ≡ extents.old.items ++ map lies_at ps) }
    ensures last { IfOk result (λ last. (ps : List APiece)
        → AllByRecursion (λ p. p.sum < 2 ^ 64) ps → rows.now ≡ map shown_extent ps
        → last ≡ last_slot slot ps) }
    ensures small { IfOk result (λ last. last < 2 ^ 63) }
    ensures fault { IfErr result (λ f. (ps : List APiece) → rows.now ≡ map shown_extent ps
        → IsOutside f) }
    ensures plain { IfErr result IsPlain }
{
    let mut last = slot;
    for row in rows {
        // The slot stands where a piece's first block does.
        let piece = match piece_in_row(row, 0) {
            Ok(piece) => piece,
            Err(fault) => return Err(fault),
        };
        extents.push(extent_of(piece))?;
        last = piece.first;
    }
    Ok(last)
}

// Appends where the first pieces with slots above this one lie. It says the slot of the last one, or
// a number of 64 bits where there are no more.
fn read_slice<S: Alter>(
    conn: &mut Connection<S>,
    extents: &mut Vec<Extent>,
    slot: u64,
) -> Result<u64, StoreFault>
    requires { slot < 2 ^ 63 }
    ensures rests { ServesAs (HoldsIn Third) (HoldsIn Third) (state S.Store conn.old)
        (state S.Store conn.new) result }
    ensures open { StaysOpen (state S.Store conn.old) (state S.Store conn.new) result }
    ensures reads { OnlyReads (state S.Store conn.old) (state S.Store conn.new) result }
    ensures on { IfOk result (λ next. (slot < next) × (next ≤ 2 ^ 63)) }
    ensures extents { HasCleanDisk (state S.Store conn.new) → IfOk result (λ next. (c : Content)
        → RestsAs (HoldsIn Third c) (state S.Store conn.old) → Fits c
        → extents.new.items ++ extents_above next c.pieces
        ≡ extents.old.items ++ extents_above slot c.pieces) }
    ensures fault { HasCleanDisk (state S.Store conn.new) → IfErr result (λ f. (c : Content)
        → RestsAs (HoldsIn Third c) (state S.Store conn.old) → Fits c → IsOutside f) }
    ensures plain { IfErr result IsPlain }
{
    let rows = select_listed_pieces(conn, slot, SLICE as u64)?;
    let last = match add_rows(extents, rows.as_slice(), slot) {
        Ok(last) => last,
        Err(fault) => return Err(fault),
    };
    if rows.len() < SLICE {
        return Ok(END);
    }
    if last <= slot {
        return Err(StoreFault::Damaged);
    }
    Ok(last)
}

// Where the pieces of version 3 lie, in the order of their slots.
fn read_all<S: Alter>(conn: &mut Connection<S>, alloc: Global) -> Result<Vec<Extent>, StoreFault>
    ensures rests { ServesAs (HoldsIn Third) (HoldsIn Third) (state S.Store conn.old)
        (state S.Store conn.new) result }
    ensures open { StaysOpen (state S.Store conn.old) (state S.Store conn.new) result }
    ensures reads { OnlyReads (state S.Store conn.old) (state S.Store conn.new) result }
    ensures extents { HasCleanDisk (state S.Store conn.new) → IfOk result (λ v. (c : Content)
        → RestsAs (HoldsIn Third c) (state S.Store conn.old) → Fits c
        → v.items ≡ extents_above 0 c.pieces) }
    ensures fault { HasCleanDisk (state S.Store conn.new) → IfErr result (λ f. (c : Content)
        → RestsAs (HoldsIn Third c) (state S.Store conn.old) → Fits c → IsOutside f) }
    ensures plain { IfErr result IsPlain }
{
    let mut extents = Vec::new(alloc);
    let mut slot: u64 = 0;
    'slices: while slot < END {
        slot = match read_slice(conn, &mut extents, slot) {
            Ok(next) => next,
            Err(fault) => return Err(fault),
        };
    }
    Ok(extents)
}

// In place, whatever their number.
fn sort_by_place(extents: &mut Vec<Extent>)
    ensures same { IsPermutation extents.old.items extents.new.items }
    ensures rise { IsNonDecreasingBy (λ e. e.place) extents.new.items }
{
    extents.sort_unstable_by_key(|e| e.place);
}

/// Where all pieces with a place lie in the data file, in order of place, as the tables at rest list
/// them. It takes 24 bytes for each.
pub fn listed_extents<S: Alter>(
    conn: &mut Connection<S>,
    alloc: Global,
) -> Result<Vec<Extent>, StoreFault>
    ensures rests { Serves (λ c. c) (state S.Store conn.old) (state S.Store conn.new) result }
    ensures open { StaysOpen (state S.Store conn.old) (state S.Store conn.new) result }
    // Whatever the database is, nothing is changed.
    ensures reads { OnlyReads (state S.Store conn.old) (state S.Store conn.new) result }
    ensures listed { HasCleanDisk (state S.Store conn.new) → IfOk result (λ v.
        ListsExtents (state S.Store conn.old) v.items) }
    // Where no block of them is free, none is of a piece that the database lists.
    ensures in_use { HasCleanDisk (state S.Store conn.new) → IfOk result (λ v. (file : List ℕ)
        (y : Holding) (gaps : List Gap) → RestsAs (HeldFor file y) (state S.Store conn.old)
        → AllInUse gaps v.items → ListsInUse gaps (state S.Store conn.old).now) }
    // Those of a store lie beside each other, and are whole in its data file.
    ensures apart { HasCleanDisk (state S.Store conn.new) → IfOk result (λ v. (file : List ℕ)
        (y : Holding) → RestsAs (HeldFor file y) (state S.Store conn.old)
        → AreByPlace 1 v.items × All (IsWhole file) v.items) }
    ensures fault { (file : List ℕ) → IsSafe (HeldFor file) (state S.Store conn.old)
        (state S.Store conn.new) result }
    ensures plain { IfErr result IsPlain }
{
    match layout_of(conn) {
        Layout::Second => Ok(Vec::new(alloc)),
        Layout::Third => {
            let mut extents = match read_all(conn, alloc) {
                Ok(extents) => extents,
                Err(fault) => return Err(fault),
            };
            sort_by_place(&mut extents);
            Ok(extents)
        }
    }
}
