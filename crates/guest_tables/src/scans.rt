// The scan of a range of keys, page by page.
ghost use Rattle.std.specs.Prelude.{◌≡◌, ◌<◌, ◌++◌, ◌==◌, ◌^◌, [], ◌∷◌, List, not, true, IfOk};
ghost use Rattle.std.specs.Prelude.{length, IfErr, OnOk, OnErr};
ghost use Rattle.sqlite.specs.State.{HasCleanDisk};
ghost use Rattle.sqlite.specs.Held.{state};
ghost use Rattle.guest_frames.specs.Borrowed.{scan_content};
ghost use Rattle.fuse_guest.specs.Pairs.{Pairs};
ghost use Rattle.fuse_store_tables.specs.Faults.{IsOutside, IsPlain};
ghost use Rattle.fuse_store_tables.specs.Moves.{Stays};
ghost use Rattle.guest_tables.specs.declared.owned_pair.OwnedPair.{OwnedPair as Owned};
ghost use Rattle.guest_tables.specs.Content.{GuestContent};
ghost use Rattle.guest_tables.specs.Holding.{pairs_in};
ghost use Rattle.guest_tables.specs.Moves.{Inside, Makes, LookedInside};
ghost use Rattle.guest_tables.specs.Scanned.{ShowsScan};
ghost use Rattle.guest_tables.specs.inner.Slices.{MovesOn};
ghost use Rattle.guest_tables.specs.inner.Walks.{IsAt, IsPage, GoesOn};

use crate::owned_pair::{OwnedPair, PairPage};
use crate::slices::{Cursor, move_on, select_slice};
use crate::taking::{Taken, take_rows};
use fuse_keeper::StoreFault;
use guest_frames::Scan;
use sqlite::{Alter, Connection, Row};
use std::alloc::{AllocError, Global};

// So many of the longest pairs fit into PAIRS: no more memory is held for the rows of a page.
const PAGE_OF_PAIRS: u64 = 3;

const PAGE_OF_KEYS: u64 = 256;

// The bytes of PAIRS that pairs may have.
const ROOM: u64 = 1_048_560;

/// A scan under way.
#[derive(Drop)]
pub(crate) struct Walk {
    pub(crate) at: Cursor,
    pub(crate) held: Taken,
}

// How many rows a page has.
fn page_len(keys_alone: bool) -> u64
    ensures some { 0 < result }
    ensures few { result < 2 ^ 63 }
{
    if keys_alone {
        PAGE_OF_KEYS
    } else {
        PAGE_OF_PAIRS
    }
}

// A scan at its first pair.
fn first_cursor(alloc: Global, scan: &Scan<'_>) -> Result<Cursor, AllocError>
    ensures from { IfOk result (λ at. at.from.items ≡ scan.now.from.now) }
    ensures to { IfOk result (λ at. at.to.items ≡ scan.now.to.now) }
    ensures bounded { IfOk result (λ at. at.is_bounded ≡ not (length scan.now.to.now == 0)) }
{
    let from = Vec::from_slice(alloc, scan.from)?;
    let to = Vec::from_slice(alloc, scan.to)?;
    let is_bounded = !scan.to.is_empty();
    Ok(Cursor {
        from,
        to,
        is_bounded,
    })
}

fn begin_walk(alloc: Global, scan: &Scan<'_>) -> Result<Walk, AllocError>
    ensures { IfOk result (λ walk. (ps : Pairs) → IsAt (scan_content scan.now) ps walk) }
{
    let at = first_cursor(alloc, scan)?;
    let held = Taken {
        pairs: Vec::new(alloc),
        room: ROOM,
        more: false,
    };
    Ok(Walk { at, held })
}

// Goes on after the last of these pairs.
fn move_after(at: &mut Cursor, pairs: &[OwnedPair], downwards: bool) -> Result<(), AllocError>
    ensures { OnOk result ((front : List Owned) (last : Owned) → pairs.now ≡ front ++ last ∷ []
        → MovesOn downwards last.key.items at.old at.new) }
{
    match pairs.last() {
        None => Ok(()),
        Some(last) => move_on(at, last.key.as_slice(), downwards),
    }
}

// Takes the pairs of a page of at most `len` rows, and says whether the scan goes on after it.
fn take_page(
    rows: &[Row],
    alloc: Global,
    scan: &Scan<'_>,
    len: u64,
    walk: &mut Walk,
) -> Result<bool, StoreFault>
    requires { 0 < len }
    ensures step { IfOk result (λ on. (c : GuestContent)
        → IsPage (scan_content scan.now) len c walk.old rows.now
        → GoesOn (scan_content scan.now) (pairs_in c) walk.old walk.new on) }
    ensures smaller { IfOk result (λ on. on ≡ true → walk.new.held.room < walk.old.held.room) }
    ensures fault { IfErr result (λ f. (c : GuestContent)
        → IsPage (scan_content scan.now) len c walk.old rows.now → IsOutside f) }
    ensures plain { IfErr result IsPlain }
{
    let limit = u64::from(scan.limit);
    if !take_rows(rows, alloc, scan.keys_alone, limit, &mut walk.held)? {
        walk.held.more = true;
        return Ok(false);
    }
    if (rows.len() as u64) < len {
        walk.held.more = false;
        return Ok(false);
    }
    let pairs = walk.held.pairs.as_slice();
    move_after(&mut walk.at, pairs, scan.downwards)?;
    Ok(true)
}

// Takes the pairs of the next page, and says whether the scan goes on after it.
fn next_page<S: Alter>(
    conn: &mut Connection<S>,
    alloc: Global,
    scan: &Scan<'_>,
    walk: &mut Walk,
) -> Result<bool, StoreFault>
    ensures looks { Makes (λ c. c) (state S.Store conn.old) (state S.Store conn.new) result }
    ensures step { HasCleanDisk (state S.Store conn.new) → IfOk result (λ on. (c : GuestContent)
        → Inside c (state S.Store conn.old)
        → GoesOn (scan_content scan.now) (pairs_in c) walk.old walk.new on) }
    ensures smaller { IfOk result (λ on. on ≡ true → walk.new.held.room < walk.old.held.room) }
    ensures fault { HasCleanDisk (state S.Store conn.new) → IfErr result (λ f. (c : GuestContent)
        → Inside c (state S.Store conn.old) → IsOutside f) }
    ensures plain { IfErr result IsPlain }
{
    let len = page_len(scan.keys_alone);
    let rows = select_slice(conn, scan.keys_alone, scan.downwards, &walk.at, len)?;
    take_page(rows.as_slice(), alloc, scan, len, walk)
}

/// The pairs that PAIRS lists for a SCAN, and whether there are more.
pub fn scan_pairs<S: Alter>(
    conn: &mut Connection<S>,
    alloc: Global,
    scan: &Scan<'_>,
) -> Result<PairPage, StoreFault>
    ensures looks { OnOk result (LookedInside (state S.Store conn.old) (state S.Store conn.new)) }
    ensures fails { OnErr result (Stays (state S.Store conn.old) (state S.Store conn.new)) }
    ensures shown { HasCleanDisk (state S.Store conn.new) → IfOk result (λ page.
        (c : GuestContent) → Inside c (state S.Store conn.old)
        → ShowsScan (pairs_in c) (scan_content scan.now) page) }
    ensures fault { HasCleanDisk (state S.Store conn.new) → IfErr result (λ f. (c : GuestContent)
        → Inside c (state S.Store conn.old) → IsOutside f) }
    ensures plain { IfErr result IsPlain }
{
    let mut walk = begin_walk(alloc, scan)?;
    let mut on = true;
    'pages: while on {
        on = next_page(conn, alloc, scan, &mut walk)?;
    }
    Ok(PairPage {
        pairs: walk.held.pairs,
        more: walk.held.more,
    })
}
