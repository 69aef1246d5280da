// Pieces of a node that are found, counted and deleted.
ghost use Rattle.std.specs.Prelude.{◌≡◌, ◌<◌, ◌^◌, [], ◌∷◌, filter, sum_by, IfOk, IfErr};
ghost use Rattle.std.specs.Prelude.{OnOk, OnErr};
ghost use Rattle.sqlite.specs.State.{HasCleanDisk};
ghost use Rattle.sqlite.specs.Held.{state};
ghost use Rattle.fuse_store_tables.specs.declared.version.Layout.TheVariants.{Third};
ghost use Rattle.fuse_store_tables.specs.Faults.{IsOutside, IsPlain, IsMisread};
ghost use Rattle.fuse_store_tables.specs.Pieces.{Piece as APiece, FitsPiece, shown_piece};
ghost use Rattle.fuse_store_tables.specs.Pieces.{begins_between, ShowsInOrder};
ghost use Rattle.fuse_store_tables.specs.Content.{Content, HoldsIn, without_pieces};
ghost use Rattle.fuse_store_tables.specs.Ranges.{begins_by, held_pieces, row_of, ShowsLast};
ghost use Rattle.fuse_store_tables.specs.Moves.{Inside, InsideAs, Takes, Makes, LookedInside, Stays};
ghost use Rattle.fuse_store_tables.specs.inner.Columns.{shown_number};
ghost use Rattle.fuse_store_tables.specs.inner.Ranged.{ShowsLastAlone};

use crate::columns::{bits_at, number_at, the_number};
use crate::pieces::{PieceRow, remove_pieces, select_pieces};
use crate::schema::layout_of;
use crate::values::{pair, triple};
use crate::version::Layout;
use fuse_keeper::StoreFault;
use sqlite::{Alter, Connection, Error, Row};
use std::alloc::Global;

const SELECT_BEFORE: &str = "SELECT first, count, place, sum FROM pieces \
    WHERE node = ?1 AND first <= ?2 ORDER BY first DESC LIMIT 1";

const SUM: &str = "SELECT coalesce(sum(count), 0) FROM pieces \
    WHERE node = ?1 AND first >= ?2 AND first < ?3";

/// A piece of a node, as a statement shows it.
pub fn piece_in_row(row: &Row, node: u64) -> Result<PieceRow, StoreFault>
    ensures value { IfOk result (λ r. (p : APiece) → p.node ≡ node → p.sum < 2 ^ 64
        → row.now ≡ shown_piece p → r ≡ row_of p) }
    ensures fits { IfOk result (λ r. node < 2 ^ 63 → FitsPiece r) }
    ensures node { IfOk result (λ r. r.node ≡ node) }
    // A value of another type or range is damage.
    ensures misread { IfErr result IsMisread }
    ensures fault { IfErr result (λ f. (p : APiece) → row.now ≡ shown_piece p → IsOutside f) }
    ensures plain { IfErr result IsPlain }
{
    let first = number_at(row, 0)?;
    let count = number_at(row, 1)?;
    let place = number_at(row, 2)?;
    let sum = bits_at(row, 3)?;
    Ok(PieceRow {
        node,
        first,
        count,
        place,
        sum,
    })
}

// The piece of a node that begins last, at this block or before it, in version 3.
fn select_before<S: Alter>(
    conn: &mut Connection<S>,
    node: u64,
    block: u64,
) -> Result<Vec<Row>, Error>
    requires node { node < 2 ^ 63 }
    requires block { block < 2 ^ 63 }
    ensures looks { Takes (HoldsIn Third) (HoldsIn Third) (state S.Store conn.old)
        (state S.Store conn.new) result }
    ensures found { HasCleanDisk (state S.Store conn.new) → IfOk result (λ rows. (c : Content)
        → InsideAs (HoldsIn Third c) (state S.Store conn.old)
        → ShowsLastAlone (filter (begins_by node block) c.pieces) rows.items) }
{
    let values = pair(node, block);
    conn.query_all(SELECT_BEFORE, &values)
}

// The same, as one row or none.
fn last_in_third<S: Alter>(
    conn: &mut Connection<S>,
    node: u64,
    block: u64,
) -> Result<Option<Row>, Error>
    requires node { node < 2 ^ 63 }
    requires block { block < 2 ^ 63 }
    ensures looks { Takes (HoldsIn Third) (HoldsIn Third) (state S.Store conn.old)
        (state S.Store conn.new) result }
    ensures found { HasCleanDisk (state S.Store conn.new) → IfOk result (λ found. (c : Content)
        → InsideAs (HoldsIn Third c) (state S.Store conn.old)
        → ShowsLast (filter (begins_by node block) c.pieces) found) }
{
    let mut rows = select_before(conn, node, block)?;
    Ok(rows.pop())
}

/// The piece of a node that begins last, at this block or before it. Version 2 has none.
pub fn select_piece_before<S: Alter>(
    conn: &mut Connection<S>,
    node: u64,
    block: u64,
) -> Result<Option<Row>, Error>
    requires node { node < 2 ^ 63 }
    requires block { block < 2 ^ 63 }
    ensures looks { OnOk result (LookedInside (state S.Store conn.old) (state S.Store conn.new)) }
    ensures fails { OnErr result (Stays (state S.Store conn.old) (state S.Store conn.new)) }
    ensures found { HasCleanDisk (state S.Store conn.new) → IfOk result (λ found. (c : Content)
        → Inside c (state S.Store conn.old)
        → ShowsLast (filter (begins_by node block) (held_pieces c)) found) }
{
    match layout_of(conn) {
        Layout::Second => Ok(None),
        Layout::Third => last_in_third(conn, node, block),
    }
}

/// The pieces of a node that begin from one block on, below another, in the order of their first
/// blocks: at most `limit` of them. Version 2 has none.
pub fn select_pieces_between<S: Alter>(
    conn: &mut Connection<S>,
    alloc: Global,
    node: u64,
    from: u64,
    to: u64,
    limit: u64,
) -> Result<Vec<Row>, Error>
    requires node { node < 2 ^ 63 }
    requires from { from < 2 ^ 63 }
    requires to { to < 2 ^ 63 }
    requires limit { limit < 2 ^ 63 }
    ensures looks { OnOk result (LookedInside (state S.Store conn.old) (state S.Store conn.new)) }
    ensures fails { OnErr result (Stays (state S.Store conn.old) (state S.Store conn.new)) }
    ensures found { HasCleanDisk (state S.Store conn.new) → IfOk result (λ rows. (c : Content)
        → Inside c (state S.Store conn.old) → ShowsInOrder limit
        (filter (begins_between node from to) (held_pieces c)) rows.items) }
{
    match layout_of(conn) {
        Layout::Second => Ok(Vec::new(alloc)),
        Layout::Third => select_pieces(conn, node, from, to, limit),
    }
}

// The sum of the blocks of a node's pieces that begin in a range, in version 3: one row.
fn select_sum<S: Alter>(
    conn: &mut Connection<S>,
    node: u64,
    from: u64,
    to: u64,
) -> Result<Vec<Row>, Error>
    requires node { node < 2 ^ 63 }
    requires from { from < 2 ^ 63 }
    requires to { to < 2 ^ 63 }
    ensures looks { Takes (HoldsIn Third) (HoldsIn Third) (state S.Store conn.old)
        (state S.Store conn.new) result }
    ensures found { HasCleanDisk (state S.Store conn.new) → IfOk result (λ rows. (c : Content)
        → InsideAs (HoldsIn Third c) (state S.Store conn.old) → rows.items
        ≡ shown_number (sum_by (λ p. p.count) (filter (begins_between node from to) c.pieces))
        ∷ []) }
{
    let values = triple(node, from, to);
    conn.query_all(SUM, &values)
}

// The same sum, as a number.
fn sum_in_third<S: Alter>(
    conn: &mut Connection<S>,
    node: u64,
    from: u64,
    to: u64,
) -> Result<u64, StoreFault>
    requires node { node < 2 ^ 63 }
    requires from { from < 2 ^ 63 }
    requires to { to < 2 ^ 63 }
    ensures looks { Takes (HoldsIn Third) (HoldsIn Third) (state S.Store conn.old)
        (state S.Store conn.new) result }
    ensures value { HasCleanDisk (state S.Store conn.new) → IfOk result (λ n. (c : Content)
        → InsideAs (HoldsIn Third c) (state S.Store conn.old)
        → n ≡ sum_by (λ p. p.count) (filter (begins_between node from to) c.pieces)) }
    ensures small { IfOk result (λ n. n < 2 ^ 63) }
    ensures fault { HasCleanDisk (state S.Store conn.new) → IfErr result (λ f. (c : Content)
        → InsideAs (HoldsIn Third c) (state S.Store conn.old) → IsOutside f) }
    ensures plain { IfErr result IsPlain }
{
    let rows = select_sum(conn, node, from, to)?;
    the_number(rows.as_slice())
}

/// How many blocks the pieces of a node have that begin from one block on, below another. Version 2
/// has no pieces.
pub fn count_piece_blocks<S: Alter>(
    conn: &mut Connection<S>,
    node: u64,
    from: u64,
    to: u64,
) -> Result<u64, StoreFault>
    requires node { node < 2 ^ 63 }
    requires from { from < 2 ^ 63 }
    requires to { to < 2 ^ 63 }
    ensures looks { OnOk result (LookedInside (state S.Store conn.old) (state S.Store conn.new)) }
    ensures fails { OnErr result (Stays (state S.Store conn.old) (state S.Store conn.new)) }
    ensures value { HasCleanDisk (state S.Store conn.new) → IfOk result (λ n. (c : Content)
        → Inside c (state S.Store conn.old)
        → n ≡ sum_by (λ p. p.count) (filter (begins_between node from to) (held_pieces c))) }
    ensures small { IfOk result (λ n. n < 2 ^ 63) }
    ensures fault { HasCleanDisk (state S.Store conn.new) → IfErr result (λ f. (c : Content)
        → Inside c (state S.Store conn.old) → IsOutside f) }
    ensures plain { IfErr result IsPlain }
{
    match layout_of(conn) {
        Layout::Second => Ok(0),
        Layout::Third => sum_in_third(conn, node, from, to),
    }
}

/// Deletes all pieces of a node. Version 2 has none.
pub fn delete_pieces_of<S: Alter>(conn: &mut Connection<S>, node: u64) -> Result<(), Error>
    requires { node < 2 ^ 63 }
    ensures { Makes (without_pieces node) (state S.Store conn.old) (state S.Store conn.new) result }
{
    remove_pieces(conn, node)
}
