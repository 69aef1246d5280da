// The table of pieces, which version 3 has.
ghost use Rattle.std.specs.Prelude.{◌≡◌, ◌<◌, ◌^◌, [], ◌∷◌, pos, filter, IfOk, OnErr, OnOk};
ghost use Rattle.std.specs.Int.{w64, cast_signed};
ghost use Rattle.sqlite.specs.declared.types.Value.TheVariants.{Int};
ghost use Rattle.sqlite.specs.State.{HasCleanDisk};
ghost use Rattle.sqlite.specs.Held.{state};
ghost use Rattle.sqlite.specs.Values.{bound};
ghost use Rattle.fuse_store_tables.specs.Moves.{InsideAs, Makes, Takes};
ghost use Rattle.fuse_store_tables.specs.Pieces.{FitsPiece, ShowsInOrder, begins_between};
ghost use Rattle.fuse_store_tables.specs.Content.{Content, HoldsIn, with_piece, without_pieces};
ghost use Rattle.fuse_store_tables.specs.Content.{without_pieces_between};
ghost use Rattle.fuse_store_tables.specs.inner.Performing.{StaysWithin};
ghost use Rattle.fuse_store_tables.specs.declared.version.Layout.TheVariants.{Third};

use crate::schema::layout_of;
use crate::statements::run;
use crate::values::{number, triple};
use crate::version::Layout;
use sqlite::types::{ToSql, ValueRef};
use sqlite::{Alter, Connection, Error, Row};

/// A run of blocks of a node, which lies in the data file. Place 0 stands for zeros.
#[derive(Clone, Copy, Debug, PartialEq, Eq)]
pub struct PieceRow {
    pub node: u64,
    /// The number of its first block in the file.
    pub first: u64,
    pub count: u64,
    /// The block of the data file where it begins.
    pub place: u64,
    /// The digest of its bytes.
    pub sum: u64,
}

const INSERT: &str =
    "INSERT INTO pieces (node, first, count, place, sum) VALUES (?1, ?2, ?3, ?4, ?5)";

const DELETE_ALL: &str = "DELETE FROM pieces WHERE node = ?1";

const DELETE_BETWEEN: &str = "DELETE FROM pieces WHERE node = ?1 AND first >= ?2 AND first < ?3";

const SELECT_BETWEEN: &str = "SELECT first, count, place, sum FROM pieces \
    WHERE node = ?1 AND first >= ?2 AND first < ?3 ORDER BY first LIMIT ?4";

// The parameters of a piece.
fn piece_values(row: PieceRow) -> [ValueRef<'static>; 5]
    requires { FitsPiece row }
    ensures { bound result ≡ Int (pos row.node) ∷ Int (pos row.first) ∷ Int (pos row.count)
        ∷ Int (pos row.place) ∷ Int (cast_signed w64 row.sum) ∷ [] }
{
    [
        (row.node as i64).to_sql(),
        (row.first as i64).to_sql(),
        (row.count as i64).to_sql(),
        (row.place as i64).to_sql(),
        row.sum.cast_signed().to_sql(),
    ]
}

/// Adds a piece. It fails where one of its node begins with its first block.
pub fn insert_piece<S: Alter>(conn: &mut Connection<S>, row: PieceRow) -> Result<(), Error>
    requires { FitsPiece row }
    ensures { Takes (HoldsIn Third) (λ c. HoldsIn Third (with_piece row c))
        (state S.Store conn.old) (state S.Store conn.new) result }
{
    let values = piece_values(row);
    run(conn, INSERT, &values)
}

// Deletes all pieces of a node in version 3.
fn delete_all_pieces<S: Alter>(conn: &mut Connection<S>, node: u64) -> Result<(), Error>
    requires { node < 2 ^ 63 }
    ensures made { Takes (HoldsIn Third) (λ c. HoldsIn Third (without_pieces node c))
        (state S.Store conn.old) (state S.Store conn.new) result }
    ensures within { StaysWithin (state S.Store conn.old) (state S.Store conn.new) result }
{
    let values = number(node);
    run(conn, DELETE_ALL, &values)
}

/// Deletes all pieces of a node. Version 2 has none.
pub(crate) fn remove_pieces<S: Alter>(conn: &mut Connection<S>, node: u64) -> Result<(), Error>
    requires { node < 2 ^ 63 }
    ensures made { Makes (without_pieces node) (state S.Store conn.old) (state S.Store conn.new)
        result }
    ensures within { StaysWithin (state S.Store conn.old) (state S.Store conn.new) result }
{
    match layout_of(conn) {
        Layout::Second => Ok(()),
        Layout::Third => delete_all_pieces(conn, node),
    }
}

/// Deletes the pieces of a node that begin from one block on, below another.
pub fn delete_pieces<S: Alter>(
    conn: &mut Connection<S>,
    node: u64,
    from: u64,
    to: u64,
) -> Result<(), Error>
    requires node { node < 2 ^ 63 }
    requires from { from < 2 ^ 63 }
    requires to { to < 2 ^ 63 }
    ensures { Takes (HoldsIn Third) (λ c. HoldsIn Third (without_pieces_between node from to c))
        (state S.Store conn.old) (state S.Store conn.new) result }
{
    let values = triple(node, from, to);
    run(conn, DELETE_BETWEEN, &values)
}

/// Four numbers.
pub(crate) fn slice_values(node: u64, from: u64, to: u64, limit: u64) -> [ValueRef<'static>; 4]
    requires node { node < 2 ^ 63 }
    requires from { from < 2 ^ 63 }
    requires to { to < 2 ^ 63 }
    requires limit { limit < 2 ^ 63 }
    ensures { bound result ≡ Int (pos node) ∷ Int (pos from) ∷ Int (pos to) ∷ Int (pos limit)
        ∷ [] }
{
    [
        (node as i64).to_sql(),
        (from as i64).to_sql(),
        (to as i64).to_sql(),
        (limit as i64).to_sql(),
    ]
}

/// The pieces of a node that begin from one block on, below another, in the order of their first
/// blocks: at most `limit` of them.
pub fn select_pieces<S: Alter>(
    conn: &mut Connection<S>,
    node: u64,
    from: u64,
    to: u64,
    limit: u64,
) -> Result<Vec<Row>, Error>
    requires node { node < 2 ^ 63 }
    requires from { from < 2 ^ 63 }
    requires to { to < 2 ^ 63 }
    requires limit { limit < 2 ^ 63 }
    ensures looks { Takes (HoldsIn Third) (HoldsIn Third) (state S.Store conn.old)
        (state S.Store conn.new) result }
    ensures found { HasCleanDisk (state S.Store conn.new) → IfOk result (λ rows. (c : Content)
        → InsideAs (HoldsIn Third c) (state S.Store conn.old)
        → ShowsInOrder limit (filter (begins_between node from to) c.pieces) rows.items) }
{
    let values = slice_values(node, from, to, limit);
    conn.query_all(SELECT_BETWEEN, &values)
}
