// The table of handles.
ghost use Rattle.std.specs.Prelude.{◌≡◌, ◌<◌, ◌^◌, [], ◌∷◌, pos, map, take, filter, IfOk, OnOk};
ghost use Rattle.std.specs.Prelude.{None, OnErr};
ghost use Rattle.std.specs.Option.{option_to_list};
ghost use Rattle.sqlite.specs.declared.types.Value.TheVariants.{Int};
ghost use Rattle.sqlite.specs.State.{HasCleanDisk};
ghost use Rattle.sqlite.specs.Held.{state};
ghost use Rattle.sqlite.specs.Values.{bound};
ghost use Rattle.fuse_rows.specs.Columns.{FitsHandle};
ghost use Rattle.fuse_store_tables.specs.Moves.{Inside, Makes, LookedInside, Stays};
ghost use Rattle.fuse_store_tables.specs.Content.{Content, access_code, fh_of, at_by, with_handle};
ghost use Rattle.fuse_store_tables.specs.Content.{without_handle, shown_handle, shown_open};
ghost use Rattle.fuse_store_tables.specs.Content.{is_handle_of};
ghost use Rattle.fuse_store_tables.specs.inner.Steps.{without_handles};
ghost use Rattle.fuse_store_tables.specs.inner.Performing.{StaysWithin};

use crate::statements::run;
use crate::values::{number, pair};
use fuse_rows::HandleRow;
use fuse_wire::AccessMode;
use sqlite::types::{ToSql, ValueRef};
use sqlite::{Alter, Connection, Error, Row};

const INSERT: &str = "INSERT INTO handles (fh, node, access) VALUES (?1, ?2, ?3)";

const DELETE: &str = "DELETE FROM handles WHERE fh = ?1";

const DELETE_ALL: &str = "DELETE FROM handles";

const SELECT: &str = "SELECT node, access FROM handles WHERE fh = ?1";

const SELECT_OF: &str = "SELECT fh, access FROM handles WHERE node = ?1 ORDER BY fh LIMIT ?2";

// The number of an access mode.
fn code_of(access: AccessMode) -> u32
    ensures { result ≡ access_code access }
{
    match access {
        AccessMode::ReadOnly => 0,
        AccessMode::WriteOnly => 1,
        AccessMode::ReadWrite => 2,
    }
}

// The parameters of a handle.
fn handle_values(row: &HandleRow) -> [ValueRef<'static>; 3]
    requires { FitsHandle row.now }
    ensures { bound result ≡ Int (pos row.now.fh) ∷ Int (pos row.now.node)
        ∷ Int (pos (access_code row.now.access)) ∷ [] }
{
    [
        (row.fh as i64).to_sql(),
        (row.node as i64).to_sql(),
        code_of(row.access).to_sql(),
    ]
}

/// Adds a handle with a new number.
pub fn insert_handle<S: Alter>(conn: &mut Connection<S>, row: &HandleRow) -> Result<(), Error>
    requires { FitsHandle row.now }
    ensures made { Makes (with_handle row.now) (state S.Store conn.old) (state S.Store conn.new)
        result }
    // It fails where there is a handle of this number.
    ensures fresh { HasCleanDisk (state S.Store conn.new) → OnOk result ((c : Content)
        → Inside c (state S.Store conn.old) → at_by fh_of row.now.fh c.handles ≡ None) }
{
    let values = handle_values(row);
    run(conn, INSERT, &values)
}

/// Deletes the handle of this number, if there is one.
pub fn delete_handle<S: Alter>(conn: &mut Connection<S>, fh: u64) -> Result<(), Error>
    requires { fh < 2 ^ 63 }
    ensures { Makes (without_handle fh) (state S.Store conn.old) (state S.Store conn.new) result }
{
    let values = number(fh);
    run(conn, DELETE, &values)
}

/// Deletes every handle.
pub(crate) fn delete_all_handles<S: Alter>(conn: &mut Connection<S>) -> Result<(), Error>
    ensures made { Makes without_handles (state S.Store conn.old) (state S.Store conn.new) result }
    ensures within { StaysWithin (state S.Store conn.old) (state S.Store conn.new) result }
{
    run(conn, DELETE_ALL, &[])
}

/// The handles of this number: one row or none.
pub fn select_handle<S: Alter>(conn: &mut Connection<S>, fh: u64) -> Result<Vec<Row>, Error>
    requires { fh < 2 ^ 63 }
    ensures looks { OnOk result (LookedInside (state S.Store conn.old) (state S.Store conn.new)) }
    ensures fails { OnErr result (Stays (state S.Store conn.old) (state S.Store conn.new)) }
    ensures found { HasCleanDisk (state S.Store conn.new) → IfOk result (λ rows. (c : Content)
        → Inside c (state S.Store conn.old)
        → rows.items ≡ map shown_handle (option_to_list (at_by fh_of fh c.handles))) }
{
    let values = number(fh);
    conn.query_all(SELECT, &values)
}

/// At most `limit` handles of a node, in rising order.
pub fn select_handles_of<S: Alter>(
    conn: &mut Connection<S>,
    node: u64,
    limit: u64,
) -> Result<Vec<Row>, Error>
    requires node { node < 2 ^ 63 }
    requires limit { limit < 2 ^ 63 }
    ensures looks { OnOk result (LookedInside (state S.Store conn.old) (state S.Store conn.new)) }
    ensures fails { OnErr result (Stays (state S.Store conn.old) (state S.Store conn.new)) }
    ensures found { HasCleanDisk (state S.Store conn.new) → IfOk result (λ rows. (c : Content)
        → Inside c (state S.Store conn.old)
        → rows.items ≡ take limit (map shown_open (filter (is_handle_of node) c.handles))) }
{
    let values = pair(node, limit);
    conn.query_all(SELECT_OF, &values)
}
