// The table of entries.
ghost use Rattle.std.specs.Prelude.{◌≡◌, ◌<◌, ◌^◌, [], ◌∷◌, pos, map, take, filter, IfOk, OnOk};
ghost use Rattle.std.specs.Prelude.{None, OnErr, ℕ};
ghost use Rattle.sqlite.specs.declared.types.Value.TheVariants.{Int, Blob};
ghost use Rattle.sqlite.specs.State.{HasCleanDisk};
ghost use Rattle.sqlite.specs.Held.{state};
ghost use Rattle.sqlite.specs.Values.{bound};
ghost use Rattle.fuse_rows.specs.Columns.{FitsEntry};
ghost use Rattle.fuse_store_tables.specs.Moves.{Inside, InsideAs, Makes, LookedInside, Stays};
ghost use Rattle.fuse_store_tables.specs.Moves.{Takes};
ghost use Rattle.fuse_store_tables.specs.inner.Steps.{HoldsIn};
ghost use Rattle.fuse_store_tables.specs.Content.{Content, Holds, at_by, cookie_of, with_entry};
ghost use Rattle.fuse_store_tables.specs.Content.{with_entry_gone, has_name};
ghost use Rattle.fuse_store_tables.specs.Content.{stands_after, shown_place, shown_entry, shown_child};

use crate::schema::layout_of;
use crate::statements::run;
use crate::values::{number, triple};
use crate::version::Layout;
use fuse_rows::EntryRow;
use sqlite::types::{ToSql, ValueRef};
use sqlite::{Alter, Connection, Error, Row};

const INSERT: &str = "INSERT INTO entries (cookie, dir, name, child) VALUES (?1, ?2, ?3, ?4)";

const DELETE: &str = "DELETE FROM entries WHERE cookie = ?1";

const SELECT_NAMED: &str =
    "SELECT cookie, child FROM entries WHERE dir = ?1 AND name = ?2 ORDER BY cookie LIMIT 1";

const SELECT_AFTER: &str = "SELECT cookie, name, child FROM entries \
    WHERE dir = ?1 AND cookie > ?2 ORDER BY cookie LIMIT ?3";

const CHILDREN: &str = "SELECT n.mode, n.uid, n.gid, n.rdev, n.size, n.atime, n.atimensec, \
    n.mtime, n.mtimensec, n.ctime, n.ctimensec, n.up, n.subdirs, e.cookie, e.name, e.child \
    FROM entries AS e LEFT JOIN nodes AS n ON n.node = e.child \
    WHERE e.dir = ?1 AND e.cookie > ?2 ORDER BY e.cookie LIMIT ?3";

const CHILDREN_THIRD: &str = "SELECT n.mode, n.uid, n.gid, n.rdev, n.size, n.atime, n.atimensec, \
    n.mtime, n.mtimensec, n.ctime, n.ctimensec, n.up, n.subdirs, n.links, n.written, \
    n.attributes, e.cookie, e.name, e.child FROM entries AS e LEFT JOIN nodes AS n \
    ON n.node = e.child WHERE e.dir = ?1 AND e.cookie > ?2 ORDER BY e.cookie LIMIT ?3";

// The parameters of an entry.
fn entry_values<'a>(row: &'a EntryRow) -> [ValueRef<'a>; 4]
    requires { FitsEntry row.now }
    ensures { bound result ≡ Int (pos row.now.cookie) ∷ Int (pos row.now.dir) ∷ Blob row.now.name
        ∷ Int (pos row.now.child) ∷ [] }
{
    [
        (row.cookie as i64).to_sql(),
        (row.dir as i64).to_sql(),
        row.name.as_slice().to_sql(),
        (row.child as i64).to_sql(),
    ]
}

// The parameters of a directory and a name.
fn place_values<'a>(dir: u64, name: &'a [u8]) -> [ValueRef<'a>; 2]
    requires { dir < 2 ^ 63 }
    ensures { bound result ≡ Int (pos dir) ∷ Blob name.now ∷ [] }
{
    [(dir as i64).to_sql(), name.to_sql()]
}

/// Adds an entry. Its cookie, its child and its name in the directory are new.
pub fn insert_entry<S: Alter>(conn: &mut Connection<S>, row: &EntryRow) -> Result<(), Error>
    requires { FitsEntry row.now }
    ensures made { Makes (with_entry row.now) (state S.Store conn.old) (state S.Store conn.new)
        result }
    // It fails where there is an entry of this cookie.
    ensures fresh { HasCleanDisk (state S.Store conn.new) → OnOk result ((c : Content)
        → Inside c (state S.Store conn.old) → at_by cookie_of row.now.cookie c.entries ≡ None) }
{
    let values = entry_values(row);
    run(conn, INSERT, &values)
}

/// Deletes the entry of this cookie, if there is one.
pub fn delete_entry<S: Alter>(conn: &mut Connection<S>, cookie: u64) -> Result<(), Error>
    requires { cookie < 2 ^ 63 }
    ensures { Makes (with_entry_gone cookie) (state S.Store conn.old) (state S.Store conn.new)
        result }
{
    let values = number(cookie);
    run(conn, DELETE, &values)
}

/// The first entry of this name: one row or none.
pub fn select_named<S: Alter>(
    conn: &mut Connection<S>,
    dir: u64,
    name: &[u8],
) -> Result<Vec<Row>, Error>
    requires { dir < 2 ^ 63 }
    ensures looks { OnOk result (LookedInside (state S.Store conn.old) (state S.Store conn.new)) }
    ensures fails { OnErr result (Stays (state S.Store conn.old) (state S.Store conn.new)) }
    ensures found { HasCleanDisk (state S.Store conn.new) → IfOk result (λ rows. (c : Content)
        → Inside c (state S.Store conn.old)
        → rows.items ≡ take 1 (map shown_place (filter (has_name dir name.now) c.entries))) }
{
    let values = place_values(dir, name);
    conn.query_all(SELECT_NAMED, &values)
}

/// At most `limit` entries of a directory after this cookie, in rising order.
pub fn select_after<S: Alter>(
    conn: &mut Connection<S>,
    dir: u64,
    cookie: u64,
    limit: u64,
) -> Result<Vec<Row>, Error>
    requires dir { dir < 2 ^ 63 }
    requires cookie { cookie < 2 ^ 63 }
    requires limit { limit < 2 ^ 63 }
    ensures looks { OnOk result (LookedInside (state S.Store conn.old) (state S.Store conn.new)) }
    ensures fails { OnErr result (Stays (state S.Store conn.old) (state S.Store conn.new)) }
    ensures found { HasCleanDisk (state S.Store conn.new) → IfOk result (λ rows. (c : Content)
        → Inside c (state S.Store conn.old)
        → rows.items ≡ take limit (map shown_entry (filter (stands_after dir cookie) c.entries))) }
{
    let values = triple(dir, cookie, limit);
    conn.query_all(SELECT_AFTER, &values)
}

// The same entries, each after the columns of the node that it leads to, in tables of this layout.
fn children_in<S: Alter>(
    conn: &mut Connection<S>,
    layout: Layout,
    values: &[ValueRef<'_>],
) -> Result<Vec<Row>, Error>
    ensures made { (dir cookie limit : ℕ)
        → bound values.now ≡ Int (pos dir) ∷ Int (pos cookie) ∷ Int (pos limit) ∷ []
        → Takes (HoldsIn layout) (HoldsIn layout) (state S.Store conn.old) (state S.Store conn.new)
        result }
    ensures found { (dir cookie limit : ℕ)
        → bound values.now ≡ Int (pos dir) ∷ Int (pos cookie) ∷ Int (pos limit) ∷ []
        → HasCleanDisk (state S.Store conn.new) → IfOk result (λ rows. (c : Content)
        → InsideAs (HoldsIn layout c) (state S.Store conn.old)
        → rows.items ≡ take limit (map (shown_child c) (filter (stands_after dir cookie)
        c.entries))) }
{
    match layout {
        Layout::Second => conn.query_all(CHILDREN, values),
        Layout::Third => conn.query_all(CHILDREN_THIRD, values),
    }
}

/// The same entries, each after the columns of the node that it leads to.
pub fn select_children<S: Alter>(
    conn: &mut Connection<S>,
    dir: u64,
    cookie: u64,
    limit: u64,
) -> Result<Vec<Row>, Error>
    requires dir { dir < 2 ^ 63 }
    requires cookie { cookie < 2 ^ 63 }
    requires limit { limit < 2 ^ 63 }
    ensures looks { OnOk result (LookedInside (state S.Store conn.old) (state S.Store conn.new)) }
    ensures fails { OnErr result (Stays (state S.Store conn.old) (state S.Store conn.new)) }
    ensures found { HasCleanDisk (state S.Store conn.new) → IfOk result (λ rows. (c : Content)
        → Inside c (state S.Store conn.old)
        → rows.items ≡ take limit (map (shown_child c) (filter (stands_after dir cookie)
        c.entries))) }
{
    let values = triple(dir, cookie, limit);
    let layout = layout_of(conn);
    children_in(conn, layout, &values)
}
