// The numbers that are there, beside the counters of `meta`: a counter at or below one of them would
// give it out again.
ghost use Rattle.std.specs.Prelude.{◌≡◌, ◌≢◌, ◌≤◌, ◌<◌, ◌^◌, [], ⊤, IfOk, IfErr, OnOk};
ghost use Rattle.sqlite.specs.State.{HasCleanDisk};
ghost use Rattle.sqlite.specs.Held.{state};
ghost use Rattle.fuse_store_tables.specs.Content.{Content, node_key, fh_of, cookie_of, value_at};
ghost use Rattle.fuse_store_tables.specs.Faults.{IsOutside, IsPlain};
ghost use Rattle.fuse_store_tables.specs.Opening.{AllBelow, AreAbove, LotsAreBelow};
ghost use Rattle.fuse_store_tables.specs.Opening.{HasFirstMeta, HasSecondMeta, IsLaid, profile_in};
ghost use Rattle.fuse_store_tables.specs.Moves.{InsideAs};
ghost use Rattle.fuse_store_tables.specs.Saying.{ShowsMore};
ghost use Rattle.fuse_init.specs.declared.profile.Profile.TheVariants.{Everyday};
ghost use Rattle.fuse_store_tables.specs.inner.Checking.{ChecksIf, IsMetaIn};

use crate::columns::number_at;
use crate::counters::{NEXT_COOKIE, NEXT_FH, NEXT_LOT, NEXT_NODE};
use crate::meta::{check_first_meta, check_second_meta};
use crate::profile::profile_by;
use crate::values::number;
use fuse_init::Profile;
use fuse_keeper::StoreFault;
use sqlite::{Alter, Connection, Row};

const NODES_FROM: &str = "SELECT node FROM nodes WHERE node >= ?1 ORDER BY node LIMIT 1";

const HANDLES_FROM: &str = "SELECT fh FROM handles WHERE fh >= ?1 ORDER BY fh LIMIT 1";

const ENTRIES_FROM: &str = "SELECT cookie FROM entries WHERE cookie >= ?1 ORDER BY cookie LIMIT 1";

const LOTS_FROM: &str = "SELECT lot FROM lots WHERE lot >= ?1 ORDER BY lot LIMIT 1";

/// The value of this key in the rows of `meta`.
pub(crate) fn value_in(meta: &[Row], key: u64) -> Result<u64, StoreFault>
    requires { 1 ≤ key }
    ensures value { IfOk result (λ n. (c : Content) → IsMetaIn meta.now key c
        → n ≡ value_at key c) }
    ensures small { IfOk result (λ n. n < 2 ^ 63) }
    ensures fault { IfErr result (λ f. (c : Content) → IsMetaIn meta.now key c → IsOutside f) }
    ensures plain { IfErr result IsPlain }
{
    let at = (key - 1) as usize;
    if at >= meta.len() {
        return Err(StoreFault::Damaged);
    }
    number_at(&meta[at], 1)
}

// Tests that there are no rows.
fn check_none(rows: &[Row]) -> Result<(), StoreFault>
    ensures none { OnOk result (rows.now ≡ []) }
    ensures some { IfErr result (λ _. rows.now ≢ []) }
    ensures plain { IfErr result IsPlain }
{
    if rows.is_empty() {
        Ok(())
    } else {
        Err(StoreFault::Damaged)
    }
}

// Tests that the nodes are below the next one.
fn check_nodes<S: Alter>(conn: &mut Connection<S>, meta: &[Row]) -> Result<(), StoreFault>
    ensures { ChecksIf (IsMetaIn meta.now 2) (λ c. AllBelow node_key (value_at 2 c) c.nodes)
        (state S.Store conn.old) (state S.Store conn.new) result }
{
    let next = value_in(meta, NEXT_NODE)?;
    let values = number(next);
    let rows = conn.query_all(NODES_FROM, &values)?;
    check_none(rows.as_slice())
}

// Tests that the handles are below the next one.
fn check_handles<S: Alter>(conn: &mut Connection<S>, meta: &[Row]) -> Result<(), StoreFault>
    ensures { ChecksIf (IsMetaIn meta.now 3) (λ c. AllBelow fh_of (value_at 3 c) c.handles)
        (state S.Store conn.old) (state S.Store conn.new) result }
{
    let next = value_in(meta, NEXT_FH)?;
    let values = number(next);
    let rows = conn.query_all(HANDLES_FROM, &values)?;
    check_none(rows.as_slice())
}

// Tests that the cookies are below the next one.
fn check_entries<S: Alter>(conn: &mut Connection<S>, meta: &[Row]) -> Result<(), StoreFault>
    ensures { ChecksIf (IsMetaIn meta.now 4) (λ c. AllBelow cookie_of (value_at 4 c) c.entries)
        (state S.Store conn.old) (state S.Store conn.new) result }
{
    let next = value_in(meta, NEXT_COOKIE)?;
    let values = number(next);
    let rows = conn.query_all(ENTRIES_FROM, &values)?;
    check_none(rows.as_slice())
}

// Tests that the lots are below the next one.
fn check_lots<S: Alter>(conn: &mut Connection<S>, meta: &[Row]) -> Result<(), StoreFault>
    ensures { ChecksIf (IsMetaIn meta.now 11) LotsAreBelow (state S.Store conn.old)
        (state S.Store conn.new) result }
{
    let next = value_in(meta, NEXT_LOT)?;
    let values = number(next);
    let rows = conn.query_all(LOTS_FROM, &values)?;
    check_none(rows.as_slice())
}

// Tests the counters that all versions have.
fn check_numbers<S: Alter>(conn: &mut Connection<S>, meta: &[Row]) -> Result<(), StoreFault>
    ensures { ChecksIf (IsMetaIn meta.now 4) AreAbove (state S.Store conn.old)
        (state S.Store conn.new) result }
{
    check_nodes(conn, meta)?;
    check_handles(conn, meta)?;
    check_entries(conn, meta)
}

/// Tests `meta` of version 1, and that its counters are above all numbers that are there.
pub(crate) fn check_first<S: Alter>(conn: &mut Connection<S>) -> Result<(), StoreFault>
    ensures { ChecksIf (λ _. ⊤) HasFirstMeta (state S.Store conn.old) (state S.Store conn.new)
        result }
{
    let meta = check_first_meta(conn)?;
    check_numbers(conn, meta.as_slice())
}

/// The same of version 2 or 3. The profile is the store's.
pub(crate) fn check_second<S: Alter>(conn: &mut Connection<S>) -> Result<Profile, StoreFault>
    ensures checks { ChecksIf (λ _. ⊤) HasSecondMeta (state S.Store conn.old)
        (state S.Store conn.new) result }
    ensures profile { HasCleanDisk (state S.Store conn.new) → IfOk result (λ p. (c : Content)
        → InsideAs (IsLaid c) (state S.Store conn.old) → p ≡ profile_in c) }
    ensures more { HasCleanDisk (state S.Store conn.new)
        → IfOk result (λ p. p ≡ Everyday → ShowsMore (state S.Store conn.old).now) }
{
    let meta = check_second_meta(conn)?;
    check_numbers(conn, meta.as_slice())?;
    check_lots(conn, meta.as_slice())?;
    Ok(profile_by(meta.len()))
}
