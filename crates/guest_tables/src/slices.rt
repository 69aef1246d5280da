// The pairs of a slice of keys, in their order.
ghost use Rattle.std.specs.Prelude.{◌≡◌, ◌<◌, ◌^◌, [], ◌∷◌, pos, map, take, true, false};
ghost use Rattle.std.specs.Prelude.{IfOk, OnOk};
ghost use Rattle.sqlite.specs.declared.types.Value.TheVariants.{Int, Blob};
ghost use Rattle.sqlite.specs.State.{HasCleanDisk};
ghost use Rattle.sqlite.specs.Held.{state};
ghost use Rattle.sqlite.specs.Values.{bound};
ghost use Rattle.guest_tables.specs.Content.{GuestContent};
ghost use Rattle.guest_tables.specs.Holding.{pairs_in};
ghost use Rattle.guest_tables.specs.Moves.{Inside, Makes};
ghost use Rattle.guest_tables.specs.inner.Slices.{slice_text, shown_pair, left_at, MovesOn};

use sqlite::types::{ToSql, ValueRef};
use sqlite::{Alter, Connection, Error, Row};
use std::alloc::AllocError;

/// What a scan has still to read: from one key on, and below another where there is a bound.
#[derive(Drop)]
pub(crate) struct Cursor {
    pub(crate) from: Vec<u8>,
    pub(crate) to: Vec<u8>,
    pub(crate) is_bounded: bool,
}

fn bounded_text(keys_alone: bool, downwards: bool) -> &'static str
    ensures { result.now ≡ slice_text keys_alone true downwards }
{
    match (keys_alone, downwards) {
        (false, false) => {
            "SELECT key, value FROM pairs WHERE key >= ?1 AND key < ?2 ORDER BY key LIMIT ?3"
        }
        (false, true) => {
            "SELECT key, value FROM pairs WHERE key >= ?1 AND key < ?2 ORDER BY key DESC LIMIT ?3"
        }
        (true, false) => "SELECT key FROM pairs WHERE key >= ?1 AND key < ?2 ORDER BY key LIMIT ?3",
        (true, true) => {
            "SELECT key FROM pairs WHERE key >= ?1 AND key < ?2 ORDER BY key DESC LIMIT ?3"
        }
    }
}

fn unbounded_text(keys_alone: bool, downwards: bool) -> &'static str
    ensures { result.now ≡ slice_text keys_alone false downwards }
{
    match (keys_alone, downwards) {
        (false, false) => "SELECT key, value FROM pairs WHERE key >= ?1 ORDER BY key LIMIT ?3",
        (false, true) => "SELECT key, value FROM pairs WHERE key >= ?1 ORDER BY key DESC LIMIT ?3",
        (true, false) => "SELECT key FROM pairs WHERE key >= ?1 ORDER BY key LIMIT ?3",
        (true, true) => "SELECT key FROM pairs WHERE key >= ?1 ORDER BY key DESC LIMIT ?3",
    }
}

// The statement of a slice. Keys alone are read off the index.
fn slice_text(keys_alone: bool, is_bounded: bool, downwards: bool) -> &'static str
    ensures { result.now ≡ slice_text keys_alone is_bounded downwards }
{
    if is_bounded {
        bounded_text(keys_alone, downwards)
    } else {
        unbounded_text(keys_alone, downwards)
    }
}

fn slice_values<'a>(from: &'a [u8], to: &'a [u8], limit: u64) -> [ValueRef<'a>; 3]
    requires { limit < 2 ^ 63 }
    ensures { bound result ≡ Blob from.now ∷ Blob to.now ∷ Int (pos limit) ∷ [] }
{
    [from.to_sql(), to.to_sql(), (limit as i64).to_sql()]
}

/// The first pairs that are still to be read: at most `limit` of them.
pub(crate) fn select_slice<S: Alter>(
    conn: &mut Connection<S>,
    keys_alone: bool,
    downwards: bool,
    at: &Cursor,
    limit: u64,
) -> Result<Vec<Row>, Error>
    requires { limit < 2 ^ 63 }
    ensures looks { Makes (λ c. c) (state S.Store conn.old) (state S.Store conn.new) result }
    ensures found { HasCleanDisk (state S.Store conn.new) → IfOk result (λ rows.
        (c : GuestContent) → Inside c (state S.Store conn.old)
        → rows.items ≡ map (shown_pair keys_alone)
        (take limit (left_at downwards at.now (pairs_in c)))) }
{
    let text = slice_text(keys_alone, at.is_bounded, downwards);
    let values = slice_values(at.from.as_slice(), at.to.as_slice(), limit);
    conn.query_all(text, &values)
}

/// Goes on after this key.
pub(crate) fn move_on(at: &mut Cursor, last: &[u8], downwards: bool) -> Result<(), AllocError>
    ensures { OnOk result (MovesOn downwards last.now at.old at.new) }
{
    if downwards {
        at.to.clear();
        at.to.extend_from_slice(last)?;
        at.is_bounded = true;
    } else {
        at.from.clear();
        at.from.extend_from_slice(last)?;
        at.from.push(0)?;
    }
    Ok(())
}
