// The table of pairs.
ghost use Rattle.std.specs.Prelude.{◌≡◌, [], ◌∷◌, map, option_map, IfOk, IfErr, OnOk, OnErr};
ghost use Rattle.std.specs.Prelude.{Option};
ghost use Rattle.std.specs.Option.{is_some, option_to_list};
ghost use Rattle.sqlite.specs.declared.types.Value.TheVariants.{Blob};
ghost use Rattle.sqlite.specs.State.{HasCleanDisk};
ghost use Rattle.sqlite.specs.Held.{state};
ghost use Rattle.sqlite.specs.Values.{bound};
ghost use Rattle.fuse_guest.specs.Pairs.{value_for, put_pair, without_key, without_range};
ghost use Rattle.guest_frames.specs.Frames.{IsPair};
ghost use Rattle.fuse_store_tables.specs.Faults.{IsOutside, IsPlain};
ghost use Rattle.fuse_store_tables.specs.Moves.{Stays};
ghost use Rattle.guest_tables.specs.Rows.{PairRow, pair_at};
ghost use Rattle.guest_tables.specs.Content.{GuestContent, with_pair, set_pair, put_value};
ghost use Rattle.guest_tables.specs.Content.{without_pair, without_pairs_within};
ghost use Rattle.guest_tables.specs.Holding.{pairs_in};
ghost use Rattle.guest_tables.specs.Moves.{Inside, Makes, LookedInside};
ghost use Rattle.guest_tables.specs.PairSteps.{Changes, pair_with};
ghost use Rattle.guest_tables.specs.inner.Slices.{shown_value};

use crate::statements::{run, run_any};
use fuse_keeper::StoreFault;
use fuse_store_tables::bytes_at;
use sqlite::types::{ToSql, ValueRef};
use sqlite::{Alter, Connection, Error, Row};

const INSERT: &str = "INSERT INTO pairs (key, value, place, len, sum) VALUES (?1, ?2, 0, 0, 0)";

const UPDATE: &str = "UPDATE pairs SET value = ?2, place = 0, len = 0, sum = 0 WHERE key = ?1";

const DELETE: &str = "DELETE FROM pairs WHERE key = ?1";

// Of the index no key outside is read.
const CLEAR: &str = "DELETE FROM pairs WHERE key >= ?1 AND key < ?2";

const CLEAR_FROM: &str = "DELETE FROM pairs WHERE key >= ?1";

const VALUE: &str = "SELECT value FROM pairs WHERE key = ?1";

// One parameter of bytes.
fn one_value(bytes: &[u8]) -> [ValueRef<'_>; 1]
    ensures { bound result ≡ Blob bytes.now ∷ [] }
{
    [bytes.to_sql()]
}

// Two parameters of bytes.
fn two_values<'a>(first: &'a [u8], second: &'a [u8]) -> [ValueRef<'a>; 2]
    ensures { bound result ≡ Blob first.now ∷ Blob second.now ∷ [] }
{
    [first.to_sql(), second.to_sql()]
}

// Adds a pair of a new key.
fn insert_pair<S: Alter>(conn: &mut Connection<S>, key: &[u8], value: &[u8]) -> Result<(), Error>
    ensures { Makes (with_pair key.now value.now) (state S.Store conn.old) (state S.Store conn.new)
        result }
{
    let values = two_values(key, value);
    run(conn, INSERT, &values)
}

// Changes the value of the pair of this key, and says whether there is one.
fn update_pair<S: Alter>(conn: &mut Connection<S>, key: &[u8], value: &[u8]) -> Result<bool, Error>
    ensures made { Makes (set_pair key.now value.now) (state S.Store conn.old)
        (state S.Store conn.new) result }
    ensures found { HasCleanDisk (state S.Store conn.new) → IfOk result (λ found.
        (c : GuestContent) → Inside c (state S.Store conn.old)
        → found ≡ is_some (pair_at key.now c.pairs)) }
{
    let values = two_values(key, value);
    run_any(conn, UPDATE, &values)
}

// Puts a pair, in place of the one of its key or as a new one.
fn write_pair<S: Alter>(conn: &mut Connection<S>, key: &[u8], value: &[u8]) -> Result<(), Error>
    ensures { Makes (put_value key.now value.now) (state S.Store conn.old) (state S.Store conn.new)
        result }
{
    match update_pair(conn, key, value) {
        Ok(true) => Ok(()),
        Ok(false) => insert_pair(conn, key, value),
        Err(error) => Err(error),
    }
}

/// Puts a pair, in place of the one of its key or as a new one.
pub fn put_pair<S: Alter>(conn: &mut Connection<S>, key: &[u8], value: &[u8]) -> Result<(), Error>
    ensures made { Makes (put_value key.now value.now) (state S.Store conn.old)
        (state S.Store conn.new) result }
    // A pair within the limits leaves a store in order.
    ensures held { IsPair (pair_with key.now value.now) → Changes (put_pair (pair_with key.now
        value.now)) (state S.Store conn.old) (state S.Store conn.new) result }
{
    write_pair(conn, key, value)
}

// Removes the pair of this key, if there is one.
fn remove_pair<S: Alter>(conn: &mut Connection<S>, key: &[u8]) -> Result<(), Error>
    ensures { Makes (without_pair key.now) (state S.Store conn.old) (state S.Store conn.new) result }
{
    let values = one_value(key);
    run(conn, DELETE, &values)
}

/// Deletes the pair of this key, if there is one.
pub fn delete_pair<S: Alter>(conn: &mut Connection<S>, key: &[u8]) -> Result<(), Error>
    ensures made { Makes (without_pair key.now) (state S.Store conn.old) (state S.Store conn.new)
        result }
    ensures held { Changes (without_key key.now) (state S.Store conn.old) (state S.Store conn.new)
        result }
{
    remove_pair(conn, key)
}

// Removes the pairs of a range.
fn remove_range<S: Alter>(conn: &mut Connection<S>, from: &[u8], to: &[u8]) -> Result<(), Error>
    ensures { Makes (without_pairs_within from.now to.now) (state S.Store conn.old)
        (state S.Store conn.new) result }
{
    if to.is_empty() {
        let values = one_value(from);
        run(conn, CLEAR_FROM, &values)
    } else {
        let values = two_values(from, to);
        run(conn, CLEAR, &values)
    }
}

/// Deletes the pairs from one key on, below another; an empty `to` is no bound.
pub fn clear_pairs<S: Alter>(conn: &mut Connection<S>, from: &[u8], to: &[u8]) -> Result<(), Error>
    ensures made { Makes (without_pairs_within from.now to.now) (state S.Store conn.old)
        (state S.Store conn.new) result }
    ensures held { Changes (without_range from.now to.now) (state S.Store conn.old)
        (state S.Store conn.new) result }
{
    remove_range(conn, from, to)
}

// The values of this key: one row or none.
fn select_value<S: Alter>(conn: &mut Connection<S>, key: &[u8]) -> Result<Vec<Row>, Error>
    ensures looks { Makes (λ c. c) (state S.Store conn.old) (state S.Store conn.new) result }
    ensures found { HasCleanDisk (state S.Store conn.new) → IfOk result (λ rows.
        (c : GuestContent) → Inside c (state S.Store conn.old)
        → rows.items ≡ map shown_value (option_to_list (pair_at key.now c.pairs))) }
{
    let values = one_value(key);
    conn.query_all(VALUE, &values)
}

// The value in the only row, if there is one.
fn value_in(rows: &[Row]) -> Result<Option<Vec<u8>>, StoreFault>
    ensures value { IfOk result (λ v. (o : Option PairRow)
        → rows.now ≡ map shown_value (option_to_list o)
        → option_map (λ x. x.items) v ≡ option_map (λ p. p.value) o) }
    ensures fault { IfErr result (λ f. (o : Option PairRow)
        → rows.now ≡ map shown_value (option_to_list o) → IsOutside f) }
    ensures plain { IfErr result IsPlain }
{
    match rows.first() {
        None => Ok(None),
        Some(row) => match bytes_at(row, 0) {
            Ok(value) => Ok(Some(value)),
            Err(fault) => Err(fault),
        },
    }
}

/// The value of a key, if there is such a pair.
pub fn select_pair<S: Alter>(
    conn: &mut Connection<S>,
    key: &[u8],
) -> Result<Option<Vec<u8>>, StoreFault>
    ensures looks { OnOk result (LookedInside (state S.Store conn.old) (state S.Store conn.new)) }
    ensures fails { OnErr result (Stays (state S.Store conn.old) (state S.Store conn.new)) }
    ensures value { HasCleanDisk (state S.Store conn.new) → IfOk result (λ v. (c : GuestContent)
        → Inside c (state S.Store conn.old)
        → option_map (λ x. x.items) v ≡ value_for (pairs_in c) key.now) }
    ensures fault { HasCleanDisk (state S.Store conn.new) → IfErr result (λ f. (c : GuestContent)
        → Inside c (state S.Store conn.old) → IsOutside f) }
    ensures plain { IfErr result IsPlain }
{
    let rows = select_value(conn, key)?;
    value_in(rows.as_slice())
}
