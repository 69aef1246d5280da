// The table `meta` of any version, as the opening of a store reads it.
ghost use Rattle.std.specs.Prelude.{◌≡◌, ◌≤◌, ◌∷◌, [], ℕ, ⊤, List, map, pos, IfOk, IfErr, OnOk};
ghost use Rattle.std.specs.Int.{w64, cast_signed};
ghost use Rattle.std.specs.Option.{option_to_list};
ghost use Rattle.sqlite.specs.State.{HasCleanDisk};
ghost use Rattle.sqlite.specs.Held.{state};
ghost use Rattle.sqlite.specs.Effect.{Database};
ghost use Rattle.sqlite.specs.Order.{column};
ghost use Rattle.sqlite.specs.declared.types.Value.TheVariants.{Int};
ghost use Rattle.fuse_init.specs.declared.profile.Profile.TheVariants.{Plain};
ghost use Rattle.fuse_keeper.specs.declared.fault.StoreFault.TheVariants.{Damaged};
ghost use Rattle.fuse_store_tables.specs.Content.{Content, Counter, shown_counter, counter_key, at_by};
ghost use Rattle.fuse_store_tables.specs.Content.{value_at};
ghost use Rattle.fuse_store_tables.specs.Faults.{IsOutside, IsPlain};
ghost use Rattle.fuse_store_tables.specs.Saying.{ShowsVersion, HasFirst, IsOwn, ReportsVersion};
ghost use Rattle.fuse_store_tables.specs.Saying.{Says, Shows, meta_text};
ghost use Rattle.fuse_store_tables.specs.Moves.{InsideAs, Takes};
ghost use Rattle.fuse_store_tables.specs.inner.Performing.{IsSure, OnlyReads};
ghost use Rattle.fuse_store_tables.specs.Opening.{IsStored, IsLaid, IsMetaFrom, IsMeta};
ghost use Rattle.fuse_store_tables.specs.Opening.{greatest_value};
ghost use Rattle.fuse_store_tables.specs.Opening.{MetaOf, profile_in};
ghost use Rattle.fuse_store_tables.specs.inner.Checking.{ChecksIf};
ghost use Rattle.fuse_store_tables.specs.inner.Columns.{shown_meta};
ghost use Rattle.fuse_store_tables.specs.inner.Performing.{StaysWithin};

use crate::columns::{misread, number_at};
use crate::profile::{check_profile, node_limit};
use crate::schema::layout_of;
use fuse_init::Profile;
use fuse_keeper::StoreFault;
use sqlite::{Alter, Connection, Error, Row};

const SELECT_VERSION: &str = "SELECT v FROM meta WHERE k = 1";

const SELECT_META: &str = "SELECT k, v FROM meta ORDER BY k";

// The version: one row or none.
fn select_version<S: Alter>(conn: &mut Connection<S>) -> Result<Vec<Row>, Error>
    ensures unchanged { Takes IsStored IsStored (state S.Store conn.old) (state S.Store conn.new)
        result }
    ensures found { HasCleanDisk (state S.Store conn.new) → IfOk result (λ rows. (c : Content)
        → InsideAs (IsStored c) (state S.Store conn.old)
        → rows.items ≡ map shown_counter (option_to_list (at_by counter_key 1 c.counters))) }
    ensures reports { HasCleanDisk (state S.Store conn.new)
        → IfOk result (λ rows. ShowsVersion (state S.Store conn.old).now rows.items) }
    ensures laid { Takes IsLaid IsLaid (state S.Store conn.old) (state S.Store conn.new) result }
    ensures shows { HasCleanDisk (state S.Store conn.new) → IfOk result (λ rows. (c : Content)
        → InsideAs (IsLaid c) (state S.Store conn.old)
        → rows.items ≡ map shown_counter (option_to_list (at_by counter_key 1 c.counters))) }
    ensures reads { OnlyReads (state S.Store conn.old) (state S.Store conn.new) result }
    ensures within { StaysWithin (state S.Store conn.old) (state S.Store conn.new) result }
{
    conn.query_all(SELECT_VERSION, &[])
}

// All rows of `meta`, in the order of their keys.
fn select_meta<S: Alter>(conn: &mut Connection<S>) -> Result<Vec<Row>, Error>
    ensures laid { Takes IsLaid IsLaid (state S.Store conn.old) (state S.Store conn.new) result }
    ensures shows { HasCleanDisk (state S.Store conn.new) → IfOk result (λ rows. (c : Content)
        → InsideAs (IsLaid c) (state S.Store conn.old) → rows.items ≡ map shown_meta c.counters) }
    ensures tells { HasCleanDisk (state S.Store conn.new)
        → IfOk result (λ rows. Shows meta_text (state S.Store conn.old).now rows.items) }
    ensures reads { OnlyReads (state S.Store conn.old) (state S.Store conn.new) result }
    ensures within { StaysWithin (state S.Store conn.old) (state S.Store conn.new) result }
{
    conn.query_all(SELECT_META, &[])
}

// The version in a row. One below 0 is the number with the same bits.
fn version_in(row: &Row) -> Result<u64, StoreFault>
    ensures bits { IfOk result (λ n. column row.now 0 ≡ Int (cast_signed w64 n)) }
    ensures value { IfOk result (λ n. (v : ℕ) → column row.now 0 ≡ Int (pos v) → n ≡ v) }
    ensures fault { IfErr result (λ f. (n : ℕ) → row.now ≡ Int (pos n) ∷ [] → IsOutside f) }
    ensures plain { IfErr result IsPlain }
    ensures odd { IfErr result (λ f. f ≡ Damaged → IsOwn (column row.now 0)) }
{
    match row.get::<i64>(0) {
        Ok(value) => Ok(value.cast_unsigned()),
        Err(e) => Err(misread(e)),
    }
}

// The version in the row that was found.
fn read_version(rows: &[Row]) -> Result<u64, StoreFault>
    ensures value { IfOk result (λ n. (c : Content)
        → rows.now ≡ map shown_counter (option_to_list (at_by counter_key 1 c.counters))
        → n ≡ value_at 1 c) }
    ensures fault { IfErr result (λ f. (x : Counter) → rows.now ≡ shown_counter x ∷ []
        → IsOutside f) }
    ensures first { IfOk result (λ n. HasFirst n rows.now) }
    ensures says { IfErr result (λ f. (d : Database) → ShowsVersion d rows.now → Says d f) }
{
    match rows.first() {
        None => Err(StoreFault::NotAStore),
        Some(row) => version_in(row),
    }
}

/// The version.
pub(crate) fn find_version<S: Alter>(conn: &mut Connection<S>) -> Result<u64, StoreFault>
    ensures unchanged { Takes IsStored IsStored (state S.Store conn.old) (state S.Store conn.new)
        result }
    ensures value { HasCleanDisk (state S.Store conn.new) → IfOk result (λ n. (c : Content)
        → InsideAs (IsStored c) (state S.Store conn.old) → n ≡ value_at 1 c) }
    ensures fault { IsSure IsStored (state S.Store conn.old) (state S.Store conn.new) result }
    ensures reports { HasCleanDisk (state S.Store conn.new)
        → IfOk result (ReportsVersion (state S.Store conn.old).now) }
    ensures says { HasCleanDisk (state S.Store conn.new)
        → IfErr result (Says (state S.Store conn.old).now) }
    ensures laid { Takes IsLaid IsLaid (state S.Store conn.old) (state S.Store conn.new) result }
    ensures shows { HasCleanDisk (state S.Store conn.new) → IfOk result (λ n. (c : Content)
        → InsideAs (IsLaid c) (state S.Store conn.old) → n ≡ value_at 1 c) }
    ensures reads { OnlyReads (state S.Store conn.old) (state S.Store conn.new) result }
    ensures within { StaysWithin (state S.Store conn.old) (state S.Store conn.new) result }
{
    let rows = select_version(conn)?;
    read_version(rows.as_slice())
}

// The greatest value of the row of `meta` with this key.
fn most(profile: Profile, key: u64) -> u64
    ensures { result ≡ greatest_value profile key }
{
    if key < 5 {
        1 << 62
    } else if key < 6 {
        node_limit(profile)
    } else if key < 7 {
        65536
    } else if key < 8 {
        1
    } else if key < 10 {
        4294967295
    } else if key < 11 {
        9223372036854775807
    } else if key < 12 {
        1 << 62
    } else if key < 15 {
        (1 << 51) - 1
    } else {
        9223372036854775807
    }
}

// Tests that the row has this key, and a value in range.
fn check_row(row: &Row, profile: Profile, key: u64) -> Result<(), StoreFault>
    ensures plain { IfErr result IsPlain }
    ensures fault { IfErr result (λ f. (c : Counter) → row.now ≡ shown_meta c → c.key ≡ key
        → c.value ≤ greatest_value profile c.key → IsOutside f) }
    ensures whole { OnOk result ((c : Counter) → row.now ≡ shown_meta c
        → (c.key ≡ key) × (c.value ≤ greatest_value profile c.key)) }
{
    let found = number_at(row, 0)?;
    let value = number_at(row, 1)?;
    if found != key {
        return Err(StoreFault::Damaged);
    }
    if value > most(profile, key) {
        return Err(StoreFault::Damaged);
    }
    Ok(())
}

/// Tests that the keys of the rows count from 1 to `count`, and that the values are in range.
pub(crate) fn check_rows(rows: &[Row], profile: Profile, count: usize) -> Result<(), StoreFault>
    ensures plain { IfErr result IsPlain }
    ensures fault { IfErr result (λ f. (cs : List Counter) → rows.now ≡ map shown_meta cs
        → IsMetaFrom profile 1 count cs → IsOutside f) }
    ensures whole { OnOk result ((cs : List Counter) → rows.now ≡ map shown_meta cs
        → IsMetaFrom profile 1 count cs) }
{
    if rows.len() != count {
        return Err(StoreFault::Damaged);
    }
    let mut at = 0;
    'rows: while at < rows.len() {
        match check_row(&rows[at], profile, at as u64 + 1) {
            Ok(()) => {}
            Err(fault) => return Err(fault),
        }
        at += 1;
    }
    Ok(())
}

/// Tests the keys and the values of `meta` of version 1, and returns its rows.
pub(crate) fn check_first_meta<S: Alter>(conn: &mut Connection<S>) -> Result<Vec<Row>, StoreFault>
    ensures checks { ChecksIf (λ _. ⊤) (IsMeta Plain 10) (state S.Store conn.old)
        (state S.Store conn.new) result }
    ensures shows { HasCleanDisk (state S.Store conn.new) → IfOk result (λ rows. (c : Content)
        → InsideAs (IsLaid c) (state S.Store conn.old) → rows.items ≡ map shown_meta c.counters) }
{
    let rows = select_meta(conn)?;
    check_rows(rows.as_slice(), Profile::Plain, 10)?;
    Ok(rows)
}

/// The same of version 2 or 3, of either profile.
pub(crate) fn check_second_meta<S: Alter>(conn: &mut Connection<S>) -> Result<Vec<Row>, StoreFault>
    ensures checks { ChecksIf (λ _. ⊤) (λ c. MetaOf (profile_in c) c) (state S.Store conn.old)
        (state S.Store conn.new) result }
    ensures shows { HasCleanDisk (state S.Store conn.new) → IfOk result (λ rows. (c : Content)
        → InsideAs (IsLaid c) (state S.Store conn.old) → rows.items ≡ map shown_meta c.counters) }
    ensures tells { HasCleanDisk (state S.Store conn.new)
        → IfOk result (λ rows. Shows meta_text (state S.Store conn.old).now rows.items) }
{
    let layout = layout_of(conn);
    let rows = select_meta(conn)?;
    check_profile(rows.as_slice(), layout)?;
    Ok(rows)
}
