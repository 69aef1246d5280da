// The table `meta`, as the opening of a store reads it.
ghost use Rattle.std.specs.Prelude.{◌≡◌, ◌≤◌, ◌<◌, ◌^◌, ◌∷◌, [], ℕ, ℤ, ⊤, List, map, IfOk, IfErr, OnOk};
ghost use Rattle.std.specs.Int.{w64, cast_signed};
ghost use Rattle.std.specs.List.{AllByRecursion};
ghost use Rattle.std.specs.Option.{option_to_list};
ghost use Rattle.sqlite.specs.State.{HasCleanDisk};
ghost use Rattle.sqlite.specs.Held.{state};
ghost use Rattle.sqlite.specs.Effect.{Database};
ghost use Rattle.sqlite.specs.Order.{column};
ghost use Rattle.sqlite.specs.declared.types.Value.TheVariants.{Int};
ghost use Rattle.fuse_keeper.specs.declared.fault.StoreFault.TheVariants.{Damaged};
ghost use Rattle.fuse_store_tables.specs.Content.{Counter, counter_key, at_by};
ghost use Rattle.fuse_store_tables.specs.Faults.{IsOutside, IsPlain};
ghost use Rattle.fuse_store_tables.specs.Moves.{InsideAs, Takes};
ghost use Rattle.fuse_store_tables.specs.Saying.{HasFirst};
ghost use Rattle.fuse_store_tables.specs.inner.Performing.{OnlyReads, StaysWithin};
ghost use Rattle.guest_tables.specs.Content.{GuestContent, shown_counter, value_at, version_key};
ghost use Rattle.guest_tables.specs.Content.{next_lot_key};
ghost use Rattle.guest_tables.specs.Opening.{IsLaid, IsMeta, IsMetaOf, meta_keys, greatest_value};
ghost use Rattle.guest_tables.specs.Saying.{ShowsVersion, IsOwn, ReportsVersion, Says};
ghost use Rattle.guest_tables.specs.inner.Checking.{ChecksIf, IsMetaIn};
ghost use Rattle.guest_tables.specs.inner.Columns.{shown_meta};

use crate::columns::{bits_at, misread};
use crate::counters::{AGREED, FLAGS, MAX_READAHEAD, MINOR, NEXT_LOT, NUMBER, PLEDGED, VERSION};
use fuse_keeper::StoreFault;
use fuse_store_tables::number_at;
use sqlite::{Alter, Connection, Error, Row};

const SELECT_VERSION: &str = "SELECT v FROM meta WHERE k = 16";

const SELECT_META: &str = "SELECT k, v FROM meta ORDER BY k";

// The version: one row or none.
fn select_version<S: Alter>(conn: &mut Connection<S>) -> Result<Vec<Row>, Error>
    ensures laid { Takes IsLaid IsLaid (state S.Store conn.old) (state S.Store conn.new) result }
    ensures reports { HasCleanDisk (state S.Store conn.new)
        → IfOk result (λ rows. ShowsVersion (state S.Store conn.old).now rows.items) }
    ensures shows { HasCleanDisk (state S.Store conn.new) → IfOk result (λ rows. (c : GuestContent)
        → InsideAs (IsLaid c) (state S.Store conn.old)
        → rows.items ≡ map shown_counter (option_to_list (at_by counter_key version_key c.counters))) }
    ensures reads { OnlyReads (state S.Store conn.old) (state S.Store conn.new) result }
    ensures within { StaysWithin (state S.Store conn.old) (state S.Store conn.new) result }
{
    conn.query_all(SELECT_VERSION, &[])
}

// All rows of `meta`, in the order of their keys.
fn select_meta<S: Alter>(conn: &mut Connection<S>) -> Result<Vec<Row>, Error>
    ensures laid { Takes IsLaid IsLaid (state S.Store conn.old) (state S.Store conn.new) result }
    ensures shows { HasCleanDisk (state S.Store conn.new) → IfOk result (λ rows. (c : GuestContent)
        → InsideAs (IsLaid c) (state S.Store conn.old) → rows.items ≡ map shown_meta c.counters) }
    ensures reads { OnlyReads (state S.Store conn.old) (state S.Store conn.new) result }
    ensures within { StaysWithin (state S.Store conn.old) (state S.Store conn.new) result }
{
    conn.query_all(SELECT_META, &[])
}

// The version in a row. One below 0 is the number with the same bits.
fn version_in(row: &Row) -> Result<u64, StoreFault>
    ensures bits { IfOk result (λ n. column row.now 0 ≡ Int (cast_signed w64 n)) }
    ensures value { IfOk result (λ n. (m : ℕ) → m < 2 ^ 64
        → column row.now 0 ≡ Int (cast_signed w64 m) → n ≡ m) }
    ensures fault { IfErr result (λ f. (n : ℤ) → row.now ≡ Int n ∷ [] → IsOutside f) }
    ensures plain { IfErr result IsPlain }
    ensures odd { IfErr result (λ f. f ≡ Damaged → IsOwn (column row.now 0)) }
{
    match row.get::<i64>(0) {
        Ok(value) => Ok(value.cast_unsigned()),
        Err(e) => Err(misread(e)),
    }
}

// The version in the row that was found.
fn read_version(rows: &[Row]) -> Result<u64, StoreFault>
    ensures value { IfOk result (λ n. (x : Counter) → x.value < 2 ^ 64
        → rows.now ≡ shown_counter x ∷ [] → n ≡ x.value) }
    ensures some { IfOk result (λ n. rows.now ≡ [] → ⊥) }
    ensures fault { IfErr result (λ f. (x : Counter) → rows.now ≡ shown_counter x ∷ []
        → IsOutside f) }
    ensures first { IfOk result (λ n. HasFirst n rows.now) }
    ensures says { IfErr result (λ f. (d : Database) → ShowsVersion d rows.now → Says d f) }
{
    match rows.first() {
        None => Err(StoreFault::NotAStore),
        Some(row) => version_in(row),
    }
}

/// The version.
pub(crate) fn find_version<S: Alter>(conn: &mut Connection<S>) -> Result<u64, StoreFault>
    ensures laid { Takes IsLaid IsLaid (state S.Store conn.old) (state S.Store conn.new) result }
    ensures value { HasCleanDisk (state S.Store conn.new) → IfOk result (λ n. (c : GuestContent)
        → InsideAs (IsLaid c) (state S.Store conn.old) → n ≡ value_at version_key c) }
    ensures fault { HasCleanDisk (state S.Store conn.new) → IfErr result (λ f. (c : GuestContent)
        → InsideAs (IsLaid c) (state S.Store conn.old) → IsMeta c → IsOutside f) }
    ensures reports { HasCleanDisk (state S.Store conn.new)
        → IfOk result (ReportsVersion (state S.Store conn.old).now) }
    ensures says { HasCleanDisk (state S.Store conn.new)
        → IfErr result (Says (state S.Store conn.old).now) }
    ensures reads { OnlyReads (state S.Store conn.old) (state S.Store conn.new) result }
    ensures within { StaysWithin (state S.Store conn.old) (state S.Store conn.new) result }
{
    let rows = select_version(conn)?;
    read_version(rows.as_slice())
}

// The greatest value of the row of `meta` with this key.
fn most(key: u64) -> u64
    ensures { result ≡ greatest_value key }
{
    if key < 8 {
        1
    } else if key < 10 {
        4294967295
    } else if key < 11 {
        u64::MAX
    } else if key < 12 {
        1 << 62
    } else if key < 16 {
        9223372036854775807
    } else {
        u64::MAX
    }
}

// Tests that the row has this key, and a value in range.
fn check_row(row: &Row, key: u64) -> Result<(), StoreFault>
    ensures plain { IfErr result IsPlain }
    ensures fault { IfErr result (λ f. (c : Counter) → row.now ≡ shown_meta c → c.value < 2 ^ 64
        → c.key ≡ key → c.value ≤ greatest_value key → IsOutside f) }
    ensures whole { OnOk result ((c : Counter) → row.now ≡ shown_meta c → c.value < 2 ^ 64
        → (c.key ≡ key) × (c.value ≤ greatest_value key)) }
{
    let found = number_at(row, 0)?;
    let value = bits_at(row, 1)?;
    if found != key {
        return Err(StoreFault::Damaged);
    }
    if value > most(key) {
        return Err(StoreFault::Damaged);
    }
    Ok(())
}

// Tests that these are the keys of the rows, and that the values are in range.
fn check_rows(rows: &[Row], keys: &[u64]) -> Result<(), StoreFault>
    ensures plain { IfErr result IsPlain }
    ensures fault { IfErr result (λ f. (cs : List Counter) → rows.now ≡ map shown_meta cs
        → IsMetaOf keys.now cs → IsOutside f) }
    ensures whole { OnOk result ((cs : List Counter) → rows.now ≡ map shown_meta cs
        → AllByRecursion (λ x. x.value < 2 ^ 64) cs → IsMetaOf keys.now cs) }
{
    if rows.len() != keys.len() {
        return Err(StoreFault::Damaged);
    }
    let mut at = 0;
    'rows: while at < rows.len() {
        match check_row(&rows[at], keys[at]) {
            Ok(()) => {}
            Err(fault) => return Err(fault),
        }
        at += 1;
    }
    Ok(())
}

// Tests the rows of `meta`.
fn check_meta_rows(rows: &[Row]) -> Result<(), StoreFault>
    ensures plain { IfErr result IsPlain }
    ensures fault { IfErr result (λ f. (cs : List Counter) → rows.now ≡ map shown_meta cs
        → IsMetaOf meta_keys cs → IsOutside f) }
    ensures whole { OnOk result ((cs : List Counter) → rows.now ≡ map shown_meta cs
        → AllByRecursion (λ x. x.value < 2 ^ 64) cs → IsMetaOf meta_keys cs) }
{
    let keys = [
        AGREED,
        MINOR,
        MAX_READAHEAD,
        FLAGS,
        NEXT_LOT,
        NUMBER,
        VERSION,
        PLEDGED,
    ];
    check_rows(rows, &keys)
}

/// Tests the keys and the values of `meta`, and returns its rows.
pub(crate) fn check_meta<S: Alter>(conn: &mut Connection<S>) -> Result<Vec<Row>, StoreFault>
    ensures checks { ChecksIf (λ _. ⊤) IsMeta (state S.Store conn.old) (state S.Store conn.new)
        result }
    ensures shows { HasCleanDisk (state S.Store conn.new) → IfOk result (λ rows. (c : GuestContent)
        → InsideAs (IsLaid c) (state S.Store conn.old) → rows.items ≡ map shown_meta c.counters) }
{
    let rows = select_meta(conn)?;
    check_meta_rows(rows.as_slice())?;
    Ok(rows)
}

/// The next lot in the rows of `meta`.
pub(crate) fn next_lot_in(meta: &[Row]) -> Result<u64, StoreFault>
    ensures value { IfOk result (λ n. (c : GuestContent) → IsMetaIn meta.now c
        → n ≡ value_at next_lot_key c) }
    ensures small { IfOk result (λ n. n < 2 ^ 63) }
    ensures fault { IfErr result (λ f. (c : GuestContent) → IsMetaIn meta.now c → IsOutside f) }
    ensures plain { IfErr result IsPlain }
{
    if meta.len() < 5 {
        return Err(StoreFault::Damaged);
    }
    number_at(&meta[4], 1)
}
