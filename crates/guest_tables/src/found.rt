// Typed values of the tables: the next lot, the settings, and the answer of a record.
ghost use Rattle.std.specs.Prelude.{◌≡◌, ◌<◌, ◌^◌, map, length, List, Option, option_map};
ghost use Rattle.std.specs.Prelude.{IfOk, IfErr, IfSome, OnOk, OnErr};
ghost use Rattle.std.specs.Option.{option_to_list};
ghost use Rattle.sqlite.specs.State.{HasCleanDisk};
ghost use Rattle.sqlite.specs.Held.{state};
ghost use Rattle.fuse_answer.specs.Said.{FitsAnswer};
ghost use Rattle.fuse_store_tables.specs.Content.{Counter, Kept, kept_key, at_by, shown_kept};
ghost use Rattle.fuse_store_tables.specs.Faults.{IsOutside, IsPlain};
ghost use Rattle.fuse_store_tables.specs.Moves.{InsideAs, RestsAs, Stays, StaysOpen, OnlyReads};
ghost use Rattle.guest_tables.specs.Content.{GuestContent, shown_counter};
ghost use Rattle.guest_tables.specs.Holding.{GuestHolding, HeldFor, records_in, settings_in};
ghost use Rattle.guest_tables.specs.Moves.{LookedInside, Serves};
ghost use Rattle.guest_tables.specs.Opening.{IsMeta, IsRecord};
ghost use Rattle.guest_tables.specs.inner.Columns.{value_of};

use crate::columns::bits_at;
use crate::counters::select_counters;
use crate::lots::next_lot_of;
use crate::records::select_kept;
use fuse_answer::{Answer, MAX_BODY};
use fuse_init::Settings;
use fuse_keeper::StoreFault;
use fuse_store_tables::{bytes_at, small_at};
use fuse_wire::{ByteList, Errno, InitFlags};
use sqlite::{Alter, Connection, Row};

/// The number of the next lot.
pub fn find_next_lot<S: Alter>(conn: &mut Connection<S>) -> Result<u64, StoreFault>
    ensures looks { OnOk result (LookedInside (state S.Store conn.old) (state S.Store conn.new)) }
    ensures fails { OnErr result (Stays (state S.Store conn.old) (state S.Store conn.new)) }
    ensures value { HasCleanDisk (state S.Store conn.new) → IfOk result (λ n. (y : GuestHolding)
        → InsideAs (HeldFor y) (state S.Store conn.old) → n ≡ y.next_lot) }
    ensures fault { HasCleanDisk (state S.Store conn.new) → IfErr result (λ f. (y : GuestHolding)
        → InsideAs (HeldFor y) (state S.Store conn.old) → IsOutside f) }
    ensures plain { IfErr result IsPlain }
{
    let rows = select_counters(conn)?;
    next_lot_of(rows.as_slice())
}

// The value of the counter in this row.
fn value_at(rows: &[Row], at: usize) -> Result<u64, StoreFault>
    ensures value { IfOk result (λ n. (cs : List Counter) → rows.now ≡ map shown_counter cs
        → value_of cs at < 2 ^ 64 → n ≡ value_of cs at) }
    ensures fault { IfErr result (λ f. (cs : List Counter) → rows.now ≡ map shown_counter cs
        → at < length cs → IsOutside f) }
    ensures plain { IfErr result IsPlain }
{
    match rows.get(at) {
        None => Err(StoreFault::Damaged),
        Some(row) => bits_at(row, 0),
    }
}

// The same, of 32 bits.
fn word_at(rows: &[Row], at: usize) -> Result<u32, StoreFault>
    ensures value { IfOk result (λ n. (cs : List Counter) → rows.now ≡ map shown_counter cs
        → value_of cs at < 2 ^ 32 → n ≡ value_of cs at) }
    ensures fault { IfErr result (λ f. (cs : List Counter) → rows.now ≡ map shown_counter cs
        → at < length cs → value_of cs at < 2 ^ 32 → IsOutside f) }
    ensures plain { IfErr result IsPlain }
{
    let value = value_at(rows, at)?;
    if value >= 1 << 32 {
        return Err(StoreFault::Damaged);
    }
    Ok(value as u32)
}

// What INIT agreed on, in the values of the counters.
fn read_settings(rows: &[Row]) -> Result<Option<Settings>, StoreFault>
    ensures value { IfOk result (λ r. (c : GuestContent) → IsMeta c
        → rows.now ≡ map shown_counter c.counters → r ≡ settings_in c) }
    ensures fault { IfErr result (λ f. (c : GuestContent) → IsMeta c
        → rows.now ≡ map shown_counter c.counters → IsOutside f) }
    ensures plain { IfErr result IsPlain }
{
    let agreed = value_at(rows, 0)?;
    let minor = word_at(rows, 1)?;
    let max_readahead = word_at(rows, 2)?;
    let flags = value_at(rows, 3)?;
    if agreed == 0 {
        return Ok(None);
    }
    Ok(Some(Settings {
        minor,
        max_readahead,
        flags: InitFlags(flags),
    }))
}

/// The settings that INIT agreed on, if it did.
pub fn find_settings<S: Alter>(conn: &mut Connection<S>) -> Result<Option<Settings>, StoreFault>
    ensures looks { OnOk result (LookedInside (state S.Store conn.old) (state S.Store conn.new)) }
    ensures fails { OnErr result (Stays (state S.Store conn.old) (state S.Store conn.new)) }
    ensures value { HasCleanDisk (state S.Store conn.new) → IfOk result (λ s. (y : GuestHolding)
        → InsideAs (HeldFor y) (state S.Store conn.old) → s ≡ y.state.settings) }
    ensures fault { HasCleanDisk (state S.Store conn.new) → IfErr result (λ f. (y : GuestHolding)
        → InsideAs (HeldFor y) (state S.Store conn.old) → IsOutside f) }
    ensures plain { IfErr result IsPlain }
    ensures rests { Serves (λ c. c) (state S.Store conn.old) (state S.Store conn.new) result }
    ensures open { StaysOpen (state S.Store conn.old) (state S.Store conn.new) result }
    // Whatever the database is, nothing is changed.
    ensures reads { OnlyReads (state S.Store conn.old) (state S.Store conn.new) result }
    ensures value_at_rest { HasCleanDisk (state S.Store conn.new) → IfOk result (λ s.
        (y : GuestHolding) → RestsAs (HeldFor y) (state S.Store conn.old)
        → s ≡ y.state.settings) }
    ensures safe { HasCleanDisk (state S.Store conn.new) → IfErr result (λ f. (y : GuestHolding)
        → RestsAs (HeldFor y) (state S.Store conn.old) → IsOutside f) }
{
    let rows = select_counters(conn)?;
    read_settings(rows.as_slice())
}

// The row of what was pledged, among those of `meta` in the order of their keys.
const PLEDGED_ROW: usize = 7;

/// The opcodes that were served at INIT, opcode n as bit n. It is asked outside a transaction.
pub fn find_pledged<S: Alter>(conn: &mut Connection<S>) -> Result<u64, StoreFault>
    ensures rests { Serves (λ c. c) (state S.Store conn.old) (state S.Store conn.new) result }
    // Whatever the database is, nothing is changed.
    ensures reads { OnlyReads (state S.Store conn.old) (state S.Store conn.new) result }
    ensures value_at_rest { HasCleanDisk (state S.Store conn.new) → IfOk result (λ n.
        (y : GuestHolding) → RestsAs (HeldFor y) (state S.Store conn.old) → n ≡ y.state.pledged) }
    ensures safe { HasCleanDisk (state S.Store conn.new) → IfErr result (λ f. (y : GuestHolding)
        → RestsAs (HeldFor y) (state S.Store conn.old) → IsOutside f) }
    ensures plain { IfErr result IsPlain }
{
    let rows = select_counters(conn)?;
    value_at(rows.as_slice(), PLEDGED_ROW)
}

// An answer of these parts, if they fit.
fn answer_of(errno: u32, body: Vec<u8>) -> Result<Answer, StoreFault>
    ensures value { IfOk result (λ r. r ≡ record { errno = errno; body = body.items }) }
    ensures fault { IfErr result (λ _. ¬ FitsAnswer (record { errno = errno; body = body.items })) }
    ensures plain { IfErr result IsPlain }
{
    if body.len() > MAX_BODY {
        return Err(StoreFault::Damaged);
    }
    if errno != 0 && !body.is_empty() {
        return Err(StoreFault::Damaged);
    }
    Ok(Answer {
        errno: Errno(errno),
        body: ByteList::from_vec(body),
    })
}

fn answer_at(row: &Row) -> Result<Answer, StoreFault>
    ensures value { IfOk result (λ r. (k : Kept) → row.now ≡ shown_kept k → r ≡ k.said) }
    ensures fault { IfErr result (λ f. (k : Kept) → IsRecord k → row.now ≡ shown_kept k
        → IsOutside f) }
    ensures plain { IfErr result IsPlain }
{
    let errno = small_at(row, 0)?;
    let body = bytes_at(row, 1)?;
    answer_of(errno, body)
}

// The answer in the record that was found.
fn read_answer(rows: &[Row]) -> Result<Option<Answer>, StoreFault>
    ensures value { IfOk result (λ r. (o : Option Kept)
        → rows.now ≡ map shown_kept (option_to_list o) → r ≡ option_map (λ k. k.said) o) }
    ensures fault { IfErr result (λ f. (o : Option Kept) → IfSome o IsRecord
        → rows.now ≡ map shown_kept (option_to_list o) → IsOutside f) }
    ensures plain { IfErr result IsPlain }
{
    match rows.first() {
        None => Ok(None),
        Some(row) => {
            let answer = answer_at(row)?;
            Ok(Some(answer))
        }
    }
}

/// The answer in the record of this id.
pub fn find_answer<S: Alter>(
    conn: &mut Connection<S>,
    id: u64,
) -> Result<Option<Answer>, StoreFault>
    requires { id < 2 ^ 63 }
    ensures looks { OnOk result (LookedInside (state S.Store conn.old) (state S.Store conn.new)) }
    ensures fails { OnErr result (Stays (state S.Store conn.old) (state S.Store conn.new)) }
    ensures value { HasCleanDisk (state S.Store conn.new) → IfOk result (λ r. (y : GuestHolding)
        → InsideAs (HeldFor y) (state S.Store conn.old) → r ≡ records_in y id) }
    ensures fault { HasCleanDisk (state S.Store conn.new) → IfErr result (λ f. (y : GuestHolding)
        → InsideAs (HeldFor y) (state S.Store conn.old)
        → IfSome (at_by kept_key id y.kept) (λ k. FitsAnswer k.said) → IsOutside f) }
    ensures plain { IfErr result IsPlain }
    ensures rests { Serves (λ c. c) (state S.Store conn.old) (state S.Store conn.new) result }
    ensures open { StaysOpen (state S.Store conn.old) (state S.Store conn.new) result }
    // Whatever the database is, nothing is changed.
    ensures reads { OnlyReads (state S.Store conn.old) (state S.Store conn.new) result }
    ensures value_at_rest { HasCleanDisk (state S.Store conn.new) → IfOk result (λ r.
        (y : GuestHolding) → RestsAs (HeldFor y) (state S.Store conn.old)
        → r ≡ records_in y id) }
    ensures safe { HasCleanDisk (state S.Store conn.new) → IfErr result (λ f. (y : GuestHolding)
        → RestsAs (HeldFor y) (state S.Store conn.old)
        → IfSome (at_by kept_key id y.kept) (λ k. FitsAnswer k.said) → IsOutside f) }
{
    let rows = select_kept(conn, id)?;
    read_answer(rows.as_slice())
}
