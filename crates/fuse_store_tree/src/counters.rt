// Reads of the counters and the settings.
ghost use Rattle.std.specs.Prelude.{◌≡◌, ◌<◌, ◌^◌, map, Option, Some, None};
ghost use Rattle.std.specs.Prelude.{IfOk, IfErr, OnOk, OnErr, List, length, ◌≤◌};
ghost use Rattle.sqlite.specs.State.{HasCleanDisk};
ghost use Rattle.sqlite.specs.Held.{state};
ghost use Rattle.fuse_store_tables.specs.Content.{Content, Counter, shown_counter};
ghost use Rattle.fuse_store_tables.specs.Faults.{IsOutside, IsPlain};
ghost use Rattle.fuse_store_tables.specs.Moves.{Inside, LookedInside, Stays};
ghost use Rattle.fuse_store_tree.specs.inner.Reading.{value_of, counted_in, agreed_in};
ghost use Rattle.fuse_store_tree.specs.inner.Reading.{room_of_counters};
ghost use Rattle.fuse_store_tree.specs.inner.Knowing.{meta_in};

use crate::meta::Meta;
use fuse_init::Settings;
use fuse_keeper::StoreFault;
use fuse_rows::{Counters, Room};
use fuse_store_tables::{number_at, select_counters};
use fuse_wire::InitFlags;
use sqlite::{Alter, Connection, Row};

// The number in this row of the table.
fn value_at(rows: &[Row], at: usize) -> Result<u64, StoreFault>
    ensures value { IfOk result (λ n. (cs : List Counter) → rows.now ≡ map shown_counter cs
        → n ≡ value_of cs at) }
    ensures fault { IfErr result (λ f. (cs : List Counter) → rows.now ≡ map shown_counter cs
        → at < length cs → IsOutside f) }
    ensures plain { IfErr result IsPlain }
{
    match rows.get(at) {
        None => Err(StoreFault::Damaged),
        Some(row) => number_at(row, 0),
    }
}

// The same, of 32 bits.
fn word_at(rows: &[Row], at: usize) -> Result<u32, StoreFault>
    ensures value { IfOk result (λ n. (cs : List Counter) → rows.now ≡ map shown_counter cs
        → n ≡ value_of cs at) }
    ensures fault { IfErr result (λ f. (cs : List Counter) → rows.now ≡ map shown_counter cs
        → at < length cs → value_of cs at < 2 ^ 32 → IsOutside f) }
    ensures plain { IfErr result IsPlain }
{
    let value = value_at(rows, at)?;
    if value >= 1 << 32 {
        return Err(StoreFault::Damaged);
    }
    Ok(value as u32)
}

// The number of counters where there is a room.
const WITH_ROOM: usize = 15;

// The room, where there is one.
pub(crate) fn read_room(rows: &[Row]) -> Result<Option<Room>, StoreFault>
    ensures value { IfOk result (λ r. (cs : List Counter) → rows.now ≡ map shown_counter cs
        → r ≡ room_of_counters cs) }
    ensures fault { IfErr result (λ f. (cs : List Counter) → rows.now ≡ map shown_counter cs
        → IsOutside f) }
    ensures plain { IfErr result IsPlain }
{
    if rows.len() != WITH_ROOM {
        return Ok(None);
    }
    let capacity = value_at(rows, 12)?;
    let used = value_at(rows, 13)?;
    Ok(Some(Room { capacity, used }))
}

pub(crate) fn read_counters(rows: &[Row]) -> Result<Counters, StoreFault>
    ensures value { IfOk result (λ r. (cs : List Counter) → rows.now ≡ map shown_counter cs
        → r ≡ counted_in cs) }
    ensures fault { IfErr result (λ f. (cs : List Counter) → rows.now ≡ map shown_counter cs
        → 11 ≤ length cs → IsOutside f) }
    ensures plain { IfErr result IsPlain }
{
    let next_node = value_at(rows, 1)?;
    let next_fh = value_at(rows, 2)?;
    let next_cookie = value_at(rows, 3)?;
    let nodes = value_at(rows, 4)?;
    let handles = value_at(rows, 5)?;
    let room = read_room(rows)?;
    Ok(Counters {
        next_node,
        next_fh,
        next_cookie,
        nodes,
        handles,
        room,
    })
}

pub(crate) fn read_settings(rows: &[Row]) -> Result<Option<Settings>, StoreFault>
    ensures value { IfOk result (λ r. (cs : List Counter) → rows.now ≡ map shown_counter cs
        → r ≡ agreed_in cs) }
    ensures fault { IfErr result (λ f. (cs : List Counter) → rows.now ≡ map shown_counter cs
        → 11 ≤ length cs → value_of cs 7 < 2 ^ 32 → value_of cs 8 < 2 ^ 32 → IsOutside f) }
    ensures plain { IfErr result IsPlain }
{
    let there = value_at(rows, 6)?;
    let minor = word_at(rows, 7)?;
    let max_readahead = word_at(rows, 8)?;
    let flags = InitFlags(value_at(rows, 9)?);
    if there == 0 {
        return Ok(None);
    }
    Ok(Some(Settings {
        minor,
        max_readahead,
        flags,
    }))
}

fn read_meta(rows: &[Row]) -> Result<Meta, StoreFault>
    ensures value { IfOk result (λ r. (cs : List Counter) → rows.now ≡ map shown_counter cs
        → r ≡ meta_in cs) }
    ensures fault { IfErr result (λ f. (cs : List Counter) → rows.now ≡ map shown_counter cs
        → 11 ≤ length cs → value_of cs 7 < 2 ^ 32 → value_of cs 8 < 2 ^ 32 → IsOutside f) }
    ensures plain { IfErr result IsPlain }
{
    let counters = read_counters(rows)?;
    let settings = read_settings(rows)?;
    Ok(Meta { counters, settings })
}

/// The counters and the settings.
pub(crate) fn find_meta<S: Alter>(conn: &mut Connection<S>) -> Result<Meta, StoreFault>
    ensures looks { OnOk result (LookedInside (state S.Store conn.old) (state S.Store conn.new)) }
    ensures fails { OnErr result (Stays (state S.Store conn.old) (state S.Store conn.new)) }
    ensures value { HasCleanDisk (state S.Store conn.new) → IfOk result (λ r. (c : Content)
        → Inside c (state S.Store conn.old) → r ≡ meta_in c.counters) }
    ensures fault { HasCleanDisk (state S.Store conn.new) → IfErr result (λ f. (c : Content)
        → Inside c (state S.Store conn.old) → 11 ≤ length c.counters
        → value_of c.counters 7 < 2 ^ 32 → value_of c.counters 8 < 2 ^ 32 → IsOutside f) }
    ensures plain { IfErr result IsPlain }
{
    let rows = select_counters(conn)?;
    read_meta(rows.as_slice())
}
