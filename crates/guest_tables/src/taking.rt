// The pairs that a scan takes for PAIRS: as many as fit, and one at least.
ghost use Rattle.std.specs.Prelude.{◌≡◌, ◌<◌, ◌-◌, ◌==◌, ◌&&◌, ◌||◌, nat_le, nat_lt, map};
ghost use Rattle.std.specs.Prelude.{List, true, length, IfOk, IfErr};
ghost use Rattle.guest_frames.specs.Frames.{PairContent};
ghost use Rattle.fuse_guest.specs.Telling.{pair_size, bare_if};
ghost use Rattle.fuse_store_tables.specs.Faults.{IsOutside, IsPlain};
ghost use Rattle.guest_tables.specs.Scanned.{owned_content};
ghost use Rattle.guest_tables.specs.inner.Slices.{shown_pair, TakesPair, TakesOf};

use crate::owned_pair::OwnedPair;
use fuse_keeper::StoreFault;
use fuse_store_tables::bytes_at;
use sqlite::Row;
use std::alloc::Global;

/// The pairs that were taken so far, the bytes that PAIRS may have for more of them, and whether there
/// are more that weren't taken.
#[derive(Drop)]
pub(crate) struct Taken {
    pub(crate) pairs: Vec<OwnedPair>,
    pub(crate) room: u64,
    pub(crate) more: bool,
}

// The value of a pair, empty where its key is shown alone.
fn value_at(row: &Row, alloc: Global, keys_alone: bool) -> Result<Vec<u8>, StoreFault>
    ensures value { IfOk result (λ v. (p : PairContent) → row.now ≡ shown_pair keys_alone p
        → v.items ≡ (bare_if keys_alone p).value) }
    ensures fault { IfErr result (λ f. (p : PairContent) → row.now ≡ shown_pair keys_alone p
        → IsOutside f) }
    ensures plain { IfErr result IsPlain }
{
    if keys_alone {
        Ok(Vec::new(alloc))
    } else {
        bytes_at(row, 1)
    }
}

// The pair that a row shows.
fn pair_at(row: &Row, alloc: Global, keys_alone: bool) -> Result<OwnedPair, StoreFault>
    ensures value { IfOk result (λ x. (p : PairContent) → row.now ≡ shown_pair keys_alone p
        → owned_content x ≡ bare_if keys_alone p) }
    ensures fault { IfErr result (λ f. (p : PairContent) → row.now ≡ shown_pair keys_alone p
        → IsOutside f) }
    ensures plain { IfErr result IsPlain }
{
    let key = bytes_at(row, 0)?;
    let value = value_at(row, alloc, keys_alone)?;
    Ok(OwnedPair { key, value })
}

// The bytes that a pair has in PAIRS.
fn size_of(pair: &OwnedPair) -> u128
    ensures { result ≡ pair_size (owned_content pair.now) }
{
    8 + pair.key.len() as u128 + pair.value.len() as u128
}

// Whether so many bytes are taken, where so many pairs were and so much room is left.
fn is_taken(limit: u64, count: u64, room: u64, size: u128) -> bool
    ensures { result ≡ (((limit == 0) || nat_lt count limit)
        && (nat_lt 0 room && ((count == 0) || nat_le size room))) }
{
    (limit == 0 || count < limit) && (room > 0 && (count == 0 || size <= room as u128))
}

// The room that is left after so many bytes.
fn room_without(room: u64, size: u128) -> u64
    ensures { result ≡ room - size }
{
    if size <= room as u128 {
        room - size as u64
    } else {
        0
    }
}

// Takes a pair, if it is one that PAIRS has, and says so.
fn take_pair(held: &mut Taken, pair: OwnedPair, limit: u64) -> Result<bool, StoreFault>
    ensures takes { IfOk result (λ b. TakesPair limit (owned_content pair) held.old held.new b) }
    ensures fault { IfErr result IsOutside }
    ensures plain { IfErr result IsPlain }
{
    let size = size_of(&pair);
    if !is_taken(limit, held.pairs.len() as u64, held.room, size) {
        return Ok(false);
    }
    held.pairs.push(pair)?;
    held.room = room_without(held.room, size);
    Ok(true)
}

/// Takes the pairs of these rows, up to the first that PAIRS doesn't have, and says whether it has
/// all of them.
pub(crate) fn take_rows(
    rows: &[Row],
    alloc: Global,
    keys_alone: bool,
    limit: u64,
    held: &mut Taken,
) -> Result<bool, StoreFault>
    ensures takes { IfOk result (λ all. (page : List PairContent)
        → rows.now ≡ map (shown_pair keys_alone) page
        → TakesOf limit (map (bare_if keys_alone) page) held.old held.new all) }
    // So a scan ends.
    ensures smaller { IfOk result (λ all. all ≡ true → 0 < length rows.now
        → held.new.room < held.old.room) }
    ensures fault { IfErr result (λ f. (page : List PairContent)
        → rows.now ≡ map (shown_pair keys_alone) page → IsOutside f) }
    ensures plain { IfErr result IsPlain }
{
    let mut at = 0;
    'rows: while at < rows.len() {
        let pair = pair_at(&rows[at], alloc, keys_alone)?;
        if !take_pair(held, pair, limit)? {
            return Ok(false);
        }
        at += 1;
    }
    Ok(true)
}
