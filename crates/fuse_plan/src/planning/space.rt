// The written blocks of a file, and the room that they need.
ghost use Rattle.std.specs.Prelude.{◌≡◌, ◌≤◌, ◌+◌, ◌-◌, ◌++◌, None, true, nat_le, IfOk, OnOk};
ghost use Rattle.fuse_tree.specs.Space.{has_room};
ghost use Rattle.fuse_plan.specs.inner.PlanSpace as planning;
ghost use Rattle.fuse_plan.specs.inner.PlanSpace.{counters_for, counters_used, room_in};
ghost use Rattle.fuse_plan.specs.inner.PlanSpace.{room_changes, room_with_used, between_for};
ghost use Rattle.fuse_plan.specs.inner.Reading.{LooksUp, view};

use super::fault::PlanFault;
use super::finding::find_counters;
use fuse_init::Profile;
use fuse_rows::{Change, Counters, NodeRow, Room, blocks_of, first_touched, touched_end};
use fuse_tree::Look;
use fuse_wire::Memory;

// The counters of an everyday store. In a plain one no blocks are counted.
pub(crate) fn find_sized<L: Look>(
    look: &mut L,
    profile: Profile,
) -> Result<Option<Counters>, PlanFault>
    requires { L.fault look.old ≡ None }
    ensures { LooksUp (view L.is_clean L.sees L.fault L.looks L.fails) look.old look.new result
        (counters_for profile) }
{
    match profile {
        Profile::Plain => Ok(None),
        Profile::Everyday => Ok(Some(find_counters(look)?)),
    }
}

// How many blocks were written from one on, below another. In a plain store none are counted.
fn find_between<L: Look>(look: &mut L, row: &NodeRow, from: u64, to: u64) -> Result<u64, PlanFault>
    requires { L.fault look.old ≡ None }
    ensures { LooksUp (view L.is_clean L.sees L.fault L.looks L.fails) look.old look.new result
        (λ rows. between_for row.now.written rows row.now.node from to) }
{
    match row.written {
        None => Ok(0),
        Some(_) => Ok(look.blocks_between(row.node, from, to)?),
    }
}

// The blocks that become written where so many bytes from this place on are.
pub(crate) fn find_new<L: Look>(
    look: &mut L,
    row: &NodeRow,
    offset: u64,
    len: usize,
) -> Result<u64, PlanFault>
    requires { L.fault look.old ≡ None }
    ensures new { LooksUp (view L.is_clean L.sees L.fault L.looks L.fails) look.old look.new
        result (λ rows. planning.newly_in rows row.now offset len) }
    ensures few { IfOk result (λ more. more ≤ offset + len) }
{
    let from = first_touched(offset);
    let to = touched_end(offset, len)?;
    let between = find_between(look, row, from, to)?;
    Ok(to.saturating_sub(from).saturating_sub(between))
}

// The blocks that are written no more where the size is this one.
pub(crate) fn find_gone<L: Look>(look: &mut L, row: &NodeRow, size: u64) -> Result<u64, PlanFault>
    requires { L.fault look.old ≡ None }
    ensures { LooksUp (view L.is_clean L.sees L.fault L.looks L.fails) look.old look.new result
        (λ rows. planning.blocks_gone_in rows row.now size) }
{
    find_between(look, row, blocks_of(size), blocks_of(row.size))
}

// Whether there is room for so many blocks more.
pub(crate) fn is_room_for(counters: &Option<Counters>, more: u64) -> bool
    ensures { result ≡ has_room (room_in counters.now) more }
{
    match counters {
        None => true,
        Some(counters) => is_room_in(&counters.room, more),
    }
}

pub(crate) fn is_room_in(room: &Option<Room>, more: u64) -> bool
    ensures { result ≡ has_room room.now more }
{
    match room {
        None => true,
        Some(room) => is_left(room, more),
    }
}

fn is_left(room: &Room, more: u64) -> bool
    ensures { result ≡ nat_le (room.now.used + more) room.now.capacity }
{
    more <= room.capacity && room.used <= room.capacity - more
}

fn room_more(room: &Room, more: u64) -> Room
    requires { nat_le (room.now.used + more) room.now.capacity ≡ true }
    ensures { result ≡ room_with_used (λ used. used + more) room.now }
{
    Room {
        capacity: room.capacity,
        used: room.used + more,
    }
}

// The counters with so many blocks more.
pub(crate) fn counters_more(counters: &Counters, more: u64) -> Counters
    requires { has_room counters.now.room more ≡ true }
    ensures { result ≡ counters_used (λ used. used + more) counters.now }
{
    let room = match counters.room {
        None => None,
        Some(room) => Some(room_more(&room, more)),
    };
    Counters { room, ..*counters }
}

// One change more where blocks are counted: there are so many more.
pub(crate) fn push_more(
    changes: &mut Vec<Change>,
    counters: &Option<Counters>,
    more: u64,
) -> Result<(), Memory>
    requires { has_room (room_in counters.now) more ≡ true }
    ensures { OnOk result (changes.new.items ≡ changes.old.items
        ++ room_changes counters.now (λ used. used + more)) }
{
    if let Some(counters) = counters {
        changes.push(Change::Counters(counters_more(counters, more)))?;
    }
    Ok(())
}

fn room_less(room: &Room, gone: u64) -> Room
    ensures { result ≡ room_with_used (λ used. used - gone) room.now }
{
    Room {
        capacity: room.capacity,
        used: room.used.saturating_sub(gone),
    }
}

fn counters_less(counters: &Counters, gone: u64) -> Counters
    ensures { result ≡ counters_used (λ used. used - gone) counters.now }
{
    let room = match counters.room {
        None => None,
        Some(room) => Some(room_less(&room, gone)),
    };
    Counters { room, ..*counters }
}

// One change more where blocks are counted: there are so many less.
pub(crate) fn push_less(
    changes: &mut Vec<Change>,
    counters: &Option<Counters>,
    gone: u64,
) -> Result<(), Memory>
    ensures { OnOk result (changes.new.items ≡ changes.old.items
        ++ room_changes counters.now (λ used. used - gone)) }
{
    if let Some(counters) = counters {
        changes.push(Change::Counters(counters_less(counters, gone)))?;
    }
    Ok(())
}
