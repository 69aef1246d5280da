// The removal of a node that has lost its name or an fh.
ghost use Rattle.std.specs.Prelude.{◌≡◌, ◌==◌, ◌++◌, not, None, OnOk};
ghost use Rattle.std.specs.List.{list_any};
ghost use Rattle.fuse_tree.specs.State as state;
ghost use Rattle.fuse_plan.specs.inner.PlanRemoval as planning;
ghost use Rattle.fuse_plan.specs.inner.PlanRemoval.{goes_unnamed, goes_closed};
ghost use Rattle.fuse_plan.specs.inner.PlanRemoval.{is_used_beside as used_beside};
ghost use Rattle.fuse_plan.specs.inner.Reading.{LooksUp, view};

use super::attributes::count_of;
use super::fault::PlanFault;
use fuse_init::Profile;
use fuse_rows::{Change, Counters, HandleRow, NodeRow, Room};
use fuse_tree::{Look, removes};
use fuse_wire::Memory;

// Whether an fh of this node is open.
fn is_used<L: Look>(look: &mut L, node: u64) -> Result<bool, PlanFault>
    requires { L.fault look.old ≡ None }
    ensures { LooksUp (view L.is_clean L.sees L.fault L.looks L.fails) look.old look.new result
        (λ rows. state.is_used rows.handles node) }
{
    Ok(!look.handles_of(node, 1)?.is_empty())
}

// Whether another fh than this one is open at the node.
fn is_used_beside<L: Look>(look: &mut L, fh: u64, node: u64) -> Result<bool, PlanFault>
    requires { L.fault look.old ≡ None }
    ensures { LooksUp (view L.is_clean L.sees L.fault L.looks L.fails) look.old look.new result
        (λ rows. used_beside rows.handles fh node) }
{
    Ok(is_other(look.handles_of(node, 2)?.as_slice(), fh))
}

fn is_other(handles: &[HandleRow], fh: u64) -> bool
    ensures { result ≡ list_any (λ h. not (h.fh == fh)) handles.now }
{
    handles.iter().any(|handle| handle.fh != fh)
}

// Whether a node that has lost its name goes.
pub(crate) fn goes_without_name<L: Look>(
    look: &mut L,
    profile: Profile,
    node: u64,
) -> Result<bool, PlanFault>
    requires { L.fault look.old ≡ None }
    ensures { LooksUp (view L.is_clean L.sees L.fault L.looks L.fails) look.old look.new result
        (goes_unnamed profile node) }
{
    if !removes(profile) {
        return Ok(false);
    }
    Ok(!is_used(look, node)?)
}

// Whether the node of this row goes with its fh.
pub(crate) fn goes_with_handle<L: Look>(
    look: &mut L,
    profile: Profile,
    fh: u64,
    row: &NodeRow,
) -> Result<bool, PlanFault>
    requires { L.fault look.old ≡ None }
    ensures { LooksUp (view L.is_clean L.sees L.fault L.looks L.fails) look.old look.new result
        (goes_closed profile fh row.now) }
{
    if !removes(profile) || row.is_named() {
        return Ok(false);
    }
    Ok(!is_used_beside(look, fh, row.node)?)
}

// The room when the node of this row has gone.
fn room_less(row: &NodeRow, room: &Room) -> Room
    ensures { result ≡ planning.room_without row.now room.now }
{
    Room {
        used: room.used.saturating_sub(count_of(row)),
        ..*room
    }
}

// The counters when the node of this row has gone.
fn counters_less(row: &NodeRow, counters: &Counters) -> Counters
    ensures { result ≡ planning.counters_less row.now counters.now }
{
    let room = match counters.room {
        None => None,
        Some(room) => Some(room_less(row, &room)),
    };
    Counters {
        nodes: counters.nodes.saturating_sub(1),
        room,
        ..*counters
    }
}

// Two changes more: the node of this row goes.
pub(crate) fn push_removal(
    changes: &mut Vec<Change>,
    row: &NodeRow,
    counters: &Counters,
) -> Result<(), Memory>
    ensures { OnOk result (changes.new.items ≡ changes.old.items
        ++ planning.removal row.now counters.now) }
{
    changes.push(Change::NodeGone { node: row.node })?;
    changes.push(Change::Counters(counters_less(row, counters)))?;
    Ok(())
}
