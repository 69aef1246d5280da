ghost use Rattle.std.specs.Prelude.{◌≡◌, ◌≤◌, None, true, length, IfOk};
ghost use Rattle.fuse_rows.specs.Bounds.{target_limit};
ghost use Rattle.fuse_tree.specs.Space.{has_room};
ghost use Rattle.fuse_tree.specs.Checks.{error_in};
ghost use Rattle.fuse_tree.specs.Symlinking.{target_tests};
ghost use Rattle.fuse_plan.specs.inner.PlanMaking.{HasPlace};
ghost use Rattle.fuse_plan.specs.inner.PlanSymlinking as planning;
ghost use Rattle.fuse_plan.specs.inner.PlanSymlinking.{link_row, link_changes, plan_new_link};
ghost use Rattle.fuse_plan.specs.inner.PlanSymlinking.{plan_link};
ghost use Rattle.fuse_plan.specs.inner.Reading.{IsWithin, LooksUp, view};

use super::answers::{entry_answer, refused};
use super::attributes::is_directory;
use super::fault::PlanFault;
use super::finding::{find_counters, is_taken};
use super::make::{
    asked_node, begun, counters_made, dir_row_of, is_full_of, new_entry_of, new_row_of,
};
use super::names::fault_of_name;
use super::space::{counters_more, is_room_in};
use crate::planned::Planned;
use fuse_rows::{Change, ChangeList, Counters, MAX_TARGET, NodeRow, Origin};
use fuse_tree::{Agreement, Look, NewNode, S_IFLNK};
use fuse_wire::{ByteList, Errno, Memory};
use std::alloc::Global;

// SYMLINK of a name in the node of this row.
pub(crate) fn plan_symlink<L: Look>(
    alloc: Global,
    look: &mut L,
    agreement: &Agreement,
    from: &Origin,
    target: &[u8],
    name: &[u8],
    row: &NodeRow,
) -> Result<Planned, PlanFault>
    requires fault { L.fault look.old ≡ None }
    requires within { IsWithin row.now }
    ensures { LooksUp (view L.is_clean L.sees L.fault L.looks L.fails) look.old look.new result
        (planning.plan_symlink agreement.now from.now target.now name.now row.now) }
{
    if !is_directory(row.mode) {
        return Ok(refused(alloc, Errno::ENOTDIR));
    }
    if let Some(errno) = fault_of_name(name) {
        return Ok(refused(alloc, errno));
    }
    if let Some(errno) = fault_of_target(target) {
        return Ok(refused(alloc, errno));
    }
    let asked = asked_node(from, S_IFLNK + 0o777, 0);
    let fresh = begun(agreement.profile, row, &asked);
    link_in(alloc, look, agreement, &fresh, target, name, row)
}

// The fault of a target: it is empty or too long.
fn fault_of_target(target: &[u8]) -> Option<Errno>
    ensures fault { result ≡ error_in (target_tests target.now) }
    ensures short { result ≡ None → length target.now ≤ target_limit }
{
    if target.is_empty() {
        Some(Errno::ENOENT)
    } else if target.len() > MAX_TARGET as usize {
        Some(Errno::ENAMETOOLONG)
    } else {
        None
    }
}

// A new link in the directory of this row, where the name is free and there is room.
fn link_in<L: Look>(
    alloc: Global,
    look: &mut L,
    agreement: &Agreement,
    fresh: &NewNode,
    target: &[u8],
    name: &[u8],
    row: &NodeRow,
) -> Result<Planned, PlanFault>
    requires fault { L.fault look.old ≡ None }
    requires within { IsWithin row.now }
    requires short { length target.now ≤ target_limit }
    ensures { LooksUp (view L.is_clean L.sees L.fault L.looks L.fails) look.old look.new result
        (plan_link agreement.now fresh.now target.now name.now row.now) }
{
    if !row.is_named() {
        return Ok(refused(alloc, Errno::ENOENT));
    }
    if is_taken(look, row.node, name)? {
        return Ok(refused(alloc, Errno::EEXIST));
    }
    let counters = find_counters(look)?;
    if is_full_of(agreement.profile, &counters) {
        return Ok(refused(alloc, Errno::ENOSPC));
    }
    if !is_room_in(&counters.room, 1) {
        return Ok(refused(alloc, Errno::ENOSPC));
    }
    let valid = agreement.valid_secs();
    Ok(link(alloc, valid, &counters, fresh, target, name, row)?)
}

fn link(
    alloc: Global,
    valid: u64,
    counters: &Counters,
    fresh: &NewNode,
    target: &[u8],
    name: &[u8],
    row: &NodeRow,
) -> Result<Planned, Memory>
    requires within { IsWithin row.now }
    requires place { HasPlace counters.now }
    requires short { length target.now ≤ target_limit }
    requires room { has_room counters.now.room 1 ≡ true }
    ensures { IfOk result (λ p. p
        ≡ plan_new_link valid counters.now fresh.now target.now name.now row.now) }
{
    let made = link_row_of(counters, fresh, target.len() as u64, row.node);
    let answer = entry_answer(alloc, valid, &made)?;
    let changes = changes_of_link(alloc, counters, fresh, target, name, row)?;
    Ok(Planned { answer, changes })
}

// The rows of a new link and its target, in the order in which they are written.
fn changes_of_link(
    alloc: Global,
    counters: &Counters,
    fresh: &NewNode,
    target: &[u8],
    name: &[u8],
    row: &NodeRow,
) -> Result<ChangeList, Memory>
    requires within { IsWithin row.now }
    requires place { HasPlace counters.now }
    requires short { length target.now ≤ target_limit }
    requires room { has_room counters.now.room 1 ≡ true }
    ensures { IfOk result (λ changes. changes
        ≡ link_changes counters.now fresh.now target.now name.now row.now) }
{
    let size = target.len() as u64;
    let mut changes = Vec::new(alloc);
    changes.push(Change::Node(dir_row_of(fresh, row)))?;
    changes.push(Change::Node(link_row_of(counters, fresh, size, row.node)))?;
    changes.push(Change::Entry(new_entry_of(alloc, counters, name, row.node)?))?;
    let bytes = ByteList::from_vec(Vec::from_slice(alloc, target)?);
    changes.push(Change::Written {
        node: counters.next_node,
        offset: 0,
        bytes,
    })?;
    let counters = counters_more(&counters_made(counters), 1);
    changes.push(Change::Counters(counters))?;
    Ok(ChangeList::from_vec(changes))
}

// The row of a new link in this directory, whose target has so many bytes.
fn link_row_of(counters: &Counters, fresh: &NewNode, size: u64, dir: u64) -> NodeRow
    requires { size ≤ target_limit }
    ensures row { result ≡ link_row counters.now fresh.now size dir }
    ensures within { IsWithin result }
{
    let written = match counters.room {
        None => None,
        Some(_) => Some(1),
    };
    NodeRow {
        size,
        written,
        ..new_row_of(counters, fresh, dir)
    }
}
