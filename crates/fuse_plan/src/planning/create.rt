ghost use Rattle.std.specs.Prelude.{◌≡◌, None, IfOk};
ghost use Rattle.fuse_tree.specs.Opening.{open_fault};
ghost use Rattle.fuse_plan.specs.inner.PlanCreating as planning;
ghost use Rattle.fuse_plan.specs.inner.PlanCreating.{create_changes, plan_created, plan_create_in};
ghost use Rattle.fuse_plan.specs.inner.PlanMaking.{HasPlace};
ghost use Rattle.fuse_plan.specs.inner.Reading.{IsWithin, LooksUp, view};

use super::answers::{entry_of, refused};
use super::attributes::is_directory;
use super::fault::PlanFault;
use super::finding::{find_counters, is_taken};
use super::make::{begun, counters_made, dir_row_of, is_full_of, new_entry_of, new_row_of};
use super::names::fault_of_name;
use super::open::{counters_with_handle, fault_of_opening};
use crate::planned::Planned;
use fuse_answer::{Answer, CreateOut, OpenOut};
use fuse_rows::{Change, ChangeList, Counters, HandleRow, NodeRow};
use fuse_tree::{Agreement, Look, NewNode, S_IFREG, TYPE_UNIT, open_flags};
use fuse_wire::{AccessMode, ByteList, Errno, Memory};
use std::alloc::Global;

// CREATE of a name in the node of this row.
pub(crate) fn plan_create<L: Look>(
    alloc: Global,
    look: &mut L,
    agreement: &Agreement,
    asked: &NewNode,
    flags: u32,
    name: &[u8],
    row: &NodeRow,
) -> Result<Planned, PlanFault>
    requires fault { L.fault look.old ≡ None }
    requires within { IsWithin row.now }
    ensures { LooksUp (view L.is_clean L.sees L.fault L.looks L.fails) look.old look.new result
        (planning.plan_create agreement.now asked.now flags name.now row.now) }
{
    if !is_directory(row.mode) {
        return Ok(refused(alloc, Errno::ENOTDIR));
    }
    if let Some(errno) = fault_of_name(name) {
        return Ok(refused(alloc, errno));
    }
    let asked = NewNode {
        mode: S_IFREG + asked.mode % TYPE_UNIT,
        rdev: 0,
        ..*asked
    };
    let fresh = begun(agreement.profile, row, &asked);
    create_in(alloc, look, agreement, &fresh, flags, name, row)
}

// A new node, open, where the name is free and there is room for it.
fn create_in<L: Look>(
    alloc: Global,
    look: &mut L,
    agreement: &Agreement,
    fresh: &NewNode,
    flags: u32,
    name: &[u8],
    row: &NodeRow,
) -> Result<Planned, PlanFault>
    requires fault { L.fault look.old ≡ None }
    requires within { IsWithin row.now }
    ensures { LooksUp (view L.is_clean L.sees L.fault L.looks L.fails) look.old look.new result
        (plan_create_in agreement.now fresh.now flags name.now row.now) }
{
    if !row.is_named() {
        return Ok(refused(alloc, Errno::ENOENT));
    }
    if is_taken(look, row.node, name)? {
        return Ok(refused(alloc, Errno::EEXIST));
    }
    let counters = find_counters(look)?;
    if is_full_of(agreement.profile, &counters) {
        return Ok(refused(alloc, Errno::ENOSPC));
    }
    let Some(access) = AccessMode::of(flags) else {
        return Ok(refused(alloc, Errno::EINVAL));
    };
    if let Some(errno) = fault_of_opening(&counters) {
        return Ok(refused(alloc, errno));
    }
    Ok(create(alloc, agreement, &counters, fresh, name, access, row)?)
}

fn create(
    alloc: Global,
    agreement: &Agreement,
    counters: &Counters,
    fresh: &NewNode,
    name: &[u8],
    access: AccessMode,
    row: &NodeRow,
) -> Result<Planned, Memory>
    requires within { IsWithin row.now }
    requires room { HasPlace counters.now }
    requires left { open_fault counters.now.handles counters.now.next_fh ≡ None }
    ensures { IfOk result (λ p. p
        ≡ plan_created agreement.now counters.now fresh.now name.now access row.now) }
{
    let created = CreateOut {
        entry: entry_of(
            agreement.valid_secs(),
            &new_row_of(counters, fresh, row.node),
        ),
        open: OpenOut {
            fh: counters.next_fh,
            open_flags: open_flags(agreement.profile),
            backing_id: 0,
        },
    };
    let answer = Answer::success(ByteList::from_vec(created.body_of(alloc)?));
    let changes = changes_of_creating(alloc, counters, fresh, name, access, row)?;
    Ok(Planned { answer, changes })
}

// The rows of a new node and of its handle, in the order in which they are written.
fn changes_of_creating(
    alloc: Global,
    counters: &Counters,
    fresh: &NewNode,
    name: &[u8],
    access: AccessMode,
    row: &NodeRow,
) -> Result<ChangeList, Memory>
    requires within { IsWithin row.now }
    requires room { HasPlace counters.now }
    requires left { open_fault counters.now.handles counters.now.next_fh ≡ None }
    ensures { IfOk result (λ changes. changes
        ≡ create_changes counters.now fresh.now name.now access row.now) }
{
    let mut changes = Vec::new(alloc);
    changes.push(Change::Node(dir_row_of(fresh, row)))?;
    changes.push(Change::Node(new_row_of(counters, fresh, row.node)))?;
    changes.push(Change::Entry(new_entry_of(alloc, counters, name, row.node)?))?;
    changes.push(Change::Handle(HandleRow {
        fh: counters.next_fh,
        node: counters.next_node,
        access,
    }))?;
    let counters = counters_with_handle(&counters_made(counters));
    changes.push(Change::Counters(counters))?;
    Ok(ChangeList::from_vec(changes))
}
