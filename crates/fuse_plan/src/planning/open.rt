ghost use Rattle.std.specs.Prelude.{◌≡◌, None, IfOk};
ghost use Rattle.fuse_tree.specs.Opening.{open_fault};
ghost use Rattle.fuse_plan.specs.inner.PlanOpening as planning;
ghost use Rattle.fuse_plan.specs.inner.PlanOpening.{counters_opened, opened_changes};
ghost use Rattle.fuse_plan.specs.inner.PlanOpening.{plan_opened, plan_open_node};
ghost use Rattle.fuse_plan.specs.inner.Reading.{LooksUp, view};

use super::answers::refused;
use super::attributes::{is_directory, is_regular_file};
use super::fault::PlanFault;
use super::finding::find_counters;
use crate::planned::Planned;
use fuse_answer::{Answer, OpenOut};
use fuse_rows::{COUNTER_END, Change, ChangeList, Counters, HandleRow, MAX_HANDLES, NodeRow};
use fuse_tree::Look;
use fuse_wire::{AccessMode, ByteList, Errno, Memory};
use std::alloc::Global;

// OPEN of the node of this row, for the access of the flags.
pub(crate) fn plan_open<L: Look>(
    alloc: Global,
    look: &mut L,
    open_flags: u32,
    flags: u32,
    row: &NodeRow,
) -> Result<Planned, PlanFault>
    requires { L.fault look.old ≡ None }
    ensures { LooksUp (view L.is_clean L.sees L.fault L.looks L.fails) look.old look.new result
        (planning.plan_open open_flags flags row.now) }
{
    if is_directory(row.mode) {
        return Ok(refused(alloc, Errno::EISDIR));
    }
    if !is_regular_file(row.mode) {
        return Ok(refused(alloc, Errno::EINVAL));
    }
    let Some(access) = AccessMode::of(flags) else {
        return Ok(refused(alloc, Errno::EINVAL));
    };
    open_node(alloc, look, open_flags, access, row.node)
}

// OPENDIR of the node of this row.
pub(crate) fn plan_open_dir<L: Look>(
    alloc: Global,
    look: &mut L,
    row: &NodeRow,
) -> Result<Planned, PlanFault>
    requires { L.fault look.old ≡ None }
    ensures { LooksUp (view L.is_clean L.sees L.fault L.looks L.fails) look.old look.new result
        (planning.plan_open_dir row.now) }
{
    if !is_directory(row.mode) {
        return Ok(refused(alloc, Errno::ENOTDIR));
    }
    open_node(alloc, look, 0, AccessMode::ReadOnly, row.node)
}

// One more handle of the node, where there is one left.
fn open_node<L: Look>(
    alloc: Global,
    look: &mut L,
    open_flags: u32,
    access: AccessMode,
    node: u64,
) -> Result<Planned, PlanFault>
    requires { L.fault look.old ≡ None }
    ensures { LooksUp (view L.is_clean L.sees L.fault L.looks L.fails) look.old look.new result
        (plan_open_node open_flags access node) }
{
    let counters = find_counters(look)?;
    if let Some(errno) = fault_of_opening(&counters) {
        return Ok(refused(alloc, errno));
    }
    Ok(open(alloc, open_flags, &counters, access, node)?)
}

// Why no handle is given out.
pub(crate) fn fault_of_opening(counters: &Counters) -> Option<Errno>
    ensures { result ≡ open_fault counters.now.handles counters.now.next_fh }
{
    if counters.handles >= MAX_HANDLES {
        Some(Errno::ENFILE)
    } else if counters.next_fh >= COUNTER_END {
        Some(Errno::ENOSPC)
    } else {
        None
    }
}

fn open(
    alloc: Global,
    open_flags: u32,
    counters: &Counters,
    access: AccessMode,
    node: u64,
) -> Result<Planned, Memory>
    requires { open_fault counters.now.handles counters.now.next_fh ≡ None }
    ensures { IfOk result (λ p. p ≡ plan_opened open_flags counters.now access node) }
{
    let opened = OpenOut {
        fh: counters.next_fh,
        open_flags,
        backing_id: 0,
    };
    let answer = Answer::success(ByteList::from_vec(opened.body_of(alloc)?));
    let changes = changes_of_opening(alloc, counters, access, node)?;
    Ok(Planned { answer, changes })
}

// A new handle's rows, in the order in which they are written.
fn changes_of_opening(
    alloc: Global,
    counters: &Counters,
    access: AccessMode,
    node: u64,
) -> Result<ChangeList, Memory>
    requires { open_fault counters.now.handles counters.now.next_fh ≡ None }
    ensures { IfOk result (λ changes. changes ≡ opened_changes counters.now access node) }
{
    let mut changes = Vec::new(alloc);
    changes.push(Change::Handle(HandleRow {
        fh: counters.next_fh,
        node,
        access,
    }))?;
    changes.push(Change::Counters(counters_with_handle(counters)))?;
    Ok(ChangeList::from_vec(changes))
}

// The counters with a new handle.
pub(crate) fn counters_with_handle(counters: &Counters) -> Counters
    requires { open_fault counters.now.handles counters.now.next_fh ≡ None }
    ensures { result ≡ counters_opened counters.now }
{
    Counters {
        next_fh: counters.next_fh + 1,
        handles: counters.handles + 1,
        ..*counters
    }
}
