ghost use Rattle.std.specs.Prelude.{◌≡◌, ◌∷◌, [], None, IfOk};
ghost use Rattle.fuse_plan.specs.inner.PlanOpening as planning;
ghost use Rattle.fuse_plan.specs.inner.PlanOpening.{plan_close};
ghost use Rattle.fuse_rows.specs.declared.rows.Change.TheVariants.{HandleGone, Counters as CountersLeft};
ghost use Rattle.fuse_plan.specs.inner.Reading.{LooksUp, view};

use super::answers::{done_nothing, refused};
use super::attributes::is_directory;
use super::fault::PlanFault;
use super::finding::{find_counters, is_open_at};
use super::removal::{goes_with_handle, push_removal};
use crate::planned::Planned;
use fuse_rows::{Change, ChangeList, Counters, NodeRow};
use fuse_tree::Look;
use fuse_wire::{Errno, Memory};
use std::alloc::Global;

// RELEASE of a handle of the node of this row.
pub(crate) fn plan_release<L: Look>(
    alloc: Global,
    look: &mut L,
    fh: u64,
    row: &NodeRow,
) -> Result<Planned, PlanFault>
    requires { L.fault look.old ≡ None }
    ensures { LooksUp (view L.is_clean L.sees L.fault L.looks L.fails) look.old look.new result
        (planning.plan_release fh row.now) }
{
    let kind_fault = if is_directory(row.mode) {
        Some(Errno::EISDIR)
    } else {
        None
    };
    close(alloc, look, fh, kind_fault, row)
}

// RELEASEDIR of a handle of the node of this row.
pub(crate) fn plan_release_dir<L: Look>(
    alloc: Global,
    look: &mut L,
    fh: u64,
    row: &NodeRow,
) -> Result<Planned, PlanFault>
    requires { L.fault look.old ≡ None }
    ensures { LooksUp (view L.is_clean L.sees L.fault L.looks L.fails) look.old look.new result
        (planning.plan_release_dir fh row.now) }
{
    let kind_fault = if is_directory(row.mode) {
        None
    } else {
        Some(Errno::ENOTDIR)
    };
    close(alloc, look, fh, kind_fault, row)
}

// Closes a handle that is open at this node, unless the node is of another kind. In a tree a handle
// that is open is counted.
fn close<L: Look>(
    alloc: Global,
    look: &mut L,
    fh: u64,
    kind_fault: Option<Errno>,
    row: &NodeRow,
) -> Result<Planned, PlanFault>
    requires { L.fault look.old ≡ None }
    ensures { LooksUp (view L.is_clean L.sees L.fault L.looks L.fails) look.old look.new result
        (plan_close fh kind_fault row.now) }
{
    if !is_open_at(look, fh, row.node)? {
        return Ok(refused(alloc, Errno::EBADF));
    }
    if let Some(errno) = kind_fault {
        return Ok(refused(alloc, errno));
    }
    let counters = find_counters(look)?;
    if counters.handles == 0 {
        return Err(PlanFault::NotATree);
    }
    plan_closed(alloc, look, &counters, fh, row)
}

// The fh goes, and its node where nothing else keeps it.
fn plan_closed<L: Look>(
    alloc: Global,
    look: &mut L,
    counters: &Counters,
    fh: u64,
    row: &NodeRow,
) -> Result<Planned, PlanFault>
    requires { L.fault look.old ≡ None }
    ensures { LooksUp (view L.is_clean L.sees L.fault L.looks L.fails) look.old look.new result
        (planning.plan_closed counters.now fh row.now) }
{
    let left = counters_closed(counters);
    let mut changes = changes_of(alloc, left, fh)?;
    if goes_with_handle(look, counters.profile(), fh, row)? {
        push_removal(&mut changes, row, &left)?;
    }
    Ok(Planned {
        answer: done_nothing(alloc).answer,
        changes: ChangeList::from_vec(changes),
    })
}

fn counters_closed(counters: &Counters) -> Counters
    ensures { result ≡ planning.counters_closed counters.now }
{
    Counters {
        handles: counters.handles.saturating_sub(1),
        ..*counters
    }
}

fn changes_of(alloc: Global, left: Counters, fh: u64) -> Result<Vec<Change>, Memory>
    ensures { IfOk result (λ changes. changes.items ≡ HandleGone fh ∷ CountersLeft left ∷ []) }
{
    let mut changes = Vec::new(alloc);
    changes.push(Change::HandleGone { fh })?;
    changes.push(Change::Counters(left))?;
    Ok(changes)
}
