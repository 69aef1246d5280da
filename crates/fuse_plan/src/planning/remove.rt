ghost use Rattle.std.specs.Prelude.{◌≡◌, None, IfOk};
ghost use Rattle.fuse_plan.specs.inner.PlanRemoving as planning;
ghost use Rattle.fuse_plan.specs.inner.PlanRemoving.{gone_changes, left_row, unnamed_row};
ghost use Rattle.fuse_plan.specs.inner.Reading.{LooksUp, view};

use super::answers::done_nothing;
use super::attributes::is_directory;
use super::fault::PlanFault;
use super::finding::{Link, find_counters};
use super::removal::{goes_without_name, push_removal};
use crate::planned::Planned;
use fuse_init::Profile;
use fuse_rows::{Change, ChangeList, NodeRow};
use fuse_tree::Look;
use fuse_wire::{Memory, Moment};
use std::alloc::Global;

// The entry of this link goes from the directory of this row, and its child where nothing keeps it.
pub(crate) fn plan_gone<L: Look>(
    alloc: Global,
    look: &mut L,
    profile: Profile,
    now: Moment,
    link: &Link,
    row: &NodeRow,
) -> Result<Planned, PlanFault>
    requires { L.fault look.old ≡ None }
    ensures { LooksUp (view L.is_clean L.sees L.fault L.looks L.fails) look.old look.new result
        (planning.plan_gone profile now link.now row.now) }
{
    let mut changes = changes_of(alloc, now, link, row)?;
    if goes_without_name(look, profile, link.child.node)? {
        let counters = find_counters(look)?;
        push_removal(&mut changes, &link.child, &counters)?;
    }
    Ok(Planned {
        answer: done_nothing(alloc).answer,
        changes: ChangeList::from_vec(changes),
    })
}

fn changes_of(alloc: Global, now: Moment, link: &Link, row: &NodeRow) -> Result<Vec<Change>, Memory>
    ensures { IfOk result (λ changes. changes.items ≡ gone_changes now link.now row.now) }
{
    let mut changes = Vec::new(alloc);
    changes.push(Change::EntryGone {
        cookie: link.cookie,
    })?;
    changes.push(Change::Node(left_row_of(now, &link.child, row)))?;
    changes.push(Change::Node(unnamed_row_of(now, &link.child)))?;
    Ok(changes)
}

// The row of a directory when the entry of this child goes from it.
pub(crate) fn left_row_of(now: Moment, child: &NodeRow, row: &NodeRow) -> NodeRow
    ensures { result ≡ left_row now child.now row.now }
{
    let mut dir = *row;
    dir.mtime = now;
    dir.ctime = now;
    if is_directory(child.mode) {
        dir.subdirs = dir.subdirs.saturating_sub(1);
    }
    dir
}

// The row of a child when its entry goes.
pub(crate) fn unnamed_row_of(now: Moment, child: &NodeRow) -> NodeRow
    ensures { result ≡ unnamed_row now child.now }
{
    NodeRow {
        ctime: now,
        up: 0,
        ..*child
    }
}
