ghost use Rattle.std.specs.Prelude.{◌≡◌, ◌||◌, None};
ghost use Rattle.fuse_plan.specs.inner.Reading.{IsWithin, LooksUp, view};
ghost use Rattle.fuse_plan.specs.inner.PlanRenaming.{renaming_of, row_holds, plan_exchange_link};
ghost use Rattle.fuse_plan.specs.inner.PlanRenaming.{plan_exchange_apart, plan_exchange_with_room};

use super::answers::{done_nothing, refused};
use super::fault::PlanFault;
use super::finding::{Link, find_counters};
use super::moving::exchange_changes_of;
use super::rename::{RenameIn, is_held};
use crate::planned::Planned;
use fuse_rows::{COUNTER_END, NodeRow};
use fuse_tree::Look;
use fuse_wire::Errno;
use std::alloc::Global;

// RENAME2 that makes the children of two links change places.
pub(crate) fn exchange_links<L: Look>(
    alloc: Global,
    look: &mut L,
    asked: &RenameIn<'_>,
    from: &NodeRow,
    to: &NodeRow,
    source: &Link,
    other: Option<Link>,
) -> Result<Planned, PlanFault>
    requires fault { L.fault look.old ≡ None }
    requires from_within { IsWithin from.now }
    requires to_within { IsWithin to.now }
    ensures { LooksUp (view L.is_clean L.sees L.fault L.looks L.fails) look.old look.new result
        (plan_exchange_link (renaming_of asked.now) from.now to.now source.now other) }
{
    let Some(other) = other else {
        return Ok(refused(alloc, Errno::ENOENT));
    };
    if source.cookie == other.cookie {
        return Ok(done_nothing(alloc));
    }
    exchange_apart(alloc, look, asked, from, to, source, &other)
}

// Where both links aren't the same.
fn exchange_apart<L: Look>(
    alloc: Global,
    look: &mut L,
    asked: &RenameIn<'_>,
    from: &NodeRow,
    to: &NodeRow,
    source: &Link,
    other: &Link,
) -> Result<Planned, PlanFault>
    requires fault { L.fault look.old ≡ None }
    requires from_within { IsWithin from.now }
    requires to_within { IsWithin to.now }
    ensures { LooksUp (view L.is_clean L.sees L.fault L.looks L.fails) look.old look.new result
        (plan_exchange_apart (renaming_of asked.now) from.now to.now source.now other.now) }
{
    if is_either_held(look, &source.child, from.node, &other.child, asked.new_dir)? {
        return Ok(refused(alloc, Errno::EINVAL));
    }
    exchange_with_room(alloc, look, asked, from, to, source, other)
}

// Whether one of two children is a directory that can't come to stand in the other's directory.
fn is_either_held<L: Look>(
    look: &mut L,
    child: &NodeRow,
    dir: u64,
    other: &NodeRow,
    other_dir: u64,
) -> Result<bool, PlanFault>
    requires { L.fault look.old ≡ None }
    ensures { LooksUp (view L.is_clean L.sees L.fault L.looks L.fails) look.old look.new result
        (λ rows. row_holds rows child.now dir other_dir || row_holds rows other.now other_dir dir) }
{
    if is_held(look, child, dir, other_dir)? {
        return Ok(true);
    }
    is_held(look, other, other_dir, dir)
}

// Where there are two cookies left.
fn exchange_with_room<L: Look>(
    alloc: Global,
    look: &mut L,
    asked: &RenameIn<'_>,
    from: &NodeRow,
    to: &NodeRow,
    source: &Link,
    other: &Link,
) -> Result<Planned, PlanFault>
    requires fault { L.fault look.old ≡ None }
    requires from_within { IsWithin from.now }
    requires to_within { IsWithin to.now }
    ensures { LooksUp (view L.is_clean L.sees L.fault L.looks L.fails) look.old look.new result
        (plan_exchange_with_room (renaming_of asked.now) from.now to.now source.now other.now) }
{
    let counters = find_counters(look)?;
    if counters.next_cookie > COUNTER_END - 2 {
        return Ok(refused(alloc, Errno::ENOSPC));
    }
    let changes = exchange_changes_of(alloc, asked, &counters, from, to, source, other)?;
    Ok(Planned {
        answer: done_nothing(alloc).answer,
        changes,
    })
}
