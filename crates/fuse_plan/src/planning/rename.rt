ghost use Rattle.std.specs.Prelude.{◌≡◌, ◌<◌, ◌==◌, ◌&&◌, nat_eq, None, IfOk, IfSome};
ghost use Rattle.std.specs.Cmp.Lexicographic.{pointwise};
ghost use Rattle.fuse_rows.specs.declared.limits.TheConstants.{COUNTER_END as counter_end};
ghost use Rattle.fuse_tree.specs.State.{is_dir};
ghost use Rattle.fuse_rows.specs.Rows.{row_is_named};
ghost use Rattle.fuse_plan.specs.inner.Reading.{IsWithin, LooksUp, view};
ghost use Rattle.fuse_plan.specs.inner.PlanRemoving.{link_at};
ghost use Rattle.fuse_tree.specs.Renaming as renaming;
ghost use Rattle.fuse_tree.specs.Renaming.{asked_fault};
ghost use Rattle.fuse_plan.specs.inner.PlanRenaming as planning;
ghost use Rattle.fuse_plan.specs.inner.PlanRenaming.{renaming_of, is_same_link, row_holds, link_fault};
ghost use Rattle.fuse_plan.specs.inner.PlanRenaming.{new_dir_at, other_at, plan_rename_from};
ghost use Rattle.fuse_plan.specs.inner.PlanRenaming.{plan_rename_by, plan_rename_link};
ghost use Rattle.fuse_plan.specs.inner.PlanRenaming.{plan_rename_fitting, plan_rename_with_room};

use super::answers::{done_nothing, refused};
use super::attributes::is_directory;
use super::exchange::exchange_links;
use super::fault::PlanFault;
use super::finding::{Link, find_counters, find_link, find_node, has_entries};
use super::moving::rename_changes_of;
use super::names::fault_of_name;
use super::removal::{goes_without_name, push_removal};
use super::walking::lies_in;
use crate::planned::Planned;
use fuse_rows::{COUNTER_END, ChangeList, Counters, NodeRow};
use fuse_tree::{Look, RenameMode};
use fuse_wire::{Errno, Moment};
use std::alloc::Global;

/// The body of RENAME and RENAME2, and the moment. Without a mode the flags have no meaning.
#[derive(Clone, Copy)]
pub struct RenameIn<'a> {
    pub new_dir: u64,
    pub mode: Option<RenameMode>,
    pub old_name: &'a [u8],
    pub new_name: &'a [u8],
    pub at: Moment,
}

// The request with these flags.
pub(crate) fn asking<'a>(
    new_dir: u64,
    flags: u32,
    old_name: &'a [u8],
    new_name: &'a [u8],
    at: Moment,
) -> RenameIn<'a>
    ensures { renaming_of result ≡ renaming.asking new_dir flags old_name.now new_name.now at }
{
    RenameIn {
        new_dir,
        mode: RenameMode::of(flags),
        old_name,
        new_name,
        at,
    }
}

// RENAME and RENAME2 of a name in the node of this row.
pub(crate) fn plan_rename<L: Look>(
    alloc: Global,
    look: &mut L,
    asked: &RenameIn<'_>,
    from: &NodeRow,
) -> Result<Planned, PlanFault>
    requires fault { L.fault look.old ≡ None }
    requires within { IsWithin from.now }
    ensures { LooksUp (view L.is_clean L.sees L.fault L.looks L.fails) look.old look.new result
        (planning.plan_rename (renaming_of asked.now) from.now) }
{
    let Some(to) = find_new_dir(look, asked.new_dir, from)? else {
        return Ok(refused(alloc, Errno::ESTALE));
    };
    if let Some(errno) = fault_of_asked(asked, from, &to) {
        return Ok(refused(alloc, errno));
    }
    rename_from(alloc, look, asked, from, &to)
}

// The row of the new directory, which is looked up only where it isn't the old one.
fn find_new_dir<L: Look>(
    look: &mut L,
    new_dir: u64,
    from: &NodeRow,
) -> Result<Option<NodeRow>, PlanFault>
    requires fault { L.fault look.old ≡ None }
    requires within { IsWithin from.now }
    ensures row { LooksUp (view L.is_clean L.sees L.fault L.looks L.fails) look.old look.new result
        (new_dir_at new_dir from.now) }
    ensures within { IfOk result (λ row. IfSome row IsWithin) }
{
    if from.node == new_dir {
        return Ok(Some(*from));
    }
    find_node(look, new_dir)
}

// The fault before any entry is looked up.
fn fault_of_asked(asked: &RenameIn<'_>, from: &NodeRow, to: &NodeRow) -> Option<Errno>
    ensures { result ≡ asked_fault (renaming_of asked.now)
        (is_dir from.now.mode && is_dir to.now.mode)
        (row_is_named from.now && row_is_named to.now) }
{
    if !(is_directory(from.mode) && is_directory(to.mode)) {
        return Some(Errno::ENOTDIR);
    }
    if let Some(errno) = fault_of_name(asked.old_name) {
        return Some(errno);
    }
    if let Some(errno) = fault_of_name(asked.new_name) {
        return Some(errno);
    }
    if asked.mode.is_none() {
        return Some(Errno::EINVAL);
    }
    if from.is_named() && to.is_named() {
        None
    } else {
        Some(Errno::ENOENT)
    }
}

// Where both are directories with names of their own.
fn rename_from<L: Look>(
    alloc: Global,
    look: &mut L,
    asked: &RenameIn<'_>,
    from: &NodeRow,
    to: &NodeRow,
) -> Result<Planned, PlanFault>
    requires fault { L.fault look.old ≡ None }
    requires from_within { IsWithin from.now }
    requires to_within { IsWithin to.now }
    ensures { LooksUp (view L.is_clean L.sees L.fault L.looks L.fails) look.old look.new result
        (λ rows. plan_rename_from (renaming_of asked.now) from.now to.now
        (link_at rows from.now.node asked.now.old_name.now) rows) }
{
    let Some(source) = find_link(look, from.node, asked.old_name)? else {
        return Ok(refused(alloc, Errno::ENOENT));
    };
    rename_to(alloc, look, asked, from, to, &source)
}

// Where this link stands under the old name.
fn rename_to<L: Look>(
    alloc: Global,
    look: &mut L,
    asked: &RenameIn<'_>,
    from: &NodeRow,
    to: &NodeRow,
    source: &Link,
) -> Result<Planned, PlanFault>
    requires fault { L.fault look.old ≡ None }
    requires from_within { IsWithin from.now }
    requires to_within { IsWithin to.now }
    ensures { LooksUp (view L.is_clean L.sees L.fault L.looks L.fails) look.old look.new result
        (λ rows. plan_rename_by (renaming_of asked.now) from.now to.now source.now
        (other_at (renaming_of asked.now) from.now.node source.now rows) rows) }
{
    let other = find_other(look, asked, from.node, source)?;
    rename_by(alloc, look, asked, from, to, source, other)
}

// The entry of the new name, which is looked up only where it isn't the old place.
fn find_other<L: Look>(
    look: &mut L,
    asked: &RenameIn<'_>,
    dir: u64,
    source: &Link,
) -> Result<Option<Link>, PlanFault>
    requires { L.fault look.old ≡ None }
    ensures { LooksUp (view L.is_clean L.sees L.fault L.looks L.fails) look.old look.new result
        (λ rows. other_at (renaming_of asked.now) dir source.now rows) }
{
    if is_one_place(asked, dir) {
        return Ok(Some(*source));
    }
    find_link(look, asked.new_dir, asked.new_name)
}

// Whether the old name in this directory is the new name in the new one.
fn is_one_place(asked: &RenameIn<'_>, dir: u64) -> bool
    ensures { result ≡ ((dir == asked.now.new_dir) && pointwise nat_eq asked.now.old_name.now
        asked.now.new_name.now) }
{
    dir == asked.new_dir && asked.old_name == asked.new_name
}

// By the mode, where the other link stands under the new name.
fn rename_by<L: Look>(
    alloc: Global,
    look: &mut L,
    asked: &RenameIn<'_>,
    from: &NodeRow,
    to: &NodeRow,
    source: &Link,
    other: Option<Link>,
) -> Result<Planned, PlanFault>
    requires fault { L.fault look.old ≡ None }
    requires from_within { IsWithin from.now }
    requires to_within { IsWithin to.now }
    ensures { LooksUp (view L.is_clean L.sees L.fault L.looks L.fails) look.old look.new result
        (plan_rename_by (renaming_of asked.now) from.now to.now source.now other) }
{
    match asked.mode {
        Some(RenameMode::Exchange) => exchange_links(alloc, look, asked, from, to, source, other),
        Some(RenameMode::NoReplace) if other.is_some() => Ok(refused(alloc, Errno::EEXIST)),
        _ => rename_link(alloc, look, asked, from, to, source, other),
    }
}

// RENAME of the source to where the other link stands.
fn rename_link<L: Look>(
    alloc: Global,
    look: &mut L,
    asked: &RenameIn<'_>,
    from: &NodeRow,
    to: &NodeRow,
    source: &Link,
    other: Option<Link>,
) -> Result<Planned, PlanFault>
    requires fault { L.fault look.old ≡ None }
    requires from_within { IsWithin from.now }
    requires to_within { IsWithin to.now }
    ensures { LooksUp (view L.is_clean L.sees L.fault L.looks L.fails) look.old look.new result
        (plan_rename_link (renaming_of asked.now) from.now to.now source.now other) }
{
    if is_same(source, other) {
        return Ok(done_nothing(alloc));
    }
    if is_held(look, &source.child, from.node, asked.new_dir)? {
        return Ok(refused(alloc, Errno::EINVAL));
    }
    rename_fitting(alloc, look, asked, from, to, source, other)
}

// Whether both places are the same entry.
fn is_same(source: &Link, other: Option<Link>) -> bool
    ensures { result ≡ is_same_link source.now other }
{
    match other {
        Some(other) => source.cookie == other.cookie,
        None => false,
    }
}

// Whether the child is a directory that can't come to stand in this one, since this one lies in
// it. It stands in the first, and can stay there.
pub(crate) fn is_held<L: Look>(
    look: &mut L,
    child: &NodeRow,
    from: u64,
    dir: u64,
) -> Result<bool, PlanFault>
    requires { L.fault look.old ≡ None }
    ensures { LooksUp (view L.is_clean L.sees L.fault L.looks L.fails) look.old look.new result
        (λ rows. row_holds rows child.now from dir) }
{
    if !is_directory(child.mode) {
        return Ok(false);
    }
    if from == dir {
        return Ok(false);
    }
    lies_in(look, child.node, dir)
}

// Where the source may stand in the new directory.
fn rename_fitting<L: Look>(
    alloc: Global,
    look: &mut L,
    asked: &RenameIn<'_>,
    from: &NodeRow,
    to: &NodeRow,
    source: &Link,
    other: Option<Link>,
) -> Result<Planned, PlanFault>
    requires fault { L.fault look.old ≡ None }
    requires from_within { IsWithin from.now }
    requires to_within { IsWithin to.now }
    ensures { LooksUp (view L.is_clean L.sees L.fault L.looks L.fails) look.old look.new result
        (plan_rename_fitting (renaming_of asked.now) from.now to.now source.now other) }
{
    if let Some(errno) = fault_of_place(look, source, other)? {
        return Ok(refused(alloc, errno));
    }
    rename_with_room(alloc, look, asked, from, to, source, other)
}

// Why the source can't come to stand where the other link is.
fn fault_of_place<L: Look>(
    look: &mut L,
    source: &Link,
    other: Option<Link>,
) -> Result<Option<Errno>, PlanFault>
    requires { L.fault look.old ≡ None }
    ensures { LooksUp (view L.is_clean L.sees L.fault L.looks L.fails) look.old look.new result
        (λ rows. link_fault rows source.now other) }
{
    let Some(other) = other else {
        return Ok(None);
    };
    let is_dir = is_directory(source.child.mode);
    let other_is_dir = is_directory(other.child.mode);
    if is_dir && !other_is_dir {
        return Ok(Some(Errno::ENOTDIR));
    }
    if !is_dir && other_is_dir {
        return Ok(Some(Errno::EISDIR));
    }
    if !other_is_dir {
        return Ok(None);
    }
    fault_of_entries(look, other.child.node)
}

// A node in which an entry stands can't be replaced.
fn fault_of_entries<L: Look>(look: &mut L, dir: u64) -> Result<Option<Errno>, PlanFault>
    requires { L.fault look.old ≡ None }
    ensures { LooksUp (view L.is_clean L.sees L.fault L.looks L.fails) look.old look.new result
        (λ rows. planning.entries_fault rows dir) }
{
    if has_entries(look, dir)? {
        Ok(Some(Errno::ENOTEMPTY))
    } else {
        Ok(None)
    }
}

// Where there is a cookie left.
fn rename_with_room<L: Look>(
    alloc: Global,
    look: &mut L,
    asked: &RenameIn<'_>,
    from: &NodeRow,
    to: &NodeRow,
    source: &Link,
    other: Option<Link>,
) -> Result<Planned, PlanFault>
    requires fault { L.fault look.old ≡ None }
    requires from_within { IsWithin from.now }
    requires to_within { IsWithin to.now }
    ensures { LooksUp (view L.is_clean L.sees L.fault L.looks L.fails) look.old look.new result
        (plan_rename_with_room (renaming_of asked.now) from.now to.now source.now other) }
{
    let counters = find_counters(look)?;
    if counters.next_cookie >= COUNTER_END {
        return Ok(refused(alloc, Errno::ENOSPC));
    }
    let moved = rename_changes_of(alloc, asked, &counters, from, to, source, other)?;
    Ok(Planned {
        answer: done_nothing(alloc).answer,
        changes: with_lost(look, moved, &counters, other)?,
    })
}

// The changes, and those by which the child of the lost link goes where nothing keeps it.
fn with_lost<L: Look>(
    look: &mut L,
    moved: ChangeList,
    counters: &Counters,
    other: Option<Link>,
) -> Result<ChangeList, PlanFault>
    requires fault { L.fault look.old ≡ None }
    requires room { counters.now.next_cookie < counter_end }
    ensures { LooksUp (view L.is_clean L.sees L.fault L.looks L.fails) look.old look.new result
        (λ rows. planning.with_lost counters.now other rows moved) }
{
    let Some(other) = other else {
        return Ok(moved);
    };
    if !goes_without_name(look, counters.profile(), other.child.node)? {
        return Ok(moved);
    }
    let mut changes = moved.into_vec();
    let given = Counters {
        next_cookie: counters.next_cookie + 1,
        ..*counters
    };
    push_removal(&mut changes, &other.child, &given)?;
    Ok(ChangeList::from_vec(changes))
}
