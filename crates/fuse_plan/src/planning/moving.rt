ghost use Rattle.std.specs.Prelude.{◌≡◌, ◌<◌, ◌+◌, ◌≤◌, ◌++◌, false, IfOk, OnOk};
ghost use Rattle.fuse_rows.specs.declared.limits.TheConstants.{COUNTER_END as counter_end};
ghost use Rattle.fuse_plan.specs.inner.Reading.{IsWithin};
ghost use Rattle.fuse_plan.specs.inner.PlanRenaming as planning;
ghost use Rattle.fuse_plan.specs.inner.PlanRenaming.{renaming_of, is_dir_other, dirs_changes};
ghost use Rattle.fuse_plan.specs.inner.PlanRenaming.{entry_change, lost_changes, rename_changes};
ghost use Rattle.fuse_plan.specs.inner.PlanRenaming.{exchange_changes};

use super::attributes::is_directory;
use super::finding::Link;
use super::remove::unnamed_row_of;
use super::rename::RenameIn;
use fuse_rows::{Change, ChangeList, Counters, EntryRow, NodeRow};
use fuse_wire::{ByteList, Memory, Moment};
use std::alloc::Global;

// Whether a directory leaves a directory, and whether one enters it.
#[derive(Clone, Copy)]
struct Passing {
    leaves: bool,
    enters: bool,
}

// A directory's row when directories pass.
fn dir_row_of(now: Moment, passing: Passing, row: &NodeRow) -> NodeRow
    requires { IsWithin row.now }
    ensures { result ≡ planning.dir_row now passing.leaves passing.enters row.now }
{
    let mut dir = *row;
    dir.mtime = now;
    dir.ctime = now;
    if passing.enters {
        dir.subdirs += 1;
    }
    if passing.leaves {
        dir.subdirs = dir.subdirs.saturating_sub(1);
    }
    dir
}

// A child's row when it comes to stand in another directory.
fn moved_row_of(now: Moment, up: u64, child: &NodeRow) -> NodeRow
    ensures { result ≡ planning.moved_row now up child.now }
{
    NodeRow {
        ctime: now,
        up,
        ..*child
    }
}

fn is_directory_there(other: Option<Link>) -> bool
    ensures { result ≡ is_dir_other other }
{
    match other {
        Some(other) => is_directory(other.child.mode),
        None => false,
    }
}

// Which of the children are directories.
#[derive(Clone, Copy)]
struct Movers {
    // The one that moves to the new directory.
    moves: bool,
    // The one that comes from there, if any.
    comes: bool,
    // The one that the new directory loses, if any.
    lost: bool,
}

// The rows of both directories, or of the one that both are.
fn put_dirs(
    changes: &mut Vec<Change>,
    asked: &RenameIn<'_>,
    from: &NodeRow,
    to: &NodeRow,
    dirs: Movers,
) -> Result<(), Memory>
    requires from_within { IsWithin from.now }
    requires to_within { IsWithin to.now }
    ensures { OnOk result (changes.new.items ≡ changes.old.items
        ++ dirs_changes (renaming_of asked.now) from.now to.now dirs.moves dirs.comes dirs.lost) }
{
    if from.node == asked.new_dir {
        let both = Passing {
            leaves: dirs.lost,
            enters: dirs.comes,
        };
        changes.push(Change::Node(dir_row_of(asked.at, both, from)))?;
    } else {
        let first = Passing {
            leaves: dirs.moves,
            enters: dirs.comes,
        };
        let second = Passing {
            leaves: dirs.lost,
            enters: dirs.moves,
        };
        changes.push(Change::Node(dir_row_of(asked.at, first, from)))?;
        changes.push(Change::Node(dir_row_of(asked.at, second, to)))?;
    }
    Ok(())
}

// The entry by which a child comes to stand under a name.
fn entry_of(
    alloc: Global,
    dir: u64,
    name: &[u8],
    child: &NodeRow,
    cookie: u64,
) -> Result<Change, Memory>
    ensures { IfOk result (λ change. change ≡ entry_change dir name.now child.now cookie) }
{
    Ok(Change::Entry(EntryRow {
        dir,
        name: ByteList::from_vec(Vec::from_slice(alloc, name)?),
        child: child.node,
        cookie,
    }))
}

// The entry at the new place goes.
fn put_lost(changes: &mut Vec<Change>, now: Moment, other: Option<Link>) -> Result<(), Memory>
    ensures { OnOk result (changes.new.items ≡ changes.old.items ++ lost_changes now other) }
{
    if let Some(other) = other {
        changes.push(Change::EntryGone {
            cookie: other.cookie,
        })?;
        changes.push(Change::Node(unnamed_row_of(now, &other.child)))?;
    }
    Ok(())
}

// The changes of RENAME: deletions stand before insertions.
pub(crate) fn rename_changes_of(
    alloc: Global,
    asked: &RenameIn<'_>,
    counters: &Counters,
    from: &NodeRow,
    to: &NodeRow,
    source: &Link,
    other: Option<Link>,
) -> Result<ChangeList, Memory>
    requires from_within { IsWithin from.now }
    requires to_within { IsWithin to.now }
    requires room { counters.now.next_cookie < counter_end }
    ensures { IfOk result (λ changes. changes ≡ rename_changes (renaming_of asked.now) counters.now
        from.now to.now source.now other) }
{
    let cookie = counters.next_cookie;
    let entry = entry_of(alloc, asked.new_dir, asked.new_name, &source.child, cookie)?;
    let dirs = Movers {
        moves: is_directory(source.child.mode),
        comes: false,
        lost: is_directory_there(other),
    };
    let mut changes = Vec::new(alloc);
    put_lost(&mut changes, asked.at, other)?;
    changes.push(Change::EntryGone {
        cookie: source.cookie,
    })?;
    put_dirs(&mut changes, asked, from, to, dirs)?;
    changes.push(Change::Node(moved_row_of(asked.at, asked.new_dir, &source.child)))?;
    changes.push(entry)?;
    changes.push(Change::Counters(Counters {
        next_cookie: counters.next_cookie + 1,
        ..*counters
    }))?;
    Ok(ChangeList::from_vec(changes))
}

// The changes of an exchange: both entries go before they come with new cookies.
pub(crate) fn exchange_changes_of(
    alloc: Global,
    asked: &RenameIn<'_>,
    counters: &Counters,
    from: &NodeRow,
    to: &NodeRow,
    source: &Link,
    other: &Link,
) -> Result<ChangeList, Memory>
    requires from_within { IsWithin from.now }
    requires to_within { IsWithin to.now }
    requires room { counters.now.next_cookie + 2 ≤ counter_end }
    ensures { IfOk result (λ changes. changes ≡ exchange_changes (renaming_of asked.now)
        counters.now from.now to.now source.now other.now) }
{
    let first = counters.next_cookie;
    let second = first + 1;
    let old_entry = entry_of(alloc, from.node, asked.old_name, &other.child, first)?;
    let new_entry = entry_of(alloc, asked.new_dir, asked.new_name, &source.child, second)?;
    let comes = is_directory(other.child.mode);
    let dirs = Movers {
        moves: is_directory(source.child.mode),
        comes,
        lost: comes,
    };
    let mut changes = Vec::new(alloc);
    changes.push(Change::EntryGone {
        cookie: source.cookie,
    })?;
    changes.push(Change::EntryGone {
        cookie: other.cookie,
    })?;
    changes.push(Change::Node(moved_row_of(asked.at, from.node, &other.child)))?;
    put_dirs(&mut changes, asked, from, to, dirs)?;
    changes.push(Change::Node(moved_row_of(asked.at, asked.new_dir, &source.child)))?;
    changes.push(old_entry)?;
    changes.push(new_entry)?;
    changes.push(Change::Counters(Counters {
        next_cookie: first + 2,
        ..*counters
    }))?;
    Ok(ChangeList::from_vec(changes))
}
