ghost use Rattle.std.specs.Prelude.{◌≡◌, ◌<◌, ◌^◌, None, false, IfOk};
ghost use Rattle.std.specs.Option.{option_map};
ghost use Rattle.fuse_init.specs.Profile.{terms};
ghost use Rattle.fuse_tree.specs.Making as making;
ghost use Rattle.fuse_tree.specs.Making.{is_full};
ghost use Rattle.fuse_plan.specs.inner.PlanMaking as planning;
ghost use Rattle.fuse_plan.specs.inner.Reading.{IsWithin, LooksUp, view};
ghost use Rattle.fuse_plan.specs.inner.PlanMaking.{dir_row_with, new_row, changes_of, plan_new};
ghost use Rattle.fuse_plan.specs.inner.PlanMaking.{new_entry_row, counters_after};
ghost use Rattle.fuse_plan.specs.inner.PlanMaking.{HasPlace};

use super::answers::{entry_answer, refused};
use super::attributes::is_directory;
use super::fault::PlanFault;
use super::finding::{find_counters, is_taken};
use crate::planned::Planned;
use fuse_init::Profile;
use fuse_request::InHeader;
use fuse_rows::{COUNTER_END, Change, ChangeList, Counters, EntryRow, NodeRow, Origin, Owner};
use fuse_tree::{Agreement, Look, NewNode, S_ISGID, inherits, max_nodes};
use fuse_wire::{ByteList, Errno, Memory, Moment};
use std::alloc::Global;

// Whether what is made in a directory of this mode gets its group.
fn gives_group(profile: Profile, mode: u32) -> bool
    ensures { result ≡ making.gives_group (terms profile) mode }
{
    inherits(profile) && mode / S_ISGID % 2 == 1
}

// The mode of what is made there: a directory gives its group too.
fn mode_in(gives: bool, mode: u32) -> u32
    requires { mode < 2 ^ 16 }
    ensures { result ≡ making.mode_in gives mode }
{
    if gives && is_directory(mode) && mode / S_ISGID % 2 == 0 {
        mode + S_ISGID
    } else {
        mode
    }
}

// Who asks, and when.
pub(crate) fn asker(header: &InHeader, now: Moment) -> Origin
    ensures { result ≡ making.asker header.now now }
{
    let owner = Owner {
        uid: header.uid,
        gid: header.gid,
    };
    Origin { owner, made: now }
}

// What is asked for: a node of this mode and device.
pub(crate) fn asked_node(from: &Origin, mode: u32, rdev: u32) -> NewNode
    ensures { result ≡ making.asked_node from.now mode rdev }
{
    NewNode {
        mode,
        uid: from.owner.uid,
        gid: from.owner.gid,
        rdev,
        made: from.made,
    }
}

// The initial attributes of a node that is asked for in the directory of this row.
pub(crate) fn begun(profile: Profile, row: &NodeRow, asked: &NewNode) -> NewNode
    requires { asked.now.mode < 2 ^ 16 }
    ensures { result ≡ making.begun (terms profile) row.now.mode row.now.gid asked.now }
{
    let gives = gives_group(profile, row.mode);
    NewNode {
        mode: mode_in(gives, asked.mode),
        gid: if gives { row.gid } else { asked.gid },
        ..*asked
    }
}

// A new node in the directory of this row, where the name is free.
pub(crate) fn plan_make<L: Look>(
    alloc: Global,
    look: &mut L,
    agreement: &Agreement,
    fresh: &NewNode,
    name: &[u8],
    row: &NodeRow,
) -> Result<Planned, PlanFault>
    requires fault { L.fault look.old ≡ None }
    requires within { IsWithin row.now }
    ensures { LooksUp (view L.is_clean L.sees L.fault L.looks L.fails) look.old look.new result
        (planning.plan_make agreement.now fresh.now name.now row.now) }
{
    if !row.is_named() {
        return Ok(refused(alloc, Errno::ENOENT));
    }
    if is_taken(look, row.node, name)? {
        return Ok(refused(alloc, Errno::EEXIST));
    }
    let counters = find_counters(look)?;
    if is_full_of(agreement.profile, &counters) {
        return Ok(refused(alloc, Errno::ENOSPC));
    }
    let valid = agreement.valid_secs();
    Ok(make(alloc, valid, &counters, fresh, name, row)?)
}

// No room for a node.
pub(crate) fn is_full_of(profile: Profile, counters: &Counters) -> bool
    ensures full { result ≡ is_full (terms profile).node_limit counters.now.nodes
        counters.now.next_node counters.now.next_cookie }
    ensures few { result ≡ false → HasPlace counters.now }
{
    counters.nodes >= max_nodes(profile)
        || counters.next_node >= COUNTER_END
        || counters.next_cookie >= COUNTER_END
}

fn make(
    alloc: Global,
    valid: u64,
    counters: &Counters,
    fresh: &NewNode,
    name: &[u8],
    row: &NodeRow,
) -> Result<Planned, Memory>
    requires within { IsWithin row.now }
    requires room { HasPlace counters.now }
    ensures { IfOk result (λ p. p ≡ plan_new valid counters.now fresh.now name.now row.now) }
{
    let answer = entry_answer(alloc, valid, &new_row_of(counters, fresh, row.node))?;
    let changes = make_changes(alloc, counters, fresh, name, row)?;
    Ok(Planned { answer, changes })
}

// The rows of a new node, in the order in which they are written.
fn make_changes(
    alloc: Global,
    counters: &Counters,
    fresh: &NewNode,
    name: &[u8],
    row: &NodeRow,
) -> Result<ChangeList, Memory>
    requires within { IsWithin row.now }
    requires room { HasPlace counters.now }
    ensures { IfOk result (λ changes. changes ≡ changes_of counters.now fresh.now name.now
        row.now) }
{
    let mut changes = Vec::new(alloc);
    changes.push(Change::Node(dir_row_of(fresh, row)))?;
    changes.push(Change::Node(new_row_of(counters, fresh, row.node)))?;
    changes.push(Change::Entry(new_entry_of(alloc, counters, name, row.node)?))?;
    changes.push(Change::Counters(counters_made(counters)))?;
    Ok(ChangeList::from_vec(changes))
}

// The entry of a new node in this directory.
pub(crate) fn new_entry_of(
    alloc: Global,
    counters: &Counters,
    name: &[u8],
    dir: u64,
) -> Result<EntryRow, Memory>
    ensures { IfOk result (λ entry. entry ≡ new_entry_row counters.now dir name.now) }
{
    let name = ByteList::from_vec(Vec::from_slice(alloc, name)?);
    Ok(EntryRow {
        dir,
        name,
        child: counters.next_node,
        cookie: counters.next_cookie,
    })
}

// The counters with a new node.
pub(crate) fn counters_made(counters: &Counters) -> Counters
    requires { HasPlace counters.now }
    ensures { result ≡ counters_after counters.now }
{
    Counters {
        next_node: counters.next_node + 1,
        next_cookie: counters.next_cookie + 1,
        nodes: counters.nodes + 1,
        ..*counters
    }
}

// The row of a directory when this node is made in it.
pub(crate) fn dir_row_of(fresh: &NewNode, row: &NodeRow) -> NodeRow
    requires { IsWithin row.now }
    ensures { result ≡ dir_row_with fresh.now row.now }
{
    let mut dir = *row;
    dir.mtime = fresh.made;
    dir.ctime = fresh.made;
    if is_directory(fresh.mode) {
        dir.subdirs += 1;
    }
    dir
}

// No written block, where they are counted.
fn none_written(counters: &Counters) -> Option<u64>
    ensures { result ≡ option_map (λ _. 0) counters.now.room }
{
    match counters.room {
        None => None,
        Some(_) => Some(0),
    }
}

// The row of a new node in this directory.
pub(crate) fn new_row_of(counters: &Counters, fresh: &NewNode, dir: u64) -> NodeRow
    ensures { result ≡ new_row counters.now fresh.now dir }
{
    NodeRow {
        node: counters.next_node,
        mode: fresh.mode,
        uid: fresh.uid,
        gid: fresh.gid,
        rdev: fresh.rdev,
        size: 0,
        atime: fresh.made,
        mtime: fresh.made,
        ctime: fresh.made,
        up: dir,
        subdirs: 0,
        written: none_written(counters),
    }
}
