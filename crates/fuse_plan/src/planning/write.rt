ghost use Rattle.std.specs.Prelude.{◌≡◌, ◌≤◌, ◌+◌, None, length, nat_lt, true, false, IfOk};
ghost use Rattle.fuse_init.specs.Profile.{terms};
ghost use Rattle.fuse_rows.specs.Bounds.{file_limit};
ghost use Rattle.fuse_tree.specs.Space.{has_room};
ghost use Rattle.fuse_tree.specs.Writing as writing;
ghost use Rattle.fuse_tree.specs.Writing.{count_body};
ghost use Rattle.fuse_plan.specs.inner.PlanWriting as planning;
ghost use Rattle.fuse_plan.specs.inner.PlanWriting.{written_row, write_changes, plan_written};
ghost use Rattle.fuse_plan.specs.inner.PlanSpace.{room_in};
ghost use Rattle.fuse_plan.specs.inner.Reading.{told, IsWithin, LooksUp, view};

use super::answers::{refused, unchanged};
use super::fault::PlanFault;
use super::finding::find_access;
use super::space::{find_new, find_sized, is_room_for, push_more};
use crate::planned::Planned;
use fuse_answer::{Answer, WriteOut};
use fuse_init::Profile;
use fuse_rows::{Change, ChangeList, Counters, NodeRow};
use fuse_tree::{Look, max_file};
use fuse_wire::{AccessMode, ByteList, Errno, Memory, Moment};
use std::alloc::Global;

// WRITE of the payload by a handle of the node of this row.
pub(crate) fn plan_write<L: Look>(
    alloc: Global,
    look: &mut L,
    profile: Profile,
    fh: u64,
    offset: u64,
    payload: &[u8],
    now: Moment,
    row: &NodeRow,
) -> Result<Planned, PlanFault>
    requires fault { L.fault look.old ≡ None }
    requires rows { IsWithin row.now }
    ensures { LooksUp (view L.is_clean L.sees L.fault L.looks L.fails) look.old look.new result
        (planning.plan_write profile fh
        (record { offset = offset; payload = payload.now; now = now }) row.now) }
{
    if !may_write(find_access(look, fh, row.node)?) {
        return Ok(refused(alloc, Errno::EBADF));
    }
    if payload.is_empty() {
        return Ok(unchanged(alloc, count_answer(alloc, 0)?));
    }
    if ends_too_far(profile, offset, payload.len()) {
        return Ok(refused(alloc, Errno::EFBIG));
    }
    let more = find_new(look, row, offset, payload.len())?;
    let counters = find_sized(look, profile)?;
    if !is_room_for(&counters, more) {
        return Ok(refused(alloc, Errno::ENOSPC));
    }
    Ok(write(alloc, offset, payload, more, now, row, &counters)?)
}

// Whether what is open so may be written to.
fn may_write(access: Option<AccessMode>) -> bool
    ensures { result ≡ writing.may_write access }
{
    matches!(access, Some(AccessMode::WriteOnly | AccessMode::ReadWrite))
}

// Whether so many bytes end past the end of every file.
fn ends_too_far(profile: Profile, offset: u64, len: usize) -> bool
    ensures far { result ≡ nat_lt (terms profile).file_limit (offset + len) }
    ensures within { result ≡ false → offset + len ≤ file_limit }
{
    let most = max_file(profile);
    offset > most || len as u64 > most - offset
}

// How many bytes were written.
fn count_answer(alloc: Global, count: usize) -> Result<Answer, Memory>
    ensures { IfOk result (λ answer. answer ≡ (told (count_body count)).answer) }
{
    // No message is that long.
    if count > u32::MAX as usize {
        return Err(Memory);
    }
    let size = count as u32;
    let body = WriteOut { size }.body_of(alloc)?;
    Ok(Answer::success(ByteList::from_vec(body)))
}

fn write(
    alloc: Global,
    offset: u64,
    payload: &[u8],
    more: u64,
    now: Moment,
    row: &NodeRow,
    counters: &Option<Counters>,
) -> Result<Planned, Memory>
    requires within { offset + length payload.now ≤ file_limit }
    requires row { IsWithin row.now }
    requires more { more ≤ offset + length payload.now }
    requires room { has_room (room_in counters.now) more ≡ true }
    ensures { IfOk result (λ p. p
        ≡ plan_written offset payload.now more now row.now counters.now) }
{
    let answer = count_answer(alloc, payload.len())?;
    let changes = changes_to(alloc, offset, payload, more, now, row, counters)?;
    Ok(Planned { answer, changes })
}

// The row, the bytes and the room: no more than the payload is written.
fn changes_to(
    alloc: Global,
    offset: u64,
    payload: &[u8],
    more: u64,
    now: Moment,
    row: &NodeRow,
    counters: &Option<Counters>,
) -> Result<ChangeList, Memory>
    requires within { offset + length payload.now ≤ file_limit }
    requires row { IsWithin row.now }
    requires more { more ≤ offset + length payload.now }
    requires room { has_room (room_in counters.now) more ≡ true }
    ensures { IfOk result (λ changes. changes
        ≡ write_changes offset payload.now more now row.now counters.now) }
{
    let mut changes = Vec::new(alloc);
    let end = offset + payload.len() as u64;
    changes.push(Change::Node(row_after(row, end, more, now)))?;
    let bytes = ByteList::from_vec(Vec::from_slice(alloc, payload)?);
    changes.push(Change::Written {
        node: row.node,
        offset,
        bytes,
    })?;
    push_more(&mut changes, counters, more)?;
    Ok(ChangeList::from_vec(changes))
}

// The row of a file in which written bytes end here, and so many blocks became written.
fn row_after(row: &NodeRow, end: u64, more: u64, now: Moment) -> NodeRow
    requires row { IsWithin row.now }
    requires more { more ≤ file_limit }
    ensures { result ≡ written_row end more now row.now }
{
    let written = match row.written {
        None => None,
        Some(written) => Some(written + more),
    };
    NodeRow {
        size: row.size.max(end),
        mtime: now,
        ctime: now,
        written,
        ..*row
    }
}
