ghost use Rattle.std.specs.Prelude.{◌≡◌, ◌≤◌, None, true, IfOk};
ghost use Rattle.fuse_rows.specs.Bounds.{file_limit};
ghost use Rattle.fuse_init.specs.Profile.{terms};
ghost use Rattle.fuse_wire.specs.Bits.{fattr_size};
ghost use Rattle.fuse_tree.specs.Setting as setting;
ghost use Rattle.fuse_tree.specs.Setting.{set_fault};
ghost use Rattle.fuse_plan.specs.inner.PlanSetting as planning;
ghost use Rattle.fuse_plan.specs.inner.PlanSetting.{set_row, set_changes, set_counters};
ghost use Rattle.fuse_plan.specs.inner.PlanSetting.{set_gone};
ghost use Rattle.fuse_plan.specs.inner.Reading.{IsWithin, LooksUp, view};

use super::answers::{attr_answer, refused};
use super::attributes::{is_directory, is_regular_file};
use super::fault::PlanFault;
use super::space::{find_gone, find_sized, push_less};
use crate::planned::Planned;
use bitflags::Flags;
use fuse_init::Profile;
use fuse_request::SetattrIn;
use fuse_rows::{Change, ChangeList, Counters, NodeRow};
use fuse_tree::{Agreement, Look, TYPE_UNIT, max_file};
use fuse_wire::{Errno, Memory, Moment, SetattrValid};
use std::alloc::Global;

// SETATTR of the node of this row.
pub(crate) fn plan_setattr<L: Look>(
    alloc: Global,
    look: &mut L,
    agreement: &Agreement,
    set: &SetattrIn,
    now: Moment,
    row: &NodeRow,
) -> Result<Planned, PlanFault>
    requires fault { L.fault look.old ≡ None }
    requires within { IsWithin row.now }
    ensures { LooksUp (view L.is_clean L.sees L.fault L.looks L.fails) look.old look.new result
        (planning.plan_setattr agreement.now set.now now row.now) }
{
    if let Some(errno) = fault_of_set(agreement.profile, set, row.mode) {
        return Ok(refused(alloc, errno));
    }
    let gone = find_set_gone(look, set, row)?;
    let counters = find_set(look, agreement.profile, set)?;
    let valid = agreement.valid_secs();
    Ok(set_all(alloc, valid, set, now, gone, row, &counters)?)
}

// The blocks that are written no more: none, where the size is not set.
fn find_set_gone<L: Look>(look: &mut L, set: &SetattrIn, row: &NodeRow) -> Result<u64, PlanFault>
    requires { L.fault look.old ≡ None }
    ensures { LooksUp (view L.is_clean L.sees L.fault L.looks L.fails) look.old look.new result
        (set_gone set.now row.now) }
{
    if has(set, SetattrValid::SIZE) {
        find_gone(look, row, set.size)
    } else {
        Ok(0)
    }
}

// The counters, where the size is set and blocks are counted.
fn find_set<L: Look>(
    look: &mut L,
    profile: Profile,
    set: &SetattrIn,
) -> Result<Option<Counters>, PlanFault>
    requires { L.fault look.old ≡ None }
    ensures { LooksUp (view L.is_clean L.sees L.fault L.looks L.fails) look.old look.new result
        (set_counters profile set.now) }
{
    if has(set, SetattrValid::SIZE) {
        find_sized(look, profile)
    } else {
        Ok(None)
    }
}

// Whether this bit is set. Bits without names are ignored.
fn has(set: &SetattrIn, bit: SetattrValid) -> bool
    ensures { result ≡ setting.has_valid_bit set.now bit }
{
    SetattrValid::of(set.valid).contains(bit)
}

fn sets_any(set: &SetattrIn) -> bool
    ensures { result ≡ setting.sets_any set.now }
{
    has(set, SetattrValid::MODE)
        || has(set, SetattrValid::UID)
        || has(set, SetattrValid::GID)
        || has(set, SetattrValid::SIZE)
        || has(set, SetattrValid::ATIME)
        || has(set, SetattrValid::MTIME)
        || has(set, SetattrValid::ATIME_NOW)
        || has(set, SetattrValid::MTIME_NOW)
}

// The fault of a SETATTR for a node of this mode.
fn fault_of_set(profile: Profile, set: &SetattrIn, mode: u32) -> Option<Errno>
    ensures fault { result ≡ set_fault (terms profile).file_limit set.now mode }
    ensures within { result ≡ None → setting.has_valid_bit set.now fattr_size ≡ true
        → set.now.size ≤ file_limit }
{
    if !has(set, SetattrValid::SIZE) {
        None
    } else if is_directory(mode) {
        Some(Errno::EISDIR)
    } else if !is_regular_file(mode) {
        Some(Errno::EINVAL)
    } else if set.size > max_file(profile) {
        Some(Errno::EFBIG)
    } else {
        None
    }
}

// The permissions are replaced, and the type stays.
fn mode_after(set: &SetattrIn, mode: u32) -> u32
    ensures { result ≡ setting.mode_after set.now mode }
{
    if has(set, SetattrValid::MODE) {
        mode / TYPE_UNIT * TYPE_UNIT + set.mode % TYPE_UNIT
    } else {
        mode
    }
}

fn atime_after(set: &SetattrIn, now: Moment, atime: Moment) -> Moment
    ensures { result ≡ setting.atime_after set.now now atime }
{
    if has(set, SetattrValid::ATIME_NOW) {
        now
    } else if has(set, SetattrValid::ATIME) {
        Moment {
            secs: set.atime,
            nanos: set.atimensec,
        }
    } else {
        atime
    }
}

fn mtime_after(set: &SetattrIn, now: Moment, mtime: Moment) -> Moment
    ensures { result ≡ setting.mtime_after set.now now mtime }
{
    if has(set, SetattrValid::MTIME_NOW) {
        now
    } else if has(set, SetattrValid::MTIME) {
        Moment {
            secs: set.mtime,
            nanos: set.mtimensec,
        }
    } else if has(set, SetattrValid::SIZE) {
        now
    } else {
        mtime
    }
}

fn ctime_after(set: &SetattrIn, now: Moment, ctime: Moment) -> Moment
    ensures { result ≡ setting.ctime_after set.now now ctime }
{
    if has(set, SetattrValid::CTIME) {
        Moment {
            secs: set.ctime,
            nanos: set.ctimensec,
        }
    } else if sets_any(set) {
        now
    } else {
        ctime
    }
}

// The row after it, where there is no fault and so many blocks are written no more.
fn row_after(set: &SetattrIn, now: Moment, gone: u64, row: &NodeRow) -> NodeRow
    ensures { result ≡ set_row set.now now gone row.now }
{
    let mut after = *row;
    after.mode = mode_after(set, row.mode);
    if has(set, SetattrValid::UID) {
        after.uid = set.uid;
    }
    if has(set, SetattrValid::GID) {
        after.gid = set.gid;
    }
    if has(set, SetattrValid::SIZE) {
        after.size = set.size;
    }
    after.atime = atime_after(set, now, row.atime);
    after.mtime = mtime_after(set, now, row.mtime);
    after.ctime = ctime_after(set, now, row.ctime);
    after.written = match row.written {
        None => None,
        Some(written) => Some(written.saturating_sub(gone)),
    };
    after
}

fn set_all(
    alloc: Global,
    valid: u64,
    set: &SetattrIn,
    now: Moment,
    gone: u64,
    row: &NodeRow,
    counters: &Option<Counters>,
) -> Result<Planned, Memory>
    requires within { IsWithin row.now }
    requires size { setting.has_valid_bit set.now fattr_size ≡ true → set.now.size ≤ file_limit }
    ensures { IfOk result (λ p. p
        ≡ planning.plan_set valid set.now now gone row.now counters.now) }
{
    let after = row_after(set, now, gone, row);
    let answer = attr_answer(alloc, valid, &after)?;
    let changes = changes_to(alloc, set, now, gone, row, counters)?;
    Ok(Planned { answer, changes })
}

// The row, and where the size is set the bytes and the room.
fn changes_to(
    alloc: Global,
    set: &SetattrIn,
    now: Moment,
    gone: u64,
    row: &NodeRow,
    counters: &Option<Counters>,
) -> Result<ChangeList, Memory>
    ensures { IfOk result (λ changes. changes
        ≡ set_changes set.now now gone row.now counters.now) }
{
    let mut changes = Vec::new(alloc);
    changes.push(Change::Node(row_after(set, now, gone, row)))?;
    if has(set, SetattrValid::SIZE) {
        changes.push(Change::Sized {
            node: row.node,
            size: set.size,
        })?;
        push_less(&mut changes, counters, gone)?;
    }
    Ok(ChangeList::from_vec(changes))
}
