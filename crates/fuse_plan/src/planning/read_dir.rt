ghost use Rattle.std.specs.Prelude.{◌≡◌, ◌≤◌, ◌*◌, ◌++◌, [], if◌then◌else◌, None, All, length, map};
ghost use Rattle.std.specs.Prelude.{Some, IfOk, IfErr, OnOk, OnErr, ◌≢◌};
ghost use Rattle.std.specs.List.{AllByRecursion, sum_by};
ghost use Rattle.fuse_wire.specs.declared.errno.TheConstants.Errno.{EINVAL};
ghost use Rattle.fuse_answer.specs.Entries.{directory_entry_of, packed_len, IsNamed};
ghost use Rattle.fuse_tree.specs.State.{type_of};
ghost use Rattle.fuse_rows.specs.Rows.{children_after};
ghost use Rattle.fuse_plan.specs.Plan.{look_fault};
ghost use Rattle.fuse_plan.specs.inner.PlanListing as planning;
ghost use Rattle.fuse_plan.specs.inner.PlanListing.{dots_after, row_above, listed_child};
ghost use Rattle.fuse_plan.specs.inner.PlanListing.{row_len_with};
ghost use Rattle.fuse_plan.specs.inner.PlanListing.{plan_prefix, plan_list, ReadsBy, IsCut, IsShown};
ghost use Rattle.fuse_plan.specs.inner.Reading as planned;
ghost use Rattle.fuse_plan.specs.inner.Reading.{IsWithin, IsReported, told, LooksUp};
ghost use Rattle.fuse_plan.specs.inner.Reading.{LookedOrFailed, view};
ghost use Rattle.fuse_rows.specs.declared.limits.TheConstants.{MAX_READ as max_read};
ghost use Rattle.fuse_tree.specs.declared.mode.TheConstants.{S_IFDIR as s_ifdir};

use super::answers::{done_nothing, refused, unchanged};
use super::attributes::is_directory;
use super::fault::PlanFault;
use super::finding::{is_beyond, is_open_at};
use crate::planned::Planned;
use fuse_answer::{Answer, Dirent, MAX_NAME, PackFault, pack};
use fuse_request::ReadIn;
use fuse_rows::{Child, LEAST_ENTRY, MAX_READ, NodeRow, ROOT_ID};
use fuse_tree::{Look, S_IFDIR, TYPE_UNIT, TYPES};
use fuse_wire::{Errno, Memory};
use std::alloc::Global;

// READDIR of the directory of this row.
pub(crate) fn plan_read_dir<L: Look>(
    alloc: Global,
    look: &mut L,
    asked: &ReadIn,
    row: &NodeRow,
) -> Result<Planned, PlanFault>
    requires { L.fault look.old ≡ None }
    ensures { LooksUp (view L.is_clean L.sees L.fault L.looks L.fails) look.old look.new result
        (planning.plan_read_dir asked.now row.now) }
{
    if !is_open_at(look, asked.fh, row.node)? {
        return Ok(refused(alloc, Errno::EBADF));
    }
    if !is_directory(row.mode) {
        return Ok(refused(alloc, Errno::ENOTDIR));
    }
    if asked.size > MAX_READ {
        return Ok(refused(alloc, Errno::EINVAL));
    }
    if !row.is_named() {
        return Ok(refused(alloc, Errno::ENOENT));
    }
    list(alloc, look, asked.offset, asked.size, row)
}

// The entries of a directory after the offset, as many as fit.
fn list<L: Look>(
    alloc: Global,
    look: &mut L,
    offset: u64,
    size: u32,
    row: &NodeRow,
) -> Result<Planned, PlanFault>
    requires fault { L.fault look.old ≡ None }
    requires size { size ≤ max_read }
    ensures { LooksUp (view L.is_clean L.sees L.fault L.looks L.fails) look.old look.new result
        (plan_list offset size row.now) }
{
    let enough = size / LEAST_ENTRY + 1;
    let children = find_children(look, row.node, offset, enough as usize)?;
    let dirents = dots_of(alloc, offset, row)?;
    list_after(alloc, dirents, children.as_slice(), size)
}

// After the dots as many entries as fit.
#[tactic(auto, using(crate::proofs::Cuts::none_told, crate::proofs::Cuts::dots_fit))]
fn list_after<'a>(
    alloc: Global,
    mut dirents: Vec<Dirent<'a>>,
    children: &'a [Child],
    size: u32,
) -> Result<Planned, PlanFault>
    requires size { size ≤ max_read }
    requires few { length dirents.items ≤ 2 }
    requires dots { sum_by packed_len (map directory_entry_of dirents.items)
        ≡ 32 * length dirents.items }
    requires named { All (λ d. IsNamed (directory_entry_of d)) dirents.items }
    ensures plan { AllByRecursion IsShown children.now → IsReported result (plan_prefix
        (map directory_entry_of dirents.entry.items ++ map listed_child children.now) size) }
    ensures looked { look_fault result ≡ None }
{
    let dots_len = LEAST_ENTRY as usize * dirents.len();
    let count = count_fitting(children, 0, (size as usize).saturating_sub(dots_len));
    if count == 0 && dirents.is_empty() {
        return Ok(list_nothing(alloc, children.is_empty()));
    }
    push_entries(&mut dirents, &children[..count])?;
    Ok(list_prefix(alloc, dirents.as_slice(), size)?)
}

// Where no entry fits: none is there, or the first one is too big.
pub(crate) fn list_nothing(alloc: Global, is_all: bool) -> Planned
    ensures { result ≡ (if is_all then told [] else planned.refused EINVAL) }
{
    if is_all {
        done_nothing(alloc)
    } else {
        refused(alloc, Errno::EINVAL)
    }
}

// How many entries come before the first that ends past so many bytes, where each takes some more.
pub(crate) fn count_fitting(children: &[Child], extra: usize, room: usize) -> usize
    requires { extra ≤ 128 }
    ensures { IsCut extra children.now room result }
{
    let mut left = room;
    let mut count = 0;
    for child in children {
        let len = len_of(extra, child);
        if len > left {
            return count;
        }
        left -= len;
        count += 1;
    }
    count
}

// How many bytes the entry takes in a listing, with so many more.
fn len_of(extra: usize, child: &Child) -> usize
    requires { extra ≤ 128 }
    ensures { result ≡ row_len_with extra child.now }
{
    extra + Dirent::NAME_AT + child.entry.name.as_slice().len().next_multiple_of(8)
}

pub(crate) fn find_children<L: Look>(
    look: &mut L,
    dir: u64,
    cookie: u64,
    limit: usize,
) -> Result<Vec<Child>, PlanFault>
    requires { L.fault look.old ≡ None }
    ensures rows { ReadsBy (λ v. v.items) (L.is_clean look.new) (L.sees look.old) result
        (λ rows. children_after rows dir cookie limit) }
    ensures looked { LookedOrFailed L.fault L.looks L.fails look.old look.new result }
{
    Ok(look.children_after(dir, cookie, limit)?)
}

// The directory itself and the one above it, where they stand after the offset.
fn dots_of<'a>(alloc: Global, offset: u64, row: &NodeRow) -> Result<Vec<Dirent<'a>>, Memory>
    ensures entries { IfOk result (λ dirents. map directory_entry_of dirents.items
        ≡ dots_after offset row.now) }
    ensures named { IfOk result (λ dirents. All (λ d. IsNamed (directory_entry_of d)) dirents.items) }
{
    let mut dirents = Vec::new(alloc);
    if offset < 1 {
        dirents.push(dot_of(row.node, 1, b"."))?;
    }
    if offset < 2 {
        dirents.push(dot_of(above_of(row), 2, b".."))?;
    }
    Ok(dirents)
}

// The directory above, and above the root the root.
pub(crate) fn above_of(row: &NodeRow) -> u64
    ensures { result ≡ row_above row.now }
{
    if row.node == ROOT_ID { ROOT_ID } else { row.up }
}

pub(crate) fn dot_of(ino: u64, off: u64, name: &[u8]) -> Dirent<'_>
    ensures { directory_entry_of result ≡ record {
      ino = ino;
      off = off;
      kind = type_of s_ifdir;
      name
          = name.now;
    } }
{
    Dirent {
        ino,
        off,
        kind: type_in(S_IFDIR),
        name,
    }
}

// The type of a node, from its mode.
pub(crate) fn type_in(mode: u32) -> u32
    ensures { result ≡ type_of mode }
{
    mode / TYPE_UNIT % TYPES
}

// Appends entries, each with the type of the node that it leads to.
fn push_entries<'a>(dirents: &mut Vec<Dirent<'a>>, children: &'a [Child]) -> Result<(), PlanFault>
    requires named { All (λ d. IsNamed (directory_entry_of d)) dirents.old.items }
    ensures entries { OnOk result (map directory_entry_of dirents.new.items
        ≡ map directory_entry_of dirents.old.items ++ map listed_child children.now) }
    ensures named { OnOk result (All (λ d. IsNamed (directory_entry_of d)) dirents.new.items) }
    ensures shown { AllByRecursion IsShown children.now → IfErr result (λ f. f ≢ PlanFault.NotATree) }
    ensures looked { look_fault result ≡ None }
{
    for child in children {
        let dirent = dirent_of(child)?;
        dirents.push(dirent)?;
    }
    Ok(())
}

// The row of a child that is listed, within the bounds of every profile.
pub(crate) fn listed_row(child: &Child) -> Result<NodeRow, PlanFault>
    ensures row { IfOk result (λ row. child.now.row ≡ Some row) }
    ensures within { IfOk result IsWithin }
    ensures some { OnOk result (1 ≤ length child.now.entry.name) }
    ensures short { OnOk result (length child.now.entry.name ≤ 255) }
    ensures shown { OnErr result (¬ IsShown child.now) }
    ensures looked { look_fault result ≡ None }
{
    let name = child.entry.name.as_slice();
    if name.is_empty() || name.len() > MAX_NAME {
        return Err(PlanFault::NotATree);
    }
    let Some(row) = child.row else {
        return Err(PlanFault::NotATree);
    };
    if is_beyond(&row) {
        return Err(PlanFault::NotATree);
    }
    Ok(row)
}

fn dirent_of(child: &Child) -> Result<Dirent<'_>, PlanFault>
    ensures entry { IfOk result (λ d. directory_entry_of d ≡ listed_child child.now) }
    ensures named { IfOk result (λ d. IsNamed (directory_entry_of d)) }
    ensures shown { OnErr result (¬ IsShown child.now) }
    ensures looked { look_fault result ≡ None }
{
    let row = listed_row(child)?;
    Ok(Dirent {
        ino: child.entry.child,
        off: child.entry.cookie,
        kind: type_in(row.mode),
        name: child.entry.name.as_slice(),
    })
}

// As many entries as fit.
#[tactic(auto, using(crate::proofs::Cuts::prefix_planned))]
fn list_prefix(alloc: Global, entries: &[Dirent<'_>], size: u32) -> Result<Planned, Memory>
    requires named { All (λ d. IsNamed (directory_entry_of d)) entries.now }
    requires size { size ≤ max_read }
    ensures { IfOk result (λ p. p ≡ plan_prefix (map directory_entry_of entries.now) size) }
{
    match pack(alloc, entries, size) {
        Ok(packed) => Ok(unchanged(alloc, Answer::success(packed.body))),
        Err(PackFault::FirstTooBig) => Ok(refused(alloc, Errno::EINVAL)),
        Err(PackFault::Memory) => Err(Memory),
    }
}
