ghost use Rattle.std.specs.Prelude.{◌≡◌, ◌≤◌, ◌*◌, ◌++◌, None, All, length, map};
ghost use Rattle.std.specs.Prelude.{IfOk, IfErr, OnOk, OnErr, ◌≢◌};
ghost use Rattle.std.specs.List.{AllByRecursion, sum_by};
ghost use Rattle.fuse_answer.specs.Entries as listed;
ghost use Rattle.fuse_answer.specs.Entries.{IsNamed};
ghost use Rattle.fuse_answer.specs.PlusEntries.{plus_of, plus_len};
ghost use Rattle.fuse_tree.specs.State.{type_of};
ghost use Rattle.fuse_plan.specs.Plan.{look_fault};
ghost use Rattle.fuse_plan.specs.inner.PlanListing.{dots_after, IsShown};
ghost use Rattle.fuse_plan.specs.inner.PlanPlus as planning;
ghost use Rattle.fuse_plan.specs.inner.PlanPlus.{plus_dot, listed_plus, plan_plus_prefix};
ghost use Rattle.fuse_plan.specs.inner.PlanPlus.{plan_list_plus};
ghost use Rattle.fuse_plan.specs.inner.Reading.{IsReported, LooksUp, view};
ghost use Rattle.fuse_rows.specs.declared.limits.TheConstants.{MAX_READ as max_read};
ghost use Rattle.fuse_tree.specs.declared.mode.TheConstants.{S_IFDIR as s_ifdir};

use super::answers::{entry_of, refused, unchanged};
use super::attributes::is_directory;
use super::fault::PlanFault;
use super::finding::is_open_at;
use super::read_dir::{
    above_of, count_fitting, dot_of, find_children, list_nothing, listed_row, type_in,
};
use crate::planned::Planned;
use fuse_answer::{Answer, Dirent, EntryOut, PackFault, PlusDirent, pack_plus};
use fuse_request::ReadIn;
use fuse_rows::{Child, LEAST_ENTRY, MAX_READ, NodeRow};
use fuse_tree::Look;
use fuse_wire::{Errno, Memory};
use std::alloc::Global;

// READDIRPLUS of the directory of this row. What it says of nodes is valid for so many seconds.
pub(crate) fn plan_read_dir_plus<L: Look>(
    alloc: Global,
    look: &mut L,
    valid: u64,
    asked: &ReadIn,
    row: &NodeRow,
) -> Result<Planned, PlanFault>
    requires { L.fault look.old ≡ None }
    ensures { LooksUp (view L.is_clean L.sees L.fault L.looks L.fails) look.old look.new result
        (planning.plan_read_dir_plus valid asked.now row.now) }
{
    if !is_open_at(look, asked.fh, row.node)? {
        return Ok(refused(alloc, Errno::EBADF));
    }
    if !is_directory(row.mode) {
        return Ok(refused(alloc, Errno::ENOTDIR));
    }
    if asked.size > MAX_READ {
        return Ok(refused(alloc, Errno::EINVAL));
    }
    if !row.is_named() {
        return Ok(refused(alloc, Errno::ENOENT));
    }
    list_plus(alloc, look, valid, asked.offset, asked.size, row)
}

// The entries of a directory after the offset, as many as fit.
fn list_plus<L: Look>(
    alloc: Global,
    look: &mut L,
    valid: u64,
    offset: u64,
    size: u32,
    row: &NodeRow,
) -> Result<Planned, PlanFault>
    requires fault { L.fault look.old ≡ None }
    requires size { size ≤ max_read }
    ensures { LooksUp (view L.is_clean L.sees L.fault L.looks L.fails) look.old look.new result
        (plan_list_plus valid offset size row.now) }
{
    let enough = size / (EntryOut::SIZE as u32 + LEAST_ENTRY) + 1;
    let children = find_children(look, row.node, offset, enough as usize)?;
    let dirents = plus_dots_of(alloc, offset, row)?;
    list_plus_after(alloc, valid, dirents, children.as_slice(), size)
}

// After the dots as many entries as fit.
#[tactic(auto, using(crate::proofs::Cuts::none_plus, crate::proofs::Cuts::dots_fit))]
fn list_plus_after<'a>(
    alloc: Global,
    valid: u64,
    mut dirents: Vec<PlusDirent<'a>>,
    children: &'a [Child],
    size: u32,
) -> Result<Planned, PlanFault>
    requires size { size ≤ max_read }
    requires few { length dirents.items ≤ 2 }
    requires dots { sum_by plus_len (map plus_of dirents.items) ≡ 160 * length dirents.items }
    requires named { All (λ d. IsNamed (listed.directory_entry_of d.dirent)) dirents.items }
    ensures plan { AllByRecursion IsShown children.now → IsReported result (plan_plus_prefix
        (map plus_of dirents.entry.items ++ map (listed_plus valid) children.now) size) }
    ensures looked { look_fault result ≡ None }
{
    let dots_len = (EntryOut::SIZE + LEAST_ENTRY as usize) * dirents.len();
    let room = (size as usize).saturating_sub(dots_len);
    let count = count_fitting(children, EntryOut::SIZE, room);
    if count == 0 && dirents.is_empty() {
        return Ok(list_nothing(alloc, children.is_empty()));
    }
    push_plus(valid, &mut dirents, &children[..count])?;
    Ok(list_plus_prefix(alloc, dirents.as_slice(), size)?)
}

// The directory itself and the one above it, where they stand after the offset: the kernel shall
// not take them as looked up.
fn plus_dots_of<'a>(
    alloc: Global,
    offset: u64,
    row: &NodeRow,
) -> Result<Vec<PlusDirent<'a>>, Memory>
    ensures entries { IfOk result (λ dirents. map plus_of dirents.items
        ≡ map plus_dot (dots_after offset row.now)) }
    ensures named { IfOk result (λ dirents. All (λ d. IsNamed (listed.directory_entry_of d.dirent))
        dirents.items) }
{
    let mut dirents = Vec::new(alloc);
    if offset < 1 {
        dirents.push(plus_dot_of(row.node, 1, b"."))?;
    }
    if offset < 2 {
        dirents.push(plus_dot_of(above_of(row), 2, b".."))?;
    }
    Ok(dirents)
}

fn plus_dot_of(ino: u64, off: u64, name: &[u8]) -> PlusDirent<'_>
    ensures { plus_of result ≡ plus_dot (record {
      ino = ino;
      off = off;
      kind = type_of s_ifdir;
      name
          = name.now;
    }) }
{
    PlusDirent {
        entry_out: None,
        dirent: dot_of(ino, off, name),
    }
}

// Appends entries, each with what LOOKUP answers of its node.
fn push_plus<'a>(
    valid: u64,
    dirents: &mut Vec<PlusDirent<'a>>,
    children: &'a [Child],
) -> Result<(), PlanFault>
    requires named { All (λ d. IsNamed (listed.directory_entry_of d.dirent)) dirents.old.items }
    ensures entries { OnOk result (map plus_of dirents.new.items
        ≡ map plus_of dirents.old.items ++ map (listed_plus valid) children.now) }
    ensures named { OnOk result
        (All (λ d. IsNamed (listed.directory_entry_of d.dirent)) dirents.new.items) }
    ensures shown { AllByRecursion IsShown children.now → IfErr result (λ f. f ≢ PlanFault.NotATree) }
    ensures looked { look_fault result ≡ None }
{
    for child in children {
        let dirent = plus_of_child(valid, child)?;
        dirents.push(dirent)?;
    }
    Ok(())
}

fn plus_of_child(valid: u64, child: &Child) -> Result<PlusDirent<'_>, PlanFault>
    ensures entry { IfOk result (λ d. plus_of d ≡ listed_plus valid child.now) }
    ensures named { IfOk result (λ d. IsNamed (listed.directory_entry_of d.dirent)) }
    ensures shown { OnErr result (¬ IsShown child.now) }
    ensures looked { look_fault result ≡ None }
{
    let row = listed_row(child)?;
    let dirent = Dirent {
        ino: child.entry.child,
        off: child.entry.cookie,
        kind: type_in(row.mode),
        name: child.entry.name.as_slice(),
    };
    Ok(PlusDirent {
        entry_out: Some(entry_of(valid, &row)),
        dirent,
    })
}

// As many entries as fit.
#[tactic(auto, using(crate::proofs::Cuts::plus_planned))]
fn list_plus_prefix(alloc: Global, entries: &[PlusDirent<'_>], size: u32) -> Result<Planned, Memory>
    requires named { All (λ d. IsNamed (listed.directory_entry_of d.dirent)) entries.now }
    requires size { size ≤ max_read }
    ensures { IfOk result (λ p. p ≡ plan_plus_prefix (map plus_of entries.now) size) }
{
    match pack_plus(alloc, entries, size) {
        Ok(packed) => Ok(unchanged(alloc, Answer::success(packed.body))),
        Err(PackFault::FirstTooBig) => Ok(refused(alloc, Errno::EINVAL)),
        Err(PackFault::Memory) => Err(Memory),
    }
}
