ghost use Rattle.std.specs.Prelude.{◌≡◌, None, IfOk};
ghost use Rattle.fuse_plan.specs.inner.Planning as planning;
ghost use Rattle.fuse_plan.specs.inner.Reading.{LooksUp, view};
ghost use Rattle.fuse_plan.specs.inner.Planning.{plan_absent};

use super::answers::{absent_answer, entry_answer, refused, unchanged};
use super::fault::PlanFault;
use super::finding::find_child;
use super::names::fault_of_lookup;
use crate::planned::Planned;
use fuse_rows::NodeRow;
use fuse_tree::{Agreement, Look};
use fuse_wire::{Errno, Memory};
use std::alloc::Global;

// LOOKUP of a name in the node of this row.
pub(crate) fn plan_lookup<L: Look>(
    alloc: Global,
    look: &mut L,
    agreement: &Agreement,
    name: &[u8],
    row: &NodeRow,
) -> Result<Planned, PlanFault>
    requires { L.fault look.old ≡ None }
    ensures { LooksUp (view L.is_clean L.sees L.fault L.looks L.fails) look.old look.new result
        (planning.plan_lookup agreement.now name.now row.now) }
{
    if let Some(errno) = fault_of_lookup(name, row) {
        return Ok(refused(alloc, errno));
    }
    let Some(child) = find_child(look, row.node, name)? else {
        return Ok(absent(alloc, agreement)?);
    };
    let answer = entry_answer(alloc, agreement.valid_secs(), &child)?;
    Ok(unchanged(alloc, answer))
}

// The name isn't there, which the kernel may keep.
fn absent(alloc: Global, agreement: &Agreement) -> Result<Planned, Memory>
    ensures { IfOk result (λ p. p ≡ plan_absent agreement.now) }
{
    if agreement.keeps() {
        Ok(unchanged(alloc, absent_answer(alloc)?))
    } else {
        Ok(refused(alloc, Errno::ENOENT))
    }
}
