ghost use Rattle.std.specs.Prelude.{◌≡◌, None};
ghost use Rattle.fuse_plan.specs.inner.PlanLinking as planning;
ghost use Rattle.fuse_plan.specs.inner.Reading.{LooksUp, view};

use super::answers::{refused, unchanged};
use super::attributes::is_symbolic_link;
use super::fault::PlanFault;
use super::read::find_bytes;
use crate::planned::Planned;
use fuse_answer::Answer;
use fuse_rows::{MAX_TARGET, NodeRow};
use fuse_tree::Look;
use fuse_wire::Errno;
use std::alloc::Global;

// READLINK of the node of this row.
pub(crate) fn plan_readlink<L: Look>(
    alloc: Global,
    look: &mut L,
    row: &NodeRow,
) -> Result<Planned, PlanFault>
    requires { L.fault look.old ≡ None }
    ensures { LooksUp (view L.is_clean L.sees L.fault L.looks L.fails) look.old look.new result
        (planning.plan_readlink row.now) }
{
    if !is_symbolic_link(row.mode) {
        return Ok(refused(alloc, Errno::EINVAL));
    }
    let target = find_bytes(look, row.node, 0, MAX_TARGET)?;
    Ok(unchanged(alloc, Answer::success(target)))
}
