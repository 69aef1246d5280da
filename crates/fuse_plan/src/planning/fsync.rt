ghost use Rattle.std.specs.Prelude.{◌≡◌, None};
ghost use Rattle.fuse_plan.specs.inner.PlanSyncing as planning;
ghost use Rattle.fuse_plan.specs.inner.Reading.{LooksUp, view};

use super::answers::{done_nothing, refused};
use super::fault::PlanFault;
use super::finding::is_open_at;
use crate::planned::Planned;
use fuse_rows::NodeRow;
use fuse_tree::Look;
use fuse_wire::Errno;
use std::alloc::Global;

// FSYNC or FSYNCDIR of the node of this row. What was changed before is committed before the answer.
pub(crate) fn plan_fsync<L: Look>(
    alloc: Global,
    look: &mut L,
    fh: u64,
    row: &NodeRow,
) -> Result<Planned, PlanFault>
    requires { L.fault look.old ≡ None }
    ensures { LooksUp (view L.is_clean L.sees L.fault L.looks L.fails) look.old look.new result
        (planning.plan_fsync fh row.now) }
{
    if !is_open_at(look, fh, row.node)? {
        return Ok(refused(alloc, Errno::EBADF));
    }
    Ok(done_nothing(alloc))
}
