ghost use Rattle.std.specs.Prelude.{◌≡◌, None};
ghost use Rattle.fuse_plan.specs.inner.PlanMaking as planning;
ghost use Rattle.fuse_plan.specs.inner.Reading.{IsWithin, LooksUp, view};

use super::answers::refused;
use super::attributes::is_directory;
use super::fault::PlanFault;
use super::make::{begun, plan_make};
use super::names::fault_of_name;
use crate::planned::Planned;
use fuse_rows::NodeRow;
use fuse_tree::{Agreement, Look, NewNode, S_IFDIR, TYPE_UNIT};
use fuse_wire::Errno;
use std::alloc::Global;

// MKDIR of a name in the node of this row.
pub(crate) fn plan_mkdir<L: Look>(
    alloc: Global,
    look: &mut L,
    agreement: &Agreement,
    asked: &NewNode,
    name: &[u8],
    row: &NodeRow,
) -> Result<Planned, PlanFault>
    requires fault { L.fault look.old ≡ None }
    requires within { IsWithin row.now }
    ensures { LooksUp (view L.is_clean L.sees L.fault L.looks L.fails) look.old look.new result
        (planning.plan_mkdir agreement.now asked.now name.now row.now) }
{
    if !is_directory(row.mode) {
        return Ok(refused(alloc, Errno::ENOTDIR));
    }
    if let Some(errno) = fault_of_name(name) {
        return Ok(refused(alloc, errno));
    }
    let asked = NewNode {
        mode: S_IFDIR + asked.mode % TYPE_UNIT,
        rdev: 0,
        ..*asked
    };
    let fresh = begun(agreement.profile, row, &asked);
    plan_make(alloc, look, agreement, &fresh, name, row)
}
