ghost use Rattle.std.specs.Prelude.{◌≡◌, None};
ghost use Rattle.fuse_plan.specs.inner.PlanRemoving as planning;
ghost use Rattle.fuse_plan.specs.inner.Reading.{LooksUp, view};

use super::answers::refused;
use super::attributes::is_directory;
use super::fault::PlanFault;
use super::finding::{find_link, has_entries};
use super::names::fault_of_lookup;
use super::remove::plan_gone;
use crate::planned::Planned;
use fuse_init::Profile;
use fuse_rows::NodeRow;
use fuse_tree::Look;
use fuse_wire::{Errno, Moment};
use std::alloc::Global;

// RMDIR of a name in the node of this row.
pub(crate) fn plan_rmdir<L: Look>(
    alloc: Global,
    look: &mut L,
    profile: Profile,
    name: &[u8],
    now: Moment,
    row: &NodeRow,
) -> Result<Planned, PlanFault>
    requires { L.fault look.old ≡ None }
    ensures { LooksUp (view L.is_clean L.sees L.fault L.looks L.fails) look.old look.new result
        (planning.plan_rmdir profile name.now now row.now) }
{
    if let Some(errno) = fault_of_lookup(name, row) {
        return Ok(refused(alloc, errno));
    }
    let Some(link) = find_link(look, row.node, name)? else {
        return Ok(refused(alloc, Errno::ENOENT));
    };
    if !is_directory(link.child.mode) {
        return Ok(refused(alloc, Errno::ENOTDIR));
    }
    if has_entries(look, link.child.node)? {
        return Ok(refused(alloc, Errno::ENOTEMPTY));
    }
    plan_gone(alloc, look, profile, now, &link, row)
}
