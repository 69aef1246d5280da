ghost use Rattle.std.specs.Prelude.{◌≡◌, None};
ghost use Rattle.fuse_tree.specs.State as state;
ghost use Rattle.fuse_tree.specs.Making.{may_make, node_mode, node_rdev};
ghost use Rattle.fuse_plan.specs.inner.PlanMaking as planning;
ghost use Rattle.fuse_plan.specs.inner.Reading.{IsWithin, LooksUp, view};

use super::answers::refused;
use super::attributes::is_directory;
use super::fault::PlanFault;
use super::make::{begun, plan_make};
use super::names::fault_of_name;
use crate::planned::Planned;
use fuse_rows::NodeRow;
use fuse_tree::{
    Agreement, Look, NewNode, S_IFBLK, S_IFCHR, S_IFIFO, S_IFREG, S_IFSOCK, TYPE_UNIT, TYPES,
};
use fuse_wire::Errno;
use std::alloc::Global;

// MKNOD of a name in the node of this row.
pub(crate) fn plan_mknod<L: Look>(
    alloc: Global,
    look: &mut L,
    agreement: &Agreement,
    asked: &NewNode,
    name: &[u8],
    row: &NodeRow,
) -> Result<Planned, PlanFault>
    requires fault { L.fault look.old ≡ None }
    requires within { IsWithin row.now }
    ensures { LooksUp (view L.is_clean L.sees L.fault L.looks L.fails) look.old look.new result
        (planning.plan_mknod agreement.now asked.now name.now row.now) }
{
    if !is_directory(row.mode) {
        return Ok(refused(alloc, Errno::ENOTDIR));
    }
    if !is_makable(type_bits(asked.mode)) {
        return Ok(refused(alloc, Errno::EINVAL));
    }
    if let Some(errno) = fault_of_name(name) {
        return Ok(refused(alloc, errno));
    }
    let asked = NewNode {
        mode: mode_of_node(asked.mode),
        rdev: rdev_of_node(asked.mode, asked.rdev),
        ..*asked
    };
    let fresh = begun(agreement.profile, row, &asked);
    plan_make(alloc, look, agreement, &fresh, name, row)
}

// The bits of the type.
fn type_bits(mode: u32) -> u32
    ensures { result ≡ state.type_bits mode }
{
    mode / TYPE_UNIT % TYPES * TYPE_UNIT
}

// Whether nodes of this type are made so. 0 stands for a regular file.
fn is_makable(bits: u32) -> bool
    ensures { result ≡ may_make bits }
{
    matches!(bits, 0 | S_IFREG | S_IFCHR | S_IFBLK | S_IFIFO | S_IFSOCK)
}

fn mode_of_node(mode: u32) -> u32
    ensures { result ≡ node_mode mode }
{
    let bits = type_bits(mode);
    let kind = if bits == 0 { S_IFREG } else { bits };
    kind + mode % TYPE_UNIT
}

// Only a device has the number of one.
fn rdev_of_node(mode: u32, rdev: u32) -> u32
    ensures { result ≡ node_rdev mode rdev }
{
    let bits = type_bits(mode);
    if bits == S_IFCHR || bits == S_IFBLK {
        rdev
    } else {
        0
    }
}
