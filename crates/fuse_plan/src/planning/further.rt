// The opcodes of a profile beside those of the protocol's.
ghost use Rattle.std.specs.Prelude.{◌≡◌, None, Some};
ghost use Rattle.fuse_request.specs.FurtherBodies as further;
ghost use Rattle.fuse_plan.specs.inner.PlanFurther as planning;
ghost use Rattle.fuse_plan.specs.inner.PlanFurther.{plan_content};
ghost use Rattle.fuse_plan.specs.inner.Reading.{IsWithin, LooksUp, view};

use super::answers::refused;
use super::create::plan_create;
use super::fault::PlanFault;
use super::fsync::plan_fsync;
use super::make::asked_node;
use super::read_dir_plus::plan_read_dir_plus;
use super::readlink::plan_readlink;
use super::statfs::plan_statfs;
use super::symlink::plan_symlink;
use crate::planned::Planned;
use fuse_request::{Body, decode_body};
use fuse_rows::{NodeRow, Origin};
use fuse_tree::{Agreement, Look, serves_further};
use fuse_wire::Errno;
use std::alloc::Global;

// A request of an opcode that the crates below don't read, at the node of this row.
pub(crate) fn plan_further<L: Look>(
    alloc: Global,
    look: &mut L,
    agreement: &Agreement,
    from: &Origin,
    opcode: u32,
    body: &[u8],
    row: &NodeRow,
) -> Result<Planned, PlanFault>
    requires fault { L.fault look.old ≡ None }
    requires within { IsWithin row.now }
    ensures { LooksUp (view L.is_clean L.sees L.fault L.looks L.fails) look.old look.new result
        (planning.plan_further agreement.now from.now opcode body.now row.now) }
{
    if !serves_further(agreement.profile, opcode) {
        return Ok(refused(alloc, Errno::ENOSYS));
    }
    match decode_body(opcode, body) {
        Err(_) => Ok(refused(alloc, Errno::EINVAL)),
        Ok(None) => Ok(refused(alloc, Errno::ENOSYS)),
        Ok(Some(content)) => plan_body(alloc, look, agreement, from, &content, row),
    }
}

// What is asked. The last line is of opcodes that are not performed.
fn plan_body<L: Look>(
    alloc: Global,
    look: &mut L,
    agreement: &Agreement,
    from: &Origin,
    body: &Body<'_>,
    row: &NodeRow,
) -> Result<Planned, PlanFault>
    requires fault { L.fault look.old ≡ None }
    requires within { IsWithin row.now }
    ensures { LooksUp (view L.is_clean L.sees L.fault L.looks L.fails) look.old look.new result
        (plan_content agreement.now from.now (Some (further.further_content body.now)) row.now) }
{
    match body {
        Body::Readlink => plan_readlink(alloc, look, row),
        Body::Statfs => plan_statfs(alloc, look),
        Body::Fsync { fh, .. } | Body::FsyncDir { fh, .. } => plan_fsync(alloc, look, *fh, row),
        Body::Symlink { name, target } => {
            plan_symlink(alloc, look, agreement, from, target, name, row)
        }
        Body::Create {
            flags,
            mode,
            name,
            ..
        } => {
            let asked = asked_node(from, *mode, 0);
            plan_create(alloc, look, agreement, &asked, *flags, name, row)
        }
        Body::ReadDirPlus(asked) => {
            plan_read_dir_plus(alloc, look, agreement.valid_secs(), asked, row)
        }
        _ => Ok(refused(alloc, Errno::ENOSYS)),
    }
}
