ghost use Rattle.std.specs.Prelude.{◌≡◌, ◌≤◌, None, length, IfOk};
ghost use Rattle.fuse_answer.specs.declared.answer.TheConstants.{MAX_BODY as max_body};
ghost use Rattle.fuse_rows.specs.Rows.{bytes_at};
ghost use Rattle.fuse_tree.specs.Writing as writing;
ghost use Rattle.fuse_plan.specs.inner.PlanWriting as planning;
ghost use Rattle.fuse_plan.specs.inner.Reading.{LooksUp, view};

use super::answers::{refused, unchanged};
use super::attributes::is_directory;
use super::fault::PlanFault;
use super::finding::find_access;
use crate::planned::Planned;
use fuse_answer::{Answer, MAX_BODY};
use fuse_request::ReadIn;
use fuse_rows::{MAX_READ, NodeRow};
use fuse_tree::Look;
use fuse_wire::{AccessMode, ByteList, Errno};
use std::alloc::Global;

// READ by a handle of the node of this row.
pub(crate) fn plan_read<L: Look>(
    alloc: Global,
    look: &mut L,
    asked: &ReadIn,
    row: &NodeRow,
) -> Result<Planned, PlanFault>
    requires { L.fault look.old ≡ None }
    ensures { LooksUp (view L.is_clean L.sees L.fault L.looks L.fails) look.old look.new result
        (planning.plan_read asked.now row.now) }
{
    if !may_read(find_access(look, asked.fh, row.node)?) {
        return Ok(refused(alloc, Errno::EBADF));
    }
    if is_directory(row.mode) {
        return Ok(refused(alloc, Errno::EISDIR));
    }
    if asked.size > MAX_READ {
        return Ok(refused(alloc, Errno::EINVAL));
    }
    let bytes = find_bytes(look, row.node, asked.offset, asked.size)?;
    Ok(unchanged(alloc, Answer::success(bytes)))
}

// Whether what is open so may be read.
fn may_read(access: Option<AccessMode>) -> bool
    ensures { result ≡ writing.may_read access }
{
    matches!(access, Some(AccessMode::ReadOnly | AccessMode::ReadWrite))
}

// The content of a node from the offset on, no longer than an answer may be.
pub(crate) fn find_bytes<L: Look>(
    look: &mut L,
    number: u64,
    offset: u64,
    size: u32,
) -> Result<ByteList, PlanFault>
    requires fault { L.fault look.old ≡ None }
    requires size { size ≤ max_body }
    ensures bytes { LooksUp (view L.is_clean L.sees L.fault L.looks L.fails) look.old look.new result
        (λ rows. bytes_at rows number offset size) }
    ensures short { IfOk result (λ bytes. length bytes ≤ max_body) }
{
    let bytes = look.bytes(number, offset, size)?;
    if bytes.as_slice().len() > MAX_BODY {
        return Err(PlanFault::NotATree);
    }
    Ok(bytes)
}
