// The opcodes outside the profile: READLINK and STATFS. Neither has a body.
ghost use Rattle.std.specs.Prelude.{◌≡◌, IfOk};
ghost use Rattle.five_files.specs.Answers.{give_statfs};
ghost use Rattle.five_files.specs.Asking as asking;
ghost use Rattle.five_files.specs.Asking.{serves_further};

use crate::node::Node;
use fuse_answer::{Answer, StatfsOut};
use fuse_request::opcode::{READLINK, STATFS};
use fuse_wire::{ByteList, Errno, Memory};
use std::alloc::Global;

// A unit of 512 bytes for each node that has a content. Nothing is free.
const SPACE: StatfsOut = StatfsOut {
    blocks: 4,
    bfree: 0,
    bavail: 0,
    files: 5,
    ffree: 0,
    bsize: 4096,
    namelen: 255,
    frsize: 512,
};

pub(crate) fn is_further(opcode: u32) -> bool
    ensures { result ≡ serves_further opcode }
{
    opcode == READLINK || opcode == STATFS
}

fn read_link(alloc: Global, body: &[u8], node: Node) -> Result<Answer, Memory>
    ensures { IfOk result (λ answer. answer ≡ asking.read_link body.now node) }
{
    if !body.is_empty() || !node.is_symlink() {
        return Ok(Answer::refusal(alloc, Errno::EINVAL));
    }
    let target = Vec::from_slice(alloc, node.content())?;
    Ok(Answer::success(ByteList::from_vec(target)))
}

fn space_answer(alloc: Global) -> Result<Answer, Memory>
    ensures { IfOk result (λ answer. answer ≡ give_statfs) }
{
    let body = SPACE.body_of(alloc)?;
    Ok(Answer::success(ByteList::from_vec(body)))
}

fn stat_fs(alloc: Global, body: &[u8]) -> Result<Answer, Memory>
    ensures { IfOk result (λ answer. answer ≡ asking.stat_fs body.now) }
{
    if !body.is_empty() {
        return Ok(Answer::refusal(alloc, Errno::EINVAL));
    }
    space_answer(alloc)
}

pub(crate) fn further(alloc: Global, opcode: u32, body: &[u8], node: Node) -> Result<Answer, Memory>
    ensures { IfOk result (λ answer. answer ≡ asking.further opcode body.now node) }
{
    if opcode == READLINK {
        read_link(alloc, body, node)
    } else if opcode == STATFS {
        stat_fs(alloc, body)
    } else {
        Ok(Answer::refusal(alloc, Errno::ENOSYS))
    }
}
