// OPEN, OPENDIR, READ, RELEASE and RELEASEDIR. The handle of an open node is its number: nothing
// depends on how often a node is open, so nothing of it is kept.
ghost use Rattle.std.specs.Prelude.{◌≡◌, [], take, drop, IfOk};
ghost use Rattle.five_files.specs.Answers.{give, give_open};
ghost use Rattle.five_files.specs.Asking as asking;

use crate::limits::{EROFS, MAX_READ};
use crate::node::Node;
use fuse_answer::{Answer, OpenOut};
use fuse_request::ReadIn;
use fuse_wire::{AccessMode, ByteList, Errno, Memory};
use std::alloc::Global;

fn open_answer(alloc: Global, node: Node) -> Result<Answer, Memory>
    ensures { IfOk result (λ answer. answer ≡ give_open node) }
{
    let opened = OpenOut {
        fh: node.number(),
        open_flags: 0,
        backing_id: 0,
    };
    let body = opened.body_of(alloc)?;
    Ok(Answer::success(ByteList::from_vec(body)))
}

// The answer without a body.
pub(crate) fn done_nothing(alloc: Global) -> Answer
    ensures { result ≡ give [] }
{
    Answer::refusal(alloc, Errno::NONE)
}

pub(crate) fn open_file(alloc: Global, flags: u32, node: Node) -> Result<Answer, Memory>
    ensures { IfOk result (λ answer. answer ≡ asking.open_file flags node) }
{
    if node.is_directory() {
        return Ok(Answer::refusal(alloc, Errno::EISDIR));
    }
    if node.is_symlink() {
        return Ok(Answer::refusal(alloc, Errno::EINVAL));
    }
    match AccessMode::of(flags) {
        None => Ok(Answer::refusal(alloc, Errno::EINVAL)),
        Some(AccessMode::ReadOnly) => open_answer(alloc, node),
        Some(AccessMode::WriteOnly | AccessMode::ReadWrite) => Ok(Answer::refusal(alloc, EROFS)),
    }
}

pub(crate) fn open_dir(alloc: Global, node: Node) -> Result<Answer, Memory>
    ensures { IfOk result (λ answer. answer ≡ asking.open_dir node) }
{
    if !node.is_directory() {
        return Ok(Answer::refusal(alloc, Errno::ENOTDIR));
    }
    open_answer(alloc, node)
}

pub(crate) fn release(alloc: Global, fh: u64, node: Node) -> Answer
    ensures { result ≡ asking.release fh node }
{
    if fh != node.number() {
        return Answer::refusal(alloc, Errno::EBADF);
    }
    if node.is_directory() {
        return Answer::refusal(alloc, Errno::EISDIR);
    }
    if node.is_symlink() {
        return Answer::refusal(alloc, Errno::EINVAL);
    }
    done_nothing(alloc)
}

pub(crate) fn release_dir(alloc: Global, fh: u64, node: Node) -> Answer
    ensures { result ≡ asking.release_dir fh node }
{
    if fh != node.number() {
        return Answer::refusal(alloc, Errno::EBADF);
    }
    if !node.is_directory() {
        return Answer::refusal(alloc, Errno::ENOTDIR);
    }
    done_nothing(alloc)
}

pub(crate) fn read(alloc: Global, asked: &ReadIn, node: Node) -> Result<Answer, Memory>
    ensures { IfOk result (λ answer. answer ≡ asking.read asked.now node) }
{
    if asked.fh != node.number() {
        return Ok(Answer::refusal(alloc, Errno::EBADF));
    }
    if node.is_directory() {
        return Ok(Answer::refusal(alloc, Errno::EISDIR));
    }
    if node.is_symlink() {
        return Ok(Answer::refusal(alloc, Errno::EINVAL));
    }
    if asked.size > MAX_READ {
        return Ok(Answer::refusal(alloc, Errno::EINVAL));
    }
    let body = part_of(alloc, node.content(), asked.offset, asked.size)?;
    Ok(Answer::success(ByteList::from_vec(body)))
}

// The bytes from the offset on, at most so many.
fn part_of(alloc: Global, content: &[u8], offset: u64, size: u32) -> Result<Vec<u8>, Memory>
    ensures { IfOk result (λ part. part.items ≡ take size (drop offset content.now)) }
{
    let rest = content.iter().skip(offset as usize);
    Ok(rest.take(size as usize).copied().collect(alloc)?)
}
