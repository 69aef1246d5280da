// The answer to each request.
ghost use Rattle.std.specs.Prelude.{◌≡◌, IfOk, OnOk};
ghost use Rattle.fuse_request.specs.Act.{asked, act};
ghost use Rattle.five_files.specs.Asking as asking;
ghost use Rattle.five_files.specs.Asking.{only_looks, name_fault, file_named};
ghost use Rattle.five_files.specs.Asking.{said, said_agreed, said_at, agreed_after};

use crate::attributes::{attr_answer, entry_answer};
use crate::further::further;
use crate::init::init;
use crate::limits::EROFS;
use crate::listing::read_dir;
use crate::node::Node;
use crate::opening::{done_nothing, open_dir, open_file, read, release, release_dir};
use fuse_answer::{Answer, MAX_NAME};
use fuse_init::Settings;
use fuse_request::opcode::{GETATTR, LOOKUP, READ, READDIR, STATFS};
use fuse_request::{Op, Request};
use fuse_wire::{Errno, Memory};
use std::alloc::Global;

// Whether requests of this opcode are seen: they change nothing.
pub(crate) fn only_looks(opcode: u32) -> bool
    ensures { result ≡ only_looks opcode }
{
    opcode == LOOKUP || opcode == GETATTR || opcode == READ || opcode == STATFS || opcode == READDIR
}

// The fault of a name: it is too long, empty, or leads elsewhere.
fn fault_of_name(name: &[u8]) -> Option<Errno>
    ensures { result ≡ name_fault name.now }
{
    if name.len() > MAX_NAME {
        return Some(Errno::ENAMETOOLONG);
    }
    let is_odd = name.is_empty()
        || name == b".".as_slice()
        || name == b"..".as_slice()
        || name.contains(&b'/');
    if is_odd { Some(Errno::EINVAL) } else { None }
}

// The file of this name.
fn file_of_name(name: &[u8]) -> Option<Node>
    ensures { result ≡ file_named name.now }
{
    if name == Node::Readme.name() {
        Some(Node::Readme)
    } else if name == Node::Licence.name() {
        Some(Node::Licence)
    } else if name == Node::Hours.name() {
        Some(Node::Hours)
    } else if name == Node::Times.name() {
        Some(Node::Times)
    } else {
        None
    }
}

fn lookup(alloc: Global, name: &[u8], node: Node) -> Result<Answer, Memory>
    ensures { IfOk result (λ answer. answer ≡ asking.lookup name.now node) }
{
    if !node.is_directory() {
        return Ok(Answer::refusal(alloc, Errno::ENOTDIR));
    }
    if let Some(errno) = fault_of_name(name) {
        return Ok(Answer::refusal(alloc, errno));
    }
    match file_of_name(name) {
        Some(file) => entry_answer(alloc, file),
        None => Ok(Answer::refusal(alloc, Errno::ENOENT)),
    }
}

// The answer at a node. Requests that would change something are refused; the last line is of
// those that do not come here.
fn answer_at(alloc: Global, op: &Op<'_>, node: Node) -> Result<Answer, Memory>
    ensures { IfOk result (λ answer. answer ≡ said_at (act op.now) node) }
{
    match op {
        Op::Lookup { name } => lookup(alloc, name, node),
        Op::Getattr { .. } => attr_answer(alloc, node),
        Op::OpenFile { flags, .. } => open_file(alloc, *flags, node),
        Op::OpenDir { .. } => open_dir(alloc, node),
        Op::Read(asked) => read(alloc, asked, node),
        Op::ReadDir(asked) => read_dir(alloc, asked, node),
        Op::Release(asked) => Ok(release(alloc, asked.fh, node)),
        Op::ReleaseDir(asked) => Ok(release_dir(alloc, asked.fh, node)),
        Op::Setattr(_)
        | Op::Mknod { .. }
        | Op::Mkdir { .. }
        | Op::Unlink { .. }
        | Op::Rmdir { .. }
        | Op::Rename { .. }
        | Op::Rename2 { .. }
        | Op::Write { .. } => Ok(Answer::refusal(alloc, EROFS)),
        Op::Further { opcode, body } => further(alloc, *opcode, body, node),
        _ => Ok(Answer::refusal(alloc, Errno::ENOSYS)),
    }
}

// The answer where settings are agreed on.
#[tactic(auto, using(crate::proofs::Asked::looks_at_node))]
fn answer_agreed(alloc: Global, request: &Request<'_>) -> Result<Answer, Memory>
    ensures { IfOk result (λ answer. answer ≡ said_agreed (asked request.now)) }
{
    if let Op::Destroy = request.op {
        return Ok(done_nothing(alloc));
    }
    match Node::at(request.header.nodeid) {
        Some(node) => answer_at(alloc, &request.op, node),
        None => Ok(Answer::refusal(alloc, Errno::ESTALE)),
    }
}

// The answer to a request, and the settings after it. INIT is always answered, and other requests
// where settings are agreed on.
pub(crate) fn answer(
    alloc: Global,
    agreed: &mut Option<Settings>,
    request: &Request<'_>,
) -> Result<Answer, Memory>
    ensures answer { IfOk result (λ answer. answer ≡ said agreed.old (asked request.now)) }
    ensures agreed { OnOk result (agreed.new ≡ agreed_after agreed.old (asked request.now)) }
{
    if let Op::Init(offer) = &request.op {
        return init(alloc, agreed, offer);
    }
    if agreed.is_none() {
        return Ok(Answer::refusal(alloc, Errno::EPROTO));
    }
    answer_agreed(alloc, request)
}
