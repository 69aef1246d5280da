//! A file system of the tests that serves two opcodes outside the profile, READLINK and STATFS.
ghost use Rattle.std.specs.Prelude.{◌≡◌, ◌≤◌, length, IfOk};
ghost use Rattle.spec_tests.specs.inner.Links.{links, link_said};

use fuse_answer::Answer;
use fuse_init::Settings;
use fuse_keeper::{FileSystem, PlainKeeper, StoreFault};
use fuse_request::opcode::{READLINK, STATFS};
use fuse_request::{Op, Request};
use fuse_wire::{ByteList, Errno, Memory, Moment};
use std::alloc::Global;

/// A keeper of it in memory.
pub type LinksKeeper = PlainKeeper<Links>;

/// A link to `a/b`, with the room of a new store beside it. It knows no INIT, and no other request.
#[derive(Drop)]
pub struct Links;

const TARGET: &[u8] = b"a/b";

// The body of case statfs.
const ROOM: &[u8] = b"\0\0\0\x10\0\0\0\0\0\0\0\x10\0\0\0\0\0\0\0\x10\0\0\0\0\
    \0\0\x10\0\0\0\0\0\xff\xff\x0f\0\0\0\0\0\0\x10\0\0\xff\0\0\0\0\x10\0\0\0\0\0\0\
    \0\0\0\0\0\0\0\0\0\0\0\0\0\0\0\0\0\0\0\0\0\0\0\0";

fn given(alloc: Global, body: &[u8]) -> Result<Answer, Memory>
    requires { length body.now ≤ 80 }
    ensures { IfOk result (λ answer. answer ≡ record { errno = 0; body = body.now }) }
{
    Ok(Answer::success(ByteList::from_vec(body.to_vec(alloc)?)))
}

// A body that isn't empty is refused, as in case bodies.
fn answer_to(alloc: Global, opcode: u32, body: &[u8]) -> Result<Answer, Memory>
    ensures { IfOk result (λ answer. answer ≡ link_said opcode body.now) }
{
    if !body.is_empty() {
        return Ok(Answer::refusal(alloc, Errno::EINVAL));
    }
    if opcode == READLINK {
        return given(alloc, TARGET);
    }
    if opcode == STATFS {
        return given(alloc, ROOM);
    }
    Ok(Answer::refusal(alloc, Errno::ENOSYS))
}

impl FileSystem for Links {
    ghost model = { links };

    ghost held = { λ _. tt };

    ghost is_ready = { λ _. Unit {0} };

    fn serves(opcode: u32) -> bool {
        opcode == READLINK || opcode == STATFS
    }

    fn sees(_opcode: u32) -> bool {
        false
    }

    fn start(_alloc: Global, _now: Moment) -> Result<Links, Memory> {
        Ok(Links)
    }

    fn act(
        &mut self,
        alloc: Global,
        request: &Request<'_>,
        _now: Moment,
    ) -> Result<Answer, StoreFault> {
        match &request.op {
            Op::Further { opcode, body } => Ok(answer_to(alloc, *opcode, body)?),
            _ => Ok(Answer::refusal(alloc, Errno::ENOSYS)),
        }
    }

    fn to_copy(&self) -> Result<Links, Memory> {
        Ok(Links)
    }

    fn begin_mount(&mut self) {}

    fn agreed(&self) -> Option<Settings> {
        None
    }

    fn counted(&self) -> (u64, u64) {
        (2, 0)
    }

    fn model_is_sound() {}
}
