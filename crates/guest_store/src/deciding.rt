// What the engine makes of a request before it asks the guest.
ghost use Rattle.std.specs.Prelude.{◌≡◌};
ghost use Rattle.fuse_request.specs.Act.{act};
ghost use Rattle.fuse_guest.specs.GuestModel as model;
ghost use Rattle.guest_store.specs.inner.Deciding as deciding;

use fuse_answer::InitOut;
use fuse_guest::{is_served, negotiate_for};
use fuse_init::{Negotiated, Settings};
use fuse_request::{Op, decode_body};
use fuse_wire::Errno;
use guest_frames::Ready;

/// What is done about a request.
#[derive(Clone, Copy, Debug, PartialEq, Eq)]
pub(crate) enum Decision {
    /// It is answered with this error.
    Refuse(Errno),
    /// It is answered with no body.
    Nothing,
    /// The kernel is to send another INIT.
    Again(InitOut),
    /// The guest is asked.
    Ask,
    /// The guest is asked, and if it gives no error, this is agreed on.
    Negotiate { out: InitOut, settings: Settings },
}

// Whether the body of an opcode outside the profile isn't well formed.
fn has_bad_body(op: &Op<'_>) -> bool
    ensures { result ≡ model.has_bad_body (act op.now) }
{
    match *op {
        Op::Further { opcode, body } => decode_body(opcode, body).is_err(),
        _ => false,
    }
}

// The error that the engine answers without asking, where this says whether INIT was agreed on.
fn own_fault(ready: &Ready, agreed: bool, op: &Op<'_>) -> Option<Errno>
    ensures { result ≡ deciding.own_fault_where ready.now agreed (act op.now) }
{
    if !is_served(ready, op.opcode()) {
        return Some(Errno::ENOSYS);
    }
    if !agreed {
        return Some(Errno::EPROTO);
    }
    if has_bad_body(op) {
        return Some(Errno::EINVAL);
    }
    None
}

fn decide_init(outcome: Negotiated) -> Decision
    ensures { result ≡ deciding.decided_init outcome }
{
    match outcome {
        Negotiated::Agreed { out, settings } => Decision::Negotiate { out, settings },
        Negotiated::Again { out } => Decision::Again(out),
        Negotiated::Refused(errno) => Decision::Refuse(errno),
    }
}

fn decide_by(fault: Option<Errno>) -> Decision
    ensures { result ≡ deciding.decided_by fault }
{
    match fault {
        Some(errno) => Decision::Refuse(errno),
        None => Decision::Ask,
    }
}

/// What is done about a request, by a guest of this READY, where this says whether INIT was agreed
/// on.
pub(crate) fn decide(ready: &Ready, agreed: bool, op: &Op<'_>) -> Decision
    ensures { result ≡ deciding.decided ready.now agreed (act op.now) }
{
    match *op {
        Op::Init(offer) => decide_init(negotiate_for(ready, &offer)),
        Op::Destroy if agreed => Decision::Nothing,
        Op::Destroy => Decision::Refuse(Errno::EPROTO),
        _ => decide_by(own_fault(ready, agreed, op)),
    }
}
