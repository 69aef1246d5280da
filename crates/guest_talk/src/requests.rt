// The REQUEST for a request of a kernel.
ghost use Rattle.std.specs.Prelude.{◌≡◌, IfErr, IfOk};
ghost use Rattle.fuse_request.specs.Act.{asked};
ghost use Rattle.fuse_request.specs.Canon.{sayable};
ghost use Rattle.fuse_guest.specs.Talk.{handed};
ghost use Rattle.guest_talk.specs.inner.Requests.{IsMessageOf, IsNoRequest, IsRequest};

use crate::fault::AskFault;
use crate::outgoing::{Outgoing, encoded};
use fuse_keeper::StoreFault;
use fuse_request::{EncodeFault, InHeader, Request, encode};
use fuse_wire::{Id, Moment, layouts_stand};
use guest_frames::EngineFrame;
use std::alloc::Global;

// As it is handed on: without bit 63 of its unique, and without extensions.
fn handed_on<'a>(request: &Request<'a>) -> Request<'a>
    ensures { asked result ≡ handed (asked request.now) }
{
    let header = request.header;
    Request {
        header: InHeader {
            unique: Id::of(header.unique).0,
            nodeid: header.nodeid,
            uid: header.uid,
            gid: header.gid,
            pid: header.pid,
        },
        op: request.op,
        ext: &[],
    }
}

/// Whether a message says a request, as it is handed on.
pub(crate) fn is_handed_sayable(request: &Request<'_>) -> bool
    ensures { result ≡ sayable (handed (asked request.now)) }
{
    handed_on(request).is_sayable()
}

// The message of a request, as it is handed on.
fn handed_message(alloc: Global, request: &Request<'_>) -> Result<Vec<u8>, AskFault>
    ensures ok { IfOk result (λ v. IsMessageOf (handed (asked request.now)) v.items) }
    ensures err { IfErr result (IsNoRequest (asked request.now)) }
{
    let handed = handed_on(request);
    if !handed.is_sayable() {
        return Err(AskFault::Unsayable);
    }
    let mut message = Vec::new(alloc);
    match encode(&handed, &mut message) {
        Ok(()) => Ok(message),
        Err(EncodeFault::TooLong) => Err(AskFault::Unsayable),
        Err(EncodeFault::Memory) => Err(AskFault::Store(StoreFault::Memory)),
    }
}

/// The frame that asks a request.
pub(crate) fn request_frame(
    alloc: Global,
    request: &Request<'_>,
    now: Moment,
    count: u32,
) -> Result<Outgoing, AskFault>
    ensures ok { IfOk result (IsRequest (asked request.now) now count) }
    ensures err { IfErr result (IsNoRequest (asked request.now)) }
{
    layouts_stand();
    let message = handed_message(alloc, request)?;
    let frame = EngineFrame::Request(guest_frames::Request {
        secs: now.secs.cast_signed(),
        nanos: now.nanos,
        count,
        message: &message,
    });
    match encoded(alloc, &frame) {
        Ok(out) => Ok(out),
        Err(fault) => Err(AskFault::Store(fault)),
    }
}
