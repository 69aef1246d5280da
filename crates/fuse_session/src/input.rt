// What a port gives, and the messages that wait then.
ghost use Rattle.std.specs.Prelude.{◌≡◌, ◌≤◌, ◌+◌, ◌++◌, ◌^◌, None, Some, length, IfOk, IfErr};
ghost use Rattle.std.specs.Prelude.{OnOk, OnErr};
ghost use Rattle.fuse_request.specs.Framing.{fed_of};
ghost use Rattle.fuse_request.specs.declared.framer.TheConstants.{MAX_FED as max_fed};
ghost use Rattle.fuse_request.specs.declared.header.TheConstants.{MAX_MESSAGE as max_message};
ghost use Rattle.fuse_session.specs.Port.{IsYoung};
ghost use Rattle.fuse_session.specs.inner.Receiving.{IsOpen, TookAll, IsHearing, EndsReceiving};
ghost use Rattle.fuse_session.specs.inner.Receiving.{Comes, Heard, NotHeard};

use crate::ended::Ended;
use crate::port::{Port, Received};
use bytes::Bytes;
use fuse_request::{FrameFault, Framer};
use fuse_wire::Memory;
use std::alloc::Global;

/// The most bytes that are held at any time: the rest of an earlier turn, and a full buffer.
pub(crate) const MAX_HELD: usize = 270_335;

/// The messages that wait, and the bad length after them, if there is one.
#[derive(Drop)]
pub(crate) struct Waiting {
    pub(crate) messages: Vec<Bytes>,
    pub(crate) fault: Option<FrameFault>,
}

// The messages before a fault of the framer, unless it is out of memory.
fn stopped(messages: Vec<Bytes>, fault: FrameFault) -> Result<Waiting, Memory>
    ensures { IfOk result (λ w. (fault ≡ FrameFault.Memory → ⊥)
        × (w.messages.items ≡ messages.items) × (w.fault ≡ Some fault)) }
{
    match fault {
        FrameFault::Memory => Err(Memory),
        FrameFault::Short { .. } | FrameFault::TooLong { .. } | FrameFault::Cut { .. } => {
            Ok(Waiting {
                messages,
                fault: Some(fault),
            })
        }
    }
}

// Holds the received bytes too. Nothing else feeds the framer; taking messages and ending only
// lessen the bytes that it holds.
fn hold(framer: &mut Framer, piece: &[u8]) -> Result<(), Memory>
    requires opened { IsOpen framer.old }
    requires piece { length piece.now ≤ max_message }
    requires fed { fed_of framer.old + length piece.now ≤ max_fed }
    ensures ok { OnOk result (framer.new
        ≡ record framer.old { bytes = framer.old.bytes ++ piece.now }) }
    ensures err { OnErr result (framer.new ≡ framer.old) }
    ensures held { length framer.new.bytes ≤ MAX_HELD }
{
    if framer.feed(piece).is_err() {
        return Err(Memory);
    }
    Ok(())
}

// Takes all messages.
fn take_waiting(alloc: Global, framer: &mut Framer) -> Result<Waiting, Memory>
    requires opened { framer.old.fault ≡ None }
    ensures ok { IfOk result (λ w. TookAll framer.old framer.new w.messages.items w.fault) }
    ensures fed { fed_of framer.new ≡ fed_of framer.old }
{
    let mut messages = Vec::new(alloc);
    loop {
        match framer.next() {
            Ok(Some(message)) => {
                if messages.push(message).is_err() {
                    return Err(Memory);
                }
            }
            Ok(None) => {
                return Ok(Waiting {
                    messages,
                    fault: None,
                });
            }
            Err(fault) => return stopped(messages, fault),
        }
    }
}

// How a session ends whose port has ended.
fn ended_by(framer: &Framer) -> Ended
    requires opened { IsOpen framer.now }
    ensures { EndsReceiving result framer.now }
{
    match framer.end() {
        Ok(()) => Ended::End,
        Err(fault) => Ended::Frame(fault),
    }
}

/// Receives once, and takes the messages that wait then.
pub(crate) fn receive_messages<P: Port>(
    alloc: Global,
    port: &mut P,
    framer: &mut Framer,
    buffer: &mut [u8],
) -> Result<Waiting, Ended>
    requires young { IsYoung (P.told port.old) }
    requires room { length buffer.old ≡ max_message }
    requires opened { IsOpen framer.old }
    requires fed { fed_of framer.old + length buffer.old ≤ 2 ^ 60 }
    ensures ok { IfOk result (λ w. Heard (Comes (P.became port.old port.new) (P.told port.old)
        (P.told port.new)) framer.old framer.new w.messages.items w.fault) }
    ensures err { IfErr result (λ ended. NotHeard ended (P.became port.old port.new)
        (P.told port.old) (P.told port.new) framer.old) }
    ensures hearing { IsHearing (P.told port.old) (P.told port.new) }
    ensures fed { fed_of framer.new ≤ fed_of framer.old + length buffer.old }
{
    match port.receive(buffer) {
        Received::Failed => Err(Ended::PortFailed),
        Received::End => Err(ended_by(framer)),
        Received::Got(n) => {
            if hold(framer, &buffer[..n]).is_err() {
                return Err(Ended::Memory);
            }
            match take_waiting(alloc, framer) {
                Ok(waiting) => Ok(waiting),
                Err(_) => Err(Ended::Memory),
            }
        }
    }
}
