// The answers of a group, and how they are sent.
ghost use Rattle.std.specs.Prelude.{◌≡◌, ◌≤◌, ◌<◌, ◌+◌, ◌||◌, [], true, length, drop, All, IfOk, IfErr};
ghost use Rattle.std.specs.Prelude.{OnOk};
ghost use Rattle.fuse_answer.specs.Wire.{wire};
ghost use Rattle.fuse_request.specs.Stream.{IsMessage};
ghost use Rattle.fuse_request.specs.Classes.{class_for};
ghost use Rattle.fuse_request.specs.Opcodes.{Service};
ghost use Rattle.fuse_session.specs.Processed.{unique_of};
ghost use Rattle.fuse_session.specs.Grouping.{is_performed_class};
ghost use Rattle.fuse_keeper.specs.Group.{ids_of};
ghost use Rattle.fuse_session.specs.Port.{IsYoung, SentWhole};
ghost use Rattle.fuse_session.specs.Transcript.{Hands};
ghost use Rattle.fuse_session.specs.inner.Group.{answers_in, wires, AreEnough, head_wire, left_by};
ghost use Rattle.fuse_session.specs.inner.Group.{classes_in};
ghost use Rattle.fuse_session.specs.inner.Sending.{reports_gone, sending};
ghost use Rattle.fuse_session.specs.inner.Sending.{SendFails, SentNext, SentAll, SentSome};

use crate::fault::Fault;
use crate::port::{Passed, Port, PortFailed, send_whole};
use bytes::Bytes;
use fuse_answer::{Answer, write_answer};
use fuse_keeper::Done;
use fuse_request::Class;
use fuse_wire::{Errno, Id};
use std::alloc::Global;

// Sends one answer.
fn send_reply<P: Port>(
    alloc: Global,
    port: &mut P,
    unique: u64,
    answer: &Answer,
) -> Result<Passed, Fault>
    requires young { IsYoung (P.told port.old) }
    ensures ok { IfOk result (λ passed. SentWhole (P.told port.old) (P.told port.new)
        (wire answer.now.errno answer.now.body unique) (reports_gone passed)) }
    ensures hands { OnOk result (Hands (P.became port.old port.new)
        (wire answer.now.errno answer.now.body unique) true) }
    ensures err { IfErr result (λ fault. SendFails fault (P.became port.old port.new) (P.told port.old) (P.told port.new)
        (wire answer.now.errno answer.now.body unique)) }
{
    let mut bytes = Vec::new(alloc);
    if write_answer(unique, answer, &mut bytes).is_err() {
        return Err(Fault::Memory);
    }
    match send_whole(port, bytes.as_slice()) {
        Ok(passed) => Ok(passed),
        Err(PortFailed) => Err(Fault::PortFailed),
    }
}

// Whether an answer that was sent so settles its id.
fn is_settled<P: Port>(port: &P, passed: Passed) -> bool
    ensures { result ≡ ((P.told port.now).confirms || reports_gone passed) }
{
    match passed {
        Passed::Taken => port.confirms(),
        Passed::Gone => true,
    }
}

// Sends a recorded answer. Its id is pending then, where the answer settles it.
fn send_kept<P: Port>(
    alloc: Global,
    port: &mut P,
    message: &[u8],
    answer: &Answer,
    pending: &mut Vec<Id>,
) -> Result<(), Fault>
    ghost service: { Service }
    requires message { IsMessage message.now }
    requires kept { class_for service message.now ≡ Class.Kept }
    requires young { IsYoung (P.told port.old) }
    ensures ok { OnOk result (SentNext service (sending (P.became port.old port.new)
        (P.told port.old) (P.told port.new) (ids_of pending.old.items) (ids_of pending.new.items))
        message.now (wire answer.now.errno answer.now.body (unique_of message.now))) }
    ensures err { IfErr result (λ fault. SendFails fault (P.became port.old port.new) (P.told port.old) (P.told port.new)
        (wire answer.now.errno answer.now.body (unique_of message.now))) }
{
    if pending.reserve(1).is_err() {
        return Err(Fault::Memory);
    }
    let unique = fuse_request::unique_of(message);
    let passed = match send_reply(alloc, port, unique, answer) {
        Ok(passed) => passed,
        Err(fault) => return Err(fault),
    };
    if is_settled(port, passed) {
        pending.push_reserved(Id::of(unique));
    }
    Ok(())
}

// Sends an answer that is not recorded.
fn send_bare<P: Port>(
    alloc: Global,
    port: &mut P,
    message: &[u8],
    errno: Errno,
) -> Result<Passed, Fault>
    requires message { IsMessage message.now }
    requires young { IsYoung (P.told port.old) }
    ensures ok { IfOk result (λ passed. SentWhole (P.told port.old) (P.told port.new)
        (wire errno.0 [] (unique_of message.now)) (reports_gone passed)) }
    ensures hands { OnOk result (Hands (P.became port.old port.new)
        (wire errno.0 [] (unique_of message.now)) true) }
    ensures err { IfErr result (λ fault. SendFails fault (P.became port.old port.new) (P.told port.old) (P.told port.new)
        (wire errno.0 [] (unique_of message.now))) }
{
    let answer = Answer::refusal(alloc, errno);
    send_reply(alloc, port, fuse_request::unique_of(message), &answer)
}

// Sends the answer to a seen request, which settles nothing.
fn send_seen<P: Port>(
    alloc: Global,
    port: &mut P,
    message: &[u8],
    answer: &Answer,
) -> Result<Passed, Fault>
    requires message { IsMessage message.now }
    requires young { IsYoung (P.told port.old) }
    ensures ok { IfOk result (λ passed. SentWhole (P.told port.old) (P.told port.new)
        (wire answer.now.errno answer.now.body (unique_of message.now)) (reports_gone passed)) }
    ensures hands { OnOk result (Hands (P.became port.old port.new)
        (wire answer.now.errno answer.now.body (unique_of message.now)) true) }
    ensures err { IfErr result (λ fault. SendFails fault (P.became port.old port.new) (P.told port.old) (P.told port.new)
        (wire answer.now.errno answer.now.body (unique_of message.now))) }
{
    send_reply(alloc, port, fuse_request::unique_of(message), answer)
}

// Sends the answer to one message of this class, and says how many answers are used then.
fn send_next<P: Port>(
    alloc: Global,
    port: &mut P,
    message: &[u8],
    class: Class,
    dones: &[Done],
    next: usize,
    pending: &mut Vec<Id>,
) -> Result<usize, Fault>
    ghost service: { Service }
    requires message { IsMessage message.now }
    requires class { class ≡ class_for service message.now }
    requires next { next ≤ length dones.now }
    requires enough { is_performed_class (class_for service message.now) ≡ true
        → next < length dones.now }
    requires young { IsYoung (P.told port.old) }
    ensures next { IfOk result (λ n. n ≤ length dones.now) }
    ensures left { IfOk result (λ n. drop n (answers_in dones.now)
        ≡ left_by (class_for service message.now) (drop next (answers_in dones.now))) }
    ensures ok { OnOk result (SentNext service (sending (P.became port.old port.new)
        (P.told port.old) (P.told port.new) (ids_of pending.old.items) (ids_of pending.new.items))
        message.now (head_wire (class_for service message.now) (unique_of message.now)
        (drop next (answers_in dones.now)))) }
    ensures err { IfErr result (λ fault. SendFails fault (P.became port.old port.new) (P.told port.old) (P.told port.new)
        (head_wire (class_for service message.now) (unique_of message.now)
        (drop next (answers_in dones.now)))) }
{
    match class {
        Class::Silent => Ok(next),
        Class::Bare(errno) => match send_bare(alloc, port, message, errno) {
            Ok(_) => Ok(next),
            Err(fault) => Err(fault),
        },
        Class::Kept => match send_kept(alloc, port, message, &dones[next].answer, pending) {
            Ok(()) => Ok(next + 1),
            Err(fault) => Err(fault),
        },
        Class::Seen => match send_seen(alloc, port, message, &dones[next].answer) {
            Ok(_) => Ok(next + 1),
            Err(fault) => Err(fault),
        },
    }
}

/// Sends the answers to messages of these classes, in order. The ids that they settle are pending
/// then.
pub(crate) fn send_answers<P: Port>(
    alloc: Global,
    port: &mut P,
    messages: &[Bytes],
    classes: &[Class],
    dones: &[Done],
    pending: &mut Vec<Id>,
) -> Result<(), Fault>
    ghost service: { Service }
    requires messages { All IsMessage messages.now }
    requires classes { classes.now ≡ classes_in service messages.now }
    requires enough { AreEnough service messages.now (answers_in dones.now) }
    requires young { IsYoung (P.told port.old) }
    ensures ok { OnOk result (SentAll service (sending (P.became port.old port.new)
        (P.told port.old) (P.told port.new) (ids_of pending.old.items) (ids_of pending.new.items))
        messages.now (wires service messages.now (answers_in dones.now))) }
    ensures err { IfErr result (λ fault. SentSome (P.became port.old port.new) (P.told port.old) (P.told port.new)
        (wires service messages.now (answers_in dones.now)) fault) }
{
    let mut next = 0;
    for (place, message) in messages.iter().enumerate() {
        let bytes = message.as_slice();
        match send_next(alloc, port, bytes, classes[place], dones, next, pending) {
            Ok(used) => next = used,
            Err(fault) => return Err(fault),
        }
    }
    Ok(())
}
