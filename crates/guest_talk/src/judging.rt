// What comes of a frame of a guest.
ghost use Rattle.std.specs.Prelude.{◌≡◌, IfErr, IfOk};
ghost use Rattle.fuse_request.specs.Act.{act};
ghost use Rattle.guest_frames.specs.Borrowed.{answer_content};
ghost use Rattle.fuse_guest.specs.Talk as talk;
ghost use Rattle.guest_talk.specs.Answered.{incoming_frame};
ghost use Rattle.guest_talk.specs.inner.Turns.{IsJudged, IsJudgedWrong};

use crate::incoming::Incoming;
use fuse_guest::{TalkFault, body_fault, is_seen};
use fuse_request::Op;
use guest_frames::{Answer, GuestFault, GuestFrame, Ready};

/// What a frame is that is due.
#[derive(Clone, Copy, Debug, PartialEq, Eq)]
pub(crate) enum Judged {
    /// A GET or a SCAN.
    Asks,
    /// The ANSWER, which is taken.
    Answers,
}

// The fault of an ANSWER: changes where nothing may change, then its body.
fn answer_fault(ready: &Ready, op: &Op<'_>, answer: Answer<'_>) -> Option<TalkFault>
    ensures { result ≡ talk.answer_fault ready.now (act op.now) (answer_content answer.entry) }
{
    if answer.error != 0 {
        return None;
    }
    let opcode = op.opcode();
    let mut changes = answer.changes;
    if is_seen(ready, opcode) && changes.next().is_some() {
        return Some(TalkFault::ChangesOf(opcode));
    }
    body_fault(op, answer.body)
}

/// Whether a frame asks for pairs, or is the ANSWER to this request, or its fault.
pub(crate) fn judge(ready: &Ready, op: &Op<'_>, came: &Incoming) -> Result<Judged, TalkFault>
    ensures ok { IfOk result (IsJudged ready.now (act op.now) (incoming_frame came.now)) }
    ensures err { IfErr result (IsJudgedWrong ready.now (act op.now) (incoming_frame came.now)) }
{
    match came.frame() {
        GuestFrame::Get(_) => Ok(Judged::Asks),
        GuestFrame::Scan(_) => Ok(Judged::Asks),
        GuestFrame::Ready(_) => Err(TalkFault::Frame(GuestFault::NotDue(came.kind.number()))),
        GuestFrame::Answer(answer) => match answer_fault(ready, op, answer) {
            Some(fault) => Err(fault),
            None => Ok(Judged::Answers),
        },
    }
}
