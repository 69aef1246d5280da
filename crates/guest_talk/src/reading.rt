// Reading the frames of a guest.
ghost use Rattle.std.specs.Prelude.{◌≡◌, true, drop, IfErr, IfOk, OnOk, Some};
ghost use Rattle.guest_frames.specs.Frames.{frame_bytes, frame_kind};
ghost use Rattle.guest_frames.specs.Kinds.{kind_number};
ghost use Rattle.guest_frames.specs.Reading.{first_guest_fault};
ghost use Rattle.guest_talk.specs.Answered.{incoming_frame};
ghost use Rattle.guest_talk.specs.Bytes.{ReadsFault};
ghost use Rattle.guest_talk.specs.inner.Reads.{IsSpelled, ReadsHead, ReadsNot, ReadsWhole};
ghost use Rattle.guest_talk.specs.inner.Reads.{due_kinds};

use crate::due::Due;
use crate::fault::AskFault;
use crate::incoming::Incoming;
use crate::pipe::read_bytes;
use fuse_guest::TalkFault;
use fuse_wire::numbers_read;
use guest_frames::{GuestFault, GuestFrame, GuestHead, GuestKind, frames_stand};
use std::alloc::Global;
use std::io::Read;

// How many bytes say the length of a frame.
const LEN_SIZE: usize = 4;

// Reads the length of a frame and then its kind. No byte is waited for after a wrong length.
fn read_head<R: Read>(source: &mut R, due: Due) -> Result<GuestHead, TalkFault>
    ensures ok { IfOk result (ReadsHead due (R.remaining source.old) (R.remaining source.new)) }
    ensures err { IfErr result (ReadsFault (due_kinds due) (R.remaining source.old)
        (R.remaining source.new)) }
{
    numbers_read();
    let mut bytes = [0; GuestHead::SIZE];
    read_bytes(source, &mut bytes[..LEN_SIZE])?;
    if let Err(fault) = GuestHead::read(&bytes[..LEN_SIZE]) {
        return Err(TalkFault::Frame(fault));
    }
    read_bytes(source, &mut bytes[LEN_SIZE..])?;
    match GuestHead::read(&bytes) {
        Ok(Some(head)) if due.has(head.kind) => Ok(head),
        Ok(Some(head)) => Err(TalkFault::Frame(GuestFault::NotDue(head.kind.number()))),
        Ok(None) => unreachable!(),
        Err(fault) => Err(TalkFault::Frame(fault)),
    }
}

// Whether a payload is that of a frame of this kind.
fn look_at(kind: GuestKind, payload: &[u8]) -> Result<(), GuestFault>
    ensures ok { OnOk result (IsSpelled kind payload.now) }
    ensures err { IfErr result (λ fault. first_guest_fault kind payload.now ≡ Some fault) }
{
    match GuestFrame::decode(kind, payload) {
        Ok(_frame) => Ok(()),
        Err(fault) => Err(fault),
    }
}

/// Reads a frame. No memory is taken for one that is too long or isn't due, and nothing of its
/// payload is read.
pub(crate) fn read_frame<R: Read>(
    alloc: Global,
    source: &mut R,
    due: Due,
) -> Result<Incoming, AskFault>
    ensures ok { IfOk result (λ came. ReadsWhole (R.remaining source.old) (R.remaining source.new)
        (incoming_frame came)) }
    ensures payload { IfOk result (λ came. came.payload.items
        ≡ drop 8 (frame_bytes (incoming_frame came))) }
    ensures kind { IfOk result (λ came. frame_kind (incoming_frame came)
        ≡ kind_number came.kind) }
    ensures due { IfOk result (λ came. due_kinds due came.kind ≡ true) }
    ensures err { IfErr result (ReadsNot due (R.remaining source.old) (R.remaining source.new)) }
{
    numbers_read();
    frames_stand();
    let head = match read_head(source, due) {
        Ok(head) => head,
        Err(fault) => return Err(AskFault::Guest(fault)),
    };
    let mut payload = vec![in alloc; 0; head.len as usize - GuestHead::SIZE]?;
    if let Err(fault) = read_bytes(source, payload.as_mut_slice()) {
        return Err(AskFault::Guest(fault));
    }
    match look_at(head.kind, &payload) {
        Ok(()) => Ok(Incoming {
            kind: head.kind,
            payload,
        }),
        Err(fault) => Err(AskFault::Guest(TalkFault::Frame(fault))),
    }
}
