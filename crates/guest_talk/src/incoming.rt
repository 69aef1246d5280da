ghost use Rattle.std.specs.Prelude.{◌≡◌, true, is_ok};
ghost use Rattle.guest_frames.specs.Reading.{payload_in};

use guest_frames::{GuestFrame, GuestKind, frames_stand};

/// A frame of a guest, with memory of its own: its kind, and the bytes after its head.
#[derive(Drop)]
pub(crate) struct Incoming {
    pub(crate) kind: GuestKind,
    pub(crate) payload: Vec<u8>,

    ghost right: { is_ok (payload_in kind payload.items) ≡ true },
}

impl Incoming {
    ghost use Rattle.guest_frames.specs.Borrowed.{guest_content};
    ghost use Rattle.guest_frames.specs.Frames.{frame_kind};
    ghost use Rattle.guest_frames.specs.Kinds.{kind_number};
    ghost use Rattle.guest_talk.specs.Answered.{incoming_frame};

    /// What it says.
    pub(crate) fn frame(&self) -> GuestFrame<'_>
        ensures frame { guest_content result ≡ incoming_frame self.now }
        ensures kind { frame_kind (guest_content result) ≡ kind_number self.now.kind }
    {
        frames_stand();
        match GuestFrame::decode(self.kind, &self.payload) {
            Ok(frame) => frame,
            Err(_fault) => unreachable!(),
        }
    }
}
