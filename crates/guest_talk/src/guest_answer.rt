ghost use Rattle.std.specs.Prelude.{◌≡◌, true, is_ok};
ghost use Rattle.guest_frames.specs.Reading.{guest_answer_in};

use crate::incoming::Incoming;
use guest_frames::{Answer, GuestFrame, GuestKind, frames_stand};

/// An ANSWER that is taken, with memory of its own.
#[derive(Drop)]
pub struct GuestAnswer {
    pub(crate) payload: Vec<u8>,

    ghost right: { is_ok (guest_answer_in payload.items) ≡ true },
}

impl GuestAnswer {
    ghost use Rattle.guest_frames.specs.Frames.{AnswerContent, of_answer};
    ghost use Rattle.guest_talk.specs.Answered.{incoming_frame};
    ghost use Rattle.guest_frames.specs.Borrowed.{answer_content};
    ghost use Rattle.guest_frames.specs.Frames.{IsRightAnswer};
    ghost use Rattle.guest_talk.specs.Answered.{said_by};

    /// Its error, its changes and its body, as they lie in its bytes. Takes no memory.
    pub fn content(&self) -> Answer<'_>
        ensures said { answer_content result ≡ said_by self.now }
        ensures right { IsRightAnswer (said_by self.now) }
    {
        frames_stand();
        match GuestFrame::decode(GuestKind::Answer, &self.payload) {
            Ok(GuestFrame::Answer(answer)) => answer,
            _ => unreachable!(),
        }
    }

    /// The ANSWER that a frame is.
    pub(crate) fn of(came: Incoming) -> GuestAnswer
        requires { (a : AnswerContent) × (incoming_frame came ≡ of_answer a) }
        ensures { (a : AnswerContent) → incoming_frame came ≡ of_answer a → said_by result ≡ a }
    {
        GuestAnswer {
            payload: came.payload,
        }
    }
}
