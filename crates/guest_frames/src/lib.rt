//! The frames of the guest protocol, version 1.
#![tactic(auto)]

mod changes;
mod encoding;
mod engine_frame;
mod fault;
mod guest_frame;
mod guest_head;
mod guest_kind;
mod hello;
mod keys;
mod laws;
mod limits;
mod measuring;
mod pair_change;
mod parts;
mod ready;
mod seeable;
#[cfg(test)]
mod tests;

pub use changes::Changes;
pub use engine_frame::{EncodingFault, EngineFrame, Pair, Request};
pub use fault::GuestFault;
pub use guest_frame::{Answer, GuestFrame, Scan};
pub use guest_head::GuestHead;
pub use guest_kind::GuestKind;
pub use hello::{Agreed, Hello};
pub use keys::Keys;
pub use laws::{frame_limits, frames_stand};
pub use limits::{
    MAX_ANSWER_BODY, MAX_CHANGES, MAX_ERROR, MAX_FRAME, MAX_KEY, MAX_KEYS, MAX_REPLY, MAX_VALUE,
    VERSION,
};
pub use pair_change::PairChange;
pub use ready::Ready;
