//! The talk of the engine with a guest: what it is asked, what it is shown of the pairs, and what it
//! answers.
#![tactic(auto)]

mod due;
mod fault;
mod greeting;
mod guest_answer;
mod incoming;
mod judging;
mod laws;
mod notes;
mod outgoing;
mod page;
mod pair_source;
mod pipe;
mod reading;
mod record;
mod requests;
mod talk;
mod telling;
#[cfg(test)]
mod tests;

pub use fault::{AskFault, GreetFault};
pub use guest_answer::GuestAnswer;
pub use laws::{records_grow, some_guest_agrees_with_lives};
pub use page::{OwnedPair, PairPage};
pub use pair_source::PairSource;
pub use talk::Talk;
