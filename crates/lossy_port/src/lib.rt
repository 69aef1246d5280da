//! A port over lists of bytes that loses answers: an example of one.
#![tactic(auto)]

mod line;
mod port;

pub use port::LossyPort;
