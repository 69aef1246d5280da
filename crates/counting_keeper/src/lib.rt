//! An example of a keeper over any other keeper: it counts the calls, and logs what it is asked.
#![tactic(auto)]

mod keeper;
mod log;
mod tally;

pub use keeper::CountingKeeper;
pub use log::{Call, Log};
pub use tally::Tally;
