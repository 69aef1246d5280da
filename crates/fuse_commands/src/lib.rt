//! The commands of `fusekeep` over any reader, writer and keeper: the output and the ending of each,
//! and the command line.
#![tactic(auto)]

mod arguments;
mod asked_store;
mod cause;
mod check;
mod count_line;
mod decode;
mod dump;
mod ending;
mod input;
mod messages;
mod output;
mod program;
mod progress;
mod replay;
mod script;
mod serve;
mod simulate;

pub use arguments::{Run, STANDARD_INPUT, Work, impossible_store, parse, unreadable};
pub use asked_store::{AskedOwner, AskedStore};
pub use cause::Cause;
pub use check::run_check;
pub use count_line::{CountLine, shows_seen};
pub use decode::run_decode;
pub use dump::run_dump;
pub use ending::{Ending, FaultLine};
pub use progress::{ProgressLine, ProgressReader};
pub use replay::run_replay;
pub use serve::{Begin, run_serve};
pub use simulate::{START, run_simulate};
