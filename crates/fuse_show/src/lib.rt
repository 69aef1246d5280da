//! Read-only views of a store: the entries of a directory and the bytes of a file over any `Look`,
//! and a summary.
#![tactic(auto)]

mod checks;
mod content;
mod fault;
mod findings;
mod laws;
mod listing;
mod lookup;
mod modes;
mod names;
mod output;
mod paths;
mod summary;
mod tally;
mod verify;

pub use content::show_content;
pub use fault::ShowFault;
pub use findings::{Finding, show_finding};
pub use laws::{found_once, names_apart};
pub use listing::show_listing;
pub use summary::{Summary, show_summary};
pub use tally::{Tally, show_tally};
pub use verify::{VerifyFault, verify_tree};
