//! The data file of a store, over `std::fs`: the kit's `sqlite_std_file` for one file instead of two.
#![tactic(auto)]

mod fault;
mod host;
mod opening;
mod record;
mod start;

pub use fault::OpenFault;
pub use host::Host;
pub use opening::{DataFrom, SUFFIX, open, open_or_make, open_to_read};
pub use start::DataStart;
