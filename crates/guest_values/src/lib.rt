//! Large values of guests in the data file.
#![tactic(auto)]

mod columns;
mod giving_back;
mod large_value;
mod laws;
mod listing;
mod reading;
mod value_file;
mod writing;

pub use columns::{rest_of, value_of};
pub use large_value::{LEAST, LONGEST, LargeValue, is_fit, is_large};
pub use laws::{lists_serve, values_stay};
pub use listing::{add_pieces, order_pieces};
pub use value_file::ValueFile;
