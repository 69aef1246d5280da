//! Contents beside the tables: extents of a data file, which are written once.
#![tactic(auto)]

mod data_file;
mod extent;
mod fault;
mod filling;
mod gaps;
mod header;
mod laws;
mod listing;
mod opening;
mod space;

pub use data_file::DataFile;
pub use extent::{BLOCK, END, Extent, MOST, is_placed, sum_of_bytes};
pub use fault::DataFault;
pub use gaps::Gap;
pub use laws::{by_place_is_apart, bytes_are_blocks, lists_stay, parts_hold, spaces_follow};
