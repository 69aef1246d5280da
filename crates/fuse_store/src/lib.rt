//! `TableKeeper`, a keeper whose store is a database of SQLite and a data file.
#![tactic(auto)]

mod contents;
mod creation;
mod keeping;
mod laws;
mod mount;
mod new_store;
mod opening;
mod opening_begun;
mod parts;
mod restarts;
mod setup;
mod start;
mod store_keeper;
mod table_keeper;
mod taken_lot;
mod third_data;
mod third_number;

pub use fuse_keeper::{Done, Keeper, PlainKeeper, Restart, StoreCounts, StoreFault};
pub use fuse_lists::PlainTree;
pub use new_store::{NewStore, StoreKind};
pub use parts::StoreParts;
pub use start::{open_fresh, open_or_create, opening_fault};
pub use store_keeper::StoreKeeper;
pub use table_keeper::TableKeeper;
