//! The tree in the tables of a store, and a group of requests in one transaction.
#![tactic(auto)]

mod action;
mod block_counts;
mod block_reads;
mod block_writes;
mod bounds;
mod contents;
mod counters;
mod entries;
mod free_space;
mod gaps;
mod group;
mod handles;
mod laws;
mod listing;
mod look;
mod lots;
mod made;
mod meta;
mod moved_counters;
mod moved_group;
mod moving;
mod piece_cuts;
mod piece_lists;
mod piece_reads;
mod piece_splits;
mod plan_changes;
mod range_reads;
mod reads;
mod removal;
mod request;
mod rows;
mod seeing;
mod settled_ids;
mod store_data;
mod transaction;
mod truncation;
mod updates;
mod windows;

pub use contents::Contents;
pub use group::Performed;
pub use laws::{
    calls_perform, free_blocks_hold_nothing, held_is_shown, lots_are_read, one_holding,
    rows_in_order,
};
pub use listing::listed_extents;
pub use look::{LastNode, TableLook};
pub use made::{Made, MadePiece};
pub use meta::Meta;
pub use piece_cuts::Gone;
pub use reads::{answer_at_rest, counts_at_rest, room_at_rest, settings_at_rest, size_at_rest};
pub use store_data::{Data, Written};
pub use transaction::perform;
