//! The rows of a tree of files: what a store keeps of it, and the bounds.
#![tactic(auto)]

mod blocks;
mod body;
mod chunk;
mod chunks;
mod laws;
mod limits;
mod origin;
mod pieces;
mod rows;

pub use blocks::{BlockSet, blocks_of, first_touched, touched_end};
pub use body::FileBody;
pub use chunks::Chunks;
pub use laws::limit_numbers;
pub use limits::{
    ABSENT_SECS, BLOCK_SIZE, CAPACITY_END, COUNTER_END, DEFAULT_CAPACITY, KEPT_SECS, LEAST_ENTRY,
    MAX_BLOCKS, MAX_FILE, MAX_HANDLES, MAX_NODES, MAX_READ, MAX_TARGET, ROOT_ID, SECTOR_SIZE,
    VALID_SECS,
};
pub use origin::{Origin, Owner};
pub use pieces::{Piece, Pieces};
pub use rows::{Change, ChangeList, Child, Counters, EntryRow, Full, HandleRow, NodeRow, Room};
