//! The schema of a store in SQLite tables, and the statements on it.
#![tactic(auto)]

mod block_ranges;
mod blocks;
mod columns;
mod copied;
mod counted_nodes;
mod counters;
mod creation;
mod dropping;
mod entries;
mod everyday;
mod fresh;
mod handles;
mod layout;
mod layout_three;
mod meta;
mod migration;
mod mount;
mod nodes;
mod numbers;
mod piece_reads;
mod pieces;
mod profile;
mod readying;
mod records;
mod schema;
mod setup;
mod shapes;
mod slices;
mod statements;
mod store_number;
mod third;
mod to_count;
mod used;
mod values;
mod version;

pub use block_ranges::{count_blocks, delete_blocks_between, select_blocks};
pub use blocks::{delete_blocks_from, insert_block, select_block, update_block, write_block};
pub use columns::{bytes_at, node_at, node_if_any, number_at, small_at};
pub use counters::{AGREED, HANDLES, NEXT_LOT, NEXT_NODE, USED, select_counters, update_counter};
pub use creation::{make_store, try_store};
pub use entries::{delete_entry, insert_entry, select_after, select_children, select_named};
pub use fresh::set_up_fresh;
pub use handles::{delete_handle, insert_handle, select_handle, select_handles_of};
pub use mount::begin_mount;
pub use nodes::{delete_node, insert_node, put_node, select_node, sum_sizes};
pub use piece_reads::{
    count_piece_blocks, delete_pieces_of, piece_in_row, select_piece_before, select_pieces_between,
};
pub use pieces::{PieceRow, delete_pieces, insert_piece, select_pieces};
pub use readying::{BeforeCommit, NothingMore};
pub use records::{
    count_kept, count_lots, delete_four_kept, delete_kept, insert_kept, insert_lot, select_kept,
};
pub use schema::{is_empty, layout_of};
pub use setup::set_up;
pub use slices::{count_all_blocks, select_block_keys, select_listed_pieces};
pub use statements::{begin, commit, go_back, undo};
pub use store_number::number_at_rest;
pub use to_count::{blocks_are_apart, is_to_count};
pub use version::{Layout, Volume};
