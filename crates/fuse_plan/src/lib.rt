//! The plan of a request: its answer, and the rows that it changes. The laws of the tree.
#![tactic(auto)]

mod laws;
mod planned;
mod planning;

pub use laws::{
    answers_are_read, answers_fit, bytes_kept, clearing, lies_in_is_under, listing_is_longest,
    looks_stay, new_store_is_tree, plus_listing_is_longest, rows_of_trees, rows_tell_state,
    tree_kept,
};
pub use planned::Planned;
pub use planning::{PlanFault, plan};
