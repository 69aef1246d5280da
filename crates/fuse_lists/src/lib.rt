//! The tree in memory: its rows are lists.
#![tactic(auto)]

mod plain;
mod plain_tree;

pub use plain_tree::PlainTree;
