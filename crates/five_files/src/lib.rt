//! A file system of five files that nobody can change: an example of one that is no tree.
#![tactic(auto)]

mod asking;
mod attributes;
mod files;
mod further;
mod init;
mod laws;
mod limits;
mod listing;
mod node;
mod opening;
mod serving;

pub use files::FiveFiles;
pub use laws::never_changes;
pub use limits::{EROFS, MAX_READ};
pub use node::Node;
pub use serving::serve_files;
