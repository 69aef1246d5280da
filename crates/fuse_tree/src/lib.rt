//! A tree of files: what each request does to it and answers, and how its rows are looked up.
#![tactic(auto)]

mod agreement;
mod laws;
mod look;
mod mode;
mod new_node;
mod rename_mode;
mod terms;

pub use agreement::Agreement;
pub use laws::mode_numbers;
pub use look::{Look, LookFault};
pub use mode::{
    S_IFBLK, S_IFCHR, S_IFDIR, S_IFIFO, S_IFLNK, S_IFREG, S_IFSOCK, S_ISGID, TYPE_UNIT, TYPES,
};
pub use new_node::NewNode;
pub use rename_mode::RenameMode;
pub use terms::{
    inherits, max_file, max_nodes, open_flags, removes, sees_requests, serves_further,
};
