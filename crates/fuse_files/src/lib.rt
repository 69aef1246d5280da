//! A server over the files of a store: it opens them, serves, and closes them. Runs over the same
//! files, one after another, are lives of one mount. Views of a store, from the bytes of its files.
#![tactic(auto)]

mod kinds;
mod lives;
mod replaying;
mod serving;
mod showing;
mod simulating;
mod summing;
mod verifying;

pub use kinds::kind_asked;
pub use lives::{files_live, lots_outlive_files, runs_are_file_lives};
pub use replaying::{replay_in_memory, replay_store};
pub use serving::{StoreRun, serve_store};
pub use showing::{Show, ShownStore, StoreBytes, number_of, show_store};
pub use simulating::simulate_store;
pub use verifying::verify_store;
