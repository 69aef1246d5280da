//! The files of a store: how a run opens and closes them, and what a crash leaves of them.
#![tactic(auto)]

mod closing;
mod crash_keeper;
mod crash_memory;
mod crashing;
mod files;
mod laws;
mod left;
mod opening;

pub use closing::close_store;
pub use crash_keeper::CrashKeeper;
pub use crash_memory::CrashMemory;
pub use crashing::Crashing;
pub use files::{Opening, StoreFiles, open_store};
pub use laws::plain_over_any;
pub use left::{CrashedFiles, StoreLeft};
