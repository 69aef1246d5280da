//! Keepers: stores of any file system and of the recorded answers of its requests. The trait, and a
//! keeper in memory.
#![tactic(auto)]

mod class;
mod fault;
mod file_system;
mod group;
mod keeper;
mod laws;
mod modelled;
mod pending;
mod plain;
mod restart;

pub use class::classify;
pub use fault::StoreFault;
pub use file_system::FileSystem;
pub use keeper::{Done, Keeper, MAX_GROUP, MAX_SETTLED, StoreCounts};
pub use laws::{
    group_bounds, groups_grow, groups_of_model_grow, histories_grow, kept_groups_grow, said_fits,
    still_stands,
};
pub use modelled::Modelled;
pub use pending::{has_kept, perform_group};
pub use plain::PlainKeeper;
pub use restart::Restart;
