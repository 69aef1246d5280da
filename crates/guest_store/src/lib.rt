//! A keeper of the file system that a guest is, over a database of SQLite and a talk with the guest.
#![tactic(auto)]

mod action;
mod asking;
mod deciding;
mod group;
mod keeper;
mod laws;
mod lots;
mod of_guest;
mod pair_changes;
mod pledge;
mod reads;
mod replies;
mod request;
mod served_bits;
mod settled_ids;
mod starting;
mod store;
mod table_pairs;
mod taken_lot;
mod transaction;

pub use keeper::GuestKeeper;
pub use laws::calls_perform;
pub use of_guest::OfGuest;
pub use starting::{Pipes, StartFault};
pub use store::{Broken, Deaths};
