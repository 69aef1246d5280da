//! The kernel's side of a session, and whole mounts with their crashes.
#![tactic(auto)]

mod driving;
mod event;
mod group;
mod handing;
mod kernel;
mod life;
mod running;

pub use driving::{drive, drive_twice};
pub use event::{DriveFault, Event, Fate, Outcome};
pub use handing::ids_are_handed_on;
pub use kernel::{Kernel, TakeFault};
pub use life::{lives, runs_are_lives};
