//! A keeper for tests with a committed and a working copy. A crash loses uncommitted changes.
#![tactic(auto)]

mod copies;

pub use copies::TwoCopies;
