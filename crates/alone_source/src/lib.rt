//! Bytes of a reader, cut so that the request of one id comes alone.
#![tactic(auto)]

mod hold;
mod laws;
mod messages;
mod source;
#[cfg(test)]
mod tests;

pub use laws::groups_alone;
pub use source::AloneSource;
