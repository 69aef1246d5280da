//! What a file system in another language is: a guest, which is asked what each request does, over
//! pairs of keys and values.
#![tactic(auto)]

mod attributes;
mod body;
mod fault;
mod guest;
mod laws;
mod listing;
mod names;
mod negotiation;
mod service;
mod sizes;

pub use body::body_fault;
pub use fault::TalkFault;
pub use guest::Guested;
pub use laws::{
    guest_is_sound, has_reply, one_guest, pairs_are_a_map, premise_is_met, replies_fit, scans_list,
    talks_are_the_model,
};
pub use negotiation::negotiate_for;
pub use service::{first_broken, is_handed, is_seen, is_served};
