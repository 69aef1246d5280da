//! The negotiation of INIT.
#![tactic(auto)]

mod laws;
mod negotiation;
mod profile;
mod settings;

pub use laws::agreed_bits;
pub use negotiation::{
    CONGESTION_THRESHOLD, MAJOR, MAX_BACKGROUND, MAX_WRITE, MIN_MINOR, MINOR, Negotiated,
    TIME_GRAN, negotiate,
};
pub use profile::{EverydayProfile, PlainProfile, Profile, Profiled};
pub use settings::Settings;
