//! The requests of a FUSE kernel: their grammar, a decoder, an encoder, and a framer that cuts a
//! stream into messages.
#![tactic(auto)]

mod asked_size;
mod bodies;
mod class;
mod decoding;
mod encoding;
mod framer;
mod further;
mod header;
mod laws;
mod lengths;
pub mod opcode;
mod request;
mod sayable;
mod writing;

pub use asked_size::size_asked;
pub use class::{Class, classify, classify_for, has_zero_unique};
pub use decoding::{Malformed, decode};
pub use encoding::{EncodeFault, encode};
pub use framer::{FrameFault, Framer, MAX_FED};
pub use further::{Body, CopyFileRangeIn, decode_body};
pub use header::{MAX_MESSAGE, MIN_MESSAGE, RawHeader, header_of, is_message, unique_of};
pub use laws::{
    canon_spells, cut_joins, cut_steps, message_bounds, one_cut, seen_by_class, spelled_at,
};
pub use request::{InHeader, InitIn, Op, ReadIn, ReleaseIn, Request, SetattrIn};
