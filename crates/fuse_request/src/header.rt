ghost use Rattle.std.specs.Prelude.{◌≡◌, ◌<◌, ◌≤◌, ◌↔◌, ◌∷◌, [], IfSome, IsTrue, nat_lt};
ghost use Rattle.std.specs.Prelude.{if◌then◌else◌, length};
ghost use Rattle.fuse_wire.specs.Bounds.{min_message_len};
ghost use Rattle.fuse_request.specs.Header.{IsHeaderOf, raw_of};
ghost use Rattle.fuse_request.specs.Stream.{IsMessage, cut};

use crate::laws::cut_steps;
use fuse_wire::{layouts_stand, u16_at, u32_at, u64_at};

/// The length of the shortest message: a header alone, `fuse_in_header` of `fuse.h`.
pub const MIN_MESSAGE: usize = 40;

/// The length of the longest message.
pub const MAX_MESSAGE: usize = 135_168;

/// The header of a message, `fuse_in_header` of `fuse.h`.
#[derive(Clone, Copy, Debug, PartialEq, Eq)]
pub struct RawHeader {
    pub len: u32,
    pub opcode: u32,
    pub unique: u64,
    pub nodeid: u64,
    pub uid: u32,
    pub gid: u32,
    pub pid: u32,
    pub total_extlen: u16,
    pub padding: u16,
}

/// The header of a message. `None` where there are fewer bytes than a header has.
pub fn header_of(message: &[u8]) -> Option<RawHeader>
    // The first 40 bytes are laid out as the fields of `fuse_in_header`.
    ensures laid { IfSome result (λ h. IsHeaderOf h message.now) }
    ensures none { (result ≡ None) ↔ (length message.now < min_message_len) }

    ensures fields { result ≡ (if nat_lt (length message.now) min_message_len then None
        else Some (raw_of message.now)) }
{
    layouts_stand();
    if message.len() < MIN_MESSAGE {
        return None;
    }
    Some(RawHeader {
        len: u32_at(message, 0),
        opcode: u32_at(message, 4),
        unique: u64_at(message, 8),
        nodeid: u64_at(message, 16),
        uid: u32_at(message, 24),
        gid: u32_at(message, 28),
        pid: u32_at(message, 32),
        total_extlen: u16_at(message, 36),
        padding: u16_at(message, 38),
    })
}

/// Whether bytes are just one message. Takes no memory.
pub fn is_message(bytes: &[u8]) -> bool
    ensures message { IsTrue result ↔ IsMessage bytes.now }
    // So a stream of them has that message alone, and no rest.
    ensures alone { IsTrue result ↔ (cut bytes.now ≡ (bytes.now ∷ [], [])) }
{
    cut_steps();
    bytes.len() >= MIN_MESSAGE
        && bytes.len() <= MAX_MESSAGE
        && u32_at(bytes, 0) as usize == bytes.len()
}

/// The `unique` of a whole message, as it was received: a resend has its bit set. Takes no memory.
pub fn unique_of(message: &[u8]) -> u64
    requires { min_message_len ≤ length message.now }
    ensures { result ≡ (raw_of message.now).unique }
{
    u64_at(message, 8)
}
