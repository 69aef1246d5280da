ghost use Rattle.std.specs.Prelude.{◌≡◌, ◌≤◌, ◌+◌, drop, length};
ghost use Rattle.fuse_wire.specs.Bytes.{number_of};

use byteorder::{ByteOrder, LittleEndian};

/// The number in the two bytes at this place.
#[tactic(auto, unfolding(crate::specs::Bytes::number_of))]
pub fn u16_at(bytes: &[u8], at: usize) -> u16
    requires { at + 2 ≤ length bytes.now }
    ensures { result ≡ number_of 2 (drop at bytes.now) }
{
    LittleEndian::read_u16(&bytes[at..])
}

/// The number in the four bytes at this place.
#[tactic(auto, unfolding(crate::specs::Bytes::number_of))]
pub fn u32_at(bytes: &[u8], at: usize) -> u32
    requires { at + 4 ≤ length bytes.now }
    ensures { result ≡ number_of 4 (drop at bytes.now) }
{
    LittleEndian::read_u32(&bytes[at..])
}

/// The number in the eight bytes at this place.
#[tactic(auto, unfolding(crate::specs::Bytes::number_of))]
pub fn u64_at(bytes: &[u8], at: usize) -> u64
    requires { at + 8 ≤ length bytes.now }
    ensures { result ≡ number_of 8 (drop at bytes.now) }
{
    LittleEndian::read_u64(&bytes[at..])
}
