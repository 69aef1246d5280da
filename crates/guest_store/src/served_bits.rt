ghost use Rattle.std.specs.Prelude.{◌≡◌, ◌≤◌, ◌<◌, ◌^◌, if◌then◌else◌};
ghost use Rattle.fuse_guest.specs.Service as service;

use fuse_guest::is_served;
use guest_frames::Ready;

// The bit of an opcode, if a guest of this READY serves it.
fn served_bit(ready: &Ready, opcode: u32) -> u64
    requires { opcode < 64 }
    ensures bit { result ≡ (if service.is_served_by ready.now opcode then 2 ^ opcode else 0) }
    ensures low { result ≤ 2 ^ opcode }
{
    if is_served(ready, opcode) {
        1 << opcode
    } else {
        0
    }
}

/// The opcodes that a guest of this READY serves: opcode n as bit n.
pub(crate) fn served_bits(ready: &Ready) -> u64
    ensures { result ≡ service.served_bits ready.now }
{
    let mut bits: u64 = 0;
    for opcode in 0..64 {
        bits += served_bit(ready, opcode);
    }
    bits
}
