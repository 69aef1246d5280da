ghost use Rattle.std.specs.Prelude.{◌≡◌, ◌++◌, OnOk, OnErr};
ghost use Rattle.std.specs.Int.{cast_unsigned, w32};
ghost use Rattle.fuse_wire.specs.Bytes.{le};

use crate::memory::Memory;
use byteorder::{ByteOrder, LittleEndian};

/// Appends the bytes. An `Err` leaves `out` unchanged.
pub fn put_bytes(out: &mut Vec<u8>, bytes: &[u8]) -> Result<(), Memory>
    ensures ok { OnOk result (out.new.items ≡ out.old.items ++ bytes.now) }
    ensures err { OnErr result (out.new.items ≡ out.old.items) }
{
    match out.extend_from_slice(bytes) {
        Ok(()) => Ok(()),
        Err(_) => Err(Memory),
    }
}

/// Appends the two bytes of a number, the lowest first. An `Err` leaves `out` unchanged.
#[tactic(auto, unfolding(crate::specs::Bytes::le))]
pub fn put_u16(out: &mut Vec<u8>, n: u16) -> Result<(), Memory>
    ensures ok { OnOk result (out.new.items ≡ out.old.items ++ le 2 n) }
    ensures err { OnErr result (out.new.items ≡ out.old.items) }
{
    let mut bytes = [0; 2];
    LittleEndian::write_u16(&mut bytes, n);
    put_bytes(out, &bytes)
}

/// Appends the four bytes of a number, the lowest first. An `Err` leaves `out` unchanged.
#[tactic(auto, unfolding(crate::specs::Bytes::le))]
pub fn put_u32(out: &mut Vec<u8>, n: u32) -> Result<(), Memory>
    ensures ok { OnOk result (out.new.items ≡ out.old.items ++ le 4 n) }
    ensures err { OnErr result (out.new.items ≡ out.old.items) }
{
    let mut bytes = [0; 4];
    LittleEndian::write_u32(&mut bytes, n);
    put_bytes(out, &bytes)
}

/// Appends the four bytes of a number in two's complement, the lowest first. An `Err` leaves
/// `out` unchanged.
pub fn put_i32(out: &mut Vec<u8>, n: i32) -> Result<(), Memory>
    ensures ok { OnOk result (out.new.items ≡ out.old.items ++ le 4 (cast_unsigned w32 n)) }
    ensures err { OnErr result (out.new.items ≡ out.old.items) }
{
    put_u32(out, n.cast_unsigned())
}

/// Appends the eight bytes of a number, the lowest first. An `Err` leaves `out` unchanged.
#[tactic(auto, unfolding(crate::specs::Bytes::le))]
pub fn put_u64(out: &mut Vec<u8>, n: u64) -> Result<(), Memory>
    ensures ok { OnOk result (out.new.items ≡ out.old.items ++ le 8 n) }
    ensures err { OnErr result (out.new.items ≡ out.old.items) }
{
    let mut bytes = [0; 8];
    LittleEndian::write_u64(&mut bytes, n);
    put_bytes(out, &bytes)
}
