ghost use Rattle.std.specs.Prelude.{◌≡◌, ◌++◌, length, OnOk, OnErr};
ghost use Rattle.std.specs.Int.{cast_unsigned, w32};
ghost use Rattle.fuse_answer.specs.Wire.{negated, wire, wire_head};

use crate::answer::Answer;
use crate::records::OutHeader;
use fuse_wire::{Memory, put_bytes};

// What the header holds of an error number.
fn negation(errno: u32) -> i32
    ensures { cast_unsigned w32 result ≡ negated errno }
{
    errno.wrapping_neg().cast_signed()
}

/// The header of the answer to the request of this `unique`. Takes no memory.
pub fn head_of(unique: u64, answer: &Answer) -> [u8; 16]
    ensures { result ≡ wire_head answer.now.errno (length answer.now.body) unique }
{
    let header = OutHeader {
        len: (OutHeader::SIZE + answer.body.as_slice().len()) as u32,
        error: negation(answer.errno.0),
        unique,
    };
    header.bytes()
}

/// Appends the answer to the request of this `unique`. An `Err` leaves `out` unchanged.
pub fn write_answer(unique: u64, answer: &Answer, out: &mut Vec<u8>) -> Result<(), Memory>
    ensures ok { OnOk result (out.new.items ≡ out.old.items
        ++ wire answer.now.errno answer.now.body unique) }
    ensures err { OnErr result (out.new.items ≡ out.old.items) }
{
    let start = out.len();
    put_bytes(out, &head_of(unique, answer))?;
    let written = put_bytes(out, answer.body.as_slice());
    if written.is_err() {
        out.truncate(start);
    }
    written
}
