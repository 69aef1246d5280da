ghost use Rattle.std.specs.Result.{result_err};
ghost use Rattle.std.specs.Prelude.{◌≡◌, Some, IsOkAnd, IfOk, IfErr};
ghost use Rattle.fuse_request.specs.Act.{Asked, asked, act, IsKeptFor, IsSeenFor};
ghost use Rattle.fuse_request.specs.Spelling.{Spells};
ghost use Rattle.fuse_request.specs.Faults.{first_fault};
ghost use Rattle.fuse_request.specs.Places.{asked_at};
ghost use Rattle.fuse_request.specs.Classes.{class_for};
ghost use Rattle.fuse_request.specs.Opcodes.{Service};
ghost use Rattle.fuse_request.specs.declared.class.Class.{Class};

use crate::bodies::op_of;
use crate::header::{MIN_MESSAGE, header_of};
use crate::request::{InHeader, Request};
use fuse_wire::{layouts_stand, names_end, numbers_read};

/// Why a message spells no request. Where several apply it is the first in this order.
#[derive(Clone, Copy, Debug, PartialEq, Eq)]
pub enum Malformed {
    /// There are fewer bytes than a header has.
    HeaderShort,
    /// `len` isn't the number of bytes.
    LenDiffers,
    /// The extensions are longer than the bytes after the header.
    ExtTooLong,
    /// A fixed body has another length, or a fixed part isn't whole.
    BodyLength,
    /// A name has no NUL.
    NoNul,
    /// Bytes follow the NUL of the last name.
    AfterNul,
    /// A count isn't that of the bytes after it.
    CountDiffers,
}

// The request that a message spells, or the first of its faults.
fn read(message: &[u8]) -> Result<Request<'_>, Malformed>
    ensures found { IfOk result (λ r. Spells (asked r) message.now) }
    ensures fault { IfErr result (λ m. first_fault message.now ≡ Some m) }
{
    numbers_read();
    layouts_stand();
    let Some(raw) = header_of(message) else {
        return Err(Malformed::HeaderShort);
    };
    if raw.len as usize != message.len() {
        return Err(Malformed::LenDiffers);
    }
    let ext_len = 8 * raw.total_extlen as usize;
    let rest = &message[MIN_MESSAGE..];
    if rest.len() < ext_len {
        return Err(Malformed::ExtTooLong);
    }
    let (body, ext) = rest.split_at(rest.len() - ext_len);
    let op = op_of(raw.opcode, body)?;
    let header = InHeader {
        unique: raw.unique,
        nodeid: raw.nodeid,
        uid: raw.uid,
        gid: raw.gid,
        pid: raw.pid,
    };
    Ok(Request { header, op, ext })
}

/// The request that a message spells, or the first of its faults. Takes no memory.
pub fn decode(message: &[u8]) -> Result<Request<'_>, Malformed>
    // What is read is spelled so.
    ensures found { IfOk result (λ r. Spells (asked r) message.now) }
    // What is spelled is read.
    ensures only { (v : Asked) → Spells v message.now → IsOkAnd result (λ r. asked r ≡ v) }
    // It is what stands at the places of the opcode.
    ensures placed { IfOk result (λ r. asked r ≡ asked_at message.now) }

    // Which fault it is. There is none exactly where a request is spelled.
    ensures fault { result_err result ≡ first_fault message.now }

    // What is kept is read as a request that is kept, and what is seen as one that is seen, whatever
    // is served and seen.
    ensures kept { (V : Service) → class_for V message.now ≡ Class.Kept
        → IsOkAnd result (λ r. IsKeptFor V (act r.op)) }
    ensures seen { (V : Service) → class_for V message.now ≡ Class.Seen
        → IsOkAnd result (λ r. IsSeenFor V (act r.op)) }
{
    layouts_stand();
    names_end();
    read(message)
}
