// Writing a request as a message.
ghost use Rattle.std.specs.Prelude.{◌≡◌, ◌<◌, ◌≤◌, ◌+◌, ◌^◌, ◌↔◌, ◌++◌, Err, OnOk, OnErr};
ghost use Rattle.std.specs.Prelude.{length, true};
ghost use Rattle.fuse_wire.specs.Layout.{widths};
ghost use Rattle.fuse_wire.specs.Written.{Puts};
ghost use Rattle.fuse_wire.specs.inner.Growing.{Extends};
ghost use Rattle.fuse_wire.specs.Bounds.{max_message_len, min_message_len};
ghost use Rattle.fuse_request.specs.Act.{act, asked};
ghost use Rattle.fuse_request.specs.Canon.{canon, len_of, sayable};
ghost use Rattle.fuse_request.specs.Encoding.{ReadsAs};
ghost use Rattle.fuse_request.specs.inner.Writing.{HasNumbers};
ghost use Rattle.fuse_request.specs.Spelling.{Spells, header_parts, parts};

use crate::header::{MAX_MESSAGE, MIN_MESSAGE};
use crate::lengths::{
    BATCH_FORGET_IN, COMPAT_INIT_IN, FORGET_IN, GETATTR_IN, INIT_IN, INTERRUPT_IN, MKDIR_IN,
    MKNOD_IN, OPEN_IN, READ_IN, RELEASE_IN, RENAME_IN, RENAME2_IN, SETATTR_IN, WRITE_IN,
};
use crate::request::{InitIn, Op, Request};
use crate::writing::put_body;
use fuse_wire::{Field, Memory, layouts_stand, names_end, put_bytes, put_fields};

/// Why a request wasn't encoded.
#[derive(Clone, Copy, Debug, PartialEq, Eq)]
pub enum EncodeFault {
    /// A growth was refused.
    Memory,
    /// The message would be longer than any may be.
    TooLong,
}

fn long(bytes: &[u8]) -> u128
    ensures len { result ≡ length bytes.now }
    ensures bound { result < 2 ^ 64 }
{
    bytes.len() as u128
}

// How many bytes the body of a request has.
fn body_len(op: &Op<'_>) -> u128
    ensures len { result ≡ widths (parts (act op.now)) }
    ensures bound { result < 2 ^ 66 }
{
    match *op {
        Op::Lookup { name } | Op::Unlink { name } | Op::Rmdir { name } => long(name) + 1,
        Op::Forget { .. } => FORGET_IN as u128,
        Op::Getattr { .. } => GETATTR_IN as u128,
        Op::Setattr(_) => SETATTR_IN as u128,
        Op::Mknod { name, .. } => MKNOD_IN as u128 + long(name) + 1,
        Op::Mkdir { name, .. } => MKDIR_IN as u128 + long(name) + 1,
        Op::Rename {
            old_name,
            new_name,
            ..
        } => RENAME_IN as u128 + long(old_name) + 1 + long(new_name) + 1,
        Op::OpenFile { .. } | Op::OpenDir { .. } => OPEN_IN as u128,
        Op::Read(_) | Op::ReadDir(_) => READ_IN as u128,
        Op::Write { payload, .. } => WRITE_IN as u128 + long(payload),
        Op::Release(_) | Op::ReleaseDir(_) => RELEASE_IN as u128,
        Op::Init(InitIn { flags2: None, .. }) => COMPAT_INIT_IN as u128,
        Op::Init(
            InitIn {
                flags2: Some(_),
                ..
            },
        ) => INIT_IN as u128,
        Op::Interrupt { .. } => INTERRUPT_IN as u128,
        Op::Destroy => 0,
        Op::BatchForget { items } => BATCH_FORGET_IN as u128 + long(items),
        Op::Rename2 {
            old_name,
            new_name,
            ..
        } => RENAME2_IN as u128 + long(old_name) + 1 + long(new_name) + 1,
        Op::Further { body, .. } => long(body),
    }
}

// How many bytes the message of a request has.
fn message_len(request: &Request<'_>) -> u128
    ensures len { result ≡ len_of (asked request.now) }
    ensures widths { result ≡ min_message_len + (widths (parts (act request.now.op))
        + length request.now.ext.now) }
{
    layouts_stand();
    MIN_MESSAGE as u128 + (body_len(&request.op) + long(request.ext))
}

// Appends the header of a message.
fn put_header(out: &mut Vec<u8>, request: &Request<'_>, len: u32, units: u16) -> Result<(), Memory>
    ensures { Puts (header_parts len units (asked request.now)) out.old.items out.new.items result }
{
    let header = &request.header;
    put_fields(
        out,
        &[
            Field::U32(len),
            Field::U32(request.op.opcode()),
            Field::U64(header.unique),
            Field::U64(header.nodeid),
            Field::U32(header.uid),
            Field::U32(header.gid),
            Field::U32(header.pid),
            Field::U16(units),
            Field::Unused(2),
        ],
    )
}

// Appends the message of a request, or a part of it.
fn put_message(out: &mut Vec<u8>, request: &Request<'_>, len: u32) -> Result<(), Memory>
    requires len { len ≡ len_of (asked request.now) }
    requires widths { len ≡ min_message_len + (widths (parts (act request.now.op))
        + length request.now.ext.now) }
    requires short { len ≤ max_message_len }
    ensures ok { OnOk result (out.new.items ≡ out.old.items ++ canon (asked request.now)) }
    ensures fits { OnOk result (HasNumbers (asked request.now)) }
    ensures grows { Extends out.old.items out.new.items }
{
    let units = (request.ext.len() / 8) as u16;
    put_header(out, request, len, units)?;
    put_body(out, &request.op)?;
    put_bytes(out, request.ext)
}

/// Appends the message that says a request, with zeros where a field isn't used. A fault leaves
/// `out` unchanged.
pub fn encode(request: &Request<'_>, out: &mut Vec<u8>) -> Result<(), EncodeFault>
    requires { sayable (asked request.now) ≡ true }
    ensures ok { OnOk result (out.new.items ≡ out.old.items ++ canon (asked request.now)) }
    ensures err { OnErr result (out.new.items ≡ out.old.items) }
    ensures spelled { OnOk result (Spells (asked request.now) (canon (asked request.now))) }
    // What decode answers for the message is the request.
    ensures decoded { OnOk result (ReadsAs (canon (asked request.now)) (asked request.now)) }
    // It is tested before anything is written.
    ensures too_long { (result ≡ Err EncodeFault.TooLong)
        ↔ (max_message_len < len_of (asked request.now)) }
{
    layouts_stand();
    names_end();
    let len = message_len(request);
    if len > MAX_MESSAGE as u128 {
        return Err(EncodeFault::TooLong);
    }
    let start = out.len();
    if put_message(out, request, len as u32).is_err() {
        out.truncate(start);
        return Err(EncodeFault::Memory);
    }
    Ok(())
}
