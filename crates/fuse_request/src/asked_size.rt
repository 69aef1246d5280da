// How many bytes of its answer a request asks for.
ghost use Rattle.std.specs.Prelude.{◌≡◌};
ghost use Rattle.fuse_request.specs.Act.{act};
ghost use Rattle.fuse_request.specs.AskedSize as sizes;
ghost use Rattle.fuse_request.specs.FurtherBodies as further;

use crate::further::{Body, decode_body};
use crate::request::Op;

// The field `size` of a body.
fn size_said(body: &Body<'_>) -> u32
    ensures { result ≡ sizes.size_said (further.further_content body.now) }
{
    match body {
        Body::Getxattr { size, .. } | Body::Listxattr { size } => *size,
        Body::ReadDirPlus(asked) => asked.size,
        _ => 0,
    }
}

// The field `size` of a body of this opcode.
fn further_size(opcode: u32, body: &[u8]) -> u32
    ensures { result ≡ sizes.further_size opcode body.now }
{
    match decode_body(opcode, body) {
        Ok(Some(read)) => size_said(&read),
        _ => 0,
    }
}

/// How many bytes of its answer a request asks for: the field `size` of READ, READDIR, READDIRPLUS,
/// GETXATTR and LISTXATTR, and 0 of any other. Takes no memory.
pub fn size_asked(op: &Op<'_>) -> u32
    ensures { result ≡ sizes.size_asked (act op.now) }
{
    match op {
        Op::Read(asked) | Op::ReadDir(asked) => asked.size,
        Op::Further { opcode, body } => further_size(*opcode, body),
        _ => 0,
    }
}
