// The fault of the body of an ANSWER.
ghost use Rattle.std.specs.Prelude.{◌≡◌, ◌≤◌, length, true};
ghost use Rattle.fuse_request.specs.Act.{act, opcode_of};
ghost use Rattle.fuse_request.specs.AskedSize as asked;
ghost use Rattle.fuse_request.specs.FurtherBodies.{further_content};
ghost use Rattle.fuse_guest.specs.RightBodies as bodies;
ghost use Rattle.fuse_guest.specs.Talk as talk;

use crate::attributes::{are_attributes_at, is_node_entry};
use crate::fault::TalkFault;
use crate::listing::lists_entries;
use crate::names::has_right_names;
use crate::sizes::has_right_size;
use fuse_request::opcode::{
    ACCESS, COPY_FILE_RANGE, CREATE, DESTROY, FALLOCATE, FLUSH, FSYNC, FSYNCDIR, GETATTR, GETXATTR,
    INIT, LINK, LISTXATTR, LOOKUP, LSEEK, MKDIR, MKNOD, OPEN, OPENDIR, READ, READDIR, READDIRPLUS,
    READLINK, RELEASE, RELEASEDIR, REMOVEXATTR, RENAME, RENAME2, RMDIR, SETATTR, SETXATTR, STATFS,
    SYMLINK, UNLINK, WRITE,
};
use fuse_request::{Body, Op, decode_body, size_asked};
use fuse_wire::{u32_at, u64_at};

// How many bytes a COPY_FILE_RANGE is to copy.
fn len_said(body: &Body<'_>) -> u64
    ensures { result ≡ bodies.len_said (further_content body.now) }
{
    match body {
        Body::CopyFileRange(asked) => asked.len,
        _ => 0,
    }
}

fn further_len(opcode: u32, body: &[u8]) -> u64
    ensures { result ≡ bodies.further_len opcode body.now }
{
    match decode_body(opcode, body) {
        Ok(Some(read)) => len_said(&read),
        _ => 0,
    }
}

// How many bytes a request is to write.
fn most_written(op: &Op<'_>) -> u64
    ensures { result ≡ bodies.most_written (act op.now) }
{
    match *op {
        Op::Write { payload, .. } => payload.len() as u64,
        Op::Further { opcode, body } => further_len(opcode, body),
        _ => 0,
    }
}

// Whether `fuse_entry_out` is one that a kernel takes: of a node, or of a name that isn't there.
fn is_right_entry(op: &Op<'_>, body: &[u8]) -> bool
    requires { 128 ≤ length body.now }
    ensures { result ≡ bodies.is_right_entry (act op.now) body.now }
{
    (op.opcode() == LOOKUP && u64_at(body, 0) == 0) || is_node_entry(op, body)
}

// Whether a body of the right size is one that a kernel takes.
fn is_right_content(opcode: u32, size: u32, op: &Op<'_>, body: &[u8]) -> bool
    requires { bodies.has_right_size opcode size (length body.now) ≡ true }
    ensures { result ≡ bodies.is_right_content (bodies.body_kind opcode size) (act op.now) body.now }
{
    match opcode {
        LOOKUP | SYMLINK | MKNOD | MKDIR | LINK => body.len() == 128 && is_right_entry(op, body),
        CREATE => body.len() == 144 && is_node_entry(op, body),
        GETATTR | SETATTR => body.len() == 104 && are_attributes_at(body, 16),
        WRITE | COPY_FILE_RANGE => {
            body.len() == 8 && u64::from(u32_at(body, 0)) <= most_written(op)
        }
        READDIR => lists_entries(body, 0),
        READDIRPLUS => lists_entries(body, 128),
        GETXATTR | LISTXATTR if size == 0 => true,
        GETXATTR | LISTXATTR => true,
        OPEN | OPENDIR | LSEEK | STATFS | READ | READLINK => true,
        INIT | UNLINK | RMDIR | RENAME | RENAME2 | RELEASE | RELEASEDIR | DESTROY => true,
        FSYNC | FSYNCDIR | FLUSH | SETXATTR | REMOVEXATTR | ACCESS | FALLOCATE => true,
        _ => true,
    }
}

/// The fault of a body of an ANSWER without an error, for this request: its size isn't that of the
/// opcode, or a kernel would end the request by EIO.
pub fn body_fault(op: &Op<'_>, body: &[u8]) -> Option<TalkFault>
    ensures { result ≡ talk.fault_of_body (act op.now) body.now }
{
    let opcode = op.opcode();
    let size = size_asked(op);
    if !has_right_size(opcode, size, body.len()) {
        return Some(TalkFault::Body {
            len: body.len() as u64,
            opcode,
        });
    }
    if !(is_right_content(opcode, size, op, body) && has_right_names(opcode, size, body)) {
        return Some(TalkFault::BadBody(opcode));
    }
    None
}
