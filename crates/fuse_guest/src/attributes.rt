// The attributes in a body, and the types of nodes.
ghost use Rattle.std.specs.Prelude.{◌≡◌, ◌≤◌, ◌+◌, length};
ghost use Rattle.fuse_request.specs.Act.{act};
ghost use Rattle.fuse_guest.specs.RightBodies as bodies;

use fuse_request::Op;
use fuse_request::opcode::{CREATE, SYMLINK};
use fuse_wire::{u32_at, u64_at};

const DIRECTORY: u32 = 4;

const REGULAR: u32 = 8;

const LINK: u32 = 10;

// The type in a mode: the four bits of S_IFMT.
fn type_in(mode: u32) -> u32
    ensures { result ≡ bodies.type_in mode }
{
    mode / 0o10000 % 16
}

fn is_file_type(kind: u32) -> bool
    ensures { result ≡ bodies.is_file_type kind }
{
    matches!(kind, 1 | 2 | DIRECTORY | 6 | REGULAR | LINK | 12)
}

// Whether `fuse_attr` at this place has one of the types, and a size that a kernel takes.
pub(crate) fn are_attributes_at(bytes: &[u8], at: usize) -> bool
    requires { at + 88 ≤ length bytes.now }
    ensures { result ≡ bodies.are_attributes_at at bytes.now }
{
    is_file_type(type_in(u32_at(bytes, at + 60))) && u64_at(bytes, at + 8) < 1 << 63
}

// The type of a MKNOD: 0 is a regular file.
fn type_of_mknod(mode: u32) -> u32
    ensures { result ≡ bodies.type_of_mknod mode }
{
    let kind = type_in(mode);
    if kind == 0 { REGULAR } else { kind }
}

fn further_type(opcode: u32) -> Option<u32>
    ensures { result ≡ bodies.further_type opcode }
{
    if opcode == SYMLINK {
        Some(LINK)
    } else if opcode == CREATE {
        Some(REGULAR)
    } else {
        None
    }
}

// The type of what a request makes.
fn type_asked(op: &Op<'_>) -> Option<u32>
    ensures { result ≡ bodies.type_asked (act op.now) }
{
    match *op {
        Op::Mkdir { .. } => Some(DIRECTORY),
        Op::Mknod { mode, .. } => Some(type_of_mknod(mode)),
        Op::Further { opcode, .. } => further_type(opcode),
        _ => None,
    }
}

fn is_of_type(kind: Option<u32>, found: u32) -> bool
    ensures { result ≡ bodies.is_of_type kind found }
{
    match kind {
        Some(wanted) => found == wanted,
        None => true,
    }
}

// Whether `fuse_entry_out` is of a node that a kernel takes, and of the type that is asked for.
pub(crate) fn is_node_entry(op: &Op<'_>, body: &[u8]) -> bool
    requires { 128 ≤ length body.now }
    ensures { result ≡ bodies.is_node_entry (act op.now) body.now }
{
    u64_at(body, 0) > 1
        && are_attributes_at(body, 40)
        && is_of_type(type_asked(op), type_in(u32_at(body, 100)))
}
