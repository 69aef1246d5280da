// Which opcodes a guest serves, and whose requests it sees.
ghost use Rattle.std.specs.Prelude.{◌≡◌};
ghost use Rattle.fuse_guest.specs.Service as service;

use fuse_request::opcode::{
    ACCESS, COPY_FILE_RANGE, CREATE, DESTROY, FALLOCATE, FLUSH, FSYNC, FSYNCDIR, GETATTR, GETXATTR,
    INIT, LINK, LISTXATTR, LOOKUP, LSEEK, MKDIR, MKNOD, OPEN, OPENDIR, READ, READDIR, READDIRPLUS,
    READLINK, RELEASE, RELEASEDIR, REMOVEXATTR, RENAME, RENAME2, RMDIR, SETATTR, SETXATTR, STATFS,
    SYMLINK, UNLINK, WRITE,
};
use guest_frames::Ready;

/// Whether an engine can hand requests of this opcode on.
pub fn is_handed(opcode: u32) -> bool
    ensures { result ≡ service.is_handed opcode }
{
    match opcode {
        LOOKUP | GETATTR | SETATTR | MKNOD | MKDIR | UNLINK | RMDIR | RENAME | OPEN | READ => true,
        WRITE | RELEASE | INIT | OPENDIR | READDIR | RELEASEDIR | RENAME2 => true,
        READLINK | SYMLINK | LINK | STATFS | FSYNC | SETXATTR | GETXATTR | LISTXATTR => true,
        REMOVEXATTR | FLUSH | FSYNCDIR | ACCESS | CREATE | FALLOCATE | READDIRPLUS => true,
        LSEEK | COPY_FILE_RANGE => true,
        _ => false,
    }
}

// Whether an opcode is in a set of opcodes.
fn is_in(set: u64, opcode: u32) -> bool
    ensures { result ≡ service.is_in_bits set opcode }
{
    if opcode >= 64 {
        return false;
    }
    (set >> opcode) % 2 == 1
}

/// Whether a guest of this READY serves an opcode.
pub fn is_served(ready: &Ready, opcode: u32) -> bool
    ensures { result ≡ service.is_served_by ready.now opcode }
{
    is_handed(opcode) && (opcode == INIT || is_in(ready.opcodes, opcode))
}

/// Whether requests of an opcode change nothing and leave no record: the guest sees them, or it
/// doesn't serve them.
pub fn is_seen(ready: &Ready, opcode: u32) -> bool
    ensures { result ≡ service.is_seen_by ready.now opcode }
{
    !(opcode == INIT || opcode == DESTROY)
        && (!is_served(ready, opcode) || is_in(ready.seen, opcode))
}

// Whether an opcode is pledged, and not served any longer.
fn is_broken(pledged: u64, ready: &Ready, opcode: u32) -> bool
    ensures { result ≡ service.is_broken pledged ready.now opcode }
{
    is_in(pledged, opcode) && !is_served(ready, opcode)
}

/// The first opcode that is pledged and that a guest of this READY doesn't serve. The READY is
/// refused then.
pub fn first_broken(pledged: u64, ready: &Ready) -> Option<u32>
    ensures { result ≡ service.first_broken pledged ready.now }
{
    for opcode in 0..64 {
        if is_broken(pledged, ready, opcode) {
            return Some(opcode);
        }
    }
    None
}
