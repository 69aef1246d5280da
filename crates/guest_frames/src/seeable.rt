ghost use Rattle.std.specs.Prelude.{◌≡◌};
ghost use Rattle.guest_frames.specs.Seeable as seeable;

use fuse_wire::opcode::{
    ACCESS, FLUSH, FSYNC, FSYNCDIR, GETATTR, GETXATTR, LISTXATTR, LOOKUP, LSEEK, READ, READDIR,
    READDIRPLUS, READLINK, STATFS,
};

fn may_be_seen(opcode: u32) -> bool
    ensures { result ≡ seeable.may_be_seen opcode }
{
    match opcode {
        LOOKUP | GETATTR | READLINK | READ | STATFS | FSYNC | GETXATTR => true,
        LISTXATTR | FLUSH | READDIR | FSYNCDIR | ACCESS | READDIRPLUS | LSEEK => true,
        _ => false,
    }
}

// Whether an opcode is in a set whose bit 0 stands for it, and may not be seen.
fn is_unseeable(opcode: u32, set: u64) -> bool
    ensures { result ≡ seeable.is_unseeable opcode set }
{
    set % 2 == 1 && !may_be_seen(opcode)
}

// The first opcode of a set that may not be seen.
pub(crate) fn unseeable(set: u64) -> Option<u32>
    ensures { result ≡ seeable.unseeable set }
{
    let mut rest = set;
    for opcode in 0..64 {
        if is_unseeable(opcode, rest) {
            return Some(opcode);
        }
        rest /= 2;
    }
    None
}
