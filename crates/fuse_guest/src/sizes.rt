// How long bodies are.
ghost use Rattle.std.specs.Prelude.{◌≡◌};
ghost use Rattle.fuse_guest.specs.RightBodies as bodies;

use fuse_request::opcode::{
    ACCESS, COPY_FILE_RANGE, CREATE, DESTROY, FALLOCATE, FLUSH, FSYNC, FSYNCDIR, GETATTR, GETXATTR,
    INIT, LINK, LISTXATTR, LOOKUP, LSEEK, MKDIR, MKNOD, OPEN, OPENDIR, READ, READDIR, READDIRPLUS,
    READLINK, RELEASE, RELEASEDIR, REMOVEXATTR, RENAME, RENAME2, RMDIR, SETATTR, SETXATTR, STATFS,
    SYMLINK, UNLINK, WRITE,
};

// Whether an ANSWER without an error may have a body of this length, for a request of this opcode
// that asks for `size` bytes.
pub(crate) fn has_right_size(opcode: u32, size: u32, len: usize) -> bool
    ensures { result ≡ bodies.has_right_size opcode size len }
{
    match opcode {
        LOOKUP | SYMLINK | MKNOD | MKDIR | LINK => len == 128,
        GETATTR | SETATTR => len == 104,
        OPEN | OPENDIR => len == 16,
        CREATE => len == 144,
        WRITE | COPY_FILE_RANGE | LSEEK => len == 8,
        STATFS => len == 80,
        READ | READDIR | READDIRPLUS => len <= size as usize,
        GETXATTR | LISTXATTR if size == 0 => len == 8,
        GETXATTR | LISTXATTR => len <= size as usize,
        READLINK if len == 0 => false,
        READLINK => len <= 4095,
        INIT | UNLINK | RMDIR | RENAME | RENAME2 | RELEASE | RELEASEDIR | DESTROY => len == 0,
        FSYNC | FSYNCDIR | FLUSH | SETXATTR | REMOVEXATTR | ACCESS | FALLOCATE => len == 0,
        _ => len == 0,
    }
}
