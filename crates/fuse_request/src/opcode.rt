//! The opcodes of the profile, their names, and which are silent.
ghost use Rattle.std.specs.Prelude.{◌≡◌};
ghost use Rattle.std.specs.Option.{option_map};
ghost use Rattle.fuse_request.specs.Opcodes as opcodes;
ghost use Rattle.fuse_wire.specs.Opcodes.{silent};
ghost use Rattle.fuse_request.specs.Opcodes.{in_profile};

pub use fuse_wire::opcode::{
    ACCESS, BATCH_FORGET, COPY_FILE_RANGE, CREATE, DESTROY, FALLOCATE, FLUSH, FORGET, FSYNC,
    FSYNCDIR, GETATTR, GETXATTR, INIT, INTERRUPT, LINK, LISTXATTR, LOOKUP, LSEEK, MKDIR, MKNOD,
    NOTIFY_REPLY, OPEN, OPENDIR, READ, READDIR, READDIRPLUS, READLINK, RELEASE, RELEASEDIR,
    REMOVEXATTR, RENAME, RENAME2, RMDIR, SETATTR, SETXATTR, STATFS, SYMLINK, UNLINK, WRITE,
};

/// The name of an opcode of the profile in `fuse.h`, without `FUSE_`.
pub fn name_of(opcode: u32) -> Option<&'static str>
    ensures { option_map (λ name. name.now) result ≡ opcodes.name_of opcode }
{
    match opcode {
        LOOKUP => Some("LOOKUP"),
        FORGET => Some("FORGET"),
        GETATTR => Some("GETATTR"),
        SETATTR => Some("SETATTR"),
        MKNOD => Some("MKNOD"),
        MKDIR => Some("MKDIR"),
        UNLINK => Some("UNLINK"),
        RMDIR => Some("RMDIR"),
        RENAME => Some("RENAME"),
        OPEN => Some("OPEN"),
        READ => Some("READ"),
        WRITE => Some("WRITE"),
        RELEASE => Some("RELEASE"),
        INIT => Some("INIT"),
        OPENDIR => Some("OPENDIR"),
        READDIR => Some("READDIR"),
        RELEASEDIR => Some("RELEASEDIR"),
        INTERRUPT => Some("INTERRUPT"),
        DESTROY => Some("DESTROY"),
        BATCH_FORGET => Some("BATCH_FORGET"),
        RENAME2 => Some("RENAME2"),
        _ => None,
    }
}

/// Whether an opcode is of the profile.
pub(crate) fn is_in_profile(opcode: u32) -> bool
    ensures { result ≡ in_profile opcode }
{
    name_of(opcode).is_some()
}

/// Whether messages of this opcode are never answered.
pub fn is_silent(opcode: u32) -> bool
    ensures { result ≡ silent opcode }
{
    matches!(opcode, FORGET | INTERRUPT | NOTIFY_REPLY | BATCH_FORGET)
}
