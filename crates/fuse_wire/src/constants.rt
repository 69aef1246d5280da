// The constants of this crate are the numbers of `fuse.h` and of Linux.
ghost use Rattle.std.specs.Prelude.{◌≡◌};
ghost use Rattle.fuse_wire.specs.Bits as bits;
ghost use Rattle.fuse_wire.specs.Errnos as errnos;
ghost use Rattle.fuse_wire.specs.Opcodes as opcodes;

use crate::access_mode::{FOPEN_KEEP_CACHE, O_ACCMODE, O_RDONLY, O_RDWR, O_WRONLY};
use crate::errno::Errno;
use crate::id::UNIQUE_RESEND;
use crate::init_flags::InitFlags;
use crate::opcode::*;
use crate::setattr_valid::SetattrValid;

/// The opcodes are those of `fuse.h`.
pub fn opcode_numbers()
    ensures lookup { LOOKUP ≡ opcodes.fuse_lookup }
    ensures forget { FORGET ≡ opcodes.fuse_forget }
    ensures getattr { GETATTR ≡ opcodes.fuse_getattr }
    ensures setattr { SETATTR ≡ opcodes.fuse_setattr }
    ensures mknod { MKNOD ≡ opcodes.fuse_mknod }
    ensures mkdir { MKDIR ≡ opcodes.fuse_mkdir }
    ensures unlink { UNLINK ≡ opcodes.fuse_unlink }
    ensures rmdir { RMDIR ≡ opcodes.fuse_rmdir }
    ensures rename { RENAME ≡ opcodes.fuse_rename }
    ensures open { OPEN ≡ opcodes.fuse_open }
    ensures read { READ ≡ opcodes.fuse_read }
    ensures write { WRITE ≡ opcodes.fuse_write }
    ensures release { RELEASE ≡ opcodes.fuse_release }
    ensures init { INIT ≡ opcodes.fuse_init }
    ensures opendir { OPENDIR ≡ opcodes.fuse_opendir }
    ensures readdir { READDIR ≡ opcodes.fuse_readdir }
    ensures releasedir { RELEASEDIR ≡ opcodes.fuse_releasedir }
    ensures interrupt { INTERRUPT ≡ opcodes.fuse_interrupt }
    ensures destroy { DESTROY ≡ opcodes.fuse_destroy }
    ensures notify_reply { NOTIFY_REPLY ≡ opcodes.fuse_notify_reply }
    ensures batch_forget { BATCH_FORGET ≡ opcodes.fuse_batch_forget }
    ensures rename2 { RENAME2 ≡ opcodes.fuse_rename2 }
    ensures readlink { READLINK ≡ opcodes.fuse_readlink }
    ensures symlink { SYMLINK ≡ opcodes.fuse_symlink }
    ensures link { LINK ≡ opcodes.fuse_link }
    ensures statfs { STATFS ≡ opcodes.fuse_statfs }
    ensures fsync { FSYNC ≡ opcodes.fuse_fsync }
    ensures setxattr { SETXATTR ≡ opcodes.fuse_setxattr }
    ensures getxattr { GETXATTR ≡ opcodes.fuse_getxattr }
    ensures listxattr { LISTXATTR ≡ opcodes.fuse_listxattr }
    ensures removexattr { REMOVEXATTR ≡ opcodes.fuse_removexattr }
    ensures flush { FLUSH ≡ opcodes.fuse_flush }
    ensures fsyncdir { FSYNCDIR ≡ opcodes.fuse_fsyncdir }
    ensures access { ACCESS ≡ opcodes.fuse_access }
    ensures create { CREATE ≡ opcodes.fuse_create }
    ensures fallocate { FALLOCATE ≡ opcodes.fuse_fallocate }
    ensures readdirplus { READDIRPLUS ≡ opcodes.fuse_readdirplus }
    ensures lseek { LSEEK ≡ opcodes.fuse_lseek }
    ensures copy_file_range { COPY_FILE_RANGE ≡ opcodes.fuse_copy_file_range }
{}

/// The error numbers are those of Linux.
pub fn errno_numbers()
    ensures none { Errno.NONE.0 ≡ 0 }
    ensures enoent { Errno.ENOENT ≡ errnos.enoent }
    ensures ebadf { Errno.EBADF ≡ errnos.ebadf }
    ensures eexist { Errno.EEXIST ≡ errnos.eexist }
    ensures enotdir { Errno.ENOTDIR ≡ errnos.enotdir }
    ensures eisdir { Errno.EISDIR ≡ errnos.eisdir }
    ensures einval { Errno.EINVAL ≡ errnos.einval }
    ensures enfile { Errno.ENFILE ≡ errnos.enfile }
    ensures efbig { Errno.EFBIG ≡ errnos.efbig }
    ensures enospc { Errno.ENOSPC ≡ errnos.enospc }
    ensures enametoolong { Errno.ENAMETOOLONG ≡ errnos.enametoolong }
    ensures enosys { Errno.ENOSYS ≡ errnos.enosys }
    ensures enotempty { Errno.ENOTEMPTY ≡ errnos.enotempty }
    ensures eproto { Errno.EPROTO ≡ errnos.eproto }
    ensures estale { Errno.ESTALE ≡ errnos.estale }
{}

/// The bits of SETATTR's `valid` are those of `fuse.h`.
pub fn valid_numbers()
    ensures mode { SetattrValid.MODE ≡ bits.fattr_mode }
    ensures uid { SetattrValid.UID ≡ bits.fattr_uid }
    ensures gid { SetattrValid.GID ≡ bits.fattr_gid }
    ensures size { SetattrValid.SIZE ≡ bits.fattr_size }
    ensures atime { SetattrValid.ATIME ≡ bits.fattr_atime }
    ensures mtime { SetattrValid.MTIME ≡ bits.fattr_mtime }
    ensures fh { SetattrValid.FH ≡ bits.fattr_fh }
    ensures atime_now { SetattrValid.ATIME_NOW ≡ bits.fattr_atime_now }
    ensures mtime_now { SetattrValid.MTIME_NOW ≡ bits.fattr_mtime_now }
    ensures lockowner { SetattrValid.LOCKOWNER ≡ bits.fattr_lockowner }
    ensures ctime { SetattrValid.CTIME ≡ bits.fattr_ctime }
    ensures kill_suidgid { SetattrValid.KILL_SUIDGID ≡ bits.fattr_kill_suidgid }
{}

/// The flags of INIT are those of `fuse.h`.
pub fn init_flag_numbers()
    ensures async_read { InitFlags.ASYNC_READ ≡ bits.fuse_async_read }
    ensures big_writes { InitFlags.BIG_WRITES ≡ bits.fuse_big_writes }
    ensures do_readdirplus { InitFlags.DO_READDIRPLUS ≡ bits.fuse_do_readdirplus }
    ensures readdirplus_auto { InitFlags.READDIRPLUS_AUTO ≡ bits.fuse_readdirplus_auto }
    ensures parallel_dirops { InitFlags.PARALLEL_DIROPS ≡ bits.fuse_parallel_dirops }
    ensures cache_symlinks { InitFlags.CACHE_SYMLINKS ≡ bits.fuse_cache_symlinks }
    ensures init_ext { InitFlags.INIT_EXT ≡ bits.fuse_init_ext }
    ensures has_resend { InitFlags.HAS_RESEND ≡ bits.fuse_has_resend }
{}

/// The access bits of OPEN's flags are those of Linux. The flag that OPEN is answered and the bit
/// of a resend are those of `fuse.h`.
pub fn access_numbers()
    ensures o_accmode { O_ACCMODE ≡ bits.o_accmode }
    ensures o_rdonly { O_RDONLY ≡ bits.o_rdonly }
    ensures o_wronly { O_WRONLY ≡ bits.o_wronly }
    ensures o_rdwr { O_RDWR ≡ bits.o_rdwr }
    ensures fopen_keep_cache { FOPEN_KEEP_CACHE ≡ bits.fopen_keep_cache }
    ensures resend { UNIQUE_RESEND ≡ bits.fuse_unique_resend }
{}
