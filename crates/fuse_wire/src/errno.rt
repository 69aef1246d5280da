/// An error number of Linux (errno(3), its generic numbers), positive, or 0 where there is no
/// error. The `error` field of an answer holds its negation.
#[derive(Clone, Copy, Debug, PartialEq, Eq)]
pub struct Errno(pub u32);

impl Errno {
    /// No error.
    pub const NONE: Errno = Errno(0);

    /// No such file or directory.
    pub const ENOENT: Errno = Errno(2);

    /// Bad file descriptor.
    pub const EBADF: Errno = Errno(9);

    /// File exists.
    pub const EEXIST: Errno = Errno(17);

    /// Not a directory.
    pub const ENOTDIR: Errno = Errno(20);

    /// Is a directory.
    pub const EISDIR: Errno = Errno(21);

    /// Invalid argument.
    pub const EINVAL: Errno = Errno(22);

    /// Too many open files in system.
    pub const ENFILE: Errno = Errno(23);

    /// File too large.
    pub const EFBIG: Errno = Errno(27);

    /// No space left on device.
    pub const ENOSPC: Errno = Errno(28);

    /// File name too long.
    pub const ENAMETOOLONG: Errno = Errno(36);

    /// Function not implemented.
    pub const ENOSYS: Errno = Errno(38);

    /// Directory not empty.
    pub const ENOTEMPTY: Errno = Errno(39);

    /// Protocol error.
    pub const EPROTO: Errno = Errno(71);

    /// Stale file handle.
    pub const ESTALE: Errno = Errno(116);
}
