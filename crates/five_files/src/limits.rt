use fuse_answer::MAX_BODY;
use fuse_wire::Errno;

/// Nothing can be written: Linux's generic error number.
pub const EROFS: Errno = Errno(30);

/// The most bytes that READ and READDIR may ask for: those that an answer may have.
pub const MAX_READ: u32 = MAX_BODY as u32;
