//! The opcodes of `fuse.h` that the server knows by name.

/// Looks up a name in a directory.
pub const LOOKUP: u32 = 1;

/// Takes back lookups of a node. No answer follows.
pub const FORGET: u32 = 2;

/// Asks for the attributes of a node.
pub const GETATTR: u32 = 3;

/// Sets attributes of a node.
pub const SETATTR: u32 = 4;

/// Reads the target of a symbolic link.
pub const READLINK: u32 = 5;

/// Makes a symbolic link.
pub const SYMLINK: u32 = 6;

/// Makes a regular file, or a special one.
pub const MKNOD: u32 = 8;

/// Makes a directory.
pub const MKDIR: u32 = 9;

/// Removes a name that is no directory's.
pub const UNLINK: u32 = 10;

/// Removes an empty directory.
pub const RMDIR: u32 = 11;

/// Renames, and replaces an entry of the new name.
pub const RENAME: u32 = 12;

/// Makes a hard link.
pub const LINK: u32 = 13;

/// Opens a regular file.
pub const OPEN: u32 = 14;

/// Reads bytes of an open file.
pub const READ: u32 = 15;

/// Writes bytes to an open file.
pub const WRITE: u32 = 16;

/// Asks for the size and use of the file system.
pub const STATFS: u32 = 17;

/// Closes a handle of a file.
pub const RELEASE: u32 = 18;

/// Writes a file's content to its medium.
pub const FSYNC: u32 = 20;

/// Sets an extended attribute.
pub const SETXATTR: u32 = 21;

/// Reads an extended attribute, or its length.
pub const GETXATTR: u32 = 22;

/// Lists the names of extended attributes.
pub const LISTXATTR: u32 = 23;

/// Removes an extended attribute.
pub const REMOVEXATTR: u32 = 24;

/// Says that a descriptor of an open file was closed.
pub const FLUSH: u32 = 25;

/// Agrees on version and flags.
pub const INIT: u32 = 26;

/// Opens a directory.
pub const OPENDIR: u32 = 27;

/// Reads entries of an open directory.
pub const READDIR: u32 = 28;

/// Closes a handle of a directory.
pub const RELEASEDIR: u32 = 29;

/// Writes a directory's entries to its medium.
pub const FSYNCDIR: u32 = 30;

/// Asks whether a node may be accessed.
pub const ACCESS: u32 = 34;

/// Makes a regular file and opens it.
pub const CREATE: u32 = 35;

/// Asks to give up another request. No answer follows.
pub const INTERRUPT: u32 = 36;

/// Ends the session.
pub const DESTROY: u32 = 38;

/// Replies to a notice. No answer follows.
pub const NOTIFY_REPLY: u32 = 41;

/// Takes back lookups of several nodes. No answer follows.
pub const BATCH_FORGET: u32 = 42;

/// Allocates or frees room of a file.
pub const FALLOCATE: u32 = 43;

/// Reads entries of an open directory, and what LOOKUP answers for each.
pub const READDIRPLUS: u32 = 44;

/// Renames by flags: exchanging two names, or only where the new one is free.
pub const RENAME2: u32 = 45;

/// Finds data or a hole in a file.
pub const LSEEK: u32 = 46;

/// Copies bytes from one open file to another.
pub const COPY_FILE_RANGE: u32 = 47;
