/// A directory.
pub const S_IFDIR: u32 = 0o040000;

/// A regular file.
pub const S_IFREG: u32 = 0o100000;

/// A character device.
pub const S_IFCHR: u32 = 0o020000;

/// A block device.
pub const S_IFBLK: u32 = 0o060000;

/// A FIFO.
pub const S_IFIFO: u32 = 0o010000;

/// A socket.
pub const S_IFSOCK: u32 = 0o140000;

/// What is made in a directory with this bit gets its group.
pub const S_ISGID: u32 = 0o2000;

/// A symbolic link, of which only some profiles have any.
pub const S_IFLNK: u32 = 0o120000;

/// A mode's bits below this one are the permissions. It and the next three are the type.
pub const TYPE_UNIT: u32 = 0o10000;

/// The number of types that four bits can hold.
pub const TYPES: u32 = 16;
