use fuse_answer::MAX_BODY;

/// The most nodes under any profile, the root and those without a name counted.
pub const MAX_NODES: u64 = 1_048_576;

/// The most handles that are open.
pub const MAX_HANDLES: u64 = 65_536;

/// The numbers of nodes, handles and entries are below this.
pub const COUNTER_END: u64 = 0x4000_0000_0000_0000;

/// The most bytes of a file under any profile.
pub const MAX_FILE: u64 = 1_099_511_627_776;

/// And the most blocks of it.
pub const MAX_BLOCKS: u64 = 0x1000_0000;

/// A capacity, in blocks, is below this.
pub const CAPACITY_END: u64 = 0x8_0000_0000_0000;

/// The blocks of a store for which no capacity is asked: 1 TiB.
pub const DEFAULT_CAPACITY: u64 = 0x1000_0000;

/// The most bytes that READ and READDIR may ask for: those that an answer may have.
pub const MAX_READ: u32 = MAX_BODY as u32;

/// The fewest bytes that an entry takes in a listing: those before its name, and a name of up to 8.
pub const LEAST_ENTRY: u32 = 32;

/// The most bytes of the target of a symbolic link.
pub const MAX_TARGET: u32 = 4095;

/// The number of the directory at the top of the tree: FUSE_ROOT_ID of `fuse.h`.
pub const ROOT_ID: u64 = 1;

/// The bytes of a block, `blksize` of the attributes.
pub const BLOCK_SIZE: u32 = 4096;

/// The bytes of one of the attributes' `blocks`.
pub const SECTOR_SIZE: u64 = 512;

/// For how many seconds the kernel may keep names and attributes.
pub const VALID_SECS: u64 = 1;

/// For how many seconds a kernel that keeps them may do so.
pub const KEPT_SECS: u64 = 86_400;

/// For how many seconds such a kernel may take a name for absent.
pub const ABSENT_SECS: u64 = 10;
