// The lengths of the fixed parts of bodies, by the structs of `fuse.h`.

/// `fuse_forget_in`.
pub const FORGET_IN: usize = 8;

/// `fuse_getattr_in`.
pub const GETATTR_IN: usize = 16;

/// `fuse_setattr_in`.
pub const SETATTR_IN: usize = 88;

/// `fuse_mknod_in`, before the name.
pub const MKNOD_IN: usize = 16;

/// `fuse_mkdir_in`, before the name.
pub const MKDIR_IN: usize = 8;

/// `fuse_rename_in`, before the names.
pub const RENAME_IN: usize = 8;

/// `fuse_rename2_in`, before the names.
pub const RENAME2_IN: usize = 16;

/// `fuse_open_in`.
pub const OPEN_IN: usize = 8;

/// `fuse_read_in`.
pub const READ_IN: usize = 40;

/// `fuse_write_in`, before the payload.
pub const WRITE_IN: usize = 40;

/// `fuse_release_in`.
pub const RELEASE_IN: usize = 24;

/// `fuse_init_in` up to version 7.35.
pub const COMPAT_INIT_IN: usize = 16;

/// `fuse_init_in` from version 7.36 on.
pub const INIT_IN: usize = 64;

/// `fuse_interrupt_in`.
pub const INTERRUPT_IN: usize = 8;

/// `fuse_batch_forget_in`, before the items.
pub const BATCH_FORGET_IN: usize = 8;

/// `fuse_forget_one`, an item of BATCH_FORGET.
pub const FORGET_ONE: usize = 16;

/// `fuse_link_in`, before the name.
pub const LINK_IN: usize = 8;

/// `fuse_fsync_in`, of FSYNC and of FSYNCDIR.
pub const FSYNC_IN: usize = 16;

/// `fuse_setxattr_in` without what FUSE_SETXATTR_EXT adds, before the name.
pub const SETXATTR_IN: usize = 8;

/// `fuse_getxattr_in`, before the name of GETXATTR, and all of LISTXATTR.
pub const GETXATTR_IN: usize = 8;

/// `fuse_flush_in`.
pub const FLUSH_IN: usize = 24;

/// `fuse_access_in`.
pub const ACCESS_IN: usize = 8;

/// `fuse_create_in`, before the name.
pub const CREATE_IN: usize = 16;

/// `fuse_fallocate_in`.
pub const FALLOCATE_IN: usize = 32;

/// `fuse_lseek_in`.
pub const LSEEK_IN: usize = 24;

/// `fuse_copy_file_range_in`.
pub const COPY_FILE_RANGE_IN: usize = 56;
