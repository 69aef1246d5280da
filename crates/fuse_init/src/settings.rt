use fuse_wire::InitFlags;

/// The settings that INIT agreed on, in force until the next INIT or mount.
#[derive(Clone, Copy, Debug, PartialEq, Eq)]
pub struct Settings {
    /// The smaller of 40 and the kernel's minor.
    pub minor: u32,
    /// In bytes, as the kernel offered it.
    pub max_readahead: u32,
    /// Those that the kernel offered and the server takes.
    pub flags: InitFlags,
}
