//! Extents of the data file, as rows list them.
ghost use Rattle.std.specs.Prelude.{◌≡◌, IsTrue, ◌↔◌};
ghost use Rattle.fuse_data.specs.Extents.{IsPlaced, sum_of};

use sqlite_disk::digest_of;

/// The bytes of a block.
pub const BLOCK: usize = 4096;

/// The most blocks of an extent.
pub const MOST: usize = 32;

/// The blocks of a data file are below this, as an offset has 63 bits.
pub const END: usize = 0x8_0000_0000_0000;

/// A run of blocks of the data file. It is written once, and is never written again while a row
/// lists it.
#[derive(Clone, Copy, Debug, PartialEq, Eq)]
pub struct Extent {
    /// The block where it begins.
    pub place: usize,
    pub count: usize,
    /// The digest of its bytes.
    pub sum: u64,
}

/// The digest of an extent's bytes.
// SipHash-1-3 by `sqlite_disk`, which tests its own reads by it: proved, 64 bits, eight bytes at a
// time. It finds damage. Whoever can write the data file can also make up a digest.
pub fn sum_of_bytes(bytes: &[u8]) -> u64
    ensures { result ≡ sum_of bytes.now }
{
    digest_of(0, bytes)
}

/// Whether a data file can have it. A row may say anything.
pub fn is_placed(extent: Extent) -> bool
    ensures { IsTrue result ↔ IsPlaced extent }
{
    extent.place >= 1
        && extent.count >= 1
        && extent.count <= MOST
        && extent.place < END
        && extent.count <= END - extent.place
}
