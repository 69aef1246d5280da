//! Large values, as rows list them.
ghost use Rattle.std.specs.Prelude.{◌≡◌, ◌↔◌, IsTrue};
ghost use Rattle.fuse_data.specs.Extents.{AreDisjoint, IsPlaced};
ghost use Rattle.guest_values.specs.Values.{IsLarge, IsFitValue, value_blocks};

use fuse_data::{BLOCK, Extent, MOST, is_placed};

/// A value of fewer bytes lies in its row.
pub const LEAST: usize = 4096;

/// The bytes of the longest value.
pub const LONGEST: usize = 262_144;

/// Where a large value lies in the data file. A row may say anything.
#[derive(Clone, Copy, Debug, PartialEq, Eq)]
pub struct LargeValue {
    /// The bytes of the value. Zeros follow them to the end of the last block.
    pub len: usize,
    pub first: Extent,
    /// A value of more than 32 blocks has a second piece.
    pub second: Option<Extent>,
}

/// Whether a value of so many bytes lies in the data file.
pub fn is_large(len: usize) -> bool
    ensures { IsTrue result ↔ IsLarge len }
{
    len >= LEAST && len <= LONGEST
}

/// The blocks of a large value.
pub(crate) fn count_blocks(len: usize) -> usize
    requires { IsLarge len }
    ensures { result ≡ value_blocks len }
{
    (len + (BLOCK - 1)) / BLOCK
}

// Whether two extents share no block. A data file can have both.
fn are_disjoint(first: Extent, second: Extent) -> bool
    requires first { IsPlaced first }
    requires second { IsPlaced second }
    ensures { IsTrue result ↔ AreDisjoint first second }
{
    first.place + first.count <= second.place || second.place + second.count <= first.place
}

/// Whether a data file can have a value. A row may say anything.
pub fn is_fit(value: LargeValue) -> bool
    ensures { IsTrue result ↔ IsFitValue value }
{
    if !is_large(value.len) || !is_placed(value.first) {
        return false;
    }
    let blocks = count_blocks(value.len);
    match value.second {
        None => value.first.count == blocks,
        Some(second) => {
            is_placed(second)
                && value.first.count == MOST
                && value.first.count + second.count == blocks
                && are_disjoint(value.first, second)
        }
    }
}
