ghost use Rattle.fuse_data.specs.Laws.{BytesAreBlocks, PartsHold, ByPlaceIsApart};
ghost use Rattle.fuse_data.specs.Laws.{SpacesFollow, ListsStay};

use sqlite_disk::Disk;

/// An extent that ends within the file has the bytes of its blocks.
pub fn bytes_are_blocks()
    ensures { BytesAreBlocks }
{}

/// What holds of an extent holds of a part of it.
pub fn parts_hold()
    ensures { PartsHold }
{}

/// A list in order of place has no two extents that share a block.
pub fn by_place_is_apart()
    ensures { ByPlaceIsApart }
{}

/// What a list leaves free, as an extent is written or given back.
pub fn spaces_follow()
    ensures { SpacesFollow }
{}

/// Listed extents stay over a write and a cut, and are safe once the file is synced.
pub fn lists_stay<D: Disk>()
    ensures { ListsStay D.Disk }
{}
