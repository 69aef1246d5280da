ghost use Rattle.std.specs.Prelude.{◌≡◌};
ghost use Rattle.fuse_tree.specs.State.{is_dir, is_file, is_link};
ghost use Rattle.fuse_rows.specs.Blocks.{how_many};
ghost use Rattle.fuse_tree.specs.Done.{sectors_for};
ghost use Rattle.fuse_plan.specs.inner.Reading.{IsWithin, row_links, row_attr};

use fuse_answer::Attr;
use fuse_rows::{BLOCK_SIZE, NodeRow, SECTOR_SIZE};
use fuse_tree::{S_IFDIR, S_IFLNK, S_IFREG, TYPE_UNIT, TYPES};

pub(crate) fn is_directory(mode: u32) -> bool
    ensures { result ≡ is_dir mode }
{
    mode / TYPE_UNIT % TYPES == S_IFDIR / TYPE_UNIT
}

pub(crate) fn is_regular_file(mode: u32) -> bool
    ensures { result ≡ is_file mode }
{
    mode / TYPE_UNIT % TYPES == S_IFREG / TYPE_UNIT
}

pub(crate) fn is_symbolic_link(mode: u32) -> bool
    ensures { result ≡ is_link mode }
{
    mode / TYPE_UNIT % TYPES == S_IFLNK / TYPE_UNIT
}

fn links_of(row: &NodeRow) -> u32
    requires { IsWithin row.now }
    ensures { result ≡ row_links row.now }
{
    if !row.is_named() {
        0
    } else if is_directory(row.mode) {
        2 + row.subdirs
    } else {
        1
    }
}

// The attributes' `blocks`: of its written blocks, where they are counted, and else of its size.
fn sectors_of(row: &NodeRow) -> u64
    requires { IsWithin row.now }
    ensures { result ≡ sectors_for row.now.written row.now.size }
{
    match row.written {
        None => (row.size + (SECTOR_SIZE - 1)) / SECTOR_SIZE,
        Some(written) => u64::from(BLOCK_SIZE) / SECTOR_SIZE * written,
    }
}

pub(crate) fn attributes_of(row: &NodeRow) -> Attr
    requires { IsWithin row.now }
    ensures { result ≡ row_attr row.now }
{
    Attr {
        ino: row.node,
        size: row.size,
        blocks: sectors_of(row),
        atime: row.atime.secs,
        mtime: row.mtime.secs,
        ctime: row.ctime.secs,
        atimensec: row.atime.nanos,
        mtimensec: row.mtime.nanos,
        ctimensec: row.ctime.nanos,
        mode: row.mode,
        nlink: links_of(row),
        uid: row.uid,
        gid: row.gid,
        rdev: row.rdev,
        blksize: BLOCK_SIZE,
        flags: 0,
    }
}

// How many blocks of the node of this row were written: none, where they are not counted.
pub(crate) fn count_of(row: &NodeRow) -> u64
    ensures { result ≡ how_many row.now.written }
{
    match row.written {
        None => 0,
        Some(written) => written,
    }
}
