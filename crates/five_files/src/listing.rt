// READDIR.
ghost use Rattle.std.specs.Prelude.{◌≡◌, ◌≤◌, All, map, drop, IfOk};
ghost use Rattle.fuse_answer.specs.Entries.{directory_entry_of, IsNamed};
ghost use Rattle.five_files.specs.Listing as listing;
ghost use Rattle.five_files.specs.Listing.{file_entry, link_entry, entries, entries_following};
ghost use Rattle.five_files.specs.declared.limits.TheConstants.{MAX_READ as max_read};

use crate::limits::MAX_READ;
use crate::node::Node;
use fuse_answer::{Answer, Dirent, PackFault, pack};
use fuse_request::ReadIn;
use fuse_wire::{Errno, Memory};
use std::alloc::Global;

// The types of directories, of regular files and of symbolic links.
const DIRECTORY: u32 = 4;

const REGULAR_FILE: u32 = 8;

const SYMBOLIC_LINK: u32 = 10;

fn file_dirent<'a>(node: Node, cookie: u64) -> Dirent<'a>
    ensures { directory_entry_of result ≡ file_entry node cookie }
{
    Dirent {
        ino: node.number(),
        off: cookie,
        kind: REGULAR_FILE,
        name: node.name(),
    }
}

fn link_dirent<'a>(node: Node, cookie: u64) -> Dirent<'a>
    ensures { directory_entry_of result ≡ link_entry node cookie }
{
    Dirent {
        ino: node.number(),
        off: cookie,
        kind: SYMBOLIC_LINK,
        name: node.name(),
    }
}

fn dots<'a>(cookie: u64, name: &'a [u8]) -> Dirent<'a>
    ensures { directory_entry_of result
        ≡ record { ino = 1; off = cookie; kind = 4; name = name.now } }
{
    Dirent {
        ino: 1,
        off: cookie,
        kind: DIRECTORY,
        name,
    }
}

// All entries. The offset of each is its place, counted from 1.
fn all_dirents<'a>() -> [Dirent<'a>; 6]
    ensures entries { map directory_entry_of result ≡ entries }
    ensures named { All (λ d. IsNamed (directory_entry_of d)) result }
{
    [
        dots(1, b"."),
        dots(2, b".."),
        file_dirent(Node::Readme, 3),
        file_dirent(Node::Licence, 4),
        file_dirent(Node::Hours, 5),
        link_dirent(Node::Times, 6),
    ]
}

// Those after the offset.
fn after<'a, 'b>(dirents: &'b [Dirent<'a>], offset: u64) -> &'b [Dirent<'a>]
    ensures { result.now ≡ drop offset dirents.now }
{
    let start = dirents.len().min(offset as usize);
    &dirents[start..]
}

// As many entries as fit.
#[tactic(auto, using(crate::proofs::Prefixes::prefix_listed))]
fn list_prefix(alloc: Global, dirents: &[Dirent<'_>], size: u32) -> Result<Answer, Memory>
    requires named { All (λ d. IsNamed (directory_entry_of d)) dirents.now }
    requires size { size ≤ max_read }
    ensures { IfOk result
        (λ answer. answer ≡ listing.list (map directory_entry_of dirents.now) size) }
{
    match pack(alloc, dirents, size) {
        Ok(packed) => Ok(Answer::success(packed.body)),
        Err(PackFault::FirstTooBig) => Ok(Answer::refusal(alloc, Errno::EINVAL)),
        Err(PackFault::Memory) => Err(Memory),
    }
}

// The entries after the offset, as many as fit.
fn list(alloc: Global, offset: u64, size: u32) -> Result<Answer, Memory>
    requires { size ≤ max_read }
    ensures { IfOk result (λ answer. answer ≡ listing.list (entries_following offset) size) }
{
    let dirents = all_dirents();
    list_prefix(alloc, after(&dirents, offset), size)
}

pub(crate) fn read_dir(alloc: Global, asked: &ReadIn, node: Node) -> Result<Answer, Memory>
    ensures { IfOk result (λ answer. answer ≡ listing.read_dir asked.now node) }
{
    if asked.fh != node.number() {
        return Ok(Answer::refusal(alloc, Errno::EBADF));
    }
    if !node.is_directory() {
        return Ok(Answer::refusal(alloc, Errno::ENOTDIR));
    }
    if asked.size > MAX_READ {
        return Ok(Answer::refusal(alloc, Errno::EINVAL));
    }
    list(alloc, asked.offset, asked.size)
}
