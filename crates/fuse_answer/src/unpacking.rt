ghost use Rattle.std.specs.Prelude.{◌≡◌, ◌↔◌, List, None, drop, IsTrue, IfSome};
ghost use Rattle.std.specs.Option.{option_map};
ghost use Rattle.fuse_answer.specs.Entries.{DirectoryEntry, directory_entry_of, StandsBefore};
ghost use Rattle.fuse_answer.specs.Entries.{Lists, IsListing};
ghost use Rattle.fuse_answer.specs.FirstEntry.{leading_entry, entries_left};
ghost use Rattle.fuse_answer.specs.PlusEntries.{IsPlusListing};
ghost use Rattle.fuse_answer.specs.Sizes.{entry_out_size};

use crate::dirent::{Dirent, MAX_NAME, packed_len};
use crate::records::EntryOut;
use fuse_wire::{layouts_stand, u32_at, u64_at};

// The first entry, and the bytes after it. `None` where the bytes begin with no whole entry.
fn split_entry(bytes: &[u8]) -> Option<(Dirent<'_>, &[u8])>
    ensures prefix { option_map (λ p. (directory_entry_of p.0, p.1.now)) result
        ≡ leading_entry bytes.now }
    ensures laid { IfSome result (λ p. StandsBefore (directory_entry_of p.0) p.1.now bytes.now) }
{
    layouts_stand();
    if bytes.len() < Dirent::NAME_AT {
        return None;
    }
    let name_len = u32_at(bytes, 16) as usize;
    if name_len == 0 || name_len > MAX_NAME {
        return None;
    }
    let len = packed_len(name_len);
    if bytes.len() < len {
        return None;
    }
    let dirent = Dirent {
        ino: u64_at(bytes, 0),
        off: u64_at(bytes, 8),
        kind: u32_at(bytes, 20),
        name: &bytes[Dirent::NAME_AT..Dirent::NAME_AT + name_len],
    };
    Some((dirent, &bytes[len..]))
}

// Whether the bytes are whole entries, one after the other.
pub(crate) fn is_listing(body: &[u8]) -> bool
    ensures { IsTrue result ↔ (IsListing body.now) }
{
    layouts_stand();
    let mut rest = body;
    while !rest.is_empty() {
        let Some((_dirent, follows)) = split_entry(rest) else {
            return false;
        };
        rest = follows;
    }
    true
}

// The bytes after the first entry of READDIRPLUS. `None` where the bytes begin with no whole one.
fn split_plus(bytes: &[u8]) -> Option<&[u8]>
    ensures none { result ≡ None → leading_entry (drop entry_out_size bytes.now) ≡ None }
    ensures laid { IfSome result
        (λ rest. (e : DirectoryEntry) × StandsBefore e rest.now (drop entry_out_size bytes.now)) }
{
    layouts_stand();
    if bytes.len() < EntryOut::SIZE {
        return None;
    }
    let (_entry_out, dirents) = bytes.split_at(EntryOut::SIZE);
    let (_dirent, rest) = split_entry(dirents)?;
    Some(rest)
}

// Whether the bytes are whole entries of READDIRPLUS, one after the other.
pub(crate) fn is_plus_listing(body: &[u8]) -> bool
    ensures { IsTrue result ↔ (IsPlusListing body.now) }
{
    layouts_stand();
    let mut rest = body;
    while !rest.is_empty() {
        let Some(follows) = split_plus(rest) else {
            return false;
        };
        rest = follows;
    }
    true
}

/// The entries of a directory, as they lie in the body of an answer. Takes no memory.
#[derive(Drop)]
pub struct Dirents<'a> {
    rest: &'a [u8],
}

/// The entries of a body that `read_answer` accepted.
pub fn unpack(body: &[u8]) -> Dirents<'_>
    requires { IsListing body.now }
    ensures { (es : List DirectoryEntry) → Lists es body.now → entries_left result ≡ es }
{
    layouts_stand();
    Dirents { rest: body }
}

impl<'a> Iterator for Dirents<'a> {
    ghost use Rattle.std.specs.Iterator.{YieldsFirstBy, item_count};
    ghost use Rattle.fuse_answer.specs.Entries.{directory_entry_of};
    ghost use Rattle.fuse_answer.specs.FirstEntry.{entries_left};

    type Item = Dirent<'a>;

    ghost next_gives = { YieldsFirstBy directory_entry_of entries_left };

    ghost remaining = { item_count entries_left };

    fn next(&mut self) -> Option<Dirent<'a>> {
        let (dirent, rest) = split_entry(self.rest)?;
        self.rest = rest;
        Some(dirent)
    }
}
