ghost use Rattle.std.specs.Prelude.{◌≡◌, ◌≤◌, ◌↔◌, [], Err, All, length, map, take, IfOk, IsTrue};
ghost use Rattle.fuse_wire.specs.Written.{Puts};
ghost use Rattle.fuse_answer.specs.Entries.{directory_entry_of, dirent_parts, entries_bytes};
ghost use Rattle.fuse_answer.specs.Entries.{IsNamed, Lists};
ghost use Rattle.fuse_answer.specs.Entries.{IsLongest, FirstIsTooBig};

use crate::dirent::{Dirent, packed_len, padding};
use fuse_wire::{ByteList, Field, Memory, layouts_stand, put_fields};
use std::alloc::Global;

/// Entries of a directory as the body of an answer.
#[derive(Drop)]
pub struct Packed {
    pub body: ByteList,
    /// How many of the entries it holds.
    pub taken: usize,
}

/// Why entries weren't packed.
#[derive(Clone, Copy, Debug, PartialEq, Eq)]
pub enum PackFault {
    /// There is a first entry, and it doesn't fit.
    FirstTooBig,
    /// A growth was refused.
    Memory,
}

impl From<Memory> for PackFault {
    ghost use Rattle.std.specs.Prelude.{◌≡◌};
    ghost use Rattle.fuse_answer.specs.declared.packing.PackFault.TheVariants.{Memory as NoMemory};

    ghost from_gives = { λ _ e. e ≡ NoMemory };

    fn from(_e: Memory) -> PackFault {
        PackFault::Memory
    }
}

// Appends an entry and its padding.
pub(crate) fn put_dirent(out: &mut Vec<u8>, dirent: &Dirent<'_>) -> Result<(), Memory>
    requires { IsNamed (directory_entry_of dirent.now) }
    ensures { Puts (dirent_parts (directory_entry_of dirent.now)) out.old.items out.new.items result }
{
    let name_len = dirent.name.len();
    put_fields(
        out,
        &[
            Field::U64(dirent.ino),
            Field::U64(dirent.off),
            Field::U32(name_len as u32),
            Field::U32(dirent.kind),
            Field::Bytes(dirent.name),
            Field::Unused(padding(name_len) as u8),
        ],
    )
}

// Appends the entries as long as they fit, and says how many did.
fn put_fitting(body: &mut Vec<u8>, entries: &[Dirent<'_>], size: usize) -> Result<usize, Memory>
    requires named { All (λ d. IsNamed (directory_entry_of d)) entries.now }
    requires empty { body.old.items ≡ [] }
    ensures longest { IfOk result
        (λ taken. IsLongest (map directory_entry_of entries.now) size taken) }
    ensures bytes { IfOk result (λ taken. body.new.items
        ≡ entries_bytes (take taken (map directory_entry_of entries.now))) }
    ensures lists { IfOk result (λ taken. Lists (take taken (map directory_entry_of entries.now))
        body.new.items) }
    ensures within { IfOk result (λ taken. length body.new.items ≤ size) }
{
    layouts_stand();
    for (taken, dirent) in entries.iter().enumerate() {
        if packed_len(dirent.name.len()) > size - body.len() {
            return Ok(taken);
        }
        put_dirent(body, dirent)?;
    }
    Ok(entries.len())
}

fn first_is_too_big(entries: &[Dirent<'_>], size: usize) -> bool
    requires { All (λ d. IsNamed (directory_entry_of d)) entries.now }
    ensures { IsTrue result ↔ (FirstIsTooBig (map directory_entry_of entries.now) size) }
{
    match entries.first() {
        Some(first) => packed_len(first.name.len()) > size,
        None => false,
    }
}

/// The longest prefix of the entries that fits into `size` bytes.
pub fn pack(alloc: Global, entries: &[Dirent<'_>], size: u32) -> Result<Packed, PackFault>
    requires { All (λ d. IsNamed (directory_entry_of d)) entries.now }

    // How many are taken, and their bytes.
    ensures longest { IfOk result (λ packed. IsLongest
        (map directory_entry_of entries.now) size packed.taken) }
    ensures bytes { IfOk result (λ packed. packed.body
        ≡ entries_bytes (take packed.taken (map directory_entry_of entries.now))) }
    // So `unpack` gives them back.
    ensures lists { IfOk result
        (λ packed. Lists (take packed.taken (map directory_entry_of entries.now))
        packed.body) }
    ensures within { IfOk result (λ packed. length packed.body ≤ size) }

    ensures first { FirstIsTooBig (map directory_entry_of entries.now) size
        ↔ (result ≡ Err PackFault.FirstTooBig) }
{
    let size = size as usize;
    if first_is_too_big(entries, size) {
        return Err(PackFault::FirstTooBig);
    }
    let mut body = Vec::new(alloc);
    let taken = put_fitting(&mut body, entries, size)?;
    Ok(Packed {
        body: ByteList::from_vec(body),
        taken,
    })
}
