// The entries of a directory as READDIRPLUS answers them.
ghost use Rattle.std.specs.Prelude.{◌≡◌, ◌≤◌, ◌↔◌, ◌++◌, [], Err, All, length, map, take};
ghost use Rattle.std.specs.Prelude.{IfOk, IsTrue, OnOk};
ghost use Rattle.fuse_answer.specs.Entries.{IsNamed, IsLongestBy, FirstIsTooBigBy};
ghost use Rattle.fuse_answer.specs.Entries.{directory_entry_of};
ghost use Rattle.fuse_answer.specs.PlusEntries as plus_entries;
ghost use Rattle.fuse_answer.specs.PlusEntries.{out_bytes, plus_bytes, plus_form, plus_of};

use crate::dirent::{Dirent, packed_len};
use crate::packing::{PackFault, Packed, put_dirent};
use crate::records::EntryOut;
use fuse_wire::{ByteList, Field, Memory, layouts_stand, put_fields};
use std::alloc::Global;

/// An entry of a directory with what LOOKUP of it answers, `fuse_direntplus` of `fuse.h`.
#[derive(Clone, Copy, Debug)]
pub struct PlusDirent<'a> {
    /// None for an entry that the kernel shall not take as looked up, as `.` and `..`.
    pub entry_out: Option<EntryOut>,
    pub dirent: Dirent<'a>,
}

// How many bytes an entry takes.
fn plus_len(plus: &PlusDirent<'_>) -> usize
    requires { IsNamed (directory_entry_of plus.now.dirent) }
    ensures { result ≡ plus_entries.plus_len (plus_of plus.now) }
{
    EntryOut::SIZE + packed_len(plus.dirent.name.len())
}

// Appends what LOOKUP answers, or zeros. An `Err` may leave a part of them.
fn put_out(out: &mut Vec<u8>, entry_out: &Option<EntryOut>) -> Result<(), Memory>
    ensures { OnOk result (out.new.items ≡ out.old.items ++ out_bytes entry_out.now) }
{
    match entry_out {
        Some(entry) => entry.put(out),
        None => put_fields(out, &[Field::Unused(128)]),
    }
}

// Appends an entry and its padding. An `Err` may leave a part of them.
fn put_plus(out: &mut Vec<u8>, plus: &PlusDirent<'_>) -> Result<(), Memory>
    requires { IsNamed (directory_entry_of plus.now.dirent) }
    ensures { OnOk result (out.new.items ≡ out.old.items ++ plus_form (plus_of plus.now)) }
{
    put_out(out, &plus.entry_out)?;
    put_dirent(out, &plus.dirent)
}

// Appends the entries as long as they fit, and says how many did.
fn put_fitting_plus(
    body: &mut Vec<u8>,
    entries: &[PlusDirent<'_>],
    size: usize,
) -> Result<usize, Memory>
    requires named { All (λ d. IsNamed (directory_entry_of d.dirent)) entries.now }
    requires empty { body.old.items ≡ [] }
    ensures longest { IfOk result (λ taken. IsLongestBy plus_entries.plus_len
        (map plus_of entries.now) size taken) }
    ensures bytes { IfOk result (λ taken. body.new.items
        ≡ plus_bytes (take taken (map plus_of entries.now))) }
    ensures within { IfOk result (λ taken. length body.new.items ≤ size) }
{
    layouts_stand();
    for (taken, plus) in entries.iter().enumerate() {
        if plus_len(plus) > size - body.len() {
            return Ok(taken);
        }
        put_plus(body, plus)?;
    }
    Ok(entries.len())
}

fn first_is_too_big(entries: &[PlusDirent<'_>], size: usize) -> bool
    requires { All (λ d. IsNamed (directory_entry_of d.dirent)) entries.now }
    ensures { IsTrue result ↔ (FirstIsTooBigBy plus_entries.plus_len (map plus_of entries.now) size) }
{
    match entries.first() {
        Some(first) => plus_len(first) > size,
        None => false,
    }
}

/// The longest prefix of the entries that fits into `size` bytes, as the body of an answer to
/// READDIRPLUS.
pub fn pack_plus(alloc: Global, entries: &[PlusDirent<'_>], size: u32) -> Result<Packed, PackFault>
    requires { All (λ d. IsNamed (directory_entry_of d.dirent)) entries.now }

    // How many are taken, and their bytes.
    ensures longest { IfOk result (λ packed. IsLongestBy plus_entries.plus_len
        (map plus_of entries.now) size packed.taken) }
    ensures bytes { IfOk result (λ packed. packed.body
        ≡ plus_bytes (take packed.taken (map plus_of entries.now))) }
    ensures within { IfOk result (λ packed. length packed.body ≤ size) }

    ensures first { FirstIsTooBigBy plus_entries.plus_len (map plus_of entries.now) size
        ↔ (result ≡ Err PackFault.FirstTooBig) }
{
    let size = size as usize;
    if first_is_too_big(entries, size) {
        return Err(PackFault::FirstTooBig);
    }
    let mut body = Vec::new(alloc);
    let taken = put_fitting_plus(&mut body, entries, size)?;
    Ok(Packed {
        body: ByteList::from_vec(body),
        taken,
    })
}
