ghost use Rattle.std.specs.Prelude.{◌≡◌, ◌≤◌, ◌+◌, ◌++◌, IfOk, OnOk, OnErr, length, take, drop};
ghost use Rattle.std.specs.Prelude.{replicate};
ghost use Rattle.std.specs.List.{splice};
ghost use Rattle.fuse_rows.specs.inner.ChunkBytes.{bytes_of_chunk, joined_chunks, IsPlace, CutsAt};

use crate::chunk::Chunk;
use fuse_wire::{ByteList, Memory};
use std::alloc::Global;
use std::marker::Model;

/// The content of a file, in chunks: what was never written takes no memory. Contracts see its
/// bytes.
#[derive(Drop)]
pub struct Chunks {
    chunks: Vec<Chunk>,
}

impl Model for Chunks {
    ghost use Rattle.std.specs.Prelude.{List, ℕ};
    ghost use Rattle.fuse_rows.specs.inner.ChunkBytes.{joined_chunks};

    ghost Value = { List ℕ };

    ghost view = { λ a. joined_chunks a.chunks.items };
}

impl Chunks {
    ghost use Rattle.std.specs.Prelude.{◌≡◌, IfOk, OnOk, OnErr, [], take, drop};
    ghost use Rattle.fuse_rows.specs.Rows.{written, sized};

    /// No bytes. No memory is taken.
    pub fn new(alloc: Global) -> Chunks
        ensures { result ≡ [] }
    {
        Chunks {
            chunks: Vec::new(alloc),
        }
    }

    /// The same bytes.
    pub fn to_copy(&self, alloc: Global) -> Result<Chunks, Memory>
        ensures { IfOk result (λ copy. copy ≡ self.now) }
    {
        let chunks = copies_of(alloc, self.chunks.as_slice())?;
        Ok(Chunks { chunks })
    }

    /// At most `len` bytes, from `offset` on.
    pub fn bytes(&self, alloc: Global, offset: u64, len: u32) -> Result<ByteList, Memory>
        ensures { IfOk result (λ bytes. bytes ≡ take len (drop offset self.now)) }
    {
        let bytes = part_of(alloc, self.chunks.as_slice(), offset, len)?;
        Ok(ByteList::from_vec(bytes))
    }

    /// Cuts it to this size, or fills it up with zero bytes.
    pub fn set_size(&mut self, alloc: Global, size: u64) -> Result<(), Memory>
        ensures ok { OnOk result (self.new ≡ sized size self.old) }
        ensures err { OnErr result (self.new ≡ self.old) }
    {
        let len = self.chunks.len();
        let end = cut_at(alloc, &mut self.chunks, len, size)?;
        let len = self.chunks.len();
        let zeros = zeros_of(alloc, end.beyond)?;
        replace(&mut self.chunks, end.index, len, zeros)
    }

    /// Puts the bytes in their place, and zero bytes before them where it was shorter.
    pub fn write(&mut self, alloc: Global, offset: u64, bytes: &[u8]) -> Result<(), Memory>
        ensures ok { OnOk result (self.new ≡ written offset bytes.now self.old) }
        ensures err { OnErr result (self.new ≡ self.old) }
    {
        let end = end_of(offset, bytes.len() as u64)?;
        let len = self.chunks.len();
        let last = cut_at(alloc, &mut self.chunks, len, end)?;
        let first = cut_at(alloc, &mut self.chunks, last.index, offset)?;
        let fresh = filled(alloc, first.beyond, bytes)?;
        replace(&mut self.chunks, first.index, first.limit, fresh)
    }
}

/// Where a place of a content lies: after so many chunks, and so many bytes of the next one.
#[derive(Clone, Copy)]
pub struct Place {
    pub index: usize,
    pub left: u64,
}

/// Where chunks were cut: how many there are before it, how many now stand for those that were
/// looked at, and how many bytes they end before it.
#[derive(Clone, Copy)]
pub struct Cut {
    pub index: usize,
    pub limit: usize,
    pub beyond: u64,
}

fn end_of(offset: u64, len: u64) -> Result<u64, Memory>
    ensures { IfOk result (λ end. end ≡ offset + len) }
{
    match offset.checked_add(len) {
        Some(end) => Ok(end),
        None => Err(Memory),
    }
}

#[tactic(auto, using(crate::proofs::Joined::length_next))]
fn place_of(chunks: &[Chunk], at: u64) -> Place
    ensures { IsPlace chunks.now at result }
{
    let mut left = at;
    for (index, chunk) in chunks.iter().enumerate() {
        let len = chunk.len();
        if left < len {
            return Place { index, left };
        }
        left -= len;
    }
    Place {
        index: chunks.len(),
        left,
    }
}

// Other chunks in the place of some.
fn replace(chunks: &mut Vec<Chunk>, from: usize, to: usize, fresh: Vec<Chunk>) -> Result<(), Memory>
    requires order { from ≤ to }
    requires bound { to ≤ length chunks.old.items }
    ensures ok { OnOk result (chunks.new.items ≡ splice chunks.old.items from to fresh.items) }
    ensures err { OnErr result (chunks.new.items ≡ chunks.old.items) }
{
    drop(chunks.splice(from..to, fresh)?);
    Ok(())
}

// The chunk in two.
fn halves(alloc: Global, chunk: &Chunk, at: u64) -> Result<Vec<Chunk>, Memory>
    ensures parts { IfOk result
        (λ parts. joined_chunks (take 1 parts.items) ≡ take at (bytes_of_chunk chunk.now)) }
    ensures whole { IfOk result (λ parts. joined_chunks parts.items ≡ bytes_of_chunk chunk.now) }
    ensures two { IfOk result (λ parts. length parts.items ≡ 2) }
{
    let mut parts = Vec::with_capacity(alloc, 2)?;
    parts.push(chunk.first(alloc, at)?)?;
    parts.push(chunk.rest(alloc, at)?)?;
    Ok(parts)
}

// Cuts the first chunks, as many as the limit says, so that some end at this place.
fn cut_at(alloc: Global, chunks: &mut Vec<Chunk>, limit: usize, at: u64) -> Result<Cut, Memory>
    requires { limit ≤ length chunks.old.items }
    ensures at { IfOk result (λ cut. CutsAt chunks.old.items chunks.new.items limit at cut) }
    ensures same { joined_chunks chunks.new.items ≡ joined_chunks chunks.old.items }
{
    let place = place_of(&chunks[..limit], at);
    if place.index == limit || place.left == 0 {
        return Ok(Cut {
            index: place.index,
            limit,
            beyond: place.left,
        });
    }
    let parts = halves(alloc, &chunks[place.index], place.left)?;
    replace(chunks, place.index, place.index + 1, parts)?;
    Ok(Cut {
        index: place.index + 1,
        limit: limit + 1,
        beyond: 0,
    })
}

// So many zero bytes.
fn zeros_of(alloc: Global, count: u64) -> Result<Vec<Chunk>, Memory>
    ensures { IfOk result (λ chunks. joined_chunks chunks.items ≡ replicate count 0) }
{
    let mut chunks = Vec::new(alloc);
    if count > 0 {
        chunks.push(Chunk::Zeros(count))?;
    }
    Ok(chunks)
}

// So many zero bytes, and then these.
fn filled(alloc: Global, zeros: u64, bytes: &[u8]) -> Result<Vec<Chunk>, Memory>
    ensures { IfOk result (λ chunks. joined_chunks chunks.items ≡ replicate zeros 0 ++ bytes.now) }
{
    let mut chunks = zeros_of(alloc, zeros)?;
    let bytes = Vec::from_slice(alloc, bytes)?;
    chunks.push(Chunk::Bytes(ByteList::from_vec(bytes)))?;
    Ok(chunks)
}

#[tactic(auto, using(crate::proofs::Joined::none_read, crate::proofs::Joined::all_read, crate::proofs::Joined::more_read))]
fn part_of(alloc: Global, chunks: &[Chunk], offset: u64, len: u32) -> Result<Vec<u8>, Memory>
    ensures { IfOk result (λ part. part.items ≡ take len (drop offset (joined_chunks chunks.now))) }
{
    let mut part = Vec::new(alloc);
    let mut skipped = offset;
    let mut left = len;
    for chunk in chunks {
        chunk.read(&mut part, skipped, left)?;
        skipped = skipped.saturating_sub(chunk.len());
        left = len - part.len() as u32;
    }
    Ok(part)
}

fn copies_of(alloc: Global, chunks: &[Chunk]) -> Result<Vec<Chunk>, Memory>
    ensures { IfOk result (λ copies. copies.items ≡ chunks.now) }
{
    let mut copies = Vec::with_capacity(alloc, chunks.len())?;
    for chunk in chunks {
        copies.push(chunk.to_copy(alloc)?)?;
    }
    Ok(copies)
}
