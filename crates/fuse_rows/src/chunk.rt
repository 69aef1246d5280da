ghost use Rattle.std.specs.Prelude.{◌≡◌, ◌++◌, IfOk, OnOk, length, take, drop};
ghost use Rattle.fuse_rows.specs.inner.ChunkBytes.{bytes_of_chunk};

use fuse_wire::{ByteList, Memory};
use std::alloc::Global;

/// A part of a file's content.
#[derive(Drop)]
pub enum Chunk {
    Bytes(ByteList),
    /// So many zero bytes.
    Zeros(u64),
}

impl Chunk {
    pub(super) fn len(&self) -> u64
        ensures { result ≡ length (bytes_of_chunk self.now) }
    {
        match self {
            Chunk::Bytes(bytes) => bytes.as_slice().len() as u64,
            Chunk::Zeros(count) => *count,
        }
    }

    /// A copy of the first bytes, at most so many.
    pub(super) fn first(&self, alloc: Global, len: u64) -> Result<Chunk, Memory>
        ensures { IfOk result (λ part. bytes_of_chunk part ≡ take len (bytes_of_chunk self.now)) }
    {
        match self {
            Chunk::Bytes(bytes) => {
                let bytes = bytes.as_slice();
                let end = bytes.len().min(len as usize);
                let part = Vec::from_slice(alloc, &bytes[..end])?;
                Ok(Chunk::Bytes(ByteList::from_vec(part)))
            }
            Chunk::Zeros(count) => Ok(Chunk::Zeros(len.min(*count))),
        }
    }

    /// A copy of the others.
    pub(super) fn rest(&self, alloc: Global, from: u64) -> Result<Chunk, Memory>
        ensures { IfOk result (λ part. bytes_of_chunk part ≡ drop from (bytes_of_chunk self.now)) }
    {
        match self {
            Chunk::Bytes(bytes) => {
                let bytes = bytes.as_slice();
                let start = bytes.len().min(from as usize);
                let part = Vec::from_slice(alloc, &bytes[start..])?;
                Ok(Chunk::Bytes(ByteList::from_vec(part)))
            }
            Chunk::Zeros(count) => Ok(Chunk::Zeros(count.saturating_sub(from))),
        }
    }

    /// Appends the bytes from `offset` on, at most `len`.
    pub(super) fn read(&self, found: &mut Vec<u8>, offset: u64, len: u32) -> Result<(), Memory>
        ensures { OnOk result (found.new.items ≡ found.old.items ++ take len (drop offset
            (bytes_of_chunk self.now))) }
    {
        match self {
            Chunk::Bytes(bytes) => {
                let bytes = bytes.as_slice();
                let start = bytes.len().min(offset as usize);
                let end = bytes.len().min(start + len as usize);
                found.extend_from_slice(&bytes[start..end])?;
            }
            Chunk::Zeros(count) => {
                let count = count.saturating_sub(offset).min(u64::from(len));
                found.resize(found.len() + count as usize, 0)?;
            }
        }
        Ok(())
    }

    pub(super) fn to_copy(&self, alloc: Global) -> Result<Chunk, Memory>
        ensures { IfOk result (λ copy. copy ≡ self.now) }
    {
        match self {
            Chunk::Bytes(bytes) => Ok(Chunk::Bytes(bytes.to_copy(alloc)?)),
            Chunk::Zeros(count) => Ok(Chunk::Zeros(*count)),
        }
    }
}
