use crate::blocks::{BlockSet, first_touched, touched_end};
use crate::chunks::Chunks;
use fuse_wire::{ByteList, Memory};
use std::alloc::Global;
use std::marker::Model;

/// The content of a node: its bytes, and which of its blocks were written, where these are counted.
/// Contracts see a body.
#[derive(Drop)]
pub struct FileBody {
    content: Chunks,
    written: Option<BlockSet>,
}

impl Model for FileBody {
    ghost use Rattle.fuse_rows.specs.Blocks.{Body};

    ghost Value = { Body };

    ghost view = { λ a. record { bytes = a.content; blocks = a.written } };
}

impl FileBody {
    ghost use Rattle.std.specs.Prelude.{◌≡◌, IfOk, OnOk, OnErr, take, drop};
    ghost use Rattle.fuse_rows.specs.Blocks.{count_between, listed_blocks};
    ghost use Rattle.fuse_rows.specs.Rows.{new_body, body_written, body_sized};

    /// That of a new node with so many written blocks: none, where they are counted. No memory is
    /// taken.
    pub fn new(alloc: Global, written: Option<u64>) -> FileBody
        ensures { result ≡ new_body written }
    {
        FileBody {
            content: Chunks::new(alloc),
            written: none_written(alloc, written),
        }
    }

    /// The same bytes and blocks.
    pub fn to_copy(&self, alloc: Global) -> Result<FileBody, Memory>
        ensures { IfOk result (λ copy. copy ≡ self.now) }
    {
        Ok(FileBody {
            content: self.content.to_copy(alloc)?,
            written: copy_of(alloc, &self.written)?,
        })
    }

    /// At most `len` bytes, from `offset` on.
    pub fn bytes(&self, alloc: Global, offset: u64, len: u32) -> Result<ByteList, Memory>
        ensures { IfOk result (λ bytes. bytes ≡ take len (drop offset self.now.bytes)) }
    {
        self.content.bytes(alloc, offset, len)
    }

    /// How many blocks were written from one on, below another.
    pub fn blocks_between(&self, from: u64, to: u64) -> u64
        ensures { result ≡ count_between from to (listed_blocks self.now.blocks) }
    {
        match &self.written {
            None => 0,
            Some(blocks) => blocks.count(from, to),
        }
    }

    /// Cuts it to this size, or fills it up with zero bytes.
    pub fn set_size(&mut self, alloc: Global, size: u64) -> Result<(), Memory>
        ensures ok { OnOk result (self.new ≡ body_sized size self.old) }
        ensures err { OnErr result (self.new ≡ self.old) }
    {
        self.content.set_size(alloc, size)?;
        if let Some(blocks) = &mut self.written {
            blocks.cut(size);
        }
        Ok(())
    }

    /// Puts the bytes in their place, and zero bytes before them where it was shorter.
    pub fn write(&mut self, alloc: Global, offset: u64, bytes: &[u8]) -> Result<(), Memory>
        ensures ok { OnOk result (self.new ≡ body_written offset bytes.now self.old) }
        ensures err { OnErr result (self.new ≡ self.old) }
    {
        let written = touched(alloc, &self.written, offset, bytes.len())?;
        self.content.write(alloc, offset, bytes)?;
        self.written = written;
        Ok(())
    }
}

ghost use Rattle.std.specs.Prelude.{◌≡◌, IfOk, []};
ghost use Rattle.std.specs.Option.{option_map};
ghost use Rattle.fuse_rows.specs.Blocks.{with_touched};

// No blocks, where they are counted.
fn none_written(alloc: Global, written: Option<u64>) -> Option<BlockSet>
    ensures { result ≡ option_map (λ _. []) written }
{
    match written {
        None => None,
        Some(_) => Some(BlockSet::new(alloc)),
    }
}

fn copy_of(alloc: Global, written: &Option<BlockSet>) -> Result<Option<BlockSet>, Memory>
    ensures { IfOk result (λ copy. copy ≡ written.now) }
{
    match written {
        None => Ok(None),
        Some(blocks) => Ok(Some(blocks.to_copy(alloc)?)),
    }
}

// With those that so many bytes from this place on touch, where they are counted.
fn touched(
    alloc: Global,
    written: &Option<BlockSet>,
    offset: u64,
    len: usize,
) -> Result<Option<BlockSet>, Memory>
    ensures { IfOk result (λ all. all ≡ option_map (with_touched offset len) written.now) }
{
    match written {
        None => Ok(None),
        Some(blocks) => {
            let all = blocks.with(alloc, first_touched(offset), touched_end(offset, len)?)?;
            Ok(Some(all))
        }
    }
}
