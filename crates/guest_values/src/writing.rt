//! Values that are written.
ghost use Rattle.std.specs.Prelude.{◌≡◌, ◌+◌, ◌-◌, ◌*◌, ◌++◌, ◌≤◌, ◌<◌, length, replicate};
ghost use Rattle.std.specs.Prelude.{IfOk, IfErr, OnOk, OnErr};
ghost use Rattle.fuse_data.specs.declared.extent.TheConstants as limits;
ghost use Rattle.fuse_data.specs.Causes.{FailsToWrite};
ghost use Rattle.fuse_data.specs.State.{state_of};
ghost use Rattle.guest_values.specs.Causes.{FailsToPut, IsMemory};
ghost use Rattle.guest_values.specs.Space.{HasSameSpace};
ghost use Rattle.guest_values.specs.State.{HasWritten, KeepsUsed};
ghost use Rattle.guest_values.specs.Values.{IsLarge, IsFitValue, value_blocks, padded_in};
ghost use Rattle.guest_values.specs.Values.{value_in, value_pieces};
ghost use Rattle.guest_values.specs.inner.Writing.{FailsForRest, GivesFirstBack};
ghost use Rattle.guest_values.specs.inner.Writing.{IsNewPiece, IsNewValue};

use crate::large_value::{LargeValue, count_blocks};
use fuse_data::{BLOCK, DataFault, DataFile, Extent, MOST, bytes_are_blocks};
use sqlite_disk::Disk;
use std::alloc::Global;

// The bytes of the longest piece.
const PIECE: usize = MOST * BLOCK;

// The bytes of a value, and zeros to the end of the last block.
fn pad(alloc: Global, bytes: &[u8]) -> Result<Vec<u8>, DataFault>
    requires { IsLarge (length bytes.now) }
    ensures padded { IfOk result (λ v. v.items ≡ bytes.now ++ replicate
        (value_blocks (length bytes.now) * limits.BLOCK - length bytes.now) 0) }
    ensures cause { IfErr result IsMemory }
{
    let mut blocks = Vec::from_slice(alloc, bytes)?;
    blocks.resize(count_blocks(bytes.len()) * BLOCK, 0)?;
    Ok(blocks)
}

// Writes bytes in one piece.
fn write_piece<D: Disk>(file: &mut DataFile<D>, bytes: &[u8]) -> Result<Extent, DataFault>
    ensures keeps { KeepsUsed (state_of D.Disk file.old) (state_of D.Disk file.new) }
    ensures written { IfOk result (λ p. IsNewPiece bytes.now p (state_of D.Disk file.old)
        (state_of D.Disk file.new)) }
    ensures failed { OnErr result ((state_of D.Disk file.new).gaps
        ≡ (state_of D.Disk file.old).gaps) }
    ensures cause { IfErr result (FailsToWrite (state_of D.Disk file.old).is_usable
        (state_of D.Disk file.old).gaps (length bytes.now)) }
{
    bytes_are_blocks();
    file.write(bytes)
}

// Writes the blocks of a value in one piece.
fn write_one<D: Disk>(
    file: &mut DataFile<D>,
    len: usize,
    blocks: &[u8],
) -> Result<LargeValue, DataFault>
    requires large { IsLarge len }
    requires size { length blocks.now ≡ value_blocks len * limits.BLOCK }
    requires few { length blocks.now ≤ limits.MOST * limits.BLOCK }
    ensures keeps { KeepsUsed (state_of D.Disk file.old) (state_of D.Disk file.new) }
    ensures put { IfOk result (λ v. IsNewValue len blocks.now v (state_of D.Disk file.old)
        (state_of D.Disk file.new)) }
    ensures same { IfErr result (λ f. ¬ IsMemory f → HasSameSpace (state_of D.Disk file.old).gaps
        (state_of D.Disk file.new).gaps) }
    ensures cause { IfErr result (FailsToPut (state_of D.Disk file.old).is_usable
        (state_of D.Disk file.old).gaps (value_blocks len)) }
{
    match write_piece(file, blocks) {
        Ok(first) => Ok(LargeValue {
            len,
            first,
            second: None,
        }),
        Err(fault) => Err(fault),
    }
}

// Writes the second piece of a value. Where that fails, the first one is given back.
fn write_rest<D: Disk>(
    file: &mut DataFile<D>,
    first: Extent,
    rest: &[u8],
) -> Result<Extent, DataFault>
    ensures written { IfOk result (λ p. IsNewPiece rest.now p (state_of D.Disk file.old)
        (state_of D.Disk file.new)) }
    ensures keeps { OnOk result (KeepsUsed (state_of D.Disk file.old)
        (state_of D.Disk file.new)) }
    ensures failed { IfErr result (GivesFirstBack first (state_of D.Disk file.old)
        (state_of D.Disk file.new)) }
    ensures cause { IfErr result (FailsForRest (state_of D.Disk file.old) (length rest.now)) }
{
    match write_piece(file, rest) {
        Ok(second) => Ok(second),
        Err(fault) => match file.give_back(first) {
            Ok(()) => Err(fault),
            Err(_) => Err(DataFault::Memory),
        },
    }
}

// Writes the blocks of a value in two pieces.
fn write_two<D: Disk>(
    file: &mut DataFile<D>,
    len: usize,
    front: &[u8],
    rest: &[u8],
) -> Result<LargeValue, DataFault>
    requires large { IsLarge len }
    requires full { length front.now ≡ limits.MOST * limits.BLOCK }
    requires size { length front.now + length rest.now ≡ value_blocks len * limits.BLOCK }
    requires more { limits.MOST < value_blocks len }
    ensures keeps { KeepsUsed (state_of D.Disk file.old) (state_of D.Disk file.new) }
    ensures put { IfOk result (λ v. IsNewValue len (front.now ++ rest.now) v
        (state_of D.Disk file.old) (state_of D.Disk file.new)) }
    ensures same { IfErr result (λ f. ¬ IsMemory f → HasSameSpace (state_of D.Disk file.old).gaps
        (state_of D.Disk file.new).gaps) }
    ensures cause { IfErr result (FailsToPut (state_of D.Disk file.old).is_usable
        (state_of D.Disk file.old).gaps (value_blocks len)) }
{
    let first = match write_piece(file, front) {
        Ok(first) => first,
        Err(fault) => return Err(fault),
    };
    match write_rest(file, first, rest) {
        Ok(second) => Ok(LargeValue {
            len,
            first,
            second: Some(second),
        }),
        Err(fault) => Err(fault),
    }
}

// Writes the blocks of a value.
fn write_blocks<D: Disk>(
    file: &mut DataFile<D>,
    len: usize,
    blocks: &[u8],
) -> Result<LargeValue, DataFault>
    requires large { IsLarge len }
    requires size { length blocks.now ≡ value_blocks len * limits.BLOCK }
    ensures keeps { KeepsUsed (state_of D.Disk file.old) (state_of D.Disk file.new) }
    ensures put { IfOk result (λ v. IsNewValue len blocks.now v (state_of D.Disk file.old)
        (state_of D.Disk file.new)) }
    ensures same { IfErr result (λ f. ¬ IsMemory f → HasSameSpace (state_of D.Disk file.old).gaps
        (state_of D.Disk file.new).gaps) }
    ensures cause { IfErr result (FailsToPut (state_of D.Disk file.old).is_usable
        (state_of D.Disk file.old).gaps (value_blocks len)) }
{
    if blocks.len() <= PIECE {
        return write_one(file, len, blocks);
    }
    write_two(file, len, &blocks[..PIECE], &blocks[PIECE..])
}

/// Writes a large value into free space. It lasts once the data file is synced. After an `Err` all
/// that was in use is as it was.
pub(crate) fn write_value<D: Disk>(
    alloc: Global,
    file: &mut DataFile<D>,
    bytes: &[u8],
) -> Result<LargeValue, DataFault>
    requires { IsLarge (length bytes.now) }
    ensures keeps { KeepsUsed (state_of D.Disk file.old) (state_of D.Disk file.new) }
    ensures fit { IfOk result IsFitValue }
    ensures written { IfOk result (λ v. HasWritten (value_pieces v) (state_of D.Disk file.old)
        (state_of D.Disk file.new)) }
    ensures len { IfOk result (λ v. v.len ≡ length bytes.now) }
    ensures bytes { IfOk result (λ v. value_in (state_of D.Disk file.new).seen v ≡ bytes.now) }
    ensures zeros { IfOk result (λ v. padded_in (state_of D.Disk file.new).seen v
        ≡ bytes.now ++ replicate (value_blocks (length bytes.now) * limits.BLOCK
        - length bytes.now) 0) }
    // A refused allocation may leave free blocks in use until the free space is found anew.
    ensures same { IfErr result (λ f. ¬ IsMemory f → HasSameSpace (state_of D.Disk file.old).gaps
        (state_of D.Disk file.new).gaps) }
    ensures cause { IfErr result (FailsToPut (state_of D.Disk file.old).is_usable
        (state_of D.Disk file.old).gaps (value_blocks (length bytes.now))) }
{
    let blocks = match pad(alloc, bytes) {
        Ok(blocks) => blocks,
        Err(fault) => return Err(fault),
    };
    match write_blocks(file, bytes.len(), blocks.as_slice()) {
        Ok(value) => Ok(value),
        Err(fault) => Err(fault),
    }
}
