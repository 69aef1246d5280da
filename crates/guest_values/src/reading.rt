//! Values that are read.
ghost use Rattle.std.specs.Prelude.{◌≡◌, ◌⊎◌, ◌*◌, ◌++◌, [], ◌∷◌, length};
ghost use Rattle.std.specs.Prelude.{IsTrue, IfOk, IfErr, OnOk};
ghost use Rattle.fuse_data.specs.declared.extent.TheConstants as limits;
ghost use Rattle.fuse_data.specs.Extents.{IsPlaced, IsWhole, bytes_of, sum_of};
ghost use Rattle.fuse_data.specs.State.{state_of};
ghost use Rattle.guest_values.specs.Causes.{FailsToGet};
ghost use Rattle.guest_values.specs.State.{OnlyReadsFile};
ghost use Rattle.guest_values.specs.Values.{AreTested, HaveSums, IsFitValue, IsStoredValue};
ghost use Rattle.guest_values.specs.Values.{padded_in, value_pieces, value_in};
ghost use Rattle.guest_values.specs.inner.Reading.{FailsToGetPiece};

use crate::large_value::{LargeValue, is_fit};
use fuse_data::{BLOCK, DataFault, DataFile, Extent};
use sqlite_disk::Disk;
use std::alloc::Global;

// The bytes of a piece, which have its digest.
fn read_piece<D: Disk>(
    alloc: Global,
    file: &mut DataFile<D>,
    piece: Extent,
) -> Result<Vec<u8>, DataFault>
    requires { IsPlaced piece }
    ensures reads { OnlyReadsFile (state_of D.Disk file.old) (state_of D.Disk file.new) }
    ensures tested { IfOk result (λ v. sum_of v.items ≡ piece.sum) }
    ensures long { IfOk result (λ v. length v.items ≡ piece.count * limits.BLOCK) }
    ensures bytes { IfOk result (λ v. IsTrue (state_of D.Disk file.new).is_clean
        → v.items ≡ bytes_of (state_of D.Disk file.old).seen piece) }
    ensures whole { OnOk result (IsTrue (state_of D.Disk file.new).is_clean
        → IsWhole (state_of D.Disk file.old).seen piece) }
    ensures asked { OnOk result (IsTrue (state_of D.Disk file.old).is_usable) }
    ensures cause { IfErr result (FailsToGetPiece (state_of D.Disk file.old).is_usable
        (state_of D.Disk file.new).is_clean (state_of D.Disk file.old).seen piece) }
{
    let mut bytes = Vec::new(alloc);
    bytes.resize(piece.count * BLOCK, 0)?;
    match file.read(piece, bytes.as_mut_slice()) {
        Ok(()) => Ok(bytes),
        Err(fault) => Err(fault),
    }
}

// The bytes of both pieces.
fn read_two<D: Disk>(
    alloc: Global,
    file: &mut DataFile<D>,
    first: Extent,
    second: Extent,
) -> Result<Vec<u8>, DataFault>
    requires first { IsPlaced first }
    requires second { IsPlaced second }
    ensures reads { OnlyReadsFile (state_of D.Disk file.old) (state_of D.Disk file.new) }
    ensures tested { IfOk result (λ v. HaveSums (first ∷ second ∷ []) v.items) }
    ensures bytes { IfOk result (λ v. IsTrue (state_of D.Disk file.new).is_clean
        → v.items ≡ bytes_of (state_of D.Disk file.old).seen first
        ++ bytes_of (state_of D.Disk file.old).seen second) }
    ensures whole { OnOk result (IsTrue (state_of D.Disk file.new).is_clean
        → IsWhole (state_of D.Disk file.old).seen first
        × IsWhole (state_of D.Disk file.old).seen second) }
    ensures asked { OnOk result (IsTrue (state_of D.Disk file.old).is_usable) }
    ensures cause { IfErr result (λ f. FailsToGetPiece (state_of D.Disk file.old).is_usable
        (state_of D.Disk file.new).is_clean (state_of D.Disk file.old).seen first f
        ⊎ FailsToGetPiece (state_of D.Disk file.old).is_usable
        (state_of D.Disk file.new).is_clean (state_of D.Disk file.old).seen second f) }
{
    let mut bytes = match read_piece(alloc, file, first) {
        Ok(bytes) => bytes,
        Err(fault) => return Err(fault),
    };
    let rest = match read_piece(alloc, file, second) {
        Ok(rest) => rest,
        Err(fault) => return Err(fault),
    };
    match bytes.extend_from_slice(rest.as_slice()) {
        Ok(()) => Ok(bytes),
        Err(_) => Err(DataFault::Memory),
    }
}

// The bytes of all pieces.
fn read_blocks<D: Disk>(
    alloc: Global,
    file: &mut DataFile<D>,
    value: LargeValue,
) -> Result<Vec<u8>, DataFault>
    requires { IsFitValue value }
    ensures reads { OnlyReadsFile (state_of D.Disk file.old) (state_of D.Disk file.new) }
    ensures tested { IfOk result (λ v. HaveSums (value_pieces value) v.items) }
    ensures bytes { IfOk result (λ v. IsTrue (state_of D.Disk file.new).is_clean
        → v.items ≡ padded_in (state_of D.Disk file.old).seen value) }
    ensures stored { OnOk result (IsTrue (state_of D.Disk file.new).is_clean
        → IsStoredValue (state_of D.Disk file.old).seen value) }
    ensures asked { OnOk result (IsTrue (state_of D.Disk file.old).is_usable) }
    ensures cause { IfErr result (FailsToGet (state_of D.Disk file.old).is_usable
        (state_of D.Disk file.new).is_clean (state_of D.Disk file.old).seen value) }
{
    match value.second {
        None => match read_piece(alloc, file, value.first) {
            Ok(bytes) => Ok(bytes),
            Err(fault) => Err(fault),
        },
        Some(second) => match read_two(alloc, file, value.first, second) {
            Ok(bytes) => Ok(bytes),
            Err(fault) => Err(fault),
        },
    }
}

/// The bytes of a value, which have the digests of its pieces. A row may say anything.
pub(crate) fn read_value<D: Disk>(
    alloc: Global,
    file: &mut DataFile<D>,
    value: LargeValue,
) -> Result<Vec<u8>, DataFault>
    ensures reads { OnlyReadsFile (state_of D.Disk file.old) (state_of D.Disk file.new) }
    // Whatever the disk answers.
    ensures tested { IfOk result (λ v. AreTested value v.items) }
    ensures fit { OnOk result (IsFitValue value) }
    ensures bytes { IfOk result (λ v. IsTrue (state_of D.Disk file.new).is_clean
        → v.items ≡ value_in (state_of D.Disk file.old).seen value) }
    ensures stored { OnOk result (IsTrue (state_of D.Disk file.new).is_clean
        → IsStoredValue (state_of D.Disk file.old).seen value) }
    ensures asked { OnOk result (IsTrue (state_of D.Disk file.old).is_usable) }
    ensures cause { IfErr result (FailsToGet (state_of D.Disk file.old).is_usable
        (state_of D.Disk file.new).is_clean (state_of D.Disk file.old).seen value) }
{
    if !is_fit(value) {
        return Err(DataFault::Damaged(value.first));
    }
    match read_blocks(alloc, file, value) {
        Ok(mut bytes) => {
            bytes.truncate(value.len);
            Ok(bytes)
        }
        Err(fault) => Err(fault),
    }
}
