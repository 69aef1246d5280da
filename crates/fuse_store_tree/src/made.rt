// The pieces of large WRITEs, which are written before the transaction that lists them.
ghost use Rattle.std.specs.Prelude.{◌≡◌, ◌≤◌, ◌<◌, ◌+◌, ◌*◌, ◌^◌, ℕ, List, [], length, map};
ghost use Rattle.std.specs.Prelude.{slice_index_or, IfOk, IfErr, OnOk};
ghost use Rattle.std.specs.List.{All};
ghost use Rattle.fuse_request.specs.Act.{asked};
ghost use Rattle.fuse_keeper.specs.Group.{entries_of};
ghost use Rattle.fuse_data.specs.State.{state_of, state_in};
ghost use Rattle.fuse_rows.specs.Bounds.{file_limit};
ghost use Rattle.fuse_store_tables.specs.Faults.{IsOutside, IsPlain};
ghost use Rattle.fuse_store_tree.specs.declared.made.MadePiece.{MadePiece as Piece};
ghost use Rattle.fuse_store_tree.specs.inner.Preparing.{AreForEach, AreMadeOf, IsFor, IsMade};
ghost use Rattle.fuse_store_tree.specs.inner.Preparing.{IsMadeAside, WritesAside};

use crate::store_data::{Data, Written, write_aside};
use fuse_data::{DataFile, Extent, MOST};
use fuse_keeper::StoreFault;
use fuse_request::{Op, Request};
use fuse_rows::MAX_FILE;
use fuse_wire::Moment;
use sqlite_disk::Disk;
use std::alloc::Global;

// The bytes of a block.
const SIZE: u64 = 4096;

// A WRITE with so many whole blocks becomes pieces.
const LARGE: u64 = 16;

/// A piece of a file that was written before the transaction.
#[derive(Clone, Copy)]
pub struct MadePiece {
    /// The number of its first block in the file.
    pub first: u64,
    pub extent: Extent,
}

/// The pieces of a WRITE, with the place and the bytes that it has.
#[derive(Clone, Copy)]
pub struct Made<'a> {
    pub at: u64,
    pub bytes: &'a [u8],
    pub pieces: &'a [MadePiece],
}

// The whole blocks among bytes of a file: the first one, and the one after the last.
fn whole_blocks(at: u64, len: u64) -> (u64, u64)
    requires at { at ≤ file_limit }
    requires len { len < 2 ^ 62 }
    ensures first { at ≤ result.0 * 4096 }
    ensures end { result.1 * 4096 ≤ at + len }
    ensures low { result.0 < 2 ^ 52 }
    ensures high { result.1 < 2 ^ 52 }
{
    ((at + (SIZE - 1)) / SIZE, (at + len) / SIZE)
}

// Writes the whole blocks of a large WRITE as pieces, and none of another one.
fn make_pieces<D: Disk>(
    alloc: Global,
    file: &mut DataFile<D>,
    written: &mut Vec<Written>,
    at: u64,
    bytes: &[u8],
) -> Result<Vec<MadePiece>, StoreFault>
    ensures aside { WritesAside (state_of D.Disk file.old) (state_of D.Disk file.new)
        written.old.items written.new.items }
    ensures made { IfOk result (λ pieces. All (IsMadeAside (state_of D.Disk file.new)
        written.new.items at bytes.now) pieces.items) }
    // Where nothing was written, the data file is as it was.
    ensures idle { OnOk result (written.new.items ≡ [] → file.new ≡ file.old) }
    ensures fault { IfErr result IsOutside }
    ensures plain { IfErr result IsPlain }
{
    let mut pieces = Vec::new(alloc);
    if at > MAX_FILE || bytes.len() > MAX_FILE as usize {
        return Ok(pieces);
    }
    let (first, end) = whole_blocks(at, bytes.len() as u64);
    if end < first + LARGE {
        return Ok(pieces);
    }
    let mut block = first;
    while block < end {
        let count = (end - block).min(MOST as u64);
        let from = (block * SIZE - at) as usize;
        let len = (count * SIZE) as usize;
        let extent = match write_aside(file, written, &bytes[from..from + len]) {
            Ok(extent) => extent,
            Err(fault) => return Err(fault),
        };
        pieces.push(MadePiece {
            first: block,
            extent,
        })?;
        block += count;
    }
    Ok(pieces)
}

// Writes the pieces of a request, where it is a large WRITE.
fn make_for<D: Disk>(
    alloc: Global,
    file: &mut DataFile<D>,
    written: &mut Vec<Written>,
    request: &Request<'_>,
) -> Result<Vec<MadePiece>, StoreFault>
    ensures aside { WritesAside (state_of D.Disk file.old) (state_of D.Disk file.new)
        written.old.items written.new.items }
    ensures made { IfOk result (λ pieces. IsFor (IsMadeAside (state_of D.Disk file.new)
        written.new.items) (asked request.now).act pieces.items) }
    // Where nothing was written, the data file is as it was.
    ensures idle { OnOk result (written.new.items ≡ [] → file.new ≡ file.old) }
    ensures fault { IfErr result IsOutside }
    ensures plain { IfErr result IsPlain }
{
    match &request.op {
        Op::Write {
            offset,
            payload,
            ..
        } => make_pieces(alloc, file, written, *offset, payload),
        _ => Ok(Vec::new(alloc)),
    }
}

// Writes the pieces of each large WRITE of a group.
fn make_each<D: Disk>(
    alloc: Global,
    file: &mut DataFile<D>,
    written: &mut Vec<Written>,
    group: &[(Request<'_>, Moment)],
) -> Result<Vec<Vec<MadePiece>>, StoreFault>
    ensures aside { WritesAside (state_of D.Disk file.old) (state_of D.Disk file.new)
        written.old.items written.new.items }
    ensures made { IfOk result (λ made. AreForEach (IsMadeAside (state_of D.Disk file.new)
        written.new.items) (entries_of group.now) (map (λ v. v.items) made.items)) }
    // Where nothing was written, the data file is as it was.
    ensures idle { OnOk result (written.new.items ≡ [] → file.new ≡ file.old) }
    ensures fault { IfErr result IsOutside }
    ensures plain { IfErr result IsPlain }
{
    let mut made = Vec::new(alloc);
    for one in group {
        match make_for(alloc, file, written, &one.0) {
            Ok(pieces) => made.push(pieces)?,
            Err(fault) => return Err(fault),
        }
    }
    Ok(made)
}

/// Writes the pieces of each large WRITE of a group. A plain store has none.
pub(crate) fn make_group<D: Disk>(
    alloc: Global,
    contents: &mut Data<D>,
    group: &[(Request<'_>, Moment)],
) -> Result<Vec<Vec<MadePiece>>, StoreFault>
    ensures aside { WritesAside (state_in D.Disk contents.old.file)
        (state_in D.Disk contents.new.file) contents.old.written.items
        contents.new.written.items }
    ensures made { IfOk result (λ made. AreForEach (IsMadeAside
        (state_in D.Disk contents.new.file) contents.new.written.items) (entries_of group.now)
        (map (λ v. v.items) made.items)) }
    ensures idle { OnOk result (contents.new.written.items ≡ []
        → contents.new.file ≡ contents.old.file) }
    ensures fault { IfErr result IsOutside }
    ensures plain { IfErr result IsPlain }
{
    match &mut contents.file {
        None => Ok(Vec::new(alloc)),
        Some(file) => make_each(alloc, file, &mut contents.written, group),
    }
}

/// The pieces that were made for the request at this place of its group.
pub(crate) fn made_at(made: &[Vec<MadePiece>], i: usize) -> &[MadePiece]
    ensures there { i < length made.now → (d : List Piece)
        → result.now ≡ slice_index_or (map (λ v. v.items) made.now) i d }
    ensures none { length made.now ≤ i → result.now ≡ [] }
{
    if i < made.len() {
        made[i].as_slice()
    } else {
        &[]
    }
}

/// These pieces, as those of a WRITE; none of another request.
pub(crate) fn made_for<'a>(request: &'a Request<'_>, pieces: &'a [MadePiece]) -> Made<'a>
    ensures { (file : List ℕ) → IsFor (IsMade file) (asked request.now).act pieces.now
        → AreMadeOf file result.at result.bytes.now result.pieces.now }
{
    match &request.op {
        Op::Write {
            offset,
            payload,
            ..
        } => Made {
            at: *offset,
            bytes: payload,
            pieces,
        },
        _ => Made {
            at: 0,
            bytes: &[],
            pieces: &[],
        },
    }
}
