// Writes of the bytes of files, block by block.
ghost use Rattle.std.specs.Prelude.{◌≡◌, ◌<◌, ◌≤◌, ◌^◌, ◌+◌, ◌/◌, ◌%◌, ℕ, length};
ghost use Rattle.std.specs.Prelude.{IfOk, IfErr, OnOk, OnErr, IsTrue};
ghost use Rattle.sqlite.specs.State.{HasCleanDisk};
ghost use Rattle.sqlite.specs.Held.{state};
ghost use Rattle.fuse_rows.specs.Bounds.{block_bytes};
ghost use Rattle.fuse_rows.specs.declared.rows.Change.TheVariants as changes;
ghost use Rattle.fuse_store_tables.specs.Content.{Content, put_block};
ghost use Rattle.fuse_store_tables.specs.Faults.{IsOutside, IsPlain};
ghost use Rattle.fuse_store_tables.specs.Moves.{Inside, Makes, Stays};
ghost use Rattle.fuse_store_tables.specs.inner.Performing.{IsSure};
ghost use Rattle.fuse_store_tree.specs.Pieces.{ReadsFile, byte_at};
ghost use Rattle.fuse_store_tree.specs.Store.{Held, HeldAs};
ghost use Rattle.fuse_store_tree.specs.inner.Changing.{Changed, Overlaid, Zeroed};
ghost use Rattle.fuse_store_tree.specs.declared.piece_cuts.Gone.{Gone};
ghost use Rattle.fuse_store_tree.specs.inner.Reading.{IsSound};
ghost use Rattle.fuse_store_tree.specs.inner.Relisting.{GivenUp, IsAny, Relists};
ghost use Rattle.fuse_store_tree.specs.inner.Writing.{spliced, put_found, with_change};

use crate::block_reads::{FoundBlock, find_block, first_count};
use crate::contents::Contents;
use fuse_keeper::StoreFault;
use fuse_rows::BLOCK_SIZE;
use fuse_store_tables::{insert_block, update_block, write_block};
use sqlite::{Alter, Connection};
use std::alloc::Global;

// A block's bytes with a part written over them.
fn splice(alloc: Global, old: &[u8], start: usize, part: &[u8]) -> Result<Vec<u8>, StoreFault>
    requires { start + length part.now ≤ length old.now }
    ensures value { IfOk result (λ v. v.items ≡ spliced old.now start part.now) }
    ensures fault { IfErr result (λ f. IsOutside f) }
    ensures plain { IfErr result IsPlain }
{
    let end = start + part.len();
    let mut made = Vec::from_slice(alloc, &old[..start])?;
    made.extend_from_slice(part)?;
    made.extend_from_slice(&old[end..])?;
    Ok(made)
}

// Changes a block that is stored, or adds it.
fn put_block<S: Alter>(
    conn: &mut Connection<S>,
    node: u64,
    block: u64,
    stored: bool,
    bytes: &[u8],
) -> Result<(), StoreFault>
    requires node { node < 2 ^ 63 }
    requires block { block < 2 ^ 63 }
    ensures made { Makes (put_found stored node block bytes.now) (state S.Store conn.old)
        (state S.Store conn.new) result }
    ensures fault { IfErr result IsOutside }
    ensures plain { IfErr result IsPlain }
{
    if stored {
        match update_block(conn, node, block, bytes) {
            Ok(_) => Ok(()),
            Err(error) => Err(StoreFault::from(error)),
        }
    } else {
        match insert_block(conn, node, block, bytes) {
            Ok(()) => Ok(()),
            Err(error) => Err(StoreFault::from(error)),
        }
    }
}

// Writes bytes over a part of a block that was read.
fn write_over<S: Alter>(
    conn: &mut Connection<S>,
    alloc: Global,
    node: u64,
    here: u64,
    part: &[u8],
    found: &FoundBlock,
) -> Result<(), StoreFault>
    requires node { node < 2 ^ 63 }
    requires here { here < 2 ^ 63 }
    requires whole { length found.now.bytes.items ≡ block_bytes }
    requires within { here % block_bytes + length part.now ≤ block_bytes }
    ensures made { Makes (put_found found.now.stored node (here / block_bytes)
        (spliced found.now.bytes.items (here % block_bytes) part.now)) (state S.Store conn.old)
        (state S.Store conn.new) result }
    ensures fault { IfErr result IsOutside }
    ensures plain { IfErr result IsPlain }
{
    let start = (here % u64::from(BLOCK_SIZE)) as usize;
    let made = match splice(alloc, found.bytes.as_slice(), start, part) {
        Ok(made) => made,
        Err(fault) => return Err(fault),
    };
    put_block(
        conn,
        node,
        here / u64::from(BLOCK_SIZE),
        found.stored,
        made.as_slice(),
    )
}

// Writes bytes within one block, over those that it has in its row or in a piece.
fn write_part<S: Alter, C: Contents>(
    conn: &mut Connection<S>,
    contents: &mut C,
    alloc: Global,
    node: u64,
    here: u64,
    part: &[u8],
) -> Result<(), StoreFault>
    requires node { node < 2 ^ 63 }
    requires here { here < 2 ^ 63 }
    requires some { 1 ≤ length part.now }
    requires within { here % block_bytes + length part.now ≤ block_bytes }
    ensures reads { ReadsFile (C.Contents.file contents.old) (C.Contents.file contents.new) }
    ensures overlaid { OnOk result (Overlaid (C.Contents.file contents.new) node here part.now
        (state S.Store conn.old) (state S.Store conn.new)) }
    ensures fails { OnErr result (Stays (state S.Store conn.old) (state S.Store conn.new)) }
    ensures fault { HasCleanDisk (state S.Store conn.new)
        → IsTrue (C.Contents.file contents.new).is_clean → IfErr result (λ f. (c : Content)
        → Inside c (state S.Store conn.old) → IsSound (C.Contents.file contents.new).bytes c
        → IsOutside f) }
    ensures plain { IfErr result IsPlain }
{
    let found = match find_block(conn, contents, alloc, node, here / u64::from(BLOCK_SIZE)) {
        Ok(found) => found,
        Err(fault) => return Err(fault),
    };
    write_over(conn, alloc, node, here, part, &found)
}

// Writes a whole block. The one before need not be read.
fn write_whole<S: Alter>(
    conn: &mut Connection<S>,
    node: u64,
    here: u64,
    bytes: &[u8],
) -> Result<(), StoreFault>
    requires node { node < 2 ^ 63 }
    requires here { here < 2 ^ 63 }
    ensures made { Makes (put_block node (here / block_bytes) bytes.now)
        (state S.Store conn.old) (state S.Store conn.new) result }
    ensures fault { IfErr result IsOutside }
    ensures plain { IfErr result IsPlain }
{
    match write_block(conn, node, here / u64::from(BLOCK_SIZE), bytes) {
        Ok(()) => Ok(()),
        Err(error) => Err(StoreFault::from(error)),
    }
}

/// Writes bytes within one block.
pub(crate) fn write_piece<S: Alter, C: Contents>(
    conn: &mut Connection<S>,
    contents: &mut C,
    alloc: Global,
    node: u64,
    here: u64,
    part: &[u8],
) -> Result<(), StoreFault>
    requires node { node < 2 ^ 63 }
    requires here { here < 2 ^ 63 }
    requires some { 1 ≤ length part.now }
    requires within { here % block_bytes + length part.now ≤ block_bytes }
    ensures reads { ReadsFile (C.Contents.file contents.old) (C.Contents.file contents.new) }
    ensures overlaid { OnOk result (Overlaid (C.Contents.file contents.new) node here part.now
        (state S.Store conn.old) (state S.Store conn.new)) }
    ensures fails { OnErr result (Stays (state S.Store conn.old) (state S.Store conn.new)) }
    ensures fault { HasCleanDisk (state S.Store conn.new)
        → IsTrue (C.Contents.file contents.new).is_clean → IfErr result (λ f. (c : Content)
        → Inside c (state S.Store conn.old) → IsSound (C.Contents.file contents.new).bytes c
        → IsOutside f) }
    ensures plain { IfErr result IsPlain }
{
    if part.len() == BLOCK_SIZE as usize {
        write_whole(conn, node, here, part)
    } else {
        write_part(conn, contents, alloc, node, here, part)
    }
}

/// Writes zeros within one block. No block is made: where none is written the bytes are zeros.
pub(crate) fn write_zeros<S: Alter, C: Contents>(
    conn: &mut Connection<S>,
    contents: &mut C,
    alloc: Global,
    node: u64,
    here: u64,
    zeros: &[u8],
) -> Result<(), StoreFault>
    requires node { node < 2 ^ 63 }
    requires here { here < 2 ^ 63 }
    requires some { 1 ≤ length zeros.now }
    requires within { here % block_bytes + length zeros.now ≤ block_bytes }
    requires zeros { (i : ℕ) → byte_at zeros.now i ≡ 0 }
    ensures reads { ReadsFile (C.Contents.file contents.old) (C.Contents.file contents.new) }
    ensures zeroed { OnOk result (Zeroed (C.Contents.file contents.new) node here zeros.now
        (state S.Store conn.old) (state S.Store conn.new)) }
    ensures keeps { OnOk result ((gone : Gone) → Relists
        (C.Contents.file contents.new).is_clean (C.Contents.file contents.new).bytes IsAny
        (GivenUp (C.Contents.file contents.new).bytes gone gone) (state S.Store conn.old)
        (state S.Store conn.new)) }
    ensures fails { OnErr result (Stays (state S.Store conn.old) (state S.Store conn.new)) }
    ensures fault { HasCleanDisk (state S.Store conn.new)
        → IsTrue (C.Contents.file contents.new).is_clean → IfErr result (λ f. (c : Content)
        → Inside c (state S.Store conn.old) → IsSound (C.Contents.file contents.new).bytes c
        → IsOutside f) }
    ensures plain { IfErr result IsPlain }
{
    let found = match find_block(conn, contents, alloc, node, here / u64::from(BLOCK_SIZE)) {
        Ok(found) => found,
        Err(fault) => return Err(fault),
    };
    if found.written {
        write_over(conn, alloc, node, here, zeros, &found)
    } else {
        Ok(())
    }
}

/// Writes bytes of a node, from a place on.
pub(crate) fn write_range<S: Alter, C: Contents>(
    conn: &mut Connection<S>,
    contents: &mut C,
    alloc: Global,
    node: u64,
    at: u64,
    bytes: &[u8],
) -> Result<(), StoreFault>
    requires node { node < 2 ^ 63 }
    requires end { at + length bytes.now < 2 ^ 63 }
    ensures reads { ReadsFile (C.Contents.file contents.old) (C.Contents.file contents.new) }
    ensures overlaid { OnOk result (Overlaid (C.Contents.file contents.new) node at bytes.now
        (state S.Store conn.old) (state S.Store conn.new)) }
    ensures fails { OnErr result (Stays (state S.Store conn.old) (state S.Store conn.new)) }
    ensures fault { IsTrue (C.Contents.file contents.new).is_clean
        → IsSure (HeldAs (C.Contents.file contents.new).bytes) (state S.Store conn.old)
        (state S.Store conn.new) result }
    ensures plain { IfErr result IsPlain }
{
    let mut done: usize = 0;
    'pieces: while done < bytes.len() {
        let here = at + done as u64;
        let count = first_count(here, (bytes.len() - done) as u64) as usize;
        match write_piece(
            conn,
            contents,
            alloc,
            node,
            here,
            &bytes[done..done + count],
        ) {
            Ok(()) => {}
            Err(fault) => return Err(fault),
        }
        done += count;
    }
    Ok(())
}

/// Writes bytes of a node. Where its content was shorter, the gap reads as zeros.
pub(crate) fn write_content<S: Alter, C: Contents>(
    conn: &mut Connection<S>,
    contents: &mut C,
    alloc: Global,
    node: u64,
    at: u64,
    bytes: &[u8],
) -> Result<(), StoreFault>
    requires node { node < 2 ^ 63 }
    requires end { at + length bytes.now < 2 ^ 63 }
    ensures reads { ReadsFile (C.Contents.file contents.old) (C.Contents.file contents.new) }
    ensures changed { OnOk result (Changed (C.Contents.file contents.new)
        (with_change (changes.Written node at bytes.now)) (state S.Store conn.old)
        (state S.Store conn.new)) }
    ensures fails { OnErr result (Stays (state S.Store conn.old) (state S.Store conn.new)) }
    ensures fault { IsTrue (C.Contents.file contents.new).is_clean
        → IsSure (Held (C.Contents.file contents.new).bytes) (state S.Store conn.old)
        (state S.Store conn.new) result }
    ensures plain { IfErr result IsPlain }
{
    write_range(conn, contents, alloc, node, at, bytes)
}
