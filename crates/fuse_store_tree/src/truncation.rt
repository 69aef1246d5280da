// Truncation of files, and extension with zeros.
ghost use Rattle.std.specs.Prelude.{◌≡◌, ◌<◌, ◌≤◌, ◌^◌, ◌*◌, ◌%◌, ◌-◌, replicate, IsTrue};
ghost use Rattle.std.specs.Prelude.{OnOk, OnErr, IfOk, IfErr};
ghost use Rattle.sqlite.specs.Held.{state};
ghost use Rattle.fuse_rows.specs.Bounds.{block_bytes, file_limit};
ghost use Rattle.fuse_rows.specs.declared.rows.Change.TheVariants as changes;
ghost use Rattle.fuse_store_tables.specs.Faults.{IsOutside, IsPlain};
ghost use Rattle.fuse_store_tables.specs.Moves.{Stays};
ghost use Rattle.fuse_store_tables.specs.inner.Performing.{IsSure};
ghost use Rattle.fuse_store_tree.specs.Pieces.{ReadsFile};
ghost use Rattle.fuse_store_tree.specs.Store.{Held, HeldAs};
ghost use Rattle.fuse_store_tree.specs.inner.Changing.{Changed, Cut};
ghost use Rattle.fuse_store_tree.specs.inner.Relisting.{GivenUp, IsAny, Relists};
ghost use Rattle.fuse_store_tree.specs.inner.Writing.{with_change};

use crate::block_writes::write_zeros;
use crate::contents::Contents;
use crate::piece_cuts::{Gone, take_from};
use fuse_keeper::StoreFault;
use fuse_rows::BLOCK_SIZE;
use fuse_store_tables::delete_blocks_from;
use sqlite::{Alter, Connection};
use std::alloc::Global;

// `count` zeros.
fn some_zeros(alloc: Global, count: u64) -> Result<Vec<u8>, StoreFault>
    requires { count ≤ block_bytes }
    ensures value { IfOk result (λ v. v.items ≡ replicate count 0) }
    ensures fault { IfErr result IsOutside }
    ensures plain { IfErr result IsPlain }
{
    let mut zeros = Vec::new(alloc);
    zeros.resize(count as usize, 0)?;
    Ok(zeros)
}

// Takes the blocks from this number on away: out of the pieces, and then their rows.
fn drop_blocks<S: Alter, C: Contents>(
    conn: &mut Connection<S>,
    contents: &mut C,
    gone: &mut Gone,
    alloc: Global,
    node: u64,
    from: u64,
) -> Result<(), StoreFault>
    requires node { node < 2 ^ 63 }
    requires from { from < 2 ^ 63 }
    ensures reads { ReadsFile (C.Contents.file contents.old) (C.Contents.file contents.new) }
    ensures cut { OnOk result (Cut (C.Contents.file contents.new) node (from * block_bytes)
        (state S.Store conn.old) (state S.Store conn.new)) }
    ensures gone { OnOk result (Relists (C.Contents.file contents.new).is_clean
        (C.Contents.file contents.new).bytes IsAny
        (GivenUp (C.Contents.file contents.new).bytes gone.old gone.new)
        (state S.Store conn.old) (state S.Store conn.new)) }
    ensures fails { OnErr result (Stays (state S.Store conn.old) (state S.Store conn.new)) }
    ensures fault { IsTrue (C.Contents.file contents.new).is_clean
        → IsSure (HeldAs (C.Contents.file contents.new).bytes) (state S.Store conn.old)
        (state S.Store conn.new) result }
    ensures plain { IfErr result IsPlain }
{
    match take_from(conn, contents, gone, alloc, node, from) {
        Ok(()) => {}
        Err(fault) => return Err(fault),
    }
    match delete_blocks_from(conn, node, from) {
        Ok(()) => Ok(()),
        Err(error) => Err(StoreFault::from(error)),
    }
}

// Sets the bytes from a place within a block on to 0.
fn cut_within<S: Alter, C: Contents>(
    conn: &mut Connection<S>,
    contents: &mut C,
    gone: &mut Gone,
    alloc: Global,
    node: u64,
    size: u64,
) -> Result<(), StoreFault>
    requires node { node < 2 ^ 63 }
    requires size { size ≤ file_limit }
    requires within { 1 ≤ size % block_bytes }
    ensures reads { ReadsFile (C.Contents.file contents.old) (C.Contents.file contents.new) }
    ensures cut { OnOk result (Cut (C.Contents.file contents.new) node size
        (state S.Store conn.old) (state S.Store conn.new)) }
    ensures gone { OnOk result (Relists (C.Contents.file contents.new).is_clean
        (C.Contents.file contents.new).bytes IsAny
        (GivenUp (C.Contents.file contents.new).bytes gone.old gone.new)
        (state S.Store conn.old) (state S.Store conn.new)) }
    ensures fails { OnErr result (Stays (state S.Store conn.old) (state S.Store conn.new)) }
    ensures fault { IsTrue (C.Contents.file contents.new).is_clean
        → IsSure (HeldAs (C.Contents.file contents.new).bytes) (state S.Store conn.old)
        (state S.Store conn.new) result }
    ensures plain { IfErr result IsPlain }
{
    let rest = u64::from(BLOCK_SIZE) - size % u64::from(BLOCK_SIZE);
    let zeros = match some_zeros(alloc, rest) {
        Ok(zeros) => zeros,
        Err(fault) => return Err(fault),
    };
    match drop_blocks(
        conn,
        contents,
        gone,
        alloc,
        node,
        size / u64::from(BLOCK_SIZE) + 1,
    ) {
        Ok(()) => write_zeros(conn, contents, alloc, node, size, zeros.as_slice()),
        Err(fault) => Err(fault),
    }
}

// Sets the bytes from a place on to 0.
fn cut_from<S: Alter, C: Contents>(
    conn: &mut Connection<S>,
    contents: &mut C,
    gone: &mut Gone,
    alloc: Global,
    node: u64,
    size: u64,
) -> Result<(), StoreFault>
    requires node { node < 2 ^ 63 }
    requires size { size ≤ file_limit }
    ensures reads { ReadsFile (C.Contents.file contents.old) (C.Contents.file contents.new) }
    ensures cut { OnOk result (Cut (C.Contents.file contents.new) node size
        (state S.Store conn.old) (state S.Store conn.new)) }
    ensures gone { OnOk result (Relists (C.Contents.file contents.new).is_clean
        (C.Contents.file contents.new).bytes IsAny
        (GivenUp (C.Contents.file contents.new).bytes gone.old gone.new)
        (state S.Store conn.old) (state S.Store conn.new)) }
    ensures fails { OnErr result (Stays (state S.Store conn.old) (state S.Store conn.new)) }
    ensures fault { IsTrue (C.Contents.file contents.new).is_clean
        → IsSure (HeldAs (C.Contents.file contents.new).bytes) (state S.Store conn.old)
        (state S.Store conn.new) result }
    ensures plain { IfErr result IsPlain }
{
    let start = size % u64::from(BLOCK_SIZE);
    if start == 0 {
        drop_blocks(
            conn,
            contents,
            gone,
            alloc,
            node,
            size / u64::from(BLOCK_SIZE),
        )
    } else {
        cut_within(conn, contents, gone, alloc, node, size)
    }
}

/// Truncates the content of a node, or extends it with zeros.
pub(crate) fn set_size<S: Alter, C: Contents>(
    conn: &mut Connection<S>,
    contents: &mut C,
    gone: &mut Gone,
    alloc: Global,
    node: u64,
    size: u64,
) -> Result<(), StoreFault>
    requires node { node < 2 ^ 63 }
    requires size { size ≤ file_limit }
    ensures reads { ReadsFile (C.Contents.file contents.old) (C.Contents.file contents.new) }
    ensures changed { OnOk result (Changed (C.Contents.file contents.new)
        (with_change (changes.Sized node size)) (state S.Store conn.old)
        (state S.Store conn.new)) }
    ensures gone { OnOk result (Relists (C.Contents.file contents.new).is_clean
        (C.Contents.file contents.new).bytes IsAny
        (GivenUp (C.Contents.file contents.new).bytes gone.old gone.new)
        (state S.Store conn.old) (state S.Store conn.new)) }
    ensures fails { OnErr result (Stays (state S.Store conn.old) (state S.Store conn.new)) }
    ensures fault { IsTrue (C.Contents.file contents.new).is_clean
        → IsSure (Held (C.Contents.file contents.new).bytes) (state S.Store conn.old)
        (state S.Store conn.new) result }
    ensures plain { IfErr result IsPlain }
{
    cut_from(conn, contents, gone, alloc, node, size)
}
