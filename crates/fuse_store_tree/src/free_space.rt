// The free space of the data file, found anew where too much of it is lost.
ghost use Rattle.std.specs.Prelude.{◌≡◌, ◌≤◌, ◌/◌, ◌&&◌, nat_le, IfOk, IfErr, IfSome, OnErr};
ghost use Rattle.std.specs.Prelude.{ℕ, List, Option};
ghost use Rattle.sqlite.specs.State.{HasCleanDisk};
ghost use Rattle.sqlite.specs.Held.{state};
ghost use Rattle.fuse_data.specs.Space.{AllInUse};
ghost use Rattle.fuse_data.specs.State.{state_of, state_in};
ghost use Rattle.fuse_store_tables.specs.Faults.{IsOutside, IsPlain};
ghost use Rattle.fuse_store_tables.specs.Moves.{IsSafe, LeavesAlone, StaysOpen};
ghost use Rattle.fuse_store_tables.specs.inner.Performing.{CommitsNothing};
ghost use Rattle.fuse_store_tree.specs.declared.meta.Meta.{Meta};
ghost use Rattle.fuse_store_tree.specs.Holding.{HeldFor};
ghost use Rattle.fuse_store_tree.specs.Listings.{ListsExtents};
ghost use Rattle.fuse_store_tree.specs.StoreState.{IsSoundStore, ServesStore, StaysUsable};
ghost use Rattle.fuse_store_tree.specs.StoreState.{store_in};
ghost use Rattle.fuse_store_tree.specs.inner.Finding.{FindsSpace};

use crate::contents::store_fault;
use crate::listing::listed_extents;
use crate::piece_cuts::Gone;
use crate::store_data::{Data, Written};
use fuse_data::{DataFile, Extent};
use fuse_keeper::StoreFault;
use fuse_store_tables::{go_back, undo};
use sqlite::{Alter, Connection};
use sqlite_disk::Disk;
use std::alloc::Global;

// So few lost blocks, 16 MiB, are left lost.
const FEW: u64 = 4096;

// Whether so many lost blocks are worth a reading of the whole list, which had so many.
fn is_too_much(lost: u64, listed: u64) -> bool
    ensures { result ≡ (nat_le 4096 lost && nat_le (listed / 8) lost) }
{
    lost >= FEW && lost >= listed / 8
}

// How many blocks some extents have.
fn count_blocks(extents: &[Extent]) -> u64 {
    let mut sum: u64 = 0;
    for extent in extents {
        sum = sum.saturating_add(extent.count as u64);
    }
    sum
}

/// How many blocks are lost after a call, which took some extents off the list, and wrote some that
/// it may not have listed. Where it took off more than are remembered, all count as lost.
pub(crate) fn lost_after(lost: u64, written: &[Written], gone: &Gone) -> u64
    ensures { lost ≤ result }
{
    if gone.more {
        return u64::MAX;
    }
    let mut sum = lost.saturating_add(count_blocks(gone.extents.as_slice()));
    for one in written {
        if !one.listed {
            sum = sum.saturating_add(one.extent.count as u64);
        }
    }
    sum
}

// Makes the blocks free that no extent of this list has, and cuts the file where its end is free.
// A list that doesn't fit changes nothing, and the end may stay where it is.
fn space_of<D: Disk>(
    file: &mut DataFile<D>,
    alloc: Global,
    listed: &[Extent],
) -> Result<(), StoreFault>
    ensures in_use { AllInUse (state_of D.Disk file.old).gaps listed.now
        → AllInUse (state_of D.Disk file.new).gaps listed.now }
    ensures finds { FindsSpace (state_of D.Disk file.old) (state_of D.Disk file.new) result }
    ensures fault { IfErr result IsOutside }
    ensures plain { IfErr result IsPlain }
{
    match file.relist(alloc, listed) {
        Ok(()) => {}
        Err(_) => return Ok(()),
    }
    let _ = file.cut();
    match file.sync() {
        Ok(()) => Ok(()),
        Err(fault) => Err(store_fault(fault)),
    }
}

// The same of a store's data file. A plain store has none.
fn set_space<D: Disk>(
    contents: &mut Data<D>,
    alloc: Global,
    listed: &[Extent],
) -> Result<(), StoreFault>
    ensures in_use { AllInUse (state_in D.Disk contents.old.file).gaps listed.now
        → AllInUse (state_in D.Disk contents.new.file).gaps listed.now }
    ensures finds { FindsSpace (state_in D.Disk contents.old.file)
        (state_in D.Disk contents.new.file) result }
    ensures written { contents.new.written ≡ contents.old.written }
    ensures fault { IfErr result IsOutside }
    ensures plain { IfErr result IsPlain }
{
    contents.listed = count_blocks(listed);
    match &mut contents.file {
        None => Ok(()),
        Some(file) => space_of(file, alloc, listed),
    }
}

// The listed extents, if they can be read. It fails only where the connection is shut then.
fn list_at_rest<S: Alter>(
    conn: &mut Connection<S>,
    alloc: Global,
) -> Result<Option<Vec<Extent>>, StoreFault>
    ensures alone { LeavesAlone (state S.Store conn.old) (state S.Store conn.new) }
    ensures open { StaysOpen (state S.Store conn.old) (state S.Store conn.new) result }
    ensures listed { HasCleanDisk (state S.Store conn.new) → IfOk result (λ found. IfSome found
        (λ v. ListsExtents (state S.Store conn.old) v.items)) }
    ensures fault { (file : List ℕ) → IsSafe (HeldFor file) (state S.Store conn.old)
        (state S.Store conn.new) result }
    ensures plain { IfErr result IsPlain }
{
    let listed = listed_extents(conn, alloc);
    match go_back(conn) {
        Ok(()) => match listed {
            Ok(listed) => Ok(Some(listed)),
            Err(_) => Ok(None),
        },
        Err(error) => {
            undo(conn);
            match listed {
                Ok(_) => Err(StoreFault::from(error)),
                Err(fault) => Err(fault),
            }
        }
    }
}

// Finds the free space anew. A list that can't be read leaves it as it is.
fn space_anew<S: Alter, D: Disk>(
    conn: &mut Connection<S>,
    contents: &mut Data<D>,
    alloc: Global,
) -> Result<(), StoreFault>
    ensures serves { (known : Option Meta) → ServesStore known known (λ y. y)
        (store_in S.Store D.Disk conn.old contents.old.file)
        (store_in S.Store D.Disk conn.new contents.new.file) result }
    ensures usable { StaysUsable (store_in S.Store D.Disk conn.old contents.old.file)
        (store_in S.Store D.Disk conn.new contents.new.file) result }
    ensures alone { LeavesAlone (state S.Store conn.old) (state S.Store conn.new) }
    ensures open { StaysOpen (state S.Store conn.old) (state S.Store conn.new) result }
    ensures written { contents.new.written ≡ contents.old.written }
    ensures fault { (known : Option Meta) → IsSoundStore known
        (store_in S.Store D.Disk conn.old contents.old.file)
        (store_in S.Store D.Disk conn.new contents.new.file) result }
    ensures plain { IfErr result IsPlain }
{
    match list_at_rest(conn, alloc) {
        Ok(Some(listed)) => set_space(contents, alloc, listed.as_slice()),
        Ok(None) => Ok(()),
        Err(fault) => Err(fault),
    }
}

/// Finds the free space of the data file anew, where too much of it is lost: at rest, before a
/// transaction. What can't be done is left undone until as much is lost again, unless the
/// connection is shut or a sync failed.
pub(crate) fn find_space<S: Alter, D: Disk>(
    conn: &mut Connection<S>,
    contents: &mut Data<D>,
    alloc: Global,
) -> Result<(), StoreFault>
    ensures serves { (known : Option Meta) → ServesStore known known (λ y. y)
        (store_in S.Store D.Disk conn.old contents.old.file)
        (store_in S.Store D.Disk conn.new contents.new.file) result }
    ensures usable { StaysUsable (store_in S.Store D.Disk conn.old contents.old.file)
        (store_in S.Store D.Disk conn.new contents.new.file) result }
    // Nothing is committed, whatever the database.
    ensures nothing { CommitsNothing (state S.Store conn.old) (state S.Store conn.new) }
    // And no transaction is left open where it fails.
    ensures alone { OnErr result (LeavesAlone (state S.Store conn.old) (state S.Store conn.new)) }
    ensures open { StaysOpen (state S.Store conn.old) (state S.Store conn.new) result }
    ensures written { contents.new.written ≡ contents.old.written }
    ensures fault { (known : Option Meta) → IsSoundStore known
        (store_in S.Store D.Disk conn.old contents.old.file)
        (store_in S.Store D.Disk conn.new contents.new.file) result }
    ensures plain { IfErr result IsPlain }
{
    if !is_too_much(contents.lost, contents.listed) {
        return Ok(());
    }
    contents.lost = 0;
    space_anew(conn, contents, alloc)
}
