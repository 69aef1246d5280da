// The data file of a store, with what was written to it for a transaction.
ghost use Rattle.std.specs.Prelude.{◌≡◌, ◌≢◌, ◌*◌, true, false, [], length};
ghost use Rattle.std.specs.Prelude.{IsTrue, IfOk, IfErr, OnOk};
ghost use Rattle.fuse_data.specs.Extents.{IsPlaced, IsWhole, AreBlocks, bytes_of, sum_of};
ghost use Rattle.fuse_rows.specs.Bounds.{block_bytes};
ghost use Rattle.fuse_store_tree.specs.Pieces.{ReadsData};
ghost use Rattle.fuse_data.specs.Space.{InUse};
ghost use Rattle.fuse_data.specs.State.{state_of, state_in};
ghost use Rattle.sqlite_disk.specs.Disk.{Only};
ghost use Rattle.fuse_store_tables.specs.Faults.{IsOutside, IsPlain};
ghost use Rattle.fuse_store_tree.specs.inner.Preparing.{Finds, HidesNone};
ghost use Rattle.fuse_store_tree.specs.inner.Preparing.{IsAside, ShareNone, SyncsData};
ghost use Rattle.fuse_store_tree.specs.inner.Preparing.{SyncsOnce, WritesAside};

use crate::contents::{Contents, store_fault};
use fuse_data::{BLOCK, DataFile, Extent, is_placed};
use fuse_keeper::StoreFault;
use sqlite_disk::Disk;
use std::alloc::Global;

/// An extent that was written for a transaction.
#[derive(Clone, Copy)]
pub struct Written {
    pub extent: Extent,
    /// Rows may list it.
    pub listed: bool,
}

/// The data file of a store. A plain store has none.
#[derive(Drop)]
pub struct Data<D: Disk> {
    pub file: Option<DataFile<D>>,
    /// What was written for the transaction that is open, or that comes next.
    pub written: Vec<Written>,
    /// So many blocks were taken off the list, or written and not listed, since the free space was
    /// found.
    pub lost: u64,
    /// So many blocks were listed then.
    pub listed: u64,
    /// At most so many rows `blocks` has.
    pub rows: u64,
    /// Bytes may have been written to move rows, within the transaction.
    pub moved: bool,
}

// Whether two extents share no block. The first one can be in a data file.
fn are_apart(extent: Extent, other: Extent) -> bool
    requires { IsPlaced extent }
    ensures apart { result ≡ true → ShareNone extent other }
    ensures meets { result ≡ false → ¬ ShareNone extent other }
{
    if extent.place < other.place {
        return other.count == 0 || extent.place + extent.count <= other.place;
    }
    extent.place - other.place >= other.count
}

// Whether an extent shares no block with those that aren't listed yet, but for one of them.
fn is_apart_but(written: &[Written], but: usize, extent: Extent) -> bool
    requires { IsPlaced extent }
    ensures some { result ≡ true → HidesNone written.now but extent }
    ensures none { result ≡ false → ¬ HidesNone written.now but extent }
{
    let mut i = 0;
    while i < written.len() {
        let other = written[i];
        if i != but && !other.listed && !are_apart(extent, other.extent) {
            return false;
        }
        i += 1;
    }
    true
}

// Where an extent is among those that aren't listed yet, or else how many there are in all.
fn place_of(written: &[Written], extent: Extent) -> usize
    ensures { Finds written.now extent result }
{
    let mut i = 0;
    while i < written.len() {
        let other = written[i];
        if !other.listed && other.extent == extent {
            return i;
        }
        i += 1;
    }
    i
}

// Whether rows may list an extent, or may once this one of those that were written is listed.
fn shows<D: Disk>(file: &DataFile<D>, written: &[Written], but: usize, extent: Extent) -> bool
    ensures shown { result ≡ true → IsPlaced extent
        × InUse (state_of D.Disk file.now).gaps extent × HidesNone written.now but extent }
    ensures hidden { result ≡ false → IsPlaced extent
        → InUse (state_of D.Disk file.now).gaps extent → ¬ HidesNone written.now but extent }
{
    file.has(extent) && is_apart_but(written, but, extent)
}

// The bytes of an extent, which have its digest.
fn read_whole<D: Disk>(
    file: &mut DataFile<D>,
    alloc: Global,
    extent: Extent,
) -> Result<Vec<u8>, StoreFault>
    requires { IsPlaced extent }
    ensures reads { ReadsData (state_of D.Disk file.old) (state_of D.Disk file.new) }
    ensures tested { IfOk result (λ v. sum_of v.items ≡ extent.sum) }
    ensures long { IfOk result (λ v. length v.items ≡ extent.count * block_bytes) }
    ensures bytes { IsTrue (state_of D.Disk file.new).is_clean → IfOk result (λ v.
        v.items ≡ bytes_of (state_of D.Disk file.new).seen extent) }
    ensures whole { IsTrue (state_of D.Disk file.new).is_clean → OnOk result (IsWhole
        (state_of D.Disk file.new).seen extent) }
    ensures fault { IsTrue (state_of D.Disk file.new).is_clean
        → IsWhole (state_of D.Disk file.new).seen extent → IfErr result IsOutside }
    ensures plain { IfErr result IsPlain }
{
    let mut bytes = Vec::new(alloc);
    bytes.resize(extent.count * BLOCK, 0)?;
    match file.read(extent, bytes.as_mut_slice()) {
        Ok(()) => Ok(bytes),
        Err(fault) => Err(store_fault(fault)),
    }
}

/// Writes bytes into free space, where rows may list them once `list` has said so.
pub(crate) fn write_aside<D: Disk>(
    file: &mut DataFile<D>,
    written: &mut Vec<Written>,
    bytes: &[u8],
) -> Result<Extent, StoreFault>
    requires { AreBlocks (length bytes.now) }
    ensures aside { WritesAside (state_of D.Disk file.old) (state_of D.Disk file.new)
        written.old.items written.new.items }
    ensures written { IfOk result (λ e. IsAside (state_of D.Disk file.new) written.new.items e
        bytes.now) }
    ensures more { OnOk result (written.new.items ≢ []) }
    ensures fault { IfErr result IsOutside }
    ensures plain { IfErr result IsPlain }
{
    let extent = match file.write(bytes) {
        Ok(extent) => extent,
        Err(fault) => return Err(store_fault(fault)),
    };
    written.push(Written {
        extent,
        listed: false,
    })?;
    Ok(extent)
}

// How many blocks were written.
fn count_written(written: &[Written]) -> u64 {
    let mut sum: u64 = 0;
    for one in written {
        sum = sum.saturating_add(one.extent.count as u64);
    }
    sum
}

impl<D: Disk> Data<D> {
    /// Nothing is written yet. Allocates nothing.
    pub fn new(alloc: Global, file: Option<DataFile<D>>) -> Data<D>
        ensures file { result.file ≡ file }
        ensures written { result.written.items ≡ [] }
    {
        Data {
            file,
            written: Vec::new(alloc),
            lost: 0,
            listed: 0,
            rows: u64::MAX,
            moved: false,
        }
    }

    /// Whether anything was written for the transaction.
    pub(crate) fn has_written(&self) -> bool
        ensures { result ≡ false → self.now.written.items ≡ [] }
    {
        let written = self.written.as_slice();
        written.len() > 0
    }

    /// Syncs what was written, if so: it then lasts.
    pub(crate) fn sync_if(&mut self, wrote: bool) -> Result<(), StoreFault>
        ensures synced { OnOk result (wrote ≡ true → Only (state_in D.Disk self.new.file).seen
            (state_in D.Disk self.new.file).may_leave) }
        ensures lasts { wrote ≡ true → IsTrue (state_in D.Disk self.new.file).is_usable
            → Only (state_in D.Disk self.new.file).seen
            (state_in D.Disk self.new.file).may_leave }
        ensures contents { SyncsData (state_in D.Disk self.old.file)
            (state_in D.Disk self.new.file) result }
        ensures written { self.new.written.items ≡ self.old.written.items }
        ensures fault { IfErr result IsOutside }
        ensures plain { IfErr result IsPlain }
    {
        if !wrote {
            return Ok(());
        }
        match &mut self.file {
            None => Ok(()),
            Some(file) => match file.sync() {
                Ok(()) => Ok(()),
                Err(fault) => Err(store_fault(fault)),
            },
        }
    }

    /// Syncs whatever may have been written, which is lost until the free space is found anew. Where
    /// that fails, nothing more may be asked of it.
    pub(crate) fn settle(&mut self)
        ensures synced { IsTrue (state_in D.Disk self.new.file).is_usable
            → Only (state_in D.Disk self.new.file).seen (state_in D.Disk self.new.file).may_leave }
        ensures contents { SyncsOnce (state_in D.Disk self.old.file)
            (state_in D.Disk self.new.file) }
    {
        let _ = self.sync_if(true);
        self.lost = self
            .lost
            .saturating_add(count_written(self.written.as_slice()));
        self.written.clear();
    }
}

impl<D: Disk> Contents for Data<D> {
    ghost use Rattle.fuse_store_tree.specs.Viewing.{view_in};

    ghost file = { λ k. view_in D.Disk k };

    fn read(&mut self, alloc: Global, extent: Extent) -> Result<Vec<u8>, StoreFault> {
        let Some(file) = &mut self.file else {
            return Err(StoreFault::Damaged);
        };
        let written = self.written.as_slice();
        if !shows(file, written, written.len(), extent) {
            return Err(StoreFault::Damaged);
        }
        match read_whole(file, alloc, extent) {
            Ok(bytes) => Ok(bytes),
            Err(fault) => Err(fault),
        }
    }

    fn list(&mut self, extent: Extent) -> bool {
        let Some(file) = &self.file else {
            return false;
        };
        let written = self.written.as_slice();
        let i = place_of(written, extent);
        if i == written.len() || !shows(file, written, i, extent) {
            return false;
        }
        self.written[i] = Written {
            extent,
            listed: true,
        };
        true
    }
}
