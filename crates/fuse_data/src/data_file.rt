//! The data file of a store.
ghost use Rattle.std.specs.Prelude.{◌≡◌, ◌↔◌, ◌*◌, ◌≤◌, ℕ, List, length, max, is_ok};
ghost use Rattle.std.specs.Prelude.{IsErr, IfSome, IfOk, IfErr, OnOk, OnErr, IsTrue};
ghost use Rattle.std.specs.Option.{IfNone};
ghost use Rattle.sqlite_disk.specs.Disk.{Follows, Only, StaysFrozen};
ghost use Rattle.fuse_data.specs.declared.extent.Extent.{Extent as AnExtent};
ghost use Rattle.fuse_data.specs.declared.extent.TheConstants as limits;
ghost use Rattle.fuse_data.specs.Extents.{past, bytes_of, sum_of};
ghost use Rattle.fuse_data.specs.Extents.{AreBytes, IsPlaced, AreBlocks, AreByPlace};
ghost use Rattle.fuse_data.specs.Extents.{AreDisjoint, IsWhole};
ghost use Rattle.fuse_data.specs.Space.{AllInUse, IsFreeExtent, IsSpaceOf, InUse, TakesOut};
ghost use Rattle.fuse_data.specs.Space.{PutsIn, IsTail};
ghost use Rattle.fuse_data.specs.Leaving.{KeepsInUse};
ghost use Rattle.fuse_data.specs.Causes.{FailsToAsk, FailsToFit, FailsToWrite, FailsToRead};
ghost use Rattle.fuse_data.specs.Causes.{FailsToGiveBack};
ghost use Rattle.fuse_data.specs.Faults.{IsRefusal, CountsIfErr, CountsFullIfErr};
ghost use Rattle.fuse_data.specs.State.{state_of};

use crate::extent::{BLOCK, END, Extent, MOST, is_placed, sum_of_bytes};
use crate::fault::DataFault;
use crate::space::Space;
use sqlite_disk::Disk;
use std::alloc::Global;

/// A file of extents. Contracts see its state.
#[derive(Drop)]
pub struct DataFile<D: Disk> {
    pub(crate) disk: D,
    pub(crate) space: Space,
}

impl<D: Disk> DataFile<D> {
    /// Writes bytes where no listed extent is. They last once `sync` has returned. After an `Err`
    /// all that was in use is as it was.
    pub fn write(&mut self, bytes: &[u8]) -> Result<Extent, DataFault>
        ensures whole { IfOk result (λ p. IsWhole (state_of D.Disk self.new).seen p) }
        ensures bytes { IfOk result (λ p. bytes_of (state_of D.Disk self.new).seen p ≡ bytes.now) }
        ensures size { IfOk result (λ p. length (state_of D.Disk self.new).seen
            ≡ max (length (state_of D.Disk self.old).seen) (past p * limits.BLOCK)) }
        ensures free { IfOk result (λ p. IsFreeExtent (state_of D.Disk self.old).gaps p) }
        ensures lowest { IfOk result (λ p. (q : AnExtent) → q.count ≡ p.count
            → IsFreeExtent (state_of D.Disk self.old).gaps q → p.place ≤ q.place) }
        ensures taken { IfOk result
            (λ p. TakesOut p (state_of D.Disk self.old).gaps (state_of D.Disk self.new).gaps) }
        ensures in_use { IfOk result (λ p. InUse (state_of D.Disk self.new).gaps p) }
        ensures apart { IfOk result (λ p. (q : AnExtent) → IsPlaced q
            → InUse (state_of D.Disk self.old).gaps q → AreDisjoint p q) }
        ensures others { (q : AnExtent) → InUse (state_of D.Disk self.old).gaps q
            → InUse (state_of D.Disk self.new).gaps q }
        ensures failed { OnErr result ((state_of D.Disk self.new).gaps
            ≡ (state_of D.Disk self.old).gaps) }
        ensures cause { IfErr result (FailsToWrite (state_of D.Disk self.old).is_usable
            (state_of D.Disk self.old).gaps (length bytes.now)) }
        // What the disk isn't asked for stays. No failed write goes on after the place for the bytes.
        ensures refused { IfErr result (λ f. IsRefusal f → self.new.disk ≡ self.old.disk) }
        ensures reach { (q : AnExtent) → IsFreeExtent (state_of D.Disk self.old).gaps q
            → q.count * limits.BLOCK ≡ length bytes.now → length (state_of D.Disk self.new).seen
            ≤ max (length (state_of D.Disk self.old).seen) (past q * limits.BLOCK) }
        ensures asked { OnOk result (IsTrue (state_of D.Disk self.old).is_usable) }
        ensures usable { (state_of D.Disk self.new).is_usable
            ≡ (state_of D.Disk self.old).is_usable }
        ensures clean { (state_of D.Disk self.new).is_clean ≡ (state_of D.Disk self.old).is_clean }
        ensures kept { KeepsInUse (state_of D.Disk self.old).gaps (state_of D.Disk self.old).seen
            (state_of D.Disk self.new).seen }
        ensures crash { Follows (KeepsInUse (state_of D.Disk self.old).gaps)
            (state_of D.Disk self.old).may_leave (state_of D.Disk self.new).may_leave }
        ensures faults { CountsIfErr result (D.Disk.faults self.old.disk)
            (D.Disk.faults self.new.disk) }
        ensures tally { CountsFullIfErr result (D.Disk.tally_of self.old.disk)
            (D.Disk.tally_of self.new.disk) }
        ensures frozen { IsTrue (D.Disk.is_frozen self.old.disk)
            → IsErr result × StaysFrozen D.Disk.seen D.Disk.may_leave D.Disk.is_clean
            D.Disk.is_frozen self.old.disk self.new.disk }
    {
        if !self.disk.may_be_used() {
            return Err(DataFault::Unusable);
        }
        let Some(count) = whole_blocks(bytes.len()) else {
            return Err(DataFault::NotBlocks);
        };
        let Some(i) = self.space.find(count) else {
            return Err(DataFault::Full);
        };
        let place = self.space.begin(i);
        let sum = sum_of_bytes(bytes);
        if let Err(e) = self.disk.write_at(place * BLOCK, bytes) {
            return Err(DataFault::Disk(e));
        }
        let extent = Extent { place, count, sum };
        self.space.take(i, extent);
        Ok(extent)
    }

    /// All that was written before is then in every content that a crash may leave. After an `Err`
    /// of the disk nothing more may be asked of it.
    pub fn sync(&mut self) -> Result<(), DataFault>
        ensures durable { OnOk result
            (Only (state_of D.Disk self.old).seen (state_of D.Disk self.new).may_leave) }
        ensures cause { IfErr result (FailsToAsk (state_of D.Disk self.old).is_usable) }
        ensures asked { OnOk result (IsTrue (state_of D.Disk self.old).is_usable) }
        ensures usable { (state_of D.Disk self.new).is_usable ≡ is_ok result }
        ensures clean { (state_of D.Disk self.new).is_clean ≡ (state_of D.Disk self.old).is_clean }
        ensures seen { (state_of D.Disk self.new).seen ≡ (state_of D.Disk self.old).seen }
        ensures gaps { (state_of D.Disk self.new).gaps ≡ (state_of D.Disk self.old).gaps }
        ensures crash { (c : List ℕ) → (state_of D.Disk self.new).may_leave c
            → (state_of D.Disk self.old).may_leave c }
        ensures faults { CountsIfErr result (D.Disk.faults self.old.disk)
            (D.Disk.faults self.new.disk) }
        ensures tally { CountsFullIfErr result (D.Disk.tally_of self.old.disk)
            (D.Disk.tally_of self.new.disk) }
        ensures frozen { IsTrue (D.Disk.is_frozen self.old.disk)
            → IsErr result × StaysFrozen D.Disk.seen D.Disk.may_leave D.Disk.is_clean
            D.Disk.is_frozen self.old.disk self.new.disk }
    {
        if !self.disk.may_be_used() {
            return Err(DataFault::Unusable);
        }
        if let Err(e) = self.disk.sync() {
            return Err(DataFault::Disk(e));
        }
        Ok(())
    }

    /// Reads a whole extent into a buffer of its length. Other bytes than those that it was made
    /// for are refused.
    pub fn read(&mut self, extent: Extent, buf: &mut [u8]) -> Result<(), DataFault>
        ensures tested { OnOk result (sum_of buf.new ≡ extent.sum) }
        ensures placed { OnOk result (IsPlaced extent) }
        ensures bytes { OnOk result (IsTrue (state_of D.Disk self.new).is_clean
            → buf.new ≡ bytes_of (state_of D.Disk self.old).seen extent) }
        ensures whole { OnOk result (IsTrue (state_of D.Disk self.new).is_clean
            → IsWhole (state_of D.Disk self.old).seen extent) }
        ensures cause { IfErr result (FailsToRead (state_of D.Disk self.old).is_usable
            (state_of D.Disk self.new).is_clean (state_of D.Disk self.old).seen extent
            (length buf.old)) }
        ensures asked { OnOk result (IsTrue (state_of D.Disk self.old).is_usable) }
        ensures usable { (state_of D.Disk self.new).is_usable
            ≡ (state_of D.Disk self.old).is_usable }
        ensures clean { IsTrue (state_of D.Disk self.new).is_clean
            → IsTrue (state_of D.Disk self.old).is_clean }
        ensures seen { (state_of D.Disk self.new).seen ≡ (state_of D.Disk self.old).seen }
        ensures gaps { (state_of D.Disk self.new).gaps ≡ (state_of D.Disk self.old).gaps }
        ensures crash { (c : List ℕ) → (state_of D.Disk self.new).may_leave c
            → (state_of D.Disk self.old).may_leave c }
        ensures faults { CountsIfErr result (D.Disk.faults self.old.disk)
            (D.Disk.faults self.new.disk) }
        ensures tally { D.Disk.tally_of self.new.disk ≡ D.Disk.tally_of self.old.disk }
        ensures frozen { IsTrue (D.Disk.is_frozen self.old.disk)
            → IsErr result × StaysFrozen D.Disk.seen D.Disk.may_leave D.Disk.is_clean
            D.Disk.is_frozen self.old.disk self.new.disk }
    {
        if !self.disk.may_be_used() {
            return Err(DataFault::Unusable);
        }
        if !is_placed(extent) {
            return Err(DataFault::Damaged(extent));
        }
        if buf.len() != extent.count * BLOCK {
            return Err(DataFault::NotBlocks);
        }
        let len = match self.disk.len() {
            Ok(len) => len,
            Err(e) => return Err(DataFault::Disk(e)),
        };
        if len < (extent.place + extent.count) * BLOCK {
            return Err(DataFault::Damaged(extent));
        }
        if let Err(e) = self.disk.read_at(extent.place * BLOCK, buf) {
            return Err(DataFault::Disk(e));
        }
        law_of_bytes(buf);
        if sum_of_bytes(buf) != extent.sum {
            return Err(DataFault::Damaged(extent));
        }
        Ok(())
    }

    /// Whether an extent is wholly in use. A row may say anything.
    pub fn has(&self, extent: Extent) -> bool
        ensures { IsTrue result ↔ (IsPlaced extent × InUse (state_of D.Disk self.now).gaps extent) }
    {
        is_placed(extent) && self.space.has(extent)
    }

    /// Makes exactly the blocks that these extents don't have free, where all that may be listed
    /// after a crash is among them. They are in order of place. After an `Err` nothing has changed.
    pub fn relist(&mut self, alloc: Global, listed: &[Extent]) -> Result<(), DataFault>
        ensures disk { self.new.disk ≡ self.old.disk }
        ensures space { OnOk result (IsSpaceOf listed.now (state_of D.Disk self.new).gaps) }
        ensures in_use { OnOk result (AllInUse (state_of D.Disk self.new).gaps listed.now) }
        ensures by_place { OnOk result (AreByPlace 1 listed.now) }
        ensures failed { OnErr result (self.new.space ≡ self.old.space) }
        ensures cause { IfErr result (FailsToFit listed.now limits.END) }
    {
        self.space = Space::of(alloc, END, listed)?;
        Ok(())
    }

    /// Frees the blocks of an extent that no committed transaction lists any more: an old one after
    /// the commit that took it off the list, a new one after a commit that failed, where the
    /// connection is open. One that isn't wholly in use is refused, and nothing changes.
    pub fn give_back(&mut self, extent: Extent) -> Result<(), DataFault>
        ensures disk { self.new.disk ≡ self.old.disk }
        ensures freed { OnOk result (PutsIn extent (state_of D.Disk self.old).gaps
            (state_of D.Disk self.new).gaps) }
        ensures in_use { OnOk result (IsPlaced extent × InUse (state_of D.Disk self.old).gaps
            extent) }
        ensures others { (q : AnExtent) → InUse (state_of D.Disk self.old).gaps q
            → AreDisjoint extent q → InUse (state_of D.Disk self.new).gaps q }
        ensures failed { OnErr result (self.new.space ≡ self.old.space) }
        ensures cause { IfErr result (FailsToGiveBack (state_of D.Disk self.old).gaps extent) }
    {
        self.space.give_back(extent)?;
        Ok(())
    }

    /// Cuts the file after the last block in use.
    pub fn cut(&mut self) -> Result<(), DataFault>
        ensures cut { OnOk result ((tail : ℕ) → IsTail (state_of D.Disk self.old).gaps tail
            → length (state_of D.Disk self.new).seen ≡ tail * limits.BLOCK) }
        ensures refused { IfErr result (λ f. IsRefusal f → self.new.disk ≡ self.old.disk) }
        ensures longest { (tail : ℕ) → IsTail (state_of D.Disk self.old).gaps tail
            → length (state_of D.Disk self.new).seen
            ≤ max (length (state_of D.Disk self.old).seen) (tail * limits.BLOCK) }
        ensures cause { IfErr result (FailsToAsk (state_of D.Disk self.old).is_usable) }
        ensures asked { OnOk result (IsTrue (state_of D.Disk self.old).is_usable) }
        ensures usable { (state_of D.Disk self.new).is_usable
            ≡ (state_of D.Disk self.old).is_usable }
        ensures clean { (state_of D.Disk self.new).is_clean ≡ (state_of D.Disk self.old).is_clean }
        ensures gaps { (state_of D.Disk self.new).gaps ≡ (state_of D.Disk self.old).gaps }
        ensures kept { KeepsInUse (state_of D.Disk self.old).gaps (state_of D.Disk self.old).seen
            (state_of D.Disk self.new).seen }
        ensures crash { Follows (KeepsInUse (state_of D.Disk self.old).gaps)
            (state_of D.Disk self.old).may_leave (state_of D.Disk self.new).may_leave }
        ensures faults { CountsIfErr result (D.Disk.faults self.old.disk)
            (D.Disk.faults self.new.disk) }
        ensures tally { CountsFullIfErr result (D.Disk.tally_of self.old.disk)
            (D.Disk.tally_of self.new.disk) }
        ensures frozen { IsTrue (D.Disk.is_frozen self.old.disk)
            → IsErr result × StaysFrozen D.Disk.seen D.Disk.may_leave D.Disk.is_clean
            D.Disk.is_frozen self.old.disk self.new.disk }
    {
        if !self.disk.may_be_used() {
            return Err(DataFault::Unusable);
        }
        let from = self.space.tail();
        if let Err(e) = self.disk.set_len(from * BLOCK) {
            return Err(DataFault::Disk(e));
        }
        Ok(())
    }
}

// How many blocks so many bytes are, where an extent can have so many.
fn whole_blocks(len: usize) -> Option<usize>
    ensures some { IfSome result (λ n. (1 ≤ n) × (n ≤ limits.MOST) × (len ≡ n * limits.BLOCK)) }
    ensures none { IfNone result (¬ AreBlocks len) }
{
    let n = len / BLOCK;
    if n >= 1 && n <= MOST && len == n * BLOCK {
        return Some(n);
    }
    None
}

// What a slice of bytes has is below 256.
fn law_of_bytes(bytes: &[u8])
    ensures { AreBytes bytes.now }
{
    let _ = bytes;
}
