//! How a data file is made, opened and closed.
ghost use Rattle.std.specs.Prelude.{◌≡◌, ◌↔◌, ◌*◌, ◌≤◌, ℕ, List, []};
ghost use Rattle.std.specs.Prelude.{length, false, IfOk, IfErr, OnOk, IsTrue, IsErr, IsErrAnd, MatchResult};
ghost use Rattle.std.specs.List.{All};
ghost use Rattle.sqlite_disk.specs.Disk.{Follows, Only, StaysFrozen, Torn};
ghost use Rattle.fuse_data.specs.declared.extent.TheConstants as limits;
ghost use Rattle.fuse_data.specs.Extents.{past, AreByPlace};
ghost use Rattle.fuse_data.specs.Space.{AllInUse, IsSpaceOf};
ghost use Rattle.fuse_data.specs.Header.{HasHeader, header_of};
ghost use Rattle.fuse_data.specs.Causes.{FailsToCreate, FailsToOpen};
ghost use Rattle.fuse_data.specs.Faults.{CountsFault, CountsIfErr, CountsDiskFull, CountsFullIfErr};
ghost use Rattle.fuse_data.specs.State.{state_of};

use crate::data_file::DataFile;
use crate::extent::{BLOCK, Extent};
use crate::fault::DataFault;
use crate::header::header_bytes;
use crate::space::Space;
use sqlite_disk::Disk;
use std::alloc::Global;

impl<D: Disk> DataFile<D> {
    /// A new data file of the store with this number, over whatever the file held. An `Err` hands
    /// the disk back.
    pub fn create(alloc: Global, mut disk: D, store: u64) -> Result<DataFile<D>, (DataFault, D)>
        ensures header { IfOk result (λ f. HasHeader store (state_of D.Disk f).seen) }
        ensures durable { IfOk result
            (λ f. Only (state_of D.Disk f).seen (state_of D.Disk f).may_leave) }
        ensures space { IfOk result (λ f. IsSpaceOf [] (state_of D.Disk f).gaps) }
        ensures cause { IfErr result (λ left. FailsToCreate (D.Disk.is_usable disk) left.0) }
        ensures asked { OnOk result (IsTrue (D.Disk.is_usable disk)) }
        ensures usable { IfOk result (λ f. IsTrue (state_of D.Disk f).is_usable) }
        ensures clean { MatchResult result
            (λ f. (state_of D.Disk f).is_clean ≡ D.Disk.is_clean disk)
            (λ left. D.Disk.is_clean left.1 ≡ D.Disk.is_clean disk) }
        ensures others { MatchResult result
            (λ f. Torn 0 (length (header_of store)) (D.Disk.seen disk) (state_of D.Disk f).seen)
            (λ left. Torn 0 (length (header_of store)) (D.Disk.seen disk) (D.Disk.seen left.1)) }
        ensures crash { IfErr result
            (λ left. Follows (Torn 0 (length (header_of store))) (D.Disk.may_leave disk)
            (D.Disk.may_leave left.1)) }
        ensures faults { MatchResult result (λ f. D.Disk.faults f.disk ≡ D.Disk.faults disk)
            (λ left. CountsFault left.0 (D.Disk.faults disk) (D.Disk.faults left.1)) }
        ensures tally { MatchResult result (λ f. D.Disk.tally_of f.disk ≡ D.Disk.tally_of disk)
            (λ left. CountsDiskFull left.0 (D.Disk.tally_of disk) (D.Disk.tally_of left.1)) }
        ensures frozen { IsTrue (D.Disk.is_frozen disk) → IsErrAnd result
            (λ left. StaysFrozen D.Disk.seen D.Disk.may_leave D.Disk.is_clean D.Disk.is_frozen disk
            left.1) }
    {
        match write_header(alloc, &mut disk, store) {
            Ok(space) => Ok(DataFile { disk, space }),
            Err(fault) => Err((fault, disk)),
        }
    }

    /// The data file of the store with this number, whose tables list these extents, in order of
    /// place. An `Err` hands the disk back.
    pub fn open(
        alloc: Global,
        mut disk: D,
        store: u64,
        listed: &[Extent],
    ) -> Result<DataFile<D>, (DataFault, D)>
        ensures header { IfOk result (λ f. IsTrue (state_of D.Disk f).is_clean
            → HasHeader store (state_of D.Disk f).seen) }
        ensures space { IfOk result (λ f. IsSpaceOf listed.now (state_of D.Disk f).gaps) }
        ensures in_use { IfOk result (λ f. AllInUse (state_of D.Disk f).gaps listed.now) }
        ensures by_place { OnOk result (AreByPlace 1 listed.now) }
        ensures within { IfOk result (λ f. IsTrue (state_of D.Disk f).is_clean
            → All (λ p. past p * limits.BLOCK ≤ length (state_of D.Disk f).seen) listed.now) }
        ensures cause { IfErr result
            (λ left. FailsToOpen (D.Disk.is_usable disk) (D.Disk.is_clean left.1) (D.Disk.seen disk)
            store listed.now left.0) }
        ensures usable { MatchResult result (λ f. IsTrue (state_of D.Disk f).is_usable)
            (λ left. D.Disk.is_usable left.1 ≡ D.Disk.is_usable disk) }
        ensures asked { OnOk result (IsTrue (D.Disk.is_usable disk)) }
        ensures seen { MatchResult result (λ f. (state_of D.Disk f).seen ≡ D.Disk.seen disk)
            (λ left. D.Disk.seen left.1 ≡ D.Disk.seen disk) }
        ensures crash { MatchResult result (λ f. (c : List ℕ) → (state_of D.Disk f).may_leave c
            → D.Disk.may_leave disk c) (λ left. (c : List ℕ) → D.Disk.may_leave left.1 c
            → D.Disk.may_leave disk c) }
        ensures clean { MatchResult result (λ f. IsTrue (state_of D.Disk f).is_clean
            → IsTrue (D.Disk.is_clean disk)) (λ left. IsTrue (D.Disk.is_clean left.1)
            → IsTrue (D.Disk.is_clean disk)) }
        ensures faults { MatchResult result (λ f. D.Disk.faults f.disk ≡ D.Disk.faults disk)
            (λ left. CountsFault left.0 (D.Disk.faults disk) (D.Disk.faults left.1)) }
        ensures tally { MatchResult result (λ f. D.Disk.tally_of f.disk ≡ D.Disk.tally_of disk)
            (λ left. D.Disk.tally_of left.1 ≡ D.Disk.tally_of disk) }
        ensures frozen { IsTrue (D.Disk.is_frozen disk) → IsErrAnd result
            (λ left. StaysFrozen D.Disk.seen D.Disk.may_leave D.Disk.is_clean D.Disk.is_frozen disk
            left.1) }
    {
        match read_space(alloc, &mut disk, store, listed) {
            Ok(space) => Ok(DataFile { disk, space }),
            Err(refusal) => Err((refusal, disk)),
        }
    }

    /// The disk, as it is. Nothing is synced.
    pub fn into_disk(self) -> D
        ensures { result ≡ self.disk }
    {
        self.disk
    }
}

fn write_header<D: Disk>(alloc: Global, disk: &mut D, store: u64) -> Result<Space, DataFault>
    ensures header { OnOk result (HasHeader store (D.Disk.seen disk.new)) }
    ensures durable { OnOk result (Only (D.Disk.seen disk.new) (D.Disk.may_leave disk.new)) }
    ensures space { IfOk result (λ s. IsSpaceOf [] s) }
    ensures cause { IfErr result (FailsToCreate (D.Disk.is_usable disk.old)) }
    ensures asked { OnOk result (IsTrue (D.Disk.is_usable disk.old)) }
    ensures usable { OnOk result (IsTrue (D.Disk.is_usable disk.new)) }
    ensures clean { D.Disk.is_clean disk.new ≡ D.Disk.is_clean disk.old }
    ensures others { Torn 0 (length (header_of store)) (D.Disk.seen disk.old)
        (D.Disk.seen disk.new) }
    ensures crash { Follows (Torn 0 (length (header_of store))) (D.Disk.may_leave disk.old)
        (D.Disk.may_leave disk.new) }
    ensures faults { CountsIfErr result (D.Disk.faults disk.old) (D.Disk.faults disk.new) }
    ensures tally { CountsFullIfErr result (D.Disk.tally_of disk.old) (D.Disk.tally_of disk.new) }
    ensures frozen { IsTrue (D.Disk.is_frozen disk.old) → IsErr result × StaysFrozen D.Disk.seen
        D.Disk.may_leave D.Disk.is_clean D.Disk.is_frozen disk.old disk.new }
{
    if !disk.may_be_used() {
        return Err(DataFault::Unusable);
    }
    let space = Space::of(alloc, 0, &[])?;
    let header = header_bytes(alloc, store)?;
    if let Err(e) = disk.write_at(0, header.as_slice()) {
        return Err(DataFault::Disk(e));
    }
    if let Err(e) = disk.sync() {
        return Err(DataFault::Disk(e));
    }
    Ok(space)
}

fn read_space<D: Disk>(
    alloc: Global,
    disk: &mut D,
    store: u64,
    listed: &[Extent],
) -> Result<Space, DataFault>
    ensures header { OnOk result (IsTrue (D.Disk.is_clean disk.new)
        → HasHeader store (D.Disk.seen disk.old)) }
    ensures space { IfOk result (λ s. IsSpaceOf listed.now s) }
    ensures by_place { OnOk result (AreByPlace 1 listed.now) }
    ensures within { OnOk result (IsTrue (D.Disk.is_clean disk.new)
        → All (λ p. past p * limits.BLOCK ≤ length (D.Disk.seen disk.old)) listed.now) }
    ensures cause { IfErr result (FailsToOpen (D.Disk.is_usable disk.old) (D.Disk.is_clean disk.new)
        (D.Disk.seen disk.old) store listed.now) }
    ensures asked { OnOk result (IsTrue (D.Disk.is_usable disk.old)) }
    ensures usable { D.Disk.is_usable disk.new ≡ D.Disk.is_usable disk.old }
    ensures seen { D.Disk.seen disk.new ≡ D.Disk.seen disk.old }
    ensures crash { (c : List ℕ) → D.Disk.may_leave disk.new c → D.Disk.may_leave disk.old c }
    ensures clean { IsTrue (D.Disk.is_clean disk.new) → IsTrue (D.Disk.is_clean disk.old) }
    ensures faults { CountsIfErr result (D.Disk.faults disk.old) (D.Disk.faults disk.new) }
    ensures tally { D.Disk.tally_of disk.new ≡ D.Disk.tally_of disk.old }
    ensures frozen { IsTrue (D.Disk.is_frozen disk.old) → IsErr result × StaysFrozen D.Disk.seen
        D.Disk.may_leave D.Disk.is_clean D.Disk.is_frozen disk.old disk.new }
{
    if !disk.may_be_used() {
        return Err(DataFault::Unusable);
    }
    let header = header_bytes(alloc, store)?;
    let len = match disk.len() {
        Ok(len) => len,
        Err(e) => return Err(DataFault::Disk(e)),
    };
    if len < header.len() {
        return Err(DataFault::Foreign);
    }
    let mut found = [0; 32];
    if let Err(e) = disk.read_at(0, &mut found) {
        return Err(DataFault::Disk(e));
    }
    if !are_same(&found, header.as_slice()) {
        return Err(DataFault::Foreign);
    }
    let space = Space::of(alloc, len / BLOCK, listed)?;
    Ok(space)
}

fn are_same(a: &[u8], b: &[u8]) -> bool
    ensures { IsTrue result ↔ (a.now ≡ b.now) }
{
    a == b
}
