//! The data file of a guest's store, over transactions.
ghost use Rattle.std.specs.Prelude.{◌≡◌, ◌⊎◌, ◌++◌, ◌*◌, ◌-◌, [], length, replicate, List};
ghost use Rattle.std.specs.Prelude.{IsTrue, IfOk, IfErr, OnOk, OnErr};
ghost use Rattle.std.specs.List.Sorted.{IsPermutation};
ghost use Rattle.fuse_data.specs.declared.extent.Extent.{Extent as AnExtent};
ghost use Rattle.fuse_data.specs.declared.extent.TheConstants as limits;
ghost use Rattle.fuse_data.specs.Space.{IsSpaceOf};
ghost use Rattle.fuse_data.specs.State.{state_of};
ghost use Rattle.fuse_data.specs.Leaving.{AreSafe};
ghost use Rattle.fuse_data.specs.Causes.{FailsToAsk, FailsToFit};
ghost use Rattle.guest_values.specs.Causes.{FailsToPut, FailsToGet};
ghost use Rattle.guest_values.specs.Serving.{ServesPieces, RestsOn, values_of};
ghost use Rattle.guest_values.specs.State.{GivesBack, HasWritten, IsSameFile, KeepsUsed, OnlyReadsFile};
ghost use Rattle.guest_values.specs.Values.{AreTested, IsFitValue, IsLarge, IsStoredValue};
ghost use Rattle.guest_values.specs.Values.{value_blocks, padded_in, value_pieces, value_in};

use crate::giving_back::give_back_all;
use crate::large_value::LargeValue;
use crate::listing::add_pieces;
use crate::reading::read_value;
use crate::writing::write_value;
use fuse_data::{DataFault, DataFile, Extent};
use sqlite_disk::Disk;
use std::alloc::{AllocError, Global};

/// A data file, with the pieces that the open transaction put and took away. Contracts see its
/// state.
#[derive(Drop)]
pub struct ValueFile<D: Disk> {
    pub(crate) file: DataFile<D>,
    // Written since the last commit.
    pub(crate) put: Vec<Extent>,
    // Listed since the last commit, and listed no more.
    pub(crate) gone: Vec<Extent>,
}

impl<D: Disk> ValueFile<D> {
    /// No transaction is open. Allocates nothing.
    pub fn new(alloc: Global, file: DataFile<D>) -> ValueFile<D>
        ensures contents { IsSameFile (state_of D.Disk file) (values_of D.Disk result).contents }
        ensures put { (values_of D.Disk result).put ≡ [] }
        ensures gone { (values_of D.Disk result).gone ≡ [] }
    {
        ValueFile {
            file,
            put: Vec::new(alloc),
            gone: Vec::new(alloc),
        }
    }

    /// Writes a large value, which rows may list then.
    pub fn put(&mut self, alloc: Global, bytes: &[u8]) -> Result<LargeValue, DataFault>
        requires { IsLarge (length bytes.now) }
        ensures keeps { KeepsUsed (values_of D.Disk self.old).contents
            (values_of D.Disk self.new).contents }
        ensures fit { IfOk result IsFitValue }
        ensures written { IfOk result (λ v. HasWritten (value_pieces v)
            (values_of D.Disk self.old).contents (values_of D.Disk self.new).contents) }
        ensures len { IfOk result (λ v. v.len ≡ length bytes.now) }
        ensures bytes { IfOk result (λ v. value_in (values_of D.Disk self.new).contents.seen v
            ≡ bytes.now) }
        ensures zeros { IfOk result (λ v. padded_in (values_of D.Disk self.new).contents.seen v
            ≡ bytes.now ++ replicate (value_blocks (length bytes.now) * limits.BLOCK
            - length bytes.now) 0) }
        ensures ok { IfOk result (λ v. (committed now : List AnExtent)
            → ServesPieces committed now (values_of D.Disk self.old)
            → ServesPieces committed (value_pieces v ++ now) (values_of D.Disk self.new)) }
        ensures err { OnErr result ((committed now : List AnExtent)
            → ServesPieces committed now (values_of D.Disk self.old)
            → ServesPieces committed now (values_of D.Disk self.new)) }
        ensures cause { IfErr result (FailsToPut (values_of D.Disk self.old).contents.is_usable
            (values_of D.Disk self.old).contents.gaps (value_blocks (length bytes.now))) }
    {
        let value = match write_value(alloc, &mut self.file, bytes) {
            Ok(value) => value,
            Err(fault) => return Err(fault),
        };
        match add_pieces(&mut self.put, value) {
            Ok(()) => Ok(value),
            Err(_) => Err(DataFault::Memory),
        }
    }

    /// The bytes of a value, which have the digests of its pieces. A row may say anything.
    pub fn read(&mut self, alloc: Global, value: LargeValue) -> Result<Vec<u8>, DataFault>
        ensures reads { OnlyReadsFile (values_of D.Disk self.old).contents
            (values_of D.Disk self.new).contents }
        // Whatever the disk answers.
        ensures tested { IfOk result (λ v. AreTested value v.items) }
        ensures fit { OnOk result (IsFitValue value) }
        ensures bytes { IfOk result (λ v. IsTrue (values_of D.Disk self.new).contents.is_clean
            → v.items ≡ value_in (values_of D.Disk self.old).contents.seen value) }
        ensures stored { OnOk result (IsTrue (values_of D.Disk self.new).contents.is_clean
            → IsStoredValue (values_of D.Disk self.old).contents.seen value) }
        ensures serves { (committed now : List AnExtent)
            → ServesPieces committed now (values_of D.Disk self.old)
            → ServesPieces committed now (values_of D.Disk self.new) }
        ensures rests { (listed : List AnExtent) → RestsOn listed (values_of D.Disk self.old)
            → RestsOn listed (values_of D.Disk self.new) }
        ensures cause { IfErr result (FailsToGet (values_of D.Disk self.old).contents.is_usable
            (values_of D.Disk self.new).contents.is_clean
            (values_of D.Disk self.old).contents.seen value) }
    {
        read_value(alloc, &mut self.file, value)
    }

    /// Notes a value that rows list no more. Its blocks stay in use until `settle`.
    pub fn take_away(&mut self, value: LargeValue) -> Result<(), AllocError>
        ensures contents { IsSameFile (values_of D.Disk self.old).contents
            (values_of D.Disk self.new).contents }
        ensures ok { OnOk result ((committed now : List AnExtent)
            → ServesPieces committed (value_pieces value ++ now) (values_of D.Disk self.old)
            → ServesPieces committed now (values_of D.Disk self.new)) }
        ensures err { OnErr result ((committed now : List AnExtent)
            → ServesPieces committed now (values_of D.Disk self.old)
            → ServesPieces committed now (values_of D.Disk self.new)) }
    {
        add_pieces(&mut self.gone, value)
    }

    /// Before a commit: whatever a crash leaves has what rows list then. After an `Err` of the disk
    /// nothing more may be asked of it.
    pub fn sync(&mut self) -> Result<(), DataFault>
        ensures safe { OnOk result ((committed now : List AnExtent)
            → ServesPieces committed now (values_of D.Disk self.old)
            → AreSafe now (values_of D.Disk self.new).contents.may_leave) }
        ensures serves { (committed now : List AnExtent)
            → ServesPieces committed now (values_of D.Disk self.old)
            → ServesPieces committed now (values_of D.Disk self.new) }
        ensures seen { (values_of D.Disk self.new).contents.seen
            ≡ (values_of D.Disk self.old).contents.seen }
        ensures clean { (values_of D.Disk self.new).contents.is_clean
            ≡ (values_of D.Disk self.old).contents.is_clean }
        ensures usable { OnOk result ((values_of D.Disk self.new).contents.is_usable
            ≡ (values_of D.Disk self.old).contents.is_usable) }
        ensures cause { IfErr result (FailsToAsk
            (values_of D.Disk self.old).contents.is_usable) }
    {
        if self.put.as_slice().is_empty() {
            return Ok(());
        }
        self.file.sync()
    }

    /// After a commit: the blocks of what was taken away are free. `false` says that some stay in
    /// use until the free space is found anew, if memory ran out.
    pub fn settle(&mut self) -> bool
        ensures rests { (committed now : List AnExtent)
            → ServesPieces committed now (values_of D.Disk self.old)
            → AreSafe now (values_of D.Disk self.old).contents.may_leave
            → RestsOn now (values_of D.Disk self.new) }
        ensures frees { GivesBack (values_of D.Disk self.old).gone result
            (values_of D.Disk self.old).contents (values_of D.Disk self.new).contents }
    {
        let all = give_back_all(&mut self.file, self.gone.as_slice());
        self.put.clear();
        self.gone.clear();
        all
    }

    /// After a rollback: the blocks of what was put are free. `false` as for `settle`.
    pub fn take_back(&mut self) -> bool
        ensures rests { (committed now : List AnExtent)
            → ServesPieces committed now (values_of D.Disk self.old)
            → RestsOn committed (values_of D.Disk self.new) }
        ensures frees { GivesBack (values_of D.Disk self.old).put result
            (values_of D.Disk self.old).contents (values_of D.Disk self.new).contents }
    {
        let all = give_back_all(&mut self.file, self.put.as_slice());
        self.put.clear();
        self.gone.clear();
        all
    }

    /// At rest: makes exactly the blocks free that these pieces don't have, in order of place, and
    /// cuts the file where its end is free.
    pub fn find_space(&mut self, alloc: Global, listed: &[Extent]) -> Result<(), DataFault>
        ensures rests { (now : List AnExtent) → RestsOn now (values_of D.Disk self.old)
            → IsPermutation now listed.now → RestsOn now (values_of D.Disk self.new) }
        ensures space { OnOk result (IsSpaceOf listed.now
            (values_of D.Disk self.new).contents.gaps) }
        ensures clean { (values_of D.Disk self.new).contents.is_clean
            ≡ (values_of D.Disk self.old).contents.is_clean }
        ensures usable { (values_of D.Disk self.new).contents.is_usable
            ≡ (values_of D.Disk self.old).contents.is_usable }
        ensures cause { IfErr result (λ f. FailsToFit listed.now limits.END f
            ⊎ FailsToAsk (values_of D.Disk self.old).contents.is_usable f) }
    {
        match self.file.relist(alloc, listed) {
            Ok(()) => {}
            Err(fault) => return Err(fault),
        }
        self.file.cut()
    }

    /// The data file, as it is.
    pub fn into_file(self) -> DataFile<D>
        ensures { IsSameFile (values_of D.Disk self).contents (state_of D.Disk result) }
    {
        self.file
    }
}
