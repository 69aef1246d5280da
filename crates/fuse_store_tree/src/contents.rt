// The data file, as the tables are read over it.
ghost use Rattle.std.specs.Prelude.{◌≡◌, ◌*◌, true, false, length, IsTrue, IfOk, IfErr};
ghost use Rattle.fuse_rows.specs.Bounds.{block_bytes};
ghost use Rattle.fuse_data.specs.Extents.{IsWhole, bytes_of, sum_of};
ghost use Rattle.fuse_store_tables.specs.Faults.{IsOutside, IsPlain};
ghost use Rattle.fuse_store_tree.specs.DataFaults.{fault_of_data};
ghost use Rattle.fuse_store_tree.specs.Pieces.{File, ReadsFile};
ghost use Rattle.fuse_store_tree.specs.Widening.{Shows};

use fuse_data::{DataFault, Extent};
use fuse_keeper::StoreFault;
use sqlite::ErrorCode;
use std::alloc::Global;

/// The contents of files that aren't in the tables.
pub trait Contents {
    /// The data file, as it is read.
    ghost file: { Self → File };

    /// The bytes of an extent, which have its digest.
    fn read(&mut self, alloc: Global, extent: Extent) -> Result<Vec<u8>, StoreFault>
        ensures reads { ReadsFile (file self.old) (file self.new) }
        // Whatever the data file answers.
        ensures tested { IfOk result (λ v. sum_of v.items ≡ extent.sum) }
        ensures long { IfOk result (λ v. length v.items ≡ extent.count * block_bytes) }
        ensures bytes { IsTrue (file self.new).is_clean → IfOk result (λ v.
            v.items ≡ bytes_of (file self.new).bytes extent) }
        // It is `Damaged` only where the extent isn't whole.
        ensures fault { IsTrue (file self.new).is_clean → IsWhole (file self.new).bytes extent
            → IfErr result IsOutside }
        ensures plain { IfErr result IsPlain };

    /// Lets rows list an extent that was written for this transaction and isn't listed yet, and
    /// returns `true`. Of any other it returns `false`.
    fn list(&mut self, extent: Extent) -> bool
        ensures shows { result ≡ true → Shows extent (file self.old) (file self.new) }
        ensures same { result ≡ false → ReadsFile (file self.old) (file self.new) };
}

/// A fault of the data file. Its disk fails as that of the tables does.
pub(crate) fn store_fault(fault: DataFault) -> StoreFault
    ensures is { result ≡ fault_of_data fault }
    ensures plain { IsPlain result }
{
    match fault {
        DataFault::Disk(_) => StoreFault::Sql(sqlite::Error::SqliteFailure(
            ErrorCode::SystemIoFailure,
        )),
        DataFault::Unusable => StoreFault::Sql(sqlite::Error::SqliteFailure(ErrorCode::Closed)),
        DataFault::Full => StoreFault::Sql(sqlite::Error::SqliteFailure(ErrorCode::DiskFull)),
        DataFault::Memory => StoreFault::Memory,
        _ => StoreFault::Damaged,
    }
}
