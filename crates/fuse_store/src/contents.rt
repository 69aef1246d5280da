// The data file of a store, as it is made and handed back.
ghost use Rattle.std.specs.Prelude.{◌≡◌, false, option_map, IsTrue, IfOk, IfErr};
ghost use Rattle.std.specs.Option.{is_some};
ghost use Rattle.sqlite_disk.specs.Disk.{Only};
ghost use Rattle.fuse_init.specs.declared.profile.Profile.TheVariants as profiles;
ghost use Rattle.fuse_data.specs.State.{state_in};
ghost use Rattle.fuse_store_tables.specs.Faults.{IsOutside};
ghost use Rattle.fuse_store_tree.specs.DataFaults.{fault_of_data};
ghost use Rattle.fuse_store.specs.Creating.{IsDataOf};
ghost use Rattle.fuse_store.specs.TableKeeper.{disk_in};
ghost use Rattle.fuse_store.specs.TableState.{data_for};

use fuse_data::{DataFault, DataFile};
use fuse_init::Profile;
use fuse_keeper::StoreFault;
use sqlite::{Error, ErrorCode};
use sqlite_disk::Disk;
use std::alloc::Global;

/// A fault of the data file. Its disk fails as that of the tables does.
pub(crate) fn contents_fault(fault: DataFault) -> StoreFault
    ensures { result ≡ fault_of_data fault }
{
    match fault {
        DataFault::Disk(_) => StoreFault::Sql(Error::SqliteFailure(ErrorCode::SystemIoFailure)),
        DataFault::Unusable => StoreFault::Sql(Error::SqliteFailure(ErrorCode::Closed)),
        DataFault::Full => StoreFault::Sql(Error::SqliteFailure(ErrorCode::DiskFull)),
        DataFault::Memory => StoreFault::Memory,
        _ => StoreFault::Damaged,
    }
}

/// The disk of a data file, as it is.
pub(crate) fn disk_of<D: Disk>(file: Option<DataFile<D>>) -> Option<D>
    ensures { result ≡ option_map (λ f. f.disk) file }
{
    match file {
        Some(file) => Some(file.into_disk()),
        None => None,
    }
}

/// The data file of a new store, over whatever it held: the header is written and synced. A plain
/// store has none, and leaves it alone. A fault hands the disk back.
pub(crate) fn make_contents<D: Disk + Drop>(
    alloc: Global,
    profile: Profile,
    disk: Option<D>,
    number: u64,
) -> Result<Option<DataFile<D>>, (StoreFault, Option<D>)>
    ensures plain { IfOk result (λ f. profile ≡ profiles.Plain → is_some f ≡ false) }
    ensures made { IfOk result (λ f. IsDataOf profile number (state_in D.Disk f).seen) }
    ensures synced { IfOk result
        (λ f. Only (state_in D.Disk f).seen (state_in D.Disk f).may_leave) }
    ensures usable { IfOk result (λ f. IsTrue (state_in D.Disk f).is_usable) }
    ensures clean { IfOk result (λ f. IsTrue (state_in D.Disk f).is_clean
        → IsTrue (data_for profile (disk_in D.Disk disk)).is_clean) }
    ensures outside { IfErr result (λ left. IsOutside left.0) }
{
    match profile {
        Profile::Plain => Ok(None),
        Profile::Everyday => {
            let Some(disk) = disk else {
                return Err((
                    StoreFault::Sql(Error::SqliteFailure(ErrorCode::CannotOpen)),
                    None,
                ));
            };
            match DataFile::create(alloc, disk, number) {
                Ok(file) => Ok(Some(file)),
                Err((fault, disk)) => Err((contents_fault(fault), Some(disk))),
            }
        }
    }
}
