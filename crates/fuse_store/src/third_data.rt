// The data file of an everyday store of version 2, which is made before the commit of its opening.
ghost use Rattle.std.specs.Prelude.{◌≡◌, ◌<◌, ◌^◌, None};
ghost use Rattle.fuse_store.specs.inner.ThirdData.{left_disk};

use crate::opening::make_third;
use crate::third_number::ThirdNumber;
use fuse_data::DataFile;
use fuse_keeper::StoreFault;
use fuse_store_tables::BeforeCommit;
use sqlite_disk::Disk;
use std::alloc::Global;

/// The disk of the data file, which becomes the data file of the store with this number.
#[derive(Drop)]
pub(crate) struct ThirdData<D: Disk> {
    alloc: Global,
    number: ThirdNumber,
    disk: Option<D>,
    pub(crate) file: Option<DataFile<D>>,
}

impl<D: Disk + Drop> ThirdData<D> {
    /// Nothing is written yet.
    pub(crate) fn unmade(alloc: Global, number: u64, disk: Option<D>) -> ThirdData<D>
        requires { number < 2 ^ 63 }
        ensures number { result.number.value ≡ number }
        ensures disk { result.disk ≡ disk }
        ensures file { result.file ≡ None }
    {
        ThirdData {
            alloc,
            number: ThirdNumber { value: number },
            disk,
            file: None,
        }
    }

    /// The disk, as it is.
    pub(crate) fn into_disk(self) -> Option<D>
        ensures { result ≡ left_disk self }
    {
        let ThirdData { disk, file, .. } = self;
        match file {
            Some(file) => Some(file.into_disk()),
            None => disk,
        }
    }
}

impl<D: Disk + Drop> BeforeCommit for ThirdData<D> {
    ghost use Rattle.fuse_store.specs.inner.ThirdData.{MakesThird, LeavesThird};

    ghost makes = { MakesThird D.Disk };

    ghost leaves = { LeavesThird D.Disk };

    fn ready(&mut self) -> Result<(), StoreFault> {
        match make_third(self.alloc, self.disk.take(), Some(self.number.value)) {
            Ok(file) => {
                self.file = Some(file);
                Ok(())
            }
            Err((fault, disk)) => {
                self.disk = disk;
                Err(fault)
            }
        }
    }
}
