// What a store lies in.
ghost use Rattle.std.specs.Prelude.{◌≡◌, None};
ghost use Rattle.fuse_store_tree.specs.Looking.{as_look_fault};

use fuse_data::DataFile;
use fuse_store_tree::{Data, TableLook};
use sqlite::{Alter, Connection};
use sqlite_disk::Disk;
use std::alloc::Global;

/// The database of a store, and the file of its contents. Without one there is none, as for a plain
/// store.
#[derive(Drop)]
pub struct StoreParts<S: Alter, D> {
    pub conn: Connection<S>,
    pub disk: Option<D>,
}

/// Nothing is known of the tables yet. Allocates nothing.
pub(crate) fn look_over<S: Alter, D: Disk>(
    alloc: Global,
    conn: Connection<S>,
    file: Option<DataFile<D>>,
) -> TableLook<S, Data<D>>
    ensures conn { result.conn ≡ conn }
    ensures file { result.contents.file ≡ file }
    ensures known { result.known ≡ None }
    ensures ready { as_look_fault result.fault ≡ None }
{
    TableLook::new(alloc, conn, Data::new(alloc, file))
}
