// What is left of the files of a store.
use sqlite::{Files, Leftover};
use sqlite_disk::Disk;

/// What is left of the files of a store.
#[derive(Drop)]
pub struct StoreLeft<D: Disk, E: Disk> {
    /// The database file and its log.
    pub tables: Leftover<D>,
    /// The data file, if it was opened.
    pub disk: Option<E>,
}

/// What a crash left of the files of a store.
#[derive(Drop)]
pub struct CrashedFiles<D: Disk, E: Disk> {
    /// The database file and its log.
    pub tables: Files<D>,
    /// The data file, if there is one.
    pub disk: Option<E>,
}
