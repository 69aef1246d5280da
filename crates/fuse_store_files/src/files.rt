// The files at a path, and how a store in them is opened.
ghost use Rattle.std.specs.Prelude.{◌≡◌, ◌⊎◌, None, false, codes, IfOk, IfErr, IfSome, IsErrAnd};
ghost use Rattle.std.specs.Prelude.{option_map};
ghost use Rattle.sqlite.specs.declared.error.Error.TheVariants.{SqliteFailure};
ghost use Rattle.sqlite.specs.declared.error.ErrorCode.TheVariants.{CannotOpen, OutOfMemory, DatabaseBusy};
ghost use Rattle.sqlite.specs.State.{HasCleanDisk};
ghost use Rattle.sqlite.specs.Held.{state};
ghost use Rattle.sqlite.specs.Files.{file_state, over_files, IsOpened, IsBlankAs};
ghost use Rattle.sqlite.specs.Start.{FindsIn};
ghost use Rattle.sqlite_store.specs.FileStore.{view};
ghost use Rattle.sqlite_wal.specs.Files.{image_at};
ghost use Rattle.fuse_data_host.specs.Found.{IsFound};
ghost use Rattle.fuse_keeper.specs.KeeperState.{IsFirm};
ghost use Rattle.fuse_keeper.specs.declared.fault.StoreFault.TheVariants.{NotAStore, Sql};
ghost use Rattle.fuse_store_tables.specs.Content.{Content};
ghost use Rattle.fuse_store_tables.specs.Faults.{IsOutside};
ghost use Rattle.fuse_store_tables.specs.Moves.{RestsAs};
ghost use Rattle.fuse_store_tables.specs.Saying.{IsRefusal};
ghost use Rattle.fuse_tree.specs.State.{profile_of};
ghost use Rattle.fuse_store.specs.Opening.{Stored, opened_for};
ghost use Rattle.fuse_store.specs.StoreKeeper.{own_profile, own_conn, store_told};
ghost use Rattle.fuse_store_files.specs.Files.{FilesHold, found_at};
ghost use Rattle.fuse_store_files.specs.Starting.{path_of, OpensAs, KeepsStore, FilesHoldRows, RowsKept};
ghost use Rattle.fuse_store_files.specs.Starting.{SharesFiles};
ghost use Rattle.fuse_store_files.specs.Left.{AreCleanLeft, LeavesAsFound, LeavesOpening};
ghost use Rattle.fuse_store_files.specs.Databases.{OpensOwn, FailsOver, KeepsFound, FilesHaveProfile};
ghost use Rattle.fuse_store_files.specs.Databases.{IsExisting, IsNeverOpened};
ghost use Rattle.fuse_store_files.specs.inner.Opened.{IsNotOpened, has_pieces};

use crate::left::StoreLeft;
use crate::opening::open_as;
use fuse_data_host::{DataFrom, OpenFault, open_or_make};
use fuse_store::{NewStore, StoreFault, StoreKeeper, StoreParts, opening_fault};
use sqlite::{Alter, Connection, Error, ErrorCode, FileFrom, FileStore, Leftover, Start};
use sqlite_disk::Disk;
use std::fs;

/// How a store is opened.
#[derive(Clone, Copy)]
pub enum Opening {
    /// A store that is there. An everyday one of version 2 gets this number.
    Existing(u64),
    /// One that is there or, where nothing is, this new one.
    Any(NewStore),
    /// The same, and a mount of one that is there begins.
    Fresh(NewStore),
}

/// The files at a path: a database file and its log, and the data file beside them. What takes this
/// value opens them.
#[derive(Drop)]
pub struct StoreFiles<'r, 'p, S: Start, T: Start> {
    rt: &'r HostRuntime,
    path: &'p str,
    start: S,
    beside: T,
}

impl<'r, 'p, S: Start, T: Start> StoreFiles<'r, 'p, S, T> {
    /// The files at this path. `start` says what the database file and its log hold, and `beside`
    /// what the data file does. Nothing is opened yet.
    pub fn at(rt: &'r HostRuntime, path: &'p str, start: S, beside: T) -> StoreFiles<'r, 'p, S, T>
        ensures { path_of result ≡ path.now }
    {
        StoreFiles {
            rt,
            path,
            start,
            beside,
        }
    }

    // Whether there is no file with this name.
    fn are_missing(&self) -> bool {
        matches!(fs::exists(self.rt, self.path), Ok(false))
    }
}

// The connection to the database at a path, whose files are made if they are missing.
fn connect<S: Start>(
    rt: &HostRuntime,
    path: &str,
    start: S,
) -> Result<Connection<FileStore<FileFrom<S>>>, (Error, Option<Leftover<FileFrom<S>>>)>
    ensures memory { path.now ≡ codes ":memory:"
        → IsErrAnd result (λ e. e.0 ≡ SqliteFailure CannotOpen) }
    ensures opened { IfOk result (λ c. HasCleanDisk (file_state c) → IsOpened c) }
    ensures found { IfOk result (λ c. HasCleanDisk (file_state c)
        → FindsIn (image_at S.Start) (file_state c)) }
    ensures sums { IfOk result (λ c. HasCleanDisk (file_state c)
        → IsBlankAs false (image_at S.Start) → (view c.store).has_sums ≡ false) }
    ensures none { IfErr result (λ e. e.1 ≡ None → (e.0 ≡ SqliteFailure CannotOpen)
        ⊎ ((e.0 ≡ SqliteFailure OutOfMemory) ⊎ (e.0 ≡ SqliteFailure DatabaseBusy))) }
    ensures left { IfErr result (λ e. IfSome e.1
        (λ it. IsNotOpened (image_at S.Start) it e.0)) }
{
    match Connection::open_from(rt, path, false, start) {
        Ok(conn) => Ok(conn),
        Err(left) => Err(left),
    }
}

// What is left of the files of a store whose data file wasn't opened.
fn unopened<D: Disk, E: Disk>(left: Option<Leftover<D>>) -> Option<StoreLeft<D, E>>
    ensures { result ≡ option_map (λ it. record { tables = it; disk = None }) left }
{
    match left {
        Some(tables) => Some(StoreLeft { tables, disk: None }),
        None => None,
    }
}

// The data file of the store at a path, which is made if it is missing.
fn find_data<T: Start>(rt: &HostRuntime, path: &str, beside: T) -> Result<DataFrom<T>, StoreFault>
    ensures found { IfOk result (IsFound ⟦<DataFrom<T> as Disk>⟧ T.Start.db) }
    ensures outside { IfErr result IsOutside }
{
    match open_or_make(rt, path, beside) {
        Ok(disk) => Ok(disk),
        Err(OpenFault::Memory) => Err(StoreFault::Memory),
        Err(_) => Err(StoreFault::Sql(Error::SqliteFailure(ErrorCode::CannotOpen))),
    }
}

// Whether a database has the table of pieces, as that of a store with a data file does.
fn has_pieces<S: Alter>(conn: &Connection<S>) -> bool
    ensures { result ≡ has_pieces (state S.Store conn.now).now.schema }
{
    let _ = conn.is_autocommit();
    conn.schema().table_named(b"pieces").is_some()
}

// The data file of the store at a path, whose database this is. There is none where it can't be opened
// and the database needs none.
fn find_beside<S: Alter, T: Start>(
    rt: &HostRuntime,
    path: &str,
    beside: T,
    conn: &Connection<S>,
) -> Result<Option<DataFrom<T>>, StoreFault>
    ensures found { IfOk result (λ o. IfSome o (IsFound ⟦<DataFrom<T> as Disk>⟧ T.Start.db)) }
    ensures none { IfOk result (λ o. o ≡ None
        → has_pieces (state S.Store conn.now).now.schema ≡ false) }
    ensures outside { IfErr result IsOutside }
{
    match find_data(rt, path, beside) {
        Ok(disk) => Ok(Some(disk)),
        Err(fault) if has_pieces(conn) => Err(fault),
        Err(_) => Ok(None),
    }
}

/// The keeper of the store in these files. An error comes with what is left of the files, once they
/// were opened. A store that must be there is not made: without a file there is none.
pub fn open_store<S: Start, T: Start>(
    files: StoreFiles<'_, '_, S, T>,
    how: Opening,
) -> Result<
    StoreKeeper<FileStore<FileFrom<S>>, DataFrom<T>>,
    (StoreFault, Option<StoreLeft<FileFrom<S>, DataFrom<T>>>),
>
    ensures memory { path_of files.entry ≡ codes ":memory:" → IsErrAnd result
        (λ e. (e.0 ≡ Sql (SqliteFailure CannotOpen)) ⊎ (IsExisting how × (e.0 ≡ NotAStore))) }
    // What the files held is what the keeper stands for.
    ensures opened { IfOk result (λ k. (store_told over_files ⟦<DataFrom<T> as Disk>⟧ k).is_honest
        → OpensAs (own_profile k) how (found_at S.Start T.Start) (store_told over_files ⟦<DataFrom<T> as Disk>⟧ k)) }
    // It is of the profile of the store.
    ensures profile { IfOk result (λ k. (store_told over_files ⟦<DataFrom<T> as Disk>⟧ k).is_honest → (z : Stored)
        → FilesHold (found_at S.Start T.Start) z → profile_of (opened_for z).tree ≡ own_profile k) }
    ensures holds { IfOk result (λ k. (store_told over_files ⟦<DataFrom<T> as Disk>⟧ k).is_honest → (z : Stored)
        → FilesHold (found_at S.Start T.Start) z → KeepsStore (own_profile k) how z (store_told over_files ⟦<DataFrom<T> as Disk>⟧ k)) }
    ensures firm { IfOk result (λ k. (store_told over_files ⟦<DataFrom<T> as Disk>⟧ k).is_honest
        → IsFirm (store_told over_files ⟦<DataFrom<T> as Disk>⟧ k)) }
    ensures going { IfOk result (λ k. (store_told over_files ⟦<DataFrom<T> as Disk>⟧ k).has_failed ≡ false) }
    ensures medium { IfOk result (SharesFiles ⟦<DataFrom<T> as Disk>⟧) }
    // A crash leaves what was found, or what the opening makes of it.
    ensures crash { IfErr result (λ e. IfSome e.1 (LeavesOpening ⟦<DataFrom<T> as Disk>⟧ how (found_at S.Start T.Start))) }
    // The fault says nothing of a sound store.
    ensures fault { IfErr result (λ e. IfSome e.1 (λ it. AreCleanLeft ⟦<DataFrom<T> as Disk>⟧ it → (z : Stored)
        → FilesHold (found_at S.Start T.Start) z → IsOutside e.0)) }
    // A store that is refused stays as it is.
    ensures untouched { IfErr result (λ e. IsRefusal e.0
        → IfSome e.1 (LeavesAsFound ⟦<DataFrom<T> as Disk>⟧ (found_at S.Start T.Start))) }
    ensures unopened { IfErr result (λ e. e.1 ≡ None
        → IsNeverOpened e.0 ⊎ (IsExisting how × (e.0 ≡ NotAStore))) }
    // All rows are kept, those too that no tree has; the begin of a mount deletes its own.
    ensures rows { IfOk result (λ k. (store_told over_files ⟦<DataFrom<T> as Disk>⟧ k).is_honest → (c : Content)
        → FilesHoldRows (image_at S.Start) c
        → RestsAs (RowsKept how c) (file_state (own_conn k))) }
    // Of any database in the files: only a store of a version that is known is opened. What the
    // fault says is so, and what isn't to be changed is left as it was found.
    ensures of_profile { IfOk result (λ k. (store_told over_files ⟦<DataFrom<T> as Disk>⟧ k).is_honest
        → FilesHaveProfile (own_profile k) how (image_at S.Start)) }
    ensures own { IfOk result (λ k. (store_told over_files ⟦<DataFrom<T> as Disk>⟧ k).is_honest → OpensOwn how (image_at S.Start)) }
    ensures found { IfOk result (λ k. (store_told over_files ⟦<DataFrom<T> as Disk>⟧ k).is_honest
        → KeepsFound how (image_at S.Start) (file_state (own_conn k))) }
    ensures fails { IfErr result (λ e. IfSome e.1 (λ it. FailsOver how (image_at S.Start)
        e.0 it.tables)) }
{
    if matches!(how, Opening::Existing(_)) && files.are_missing() {
        return Err((StoreFault::NotAStore, None));
    }
    let StoreFiles {
        rt,
        path,
        start,
        beside,
    } = files;
    let conn = match connect(rt, path, start) {
        Ok(conn) => conn,
        Err((error, left)) => return Err((opening_fault(error), unopened(left))),
    };
    let disk = match find_beside(rt, path, beside, &conn) {
        Ok(disk) => disk,
        Err(fault) => {
            let tables = Leftover::Store(conn.into_store());
            return Err((fault, Some(StoreLeft { tables, disk: None })));
        }
    };
    match open_as(rt.alloc(), StoreParts { conn, disk }, how) {
        Ok(keeper) => Ok(keeper),
        Err((fault, StoreParts { conn, disk })) => {
            let tables = Leftover::Store(conn.into_store());
            Err((fault, Some(StoreLeft { tables, disk })))
        }
    }
}
