// What is shown of the store in files that were read.
ghost use Rattle.std.specs.Prelude.{◌≡◌, ◌<◌, ◌^◌, ◌⊎◌, ⊤, None, IfOk, IfErr, IfSome, IsTrue};
ghost use Rattle.std.specs.Prelude.{option_map};
ghost use Rattle.sqlite_disk.specs.Memory.{memory_bytes, memory_is_usable};
ghost use Rattle.sqlite.specs.Held.{state};
ghost use Rattle.sqlite.specs.Files.{file_state, IsOpened};
ghost use Rattle.fuse_store_tables.specs.Saying.{IsTabled};
ghost use Rattle.fuse_store_tree.specs.Looking.{as_look_fault};
ghost use Rattle.fuse_keeper.specs.Lots.{SameLots};
ghost use Rattle.fuse_store_tree.specs.Store.{records_of};
ghost use Rattle.fuse_store_tree.specs.Holding.{lots_of};
ghost use Rattle.fuse_store.specs.Opening.{Stored, WasFor, opened_for};
ghost use Rattle.fuse_tree.specs.State.{profile_of};
ghost use Rattle.fuse_data.specs.State.{state_in};
ghost use Rattle.fuse_keeper.specs.Stands.{Records};
ghost use Rattle.fuse_rows.specs.Rows.{Rows};
ghost use Rattle.fuse_store_tables.specs.Content.{Content, Holds};
ghost use Rattle.fuse_store_tree.specs.Viewing.{view_in};
ghost use Rattle.fuse_store.specs.StoreKeeper.{own_file, own_profile, store_told};
ghost use Rattle.fuse_store.specs.TableKeeper.{disk_in, parts_state};
ghost use Rattle.fuse_store_files.specs.Files.{FilesHold, AreTheirs};
ghost use Rattle.fuse_files.specs.StoreShown.{image_in, store_read, rows_in, ListsDirectory};
ghost use Rattle.fuse_files.specs.StoreShown.{PrintsFile, Shows, SaysNothing};
ghost use Rattle.fuse_files.specs.StoreShown.{SaysSo, SaysTrue, IsUnopened, IsRefused};
ghost use Rattle.fuse_files.specs.StoreShown.{IsStoreNumber, MayCutShort, IsTextOf, OutputsAs, ShowsText};
ghost use Rattle.fuse_show.specs.Listing.{AreLines};
ghost use Rattle.fuse_files.specs.inner.Showing.{IsAlwaysClean, Fails, Sees, LooksAt, ShowsOver};
ghost use Rattle.fuse_files.specs.inner.Showing.{WasInside, is_third, showing_ending};
ghost use Rattle.fuse_files.specs.inner.Showing.{shown_ending};
ghost use Rattle.fuse_files.specs.StoreSimulations.{AreSure};

use crate::summing::summary_of;
use fuse_commands::Ending;
use fuse_keeper::StoreFault;
use fuse_session::Sink;
use fuse_show::{ShowFault, show_content, show_listing};
use fuse_store::{StoreKeeper, StoreParts, opening_fault};
use fuse_store_files::plain_over_any;
use fuse_store_tables::{Layout, begin, layout_of, number_at_rest};
use fuse_store_tree::{Data, TableLook, held_is_shown};
use sqlite::{Alter, Connection, FileStore, Files, Options};
use sqlite_disk::{Disk, Memory};
use std::alloc::Global;

/// What a command shows of a store.
#[derive(Clone, Copy)]
pub enum Show<'a> {
    /// A summary.
    Summary,
    /// The directory at a path.
    Directory(&'a str),
    /// The file at a path.
    File(&'a str),
}

/// The bytes that were read of the files of a store.
#[derive(Drop)]
pub struct StoreBytes {
    /// Those of the log.
    pub log: Vec<u8>,
    /// Those of the database file.
    pub db: Vec<u8>,
}

/// What was shown, and the disk of the data file.
#[derive(Drop)]
pub struct ShownStore<D: Disk> {
    pub ending: Ending,
    /// None where there was none, and of a plain store.
    pub disk: Option<D>,
}

// A store of version 2 that becomes one of version 3 in memory gets this number.
const NUMBER: u64 = 0;

// The keeper over a database and a data file.
pub(crate) fn open_keeper<S: Alter + Drop, D: Disk + Drop>(
    alloc: Global,
    parts: StoreParts<S, D>,
) -> Result<StoreKeeper<S, D>, ShownStore<D>>
    ensures holds { IfOk result (λ k. (store_told S.Store D.Disk k).is_honest → (z : Stored)
        → WasFor z (parts_state S.Store D.Disk parts) → (store_told S.Store D.Disk k).holds (rows_in z)
        (records_of (opened_for z).kept)) }
    ensures profile { IfOk result (λ k. (store_told S.Store D.Disk k).is_honest → (z : Stored)
        → WasFor z (parts_state S.Store D.Disk parts)
        → profile_of (opened_for z).tree ≡ own_profile k) }
    ensures lots { IfOk result (λ k. (store_told S.Store D.Disk k).is_honest → (z : Stored)
        → WasFor z (parts_state S.Store D.Disk parts)
        → SameLots (lots_of None (opened_for z)) (store_told S.Store D.Disk k).lots) }
    ensures tabled { IfOk result (λ k. (store_told S.Store D.Disk k).is_honest
        → IsTabled (state S.Store parts.conn).now) }
    ensures fails { IfErr result (λ e. IsAlwaysClean S.Store
        → IsTrue (disk_in D.Disk e.disk).is_clean
        → Fails (parts_state S.Store D.Disk parts) e.ending) }
    ensures cut { IfErr result (λ e. MayCutShort e.ending) }
{
    match StoreKeeper::open(alloc, parts, Some(NUMBER)) {
        Ok(keeper) => Ok(keeper),
        Err((fault, StoreParts { disk, .. })) => Err(ShownStore {
            ending: Ending::of(fault),
            disk,
        }),
    }
}

// What was shown over a look, whose data file it hands back.
pub(crate) fn shown_over<S: Alter + Drop, D: Disk + Drop>(
    look: TableLook<S, Data<D>>,
    ending: Ending,
) -> ShownStore<D>
    ensures ending { result.ending ≡ ending }
    ensures disk { result.disk ≡ option_map (λ f. f.disk) look.contents.file }
{
    let TableLook { contents, .. } = look;
    let Data { file, .. } = contents;
    match file {
        Some(file) => ShownStore {
            ending,
            disk: Some(file.into_disk()),
        },
        None => ShownStore { ending, disk: None },
    }
}

// A look at the store of a keeper, in a transaction.
pub(crate) fn look_in<S: Alter + Drop, D: Disk + Drop>(
    alloc: Global,
    keeper: StoreKeeper<S, D>,
) -> Result<TableLook<S, Data<D>>, ShownStore<D>>
    ensures begins { IfOk result (λ look. as_look_fault look.fault ≡ None) }
    ensures unknown { IfOk result (λ look. look.known ≡ None) }
    ensures fresh { IfOk result (λ look. look.last ≡ None) }
    ensures file { IfOk result (λ look. look.contents.file ≡ own_file keeper) }
    ensures sees { IfOk result (λ look. IsAlwaysClean S.Store → (rows : Rows) (records : Records)
        → (store_told S.Store D.Disk keeper).holds rows records
        → Sees rows (view_in D.Disk look.contents).bytes (state S.Store look.conn)) }
    ensures quiet { IfErr result (λ e. SaysNothing e.ending) }
{
    held_is_shown();
    let mut look = keeper.into_look(alloc);
    match begin(&mut look.conn) {
        Ok(()) => Ok(look),
        Err(error) => Err(shown_over(look, Ending::of(StoreFault::from(error)))),
    }
}

// A look at the store of a database.
fn look_at<S: Alter + Drop, D: Disk + Drop>(
    alloc: Global,
    parts: StoreParts<S, D>,
) -> Result<TableLook<S, Data<D>>, ShownStore<D>>
    ensures begins { IfOk result (λ look. as_look_fault look.fault ≡ None) }
    ensures unknown { IfOk result (λ look. look.known ≡ None) }
    ensures fresh { IfOk result (λ look. look.last ≡ None) }
    ensures looks { IfOk result (λ look. IsAlwaysClean S.Store
        → IsTrue (state_in D.Disk look.contents.file).is_clean
        → LooksAt rows_in (parts_state S.Store D.Disk parts)
        (view_in D.Disk look.contents).bytes (state S.Store look.conn)) }
    ensures fails { IfErr result (λ e. IsAlwaysClean S.Store
        → IsTrue (disk_in D.Disk e.disk).is_clean
        → Fails (parts_state S.Store D.Disk parts) e.ending) }
    ensures cut { IfErr result (λ e. MayCutShort e.ending) }
{
    match open_keeper(alloc, parts) {
        Ok(keeper) => look_in(alloc, keeper),
        Err(shown) => Err(shown),
    }
}

// The ending of a look with this fault.
pub(crate) fn ending_of_look(fault: Option<StoreFault>) -> Ending
    ensures { result ≡ showing_ending fault }
{
    match fault {
        Some(fault) => Ending::of(fault),
        None => Ending::Damaged,
    }
}

// The ending of what was shown over a look that has this fault.
fn ending_of_shown(shown: Result<(), ShowFault>, fault: Option<StoreFault>) -> Ending
    ensures { result ≡ shown_ending (showing_ending fault) shown }
{
    match shown {
        Ok(()) => Ending::Done,
        Err(ShowFault::Look(_)) => ending_of_look(fault),
        Err(ShowFault::NotATree) => Ending::Damaged,
        Err(ShowFault::NoSuchPath) => Ending::NoSuchPath,
        Err(ShowFault::NotDirectory) => Ending::NotDirectory,
        Err(ShowFault::NotFile) => Ending::NotFile,
        Err(ShowFault::Output) => Ending::PortFailed,
    }
}

// Lists a directory of the store of a database.
fn list_of<S: Alter + Drop, D: Disk + Drop, W: Sink>(
    alloc: Global,
    parts: StoreParts<S, D>,
    path: &str,
    writer: &mut W,
) -> ShownStore<D>
    ensures shown { IsAlwaysClean S.Store → IsTrue (disk_in D.Disk result.disk).is_clean
        → ShowsOver (λ z. ListsDirectory path.now z (W.contents writer.old) (W.contents writer.new)
        result.ending) (parts_state S.Store D.Disk parts) result.ending }
    ensures silent { IsRefused result.ending
        → W.contents writer.new ≡ W.contents writer.old }
    ensures written { OutputsAs W.was_written W.was_flushed writer.old writer.new
        (ShowsText AreLines result.ending) }
{
    let mut look = match look_at(alloc, parts) {
        Ok(look) => look,
        Err(shown) => return shown,
    };
    let shown = show_listing(&mut look, path.as_bytes(), writer);
    let fault = look.fault.take();
    shown_over(look, ending_of_shown(shown, fault))
}

// Prints a file of the store of a database.
fn print_of<S: Alter + Drop, D: Disk + Drop, W: Sink>(
    alloc: Global,
    parts: StoreParts<S, D>,
    path: &str,
    writer: &mut W,
) -> ShownStore<D>
    ensures shown { IsAlwaysClean S.Store → IsTrue (disk_in D.Disk result.disk).is_clean
        → ShowsOver (λ z. PrintsFile path.now z (W.contents writer.old) (W.contents writer.new)
        result.ending) (parts_state S.Store D.Disk parts) result.ending }
    ensures silent { IsRefused result.ending
        → W.contents writer.new ≡ W.contents writer.old }
    ensures written { OutputsAs W.was_written W.was_flushed writer.old writer.new
        (ShowsText (λ _. ⊤) result.ending) }
{
    let mut look = match look_at(alloc, parts) {
        Ok(look) => look,
        Err(shown) => return shown,
    };
    let shown = show_content(&mut look, path.as_bytes(), writer);
    let fault = look.fault.take();
    shown_over(look, ending_of_shown(shown, fault))
}

// Shows a part of the store of a database.
fn show_of<S: Alter + Drop, D: Disk + Drop, W: Sink>(
    alloc: Global,
    parts: StoreParts<S, D>,
    show: Show<'_>,
    writer: &mut W,
) -> ShownStore<D>
    ensures shown { IsAlwaysClean S.Store → IsTrue (disk_in D.Disk result.disk).is_clean
        → ShowsOver (λ z. Shows show.entry z (W.contents writer.old) (W.contents writer.new)
        result.ending) (parts_state S.Store D.Disk parts) result.ending }
    ensures silent { IsRefused result.ending
        → W.contents writer.new ≡ W.contents writer.old }
    ensures written { OutputsAs W.was_written W.was_flushed writer.old writer.new
        (ShowsText (IsTextOf show.entry) result.ending) }
{
    match show {
        Show::Summary => summary_of(alloc, parts, writer),
        Show::Directory(path) => list_of(alloc, parts, path, writer),
        Show::File(path) => print_of(alloc, parts, path, writer),
    }
}

// Shows a part of the store of a database whose contents lie in its tables. What it becomes gets this
// disk, which always returns what was written.
fn show_inside<S: Alter + Drop, D: Disk + Drop, W: Sink>(
    alloc: Global,
    conn: Connection<S>,
    memory: D,
    show: Show<'_>,
    writer: &mut W,
) -> Ending
    ensures shown { IsAlwaysClean S.Store → AreSure D.Disk → (z : Stored)
        → WasInside z (state S.Store conn)
        → Shows show.entry z (W.contents writer.old) (W.contents writer.new) result }
    ensures says { IsAlwaysClean S.Store → AreSure D.Disk
        → SaysSo (state S.Store conn).now result }
    ensures silent { IsRefused result → W.contents writer.new ≡ W.contents writer.old }
    ensures written { OutputsAs W.was_written W.was_flushed writer.old writer.new
        (ShowsText (IsTextOf show.entry) result) }
{
    let parts = StoreParts {
        conn,
        disk: Some(memory),
    };
    let ShownStore { ending, .. } = show_of(alloc, parts, show, writer);
    ending
}

// A disk in memory with these bytes.
fn disk_of(alloc: Global, bytes: &[u8]) -> Result<Memory, Ending>
    ensures usable { IfOk result (λ disk. IsTrue (memory_is_usable disk)) }
    ensures bytes { IfOk result (λ disk. memory_bytes disk ≡ bytes.now) }
    ensures fault { IfErr result (λ e. e ≡ Ending.Memory) }
{
    let mut disk = Memory::new(alloc);
    match disk.write_at(0, bytes) {
        Ok(()) => Ok(disk),
        Err(_) => Err(Ending::Memory),
    }
}

// A copy in memory of files with these bytes.
fn copy_of(alloc: Global, read: StoreBytes) -> Result<Files<Memory>, Ending>
    ensures log_usable { IfOk result (λ files. IsTrue (memory_is_usable files.log)) }
    ensures db_usable { IfOk result (λ files. IsTrue (memory_is_usable files.db)) }
    ensures log { IfOk result (λ files. memory_bytes files.log ≡ read.log.items) }
    ensures db { IfOk result (λ files. memory_bytes files.db ≡ read.db.items) }
    ensures fault { IfErr result (λ e. e ≡ Ending.Memory) }
{
    let log = disk_of(alloc, read.log.as_slice())?;
    let db = disk_of(alloc, read.db.as_slice())?;
    Ok(Files { log, db })
}

// The database in a copy in memory of files with these bytes.
pub(crate) fn open_copy(
    alloc: Global,
    read: StoreBytes,
) -> Result<Connection<FileStore<Memory>>, Ending>
    ensures opened { IfOk result IsOpened }
    ensures found { IfOk result (λ conn. AreTheirs (image_in read)
        (file_state conn).committed.trees) }
    ensures fault { IfErr result (IsUnopened (image_in read)) }
{
    let files = match copy_of(alloc, read) {
        Ok(files) => files,
        Err(ending) => return Err(ending),
    };
    match Connection::open_files(alloc, files, Options::new(0)) {
        Ok(conn) => Ok(conn),
        Err((error, _)) => Err(Ending::of(opening_fault(error))),
    }
}

// Whether contents of a store lie in its data file, and not in its tables.
pub(crate) fn lies_beside<S: Alter>(conn: &Connection<S>) -> bool
    ensures { (c : Content) → Holds c (state S.Store conn.now).now
        → result ≡ is_third c.layout }
{
    matches!(layout_of(conn), Layout::Third)
}

/// Shows a part of the store in files of which these bytes were read. A copy of them in memory is
/// opened, so the files stay as they are. What they list of the data file is read from its disk, which
/// is handed back. One of version 2 becomes one of version 3 in memory alone.
pub fn show_store<D: Disk + Drop, W: Sink>(
    alloc: Global,
    read: StoreBytes,
    disk: Option<D>,
    show: Show<'_>,
    writer: &mut W,
) -> ShownStore<D>
    // Of a store what is asked for is shown, if the disk has returned what was written.
    ensures shown { IsTrue (disk_in D.Disk result.disk).is_clean → (z : Stored)
        → FilesHold (store_read D.Disk read disk) z
        → Shows show.entry z (W.contents writer.old) (W.contents writer.new) result.ending }
    // Whatever the rows are, a text of that form is written, whole at `Done` alone. The output
    // failed where the ending says so, and only there.
    ensures written { OutputsAs W.was_written W.was_flushed writer.old writer.new
        (ShowsText (IsTextOf show.entry) result.ending) }
    // Of any files the ending says what is so.
    ensures says { IsTrue (disk_in D.Disk result.disk).is_clean
        → IsUnopened (image_in read) result.ending ⊎ SaysTrue (image_in read) result.ending }
    ensures silent { IsRefused result.ending
        → W.contents writer.new ≡ W.contents writer.old }
{
    plain_over_any();
    let conn = match open_copy(alloc, read) {
        Ok(conn) => conn,
        Err(ending) => return ShownStore { ending, disk },
    };
    if lies_beside(&conn) {
        return show_of(alloc, StoreParts { conn, disk }, show, writer);
    }
    let ending = show_inside(alloc, conn, Memory::new(alloc), show, writer);
    ShownStore { ending, disk }
}

/// The number of the store in files of which these bytes were read, where it has one.
pub fn number_of(alloc: Global, read: StoreBytes) -> Option<u64>
    // The data file of an everyday store of version 3 has it.
    ensures number { IfSome result (IsStoreNumber (image_in read)) }
    ensures small { IfSome result (λ n. n < 2 ^ 63) }
{
    let Ok(mut conn) = open_copy(alloc, read) else {
        return None;
    };
    if !lies_beside(&conn) {
        return None;
    }
    match number_at_rest(&mut conn) {
        Ok(number) => Some(number),
        Err(_) => None,
    }
}
