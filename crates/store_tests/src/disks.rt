//! Stores whose disks stop: a database and its log in memory, each on a `Fuse`.
ghost use Rattle.std.specs.Prelude.{IsTrue, IfOk};
ghost use Rattle.sqlite_disk.specs.Memory.{memory_is_usable};

use crate::stores::{Observed, State, Work, make, observed_of, run};
use fuse_keeper::StoreFault;
use sqlite::{Connection, Error, ErrorCode, FileStore, Files, Options};
use sqlite_disk::{Crash, Disk, Fuse, Memory};
use std::alloc::{AllocError, Global};

/// The two disks of a store.
pub(crate) type Disks = Files<Fuse<Memory>>;

pub(crate) type Store = FileStore<Fuse<Memory>>;

// Little room, so that a transaction spills into the log and pages are read again. The log is
// copied into the file before a transaction where it has so many frames.
fn little(checkpoint_frames: usize) -> Options {
    Options {
        cache_pages: 4,
        spill_pages: 4,
        checkpoint_frames,
        seed: 7,
    }
}

/// The bytes of a file and of its log.
#[derive(Drop, PartialEq)]
pub(crate) struct Held {
    pub log: Vec<u8>,
    pub file: Vec<u8>,
}

impl Held {
    pub(crate) fn nothing(alloc: Global) -> Held {
        Held {
            log: Vec::new(alloc),
            file: Vec::new(alloc),
        }
    }
}

/// The disk that stops.
#[derive(Clone, Copy, Debug)]
pub(crate) enum Which {
    Log,
    File,
}

/// After so many calls this disk does nothing more. The other one goes on.
#[derive(Clone, Copy)]
pub(crate) struct Stop {
    pub which: Which,
    pub calls: u64,
}

impl Stop {
    /// More calls than there are.
    pub(crate) const NEVER: Stop = Stop {
        which: Which::Log,
        calls: u64::MAX,
    };

    // The calls of the log and of the file, and the frames of the log at which it is copied: few where
    // the file stops.
    fn limits(self) -> (u64, u64, usize) {
        match self.which {
            Which::Log => (self.calls, u64::MAX, 12),
            Which::File => (u64::MAX, self.calls, 1),
        }
    }
}

// The database, or the disks where one stopped before it was opened.
#[derive(Drop)]
enum Opened {
    Open(Connection<Store>),
    Stopped(Disks),
}

// A disk that holds these bytes, also after a crash.
fn filled(alloc: Global, bytes: &[u8]) -> Result<Memory, StoreFault>
    ensures { IfOk result (λ m. IsTrue (memory_is_usable m)) }
{
    let mut memory = Memory::new(alloc);
    if memory.write_at(0, bytes).is_err() || memory.sync().is_err() {
        return Err(StoreFault::Memory);
    }
    Ok(memory)
}

// The database of such files, on disks that stop so. Only an I/O error is a stop.
fn connect(alloc: Global, held: &Held, stop: Stop) -> Result<Opened, StoreFault> {
    let (log_calls, file_calls, frames) = stop.limits();
    let log = filled(alloc, held.log.as_slice())?;
    let db = filled(alloc, held.file.as_slice())?;
    let files = Files {
        log: Fuse::new(log, log_calls),
        db: Fuse::new(db, file_calls),
    };
    match Connection::open_files(alloc, files, little(frames)) {
        Ok(conn) => Ok(Opened::Open(conn)),
        Err((Error::SqliteFailure(ErrorCode::SystemIoFailure), left)) => {
            Ok(Opened::Stopped(left.into_files()))
        }
        Err((error, _)) => Err(StoreFault::Sql(error)),
    }
}

// The database of such files, on disks that do not stop.
fn connect_again(alloc: Global, held: &Held) -> Result<Connection<Store>, StoreFault> {
    match connect(alloc, held, Stop::NEVER)? {
        Opened::Open(conn) => Ok(conn),
        Opened::Stopped(_) => Err(StoreFault::Damaged),
    }
}

// The disks of a database, with no call of them.
fn disks_of<D: Disk + Drop>(conn: Connection<FileStore<D>>) -> Files<D> {
    conn.into_store().close()
}

/// The files after the process dies: all that was written.
pub(crate) fn written(alloc: Global, disks: &Disks) -> Result<Held, AllocError> {
    Ok(Held {
        log: Vec::from_slice(alloc, disks.log.inner().bytes())?,
        file: Vec::from_slice(alloc, disks.db.inner().bytes())?,
    })
}

/// The files after the machine dies: all that was synced.
pub(crate) fn synced(alloc: Global, mut disks: Disks) -> Result<Held, AllocError> {
    disks.log.crash();
    disks.db.crash();
    written(alloc, &disks)
}

/// How many steps were done before the stop, and the disks.
#[derive(Drop)]
pub(crate) struct Stopped {
    pub steps: usize,
    pub disks: Disks,
}

// Does the work up to a stop.
fn work_over<D: Disk + Drop>(
    alloc: Global,
    conn: Connection<FileStore<D>>,
    work: Work,
) -> Result<(usize, Files<D>), StoreFault> {
    let (steps, conn) = run(alloc, conn, work)?;
    Ok((steps, disks_of(conn)))
}

// Makes a store in such a state.
fn make_over<D: Disk + Drop>(
    alloc: Global,
    conn: Connection<FileStore<D>>,
    state: State,
) -> Result<Files<D>, StoreFault> {
    Ok(disks_of(make(alloc, conn, state)?))
}

/// Opens such files on disks that stop so, and does the work up to the stop.
pub(crate) fn stop_at(
    alloc: Global,
    held: &Held,
    stop: Stop,
    work: Work,
) -> Result<Stopped, StoreFault> {
    let (steps, disks) = match connect(alloc, held, stop)? {
        Opened::Open(conn) => work_over(alloc, conn, work)?,
        Opened::Stopped(disks) => (0, disks),
    };
    Ok(Stopped { steps, disks })
}

/// The files of a store in such a state.
pub(crate) fn files_in(alloc: Global, state: State) -> Result<Held, StoreFault> {
    let nothing = Held::nothing(alloc);
    if state.version == 0 {
        return Ok(nothing);
    }
    let disks = make_over(alloc, connect_again(alloc, &nothing)?, state)?;
    Ok(written(alloc, &disks)?)
}

/// The content of such files.
pub(crate) fn observed_in(alloc: Global, held: &Held) -> Result<Observed, StoreFault> {
    observed_of(alloc, connect_again(alloc, held)?)
}
