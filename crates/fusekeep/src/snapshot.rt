//! The bytes of the files of a store, read so that the files stay as they are.
ghost use Rattle.std.specs.Prelude.{◌≡◌, IfOk, IfSome};

use fuse_commands::{Cause, Ending};
use fuse_data_host::{DataFrom, DataStart, OpenFault, open_to_read};
use fuse_files::StoreBytes;
use sqlite_disk::digest_of;
use std::alloc::Global;
use std::fs;
use std::io::{self, Read};
use std::os::unix::fs::MetadataExt;

// The ending for files that aren't those of a database.
const UNOPENED: Ending = Ending::Sql(Cause::CannotOpen);

// The number of attempts to read a store that a server writes to.
const TRIES: usize = 8;

// The ending for a file that can't be read.
fn refusal(error: &io::Error) -> Ending {
    match error.kind() {
        io::ErrorKind::NotFound => Ending::NotAStore,
        io::ErrorKind::OutOfMemory => Ending::Memory,
        _ => UNOPENED,
    }
}

// All bytes of a reader.
fn read_all<R: Read + Drop>(alloc: Global, mut reader: R) -> Result<Vec<u8>, Ending>
    ensures { IfSome (R.remaining reader) (λ all. IfOk result (λ bytes. bytes.items ≡ all)) }
{
    let mut bytes = Vec::new(alloc);
    match reader.read_to_end(&mut bytes) {
        Ok(_) => Ok(bytes),
        Err(error) => Err(refusal(&error)),
    }
}

// The file at this path, if there is one. As for a server it must be a regular file with one link,
// since the log lies beside the name.
fn find_file(rt: &HostRuntime, path: &str) -> Result<Option<fs::File>, Ending> {
    match fs::symlink_metadata(rt, path) {
        Ok(found) if found.is_file() && found.nlink() == 1 => match fs::open(rt, path) {
            Ok(file) => Ok(Some(file)),
            Err(error) => Err(refusal(&error)),
        },
        Ok(_) => Err(UNOPENED),
        Err(error) if error.kind() == io::ErrorKind::NotFound => Ok(None),
        Err(error) => Err(refusal(&error)),
    }
}

// The bytes of the log at this path, which may be missing.
fn read_log(rt: &HostRuntime, path: &str) -> Result<Vec<u8>, Ending> {
    match find_file(rt, path)? {
        Some(file) => read_all(rt.alloc(), file),
        None => Ok(Vec::new(rt.alloc())),
    }
}

/// Whether this path is a journal that only SQLite can play back, or no regular file.
pub(crate) fn has_journal(rt: &HostRuntime, path: &str) -> bool {
    match fs::symlink_metadata(rt, path) {
        Ok(found) if found.is_file() => begins_a_journal(rt, path),
        Ok(_) => true,
        Err(error) => error.kind() != io::ErrorKind::NotFound,
    }
}

// An empty journal, or one that begins with a zero, has nothing to play back.
fn begins_a_journal(rt: &HostRuntime, path: &str) -> bool {
    let Ok(mut journal) = fs::open(rt, path) else {
        return true;
    };
    let mut first = [0];
    match journal.read(&mut first) {
        Ok(count) => count == 1 && first[0] != 0,
        Err(_) => true,
    }
}

// The bytes of the file at this path.
fn read_file(rt: &HostRuntime, path: &str) -> Result<Vec<u8>, Ending> {
    match find_file(rt, path)? {
        Some(file) => read_all(rt.alloc(), file),
        None => Err(Ending::NotAStore),
    }
}

// The bytes of the files of a database. Pages are written to the log first and stay there when they
// are copied into the file. So if the log is the same before and after reading the file, both
// together are a committed state.
fn read_once(rt: &HostRuntime, file: &str) -> Result<StoreBytes, Ending> {
    if has_journal(rt, format!(in rt.alloc(); "{file}-journal")?.as_str()) {
        return Err(UNOPENED);
    }
    let path = format!(in rt.alloc(); "{file}-wal")?;
    let log = read_log(rt, path.as_str())?;
    let db = read_file(rt, file)?;
    if read_log(rt, path.as_str())?.as_slice() != log.as_slice() {
        return Err(Ending::Busy);
    }
    Ok(StoreBytes { log, db })
}

// The same, read again if a server wrote to the store meanwhile.
fn read_at_rest(rt: &HostRuntime, file: &str) -> Result<StoreBytes, Ending> {
    for _ in 0..TRIES {
        match read_once(rt, file) {
            Err(Ending::Busy) => {}
            read => return read,
        }
    }
    Err(Ending::Busy)
}

// Whether SQLite takes this name for something other than a file.
fn is_no_file_name(name: &str) -> bool {
    name == ":memory:" || name.starts_with("file:")
}

/// The bytes of the database in a file, and of its log. It fails where opening the file itself fails,
/// except that the file may be read-only. It never creates the file. For a symbolic link the log is
/// the one beside its target.
pub(crate) fn read_store(rt: &HostRuntime, file: &str) -> Result<StoreBytes, Ending> {
    let real = match fs::canonicalize(rt, file) {
        Ok(real) => real,
        Err(error) => return Err(refusal(&error)),
    };
    if is_no_file_name(file) {
        return Err(UNOPENED);
    }
    read_at_rest(rt, real.as_str())
}

/// What a log was, to be compared.
#[derive(Clone, Copy, PartialEq, Eq)]
pub(crate) struct LogMark {
    len: usize,
    sum: u64,
}

impl LogMark {
    /// Of a log with these bytes.
    pub(crate) fn of(log: &[u8]) -> LogMark {
        LogMark {
            len: log.len(),
            sum: digest_of(0, log),
        }
    }
}

/// What the log of a store is now.
pub(crate) fn mark_log(rt: &HostRuntime, file: &str) -> Result<LogMark, Ending> {
    let real = match fs::canonicalize(rt, file) {
        Ok(real) => real,
        Err(error) => return Err(refusal(&error)),
    };
    let log = read_log(
        rt,
        format!(in rt.alloc(); "{}-wal", real.as_str())?.as_str(),
    )?;
    Ok(LogMark::of(log.as_slice()))
}

/// The data file of a store, to be read, where it is there and can be opened, and whether it was
/// refused.
pub(crate) fn open_data(rt: &HostRuntime, file: &str) -> (Option<DataFrom<DataStart>>, bool) {
    match open_to_read(rt, file, DataStart) {
        Ok(disk) => (Some(disk), false),
        Err(OpenFault::Missing) => (None, false),
        Err(_) => (None, true),
    }
}
