//! A second line on standard error: the file that was refused, the cause, as far as it is known, and what
//! can be done about it.

use crate::ends::{DataEnd, End};
use crate::snapshot::{has_journal, read_store};
use fuse_commands::{Cause, Ending, Run, STANDARD_INPUT, Work};
use fuse_data_host::SUFFIX;
use fuse_files::number_of;
use std::fs::{self, OpenOptions};
use std::io::Read;
use std::os::unix::fs::MetadataExt;
use std::{fmt, io};

const NONE_THERE: &str = ": No such file or directory";

const NOT_MADE: &str = " can't be made: its folder may be on a read-only file system";

// The first bytes of a database of SQLite.
const DATABASE: [u8; 16] = *b"SQLite format 3\0";

const CORRUPT: &str =
    " is damaged: a page is missing or wrong. Go back to a copy, or try .recover of sqlite3";

const DAMAGED: &str =
    " is damaged: its rows contradict each other. Go back to a copy, or look at them with sqlite3";

const OTHER_VERSION: &str =
    " is a store of a version that this program doesn't know: it knows 1 to 3";

const CHANGING: &str = " was written by a server each time that it was read: try again";

// A file, and what is said of it.
#[derive(Clone, Copy)]
struct CauseLine<'a> {
    path: &'a str,
    text: &'static str,
}

impl fmt::Display for CauseLine<'_> {
    fn fmt<W: fmt::Write>(&self, f: &mut fmt::Formatter<W>) -> fmt::Result {
        write!(f, "{}{}", self.path, self.text)
    }
}

fn say(rt: &HostRuntime, path: &str, text: &'static str) {
    let _ = rt.eprintln(CauseLine { path, text });
}

// What is said of a file that a call refused.
fn text_of(error: &io::Error) -> Option<&'static str> {
    match error.kind() {
        io::ErrorKind::NotFound => Some(NONE_THERE),
        io::ErrorKind::PermissionDenied => Some(": Permission denied"),
        io::ErrorKind::IsADirectory => Some(": Is a directory"),
        io::ErrorKind::NotADirectory => Some(": Not a directory"),
        io::ErrorKind::ReadOnlyFilesystem => Some(": Read-only file system"),
        io::ErrorKind::FilesystemLoop => Some(": Too many levels of symbolic links"),
        io::ErrorKind::StorageFull => Some(": no room left"),
        _ => None,
    }
}

// Why a file can't be opened for reading or, if it is a part of a store, for writing.
fn refusal_of(rt: &HostRuntime, path: &str, writes: bool) -> Option<&'static str> {
    match fs::metadata(rt, path) {
        Ok(found) if found.is_dir() => return Some(": Is a directory"),
        Ok(found) if !found.is_file() => return None,
        Ok(_) => {}
        Err(error) => return text_of(&error),
    }
    match OpenOptions::new().read(true).write(writes).open(rt, path) {
        Ok(_) => None,
        Err(error) => text_of(&error),
    }
}

// Why a file of a store can't be opened. SQLite takes no file that has two names.
fn store_refusal(rt: &HostRuntime, path: &str, writes: bool) -> Option<&'static str> {
    match fs::metadata(rt, path) {
        Ok(found) if found.is_file() && found.nlink() > 1 => Some(
            " has another name (a hard link)",
        ),
        Ok(found) if !found.is_file() && !found.is_dir() => Some(" is no regular file"),
        _ => refusal_of(rt, path, writes),
    }
}

// The folder of a file.
fn folder_of(path: &str) -> &str {
    match path.rsplit_once('/') {
        Some((folder, _)) if folder.is_empty() => "/",
        Some((folder, _)) => folder,
        None => ".",
    }
}

// Whether this process may make files in a folder, by the owner and the mode. Of its groups only the
// first counts.
fn may_write(rt: &HostRuntime, folder: &fs::Metadata) -> bool {
    let Ok(own) = fs::metadata(rt, "/proc/self") else {
        return true;
    };
    let wanted = if own.uid() == folder.uid() {
        0o200
    } else if own.gid() == folder.gid() {
        0o020
    } else {
        0o002
    };
    own.uid() == 0 || folder.mode() & wanted != 0
}

// Why a file can't be made, as far as its folder shows it. Nothing is made.
fn making_refusal(rt: &HostRuntime, path: &str) -> Option<&'static str> {
    match fs::metadata(rt, folder_of(path)) {
        Ok(folder) if !may_write(rt, &folder) => Some(": Permission denied"),
        Ok(_) => None,
        Err(error) => text_of(&error),
    }
}

// Why the file of a store, or the log beside it, can't be opened.
fn say_unopened(rt: &HostRuntime, file: &str, writes: bool) {
    if file == ":memory:" || file.starts_with("file:") {
        return say(rt, file, " is no name of a file for SQLite");
    }
    match store_refusal(rt, file, writes) {
        Some(NONE_THERE) if writes => {
            say(rt, file, making_refusal(rt, file).unwrap_or(NOT_MADE))
        }
        Some(text) => say(rt, file, text),
        None => say_unopened_beside(rt, file, writes),
    }
}

// The same of the files beside it.
fn say_unopened_beside(rt: &HostRuntime, file: &str, writes: bool) {
    let Ok(real) = fs::canonicalize(rt, file) else {
        return;
    };
    let real = real.as_str();
    let Ok(journal) = format!(in rt.alloc(); "{real}-journal") else {
        return;
    };
    if has_journal(rt, journal.as_str()) {
        return say(
            rt,
            journal.as_str(),
            " is there: open the file with sqlite3 first",
        );
    }
    for suffix in ["-wal", SUFFIX] {
        let Ok(path) = format!(in rt.alloc(); "{real}{suffix}") else {
            return;
        };
        if let Some(text) = refusal_beside(rt, path.as_str(), writes) {
            return say(rt, path.as_str(), text);
        }
    }
}

// Why a file beside a store can't be opened, or made where it is missing.
fn refusal_beside(rt: &HostRuntime, path: &str, writes: bool) -> Option<&'static str> {
    match store_refusal(rt, path, writes) {
        Some(NONE_THERE) if writes => making_refusal(rt, path),
        Some(NONE_THERE) => None,
        other => other,
    }
}

// The cause of a fault of the store in a file.
fn say_of_store(rt: &HostRuntime, file: &str, writes: bool, ending: Ending) {
    match ending {
        Ending::Sql(Cause::CannotOpen) => say_unopened(rt, file, writes),
        Ending::Sql(Cause::InUse) => say(rt, file, " is in use by another server"),
        Ending::Sql(Cause::NoRoom) => say(rt, file, ": no room left"),
        Ending::Sql(Cause::InputOutput) => say(rt, file, ": input/output error"),
        Ending::Sql(Cause::Corrupt) => say(rt, file, CORRUPT),
        Ending::NotAStore => say(rt, file, stranger_text(rt, file)),
        Ending::Version(_) => say(rt, file, OTHER_VERSION),
        Ending::Damaged => say_damaged(rt, file),
        Ending::Busy => say(rt, file, CHANGING),
        Ending::Memory => say_memory(rt, file, writes),
        _ => {}
    }
}

// The path of the data file of a store.
fn data_path(rt: &HostRuntime, file: &str) -> Option<String> {
    let real = fs::canonicalize(rt, file).ok()?;
    format!(in rt.alloc(); "{}{SUFFIX}", real.as_str()).ok()
}

// Whether a file begins as the contents of the store with this number do.
fn begins_as(rt: &HostRuntime, path: &str, number: u64) -> bool {
    let Ok(mut file) = fs::open(rt, path) else {
        return false;
    };
    let mut first = [0; 32];
    if !matches!(file.read(&mut first), Ok(32)) {
        return false;
    }
    let version: u64 = 3;
    &first[..16] == b"fusekeep content".as_slice()
        && &first[16..24] == version.to_le_bytes().as_slice()
        && &first[24..] == number.to_le_bytes().as_slice()
}

// Why a store is damaged: its data file is missing or of another one, or else its rows.
fn say_damaged(rt: &HostRuntime, file: &str) {
    let number = match read_store(rt, file) {
        Ok(read) => number_of(rt.alloc(), read),
        Err(_) => None,
    };
    if let Some(number) = number
        && let Some(path) = data_path(rt, file)
    {
        if let Some(text) = refusal_of(rt, path.as_str(), false) {
            return say(rt, path.as_str(), text);
        }
        if !begins_as(rt, path.as_str(), number) {
            return say(rt, path.as_str(), " has contents of another store");
        }
    }
    say(rt, file, DAMAGED)
}

// The cause of a fault of the store in a file, or in its data file.
fn say_of_files(rt: &HostRuntime, file: &str, writes: bool, end: End) {
    let is_disk = matches!(end.ending, Ending::Sql(Cause::NoRoom | Cause::InputOutput));
    let text = match end.data {
        DataEnd::NoRoom if is_disk => ": no room left",
        DataEnd::Failed if is_disk => ": input/output error",
        _ => return say_of_store(rt, file, writes, end.ending),
    };
    if let Some(path) = data_path(rt, file) {
        say(rt, path.as_str(), text);
    }
}

// Whether a file begins as a database of SQLite does.
fn is_database(rt: &HostRuntime, path: &str) -> bool {
    let Ok(mut file) = fs::open(rt, path) else {
        return false;
    };
    let mut first = [0; 16];
    matches!(file.read(&mut first), Ok(16)) && first == DATABASE
}

// Why a file is no store.
fn stranger_text(rt: &HostRuntime, file: &str) -> &'static str {
    match fs::metadata(rt, file) {
        Err(error) if error.kind() == io::ErrorKind::NotFound => NONE_THERE,
        Ok(found) if found.len() == 0 => " is empty: serve --fresh makes a store in it",
        _ if is_database(rt, file) => " is a database of SQLite, and no store of this program",
        _ => " is no database of SQLite",
    }
}

// How much memory a command over the store in a file wants.
#[derive(Clone, Copy)]
struct MemoryLine<'a> {
    path: &'a str,
    size: u64,
    writes: bool,
}

impl fmt::Display for MemoryLine<'_> {
    fn fmt<W: fmt::Write>(&self, f: &mut fmt::Formatter<W>) -> fmt::Result {
        let size = self.size;
        write!(f, "{} and its log have {size} bytes: ", self.path)?;
        if self.writes {
            write!(f, "a server wants as many, and some 30 MB more. ")?;
            write!(
                f,
                "One that migrates an everyday store of version 2 wants two to three times as many"
            )
        } else {
            let (copies, older) = (size.saturating_mul(3), size.saturating_mul(8));
            write!(
                f,
                "a look at a copy in memory wants some {copies}, and 10 MB more. "
            )?;
            write!(f, "At an everyday store of version 2 it wants some {older}")
        }
    }
}

// The size of a file, 0 where there is none.
fn size_at(rt: &HostRuntime, path: &str) -> u64 {
    match fs::metadata(rt, path) {
        Ok(found) => found.len(),
        Err(_) => 0,
    }
}

// The memory that was wanted for the store in a file and for its log. Where there is none to name the
// log, that is said of the file alone.
fn say_memory(rt: &HostRuntime, file: &str, writes: bool) {
    let log = match format!(in rt.alloc(); "{file}-wal") {
        Ok(path) => size_at(rt, path.as_str()),
        Err(_) => 0,
    };
    let size = size_at(rt, file).saturating_add(log);
    let _ = rt.eprintln(MemoryLine {
        path: file,
        size,
        writes,
    });
}

// The cause of a fault of the input.
fn say_of_input(rt: &HostRuntime, input: &str, ending: Ending) {
    if input == STANDARD_INPUT {
        return;
    }
    match ending {
        Ending::PortFailed => {
            if let Some(text) = refusal_of(rt, input, false) {
                say(rt, input, text);
            }
        }
        Ending::TooLong { at: 0, .. } | Ending::ScriptLine { line: 1 } => {
            if is_database(rt, input) {
                say(
                    rt,
                    input,
                    " is a database, and no stream or script: fusekeep store sums up a store",
                );
            }
        }
        _ => {}
    }
}

/// Prints the cause of an ending of this run, if it is known.
pub(crate) fn say_cause(rt: &HostRuntime, run: Run<'_>, end: End) {
    let End { ending, data } = end;
    match run {
        Run::Serve { db, .. } => say_of_files(rt, db, true, end),
        Run::Store { file }
        | Run::List { file, .. }
        | Run::Cat { file, .. }
        | Run::Verify { file } => say_of_store(rt, file, false, ending),
        Run::Read { input, work } => {
            if let Work::Replay { db: Some(file), .. } = work {
                say_of_files(rt, file, true, End { ending, data });
            }
            say_of_input(rt, input, ending);
        }
    }
}
