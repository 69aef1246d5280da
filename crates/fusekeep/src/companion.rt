//! The log and the data file that an opening makes beside a store: a refused file keeps no log, and no
//! store keeps an empty data file.

use fuse_commands::Ending;
use fuse_data_host::SUFFIX;
use std::{fs, io};

// The size of a log to which nothing was committed.
const EMPTY_LOG: u64 = 41;

// The status of a fault of the store.
const STORE_FAULT: u8 = 3;

/// The files beside a store that were missing before a run.
#[derive(Drop)]
pub(crate) struct Missing {
    log: Option<String>,
    data: Option<String>,
}

// The path of a file that is named after a store, if there is none yet. For a symbolic link it is the
// one beside its target.
fn missing_beside(rt: &HostRuntime, file: &str, suffix: &str) -> Option<String> {
    let real = fs::canonicalize(rt, file).ok()?;
    let path = format!(in rt.alloc(); "{}{suffix}", real.as_str()).ok()?;
    match fs::symlink_metadata(rt, path.as_str()) {
        Err(error) if error.kind() == io::ErrorKind::NotFound => Some(path),
        _ => None,
    }
}

// The path that a store has once it is made, where there is none yet.
fn missing_with(rt: &HostRuntime, file: &str, suffix: &str) -> Option<String> {
    match fs::exists(rt, file) {
        Ok(false) => format!(in rt.alloc(); "{file}{suffix}").ok(),
        _ => missing_beside(rt, file, suffix),
    }
}

/// What is missing beside a store. A store that isn't there yet has no log to lose.
pub(crate) fn look_beside(rt: &HostRuntime, file: &str) -> Missing {
    Missing {
        log: missing_beside(rt, file, "-wal"),
        data: missing_with(rt, file, SUFFIX),
    }
}

// Removes a file of at most so many bytes.
fn remove_short(rt: &HostRuntime, path: &str, most: u64) {
    match fs::symlink_metadata(rt, path) {
        Ok(found) if found.is_file() && found.len() <= most => {
            let _ = fs::remove_file(rt, path);
        }
        _ => {}
    }
}

/// Removes the log that was made for a file whose store has a fault, unless something was committed to
/// it, and a data file that was made and left empty. The caller still has the files open, and so
/// locked: nobody else uses them.
pub(crate) fn remove_unused(rt: &HostRuntime, missing: Missing, ending: Ending) {
    let Missing { log, data } = missing;
    if let Some(path) = log
        && ending.status() == STORE_FAULT
    {
        remove_short(rt, path.as_str(), EMPTY_LOG);
    }
    if let Some(path) = data {
        remove_short(rt, path.as_str(), 0);
    }
}
