// What the rows of a tree must be, one by one. Each function returns what is wrong.
use crate::findings::Finding;
use fuse_rows::{COUNTER_END, Counters, EntryRow, MAX_TARGET, NodeRow, ROOT_ID};
use fuse_tree::{
    S_IFBLK, S_IFCHR, S_IFDIR, S_IFIFO, S_IFLNK, S_IFREG, S_IFSOCK, TYPE_UNIT, TYPES, max_file,
};

// The most bytes of a name.
const MAX_NAME: usize = 255;

// A mode has only a type and twelve bits of permissions.
const MODE_END: u32 = 0o200_000;

// The least cookie of an entry.
const FIRST_COOKIE: u64 = 3;

// The type of a mode.
pub(crate) fn type_of(mode: u32) -> u32 {
    mode / TYPE_UNIT % TYPES * TYPE_UNIT
}

fn is_device(mode: u32) -> bool {
    let kind = type_of(mode);
    kind == S_IFCHR || kind == S_IFBLK
}

fn is_type(mode: u32) -> bool {
    let kind = type_of(mode);
    kind == S_IFDIR
        || kind == S_IFREG
        || kind == S_IFLNK
        || kind == S_IFIFO
        || kind == S_IFSOCK
        || is_device(mode)
}

fn is_name(name: &[u8]) -> bool {
    !name.is_empty()
        && name.len() <= MAX_NAME
        && name != b".".as_slice()
        && name != b"..".as_slice()
        && !name.contains(&b'/')
        && !name.contains(&0)
}

/// Of an entry after this cookie in this directory.
pub(crate) fn fault_of_entry(
    entry: &EntryRow,
    dir: u64,
    after: u64,
    counters: &Counters,
) -> Option<Finding> {
    if entry.dir != dir {
        return Some(Finding::EntryOfAnotherDirectory);
    }
    if entry.cookie <= after || entry.cookie < FIRST_COOKIE {
        return Some(Finding::CookieOutOfOrder);
    }
    if entry.cookie >= counters.next_cookie {
        return Some(Finding::CookieNotGiven);
    }
    if !is_name(entry.name.as_slice()) {
        return Some(Finding::NoName);
    }
    if entry.child == ROOT_ID {
        return Some(Finding::LeadsToRoot);
    }
    if entry.child == 0 || entry.child >= counters.next_node {
        return Some(Finding::NodeNotGiven);
    }
    None
}

// Of the size of a node.
fn fault_of_size(row: &NodeRow, counters: &Counters) -> Option<Finding> {
    let kind = type_of(row.mode);
    let fits = if kind == S_IFREG {
        row.size <= max_file(counters.profile())
    } else if kind == S_IFLNK {
        row.size > 0 && row.size <= u64::from(MAX_TARGET)
    } else {
        row.size == 0
    };
    if fits { None } else { Some(Finding::NoSize) }
}

/// Of the row of a node in this directory, 0 for the root.
pub(crate) fn fault_of_row(row: &NodeRow, dir: u64, counters: &Counters) -> Option<Finding> {
    if row.up != dir {
        return Some(Finding::NodeOfAnotherDirectory);
    }
    if row.mode >= MODE_END || !is_type(row.mode) {
        return Some(Finding::NoMode);
    }
    if row.rdev != 0 && !is_device(row.mode) {
        return Some(Finding::DeviceNumberOfNoDevice);
    }
    if type_of(row.mode) == S_IFLNK && counters.room.is_none() {
        return Some(Finding::LinkInPlainStore);
    }
    fault_of_size(row, counters)
}

/// Of the counters.
pub(crate) fn fault_of_counters(counters: &Counters) -> Option<Finding> {
    if counters.next_node > COUNTER_END
        || counters.next_fh > COUNTER_END
        || counters.next_cookie > COUNTER_END
    {
        return Some(Finding::HighCounter);
    }
    match counters.room {
        Some(room) if room.used > room.capacity => Some(Finding::MoreUsedThanRoom),
        _ => None,
    }
}
