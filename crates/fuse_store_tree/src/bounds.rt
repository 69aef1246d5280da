// The bounds of the numbers that the tables store.
ghost use Rattle.std.specs.Prelude.{◌↔◌, ◌+◌, ◌<◌, ◌≤◌, ◌^◌, IsTrue, IfSome};
ghost use Rattle.fuse_rows.specs.Blocks.{how_many};
ghost use Rattle.fuse_rows.specs.Bounds.{file_limit};
ghost use Rattle.fuse_rows.specs.Columns.{FitsNode, FitsEntry, FitsHandle, FitsCounters};
ghost use Rattle.fuse_rows.specs.Columns.{FitsChange, FitsRoom};

use fuse_rows::{CAPACITY_END, Change, Counters, EntryRow, HandleRow, MAX_FILE, NodeRow, Room};

// All numbers of nodes, handles, cookies and ids in the tables are below it: an INTEGER of SQLite
// has 63 bits and a sign.
pub(crate) const END: u64 = 1 << 63;

// Whether a number of written blocks fits, where they are counted.
fn count_fits(written: Option<u64>) -> bool
    ensures { IsTrue result ↔ (how_many written < 2 ^ 63) }
{
    match written {
        None => true,
        Some(count) => count < END,
    }
}

fn node_fits(row: &NodeRow) -> bool
    ensures { IsTrue result ↔ FitsNode row.now }
{
    row.node < END && row.up < END && row.size <= MAX_FILE && count_fits(row.written)
}

fn entry_fits(row: &EntryRow) -> bool
    ensures { IsTrue result ↔ FitsEntry row.now }
{
    row.dir < END && row.child < END && row.cookie < END
}

fn handle_fits(row: &HandleRow) -> bool
    ensures { IsTrue result ↔ FitsHandle row.now }
{
    row.fh < END && row.node < END
}

// Whether a room fits, where there is one.
fn room_fits(room: Option<Room>) -> bool
    ensures { IsTrue result ↔ IfSome room FitsRoom }
{
    match room {
        None => true,
        Some(room) => room.capacity < CAPACITY_END && room.used < CAPACITY_END,
    }
}

fn counters_fit(row: &Counters) -> bool
    ensures { IsTrue result ↔ FitsCounters row.now }
{
    let given = row.next_node < END && row.next_fh < END && row.next_cookie < END;
    given && row.nodes < END && row.handles < END && room_fits(row.room)
}

// Whether bytes at this offset end within the greatest size of a file.
fn ends_within(offset: u64, count: usize) -> bool
    ensures { IsTrue result ↔ (offset + count ≤ file_limit) }
{
    offset <= MAX_FILE && count as u64 <= MAX_FILE - offset
}

/// Whether the tables can store a change. The changes of a plan for a tree fit.
pub(crate) fn change_fits(change: &Change) -> bool
    ensures { IsTrue result ↔ FitsChange change.now }
{
    match change {
        Change::Node(row) => node_fits(row),
        Change::NodeGone { node } => *node < END,
        Change::Entry(row) => entry_fits(row),
        Change::EntryGone { cookie } => *cookie < END,
        Change::Handle(row) => handle_fits(row),
        Change::HandleGone { fh } => *fh < END,
        Change::Written {
            node,
            offset,
            bytes,
        } => *node < END && ends_within(*offset, bytes.as_slice().len()),
        Change::Sized { node, size } => *node < END && *size <= MAX_FILE,
        Change::Counters(row) => counters_fit(row),
        Change::Settings(settings) => settings.flags.0 < END,
    }
}
