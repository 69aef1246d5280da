// A walk over a whole tree, which checks each row that it meets.
ghost use Rattle.std.specs.Prelude.{◌≡◌, ◌<◌, ◌≤◌, Option, Some, None, OnOk, IfOk, IfErr};
ghost use Rattle.fuse_rows.specs.Bounds.{read_limit};
ghost use Rattle.fuse_show.specs.Looks.{ReadOff};
ghost use Rattle.fuse_show.specs.Verdict.{Counts};
ghost use Rattle.fuse_show.specs.Walked.{OnlyWalked, TellsLook, WalkWrites};
ghost use Rattle.fuse_tree.specs.declared.look.LookFault.{LookFault};

use crate::checks::{fault_of_counters, fault_of_entry, fault_of_row, type_of};
use crate::findings::{Finding, show_finding, show_unread};
use crate::modes::is_directory;
use crate::tally::Tally;
use fuse_rows::{BLOCK_SIZE, Counters, EntryRow, MAX_READ, NodeRow, ROOT_ID, blocks_of};
use fuse_session::Sink;
use fuse_tree::{Look, LookFault, S_IFLNK};
use std::alloc::{AllocError, Global};

// The number of entries that one look reads.
const PAGE: usize = 1024;

/// Why a tree is not sound, or not all of it was looked at.
#[derive(Clone, Copy, Debug, PartialEq, Eq)]
pub enum VerifyFault {
    /// A look failed.
    Look(LookFault),
    /// A row is wrong. Its line is written.
    Wrong,
    /// There was no memory for the paths of the directories that were left.
    Memory,
    /// Writing failed.
    Output,
}

impl From<AllocError> for VerifyFault {
    ghost use Rattle.std.specs.Prelude.{◌≡◌};
    ghost use Rattle.fuse_show.specs.declared.verify.VerifyFault.TheVariants.{Memory};

    ghost from_gives = { λ _ e. e ≡ Memory };

    fn from(_e: AllocError) -> VerifyFault {
        VerifyFault::Memory
    }
}

// A directory whose entries are to be looked at.
#[derive(Drop)]
struct Place {
    node: u64,
    subdirs: u32,
    path: Vec<u8>,
}

// What a walk has met, and the directories that are left of it.
#[derive(Drop)]
struct Walk {
    tally: Tally,
    left: Vec<Place>,
}

// The fault of what is wrong at a path, of which the line is written.
fn wrong<W: Sink>(writer: &mut W, path: &[u8], finding: Finding) -> VerifyFault
    ensures found { WalkWrites W.was_written W.was_flushed writer.old writer.new result }
    ensures tells { (fault : Option LookFault) → TellsLook fault result }
{
    match show_finding(writer, path, finding) {
        Ok(()) => VerifyFault::Wrong,
        Err(_) => VerifyFault::Output,
    }
}

// The fault of a look at a path, of which a line is written.
fn unread<W: Sink>(writer: &mut W, path: &[u8], fault: LookFault) -> VerifyFault
    ensures found { WalkWrites W.was_written W.was_flushed writer.old writer.new result }
    ensures tells { (told : Option LookFault) → told ≡ Some fault → TellsLook told result }
{
    match show_unread(writer, path) {
        Ok(()) => VerifyFault::Look(fault),
        Err(_) => VerifyFault::Output,
    }
}

// The path of a name in a directory, from the root on. The root's own is empty.
fn path_of(alloc: Global, dir: &[u8], name: &[u8]) -> Result<Vec<u8>, AllocError> {
    let mut path = Vec::from_slice(alloc, dir)?;
    if !dir.is_empty() {
        path.push(b'/')?;
    }
    path.extend_from_slice(name)?;
    Ok(path)
}

// The number of bytes of the next read, when `left` bytes remain.
fn piece_of(left: u64) -> u32
    requires { 0 < left }
    ensures some { 0 < result }
    ensures within { result ≤ left }
{
    left.min(u64::from(MAX_READ)) as u32
}

// What is wrong with a piece of a content, which has so many bytes.
fn fault_of_piece(row: &NodeRow, bytes: &[u8], len: u32) -> Option<Finding> {
    if bytes.len() as u64 != u64::from(len) {
        return Some(Finding::ContentCutShort);
    }
    if type_of(row.mode) == S_IFLNK && bytes.contains(&0) {
        return Some(Finding::ZeroInTarget);
    }
    None
}

// Reads the bytes of a node from one number on and below another.
fn read_range<L: Look, W: Sink>(
    look: &mut L,
    row: &NodeRow,
    from: u64,
    to: u64,
    path: &[u8],
    writer: &mut W,
) -> Result<(), VerifyFault>
    requires { L.fault look.old ≡ None }
    ensures walked { OnlyWalked L.fault L.looks L.fails look.old look.new result }
    ensures silent { OnOk result (writer.new ≡ writer.old) }
    ensures found { IfErr result (WalkWrites W.was_written W.was_flushed writer.old writer.new) }
{
    let mut offset: u64 = from;
    while offset < to {
        let len = piece_of(to - offset);
        let bytes = match look.bytes(row.node, offset, len) {
            Ok(bytes) => bytes,
            Err(fault) => return Err(unread(writer, path, fault)),
        };
        if let Some(finding) = fault_of_piece(row, bytes.as_slice(), len) {
            return Err(wrong(writer, path, finding));
        }
        offset += u64::from(len);
    }
    Ok(())
}

// So many blocks are read at once where some of them are written.
const STRIDE: u64 = 256;

// A stretch of blocks: its first one, the first one after it, and how many of them are written.
#[derive(Clone, Copy)]
struct Stretch {
    from: u64,
    to: u64,
    count: u64,
}

// How many blocks of a stretch are written. What is written of it is read, if it isn't longer than is
// read at once.
fn read_stretch<L: Look, W: Sink>(
    look: &mut L,
    row: &NodeRow,
    from: u64,
    to: u64,
    path: &[u8],
    writer: &mut W,
) -> Result<Stretch, VerifyFault>
    requires { L.fault look.old ≡ None }
    ensures walked { OnlyWalked L.fault L.looks L.fails look.old look.new result }
    ensures silent { OnOk result (writer.new ≡ writer.old) }
    ensures found { IfErr result (WalkWrites W.was_written W.was_flushed writer.old writer.new) }
{
    let count = match look.blocks_between(row.node, from, to) {
        Ok(count) => count,
        Err(fault) => return Err(unread(writer, path, fault)),
    };
    if count == 0 || to.saturating_sub(from) > STRIDE {
        return Ok(Stretch { from, to, count });
    }
    let unit = u64::from(BLOCK_SIZE);
    let begin = from.saturating_mul(unit);
    let end = to.saturating_mul(unit).min(row.size);
    match read_range(look, row, begin, end, path, writer) {
        Ok(()) => Ok(Stretch { from, to, count }),
        Err(fault) => Err(fault),
    }
}

// The blocks that are looked at after a stretch: twice as many after one without a written block,
// half of one that is too long to be read, else as many as are read at once.
fn next_after(last: Stretch, end: u64) -> Option<(u64, u64)> {
    let len = last.to.saturating_sub(last.from);
    if last.count > 0 && len > STRIDE {
        return Some((last.from, last.from.saturating_add((len / 2).max(STRIDE))));
    }
    if last.to >= end {
        return None;
    }
    let more = if last.count == 0 {
        len.saturating_mul(2).max(STRIDE)
    } else {
        STRIDE
    };
    Some((last.to, last.to.saturating_add(more).min(end)))
}

// Reads what is written of a node, where the store counts written blocks: it has as many as are
// counted. Long holes are passed over, so that a large file without much in it takes no longer.
fn read_written<L: Look, W: Sink>(
    look: &mut L,
    row: &NodeRow,
    count: u64,
    path: &[u8],
    writer: &mut W,
) -> Result<(), VerifyFault>
    requires { L.fault look.old ≡ None }
    ensures walked { OnlyWalked L.fault L.looks L.fails look.old look.new result }
    ensures silent { OnOk result (writer.new ≡ writer.old) }
    ensures found { IfErr result (WalkWrites W.was_written W.was_flushed writer.old writer.new) }
{
    let end = blocks_of(row.size);
    let mut found: u64 = 0;
    let mut next = Some((0, STRIDE.min(end)));
    for _ in 0..u64::MAX {
        let Some((from, to)) = next else {
            break;
        };
        let stretch = match read_stretch(look, row, from, to, path, writer) {
            Ok(stretch) => stretch,
            Err(fault) => return Err(fault),
        };
        if to.saturating_sub(from) <= STRIDE {
            found = found.saturating_add(stretch.count);
        }
        next = next_after(stretch, end);
    }
    if found != count {
        return Err(wrong(writer, path, Finding::OtherWritten));
    }
    Ok(())
}

// Reads the whole content of a node.
fn read_content<L: Look, W: Sink>(
    look: &mut L,
    row: &NodeRow,
    path: &[u8],
    writer: &mut W,
) -> Result<(), VerifyFault>
    requires { L.fault look.old ≡ None }
    ensures walked { OnlyWalked L.fault L.looks L.fails look.old look.new result }
    ensures silent { OnOk result (writer.new ≡ writer.old) }
    ensures found { IfErr result (WalkWrites W.was_written W.was_flushed writer.old writer.new) }
{
    match row.written {
        Some(count) => read_written(look, row, count, path, writer),
        None => read_range(look, row, 0, row.size, path, writer),
    }
}

// The row of the node of an entry, whose content is read.
fn find_row<L: Look, W: Sink>(
    look: &mut L,
    number: u64,
    dir: u64,
    counters: &Counters,
    path: &[u8],
    writer: &mut W,
) -> Result<NodeRow, VerifyFault>
    requires { L.fault look.old ≡ None }
    ensures walked { OnlyWalked L.fault L.looks L.fails look.old look.new result }
    ensures silent { OnOk result (writer.new ≡ writer.old) }
    ensures found { IfErr result (WalkWrites W.was_written W.was_flushed writer.old writer.new) }
{
    let row = match look.node(number) {
        Ok(Some(row)) => row,
        Ok(None) => return Err(wrong(writer, path, Finding::NodeMissing)),
        Err(fault) => return Err(unread(writer, path, fault)),
    };
    if let Some(finding) = fault_of_row(&row, dir, counters) {
        return Err(wrong(writer, path, finding));
    }
    match read_content(look, &row, path, writer) {
        Ok(()) => Ok(row),
        Err(fault) => Err(fault),
    }
}

// The walk with one more node; a directory is left to be looked at.
fn add_node(walk: &mut Walk, row: &NodeRow, path: Vec<u8>) -> Result<(), AllocError> {
    walk.tally = walk.tally.with(row);
    if is_directory(row.mode) {
        walk.left.push(Place {
            node: row.node,
            subdirs: row.subdirs,
            path,
        })?;
    }
    Ok(())
}

// Checks an entry of a directory after this cookie, and its node. Returns the node's row.
fn visit_entry<L: Look, W: Sink>(
    alloc: Global,
    look: &mut L,
    walk: &mut Walk,
    place: &Place,
    entry: &EntryRow,
    after: u64,
    counters: &Counters,
    writer: &mut W,
) -> Result<NodeRow, VerifyFault>
    requires { L.fault look.old ≡ None }
    ensures walked { OnlyWalked L.fault L.looks L.fails look.old look.new result }
    ensures silent { OnOk result (writer.new ≡ writer.old) }
    ensures found { IfErr result (WalkWrites W.was_written W.was_flushed writer.old writer.new) }
{
    let path = path_of(alloc, place.path.as_slice(), entry.name.as_slice())?;
    if let Some(finding) = fault_of_entry(entry, place.node, after, counters) {
        return Err(wrong(writer, path.as_slice(), finding));
    }
    match find_row(
        look,
        entry.child,
        place.node,
        counters,
        path.as_slice(),
        writer,
    ) {
        Ok(row) => {
            add_node(walk, &row, path)?;
            Ok(row)
        }
        Err(fault) => Err(fault),
    }
}

// The cookie of the last entry of those that were checked, and the number of directories among them.
#[derive(Clone, Copy)]
struct Passed {
    cookie: u64,
    directories: u32,
}

impl Passed {
    // With one more entry.
    fn with(self, entry: &EntryRow, row: &NodeRow) -> Passed {
        let more = u32::from(is_directory(row.mode));
        Passed {
            cookie: entry.cookie,
            directories: self.directories.saturating_add(more),
        }
    }
}

// Checks entries of a directory, in order.
fn visit_entries<L: Look, W: Sink>(
    alloc: Global,
    look: &mut L,
    walk: &mut Walk,
    place: &Place,
    entries: &[EntryRow],
    before: Passed,
    counters: &Counters,
    writer: &mut W,
) -> Result<Passed, VerifyFault>
    requires { L.fault look.old ≡ None }
    ensures walked { OnlyWalked L.fault L.looks L.fails look.old look.new result }
    ensures silent { OnOk result (writer.new ≡ writer.old) }
    ensures found { IfErr result (WalkWrites W.was_written W.was_flushed writer.old writer.new) }
{
    let mut passed = before;
    for entry in entries {
        match visit_entry(
            alloc,
            look,
            walk,
            place,
            entry,
            passed.cookie,
            counters,
            writer,
        ) {
            Ok(row) => passed = passed.with(entry, &row),
            Err(fault) => return Err(fault),
        }
    }
    Ok(passed)
}

// Checks the entries of a directory after those that were passed, as many as one look reads. The
// second result is whether there may be more.
fn visit_page<L: Look, W: Sink>(
    alloc: Global,
    look: &mut L,
    walk: &mut Walk,
    place: &Place,
    before: Passed,
    counters: &Counters,
    writer: &mut W,
) -> Result<(Passed, bool), VerifyFault>
    requires { L.fault look.old ≡ None }
    ensures walked { OnlyWalked L.fault L.looks L.fails look.old look.new result }
    ensures silent { OnOk result (writer.new ≡ writer.old) }
    ensures found { IfErr result (WalkWrites W.was_written W.was_flushed writer.old writer.new) }
{
    let entries = match look.entries_after(place.node, before.cookie, PAGE) {
        Ok(entries) => entries,
        Err(fault) => return Err(unread(writer, place.path.as_slice(), fault)),
    };
    let page = entries.as_slice();
    match visit_entries(alloc, look, walk, place, page, before, counters, writer) {
        Ok(passed) => Ok((passed, page.len() == PAGE)),
        Err(fault) => Err(fault),
    }
}

// Checks all entries of a directory, and that it has as many directories as are counted. No more
// nodes are met than there are.
fn visit_directory<L: Look, W: Sink>(
    alloc: Global,
    look: &mut L,
    walk: &mut Walk,
    place: &Place,
    counters: &Counters,
    writer: &mut W,
) -> Result<(), VerifyFault>
    requires { L.fault look.old ≡ None }
    ensures walked { OnlyWalked L.fault L.looks L.fails look.old look.new result }
    ensures silent { OnOk result (writer.new ≡ writer.old) }
    ensures found { IfErr result (WalkWrites W.was_written W.was_flushed writer.old writer.new) }
{
    let mut passed = Passed {
        cookie: 0,
        directories: 0,
    };
    for _ in 0..counters.nodes {
        match visit_page(alloc, look, walk, place, passed, counters, writer) {
            Ok((more, true)) => passed = more,
            Ok((more, false)) => {
                if more.directories != place.subdirs {
                    let path = place.path.as_slice();
                    return Err(wrong(writer, path, Finding::OtherDirectories));
                }
                return Ok(());
            }
            Err(fault) => return Err(fault),
        }
    }
    let path = place.path.as_slice();
    Err(wrong(writer, path, Finding::MoreEntriesThanNodes))
}

// The walk that begins at the root.
fn begin_walk<L: Look, W: Sink>(
    alloc: Global,
    look: &mut L,
    counters: &Counters,
    writer: &mut W,
) -> Result<Walk, VerifyFault>
    requires { L.fault look.old ≡ None }
    ensures walked { OnlyWalked L.fault L.looks L.fails look.old look.new result }
    ensures silent { OnOk result (writer.new ≡ writer.old) }
    ensures found { IfErr result (WalkWrites W.was_written W.was_flushed writer.old writer.new) }
{
    if let Some(finding) = fault_of_counters(counters) {
        return Err(wrong(writer, b"", finding));
    }
    let row = match find_row(look, ROOT_ID, 0, counters, b"", writer) {
        Ok(row) => row,
        Err(fault) => return Err(fault),
    };
    if !is_directory(row.mode) {
        return Err(wrong(writer, b"", Finding::NoDirectoryAtRoot));
    }
    let mut walk = Walk {
        tally: Tally::NONE,
        left: Vec::new(alloc),
    };
    add_node(&mut walk, &row, Vec::new(alloc))?;
    Ok(walk)
}

// Goes on with a walk to its end.
fn go_on<L: Look, W: Sink>(
    alloc: Global,
    look: &mut L,
    walk: &mut Walk,
    counters: &Counters,
    writer: &mut W,
) -> Result<(), VerifyFault>
    requires { L.fault look.old ≡ None }
    ensures walked { OnlyWalked L.fault L.looks L.fails look.old look.new result }
    ensures silent { OnOk result (writer.new ≡ writer.old) }
    ensures found { IfErr result (WalkWrites W.was_written W.was_flushed writer.old writer.new) }
{
    for _ in 0..counters.nodes {
        let Some(place) = walk.left.pop() else {
            return Ok(());
        };
        match visit_directory(alloc, look, walk, &place, counters, writer) {
            Ok(()) => {}
            Err(fault) => return Err(fault),
        }
    }
    Ok(())
}

// What is wrong with what was met at the end of a walk. The walk is at its end only where no directory
// is left.
fn fault_of_walk(walk: &Walk, counters: &Counters) -> Option<Finding>
    ensures { result ≡ None → Counts counters.now walk.now.tally }
{
    if !walk.left.is_empty() || walk.tally.nodes > counters.nodes {
        return Some(Finding::MoreNodes);
    }
    if walk.tally.nodes != counters.nodes {
        return Some(Finding::FewerNodes);
    }
    match counters.room {
        Some(room) if room.used != walk.tally.blocks => Some(Finding::OtherBlocks),
        _ => None,
    }
}

/// Walks over the whole tree that a look sees, from the root on: checks each entry and the row of its
/// node, and reads each content. What is wrong is written on a line, with its path.
pub fn verify_tree<L: Look, W: Sink>(
    alloc: Global,
    look: &mut L,
    writer: &mut W,
) -> Result<Tally, VerifyFault>
    requires { L.fault look.old ≡ None }
    // Only looks are done, whatever they see.
    ensures walked { OnlyWalked L.fault L.looks L.fails look.old look.new result }
    // As many nodes and blocks were met as there are.
    ensures counted { ReadOff (L.is_clean look.new) (L.sees look.old) (λ rows.
        IfOk result (Counts rows.counters)) }
    // Nothing is written of a tree in which all is right, else the line of what is wrong.
    ensures silent { OnOk result (writer.new ≡ writer.old) }
    ensures found { IfErr result (WalkWrites W.was_written W.was_flushed writer.old writer.new) }
{
    let counters = match look.counters() {
        Ok(counters) => counters,
        Err(fault) => return Err(unread(writer, b"", fault)),
    };
    let mut walk = match begin_walk(alloc, look, &counters, writer) {
        Ok(walk) => walk,
        Err(fault) => return Err(fault),
    };
    match go_on(alloc, look, &mut walk, &counters, writer) {
        Ok(()) => {}
        Err(fault) => return Err(fault),
    }
    match fault_of_walk(&walk, &counters) {
        None => Ok(walk.tally),
        Some(finding) => Err(wrong(writer, b"", finding)),
    }
}
