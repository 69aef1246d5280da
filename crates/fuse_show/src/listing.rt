ghost use Rattle.std.specs.Prelude.{◌≡◌, ◌+◌, true, false, None};
ghost use Rattle.std.specs.Prelude.{IfErr, IfOk, IsTrue};
ghost use Rattle.std.specs.List.{AllByRecursion, flat_map};
ghost use Rattle.fuse_show.specs.Looks.{OnlyLooked, ReadUpTo, is_of_path, lies_between};
ghost use Rattle.fuse_show.specs.Looks.{look_fault_in};
ghost use Rattle.fuse_show.specs.Sinks.{Outputs};
ghost use Rattle.fuse_show.specs.inner.Writing.{PutsOut, WritesOut};
ghost use Rattle.fuse_tree.specs.RowsOfTrees.{LeadsToRow};
ghost use Rattle.fuse_show.specs.Listing.{links_of_row, row_text, entry_line, line_of_entry};
ghost use Rattle.fuse_show.specs.Listing.{listing};
ghost use Rattle.fuse_show.specs.inner.Pages.{cookie_at, is_higher, WritesPage};
ghost use Rattle.fuse_show.specs.Paths.{names_of};
ghost use Rattle.fuse_show.specs.Shown.{ShowsListing, WritesLines, way_of};

use crate::fault::ShowFault;
use crate::lookup::find;
use crate::modes::{is_directory, put_mode};
use crate::names::write_name;
use crate::output::{put, put_fields};
use fuse_plan::rows_of_trees;
use fuse_rows::{EntryRow, NodeRow};
use fuse_session::Sink;
use fuse_tree::Look;

// The number of entries that one look reads.
const PAGE: usize = 1024;

// The link count of a node that has a name.
fn links_of(row: &NodeRow) -> u64
    ensures { result ≡ links_of_row row.now }
{
    if is_directory(row.mode) {
        2 + u64::from(row.subdirs)
    } else {
        1
    }
}

// Writes the part of a line before the name.
fn put_row<W: Sink>(writer: &mut W, row: &NodeRow) -> Result<(), ShowFault>
    ensures put { PutsOut W.was_written writer.old writer.new result
        (λ bytes. WritesOut (row_text row.now) bytes result) }
    ensures fault { IfErr result (λ fault. fault ≡ ShowFault.Output) }
{
    match put_mode(writer, row.mode) {
        Ok(()) => {}
        Err(fault) => return Err(fault),
    }
    put_fields(
        writer,
        &[
            (" ", links_of(row)),
            (" ", u64::from(row.uid)),
            (" ", u64::from(row.gid)),
            (" ", row.size),
            (" ", row.node),
        ],
    )
}

// Writes the line of an entry: its name, and the row of its node.
fn write_entry<W: Sink>(writer: &mut W, row: &NodeRow, name: &[u8]) -> Result<(), ShowFault>
    ensures put { PutsOut W.was_written writer.old writer.new result
        (λ bytes. WritesOut (entry_line name.now row.now) bytes result) }
    ensures fault { IfErr result (λ fault. fault ≡ ShowFault.Output) }
{
    match put_row(writer, row) {
        Ok(()) => {}
        Err(fault) => return Err(fault),
    }
    match put(writer, b" ") {
        Ok(()) => {}
        Err(fault) => return Err(fault),
    }
    match write_name(writer, name) {
        Ok(()) => {}
        Err(fault) => return Err(fault),
    }
    put(writer, b"\n")
}

// Looks up the node of an entry, and writes the line of the entry.
fn show_entry<L: Look, W: Sink>(
    look: &mut L,
    entry: &EntryRow,
    writer: &mut W,
) -> Result<(), ShowFault>
    requires { L.fault look.old ≡ None }
    ensures line { PutsOut W.was_written writer.old writer.new result (λ bytes.
        ReadUpTo L.is_clean (lies_between L.looks L.fails look.old look.new) (L.sees look.old) look.new (look_fault_in result)
        (λ rows. LeadsToRow rows entry.now → WritesOut (line_of_entry rows entry.now) bytes result)) }
    ensures written { PutsOut W.was_written writer.old writer.new result
        (λ bytes. WritesLines bytes result) }
    ensures looked { OnlyLooked L.fault L.looks L.fails look.old look.new result }
    ensures reasons { IfErr result (λ fault. is_of_path fault ≡ false) }
{
    let Some(row) = look.node(entry.child)? else {
        return Err(ShowFault::NotATree);
    };
    write_entry(writer, &row, entry.name.as_slice())
}

// Writes the lines of entries, in order.
fn show_entries<L: Look, W: Sink>(
    look: &mut L,
    entries: &[EntryRow],
    writer: &mut W,
) -> Result<(), ShowFault>
    requires { L.fault look.old ≡ None }
    ensures lines { PutsOut W.was_written writer.old writer.new result (λ bytes.
        ReadUpTo L.is_clean (lies_between L.looks L.fails look.old look.new) (L.sees look.old) look.new (look_fault_in result)
        (λ rows. AllByRecursion (LeadsToRow rows) entries.now
        → WritesOut (flat_map (line_of_entry rows) entries.now) bytes result)) }
    ensures written { PutsOut W.was_written writer.old writer.new result
        (λ bytes. WritesLines bytes result) }
    ensures looked { OnlyLooked L.fault L.looks L.fails look.old look.new result }
    ensures reasons { IfErr result (λ fault. is_of_path fault ≡ false) }
{
    for entry in entries {
        match show_entry(look, entry, writer) {
            Ok(()) => {}
            Err(fault) => return Err(fault),
        }
    }
    Ok(())
}

// The cookie of the last entry of a full page.
fn last_cookie(page: &[EntryRow]) -> Option<u64>
    ensures { result ≡ cookie_at 1023 page.now }
{
    match page.get(PAGE - 1) {
        Some(entry) => Some(entry.cookie),
        None => None,
    }
}

// Whether `cookie` is `None` or higher than `after`.
fn is_higher(cookie: Option<u64>, after: u64) -> bool
    ensures { result ≡ is_higher cookie after }
{
    match cookie {
        Some(cookie) => cookie > after,
        None => true,
    }
}

// Writes the lines of the page of entries after the cookie `after`. Returns the cookie of the last
// one if there may be more.
fn list_page<L: Look, W: Sink>(
    look: &mut L,
    dir: u64,
    after: u64,
    writer: &mut W,
) -> Result<Option<u64>, ShowFault>
    requires { L.fault look.old ≡ None }
    ensures page { PutsOut W.was_written writer.old writer.new result (λ bytes.
        ReadUpTo L.is_clean (lies_between L.looks L.fails look.old look.new) (L.sees look.old) look.new (look_fault_in result)
        (λ rows. WritesPage rows dir after bytes result)) }
    ensures written { PutsOut W.was_written writer.old writer.new result
        (λ bytes. WritesLines bytes result) }
    ensures higher { IfOk result (λ left. IsTrue (is_higher left after)) }
    ensures looked { OnlyLooked L.fault L.looks L.fails look.old look.new result }
    ensures reasons { IfErr result (λ fault. is_of_path fault ≡ false) }
{
    rows_of_trees();
    let entries = look.entries_after(dir, after, PAGE)?;
    let last = last_cookie(entries.as_slice());
    if !is_higher(last, after) {
        return Err(ShowFault::NotATree);
    }
    match show_entries(look, entries.as_slice(), writer) {
        Ok(()) => Ok(last),
        Err(fault) => Err(fault),
    }
}

/// Writes a line for each entry of a directory, in the order of the directory, page by page.
pub(crate) fn list<L: Look, W: Sink>(
    look: &mut L,
    dir: u64,
    writer: &mut W,
) -> Result<(), ShowFault>
    requires { L.fault look.old ≡ None }
    ensures listed { PutsOut W.was_written writer.old writer.new result (λ bytes.
        ReadUpTo L.is_clean (lies_between L.looks L.fails look.old look.new) (L.sees look.old) look.new (look_fault_in result)
        (λ rows. WritesOut (listing rows dir) bytes result)) }
    ensures written { PutsOut W.was_written writer.old writer.new result
        (λ bytes. WritesLines bytes result) }
    ensures looked { OnlyLooked L.fault L.looks L.fails look.old look.new result }
    ensures reasons { IfErr result (λ fault. is_of_path fault ≡ false) }
{
    rows_of_trees();
    let mut left = Some(0);
    while let Some(after) = left {
        match list_page(look, dir, after, writer) {
            Ok(rest) => left = rest,
            Err(fault) => return Err(fault),
        }
    }
    Ok(())
}

/// Writes a line for each entry of the directory at a path.
pub fn show_listing<L: Look, W: Sink>(
    look: &mut L,
    path: &[u8],
    writer: &mut W,
) -> Result<(), ShowFault>
    requires { L.fault look.old ≡ None }
    ensures shown { Outputs W.was_written W.was_flushed writer.old writer.new (way_of result)
        (λ bytes. ReadUpTo L.is_clean (lies_between L.looks L.fails look.old look.new) (L.sees look.old) look.new
        (look_fault_in result) (λ rows. ShowsListing rows (names_of path.now) bytes result)) }
    // Whatever the rows are, lines of entries are written.
    ensures written { Outputs W.was_written W.was_flushed writer.old writer.new (way_of result)
        (λ bytes. WritesLines bytes result) }
    ensures looked { OnlyLooked L.fault L.looks L.fails look.old look.new result }
    // A fault of the path writes nothing.
    ensures silent { IfErr result (λ fault. is_of_path fault ≡ true
        → writer.new ≡ writer.old) }
{
    let place = match find(look, path) {
        Ok(place) => place,
        Err(fault) => return Err(fault),
    };
    if !is_directory(place.mode) {
        return Err(ShowFault::NotDirectory);
    }
    match list(look, place.node, writer) {
        Ok(()) => {}
        Err(fault) => return Err(fault),
    }
    match writer.flush_once() {
        Ok(()) => Ok(()),
        Err(_) => Err(ShowFault::Output),
    }
}
