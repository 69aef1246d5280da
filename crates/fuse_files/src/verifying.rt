// Whether the store in files that were read is sound.
ghost use Rattle.std.specs.Prelude.{◌≡◌, ◌⊎◌, None, IfOk, IfErr, IsTrue};
ghost use Rattle.sqlite.specs.Held.{state};
ghost use Rattle.fuse_data.specs.State.{state_in};
ghost use Rattle.fuse_store_tree.specs.Looking.{as_look_fault};
ghost use Rattle.fuse_store_tree.specs.Viewing.{view_in};
ghost use Rattle.fuse_store.specs.TableKeeper.{disk_in, parts_state};
ghost use Rattle.fuse_files.specs.StoreShown.{image_in, store_read, OutputsAs, SaysSo, SaysTrue};
ghost use Rattle.fuse_files.specs.StoreShown.{IsUnopened};
ghost use Rattle.fuse_files.specs.StoreVerified.{rows_begun, IsStoreEnding, Verdicts, Verifies};
ghost use Rattle.fuse_files.specs.inner.Showing.{Fails, IsAlwaysClean, LooksAt};
ghost use Rattle.fuse_files.specs.inner.Verifying.{VerifiesInside, VerifiesOver, walk_ending};
ghost use Rattle.fuse_files.specs.StoreSimulations.{AreSure};

use crate::showing::{
    ShownStore, StoreBytes, ending_of_look, lies_beside, look_in, open_copy, shown_over,
};
use fuse_commands::Ending;
use fuse_keeper::StoreFault;
use fuse_session::Sink;
use fuse_show::{Finding, Tally, VerifyFault, show_finding, show_tally, verify_tree};
use fuse_store::{StoreKeeper, StoreParts};
use fuse_store_files::plain_over_any;
use fuse_store_tables::{Layout, layout_of};
use fuse_store_tree::{Data, TableLook};
use sqlite::{Alter, Connection, Error};
use sqlite_disk::{Disk, Memory};
use std::alloc::Global;

const NODES: &str = "SELECT count(*) FROM nodes";

const ENTRIES: &str = "SELECT count(*) FROM entries";

// The blocks that begin at or after the end of their file. A node that is no file has no end.
const BLOCKS: &str = "SELECT count(*) FROM blocks JOIN nodes ON nodes.node = blocks.node \
    WHERE blocks.block * 4096 >= nodes.size OR blocks.block < 0";

// All pieces, and those of the nodes that are there.
const PIECES: &str = "SELECT count(*) FROM pieces";

const OWNED: &str = "SELECT count(*) FROM pieces JOIN nodes ON nodes.node = pieces.node";

// The pieces that end after the last block of their file.
const BEYOND: &str = "SELECT count(*) FROM pieces JOIN nodes ON nodes.node = pieces.node \
    WHERE (pieces.first + pieces.count - 1) * 4096 >= nodes.size OR pieces.first < 0";

// A store of version 2 that becomes one of version 3 in memory gets this number.
const NUMBER: u64 = 0;

// A look at the store of a database, once a mount begins of it.
fn look_begun<S: Alter + Drop, D: Disk + Drop>(
    alloc: Global,
    parts: StoreParts<S, D>,
) -> Result<TableLook<S, Data<D>>, ShownStore<D>>
    ensures begins { IfOk result (λ look. as_look_fault look.fault ≡ None) }
    ensures unknown { IfOk result (λ look. look.known ≡ None) }
    ensures fresh { IfOk result (λ look. look.last ≡ None) }
    ensures looks { IfOk result (λ look. IsAlwaysClean S.Store
        → IsTrue (state_in D.Disk look.contents.file).is_clean
        → LooksAt rows_begun (parts_state S.Store D.Disk parts)
        (view_in D.Disk look.contents).bytes (state S.Store look.conn)) }
    ensures fails { IfErr result (λ e. IsAlwaysClean S.Store
        → IsTrue (disk_in D.Disk e.disk).is_clean
        → Fails (parts_state S.Store D.Disk parts) e.ending) }
    ensures fault { IfErr result (λ e. IsStoreEnding e.ending) }
{
    match StoreKeeper::open_begun(alloc, parts, Some(NUMBER)) {
        Ok(keeper) => look_in(alloc, keeper),
        Err((fault, StoreParts { disk, .. })) => Err(ShownStore {
            ending: Ending::of(fault),
            disk,
        }),
    }
}

// The ending of a walk with this fault, over a look that has this one.
fn ending_of_walk(walked: VerifyFault, fault: Option<StoreFault>) -> Ending
    ensures { result ≡ walk_ending fault walked }
{
    match walked {
        VerifyFault::Look(_) => ending_of_look(fault),
        VerifyFault::Wrong => Ending::Damaged,
        VerifyFault::Memory => Ending::Memory,
        VerifyFault::Output => Ending::PortFailed,
    }
}

// The number that a statement shows.
fn number<S: Alter>(conn: &mut Connection<S>, text: &str) -> Result<u64, Error> {
    let number: i64 = conn.query_row(text, &[])?.get(0)?;
    Ok(number.unsigned_abs())
}

// What is wrong with the rows of pieces that a walk does not meet.
fn stray_pieces<S: Alter>(conn: &mut Connection<S>) -> Result<Option<Finding>, Error> {
    if layout_of(conn) == Layout::Second {
        return Ok(None);
    }
    if number(conn, PIECES)? != number(conn, OWNED)? {
        return Ok(Some(Finding::Strays));
    }
    if number(conn, BEYOND)? != 0 {
        return Ok(Some(Finding::BlocksBeyond));
    }
    Ok(None)
}

// What is wrong with the rows of the tables that a walk does not meet.
fn strays<S: Alter>(conn: &mut Connection<S>, tally: &Tally) -> Result<Option<Finding>, Error> {
    let entries = number(conn, ENTRIES)?;
    if number(conn, NODES)? != tally.nodes || entries.saturating_add(1) != tally.nodes {
        return Ok(Some(Finding::Strays));
    }
    if number(conn, BLOCKS)? != 0 {
        return Ok(Some(Finding::BlocksBeyond));
    }
    stray_pieces(conn)
}

// Writes what was found in the tables.
fn write_found<W: Sink>(writer: &mut W, finding: Finding) -> Ending
    ensures { OutputsAs W.was_written W.was_flushed writer.old writer.new
        (Verdicts (λ _. ⊥) (λ _. ⊥) result) }
{
    match show_finding(writer, b"", finding) {
        Ok(()) => Ending::Damaged,
        Err(_) => Ending::PortFailed,
    }
}

// Writes what was counted.
fn write_tally<W: Sink>(writer: &mut W, tally: &Tally) -> Ending
    ensures { OutputsAs W.was_written W.was_flushed writer.old writer.new
        (Verdicts (λ _. ⊥) (λ t. t ≡ tally.now) result) }
{
    match show_tally(tally, writer) {
        Ok(()) => Ending::Done,
        Err(_) => Ending::PortFailed,
    }
}

// Writes what was found, or else what was counted.
fn write_verdict<W: Sink>(writer: &mut W, tally: &Tally, found: Option<Finding>) -> Ending
    ensures { OutputsAs W.was_written W.was_flushed writer.old writer.new
        (Verdicts (λ _. ⊥) (λ t. t ≡ tally.now) result) }
{
    match found {
        Some(finding) => write_found(writer, finding),
        None => write_tally(writer, tally),
    }
}

// Verifies the store of a database. A mount of it begins, so that nodes without a name are gone.
fn verify_of<S: Alter + Drop, D: Disk + Drop, W: Sink>(
    alloc: Global,
    parts: StoreParts<S, D>,
    writer: &mut W,
) -> ShownStore<D>
    ensures verified { IsAlwaysClean S.Store → IsTrue (disk_in D.Disk result.disk).is_clean
        → OutputsAs W.was_written W.was_flushed writer.old writer.new
        (VerifiesOver (parts_state S.Store D.Disk parts) result.ending) }
    ensures says { IsAlwaysClean S.Store → IsTrue (disk_in D.Disk result.disk).is_clean
        → SaysSo (state S.Store parts.conn).now result.ending }
{
    let mut look = match look_begun(alloc, parts) {
        Ok(look) => look,
        Err(shown) => return shown,
    };
    let tally = match verify_tree(alloc, &mut look, writer) {
        Ok(tally) => tally,
        Err(walk) => {
            let fault = look.fault.take();
            return shown_over(look, ending_of_walk(walk, fault));
        }
    };
    match strays(&mut look.conn, &tally) {
        Ok(found) => {
            let ending = write_verdict(writer, &tally, found);
            shown_over(look, ending)
        }
        Err(error) => shown_over(look, Ending::of(StoreFault::from(error))),
    }
}

// Verifies the store of a database whose contents lie in its tables. What it becomes gets this disk,
// which always returns what was written.
fn verify_inside<S: Alter + Drop, D: Disk + Drop, W: Sink>(
    alloc: Global,
    conn: Connection<S>,
    memory: D,
    writer: &mut W,
) -> Ending
    ensures verified { IsAlwaysClean S.Store → AreSure D.Disk
        → OutputsAs W.was_written W.was_flushed writer.old writer.new
        (VerifiesInside (state S.Store conn) result) }
    ensures says { IsAlwaysClean S.Store → AreSure D.Disk
        → SaysSo (state S.Store conn).now result }
{
    let parts = StoreParts {
        conn,
        disk: Some(memory),
    };
    let ShownStore { ending, .. } = verify_of(alloc, parts, writer);
    ending
}

/// Verifies the store in files of which these bytes were read: walks over its whole tree, as a mount
/// that begins finds it, and writes `ok` with what it counted, or the first thing wrong with its path. A
/// copy of them in memory is opened, so the files stay as they are. What they list of the data file is
/// read from its disk, which is handed back.
pub fn verify_store<D: Disk + Drop, W: Sink>(
    alloc: Global,
    read: StoreBytes,
    disk: Option<D>,
    writer: &mut W,
) -> ShownStore<D>
    // One line is written: what was counted of the store that they hold, or what is wrong, if the
    // disk has returned what was written.
    ensures verified { IsTrue (disk_in D.Disk result.disk).is_clean
        → OutputsAs W.was_written W.was_flushed writer.old writer.new
        (Verifies (store_read D.Disk read disk) result.ending) }
    // Of any files the ending says what is so.
    ensures says { IsTrue (disk_in D.Disk result.disk).is_clean
        → IsUnopened (image_in read) result.ending ⊎ SaysTrue (image_in read) result.ending }
{
    plain_over_any();
    let conn = match open_copy(alloc, read) {
        Ok(conn) => conn,
        Err(ending) => return ShownStore { ending, disk },
    };
    if lies_beside(&conn) {
        return verify_of(alloc, StoreParts { conn, disk }, writer);
    }
    let ending = verify_inside(alloc, conn, Memory::new(alloc), writer);
    ShownStore { ending, disk }
}
