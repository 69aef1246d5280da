ghost use Rattle.std.specs.Prelude.{◌≡◌, ◌<◌, ◌≤◌, true, false, None, Some, Err, IfErr};
ghost use Rattle.fuse_rows.specs.Rows.{row_at};
ghost use Rattle.fuse_rows.specs.Bounds.{file_limit, read_limit};
ghost use Rattle.fuse_show.specs.declared.fault.ShowFault.TheVariants.{NotATree};
ghost use Rattle.fuse_show.specs.Looks.{OnlyLooked, ReadUpTo, is_of_path, lies_between};
ghost use Rattle.fuse_show.specs.Looks.{look_fault_in};
ghost use Rattle.fuse_show.specs.Sinks.{Outputs};
ghost use Rattle.fuse_show.specs.inner.Writing.{PutsOut, WritesOut};
ghost use Rattle.fuse_show.specs.Content.{content_at};
ghost use Rattle.fuse_show.specs.Paths.{names_of};
ghost use Rattle.fuse_show.specs.Shown.{ShowsContent, way_of};

use crate::fault::ShowFault;
use crate::lookup::find;
use crate::modes::is_regular_file;
use crate::output::put;
use fuse_plan::rows_of_trees;
use fuse_rows::{MAX_FILE, MAX_READ, NodeRow};
use fuse_session::Sink;
use fuse_tree::Look;

// The number of bytes of the next read, when `left` bytes remain.
fn piece_of(left: u64) -> u32
    requires { 0 < left }
    ensures some { 0 < result }
    ensures within { result ≤ left }
    ensures few { result ≤ read_limit }
{
    left.min(u64::from(MAX_READ)) as u32
}

/// Writes the bytes of the node that `row` describes.
pub(crate) fn copy<L: Look, W: Sink>(
    look: &mut L,
    row: &NodeRow,
    writer: &mut W,
) -> Result<(), ShowFault>
    requires { L.fault look.old ≡ None }
    ensures copied { PutsOut W.was_written writer.old writer.new result (λ bytes.
        ReadUpTo L.is_clean (lies_between L.looks L.fails look.old look.new) (L.sees look.old) look.new (look_fault_in result)
        (λ rows. row_at rows row.now.node ≡ Some row.now
        → WritesOut (content_at rows row.now.node) bytes result)) }
    ensures looked { OnlyLooked L.fault L.looks L.fails look.old look.new result }
    // A size above the limit of a file is damage. Nothing is read then.
    ensures large { file_limit < row.now.size
        → (result ≡ Err NotATree) × (writer.new ≡ writer.old) }
    ensures reasons { IfErr result (λ fault. is_of_path fault ≡ false) }
{
    rows_of_trees();
    if row.size > MAX_FILE {
        return Err(ShowFault::NotATree);
    }
    let mut offset: u64 = 0;
    while offset < row.size {
        let len = piece_of(row.size - offset);
        let bytes = look.bytes(row.node, offset, len)?;
        match put(writer, bytes.as_slice()) {
            Ok(()) => {}
            Err(fault) => return Err(fault),
        }
        offset += u64::from(len);
    }
    Ok(())
}

/// Writes the bytes of the regular file at a path.
pub fn show_content<L: Look, W: Sink>(
    look: &mut L,
    path: &[u8],
    writer: &mut W,
) -> Result<(), ShowFault>
    requires { L.fault look.old ≡ None }
    ensures shown { Outputs W.was_written W.was_flushed writer.old writer.new (way_of result)
        (λ bytes. ReadUpTo L.is_clean (lies_between L.looks L.fails look.old look.new) (L.sees look.old) look.new
        (look_fault_in result) (λ rows. ShowsContent rows (names_of path.now) bytes result)) }
    ensures looked { OnlyLooked L.fault L.looks L.fails look.old look.new result }
    // A fault of the path writes nothing.
    ensures silent { IfErr result (λ fault. is_of_path fault ≡ true
        → writer.new ≡ writer.old) }
{
    let place = match find(look, path) {
        Ok(place) => place,
        Err(fault) => return Err(fault),
    };
    if !is_regular_file(place.mode) {
        return Err(ShowFault::NotFile);
    }
    match copy(look, &place, writer) {
        Ok(()) => {}
        Err(fault) => return Err(fault),
    }
    match writer.flush_once() {
        Ok(()) => Ok(()),
        Err(_) => Err(ShowFault::Output),
    }
}
