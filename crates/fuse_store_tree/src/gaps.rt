// The place between the end of a file and what extends it.
ghost use Rattle.std.specs.Prelude.{◌≡◌, ◌<◌, ◌≤◌, ◌^◌, true, IsTrue, IfErr, IfSome, OnOk, OnErr};
ghost use Rattle.sqlite.specs.Held.{state};
ghost use Rattle.fuse_store_tables.specs.Faults.{IsPlain};
ghost use Rattle.fuse_store_tables.specs.inner.Performing.{IsSure};
ghost use Rattle.fuse_store_tree.specs.inner.Changing.{LeavesTrees};
ghost use Rattle.fuse_store_tree.specs.Pieces.{ReadsFile};
ghost use Rattle.fuse_store_tree.specs.Store.{Held};
ghost use Rattle.fuse_store_tables.specs.Moves.{Stays};

use crate::bounds::END;
use crate::contents::Contents;
use crate::look::LastNode;
use crate::piece_cuts::Gone;
use crate::rows::find_node;
use crate::truncation::set_size;
use fuse_keeper::StoreFault;
use fuse_plan::rows_of_trees;
use fuse_rows::{Change, MAX_FILE};
use sqlite::{Alter, Connection};
use std::alloc::Global;

// The node whose content the changes write or cut, and the place up to which that may extend it
// with zeros.
fn extended(changes: &[Change]) -> Option<(u64, u64)>
    ensures { IfSome result (λ p. p.0 < 2 ^ 63) }
{
    for change in changes {
        match change {
            Change::Written { node, offset, .. } if *node < END => return Some((*node, *offset)),
            Change::Sized { node, size } if *node < END => return Some((*node, *size)),
            _ => {}
        }
    }
    None
}

// Whether the last look found this node, with a content that reaches this place.
fn reaches(last: Option<LastNode>, node: u64, end: u64) -> bool
    ensures node { result ≡ true → IfSome last (λ l. l.number ≡ node) }
    ensures size { result ≡ true → IfSome last (λ l. IfSome l.row (λ n. end ≤ n.size)) }
{
    match last {
        Some(
            LastNode {
                number,
                row: Some(row),
            },
        ) => number == node && end <= row.size,
        _ => false,
    }
}

// Sets the bytes after the size of a node to 0, if it is smaller than this.
fn clear_from_size<S: Alter, C: Contents>(
    conn: &mut Connection<S>,
    contents: &mut C,
    gone: &mut Gone,
    alloc: Global,
    node: u64,
    end: u64,
) -> Result<(), StoreFault>
    requires node { node < 2 ^ 63 }
    ensures same { OnOk result (LeavesTrees (C.Contents.file contents.new)
        (state S.Store conn.old) (state S.Store conn.new)) }
    ensures fails { OnErr result (Stays (state S.Store conn.old) (state S.Store conn.new)) }
    ensures reads { ReadsFile (C.Contents.file contents.old) (C.Contents.file contents.new) }
    ensures fault { IsTrue (C.Contents.file contents.new).is_clean
        → IsSure (Held (C.Contents.file contents.new).bytes) (state S.Store conn.old)
        (state S.Store conn.new) result }
    ensures plain { IfErr result IsPlain }
{
    rows_of_trees();
    match find_node(conn, node) {
        Ok(Some(row)) => {
            if row.size < end && row.size <= MAX_FILE {
                set_size(conn, contents, gone, alloc, node, row.size)
            } else {
                Ok(())
            }
        }
        Ok(None) => Ok(()),
        Err(fault) => Err(fault),
    }
}

/// Sets the bytes after the size of a file to 0 before changes extend it. A store of this program
/// has none there but zeros. The node is looked up where the last look doesn't show that there is
/// no such place.
pub(crate) fn clear_gap<S: Alter, C: Contents>(
    conn: &mut Connection<S>,
    contents: &mut C,
    gone: &mut Gone,
    last: Option<LastNode>,
    alloc: Global,
    changes: &[Change],
) -> Result<(), StoreFault>
    ensures same { OnOk result (LeavesTrees (C.Contents.file contents.new)
        (state S.Store conn.old) (state S.Store conn.new)) }
    ensures fails { OnErr result (Stays (state S.Store conn.old) (state S.Store conn.new)) }
    ensures reads { ReadsFile (C.Contents.file contents.old) (C.Contents.file contents.new) }
    ensures fault { IsTrue (C.Contents.file contents.new).is_clean
        → IsSure (Held (C.Contents.file contents.new).bytes) (state S.Store conn.old)
        (state S.Store conn.new) result }
    ensures plain { IfErr result IsPlain }
{
    match extended(changes) {
        Some((node, end)) => {
            if reaches(last, node, end) {
                Ok(())
            } else {
                clear_from_size(conn, contents, gone, alloc, node, end)
            }
        }
        None => Ok(()),
    }
}
