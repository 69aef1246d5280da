// The changes of a plan, made in the tables.
ghost use Rattle.std.specs.Prelude.{IsTrue, IfErr, IfOk, OnOk, OnErr};
ghost use Rattle.sqlite.specs.Held.{state};
ghost use Rattle.fuse_rows.specs.Columns.{FitsChange, FitColumns};
ghost use Rattle.fuse_store_tables.specs.inner.Performing.{IsSure};
ghost use Rattle.fuse_store_tables.specs.Faults.{IsPlain};
ghost use Rattle.fuse_store_tree.specs.inner.Knowing.{HeldKnown, known_after};
ghost use Rattle.fuse_store_tree.specs.inner.Over.{ChangedKnownOver};
ghost use Rattle.fuse_store_tree.specs.Widening.{Widens};
ghost use Rattle.fuse_store_tree.specs.inner.Preparing.{AreMadeOf};
ghost use Rattle.fuse_store_tree.specs.Store.{Held};
ghost use Rattle.fuse_store_tree.specs.inner.Writing.{with_change, with_changes};
ghost use Rattle.fuse_store_tables.specs.Moves.{Stays};

use crate::bounds::change_fits;
use crate::contents::Contents;
use crate::made::Made;
use crate::meta::{Meta, after_change};
use crate::piece_cuts::Gone;
use crate::piece_lists::write_made;
use crate::removal::remove_node;
use crate::truncation::set_size;
use crate::updates::{
    add_entry, add_handle, put_node, remove_entry, remove_handle, set_counters, set_settings,
};
use fuse_keeper::StoreFault;
use fuse_rows::Change;
use sqlite::{Alter, Connection};
use std::alloc::Global;

/// Makes one change. Counters that are known to have their values aren't written.
#[tactic(auto, using(crate::proofs::Overs::made_any, crate::proofs::Overs::made_knowing, crate::proofs::Overs::made_reading, crate::proofs::Overs::made_over, crate::proofs::Overs::still_widens, crate::proofs::Overs::widens_of, crate::proofs::Overs::sure_before))]
pub(crate) fn make_change<S: Alter, C: Contents>(
    conn: &mut Connection<S>,
    contents: &mut C,
    gone: &mut Gone,
    known: Option<Meta>,
    alloc: Global,
    change: &Change,
    made: &Made<'_>,
) -> Result<(), StoreFault>
    requires { AreMadeOf (C.Contents.file contents.old).contents.seen made.now.at
        made.now.bytes.now made.now.pieces.now }
    ensures widens { Widens (C.Contents.file contents.old) (C.Contents.file contents.new) }
    ensures changed { OnOk result (ChangedKnownOver (C.Contents.file contents.old)
        (C.Contents.file contents.new) known
        (known_after known change.now) (with_change change.now) (state S.Store conn.old)
        (state S.Store conn.new)) }
    ensures fails { OnErr result (Stays (state S.Store conn.old) (state S.Store conn.new)) }
    ensures fault { FitsChange change.now → IsTrue (C.Contents.file contents.new).is_clean
        → IsSure (Held (C.Contents.file contents.old).bytes) (state S.Store conn.old)
        (state S.Store conn.new) result }
    ensures plain { IfErr result IsPlain }
{
    if !change_fits(change) {
        return Err(StoreFault::Damaged);
    }
    match change {
        Change::Node(row) => put_node(conn, row),
        Change::NodeGone { node } => remove_node(conn, gone, alloc, *node),
        Change::Entry(entry) => add_entry(conn, entry),
        Change::EntryGone { cookie } => remove_entry(conn, *cookie),
        Change::Handle(handle) => add_handle(conn, handle),
        Change::HandleGone { fh } => remove_handle(conn, *fh),
        Change::Written {
            node,
            offset,
            bytes,
        } => write_made(
            conn,
            contents,
            gone,
            alloc,
            *node,
            *offset,
            bytes.as_slice(),
            made,
        ),
        Change::Sized { node, size } => set_size(conn, contents, gone, alloc, *node, *size),
        Change::Counters(counters) => set_counters(conn, known, counters),
        Change::Settings(settings) => set_settings(conn, *settings),
    }
}

/// Makes the changes, one after the other, and returns what is known then.
pub(crate) fn make_all<S: Alter, C: Contents>(
    conn: &mut Connection<S>,
    contents: &mut C,
    gone: &mut Gone,
    known: Option<Meta>,
    alloc: Global,
    changes: &[Change],
    made: &Made<'_>,
) -> Result<Option<Meta>, StoreFault>
    requires { AreMadeOf (C.Contents.file contents.old).contents.seen made.now.at
        made.now.bytes.now made.now.pieces.now }
    ensures widens { Widens (C.Contents.file contents.old) (C.Contents.file contents.new) }
    ensures changed { IfOk result (λ is. ChangedKnownOver (C.Contents.file contents.old)
        (C.Contents.file contents.new) known is
        (with_changes changes.now) (state S.Store conn.old) (state S.Store conn.new)) }
    ensures fails { OnErr result (Stays (state S.Store conn.old) (state S.Store conn.new)) }
    ensures fault { FitColumns changes.now → IsTrue (C.Contents.file contents.new).is_clean
        → IsSure (HeldKnown (C.Contents.file contents.old).bytes known) (state S.Store conn.old)
        (state S.Store conn.new) result }
    ensures plain { IfErr result IsPlain }
{
    let mut last = known;
    for change in changes {
        match make_change(conn, contents, gone, last, alloc, change, made) {
            Ok(()) => {}
            Err(fault) => return Err(fault),
        }
        last = after_change(last, change);
    }
    Ok(last)
}
