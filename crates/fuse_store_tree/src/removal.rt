// Removal of nodes.
ghost use Rattle.std.specs.Prelude.{◌<◌, ◌^◌, ℕ, true, List, OnOk, OnErr, IfErr};
ghost use Rattle.sqlite.specs.Held.{state};
ghost use Rattle.fuse_rows.specs.declared.rows.Change.TheVariants as changes;
ghost use Rattle.fuse_store_tables.specs.Faults.{IsPlain};
ghost use Rattle.fuse_store_tables.specs.Moves.{Stays};
ghost use Rattle.fuse_store_tables.specs.inner.Performing.{IsSure};
ghost use Rattle.fuse_store_tree.specs.Store.{Held, HeldAs};
ghost use Rattle.fuse_store_tree.specs.inner.Changing.{ChangedIn, CutIn};
ghost use Rattle.fuse_store_tree.specs.inner.Relisting.{GivenUp, IsAny, Relists};
ghost use Rattle.fuse_store_tree.specs.inner.Writing.{with_change};

use crate::piece_cuts::{Gone, take_all};
use fuse_keeper::StoreFault;
use fuse_store_tables::{delete_blocks_from, delete_node};
use sqlite::{Alter, Connection};
use std::alloc::Global;

// Takes the content of a node away: its pieces, in slices, and its blocks.
fn drop_content<S: Alter>(
    conn: &mut Connection<S>,
    gone: &mut Gone,
    alloc: Global,
    node: u64,
) -> Result<(), StoreFault>
    requires { node < 2 ^ 63 }
    ensures cut { OnOk result ((file : List ℕ) → CutIn file node 0 (state S.Store conn.old)
        (state S.Store conn.new)) }
    ensures gone { OnOk result ((file : List ℕ) → Relists true file IsAny
        (GivenUp file gone.old gone.new) (state S.Store conn.old) (state S.Store conn.new)) }
    ensures fails { OnErr result (Stays (state S.Store conn.old) (state S.Store conn.new)) }
    ensures fault { (file : List ℕ) → IsSure (HeldAs file) (state S.Store conn.old)
        (state S.Store conn.new) result }
    ensures plain { IfErr result IsPlain }
{
    match take_all(conn, gone, alloc, node) {
        Ok(()) => {}
        Err(fault) => return Err(fault),
    }
    match delete_blocks_from(conn, node, 0) {
        Ok(()) => Ok(()),
        Err(error) => Err(StoreFault::from(error)),
    }
}

/// Deletes a node that has neither an entry nor a handle: its content, then its row, which its
/// blocks name.
pub(crate) fn remove_node<S: Alter>(
    conn: &mut Connection<S>,
    gone: &mut Gone,
    alloc: Global,
    node: u64,
) -> Result<(), StoreFault>
    requires { node < 2 ^ 63 }
    ensures changed { OnOk result ((file : List ℕ) → ChangedIn file
        (with_change (changes.NodeGone node)) (state S.Store conn.old)
        (state S.Store conn.new)) }
    ensures gone { OnOk result ((file : List ℕ) → Relists true file IsAny
        (GivenUp file gone.old gone.new) (state S.Store conn.old) (state S.Store conn.new)) }
    ensures fails { OnErr result (Stays (state S.Store conn.old) (state S.Store conn.new)) }
    ensures fault { (file : List ℕ) → IsSure (Held file) (state S.Store conn.old)
        (state S.Store conn.new) result }
    ensures plain { IfErr result IsPlain }
{
    match drop_content(conn, gone, alloc, node) {
        Ok(()) => match delete_node(conn, node) {
            Ok(()) => Ok(()),
            Err(error) => Err(StoreFault::from(error)),
        },
        Err(fault) => Err(fault),
    }
}
