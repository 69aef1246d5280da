// The begin of a mount: all state of the last mount is deleted, in one transaction.
ghost use Rattle.std.specs.Prelude.{◌≡◌, ◌<◌, ◌^◌, map, false, List, ℕ, IfErr, OnOk, OnErr};
ghost use Rattle.sqlite.specs.State.{HasCleanDisk, KeepsCommit};
ghost use Rattle.sqlite.specs.Held.{state};
ghost use Rattle.fuse_store_tables.specs.Content.{Holds};
ghost use Rattle.fuse_store_tables.specs.Faults.{IsOutside, IsPlain};
ghost use Rattle.fuse_store_tables.specs.inner.Columns.{shown_number, number_of_row};
ghost use Rattle.fuse_store_tables.specs.inner.Steps.{without_contents, without_contents_of};
ghost use Rattle.fuse_store_tables.specs.inner.Steps.{without_unnamed_contents};
ghost use Rattle.fuse_store_tables.specs.Clearing.{without_settings};
ghost use Rattle.fuse_store_tables.specs.inner.Steps.{with_nodes_counted, without_records};
ghost use Rattle.fuse_store_tables.specs.inner.Steps.{without_all_handles, without_unnamed_nodes};
ghost use Rattle.fuse_store_tables.specs.Clearing.{cleared};
ghost use Rattle.fuse_store_tables.specs.Opening.{IsSecond};
ghost use Rattle.fuse_store_tables.specs.Moves.{Makes, Serves, ServesAs, IsSafe};
ghost use Rattle.fuse_store_tables.specs.inner.Performing.{Transacts, IsSure, StaysWithin};
ghost use Rattle.fuse_store_tables.specs.inner.Performing.{CommitsNothing};
ghost use Rattle.fuse_store_tables.specs.Moves.{StaysOpen, LeavesAlone, RollsBack, CommitsOnce};
ghost use Rattle.fuse_store_tables.specs.Saying.{IsRefusal};

use crate::blocks::remove_blocks_from;
use crate::columns::number_at;
use crate::counters::{AGREED, FLAGS, HANDLES, MAX_READAHEAD, MINOR, NODES, write_counter};
use crate::handles::delete_all_handles;
use crate::nodes::{count_nodes, delete_unnamed, select_unnamed};
use crate::pieces::remove_pieces;
use crate::records::{delete_all_kept, delete_all_lots};
use crate::statements::{begin, commit, undo};
use crate::used::lower_used;
use fuse_keeper::StoreFault;
use sqlite::{Alter, Connection, Error, Row};

// Deletes the blocks and pieces of a node.
fn remove_contents<S: Alter>(conn: &mut Connection<S>, node: u64) -> Result<(), Error>
    requires { node < 2 ^ 63 }
    ensures made { Makes (without_contents node) (state S.Store conn.old) (state S.Store conn.new)
        result }
    ensures within { StaysWithin (state S.Store conn.old) (state S.Store conn.new) result }
{
    remove_blocks_from(conn, node, 0)?;
    remove_pieces(conn, node)
}

// Deletes the blocks and pieces of these nodes.
fn delete_contents_of<S: Alter>(conn: &mut Connection<S>, nodes: &[Row]) -> Result<(), StoreFault>
    ensures made { Makes (without_contents_of (map number_of_row nodes.now)) (state S.Store conn.old)
        (state S.Store conn.new) result }
    ensures fault { IfErr result (λ f. (ns : List ℕ) → nodes.now ≡ map shown_number ns
        → IsOutside f) }
    ensures plain { IfErr result IsPlain }
    ensures within { StaysWithin (state S.Store conn.old) (state S.Store conn.new) result }
{
    let mut at = 0;
    'nodes: while at < nodes.len() {
        match number_at(&nodes[at], 0) {
            Ok(node) => match remove_contents(conn, node) {
                Ok(()) => {}
                Err(error) => return Err(error.into()),
            },
            Err(fault) => return Err(fault),
        }
        at += 1;
    }
    Ok(())
}

// Deletes the blocks and pieces of the nodes without a name.
fn clear_contents<S: Alter>(conn: &mut Connection<S>) -> Result<(), StoreFault>
    ensures made { Makes without_unnamed_contents (state S.Store conn.old) (state S.Store conn.new)
        result }
    ensures fault { IsSure Holds (state S.Store conn.old) (state S.Store conn.new) result }
    ensures plain { IfErr result IsPlain }
    ensures within { StaysWithin (state S.Store conn.old) (state S.Store conn.new) result }
{
    let nodes = select_unnamed(conn)?;
    delete_contents_of(conn, nodes.as_slice())
}

// Counts the nodes anew.
fn recount<S: Alter>(conn: &mut Connection<S>) -> Result<(), StoreFault>
    ensures counted { Makes with_nodes_counted (state S.Store conn.old) (state S.Store conn.new)
        result }
    ensures fault { IsSure Holds (state S.Store conn.old) (state S.Store conn.new) result }
    ensures plain { IfErr result IsPlain }
    ensures within { StaysWithin (state S.Store conn.old) (state S.Store conn.new) result }
{
    let count = count_nodes(conn)?;
    Ok(write_counter(conn, NODES, count)?)
}

// Deletes the settings.
fn clear_settings<S: Alter>(conn: &mut Connection<S>) -> Result<(), Error>
    ensures made { Makes without_settings (state S.Store conn.old) (state S.Store conn.new) result }
    ensures within { StaysWithin (state S.Store conn.old) (state S.Store conn.new) result }
{
    write_counter(conn, AGREED, 0)?;
    write_counter(conn, MINOR, 0)?;
    write_counter(conn, MAX_READAHEAD, 0)?;
    write_counter(conn, FLAGS, 0)
}

// Deletes all records and lots.
fn clear_records<S: Alter>(conn: &mut Connection<S>) -> Result<(), Error>
    ensures made { Makes without_records (state S.Store conn.old) (state S.Store conn.new) result }
    ensures within { StaysWithin (state S.Store conn.old) (state S.Store conn.new) result }
{
    delete_all_kept(conn)?;
    delete_all_lots(conn)
}

// Deletes all handles.
fn clear_handles<S: Alter>(conn: &mut Connection<S>) -> Result<(), Error>
    ensures made { Makes without_all_handles (state S.Store conn.old) (state S.Store conn.new) result }
    ensures within { StaysWithin (state S.Store conn.old) (state S.Store conn.new) result }
{
    delete_all_handles(conn)?;
    write_counter(conn, HANDLES, 0)
}

// Deletes all nodes without a name.
fn clear_nodes<S: Alter>(conn: &mut Connection<S>) -> Result<(), StoreFault>
    ensures made { Makes without_unnamed_nodes (state S.Store conn.old) (state S.Store conn.new)
        result }
    ensures fault { IsSure Holds (state S.Store conn.old) (state S.Store conn.new) result }
    ensures plain { IfErr result IsPlain }
    ensures within { StaysWithin (state S.Store conn.old) (state S.Store conn.new) result }
{
    clear_contents(conn)?;
    delete_unnamed(conn)?;
    recount(conn)
}

/// Deletes all state of the last mount.
pub(crate) fn clear<S: Alter>(conn: &mut Connection<S>) -> Result<(), StoreFault>
    ensures made { Makes cleared (state S.Store conn.old) (state S.Store conn.new) result }
    ensures fault { IsSure Holds (state S.Store conn.old) (state S.Store conn.new) result }
    ensures plain { IfErr result IsPlain }
    ensures within { StaysWithin (state S.Store conn.old) (state S.Store conn.new) result }
{
    lower_used(conn)?;
    clear_records(conn)?;
    clear_handles(conn)?;
    clear_settings(conn)?;
    clear_nodes(conn)
}

// The transaction. A fault may leave it open.
fn transact<S: Alter>(conn: &mut Connection<S>) -> Result<(), StoreFault>
    ensures performs { Transacts cleared (state S.Store conn.old) (state S.Store conn.new) result }
    ensures open { StaysOpen (state S.Store conn.old) (state S.Store conn.new) result }
    ensures fault { IsSafe Holds (state S.Store conn.old) (state S.Store conn.new) result }
    ensures plain { IfErr result IsPlain }
    ensures refused { IfErr result (λ f. IsRefusal f
        → CommitsNothing (state S.Store conn.old) (state S.Store conn.new)) }
    ensures keeps { OnErr result (HasCleanDisk (state S.Store conn.new)
        → KeepsCommit (state S.Store conn.old) (state S.Store conn.new)) }
    ensures once { CommitsOnce (state S.Store conn.old) (state S.Store conn.new) result }
    ensures ended { OnOk result (HasCleanDisk (state S.Store conn.new)
        → (state S.Store conn.new).in_transaction ≡ false) }
{
    begin(conn)?;
    match clear(conn) {
        Ok(()) => {
            commit(conn)?;
            Ok(())
        }
        Err(fault) => Err(fault),
    }
}

/// Begins a mount: deletes records, lots, handles, settings, and nodes without a name with their
/// blocks and pieces, which are in use no more. The commit is its last call of the database.
pub fn begin_mount<S: Alter>(conn: &mut Connection<S>) -> Result<(), StoreFault>
    ensures serves { Serves cleared (state S.Store conn.old) (state S.Store conn.new) result }
    ensures fit { ServesAs IsSecond (λ c. IsSecond (cleared c)) (state S.Store conn.old)
        (state S.Store conn.new) result }
    ensures open { StaysOpen (state S.Store conn.old) (state S.Store conn.new) result }
    ensures fault { IsSafe Holds (state S.Store conn.old) (state S.Store conn.new) result }
    // The fault is never `NotAStore` or `Version`.
    ensures plain { IfErr result IsPlain }
    // Damage is found before the commit. No transaction is left open.
    ensures refused { IfErr result (λ f. IsRefusal f
        → LeavesAlone (state S.Store conn.old) (state S.Store conn.new)) }
    ensures ended { HasCleanDisk (state S.Store conn.new)
        → (state S.Store conn.new).in_transaction ≡ false }
    // Where the call fails, what was committed before is seen, whatever the database.
    ensures undone { OnErr result (RollsBack (state S.Store conn.old) (state S.Store conn.new)) }
    // It commits once at most: after a crash all of it is seen, or nothing.
    ensures once { CommitsOnce (state S.Store conn.old) (state S.Store conn.new) result }
{
    match transact(conn) {
        Ok(()) => Ok(()),
        Err(fault) => {
            undo(conn);
            Err(fault)
        }
    }
}
