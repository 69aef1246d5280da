// Reads of single rows, as typed values.
ghost use Rattle.std.specs.Prelude.{◌≡◌, ◌<◌, ◌^◌, pos, map, length};
ghost use Rattle.std.specs.Prelude.{find, Option, Some, None, IfSome, IfOk, IfErr, OnOk, OnErr};
ghost use Rattle.std.specs.Prelude.{option_map};
ghost use Rattle.std.specs.Option.{option_to_list};
ghost use Rattle.sqlite.specs.Order.{column};
ghost use Rattle.sqlite.specs.declared.types.Value.TheVariants.{Int};
ghost use Rattle.sqlite.specs.State.{HasCleanDisk};
ghost use Rattle.sqlite.specs.Held.{state};
ghost use Rattle.fuse_answer.specs.Said.{FitsAnswer};
ghost use Rattle.fuse_rows.specs.declared.rows.NodeRow.{NodeRow as Node};
ghost use Rattle.fuse_rows.specs.declared.rows.EntryRow.{EntryRow as Entry};
ghost use Rattle.fuse_rows.specs.declared.rows.HandleRow.{HandleRow as Handle};
ghost use Rattle.fuse_store_tables.specs.Content.{Content, Kept, node_columns, node_key, fh_of, kept_key};
ghost use Rattle.fuse_store_tables.specs.Content.{shown_handle, shown_kept, shown_place};
ghost use Rattle.fuse_store_tables.specs.Content.{has_name, at_by, access_code};
ghost use Rattle.fuse_store_tree.specs.Fits.{Fits, KeepsNode, KeepsRecord};
ghost use Rattle.fuse_store_tables.specs.Faults.{IsOutside, IsPlain};
ghost use Rattle.fuse_store_tables.specs.Moves.{Inside, LookedInside, Stays};

use crate::bounds::END;
use fuse_answer::{Answer, MAX_BODY};
use fuse_keeper::StoreFault;
use fuse_rows::{EntryRow, HandleRow, NodeRow};
use fuse_store_tables::{
    Layout, bytes_at, layout_of, node_at, number_at, select_handle, select_kept, select_named,
    select_node, small_at,
};
use fuse_wire::{AccessMode, ByteList, Errno};
use sqlite::{Alter, Connection, Row};
use std::alloc::Global;

// The node in the row that was found in tables of this layout.
fn read_node(rows: &[Row], number: u64, layout: Layout) -> Result<Option<NodeRow>, StoreFault>
    ensures value { IfOk result (λ r. (o : Option Node) → IfSome o (λ n. KeepsNode layout n
        × (n.node ≡ number)) → rows.now ≡ map (node_columns layout) (option_to_list o)
        → r ≡ o) }
    ensures fault { IfErr result (λ f. (o : Option Node) → IfSome o (KeepsNode layout)
        → rows.now ≡ map (node_columns layout) (option_to_list o) → IsOutside f) }
    ensures plain { IfErr result IsPlain }
{
    match rows.first() {
        None => Ok(None),
        Some(row) => match node_at(row, number, layout) {
            Ok(found) => Ok(Some(found)),
            Err(fault) => Err(fault),
        },
    }
}

// The access mode of a number.
#[tactic(auto, using(crate::proofs::Access::access_small))]
pub(crate) fn access_at(row: &Row, at: usize) -> Result<AccessMode, StoreFault>
    ensures value { IfOk result (λ r. (h : Handle)
        → column row.now at ≡ Int (pos (access_code h.access)) → r ≡ h.access) }
    ensures fault { IfErr result (λ f. (h : Handle) → at < length row.now
        → column row.now at ≡ Int (pos (access_code h.access)) → IsOutside f) }
    ensures plain { IfErr result IsPlain }
{
    match small_at(row, at)? {
        0 => Ok(AccessMode::ReadOnly),
        1 => Ok(AccessMode::WriteOnly),
        2 => Ok(AccessMode::ReadWrite),
        _ => Err(StoreFault::Damaged),
    }
}

// The handle in the row that was found.
fn read_handle(rows: &[Row], fh: u64) -> Result<Option<HandleRow>, StoreFault>
    ensures value { IfOk result (λ r. (o : Option Handle) → IfSome o (λ h. h.fh ≡ fh)
        → rows.now ≡ map shown_handle (option_to_list o) → r ≡ o) }
    ensures fault { IfErr result (λ f. (o : Option Handle)
        → rows.now ≡ map shown_handle (option_to_list o) → IsOutside f) }
    ensures plain { IfErr result IsPlain }
{
    match rows.first() {
        None => Ok(None),
        Some(row) => {
            let node = number_at(row, 0)?;
            let access = access_at(row, 1)?;
            Ok(Some(HandleRow { fh, node, access }))
        }
    }
}

// An answer of these parts, if they fit.
fn answer_of(errno: u32, body: Vec<u8>) -> Result<Answer, StoreFault>
    ensures value { IfOk result (λ r. r ≡ record { errno = errno; body = body.items }) }
    ensures fault { IfErr result (λ _. ¬ FitsAnswer (record { errno = errno; body = body.items })) }
    ensures plain { IfErr result IsPlain }
{
    if body.len() > MAX_BODY {
        return Err(StoreFault::Damaged);
    }
    if errno != 0 && !body.is_empty() {
        return Err(StoreFault::Damaged);
    }
    Ok(Answer {
        errno: Errno(errno),
        body: ByteList::from_vec(body),
    })
}

fn answer_at(row: &Row) -> Result<Answer, StoreFault>
    ensures value { IfOk result (λ r. (k : Kept) → row.now ≡ shown_kept k → r ≡ k.said) }
    ensures fault { IfErr result (λ f. (k : Kept) → KeepsRecord k → row.now ≡ shown_kept k
        → IsOutside f) }
    ensures plain { IfErr result IsPlain }
{
    let errno = small_at(row, 0)?;
    let body = bytes_at(row, 1)?;
    answer_of(errno, body)
}

// The answer in the record that was found.
pub(crate) fn read_answer(rows: &[Row]) -> Result<Option<Answer>, StoreFault>
    ensures value { IfOk result (λ r. (o : Option Kept)
        → rows.now ≡ map shown_kept (option_to_list o) → r ≡ option_map (λ k. k.said) o) }
    ensures fault { IfErr result (λ f. (o : Option Kept) → IfSome o KeepsRecord
        → rows.now ≡ map shown_kept (option_to_list o) → IsOutside f) }
    ensures plain { IfErr result IsPlain }
{
    match rows.first() {
        None => Ok(None),
        Some(row) => {
            let answer = answer_at(row)?;
            Ok(Some(answer))
        }
    }
}

// The entry in the row that was found.
fn read_place(
    alloc: Global,
    rows: &[Row],
    dir: u64,
    name: &[u8],
) -> Result<Option<EntryRow>, StoreFault>
    ensures value { IfOk result (λ r. (o : Option Entry) → IfSome o (λ e. (e.dir ≡ dir)
        × (e.name ≡ name.now)) → rows.now ≡ map shown_place (option_to_list o) → r ≡ o) }
    ensures fault { IfErr result (λ f. (o : Option Entry)
        → rows.now ≡ map shown_place (option_to_list o) → IsOutside f) }
    ensures plain { IfErr result IsPlain }
{
    match rows.first() {
        None => Ok(None),
        Some(row) => {
            let cookie = number_at(row, 0)?;
            let child = number_at(row, 1)?;
            let name = ByteList::from_vec(Vec::from_slice(alloc, name)?);
            Ok(Some(EntryRow {
                dir,
                name,
                child,
                cookie,
            }))
        }
    }
}

/// The node of this number.
pub(crate) fn find_node<S: Alter>(
    conn: &mut Connection<S>,
    number: u64,
) -> Result<Option<NodeRow>, StoreFault>
    ensures looks { OnOk result (LookedInside (state S.Store conn.old) (state S.Store conn.new)) }
    ensures fails { OnErr result (Stays (state S.Store conn.old) (state S.Store conn.new)) }
    ensures value { HasCleanDisk (state S.Store conn.new) → IfOk result (λ r. (c : Content)
        → Inside c (state S.Store conn.old) → Fits c → r ≡ at_by node_key number c.nodes) }
    ensures fault { HasCleanDisk (state S.Store conn.new) → IfErr result (λ f. (c : Content)
        → Inside c (state S.Store conn.old) → Fits c → IsOutside f) }
    ensures plain { IfErr result IsPlain }
{
    if number >= END {
        return Ok(None);
    }
    let layout = layout_of(conn);
    let rows = select_node(conn, number)?;
    read_node(rows.as_slice(), number, layout)
}

/// The handle of this number.
pub(crate) fn find_handle<S: Alter>(
    conn: &mut Connection<S>,
    fh: u64,
) -> Result<Option<HandleRow>, StoreFault>
    ensures looks { OnOk result (LookedInside (state S.Store conn.old) (state S.Store conn.new)) }
    ensures fails { OnErr result (Stays (state S.Store conn.old) (state S.Store conn.new)) }
    ensures value { HasCleanDisk (state S.Store conn.new) → IfOk result (λ r. (c : Content)
        → Inside c (state S.Store conn.old) → Fits c → r ≡ at_by fh_of fh c.handles) }
    ensures fault { HasCleanDisk (state S.Store conn.new) → IfErr result (λ f. (c : Content)
        → Inside c (state S.Store conn.old) → IsOutside f) }
    ensures plain { IfErr result IsPlain }
{
    if fh >= END {
        return Ok(None);
    }
    let rows = select_handle(conn, fh)?;
    read_handle(rows.as_slice(), fh)
}

/// The answer in the record of this id.
pub(crate) fn find_answer<S: Alter>(
    conn: &mut Connection<S>,
    id: u64,
) -> Result<Option<Answer>, StoreFault>
    requires { id < 2 ^ 63 }
    ensures looks { OnOk result (LookedInside (state S.Store conn.old) (state S.Store conn.new)) }
    ensures fails { OnErr result (Stays (state S.Store conn.old) (state S.Store conn.new)) }
    ensures value { HasCleanDisk (state S.Store conn.new) → IfOk result (λ r. (c : Content)
        → Inside c (state S.Store conn.old) → Fits c
        → r ≡ option_map (λ k. k.said) (at_by kept_key id c.kept)) }
    ensures fault { HasCleanDisk (state S.Store conn.new) → IfErr result (λ f. (c : Content)
        → Inside c (state S.Store conn.old) → Fits c → IsOutside f) }
    ensures plain { IfErr result IsPlain }
{
    let rows = select_kept(conn, id)?;
    read_answer(rows.as_slice())
}

/// The entry of this name.
pub(crate) fn find_entry<S: Alter>(
    conn: &mut Connection<S>,
    alloc: Global,
    dir: u64,
    name: &[u8],
) -> Result<Option<EntryRow>, StoreFault>
    ensures looks { OnOk result (LookedInside (state S.Store conn.old) (state S.Store conn.new)) }
    ensures fails { OnErr result (Stays (state S.Store conn.old) (state S.Store conn.new)) }
    ensures value { HasCleanDisk (state S.Store conn.new) → IfOk result (λ r. (c : Content)
        → Inside c (state S.Store conn.old) → Fits c → r ≡ find (has_name dir name.now) c.entries) }
    ensures fault { HasCleanDisk (state S.Store conn.new) → IfErr result (λ f. (c : Content)
        → Inside c (state S.Store conn.old) → IsOutside f) }
    ensures plain { IfErr result IsPlain }
{
    if dir >= END {
        return Ok(None);
    }
    let rows = select_named(conn, dir, name)?;
    read_place(alloc, rows.as_slice(), dir, name)
}
