// Reads of the handles of a node, in order.
ghost use Rattle.std.specs.Prelude.{◌≡◌, ◌<◌, List, map, take, filter, length};
ghost use Rattle.std.specs.Prelude.{IfOk, IfErr, OnOk, OnErr};
ghost use Rattle.std.specs.List.{AllByRecursion};
ghost use Rattle.sqlite.specs.State.{HasCleanDisk};
ghost use Rattle.sqlite.specs.Held.{state};
ghost use Rattle.fuse_rows.specs.declared.rows.HandleRow.{HandleRow as Handle};
ghost use Rattle.fuse_store_tables.specs.Content.{Content, shown_open, is_handle_of};
ghost use Rattle.fuse_store_tree.specs.Fits.{Fits};
ghost use Rattle.fuse_store_tables.specs.Faults.{IsOutside, IsPlain};
ghost use Rattle.fuse_store_tables.specs.Moves.{Inside, LookedInside, Stays};

use crate::bounds::END;
use crate::entries::{MOST, is_too_long, most_of};
use crate::rows::access_at;
use fuse_keeper::StoreFault;
use fuse_rows::HandleRow;
use fuse_store_tables::{number_at, select_handles_of};
use sqlite::{Alter, Connection, Row};
use std::alloc::Global;

fn handle_at(row: &Row, node: u64) -> Result<HandleRow, StoreFault>
    ensures value { IfOk result (λ r. (h : Handle) → h.node ≡ node → row.now ≡ shown_open h
        → r ≡ h) }
    ensures fault { IfErr result (λ f. (h : Handle) → row.now ≡ shown_open h → IsOutside f) }
    ensures plain { IfErr result IsPlain }
{
    let fh = number_at(row, 0)?;
    let access = access_at(row, 1)?;
    Ok(HandleRow { fh, node, access })
}

fn read_handles(alloc: Global, rows: &[Row], node: u64) -> Result<Vec<HandleRow>, StoreFault>
    ensures value { IfOk result (λ v. (hs : List Handle) → AllByRecursion (λ h. h.node ≡ node) hs
        → rows.now ≡ map shown_open hs → v.items ≡ hs) }
    ensures fault { IfErr result (λ f. (hs : List Handle) → AllByRecursion (λ h. h.node ≡ node) hs
        → rows.now ≡ map shown_open hs → IsOutside f) }
    ensures plain { IfErr result IsPlain }
{
    let mut handles = Vec::new(alloc);
    for row in rows {
        let handle = match handle_at(row, node) {
            Ok(handle) => handle,
            Err(fault) => return Err(fault),
        };
        handles.push(handle)?;
    }
    Ok(handles)
}

/// At most `limit` handles of a node.
pub(crate) fn find_handles_of<S: Alter>(
    conn: &mut Connection<S>,
    alloc: Global,
    node: u64,
    limit: usize,
) -> Result<Vec<HandleRow>, StoreFault>
    ensures looks { OnOk result (LookedInside (state S.Store conn.old) (state S.Store conn.new)) }
    ensures fails { OnErr result (Stays (state S.Store conn.old) (state S.Store conn.new)) }
    ensures value { HasCleanDisk (state S.Store conn.new) → IfOk result (λ v. (c : Content)
        → Inside c (state S.Store conn.old) → Fits c
        → v.items ≡ take limit (filter (is_handle_of node) c.handles)) }
    ensures fault { HasCleanDisk (state S.Store conn.new) → IfErr result (λ f. (c : Content)
        → Inside c (state S.Store conn.old) → length c.handles < MOST → IsOutside f) }
    ensures plain { IfErr result IsPlain }
{
    if node >= END {
        return Ok(Vec::new(alloc));
    }
    let most = most_of(limit);
    let rows = select_handles_of(conn, node, most)?;
    if is_too_long(limit, most, rows.len()) {
        return Err(StoreFault::Damaged);
    }
    read_handles(alloc, rows.as_slice(), node)
}
