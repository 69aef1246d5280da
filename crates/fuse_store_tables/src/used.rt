// The blocks in use, as the begin of a mount lowers them.
ghost use Rattle.std.specs.Prelude.{◌≡◌, ◌≤◌, ◌<◌, ◌-◌, ◌^◌, ℕ, List, map, IfOk, IfErr};
ghost use Rattle.sqlite.specs.Held.{state};
ghost use Rattle.fuse_store_tables.specs.Clearing.{blocks_in, lowered};
ghost use Rattle.fuse_store_tables.specs.Content.{Holds};
ghost use Rattle.fuse_store_tables.specs.Faults.{IsOutside, IsPlain};
ghost use Rattle.fuse_store_tables.specs.Moves.{Makes};
ghost use Rattle.fuse_store_tables.specs.inner.Columns.{shown_number};
ghost use Rattle.fuse_store_tables.specs.inner.Performing.{IsSure, StaysWithin};
ghost use Rattle.fuse_store_tables.specs.inner.Steps.{lowered_from, read_blocks};

use crate::columns::{number_at, the_number};
use crate::counters::{USED, select_counter, write_counter};
use crate::nodes::select_unnamed_extents;
use crate::schema::layout_of;
use crate::version::Layout;
use fuse_keeper::StoreFault;
use sqlite::{Alter, Connection, Row};

// The blocks of a node, by its column that says how many it uses.
fn blocks_in(layout: Layout, extent: u64) -> u64
    requires { extent < 2 ^ 63 }
    ensures { result ≡ blocks_in layout extent }
{
    match layout {
        Layout::Second => (extent + 4095) / 4096,
        Layout::Third => extent,
    }
}

// What is left of the blocks in use without those of these nodes.
fn left_of(used: u64, layout: Layout, extents: &[Row]) -> Result<u64, StoreFault>
    ensures value { IfOk result (λ n. n ≡ used - read_blocks layout extents.now) }
    ensures small { IfOk result (λ n. n ≤ used) }
    ensures fault { IfErr result (λ f. (ns : List ℕ) → extents.now ≡ map shown_number ns
        → IsOutside f) }
    ensures plain { IfErr result IsPlain }
{
    let mut left = used;
    let mut at = 0;
    'extents: while at < extents.len() {
        match number_at(&extents[at], 0) {
            Ok(extent) => left = left.saturating_sub(blocks_in(layout, extent)),
            Err(fault) => return Err(fault),
        }
        at += 1;
    }
    Ok(left)
}

// Lowers the blocks in use from this number by those of the nodes without a name.
fn lower_from<S: Alter>(conn: &mut Connection<S>, used: u64) -> Result<(), StoreFault>
    requires { used < 2 ^ 63 }
    ensures made { Makes (lowered_from used) (state S.Store conn.old) (state S.Store conn.new)
        result }
    ensures fault { IsSure Holds (state S.Store conn.old) (state S.Store conn.new) result }
    ensures plain { IfErr result IsPlain }
    ensures within { StaysWithin (state S.Store conn.old) (state S.Store conn.new) result }
{
    let layout = layout_of(conn);
    let extents = select_unnamed_extents(conn, layout)?;
    let left = left_of(used, layout, extents.as_slice())?;
    Ok(write_counter(conn, USED, left)?)
}

/// Lowers the blocks in use by those of the nodes without a name. A plain store doesn't count them.
pub(crate) fn lower_used<S: Alter>(conn: &mut Connection<S>) -> Result<(), StoreFault>
    ensures made { Makes lowered (state S.Store conn.old) (state S.Store conn.new) result }
    ensures fault { IsSure Holds (state S.Store conn.old) (state S.Store conn.new) result }
    ensures plain { IfErr result IsPlain }
    ensures within { StaysWithin (state S.Store conn.old) (state S.Store conn.new) result }
{
    let rows = select_counter(conn, USED)?;
    if rows.is_empty() {
        return Ok(());
    }
    let used = the_number(rows.as_slice())?;
    lower_from(conn, used)
}
