ghost use Rattle.std.specs.Prelude.{◌≡◌, None, IfOk};
ghost use Rattle.std.specs.Option.{unwrap_or};
ghost use Rattle.fuse_init.specs.Profile.{terms};
ghost use Rattle.fuse_answer.specs.FurtherAnswers.{statfs_bytes};
ghost use Rattle.fuse_rows.specs.Rows.{profile_for};
ghost use Rattle.fuse_tree.specs.Statfs as stated;
ghost use Rattle.fuse_tree.specs.Statfs.{no_room};
ghost use Rattle.fuse_plan.specs.inner.PlanStatfs as planning;
ghost use Rattle.fuse_plan.specs.inner.Reading.{told, LooksUp, view};

use super::answers::unchanged;
use super::fault::PlanFault;
use super::finding::find_counters;
use crate::planned::Planned;
use fuse_answer::{Answer, MAX_NAME, StatfsOut};
use fuse_rows::{BLOCK_SIZE, Counters, Room};
use fuse_tree::{Look, max_nodes};
use fuse_wire::{ByteList, Memory};
use std::alloc::Global;

// STATFS, whatever the node.
pub(crate) fn plan_statfs<L: Look>(alloc: Global, look: &mut L) -> Result<Planned, PlanFault>
    requires { L.fault look.old ≡ None }
    ensures { LooksUp (view L.is_clean L.sees L.fault L.looks L.fails) look.old look.new result
        planning.plan_statfs }
{
    let counters = find_counters(look)?;
    Ok(unchanged(alloc, statfs_answer(alloc, &counters)?))
}

fn statfs_answer(alloc: Global, counters: &Counters) -> Result<Answer, Memory>
    ensures { IfOk result (λ answer. answer ≡ (told (statfs_bytes (stated.statfs_of
        (terms (profile_for counters.now.room)).node_limit counters.now.nodes
        (unwrap_or counters.now.room no_room)))).answer) }
{
    let body = statfs_of(counters).body_of(alloc)?;
    Ok(Answer::success(ByteList::from_vec(body)))
}

// The blocks and the nodes, and how many of them are left.
fn statfs_of(counters: &Counters) -> StatfsOut
    ensures { result ≡ stated.statfs_of (terms (profile_for counters.now.room)).node_limit
        counters.now.nodes (unwrap_or counters.now.room no_room) }
{
    let room = room_in(counters);
    let free = room.capacity.saturating_sub(room.used);
    let files = max_nodes(counters.profile());
    StatfsOut {
        blocks: room.capacity,
        bfree: free,
        bavail: free,
        files,
        ffree: files.saturating_sub(counters.nodes),
        bsize: BLOCK_SIZE,
        namelen: MAX_NAME as u32,
        frsize: BLOCK_SIZE,
    }
}

// A store that counts no blocks has none.
fn room_in(counters: &Counters) -> Room
    ensures { result ≡ unwrap_or counters.now.room no_room }
{
    match counters.room {
        Some(room) => room,
        None => Room {
            capacity: 0,
            used: 0,
        },
    }
}
