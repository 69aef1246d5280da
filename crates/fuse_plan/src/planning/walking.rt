ghost use Rattle.std.specs.Prelude.{◌≡◌, None};
ghost use Rattle.fuse_tree.specs.State.{up_of, above};
ghost use Rattle.fuse_rows.specs.Rows.{Rows};
ghost use Rattle.fuse_tree.specs.Rowed.{IsRowed};
ghost use Rattle.fuse_plan.specs.Plan.{look_fault};
ghost use Rattle.fuse_tree.specs.Renaming.{leads_to};
ghost use Rattle.fuse_plan.specs.inner.Reading.{IsReported, LooksUp, LookedOrFailed, view};

use super::fault::PlanFault;
use super::finding::{find_counters, find_node};
use fuse_rows::MAX_NODES;
use fuse_tree::Look;

// The directory above a node, 0 where no entry leads to it.
#[tactic(auto, using(crate::proofs::Walking::row_up, crate::proofs::Walking::none_up))]
fn find_up<L: Look>(look: &mut L, number: u64) -> Result<u64, PlanFault>
    requires { L.fault look.old ≡ None }
    ensures { LooksUp (view L.is_clean L.sees L.fault L.looks L.fails) look.old look.new result
        (λ rows. up_of rows.entries number) }
{
    match find_node(look, number)? {
        Some(row) => Ok(row.up),
        None => Ok(0),
    }
}

// Whether a directory is this node, or lies under it. No way up is longer than the number of
// nodes, of which no tree has more than MAX_NODES.
#[tactic(auto, using(crate::proofs::Walking::rows_end, crate::proofs::Walking::rows_few))]
pub(crate) fn lies_in<L: Look>(look: &mut L, node: u64, dir: u64) -> Result<bool, PlanFault>
    requires { L.fault look.old ≡ None }
    ensures { LooksUp (view L.is_clean L.sees L.fault L.looks L.fails) look.old look.new result
        (λ rows. leads_to rows.entries rows.counters.nodes node dir) }
{
    let counters = find_counters(look)?;
    if counters.nodes > MAX_NODES {
        return Err(PlanFault::NotATree);
    }
    go_up(look, node, dir, counters.nodes)
}

// Whether one of so many places on the way up from a directory is this node. Where the way doesn't
// end there, the rows are those of no tree.
fn go_up<L: Look>(look: &mut L, node: u64, dir: u64, places: u64) -> Result<bool, PlanFault>
    requires { L.fault look.old ≡ None }
    ensures under { look_fault result ≡ None → L.is_clean look.new → (rows : Rows) → IsRowed rows
        → L.sees look.old rows → above rows.entries places dir ≡ 0
        → IsReported result (leads_to rows.entries places node dir) }
    ensures looked { LookedOrFailed L.fault L.looks L.fails look.old look.new result }
{
    let mut place = dir;
    for _step in 0..places {
        if place == node {
            return Ok(true);
        }
        if place == 0 {
            return Ok(false);
        }
        place = find_up(look, place)?;
    }
    if place == 0 {
        Ok(false)
    } else {
        Err(PlanFault::NotATree)
    }
}
