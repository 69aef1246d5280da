// The tree in memory as a file system.
ghost use Rattle.std.specs.Prelude.{◌≡◌, None, IfOk};
ghost use Rattle.fuse_lists.specs.PlainRows.{lists_fault};
ghost use Rattle.fuse_tree.specs.State.{new_store};
ghost use Rattle.fuse_tree.specs.Rowed.{rowed};
ghost use Rattle.fuse_tree.specs.TheTree.{tree_of};
ghost use Rattle.fuse_lists.specs.PlainTree.{tree_held};
ghost use Rattle.fuse_lists.specs.inner.Causing.{CausedByPlan};

use crate::plain::PlainRows;
use fuse_answer::Answer;
use fuse_init::{Profiled, Settings};
use fuse_keeper::{FileSystem, StoreFault};
use fuse_plan::{PlanFault, answers_fit, clearing, looks_stay, new_store_is_tree, plan, tree_kept};
use fuse_request::Request;
use fuse_rows::{DEFAULT_CAPACITY, Origin};
use fuse_tree::{sees_requests, serves_further};
use fuse_wire::{Memory, Moment};
use std::alloc::Global;
use std::marker::PhantomData;

/// A tree of this profile whose rows are lists.
#[derive(Drop)]
pub struct PlainTree<P> {
    rows: PlainRows,
    of: PhantomData<P>,
}

impl<P: Profiled> PlainTree<P> {
    /// A new one of this origin with this capacity, in blocks. A plain tree has none.
    pub fn sized(alloc: Global, from: Origin, capacity: u64) -> Result<PlainTree<P>, Memory>
        ensures held { IfOk result (λ t. tree_held t ≡ rowed (new_store P.PROFILE capacity from)) }
        ensures ready { IfOk result (λ t. lists_fault t.rows ≡ None) }
    {
        let rows = PlainRows::new(alloc, P::PROFILE, capacity, from)?;
        Ok(PlainTree {
            rows,
            of: PhantomData,
        })
    }
}

// The store's fault for a plan's. A look at lists fails only where it is out of memory.
fn fault_of_plan(fault: PlanFault) -> StoreFault
    ensures { CausedByPlan fault result }
{
    match fault {
        PlanFault::Look(_) => StoreFault::Memory,
        PlanFault::Memory => StoreFault::Memory,
        PlanFault::NotATree => StoreFault::Damaged,
    }
}

impl<P: Profiled> FileSystem for PlainTree<P> {
    ghost model = { tree_of P.PROFILE };

    ghost held = { tree_held };

    ghost is_ready = { λ t. lists_fault t.rows ≡ None };

    fn serves(opcode: u32) -> bool {
        serves_further(P::PROFILE, opcode)
    }

    fn sees(opcode: u32) -> bool {
        sees_requests(P::PROFILE, opcode)
    }

    fn start(alloc: Global, now: Moment) -> Result<PlainTree<P>, Memory> {
        PlainTree::sized(alloc, Origin::at(now), DEFAULT_CAPACITY)
    }

    fn act(
        &mut self,
        alloc: Global,
        request: &Request<'_>,
        now: Moment,
    ) -> Result<Answer, StoreFault> {
        tree_kept();
        looks_stay();
        let planned = match plan(alloc, &mut self.rows, request, now) {
            Ok(planned) => planned,
            Err(fault) => return Err(fault_of_plan(fault)),
        };
        if sees_requests(P::PROFILE, request.op.opcode()) {
            return Ok(planned.answer);
        }
        self.rows.apply_all(planned.changes)?;
        Ok(planned.answer)
    }

    fn to_copy(&self) -> Result<PlainTree<P>, Memory> {
        let rows = self.rows.to_copy()?;
        Ok(PlainTree {
            rows,
            of: PhantomData,
        })
    }

    fn begin_mount(&mut self) {
        clearing();
        self.rows.begin_mount();
    }

    fn agreed(&self) -> Option<Settings> {
        self.rows.agreed()
    }

    fn counted(&self) -> (u64, u64) {
        let counters = self.rows.counted();
        (counters.nodes, counters.handles)
    }

    fn model_is_sound() {
        answers_fit();
        new_store_is_tree();
        tree_kept();
        looks_stay();
        clearing();
    }
}
