// The action of a request, within the open transaction.
ghost use Rattle.std.specs.Prelude.{◌≡◌, None, IsTrue, IfOk, IfErr, OnOk};
ghost use Rattle.sqlite.specs.Held.{state};
ghost use Rattle.fuse_request.specs.Act.{asked};
ghost use Rattle.fuse_tree.specs.Do.{done};
ghost use Rattle.fuse_tree.specs.State.{State, Tree};
ghost use Rattle.fuse_store_tables.specs.Faults.{IsPlain};
ghost use Rattle.fuse_store_tables.specs.inner.Performing.{IsSure};
ghost use Rattle.fuse_store_tree.specs.inner.Acting.{ActsInside, why_no_plan};
ghost use Rattle.fuse_store_tree.specs.Knowing.{HeldForKnown, knowing};
ghost use Rattle.fuse_store_tree.specs.Looking.{as_look_fault};
ghost use Rattle.fuse_store_tree.specs.Widening.{Widens};
ghost use Rattle.fuse_store_tree.specs.inner.Preparing.{AreMadeOf};
ghost use Rattle.fuse_store_tables.specs.Moves.{Stays, StaysInside};

use crate::contents::Contents;
use crate::gaps::clear_gap;
use crate::look::TableLook;
use crate::made::Made;
use crate::plan_changes::make_all;
use fuse_answer::Answer;
use fuse_keeper::StoreFault;
use fuse_plan::{PlanFault, plan, tree_kept};
use fuse_request::Request;
use fuse_wire::Moment;
use sqlite::Alter;
use std::alloc::Global;

/// The fault of a request without a plan.
pub(crate) fn fault_of_plan(fault: PlanFault, looked: Option<StoreFault>) -> StoreFault
    ensures { result ≡ why_no_plan fault looked }
{
    match fault {
        PlanFault::Memory => StoreFault::Memory,
        PlanFault::NotATree => StoreFault::Damaged,
        PlanFault::Look(_) => match looked {
            Some(fault) => fault,
            None => StoreFault::Damaged,
        },
    }
}

/// Executes a request: plans it and makes the changes of the plan, in the open transaction.
pub(crate) fn act<S: Alter, C: Contents>(
    alloc: Global,
    look: &mut TableLook<S, C>,
    request: &Request<'_>,
    now: Moment,
    made: &Made<'_>,
) -> Result<Answer, StoreFault>
    requires ready { as_look_fault look.old.fault ≡ None }
    requires made { AreMadeOf (C.Contents.file look.old.contents).contents.seen made.now.at
        made.now.bytes.now made.now.pieces.now }
    ensures widens { Widens (C.Contents.file look.old.contents)
        (C.Contents.file look.new.contents) }
    ensures acts { IfOk result (λ answer. (s : State) → Tree s → ActsInside
        (knowing look.old.known (state S.Store look.old.conn) (C.Contents.file look.old.contents))
        (knowing look.new.known (state S.Store look.new.conn) (C.Contents.file look.new.contents))
        s (done s (asked request.now) now) answer) }
    // Nothing is committed, whether it succeeds or not.
    ensures keeps { Stays (state S.Store look.old.conn) (state S.Store look.new.conn) }
    // And the transaction stays open where it succeeds.
    ensures within { OnOk result (StaysInside (state S.Store look.old.conn)
        (state S.Store look.new.conn)) }
    ensures fault { as_look_fault look.new.fault ≡ None }
    ensures sure { IsTrue (C.Contents.file look.new.contents).is_clean
        → IsSure (HeldForKnown (C.Contents.file look.old.contents).bytes look.old.known)
        (state S.Store look.old.conn) (state S.Store look.new.conn) result }
    ensures plain { IfErr result IsPlain }
{
    tree_kept();
    // The look for a node of the request before may be out of date.
    look.last = None;
    let planned = match plan(alloc, look, request, now) {
        Ok(planned) => planned,
        Err(fault) => return Err(fault_of_plan(fault, look.take_fault())),
    };
    let changes = planned.changes.as_slice();
    match clear_gap(
        &mut look.conn,
        &mut look.contents,
        &mut look.gone,
        look.last,
        alloc,
        changes,
    ) {
        Ok(()) => {}
        Err(fault) => return Err(fault),
    }
    match make_all(
        &mut look.conn,
        &mut look.contents,
        &mut look.gone,
        look.known,
        alloc,
        changes,
        made,
    ) {
        Ok(known) => {
            look.known = known;
            Ok(planned.answer)
        }
        Err(fault) => Err(fault),
    }
}
