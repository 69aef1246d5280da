// One request of a group, within the open transaction.
ghost use Rattle.std.specs.Prelude.{◌≡◌, ◌<◌, ◌^◌, ℕ, List, true, false, None, IsTrue};
ghost use Rattle.std.specs.Prelude.{IfOk, IfErr, OnOk, OnErr};
ghost use Rattle.sqlite.specs.State.{HasCleanDisk};
ghost use Rattle.sqlite.specs.Held.{state};
ghost use Rattle.fuse_answer.specs.Said.{FitsAnswer};
ghost use Rattle.fuse_keeper.specs.Group.{entry_of};
ghost use Rattle.fuse_keeper.specs.History.{is_seen};
ghost use Rattle.fuse_store_tables.specs.Faults.{IsOutside, IsPlain};
ghost use Rattle.fuse_store_tables.specs.inner.Performing.{IsSure};
ghost use Rattle.fuse_store_tree.specs.Looking.{as_look_fault};
ghost use Rattle.fuse_store_tree.specs.Pieces.{ReadsFile};
ghost use Rattle.fuse_store_tree.specs.Widening.{Widens};
ghost use Rattle.fuse_store_tree.specs.inner.Over.{TurnedOver};
ghost use Rattle.fuse_store_tree.specs.inner.Preparing.{AreMadeOf};
ghost use Rattle.fuse_store_tree.specs.Holding.{Holding};
ghost use Rattle.fuse_store_tree.specs.Knowing.{HeldForKnown};
ghost use Rattle.fuse_store_tree.specs.inner.Changing.{Turned};
ghost use Rattle.fuse_store_tree.specs.inner.Knowing.{InsideKnown};
ghost use Rattle.fuse_store_tree.specs.Group.{acted_on, done_newly, taken, with_record};
ghost use Rattle.fuse_store_tree.specs.Group.{said_of};
ghost use Rattle.fuse_tree.specs.TheTree.{tree_of};
ghost use Rattle.fuse_store_tables.specs.Moves.{Stays};

use crate::action::{act, fault_of_plan};
use crate::contents::Contents;
use crate::look::TableLook;
use crate::made::Made;
use crate::rows::find_answer;
use crate::updates::narrow;
use fuse_answer::Answer;
use fuse_init::Profile;
use fuse_keeper::{Done, StoreFault};
use fuse_plan::plan;
use fuse_request::Request;
use fuse_store_tables::insert_kept;
use fuse_tree::sees_requests;
use fuse_wire::{Id, Moment};
use sqlite::{Alter, Connection};
use std::alloc::Global;

// The error number of an answer is of 32 bits.
fn law_of_errno(answer: &Answer)
    ensures { answer.now.errno < 2 ^ 32 }
{
    narrow(answer.errno.0);
}

// Adds the record of an answer, under a lot.
fn record<S: Alter>(
    conn: &mut Connection<S>,
    id: u64,
    lot: u64,
    answer: &Answer,
) -> Result<(), StoreFault>
    requires id { id < 2 ^ 63 }
    requires lot { lot < 2 ^ 63 }
    requires fits { FitsAnswer answer.now }
    ensures turned { OnOk result ((file : List ℕ) → Turned file (with_record id lot answer.now) (state S.Store conn.old)
        (state S.Store conn.new)) }
    ensures fails { OnErr result (Stays (state S.Store conn.old) (state S.Store conn.new)) }
    ensures fault { IfErr result IsOutside }
    ensures plain { IfErr result IsPlain }
{
    law_of_errno(answer);
    match insert_kept(conn, id, lot, answer) {
        Ok(()) => Ok(()),
        Err(error) => Err(StoreFault::from(error)),
    }
}

// Executes a request and records its answer.
fn act_and_record<S: Alter, C: Contents>(
    alloc: Global,
    look: &mut TableLook<S, C>,
    lot: u64,
    request: &Request<'_>,
    now: Moment,
    made: &Made<'_>,
) -> Result<Done, StoreFault>
    requires ready { as_look_fault look.old.fault ≡ None }
    requires lot { lot < 2 ^ 62 }
    requires made { AreMadeOf (C.Contents.file look.old.contents).contents.seen made.now.at
        made.now.bytes.now made.now.pieces.now }
    ensures widens { Widens (C.Contents.file look.old.contents)
        (C.Contents.file look.new.contents) }
    ensures turned { OnOk result (TurnedOver (C.Contents.file look.old.contents)
        (C.Contents.file look.new.contents) look.old.known look.new.known
        (acted_on lot (entry_of (request.now, now))) (state S.Store look.old.conn)
        (state S.Store look.new.conn)) }
    ensures done { HasCleanDisk (state S.Store look.new.conn)
        → IsTrue (C.Contents.file look.new.contents).is_clean → IfOk result (λ done.
        (y : Holding) → InsideKnown (C.Contents.file look.old.contents).bytes look.old.known y (state S.Store look.old.conn)
        → done ≡ done_newly (said_of (entry_of (request.now, now)) y)) }
    ensures fails { OnErr result (Stays (state S.Store look.old.conn)
        (state S.Store look.new.conn)) }
    ensures ready { as_look_fault look.new.fault ≡ None }
    ensures fault { IsTrue (C.Contents.file look.new.contents).is_clean
        → IsSure (HeldForKnown (C.Contents.file look.old.contents).bytes look.old.known) (state S.Store look.old.conn)
        (state S.Store look.new.conn) result }
    ensures plain { IfErr result IsPlain }
{
    let answer = match act(alloc, look, request, now, made) {
        Ok(answer) => answer,
        Err(fault) => return Err(fault),
    };
    let id = Id::of(request.header.unique).0;
    match record(&mut look.conn, id, lot, &answer) {
        Ok(()) => Ok(Done {
            answer,
            repeated: false,
        }),
        Err(fault) => Err(fault),
    }
}

// Sees a request: it looks for no record and leaves none, and its plan has no changes.
fn see_one<S: Alter, C: Contents>(
    alloc: Global,
    look: &mut TableLook<S, C>,
    request: &Request<'_>,
    now: Moment,
) -> Result<Done, StoreFault>
    requires ready { as_look_fault look.old.fault ≡ None }
    ensures reads { ReadsFile (C.Contents.file look.old.contents)
        (C.Contents.file look.new.contents) }
    ensures turned { OnOk result (TurnedOver (C.Contents.file look.old.contents)
        (C.Contents.file look.new.contents) look.old.known look.new.known (λ y. y)
        (state S.Store look.old.conn) (state S.Store look.new.conn)) }
    ensures done { HasCleanDisk (state S.Store look.new.conn)
        → IsTrue (C.Contents.file look.new.contents).is_clean → IfOk result (λ done.
        (y : Holding) → InsideKnown (C.Contents.file look.old.contents).bytes look.old.known y (state S.Store look.old.conn)
        → done ≡ done_newly (said_of (entry_of (request.now, now)) y)) }
    ensures fails { OnErr result (Stays (state S.Store look.old.conn)
        (state S.Store look.new.conn)) }
    ensures ready { as_look_fault look.new.fault ≡ None }
    ensures fault { IsTrue (C.Contents.file look.new.contents).is_clean
        → IsSure (HeldForKnown (C.Contents.file look.old.contents).bytes look.old.known) (state S.Store look.old.conn)
        (state S.Store look.new.conn) result }
    ensures plain { IfErr result IsPlain }
{
    // The look for a node of the request before may be out of date.
    look.last = None;
    match plan(alloc, look, request, now) {
        Ok(planned) => Ok(Done {
            answer: planned.answer,
            repeated: false,
        }),
        Err(fault) => Err(fault_of_plan(fault, look.take_fault())),
    }
}

// Replays or executes a request that is kept.
fn keep_one<S: Alter, C: Contents>(
    alloc: Global,
    look: &mut TableLook<S, C>,
    profile: Profile,
    lot: u64,
    request: &Request<'_>,
    now: Moment,
    made: &Made<'_>,
) -> Result<Done, StoreFault>
    requires ready { as_look_fault look.old.fault ≡ None }
    requires lot { lot < 2 ^ 62 }
    requires kept { is_seen (tree_of profile).service (entry_of (request.now, now)) ≡ false }
    requires made { AreMadeOf (C.Contents.file look.old.contents).contents.seen made.now.at
        made.now.bytes.now made.now.pieces.now }
    ensures widens { Widens (C.Contents.file look.old.contents)
        (C.Contents.file look.new.contents) }
    ensures turned { OnOk result (TurnedOver (C.Contents.file look.old.contents)
        (C.Contents.file look.new.contents) look.old.known look.new.known
        (λ y. (taken (tree_of profile).service lot (entry_of (request.now, now)) y).holding)
        (state S.Store look.old.conn) (state S.Store look.new.conn)) }
    ensures done { HasCleanDisk (state S.Store look.new.conn)
        → IsTrue (C.Contents.file look.new.contents).is_clean → IfOk result (λ done.
        (y : Holding) → InsideKnown (C.Contents.file look.old.contents).bytes look.old.known y (state S.Store look.old.conn)
        → done ≡ (taken (tree_of profile).service lot (entry_of (request.now, now)) y).done) }
    ensures fails { OnErr result (Stays (state S.Store look.old.conn)
        (state S.Store look.new.conn)) }
    ensures ready { as_look_fault look.new.fault ≡ None }
    ensures fault { IsTrue (C.Contents.file look.new.contents).is_clean
        → IsSure (HeldForKnown (C.Contents.file look.old.contents).bytes look.old.known) (state S.Store look.old.conn)
        (state S.Store look.new.conn) result }
    ensures plain { IfErr result IsPlain }
{
    let known = match find_answer(&mut look.conn, Id::of(request.header.unique).0) {
        Ok(known) => known,
        Err(fault) => return Err(fault),
    };
    match known {
        Some(answer) => Ok(Done {
            answer,
            repeated: true,
        }),
        None => act_and_record(alloc, look, lot, request, now, made),
    }
}

/// Takes one request: a kept one whose id has a record is a repeat. A large WRITE lists what was
/// written for it.
pub(crate) fn take_one<S: Alter, C: Contents>(
    alloc: Global,
    look: &mut TableLook<S, C>,
    profile: Profile,
    lot: u64,
    request: &Request<'_>,
    now: Moment,
    made: &Made<'_>,
) -> Result<Done, StoreFault>
    requires ready { as_look_fault look.old.fault ≡ None }
    requires lot { lot < 2 ^ 62 }
    requires made { AreMadeOf (C.Contents.file look.old.contents).contents.seen made.now.at
        made.now.bytes.now made.now.pieces.now }
    ensures widens { Widens (C.Contents.file look.old.contents)
        (C.Contents.file look.new.contents) }
    // A seen one only reads of the data file.
    ensures reads { is_seen (tree_of profile).service (entry_of (request.now, now)) ≡ true
        → ReadsFile (C.Contents.file look.old.contents) (C.Contents.file look.new.contents) }
    ensures turned { OnOk result (TurnedOver (C.Contents.file look.old.contents)
        (C.Contents.file look.new.contents) look.old.known look.new.known
        (λ y. (taken (tree_of profile).service lot (entry_of (request.now, now)) y).holding)
        (state S.Store look.old.conn) (state S.Store look.new.conn)) }
    ensures done { HasCleanDisk (state S.Store look.new.conn)
        → IsTrue (C.Contents.file look.new.contents).is_clean → IfOk result (λ done.
        (y : Holding) → InsideKnown (C.Contents.file look.old.contents).bytes look.old.known y (state S.Store look.old.conn)
        → done ≡ (taken (tree_of profile).service lot (entry_of (request.now, now)) y).done) }
    ensures fails { OnErr result (Stays (state S.Store look.old.conn)
        (state S.Store look.new.conn)) }
    ensures ready { as_look_fault look.new.fault ≡ None }
    ensures fault { IsTrue (C.Contents.file look.new.contents).is_clean
        → IsSure (HeldForKnown (C.Contents.file look.old.contents).bytes look.old.known) (state S.Store look.old.conn)
        (state S.Store look.new.conn) result }
    ensures plain { IfErr result IsPlain }
{
    if sees_requests(profile, request.op.opcode()) {
        see_one(alloc, look, request, now)
    } else {
        keep_one(alloc, look, profile, lot, request, now, made)
    }
}
