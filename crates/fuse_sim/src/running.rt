// Groups of events, performed one after the other.
ghost use Rattle.std.specs.Prelude.{◌≡◌, ◌≤◌, ◌<◌, ◌+◌, ◌++◌, ℕ, List, [], false, true};
ghost use Rattle.std.specs.Prelude.{if◌then◌else◌, length, map, take, drop, All, vec_capacity};
ghost use Rattle.std.specs.Prelude.{None, IsSome, IsSomeAnd, IfSome, is_err};
ghost use Rattle.std.specs.Prelude.{IfOk, IfErr, OnOk, OnErr, MatchResult};
ghost use Rattle.fuse_request.specs.Opcodes.{Service};
ghost use Rattle.fuse_keeper.specs.Model.{serving};
ghost use Rattle.fuse_keeper.specs.History.{History};
ghost use Rattle.fuse_keeper.specs.KeeperState.{Called, KeepsHeld, IsFirm};
ghost use Rattle.fuse_keeper.specs.Group.{ids_of};
ghost use Rattle.fuse_keeper.specs.declared.keeper.TheConstants.{MAX_SETTLED as max_settled};
ghost use Rattle.fuse_sim.specs.Driving.{told_in, told_for, StandsIn, committed};
ghost use Rattle.fuse_sim.specs.Driving.{settled_by, NoneReused, IsFit, Names, event_of, before};
ghost use Rattle.fuse_sim.specs.Driving.{is_store, IsStoreFault, LeftBy, OfRestart};
ghost use Rattle.fuse_sim.specs.Driving.{became_in, performed_in, Opened, AnsweredBy, StoodBefore};
ghost use Rattle.fuse_sim.specs.Driving.{MayRefuse, KeepsMedium};
ghost use Rattle.fuse_sim.specs.AfterEvents.{StandsAfter, AnswersAre, FirstAnswersAre};
ghost use Rattle.fuse_sim.specs.AfterEvents.{DeletesHanded, KeepsUnhanded};
ghost use Rattle.fuse_sim.specs.HandedOn.{performances, AsksUpTo, AskedSome};
ghost use Rattle.fuse_sim.specs.Twice.{seen_of};
ghost use Rattle.fuse_sim.specs.inner.HandedBy.{IsOneGroup};
ghost use Rattle.fuse_sim.specs.inner.Running.{stage, GathersEvents, BeginsGroup, Worked, Moved};
ghost use Rattle.fuse_sim.specs.inner.Running.{Opens, StopsAtEvent, AsksGroup, StopsAsking};

use crate::event::{DriveFault, Event, Outcome};
use crate::group::{Group, answer_group, gather, is_before_commit, test_event};
use fuse_keeper::{
    Restart, StoreFault, histories_grow, kept_groups_grow, perform_group, still_stands,
};
use fuse_request::seen_by_class;
use fuse_wire::Id;
use std::alloc::{AllocError, Global};

// Opens the keeper again. A fault leaves none.
fn reopen<K: Restart>(keeper: &mut Option<K>) -> Result<(), StoreFault>
    ghost service: { Service }
    requires there { IsSome keeper.old }
    requires serves { IfSome keeper.old (λ k. (K.told k).service ≡ service) }
    ensures same { OnOk result ((told_in (told_for service K.told) keeper.new).is_honest
        → KeepsHeld (told_in (told_for service K.told) keeper.old) (told_in (told_for service K.told) keeper.new)) }
    ensures honest { (told_in (told_for service K.told) keeper.new).is_honest → (told_in (told_for service K.told) keeper.old).is_honest }
    ensures going { OnOk result (IsSomeAnd keeper.new (λ k. (K.told k).has_failed ≡ false)) }
    ensures err { OnErr result (keeper.new ≡ None) }
    ensures refused { IfErr result
        (λ f. IsSomeAnd keeper.old (λ k. MayRefuse K.refuses k f)) }
    ensures once { OnOk result (became_in K.became keeper.old keeper.new 1) }
    ensures unasked { OnOk result (performed_in K.performed keeper.old keeper.new []) }
    ensures firm { OnOk result ((told_in (told_for service K.told) keeper.new).is_honest
        → IsFirm (told_in (told_for service K.told) keeper.new)) }
    ensures stays { IfSome keeper.new (λ k. (K.told k).service ≡ service) }
    ensures medium { OnOk result (KeepsMedium (told_for service K.told) keeper.old keeper.new) }
{
    let old = keeper.take().unwrap();
    match old.restart() {
        Ok(opened) => {
            *keeper = Some(opened);
            Ok(())
        }
        Err((fault, _rest)) => Err(fault),
    }
}

// Where the server dies at an event, of this number, it starts again, and nothing is pending.
fn end_group<K: Restart>(
    keeper: &mut Option<K>,
    dies: bool,
    event: usize,
    pending: &mut Vec<Id>,
) -> Result<(), DriveFault>
    ghost service: { Service }
    requires going { IsSomeAnd keeper.old (λ k. (K.told k).has_failed ≡ false) }
    requires serves { IfSome keeper.old (λ k. (K.told k).service ≡ service) }
    ensures same { OnOk result ((told_in (told_for service K.told) keeper.new).is_honest
        → KeepsHeld (told_in (told_for service K.told) keeper.old) (told_in (told_for service K.told) keeper.new)) }
    ensures honest { (told_in (told_for service K.told) keeper.new).is_honest → (told_in (told_for service K.told) keeper.old).is_honest }
    ensures going { OnOk result (IsSomeAnd keeper.new (λ k. (K.told k).has_failed ≡ false)) }
    ensures pending { OnOk result
        (pending.new.items ≡ (if dies then [] else pending.old.items)) }
    ensures err { OnErr result ((keeper.new ≡ None) × (dies ≡ true)) }
    ensures fault { IfErr result (λ f. (is_store f ≡ true) × (event_of f ≡ event)) }
    ensures refused { IfErr result
        (λ f. IsSomeAnd keeper.old (λ k. IsStoreFault (MayRefuse K.refuses k) f)) }
    ensures opened { OnOk result
        (became_in K.became keeper.old keeper.new (if dies then 1 else 0)) }
    ensures unasked { OnOk result (performed_in K.performed keeper.old keeper.new []) }
    ensures firm { OnOk result ((told_in (told_for service K.told) keeper.new).is_honest
        → IsFirm (told_in (told_for service K.told) keeper.old) → IsFirm (told_in (told_for service K.told) keeper.new)) }
    ensures stays { IfSome keeper.new (λ k. (K.told k).service ≡ service) }
    ensures medium { OnOk result (KeepsMedium (told_for service K.told) keeper.old keeper.new) }
{
    if !dies {
        return Ok(());
    }
    pending.clear();
    match reopen(keeper) {
        Ok(()) => Ok(()),
        Err(fault) => Err(DriveFault::Store { event, fault }),
    }
}

// Room for the outcomes of so many events, and for so many ids.
fn make_room(
    outcomes: &mut Vec<Option<Outcome>>,
    events: usize,
    pending: &mut Vec<Id>,
    ids: usize,
) -> Result<(), AllocError>
    ensures outcomes { outcomes.new.items ≡ outcomes.old.items }
    ensures pending { pending.new.items ≡ pending.old.items }
    ensures room { OnOk result (length outcomes.new.items + events ≤ vec_capacity outcomes.new) }
    ensures places { OnOk result (length pending.new.items + ids ≤ vec_capacity pending.new) }
{
    outcomes.reserve(events)?;
    pending.reserve(ids)
}

// Performs a group that was read off events, on the keeper that is there, and gives them their
// outcomes. There is room for these, and for the ids that they settle.
fn work_group<K: Restart>(
    alloc: Global,
    keeper: &mut Option<K>,
    run: &[Event],
    group: &Group<'_>,
    pending: &mut Vec<Id>,
    outcomes: &mut Vec<Option<Outcome>>,
) -> Result<(), StoreFault>
    ghost service: { Service }
    requires serves { IfSome keeper.old (λ k. (K.told k).service ≡ service) }
    requires gathers { GathersEvents (serving service K.model) run.now group.now }
    requires few { length pending.old.items ≤ max_settled }
    requires going { IsSomeAnd keeper.old (λ k. (K.told k).has_failed ≡ false) }
    requires room { length outcomes.old.items + length run.now ≤ vec_capacity outcomes.old }
    requires places { length pending.old.items + length group.now.taken.items
        ≤ vec_capacity pending.old }
    ensures ok { OnOk result (Worked
        (stage (told_in (told_for service K.told) keeper.old) (ids_of pending.old.items) outcomes.old.items)
        (stage (told_in (told_for service K.told) keeper.new) (ids_of pending.new.items) outcomes.new.items)
        run.now) }
    ensures called { Called (told_in (told_for service K.told) keeper.old) (told_in (told_for service K.told) keeper.new) result }
    ensures same { became_in K.became keeper.old keeper.new 0 }
    ensures failed { IsSomeAnd keeper.new (λ k. (K.told k).has_failed ≡ is_err result) }
    ensures asked { AsksGroup service K.performed keeper.old keeper.new
        (ids_of pending.old.items) run.now }
    ensures stays { IfSome keeper.new (λ k. (K.told k).service ≡ service) }
    ensures some { OnErr result (0 < length group.now.taken.items) }
{
    kept_groups_grow::<K>();
    histories_grow::<K>();
    still_stands::<K>();
    seen_by_class();
    let inner = keeper.as_mut().unwrap();
    let dones = perform_group(alloc, inner, group.taken.as_slice(), pending)?;
    answer_group(
        alloc,
        run,
        group.classes.as_slice(),
        dones,
        pending,
        outcomes,
    );
    Ok(())
}

// Runs the group that begins at a place, and says how many events it has.
fn run_group<K: Restart>(
    alloc: Global,
    keeper: &mut Option<K>,
    events: &[Event],
    at: usize,
    pending: &mut Vec<Id>,
    outcomes: &mut Vec<Option<Outcome>>,
) -> Result<usize, DriveFault>
    ghost service: { Service }
    requires serves { IfSome keeper.old (λ k. (K.told k).service ≡ service) }
    requires begins { BeginsGroup (drop at events.now) }
    requires few { length pending.old.items ≤ max_settled }
    requires going { IsSomeAnd keeper.old (λ k. (K.told k).has_failed ≡ false) }
    ensures moves { IfOk result (λ n. 0 < n) }
    ensures within { IfOk result (λ n. at + n ≤ length events.now) }
    ensures ok { IfOk result (λ n. Moved
        (stage (told_in (told_for service K.told) keeper.old) (ids_of pending.old.items) outcomes.old.items)
        (stage (told_in (told_for service K.told) keeper.new) (ids_of pending.new.items) outcomes.new.items)
        (take n (drop at events.now)) (drop (at + n) events.now)) }
    ensures opens { IfOk result (λ n. Opens (told_for service K.told) K.became keeper.old keeper.new
        (ids_of pending.old.items) (take n (drop at events.now))) }
    ensures few { OnOk result (length pending.new.items ≤ max_settled) }
    ensures going { OnOk result (IsSomeAnd keeper.new (λ k. (K.told k).has_failed ≡ false)) }
    ensures honest { (told_in (told_for service K.told) keeper.new).is_honest → (told_in (told_for service K.told) keeper.old).is_honest }
    ensures stays { IfSome keeper.new (λ k. (K.told k).service ≡ service) }
    ensures err { IfErr result (StopsAtEvent (seen_of (told_for service K.told) K.became K.performed K.refuses)
        keeper.old keeper.new events.now at) }
    ensures one { IfOk result (λ n. IsOneGroup service (take n (drop at events.now))) }
    ensures asked { IfOk result (λ n. AsksGroup service K.performed keeper.old keeper.new
        (ids_of pending.old.items) (take n (drop at events.now))) }
    ensures err_asked { IfErr result (StopsAsking (seen_of (told_for service K.told) K.became K.performed K.refuses)
        keeper.old keeper.new (ids_of pending.old.items) (drop at events.now)) }
{
    still_stands::<K>();
    seen_by_class();
    let inner = keeper.as_ref().unwrap();
    let Ok(group) = gather(alloc, inner, &events[at..]) else {
        return Err(DriveFault::Memory { event: at });
    };
    let count = group.classes.len();
    let run = &events[at..at + count];
    if make_room(outcomes, count, pending, group.taken.len()).is_err() {
        return Err(DriveFault::Memory { event: at });
    }
    if let Err(fault) = work_group(alloc, keeper, run, &group, pending, outcomes) {
        return Err(DriveFault::Store { event: at, fault });
    }
    end_group(keeper, group.died, at + count - 1, pending)?;
    Ok(count)
}

// Runs the events that come next, a group of them or one that is lost, and says how many.
fn run_next<K: Restart>(
    alloc: Global,
    keeper: &mut Option<K>,
    events: &[Event],
    at: usize,
    pending: &mut Vec<Id>,
    outcomes: &mut Vec<Option<Outcome>>,
) -> Result<usize, DriveFault>
    ghost service: { Service }
    requires serves { IfSome keeper.old (λ k. (K.told k).service ≡ service) }
    requires at { at < length events.now }
    requires few { length pending.old.items ≤ max_settled }
    requires going { IsSomeAnd keeper.old (λ k. (K.told k).has_failed ≡ false) }
    ensures moves { IfOk result (λ n. 0 < n) }
    ensures within { IfOk result (λ n. at + n ≤ length events.now) }
    ensures ok { IfOk result (λ n. Moved
        (stage (told_in (told_for service K.told) keeper.old) (ids_of pending.old.items) outcomes.old.items)
        (stage (told_in (told_for service K.told) keeper.new) (ids_of pending.new.items) outcomes.new.items)
        (take n (drop at events.now)) (drop (at + n) events.now)) }
    ensures opens { IfOk result (λ n. Opens (told_for service K.told) K.became keeper.old keeper.new
        (ids_of pending.old.items) (take n (drop at events.now))) }
    ensures few { OnOk result (length pending.new.items ≤ max_settled) }
    ensures going { OnOk result (IsSomeAnd keeper.new (λ k. (K.told k).has_failed ≡ false)) }
    ensures honest { (told_in (told_for service K.told) keeper.new).is_honest → (told_in (told_for service K.told) keeper.old).is_honest }
    ensures stays { IfSome keeper.new (λ k. (K.told k).service ≡ service) }
    ensures err { IfErr result (StopsAtEvent (seen_of (told_for service K.told) K.became K.performed K.refuses)
        keeper.old keeper.new events.now at) }
    ensures one { IfOk result (λ n. IsOneGroup service (take n (drop at events.now))) }
    ensures asked { IfOk result (λ n. AsksGroup service K.performed keeper.old keeper.new
        (ids_of pending.old.items) (take n (drop at events.now))) }
    ensures err_asked { IfErr result (StopsAsking (seen_of (told_for service K.told) K.became K.performed K.refuses)
        keeper.old keeper.new (ids_of pending.old.items) (drop at events.now)) }
{
    still_stands::<K>();
    let event = &events[at];
    test_event(event, at)?;
    if !is_before_commit(event.fate) {
        return run_group(alloc, keeper, events, at, pending, outcomes);
    }
    if make_room(outcomes, 1, pending, 0).is_err() {
        return Err(DriveFault::Memory { event: at });
    }
    end_group(keeper, true, at, pending)?;
    outcomes.push_reserved(None);
    Ok(1)
}

/// Runs events over a keeper, as `drive` says, where `service` is what the keeper gives.
pub(crate) fn run_all<K: Restart>(
    alloc: Global,
    keeper: &mut Option<K>,
    events: &[Event],
) -> Result<Vec<Option<Outcome>>, DriveFault>
    ghost service: { Service }
    requires serves { IfSome keeper.old (λ k. (K.told k).service ≡ service) }
    requires present { IsSomeAnd keeper.old (λ k. (K.told k).has_failed ≡ false) }
    ensures tree_stands { OnOk result (StandsAfter (told_for service K.told) keeper.old keeper.new events.now) }
    ensures outcomes { IfOk result (λ outcomes.
        AnswersAre (told_for service K.told) keeper.old keeper.new events.now outcomes.items) }
    ensures count { IfOk result (λ outcomes. length outcomes.items ≡ length events.now) }
    ensures outcomes_before { IfOk result (λ outcomes.
        FirstAnswersAre (told_for service K.told) keeper.old keeper.new events.now outcomes.items) }
    ensures stood_before { OnOk result
        (StoodBefore (told_for service K.told) K.became keeper.old keeper.new events.now) }
    ensures opened { OnOk result (Opened (told_for service K.told) K.became keeper.old keeper.new events.now) }
    ensures asked { OnOk result
        (performed_in K.performed keeper.old keeper.new (performances service events.now)) }
    ensures fault_causes { MatchResult result
        (λ _. All IsFit events.now) (λ fault. Names fault events.now) }
    ensures after_fault { IfErr result (λ fault.
        (start : K.model.State) (h : History) (settled : List ℕ)
        → StandsIn (told_for service K.told) keeper.old start h settled
        → NoneReused service settled (before fault events.now)
        → LeftBy (told_in (told_for service K.told) keeper.new) (is_store fault)
        (StandsIn (told_for service K.told) keeper.new start
        (committed service h (before fault events.now))
        (settled_by service settled (before fault events.now)))) }
    ensures records_at_fault { IfErr result (λ fault. LeftBy (told_in (told_for service K.told) keeper.new)
        (is_store fault) (DeletesHanded (told_for service K.told) keeper.old keeper.new
        (performances service (before fault events.now)) (before fault events.now))) }
    ensures opened_before { IfErr result (λ fault. ¬ (keeper.new ≡ None)
        → Opened (told_for service K.told) K.became keeper.old keeper.new (before fault events.now)) }
    ensures stood_at_fault { IfErr result (λ fault. ¬ (keeper.new ≡ None)
        → StoodBefore (told_for service K.told) K.became keeper.old keeper.new (before fault events.now)) }
    ensures asked_before { IfErr result (λ fault. ¬ (keeper.new ≡ None)
        → AskedSome K.performed keeper.old keeper.new
        (AsksUpTo service events.now fault)) }
    ensures store { IfErr result (λ fault. is_store fault ≡ true
        → (told_in (told_for service K.told) keeper.new).is_clean
        → (start : K.model.State) (h : History) (settled : List ℕ)
        → StandsIn (told_for service K.told) keeper.old start h settled
        → NoneReused service settled (before fault events.now)
        → AnsweredBy (told_for service K.told) K.became keeper.old keeper.new (before fault events.now) fault) }
    ensures emptied { IfErr result (λ fault. keeper.new ≡ None
        → OfRestart K.became (MayRefuse K.refuses) keeper.old
        (before fault events.now) events.now fault) }
    ensures going { OnOk result (IsSomeAnd keeper.new (λ k. (K.told k).has_failed ≡ false)) }
    ensures failed { IfErr result
        (λ fault. IfSome keeper.new (λ k. (K.told k).has_failed ≡ is_store fault)) }
    ensures stays { IfSome keeper.new (λ k. (K.told k).service ≡ service) }
    ensures honest { (told_in (told_for service K.told) keeper.new).is_honest → (told_in (told_for service K.told) keeper.old).is_honest }
    ensures medium { KeepsMedium (told_for service K.told) keeper.old keeper.new }
    ensures firm { MatchResult result (λ _. (told_in (told_for service K.told) keeper.new).is_honest
        → IsFirm (told_in (told_for service K.told) keeper.old) → IsFirm (told_in (told_for service K.told) keeper.new))
        (λ fault. is_store fault ≡ false → (told_in (told_for service K.told) keeper.new).is_honest
        → IsFirm (told_in (told_for service K.told) keeper.old) → IsFirm (told_in (told_for service K.told) keeper.new)) }
    ensures records { OnOk result (DeletesHanded (told_for service K.told) keeper.old keeper.new
        (performances service events.now) events.now) }
    ensures kept { OnOk result (KeepsUnhanded (told_for service K.told) keeper.old keeper.new
        (performances service events.now) events.now) }
{
    histories_grow::<K>();
    still_stands::<K>();
    let mut outcomes = Vec::new(alloc);
    let mut pending = Vec::new(alloc);
    let mut at = 0;
    while at < events.len() {
        at += run_next(alloc, keeper, events, at, &mut pending, &mut outcomes)?;
    }
    Ok(outcomes)
}
