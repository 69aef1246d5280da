// Events, run to their end.
ghost use Rattle.std.specs.Prelude.{◌≡◌, ◌++◌, List, ℕ, false, true, length, All, None};
ghost use Rattle.std.specs.Prelude.{IsSomeAnd, IfSome, IfOk, IfErr, OnOk, MatchResult};
ghost use Rattle.fuse_keeper.specs.History.{History};
ghost use Rattle.fuse_keeper.specs.KeeperState.{IsFirm};
ghost use Rattle.fuse_sim.specs.Driving.{told_in, StandsIn, committed};
ghost use Rattle.fuse_sim.specs.Driving.{settled_by, NoneReused, IsFit, Names, before};
ghost use Rattle.fuse_sim.specs.Driving.{is_store, LeftBy, OfRestart};
ghost use Rattle.fuse_sim.specs.Driving.{performed_in, Opened, AnsweredBy, StoodBefore};
ghost use Rattle.fuse_sim.specs.Driving.{MayRefuse, KeepsMedium};
ghost use Rattle.fuse_sim.specs.AfterEvents.{StandsAfter, AnswersAre, FirstAnswersAre};
ghost use Rattle.fuse_sim.specs.AfterEvents.{DeletesHanded, KeepsUnhanded};
ghost use Rattle.fuse_sim.specs.HandedOn.{performances, AsksUpTo, AskedSome};
ghost use Rattle.fuse_sim.specs.Twice.{seen_of, StoppedAt};

use crate::event::{DriveFault, Event, Outcome};
use crate::running::run_all;
use fuse_keeper::{Restart, histories_grow};
use std::alloc::Global;

/// Runs events over a keeper, in groups, and returns the answer that the kernel takes for each.
///
/// A group is a run of events with up to 16 kept and seen messages, of which the last may be one
/// after which the server dies. Room for its outcomes is made before it is performed. The keeper is
/// opened again wherever the server dies. A fault leaves the keeper as the events before the one
/// that it names left it; the fault of an opening leaves none.
pub fn drive<K: Restart>(
    alloc: Global,
    keeper: &mut Option<K>,
    events: &[Event],
) -> Result<Vec<Option<Outcome>>, DriveFault>
    requires present { IsSomeAnd keeper.old (λ k. (K.told k).has_failed ≡ false) }

    // The history that the keeper stood for has the requests that were committed added, each once,
    // in the order of their first commit.
    ensures tree_stands { OnOk result (StandsAfter K.told keeper.old keeper.new events.now) }

    // Each answer to a kept message, a resend too, is the one that this history says of its id. That
    // to a seen one is the answer of the state after the kept ones before it.
    ensures outcomes { IfOk result (λ outcomes.
        AnswersAre K.told keeper.old keeper.new events.now outcomes.items) }
    ensures count { IfOk result (λ outcomes. length outcomes.items ≡ length events.now) }

    // Where a message comes again whose answer was taken, all this is so up to that message: the
    // answers to the events before it are those that these say,
    ensures outcomes_before { IfOk result (λ outcomes.
        FirstAnswersAre K.told keeper.old keeper.new events.now outcomes.items) }
    // and a keeper stood for them.
    ensures stood_before { OnOk result
        (StoodBefore K.told K.became keeper.old keeper.new events.now) }

    // The keeper is opened again once for each event at which the server dies, after its commit.
    ensures opened { OnOk result (Opened K.told K.became keeper.old keeper.new events.now) }

    // It is asked to perform just what the ledger of the events says, by the service that it gives:
    // the groups, and with each that has a kept message the ids whose answers were taken before it.
    ensures asked { OnOk result
        (performed_in K.performed keeper.old keeper.new
        (performances (told_in K.told keeper.old).service events.now)) }

    // Why it faults; and where it does not, each event can be run.
    ensures fault_causes { MatchResult result
        (λ _. All IsFit events.now) (λ fault. Names fault events.now) }

    // The keeper that a fault leaves stands for the events before the one that is named,
    ensures after_fault { IfErr result (λ fault.
        (start : K.model.State) (h : History) (settled : List ℕ)
        → StandsIn K.told keeper.old start h settled
        → NoneReused K.model.service settled (before fault events.now)
        → LeftBy (told_in K.told keeper.new) (is_store fault)
        (StandsIn K.told keeper.new start
        (committed K.model.service h (before fault events.now))
        (settled_by K.model.service settled (before fault events.now)))) }
    // has the records that these leave,
    ensures records_at_fault { IfErr result (λ fault. LeftBy (told_in K.told keeper.new)
        (is_store fault) (DeletesHanded K.told keeper.old keeper.new
        (performances K.model.service (before fault events.now)) (before fault events.now))) }
    // was opened again once for each of these at which the server died,
    ensures opened_before { IfErr result (λ fault. ¬ (keeper.new ≡ None)
        → Opened K.told K.became keeper.old keeper.new (before fault events.now)) }
    // stood for each first part of them on the way,
    ensures stood_at_fault { IfErr result (λ fault. ¬ (keeper.new ≡ None)
        → StoodBefore K.told K.became keeper.old keeper.new (before fault events.now)) }
    // was asked for what these ask for and, where the store answered the fault, for one group more,
    ensures asked_before { IfErr result (λ fault. ¬ (keeper.new ≡ None)
        → AskedSome K.performed keeper.old keeper.new
        (AsksUpTo (told_in K.told keeper.old).service events.now fault)) }
    // and a fault of the store is one that the keeper may answer which was in place.
    ensures store { IfErr result (λ fault. is_store fault ≡ true
        → (told_in K.told keeper.new).is_clean
        → (start : K.model.State) (h : History) (settled : List ℕ)
        → StandsIn K.told keeper.old start h settled
        → NoneReused K.model.service settled (before fault events.now)
        → AnsweredBy K.told K.became keeper.old keeper.new (before fault events.now) fault) }
    // No keeper is left only where the one in place refused with this fault to be opened again.
    ensures emptied { IfErr result (λ fault. keeper.new ≡ None
        → OfRestart K.became (MayRefuse K.refuses) keeper.old
        (before fault events.now) events.now fault) }

    // A keeper that is left has failed exactly where the store answered the fault.
    ensures going { OnOk result (IsSomeAnd keeper.new (λ k. (K.told k).has_failed ≡ false)) }
    ensures failed { IfErr result
        (λ fault. IfSome keeper.new (λ k. (K.told k).has_failed ≡ is_store fault)) }

    // A store that gave back the bytes that were written did so before, and a keeper that lay in
    // memory alone does so. Its service stays.
    ensures honest { (told_in K.told keeper.new).is_honest → (told_in K.told keeper.old).is_honest }
    ensures medium { KeepsMedium K.told keeper.old keeper.new }
    ensures stays { IfSome keeper.new
        (λ k. (K.told k).service ≡ (told_in K.told keeper.old).service) }

    // A keeper of which a crash could leave nothing but what it holds is such a one still, unless its
    // store answered a fault.
    ensures firm { MatchResult result (λ _. (told_in K.told keeper.new).is_honest
        → IsFirm (told_in K.told keeper.old) → IsFirm (told_in K.told keeper.new))
        (λ fault. is_store fault ≡ false → (told_in K.told keeper.new).is_honest
        → IsFirm (told_in K.told keeper.old) → IsFirm (told_in K.told keeper.new)) }

    // The records that are left: those of ids that don't come stay. Where no message comes again
    // whose answer was taken, those of the ids that the ledger hands on are deleted, and all others
    // stay.
    ensures records { OnOk result (DeletesHanded K.told keeper.old keeper.new
        (performances K.model.service events.now) events.now) }
    ensures kept { OnOk result (KeepsUnhanded K.told keeper.old keeper.new
        (performances K.model.service events.now) events.now) }
{
    match run_all(alloc, keeper, events) {
        Ok(outcomes) => Ok(outcomes),
        Err(fault) => Err(fault),
    }
}

/// Runs events, and then more of them. Where it goes to the end, the clauses of `drive` for one list
/// hold of both in a row; but the second begins a ledger of its own: the ids that the first left
/// pending are not handed on. A fault names an event of the list that it came at.
pub fn drive_twice<K: Restart>(
    alloc: Global,
    keeper: &mut Option<K>,
    events: &[Event],
    more: &[Event],
) -> Result<(Vec<Option<Outcome>>, Vec<Option<Outcome>>), DriveFault>
    requires present { IsSomeAnd keeper.old (λ k. (K.told k).has_failed ≡ false) }
    ensures tree_stands { OnOk result
        (StandsAfter K.told keeper.old keeper.new (events.now ++ more.now)) }
    ensures outcomes { IfOk result (λ both. AnswersAre K.told keeper.old keeper.new
        (events.now ++ more.now) (both.0.items ++ both.1.items)) }
    ensures first { IfOk result (λ both. length both.0.items ≡ length events.now) }
    ensures second { IfOk result (λ both. length both.1.items ≡ length more.now) }
    ensures outcomes_before { IfOk result (λ both. FirstAnswersAre K.told keeper.old keeper.new
        (events.now ++ more.now) (both.0.items ++ both.1.items)) }
    ensures stood_before { OnOk result
        (StoodBefore K.told K.became keeper.old keeper.new (events.now ++ more.now)) }
    ensures opened { OnOk result
        (Opened K.told K.became keeper.old keeper.new (events.now ++ more.now)) }
    ensures asked { OnOk result (performed_in K.performed keeper.old keeper.new
        (performances (told_in K.told keeper.old).service events.now
        ++ performances (told_in K.told keeper.old).service more.now)) }
    ensures fit { OnOk result (All IsFit (events.now ++ more.now)) }

    // The fault came at the first list, or at the second one after all of the first.
    ensures stopped { IfErr result (StoppedAt (seen_of K.told K.became K.performed K.refuses)
        keeper.old keeper.new events.now more.now) }
    ensures going { OnOk result (IsSomeAnd keeper.new (λ k. (K.told k).has_failed ≡ false)) }
    ensures failed { IfErr result
        (λ fault. IfSome keeper.new (λ k. (K.told k).has_failed ≡ is_store fault)) }
    ensures honest { (told_in K.told keeper.new).is_honest → (told_in K.told keeper.old).is_honest }
    ensures medium { KeepsMedium K.told keeper.old keeper.new }
    ensures firm { OnOk result ((told_in K.told keeper.new).is_honest
        → IsFirm (told_in K.told keeper.old) → IsFirm (told_in K.told keeper.new)) }
    ensures records { OnOk result (DeletesHanded K.told keeper.old keeper.new
        (performances K.model.service events.now ++ performances K.model.service more.now)
        (events.now ++ more.now)) }
    ensures kept { OnOk result (KeepsUnhanded K.told keeper.old keeper.new
        (performances K.model.service events.now ++ performances K.model.service more.now)
        (events.now ++ more.now)) }
{
    histories_grow::<K>();
    let first = drive(alloc, keeper, events)?;
    let second = drive(alloc, keeper, more)?;
    Ok((first, second))
}
