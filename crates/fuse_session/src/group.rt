// One group: read off the messages, performed, and answered.
ghost use Rattle.std.specs.Prelude.{◌≡◌, ◌≤◌, ◌<◌, ◌&&◌, ◌==◌, [], true, false, length, take};
ghost use Rattle.std.specs.Prelude.{drop, ◌^◌, All, IfOk, IfErr, OnOk};
ghost use Rattle.fuse_request.specs.Stream.{IsMessage};
ghost use Rattle.fuse_request.specs.Opcodes.{Service};
ghost use Rattle.fuse_keeper.specs.KeeperState.{AnswersNoMore, of_service};
ghost use Rattle.fuse_keeper.specs.Group.{ids_of};
ghost use Rattle.fuse_keeper.specs.declared.keeper.TheConstants.{MAX_SETTLED as max_settled};
ghost use Rattle.fuse_session.specs.Port.{IsYoung, IsQuiet};
ghost use Rattle.fuse_session.specs.Processed.{StartsZero};
ghost use Rattle.fuse_session.specs.Deeds.{Did};
ghost use Rattle.fuse_session.specs.Passage.{passage_for};
ghost use Rattle.fuse_session.specs.Starts.{KeptRecords, HoldsUnder};
ghost use Rattle.fuse_session.specs.Ended.{ended_store, IsIntact};
ghost use Rattle.fuse_session.specs.Serving.{KeepsFirm, TookTurn, Broken, lasts, goes_on};
ghost use Rattle.fuse_session.specs.inner.Counting.{IsBelow};
ghost use Rattle.fuse_session.specs.inner.Finishing.{ended_at, ended_port};
ghost use Rattle.fuse_session.specs.inner.Group.{answers_in, last_zero, rest_by};
ghost use Rattle.fuse_session.specs.inner.Loans.{SameLoans};
ghost use Rattle.fuse_session.specs.inner.Moves.{FailedBy, HandsOn};
ghost use Rattle.fuse_session.specs.Grouping.{groups_of};
ghost use Rattle.fuse_session.specs.inner.Turn.{muted, Grouped, GroupedSome};

use crate::answers::send_answers;
use crate::clock::Clock;
use crate::counts::{SessionCounts, count_all};
use crate::fault::Fault;
use crate::gather::gather;
use crate::port::Port;
use crate::session::Session;
use bytes::Bytes;
use fuse_answer::Answer;
use fuse_keeper::{Done, Keeper, histories_grow, kept_groups_grow, perform_group, still_stands};
use fuse_request::seen_by_class;

/// What comes next, once all answers so far are sent: more messages, or why there are none.
#[derive(Clone, Copy, Debug, PartialEq, Eq)]
pub(crate) enum Next {
    GoesOn,
    Destroyed,
    ZeroUnique,
}

/// How it goes on after the first messages, which are processed and answered.
#[derive(Clone, Copy, Debug, PartialEq, Eq)]
pub(crate) struct Progress {
    pub(crate) count: usize,
    pub(crate) next: Next,
    pub(crate) counts: SessionCounts,
}

// Whether an answer has errno 0.
fn has_no_error(answer: &Answer) -> bool
    ensures { result ≡ (answer.now.errno == 0) }
{
    answer.errno.0 == 0
}

// Whether the last answer has errno 0.
fn ends_well(dones: &[Done]) -> bool
    ensures { result ≡ last_zero (answers_in dones.now) }
{
    match dones.last() {
        Some(done) => has_no_error(&done.answer),
        None => false,
    }
}

// What comes after a group, which may end with a DESTROY or be stuck at its begin.
fn next_of(ends: bool, dones: &[Done], stuck: bool) -> Next
    ensures { result ≡ rest_by (ends && last_zero (answers_in dones.now)) stuck }
{
    if ends && ends_well(dones) {
        Next::Destroyed
    } else if stuck {
        Next::ZeroUnique
    } else {
        Next::GoesOn
    }
}

// Whether nothing was taken, though something is there.
fn is_stuck(count: usize, messages: &[Bytes]) -> bool
    ensures stuck { result ≡ true → (count ≡ 0) × (messages.now ≡ [] → ⊥) }
    ensures moves { result ≡ false → count ≡ 0 → messages.now ≡ [] }
{
    count == 0 && !messages.is_empty()
}

impl<K: Keeper, P: Port, C: Clock> Session<'_, '_, '_, '_, K, P, C> {
    /// Serves one group: reads it off the first messages, performs it, and sends its answers once
    /// it is committed.
    pub(crate) fn serve_group(&mut self, messages: &[Bytes]) -> Result<Progress, Fault>
        ghost service: { Service }
        requires serves { (K.told self.old.keeper.now).service ≡ service }
        requires messages { All IsMessage messages.now }
        requires going { (K.told self.old.keeper.now).has_failed ≡ false }
        requires young { IsYoung (P.told self.old.port.now) }
        requires few { length self.old.pending.now.items ≤ max_settled }
        requires short { length messages.now < 2 ^ 60 }
        ensures within { IfOk result (λ progress. progress.count ≤ length messages.now) }
        ensures moves { IfOk result (λ progress. goes_on progress.next ≡ true
            → progress.count ≡ 0 → messages.now ≡ []) }
        ensures zero { IfOk result (λ progress. progress.next ≡ Next.ZeroUnique
            → StartsZero (drop progress.count messages.now)) }
        ensures ok { IfOk result (λ progress. TookTurn (muted (passage_for service (K.told self.old.keeper.now)
            (K.told self.new.keeper.now) (P.told self.old.port.now) (P.told self.new.port.now)
            (Did (C.gave self.old.clock.now self.new.clock.now)
            (Grouped service messages.now
            (groups_of service (drop progress.count messages.now))
            (K.performed self.old.keeper.now self.new.keeper.now))
            (P.became self.old.port.now self.new.port.now))))
            (ids_of self.old.pending.now.items) (ids_of self.new.pending.now.items)
            (take progress.count messages.now) (lasts progress.next) progress.counts) }
        ensures below { IfOk result (λ progress. IsBelow progress.counts progress.count) }
        ensures few { OnOk result (length self.new.pending.now.items ≤ max_settled) }
        ensures going { OnOk result ((K.told self.new.keeper.now).has_failed ≡ false) }
        ensures firm { OnOk result
            (KeepsFirm (K.told self.old.keeper.now) (K.told self.new.keeper.now)) }
        ensures firm_still { IfErr result (λ fault. ended_store (ended_at fault) ≡ false
            → KeepsFirm (K.told self.old.keeper.now) (K.told self.new.keeper.now)) }
        ensures more { OnOk result ((P.told self.old.port.now).confirms ≡ true
            → (K.told self.new.keeper.now).is_honest → (before : KeptRecords)
            → HandsOn before (of_service service (K.told self.old.keeper.now)) (ids_of self.old.pending.now.items)
            → HandsOn before (of_service service (K.told self.new.keeper.now)) (ids_of self.new.pending.now.items)) }
        ensures failures { OnOk result
            ((P.told self.new.port.now).failures ≡ (P.told self.old.port.now).failures) }
        ensures err { IfErr result (λ fault. Broken (muted (passage_for service (K.told self.old.keeper.now)
            (K.told self.new.keeper.now) (P.told self.old.port.now) (P.told self.new.port.now)
            (Did (C.gave self.old.clock.now self.new.clock.now)
            (GroupedSome service messages.now
            (K.performed self.old.keeper.now self.new.keeper.now))
            (P.became self.old.port.now self.new.port.now))))
            (ids_of self.old.pending.now.items) messages.now (ended_at fault)) }
        ensures may { AnswersNoMore (K.told self.old.keeper.now) (K.told self.new.keeper.now) }
        ensures medium { (K.told self.old.keeper.now).in_memory
            → (K.told self.new.keeper.now).in_memory }
        ensures at_most { IfErr result (λ fault. IsIntact (of_service service (K.told self.new.keeper.now)) (ended_at fault)
            → (before : KeptRecords)
            → HandsOn before (of_service service (K.told self.old.keeper.now)) (ids_of self.old.pending.now.items)
            → HoldsUnder before (of_service service (K.told self.new.keeper.now))) }
        ensures failed { IfErr result (λ fault. FailedBy (ended_port (ended_at fault))
            (P.told self.old.port.now).failures (P.told self.new.port.now).failures) }
        ensures store { IfErr result (λ fault. (K.told self.new.keeper.now).has_failed
            ≡ ended_store (ended_at fault)) }
        ensures honest { (K.told self.new.keeper.now).is_honest
            → (K.told self.old.keeper.now).is_honest }
        ensures stays { (K.told self.new.keeper.now).service ≡ service }
        ensures quiet { IsQuiet (P.told self.old.port.now) (P.told self.new.port.now) }
        ensures unopened { K.became self.old.keeper.now self.new.keeper.now 0 }
        ensures loans { SameLoans self.old self.new }
    {
        histories_grow::<K>();
        kept_groups_grow::<K>();
        still_stands::<K>();
        seen_by_class();
        let Ok(gathered) = gather(self.alloc, self.keeper, self.clock, messages) else {
            return Err(Fault::Memory);
        };
        let count = gathered.classes.len();
        let first = &messages[..count];
        let classes = gathered.classes.as_slice();
        let group = gathered.taken.as_slice();
        let dones = match perform_group(self.alloc, self.keeper, group, self.pending) {
            Ok(dones) => dones,
            Err(fault) => return Err(Fault::Store(fault)),
        };
        let answered = dones.as_slice();
        match send_answers(
            self.alloc,
            self.port,
            first,
            classes,
            answered,
            self.pending,
        ) {
            Ok(()) => Ok(Progress {
                count,
                next: next_of(gathered.ends, answered, is_stuck(count, messages)),
                counts: count_all(first, classes, answered),
            }),
            Err(fault) => Err(fault),
        }
    }
}
