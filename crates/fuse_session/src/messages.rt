// The messages that wait, group by group.
ghost use Rattle.std.specs.Prelude.{◌≡◌, ◌≤◌, ◌<◌, ◌^◌, true, false, not, length, drop};
ghost use Rattle.std.specs.Prelude.{All, IfOk, IfErr, OnOk};
ghost use Rattle.fuse_request.specs.Stream.{IsMessage, joined};
ghost use Rattle.fuse_request.specs.Opcodes.{Service};
ghost use Rattle.fuse_keeper.specs.KeeperState.{AnswersNoMore, of_service};
ghost use Rattle.fuse_keeper.specs.Group.{ids_of};
ghost use Rattle.fuse_keeper.specs.declared.keeper.TheConstants.{MAX_SETTLED as max_settled};
ghost use Rattle.fuse_session.specs.Port.{IsYoung, IsQuiet};
ghost use Rattle.fuse_session.specs.Deeds.{Did};
ghost use Rattle.fuse_session.specs.Passage.{passage_for};
ghost use Rattle.fuse_session.specs.Starts.{KeptRecords, HoldsUnder};
ghost use Rattle.fuse_session.specs.Ended.{ended_store, IsIntact};
ghost use Rattle.fuse_session.specs.Serving.{KeepsFirm, ProcessedAll, Broken, goes_on};
ghost use Rattle.fuse_session.specs.inner.Counting.{IsBelow};
ghost use Rattle.fuse_session.specs.inner.Finishing.{ended_at, ended_port};
ghost use Rattle.fuse_session.specs.inner.Loans.{SameLoans};
ghost use Rattle.fuse_session.specs.inner.Moves.{FailedBy, HandsOn};
ghost use Rattle.fuse_session.specs.Grouping.{groups_of};
ghost use Rattle.fuse_session.specs.inner.Turn.{muted, Grouped, GroupedSome};

use crate::clock::Clock;
use crate::counts::{SessionCounts, sum_of};
use crate::fault::Fault;
use crate::group::{Next, Progress};
use crate::port::Port;
use crate::session::Session;
use bytes::Bytes;
use fuse_keeper::{Keeper, histories_grow};

/// How many bytes messages have.
pub(crate) fn length_of(messages: &[Bytes]) -> u64
    requires { length (joined messages.now) < 2 ^ 62 }
    ensures { result ≡ length (joined messages.now) }
{
    let mut sum = 0;
    for message in messages {
        sum += message.as_slice().len() as u64;
    }
    sum
}

// Whether no more messages are processed.
fn is_over(next: Next) -> bool
    ensures { result ≡ not (goes_on next) }
{
    match next {
        Next::GoesOn => false,
        Next::Destroyed => true,
        Next::ZeroUnique => true,
    }
}

impl<K: Keeper, P: Port, C: Clock> Session<'_, '_, '_, '_, K, P, C> {
    /// Serves messages in groups.
    pub(crate) fn serve_messages(&mut self, messages: &[Bytes]) -> Result<Progress, Fault>
        ghost service: { Service }
        requires serves { (K.told self.old.keeper.now).service ≡ service }
        requires messages { All IsMessage messages.now }
        requires going { (K.told self.old.keeper.now).has_failed ≡ false }
        requires young { IsYoung (P.told self.old.port.now) }
        requires few { length self.old.pending.now.items ≤ max_settled }
        requires short { length messages.now < 2 ^ 60 }
        ensures within { IfOk result (λ progress. progress.count ≤ length messages.now) }
        ensures ok { IfOk result (λ progress. ProcessedAll (muted (passage_for service (K.told self.old.keeper.now)
            (K.told self.new.keeper.now) (P.told self.old.port.now) (P.told self.new.port.now)
            (Did (C.gave self.old.clock.now self.new.clock.now)
            (Grouped service messages.now
            (groups_of service (drop progress.count messages.now))
            (K.performed self.old.keeper.now self.new.keeper.now))
            (P.became self.old.port.now self.new.port.now))))
            (ids_of self.old.pending.now.items) (ids_of self.new.pending.now.items) messages.now
            progress) }
        ensures below { IfOk result (λ progress. IsBelow progress.counts (length messages.now)) }
        ensures few { OnOk result (length self.new.pending.now.items ≤ max_settled) }
        ensures going { OnOk result ((K.told self.new.keeper.now).has_failed ≡ false) }
        ensures firm { OnOk result
            (KeepsFirm (K.told self.old.keeper.now) (K.told self.new.keeper.now)) }
        ensures firm_still { IfErr result (λ fault. ended_store (ended_at fault) ≡ false
            → KeepsFirm (K.told self.old.keeper.now) (K.told self.new.keeper.now)) }
        ensures more { OnOk result ((P.told self.old.port.now).confirms ≡ true
            → (K.told self.new.keeper.now).is_honest → (before : KeptRecords)
            → HandsOn before (of_service service (K.told self.old.keeper.now)) (ids_of self.old.pending.now.items)
            → HandsOn before (of_service service (K.told self.new.keeper.now)) (ids_of self.new.pending.now.items)) }
        ensures failures { OnOk result
            ((P.told self.new.port.now).failures ≡ (P.told self.old.port.now).failures) }
        ensures err { IfErr result (λ fault. Broken (muted (passage_for service (K.told self.old.keeper.now)
            (K.told self.new.keeper.now) (P.told self.old.port.now) (P.told self.new.port.now)
            (Did (C.gave self.old.clock.now self.new.clock.now)
            (GroupedSome service messages.now
            (K.performed self.old.keeper.now self.new.keeper.now))
            (P.became self.old.port.now self.new.port.now))))
            (ids_of self.old.pending.now.items) messages.now (ended_at fault)) }
        ensures may { AnswersNoMore (K.told self.old.keeper.now) (K.told self.new.keeper.now) }
        ensures medium { (K.told self.old.keeper.now).in_memory
            → (K.told self.new.keeper.now).in_memory }
        ensures at_most { IfErr result (λ fault. (P.told self.old.port.now).confirms ≡ true
            → IsIntact (of_service service (K.told self.new.keeper.now)) (ended_at fault) → (before : KeptRecords)
            → HandsOn before (of_service service (K.told self.old.keeper.now)) (ids_of self.old.pending.now.items)
            → HoldsUnder before (of_service service (K.told self.new.keeper.now))) }
        ensures failed { IfErr result (λ fault. FailedBy (ended_port (ended_at fault))
            (P.told self.old.port.now).failures (P.told self.new.port.now).failures) }
        ensures store { IfErr result (λ fault. (K.told self.new.keeper.now).has_failed
            ≡ ended_store (ended_at fault)) }
        ensures honest { (K.told self.new.keeper.now).is_honest
            → (K.told self.old.keeper.now).is_honest }
        ensures stays { (K.told self.new.keeper.now).service ≡ service }
        ensures quiet { IsQuiet (P.told self.old.port.now) (P.told self.new.port.now) }
        ensures unopened { K.became self.old.keeper.now self.new.keeper.now 0 }
        ensures loans { SameLoans self.old self.new }
    {
        histories_grow::<K>();
        let mut at = 0;
        let mut counts = SessionCounts::NONE;
        while at < messages.len() {
            let waiting = &messages[at..];
            let progress = match self.serve_group(waiting) {
                Ok(progress) => progress,
                Err(fault) => return Err(fault),
            };
            let sum = sum_of(counts, progress.counts);
            let over = is_over(progress.next);
            counts = sum;
            at += progress.count;
            if over {
                return Ok(Progress {
                    count: at,
                    next: progress.next,
                    counts,
                });
            }
        }
        Ok(Progress {
            count: at,
            next: Next::GoesOn,
            counts,
        })
    }
}
