// A session: the messages of a port are served from a keeper.
ghost use Rattle.std.specs.Prelude.{◌≡◌, ◌≤◌, ◌<◌, ◌+◌, ◌-◌, ◌^◌, true, false, None, Some};
ghost use Rattle.std.specs.Prelude.{length, take, IfOk, IfErr, OnOk, IfSome};
ghost use Rattle.fuse_request.specs.Framing.{fed_of};
ghost use Rattle.fuse_request.specs.Stream.{joined};
ghost use Rattle.fuse_request.specs.declared.header.TheConstants.{MAX_MESSAGE as max_message};
ghost use Rattle.fuse_request.specs.Opcodes.{Service};
ghost use Rattle.fuse_keeper.specs.KeeperState.{AnswersNoMore};
ghost use Rattle.fuse_keeper.specs.Group.{ids_of};
ghost use Rattle.fuse_keeper.specs.declared.keeper.TheConstants.{MAX_SETTLED as max_settled};
ghost use Rattle.fuse_session.specs.Port.{IsYoung};
ghost use Rattle.fuse_session.specs.Deeds.{Did};
ghost use Rattle.fuse_session.specs.Passage.{passage, passage_for};
ghost use Rattle.fuse_session.specs.Ends.{counts_at};
ghost use Rattle.fuse_session.specs.Session.{Session as SessionServed};
ghost use Rattle.fuse_session.specs.inner.Counting.{IsBelow, plus_if};
ghost use Rattle.fuse_session.specs.inner.Finishing.{FinishedBy, IsFault, ended_at};
ghost use Rattle.fuse_session.specs.inner.Loans.{SameLoans};
ghost use Rattle.fuse_session.specs.inner.Receiving.{IsOpen};
ghost use Rattle.fuse_session.specs.inner.Turn.{TurnPassed, TurnEnded, waits};

use crate::clock::Clock;
use crate::counts::{SessionCounts, sum_of};
use crate::ended::{Ended, Served};
use crate::fault::Fault;
use crate::group::{Next, Progress};
use crate::input::receive_messages;
use crate::messages::length_of;
use crate::port::Port;
use bytes::Bytes;
use fuse_keeper::{Keeper, histories_grow, still_stands};
use fuse_request::{FrameFault, Framer, MAX_MESSAGE, cut_joins};
use fuse_wire::Id;
use std::alloc::Global;

/// A session works on a keeper, a port and a clock. `pending` has the ids that its answers settled
/// and that the keeper gets with the next group.
#[derive(Drop)]
pub(crate) struct Session<'k, 'p, 'c, 'i, K: Keeper, P: Port, C: Clock> {
    pub(crate) alloc: Global,
    pub(crate) keeper: &'k mut K,
    pub(crate) port: &'p mut P,
    pub(crate) clock: &'c mut C,
    pub(crate) pending: &'i mut Vec<Id>,
}

fn ended_of(fault: Fault) -> Ended
    ensures is { result ≡ ended_at fault }
    ensures fault { IsFault result }
{
    match fault {
        Fault::PortFailed => Ended::PortFailed,
        Fault::Store(fault) => Ended::Store(fault),
        Fault::Memory => Ended::Memory,
    }
}

// The counts that are returned at an end before a message was processed.
fn counts_of(ended: &Ended, counts: SessionCounts) -> Option<SessionCounts>
    ensures { result ≡ counts_at true ended.now counts }
{
    match ended {
        Ended::End => Some(counts),
        Ended::Destroyed => Some(counts),
        Ended::Turns => Some(counts),
        Ended::Frame(_) => Some(counts),
        Ended::ZeroUnique { .. } => Some(counts),
        Ended::PortFailed => Some(counts),
        Ended::Store(_) => None,
        Ended::Memory => None,
    }
}

// These counts and the last turn's, if that has some.
fn sum_with(counts: SessionCounts, more: Option<SessionCounts>) -> Option<SessionCounts>
    requires counts { IsBelow counts (2 ^ 63 - 1) }
    requires more { IfSome more (λ last. IsBelow last (2 ^ 63 - 1)) }
    ensures { result ≡ plus_if counts more }
{
    match more {
        Some(last) => Some(sum_of(counts, last)),
        None => None,
    }
}

// The offset after the first messages, which begin at this offset.
fn place_after(begin: u64, messages: &[Bytes], count: usize) -> u64
    requires within { count ≤ length messages.now }
    requires place { begin + length (joined messages.now) < 2 ^ 62 }
    ensures { result ≡ begin + length (joined (take count messages.now)) }
{
    begin + length_of(&messages[..count])
}

// What follows the messages that waited, which began at this offset, and the bad length after
// them, if there is one.
fn finish(
    begin: u64,
    messages: &[Bytes],
    progress: Progress,
    fault: Option<FrameFault>,
) -> Result<SessionCounts, Served>
    requires within { progress.count ≤ length messages.now }
    requires place { begin + length (joined messages.now) < 2 ^ 62 }
    ensures ok { IfOk result (λ counts. (counts ≡ progress.counts)
        × (progress.next ≡ Next.GoesOn) × (fault ≡ None)) }
    ensures err { IfErr result (λ served. (served.counts ≡ Some progress.counts)
        × FinishedBy served.ended progress.next
        (begin + length (joined (take progress.count messages.now))) fault) }
{
    let counts = progress.counts;
    match progress.next {
        Next::Destroyed => Err(Served {
            ended: Ended::Destroyed,
            counts: Some(counts),
        }),
        Next::ZeroUnique => {
            let at = place_after(begin, messages, progress.count);
            Err(Served {
                ended: Ended::ZeroUnique { at },
                counts: Some(counts),
            })
        }
        Next::GoesOn => match fault {
            Some(fault) => Err(Served {
                ended: Ended::Frame(fault),
                counts: Some(counts),
            }),
            None => Ok(counts),
        },
    }
}

impl<K: Keeper, P: Port, C: Clock> Session<'_, '_, '_, '_, K, P, C> {
    // One turn: receives once, and serves all messages that wait then.
    fn serve_turn(
        &mut self,
        framer: &mut Framer,
        buffer: &mut [u8],
    ) -> Result<SessionCounts, Served>
        ghost service: { Service }
        requires serves { (K.told self.old.keeper.now).service ≡ service }
        requires going { (K.told self.old.keeper.now).has_failed ≡ false }
        requires young { IsYoung (P.told self.old.port.now) }
        requires spare { (P.told self.old.port.now).receives + 1 < 2 ^ 63 }
        requires few { length self.old.pending.now.items ≤ max_settled }
        requires opened { IsOpen framer.old }
        requires room { length buffer.old ≡ max_message }
        requires fed { fed_of framer.old + length buffer.old ≤ 2 ^ 59 }
        ensures ok { IfOk result (λ counts. TurnPassed (passage_for service (K.told self.old.keeper.now)
            (K.told self.new.keeper.now) (P.told self.old.port.now) (P.told self.new.port.now)
            (Did (C.gave self.old.clock.now self.new.clock.now)
            (K.performed self.old.keeper.now self.new.keeper.now)
            (P.became self.old.port.now self.new.port.now)))
            (waits (ids_of self.old.pending.now.items) framer.old)
            (waits (ids_of self.new.pending.now.items) framer.new) counts) }
        ensures err { IfErr result (λ served. TurnEnded (passage_for service (K.told self.old.keeper.now)
            (K.told self.new.keeper.now) (P.told self.old.port.now) (P.told self.new.port.now)
            (Did (C.gave self.old.clock.now self.new.clock.now)
            (K.performed self.old.keeper.now self.new.keeper.now)
            (P.became self.old.port.now self.new.port.now)))
            (waits (ids_of self.old.pending.now.items) framer.old) served) }
        ensures opened { OnOk result (IsOpen framer.new) }
        ensures few { OnOk result (length self.new.pending.now.items ≤ max_settled) }
        ensures receives { (P.told self.new.port.now).receives
            ≡ (P.told self.old.port.now).receives + 1 }
        ensures confirms { (P.told self.new.port.now).confirms
            ≡ (P.told self.old.port.now).confirms }
        ensures fed { fed_of framer.new ≤ fed_of framer.old + length buffer.old }
        ensures buffer { length buffer.new ≡ length buffer.old }
        ensures may { AnswersNoMore (K.told self.old.keeper.now) (K.told self.new.keeper.now) }
        ensures medium { (K.told self.old.keeper.now).in_memory
            → (K.told self.new.keeper.now).in_memory }
        ensures honest { (K.told self.new.keeper.now).is_honest
            → (K.told self.old.keeper.now).is_honest }
        ensures stays { (K.told self.new.keeper.now).service ≡ service }
        ensures unopened { K.became self.old.keeper.now self.new.keeper.now 0 }
        ensures loans { SameLoans self.old self.new }
    {
        histories_grow::<K>();
        still_stands::<K>();
        let begin = framer.fed() - framer.held();
        let waiting = match receive_messages(self.alloc, self.port, framer, buffer) {
            Ok(waiting) => waiting,
            Err(ended) => {
                let counts = counts_of(&ended, SessionCounts::NONE);
                return Err(Served { ended, counts });
            }
        };
        let slice = waiting.messages.as_slice();
        let progress = match self.serve_messages(slice) {
            Ok(progress) => progress,
            Err(fault) => {
                return Err(Served {
                    ended: ended_of(fault),
                    counts: None,
                });
            }
        };
        match finish(begin, slice, progress, waiting.fault) {
            Ok(counts) => Ok(counts),
            Err(served) => Err(served),
        }
    }
}

// One turn of a session.
fn one_turn<K: Keeper, P: Port, C: Clock>(
    alloc: Global,
    keeper: &mut K,
    port: &mut P,
    clock: &mut C,
    framer: &mut Framer,
    buffer: &mut [u8],
    pending: &mut Vec<Id>,
) -> Result<SessionCounts, Served>
    ghost service: { Service }
    requires serves { (K.told keeper.old).service ≡ service }
    requires going { (K.told keeper.old).has_failed ≡ false }
    requires young { IsYoung (P.told port.old) }
    requires spare { (P.told port.old).receives + 1 < 2 ^ 63 }
    requires few { length pending.old.items ≤ max_settled }
    requires opened { IsOpen framer.old }
    requires room { length buffer.old ≡ max_message }
    requires fed { fed_of framer.old + length buffer.old ≤ 2 ^ 59 }
    ensures ok { IfOk result (λ counts. TurnPassed (passage_for service (K.told keeper.old)
        (K.told keeper.new)
        (P.told port.old) (P.told port.new) (Did (C.gave clock.old clock.new)
        (K.performed keeper.old keeper.new) (P.became port.old port.new)))
        (waits (ids_of pending.old.items) framer.old) (waits (ids_of pending.new.items) framer.new)
        counts) }
    ensures err { IfErr result (λ served. TurnEnded (passage_for service (K.told keeper.old)
        (K.told keeper.new)
        (P.told port.old) (P.told port.new) (Did (C.gave clock.old clock.new)
        (K.performed keeper.old keeper.new) (P.became port.old port.new)))
        (waits (ids_of pending.old.items) framer.old) served) }
    ensures opened { OnOk result (IsOpen framer.new) }
    ensures few { OnOk result (length pending.new.items ≤ max_settled) }
    ensures receives { (P.told port.new).receives ≡ (P.told port.old).receives + 1 }
    ensures confirms { (P.told port.new).confirms ≡ (P.told port.old).confirms }
    ensures fed { fed_of framer.new ≤ fed_of framer.old + length buffer.old }
    ensures buffer { length buffer.new ≡ length buffer.old }
    ensures may { AnswersNoMore (K.told keeper.old) (K.told keeper.new) }
    ensures medium { (K.told keeper.old).in_memory → (K.told keeper.new).in_memory }
    ensures honest { (K.told keeper.new).is_honest → (K.told keeper.old).is_honest }
    ensures stays { (K.told keeper.new).service ≡ service }
    ensures unopened { K.became keeper.old keeper.new 0 }
{
    let mut session = Session {
        alloc,
        keeper,
        port,
        clock,
        pending,
    };
    session.serve_turn(framer, buffer)
}

// Serves the messages of a port, as `serve` says, where `service` is what the keeper gives.
fn serve_turns<K: Keeper, P: Port, C: Clock>(
    alloc: Global,
    keeper: &mut K,
    port: &mut P,
    clock: &mut C,
    turns: u32,
) -> Served
    ghost service: { Service }
    requires serves { (K.told keeper.old).service ≡ service }
    requires going { (K.told keeper.old).has_failed ≡ false }
    requires receives { (P.told port.old).receives < 2 ^ 62 }
    requires failures { (P.told port.old).failures < 2 ^ 62 }
    ensures session { SessionServed (passage_for service (K.told keeper.old) (K.told keeper.new)
        (P.told port.old) (P.told port.new) (Did (C.gave clock.old clock.new)
        (K.performed keeper.old keeper.new) (P.became port.old port.new))) turns result }
    ensures unopened { K.became keeper.old keeper.new 0 }
{
    cut_joins();
    histories_grow::<K>();
    still_stands::<K>();
    // Each byte is written, so that all its pages are there before a message is copied into them.
    let Ok(mut buffer) = vec![in alloc; 0; MAX_MESSAGE] else {
        return Served {
            ended: Ended::Memory,
            counts: None,
        };
    };
    let mut framer = Framer::new(alloc);
    let mut pending = Vec::new(alloc);
    let mut counts = SessionCounts::NONE;
    for turn in 0..turns {
        match one_turn(
            alloc,
            keeper,
            port,
            clock,
            &mut framer,
            buffer.as_mut_slice(),
            &mut pending,
        ) {
            Ok(more) => counts = sum_of(counts, more),
            Err(served) => {
                let sum = sum_with(counts, served.counts);
                return Served {
                    ended: served.ended,
                    counts: sum,
                };
            }
        }
    }
    Served {
        ended: Ended::Turns,
        counts: Some(counts),
    }
}

/// Serves the messages of a port: receives at most `turns` times, processes all whole messages
/// after each of them in groups of at most 16 kept and seen ones, and sends the answers of a group
/// once it is committed. The keeper gets the ids that the answers settle with the next group that
/// has a kept one.
pub fn serve<K: Keeper, P: Port, C: Clock>(
    alloc: Global,
    keeper: &mut K,
    port: &mut P,
    clock: &mut C,
    turns: u32,
) -> Served
    requires going { (K.told keeper.old).has_failed ≡ false }
    requires receives { (P.told port.old).receives < 2 ^ 62 }
    requires failures { (P.told port.old).failures < 2 ^ 62 }
    // What a session promises of the keeper and the port: `ends`, `life`, `prompt` and the other
    // parts of it.
    ensures session { SessionServed (passage_for (K.told keeper.old).service (K.told keeper.old)
        (K.told keeper.new) (P.told port.old) (P.told port.new) (Did (C.gave clock.old clock.new)
        (K.performed keeper.old keeper.new) (P.became port.old port.new))) turns result }
    // It is said with the service that the keeper gives. Where the keeper is honest, that is the
    // service of its file system, and so all of it is said of the file system itself.
    ensures of_model { (K.told keeper.new).is_honest
        → SessionServed (passage (K.told keeper.old) (K.told keeper.new)
        (P.told port.old) (P.told port.new) (Did (C.gave clock.old clock.new)
        (K.performed keeper.old keeper.new) (P.became port.old port.new))) turns result }
    ensures unopened { K.became keeper.old keeper.new 0 }
{
    serve_turns(alloc, keeper, port, clock, turns)
}
