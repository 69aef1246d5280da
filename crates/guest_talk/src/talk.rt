use crate::due::Due;
use crate::fault::{AskFault, GreetFault};
use crate::greeting::{hear_ready, say_hello};
use crate::guest_answer::GuestAnswer;
use crate::incoming::Incoming;
use crate::judging::{Judged, judge};
use crate::notes::{note_fault, note_frame, note_request};
use crate::outgoing::Outgoing;
use crate::pair_source::PairSource;
use crate::pipe::write_bytes;
use crate::reading::read_frame;
use crate::record::Record;
use crate::requests::{is_handed_sayable, request_frame};
use crate::telling::told_frame;
use fuse_guest::{TalkFault, first_broken, has_reply};
use fuse_init::Settings;
use fuse_request::{Op, Request};
use fuse_wire::{Moment, numbers_read};
use guest_frames::{GuestHead, Ready};
use std::alloc::Global;
use std::io::{Read, Write};

// How often a guest may ask for pairs: each of its frames but the last one.
const MAX_TRIPS: u32 = 65_535;

/// A talk with a guest that has said READY: both ends of its pipes, and what passed them since.
///
/// After an `Err` but `Unsayable` the guest is in the middle of a request or has broken the
/// protocol: nothing can be asked any more.
#[derive(Drop)]
pub struct Talk<R, W> {
    source: R,
    sink: W,
    ready: Ready,
    record: Record,
}

impl<R: Read + Drop, W: Write + Drop> Talk<R, W> {
    ghost use Rattle.std.specs.Prelude.{◌≡◌, ◌≤◌, ◌++◌, false, true, length, Ok, Err, List, IfErr, IfOk, IfSome, OnErr, OnOk};
    ghost use Rattle.std.specs.Option.{option_map};
    ghost use Rattle.fuse_request.specs.Act.{act, asked};
    ghost use Rattle.guest_frames.specs.Frames.{Frame, HasRightParts};
    ghost use Rattle.fuse_guest.specs.Talk.{Says};
    ghost use Rattle.fuse_guest.specs.Conversations.{asks_more};
    ghost use Rattle.fuse_guest.specs.Pairs.{Pairs};
    ghost use Rattle.guest_talk.specs.Answered.{incoming_frame, said_by};
    ghost use Rattle.guest_talk.specs.Asking.{EndsBy, ask_for, guest_fault, is_askable, store_fault};
    ghost use Rattle.guest_talk.specs.Events.{Event};
    ghost use Rattle.guest_talk.specs.GivingUp.{GivesUp};
    ghost use Rattle.guest_talk.specs.Greeting.{IsGreeted, IsRefused, hello_for};
    ghost use Rattle.guest_talk.specs.Showing.{ShownBy};
    ghost use Rattle.guest_talk.specs.TalkState.{talk_told};
    ghost use Rattle.guest_talk.specs.declared.fault.AskFault.TheVariants.{Unsayable};
    ghost use Rattle.guest_talk.specs.inner.Turns as turns;
    ghost use Rattle.guest_talk.specs.inner.Turning as turning;
    ghost use Rattle.guest_talk.specs.inner.Writes.{IsStoreFault, IsWritten};
    ghost use Rattle.guest_talk.specs.inner.Pipes.{IsPipeFault};

    /// Says HELLO, by what INIT agreed on and which opcodes were served then, and takes READY.
    #[tactic(auto, using(crate::proofs::Greeted::no_hello, crate::proofs::Greeted::no_ready))]
    pub fn greet(
        alloc: Global,
        source: R,
        sink: W,
        settings: Option<Settings>,
        pledged: u64,
    ) -> Result<Talk<R, W>, GreetFault>
        ensures ok { IfOk result (λ talk. IsGreeted (R.remaining source) (W.contents sink)
            (hello_for settings pledged) pledged (talk_told R.remaining W.contents talk)) }
        ensures refused { IfErr result (IsRefused (R.remaining source) pledged) }
    {
        let (mut source, mut sink) = (source, sink);
        say_hello(alloc, &mut sink, settings, pledged)?;
        let ready = hear_ready(alloc, &mut source)?;
        if let Some(opcode) = first_broken(pledged, &ready) {
            return Err(GreetFault::Unserved(opcode));
        }
        Ok(Talk {
            source,
            sink,
            ready,
            record: Record::new(),
        })
    }

    /// What the guest said of itself.
    pub fn ready(&self) -> Ready
        ensures { result ≡ (talk_told R.remaining W.contents self.now).ready }
    {
        self.ready
    }

    /// The end to which frames were written.
    pub fn into_sink(self) -> W
        ensures { W.contents result ≡ (talk_told R.remaining W.contents self).sent }
    {
        self.sink
    }

    // Notes a frame, and writes it.
    fn send(&mut self, out: &Outgoing) -> Result<(), TalkFault>
        requires long { 8 ≤ length out.now.bytes.items }
        ensures ok { OnOk result ((f : Frame) → IsWritten f out.now → turns.Sends
            (talk_told R.remaining W.contents self.old)
            (talk_told R.remaining W.contents self.new) f) }
        ensures err { IfErr result (λ fault. (f : Frame) → IsWritten f out.now
            → turns.SendsNot (talk_told R.remaining W.contents self.old)
            (talk_told R.remaining W.contents self.new) f fault) }
    {
        note_frame(&mut self.record, out.kind, &out.bytes[GuestHead::SIZE..]);
        match write_bytes(&mut self.sink, &out.bytes) {
            Ok(()) => Ok(()),
            Err(fault) => {
                note_fault(&mut self.record, fault);
                Err(fault)
            }
        }
    }

    // Writes REQUEST.
    fn begin(
        &mut self,
        alloc: Global,
        request: &Request<'_>,
        now: Moment,
        count: u32,
    ) -> Result<(), AskFault>
        ensures ok { OnOk result (turns.Begins (talk_told R.remaining W.contents self.old)
            (talk_told R.remaining W.contents self.new) (ask_for request.now now count)) }
        ensures err { IfErr result (turns.BeginsNot (talk_told R.remaining W.contents self.old)
            (talk_told R.remaining W.contents self.new) (ask_for request.now now count)) }
    {
        let out = request_frame(alloc, request, now, count)?;
        match self.send(&out) {
            Ok(()) => Ok(()),
            Err(fault) => Err(AskFault::Guest(fault)),
        }
    }

    // Reads a frame.
    fn hear(&mut self, alloc: Global) -> Result<Incoming, AskFault>
        ensures ok { IfOk result (λ came. turns.Hears (talk_told R.remaining W.contents self.old)
            (talk_told R.remaining W.contents self.new) (incoming_frame came)) }
        ensures err { IfErr result (turns.HearsNot (talk_told R.remaining W.contents self.old)
            (talk_told R.remaining W.contents self.new)) }
    {
        match read_frame(alloc, &mut self.source, Due::Others) {
            Ok(came) => {
                note_frame(&mut self.record, came.kind.number(), &came.payload);
                Ok(came)
            }
            Err(AskFault::Guest(fault)) => {
                note_fault(&mut self.record, fault);
                Err(AskFault::Guest(fault))
            }
            Err(fault) => Err(fault),
        }
    }

    // Writes the frame that a GET or a SCAN gets.
    fn tell<P: PairSource>(
        &mut self,
        alloc: Global,
        pairs: &mut P,
        query: &Incoming,
    ) -> Result<(), AskFault>
        requires asks { asks_more (Says (incoming_frame query.now)) ≡ true }
        requires right { HasRightParts (incoming_frame query.now) }
        ensures ok { OnOk result (turns.Tells (talk_told R.remaining W.contents self.old)
            (talk_told R.remaining W.contents self.new)
            (ShownBy P.shows P.is_honest pairs.old pairs.new) (incoming_frame query.now)) }
        ensures err { IfErr result (turns.TellsNot (talk_told R.remaining W.contents self.old)
            (talk_told R.remaining W.contents self.new)
            (turns.query_of (ShownBy P.shows P.is_honest pairs.old pairs.new)
            (P.may_answer pairs.old) (incoming_frame query.now))) }
        ensures looks { OnOk result (P.looks pairs.old pairs.new) }
        ensures fails { IfErr result (turns.LooksBy (P.looks pairs.old pairs.new)
            (P.fails pairs.old pairs.new)) }
    {
        numbers_read();
        let out = match told_frame(alloc, pairs, query) {
            Ok(out) => out,
            Err(fault) => return Err(AskFault::Store(fault)),
        };
        match self.send(&out) {
            Ok(()) => Ok(()),
            Err(fault) => Err(AskFault::Guest(fault)),
        }
    }

    // The last frame that a request may have.
    fn last_turn(&mut self, alloc: Global, op: &Op<'_>) -> Result<GuestAnswer, AskFault>
        ensures ok { IfOk result (λ a. turns.EndsWell (talk_told R.remaining W.contents self.old)
            (talk_told R.remaining W.contents self.new) (act op.now) (said_by a)) }
        ensures err { IfErr result (turns.EndsIll (talk_told R.remaining W.contents self.old)
            (talk_told R.remaining W.contents self.new) (act op.now)) }
    {
        let came = self.hear(alloc)?;
        match judge(&self.ready, op, &came) {
            Err(fault) => Err(AskFault::Guest(fault)),
            Ok(Judged::Answers) => Ok(GuestAnswer::of(came)),
            Ok(Judged::Asks) => Err(AskFault::Guest(TalkFault::TooManyFrames)),
        }
    }

    // One turn of the guest: a query gets its frame; the answer is returned.
    fn turn<P: PairSource>(
        &mut self,
        alloc: Global,
        pairs: &mut P,
        op: &Op<'_>,
    ) -> Result<Option<GuestAnswer>, AskFault>
        ensures ok { IfOk result (λ said. turning.TakesTurn
            (talk_told R.remaining W.contents self.old)
            (talk_told R.remaining W.contents self.new) (turning.due_of (act op.now)
            (ShownBy P.shows P.is_honest pairs.old pairs.new) (P.may_answer pairs.old))
            (option_map said_by said)) }
        ensures err { IfErr result (turning.TakesNoTurn
            (talk_told R.remaining W.contents self.old)
            (talk_told R.remaining W.contents self.new) (turning.due_of (act op.now)
            (ShownBy P.shows P.is_honest pairs.old pairs.new) (P.may_answer pairs.old))) }
        ensures looks { OnOk result (P.looks pairs.old pairs.new) }
        ensures fails { IfErr result (turns.LooksBy (P.looks pairs.old pairs.new)
            (P.fails pairs.old pairs.new)) }
    {
        let came = self.hear(alloc)?;
        match judge(&self.ready, op, &came) {
            Err(fault) => Err(AskFault::Guest(fault)),
            Ok(Judged::Answers) => Ok(Some(GuestAnswer::of(came))),
            Ok(Judged::Asks) => {
                self.tell(alloc, pairs, &came)?;
                Ok(None)
            }
        }
    }

    // All turns, from REQUEST to the answer.
    fn converse<P: PairSource>(
        &mut self,
        alloc: Global,
        pairs: &mut P,
        request: &Request<'_>,
        now: Moment,
        count: u32,
    ) -> Result<GuestAnswer, AskFault>
        ensures ok { IfOk result (λ a. turning.Answered
            (talk_told R.remaining W.contents self.old)
            (talk_told R.remaining W.contents self.new)
            (turning.asking_by (ask_for request.now now count)
            (ShownBy P.shows P.is_honest pairs.old pairs.new) (P.may_answer pairs.old)
            (P.looks pairs.old pairs.new) (P.fails pairs.old pairs.new)) (said_by a)) }
        ensures err { IfErr result (turning.Failed
            (talk_told R.remaining W.contents self.old)
            (talk_told R.remaining W.contents self.new)
            (turning.asking_by (ask_for request.now now count)
            (ShownBy P.shows P.is_honest pairs.old pairs.new) (P.may_answer pairs.old)
            (P.looks pairs.old pairs.new) (P.fails pairs.old pairs.new))) }
    {
        has_reply();
        self.begin(alloc, request, now, count)?;
        for _trip in 0..MAX_TRIPS {
            if let Some(answer) = self.turn(alloc, pairs, &request.op)? {
                return Ok(answer);
            }
        }
        self.last_turn(alloc, &request.op)
    }

    /// Asks a request of this moment that was asked so often before, and shows the pairs.
    pub fn ask<P: PairSource>(
        &mut self,
        alloc: Global,
        pairs: &mut P,
        request: &Request<'_>,
        now: Moment,
        count: u32,
    ) -> Result<GuestAnswer, AskFault>
        ensures ok { IfOk result (λ a. EndsBy (talk_told R.remaining W.contents self.old)
            (talk_told R.remaining W.contents self.new) (ask_for request.now now count)
            (ShownBy P.shows P.is_honest pairs.old pairs.new) (Ok (said_by a))) }
        ensures guest { IfErr result (λ fault. IfSome (guest_fault fault) (λ e.
            EndsBy (talk_told R.remaining W.contents self.old)
            (talk_told R.remaining W.contents self.new) (ask_for request.now now count)
            (ShownBy P.shows P.is_honest pairs.old pairs.new) (Err e))) }
        // The pairs' own fault, or out of memory.
        ensures store { IfErr result (λ fault. IfSome (store_fault fault) (IsStoreFault
            (ShownBy P.shows P.is_honest pairs.old pairs.new) (P.may_answer pairs.old))) }
        ensures unsayable { result ≡ Err Unsayable → (is_askable (asked request.now) ≡ false)
            × ((talk_told R.remaining W.contents self.new).events
            ≡ (talk_told R.remaining W.contents self.old).events) }
        ensures looks { OnOk result (P.looks pairs.old pairs.new) }
        ensures fails { IfErr result (turns.LooksBy (P.looks pairs.old pairs.new)
            (P.fails pairs.old pairs.new)) }
        ensures grows { (more : List Event) × ((talk_told R.remaining W.contents self.new).events
            ≡ (talk_told R.remaining W.contents self.old).events ++ more) }
        ensures ready { (talk_told R.remaining W.contents self.new).ready
            ≡ (talk_told R.remaining W.contents self.old).ready }
    {
        self.converse(alloc, pairs, request, now, count)
    }

    /// Gives a request up: no guest is asked, and it is noted as one whose guest ended. It fails
    /// where no message says the request.
    pub fn give_up(
        &mut self,
        request: &Request<'_>,
        now: Moment,
        count: u32,
    ) -> Result<(), AskFault>
        ensures ok { OnOk result (GivesUp (talk_told R.remaining W.contents self.old)
            (talk_told R.remaining W.contents self.new) (ask_for request.now now count)) }
        ensures unsayable { IfErr result (λ fault. fault ≡ Unsayable) }
        ensures unsaid { OnErr result (is_askable (asked request.now) ≡ false) }
        ensures grows { (more : List Event) × ((talk_told R.remaining W.contents self.new).events
            ≡ (talk_told R.remaining W.contents self.old).events ++ more) }
        ensures ready { (talk_told R.remaining W.contents self.new).ready
            ≡ (talk_told R.remaining W.contents self.old).ready }
        ensures unmoved { ((talk_told R.remaining W.contents self.new).coming
            ≡ (talk_told R.remaining W.contents self.old).coming)
            × ((talk_told R.remaining W.contents self.new).sent
            ≡ (talk_told R.remaining W.contents self.old).sent) }
    {
        has_reply();
        if !is_handed_sayable(request) {
            return Err(AskFault::Unsayable);
        }
        note_request(&mut self.record, request, now, count);
        Ok(())
    }
}
