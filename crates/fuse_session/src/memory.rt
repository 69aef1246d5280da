// A port in memory.
ghost use Rattle.std.specs.Prelude.{◌≡◌, ◌≤◌, ◌<◌, ◌+◌, ◌-◌, drop, length, Some, [], ℕ, IfOk};
ghost use Rattle.std.specs.Prelude.{vec_capacity, vec_len};

use crate::port::{Port, Received, Sent};
use std::alloc::{AllocError, Global};

/// What one call of `receive` of a `MemoryPort` gives.
#[derive(Clone, Copy, Debug, PartialEq, Eq)]
pub enum Arrival {
    /// At most so many bytes.
    Piece(usize),
    /// Nothing comes.
    Failed,
}

/// How one call of `send` of a `MemoryPort` goes.
#[derive(Clone, Copy, Debug, PartialEq, Eq)]
pub enum Outcome {
    /// At most so many bytes are taken.
    Take(usize),
    /// All is taken, and nobody waits for it.
    Gone,
    /// Nothing is taken.
    Failed,
}

/// Gives bytes in pieces, and keeps the bytes that are sent. After its arrivals it fills the buffer,
/// and after its outcomes it takes all. It has room for some bytes; beyond those, it grows.
#[derive(Drop)]
pub struct MemoryPort {
    input: Vec<u8>,
    at: usize,
    arrivals: Vec<Arrival>,
    arrived: usize,
    outcomes: Vec<Outcome>,
    answered: usize,
    sent: Vec<u8>,
    gone: Vec<u64>,
    receives: u64,
    failures: u64,
    receive_failures: u64,
    ends: u64,
    confirms: bool,

    ghost within: { at ≤ length input.items },
    ghost ended: { ends ≤ receives },
    ghost fewer: { receive_failures ≤ failures },
    // A place for each outcome that is left.
    ghost places: { vec_len gone + (length outcomes.items - answered) ≤ vec_capacity gone },
}

impl MemoryPort {
    ghost use Rattle.fuse_session.specs.Memory.{memory_told, arrivals_left, outcomes_left};
    ghost use Rattle.fuse_session.specs.Memory.{first_arrival, first_outcome, HasRoom};
    ghost use Rattle.fuse_session.specs.Port.{fresh};

    /// All of the input is to come, and there is room for so many bytes that are sent. `confirms`:
    /// whether an answer taken whole counts as taken by the kernel.
    pub fn new(
        alloc: Global,
        input: Vec<u8>,
        arrivals: Vec<Arrival>,
        outcomes: Vec<Outcome>,
        confirms: bool,
        room: usize,
    ) -> Result<MemoryPort, AllocError>
        ensures told { IfOk result (λ port. memory_told port
            ≡ fresh (Some input.items) (Some []) confirms) }
        ensures arrivals { IfOk result (λ port. arrivals_left port ≡ arrivals.items) }
        ensures outcomes { IfOk result (λ port. outcomes_left port ≡ outcomes.items) }
        ensures room { IfOk result (λ port. HasRoom port room) }
    {
        let sent = Vec::with_capacity(alloc, room)?;
        let gone = Vec::with_capacity(alloc, outcomes.len())?;
        Ok(MemoryPort {
            input,
            at: 0,
            arrivals,
            arrived: 0,
            outcomes,
            answered: 0,
            sent,
            gone,
            receives: 0,
            failures: 0,
            receive_failures: 0,
            ends: 0,
            confirms,
        })
    }

    /// The bytes that were sent.
    pub fn sent(&self) -> &[u8]
        ensures { Some result.now ≡ (memory_told self.now).sent }
    {
        self.sent.as_slice()
    }

    fn next_arrival(&mut self) -> Arrival
        ensures told { memory_told self.new ≡ memory_told self.old }
        ensures first { result ≡ first_arrival (arrivals_left self.old) }
        ensures left { arrivals_left self.new ≡ drop 1 (arrivals_left self.old) }
        ensures others { outcomes_left self.new ≡ outcomes_left self.old }
    {
        if self.arrived < self.arrivals.len() {
            let arrival = self.arrivals[self.arrived];
            self.arrived += 1;
            return arrival;
        }
        Arrival::Piece(usize::MAX)
    }

    fn next_outcome(&mut self) -> Outcome
        ensures told { memory_told self.new ≡ memory_told self.old }
        ensures first { result ≡ first_outcome (outcomes_left self.old) }
        ensures left { outcomes_left self.new ≡ drop 1 (outcomes_left self.old) }
        ensures others { arrivals_left self.new ≡ arrivals_left self.old }
        ensures sent { self.new.sent ≡ self.old.sent }
        ensures gone { self.new.gone ≡ self.old.gone }
        ensures place { result ≡ Outcome.Gone → vec_len self.new.gone
            + (length self.new.outcomes.items - self.new.answered) < vec_capacity self.new.gone }
    {
        if self.answered < self.outcomes.len() {
            let outcome = self.outcomes[self.answered];
            self.answered += 1;
            return outcome;
        }
        Outcome::Take(usize::MAX)
    }
}

impl Port for MemoryPort {
    ghost use Rattle.fuse_session.specs.Memory.{memory_told, arrivals_left, outcomes_left};
    ghost use Rattle.fuse_session.specs.Memory.{bytes_left};
    ghost use Rattle.fuse_session.specs.Memory.{first_arrival, first_outcome, received_by};
    ghost use Rattle.fuse_session.specs.Memory.{AnswersSend};
    ghost use Rattle.fuse_session.specs.Memory.{HasRoom, kept_by};
    ghost use Rattle.fuse_session.specs.Port.{IsYoung, Receives, Sends};
    ghost use Rattle.fuse_session.specs.Stepping.{Stepped};
    ghost use Rattle.fuse_session.specs.inner.Stepping.{stepped_path};
    ghost use Rattle.fuse_session.specs.Transcript.{one_receive, one_send};

    ghost told = { memory_told };

    ghost became = { Stepped memory_told };

    fn receive(&mut self, buffer: &mut [u8]) -> Received
        requires young { IsYoung (memory_told self.old) }
        ensures received { Receives (memory_told self.old) (memory_told self.new)
            result buffer.new }
        ensures same { Stepped memory_told self.old self.new (one_receive result buffer.new) }
        // By its list of arrivals, which is then one shorter.
        ensures arrives { result ≡ received_by (first_arrival (arrivals_left self.old))
            (bytes_left self.old) (length buffer.old) }
        ensures left { arrivals_left self.new ≡ drop 1 (arrivals_left self.old) }
        ensures others { outcomes_left self.new ≡ outcomes_left self.old }
    {
        self.receives += 1;
        let Arrival::Piece(most) = self.next_arrival() else {
            self.failures += 1;
            self.receive_failures += 1;
            return Received::Failed;
        };
        let left = self.input.len() - self.at;
        if left == 0 {
            self.ends += 1;
            return Received::End;
        }
        let n = left.min(most).min(buffer.len());
        buffer[..n].copy_from_slice(&self.input[self.at..self.at + n]);
        self.at += n;
        Received::Got(n)
    }

    // It grows where its room is used up, and a growth that is refused is a failure.
    fn send(&mut self, bytes: &[u8]) -> Sent
        requires young { IsYoung (memory_told self.old) }
        ensures sent { Sends (memory_told self.old) (memory_told self.new) result bytes.now }
        ensures same { Stepped memory_told self.old self.new (one_send bytes.now result) }
        // By its list of outcomes, which is then one shorter.
        ensures answers { AnswersSend self.old (first_outcome (outcomes_left self.old))
            (length bytes.now) result }
        // What it keeps is taken from its room.
        ensures room { (more : ℕ) → HasRoom self.old (kept_by (first_outcome
            (outcomes_left self.old)) (length bytes.now) + more) → HasRoom self.new more }
        // A send that fails keeps nothing.
        ensures failed { result ≡ Sent.Failed
            → (memory_told self.new).sent ≡ (memory_told self.old).sent }
        ensures left { outcomes_left self.new ≡ drop 1 (outcomes_left self.old) }
        ensures others { arrivals_left self.new ≡ arrivals_left self.old }
    {
        let outcome = self.next_outcome();
        let taken = match outcome {
            Outcome::Take(most) => &bytes[..bytes.len().min(most)],
            Outcome::Gone => bytes,
            Outcome::Failed => &bytes[..0],
        };
        if outcome == Outcome::Failed || self.sent.reserve(taken.len()).is_err() {
            self.failures += 1;
            return Sent::Failed;
        }
        self.sent.extend_from_slice(taken).unwrap();
        if outcome == Outcome::Gone {
            self.gone.push_reserved(self.sent.len() as u64);
            return Sent::Gone;
        }
        if taken.is_empty() && !bytes.is_empty() {
            self.failures += 1;
        }
        Sent::Took(taken.len())
    }

    fn confirms(&self) -> bool {
        self.confirms
    }

    fn tally(&self) -> (u64, u64) {
        (self.receives, self.failures)
    }

    ghost path = { stepped_path memory_told };

    ghost tells = { λ a b events steps. steps };
}
