// The kernel's side: requests that are pending, sent again, and taken.
ghost use Rattle.std.specs.Prelude.{◌≡◌, ◌≤◌, ◌<◌, ◌∷◌, ◌++◌, true, [], if◌then◌else◌};
ghost use Rattle.std.specs.Prelude.{length, map, drop, option_map, slice_get, All, Option};
ghost use Rattle.std.specs.Prelude.{IfOk, OnOk, OnErr};
ghost use Rattle.fuse_wire.specs.Bytes.{number_of};
ghost use Rattle.fuse_wire.specs.Opcodes.{silent};
ghost use Rattle.fuse_request.specs.Act.{asked, opcode_of};
ghost use Rattle.fuse_request.specs.AskedSize as sizes;
ghost use Rattle.fuse_request.specs.Canon.{canon, len_of, sayable};
ghost use Rattle.fuse_request.specs.declared.header.TheConstants.{MAX_MESSAGE as max_message};
ghost use Rattle.fuse_answer.specs.declared.records.TheConstants.OutHeader.{SIZE as header_size};
ghost use Rattle.fuse_request.specs.Places.{asked_at};
ghost use Rattle.fuse_keeper.specs.History.{is_in};
ghost use Rattle.fuse_sim.specs.Pending.{MayBeSent, owed, sent_again, all_again, borne, owner};
ghost use Rattle.fuse_sim.specs.Pending.{TakenOf};
ghost use Rattle.fuse_sim.specs.Pending.{request_ids, messages_in, requests_in};
ghost use Rattle.fuse_sim.specs.KeptMessages.{IsOwed};
ghost use Rattle.fuse_sim.specs.inner.Marking.{StandsFirst, marked_as_resend};

use byteorder::{ByteOrder, LittleEndian};
use fuse_answer::{BadAnswer, OutHeader, read_answer};
use fuse_request::opcode::is_silent;
use fuse_request::{Request, decode, encode, size_asked, spelled_at};
use fuse_wire::{Id, Memory, UNIQUE_RESEND, u32_at, u64_at};
use std::alloc::Global;
use std::marker::Model;

/// Why an answer was not taken.
#[derive(Clone, Copy, Debug, PartialEq, Eq)]
pub enum TakeFault {
    /// No pending request has the answer's unique.
    Unknown,
    /// The bytes are no answer to that request.
    BadAnswer(BadAnswer),
}

/// The kernel's side of a mount: it sends requests, and keeps each one that is answered until its
/// answer is taken. Contracts see the requests that are pending, in the order in which they were
/// first sent.
#[derive(Drop)]
pub struct Kernel {
    alloc: Global,
    pending: Vec<Vec<u8>>,
}

impl Model for Kernel {
    ghost use Rattle.std.specs.Prelude.{List};
    ghost use Rattle.fuse_request.specs.Act.{Asked};

    ghost Value = { List Asked };

    ghost use Rattle.fuse_sim.specs.Pending.{requests_in};
    ghost use Rattle.fuse_sim.specs.KeptMessages.{ArePending};

    ghost view = { λ k. requests_in k.pending.items };

    ghost invariant = { λ k. ArePending k.pending.items };
}

// Keeps a message pending, unless it is silent.
fn keep(alloc: Global, pending: &mut Vec<Vec<u8>>, message: &[u8]) -> Result<(), Memory>
    requires { 8 ≤ length message.now }
    ensures ok { OnOk result (messages_in pending.new.items ≡ messages_in pending.old.items
        ++ (if silent (number_of 4 (drop 4 message.now)) then [] else message.now ∷ [])) }
    ensures err { OnErr result (pending.new.items ≡ pending.old.items) }
{
    if is_silent(u32_at(message, 4)) {
        return Ok(());
    }
    let kept = Vec::from_slice(alloc, message)?;
    pending.push(kept)?;
    Ok(())
}

// Sets bit 63 of the unique in the bytes of a message.
#[tactic(auto, unfolding(fuse_wire::specs::Bytes::le))]
fn set_bit(message: &mut [u8])
    requires { 16 ≤ length message.old }
    ensures { message.new ≡ marked_as_resend message.old }
{
    let unique = Id::of(u64_at(message, 8)).0 + UNIQUE_RESEND;
    LittleEndian::write_u64(&mut message[8..], unique);
}

// Makes a message one that is sent again.
fn mark(message: &mut Vec<u8>)
    requires { IsOwed message.old.items }
    ensures owed { IsOwed message.new.items }
    ensures says { asked_at message.new.items ≡ sent_again (asked_at message.old.items) }
{
    spelled_at();
    set_bit(message.as_mut_slice());
}

// The messages at these places, as they are sent again.
fn copies_again(
    alloc: Global,
    pending: &[Vec<u8>],
    places: &[usize],
) -> Result<Vec<Vec<u8>>, Memory>
    requires owed { All IsOwed (messages_in pending.now) }
    requires there { All (λ place. place < length pending.now) places.now }
    ensures { IfOk result (λ messages. map (λ m. Some m) (messages_in messages.items)
        ≡ map (λ place. option_map (λ r. canon (sent_again r))
        (slice_get (requests_in pending.now) place)) places.now) }
{
    let mut messages = Vec::with_capacity(alloc, places.len())?;
    for place in places {
        let mut message = Vec::from_slice(alloc, pending[*place].as_slice())?;
        mark(&mut message);
        messages.push(message)?;
    }
    Ok(messages)
}

// Sets bit 63 in the messages at these places.
fn mark_all(pending: &mut [Vec<u8>], places: &[usize])
    requires owed { All IsOwed (messages_in pending.old) }
    requires there { All (λ place. place < length pending.old) places.now }
    ensures owed { All IsOwed (messages_in pending.new) }
    ensures says { requests_in pending.new ≡ all_again places.now (requests_in pending.old) }
{
    for place in places {
        mark(&mut pending[*place]);
    }
}

// Whether a pending message has this id.
fn has_id(pending: &[Vec<u8>], id: Id) -> bool
    requires { All IsOwed (messages_in pending.now) }
    ensures { result ≡ is_in (request_ids (requests_in pending.now)) id.0 }
{
    spelled_at();
    for message in pending {
        if Id::of(u64_at(message.as_slice(), 8)) == id {
            return true;
        }
    }
    false
}

// The place of the pending message with this unique.
fn place_of(pending: &[Vec<u8>], unique: u64) -> Option<usize>
    requires { All IsOwed (messages_in pending.now) }
    ensures { StandsFirst unique (requests_in pending.now) result }
{
    spelled_at();
    for (place, message) in pending.iter().enumerate() {
        if u64_at(message.as_slice(), 8) == unique {
            return Some(place);
        }
    }
    None
}

// The opcode of a pending message, and how many bytes of its answer it asks for.
fn asks(message: &[u8]) -> (u32, u32)
    requires { IsOwed message.now }
    ensures opcode { result.0 ≡ opcode_of (asked_at message.now).act }
    ensures size { result.1 ≡ sizes.size_asked (asked_at message.now).act }
{
    spelled_at();
    match decode(message) {
        Ok(request) => (u32_at(message, 4), size_asked(&request.op)),
        Err(_) => unreachable!(),
    }
}

impl Kernel {
    /// Nothing is pending. Allocates nothing.
    pub fn new(alloc: Global) -> Kernel
        ensures { result ≡ [] }
    {
        Kernel {
            alloc,
            pending: Vec::new(alloc),
        }
    }

    /// The message that sends a request. It is pending from then on, unless it is silent. An `Err`
    /// leaves the kernel as it was.
    pub fn send(&mut self, request: &Request<'_>) -> Result<Vec<u8>, Memory>
        requires sayable { sayable (asked request.now) ≡ true }
        requires short { len_of (asked request.now) ≤ max_message }
        requires free { MayBeSent self.old (asked request.now) }
        ensures message { IfOk result (λ message. message.items ≡ canon (asked request.now)) }
        ensures pending { OnOk result (self.new ≡ self.old ++ owed (asked request.now)) }
        ensures err { OnErr result (self.new ≡ self.old) }
    {
        spelled_at();
        let mut message = Vec::new(self.alloc);
        if encode(request, &mut message).is_err() {
            return Err(Memory);
        }
        keep(self.alloc, &mut self.pending, message.as_slice())?;
        Ok(message)
    }

    /// Whether a pending request has this id, by which a caller tests the condition of `send`.
    /// Allocates nothing.
    pub fn awaits(&self, id: Id) -> bool
        ensures { result ≡ is_in (request_ids self.now) id.0 }
    {
        has_id(self.pending.as_slice(), id)
    }

    /// The messages that are pending, as they were sent last. Allocates nothing.
    pub fn pending(&self) -> &[Vec<u8>]
        ensures { messages_in result.now ≡ map canon self.now }
    {
        self.pending.as_slice()
    }

    /// The messages that send the requests at these places of the pending ones again, in this
    /// order. They bear the bit of a resend from then on, and an answer must bear it too. An
    /// `Err` leaves the kernel as it was.
    pub fn resend(&mut self, order: &[usize]) -> Result<Vec<Vec<u8>>, Memory>
        requires { All (λ place. place < length self.old) order.now }
        ensures messages { IfOk result (λ messages. map (λ m. Some m) (messages_in messages.items)
            ≡ map (λ place. option_map (λ r. canon (sent_again r)) (slice_get self.old place))
            order.now) }
        ensures pending { OnOk result (self.new ≡ all_again order.now self.old) }
        ensures err { OnErr result (self.new ≡ self.old) }
    {
        let messages = copies_again(self.alloc, self.pending.as_slice(), order)?;
        mark_all(self.pending.as_mut_slice(), order);
        Ok(messages)
    }

    /// Takes an answer: the request of its unique is pending no more. Its body has the form that the
    /// request's opcode and size want, as `read_answer` says. An `Err` leaves the kernel as it was.
    /// Allocates nothing.
    pub fn take(&mut self, answer: &[u8]) -> Result<(), TakeFault>
        // Bytes that are no header are refused first.
        ensures short { length answer.now < header_size
            → result ≡ Err (TakeFault.BadAnswer BadAnswer.Short) }
        ensures taken { header_size ≤ length answer.now → TakenOf
            (owner (borne answer.now) self.old) self.old self.new answer.now result }
        ensures err { OnErr result (self.new ≡ self.old) }
    {
        spelled_at();
        if answer.len() < OutHeader::SIZE {
            return Err(TakeFault::BadAnswer(BadAnswer::Short));
        }
        let Some(place) = place_of(self.pending.as_slice(), u64_at(answer, 8)) else {
            return Err(TakeFault::Unknown);
        };
        let (opcode, size) = asks(self.pending[place].as_slice());
        match read_answer(opcode, size, answer) {
            Ok(_) => {
                let _taken = self.pending.remove(place);
                Ok(())
            }
            Err(fault) => Err(TakeFault::BadAnswer(fault)),
        }
    }
}
