ghost use Rattle.std.specs.Prelude.{◌≡◌, Some, IfOk, IfErr, IsOkAnd};
ghost use Rattle.guest_frames.specs.Borrowed as borrowed;
ghost use Rattle.guest_frames.specs.Frames.{Frame, SpellsFrame, frame_kind};
ghost use Rattle.guest_frames.specs.Kinds.{kind_number};
ghost use Rattle.guest_frames.specs.Reading as reading;
ghost use Rattle.guest_frames.specs.inner.Readers.{GivesRead};

use crate::changes::{Changes, split_changes};
use crate::fault::GuestFault;
use crate::guest_kind::GuestKind;
use crate::keys::{Keys, split_keys};
use crate::limits::{MAX_ANSWER_BODY, MAX_CHANGES, MAX_ERROR, MAX_KEYS, VERSION};
use crate::parts::bound_first;
use crate::ready::Ready;
use crate::seeable::unseeable;
use fuse_wire::{layouts_stand, numbers_read, u32_at, u64_at};

/// Asks for the pairs of a range of keys, in the order of bytes.
#[derive(Clone, Copy, Debug)]
pub struct Scan<'a> {
    /// At most so many pairs; 0 for as many as fit.
    pub limit: u32,
    /// Values aren't asked for.
    pub keys_alone: bool,
    /// From the last key on.
    pub downwards: bool,
    /// The first key of the range, or empty.
    pub from: &'a [u8],
    /// The first key above the range, or empty where it has no end.
    pub to: &'a [u8],
}

/// What a request does.
#[derive(Debug, Drop)]
pub struct Answer<'a> {
    /// An error number, or 0.
    pub error: u32,
    pub changes: Changes<'a>,
    pub body: &'a [u8],
}

/// A frame of a guest, as it lies in its bytes.
#[derive(Debug, Drop)]
pub enum GuestFrame<'a> {
    Ready(Ready),
    /// Asks for the values of these keys.
    Get(Keys<'a>),
    Scan(Scan<'a>),
    Answer(Answer<'a>),
}

fn ready_of(payload: &[u8]) -> Result<Ready, GuestFault>
    ensures { GivesRead (λ r. r) result (reading.ready_in payload.now) }
{
    if payload.len() < 4 {
        return Err(GuestFault::Malformed(GuestKind::Ready));
    }
    let version = u32_at(payload, 0);
    if version != VERSION {
        return Err(GuestFault::Version(version));
    }
    if payload.len() != 40 || u32_at(payload, 28) != 0 {
        return Err(GuestFault::Malformed(GuestKind::Ready));
    }
    let ready = Ready {
        max_write: u32_at(payload, 4),
        opcodes: u64_at(payload, 8),
        wanted: u64_at(payload, 16),
        max_readahead: u32_at(payload, 24),
        seen: u64_at(payload, 32),
    };
    match unseeable(ready.seen) {
        Some(opcode) => Err(GuestFault::CannotBeSeen(opcode)),
        None => Ok(ready),
    }
}

// So many keys, and nothing after them.
#[tactic(auto, unfolding(crate::specs::Reading::keys_in))]
fn keys_of(count: u32, bytes: &[u8]) -> Result<Keys<'_>, GuestFault>
    ensures { GivesRead borrowed.keys_left result (reading.keys_in count bytes.now) }
{
    let (keys, rest) = split_keys(count, bytes)?;
    if !rest.is_empty() {
        return Err(GuestFault::Malformed(GuestKind::Get));
    }
    Ok(keys)
}

fn get_of(payload: &[u8]) -> Result<Keys<'_>, GuestFault>
    ensures { GivesRead borrowed.keys_left result (reading.get_in payload.now) }
{
    if payload.len() < 8 || u32_at(payload, 4) != 0 {
        return Err(GuestFault::Malformed(GuestKind::Get));
    }
    let count = u32_at(payload, 0);
    if count == 0 || count > MAX_KEYS {
        return Err(GuestFault::TooMany(GuestKind::Get));
    }
    let (_head, rest) = payload.split_at(8);
    keys_of(count, rest)
}

// Two bounds, and nothing after them.
#[tactic(auto, unfolding(crate::specs::Reading::range_in))]
fn range_of(limit: u32, flags: u32, bytes: &[u8]) -> Result<Scan<'_>, GuestFault>
    ensures { GivesRead borrowed.scan_content result (reading.range_in limit flags bytes.now) }
{
    let (from, rest) = bound_first(GuestKind::Scan, bytes)?;
    let (to, rest) = bound_first(GuestKind::Scan, rest)?;
    if !rest.is_empty() {
        return Err(GuestFault::Malformed(GuestKind::Scan));
    }
    Ok(Scan {
        limit,
        keys_alone: flags % 2 == 1,
        downwards: flags / 2 == 1,
        from,
        to,
    })
}

fn scan_of(payload: &[u8]) -> Result<Scan<'_>, GuestFault>
    ensures { GivesRead borrowed.scan_content result (reading.scan_in payload.now) }
{
    if payload.len() < 8 {
        return Err(GuestFault::Malformed(GuestKind::Scan));
    }
    let flags = u32_at(payload, 4);
    if flags > 3 {
        return Err(GuestFault::Malformed(GuestKind::Scan));
    }
    let limit = u32_at(payload, 0);
    let (_head, rest) = payload.split_at(8);
    range_of(limit, flags, rest)
}

// So many changes, and a body of this size after them.
#[tactic(auto, unfolding(crate::specs::Reading::changes_in))]
fn changes_of(error: u32, count: u32, size: u32, bytes: &[u8]) -> Result<Answer<'_>, GuestFault>
    ensures { GivesRead borrowed.answer_content result
        (reading.changes_in error count size bytes.now) }
{
    let (changes, body) = split_changes(count, bytes)?;
    if body.len() != size as usize {
        return Err(GuestFault::Malformed(GuestKind::Answer));
    }
    if size > MAX_ANSWER_BODY {
        return Err(GuestFault::Body(size));
    }
    Ok(Answer {
        error,
        changes,
        body,
    })
}

fn answer_of(payload: &[u8]) -> Result<Answer<'_>, GuestFault>
    ensures { GivesRead borrowed.answer_content result (reading.guest_answer_in payload.now) }
{
    if payload.len() < 16 || u32_at(payload, 12) != 0 {
        return Err(GuestFault::Malformed(GuestKind::Answer));
    }
    let error = u32_at(payload, 0);
    if error > MAX_ERROR {
        return Err(GuestFault::Error(error));
    }
    let count = u32_at(payload, 4);
    if count > MAX_CHANGES {
        return Err(GuestFault::TooMany(GuestKind::Answer));
    }
    let size = u32_at(payload, 8);
    if error != 0 && (count != 0 || size != 0) {
        return Err(GuestFault::ErrorWithChanges);
    }
    let (_head, rest) = payload.split_at(16);
    changes_of(error, count, size, rest)
}

fn payload_of(kind: GuestKind, payload: &[u8]) -> Result<GuestFrame<'_>, GuestFault>
    ensures { GivesRead borrowed.guest_content result (reading.payload_in kind payload.now) }
{
    let frame = match kind {
        GuestKind::Ready => GuestFrame::Ready(ready_of(payload)?),
        GuestKind::Get => GuestFrame::Get(get_of(payload)?),
        GuestKind::Scan => GuestFrame::Scan(scan_of(payload)?),
        GuestKind::Answer => GuestFrame::Answer(answer_of(payload)?),
    };
    Ok(frame)
}

impl<'a> GuestFrame<'a> {
    /// The frame of this kind whose bytes after the head are `payload`, or its first fault. Takes
    /// no memory.
    pub fn decode(kind: GuestKind, payload: &'a [u8]) -> Result<GuestFrame<'a>, GuestFault>
        // What is decoded is spelled so.
        ensures found { IfOk result
            (λ f. SpellsFrame (borrowed.guest_content f) payload.now) }
        ensures kind { IfOk result
            (λ f. frame_kind (borrowed.guest_content f) ≡ kind_number kind) }
        // What is spelled so is decoded.
        ensures only { (f : Frame) → frame_kind f ≡ kind_number kind → SpellsFrame f payload.now
            → IsOkAnd result (λ r. borrowed.guest_content r ≡ f) }
        // Which fault it is.
        ensures fault { IfErr result
            (λ m. reading.first_guest_fault kind payload.now ≡ Some m) }
    {
        numbers_read();
        layouts_stand();
        payload_of(kind, payload)
    }
}
