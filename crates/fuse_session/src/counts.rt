// The counts of a session's messages.
ghost use Rattle.std.specs.Prelude.{◌≡◌, ◌≤◌, ◌<◌, ◌-◌, ◌^◌, is_none, length, drop, All};
ghost use Rattle.fuse_request.specs.Stream.{IsMessage};
ghost use Rattle.fuse_request.specs.Faults.{first_fault};
ghost use Rattle.fuse_request.specs.Opcodes.{Service};
ghost use Rattle.fuse_session.specs.Counting.{plus, counted_one, is_interrupt};
ghost use Rattle.fuse_session.specs.inner.Counting.{IsBelow};
ghost use Rattle.fuse_session.specs.inner.Group.{tallied, repeats_in, head_repeat, left_by, classes_in};

use crate::gather::has_opcode;
use bytes::Bytes;
use fuse_keeper::Done;
use fuse_request::opcode::INTERRUPT;
use fuse_request::{Class, decode};

/// How many messages were processed, by class.
#[derive(Clone, Copy, Debug, PartialEq, Eq)]
pub struct SessionCounts {
    /// All of them: the kept, the seen, the bare and the silent ones.
    pub messages: u64,
    /// Those whose answer is recorded.
    pub kept: u64,
    /// The kept ones whose id was there before.
    pub repeated: u64,
    /// Those whose request changes nothing, and is answered anew each time.
    pub seen: u64,
    /// Those whose answer follows from their bytes alone.
    pub bare: u64,
    /// Those that are never answered.
    pub silent: u64,
    /// The silent ones that are well-formed INTERRUPTs.
    pub interrupts: u64,
}

impl SessionCounts {
    /// Nothing counted.
    pub const NONE: SessionCounts = SessionCounts {
        messages: 0,
        kept: 0,
        repeated: 0,
        seen: 0,
        bare: 0,
        silent: 0,
        interrupts: 0,
    };
}

/// Both, counted together.
pub(crate) fn sum_of(a: SessionCounts, b: SessionCounts) -> SessionCounts
    requires a { IsBelow a (2 ^ 63 - 1) }
    requires b { IsBelow b (2 ^ 63 - 1) }
    ensures { result ≡ plus a b }
{
    SessionCounts {
        messages: a.messages + b.messages,
        kept: a.kept + b.kept,
        repeated: a.repeated + b.repeated,
        seen: a.seen + b.seen,
        bare: a.bare + b.bare,
        silent: a.silent + b.silent,
        interrupts: a.interrupts + b.interrupts,
    }
}

// Whether a message spells a request.
fn is_well_formed(message: &[u8]) -> bool
    ensures { result ≡ is_none (first_fault message.now) }
{
    match decode(message) {
        Ok(_) => true,
        Err(_) => false,
    }
}

// Whether a message is a well-formed INTERRUPT.
fn is_well_formed_interrupt(message: &[u8]) -> bool
    requires { IsMessage message.now }
    ensures { result ≡ is_interrupt message.now }
{
    if has_opcode(message, INTERRUPT) {
        is_well_formed(message)
    } else {
        false
    }
}

// How one message of this class counts.
fn count_one(message: &[u8], class: Class, repeated: bool) -> SessionCounts
    requires { IsMessage message.now }
    ensures { result ≡ counted_one class repeated (is_interrupt message.now) }
{
    let one = SessionCounts {
        messages: 1,
        ..SessionCounts::NONE
    };
    match class {
        Class::Silent => SessionCounts {
            silent: 1,
            interrupts: u64::from(is_well_formed_interrupt(message)),
            ..one
        },
        Class::Bare(_) => SessionCounts { bare: 1, ..one },
        Class::Kept => SessionCounts {
            kept: 1,
            repeated: u64::from(repeated),
            ..one
        },
        Class::Seen => SessionCounts { seen: 1, ..one },
    }
}

// Whether the next message that is kept or seen is a repeat.
fn repeat_at(dones: &[Done], next: usize) -> bool
    ensures { result ≡ head_repeat (drop next (repeats_in dones.now)) }
{
    if next < dones.len() {
        dones[next].repeated
    } else {
        false
    }
}

// How many answers are used after a message of this class.
fn used_after(class: Class, dones: &[Done], next: usize) -> usize
    requires { next ≤ length dones.now }
    ensures within { result ≤ length dones.now }
    ensures left { drop result (repeats_in dones.now)
        ≡ left_by class (drop next (repeats_in dones.now)) }
{
    match class {
        Class::Silent | Class::Bare(_) => next,
        Class::Kept | Class::Seen => { if next < dones.len() { next + 1 } else { next } }
    }
}

/// Counts the messages of a group, which are of these classes, by the answers to them.
pub(crate) fn count_all(messages: &[Bytes], classes: &[Class], dones: &[Done]) -> SessionCounts
    ghost service: { Service }
    requires messages { All IsMessage messages.now }
    requires classes { classes.now ≡ classes_in service messages.now }
    requires few { length messages.now < 2 ^ 60 }
    ensures tallied { result ≡ tallied service messages.now (repeats_in dones.now) }
    ensures below { IsBelow result (length messages.now) }
{
    let mut counts = SessionCounts::NONE;
    let mut next = 0;
    for (place, message) in messages.iter().enumerate() {
        let class = classes[place];
        let one = count_one(message.as_slice(), class, repeat_at(dones, next));
        counts = sum_of(counts, one);
        next = used_after(class, dones, next);
    }
    counts
}
