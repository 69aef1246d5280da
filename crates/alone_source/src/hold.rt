// Bytes that were read and not handed on.
ghost use Rattle.std.specs.Prelude.{◌≡◌, ◌≤◌, ◌<◌, ◌-◌, ◌==◌, ◌||◌, true, false, [], length};
ghost use Rattle.std.specs.Prelude.{take, drop, min, if◌then◌else◌, IfOk};
ghost use Rattle.std.specs.Prelude.{vec_capacity};
ghost use Rattle.fuse_request.specs.declared.header.TheConstants.{MAX_MESSAGE as max_message};
ghost use Rattle.fuse_request.specs.Stream.{cut, is_whole};
ghost use Rattle.alone_source.specs.Holding.{HandsOn, is_bad, nothing_held, to_hand};
ghost use Rattle.alone_source.specs.inner.Passing.{Passes};

use crate::messages::{has_bad_length, rest_at, turn_len};
use fuse_request::{cut_steps, one_cut};
use fuse_wire::{Id, numbers_read};
use std::alloc::{AllocError, Global};
use std::marker::Model;

// The bytes of a message that isn't whole, and what a read gives at most.
const ROOM: usize = 270_336;

/// What was read. The first bytes were handed on, as those of a message that isn't whole yet.
#[derive(Drop)]
pub(crate) struct Hold {
    alone: Option<Id>,
    is_lost: bool,
    waiting: Vec<u8>,
    given: usize,
}

impl Model for Hold {
    ghost use Rattle.std.specs.Prelude.{take, drop};
    ghost use Rattle.alone_source.specs.Holding.{HeldState};
    ghost use Rattle.alone_source.specs.inner.Waiting.{IsHold};

    ghost Value = { HeldState };

    ghost view = { λ a. record {
      alone = a.alone;
      is_lost = a.is_lost;
      begun = take a.given a.waiting.items;
      held = drop a.given a.waiting.items;
    } };

    ghost invariant = { λ a. IsHold a.is_lost a.waiting a.given };
}

/// How the bytes go on after some were handed on.
#[derive(Clone, Copy)]
pub(crate) struct Passed {
    pub(crate) is_lost: bool,
    pub(crate) given: usize,
}

// Removes the first bytes.
fn forget(waiting: &mut Vec<u8>, n: usize)
    requires within { n ≤ length waiting.old.items }
    ensures items { waiting.new.items ≡ drop n waiting.old.items }
    ensures room { vec_capacity waiting.new ≡ vec_capacity waiting.old }
{
    let rest = waiting.len() - n;
    waiting.rotate_left(n);
    waiting.truncate(rest);
}

// Copies as many of these bytes as there is room for.
fn copy_some(bytes: &[u8], buffer: &mut [u8]) -> usize
    ensures count { result ≡ min (length bytes.now) (length buffer.old) }
    ensures copied { take result buffer.new ≡ take (length buffer.old) bytes.now }
    ensures len { length buffer.new ≡ length buffer.old }
{
    let n = bytes.len().min(buffer.len());
    buffer[..n].copy_from_slice(&bytes[..n]);
    n
}

// What is handed on next, where so many of these bytes were handed on.
fn next_piece(alone: Option<Id>, is_lost: bool, bytes: &[u8], given: usize) -> &[u8]
    requires within { given ≤ length bytes.now }
    requires stuck { is_whole (take given bytes.now) ≡ false }
    ensures piece { result.now ≡ to_hand (record {
      alone = alone;
      is_lost = is_lost;
      begun = take given bytes.now;
      held = drop given bytes.now;
    }) }
    ensures first { take (length result.now) (drop given bytes.now) ≡ result.now }
    ensures some { 0 < length (drop given bytes.now) → 0 < length result.now }
{
    numbers_read();
    cut_steps();
    let (_begun, held) = bytes.split_at(given);
    if is_lost {
        return held;
    }
    let len = turn_len(alone, bytes);
    &held[..len - given]
}

// How the bytes go on after these, which were handed on.
fn settle(handed: &[u8], was_lost: bool) -> Passed
    ensures lost { result.is_lost ≡ (was_lost || is_bad (cut handed.now).1) }
    ensures within { result.given ≤ length handed.now }
    ensures begun { drop (length handed.now - result.given) handed.now
        ≡ (if result.is_lost then [] else (cut handed.now).1) }
    ensures short { result.given < max_message }
    ensures none { result.is_lost ≡ true → result.given ≡ 0 }
{
    one_cut();
    let rest = rest_at(handed);
    let (_whole, after) = handed.split_at(rest);
    if was_lost || has_bad_length(after) {
        return Passed {
            is_lost: true,
            given: 0,
        };
    }
    Passed {
        is_lost: false,
        given: after.len(),
    }
}

// Forgets what is past, where so many bytes were handed on: all of them after a bad length.
fn pass(waiting: &mut Vec<u8>, to: usize, was_lost: bool) -> Passed
    requires within { to ≤ length waiting.old.items }
    ensures { Passes waiting.old waiting.new to was_lost result }
{
    let passed = settle(&waiting[..to], was_lost);
    forget(waiting, to - passed.given);
    passed
}

impl Hold {
    /// Holds nothing.
    pub(crate) fn new(alloc: Global, alone: Option<Id>) -> Result<Hold, AllocError>
        ensures { IfOk result (λ hold. hold ≡ nothing_held alone) }
    {
        Ok(Hold {
            alone,
            is_lost: false,
            waiting: Vec::with_capacity(alloc, ROOM)?,
            given: 0,
        })
    }

    /// Whether nothing is held.
    pub(crate) fn is_empty(&self) -> bool
        ensures { result ≡ (length self.now.held == 0) }
    {
        self.given == self.waiting.len()
    }

    /// Holds these bytes, where it holds none.
    pub(crate) fn keep(&mut self, piece: &[u8])
        requires empty { self.old.held ≡ [] }
        requires short { length piece.now ≤ max_message }
        ensures { self.new ≡ record self.old { held = piece.now } }
    {
        self.waiting.extend_from_slice(piece).unwrap();
    }

    /// Hands on what comes next, as much as there is room for: the count of its bytes, which stand
    /// at the start of the buffer.
    pub(crate) fn hand_on(&mut self, buffer: &mut [u8]) -> usize
        requires some { 0 < length self.old.held }
        ensures hands { HandsOn self.old self.new result buffer.new }
        ensures len { length buffer.new ≡ length buffer.old }
    {
        one_cut();
        let piece = next_piece(
            self.alone,
            self.is_lost,
            self.waiting.as_slice(),
            self.given,
        );
        let n = copy_some(piece, buffer);
        let passed = pass(&mut self.waiting, self.given + n, self.is_lost);
        self.is_lost = passed.is_lost;
        self.given = passed.given;
        n
    }
}
