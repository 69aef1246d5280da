ghost use Rattle.std.specs.Prelude.{◌≡◌, ◌+◌, ◌<◌, ◌≤◌, ◌++◌, [], None, Some, length};
ghost use Rattle.std.specs.Prelude.{if◌then◌else◌, OnOk, OnErr, IfOk, IfErr, IfSome};
ghost use Rattle.std.specs.Option.{unwrap_or};
ghost use Rattle.std.specs.Result.{result_err};
ghost use Rattle.fuse_wire.specs.Bounds.{max_fed_len, max_message_len};
ghost use Rattle.fuse_wire.specs.Bytes.{number_of};
ghost use Rattle.fuse_request.specs.Stream.{is_whole};
ghost use Rattle.fuse_request.specs.Framing.{bad_length, end_fault, ends, fed_of, GivesNext};

use crate::header::{MAX_MESSAGE, MIN_MESSAGE};
use bytes::{Bytes, BytesMut};
use fuse_wire::{numbers_read, u32_at};
use std::alloc::Global;
use std::marker::Model;

/// How many bytes a framer may be fed.
pub const MAX_FED: u64 = 0x1000_0000_0000_0000;

/// A fault of a stream. `at` is the offset in the stream at which a message begins.
#[derive(Clone, Copy, Debug, PartialEq, Eq)]
pub enum FrameFault {
    /// The message says that it is shorter than a header.
    Short { at: u64, len: u32 },
    /// The message says that it is longer than any may be.
    TooLong { at: u64, len: u32 },
    /// The stream ends within a message: of `need` bytes it has `have`.
    Cut { at: u64, have: u64, need: u64 },
    /// A growth was refused.
    Memory,
}

/// Cuts a stream that comes in pieces into messages. Once it has met a bad length it answers that
/// fault from then on.
#[derive(Drop)]
pub struct Framer {
    held: BytesMut,
    at: u64,
    fault: Option<FrameFault>,
}

impl Model for Framer {
    ghost use Rattle.fuse_request.specs.Framing.{HeldBytes, IsHeld};

    ghost Value = { HeldBytes };

    ghost view = { λ a. record { bytes = a.held.items; at = a.at; fault = a.fault } };

    ghost invariant = { λ a. IsHeld (record { bytes = a.held.items; at = a.at; fault = a.fault }) };
}

// The fault of a message that would begin with these bytes, where its length is a bad one.
fn length_fault(at: u64, bytes: &[u8]) -> Option<FrameFault>
    ensures { result ≡ bad_length at bytes.now }
{
    if bytes.len() < 4 {
        return None;
    }
    let len = u32_at(bytes, 0);
    if (len as usize) < MIN_MESSAGE {
        return Some(FrameFault::Short { at, len });
    }
    if len as usize > MAX_MESSAGE {
        return Some(FrameFault::TooLong { at, len });
    }
    None
}

// The length of the first message, where it is whole.
fn whole_len(bytes: &[u8]) -> Option<usize>
    ensures { result ≡ (if is_whole bytes.now then Some (number_of 4 bytes.now) else None) }
{
    if bytes.len() < 4 {
        return None;
    }
    let len = u32_at(bytes, 0) as usize;
    if len < MIN_MESSAGE || len > MAX_MESSAGE || len > bytes.len() {
        return None;
    }
    Some(len)
}

// The fault of a stream that ends with these bytes, in which there is no whole message.
fn end_of(at: u64, rest: &[u8]) -> Result<(), FrameFault>
    ensures { result_err result ≡ end_fault at rest.now }
{
    if rest.is_empty() {
        return Ok(());
    }
    if let Some(fault) = length_fault(at, rest) {
        return Err(fault);
    }
    let have = rest.len() as u64;
    let need = if rest.len() < 4 {
        4
    } else {
        u64::from(u32_at(rest, 0))
    };
    Err(FrameFault::Cut { at, have, need })
}

impl Framer {
    /// No bytes are fed yet. Takes no memory.
    pub fn new(alloc: Global) -> Framer
        ensures { result ≡ record { bytes = []; at = 0; fault = None } }
    {
        Framer {
            held: BytesMut::new(alloc),
            at: 0,
            fault: None,
        }
    }

    /// How many bytes were fed.
    pub fn fed(&self) -> u64
        ensures { result ≡ fed_of self.now }
    {
        self.at + self.held.len() as u64
    }

    /// How many of the bytes fed weren't given out in messages.
    pub fn held(&self) -> u64
        ensures { result ≡ length self.now.bytes }
    {
        self.held.len() as u64
    }

    /// Appends a piece of the stream.
    pub fn feed(&mut self, piece: &[u8]) -> Result<(), FrameFault>
        requires { fed_of self.old + length piece.now ≤ max_fed_len }
        ensures ok { OnOk result ((self.old.fault ≡ None)
            × (self.new ≡ record self.old { bytes = self.old.bytes ++ piece.now })) }
        ensures err { OnErr result (self.new ≡ self.old) }

        // The fault that it holds, or else out of memory.
        ensures fault { IfErr result (λ f. f ≡ unwrap_or self.old.fault FrameFault.Memory) }
    {
        if let Some(fault) = self.fault {
            return Err(fault);
        }
        match self.held.extend_from_slice(piece) {
            Ok(()) => Ok(()),
            Err(_) => Err(FrameFault::Memory),
        }
    }

    /// The next message, where it is whole. A bad length is answered as soon as its four
    /// bytes are there.
    pub fn next(&mut self) -> Result<Option<Bytes>, FrameFault>
        ensures next { GivesNext self.old self.new result }
        // A bad length that was answered is answered from then on.
        ensures again { IfSome self.old.fault (λ f. result ≡ Err f) }

        ensures room { IfOk result (λ message. message ≡ None → length self.new.bytes
            < max_message_len) }
    {
        numbers_read();
        if let Some(fault) = length_fault(self.at, &self.held) {
            self.fault = Some(fault);
            return Err(fault);
        }
        let Some(len) = whole_len(&self.held) else {
            return Ok(None);
        };
        match self.held.freeze_to(len) {
            Ok(message) => {
                self.at += len as u64;
                Ok(Some(message))
            }
            Err(_) => Err(FrameFault::Memory),
        }
    }

    /// The fault of the stream if it ends here: that of the bytes after the last whole message.
    /// Takes no memory.
    pub fn end(&self) -> Result<(), FrameFault>
        ensures { result_err result ≡ ends self.now }
    {
        numbers_read();
        let mut rest = self.held.as_slice();
        let mut at = self.at;
        while let Some(len) = whole_len(rest) {
            let (_message, after) = rest.split_at(len);
            rest = after;
            at += len as u64;
        }
        end_of(at, rest)
    }
}
