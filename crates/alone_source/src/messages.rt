// Messages in bytes that wait.
ghost use Rattle.std.specs.Prelude.{◌≡◌, ◌≤◌, ◌-◌, None, Some, length, take, drop};
ghost use Rattle.std.specs.Prelude.{if◌then◌else◌};
ghost use Rattle.fuse_wire.specs.Bytes.{number_of};
ghost use Rattle.fuse_wire.specs.Bounds.{min_message_len};
ghost use Rattle.fuse_request.specs.Stream.{cut, is_whole};
ghost use Rattle.alone_source.specs.Holding.{is_bad};
ghost use Rattle.alone_source.specs.Turns as turns;
ghost use Rattle.alone_source.specs.Turns.{turn_of};
ghost use Rattle.alone_source.specs.inner.Places.{bytes_before};

use fuse_request::{MAX_MESSAGE, MIN_MESSAGE, cut_steps, one_cut, unique_of};
use fuse_wire::{Id, numbers_read, u32_at};

// The length of the first message, where it is whole.
fn whole_len(bytes: &[u8]) -> Option<usize>
    ensures { result ≡ (if is_whole bytes.now then Some (number_of 4 bytes.now) else None) }
{
    if bytes.len() < 4 {
        return None;
    }
    let len = u32_at(bytes, 0) as usize;
    if len < MIN_MESSAGE || len > MAX_MESSAGE || len > bytes.len() {
        return None;
    }
    Some(len)
}

/// Whether the first message has a length that none has.
pub(crate) fn has_bad_length(bytes: &[u8]) -> bool
    ensures { result ≡ is_bad bytes.now }
{
    if bytes.len() < 4 {
        return false;
    }
    let len = u32_at(bytes, 0) as usize;
    len < MIN_MESSAGE || len > MAX_MESSAGE
}

// Whether a message has the id.
fn is_alone(id: Option<Id>, message: &[u8]) -> bool
    requires { min_message_len ≤ length message.now }
    ensures { result ≡ turns.is_alone id message.now }
{
    match id {
        Some(id) => Id::of(unique_of(message)) == id,
        None => false,
    }
}

// How many bytes come before the first message that has the id; all, where none has.
fn len_before(id: Option<Id>, bytes: &[u8]) -> usize
    ensures { result ≡ length (bytes_before id bytes.now) }
{
    numbers_read();
    cut_steps();
    let mut rest = bytes;
    let mut at = 0;
    while let Some(len) = whole_len(rest) {
        let (message, after) = rest.split_at(len);
        if is_alone(id, message) {
            return at;
        }
        rest = after;
        at += len;
    }
    bytes.len()
}

/// How many of the first of these bytes are handed on together.
pub(crate) fn turn_len(id: Option<Id>, bytes: &[u8]) -> usize
    ensures len { result ≡ length (turn_of id bytes.now) }
    ensures within { result ≤ length bytes.now }
    ensures first { take result bytes.now ≡ turn_of id bytes.now }
{
    numbers_read();
    cut_steps();
    one_cut();
    if let Some(len) = whole_len(bytes) {
        if is_alone(id, &bytes[..len]) {
            return len;
        }
    }
    len_before(id, bytes)
}

/// Where the bytes after the last whole message begin.
pub(crate) fn rest_at(bytes: &[u8]) -> usize
    ensures within { result ≤ length bytes.now }
    ensures rest { drop result bytes.now ≡ (cut bytes.now).1 }
{
    numbers_read();
    cut_steps();
    let mut rest = bytes;
    let mut at = 0;
    while let Some(len) = whole_len(rest) {
        let (_message, after) = rest.split_at(len);
        rest = after;
        at += len;
    }
    at
}
