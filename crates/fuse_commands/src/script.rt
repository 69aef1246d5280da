//! Scripts: an event on each line of a text.
ghost use Rattle.std.specs.Prelude.{◌≡◌, ◌⊎◌, ◌≤◌, ◌<◌, ◌+◌, ◌*◌, ◌^◌, ◌++◌, ◌∷◌, [], ℕ, List};
ghost use Rattle.std.specs.Prelude.{None, IsTrue, ◌↔◌, IfSome, IsSomeAnd, OnOk, IfOk};
ghost use Rattle.std.specs.Prelude.{IfErr, MatchOption};
ghost use Rattle.std.specs.Char.{digit_value};
ghost use Rattle.fuse_sim.specs.declared.event.Event.{Event as EventValue};
ghost use Rattle.fuse_sim.specs.declared.event.Fate.{Fate as FateValue};
ghost use Rattle.fuse_commands.specs.Scripts.{lines_of, word_of, IsDecimal};
ghost use Rattle.fuse_commands.specs.Scripts.{HasParts, IsHexOf, Writes, IsSkipped, WritesAll};
ghost use Rattle.fuse_commands.specs.Scripts.{IsBad, FirstBad};
ghost use Rattle.fuse_commands.specs.inner.Scripts.{parts_in, Lacks, TookLine};

use crate::ending::Ending;
use fuse_request::{has_zero_unique, is_message};
use fuse_sim::{Event, Fate};
use fuse_wire::{ByteList, Moment};
use hex::FromHexError;
use std::alloc::{AllocError, Global};

// Why a line is no event.
#[derive(Clone, Copy, Debug, PartialEq, Eq)]
enum LineFault {
    // It is malformed.
    Form,
    Memory,
}

/// The parts of a text before and after the first such byte.
pub(crate) fn split_at(text: &[u8], byte: u8) -> Option<(&[u8], &[u8])>
    ensures some { IfSome result (λ parts. (text.now ≡ parts.0.now ++ byte ∷ parts.1.now)
        × Lacks byte parts.0.now) }
    ensures none { result ≡ None → Lacks byte text.now }
{
    let place = text.iter().position(|b| *b == byte)?;
    Some((&text[..place], &text[place + 1..]))
}

// The fate that a word names.
fn fate_of(word: &[u8]) -> Option<Fate>
    ensures found { IfSome result (λ fate. word.now ≡ word_of fate) }
    ensures only { (fate : FateValue) → word.now ≡ word_of fate → result ≡ Some fate }
{
    match word {
        b"answered" => Some(Fate::Answered),
        b"lost" => Some(Fate::AnswerLost),
        b"before" => Some(Fate::DiedBeforeCommit),
        b"after" => Some(Fate::DiedAfterCommit),
        _ => None,
    }
}

// The value of a decimal digit.
fn digit_of(b: u8) -> Option<u64>
    ensures found { IfSome result (λ digit. (digit ≡ digit_value b) × (digit < 10)) }
    ensures none { result ≡ None → 10 ≤ digit_value b }
{
    if b.is_ascii_digit() {
        Some((b - b'0') as u64)
    } else {
        None
    }
}

// The number with one more digit, if it fits.
fn with_digit(number: u64, digit: u64) -> Option<u64>
    requires { digit < 10 }
    ensures found { IfSome result (λ more. (more ≡ number * 10 + digit) × (more < 2 ^ 64)) }
    ensures none { result ≡ None → 2 ^ 64 ≤ number * 10 + digit }
{
    number.checked_mul(10)?.checked_add(digit)
}

/// The value of decimal digits, if it fits.
pub(crate) fn number_of(text: &[u8]) -> Option<u64>
    ensures found { IfSome result (λ n. IsDecimal text.now n) }
    ensures only { (n : ℕ) → IsDecimal text.now n → result ≡ Some n }
{
    if text.is_empty() {
        return None;
    }
    let mut number: u64 = 0;
    for b in text {
        number = with_digit(number, digit_of(*b)?)?;
    }
    Some(number)
}

// The fate, the seconds and the text of a line.
fn parts_of(line: &[u8]) -> Option<(Fate, u64, &[u8])>
    ensures found { IfSome result (λ parts. HasParts line.now parts.0 parts.1 parts.2.now) }
    ensures only { (fate : FateValue) (secs : ℕ) (text : List ℕ) → HasParts line.now fate secs text
        → IsSomeAnd result (λ parts. (parts.0 ≡ fate) × (parts.1 ≡ secs) × (parts.2.now ≡ text)) }
{
    let (word, rest) = split_at(line, b' ')?;
    let (digits, text) = split_at(rest, b' ')?;
    Some((fate_of(word)?, number_of(digits)?, text))
}

// The message that a text has in hexadecimal, if it is exactly one and has an id.
fn message_of(alloc: Global, text: &[u8]) -> Result<ByteList, LineFault>
    ensures found { IfOk result (λ m. IsHexOf text.now m) }
    ensures form { IfErr result (λ fault. fault ≡ LineFault.Form
        → (m : List ℕ) → ¬ IsHexOf text.now m) }
{
    let bytes = match hex::decode(alloc, text) {
        Ok(bytes) => bytes,
        Err(FromHexError::OutOfMemory) => return Err(LineFault::Memory),
        Err(_) => return Err(LineFault::Form),
    };
    if !is_message(&bytes) || has_zero_unique(&bytes) {
        return Err(LineFault::Form);
    }
    Ok(ByteList::from_vec(bytes))
}

// The event of a line.
fn event_of(alloc: Global, line: &[u8]) -> Result<Event, LineFault>
    ensures found { IfOk result (λ e. Writes line.now e) }
    ensures form { IfErr result (λ fault. fault ≡ LineFault.Form
        → (e : EventValue) → ¬ Writes line.now e) }
{
    let Some((fate, secs, text)) = parts_of(line) else {
        return Err(LineFault::Form);
    };
    Ok(Event {
        bytes: message_of(alloc, text)?,
        moment: Moment { secs, nanos: 0 },
        fate,
    })
}

// Whether a line is empty or a comment.
fn is_skipped(line: &[u8]) -> bool
    ensures { IsTrue result ↔ IsSkipped line.now }
{
    match line {
        [] => true,
        [first, ..] => *first == b'#',
    }
}

// The event of a line, if it is neither empty nor a comment.
fn read_line(alloc: Global, line: &[u8]) -> Result<Option<Event>, LineFault>
    ensures found { IfOk result (λ event. MatchOption event (IsSkipped line.now)
        (λ e. Writes line.now e)) }
    ensures form { IfErr result (λ fault. fault ≡ LineFault.Form → IsBad line.now) }
{
    if is_skipped(line) {
        return Ok(None);
    }
    Ok(Some(event_of(alloc, line)?))
}

// Reads a line, and appends its event.
fn take_line(alloc: Global, line: &[u8], events: &mut Vec<Event>) -> Result<(), LineFault>
    ensures took { OnOk result (TookLine line.now events.old.items events.new.items) }
    ensures form { IfErr result (λ fault. fault ≡ LineFault.Form → IsBad line.now) }
{
    if let Some(event) = read_line(alloc, line)? {
        events.push(event).map_err(|_| LineFault::Memory)?;
    }
    Ok(())
}

// The lines of a script.
fn split_lines(alloc: Global, script: &[u8]) -> Result<Vec<&[u8]>, AllocError>
    ensures { IfOk result (λ lines. parts_in lines.items ≡ lines_of script.now) }
{
    let mut lines = Vec::new(alloc);
    let mut rest = script;
    while let Some((line, after)) = split_at(rest, b'\n') {
        lines.push(line)?;
        rest = after;
    }
    lines.push(rest)?;
    Ok(lines)
}

/// The events of a script. An `Err` is its first malformed line, or out of memory.
pub(crate) fn read_script(alloc: Global, script: &[u8]) -> Result<Vec<Event>, Ending>
    ensures found { IfOk result (λ events. WritesAll (lines_of script.now) events.items) }
    ensures bad { IfErr result (λ ending. (ending ≡ Ending.Memory)
        ⊎ ((n : ℕ) × (ending ≡ Ending.ScriptLine n) × FirstBad 1 (lines_of script.now) n)) }
{
    let lines = split_lines(alloc, script)?;
    let mut events = Vec::new(alloc);
    for (index, line) in lines.iter().enumerate() {
        match take_line(alloc, line, &mut events) {
            Ok(()) => {}
            Err(LineFault::Form) => {
                return Err(Ending::ScriptLine {
                    line: index as u64 + 1,
                });
            }
            Err(LineFault::Memory) => return Err(Ending::Memory),
        }
    }
    Ok(events)
}
