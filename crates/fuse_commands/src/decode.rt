//! A line for each answer and notice of a stream that a server sent.
ghost use Rattle.std.specs.Prelude.{◌≡◌, ◌≢◌, ◌≤◌, None, Some, length, if◌then◌else◌, IfSome};
ghost use Rattle.std.specs.Prelude.{IfOk, IfErr, OnOk};
ghost use Rattle.std.specs.Io.KnownBytes.{Appends};
ghost use Rattle.fuse_wire.specs.Bytes.{number_of};
ghost use Rattle.fuse_answer.specs.Sizes.{out_header_size};
ghost use Rattle.fuse_answer.specs.Wire.{negated};
ghost use Rattle.fuse_commands.specs.Endings.{status_of};
ghost use Rattle.fuse_commands.specs.inner.Failing.{GaveOut};
ghost use Rattle.fuse_commands.specs.Output.{line};
ghost use Rattle.fuse_commands.specs.Decoding.{begins_whole, head_in, decode_line, rest_ending};
ghost use Rattle.fuse_commands.specs.Decoding.{Decoded};

use crate::dump::Resend;
use crate::ending::Ending;
use crate::input::read_all;
use fuse_answer::{MAX_BODY, MAX_ERRNO, OutHeader};
use fuse_wire::{Id, u32_at, u64_at};
use std::alloc::Global;
use std::fmt;
use std::io::{Read, Write};

// The length of the longest answer.
const MAX_ANSWER: usize = OutHeader::SIZE + MAX_BODY;

// The header of an answer or a notice, `fuse_out_header` of `fuse.h`. The error is the negation of
// an error number, in the two's complement, or the code of a notice.
#[derive(Clone, Copy)]
struct Head {
    len: u32,
    error: u32,
    unique: u64,
}

impl Head {
    fn errno(self) -> u32
        ensures { result ≡ negated self.error }
    {
        self.error.wrapping_neg()
    }
}

// Why the kernel refuses an answer with this header, if it does.
#[derive(Clone, Copy)]
struct Refusal(Head);

impl fmt::Display for Refusal {
    ghost use Rattle.std.specs.Prelude.{Some};
    ghost use Rattle.fuse_commands.specs.Decoding.{refusal_text};

    ghost output = { λ r. Some (refusal_text r.0) };

    fn fmt<W: fmt::Write>(&self, f: &mut fmt::Formatter<W>) -> fmt::Result {
        let errno = self.0.errno();
        if errno > MAX_ERRNO {
            f.write_str(" malformed=ErrorRange")
        } else if errno > 0 && self.0.len as usize > OutHeader::SIZE {
            f.write_str(" malformed=BodyAfterError")
        } else {
            Ok(())
        }
    }
}

// The line of the answer at an offset.
#[derive(Clone, Copy)]
struct AnswerLine {
    at: u64,
    head: Head,
}

impl fmt::Display for AnswerLine {
    ghost use Rattle.std.specs.Prelude.{Some};
    ghost use Rattle.fuse_commands.specs.Decoding.{answer_line};

    ghost output = { λ l. Some (answer_line l.at l.head) };

    fn fmt<W: fmt::Write>(&self, f: &mut fmt::Formatter<W>) -> fmt::Result {
        write!(
            f,
            "{} id={} resend={} errno={} len={}{}",
            self.at,
            Id::of(self.head.unique).0,
            Resend(self.head.unique),
            self.head.errno(),
            self.head.len,
            Refusal(self.head)
        )
    }
}

// The line of the notice at an offset.
#[derive(Clone, Copy)]
struct NoticeLine {
    at: u64,
    head: Head,
}

impl fmt::Display for NoticeLine {
    ghost use Rattle.std.specs.Prelude.{Some};
    ghost use Rattle.fuse_commands.specs.Decoding.{notice_line};

    ghost output = { λ l. Some (notice_line l.at l.head) };

    fn fmt<W: fmt::Write>(&self, f: &mut fmt::Formatter<W>) -> fmt::Result {
        write!(
            f,
            "{} NOTICE code={} len={}",
            self.at, self.head.error, self.head.len
        )
    }
}

// The header at the beginning of these bytes.
fn head_at(bytes: &[u8]) -> Head
    requires { out_header_size ≤ length bytes.now }
    ensures { result ≡ head_in bytes.now }
{
    Head {
        len: u32_at(bytes, 0),
        error: u32_at(bytes, 4),
        unique: u64_at(bytes, 8),
    }
}

// The length of the first answer or notice, if it is whole.
fn whole_len(bytes: &[u8]) -> Option<usize>
    ensures { result ≡ (if begins_whole bytes.now then Some (number_of 4 bytes.now) else None) }
{
    if bytes.len() < 4 {
        return None;
    }
    let len = u32_at(bytes, 0) as usize;
    if len < OutHeader::SIZE || len > MAX_ANSWER || len > bytes.len() {
        return None;
    }
    Some(len)
}

// How a stream ends whose rest begins with no whole answer.
fn ending_at(at: u64, rest: &[u8]) -> Ending
    ensures is { result ≡ rest_ending at rest.now }
    ensures stream { status_of result ≤ 1 }
{
    if rest.is_empty() {
        return Ending::Done;
    }
    let have = rest.len() as u64;
    if rest.len() < 4 {
        return Ending::Cut { at, have, need: 4 };
    }
    let len = u32_at(rest, 0);
    if (len as usize) < OutHeader::SIZE {
        return Ending::Short { at, len };
    }
    if len as usize > MAX_ANSWER {
        return Ending::TooLong { at, len };
    }
    Ending::Cut {
        at,
        have,
        need: u64::from(len),
    }
}

// Prints the line of an answer or notice.
fn write_line<W: Write>(writer: &mut W, at: u64, bytes: &[u8]) -> Result<(), Ending>
    requires { out_header_size ≤ length bytes.now }
    ensures ok { OnOk result (Appends (W.contents writer.old) (W.contents writer.new)
        (line (decode_line at (head_in bytes.now)))) }
    ensures err { IfErr result GaveOut }
{
    let head = head_at(bytes);
    if head.unique == 0 {
        writeln!(writer, "{}", NoticeLine { at, head })?;
    } else {
        writeln!(writer, "{}", AnswerLine { at, head })?;
    }
    Ok(())
}

// Prints the lines of all answers and notices.
fn print_lines<W: Write>(stream: &[u8], writer: &mut W) -> Result<Ending, Ending>
    ensures ok { IfOk result (Decoded (W.contents writer.old) (W.contents writer.new) stream.now) }
    ensures stream { IfOk result (λ ending. status_of ending ≤ 1) }
    ensures err { IfErr result GaveOut }
{
    let mut rest = stream;
    let mut at = 0;
    while let Some(len) = whole_len(rest) {
        let (sent, others) = rest.split_at(len);
        write_line(writer, at, sent)?;
        at += len as u64;
        rest = others;
    }
    writer.flush()?;
    Ok(ending_at(at, rest))
}

/// Prints a line for each answer and notice of the stream, up to the first fault of the stream.
pub fn run_decode<R: Read + Drop, W: Write>(alloc: Global, reader: R, writer: &mut W) -> Ending
    ensures decoded { IfSome (R.remaining reader) (λ stream. status_of result ≤ 1
        → Decoded (W.contents writer.old) (W.contents writer.new) stream result) }
    ensures usage { status_of result ≢ 2 }
    ensures store { status_of result ≢ 3 }
{
    let stream = match read_all(alloc, reader) {
        Ok(stream) => stream,
        Err(ending) => return ending,
    };
    match print_lines(stream.as_slice(), writer) {
        Ok(ending) => ending,
        Err(ending) => ending,
    }
}
