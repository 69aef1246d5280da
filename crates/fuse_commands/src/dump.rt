//! A line for each message of a stream.
ghost use Rattle.std.specs.Prelude.{◌≡◌, ◌≢◌, ◌≤◌, IfSome, IfErr, OnOk};
ghost use Rattle.std.specs.Io.KnownBytes.{Appends};
ghost use Rattle.fuse_request.specs.Stream.{IsMessage};
ghost use Rattle.fuse_request.specs.Header.{raw_of};
ghost use Rattle.fuse_request.specs.Faults.{first_fault};
ghost use Rattle.fuse_commands.specs.Endings.{status_of};
ghost use Rattle.fuse_commands.specs.inner.Failing.{GaveOut};
ghost use Rattle.fuse_commands.specs.inner.Messages.{left_in, place_in, WentThrough};
ghost use Rattle.fuse_commands.specs.Output.{line};
ghost use Rattle.fuse_commands.specs.Dumping.{fault_text, dump_line, dump_lines, Dumped};

use crate::ending::Ending;
use crate::messages::{Messages, Placed};
use fuse_request::opcode::name_of;
use fuse_request::{Malformed, RawHeader, cut_steps, decode, header_of, one_cut};
use fuse_wire::{Id, is_resend};
use std::alloc::Global;
use std::fmt;
use std::io::{Read, Write};

// An opcode, printed as its name in `fuse.h`, or as its number if it is outside the profile.
#[derive(Clone, Copy)]
struct Opcode(u32);

impl fmt::Display for Opcode {
    ghost use Rattle.std.specs.Prelude.{Some};
    ghost use Rattle.fuse_commands.specs.Dumping.{opcode_text};

    ghost output = { λ opcode. Some (opcode_text opcode.0) };

    fn fmt<W: fmt::Write>(&self, f: &mut fmt::Formatter<W>) -> fmt::Result {
        match name_of(self.0) {
            Some(name) => f.write_str(name),
            None => write!(f, "OP({})", self.0),
        }
    }
}

// The fault of a message, if it has one.
#[derive(Clone, Copy)]
struct Flaw(Option<Malformed>);

fn fault_name(fault: Malformed) -> &'static str
    ensures { result.now ≡ fault_text fault }
{
    match fault {
        Malformed::HeaderShort => "HeaderShort",
        Malformed::LenDiffers => "LenDiffers",
        Malformed::ExtTooLong => "ExtTooLong",
        Malformed::BodyLength => "BodyLength",
        Malformed::NoNul => "NoNul",
        Malformed::AfterNul => "AfterNul",
        Malformed::CountDiffers => "CountDiffers",
    }
}

impl fmt::Display for Flaw {
    ghost use Rattle.std.specs.Prelude.{Some};
    ghost use Rattle.fuse_commands.specs.Dumping.{flaw_text};

    ghost output = { λ flaw. Some (flaw_text flaw.0) };

    fn fmt<W: fmt::Write>(&self, f: &mut fmt::Formatter<W>) -> fmt::Result {
        match self.0 {
            Some(fault) => write!(f, " malformed={}", fault_name(fault)),
            None => Ok(()),
        }
    }
}

// The resend bit of a message.
#[derive(Clone, Copy)]
pub(crate) struct Resend(pub(crate) u64);

impl fmt::Display for Resend {
    ghost use Rattle.std.specs.Prelude.{Some};
    ghost use Rattle.fuse_commands.specs.Dumping.{resend_text};

    ghost output = { λ resend. Some (resend_text resend.0) };

    fn fmt<W: fmt::Write>(&self, f: &mut fmt::Formatter<W>) -> fmt::Result {
        f.write_str(if is_resend(self.0) { "1" } else { "0" })
    }
}

// The line of the message at an offset.
#[derive(Clone, Copy)]
struct DumpLine {
    at: u64,
    header: RawHeader,
    fault: Option<Malformed>,
}

impl fmt::Display for DumpLine {
    ghost use Rattle.std.specs.Prelude.{Some};
    ghost use Rattle.fuse_commands.specs.Dumping.{dump_line};

    ghost output = { λ l. Some (dump_line l.at l.header l.fault) };

    fn fmt<W: fmt::Write>(&self, f: &mut fmt::Formatter<W>) -> fmt::Result {
        write!(
            f,
            "{} {} id={} resend={} node={} len={}{}",
            self.at,
            Opcode(self.header.opcode),
            Id::of(self.header.unique).0,
            Resend(self.header.unique),
            self.header.nodeid,
            self.header.len,
            Flaw(self.fault)
        )
    }
}

// The header of a message.
fn header_in(message: &[u8]) -> RawHeader
    requires { IsMessage message.now }
    ensures { result ≡ raw_of message.now }
{
    match header_of(message) {
        Some(header) => header,
        None => unreachable!(),
    }
}

// Prints the line of a message.
fn write_line<W: Write>(writer: &mut W, placed: &Placed) -> Result<(), Ending>
    requires { IsMessage placed.now.bytes }
    ensures ok { OnOk result (Appends (W.contents writer.old) (W.contents writer.new)
        (line (dump_line placed.now.at (raw_of placed.now.bytes) (first_fault placed.now.bytes)))) }
    ensures err { IfErr result GaveOut }
{
    let text = DumpLine {
        at: placed.at,
        header: header_in(&placed.bytes),
        fault: decode(&placed.bytes).err(),
    };
    writeln!(writer, "{text}")?;
    Ok(())
}

// Prints the lines of all messages.
fn write_lines<R: Read + Drop, W: Write>(
    messages: &mut Messages<R>,
    writer: &mut W,
) -> Result<(), Ending>
    requires { place_in messages.old ≡ 0 }
    ensures { WentThrough (left_in R.remaining messages.old) (λ ms.
        Appends (W.contents writer.old) (W.contents writer.new) (dump_lines 0 ms)) result }
{
    one_cut();
    cut_steps();
    while let Some(placed) = messages.next()? {
        write_line(writer, &placed)?;
    }
    Ok(())
}

/// Prints a line for each message of the stream, up to the first fault of the stream.
pub fn run_dump<R: Read + Drop, W: Write>(alloc: Global, reader: R, writer: &mut W) -> Ending
    ensures dumped { IfSome (R.remaining reader) (λ stream. status_of result ≤ 1
        → Dumped (W.contents writer.old) (W.contents writer.new) stream result) }
    ensures usage { status_of result ≢ 2 }
    ensures store { status_of result ≢ 3 }
{
    let mut messages = match Messages::new(alloc, reader) {
        Ok(messages) => messages,
        Err(ending) => return ending,
    };
    let ending = match write_lines(&mut messages, writer) {
        Ok(()) => Ending::Done,
        Err(ending) => ending,
    };
    match writer.flush() {
        Ok(()) => ending,
        Err(_) => Ending::PortFailed,
    }
}
