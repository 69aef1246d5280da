//! Counts of the messages of a stream.
ghost use Rattle.std.specs.Prelude.{◌≡◌, ◌≢◌, ◌<◌, ◌≤◌, ◌+◌, ◌^◌, [], None, if◌then◌else◌, IfSome};
ghost use Rattle.std.specs.Prelude.{IfErr, OnOk};
ghost use Rattle.std.specs.Io.KnownBytes.{Appends};
ghost use Rattle.fuse_request.specs.Act.{act};
ghost use Rattle.fuse_commands.specs.Endings.{status_of};
ghost use Rattle.fuse_commands.specs.inner.Failing.{GaveOut};
ghost use Rattle.fuse_commands.specs.inner.Messages.{left_in, place_in, WentThrough};
ghost use Rattle.fuse_commands.specs.Output.{line};
ghost use Rattle.fuse_commands.specs.Checking.{is_malformed, is_unsupported, asks_unsupported};
ghost use Rattle.fuse_commands.specs.Checking.{checked, check_line, check_ending, Checked};

use crate::ending::Ending;
use crate::messages::Messages;
use fuse_request::{Op, cut_steps, decode, one_cut};
use std::alloc::Global;
use std::fmt;
use std::io::{Read, Write};

// The number of messages, of malformed ones, and of requests outside the profile.
#[derive(Clone, Copy, Debug, PartialEq, Eq, Drop)]
struct MessageCounts {
    messages: u64,
    malformed: u64,
    unsupported: u64,
}

// Whether an operation is outside the profile.
fn is_outside(op: &Op<'_>) -> bool
    ensures { result ≡ asks_unsupported (act op.now) }
{
    matches!(op, Op::Further { .. })
}

impl MessageCounts {
    const NONE: MessageCounts = MessageCounts {
        messages: 0,
        malformed: 0,
        unsupported: 0,
    };

    // Counts one more message.
    fn count(&mut self, message: &[u8])
        requires messages { self.old.messages < 2 ^ 60 }
        requires malformed { self.old.malformed < 2 ^ 60 }
        requires unsupported { self.old.unsupported < 2 ^ 60 }
        ensures { self.new ≡ record {
          messages = self.old.messages + 1;
          malformed = self.old.malformed + (if is_malformed message.now then 1 else 0);
          unsupported = self.old.unsupported + (if is_unsupported message.now then 1 else 0);
        } }
    {
        self.messages += 1;
        match decode(message) {
            Ok(request) => {
                if is_outside(&request.op) {
                    self.unsupported += 1;
                }
            }
            Err(_) => self.malformed += 1,
        }
    }

    // The ending of a check of a stream without a fault.
    fn ending(self) -> Ending
        ensures { result ≡ check_ending None self.malformed }
    {
        if self.malformed > 0 {
            Ending::Malformed
        } else {
            Ending::Done
        }
    }
}

impl fmt::Display for MessageCounts {
    ghost use Rattle.std.specs.Prelude.{Some};
    ghost use Rattle.fuse_commands.specs.Checking.{check_line};

    ghost output = { λ counts. Some (check_line counts) };

    fn fmt<W: fmt::Write>(&self, f: &mut fmt::Formatter<W>) -> fmt::Result {
        write!(
            f,
            "messages={} malformed={} unsupported={}",
            self.messages, self.malformed, self.unsupported
        )
    }
}

// Counts the remaining messages.
fn count_all<R: Read + Drop>(
    messages: &mut Messages<R>,
    counts: &mut MessageCounts,
) -> Result<(), Ending>
    requires none { counts.old ≡ checked [] }
    requires place { place_in messages.old ≡ 0 }
    ensures { WentThrough (left_in R.remaining messages.old)
        (λ ms. counts.new ≡ checked ms) result }
{
    one_cut();
    cut_steps();
    while let Some(placed) = messages.next()? {
        counts.count(&placed.bytes);
    }
    Ok(())
}

// Prints the counts.
fn write_check<W: Write>(writer: &mut W, counts: MessageCounts) -> Result<(), Ending>
    ensures ok { OnOk result (Appends (W.contents writer.old) (W.contents writer.new)
        (line (check_line counts))) }
    ensures err { IfErr result GaveOut }
{
    writeln!(writer, "{counts}")?;
    writer.flush()?;
    Ok(())
}

/// Counts the messages of the stream, up to the first fault of the stream, and prints the counts.
pub fn run_check<R: Read + Drop, W: Write>(alloc: Global, reader: R, writer: &mut W) -> Ending
    ensures checked { IfSome (R.remaining reader) (λ stream. status_of result ≤ 1
        → Checked (W.contents writer.old) (W.contents writer.new) stream result) }
    ensures usage { status_of result ≢ 2 }
    ensures store { status_of result ≢ 3 }
{
    let mut messages = match Messages::new(alloc, reader) {
        Ok(messages) => messages,
        Err(ending) => return ending,
    };
    let mut counts = MessageCounts::NONE;
    let ending = match count_all(&mut messages, &mut counts) {
        Ok(()) => counts.ending(),
        Err(ending) => ending,
    };
    if !ending.is_of_stream() {
        return ending;
    }
    match write_check(writer, counts) {
        Ok(()) => ending,
        Err(fault) => fault,
    }
}
