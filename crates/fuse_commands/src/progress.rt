//! Progress of reading a long stream, shown on a terminal.
ghost use Rattle.std.specs.Prelude.{◌≡◌, IfOk};
ghost use Rattle.std.specs.Io.{ReadsAtMost};
ghost use Rattle.std.specs.Io.KnownBytes.{ReadConsumes};
ghost use Rattle.fuse_commands.specs.Output.{mebibytes};
ghost use Rattle.fuse_commands.specs.Input.{reader_in, remaining_in, progress_line_of, read_more};

use fuse_session::Source;
use std::fmt;
use std::io::{self, Eprint, Read};
use std::rt::Clock;

/// The progress line: the bytes read and, if known, the total, in MiB of 2^20 bytes, rounded down.
#[derive(Clone, Copy, Debug, PartialEq, Eq, Drop)]
pub struct ProgressLine {
    /// The number of bytes read.
    pub read: u64,
    /// The size of the input.
    pub total: Option<u64>,
}

// Whole MiB.
fn mebibytes(bytes: u64) -> u64
    ensures { result ≡ mebibytes bytes }
{
    bytes / 1_048_576
}

impl fmt::Display for ProgressLine {
    ghost use Rattle.std.specs.Prelude.{Some};
    ghost use Rattle.fuse_commands.specs.Output.{progress_line};

    ghost output = { λ line. Some (progress_line line.read line.total) };

    fn fmt<W: fmt::Write>(&self, f: &mut fmt::Formatter<W>) -> fmt::Result {
        match self.total {
            Some(total) => write!(
                f,
                "read {} of {} MiB",
                mebibytes(self.read),
                mebibytes(total)
            ),
            None => write!(f, "read {} MiB", mebibytes(self.read)),
        }
    }
}

/// A reader that passes on the bytes of another reader and shows the progress line on a terminal,
/// once in a second. Each line overwrites the one before. The last one is cleared at the end of the
/// input, and when the reader is dropped.
pub struct ProgressReader<R, T: Clock + Eprint> {
    reader: R,
    terminal: T,
    line: ProgressLine,
    second: u64,
    is_shown: bool,
}

impl<R: Source, T: Clock + Eprint> ProgressReader<R, T> {
    /// Nothing is shown before the clock's next second begins. `total` is the size of the input,
    /// if known.
    pub fn new(reader: R, terminal: T, total: Option<u64>) -> ProgressReader<R, T>
        ensures reader { remaining_in R.remaining result ≡ R.remaining reader }
        ensures line { progress_line_of result ≡ record { read = 0; total = total } }
    {
        let second = second_of(&terminal);
        ProgressReader {
            reader,
            terminal,
            line: ProgressLine { read: 0, total },
            second,
            is_shown: false,
        }
    }

    // Shows the line, if a second began since it was last shown.
    fn show(&mut self)
        ensures reader { self.new.reader ≡ self.old.reader }
        ensures line { self.new.line ≡ self.old.line }
    {
        let second = second_of(&self.terminal);
        if second == self.second {
            return;
        }
        self.second = second;
        self.is_shown = true;
        let _ = self.terminal.eprint(self.line);
        let _ = self.terminal.eprint('\r');
    }

    // Clears the line, if one is shown.
    fn clear(&mut self)
        ensures reader { self.new.reader ≡ self.old.reader }
        ensures line { self.new.line ≡ self.old.line }
    {
        if self.is_shown {
            self.is_shown = false;
            clear_line(&self.terminal);
        }
    }
}

// Clears the line of the cursor from the cursor on.
fn clear_line<T: Eprint>(terminal: &T) {
    let _ = terminal.eprint("\x1b[K");
}

// The second of the monotonic clock, or 0 if it can't be read.
fn second_of<C: Clock>(clock: &C) -> u64 {
    match clock.monotonic() {
        Ok(time) => time.as_secs(),
        Err(_) => 0,
    }
}

impl<R: Source, T: Clock + Eprint> Read for ProgressReader<R, T> {
    ghost remaining = { remaining_in R.remaining };

    fn read(&mut self, buf: &mut [u8]) -> io::Result<usize>
        ensures bound { ReadsAtMost result buf.new }
        ensures bytes { ReadConsumes (remaining_in R.remaining self.old)
            (remaining_in R.remaining self.new) result buf.new }
        // The inner reader was read once, and its result and bytes are passed on.
        ensures once { R.was_read (reader_in self.old) (reader_in self.new) result buf.new }
        // The line counts the bytes.
        ensures line { IfOk result
            (λ n. progress_line_of self.new ≡ read_more (progress_line_of self.old) n) }
    {
        let count = match self.reader.read_once(buf) {
            Ok(count) => count,
            Err(error) => return Err(error),
        };
        self.line.read = self.line.read.saturating_add(count as u64);
        if count == 0 {
            self.clear();
        } else {
            self.show();
        }
        Ok(count)
    }
}

impl<R: Drop, T: Clock + Eprint + Drop> Drop for ProgressReader<R, T> {
    fn drop(self) {
        let Self {
            reader: _reader,
            terminal,
            line: _,
            second: _,
            is_shown,
        } = self;
        if is_shown {
            clear_line(&terminal);
        }
    }
}
