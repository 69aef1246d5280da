// What a port reads from and writes to.
ghost use Rattle.std.specs.Prelude.{Option, List, Result, ℕ};
ghost use Rattle.std.specs.declared.io.Error.{Error as IoError};
ghost use Rattle.std.specs.Io.{ReadsAtMost, WritesAtMost};
ghost use Rattle.std.specs.Io.KnownBytes.{ReadConsumes, WriteAppends, Keeps};
ghost use Rattle.fuse_session.specs.Source.{GaveRead, TookWrite};
ghost use Rattle.fuse_session.specs.Source.{ReadsOnce, WritesOnce, FlushesOnce};

use std::io;
use std::io::{Read, Write};

/// Where bytes are read from: any reader. By `was_read` a type may distinguish one read from none
/// and from two. That of a reader of std is what std promises of a read; it does not distinguish
/// them where the read failed, or where the bytes to come are not known.
pub trait Source: Drop {
    /// The bytes that reads will give from here on, where they are known.
    ghost remaining: { Self → Option (List ℕ) };

    /// One read with this result made the second of the first, with these bytes in the buffer.
    ghost was_read: { Self → Self → Result ℕ IoError → List ℕ → Type 0 };

    /// Reads once.
    fn read_once(&mut self, buffer: &mut [u8]) -> io::Result<usize>
        ensures bound { ReadsAtMost result buffer.new }
        ensures bytes { ReadConsumes (remaining self.old) (remaining self.new) result buffer.new }
        ensures once { was_read self.old self.new result buffer.new };

    ghost consumed: { ReadsOnce remaining was_read };
}

impl<R: Read + Drop> Source for R {
    ghost remaining = { R.remaining };

    ghost was_read = { GaveRead R.remaining };

    fn read_once(&mut self, buffer: &mut [u8]) -> io::Result<usize> {
        self.read(buffer)
    }

    ghost consumed = { λ a b result buffer once. once };
}

/// Where bytes are written to: any writer. By `was_written` and `was_flushed` a type may distinguish
/// one call from none and from two. Those of a writer of std are what std promises of a write and of
/// a flush; they do not distinguish them where the call failed or is a flush, or where the bytes
/// held are not known.
pub trait Sink: Drop {
    /// The bytes that it holds, where they are known.
    ghost contents: { Self → Option (List ℕ) };

    /// One write of these bytes with this result made the second of the first.
    ghost was_written: { Self → Self → Result ℕ IoError → List ℕ → Type 0 };

    /// One flush with this result made the second of the first.
    ghost was_flushed: { Self → Self → Result (Unit {0}) IoError → Type 0 };

    /// Writes once.
    fn write_once(&mut self, bytes: &[u8]) -> io::Result<usize>
        ensures bound { WritesAtMost result bytes.now }
        ensures bytes { WriteAppends (contents self.old) (contents self.new) result bytes.now }
        ensures once { was_written self.old self.new result bytes.now };

    /// Flushes once.
    fn flush_once(&mut self) -> io::Result<()>
        ensures bytes { Keeps (contents self.old) (contents self.new) }
        ensures once { was_flushed self.old self.new result };

    ghost appended: { WritesOnce contents was_written };

    ghost kept: { FlushesOnce contents was_flushed };
}

impl<W: Write + Drop> Sink for W {
    ghost contents = { W.contents };

    ghost was_written = { TookWrite W.contents };

    ghost was_flushed = { λ a b result. Keeps (W.contents a) (W.contents b) };

    fn write_once(&mut self, bytes: &[u8]) -> io::Result<usize> {
        self.write(bytes)
    }

    fn flush_once(&mut self) -> io::Result<()> {
        self.flush()
    }

    ghost appended = { λ a b result bytes once. once };

    ghost kept = { λ a b result once. once };
}
