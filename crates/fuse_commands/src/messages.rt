//! The messages of a recorded stream, one after the other.
ghost use Rattle.std.specs.Prelude.{◌≡◌, ◌+◌, ◌*◌, ◌<◌, ◌≤◌, ◌^◌, None, false, IfOk, IfErr, OnOk};
ghost use Rattle.std.specs.Io.KnownBytes.{Keeps, IsAtEnd};
ghost use Rattle.fuse_request.specs.Framing.{fed_of};
ghost use Rattle.fuse_wire.specs.Bounds.{max_message_len};
ghost use Rattle.fuse_commands.specs.declared.input.TheConstants.{MAX_READS as max_reads};
ghost use Rattle.fuse_commands.specs.inner.Failing.{GaveOut};

use crate::ending::Ending;
use crate::input::PieceReader;
use bytes::Bytes;
use fuse_request::{Framer, cut_steps};
use std::alloc::Global;
use std::io::Read;

/// A message and its offset in the stream.
#[derive(Drop)]
pub(crate) struct Placed {
    pub(crate) at: u64,
    pub(crate) bytes: Bytes,
}

/// The messages of a reader. It holds at most one piece and one incomplete message.
#[derive(Drop)]
pub(crate) struct Messages<R> {
    pieces: PieceReader<R>,
    framer: Framer,

    ghost fed: { fed_of framer + max_message_len * pieces.reads_left
        ≤ max_message_len * max_reads },
}

impl<R: Read + Drop> Messages<R> {
    ghost use Rattle.fuse_request.specs.Framing.{HasNone};
    ghost use Rattle.fuse_commands.specs.inner.Input.{left_to};
    ghost use Rattle.fuse_commands.specs.inner.Messages.{left_in, place_in, work_in, EndsSo};
    ghost use Rattle.fuse_commands.specs.inner.Messages.{GivesPlaced};

    /// An `Err` is out of memory.
    pub(crate) fn new(alloc: Global, reader: R) -> Result<Messages<R>, Ending>
        ensures ok { IfOk result (λ messages. (left_in R.remaining messages ≡ R.remaining reader)
            × (place_in messages ≡ 0)) }
        ensures err { IfErr result (λ ending. ending ≡ Ending.Memory) }
    {
        Ok(Messages {
            pieces: PieceReader::new(alloc, reader)?,
            framer: Framer::new(alloc),
        })
    }

    // Reads a piece of the stream. `false` is the end of the stream.
    fn read(&mut self) -> Result<bool, Ending>
        ensures left { OnOk result (Keeps (left_in R.remaining self.old)
            (left_in R.remaining self.new)) }
        ensures place { OnOk result (place_in self.new ≡ place_in self.old) }
        ensures work { OnOk result (work_in self.new < work_in self.old) }
        ensures end { IfOk result (λ some. some ≡ false
            → (self.new.framer.bytes ≡ self.old.framer.bytes)
            × IsAtEnd (left_to R.remaining self.new.pieces)) }
        ensures err { IfErr result GaveOut }
    {
        if !self.pieces.read()? {
            return Ok(false);
        }
        match self.framer.feed(self.pieces.piece()) {
            Ok(()) => Ok(true),
            Err(_) => Err(Ending::Memory),
        }
    }

    // The end of the stream, or its fault if bytes are left.
    fn end(&self) -> Result<Option<Placed>, Ending>
        requires { HasNone self.now.framer.bytes }
        ensures { EndsSo self.now.framer.at self.now.framer.bytes result }
    {
        match self.framer.end() {
            Ok(()) => Ok(None),
            Err(fault) => Err(Ending::of_stream(fault)),
        }
    }

    /// The next message. `None` is the end of the stream, an `Err` its fault or a failed read.
    pub(crate) fn next(&mut self) -> Result<Option<Placed>, Ending>
        ensures next { GivesPlaced (left_in R.remaining self.old) (left_in R.remaining self.new)
            (place_in self.old) (place_in self.new) result }
        ensures few { place_in self.new < 2 ^ 60 }
        ensures less { IfOk result (λ next. (next ≡ None → ⊥)
            → work_in self.new < work_in self.old) }
    {
        cut_steps();
        loop {
            let at = self.framer.fed() - self.framer.held();
            match self.framer.next() {
                Ok(Some(bytes)) => return Ok(Some(Placed { at, bytes })),
                Ok(None) => {}
                Err(fault) => return Err(Ending::of_stream(fault)),
            }
            if !self.read()? {
                return self.end();
            }
        }
    }
}
