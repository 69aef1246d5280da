// A port over a reader and a writer.
ghost use Rattle.std.specs.Prelude.{◌≡◌, ◌≤◌, length};

use crate::port::{Port, Received, Sent};
use crate::source::{Sink, Source};

/// Receives from a reader and sends to a writer. It never answers `Gone`.
#[derive(Drop)]
pub struct StreamPort<R, W> {
    reader: R,
    writer: W,
    receives: u64,
    failures: u64,
    receive_failures: u64,
    ends: u64,
    confirms: bool,

    ghost ended: { ends ≤ receives },
    ghost fewer: { receive_failures ≤ failures },
}

impl<R: Source, W: Sink> StreamPort<R, W> {
    ghost use Rattle.fuse_session.specs.Stream.{stream_told};
    ghost use Rattle.fuse_session.specs.Port.{fresh};

    /// `confirms`: whether an answer taken whole counts as taken by the kernel.
    pub fn new(reader: R, writer: W, confirms: bool) -> StreamPort<R, W>
        ensures { stream_told R.remaining W.contents result ≡ fresh (R.remaining reader)
            (W.contents writer) confirms }
    {
        StreamPort {
            reader,
            writer,
            receives: 0,
            failures: 0,
            receive_failures: 0,
            ends: 0,
            confirms,
        }
    }

    /// The writer, with the bytes that were sent.
    pub fn into_writer(self) -> W
        ensures { (stream_told R.remaining W.contents self).sent ≡ W.contents result }
    {
        self.writer
    }
}

impl<R: Source, W: Sink> Port for StreamPort<R, W> {
    ghost use Rattle.fuse_session.specs.Stream.{stream_told};
    ghost use Rattle.fuse_session.specs.StreamSteps.{StreamSteps, sides};
    ghost use Rattle.fuse_session.specs.inner.Stepping.{stream_path, stream_tells};
    ghost use Rattle.fuse_session.specs.Transcript.{one_receive, one_send};
    ghost use Rattle.fuse_session.specs.Calls.{WasRead, WasSent, stream_read};
    ghost use Rattle.fuse_session.specs.Port.{IsYoung, Receives, Sends};
    ghost use Rattle.fuse_request.specs.declared.header.TheConstants.{MAX_MESSAGE as max_message};

    ghost told = { stream_told R.remaining W.contents };

    ghost became = { StreamSteps
        (sides R.remaining W.contents R.was_read W.was_written W.was_flushed) };

    // One read.
    fn receive(&mut self, buffer: &mut [u8]) -> Received
        requires young { IsYoung (stream_told R.remaining W.contents self.old) }
        requires room { max_message ≤ length buffer.old }
        ensures received { Receives (stream_told R.remaining W.contents self.old)
            (stream_told R.remaining W.contents self.new) result buffer.new }
        ensures same { StreamSteps (sides R.remaining W.contents R.was_read W.was_written
            W.was_flushed) self.old self.new (one_receive result buffer.new) }
        // By the result of the read.
        ensures read { WasRead (R.was_read self.old.reader self.new.reader) stream_read
            (R.remaining self.old.reader) (R.remaining self.new.reader) result buffer.new }
        ensures writer { self.new.writer ≡ self.old.writer }
    {
        self.receives += 1;
        match self.reader.read_once(buffer) {
            Ok(0) => {
                self.ends += 1;
                Received::End
            }
            Ok(n) => Received::Got(n),
            Err(_) => {
                self.failures += 1;
                self.receive_failures += 1;
                Received::Failed
            }
        }
    }

    // One write and one flush. Bytes written before a flush that failed count as sent.
    fn send(&mut self, bytes: &[u8]) -> Sent
        requires young { IsYoung (stream_told R.remaining W.contents self.old) }
        ensures sent { Sends (stream_told R.remaining W.contents self.old)
            (stream_told R.remaining W.contents self.new) result bytes.now }
        ensures same { StreamSteps (sides R.remaining W.contents R.was_read W.was_written
            W.was_flushed) self.old self.new (one_send bytes.now result) }
        // By the results of both.
        ensures written { WasSent W.was_written W.was_flushed self.old.writer self.new.writer
            result bytes.now }
        ensures reader { self.new.reader ≡ self.old.reader }
    {
        let Ok(n) = self.writer.write_once(bytes) else {
            self.failures += 1;
            return Sent::Failed;
        };
        if self.writer.flush_once().is_err() {
            self.failures += 1;
            return Sent::Failed;
        }
        if n == 0 && !bytes.is_empty() {
            self.failures += 1;
        }
        Sent::Took(n)
    }

    fn confirms(&self) -> bool {
        self.confirms
    }

    fn tally(&self) -> (u64, u64) {
        (self.receives, self.failures)
    }

    ghost path = { stream_path
        (sides R.remaining W.contents R.was_read W.was_written W.was_flushed) };

    ghost tells = { stream_tells
        (sides R.remaining W.contents R.was_read W.was_written W.was_flushed) };
}
