// A port over a FUSE device.
ghost use Rattle.std.specs.Prelude.{◌≡◌, ◌≤◌, length};
ghost use Rattle.fuse_session.specs.Device.{os_number, read_refused, write_refused};
ghost use Rattle.fuse_session.specs.Device.{read_told, write_told};

use crate::port::{Port, Received, Sent};
use crate::source::{Sink, Source};
use std::io;

// The request has ended: before it was read, or before it was answered.
const ENOENT: u32 = 2;

// A signal came before a request.
const EINTR: u32 = 4;

// No request waits.
const EAGAIN: u32 = 11;

// The file system is unmounted.
const ENODEV: u32 = 19;

// The error number, where the system refused.
fn number_of(error: io::Error) -> Option<u32>
    ensures { result ≡ os_number error }
{
    match error.raw_os_error() {
        Some(code) if code >= 0 => Some(code.unsigned_abs()),
        _ => None,
    }
}

fn refused_read(number: Option<u32>) -> Received
    ensures { result ≡ read_refused number }
{
    match number {
        Some(ENODEV) => Received::End,
        Some(ENOENT | EINTR | EAGAIN) => Received::Got(0),
        _ => Received::Failed,
    }
}

fn refused_write(number: Option<u32>) -> Sent
    ensures { result ≡ write_refused number }
{
    match number {
        Some(ENOENT) => Sent::Gone,
        _ => Sent::Failed,
    }
}

// The result of a receive, by that of the read.
fn received_by(read: io::Result<usize>) -> Received
    ensures { result ≡ read_told read }
{
    match read {
        Ok(0) => Received::End,
        Ok(n) => Received::Got(n),
        Err(error) => refused_read(number_of(error)),
    }
}

// The result of a send, by that of the write.
fn sent_by(write: io::Result<usize>) -> Sent
    ensures { result ≡ write_told write }
{
    match write {
        Ok(n) => Sent::Took(n),
        Err(error) => refused_write(number_of(error)),
    }
}

/// Receives from a reader and sends to a writer of a FUSE device. A read may bring any bytes, cut
/// anywhere; one write is one whole answer. The error number of a call that the system refuses
/// decides its result. An answer taken whole counts as taken by the kernel.
///
/// It counts the slices that were answered `Gone`, and does not know where they end, since the
/// bytes of a device are unknown.
#[derive(Drop)]
pub struct DevicePort<R, W> {
    reader: R,
    writer: W,
    receives: u64,
    failures: u64,
    receive_failures: u64,
    ends: u64,
    gone: u64,

    ghost ended: { ends ≤ receives },
    ghost fewer: { receive_failures ≤ failures },
}

impl<R: Source, W: Sink> DevicePort<R, W> {
    ghost use Rattle.std.specs.Prelude.{None, true};
    ghost use Rattle.fuse_session.specs.DevicePort.{device_told};
    ghost use Rattle.fuse_session.specs.Port.{fresh};

    /// The two sides of a device: neither may have a buffer. Allocates nothing.
    pub fn new(reader: R, writer: W) -> DevicePort<R, W>
        ensures told { device_told result ≡ fresh None None true }
        ensures reader { result.reader ≡ reader }
        ensures writer { result.writer ≡ writer }
    {
        DevicePort {
            reader,
            writer,
            receives: 0,
            failures: 0,
            receive_failures: 0,
            ends: 0,
            gone: 0,
        }
    }

    /// The writer, with the bytes that were written.
    pub fn into_writer(self) -> W
        ensures { result ≡ self.writer }
    {
        self.writer
    }
}

impl<R: Source, W: Sink> Port for DevicePort<R, W> {
    ghost use Rattle.fuse_session.specs.DevicePort.{device_told, counted_gone};
    ghost use Rattle.fuse_session.specs.Calls.{WasRead, WasWritten};
    ghost use Rattle.fuse_session.specs.Port.{IsYoung, Receives, Sends};
    ghost use Rattle.fuse_request.specs.declared.header.TheConstants.{MAX_MESSAGE as max_message};
    ghost use Rattle.fuse_session.specs.DeviceSteps.{DeviceSteps};
    ghost use Rattle.fuse_session.specs.inner.Stepping.{device_path, device_tells};
    ghost use Rattle.fuse_session.specs.Transcript.{one_receive, one_send};

    ghost told = { device_told };

    ghost became = { DeviceSteps R.was_read W.was_written };

    // One read.
    fn receive(&mut self, buffer: &mut [u8]) -> Received
        requires young { IsYoung (device_told self.old) }
        requires room { max_message ≤ length buffer.old }
        ensures received { Receives (device_told self.old) (device_told self.new)
            result buffer.new }
        ensures same { DeviceSteps R.was_read W.was_written self.old self.new
            (one_receive result buffer.new) }
        // By the result of the read.
        ensures read { WasRead (R.was_read self.old.reader self.new.reader) read_told
            (R.remaining self.old.reader) (R.remaining self.new.reader) result buffer.new }
        ensures writer { self.new.writer ≡ self.old.writer }
    {
        self.receives += 1;
        let received = received_by(self.reader.read_once(buffer));
        match received {
            Received::Got(_) => {}
            Received::End => self.ends += 1,
            Received::Failed => {
                self.failures += 1;
                self.receive_failures += 1;
            }
        }
        received
    }

    // One write.
    fn send(&mut self, bytes: &[u8]) -> Sent
        requires young { IsYoung (device_told self.old) }
        ensures sent { Sends (device_told self.old) (device_told self.new) result bytes.now }
        ensures same { DeviceSteps R.was_read W.was_written self.old self.new
            (one_send bytes.now result) }
        // By the result of the write.
        ensures written { WasWritten (W.was_written self.old.writer self.new.writer)
            (λ write. counted_gone self.old.gone (write_told write))
            (W.contents self.old.writer) (W.contents self.new.writer) result bytes.now }
        ensures reader { self.new.reader ≡ self.old.reader }
    {
        let sent = sent_by(self.writer.write_once(bytes));
        match sent {
            Sent::Took(n) => {
                if n == 0 && !bytes.is_empty() {
                    self.failures += 1;
                }
                sent
            }
            Sent::Gone if self.gone < u64::MAX => {
                self.gone += 1;
                sent
            }
            _ => {
                self.failures += 1;
                Sent::Failed
            }
        }
    }

    fn confirms(&self) -> bool {
        true
    }

    fn tally(&self) -> (u64, u64) {
        (self.receives, self.failures)
    }

    ghost path = { device_path R.was_read W.was_written };

    ghost tells = { device_tells R.was_read W.was_written };
}
