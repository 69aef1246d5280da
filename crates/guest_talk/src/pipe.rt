// Reading and writing the pipes of a guest.
ghost use Rattle.std.specs.Prelude.{IfErr, OnOk};
ghost use Rattle.std.specs.Io.KnownBytes.{Appends, Consumes};
ghost use Rattle.fuse_wire.specs.Bytes.{IsBytes};
ghost use Rattle.guest_talk.specs.inner.Pipes.{IsPipeFault};

use fuse_guest::TalkFault;
use std::io;
use std::io::{ErrorKind, Read, Write};

// What a read or a write that failed says of the guest.
fn fault_of(error: io::Error) -> TalkFault
    ensures { IsPipeFault result }
{
    match error.kind() {
        ErrorKind::WouldBlock | ErrorKind::TimedOut => TalkFault::Hangs,
        _ => TalkFault::Ended,
    }
}

/// Fills a buffer, in as many reads as it takes.
pub(crate) fn read_bytes<R: Read>(source: &mut R, bytes: &mut [u8]) -> Result<(), TalkFault>
    ensures ok { OnOk result (Consumes (R.remaining source.old) (R.remaining source.new)
        bytes.new) }
    ensures err { IfErr result IsPipeFault }
    ensures fits { IsBytes bytes.new }
{
    match source.read_exact(bytes) {
        Ok(()) => Ok(()),
        Err(error) => Err(fault_of(error)),
    }
}

/// Writes all bytes, and flushes.
pub(crate) fn write_bytes<W: Write>(sink: &mut W, bytes: &[u8]) -> Result<(), TalkFault>
    ensures ok { OnOk result (Appends (W.contents sink.old) (W.contents sink.new) bytes.now) }
    ensures err { IfErr result IsPipeFault }
{
    if let Err(error) = sink.write_all(bytes) {
        return Err(fault_of(error));
    }
    match sink.flush() {
        Ok(()) => Ok(()),
        Err(error) => Err(fault_of(error)),
    }
}
