//! An input, read piece by piece.
ghost use Rattle.std.specs.Prelude.{◌≡◌, ◌<◌, ◌≤◌, [], false, length, take, IfSome, OnOk, IfOk};
ghost use Rattle.std.specs.Prelude.{IfErr};
ghost use Rattle.std.specs.Io.KnownBytes.{Consumes, IsAtEnd};
ghost use Rattle.fuse_wire.specs.Bounds.{max_message_len};
ghost use Rattle.fuse_commands.specs.inner.Failing.{GaveOut};

use crate::ending::Ending;
use fuse_request::MAX_MESSAGE;
use std::alloc::Global;
use std::io::Read;

/// The bound on reads of an input.
pub(crate) const MAX_READS: u32 = 4_294_967_295;

/// A reader and its last piece.
#[derive(Drop)]
pub(crate) struct PieceReader<R> {
    reader: R,
    buffer: Vec<u8>,
    len: usize,
    reads_left: u32,

    ghost room: { length buffer.items ≡ max_message_len },
    ghost within: { len ≤ max_message_len },
}

// Reads into a buffer and returns the number of bytes.
fn read_into<R: Read>(reader: &mut R, buffer: &mut Vec<u8>) -> Result<usize, Ending>
    requires { 0 < length buffer.old.items }
    ensures room { length buffer.new.items ≡ length buffer.old.items }
    ensures within { IfOk result (λ n. n ≤ length buffer.new.items) }
    ensures came { IfOk result (λ n. Consumes (R.remaining reader.old) (R.remaining reader.new)
        (take n buffer.new.items)) }
    ensures end { IfOk result (λ n. n ≡ 0 → IsAtEnd (R.remaining reader.new)) }
    ensures err { IfErr result GaveOut }
{
    Ok(reader.read(buffer.as_mut_slice())?)
}

impl<R: Read + Drop> PieceReader<R> {
    ghost use Rattle.fuse_commands.specs.inner.Input.{left_to, piece_in};

    /// An `Err` is out of memory.
    pub(crate) fn new(alloc: Global, reader: R) -> Result<PieceReader<R>, Ending>
        ensures ok { IfOk result (λ pieces. left_to R.remaining pieces ≡ R.remaining reader) }
        ensures err { IfErr result (λ ending. ending ≡ Ending.Memory) }
    {
        Ok(PieceReader {
            reader,
            buffer: vec![in alloc; 0; MAX_MESSAGE]?,
            len: 0,
            reads_left: MAX_READS,
        })
    }

    /// Reads the next piece. `false` is the end of the input.
    pub(crate) fn read(&mut self) -> Result<bool, Ending>
        ensures came { OnOk result (Consumes (left_to R.remaining self.old)
            (left_to R.remaining self.new) (piece_in self.new)) }
        ensures end { IfOk result (λ some. some ≡ false → (piece_in self.new ≡ [])
            × IsAtEnd (left_to R.remaining self.new)) }
        ensures less { OnOk result (self.new.reads_left < self.old.reads_left) }
        ensures bound { self.new.reads_left ≤ self.old.reads_left }
        ensures err { IfErr result GaveOut }
    {
        if self.reads_left == 0 {
            return Err(Ending::PortTurns);
        }
        self.reads_left -= 1;
        self.len = read_into(&mut self.reader, &mut self.buffer)?;
        Ok(self.len > 0)
    }

    /// The last piece, at most 135,168 bytes.
    pub(crate) fn piece(&self) -> &[u8]
        ensures piece { result.now ≡ piece_in self.now }
        ensures short { length result.now ≤ max_message_len }
    {
        &self.buffer[..self.len]
    }
}

/// All bytes of a reader. An `Err` is a failed read, the bound on reads, or out of memory.
pub(crate) fn read_all<R: Read + Drop>(alloc: Global, reader: R) -> Result<Vec<u8>, Ending>
    ensures ok { IfOk result (λ input. IfSome (R.remaining reader) (λ known. input.items ≡ known)) }
    ensures err { IfErr result GaveOut }
{
    let mut pieces = PieceReader::new(alloc, reader)?;
    let mut input = Vec::new(alloc);
    while pieces.read()? {
        input.extend_from_slice(pieces.piece())?;
    }
    Ok(input)
}
