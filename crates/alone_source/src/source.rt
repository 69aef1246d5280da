// A source that cuts what another one gives.
use crate::hold::Hold;
use fuse_request::MAX_MESSAGE;
use fuse_session::Source;
use fuse_wire::Id;
use std::alloc::{AllocError, Global};
use std::io;

/// Reads from another source, and hands its bytes on unchanged, but cuts them: a read that gives
/// the end of a request of this id gives the end of no other message. Bytes after a bad length are
/// not cut.
#[derive(Drop)]
pub struct AloneSource<S> {
    inner: S,
    hold: Hold,
}

impl<S: Source> AloneSource<S> {
    ghost use Rattle.std.specs.Prelude.{◌≡◌, IfOk};
    ghost use Rattle.alone_source.specs.Holding.{nothing_held};

    /// The request of this id comes alone; with none, each read is one of the inner source. What it
    /// needs of memory is taken here.
    pub fn new(alloc: Global, inner: S, alone: Option<Id>) -> Result<AloneSource<S>, AllocError>
        ensures inner { IfOk result (λ source. source.inner ≡ inner) }
        ensures hold { IfOk result (λ source. source.hold ≡ nothing_held alone) }
    {
        Ok(AloneSource {
            inner,
            hold: Hold::new(alloc, alone)?,
        })
    }
}

impl<S: Source> Source for AloneSource<S> {
    ghost use Rattle.std.specs.Prelude.{◌≡◌, length};
    ghost use Rattle.std.specs.Io.{ReadsAtMost};
    ghost use Rattle.std.specs.Io.KnownBytes.{ReadConsumes};
    ghost use Rattle.alone_source.specs.Reads.{remaining_of, ReadsAlone};
    ghost use Rattle.alone_source.specs.Consuming.{alone_consumed};

    ghost remaining = { remaining_of S.remaining };

    ghost was_read = { ReadsAlone S.was_read };

    // Where bytes are held it hands them on, and else it reads once.
    fn read_once(&mut self, buffer: &mut [u8]) -> io::Result<usize>
        ensures bound { ReadsAtMost result buffer.new }
        ensures bytes { ReadConsumes (remaining_of S.remaining self.old)
            (remaining_of S.remaining self.new) result buffer.new }
        ensures once { ReadsAlone S.was_read self.old self.new result buffer.new }
        ensures len { length buffer.new ≡ length buffer.old }
    {
        if !self.hold.is_empty() {
            return Ok(self.hold.hand_on(buffer));
        }
        let room = buffer.len().min(MAX_MESSAGE);
        let n = self.inner.read_once(&mut buffer[..room])?;
        if n == 0 {
            return Ok(0);
        }
        self.hold.keep(&buffer[..n]);
        Ok(self.hold.hand_on(buffer))
    }

    ghost consumed = { alone_consumed S.remaining S.was_read S.consumed };
}
