// The frames of the engine, as they are written.
ghost use Rattle.std.specs.Prelude.{◌≡◌, IfErr, IfOk};
ghost use Rattle.guest_frames.specs.Encoding.{engine_content};
ghost use Rattle.guest_frames.specs.Frames.{frame_kind};
ghost use Rattle.guest_talk.specs.inner.Writes.{IsWritten, IsNotWritten};

use fuse_keeper::StoreFault;
use guest_frames::{EncodingFault, EngineFrame};
use std::alloc::Global;

/// A frame of the engine: its kind, and all of its bytes.
#[derive(Drop)]
pub(crate) struct Outgoing {
    pub(crate) kind: u32,
    pub(crate) bytes: Vec<u8>,
}

fn kind_of(frame: &EngineFrame<'_>) -> u32
    ensures { result ≡ frame_kind (engine_content frame.now) }
{
    match *frame {
        EngineFrame::Hello(_) => 1,
        EngineFrame::Request(_) => 3,
        EngineFrame::Values(_) => 5,
        EngineFrame::Pairs { .. } => 7,
    }
}

/// The bytes of a frame. `Damaged` is a frame beyond the limits, which no right pairs give.
pub(crate) fn encoded(alloc: Global, frame: &EngineFrame<'_>) -> Result<Outgoing, StoreFault>
    ensures ok { IfOk result (IsWritten (engine_content frame.now)) }
    ensures err { IfErr result (IsNotWritten (engine_content frame.now)) }
{
    let mut bytes = Vec::new(alloc);
    match frame.encode(&mut bytes) {
        Ok(()) => Ok(Outgoing {
            kind: kind_of(frame),
            bytes,
        }),
        Err(EncodingFault::BeyondLimits) => Err(StoreFault::Damaged),
        Err(EncodingFault::Memory) => Err(StoreFault::Memory),
    }
}
