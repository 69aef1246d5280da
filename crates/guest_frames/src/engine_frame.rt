ghost use Rattle.std.specs.Prelude.{◌≡◌, ◌↔◌, ◌++◌, Err, OnOk, OnErr};
ghost use Rattle.guest_frames.specs.Encoding.{engine_content};
ghost use Rattle.guest_frames.specs.Frames.{IsFrame, IsLimited, frame_bytes};

use crate::encoding::put_frame;
use crate::hello::Hello;
use crate::measuring::frame_len;

/// A request that a guest is asked.
#[derive(Clone, Copy, Debug)]
pub struct Request<'a> {
    /// Its moment: seconds since 1970, and nanoseconds.
    pub secs: i64,
    pub nanos: u32,
    /// How often a guest was asked it and ended before its ANSWER.
    pub count: u32,
    /// The message of the kernel, its header first.
    pub message: &'a [u8],
}

/// A pair of PAIRS.
#[derive(Clone, Copy, Debug)]
pub struct Pair<'a> {
    pub key: &'a [u8],
    pub value: &'a [u8],
}

/// A frame of the engine.
#[derive(Clone, Copy, Debug)]
pub enum EngineFrame<'a> {
    Hello(Hello),
    Request(Request<'a>),
    /// The values of the first keys of a GET, `None` where there is no such pair.
    Values(&'a [Option<&'a [u8]>]),
    /// Pairs of a SCAN, and whether there are more. With none there are no more.
    Pairs { pairs: &'a [Pair<'a>], more: bool },
}

/// Why a frame wasn't encoded.
#[derive(Clone, Copy, Debug, PartialEq, Eq)]
pub enum EncodingFault {
    /// A part of it is too long, a key is empty, the whole is too long, a message has no header,
    /// VALUES has none or too many, or there are more pairs and PAIRS has none.
    BeyondLimits,
    /// A growth was refused.
    Memory,
}

impl<'a> EngineFrame<'a> {
    /// Appends the bytes of the frame. An `Err` leaves `out` unchanged.
    pub fn encode(&self, out: &mut Vec<u8>) -> Result<(), EncodingFault>
        ensures ok { OnOk result (out.new.items ≡ out.old.items
            ++ frame_bytes (engine_content self.now)) }
        // No other frame has these bytes: see `frames_stand`.
        ensures frame { OnOk result (IsFrame (engine_content self.now)) }
        ensures beyond { (result ≡ Err EncodingFault.BeyondLimits)
            ↔ (IsLimited (engine_content self.now) → ⊥) }
        ensures err { OnErr result (out.new.items ≡ out.old.items) }
    {
        let Some(len) = frame_len(self) else {
            return Err(EncodingFault::BeyondLimits);
        };
        let start = out.len();
        if let Err(_memory) = put_frame(out, len, self) {
            out.truncate(start);
            return Err(EncodingFault::Memory);
        }
        Ok(())
    }
}
