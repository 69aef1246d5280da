ghost use Rattle.std.specs.Prelude.{◌≡◌, ◌≤◌, Ok, Some, length};
ghost use Rattle.guest_frames.specs.Heads.{guest_head_in};

use crate::fault::GuestFault;
use crate::guest_kind::GuestKind;
use crate::limits::MAX_FRAME;
use fuse_wire::{numbers_read, u32_at};

/// What the first 8 bytes of a guest's frame say.
#[derive(Clone, Copy, Debug, PartialEq, Eq)]
pub struct GuestHead {
    /// Of the whole frame, these 8 bytes included.
    pub len: u32,
    pub kind: GuestKind,
}

// The head of the frame that begins with these bytes.
fn head_at(bytes: &[u8]) -> Result<Option<GuestHead>, GuestFault>
    ensures { result ≡ guest_head_in bytes.now }
{
    if bytes.len() < 4 {
        return Ok(None);
    }
    let len = u32_at(bytes, 0);
    if len < GuestHead::SIZE as u32 || len > MAX_FRAME {
        return Err(GuestFault::Length(len));
    }
    if bytes.len() < GuestHead::SIZE {
        return Ok(None);
    }
    let number = u32_at(bytes, 4);
    match GuestKind::of(number) {
        Some(kind) => Ok(Some(GuestHead { len, kind })),
        None => Err(GuestFault::NotDue(number)),
    }
}

impl GuestHead {
    ghost use Rattle.guest_frames.specs.Frames.{Frame, IsFrame, frame_kind, frame_len};
    ghost use Rattle.guest_frames.specs.Heads.{BeginsFrame};
    ghost use Rattle.guest_frames.specs.Kinds.{kind_number};
    ghost use Rattle.guest_frames.specs.declared.guest_kind.GuestKind.{GuestKind as Kind};

    /// How many bytes a head has.
    pub const SIZE: usize = 8;

    /// The head of the frame that begins with these bytes, or its fault. `None` while there are
    /// fewer than 8, and the first 4 are no wrong length.
    pub fn read(bytes: &[u8]) -> Result<Option<GuestHead>, GuestFault>
        ensures exact { result ≡ guest_head_in bytes.now }
        // Wherever the stream is cut, a right frame is known by its first 8 bytes.
        ensures cut { (f : Frame) (kind : Kind) → IsFrame f → frame_kind f ≡ kind_number kind
            → BeginsFrame f bytes.now → GuestHead.SIZE ≤ length bytes.now
            → result ≡ Ok (Some (record { len = frame_len f; kind = kind })) }
    {
        numbers_read();
        head_at(bytes)
    }
}
