// Notices, which a server sends unasked.
ghost use Rattle.std.specs.Prelude.{◌≡◌};
ghost use Rattle.fuse_answer.specs.Notice.{resend_bytes};

use crate::records::OutHeader;

/// The code of the notice that asks the kernel to send its pending requests again,
/// `FUSE_NOTIFY_RESEND` of `fuse.h`.
pub const NOTIFY_RESEND: i32 = 7;

/// The notice that asks the kernel to send its pending requests again. Takes no memory.
#[tactic(auto, unfolding(crate::specs::Bodies::header_bytes, crate::specs::Notice::resend_bytes))]
pub fn resend_notice() -> [u8; 16]
    ensures { result ≡ resend_bytes }
{
    let header = OutHeader {
        len: OutHeader::SIZE as u32,
        error: NOTIFY_RESEND,
        unique: 0,
    };
    header.bytes()
}
