// What INIT agrees on for a guest.
ghost use Rattle.std.specs.Prelude.{◌≡◌};
ghost use Rattle.fuse_guest.specs.Agreement as agreement;
ghost use Rattle.fuse_init.specs.Agree as agree;

use bitflags::Flags;
use fuse_answer::InitOut;
use fuse_init::{
    CONGESTION_THRESHOLD, MAJOR, MAX_BACKGROUND, MAX_WRITE, MIN_MINOR, MINOR, Negotiated, Settings,
    TIME_GRAN,
};
use fuse_request::InitIn;
use fuse_wire::{Errno, InitFlags};
use guest_frames::Ready;

// Bits 0, 3 to 6, 12 to 20, 23, 24, 28, 30, 38 and 39.
const ALLOWED: u64 = 0xc0_519f_f079;

// INIT_EXT and HAS_RESEND.
const ALWAYS: u64 = 0x80_4000_0000;

const INIT_EXT: u32 = 1 << 30;

// The flags that the kernel offers.
fn offer(flags: u32, flags2: Option<u32>) -> u64
    ensures { result ≡ agree.offered flags flags2 }
{
    match flags2 {
        Some(high) if flags & INIT_EXT == INIT_EXT => {
            u64::from(flags) | (u64::from(high) * (1 << 32))
        }
        _ => u64::from(flags),
    }
}

// A number of READY, where it isn't 0, but at most the engine's own.
fn at_most_own(own: u32, wanted: u32) -> u32
    ensures { result ≡ agreement.at_most_own own wanted }
{
    if wanted == 0 { own } else { wanted.min(own) }
}

fn again() -> InitOut
    ensures { result ≡ agree.again }
{
    InitOut {
        major: MAJOR,
        minor: MINOR,
        max_readahead: 0,
        flags: 0,
        max_background: 0,
        congestion_threshold: 0,
        max_write: 0,
        time_gran: 0,
        max_pages: 0,
        map_alignment: 0,
        flags2: 0,
        max_stack_depth: 0,
    }
}

/// The outcome of an INIT that offers this, for a guest of this READY. Takes no memory.
pub fn negotiate_for(ready: &Ready, init: &InitIn) -> Negotiated
    ensures { result ≡ agreement.agree_for ready.now init.now }
{
    if init.major < MAJOR || (init.major == MAJOR && init.minor < MIN_MINOR) {
        return Negotiated::Refused(Errno::EPROTO);
    }
    if init.major > MAJOR {
        return Negotiated::Again { out: again() };
    }
    let flags = offer(init.flags, init.flags2) & (ready.wanted | ALWAYS) & ALLOWED;
    let max_readahead = at_most_own(init.max_readahead, ready.max_readahead);
    Negotiated::Agreed {
        out: InitOut {
            max_readahead,
            flags: (flags % (1 << 32)) as u32,
            flags2: (flags / (1 << 32)) as u32,
            max_background: MAX_BACKGROUND,
            congestion_threshold: CONGESTION_THRESHOLD,
            max_write: at_most_own(MAX_WRITE, ready.max_write),
            time_gran: TIME_GRAN,
            ..again()
        },
        settings: Settings {
            minor: init.minor.min(MINOR),
            max_readahead,
            flags: InitFlags::from_bits_retain(flags),
        },
    }
}
