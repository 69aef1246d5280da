ghost use Rattle.std.specs.Prelude.{◌≡◌};
ghost use Rattle.fuse_init.specs.Agree as agreement;
ghost use Rattle.fuse_init.specs.Agree.{agree, offered};

use crate::profile::Profile;
use crate::settings::Settings;
use bitflags::Flags;
use fuse_answer::InitOut;
use fuse_request::InitIn;
use fuse_wire::{Errno, InitFlags};

/// The first number of the protocol's version, 7.40.
pub const MAJOR: u32 = 7;

/// The second number of the protocol's version.
pub const MINOR: u32 = 40;

/// The oldest version that is served has this minor.
pub const MIN_MINOR: u32 = 23;

/// How many requests the kernel may have in the background.
pub const MAX_BACKGROUND: u16 = 12;

/// The number of background requests from which on the kernel takes the server for congested.
pub const CONGESTION_THRESHOLD: u16 = 9;

/// The most bytes that a WRITE carries.
pub const MAX_WRITE: u32 = 131_072;

/// The steps of times, in nanoseconds.
pub const TIME_GRAN: u32 = 1;

/// The outcome of an INIT.
#[derive(Clone, Copy, Debug, PartialEq, Eq)]
pub enum Negotiated {
    /// These settings hold from now on.
    Agreed { out: InitOut, settings: Settings },
    /// The kernel is newer, and asks again. The settings stay.
    Again { out: InitOut },
    /// The kernel is too old.
    Refused(Errno),
}

// The flags that the kernel offers.
fn offer(flags: u32, flags2: Option<u32>) -> InitFlags
    ensures { result.0 ≡ offered flags flags2 }
{
    let low = InitFlags::from_bits_retain(u64::from(flags));
    match flags2 {
        // As a product, so that it reads as the definition does: these are bits 32 to 63.
        Some(high) if low.contains(InitFlags::INIT_EXT) => {
            low.union(InitFlags::from_bits_retain(u64::from(high) * (1 << 32)))
        }
        _ => low,
    }
}

fn again() -> InitOut
    ensures { result ≡ agreement.again }
{
    InitOut {
        major: MAJOR,
        minor: MINOR,
        max_readahead: 0,
        flags: 0,
        max_background: 0,
        congestion_threshold: 0,
        max_write: 0,
        time_gran: 0,
        max_pages: 0,
        map_alignment: 0,
        flags2: 0,
        max_stack_depth: 0,
    }
}

fn agreed_out(max_readahead: u32, flags: InitFlags) -> InitOut
    ensures { result ≡ agreement.agreed_out max_readahead flags.0 }
{
    let bits = flags.bits();
    InitOut {
        flags: (bits % (1 << 32)) as u32,
        flags2: (bits / (1 << 32)) as u32,
        max_readahead,
        max_background: MAX_BACKGROUND,
        congestion_threshold: CONGESTION_THRESHOLD,
        max_write: MAX_WRITE,
        time_gran: TIME_GRAN,
        ..again()
    }
}

/// The outcome of an INIT that offers this to a file system of this profile. Takes no memory.
pub fn negotiate(profile: Profile, init: &InitIn) -> Negotiated
    ensures { result ≡ agree profile init.now }
{
    if init.major < MAJOR || (init.major == MAJOR && init.minor < MIN_MINOR) {
        return Negotiated::Refused(Errno::EPROTO);
    }
    if init.major > MAJOR {
        return Negotiated::Again { out: again() };
    }
    let flags = offer(init.flags, init.flags2).intersection(profile.wanted());
    Negotiated::Agreed {
        out: agreed_out(init.max_readahead, flags),
        settings: Settings {
            minor: init.minor.min(MINOR),
            max_readahead: init.max_readahead,
            flags,
        },
    }
}
