ghost use Rattle.std.specs.Prelude.{⊤, [], ◌∷◌, codes};

use bitflags::{Flag, Flags, bitflag_items};

/// The flags of INIT: `flags`, with `flags2` as bits 32 to 63 (`fuse.h`).
#[derive(Clone, Copy, Debug, PartialEq, Eq)]
pub struct InitFlags(pub u64);

// Each has the number of `fuse.h`; HAS_RESEND is bit 7 of `flags2`.
bitflag_items! {
    impl InitFlags: u64 {
        const ASYNC_READ = 0x1;
        const BIG_WRITES = 0x20;
        const DO_READDIRPLUS = 0x2000;
        const READDIRPLUS_AUTO = 0x4000;
        const PARALLEL_DIROPS = 0x4_0000;
        const CACHE_SYMLINKS = 0x80_0000;
        const INIT_EXT = 0x4000_0000;
        const HAS_RESEND = 0x80_0000_0000;
    }
}

impl Flags for InitFlags {
    type Bits = u64;

    ghost exact = { ⊤ };

    ghost table = { (codes "ASYNC_READ", 0x1) ∷ (codes "BIG_WRITES", 0x20)
        ∷ (codes "DO_READDIRPLUS", 0x2000) ∷ (codes "READDIRPLUS_AUTO", 0x4000)
        ∷ (codes "PARALLEL_DIROPS", 0x4_0000) ∷ (codes "CACHE_SYMLINKS", 0x80_0000)
        ∷ (codes "INIT_EXT", 0x4000_0000) ∷ (codes "HAS_RESEND", 0x80_0000_0000) ∷ [] };

    ghost set_of = { λ f. f.0 };

    fn flags<'a>() -> &'a [Flag<InitFlags>] {
        InitFlags::FLAGS
    }

    fn bits(&self) -> u64 {
        self.0
    }

    fn from_bits_retain(bits: u64) -> InitFlags {
        InitFlags(bits)
    }
}
