ghost use Rattle.std.specs.Prelude.{◌≡◌, ⊤, [], ◌∷◌, codes};
ghost use Rattle.std.specs.Int.RustNames.{bit_and};
ghost use Rattle.fuse_wire.specs.Flags.{valid_bits};

use bitflags::{Flag, Flags, bitflag_items};

/// Which attributes a SETATTR sets: `valid` of `fuse_setattr_in` (`fuse.h`).
#[derive(Clone, Copy, Debug, PartialEq, Eq)]
pub struct SetattrValid(pub u32);

// Each has the number of `fuse.h`, where its name begins with FATTR.
bitflag_items! {
    impl SetattrValid: u32 {
        const MODE = 0x1;
        const UID = 0x2;
        const GID = 0x4;
        const SIZE = 0x8;
        const ATIME = 0x10;
        const MTIME = 0x20;
        const FH = 0x40;
        const ATIME_NOW = 0x80;
        const MTIME_NOW = 0x100;
        const LOCKOWNER = 0x200;
        const CTIME = 0x400;
        const KILL_SUIDGID = 0x800;
    }
}

impl Flags for SetattrValid {
    type Bits = u32;

    ghost exact = { ⊤ };

    ghost table = { (codes "MODE", 0x1) ∷ (codes "UID", 0x2) ∷ (codes "GID", 0x4)
        ∷ (codes "SIZE", 0x8) ∷ (codes "ATIME", 0x10) ∷ (codes "MTIME", 0x20) ∷ (codes "FH", 0x40)
        ∷ (codes "ATIME_NOW", 0x80) ∷ (codes "MTIME_NOW", 0x100) ∷ (codes "LOCKOWNER", 0x200)
        ∷ (codes "CTIME", 0x400) ∷ (codes "KILL_SUIDGID", 0x800) ∷ [] };

    ghost set_of = { λ f. f.0 };

    fn flags<'a>() -> &'a [Flag<SetattrValid>] {
        SetattrValid::FLAGS
    }

    fn bits(&self) -> u32 {
        self.0
    }

    fn from_bits_retain(bits: u32) -> SetattrValid {
        SetattrValid(bits)
    }
}

impl SetattrValid {
    /// The bits of `valid` that have names. The others are dropped.
    pub fn of(valid: u32) -> SetattrValid
        ensures { result.0 ≡ bit_and valid valid_bits }
    {
        SetattrValid::from_bits_truncate(valid)
    }
}
