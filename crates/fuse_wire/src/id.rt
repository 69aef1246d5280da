ghost use Rattle.std.specs.Prelude.{◌≡◌};
ghost use Rattle.fuse_wire.specs.Ids.{id_of, resent};

/// The bit of `unique` that marks a resend: FUSE_UNIQUE_RESEND of `fuse.h`.
pub const UNIQUE_RESEND: u64 = 0x8000_0000_0000_0000;

/// The id of a request: its `unique` without the bit of a resend.
#[derive(Clone, Copy, Debug, PartialEq, Eq)]
pub struct Id(pub u64);

impl Id {
    /// The id, which a request and each of its resends share.
    pub fn of(unique: u64) -> Id
        ensures { result.0 ≡ id_of unique }
    {
        // The bit is the highest, so the remainder is the number without it.
        Id(unique % UNIQUE_RESEND)
    }
}

/// Whether a request of this `unique` is a resend.
pub fn is_resend(unique: u64) -> bool
    ensures { result ≡ resent unique }
{
    unique >= UNIQUE_RESEND
}
