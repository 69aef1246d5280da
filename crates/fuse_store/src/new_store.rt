// What a new store is.
ghost use Rattle.std.specs.Prelude.{◌≡◌, ◌<◌, ◌^◌, IfSome};
ghost use Rattle.fuse_store.specs.Opening.{numbered, store_number};

use fuse_init::Profile;
use fuse_rows::{Origin, Owner};
use fuse_store_tables::Volume;
use fuse_wire::Moment;

// A number of a store is below it.
const END: u64 = 1 << 63;

/// The profile of a store, the blocks that it has room for where the profile sets a bound, and the
/// owner of its root.
#[derive(Clone, Copy)]
pub struct StoreKind {
    pub profile: Profile,
    pub capacity: u64,
    pub owner: Owner,
    ghost low: { capacity < 2 ^ 51 },
}

/// A new store of this kind, made at this moment. An everyday store keeps the lower 63 bits of the
/// number, by which its contents know it.
#[derive(Clone, Copy)]
pub struct NewStore {
    pub kind: StoreKind,
    pub now: Moment,
    pub number: u64,
}

impl StoreKind {
    /// A plain store, without a bound, whose root the superuser owns.
    pub const PLAIN: StoreKind = StoreKind {
        profile: Profile::Plain,
        capacity: 0,
        owner: Owner::SUPERUSER,
    };

    /// One that is made at this moment, with this number.
    pub fn made_at(self, now: Moment, number: u64) -> NewStore
        ensures { result ≡ record { kind = self; now = now; number = number } }
    {
        NewStore {
            kind: self,
            now,
            number,
        }
    }
}

impl NewStore {
    ghost use Rattle.fuse_store_tables.specs.Making.{IsVolume};
    ghost use Rattle.fuse_store.specs.Creating.{origin_of};

    /// The blocks that it has room for, and its number, of which the tables store 63 bits.
    pub fn volume(self) -> Volume
        ensures is { result ≡ record {
          capacity = self.kind.capacity;
          number = store_number self.number;
        } }
        ensures low { IsVolume result }
    {
        Volume {
            capacity: self.kind.capacity,
            number: self.number % END,
        }
    }

    /// The owner of its root, and when it is made.
    pub fn origin(self) -> Origin
        ensures { result ≡ origin_of self }
    {
        Origin {
            owner: self.kind.owner,
            made: self.now,
        }
    }
}

/// The number that an everyday store of version 2 gets, of which the tables store 63 bits.
pub(crate) fn stored_number(number: Option<u64>) -> Option<u64>
    ensures is { result ≡ numbered number }
    ensures low { IfSome result (λ n. n < 2 ^ 63) }
{
    match number {
        Some(number) => Some(number % END),
        None => None,
    }
}
