// The kind of a new store.
ghost use Rattle.std.specs.Prelude.{◌≡◌, option_map, IfSome};
ghost use Rattle.fuse_init.specs.declared.profile.Profile.TheVariants.{Everyday};
ghost use Rattle.fuse_files.specs.StoreKinds.{whole_blocks, blocks_asked, owner_asked};

use fuse_commands::{AskedOwner, AskedStore};
use fuse_init::Profile;
use fuse_rows::{BLOCK_SIZE, CAPACITY_END, DEFAULT_CAPACITY, Owner};
use fuse_store::StoreKind;

// The owner of the root.
fn owner_of(asked: Option<AskedOwner>) -> Owner
    ensures { result ≡ owner_asked asked }
{
    match asked {
        None => Owner::SUPERUSER,
        Some(AskedOwner { uid, gid }) => Owner { uid, gid },
    }
}

// An everyday store of this owner with room for so many bytes.
fn everyday_of(owner: Owner, bytes: u64) -> Option<StoreKind>
    ensures blocks { option_map (λ k. k.capacity) result ≡ whole_blocks bytes }
    ensures profile { IfSome result (λ k. k.profile ≡ Everyday) }
    ensures owner { IfSome result (λ k. k.owner ≡ owner) }
{
    let unit = u64::from(BLOCK_SIZE);
    let capacity = bytes / unit;
    if bytes % unit == 0 && capacity < CAPACITY_END {
        Some(StoreKind {
            profile: Profile::Everyday,
            capacity,
            owner,
        })
    } else {
        None
    }
}

/// The kind of the new store that is asked for, if it is possible: only an everyday store has a
/// capacity, a whole number of blocks.
pub fn kind_asked(asked: AskedStore) -> Option<StoreKind>
    ensures blocks { option_map (λ k. k.capacity) result
        ≡ blocks_asked asked.profile asked.capacity }
    ensures profile { IfSome result (λ k. k.profile ≡ asked.profile) }
    ensures owner { IfSome result (λ k. k.owner ≡ owner_asked asked.owner) }
{
    let owner = owner_of(asked.owner);
    match (asked.profile, asked.capacity) {
        (Profile::Plain, None) => Some(StoreKind {
            profile: Profile::Plain,
            capacity: 0,
            owner,
        }),
        (Profile::Plain, Some(_)) => None,
        (Profile::Everyday, None) => Some(StoreKind {
            profile: Profile::Everyday,
            capacity: DEFAULT_CAPACITY,
            owner,
        }),
        (Profile::Everyday, Some(bytes)) => everyday_of(owner, bytes),
    }
}
