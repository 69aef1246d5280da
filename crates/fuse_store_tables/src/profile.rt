// The profile of a store, as the rows of `meta` say it.
ghost use Rattle.std.specs.Prelude.{◌≡◌, ◌≤◌, List, map, OnOk, IfErr};
ghost use Rattle.fuse_init.specs.Profile.{terms};
ghost use Rattle.fuse_init.specs.declared.profile.Profile.TheVariants.{Everyday};
ghost use Rattle.fuse_store_tables.specs.Content.{Content};
ghost use Rattle.fuse_store_tables.specs.Faults.{IsOutside, IsPlain};
ghost use Rattle.fuse_store_tables.specs.Opening.{HasRoomOf, IsMeta, MetaOf, profile_in};
ghost use Rattle.fuse_store_tables.specs.declared.version.Layout.TheVariants.{Second};
ghost use Rattle.fuse_store_tables.specs.inner.Checking.{IsMetaIn, profile_by};
ghost use Rattle.fuse_store_tables.specs.inner.Columns.{shown_meta};

use crate::counters::{CAPACITY, PROFILE, USED};
use crate::meta::check_rows;
use crate::numbers::value_in;
use crate::version::Layout;
use fuse_init::Profile;
use fuse_keeper::StoreFault;
use sqlite::Row;

// The number of the everyday profile.
pub(crate) const EVERYDAY: u64 = 2;

/// The nodes that a store of this profile may have.
pub(crate) fn node_limit(profile: Profile) -> u64
    ensures { result ≡ (terms profile).node_limit }
{
    match profile {
        Profile::Plain => 65536,
        Profile::Everyday => 1048576,
    }
}

/// The profile of a store of version 2 with so many rows in `meta`, if it is a store.
pub(crate) fn profile_by(count: usize) -> Profile
    ensures { result ≡ profile_by count }
{
    if count == 11 {
        Profile::Plain
    } else {
        Profile::Everyday
    }
}

// Tests the number of the profile, and that no more blocks are used than there is room for.
fn check_room(meta: &[Row]) -> Result<(), StoreFault>
    ensures whole { OnOk result ((c : Content) → IsMetaIn meta.now 14 c → HasRoomOf Everyday c) }
    ensures fault { IfErr result (λ f. (c : Content) → IsMetaIn meta.now 14 c
        → HasRoomOf Everyday c → IsOutside f) }
    ensures plain { IfErr result IsPlain }
{
    let profile = value_in(meta, PROFILE)?;
    let capacity = value_in(meta, CAPACITY)?;
    let used = value_in(meta, USED)?;
    if profile != EVERYDAY {
        return Err(StoreFault::Damaged);
    }
    if used > capacity {
        return Err(StoreFault::Damaged);
    }
    Ok(())
}

// Tests the rows of an everyday store, of which there are so many.
fn check_everyday(meta: &[Row], count: usize) -> Result<(), StoreFault>
    requires { 14 ≤ count }
    ensures whole { OnOk result ((c : Content) → meta.now ≡ map shown_meta c.counters
        → IsMeta Everyday count c × HasRoomOf Everyday c) }
    ensures fault { IfErr result (λ f. (c : Content) → meta.now ≡ map shown_meta c.counters
        → IsMeta Everyday count c × HasRoomOf Everyday c → IsOutside f) }
    ensures plain { IfErr result IsPlain }
{
    check_rows(meta, Profile::Everyday, count)?;
    check_room(meta)
}

// The same of version 2, of either profile.
fn check_second_profile(meta: &[Row]) -> Result<(), StoreFault>
    ensures whole { OnOk result ((c : Content) → c.layout ≡ Second
        → meta.now ≡ map shown_meta c.counters → MetaOf (profile_in c) c) }
    ensures fault { IfErr result (λ f. (c : Content) → c.layout ≡ Second
        → meta.now ≡ map shown_meta c.counters → MetaOf (profile_in c) c → IsOutside f) }
    ensures plain { IfErr result IsPlain }
{
    match profile_by(meta.len()) {
        Profile::Plain => check_rows(meta, Profile::Plain, 11),
        Profile::Everyday => check_everyday(meta, 14),
    }
}

/// Tests that the rows of `meta` are those of a profile and of this layout.
pub(crate) fn check_profile(meta: &[Row], layout: Layout) -> Result<(), StoreFault>
    ensures whole { OnOk result ((c : Content) → layout ≡ c.layout
        → meta.now ≡ map shown_meta c.counters → MetaOf (profile_in c) c) }
    ensures fault { IfErr result (λ f. (c : Content) → layout ≡ c.layout
        → meta.now ≡ map shown_meta c.counters → MetaOf (profile_in c) c → IsOutside f) }
    ensures plain { IfErr result IsPlain }
{
    match layout {
        Layout::Second => check_second_profile(meta),
        Layout::Third => check_everyday(meta, 15),
    }
}
