// The opening of a store. A store of version 1 is migrated to version 2, and a missing index is
// made.
ghost use Rattle.std.specs.Prelude.{◌≡◌, ◌<◌, ◌^◌, ◌↔◌, ◌⊎◌, ℕ, false, IsTrue, IfOk, OnOk, OnErr, IfErr};
ghost use Rattle.std.specs.Prelude.{Option, None, IfSome};
ghost use Rattle.sqlite.specs.State.{HasCleanDisk, KeepsCommit, Survives};
ghost use Rattle.sqlite.specs.Held.{state};
ghost use Rattle.fuse_store_tables.specs.Faults.{IsOutside, IsPlain};
ghost use Rattle.fuse_store_tables.specs.Readying.{LeavesReadied};
ghost use Rattle.fuse_init.specs.declared.profile.Profile.TheVariants.{Plain, Everyday};
ghost use Rattle.fuse_store_tables.specs.Layout.{third_schema};
ghost use Rattle.fuse_store_tables.specs.Saying.{Says, IsTabled, IsRefusal, IsToMigrate};
ghost use Rattle.fuse_store_tables.specs.Saying.{ShowsMore};
ghost use Rattle.fuse_store_tables.specs.declared.version.Layout.TheVariants.{Second, Third};
ghost use Rattle.fuse_store_tables.specs.Content.{Content};
ghost use Rattle.fuse_store_tables.specs.Moves.{RestsAs, InsideAs, Takes, ServesAs, IsSafe};
ghost use Rattle.fuse_store_tables.specs.Moves.{LeavesAlone, RollsBack, CommitsOnce};
ghost use Rattle.fuse_store_tables.specs.inner.Performing.{TransactsAs, IsSure, CommitsNothing};
ghost use Rattle.fuse_store_tables.specs.inner.Performing.{OnlyReads};
ghost use Rattle.fuse_store_tables.specs.Opening.{IsStored, IsFirst, IsSecond, IsUnindexed};
ghost use Rattle.fuse_store_tables.specs.Opening.{IsOpened, IsLaid, IsSound, IsWanted};
ghost use Rattle.fuse_store_tables.specs.Opening.{IsWantedStore};
ghost use Rattle.fuse_store_tables.specs.inner.Steps.{IsSecondIn, IsSecondOf, IsRoomySecond};
ghost use Rattle.fuse_store_tables.specs.inner.Steps.{IsRoomySecondOf, IsRoomyUnindexed};
ghost use Rattle.fuse_store_tables.specs.Opening.{HasMeta, HasFirstMeta, HasSecondMeta, profile_in};
ghost use Rattle.fuse_store_tables.specs.inner.Steps.{Tests};
ghost use Rattle.fuse_store_tables.specs.inner.Performing.{StaysWithin};

use crate::everyday::to_third;
use crate::meta::find_version;
use crate::migration::{add_index, migrate};
use crate::numbers::{check_first, check_second};
use crate::readying::BeforeCommit;
use crate::schema::{is_first, is_second, is_third, is_unindexed};
use crate::statements::{begin, commit, undo};
use fuse_init::Profile;
use fuse_keeper::StoreFault;
use sqlite::{Alter, Connection, Error};
use std::alloc::Global;

fn open_first<S: Alter>(conn: &mut Connection<S>) -> Result<(), StoreFault>
    ensures made { (number : Option ℕ) → Takes IsFirst (IsOpened number) (state S.Store conn.old)
        (state S.Store conn.new) result }
    ensures fault { IsSure IsFirst (state S.Store conn.old) (state S.Store conn.new) result }
    ensures plain { IfErr result IsPlain }
    ensures whole { Tests HasFirstMeta (state S.Store conn.old) (state S.Store conn.new) result }
    ensures within { StaysWithin (state S.Store conn.old) (state S.Store conn.new) result }
{
    check_first(conn)?;
    Ok(migrate(conn)?)
}

// Brings a store of version 2 to version 3 where it is everyday. That takes a number.
fn raise<S: Alter>(
    alloc: Global,
    conn: &mut Connection<S>,
    profile: Profile,
    number: Option<u64>,
) -> Result<(), StoreFault>
    requires { IfSome number (λ n. n < 2 ^ 63) }
    ensures made { Takes (IsSecondOf profile) (IsOpened number) (state S.Store conn.old)
        (state S.Store conn.new) result }
    ensures fault { IsSure (IsRoomySecondOf profile) (state S.Store conn.old)
        (state S.Store conn.new) result }
    ensures plain { IfErr result IsPlain }
    ensures reads { profile ≡ Plain
        → OnlyReads (state S.Store conn.old) (state S.Store conn.new) result }
    ensures within { StaysWithin (state S.Store conn.old) (state S.Store conn.new) result }
    ensures numbered { OnOk result (number ≡ None → profile ≡ Plain) }
{
    match profile {
        Profile::Plain => Ok(()),
        Profile::Everyday => match number {
            Some(number) => to_third(alloc, conn, number),
            None => Err(StoreFault::Sql(Error::InvalidQuery)),
        },
    }
}

// Tests a store of version 2, and brings an everyday one to version 3.
fn open_second<S: Alter>(
    alloc: Global,
    conn: &mut Connection<S>,
    number: Option<u64>,
) -> Result<Profile, StoreFault>
    requires { IfSome number (λ n. n < 2 ^ 63) }
    ensures opened { Takes (IsSecondIn Second) (IsOpened number) (state S.Store conn.old)
        (state S.Store conn.new) result }
    ensures fault { IsSure IsRoomySecond (state S.Store conn.old) (state S.Store conn.new) result }
    ensures plain { IfErr result IsPlain }
    ensures whole { Tests HasSecondMeta (state S.Store conn.old) (state S.Store conn.new) result }
    ensures profile { HasCleanDisk (state S.Store conn.new) → IfOk result (λ p. (c : Content)
        → InsideAs (IsLaid c) (state S.Store conn.old) → p ≡ profile_in c) }
    ensures alone { (HasCleanDisk (state S.Store conn.new)
        → ShowsMore (state S.Store conn.old).now → ⊥)
        → OnlyReads (state S.Store conn.old) (state S.Store conn.new) result }
    ensures within { StaysWithin (state S.Store conn.old) (state S.Store conn.new) result }
    ensures numbered { IfOk result (λ p. number ≡ None → p ≡ Plain) }
{
    let profile = check_second(conn)?;
    raise(alloc, conn, profile, number)?;
    Ok(profile)
}

// Tests a store of version 3.
fn open_third<S: Alter>(conn: &mut Connection<S>) -> Result<Profile, StoreFault>
    ensures opened { (number : Option ℕ) → Takes (IsSecondIn Third) (IsOpened number)
        (state S.Store conn.old) (state S.Store conn.new) result }
    ensures fault { IsSure IsSecond (state S.Store conn.old) (state S.Store conn.new) result }
    ensures plain { IfErr result IsPlain }
    ensures whole { Tests HasSecondMeta (state S.Store conn.old) (state S.Store conn.new) result }
    ensures profile { HasCleanDisk (state S.Store conn.new) → IfOk result (λ p. (c : Content)
        → InsideAs (IsLaid c) (state S.Store conn.old) → p ≡ profile_in c) }
    ensures reads { OnlyReads (state S.Store conn.old) (state S.Store conn.new) result }
    ensures within { StaysWithin (state S.Store conn.old) (state S.Store conn.new) result }
{
    check_second(conn)
}

// Makes the index of a store of version 2 that has none, and goes on as with one that has it.
fn open_unindexed<S: Alter>(
    alloc: Global,
    conn: &mut Connection<S>,
    number: Option<u64>,
) -> Result<Profile, StoreFault>
    requires { IfSome number (λ n. n < 2 ^ 63) }
    ensures made { Takes IsUnindexed (IsOpened number) (state S.Store conn.old)
        (state S.Store conn.new) result }
    ensures fault { IsSure IsRoomyUnindexed (state S.Store conn.old) (state S.Store conn.new)
        result }
    ensures plain { IfErr result IsPlain }
    ensures whole { Tests HasSecondMeta (state S.Store conn.old) (state S.Store conn.new) result }
    ensures profile { HasCleanDisk (state S.Store conn.new) → IfOk result (λ p. (c : Content)
        → InsideAs (IsLaid c) (state S.Store conn.old) → p ≡ profile_in c) }
    ensures within { StaysWithin (state S.Store conn.old) (state S.Store conn.new) result }
    ensures numbered { IfOk result (λ p. number ≡ None → p ≡ Plain) }
{
    let profile = check_second(conn)?;
    add_index(conn)?;
    raise(alloc, conn, profile, number)?;
    Ok(profile)
}

/// Tests the store, and brings it up to date, within a transaction. The profile is the store's.
pub(crate) fn work<S: Alter>(
    alloc: Global,
    conn: &mut Connection<S>,
    number: Option<u64>,
) -> Result<Profile, StoreFault>
    requires { IfSome number (λ n. n < 2 ^ 63) }
    ensures opened { Takes IsStored (IsOpened number) (state S.Store conn.old)
        (state S.Store conn.new) result }
    ensures fault { IsSure IsSound (state S.Store conn.old) (state S.Store conn.new) result }
    ensures says { HasCleanDisk (state S.Store conn.new)
        → IfErr result (Says (state S.Store conn.old).now) }
    ensures whole { Tests HasMeta (state S.Store conn.old) (state S.Store conn.new) result }
    ensures profile { HasCleanDisk (state S.Store conn.new) → IfOk result (λ p. (c : Content)
        → InsideAs (IsLaid c) (state S.Store conn.old) → p ≡ profile_in c) }
    ensures tabled { HasCleanDisk (state S.Store conn.new)
        → OnOk result (IsTabled (state S.Store conn.old).now) }
    ensures alone { (HasCleanDisk (state S.Store conn.new)
        → IsToMigrate (state S.Store conn.old).now → ⊥)
        → OnlyReads (state S.Store conn.old) (state S.Store conn.new) result }
    ensures within { StaysWithin (state S.Store conn.old) (state S.Store conn.new) result }
    ensures numbered { IfOk result (λ p. number ≡ None → p ≡ Everyday
        → (state S.Store conn.old).now.schema ≡ third_schema) }
{
    let schema = conn.schema();
    let first = is_first(schema);
    let second = is_second(schema);
    let unindexed = is_unindexed(schema);
    let third = is_third(schema);
    let version = find_version(conn)?;
    if version == 1 {
        if !first {
            return Err(StoreFault::Damaged);
        }
        match open_first(conn) {
            Ok(()) => Ok(Profile::Plain),
            Err(fault) => Err(fault),
        }
    } else if version == 2 {
        if second {
            open_second(alloc, conn, number)
        } else if unindexed {
            open_unindexed(alloc, conn, number)
        } else {
            Err(StoreFault::Damaged)
        }
    } else if version == 3 {
        if third {
            open_third(conn)
        } else {
            Err(StoreFault::Damaged)
        }
    } else {
        Err(StoreFault::Version(version))
    }
}

// Whether a store of this profile is wanted.
fn is_wanted(wanted: Option<Profile>, profile: Profile) -> bool
    ensures { IsTrue result ↔ IsWanted wanted profile }
{
    match (wanted, profile) {
        (None, _) => true,
        (Some(Profile::Plain), Profile::Plain) => true,
        (Some(Profile::Everyday), Profile::Everyday) => true,
        (Some(_), _) => false,
    }
}

// The same of a store of the profile that is wanted. Another one is damage.
fn work_wanted<S: Alter>(
    alloc: Global,
    conn: &mut Connection<S>,
    wanted: Option<Profile>,
    number: Option<u64>,
) -> Result<Profile, StoreFault>
    requires { IfSome number (λ n. n < 2 ^ 63) }
    ensures opened { Takes IsStored (IsOpened number) (state S.Store conn.old)
        (state S.Store conn.new) result }
    ensures fault { IsSure (IsWantedStore wanted) (state S.Store conn.old) (state S.Store conn.new)
        result }
    ensures says { HasCleanDisk (state S.Store conn.new)
        → IfErr result (Says (state S.Store conn.old).now) }
    ensures whole { Tests HasMeta (state S.Store conn.old) (state S.Store conn.new) result }
    ensures profile { HasCleanDisk (state S.Store conn.new) → IfOk result (λ p. (c : Content)
        → InsideAs (IsLaid c) (state S.Store conn.old) → p ≡ profile_in c) }
    ensures wanted { IfOk result (IsWanted wanted) }
    ensures tabled { HasCleanDisk (state S.Store conn.new)
        → OnOk result (IsTabled (state S.Store conn.old).now) }
    ensures alone { (HasCleanDisk (state S.Store conn.new)
        → IsToMigrate (state S.Store conn.old).now → ⊥)
        → OnlyReads (state S.Store conn.old) (state S.Store conn.new) result }
    ensures within { StaysWithin (state S.Store conn.old) (state S.Store conn.new) result }
    ensures numbered { IfOk result (λ p. number ≡ None → p ≡ Everyday
        → (state S.Store conn.old).now.schema ≡ third_schema) }
{
    match work(alloc, conn, number) {
        Ok(profile) => {
            if is_wanted(wanted, profile) {
                Ok(profile)
            } else {
                Err(StoreFault::Damaged)
            }
        }
        Err(fault) => Err(fault),
    }
}

// The same, and then it makes ready what is to be there before the commit.
fn work_for<S: Alter, B: BeforeCommit>(
    alloc: Global,
    conn: &mut Connection<S>,
    wanted: Option<Profile>,
    number: Option<u64>,
    before: &mut B,
) -> Result<Profile, StoreFault>
    requires { IfSome number (λ n. n < 2 ^ 63) }
    ensures opened { Takes IsStored (IsOpened number) (state S.Store conn.old)
        (state S.Store conn.new) result }
    ensures fault { IsSure (IsWantedStore wanted) (state S.Store conn.old) (state S.Store conn.new)
        result }
    ensures says { HasCleanDisk (state S.Store conn.new)
        → IfErr result (Says (state S.Store conn.old).now) }
    ensures whole { Tests HasMeta (state S.Store conn.old) (state S.Store conn.new) result }
    ensures profile { HasCleanDisk (state S.Store conn.new) → IfOk result (λ p. (c : Content)
        → InsideAs (IsLaid c) (state S.Store conn.old) → p ≡ profile_in c) }
    ensures wanted { IfOk result (IsWanted wanted) }
    ensures tabled { HasCleanDisk (state S.Store conn.new)
        → OnOk result (IsTabled (state S.Store conn.old).now) }
    ensures alone { (HasCleanDisk (state S.Store conn.new)
        → IsToMigrate (state S.Store conn.old).now → ⊥)
        → OnlyReads (state S.Store conn.old) (state S.Store conn.new) result }
    ensures within { StaysWithin (state S.Store conn.old) (state S.Store conn.new) result }
    ensures numbered { IfOk result (λ p. number ≡ None → p ≡ Everyday
        → (state S.Store conn.old).now.schema ≡ third_schema) }
    ensures made { OnOk result (B.BeforeCommit.makes before.old before.new) }
    ensures left_of { IfErr result (λ f. (before.new ≡ before.old)
        ⊎ (IsOutside f × B.BeforeCommit.leaves before.old before.new)) }
{
    match work_wanted(alloc, conn, wanted, number) {
        Ok(profile) => match before.ready() {
            Ok(()) => Ok(profile),
            Err(fault) => Err(fault),
        },
        Err(fault) => Err(fault),
    }
}

/// Outside a transaction, what is seen is what was committed.
pub(crate) fn law_of_rest<S: Alter>(conn: &Connection<S>)
    ensures { (state S.Store conn.now).in_transaction ≡ false
        → IsTrue (state S.Store conn.now).is_open
        → (state S.Store conn.now).now ≡ (state S.Store conn.now).committed }
{
    let _ = conn.is_autocommit();
}

// The transaction. A fault may leave it open.
fn transact<S: Alter, B: BeforeCommit>(
    alloc: Global,
    conn: &mut Connection<S>,
    wanted: Option<Profile>,
    number: Option<u64>,
    before: &mut B,
) -> Result<Profile, StoreFault>
    requires { IfSome number (λ n. n < 2 ^ 63) }
    ensures performs { TransactsAs IsStored (IsOpened number) (state S.Store conn.old)
        (state S.Store conn.new) result }
    ensures fault { IsSafe (IsWantedStore wanted) (state S.Store conn.old) (state S.Store conn.new)
        result }
    ensures wanted { IfOk result (IsWanted wanted) }
    ensures was { HasCleanDisk (state S.Store conn.new)
        → OnOk result (IsTrue (state S.Store conn.old).is_open) }
    ensures says { HasCleanDisk (state S.Store conn.new)
        → IfErr result (Says (state S.Store conn.old).now) }
    ensures whole { HasCleanDisk (state S.Store conn.new) → OnOk result ((c : Content)
        → RestsAs (IsLaid c) (state S.Store conn.old) → HasMeta c) }
    ensures profile { HasCleanDisk (state S.Store conn.new) → IfOk result (λ p. (c : Content)
        → RestsAs (IsLaid c) (state S.Store conn.old) → p ≡ profile_in c) }
    ensures tabled { HasCleanDisk (state S.Store conn.new)
        → OnOk result (IsTabled (state S.Store conn.old).now) }
    ensures alone { (IsToMigrate (state S.Store conn.old).now → ⊥)
        → CommitsNothing (state S.Store conn.old) (state S.Store conn.new) }
    ensures refused { IfErr result (λ f. IsRefusal f
        → CommitsNothing (state S.Store conn.old) (state S.Store conn.new)) }
    ensures keeps { OnErr result (HasCleanDisk (state S.Store conn.new)
        → KeepsCommit (state S.Store conn.old) (state S.Store conn.new)) }
    ensures once { CommitsOnce (state S.Store conn.old) (state S.Store conn.new) result }
    ensures ended { OnOk result (HasCleanDisk (state S.Store conn.new)
        → ((state S.Store conn.new).in_transaction ≡ false)
        × ((state S.Store conn.new).now ≡ (state S.Store conn.new).committed)) }
    ensures numbered { HasCleanDisk (state S.Store conn.new) → IfOk result (λ p. number ≡ None
        → p ≡ Everyday → (state S.Store conn.old).now.schema ≡ third_schema) }
    ensures made { OnOk result (B.BeforeCommit.makes before.old before.new) }
    ensures left_of { IfErr result (LeavesReadied B.BeforeCommit.makes B.BeforeCommit.leaves
        (Survives (state S.Store conn.old) (state S.Store conn.new) (λ _. ⊥))
        before.old before.new) }
{
    law_of_rest(conn);
    begin(conn)?;
    match work_for(alloc, conn, wanted, number, before) {
        Ok(profile) => {
            commit(conn)?;
            Ok(profile)
        }
        Err(fault) => Err(fault),
    }
}

/// Tests `meta`, migrates a store of version 1, and makes the index of version 2 where that is
/// missing. An everyday store of version 2 becomes one of version 3, with this number; without one
/// the call fails. The profile is the store's. Where one is wanted, a store of another is `Damaged`,
/// and is left as it was. Once all tests have passed, it makes ready what is handed in. The commit is
/// its last call of the database.
pub fn set_up<S: Alter, B: BeforeCommit>(
    alloc: Global,
    conn: &mut Connection<S>,
    wanted: Option<Profile>,
    number: Option<u64>,
    before: &mut B,
) -> Result<Profile, StoreFault>
    requires { IfSome number (λ n. n < 2 ^ 63) }
    ensures serves { ServesAs IsStored (IsOpened number) (state S.Store conn.old)
        (state S.Store conn.new) result }
    ensures fault { IsSafe (IsWantedStore wanted) (state S.Store conn.old) (state S.Store conn.new)
        result }
    ensures wanted { IfOk result (IsWanted wanted) }
    ensures was { HasCleanDisk (state S.Store conn.new)
        → OnOk result (IsTrue (state S.Store conn.old).is_open) }
    ensures says { HasCleanDisk (state S.Store conn.new)
        → IfErr result (Says (state S.Store conn.old).now) }
    // A store with a damaged `meta`, a counter that would give a number out again, or a schema other
    // than that of its version is never opened.
    ensures whole { HasCleanDisk (state S.Store conn.new) → OnOk result ((c : Content)
        → RestsAs (IsLaid c) (state S.Store conn.old) → HasMeta c) }
    ensures profile { HasCleanDisk (state S.Store conn.new) → IfOk result (λ p. (c : Content)
        → RestsAs (IsLaid c) (state S.Store conn.old) → p ≡ profile_in c) }
    ensures tabled { HasCleanDisk (state S.Store conn.new)
        → OnOk result (IsTabled (state S.Store conn.old).now) }
    // Only a store that is to be migrated or lacks the index is changed, however the call ends,
    ensures alone { (IsToMigrate (state S.Store conn.old).now → ⊥)
        → LeavesAlone (state S.Store conn.old) (state S.Store conn.new) }
    // and no database that is refused. No transaction is left open.
    ensures refused { IfErr result (λ f. IsRefusal f
        → LeavesAlone (state S.Store conn.old) (state S.Store conn.new)) }
    ensures ended { HasCleanDisk (state S.Store conn.new)
        → (state S.Store conn.new).in_transaction ≡ false }
    // Where the call fails, what was committed before is seen, whatever the database.
    ensures undone { OnErr result (RollsBack (state S.Store conn.old) (state S.Store conn.new)) }
    // It commits once at most: after a crash all of it is seen, or nothing.
    ensures once { CommitsOnce (state S.Store conn.old) (state S.Store conn.new) result }
    // Without a number no everyday store of version 2 is opened.
    ensures numbered { HasCleanDisk (state S.Store conn.new) → IfOk result (λ p. number ≡ None
        → p ≡ Everyday → (state S.Store conn.old).now.schema ≡ third_schema) }
    // Where a test fails, it was not made ready, and is as it was.
    ensures made { OnOk result (B.BeforeCommit.makes before.old before.new) }
    ensures left_of { IfErr result (LeavesReadied B.BeforeCommit.makes B.BeforeCommit.leaves
        (Survives (state S.Store conn.old) (state S.Store conn.new) (λ _. ⊥))
        before.old before.new) }
{
    match transact(alloc, conn, wanted, number, before) {
        Ok(profile) => Ok(profile),
        Err(fault) => {
            undo(conn);
            Err(fault)
        }
    }
}
