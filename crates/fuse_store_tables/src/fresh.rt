// The opening of a store for a mount that begins, in one transaction.
ghost use Rattle.std.specs.Prelude.{◌≡◌, ◌<◌, ◌^◌, ◌⊎◌, ℕ, true, false, IsTrue, IfOk, OnOk, OnErr, IfErr};
ghost use Rattle.std.specs.Prelude.{Option, None, IfSome};
ghost use Rattle.sqlite.specs.State.{HasCleanDisk, KeepsCommit, Survives};
ghost use Rattle.sqlite.specs.Held.{state};
ghost use Rattle.fuse_store_tables.specs.Saying.{Says, IsTabled, IsRefusal};
ghost use Rattle.fuse_store_tables.specs.Content.{Content};
ghost use Rattle.fuse_store_tables.specs.Clearing.{IsBegun};
ghost use Rattle.fuse_store_tables.specs.Moves.{RestsAs, InsideAs, Takes, ServesAs, IsSafe};
ghost use Rattle.fuse_store_tables.specs.Moves.{LeavesAlone, RollsBack, CommitsOnce};
ghost use Rattle.fuse_store_tables.specs.inner.Performing.{TransactsAs, IsSure, CommitsNothing};
ghost use Rattle.fuse_store_tables.specs.inner.Performing.{OnlyReads, StaysWithin};
ghost use Rattle.fuse_store_tables.specs.Faults.{IsOutside, IsPlain};
ghost use Rattle.fuse_store_tables.specs.Readying.{LeavesReadied};
ghost use Rattle.fuse_init.specs.declared.profile.Profile.TheVariants.{Everyday};
ghost use Rattle.fuse_store_tables.specs.Layout.{third_schema};
ghost use Rattle.fuse_store_tables.specs.Opening.{IsStored, IsSound, IsLaid, HasMeta, profile_in};
ghost use Rattle.fuse_store_tables.specs.Opening.{IsOpened, HasSecondMeta};
ghost use Rattle.fuse_store_tables.specs.inner.Steps.{Tests};

use crate::mount::clear;
use crate::numbers::check_second;
use crate::readying::BeforeCommit;
use crate::setup::{law_of_rest, work};
use crate::statements::{begin, commit, undo};
use fuse_init::Profile;
use fuse_keeper::StoreFault;
use sqlite::{Alter, Connection};
use std::alloc::Global;

// Deletes all state of the last mount, and tests the rows of `meta` that it leaves.
fn clear_and_check<S: Alter>(conn: &mut Connection<S>) -> Result<(), StoreFault>
    ensures begun { (number : Option ℕ) → Takes (IsOpened number) (IsBegun number)
        (state S.Store conn.old) (state S.Store conn.new) result }
    ensures fault { (number : Option ℕ) → IsSure (IsOpened number) (state S.Store conn.old)
        (state S.Store conn.new) result }
    ensures plain { IfErr result IsPlain }
    ensures left { HasCleanDisk (state S.Store conn.new)
        → (state S.Store conn.old).in_transaction ≡ true → OnOk result ((c : Content)
        → InsideAs (IsLaid c) (state S.Store conn.new) → HasSecondMeta c) }
    ensures within { StaysWithin (state S.Store conn.old) (state S.Store conn.new) result }
{
    clear(conn)?;
    check_second(conn)?;
    Ok(())
}

// Opens the store, and deletes all state of the last mount.
fn renew_tables<S: Alter>(
    alloc: Global,
    conn: &mut Connection<S>,
    number: Option<u64>,
) -> Result<Profile, StoreFault>
    requires { IfSome number (λ n. n < 2 ^ 63) }
    ensures begun { Takes IsStored (IsBegun number) (state S.Store conn.old)
        (state S.Store conn.new) result }
    ensures fault { IsSure IsSound (state S.Store conn.old) (state S.Store conn.new) result }
    ensures says { HasCleanDisk (state S.Store conn.new)
        → IfErr result (Says (state S.Store conn.old).now) }
    ensures whole { Tests HasMeta (state S.Store conn.old) (state S.Store conn.new) result }
    ensures profile { HasCleanDisk (state S.Store conn.new) → IfOk result (λ p. (c : Content)
        → InsideAs (IsLaid c) (state S.Store conn.old) → p ≡ profile_in c) }
    ensures tabled { HasCleanDisk (state S.Store conn.new)
        → OnOk result (IsTabled (state S.Store conn.old).now) }
    ensures alone { (HasCleanDisk (state S.Store conn.new)
        → IsTabled (state S.Store conn.old).now → ⊥)
        → OnlyReads (state S.Store conn.old) (state S.Store conn.new) result }
    ensures left { HasCleanDisk (state S.Store conn.new)
        → (state S.Store conn.old).in_transaction ≡ true → OnOk result ((c : Content)
        → InsideAs (IsLaid c) (state S.Store conn.new) → HasSecondMeta c) }
    ensures within { StaysWithin (state S.Store conn.old) (state S.Store conn.new) result }
    ensures numbered { HasCleanDisk (state S.Store conn.new) → IfOk result (λ p. number ≡ None
        → p ≡ Everyday → (state S.Store conn.old).now.schema ≡ third_schema) }
{
    match work(alloc, conn, number) {
        Ok(profile) => {
            clear_and_check(conn)?;
            Ok(profile)
        }
        Err(fault) => Err(fault),
    }
}

// The same, and then it makes ready what is to be there before the commit.
fn renew<S: Alter, B: BeforeCommit>(
    alloc: Global,
    conn: &mut Connection<S>,
    number: Option<u64>,
    before: &mut B,
) -> Result<Profile, StoreFault>
    requires { IfSome number (λ n. n < 2 ^ 63) }
    ensures begun { Takes IsStored (IsBegun number) (state S.Store conn.old)
        (state S.Store conn.new) result }
    ensures fault { IsSure IsSound (state S.Store conn.old) (state S.Store conn.new) result }
    ensures says { HasCleanDisk (state S.Store conn.new)
        → IfErr result (Says (state S.Store conn.old).now) }
    ensures whole { Tests HasMeta (state S.Store conn.old) (state S.Store conn.new) result }
    ensures profile { HasCleanDisk (state S.Store conn.new) → IfOk result (λ p. (c : Content)
        → InsideAs (IsLaid c) (state S.Store conn.old) → p ≡ profile_in c) }
    ensures tabled { HasCleanDisk (state S.Store conn.new)
        → OnOk result (IsTabled (state S.Store conn.old).now) }
    ensures alone { (HasCleanDisk (state S.Store conn.new)
        → IsTabled (state S.Store conn.old).now → ⊥)
        → OnlyReads (state S.Store conn.old) (state S.Store conn.new) result }
    ensures left { HasCleanDisk (state S.Store conn.new)
        → (state S.Store conn.old).in_transaction ≡ true → OnOk result ((c : Content)
        → InsideAs (IsLaid c) (state S.Store conn.new) → HasSecondMeta c) }
    ensures within { StaysWithin (state S.Store conn.old) (state S.Store conn.new) result }
    ensures numbered { HasCleanDisk (state S.Store conn.new) → IfOk result (λ p. number ≡ None
        → p ≡ Everyday → (state S.Store conn.old).now.schema ≡ third_schema) }
    ensures made { OnOk result (B.BeforeCommit.makes before.old before.new) }
    ensures left_of { IfErr result (λ f. (before.new ≡ before.old)
        ⊎ (IsOutside f × B.BeforeCommit.leaves before.old before.new)) }
{
    match renew_tables(alloc, conn, number) {
        Ok(profile) => match before.ready() {
            Ok(()) => Ok(profile),
            Err(fault) => Err(fault),
        },
        Err(fault) => Err(fault),
    }
}

// The transaction. A fault may leave it open.
fn transact<S: Alter, B: BeforeCommit>(
    alloc: Global,
    conn: &mut Connection<S>,
    number: Option<u64>,
    before: &mut B,
) -> Result<Profile, StoreFault>
    requires { IfSome number (λ n. n < 2 ^ 63) }
    ensures performs { TransactsAs IsStored (IsBegun number) (state S.Store conn.old)
        (state S.Store conn.new) result }
    ensures fault { IsSafe IsSound (state S.Store conn.old) (state S.Store conn.new) result }
    ensures was { HasCleanDisk (state S.Store conn.new)
        → OnOk result (IsTrue (state S.Store conn.old).is_open) }
    ensures says { HasCleanDisk (state S.Store conn.new)
        → IfErr result (Says (state S.Store conn.old).now) }
    ensures whole { HasCleanDisk (state S.Store conn.new) → OnOk result ((c : Content)
        → RestsAs (IsLaid c) (state S.Store conn.old) → HasMeta c) }
    ensures left { HasCleanDisk (state S.Store conn.new) → OnOk result ((c : Content)
        → RestsAs (IsLaid c) (state S.Store conn.new) → HasSecondMeta c) }
    ensures profile { HasCleanDisk (state S.Store conn.new) → IfOk result (λ p. (c : Content)
        → RestsAs (IsLaid c) (state S.Store conn.old) → p ≡ profile_in c) }
    ensures tabled { HasCleanDisk (state S.Store conn.new)
        → OnOk result (IsTabled (state S.Store conn.old).now) }
    ensures alone { (IsTabled (state S.Store conn.old).now → ⊥)
        → CommitsNothing (state S.Store conn.old) (state S.Store conn.new) }
    ensures refused { IfErr result (λ f. IsRefusal f
        → CommitsNothing (state S.Store conn.old) (state S.Store conn.new)) }
    ensures keeps { OnErr result (HasCleanDisk (state S.Store conn.new)
        → KeepsCommit (state S.Store conn.old) (state S.Store conn.new)) }
    ensures once { CommitsOnce (state S.Store conn.old) (state S.Store conn.new) result }
    ensures ended { OnOk result (HasCleanDisk (state S.Store conn.new)
        → ((state S.Store conn.new).in_transaction ≡ false)
        × ((state S.Store conn.new).now ≡ (state S.Store conn.new).committed)) }
    ensures numbered { HasCleanDisk (state S.Store conn.new) → IfOk result (λ p. number ≡ None
        → p ≡ Everyday → (state S.Store conn.old).now.schema ≡ third_schema) }
    ensures made { OnOk result (B.BeforeCommit.makes before.old before.new) }
    ensures left_of { IfErr result (LeavesReadied B.BeforeCommit.makes B.BeforeCommit.leaves
        (Survives (state S.Store conn.old) (state S.Store conn.new) (λ _. ⊥))
        before.old before.new) }
{
    law_of_rest(conn);
    begin(conn)?;
    match renew(alloc, conn, number, before) {
        Ok(profile) => {
            commit(conn)?;
            Ok(profile)
        }
        Err(fault) => Err(fault),
    }
}

/// Opens a store as `set_up` does, and begins a mount of it in the same transaction. The commit is
/// its last call of the database.
pub fn set_up_fresh<S: Alter, B: BeforeCommit>(
    alloc: Global,
    conn: &mut Connection<S>,
    number: Option<u64>,
    before: &mut B,
) -> Result<Profile, StoreFault>
    requires { IfSome number (λ n. n < 2 ^ 63) }
    ensures serves { ServesAs IsStored (IsBegun number) (state S.Store conn.old)
        (state S.Store conn.new) result }
    ensures fault { IsSafe IsSound (state S.Store conn.old) (state S.Store conn.new) result }
    ensures was { HasCleanDisk (state S.Store conn.new)
        → OnOk result (IsTrue (state S.Store conn.old).is_open) }
    ensures says { HasCleanDisk (state S.Store conn.new)
        → IfErr result (Says (state S.Store conn.old).now) }
    // A store with a damaged `meta`, a counter that would give a number out again, or a schema other
    // than that of its version is never opened.
    ensures whole { HasCleanDisk (state S.Store conn.new) → OnOk result ((c : Content)
        → RestsAs (IsLaid c) (state S.Store conn.old) → HasMeta c) }
    // The rows of `meta` that it leaves are whole too, so the next opening takes them.
    ensures left { HasCleanDisk (state S.Store conn.new) → OnOk result ((c : Content)
        → RestsAs (IsLaid c) (state S.Store conn.new) → HasSecondMeta c) }
    ensures profile { HasCleanDisk (state S.Store conn.new) → IfOk result (λ p. (c : Content)
        → RestsAs (IsLaid c) (state S.Store conn.old) → p ≡ profile_in c) }
    ensures tabled { HasCleanDisk (state S.Store conn.new)
        → OnOk result (IsTabled (state S.Store conn.old).now) }
    // Only a store with the schema of its version is changed, however the call ends,
    ensures alone { (IsTabled (state S.Store conn.old).now → ⊥)
        → LeavesAlone (state S.Store conn.old) (state S.Store conn.new) }
    // and no database that is refused. No transaction is left open.
    ensures refused { IfErr result (λ f. IsRefusal f
        → LeavesAlone (state S.Store conn.old) (state S.Store conn.new)) }
    ensures ended { HasCleanDisk (state S.Store conn.new)
        → (state S.Store conn.new).in_transaction ≡ false }
    // Where the call fails, what was committed before is seen, whatever the database.
    ensures undone { OnErr result (RollsBack (state S.Store conn.old) (state S.Store conn.new)) }
    // It commits once at most: after a crash all of it is seen, or nothing.
    ensures once { CommitsOnce (state S.Store conn.old) (state S.Store conn.new) result }
    // Without a number no everyday store of version 2 is opened.
    ensures numbered { HasCleanDisk (state S.Store conn.new) → IfOk result (λ p. number ≡ None
        → p ≡ Everyday → (state S.Store conn.old).now.schema ≡ third_schema) }
    // Where a test fails, it was not made ready, and is as it was.
    ensures made { OnOk result (B.BeforeCommit.makes before.old before.new) }
    ensures left_of { IfErr result (LeavesReadied B.BeforeCommit.makes B.BeforeCommit.leaves
        (Survives (state S.Store conn.old) (state S.Store conn.new) (λ _. ⊥))
        before.old before.new) }
{
    match transact(alloc, conn, number, before) {
        Ok(profile) => Ok(profile),
        Err(fault) => {
            undo(conn);
            Err(fault)
        }
    }
}
