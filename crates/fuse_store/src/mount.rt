// The begin of a mount.
ghost use Rattle.std.specs.Prelude.{◌≡◌, ◌<◌, ◌^◌, ℕ, List, [], true, false, None, codes, IsTrue};
ghost use Rattle.std.specs.Prelude.{IfSome, IfOk, IfErr, IsErrAnd, OnOk, OnErr};
ghost use Rattle.sqlite.specs.State.{HasCleanDisk, Survives};
ghost use Rattle.sqlite.specs.Held.{state};
ghost use Rattle.sqlite_schema.specs.Names.{table_named};
ghost use Rattle.fuse_keeper.specs.declared.fault.StoreFault.TheVariants.{NotAStore};
ghost use Rattle.fuse_init.specs.declared.profile.Profile.TheVariants.{Everyday};
ghost use Rattle.fuse_store_tables.specs.Layout.{third_schema};
ghost use Rattle.fuse_tree.specs.State.{profile_of};
ghost use Rattle.fuse_store_tables.specs.Content.{Content, LeftAs};
ghost use Rattle.fuse_store_tables.specs.Faults.{IsOutside, IsPlain};
ghost use Rattle.fuse_store_tables.specs.Moves.{RestsAs, ServesAs, StaysOpen, IsSafe};
ghost use Rattle.fuse_store_tables.specs.Moves.{Serves, LeavesAlone, RollsBack, CommitsOnce};
ghost use Rattle.fuse_store_tables.specs.Clearing.{IsBegun, cleared};
ghost use Rattle.fuse_store_tables.specs.Opening.{IsStored, IsLaid, IsSecond};
ghost use Rattle.fuse_store_tables.specs.Readying.{LeavesReadied};
ghost use Rattle.fuse_store_tables.specs.Saying.{Says, IsTabled, IsRefusal};
ghost use Rattle.fuse_data.specs.declared.gaps.Gap.{Gap};
ghost use Rattle.fuse_store_tree.specs.Holding.{Holding, HeldFor};
ghost use Rattle.fuse_store_tree.specs.Leaving.{ListsInUse};
ghost use Rattle.fuse_store.specs.Mounting.{cleared_for};
ghost use Rattle.fuse_store.specs.Opening.{Stored, StoredFor, WasOver, IsWholeOf, opened_for};
ghost use Rattle.fuse_store.specs.Opening.{IsReady, ReadyFor, SecondEveryday};
ghost use Rattle.fuse_store.specs.Starting.{BegunFor};

use fuse_init::Profile;
use fuse_keeper::StoreFault;
use fuse_plan::clearing;
use fuse_store_tables::{BeforeCommit, blocks_are_apart, set_up_fresh};
use fuse_store_tree::rows_in_order;
use sqlite::{Alter, Connection, Error};
use std::alloc::Global;

/// Begins a mount: deletes records and lots, and the state of the last mount in the tree. The
/// commit is its last call of the database.
pub(crate) fn begin_mount<S: Alter>(conn: &mut Connection<S>) -> Result<(), StoreFault>
    ensures serves { (file : List ℕ) → ServesAs (HeldFor file)
        (λ y. HeldFor file (cleared_for y)) (state S.Store conn.old) (state S.Store conn.new)
        result }
    ensures open { StaysOpen (state S.Store conn.old) (state S.Store conn.new) result }
    ensures fault { (file : List ℕ) → IsSafe (HeldFor file) (state S.Store conn.old)
        (state S.Store conn.new) result }
    // The pieces that are left were listed before.
    ensures lists { HasCleanDisk (state S.Store conn.new) → (file : List ℕ) (y : Holding)
        (gaps : List Gap) → RestsAs (HeldFor file y) (state S.Store conn.old)
        → ListsInUse gaps (state S.Store conn.old).now
        → OnOk result (ListsInUse gaps (state S.Store conn.new).now) }
    // The fault is never `NotAStore` or `Version`.
    ensures plain { IfErr result IsPlain }
    // No transaction is left open, and damage is left as it is.
    ensures ended { HasCleanDisk (state S.Store conn.new)
        → (state S.Store conn.new).in_transaction ≡ false }
    ensures refused { IfErr result (λ f. IsRefusal f
        → LeavesAlone (state S.Store conn.old) (state S.Store conn.new)) }
    ensures undone { OnErr result (RollsBack (state S.Store conn.old) (state S.Store conn.new)) }
    // Of rows that no tree has, those of the last mount are deleted too. It commits once at most.
    ensures rows { Serves cleared (state S.Store conn.old) (state S.Store conn.new) result }
    ensures fit { ServesAs IsSecond (λ c. IsSecond (cleared c)) (state S.Store conn.old)
        (state S.Store conn.new) result }
    ensures once { CommitsOnce (state S.Store conn.old) (state S.Store conn.new) result }
{
    clearing();
    rows_in_order();
    fuse_store_tables::begin_mount(conn)
}

/// Opens a store and begins a mount of it, in one transaction. The commit is its last call of the
/// database.
pub(crate) fn set_up_begun<S: Alter, B: BeforeCommit>(
    alloc: Global,
    conn: &mut Connection<S>,
    number: Option<u64>,
    before: &mut B,
) -> Result<Profile, StoreFault>
    requires { IfSome number (λ n. n < 2 ^ 63) }
    ensures serves { (file : List ℕ) → ServesAs (ReadyFor number file) (BegunFor file)
        (state S.Store conn.old) (state S.Store conn.new) result }
    ensures safe { (file : List ℕ) → IsSafe (ReadyFor number file) (state S.Store conn.old)
        (state S.Store conn.new) result }
    ensures was { HasCleanDisk (state S.Store conn.new) → OnOk result
        (IsTrue (state S.Store conn.old).is_open
        × ((state S.Store conn.old).in_transaction ≡ false)) }
    ensures says { HasCleanDisk (state S.Store conn.new)
        → IfErr result (Says (state S.Store conn.old).now) }
    // The profile is that of the store.
    ensures profile { HasCleanDisk (state S.Store conn.new) → (file : List ℕ)
        → IfOk result (λ p. (z : Stored) → WasOver file z (state S.Store conn.old)
        → p ≡ profile_of (opened_for z).tree) }
    ensures whole { HasCleanDisk (state S.Store conn.new) → IfOk result (λ p. (c : Content)
        → IsLaid c (state S.Store conn.old).now → IsWholeOf p c) }
    ensures tabled { HasCleanDisk (state S.Store conn.new)
        → OnOk result (IsTabled (state S.Store conn.old).now) }
    ensures absent { (state S.Store conn.old).in_transaction ≡ false
        → table_named (state S.Store conn.old).now.schema (codes "meta") ≡ None
        → IsErrAnd result (λ f. f ≡ NotAStore) }
    // The same of a store that a crash left.
    ensures begun { HasCleanDisk (state S.Store conn.new) → (file : List ℕ) → OnOk result
        ((z : Stored) → WasOver file z (state S.Store conn.old) → IsReady number file z
        → RestsAs (BegunFor file z) (state S.Store conn.new)) }
    ensures crash { Survives (state S.Store conn.old) (state S.Store conn.new)
        (λ db. (file : List ℕ) (z : Stored) → WasOver file z (state S.Store conn.old)
        → IsReady number file z → LeftAs (BegunFor file z) db) }
    ensures kept { (file : List ℕ) → OnErr result (HasCleanDisk (state S.Store conn.new)
        → IsTrue (state S.Store conn.new).is_open → (z : Stored)
        → WasOver file z (state S.Store conn.old)
        → RestsAs (StoredFor file z) (state S.Store conn.new)) }
    ensures fault { HasCleanDisk (state S.Store conn.new) → (file : List ℕ)
        → IfErr result (λ f. (z : Stored) → WasOver file z (state S.Store conn.old)
        → IsReady number file z → IsOutside f) }
    // All rows are kept but those that the begin of a mount deletes.
    ensures rows { ServesAs IsStored (IsBegun number) (state S.Store conn.old) (state S.Store conn.new)
        result }
    ensures alone { (state S.Store conn.old).in_transaction ≡ false
        → (IsTabled (state S.Store conn.old).now → ⊥)
        → LeavesAlone (state S.Store conn.old) (state S.Store conn.new) }
    ensures refused { IfErr result (λ f. IsRefusal f
        → LeavesAlone (state S.Store conn.old) (state S.Store conn.new)) }
    ensures ended { HasCleanDisk (state S.Store conn.new)
        → (state S.Store conn.old).in_transaction ≡ false
        → (state S.Store conn.new).in_transaction ≡ false }
    // Where the call fails, what was committed before is seen, whatever the database; and it commits
    // once at most.
    ensures undone { (state S.Store conn.old).in_transaction ≡ false
        → OnErr result (RollsBack (state S.Store conn.old) (state S.Store conn.new)) }
    ensures once { CommitsOnce (state S.Store conn.old) (state S.Store conn.new) result }
    // What was an everyday store of version 2 lists no piece.
    ensures none { HasCleanDisk (state S.Store conn.new) → OnOk result ((y : Holding)
        (gaps : List Gap) → WasOver [] (SecondEveryday y) (state S.Store conn.old)
        → ListsInUse gaps (state S.Store conn.new).now) }
    // Without a number no everyday store of version 2 is opened.
    ensures numbered { HasCleanDisk (state S.Store conn.new) → IfOk result (λ p. number ≡ None
        → p ≡ Everyday → (state S.Store conn.old).now.schema ≡ third_schema) }
    ensures busy { (state S.Store conn.old).in_transaction ≡ true
        → IsErrAnd result (λ f. conn.new ≡ conn.old) }
    // Where a test fails, what is to be made ready is as it was.
    ensures made { OnOk result (B.BeforeCommit.makes before.old before.new) }
    ensures left_of { IfErr result (LeavesReadied B.BeforeCommit.makes B.BeforeCommit.leaves
        (Survives (state S.Store conn.old) (state S.Store conn.new) (λ _. ⊥))
        before.old before.new) }
{
    clearing();
    rows_in_order();
    blocks_are_apart();
    if !conn.is_autocommit() {
        return Err(StoreFault::Sql(Error::InvalidQuery));
    }
    if conn.schema().table_named(b"meta").is_none() {
        return Err(StoreFault::NotAStore);
    }
    set_up_fresh(alloc, conn, number, before)
}
