// The opening of the tables of a store.
ghost use Rattle.std.specs.Prelude.{◌≡◌, ◌<◌, ◌^◌, ℕ, List, [], true, false, None, codes, IsTrue};
ghost use Rattle.std.specs.Prelude.{IfSome, IfOk, IfErr, IsErrAnd, OnOk, OnErr};
ghost use Rattle.sqlite.specs.State.{HasCleanDisk, IsLive, Survives};
ghost use Rattle.sqlite.specs.Held.{state};
ghost use Rattle.sqlite_schema.specs.Names.{table_named};
ghost use Rattle.fuse_keeper.specs.declared.fault.StoreFault.TheVariants.{NotAStore};
ghost use Rattle.fuse_init.specs.declared.profile.Profile.TheVariants.{Everyday};
ghost use Rattle.fuse_data.specs.declared.gaps.Gap.{Gap};
ghost use Rattle.fuse_store_tables.specs.Layout.{third_schema};
ghost use Rattle.fuse_store_tree.specs.Holding.{Holding};
ghost use Rattle.fuse_store_tree.specs.Leaving.{ListsInUse};
ghost use Rattle.fuse_tree.specs.State.{profile_of};
ghost use Rattle.fuse_store_tables.specs.Content.{Content, LeftAs};
ghost use Rattle.fuse_store_tables.specs.Faults.{IsOutside};
ghost use Rattle.fuse_store_tables.specs.Moves.{RestsAs, ServesAs, IsSafe, LeavesAlone};
ghost use Rattle.fuse_store_tables.specs.Moves.{RollsBack, CommitsOnce};
ghost use Rattle.fuse_store_tables.specs.Opening.{IsStored, IsOpened, IsLaid, IsWanted};
ghost use Rattle.fuse_store_tables.specs.Readying.{LeavesReadied};
ghost use Rattle.fuse_store_tables.specs.Saying.{Says, IsTabled, IsRefusal, IsToMigrate};
ghost use Rattle.fuse_store.specs.Opening.{Stored, StoredFor, OpenedFor, WasOver};
ghost use Rattle.fuse_store.specs.Opening.{opened_for, IsReady, IsWantedOf, ReadyFor, WantedFor};
ghost use Rattle.fuse_store.specs.Opening.{IsWholeOf, SecondEveryday};

use fuse_init::Profile;
use fuse_keeper::StoreFault;
use fuse_store_tables::{BeforeCommit, blocks_are_apart, set_up};
use fuse_store_tree::rows_in_order;
use sqlite::{Alter, Connection, Error};
use std::alloc::Global;

/// Opens a store: tests it, migrates a store of version 1 to version 2, and an everyday one of
/// version 2 to version 3, which takes a number, and makes the index of version 2 where it is
/// missing. The profile is the store's. Where one is wanted, a store of another is `Damaged`, and is
/// left as it was. The commit is its last call of the database.
pub(crate) fn set_up_for<S: Alter, B: BeforeCommit>(
    alloc: Global,
    conn: &mut Connection<S>,
    wanted: Option<Profile>,
    number: Option<u64>,
    before: &mut B,
) -> Result<Profile, StoreFault>
    requires { IfSome number (λ n. n < 2 ^ 63) }
    // Over any data file, which is neither read nor written.
    ensures serves { (file : List ℕ) → ServesAs (ReadyFor number file) (OpenedFor file)
        (state S.Store conn.old) (state S.Store conn.new) result }
    ensures fault { (file : List ℕ) → IsSafe (WantedFor wanted number file)
        (state S.Store conn.old) (state S.Store conn.new) result }
    ensures wanted { IfOk result (IsWanted wanted) }
    ensures was { HasCleanDisk (state S.Store conn.new) → OnOk result
        (IsTrue (state S.Store conn.old).is_open
        × ((state S.Store conn.old).in_transaction ≡ false)) }
    ensures says { HasCleanDisk (state S.Store conn.new)
        → IfErr result (Says (state S.Store conn.old).now) }
    // A store with a damaged `meta` or without a table of its version is never opened. No missing
    // table is made.
    // The profile is that of the store.
    ensures profile { HasCleanDisk (state S.Store conn.new) → (file : List ℕ)
        → IfOk result (λ p. (z : Stored) → WasOver file z (state S.Store conn.old)
        → p ≡ profile_of (opened_for z).tree) }
    ensures whole { HasCleanDisk (state S.Store conn.new) → IfOk result (λ p. (c : Content)
        → IsLaid c (state S.Store conn.old).now → IsWholeOf p c) }
    ensures tabled { HasCleanDisk (state S.Store conn.new)
        → OnOk result (IsTabled (state S.Store conn.old).now) }
    ensures absent { (state S.Store conn.old).in_transaction ≡ false
        → table_named (state S.Store conn.old).now.schema (codes "meta") ≡ None
        → IsErrAnd result (λ f. f ≡ NotAStore) }
    // The same of a store that a crash left.
    ensures ok { HasCleanDisk (state S.Store conn.new) → (file : List ℕ) → OnOk result
        ((z : Stored) → WasOver file z (state S.Store conn.old) → IsReady number file z
        → RestsAs (OpenedFor file z) (state S.Store conn.new)) }
    ensures crash { Survives (state S.Store conn.old) (state S.Store conn.new)
        (λ db. (file : List ℕ) (z : Stored) → WasOver file z (state S.Store conn.old)
        → IsReady number file z → LeftAs (OpenedFor file z) db) }
    ensures kept { (file : List ℕ) → OnErr result (HasCleanDisk (state S.Store conn.new)
        → IsTrue (state S.Store conn.new).is_open → (z : Stored)
        → WasOver file z (state S.Store conn.old)
        → RestsAs (StoredFor file z) (state S.Store conn.new)) }
    ensures sure { HasCleanDisk (state S.Store conn.new) → (file : List ℕ)
        → IfErr result (λ f. (z : Stored) → WasOver file z (state S.Store conn.old)
        → IsReady number file z → IsWantedOf wanted z → IsOutside f) }
    // All rows are kept, those too that no tree has.
    ensures rows { ServesAs IsStored (IsOpened number) (state S.Store conn.old) (state S.Store conn.new)
        result }
    // Only a store that is to be migrated or lacks the index is changed, and no database that is
    // refused.
    ensures alone { (state S.Store conn.old).in_transaction ≡ false
        → (IsToMigrate (state S.Store conn.old).now → ⊥)
        → LeavesAlone (state S.Store conn.old) (state S.Store conn.new) }
    ensures refused { IfErr result (λ f. IsRefusal f
        → LeavesAlone (state S.Store conn.old) (state S.Store conn.new)) }
    ensures ended { HasCleanDisk (state S.Store conn.new)
        → (state S.Store conn.old).in_transaction ≡ false
        → (state S.Store conn.new).in_transaction ≡ false }
    // Where the call fails, what was committed before is seen, whatever the database; and it commits
    // once at most.
    ensures undone { (state S.Store conn.old).in_transaction ≡ false
        → OnErr result (RollsBack (state S.Store conn.old) (state S.Store conn.new)) }
    ensures once { CommitsOnce (state S.Store conn.old) (state S.Store conn.new) result }
    // What was an everyday store of version 2 lists no piece.
    ensures none { HasCleanDisk (state S.Store conn.new) → OnOk result ((y : Holding)
        (gaps : List Gap) → WasOver [] (SecondEveryday y) (state S.Store conn.old)
        → ListsInUse gaps (state S.Store conn.new).now) }
    // Without a number no everyday store of version 2 is opened.
    ensures numbered { HasCleanDisk (state S.Store conn.new) → IfOk result (λ p. number ≡ None
        → p ≡ Everyday → (state S.Store conn.old).now.schema ≡ third_schema) }
    ensures busy { (state S.Store conn.old).in_transaction ≡ true
        → IsErrAnd result (λ f. conn.new ≡ conn.old) }
    // Where a test fails, what is to be made ready is as it was.
    ensures made { OnOk result (B.BeforeCommit.makes before.old before.new) }
    ensures left_of { IfErr result (LeavesReadied B.BeforeCommit.makes B.BeforeCommit.leaves
        (Survives (state S.Store conn.old) (state S.Store conn.new) (λ _. ⊥))
        before.old before.new) }
{
    rows_in_order();
    blocks_are_apart();
    if !conn.is_autocommit() {
        return Err(StoreFault::Sql(Error::InvalidQuery));
    }
    if conn.schema().table_named(b"meta").is_none() {
        return Err(StoreFault::NotAStore);
    }
    set_up(alloc, conn, wanted, number, before)
}

/// Of a store that was left so, outside a transaction, all that was committed is seen.
pub(crate) fn law_of_rest<S: Alter>(conn: &Connection<S>)
    ensures live { IsLive (state S.Store conn.now) }
    ensures settled { (state S.Store conn.now).in_transaction ≡ false
        → IsTrue (state S.Store conn.now).is_open
        → (state S.Store conn.now).now ≡ (state S.Store conn.now).committed }
    ensures rests { (file : List ℕ) (z : Stored) → WasOver file z (state S.Store conn.now)
        → RestsAs (StoredFor file z) (state S.Store conn.now) }
{
    let _ = conn.schema();
    let _ = conn.is_autocommit();
}
