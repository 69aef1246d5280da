// The store of a database and its data file is opened, as it is asked.
ghost use Rattle.std.specs.Prelude.{◌≡◌, false, None, codes, IfOk, IfErr, IsErrAnd};
ghost use Rattle.sqlite.specs.State.{HasCleanDisk, Survives};
ghost use Rattle.sqlite.specs.Held.{state};
ghost use Rattle.sqlite_schema.specs.Names.{table_named};
ghost use Rattle.fuse_keeper.specs.declared.fault.StoreFault.TheVariants.{NotAStore};
ghost use Rattle.fuse_keeper.specs.KeeperState.{IsFirm};
ghost use Rattle.fuse_store_tables.specs.Content.{Content};
ghost use Rattle.fuse_store_tables.specs.Faults.{IsOutside};
ghost use Rattle.fuse_store_tables.specs.Moves.{RestsAs, LeavesAlone};
ghost use Rattle.fuse_store_tables.specs.Opening.{IsStored, IsLaid};
ghost use Rattle.fuse_store_tables.specs.Saying.{Says, IsTabled, IsRefusal};
ghost use Rattle.fuse_store_tree.specs.StoreState.{IsHonest};
ghost use Rattle.fuse_store.specs.Creating.{IsBlank};
ghost use Rattle.fuse_store.specs.Opening.{Stored, WasFor, IsHonestFor, IsUndone, IsWholeOf};
ghost use Rattle.fuse_store.specs.Opening.{LeavesContents};
ghost use Rattle.fuse_store.specs.TableKeeper.{SharesMedium, LiesInMemory, parts_state, parts_for};
ghost use Rattle.fuse_store.specs.StoreKeeper.{own_profile, own_conn, own_store, store_told};
ghost use Rattle.fuse_store_files.specs.Databases.{IsToOpen, IsToMake, IsToChange};
ghost use Rattle.fuse_store_files.specs.Starting.{RowsKept};
ghost use Rattle.fuse_store_files.specs.inner.Opened.{OpensOver, LeavesMade};

use crate::files::Opening;
use fuse_store::{StoreFault, StoreKeeper, StoreParts, open_fresh, open_or_create};
use sqlite::Alter;
use sqlite_disk::Disk;
use std::alloc::Global;

/// A fault gives back what the store lies in.
pub(crate) fn open_as<S: Alter, D: Disk + Drop>(
    alloc: Global,
    parts: StoreParts<S, D>,
    how: Opening,
) -> Result<StoreKeeper<S, D>, (StoreFault, StoreParts<S, D>)>
    ensures opens { IfOk result (λ k. (store_told S.Store D.Disk k).is_honest
        → OpensOver (own_profile k) how (parts_state S.Store D.Disk parts) (store_told S.Store D.Disk k)) }
    ensures honest { IfOk result (λ k. (store_told S.Store D.Disk k).is_honest
        → IsHonest (parts_for (own_profile k) S.Store D.Disk parts)) }
    ensures clean { IfOk result (λ k. (store_told S.Store D.Disk k).is_honest
        → HasCleanDisk (state S.Store (own_conn k))) }
    ensures firm { IfOk result (λ k. (store_told S.Store D.Disk k).is_honest
        → IsFirm (store_told S.Store D.Disk k)) }
    ensures going { IfOk result (λ k. (store_told S.Store D.Disk k).has_failed ≡ false) }
    ensures medium { IfOk result (λ k. SharesMedium (LiesInMemory S.Store D.Disk) (own_store S.Store D.Disk k)
        (store_told S.Store D.Disk k)) }
    ensures crash { IfErr result (λ r. Survives (state S.Store parts.conn) (state S.Store r.1.conn)
        (LeavesMade how (parts_state S.Store D.Disk parts) (parts_state S.Store D.Disk r.1))) }
    // The data file has what the store had of it.
    ensures contents { IfErr result (λ r. IsToOpen how (state S.Store parts.conn).now
        → LeavesContents (parts_state S.Store D.Disk parts) (parts_state S.Store D.Disk r.1)) }
    ensures fault { IfErr result (λ r. (z : Stored) → IsHonestFor z (parts_state S.Store D.Disk r.1)
        → WasFor z (parts_state S.Store D.Disk parts) → IsOutside r.0) }
    ensures refused { IfErr result (λ r. IsRefusal r.0
        → LeavesAlone (state S.Store parts.conn) (state S.Store r.1.conn)) }
    ensures rows { IfOk result (λ k. (store_told S.Store D.Disk k).is_honest → (c : Content)
        → RestsAs (IsStored c) (state S.Store parts.conn)
        → RestsAs (RowsKept how c) (state S.Store (own_conn k))) }
    // Of any database: only a store of a version that is known is opened, and what the fault says is
    // so. One that isn't to be changed is left as it was.
    ensures tabled { IfOk result (λ k. (store_told S.Store D.Disk k).is_honest
        → IsToOpen how (state S.Store parts.conn).now → IsTabled (state S.Store parts.conn).now) }
    ensures whole { IfOk result (λ k. (store_told S.Store D.Disk k).is_honest
        → IsToOpen how (state S.Store parts.conn).now → (c : Content)
        → IsLaid c (state S.Store parts.conn).now → IsWholeOf (own_profile k) c) }
    ensures stays { IfOk result (λ k. (store_told S.Store D.Disk k).is_honest
        → IsToOpen how (state S.Store parts.conn).now
        → ¬ (IsToChange how (state S.Store parts.conn).now)
        → LeavesAlone (state S.Store parts.conn) (state S.Store (own_conn k))) }
    ensures says { IfErr result (λ r. HasCleanDisk (state S.Store r.1.conn)
        → IsToOpen how (state S.Store parts.conn).now → Says (state S.Store parts.conn).now r.0) }
    ensures alone { IfErr result (λ r. (state S.Store parts.conn).in_transaction ≡ false
        → IsToOpen how (state S.Store parts.conn).now
        → ¬ (IsToChange how (state S.Store parts.conn).now)
        → LeavesAlone (state S.Store parts.conn) (state S.Store r.1.conn)) }
    ensures undone { IfErr result (λ r. IsToOpen how (state S.Store parts.conn).now
        → IsUndone (state S.Store parts.conn) (state S.Store r.1.conn)) }
    ensures absent { (state S.Store parts.conn).in_transaction ≡ false
        → IsToOpen how (state S.Store parts.conn).now
        → table_named (state S.Store parts.conn).now.schema (codes "meta") ≡ None
        → IsErrAnd result (λ r. r.0 ≡ NotAStore) }
    ensures blank { IfErr result (λ r. IsToMake how → IsBlank (state S.Store parts.conn)
        → IsOutside r.0) }
{
    match how {
        Opening::Existing(number) => StoreKeeper::open(alloc, parts, Some(number)),
        Opening::Any(new) => open_or_create(alloc, parts, new),
        Opening::Fresh(new) => open_fresh(alloc, parts, new),
    }
}
