// The keeper over any database: of the store in it, or of a new one.
ghost use Rattle.std.specs.Prelude.{◌≡◌, [], Some, None, true, false, codes, IsTrue, IfOk, IfErr};
ghost use Rattle.std.specs.Prelude.{IsErrAnd};
ghost use Rattle.sqlite.specs.State.{HasCleanDisk, Survives};
ghost use Rattle.sqlite.specs.Held.{state};
ghost use Rattle.sqlite_schema.specs.Names.{table_named};
ghost use Rattle.fuse_tree.specs.Rowed.{rowed};
ghost use Rattle.fuse_keeper.specs.declared.fault.StoreFault.TheVariants.{NotAStore};
ghost use Rattle.fuse_keeper.specs.KeeperState.{IsFirm, StandsFor};
ghost use Rattle.fuse_keeper.specs.Lots.{SameLots};
ghost use Rattle.fuse_store_tables.specs.Content.{Content};
ghost use Rattle.fuse_store_tables.specs.Faults.{IsOutside};
ghost use Rattle.fuse_store_tables.specs.Layout.{no_schema};
ghost use Rattle.fuse_store_tables.specs.Making.{IsBare};
ghost use Rattle.fuse_store_tables.specs.Moves.{RestsAs, LeavesAlone};
ghost use Rattle.fuse_store_tables.specs.Opening.{IsLaid};
ghost use Rattle.fuse_store_tables.specs.Saying.{Says, IsTabled, IsRefusal, IsToMigrate};
ghost use Rattle.fuse_store_tree.specs.Store.{records_of};
ghost use Rattle.fuse_store_tree.specs.Holding.{lots_of};
ghost use Rattle.fuse_tree.specs.State.{profile_of};
ghost use Rattle.fuse_store.specs.Creating.{IsBlank, IsDataOf};
ghost use Rattle.fuse_store.specs.Opening.{IsHonestFor, IsUndone, IsWholeOf, KeepsRows};
ghost use Rattle.fuse_store.specs.Opening.{LeavesContents, Stored, StoredFor, WasFor, opened_for};
ghost use Rattle.fuse_store.specs.Opening.{IsUntouched, numbered, seen_of, store_number};
ghost use Rattle.fuse_store_tree.specs.StoreState.{IsHonest};
ghost use Rattle.fuse_store.specs.Starting.{LeavesStarted, BeginsAfter, KeepsNamed};
ghost use Rattle.fuse_store.specs.Starting.{LeavesFresh, begun_for, holding_for};
ghost use Rattle.fuse_store.specs.Storing.{opening_fault};
ghost use Rattle.fuse_store.specs.TableKeeper.{LiesInMemory, SharesMedium, disk_in, parts_for};
ghost use Rattle.fuse_store.specs.TableKeeper.{parts_state};
ghost use Rattle.fuse_store.specs.StoreKeeper.{own_conn, own_profile, own_store, store_told};

use crate::creation::is_blank;
use crate::new_store::NewStore;
use crate::parts::StoreParts;
use crate::store_keeper::StoreKeeper;
use fuse_keeper::StoreFault;
use sqlite::{Alter, Error, ErrorCode};
use sqlite_disk::Disk;
use std::alloc::Global;

/// The keeper over a database. A blank database gets this new store; any other is
/// opened. A fault gives back what
/// was handed in.
pub fn open_or_create<S: Alter, D: Disk + Drop>(
    alloc: Global,
    parts: StoreParts<S, D>,
    new: NewStore,
) -> Result<StoreKeeper<S, D>, (StoreFault, StoreParts<S, D>)>
    ensures stands { IfOk result (λ k. (store_told S.Store D.Disk k).is_honest
        → IsBlank (state S.Store parts.conn) → IsTrue (state S.Store parts.conn).is_open
        → StandsFor (store_told S.Store D.Disk k) (holding_for new).tree [] []) }
    ensures holds { IfOk result (λ k. (store_told S.Store D.Disk k).is_honest → (z : Stored)
        → WasFor z (parts_state S.Store D.Disk parts) → (store_told S.Store D.Disk k).holds
        (rowed (opened_for z).tree) (records_of (opened_for z).kept)) }
    ensures profile { IfOk result (λ k. (store_told S.Store D.Disk k).is_honest → (z : Stored)
        → WasFor z (parts_state S.Store D.Disk parts) → profile_of (opened_for z).tree ≡ own_profile k) }
    ensures new_profile { IfOk result (λ k. IsBlank (state S.Store parts.conn)
        → own_profile k ≡ new.kind.profile) }
    // The data file of an everyday store has its number.
    ensures new_number { IfOk result (λ k. IsBlank (state S.Store parts.conn)
        → IsDataOf new.kind.profile (store_number new.number) (own_store S.Store D.Disk k).contents.seen) }
    ensures lots { IfOk result (λ k. (store_told S.Store D.Disk k).is_honest → (z : Stored)
        → WasFor z (parts_state S.Store D.Disk parts)
        → SameLots (lots_of None (opened_for z)) (store_told S.Store D.Disk k).lots) }
    ensures new_lots { IfOk result (λ k. (store_told S.Store D.Disk k).is_honest
        → IsBlank (state S.Store parts.conn) → IsTrue (state S.Store parts.conn).is_open
        → SameLots (lots_of None (holding_for new)) (store_told S.Store D.Disk k).lots) }
    ensures was { IfOk result (λ k. (store_told S.Store D.Disk k).is_honest
        → IsTrue (state S.Store parts.conn).is_open × ((state S.Store parts.conn).in_transaction ≡ false)) }
    ensures honest { IfOk result (λ k. (store_told S.Store D.Disk k).is_honest
        → IsHonest (parts_for (own_profile k) S.Store D.Disk parts)) }
    ensures medium { IfOk result (λ k. SharesMedium (LiesInMemory S.Store D.Disk)
        (own_store S.Store D.Disk k) (store_told S.Store D.Disk k)) }
    ensures going { IfOk result (λ k. (store_told S.Store D.Disk k).has_failed ≡ false) }
    ensures firm { IfOk result (λ k. (store_told S.Store D.Disk k).is_honest
        → IsFirm (store_told S.Store D.Disk k)) }
    ensures crash { IfErr result (λ r. Survives (state S.Store parts.conn) (state S.Store r.1.conn)
        (LeavesStarted new (parts_state S.Store D.Disk parts)
        (parts_state S.Store D.Disk r.1))) }

    // A fault leaves the database as it was, and says nothing of a sound store.
    ensures bare { IfErr result (λ r. HasCleanDisk (state S.Store r.1.conn)
        → IsTrue (state S.Store r.1.conn).is_open
        → RestsAs (IsBare no_schema tt) (state S.Store parts.conn)
        → RestsAs (IsBare no_schema tt) (state S.Store r.1.conn)) }
    ensures kept { IfErr result (λ r. HasCleanDisk (state S.Store r.1.conn)
        → IsTrue (state S.Store r.1.conn).is_open → (z : Stored) → WasFor z (parts_state S.Store D.Disk parts)
        → RestsAs (StoredFor (seen_of z (parts_state S.Store D.Disk r.1)) z)
        (state S.Store r.1.conn)) }
    ensures fault_blank { IfErr result (λ r. IsBlank (state S.Store parts.conn) → IsOutside r.0) }
    ensures fault { IfErr result (λ r. (z : Stored) → IsHonestFor z (parts_state S.Store D.Disk r.1)
        → WasFor z (parts_state S.Store D.Disk parts) → IsOutside r.0) }
    // A crash leaves of the data file what a store had of it.
    ensures contents { IfErr result (λ r. (IsBlank (state S.Store parts.conn) → ⊥)
        → LeavesContents (parts_state S.Store D.Disk parts) (parts_state S.Store D.Disk r.1)) }
    ensures says { IfErr result (λ r. HasCleanDisk (state S.Store r.1.conn)
        → (IsBlank (state S.Store parts.conn) → ⊥) → Says (state S.Store parts.conn).now r.0) }
    // A database that is neither blank nor a store is refused.
    ensures absent { (state S.Store parts.conn).in_transaction ≡ false
        → (IsBlank (state S.Store parts.conn) → ⊥)
        → table_named (state S.Store parts.conn).now.schema (codes "meta") ≡ None
        → IsErrAnd result (λ r. r.0 ≡ NotAStore) }
    ensures whole { IfOk result (λ k. (store_told S.Store D.Disk k).is_honest
        → (IsBlank (state S.Store parts.conn) → ⊥) → (c : Content)
        → IsLaid c (state S.Store parts.conn).now → IsWholeOf (own_profile k) c) }
    ensures tabled { IfOk result (λ k. (store_told S.Store D.Disk k).is_honest
        → (IsBlank (state S.Store parts.conn) → ⊥) → IsTabled (state S.Store parts.conn).now) }
    // A refusal leaves everything as it was, and no transaction is left open.
    ensures refused { IfErr result (λ r. IsRefusal r.0
        → LeavesAlone (state S.Store parts.conn) (state S.Store r.1.conn)) }
    ensures untouched { IfErr result (λ r. IsRefusal r.0
        → IsUntouched (disk_in D.Disk parts.disk) (disk_in D.Disk r.1.disk)) }
    ensures alone { IfErr result (λ r. (state S.Store parts.conn).in_transaction ≡ false
        → (IsBlank (state S.Store parts.conn) → ⊥) → (IsToMigrate (state S.Store parts.conn).now → ⊥)
        → LeavesAlone (state S.Store parts.conn) (state S.Store r.1.conn)) }
    ensures ended { IfErr result (λ r. HasCleanDisk (state S.Store r.1.conn)
        → (state S.Store parts.conn).in_transaction ≡ false
        → (state S.Store r.1.conn).in_transaction ≡ false) }
    // Whatever the database is, what was committed before is seen, and a crash leaves that or one
    // database as a whole.
    ensures undone { IfErr result (λ r. (IsBlank (state S.Store parts.conn) → ⊥)
        → IsUndone (state S.Store parts.conn) (state S.Store r.1.conn)) }
    ensures busy { (state S.Store parts.conn).in_transaction ≡ true
        → IsErrAnd result (λ r. r.1 ≡ parts) }
    // All rows of a store are kept, those too that no tree has.
    ensures rows { IfOk result (λ k. (IsBlank (state S.Store parts.conn) → ⊥)
        → KeepsRows (numbered (Some new.number)) (state S.Store parts.conn) (state S.Store (own_conn k))) }
{
    if is_blank(&parts.conn) {
        StoreKeeper::create(alloc, parts, new)
    } else {
        StoreKeeper::open(alloc, parts, Some(new.number))
    }
}

/// The keeper over a database, for a mount that begins. A blank database gets this new
/// store; any other is opened, and a mount of it begins. A fault gives back what
/// was handed in.
pub fn open_fresh<S: Alter, D: Disk + Drop>(
    alloc: Global,
    parts: StoreParts<S, D>,
    new: NewStore,
) -> Result<StoreKeeper<S, D>, (StoreFault, StoreParts<S, D>)>
    ensures stands { IfOk result (λ k. (store_told S.Store D.Disk k).is_honest
        → IsBlank (state S.Store parts.conn) → IsTrue (state S.Store parts.conn).is_open
        → StandsFor (store_told S.Store D.Disk k) (holding_for new).tree [] []) }
    ensures holds { IfOk result (λ k. (store_told S.Store D.Disk k).is_honest → (z : Stored)
        → WasFor z (parts_state S.Store D.Disk parts) → (store_told S.Store D.Disk k).holds
        (rowed (begun_for z).tree) (records_of (begun_for z).kept)) }
    ensures begins { IfOk result (λ k. (store_told S.Store D.Disk k).is_honest → (z : Stored)
        → WasFor z (parts_state S.Store D.Disk parts) → BeginsAfter (own_profile k) z (store_told S.Store D.Disk k)) }
    ensures profile { IfOk result (λ k. (store_told S.Store D.Disk k).is_honest → (z : Stored)
        → WasFor z (parts_state S.Store D.Disk parts) → profile_of (opened_for z).tree ≡ own_profile k) }
    ensures new_profile { IfOk result (λ k. IsBlank (state S.Store parts.conn)
        → own_profile k ≡ new.kind.profile) }
    // The data file of an everyday store has its number.
    ensures new_number { IfOk result (λ k. IsBlank (state S.Store parts.conn)
        → IsDataOf new.kind.profile (store_number new.number) (own_store S.Store D.Disk k).contents.seen) }
    ensures lots { IfOk result (λ k. (store_told S.Store D.Disk k).is_honest → (z : Stored)
        → WasFor z (parts_state S.Store D.Disk parts)
        → SameLots (lots_of None (begun_for z)) (store_told S.Store D.Disk k).lots) }
    ensures new_lots { IfOk result (λ k. (store_told S.Store D.Disk k).is_honest
        → IsBlank (state S.Store parts.conn) → IsTrue (state S.Store parts.conn).is_open
        → SameLots (lots_of None (holding_for new)) (store_told S.Store D.Disk k).lots) }
    ensures was { IfOk result (λ k. (store_told S.Store D.Disk k).is_honest
        → IsTrue (state S.Store parts.conn).is_open × ((state S.Store parts.conn).in_transaction ≡ false)) }
    ensures honest { IfOk result (λ k. (store_told S.Store D.Disk k).is_honest
        → IsHonest (parts_for (own_profile k) S.Store D.Disk parts)) }
    ensures firm { IfOk result (λ k. (store_told S.Store D.Disk k).is_honest
        → IsFirm (store_told S.Store D.Disk k)) }
    ensures medium { IfOk result (λ k. SharesMedium (LiesInMemory S.Store D.Disk)
        (own_store S.Store D.Disk k) (store_told S.Store D.Disk k)) }
    ensures going { IfOk result (λ k. (store_told S.Store D.Disk k).has_failed ≡ false) }
    ensures crash { IfErr result (λ r. Survives (state S.Store parts.conn) (state S.Store r.1.conn)
        (LeavesFresh new (parts_state S.Store D.Disk parts)
        (parts_state S.Store D.Disk r.1))) }

    // A fault leaves the database as it was, and says nothing of a sound store.
    ensures bare { IfErr result (λ r. HasCleanDisk (state S.Store r.1.conn)
        → IsTrue (state S.Store r.1.conn).is_open
        → RestsAs (IsBare no_schema tt) (state S.Store parts.conn)
        → RestsAs (IsBare no_schema tt) (state S.Store r.1.conn)) }
    ensures kept { IfErr result (λ r. HasCleanDisk (state S.Store r.1.conn)
        → IsTrue (state S.Store r.1.conn).is_open → (z : Stored) → WasFor z (parts_state S.Store D.Disk parts)
        → RestsAs (StoredFor (seen_of z (parts_state S.Store D.Disk r.1)) z)
        (state S.Store r.1.conn)) }
    ensures fault_blank { IfErr result (λ r. IsBlank (state S.Store parts.conn) → IsOutside r.0) }
    ensures fault { IfErr result (λ r. (z : Stored) → IsHonestFor z (parts_state S.Store D.Disk r.1)
        → WasFor z (parts_state S.Store D.Disk parts) → IsOutside r.0) }
    // A crash leaves of the data file what a store had of it.
    ensures contents { IfErr result (λ r. (IsBlank (state S.Store parts.conn) → ⊥)
        → LeavesContents (parts_state S.Store D.Disk parts) (parts_state S.Store D.Disk r.1)) }
    ensures says { IfErr result (λ r. HasCleanDisk (state S.Store r.1.conn)
        → (IsBlank (state S.Store parts.conn) → ⊥) → Says (state S.Store parts.conn).now r.0) }
    // A database that is neither blank nor a store is refused.
    ensures absent { (state S.Store parts.conn).in_transaction ≡ false
        → (IsBlank (state S.Store parts.conn) → ⊥)
        → table_named (state S.Store parts.conn).now.schema (codes "meta") ≡ None
        → IsErrAnd result (λ r. r.0 ≡ NotAStore) }
    ensures whole { IfOk result (λ k. (store_told S.Store D.Disk k).is_honest
        → (IsBlank (state S.Store parts.conn) → ⊥) → (c : Content)
        → IsLaid c (state S.Store parts.conn).now → IsWholeOf (own_profile k) c) }
    ensures tabled { IfOk result (λ k. (store_told S.Store D.Disk k).is_honest
        → (IsBlank (state S.Store parts.conn) → ⊥) → IsTabled (state S.Store parts.conn).now) }
    // A refusal leaves everything as it was, and no transaction is left open.
    ensures refused { IfErr result (λ r. IsRefusal r.0
        → LeavesAlone (state S.Store parts.conn) (state S.Store r.1.conn)) }
    ensures untouched { IfErr result (λ r. IsRefusal r.0
        → IsUntouched (disk_in D.Disk parts.disk) (disk_in D.Disk r.1.disk)) }
    ensures alone { IfErr result (λ r. (state S.Store parts.conn).in_transaction ≡ false
        → (IsBlank (state S.Store parts.conn) → ⊥) → (IsTabled (state S.Store parts.conn).now → ⊥)
        → LeavesAlone (state S.Store parts.conn) (state S.Store r.1.conn)) }
    ensures ended { IfErr result (λ r. HasCleanDisk (state S.Store r.1.conn)
        → (state S.Store parts.conn).in_transaction ≡ false
        → (state S.Store r.1.conn).in_transaction ≡ false) }
    // Whatever the database is, what was committed before is seen, and a crash leaves that or one
    // database as a whole.
    ensures undone { IfErr result (λ r. (IsBlank (state S.Store parts.conn) → ⊥)
        → IsUndone (state S.Store parts.conn) (state S.Store r.1.conn)) }
    ensures busy { (state S.Store parts.conn).in_transaction ≡ true
        → IsErrAnd result (λ r. r.1 ≡ parts) }
    // All rows of a store are kept but those that the begin of a mount deletes.
    ensures rows { IfOk result (λ k. (IsBlank (state S.Store parts.conn) → ⊥)
        → KeepsNamed (numbered (Some new.number)) (state S.Store parts.conn) (state S.Store (own_conn k))) }
{
    let blank = is_blank(&parts.conn);
    if blank {
        return StoreKeeper::create(alloc, parts, new);
    }
    StoreKeeper::open_begun(alloc, parts, Some(new.number))
}

/// The fault of a store whose file is not opened: a file that is no database is no store.
pub fn opening_fault(error: Error) -> StoreFault
    ensures { result ≡ opening_fault error }
{
    if matches!(error, Error::SqliteFailure(ErrorCode::NotADatabase)) {
        StoreFault::NotAStore
    } else {
        StoreFault::from(error)
    }
}
