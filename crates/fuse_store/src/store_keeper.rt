// The keeper of a store of either profile.
ghost use Rattle.std.specs.Prelude.{◌≡◌, [], None, true, false, codes, option_map};
ghost use Rattle.std.specs.Prelude.{IsTrue, IfOk, IfErr, IsErrAnd};
ghost use Rattle.sqlite.specs.State.{HasCleanDisk, Survives};
ghost use Rattle.sqlite.specs.Held.{state};
ghost use Rattle.sqlite_schema.specs.Names.{table_named};
ghost use Rattle.fuse_tree.specs.Rowed.{rowed};
ghost use Rattle.fuse_keeper.specs.declared.fault.StoreFault.TheVariants.{NotAStore};
ghost use Rattle.fuse_keeper.specs.KeeperState.{IsFirm, StandsFor};
ghost use Rattle.fuse_keeper.specs.Lots.{SameLots};
ghost use Rattle.fuse_store_tables.specs.Content.{Content};
ghost use Rattle.fuse_store_tables.specs.Faults.{IsOutside};
ghost use Rattle.fuse_store_tables.specs.Layout.{no_schema};
ghost use Rattle.fuse_store_tables.specs.Making.{IsBare};
ghost use Rattle.fuse_store_tables.specs.Moves.{RestsAs, LeavesAlone};
ghost use Rattle.fuse_store_tables.specs.Opening.{IsLaid};
ghost use Rattle.fuse_store_tables.specs.Refusing.{HasMetaTable};
ghost use Rattle.fuse_store_tables.specs.Saying.{IsTabled};
ghost use Rattle.fuse_store_tree.specs.Store.{records_of};
ghost use Rattle.fuse_store_tree.specs.Holding.{lots_of};
ghost use Rattle.fuse_store_tree.specs.StoreState.{IsHonest};
ghost use Rattle.fuse_tree.specs.State.{profile_of};
ghost use Rattle.fuse_store.specs.Creating.{IsBlank, IsDataOf, IsTakenFault, LeavesNew, origin_of};
ghost use Rattle.fuse_store.specs.Opening.{Stored, WasFor, store_number};
ghost use Rattle.fuse_store.specs.Opening.{OpenRefused, KeepsRows, IsWholeOf, opened_for, numbered};
ghost use Rattle.fuse_store.specs.Starting.{FreshRefused, KeepsNamed, begun_for, holding_for};
ghost use Rattle.fuse_store.specs.Starting.{BeginsAfter};
ghost use Rattle.fuse_store.specs.TableKeeper.{LiesInMemory, SharesMedium, parts_for, parts_state};
ghost use Rattle.fuse_store.specs.StoreKeeper.{own_conn, own_file, own_profile, own_store};
ghost use Rattle.fuse_store.specs.StoreKeeper.{store_told};
ghost use Rattle.fuse_store_tree.specs.Looking.{as_look_fault};

use crate::laws::tree_is_sound;
use crate::new_store::NewStore;
use crate::opening::open_parts;
use crate::opening_begun::open_parts_begun;
use crate::parts::StoreParts;
use crate::table_keeper::TableKeeper;
use crate::taken_lot::TakenLot;
use fuse_init::{EverydayProfile, PlainProfile, Profile};
use fuse_keeper::StoreFault;
use fuse_plan::rows_tell_state;
use fuse_store_tree::{Data, TableLook, lots_are_read, one_holding};
use sqlite::Alter;
use sqlite_disk::Disk;
use std::alloc::Global;
use std::marker::PhantomData;

/// A keeper over the tables of a database, by the profile of the store.
#[derive(Drop)]
pub enum StoreKeeper<S: Alter, D: Disk> {
    Plain(TableKeeper<PlainProfile, S, D>),
    Everyday(TableKeeper<EverydayProfile, S, D>),
}

impl<S: Alter, D: Disk + Drop> StoreKeeper<S, D> {
    /// A new store in a blank database, made in one transaction. A fault gives back what was handed
    /// in.
    pub(crate) fn create(
        alloc: Global,
        parts: StoreParts<S, D>,
        new: NewStore,
    ) -> Result<StoreKeeper<S, D>, (StoreFault, StoreParts<S, D>)>
        ensures stands { IfOk result (λ k. (store_told S.Store D.Disk k).is_honest
            → IsTrue (state S.Store parts.conn).is_open
            → StandsFor (store_told S.Store D.Disk k) (holding_for new).tree [] []) }
        ensures profile { IfOk result (λ k. own_profile k ≡ new.kind.profile) }
        ensures medium { IfOk result (λ k. SharesMedium (LiesInMemory S.Store D.Disk)
            (own_store S.Store D.Disk k) (store_told S.Store D.Disk k)) }
        ensures going { IfOk result (λ k. (store_told S.Store D.Disk k).has_failed ≡ false) }
        ensures firm { IfOk result (λ k. (store_told S.Store D.Disk k).is_honest
            → IsFirm (store_told S.Store D.Disk k)) }
        ensures lots { IfOk result (λ k. (store_told S.Store D.Disk k).is_honest
            → IsTrue (state S.Store parts.conn).is_open
            → SameLots (lots_of None (holding_for new)) (store_told S.Store D.Disk k).lots) }
        ensures blank { IfOk result (λ k. IsBlank (state S.Store parts.conn)) }
        ensures number { IfOk result (λ k. IsDataOf new.kind.profile (store_number new.number)
            (own_store S.Store D.Disk k).contents.seen) }
        ensures was { IfOk result (λ k. (store_told S.Store D.Disk k).is_honest
            → IsTrue (state S.Store parts.conn).is_open) }
        ensures honest { IfOk result (λ k. (store_told S.Store D.Disk k).is_honest
            → IsHonest (parts_for (own_profile k) S.Store D.Disk parts)) }
        ensures crash { IfErr result (λ r. Survives (state S.Store parts.conn) (state S.Store r.1.conn)
            (LeavesNew new.kind.profile new.kind.capacity (origin_of new)
            (parts_state S.Store D.Disk parts) (parts_state S.Store D.Disk r.1))) }
        ensures kept { IfErr result (λ r. HasCleanDisk (state S.Store r.1.conn)
            → IsTrue (state S.Store r.1.conn).is_open
            → RestsAs (IsBare no_schema tt) (state S.Store parts.conn)
            → RestsAs (IsBare no_schema tt) (state S.Store r.1.conn)) }
        // The fault is out of memory or of SQL, and no transaction is left open.
        ensures outside { IfErr result (λ r. IsOutside r.0) }
        ensures ended { IfErr result (λ r. HasCleanDisk (state S.Store r.1.conn)
            → (state S.Store parts.conn).in_transaction ≡ false
            → (state S.Store r.1.conn).in_transaction ≡ false) }
        ensures busy { (state S.Store parts.conn).in_transaction ≡ true
            → IsErrAnd result (λ r. r.1 ≡ parts) }
        // A database that is not blank is left as it was.
        ensures untouched { IfErr result (λ r. (state S.Store parts.conn).in_transaction ≡ false
            → (IsBlank (state S.Store parts.conn) → ⊥)
            → LeavesAlone (state S.Store parts.conn) (state S.Store r.1.conn)) }
        // Where there is a table `meta`, the fault is the error that SQLite gave.
        ensures taken { IfErr result (λ r. HasCleanDisk (state S.Store r.1.conn)
            → (state S.Store parts.conn).in_transaction ≡ false
            → HasMetaTable (state S.Store parts.conn).now.schema → IsTakenFault r.0) }
    {
        let from = new.origin();
        let volume = new.volume();
        match new.kind.profile {
            Profile::Plain => match TableKeeper::create(alloc, parts, volume, from) {
                Ok(keeper) => Ok(StoreKeeper::Plain(keeper)),
                Err(left) => Err(left),
            },
            Profile::Everyday => match TableKeeper::create(alloc, parts, volume, from) {
                Ok(keeper) => Ok(StoreKeeper::Everyday(keeper)),
                Err(left) => Err(left),
            },
        }
    }

    /// The store of a database, by the profile that it has. The number is for an everyday store of
    /// version 2, whose opening fails without one. A fault gives back what was handed in.
    pub fn open(
        alloc: Global,
        parts: StoreParts<S, D>,
        number: Option<u64>,
    ) -> Result<StoreKeeper<S, D>, (StoreFault, StoreParts<S, D>)>
        ensures holds { IfOk result (λ k. (store_told S.Store D.Disk k).is_honest → (z : Stored)
            → WasFor z (parts_state S.Store D.Disk parts) → (store_told S.Store D.Disk k).holds
            (rowed (opened_for z).tree) (records_of (opened_for z).kept)) }
        ensures profile { IfOk result (λ k. (store_told S.Store D.Disk k).is_honest → (z : Stored)
            → WasFor z (parts_state S.Store D.Disk parts) → profile_of (opened_for z).tree ≡ own_profile k) }
        ensures lots { IfOk result (λ k. (store_told S.Store D.Disk k).is_honest → (z : Stored)
            → WasFor z (parts_state S.Store D.Disk parts)
            → SameLots (lots_of None (opened_for z)) (store_told S.Store D.Disk k).lots) }
        ensures was { IfOk result (λ k. (store_told S.Store D.Disk k).is_honest
            → IsTrue (state S.Store parts.conn).is_open
            × ((state S.Store parts.conn).in_transaction ≡ false)) }
        ensures honest { IfOk result (λ k. (store_told S.Store D.Disk k).is_honest
            → IsHonest (parts_for (own_profile k) S.Store D.Disk parts)) }
        ensures medium { IfOk result (λ k. SharesMedium (LiesInMemory S.Store D.Disk)
            (own_store S.Store D.Disk k) (store_told S.Store D.Disk k)) }
        ensures going { IfOk result (λ k. (store_told S.Store D.Disk k).has_failed ≡ false) }
        ensures firm { IfOk result (λ k. (store_told S.Store D.Disk k).is_honest
            → IsFirm (store_told S.Store D.Disk k)) }
        ensures refused { IfErr result (λ r. OpenRefused None (parts_state S.Store D.Disk parts)
            (parts_state S.Store D.Disk r.1) r.0) }
        ensures absent { (state S.Store parts.conn).in_transaction ≡ false
            → table_named (state S.Store parts.conn).now.schema (codes "meta") ≡ None
            → IsErrAnd result (λ r. r.0 ≡ NotAStore) }
        // Nothing is opened over a `meta` that is damaged, or without a table of its version.
        ensures whole { IfOk result (λ k. (store_told S.Store D.Disk k).is_honest → (c : Content)
            → IsLaid c (state S.Store parts.conn).now → IsWholeOf (own_profile k) c) }
        ensures tabled { IfOk result (λ k. (store_told S.Store D.Disk k).is_honest
            → IsTabled (state S.Store parts.conn).now) }
        // All rows are kept, those too that no tree has.
        ensures rows { IfOk result (λ k. KeepsRows (numbered number) (state S.Store parts.conn)
            (state S.Store (own_conn k))) }
        // In a transaction nothing is opened, and the transaction stays.
        ensures busy { (state S.Store parts.conn).in_transaction ≡ true
            → IsErrAnd result (λ r. r.1 ≡ parts) }
    {
        one_holding();
        lots_are_read();
        match open_parts(alloc, parts, None, number) {
            Ok(opened) => match opened.profile {
                Profile::Plain => Ok(StoreKeeper::Plain(TableKeeper {
                    look: opened.look,
                    lot: TakenLot { number: None },
                    failed: false,
                    of: PhantomData,
                })),
                Profile::Everyday => Ok(StoreKeeper::Everyday(TableKeeper {
                    look: opened.look,
                    lot: TakenLot { number: None },
                    failed: false,
                    of: PhantomData,
                })),
            },
            Err(left) => Err(left),
        }
    }

    /// The store of a database, for a mount that begins. A fault gives back what was handed in.
    pub fn open_begun(
        alloc: Global,
        parts: StoreParts<S, D>,
        number: Option<u64>,
    ) -> Result<StoreKeeper<S, D>, (StoreFault, StoreParts<S, D>)>
        ensures holds { IfOk result (λ k. (store_told S.Store D.Disk k).is_honest → (z : Stored)
            → WasFor z (parts_state S.Store D.Disk parts) → (store_told S.Store D.Disk k).holds
            (rowed (begun_for z).tree) (records_of (begun_for z).kept)) }
        ensures begins { IfOk result (λ k. (store_told S.Store D.Disk k).is_honest → (z : Stored)
            → WasFor z (parts_state S.Store D.Disk parts) → BeginsAfter (own_profile k) z (store_told S.Store D.Disk k)) }
        ensures profile { IfOk result (λ k. (store_told S.Store D.Disk k).is_honest → (z : Stored)
            → WasFor z (parts_state S.Store D.Disk parts) → profile_of (opened_for z).tree ≡ own_profile k) }
        ensures lots { IfOk result (λ k. (store_told S.Store D.Disk k).is_honest → (z : Stored)
            → WasFor z (parts_state S.Store D.Disk parts)
            → SameLots (lots_of None (begun_for z)) (store_told S.Store D.Disk k).lots) }
        ensures was { IfOk result (λ k. (store_told S.Store D.Disk k).is_honest
            → IsTrue (state S.Store parts.conn).is_open
            × ((state S.Store parts.conn).in_transaction ≡ false)) }
        ensures honest { IfOk result (λ k. (store_told S.Store D.Disk k).is_honest
            → IsHonest (parts_for (own_profile k) S.Store D.Disk parts)) }
        ensures medium { IfOk result (λ k. SharesMedium (LiesInMemory S.Store D.Disk)
            (own_store S.Store D.Disk k) (store_told S.Store D.Disk k)) }
        ensures going { IfOk result (λ k. (store_told S.Store D.Disk k).has_failed ≡ false) }
        ensures firm { IfOk result (λ k. (store_told S.Store D.Disk k).is_honest
            → IsFirm (store_told S.Store D.Disk k)) }
        ensures refused { IfErr result (λ r. FreshRefused (parts_state S.Store D.Disk parts)
            (parts_state S.Store D.Disk r.1) r.0) }
        ensures absent { (state S.Store parts.conn).in_transaction ≡ false
            → table_named (state S.Store parts.conn).now.schema (codes "meta") ≡ None
            → IsErrAnd result (λ r. r.0 ≡ NotAStore) }
        // Nothing is opened over a `meta` that is damaged, or without a table of its version.
        ensures whole { IfOk result (λ k. (store_told S.Store D.Disk k).is_honest → (c : Content)
            → IsLaid c (state S.Store parts.conn).now → IsWholeOf (own_profile k) c) }
        ensures tabled { IfOk result (λ k. (store_told S.Store D.Disk k).is_honest
            → IsTabled (state S.Store parts.conn).now) }
        // All rows are kept but those that the begin of a mount deletes.
        ensures rows { IfOk result (λ k. KeepsNamed (numbered number) (state S.Store parts.conn)
            (state S.Store (own_conn k))) }
        // In a transaction nothing is opened, and the transaction stays.
        ensures busy { (state S.Store parts.conn).in_transaction ≡ true
            → IsErrAnd result (λ r. r.1 ≡ parts) }
    {
        one_holding();
        lots_are_read();
        rows_tell_state();
        tree_is_sound::<PlainProfile>();
        tree_is_sound::<EverydayProfile>();
        match open_parts_begun(alloc, parts, number) {
            Ok(opened) => match opened.profile {
                Profile::Plain => Ok(StoreKeeper::Plain(TableKeeper {
                    look: opened.look,
                    lot: TakenLot { number: None },
                    failed: false,
                    of: PhantomData,
                })),
                Profile::Everyday => Ok(StoreKeeper::Everyday(TableKeeper {
                    look: opened.look,
                    lot: TakenLot { number: None },
                    failed: false,
                    of: PhantomData,
                })),
            },
            Err(left) => Err(left),
        }
    }

    /// What it lies in, for another opening. Allocates nothing.
    pub fn into_parts(self) -> StoreParts<S, D>
        ensures conn { result.conn ≡ own_conn self }
        ensures disk { result.disk ≡ option_map (λ f. f.disk) (own_file self) }
    {
        match self {
            StoreKeeper::Plain(keeper) => keeper.into_parts(),
            StoreKeeper::Everyday(keeper) => keeper.into_parts(),
        }
    }

    /// The look of its database and its data file, which knows nothing yet. Allocates nothing.
    pub fn into_look(self, alloc: Global) -> TableLook<S, Data<D>>
        ensures conn { result.conn ≡ own_conn self }
        ensures file { result.contents.file ≡ own_file self }
        ensures written { result.contents.written.items ≡ [] }
        ensures fault { as_look_fault result.fault ≡ None }
        ensures known { result.known ≡ None }
        ensures last { result.last ≡ None }
    {
        match self {
            StoreKeeper::Plain(keeper) => forget(alloc, keeper.look),
            StoreKeeper::Everyday(keeper) => forget(alloc, keeper.look),
        }
    }
}

// A look at the same that knows nothing yet.
fn forget<S: Alter, D: Disk + Drop>(
    alloc: Global,
    look: TableLook<S, Data<D>>,
) -> TableLook<S, Data<D>>
    ensures conn { result.conn ≡ look.conn }
    ensures file { result.contents.file ≡ look.contents.file }
    ensures written { result.contents.written.items ≡ [] }
    ensures fault { as_look_fault result.fault ≡ None }
    ensures known { result.known ≡ None }
    ensures last { result.last ≡ None }
{
    let TableLook { conn, contents, .. } = look;
    let Data { file, .. } = contents;
    TableLook::new(alloc, conn, Data::new(alloc, file))
}
