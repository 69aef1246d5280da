// The keeper over the tables of a database.
ghost use Rattle.std.specs.Prelude.{◌≡◌, None, true, false, codes, IsTrue};
ghost use Rattle.sqlite.specs.Held.{state};
ghost use Rattle.sqlite.specs.State.{IsLive};
ghost use Rattle.sqlite_schema.specs.Names.{table_named};
ghost use Rattle.fuse_init.specs.declared.profile.Profile.TheVariants as profiles;

use crate::contents::{disk_of, make_contents};
use crate::creation::{is_blank, make_for, refuse_new};
use crate::opening::open_parts;
use crate::parts::{StoreParts, look_over};
use crate::taken_lot::TakenLot;
use fuse_init::{Profile, Profiled};
use fuse_keeper::StoreFault;
use fuse_rows::{Origin, Room};
use fuse_store_tables::Volume;
use fuse_store_tree::{Data, TableLook, lots_are_read, one_holding, room_at_rest, size_at_rest};
use sqlite::{Alter, Error};
use sqlite_disk::Disk;
use std::alloc::Global;
use std::marker::PhantomData;

/// A keeper over the tables of a database, and over the data file of an everyday store. Each call
/// that changes the tables is one transaction.
#[derive(Drop)]
pub struct TableKeeper<P, S: Alter, D: Disk> {
    pub(crate) look: TableLook<S, Data<D>>,
    pub(crate) lot: TakenLot,
    pub(crate) failed: bool,
    pub(crate) of: PhantomData<P>,
}

// Whether a keeper of this profile is handed a disk beside a store, and has no data file. In a
// transaction nothing is asked.
fn is_refused<S: Alter, D>(profile: Profile, parts: &StoreParts<S, D>) -> bool
    ensures outside { result ≡ true → (state S.Store parts.now.conn).in_transaction ≡ false }
    ensures settled { result ≡ true → IsTrue (state S.Store parts.now.conn).is_open
        → (state S.Store parts.now.conn).now ≡ (state S.Store parts.now.conn).committed }
    ensures live { result ≡ true → IsLive (state S.Store parts.now.conn) }
    ensures there { result ≡ true
        → table_named (state S.Store parts.now.conn).now.schema (codes "meta") ≡ None → ⊥ }
    ensures other { result ≡ false → (state S.Store parts.now.conn).in_transaction ≡ false
        → (table_named (state S.Store parts.now.conn).now.schema (codes "meta") ≡ None → ⊥)
        → profile ≡ profiles.Plain → parts.now.disk ≡ None }
{
    if !parts.conn.is_autocommit() || profile != Profile::Plain || parts.disk.is_none() {
        return false;
    }
    parts.conn.schema().table_named(b"meta").is_some()
}

impl<P: Profiled, S: Alter, D: Disk + Drop> TableKeeper<P, S, D> {
    ghost use Rattle.std.specs.Prelude.{[], Some, option_map, IfOk, IfErr, IsErrAnd};
    ghost use Rattle.std.specs.List.{sum_by};
    ghost use Rattle.sqlite.specs.State.{HasCleanDisk, Survives};
    ghost use Rattle.fuse_tree.specs.Rowed.{rowed};
    ghost use Rattle.fuse_keeper.specs.declared.fault.StoreFault.TheVariants.{NotAStore};
    ghost use Rattle.fuse_keeper.specs.KeeperState.{IsFirm, StandsFor, Looked, Reports};
    ghost use Rattle.fuse_keeper.specs.Lots.{SameLots};
    ghost use Rattle.fuse_store_tables.specs.Content.{Content};
    ghost use Rattle.fuse_store_tables.specs.Faults.{IsOutside, IsPlain};
    ghost use Rattle.fuse_store_tables.specs.Layout.{no_schema};
    ghost use Rattle.fuse_store_tables.specs.Making.{IsBare, IsVolume};
    ghost use Rattle.fuse_store_tables.specs.Moves.{RestsAs, OnlyReads, LeavesAlone};
    ghost use Rattle.fuse_store_tables.specs.Opening.{IsLaid};
    ghost use Rattle.fuse_store_tables.specs.Refusing.{HasMetaTable};
    ghost use Rattle.fuse_store_tables.specs.Saying.{IsTabled};
    ghost use Rattle.fuse_store_tree.specs.Store.{records_of};
    ghost use Rattle.fuse_store_tree.specs.Holding.{lots_of};
    ghost use Rattle.fuse_store_tree.specs.StoreState.{IsAtRest, IsHonest};
    ghost use Rattle.fuse_tree.specs.State.{new_store, profile_of};
    ghost use Rattle.fuse_store.specs.Creating.{IsBlank, IsDataOf, IsTakenFault, LeavesNew};
    ghost use Rattle.fuse_store.specs.Creating.{new_holding};
    ghost use Rattle.fuse_store.specs.Opening.{Stored, WasFor};
    ghost use Rattle.fuse_store.specs.Opening.{OpenRefused, KeepsRows, IsWholeOf, opened_for, numbered};
    ghost use Rattle.fuse_store.specs.TableKeeper.{conn_of, keeper_told, parts_for, parts_state};
    ghost use Rattle.fuse_store.specs.TableKeeper.{FaultsOutside, LiesInMemory, SharesMedium};
    ghost use Rattle.fuse_store.specs.TableKeeper.{store_at};

    /// A new store of this origin in a blank database, made in one transaction. An everyday store has
    /// this room and number, and the header of its data file is written and synced before, over
    /// whatever the file holds. Of any other database it takes its statements back: the fault is the
    /// error of the one that SQLite refuses. A fault gives back what was handed in.
    pub fn create(
        alloc: Global,
        parts: StoreParts<S, D>,
        volume: Volume,
        from: Origin,
    ) -> Result<TableKeeper<P, S, D>, (StoreFault, StoreParts<S, D>)>
        requires { IsVolume volume }
        ensures stands { IfOk result (λ k. (keeper_told P.PROFILE S.Store D.Disk k).is_honest
            → IsTrue (state S.Store parts.conn).is_open
            → StandsFor (keeper_told P.PROFILE S.Store D.Disk k)
            (new_store P.PROFILE volume.capacity from) [] []) }
        ensures medium { IfOk result (λ k. SharesMedium (LiesInMemory S.Store D.Disk)
            (store_at S.Store D.Disk k) (keeper_told P.PROFILE S.Store D.Disk k)) }
        ensures going { IfOk result (λ k. (keeper_told P.PROFILE S.Store D.Disk k).has_failed
            ≡ false) }
        ensures firm { IfOk result (λ k. (keeper_told P.PROFILE S.Store D.Disk k).is_honest
            → IsFirm (keeper_told P.PROFILE S.Store D.Disk k)) }
        ensures lots { IfOk result (λ k. (keeper_told P.PROFILE S.Store D.Disk k).is_honest
            → IsTrue (state S.Store parts.conn).is_open
            → SameLots (lots_of None (new_holding P.PROFILE volume.capacity from))
            (keeper_told P.PROFILE S.Store D.Disk k).lots) }
        // The next lot has the number 1.
        ensures held { IfOk result (λ k. (keeper_told P.PROFILE S.Store D.Disk k).is_honest
            → IsTrue (state S.Store parts.conn).is_open
            → IsAtRest None (new_holding P.PROFILE volume.capacity from)
            (store_at S.Store D.Disk k)) }
        ensures blank { IfOk result (λ k. IsBlank (state S.Store parts.conn)) }
        // The data file of an everyday store has its number.
        ensures number { IfOk result (λ k. IsDataOf P.PROFILE volume.number
            (store_at S.Store D.Disk k).contents.seen) }
        ensures was { IfOk result (λ k. (keeper_told P.PROFILE S.Store D.Disk k).is_honest
            → IsTrue (state S.Store parts.conn).is_open) }
        ensures honest { IfOk result (λ k. (keeper_told P.PROFILE S.Store D.Disk k).is_honest
            → IsHonest (parts_for P.PROFILE S.Store D.Disk parts)) }
        ensures crash { IfErr result (λ r. Survives (state S.Store parts.conn)
            (state S.Store r.1.conn) (LeavesNew P.PROFILE volume.capacity from
            (parts_state S.Store D.Disk parts) (parts_state S.Store D.Disk r.1))) }
        ensures kept { IfErr result (λ r. HasCleanDisk (state S.Store r.1.conn)
            → IsTrue (state S.Store r.1.conn).is_open
            → RestsAs (IsBare no_schema tt) (state S.Store parts.conn)
            → RestsAs (IsBare no_schema tt) (state S.Store r.1.conn)) }
        // The fault is out of memory or of SQL, and no transaction is left open.
        ensures outside { IfErr result (λ r. IsOutside r.0) }
        ensures ended { IfErr result (λ r. HasCleanDisk (state S.Store r.1.conn)
            → (state S.Store parts.conn).in_transaction ≡ false
            → (state S.Store r.1.conn).in_transaction ≡ false) }
        ensures busy { (state S.Store parts.conn).in_transaction ≡ true
            → IsErrAnd result (λ r. r.1 ≡ parts) }
        // A database that is not blank is left as it was.
        ensures untouched { IfErr result (λ r. (state S.Store parts.conn).in_transaction ≡ false
            → (IsBlank (state S.Store parts.conn) → ⊥)
            → LeavesAlone (state S.Store parts.conn) (state S.Store r.1.conn)) }
        // Where there is a table `meta`, the fault is the error that SQLite gave.
        ensures taken { IfErr result (λ r. HasCleanDisk (state S.Store r.1.conn)
            → (state S.Store parts.conn).in_transaction ≡ false
            → HasMetaTable (state S.Store parts.conn).now.schema → IsTakenFault r.0) }
    {
        one_holding();
        lots_are_read();
        let profile = P::PROFILE;
        let StoreParts { mut conn, disk } = parts;
        if !is_blank(&conn) {
            let fault = refuse_new(&mut conn, from);
            return Err((fault, StoreParts { conn, disk }));
        }
        let file = match make_contents(alloc, profile, disk, volume.number) {
            Ok(file) => file,
            Err((fault, disk)) => return Err((fault, StoreParts { conn, disk })),
        };
        match make_for(&mut conn, profile, volume, from) {
            Ok(()) => Ok(TableKeeper {
                look: look_over(alloc, conn, file),
                lot: TakenLot { number: None },
                failed: false,
                of: PhantomData,
            }),
            Err(fault) => Err((
                fault,
                StoreParts {
                    conn,
                    disk: disk_of(file),
                },
            )),
        }
    }

    /// The store of a database, with its data file. In one transaction a store of version 1 is
    /// migrated to version 2, and a missing index is made. A fault gives back what was handed in:
    /// `NotAStore` where `meta` or its row of the version is missing, then `Version`, then `Damaged`,
    /// as where a table is missing or a view, or where the store is of another profile. Then nothing
    /// is migrated. A plain keeper has no data file, and refuses one. The number is for an everyday
    /// store of version 2, whose opening fails without one.
    pub fn open(
        alloc: Global,
        parts: StoreParts<S, D>,
        number: Option<u64>,
    ) -> Result<TableKeeper<P, S, D>, (StoreFault, StoreParts<S, D>)>
        ensures holds { IfOk result (λ k. (keeper_told P.PROFILE S.Store D.Disk k).is_honest
            → (z : Stored) → WasFor z (parts_state S.Store D.Disk parts)
            → (keeper_told P.PROFILE S.Store D.Disk k).holds (rowed (opened_for z).tree)
            (records_of (opened_for z).kept)) }
        // The next lot has the number that it had; in a store of version 1, which has none, 1.
        ensures held { IfOk result (λ k. (keeper_told P.PROFILE S.Store D.Disk k).is_honest
            → (z : Stored) → WasFor z (parts_state S.Store D.Disk parts)
            → IsAtRest None (opened_for z) (store_at S.Store D.Disk k)) }
        // The store is of this profile.
        ensures profile { IfOk result (λ k. (keeper_told P.PROFILE S.Store D.Disk k).is_honest
            → (z : Stored) → WasFor z (parts_state S.Store D.Disk parts)
            → profile_of (opened_for z).tree ≡ P.PROFILE) }
        ensures lots { IfOk result (λ k. (keeper_told P.PROFILE S.Store D.Disk k).is_honest
            → (z : Stored) → WasFor z (parts_state S.Store D.Disk parts)
            → SameLots (lots_of None (opened_for z))
            (keeper_told P.PROFILE S.Store D.Disk k).lots) }
        ensures was { IfOk result (λ k. (keeper_told P.PROFILE S.Store D.Disk k).is_honest
            → IsTrue (state S.Store parts.conn).is_open
            × ((state S.Store parts.conn).in_transaction ≡ false)) }
        ensures honest { IfOk result (λ k. (keeper_told P.PROFILE S.Store D.Disk k).is_honest
            → IsHonest (parts_state S.Store D.Disk parts)) }
        ensures medium { IfOk result (λ k. SharesMedium (LiesInMemory S.Store D.Disk)
            (store_at S.Store D.Disk k) (keeper_told P.PROFILE S.Store D.Disk k)) }
        ensures going { IfOk result (λ k. (keeper_told P.PROFILE S.Store D.Disk k).has_failed
            ≡ false) }
        ensures firm { IfOk result (λ k. (keeper_told P.PROFILE S.Store D.Disk k).is_honest
            → IsFirm (keeper_told P.PROFILE S.Store D.Disk k)) }
        ensures refused { IfErr result (λ r. OpenRefused (Some P.PROFILE)
            (parts_state S.Store D.Disk parts) (parts_state S.Store D.Disk r.1) r.0) }
        ensures absent { (state S.Store parts.conn).in_transaction ≡ false
            → table_named (state S.Store parts.conn).now.schema (codes "meta") ≡ None
            → IsErrAnd result (λ r. r.0 ≡ NotAStore) }
        // Nothing is opened over a `meta` that is damaged, or without a table of its version.
        ensures whole { IfOk result (λ k. (keeper_told P.PROFILE S.Store D.Disk k).is_honest
            → (c : Content) → IsLaid c (state S.Store parts.conn).now → IsWholeOf P.PROFILE c) }
        ensures tabled { IfOk result (λ k. (keeper_told P.PROFILE S.Store D.Disk k).is_honest
            → IsTabled (state S.Store parts.conn).now) }
        // All rows are kept, those too that no tree has.
        ensures rows { IfOk result (λ k. KeepsRows (numbered number) (state S.Store parts.conn)
            (state S.Store (conn_of S.Store D.Disk k))) }
        // In a transaction nothing is opened, and the transaction stays.
        ensures busy { (state S.Store parts.conn).in_transaction ≡ true
            → IsErrAnd result (λ r. r.1 ≡ parts) }
    {
        one_holding();
        lots_are_read();
        let profile = P::PROFILE;
        if is_refused(profile, &parts) {
            return Err((StoreFault::Sql(Error::InvalidQuery), parts));
        }
        match open_parts(alloc, parts, Some(profile), number) {
            Ok(opened) => Ok(TableKeeper {
                look: opened.look,
                lot: TakenLot { number: None },
                failed: false,
                of: PhantomData,
            }),
            Err(left) => Err(left),
        }
    }

    /// The size of all contents.
    pub fn content_size(&mut self) -> Result<u64, StoreFault>
        ensures looked { Looked (keeper_told P.PROFILE S.Store D.Disk self.old) (keeper_told P.PROFILE S.Store D.Disk self.new)
            result }
        ensures ok { IfOk result (λ n. Reports (keeper_told P.PROFILE S.Store D.Disk self.old)
            (keeper_told P.PROFILE S.Store D.Disk self.new)
            (λ rows records. n ≡ sum_by (λ f. f.row.size) rows.nodes)) }
        ensures fault { FaultsOutside (store_at S.Store D.Disk self.old)
            (store_at S.Store D.Disk self.new) result }
        ensures plain { IfErr result IsPlain }
        // Whatever the database is, nothing is changed.
        ensures reads { OnlyReads (state S.Store (conn_of S.Store D.Disk self.old))
            (state S.Store (conn_of S.Store D.Disk self.new)) result }
    {
        one_holding();
        lots_are_read();
        match size_at_rest(&mut self.look.conn) {
            Ok(size) => Ok(size),
            Err(fault) => {
                self.failed = true;
                Err(fault)
            }
        }
    }

    /// The room of an everyday store, none of a plain one.
    pub fn room(&mut self) -> Result<Option<Room>, StoreFault>
        ensures looked { Looked (keeper_told P.PROFILE S.Store D.Disk self.old) (keeper_told P.PROFILE S.Store D.Disk self.new)
            result }
        ensures ok { IfOk result (λ room. Reports (keeper_told P.PROFILE S.Store D.Disk self.old)
            (keeper_told P.PROFILE S.Store D.Disk self.new)
            (λ rows records. room ≡ rows.counters.room)) }
        ensures fault { FaultsOutside (store_at S.Store D.Disk self.old)
            (store_at S.Store D.Disk self.new) result }
        ensures plain { IfErr result IsPlain }
        // Whatever the database is, nothing is changed.
        ensures reads { OnlyReads (state S.Store (conn_of S.Store D.Disk self.old))
            (state S.Store (conn_of S.Store D.Disk self.new)) result }
    {
        one_holding();
        lots_are_read();
        match room_at_rest(&mut self.look.conn) {
            Ok(room) => Ok(room),
            Err(fault) => {
                self.failed = true;
                Err(fault)
            }
        }
    }

    /// What it lies in, for another opening. Allocates nothing.
    pub fn into_parts(self) -> StoreParts<S, D>
        ensures conn { result.conn ≡ conn_of S.Store D.Disk self }
        ensures disk { result.disk ≡ option_map (λ f. f.disk) self.look.contents.file }
    {
        let look = self.look;
        StoreParts {
            conn: look.conn,
            disk: disk_of(look.contents.file),
        }
    }
}
