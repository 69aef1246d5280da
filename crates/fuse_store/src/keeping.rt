// The keeper over the tables of a database, as a `Keeper`.
ghost use Rattle.std.specs.Prelude.{◌≡◌, None};
ghost use Rattle.sqlite.specs.Held.{state};

use crate::laws::tree_is_sound;
use crate::mount::begin_mount;
use crate::table_keeper::TableKeeper;
use crate::taken_lot::TakenLot;
use fuse_answer::Answer;
use fuse_init::{Profiled, Settings};
use fuse_keeper::{Done, Keeper, StoreCounts, StoreFault};
use fuse_plan::rows_tell_state;
use fuse_request::Request;
use fuse_store_tree::{
    answer_at_rest, calls_perform, counts_at_rest, lots_are_read, one_holding, perform,
    settings_at_rest,
};
use fuse_tree::{sees_requests, serves_further};
use fuse_wire::{Id, Moment};
use sqlite::Alter;
use sqlite_disk::Disk;

impl<P: Profiled, S: Alter + Drop, D: Disk + Drop> Keeper for TableKeeper<P, S, D> {
    ghost use Rattle.fuse_tree.specs.TheTree.{tree_of};
    ghost use Rattle.std.specs.Prelude.{◌⊎◌, length, true, false, is_err, IfOk, IfErr, OnOk, OnErr, refl};
    ghost use Rattle.sqlite.specs.State.{HasCleanDisk};
    ghost use Rattle.fuse_rows.specs.Rows.{Rows};
    ghost use Rattle.fuse_keeper.specs.KeeperState.{AnswersNoMore, Called, Looked};
    ghost use Rattle.fuse_keeper.specs.KeeperState.{ActsOn, IsFirm, Performs, Reports};
    ghost use Rattle.fuse_keeper.specs.KeeperState.{KeepsLots, KeepsOthers, LeavesGroup, LeavesActed};
    ghost use Rattle.fuse_keeper.specs.KeeperState.{BeginsMount, DropsLots, LeavesMount};
    ghost use Rattle.fuse_keeper.specs.Group.{entries_of, OnlySees, ids_of};
    ghost use Rattle.fuse_keeper.specs.Stands.{Records, CountsRecords};
    ghost use Rattle.fuse_store_tables.specs.Faults.{IsPlain};
    ghost use Rattle.fuse_store_tables.specs.Clearing.{cleared};
    ghost use Rattle.fuse_store_tables.specs.Moves.{LeavesAlone, OnlyReads, RollsBack};
    ghost use Rattle.fuse_store_tables.specs.Moves.{Serves, CommitsOnce};
    ghost use Rattle.fuse_store_tree.specs.Group.{performed};
    ghost use Rattle.fuse_store.specs.Mounting.{cleared_for};
    ghost use Rattle.fuse_store_tables.specs.Saying.{IsRefusal};
    ghost use Rattle.fuse_store.specs.TableKeeper.{keeper_told, conn_of, store_at};
    ghost use Rattle.fuse_store.specs.TableKeeper.{FaultsOutside, FaultsOutsideWithLot, TurnsHeld};
    ghost use Rattle.fuse_store.specs.inner.Laws.{memory_clean, one_held};

    ghost model = { tree_of P.PROFILE };

    ghost told = { keeper_told P.PROFILE S.Store D.Disk };

    ghost became = { λ a b n. Unit {0} };

    ghost performed = { λ a b list. Unit {0} };

    fn serves(&self, opcode: u32) -> bool {
        serves_further(P::PROFILE, opcode)
    }

    fn sees(&self, opcode: u32) -> bool {
        sees_requests(P::PROFILE, opcode)
    }

    fn perform(
        &mut self,
        group: &[(Request<'_>, Moment)],
        settled: &[Id],
    ) -> Result<Vec<Done>, StoreFault>
        ensures count { IfOk result (λ dones. length dones.items ≡ length group.now) }
        ensures called { Called (keeper_told P.PROFILE S.Store D.Disk self.old) (keeper_told P.PROFILE S.Store D.Disk self.new)
            result }
        ensures may { AnswersNoMore (keeper_told P.PROFILE S.Store D.Disk self.old)
            (keeper_told P.PROFILE S.Store D.Disk self.new) }
        ensures ok { IfOk result (λ dones. Performs (keeper_told P.PROFILE S.Store D.Disk self.old)
            (keeper_told P.PROFILE S.Store D.Disk self.new) (ids_of settled.now) (entries_of group.now)
            dones.items) }
        // Where nothing is to be kept it only looks.
        ensures looked { OnlySees (tree_of P.PROFILE).service (entries_of group.now)
            (ids_of settled.now) → Looked (keeper_told P.PROFILE S.Store D.Disk self.old)
            (keeper_told P.PROFILE S.Store D.Disk self.new) result }
        // The settled records go first: an id that is settled and in the group acts anew.
        ensures acts { IfOk result (λ dones. ActsOn (keeper_told P.PROFILE S.Store D.Disk self.old)
            (keeper_told P.PROFILE S.Store D.Disk self.new) (ids_of settled.now) (entries_of group.now)
            dones.items) }
        ensures others { OnOk result (KeepsOthers (keeper_told P.PROFILE S.Store D.Disk self.old)
            (keeper_told P.PROFILE S.Store D.Disk self.new) (ids_of settled.now) (entries_of group.now)) }
        ensures lots { OnOk result (KeepsLots (keeper_told P.PROFILE S.Store D.Disk self.old)
            (keeper_told P.PROFILE S.Store D.Disk self.new) (ids_of settled.now) (entries_of group.now)) }
        ensures crash { LeavesGroup (keeper_told P.PROFILE S.Store D.Disk self.old)
            (keeper_told P.PROFILE S.Store D.Disk self.new) (ids_of settled.now) (entries_of group.now) }
        ensures crash_acts { LeavesActed (keeper_told P.PROFILE S.Store D.Disk self.old)
            (keeper_told P.PROFILE S.Store D.Disk self.new) (ids_of settled.now) (entries_of group.now) }
        ensures firm { OnOk result ((keeper_told P.PROFILE S.Store D.Disk self.new).is_honest
            → IsFirm (keeper_told P.PROFILE S.Store D.Disk self.new)) }
        // Of a store that was sound, the fault is `Damaged` only where no lot number is left.
        ensures fault { FaultsOutsideWithLot S.Store D.Disk self.old self.new result }
        // The fault of a call is never `NotAStore` or `Version`.
        ensures plain { IfErr result IsPlain }
        // No transaction is left open.
        ensures ended { HasCleanDisk (state S.Store (conn_of S.Store D.Disk self.new))
            → (state S.Store (conn_of S.Store D.Disk self.new)).in_transaction ≡ false }
        // A refusal leaves the store alone, whatever it is.
        ensures refused { IfErr result (λ f. IsRefusal f
            → LeavesAlone (state S.Store (conn_of S.Store D.Disk self.old))
            (state S.Store (conn_of S.Store D.Disk self.new))) }
        // Where the call fails, what was committed before is seen, whatever it is.
        ensures undone { OnErr result (RollsBack (state S.Store (conn_of S.Store D.Disk self.old))
            (state S.Store (conn_of S.Store D.Disk self.new))) }
        // Where nothing is to be kept, nothing is changed or committed, whatever the store is.
        ensures alone { OnlySees (tree_of P.PROFILE).service (entries_of group.now)
            (ids_of settled.now) → LeavesAlone (state S.Store (conn_of S.Store D.Disk self.old))
            (state S.Store (conn_of S.Store D.Disk self.new)) }
        // It commits once at most: after a crash all of it is seen, or nothing.
        ensures once { CommitsOnce (state S.Store (conn_of S.Store D.Disk self.old))
            (state S.Store (conn_of S.Store D.Disk self.new)) result }
        // The next lot has the number after the one that the call takes, if it takes one.
        ensures held { TurnsHeld S.Store D.Disk self.old self.new (performed (tree_of P.PROFILE).service
            (keeper_told P.PROFILE S.Store D.Disk self.old).lots.current (ids_of settled.now)
            (entries_of group.now)) result }
    {
        one_holding();
        calls_perform::<P>();
        lots_are_read();
        rows_tell_state();
        self.look.fault = None;
        match perform(
            self.look.alloc,
            &mut self.look,
            P::PROFILE,
            self.lot.number,
            group,
            settled,
        ) {
            Ok(performed) => {
                self.lot = TakenLot {
                    number: performed.lot,
                };
                Ok(performed.dones)
            }
            Err(fault) => {
                self.failed = true;
                Err(fault)
            }
        }
    }

    fn begin_mount(&mut self) -> Result<(), StoreFault>
        ensures called { Called (keeper_told P.PROFILE S.Store D.Disk self.old) (keeper_told P.PROFILE S.Store D.Disk self.new)
            result }
        // A lot that was taken is gone, and there may be no other one.
        ensures may { (is_err result ≡ true) ⊎ ((keeper_told P.PROFILE S.Store D.Disk self.old).lots.current ≡ None)
            → AnswersNoMore (keeper_told P.PROFILE S.Store D.Disk self.old) (keeper_told P.PROFILE S.Store D.Disk self.new) }
        ensures ok { OnOk result (BeginsMount (keeper_told P.PROFILE S.Store D.Disk self.old)
            (keeper_told P.PROFILE S.Store D.Disk self.new)) }
        ensures lots { OnOk result (DropsLots (keeper_told P.PROFILE S.Store D.Disk self.old)
            (keeper_told P.PROFILE S.Store D.Disk self.new)) }
        ensures crash { LeavesMount (keeper_told P.PROFILE S.Store D.Disk self.old)
            (keeper_told P.PROFILE S.Store D.Disk self.new) }
        ensures firm { OnOk result ((keeper_told P.PROFILE S.Store D.Disk self.new).is_honest
            → IsFirm (keeper_told P.PROFILE S.Store D.Disk self.new)) }
        ensures fault { FaultsOutside (store_at S.Store D.Disk self.old)
            (store_at S.Store D.Disk self.new) result }
        ensures plain { IfErr result IsPlain }
        ensures ended { HasCleanDisk (state S.Store (conn_of S.Store D.Disk self.new))
            → (state S.Store (conn_of S.Store D.Disk self.new)).in_transaction ≡ false }
        ensures refused { IfErr result (λ f. IsRefusal f
            → LeavesAlone (state S.Store (conn_of S.Store D.Disk self.old))
            (state S.Store (conn_of S.Store D.Disk self.new))) }
        ensures undone { OnErr result (RollsBack (state S.Store (conn_of S.Store D.Disk self.old))
            (state S.Store (conn_of S.Store D.Disk self.new))) }
        ensures once { CommitsOnce (state S.Store (conn_of S.Store D.Disk self.old))
            (state S.Store (conn_of S.Store D.Disk self.new)) result }
        // The next lot has the number that it had.
        ensures held { TurnsHeld S.Store D.Disk self.old self.new cleared_for result }
        // Of rows that no tree has, those of the last mount are deleted too.
        ensures rows { Serves cleared (state S.Store (conn_of S.Store D.Disk self.old))
            (state S.Store (conn_of S.Store D.Disk self.new)) result }
    {
        one_holding();
        lots_are_read();
        rows_tell_state();
        tree_is_sound::<P>();
        self.look.known = None;
        match begin_mount(&mut self.look.conn) {
            Ok(()) => {
                self.lot = TakenLot { number: None };
                Ok(())
            }
            Err(fault) => {
                self.failed = true;
                Err(fault)
            }
        }
    }

    fn answer_of(&mut self, id: Id) -> Result<Option<Answer>, StoreFault>
        ensures looked { Looked (keeper_told P.PROFILE S.Store D.Disk self.old) (keeper_told P.PROFILE S.Store D.Disk self.new)
            result }
        ensures ok { IfOk result (λ answer. (keeper_told P.PROFILE S.Store D.Disk self.new).is_honest
            → (rows : Rows) (records : Records)
            → (keeper_told P.PROFILE S.Store D.Disk self.old).holds rows records → answer ≡ records id.0) }
        ensures fault { FaultsOutside (store_at S.Store D.Disk self.old)
            (store_at S.Store D.Disk self.new) result }
        ensures plain { IfErr result IsPlain }
        // Whatever the database is, nothing is changed.
        ensures reads { OnlyReads (state S.Store (conn_of S.Store D.Disk self.old))
            (state S.Store (conn_of S.Store D.Disk self.new)) result }
    {
        one_holding();
        lots_are_read();
        match answer_at_rest(&mut self.look.conn, id.0) {
            Ok(answer) => Ok(answer),
            Err(fault) => {
                self.failed = true;
                Err(fault)
            }
        }
    }

    fn settings(&mut self) -> Result<Option<Settings>, StoreFault>
        ensures looked { Looked (keeper_told P.PROFILE S.Store D.Disk self.old) (keeper_told P.PROFILE S.Store D.Disk self.new)
            result }
        ensures ok { IfOk result (λ settings. Reports (keeper_told P.PROFILE S.Store D.Disk self.old)
            (keeper_told P.PROFILE S.Store D.Disk self.new) (λ rows records. settings ≡ (tree_of P.PROFILE).settings rows)) }
        ensures fault { FaultsOutside (store_at S.Store D.Disk self.old)
            (store_at S.Store D.Disk self.new) result }
        ensures plain { IfErr result IsPlain }
        // Whatever the database is, nothing is changed.
        ensures reads { OnlyReads (state S.Store (conn_of S.Store D.Disk self.old))
            (state S.Store (conn_of S.Store D.Disk self.new)) result }
    {
        one_holding();
        lots_are_read();
        match settings_at_rest(&mut self.look.conn) {
            Ok(settings) => Ok(settings),
            Err(fault) => {
                self.failed = true;
                Err(fault)
            }
        }
    }

    fn counts(&mut self) -> Result<StoreCounts, StoreFault>
        ensures looked { Looked (keeper_told P.PROFILE S.Store D.Disk self.old) (keeper_told P.PROFILE S.Store D.Disk self.new)
            result }
        ensures nodes { IfOk result (λ counts. Reports (keeper_told P.PROFILE S.Store D.Disk self.old)
            (keeper_told P.PROFILE S.Store D.Disk self.new) (λ rows records. counts.nodes ≡ (tree_of P.PROFILE).nodes rows)) }
        ensures handles { IfOk result (λ counts. Reports (keeper_told P.PROFILE S.Store D.Disk self.old)
            (keeper_told P.PROFILE S.Store D.Disk self.new)
            (λ rows records. counts.handles ≡ (tree_of P.PROFILE).handles rows)) }
        ensures records { IfOk result (λ counts. Reports (keeper_told P.PROFILE S.Store D.Disk self.old)
            (keeper_told P.PROFILE S.Store D.Disk self.new)
            (λ rows records. CountsRecords records counts.records)) }
        ensures lots { IfOk result (λ counts. Reports (keeper_told P.PROFILE S.Store D.Disk self.old)
            (keeper_told P.PROFILE S.Store D.Disk self.new)
            (λ rows records. counts.lots ≡ length (keeper_told P.PROFILE S.Store D.Disk self.old).lots.numbers)) }
        ensures fault { FaultsOutside (store_at S.Store D.Disk self.old)
            (store_at S.Store D.Disk self.new) result }
        ensures plain { IfErr result IsPlain }
        // Whatever the database is, nothing is changed.
        ensures reads { OnlyReads (state S.Store (conn_of S.Store D.Disk self.old))
            (state S.Store (conn_of S.Store D.Disk self.new)) result }
    {
        one_holding();
        lots_are_read();
        match counts_at_rest(&mut self.look.conn) {
            Ok(counts) => Ok(counts),
            Err(fault) => {
                self.failed = true;
                Err(fault)
            }
        }
    }

    fn failed(&self) -> bool {
        self.failed
    }

    fn model_is_sound() {
        tree_is_sound::<P>();
    }

    ghost sound = { λ k. record {
      one_holding = λ x y p q one two. one_held _ _ _ _ _ _ one two;
      clean_is_honest = λ clean. clean.0;
      service = λ honest. refl;
    } };

    ghost memory_is_clean = { λ k memory. memory_clean _ _ k memory };

    ghost counted = { record { none = λ k. tt; then = λ a b c m n before after. tt } };

    ghost log = { record { none = λ k. tt; onward = λ a b c before after one two. tt } };
}
