// The keeper of a guest.
use crate::laws::guest_calls_perform;
use crate::reads::{answer_at_rest, begin_mount, counts_at_rest, settings_at_rest};
use crate::store::{Deaths, GuestStore};
use crate::taken_lot::TakenLot;
use crate::transaction::perform;
use fuse_answer::Answer;
use fuse_guest::{Guested, guest_is_sound, is_seen, is_served};
use fuse_init::Settings;
use fuse_keeper::{Done, Keeper, StoreCounts, StoreFault};
use fuse_request::Request;
use fuse_wire::{Id, Moment};
use guest_tables::{holdings_are_read, pair_steps_fit};
use sqlite::Alter;
use std::alloc::Global;
use std::io::{Read, Write};
use std::marker::PhantomData;

/// A keeper of the file system that a guest is: its pairs and its records lie in a database of
/// SQLite, and the guest is asked what each request does.
///
/// After a fault it isn't used again: the guest may be in the middle of a request, and it knows
/// nothing of what was taken back.
#[derive(Drop)]
pub struct GuestKeeper<G, S: Alter, R, W> {
    pub(crate) alloc: Global,
    pub(crate) store: GuestStore<S, R, W>,
    pub(crate) deaths: Option<Deaths>,
    pub(crate) lot: TakenLot,
    pub(crate) failed: bool,
    pub(crate) of: PhantomData<G>,
}

impl<G: Guested, S: Alter + Drop, R: Read + Drop, W: Write + Drop> Keeper
    for GuestKeeper<G, S, R, W> {
    ghost use Rattle.std.proofs.Common.{ap};
    ghost use Rattle.std.specs.Prelude.{◌≡◌, ◌⊎◌, None, length, true, false, is_err, All, IfOk, IfErr, OnOk};
    ghost use Rattle.fuse_keeper.specs.Group.{entries_of, IsPerformed, OnlySees, ids_of};
    ghost use Rattle.fuse_keeper.specs.KeeperState.{AnswersNoMore, Called, Looked};
    ghost use Rattle.fuse_keeper.specs.KeeperState.{ActsOn, IsFirm, Performs};
    ghost use Rattle.fuse_keeper.specs.KeeperState.{KeepsLots, KeepsOthers, LeavesGroup, LeavesActed};
    ghost use Rattle.fuse_keeper.specs.KeeperState.{BeginsMount, DropsLots, LeavesMount};
    ghost use Rattle.fuse_store_tables.specs.Faults.{IsOutside};
    ghost use Rattle.fuse_store_tables.specs.Moves.{LeavesAlone};
    ghost use Rattle.fuse_guest.specs.GuestModel.{guest_model};
    ghost use Rattle.fuse_guest.specs.Service.{service_of};
    ghost use Rattle.guest_store.specs.Group.{performed};
    ghost use Rattle.guest_store.specs.Asks.{AskedBy, all_asks};
    ghost use Rattle.guest_store.specs.Keeping.{deaths_of, keeper_told, store_at};
    ghost use Rattle.guest_store.specs.Mounting.{begun};
    ghost use Rattle.guest_store.specs.Repeats.{AllAgain};
    ghost use Rattle.guest_store.specs.StoreState.{EndsWhole, IsSafeStore, ReportsStore, ServesStore};
    ghost use Rattle.guest_store.specs.inner.Laws.{one_held};

    ghost model = { guest_model G.GUEST };

    ghost told = { keeper_told G.GUEST S.Store R.remaining W.contents };

    ghost became = { λ a b n. Unit {0} };

    ghost performed = { λ a b list. Unit {0} };

    fn serves(&self, opcode: u32) -> bool {
        is_served(&self.store.talk.ready(), opcode)
    }

    fn sees(&self, opcode: u32) -> bool {
        is_seen(&self.store.talk.ready(), opcode)
    }

    fn perform(
        &mut self,
        group: &[(Request<'_>, Moment)],
        settled: &[Id],
    ) -> Result<Vec<Done>, StoreFault>
        requires performed { All (IsPerformed
            (keeper_told G.GUEST S.Store R.remaining W.contents self.old).service)
            (entries_of group.now) }
        ensures count { IfOk result (λ dones. length dones.items ≡ length group.now) }
        ensures called { Called (keeper_told G.GUEST S.Store R.remaining W.contents self.old)
            (keeper_told G.GUEST S.Store R.remaining W.contents self.new) result }
        ensures may { AnswersNoMore (keeper_told G.GUEST S.Store R.remaining W.contents self.old)
            (keeper_told G.GUEST S.Store R.remaining W.contents self.new) }
        ensures ok { IfOk result (λ dones. Performs
            (keeper_told G.GUEST S.Store R.remaining W.contents self.old)
            (keeper_told G.GUEST S.Store R.remaining W.contents self.new)
            (ids_of settled.now) (entries_of group.now) dones.items) }
        // Where nothing is to be kept it only looks.
        ensures looked { OnlySees (keeper_told G.GUEST S.Store R.remaining W.contents self.old).service
            (entries_of group.now) (ids_of settled.now)
            → Looked (keeper_told G.GUEST S.Store R.remaining W.contents self.old)
            (keeper_told G.GUEST S.Store R.remaining W.contents self.new) result }
        // The settled records go first: an id that is settled and in the group acts anew.
        ensures acts { IfOk result (λ dones. ActsOn
            (keeper_told G.GUEST S.Store R.remaining W.contents self.old)
            (keeper_told G.GUEST S.Store R.remaining W.contents self.new)
            (ids_of settled.now) (entries_of group.now) dones.items) }
        ensures others { OnOk result (KeepsOthers
            (keeper_told G.GUEST S.Store R.remaining W.contents self.old)
            (keeper_told G.GUEST S.Store R.remaining W.contents self.new)
            (ids_of settled.now) (entries_of group.now)) }
        ensures lots { OnOk result (KeepsLots
            (keeper_told G.GUEST S.Store R.remaining W.contents self.old)
            (keeper_told G.GUEST S.Store R.remaining W.contents self.new)
            (ids_of settled.now) (entries_of group.now)) }
        ensures crash { LeavesGroup (keeper_told G.GUEST S.Store R.remaining W.contents self.old)
            (keeper_told G.GUEST S.Store R.remaining W.contents self.new)
            (ids_of settled.now) (entries_of group.now) }
        ensures crash_acts { LeavesActed
            (keeper_told G.GUEST S.Store R.remaining W.contents self.old)
            (keeper_told G.GUEST S.Store R.remaining W.contents self.new)
            (ids_of settled.now) (entries_of group.now) }
        ensures firm { OnOk result (
            (keeper_told G.GUEST S.Store R.remaining W.contents self.new).is_honest
            → IsFirm (keeper_told G.GUEST S.Store R.remaining W.contents self.old)
            ⊎ ¬ (OnlySees (keeper_told G.GUEST S.Store R.remaining W.contents self.old).service
            (entries_of group.now) (ids_of settled.now))
            → IsFirm (keeper_told G.GUEST S.Store R.remaining W.contents self.new)) }
        // Where a call has failed, nothing is performed any more.
        ensures going { OnOk result (
            (keeper_told G.GUEST S.Store R.remaining W.contents self.old).has_failed ≡ false) }
        // Of a store that was sound, the fault is `Damaged` only where no lot number is left.
        ensures fault { IsSafeStore G.GUEST
            (keeper_told G.GUEST S.Store R.remaining W.contents self.old).lots.current
            (store_at S.Store R.remaining W.contents self.old)
            (store_at S.Store R.remaining W.contents self.new) result }
        // The next lot has the number after the one that the call takes, if it takes one.
        ensures held { ServesStore G.GUEST (performed
            (keeper_told G.GUEST S.Store R.remaining W.contents self.old).lots.current
            (ids_of settled.now) (entries_of group.now))
            (store_at S.Store R.remaining W.contents self.old)
            (store_at S.Store R.remaining W.contents self.new) result }
        // The guest is asked each request of the group that is to be asked, in their order, and
        // nothing else: not one that has a record, isn't served, is malformed or comes before INIT,
        // and not one that ended three guests. It is shown the pairs as they stand before it.
        ensures asks { ReportsStore G.GUEST (store_at S.Store R.remaining W.contents self.old)
            (store_at S.Store R.remaining W.contents self.new) (λ y. AskedBy result
            (all_asks G.GUEST (deaths_of self.old)
            (keeper_told G.GUEST S.Store R.remaining W.contents self.old).lots.current
            (ids_of settled.now) (entries_of group.now) y)
            (store_at S.Store R.remaining W.contents self.old).talk
            (store_at S.Store R.remaining W.contents self.new).talk) }
        ensures deaths { deaths_of self.new ≡ deaths_of self.old }
        // Where all was answered from records, the guest wasn't asked.
        ensures silent { IfOk result (λ dones. AllAgain dones.items
            → (store_at S.Store R.remaining W.contents self.new).talk.events
            ≡ (store_at S.Store R.remaining W.contents self.old).talk.events) }
        // Whatever the database is: no transaction is left open (`ended`), a refusal leaves it alone
        // (`refused`), a fault leaves what was committed (`undone`), and it commits once at most
        // (`once`).
        ensures ends { EndsWhole (store_at S.Store R.remaining W.contents self.old).tables
            (store_at S.Store R.remaining W.contents self.new).tables result }
        // Where nothing is to be kept, nothing is changed or committed, whatever the database is.
        ensures alone { OnlySees (keeper_told G.GUEST S.Store R.remaining W.contents self.old).service
            (entries_of group.now) (ids_of settled.now)
            → LeavesAlone (store_at S.Store R.remaining W.contents self.old).tables
            (store_at S.Store R.remaining W.contents self.new).tables }
    {
        holdings_are_read();
        pair_steps_fit();
        guest_calls_perform::<G>();
        let lot = self.lot.number;
        match perform::<G, S, R, W>(
            self.alloc,
            &mut self.store,
            self.deaths,
            lot,
            self.failed,
            group,
            settled,
        ) {
            Ok(performed) => {
                self.lot = TakenLot {
                    number: performed.lot,
                };
                Ok(performed.dones)
            }
            Err(fault) => {
                self.failed = true;
                Err(fault)
            }
        }
    }

    fn begin_mount(&mut self) -> Result<(), StoreFault>
        ensures called { Called (keeper_told G.GUEST S.Store R.remaining W.contents self.old)
            (keeper_told G.GUEST S.Store R.remaining W.contents self.new) result }
        // A lot that was taken is gone, and there may be no other one.
        ensures may { (is_err result ≡ true)
            ⊎ ((keeper_told G.GUEST S.Store R.remaining W.contents self.old).lots.current ≡ None)
            → AnswersNoMore (keeper_told G.GUEST S.Store R.remaining W.contents self.old)
            (keeper_told G.GUEST S.Store R.remaining W.contents self.new) }
        ensures ok { OnOk result (BeginsMount
            (keeper_told G.GUEST S.Store R.remaining W.contents self.old)
            (keeper_told G.GUEST S.Store R.remaining W.contents self.new)) }
        ensures lots { OnOk result (DropsLots
            (keeper_told G.GUEST S.Store R.remaining W.contents self.old)
            (keeper_told G.GUEST S.Store R.remaining W.contents self.new)) }
        ensures crash { LeavesMount (keeper_told G.GUEST S.Store R.remaining W.contents self.old)
            (keeper_told G.GUEST S.Store R.remaining W.contents self.new) }
        ensures firm { OnOk result ((keeper_told G.GUEST S.Store R.remaining W.contents self.new).is_honest
            → IsFirm (keeper_told G.GUEST S.Store R.remaining W.contents self.new)) }
        // The fault is that of a statement.
        ensures fault { IfErr result IsOutside }
        // The guest is asked nothing.
        ensures talk { (store_at S.Store R.remaining W.contents self.new).talk
            ≡ (store_at S.Store R.remaining W.contents self.old).talk }
        ensures deaths { deaths_of self.new ≡ deaths_of self.old }
        // The next lot has the number that it had.
        ensures held { ServesStore G.GUEST (λ y. begun y)
            (store_at S.Store R.remaining W.contents self.old)
            (store_at S.Store R.remaining W.contents self.new) result }
        ensures ends { EndsWhole (store_at S.Store R.remaining W.contents self.old).tables
            (store_at S.Store R.remaining W.contents self.new).tables result }
    {
        holdings_are_read();
        match begin_mount::<G, S>(&mut self.store.pairs.conn) {
            Ok(()) => {
                self.lot = TakenLot { number: None };
                Ok(())
            }
            Err(fault) => {
                self.failed = true;
                Err(fault)
            }
        }
    }

    fn answer_of(&mut self, id: Id) -> Result<Option<Answer>, StoreFault> {
        holdings_are_read();
        match answer_at_rest::<G, S>(&mut self.store.pairs.conn, id.0) {
            Ok(answer) => Ok(answer),
            Err(fault) => {
                self.failed = true;
                Err(fault)
            }
        }
    }

    fn settings(&mut self) -> Result<Option<Settings>, StoreFault> {
        holdings_are_read();
        match settings_at_rest::<G, S>(&mut self.store.pairs.conn) {
            Ok(settings) => Ok(settings),
            Err(fault) => {
                self.failed = true;
                Err(fault)
            }
        }
    }

    fn counts(&mut self) -> Result<StoreCounts, StoreFault> {
        holdings_are_read();
        match counts_at_rest::<G, S>(&mut self.store.pairs.conn) {
            Ok(counts) => Ok(counts),
            Err(fault) => {
                self.failed = true;
                Err(fault)
            }
        }
    }

    fn failed(&self) -> bool {
        self.failed
    }

    fn model_is_sound() {
        guest_is_sound::<G>();
    }

    ghost sound = { λ k. record {
      one_holding = λ x y p q one two. one_held _ _ _ _ _ _ one two;
      clean_is_honest = λ clean. clean.0;
      service = λ honest. ap service_of honest.1.ready;
    } };

    ghost memory_is_clean = { λ k memory. absurd memory };

    ghost counted = { record { none = λ k. tt; then = λ a b c m n before after. tt } };

    ghost log = { record { none = λ k. tt; onward = λ a b c before after one two. tt } };
}
