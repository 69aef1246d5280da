// A keeper that counts and logs.
ghost use Rattle.std.specs.Prelude.{◌≡◌, ◌⊎◌, true, [], ◌∷◌, length, All, None, is_err};
ghost use Rattle.std.specs.Prelude.{IfOk, IfErr, OnOk, MatchResult};
ghost use Rattle.fuse_keeper.specs.KeeperState.{IsFirm, Reports, Reopened};
ghost use Rattle.fuse_keeper.specs.KeeperState.{AnswersNoMore, Called, Looked, Performs};
ghost use Rattle.fuse_keeper.specs.KeeperState.{ActsOn, KeepsOthers, KeepsLots, LeavesGroup, LeavesActed};
ghost use Rattle.fuse_keeper.specs.KeeperState.{BeginsMount, DropsLots, LeavesMount};
ghost use Rattle.fuse_keeper.specs.Stands.{Records, CountsRecords};
ghost use Rattle.fuse_keeper.specs.Group.{entries_of, HasId, IsPerformed, OnlySees, ids_of};
ghost use Rattle.counting_keeper.specs.Counting.{inner_of, tally_of, log_of, nothing};
ghost use Rattle.counting_keeper.specs.Logging.{calls_of};
ghost use Rattle.counting_keeper.specs.Counting.{with_group, with_mount, with_fault, with_opening};
ghost use Rattle.counting_keeper.specs.Counting.{LooksCounted};
ghost use Rattle.counting_keeper.specs.inner.Laws.{opened_then};

use crate::log::Log;
use crate::tally::Tally;
use fuse_answer::Answer;
use fuse_init::Settings;
use fuse_keeper::{Done, Keeper, Restart, StoreCounts, StoreFault};
use fuse_request::Request;
use fuse_wire::{Id, Moment};
use std::alloc::Global;

/// Any keeper, a tally of what it has done since it was put here, and a log of what it was asked.
#[derive(Drop)]
pub struct CountingKeeper<K> {
    alloc: Global,
    inner: K,
    tally: Tally,
    log: Log,
}

impl<K: Keeper> CountingKeeper<K> {
    /// Over this keeper, nothing counted and logged yet.
    pub fn new(alloc: Global, inner: K) -> CountingKeeper<K>
        ensures inner { inner_of result ≡ inner }
        ensures tally { tally_of result ≡ nothing }
        ensures calls { calls_of (log_of result) ≡ [] }
        ensures whole { (log_of result).is_whole ≡ true }
    {
        CountingKeeper {
            alloc,
            inner,
            tally: Tally::NONE,
            log: Log::new(alloc),
        }
    }

    /// The counts. Takes no memory.
    pub fn tally(&self) -> Tally
        ensures { result ≡ tally_of self.now }
    {
        self.tally
    }

    /// The log. Takes no memory.
    pub fn log(&self) -> &Log
        ensures { result.now ≡ log_of self.now }
    {
        &self.log
    }

    /// The keeper that it stands on.
    pub fn into_inner(self) -> K
        ensures { result ≡ inner_of self }
    {
        self.inner
    }
}

impl<K: Keeper> Keeper for CountingKeeper<K> {
    ghost use Rattle.std.specs.Prelude.{◌≤◌};
    ghost use Rattle.std.proofs.Common.{arith};
    ghost use Rattle.fuse_keeper.specs.declared.keeper.TheConstants.{MAX_GROUP as max_group};
    ghost use Rattle.fuse_keeper.specs.declared.keeper.TheConstants.{MAX_SETTLED as max_settled};
    ghost use Rattle.counting_keeper.specs.Counting.{Became, Asked};
    ghost use Rattle.counting_keeper.specs.inner.Laws.{logged_none, logged_onward};

    ghost model = { K.model };

    ghost told = { λ k. K.told (inner_of k) };

    ghost became = { Became K.became };

    ghost performed = { Asked K.performed };

    fn serves(&self, opcode: u32) -> bool {
        self.inner.serves(opcode)
    }

    fn sees(&self, opcode: u32) -> bool {
        self.inner.sees(opcode)
    }

    fn perform(
        &mut self,
        group: &[(Request<'_>, Moment)],
        settled: &[Id],
    ) -> Result<Vec<Done>, StoreFault>
        requires short { length group.now ≤ max_group }
        requires few { length settled.now ≤ max_settled }
        requires named { All HasId (entries_of group.now) }
        requires performed { All (IsPerformed (K.told (inner_of self.old)).service)
            (entries_of group.now) }
        ensures count { IfOk result (λ dones. length dones.items ≡ length group.now) }
        ensures called { Called (K.told (inner_of self.old)) (K.told (inner_of self.new)) result }
        ensures may { AnswersNoMore (K.told (inner_of self.old)) (K.told (inner_of self.new)) }
        ensures ok { IfOk result (λ dones. Performs (K.told (inner_of self.old))
            (K.told (inner_of self.new)) (ids_of settled.now) (entries_of group.now) dones.items) }
        ensures looked { OnlySees (K.told (inner_of self.old)).service
            (entries_of group.now) (ids_of settled.now)
            → Looked (K.told (inner_of self.old)) (K.told (inner_of self.new)) result }
        ensures acts { IfOk result (λ dones. ActsOn (K.told (inner_of self.old))
            (K.told (inner_of self.new)) (ids_of settled.now) (entries_of group.now) dones.items) }
        ensures others { OnOk result (KeepsOthers (K.told (inner_of self.old))
            (K.told (inner_of self.new)) (ids_of settled.now) (entries_of group.now)) }
        ensures lots { OnOk result (KeepsLots (K.told (inner_of self.old))
            (K.told (inner_of self.new)) (ids_of settled.now) (entries_of group.now)) }
        ensures crash { LeavesGroup (K.told (inner_of self.old)) (K.told (inner_of self.new))
            (ids_of settled.now) (entries_of group.now) }
        ensures crash_acts { LeavesActed (K.told (inner_of self.old)) (K.told (inner_of self.new))
            (ids_of settled.now) (entries_of group.now) }
        ensures firm { OnOk result ((K.told (inner_of self.new)).is_honest
            → IsFirm (K.told (inner_of self.old))
            ⊎ ¬ (OnlySees (K.told (inner_of self.old)).service
            (entries_of group.now) (ids_of settled.now))
            → IsFirm (K.told (inner_of self.new))) }
        ensures same { Became K.became self.old self.new 0 }
        ensures asked { Asked K.performed self.old self.new
            (record { group = entries_of group.now; settled = ids_of settled.now } ∷ []) }
        ensures counted { MatchResult result
            (λ dones. tally_of self.new ≡ with_group (tally_of self.old) dones.items)
            (λ _. tally_of self.new ≡ with_fault (tally_of self.old)) }
    {
        self.log.note(self.alloc, group, settled);
        match self.inner.perform(group, settled) {
            Ok(dones) => {
                self.tally.count_group(dones.as_slice());
                Ok(dones)
            }
            Err(fault) => {
                self.tally.count_fault();
                Err(fault)
            }
        }
    }

    fn begin_mount(&mut self) -> Result<(), StoreFault>
        ensures called { Called (K.told (inner_of self.old)) (K.told (inner_of self.new)) result }
        ensures may { (is_err result ≡ true) ⊎ ((K.told (inner_of self.old)).lots.current ≡ None)
            → AnswersNoMore (K.told (inner_of self.old)) (K.told (inner_of self.new)) }
        ensures ok { OnOk result
            (BeginsMount (K.told (inner_of self.old)) (K.told (inner_of self.new))) }
        ensures lots { OnOk result
            (DropsLots (K.told (inner_of self.old)) (K.told (inner_of self.new))) }
        ensures crash { LeavesMount (K.told (inner_of self.old)) (K.told (inner_of self.new)) }
        ensures firm { OnOk result ((K.told (inner_of self.new)).is_honest
            → IsFirm (K.told (inner_of self.new))) }
        ensures same { Became K.became self.old self.new 0 }
        ensures unasked { Asked K.performed self.old self.new [] }
        ensures counted { MatchResult result
            (λ _. tally_of self.new ≡ with_mount (tally_of self.old))
            (λ _. tally_of self.new ≡ with_fault (tally_of self.old)) }
    {
        match self.inner.begin_mount() {
            Ok(()) => {
                self.tally.count_mount();
                Ok(())
            }
            Err(fault) => {
                self.tally.count_fault();
                Err(fault)
            }
        }
    }

    fn answer_of(&mut self, id: Id) -> Result<Option<Answer>, StoreFault>
        ensures looked { Looked (K.told (inner_of self.old)) (K.told (inner_of self.new)) result }
        ensures ok { IfOk result (λ answer. (K.told (inner_of self.new)).is_honest
            → (rows : K.model.Rows) (records : Records)
            → (K.told (inner_of self.old)).holds rows records → answer ≡ records id.0) }
        ensures same { Became K.became self.old self.new 0 }
        ensures unasked { Asked K.performed self.old self.new [] }
        ensures counted { LooksCounted (tally_of self.old) (tally_of self.new) result }
    {
        let answer = self.inner.answer_of(id);
        self.tally.count_look(&answer);
        answer
    }

    fn settings(&mut self) -> Result<Option<Settings>, StoreFault>
        ensures looked { Looked (K.told (inner_of self.old)) (K.told (inner_of self.new)) result }
        ensures ok { IfOk result (λ settings. Reports (K.told (inner_of self.old))
            (K.told (inner_of self.new)) (λ rows records. settings ≡ K.model.settings rows)) }
        ensures same { Became K.became self.old self.new 0 }
        ensures unasked { Asked K.performed self.old self.new [] }
        ensures counted { LooksCounted (tally_of self.old) (tally_of self.new) result }
    {
        let settings = self.inner.settings();
        self.tally.count_look(&settings);
        settings
    }

    fn counts(&mut self) -> Result<StoreCounts, StoreFault>
        ensures looked { Looked (K.told (inner_of self.old)) (K.told (inner_of self.new)) result }
        ensures nodes { IfOk result (λ counts. Reports (K.told (inner_of self.old))
            (K.told (inner_of self.new)) (λ rows records. counts.nodes ≡ K.model.nodes rows)) }
        ensures handles { IfOk result (λ counts. Reports (K.told (inner_of self.old))
            (K.told (inner_of self.new)) (λ rows records. counts.handles ≡ K.model.handles rows)) }
        ensures records { IfOk result (λ counts. Reports (K.told (inner_of self.old))
            (K.told (inner_of self.new)) (λ rows records. CountsRecords records counts.records)) }
        ensures lots { IfOk result (λ counts. Reports (K.told (inner_of self.old))
            (K.told (inner_of self.new))
            (λ rows records. counts.lots ≡ length (K.told (inner_of self.old)).lots.numbers)) }
        ensures same { Became K.became self.old self.new 0 }
        ensures unasked { Asked K.performed self.old self.new [] }
        ensures counted { LooksCounted (tally_of self.old) (tally_of self.new) result }
    {
        let counts = self.inner.counts();
        self.tally.count_look(&counts);
        counts
    }

    fn failed(&self) -> bool {
        self.inner.failed()
    }

    fn model_is_sound() {
        K::model_is_sound();
    }

    ghost sound = { λ k. K.sound (inner_of k) };

    ghost memory_is_clean = { λ k memory. K.memory_is_clean (inner_of k) memory };

    ghost counted = { record {
      none = λ k. (K.counted.none (inner_of k), λ room. omega arith);
      then = λ a b c m n before after. (
        K.counted.then (inner_of a) (inner_of b) (inner_of c) m n before.0 after.0,
        opened_then a.tally b.tally c.tally m n before.1 after.1,
      );
    } };

    ghost log = { record {
      none = λ k. (K.log.none (inner_of k), logged_none (log_of k));
      onward = λ a b c before after one two. (
        K.log.onward (inner_of a) (inner_of b) (inner_of c) before after one.0 two.0,
        logged_onward a.log b.log c.log before after one.1 two.1,
      );
    } };
}

impl<K: Restart> Restart for CountingKeeper<K> {
    ghost use Rattle.counting_keeper.specs.Counting.{Became, Asked};

    type Rest = K::Rest;

    ghost refuses = { λ k. K.refuses (inner_of k) };

    /// Opens again the keeper that it stands on, and keeps the tally and the log.
    fn restart(self) -> Result<CountingKeeper<K>, (StoreFault, K::Rest)>
        ensures reopened { IfOk result
            (λ k. Reopened (K.told (inner_of self)) (K.told (inner_of k))) }
        ensures refused { IfErr result (λ e. K.refuses (inner_of self) e.0 e.1) }
        ensures once { IfOk result (λ k. Became K.became self k 1) }
        ensures unasked { IfOk result (λ k. Asked K.performed self k []) }
        ensures counted { IfOk result (λ k. tally_of k ≡ with_opening (tally_of self)) }
    {
        let mut tally = self.tally;
        let alloc = self.alloc;
        let log = self.log;
        let inner = self.inner.restart()?;
        tally.count_opening();
        Ok(CountingKeeper {
            alloc,
            inner,
            tally,
            log,
        })
    }
}
