// A keeper in memory.
ghost use Rattle.std.specs.Prelude.{◌≡◌, ℕ, List, false, [], length, All, IfOk, OnOk, OnErr};
ghost use Rattle.std.specs.Prelude.{IfErr, IsOk, Ok, None};
ghost use Rattle.fuse_keeper.specs.History.{History, Includes, IsUnsettled, kept_of};
ghost use Rattle.fuse_keeper.specs.Model.{IsOfGoodState};
ghost use Rattle.fuse_keeper.specs.Stands.{StandsBy, PerformedBy, KeepsHeldBy, OthersStay};
ghost use Rattle.fuse_keeper.specs.Stands.{without};
ghost use Rattle.fuse_keeper.specs.Taking.{TakesAll};
ghost use Rattle.fuse_keeper.specs.Group.{entries_of, ids_of, IsPerformed};
ghost use Rattle.fuse_keeper.specs.Plain.{mapped};

use crate::fault::StoreFault;
use crate::file_system::FileSystem;
use crate::group::{settle, take_all};
use crate::keeper::{Done, Keeper, StoreCounts};
use crate::restart::Restart;
use fuse_answer::Answer;
use fuse_init::Settings;
use fuse_request::Request;
use fuse_wire::{Id, Memory, Moment};
use std::alloc::Global;
use std::collections::HashMap;

// A map of the same records.
fn copy_of(records: &HashMap<u64, Answer>, alloc: Global) -> Result<HashMap<u64, Answer>, Memory>
    ensures { IfOk result (λ copy. (i : ℕ) → mapped copy i ≡ mapped records.now i) }
{
    let mut copy = HashMap::new(alloc);
    for (id, answer) in records.iter() {
        copy.insert(*id, answer.to_copy(alloc)?)?;
    }
    Ok(copy)
}

/// A keeper over a file system in memory, whose records are a map. A crash leaves what it holds.
#[derive(Drop)]
pub struct PlainKeeper<F> {
    alloc: Global,
    rows: F,
    records: HashMap<u64, Answer>,
    failed: bool,
}

impl<F: FileSystem> PlainKeeper<F> {
    ghost use Rattle.fuse_keeper.specs.PlainKeeper.{plain_holds, plain_told};
    ghost use Rattle.fuse_keeper.specs.KeeperState.{StandsFor, KeepsHeld};

    /// A new store, made at this moment.
    pub fn new(alloc: Global, now: Moment) -> Result<PlainKeeper<F>, Memory>
        ensures stands { IfOk result (λ k. StandsFor (plain_told F.model F.held k)
            (F.model.start now) [] []) }
        ensures going { IfOk result (λ k. (plain_told F.model F.held k).has_failed ≡ false) }
        ensures medium { IfOk result (λ k. (plain_told F.model F.held k).in_memory) }
    {
        F::model_is_sound();
        let rows = F::start(alloc, now)?;
        Ok(PlainKeeper::over(alloc, rows))
    }

    /// A store of this file system, without records.
    pub fn over(alloc: Global, rows: F) -> PlainKeeper<F>
        ensures stands { (s : F.model.State) → F.model.IsGood s → F.held rows ≡ F.model.held_for s
            → StandsFor (plain_told F.model F.held result) s [] [] }
        ensures going { (plain_told F.model F.held result).has_failed ≡ false }
        ensures medium { (plain_told F.model F.held result).in_memory }
    {
        PlainKeeper {
            alloc,
            rows,
            records: HashMap::new(alloc),
            failed: false,
        }
    }

    /// A keeper that holds the same, as if no call of it had failed.
    pub fn to_copy(&self) -> Result<PlainKeeper<F>, Memory>
        ensures same { IfOk result (λ copy. KeepsHeld
            (plain_told F.model F.held self.now) (plain_told F.model F.held copy)) }
        ensures no_more { IfOk result (λ copy. KeepsHeld
            (plain_told F.model F.held copy) (plain_told F.model F.held self.now)) }
        ensures going { IfOk result (λ copy. (plain_told F.model F.held copy).has_failed ≡ false) }
        ensures medium { IfOk result (λ copy. (plain_told F.model F.held copy).in_memory) }
    {
        let rows = self.rows.to_copy()?;
        Ok(PlainKeeper {
            alloc: self.alloc,
            rows,
            records: copy_of(&self.records, self.alloc)?,
            failed: false,
        })
    }

    // Performs a group. A fault changes nothing.
    fn perform_group(
        &mut self,
        group: &[(Request<'_>, Moment)],
        settled: &[Id],
    ) -> Result<Vec<Done>, StoreFault>
        requires { All (IsPerformed F.model.service) (entries_of group.now) }
        ensures count { IfOk result (λ dones. length dones.items ≡ length group.now) }
        ensures ok { IfOk result (λ dones. (s : F.model.State) (h : History) (t : List ℕ)
            → StandsBy F.model (plain_holds F.model F.held self.old) s h t
            → Includes t (ids_of settled.now)
            → All (IsUnsettled t) (kept_of F.model.service (entries_of group.now))
            → PerformedBy F.model (plain_holds F.model F.held self.new)
            (record { state = s; history = h; settled = t }) (entries_of group.now) dones.items) }
        ensures acts { IfOk result (λ dones. TakesAll F.model
            (record {
              rows = F.held self.old.rows;
              records = without (ids_of settled.now) (mapped self.old.records);
            })
            (entries_of group.now)
            (record { rows = F.held self.new.rows; records = mapped self.new.records })
            dones.items) }
        ensures rowed { OnOk result (IsOfGoodState F.model (F.held self.old.rows)
            → IsOfGoodState F.model (F.held self.new.rows)) }
        ensures others { OnOk result (OthersStay (mapped self.old.records) (ids_of settled.now)
            (kept_of F.model.service (entries_of group.now)) (mapped self.new.records)) }
        ensures err { OnErr result (KeepsHeldBy F.model (plain_holds F.model F.held self.old)
            (plain_holds F.model F.held self.new)) }
        ensures fault { IfErr result (λ f. IsOfGoodState F.model (F.held self.old.rows)
            → f ≡ StoreFault.Memory) }
        ensures failed { self.new.failed ≡ self.old.failed }
    {
        let taken = take_all(self.alloc, &self.rows, &self.records, settled, group)?;
        self.records.reserve(taken.draft.added.len())?;
        settle(&mut self.records, settled, taken.draft.added);
        self.rows = taken.draft.rows;
        Ok(taken.dones)
    }
}

impl<F: FileSystem> Keeper for PlainKeeper<F> {
    ghost use Rattle.std.proofs.Common.{sym, ◌∙◌};
    ghost use Rattle.fuse_keeper.specs.PlainKeeper.{plain_told, plain_records};
    ghost use Rattle.fuse_keeper.specs.KeeperState.{IsFirm, Reports, Called, Looked, AnswersNoMore};
    ghost use Rattle.std.specs.Prelude.{◌⊎◌, true, is_err, refl};
    ghost use Rattle.fuse_keeper.specs.KeeperState.{BeginsMount, DropsLots, LeavesMount};
    ghost use Rattle.fuse_keeper.specs.Stands.{Records, CountsRecords};

    ghost model = { F.model };

    ghost told = { plain_told F.model F.held };

    ghost became = { λ a b n. Unit {0} };

    ghost performed = { λ a b list. Unit {0} };

    fn serves(&self, opcode: u32) -> bool {
        F::serves(opcode)
    }

    fn sees(&self, opcode: u32) -> bool {
        F::sees(opcode)
    }

    fn perform(
        &mut self,
        group: &[(Request<'_>, Moment)],
        settled: &[Id],
    ) -> Result<Vec<Done>, StoreFault> {
        match self.perform_group(group, settled) {
            Ok(dones) => Ok(dones),
            Err(fault) => {
                self.failed = true;
                Err(fault)
            }
        }
    }

    /// Takes no memory.
    fn begin_mount(&mut self) -> Result<(), StoreFault>
        ensures called { Called (plain_told F.model F.held self.old)
            (plain_told F.model F.held self.new) result }
        ensures may { (is_err result ≡ true)
            ⊎ ((plain_told F.model F.held self.old).lots.current ≡ None)
            → AnswersNoMore (plain_told F.model F.held self.old)
            (plain_told F.model F.held self.new) }
        ensures ok { OnOk result (BeginsMount (plain_told F.model F.held self.old)
            (plain_told F.model F.held self.new)) }
        ensures lots { OnOk result (DropsLots (plain_told F.model F.held self.old)
            (plain_told F.model F.held self.new)) }
        ensures crash { LeavesMount (plain_told F.model F.held self.old)
            (plain_told F.model F.held self.new) }
        ensures firm { OnOk result ((plain_told F.model F.held self.new).is_honest
            → IsFirm (plain_told F.model F.held self.new)) }
        ensures no_fault { IsOk result }
    {
        self.rows.begin_mount();
        self.records.clear();
        Ok(())
    }

    fn answer_of(&mut self, id: Id) -> Result<Option<Answer>, StoreFault>
        ensures looked { Looked (plain_told F.model F.held self.old)
            (plain_told F.model F.held self.new) result }
        ensures ok { IfOk result (λ answer. (plain_told F.model F.held self.new).is_honest
            → (rows : F.model.Rows) (records : Records)
            → (plain_told F.model F.held self.old).holds rows records → answer ≡ records id.0) }
        ensures fault { IfErr result (λ f. f ≡ StoreFault.Memory) }
        ensures no_fault { plain_records self.old id.0 ≡ None → IsOk result }
    {
        let Some(answer) = self.records.get(&id.0) else {
            return Ok(None);
        };
        match answer.to_copy(self.alloc) {
            Ok(copy) => Ok(Some(copy)),
            Err(_) => {
                self.failed = true;
                Err(StoreFault::Memory)
            }
        }
    }

    /// Takes no memory.
    fn settings(&mut self) -> Result<Option<Settings>, StoreFault>
        ensures looked { Looked (plain_told F.model F.held self.old)
            (plain_told F.model F.held self.new) result }
        ensures ok { IfOk result (λ settings. Reports (plain_told F.model F.held self.old)
            (plain_told F.model F.held self.new)
            (λ rows records. settings ≡ F.model.settings rows)) }
        ensures no_fault { IsOk result }
    {
        Ok(self.rows.agreed())
    }

    /// Takes no memory.
    fn counts(&mut self) -> Result<StoreCounts, StoreFault>
        ensures looked { Looked (plain_told F.model F.held self.old)
            (plain_told F.model F.held self.new) result }
        ensures nodes { IfOk result (λ counts. Reports (plain_told F.model F.held self.old)
            (plain_told F.model F.held self.new)
            (λ rows records. counts.nodes ≡ F.model.nodes rows)) }
        ensures handles { IfOk result (λ counts. Reports (plain_told F.model F.held self.old)
            (plain_told F.model F.held self.new)
            (λ rows records. counts.handles ≡ F.model.handles rows)) }
        ensures records { IfOk result (λ counts. Reports (plain_told F.model F.held self.old)
            (plain_told F.model F.held self.new)
            (λ rows records. CountsRecords records counts.records)) }
        ensures lots { IfOk result (λ counts. Reports (plain_told F.model F.held self.old)
            (plain_told F.model F.held self.new) (λ rows records. counts.lots ≡ 0)) }
        ensures no_fault { IsOk result }
    {
        let counters = self.rows.counted();
        Ok(StoreCounts {
            nodes: counters.0,
            handles: counters.1,
            records: self.records.len() as u64,
            lots: 0,
        })
    }

    fn failed(&self) -> bool {
        self.failed
    }

    fn model_is_sound() {
        F::model_is_sound();
    }

    ghost sound = { λ k. record {
      one_holding = λ x y p q one two. (one.0 ∙ sym two.0, λ i. one.1 i ∙ sym (two.1 i));
      clean_is_honest = λ clean. clean;
      service = λ honest. refl;
    } };

    ghost memory_is_clean = { λ k memory. memory };

    ghost counted = { record { none = λ k. tt; then = λ a b c m n before after. tt } };

    ghost log = { record { none = λ k. tt; onward = λ a b c before after one two. tt } };
}

impl<F: FileSystem> Restart for PlainKeeper<F> {
    ghost use Rattle.fuse_keeper.specs.PlainKeeper.{unfailed};

    type Rest = ();

    ghost refuses = { λ _ _ _. ⊥ };

    /// The same keeper, as if no call of it had failed. Takes no memory.
    fn restart(mut self) -> Result<PlainKeeper<F>, (StoreFault, ())>
        ensures { result ≡ Ok (unfailed self) }
    {
        self.failed = false;
        Ok(self)
    }
}
