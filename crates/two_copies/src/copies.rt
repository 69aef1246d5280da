// A keeper in memory with two copies.
ghost use Rattle.std.specs.Prelude.{◌≡◌, ◌+◌, ◌^◌, ◌≤◌, ◌⊎◌, ℕ, List, true, false, [], length, All};
ghost use Rattle.std.specs.Prelude.{None, IfOk, IfErr, OnOk, OnErr, is_err};
ghost use Rattle.fuse_keeper.specs.History.{History};
ghost use Rattle.fuse_keeper.specs.Stands.{Records, CountsRecords};
ghost use Rattle.fuse_keeper.specs.Group.{entries_of, HasId, IsPerformed, OnlySees, ids_of};
ghost use Rattle.fuse_keeper.specs.KeeperState.{StandsFor, IsFirm, Reports, Reopened};
ghost use Rattle.fuse_keeper.specs.KeeperState.{AnswersNoMore, Called, Looked, Performs};
ghost use Rattle.fuse_keeper.specs.KeeperState.{ActsOn, KeepsOthers, KeepsLots, LeavesGroup, LeavesActed};
ghost use Rattle.fuse_keeper.specs.KeeperState.{BeginsMount, DropsLots, LeavesMount};
ghost use Rattle.fuse_keeper.specs.PlainKeeper.{plain_told};
ghost use Rattle.two_copies.specs.TwoCopies.{HoldsAlike, two_told, plan_of, new_plan};
ghost use Rattle.two_copies.specs.TwoCopies.{FailedAsPlanned, Follows, IsLater, WorkingAsked};

use fuse_answer::Answer;
use fuse_init::Settings;
use fuse_keeper::{
    Done, FileSystem, Keeper, PlainKeeper, Restart, StoreCounts, StoreFault, has_kept, still_stands,
};
use fuse_request::Request;
use fuse_wire::{Id, Memory, Moment};
use std::alloc::Global;

/// A keeper in memory with a working copy, from which a committed one is made after each change.
///
/// A commit may fail, by plan or since it is out of memory. Then the working copy holds the change.
/// The committed one holds it only where the maker asked for a commit that succeeds and reports a
/// fault: else a crash loses the change, and so does opening the keeper again. Until it is opened
/// again the keeper performs nothing more.
#[derive(Drop)]
pub struct TwoCopies<F> {
    committed: PlainKeeper<F>,
    working: PlainKeeper<F>,
    // The last commit failed.
    in_doubt: bool,
    // How often it was opened again.
    openings: u64,
    // So many commits go well between two that are refused.
    commits: u64,
    // So many of them are left.
    left: u64,
    // The next commit that isn't refused holds, and answers a fault.
    faults: bool,
}

impl<F: FileSystem> TwoCopies<F> {
    /// A new store, made at this moment. So many commits go well, the next one is refused, and so
    /// on: at 0 each is refused.
    pub fn new(alloc: Global, now: Moment, commits: u64) -> Result<TwoCopies<F>, Memory>
        ensures stands { IfOk result (λ k.
            StandsFor (two_told F.model F.held k) (F.model.start now) [] []) }
        ensures going { IfOk result (λ k. (two_told F.model F.held k).has_failed ≡ false) }
        ensures unopened { IfOk result (λ k. k.openings ≡ 0) }
        // Its medium gives back what was written, and no write is open.
        ensures medium { IfOk result (λ k. (two_told F.model F.held k).is_honest) }
        ensures clean { IfOk result (λ k. (two_told F.model F.held k).is_clean) }
        ensures plan { IfOk result (λ k. plan_of k ≡ new_plan commits) }
    {
        let working = PlainKeeper::new(alloc, now)?;
        Ok(TwoCopies {
            committed: working.to_copy()?,
            working,
            in_doubt: false,
            openings: 0,
            commits,
            left: commits,
            faults: false,
        })
    }

    /// The same, but that the next commit that isn't refused holds and answers a fault. Takes no
    /// memory.
    pub fn with_a_fault(mut self) -> TwoCopies<F>
        ensures { result ≡ record self { faults = true } }
    {
        self.faults = true;
        self
    }

    /// How often it was opened again. Takes no memory.
    pub fn openings(&self) -> u64
        ensures { result ≡ self.now.openings }
    {
        self.openings
    }

    // Makes the committed copy anew from the working one. Where it answers a fault it may have.
    fn commit(&mut self) -> Result<(), StoreFault>
        ensures working { self.new.working ≡ self.old.working }
        ensures openings { self.new.openings ≡ self.old.openings }
        ensures in_doubt { self.new.in_doubt ≡ is_err result }
        ensures ok { OnOk result (HoldsAlike (plain_told F.model F.held self.old.working)
            (plain_told F.model F.held self.new.committed)) }
        ensures err { OnErr result ((self.new.committed ≡ self.old.committed)
            ⊎ HoldsAlike (plain_told F.model F.held self.old.working)
            (plain_told F.model F.held self.new.committed)) }
        ensures follows { Follows F.model F.held self.old self.new result }
        ensures by_plan { IfErr result (λ fault. (fault ≡ StoreFault.Memory)
            ⊎ FailedAsPlanned F.model F.held self.old self.new fault) }
    {
        self.in_doubt = true;
        if self.left == 0 {
            self.left = self.commits;
            return Err(StoreFault::Damaged);
        }
        self.committed = self.working.to_copy()?;
        self.left -= 1;
        if self.faults {
            self.faults = false;
            return Err(StoreFault::Damaged);
        }
        self.in_doubt = false;
        Ok(())
    }
}

// Whether nothing is to be kept.
fn only_sees<F: FileSystem>(
    working: &PlainKeeper<F>,
    group: &[(Request<'_>, Moment)],
    settled: &[Id],
) -> bool
    ensures some { result ≡ true → OnlySees F.model.service (entries_of group.now) (ids_of settled.now) }
    ensures none { result ≡ false
        → ¬ (OnlySees F.model.service (entries_of group.now) (ids_of settled.now)) }
{
    settled.is_empty() && !has_kept(working, group)
}

impl<F: FileSystem> Keeper for TwoCopies<F> {
    ghost use Rattle.std.proofs.Common.{refl, sym, ◌∙◌, arith};
    ghost use Rattle.fuse_keeper.specs.declared.keeper.TheConstants.{MAX_GROUP as max_group};
    ghost use Rattle.fuse_keeper.specs.declared.keeper.TheConstants.{MAX_SETTLED as max_settled};

    ghost model = { F.model };

    ghost told = { two_told F.model F.held };

    ghost became = { IsLater };

    ghost performed = { λ a b list. Unit {0} };

    fn serves(&self, opcode: u32) -> bool {
        F::serves(opcode)
    }

    fn sees(&self, opcode: u32) -> bool {
        F::sees(opcode)
    }

    /// Where the commit is refused the group is in the working copy alone: a crash then loses it.
    fn perform(
        &mut self,
        group: &[(Request<'_>, Moment)],
        settled: &[Id],
    ) -> Result<Vec<Done>, StoreFault>
        requires short { length group.now ≤ max_group }
        requires few { length settled.now ≤ max_settled }
        requires named { All HasId (entries_of group.now) }
        requires performed { All (IsPerformed F.model.service) (entries_of group.now) }
        ensures count { IfOk result (λ dones. length dones.items ≡ length group.now) }
        ensures called { Called (two_told F.model F.held self.old) (two_told F.model F.held self.new) result }
        ensures may { AnswersNoMore (two_told F.model F.held self.old) (two_told F.model F.held self.new) }
        ensures ok { IfOk result (λ dones. Performs (two_told F.model F.held self.old)
            (two_told F.model F.held self.new) (ids_of settled.now) (entries_of group.now) dones.items) }
        // Where nothing is to be kept, no commit is tried.
        ensures looked { OnlySees F.model.service (entries_of group.now) (ids_of settled.now)
            → Looked (two_told F.model F.held self.old) (two_told F.model F.held self.new) result }
        ensures unplanned { OnlySees F.model.service (entries_of group.now) (ids_of settled.now)
            → plan_of self.new ≡ plan_of self.old }
        ensures acts { IfOk result (λ dones. ActsOn (two_told F.model F.held self.old)
            (two_told F.model F.held self.new) (ids_of settled.now) (entries_of group.now) dones.items) }
        ensures others { OnOk result (KeepsOthers (two_told F.model F.held self.old)
            (two_told F.model F.held self.new) (ids_of settled.now) (entries_of group.now)) }
        ensures lots { OnOk result (KeepsLots (two_told F.model F.held self.old)
            (two_told F.model F.held self.new) (ids_of settled.now) (entries_of group.now)) }
        ensures crash { LeavesGroup (two_told F.model F.held self.old) (two_told F.model F.held self.new)
            (ids_of settled.now) (entries_of group.now) }
        ensures crash_acts { LeavesActed (two_told F.model F.held self.old)
            (two_told F.model F.held self.new) (ids_of settled.now) (entries_of group.now) }
        ensures firm { OnOk result ((two_told F.model F.held self.new).is_honest
            → IsFirm (two_told F.model F.held self.new)) }
        ensures same { IsLater self.old self.new 0 }
        // A fault of its own doesn't change what its medium gives back.
        ensures honest { (two_told F.model F.held self.new).is_honest }
        // Its working copy is asked, unless the last commit failed.
        ensures asks { (two_told F.model F.held self.old).is_clean → WorkingAsked F.model F.held
            self.old self.new (ids_of settled.now) (entries_of group.now) }
        ensures follows { ¬ (OnlySees F.model.service (entries_of group.now) (ids_of settled.now))
            → Follows F.model F.held self.old self.new result }
        // Where it stands, a fault is out of memory, or that of a commit that was planned to fail.
        ensures by_plan { (s : F.model.State) (h : History) (t : List ℕ)
            → StandsFor (two_told F.model F.held self.old) s h t
            → IfErr result (λ fault. (fault ≡ StoreFault.Memory)
            ⊎ FailedAsPlanned F.model F.held self.old self.new fault) }
    {
        still_stands::<PlainKeeper<F>>();
        if self.in_doubt {
            return Err(StoreFault::Damaged);
        }
        match self.working.perform(group, settled) {
            Ok(dones) => {
                if only_sees(&self.working, group, settled) {
                    return Ok(dones);
                }
                self.commit()?;
                Ok(dones)
            }
            Err(fault) => Err(fault),
        }
    }

    fn begin_mount(&mut self) -> Result<(), StoreFault>
        ensures called { Called (two_told F.model F.held self.old) (two_told F.model F.held self.new) result }
        ensures may { (is_err result ≡ true)
            ⊎ ((two_told F.model F.held self.old).lots.current ≡ None)
            → AnswersNoMore (two_told F.model F.held self.old) (two_told F.model F.held self.new) }
        ensures ok { OnOk result (BeginsMount (two_told F.model F.held self.old)
            (two_told F.model F.held self.new)) }
        ensures lots { OnOk result (DropsLots (two_told F.model F.held self.old)
            (two_told F.model F.held self.new)) }
        ensures crash { LeavesMount (two_told F.model F.held self.old)
            (two_told F.model F.held self.new) }
        ensures firm { OnOk result ((two_told F.model F.held self.new).is_honest
            → IsFirm (two_told F.model F.held self.new)) }
        ensures same { IsLater self.old self.new 0 }
        ensures honest { (two_told F.model F.held self.new).is_honest }
        ensures follows { Follows F.model F.held self.old self.new result }
        // Where it stands, a fault is out of memory, or that of a commit that was planned to fail.
        ensures by_plan { (s : F.model.State) (h : History) (t : List ℕ)
            → StandsFor (two_told F.model F.held self.old) s h t
            → IfErr result (λ fault. (fault ≡ StoreFault.Memory)
            ⊎ FailedAsPlanned F.model F.held self.old self.new fault) }
    {
        still_stands::<PlainKeeper<F>>();
        if self.in_doubt {
            return Err(StoreFault::Damaged);
        }
        match self.working.begin_mount() {
            Ok(()) => {
                self.commit()?;
                Ok(())
            }
            Err(fault) => Err(fault),
        }
    }

    fn answer_of(&mut self, id: Id) -> Result<Option<Answer>, StoreFault>
        ensures looked { Looked (two_told F.model F.held self.old)
            (two_told F.model F.held self.new) result }
        ensures ok { IfOk result (λ answer. (two_told F.model F.held self.new).is_honest
            → (rows : F.model.Rows) (records : Records)
            → (two_told F.model F.held self.old).holds rows records → answer ≡ records id.0) }
        ensures same { IsLater self.old self.new 0 }
        ensures plan { plan_of self.new ≡ plan_of self.old }
    {
        self.working.answer_of(id)
    }

    fn settings(&mut self) -> Result<Option<Settings>, StoreFault>
        ensures looked { Looked (two_told F.model F.held self.old)
            (two_told F.model F.held self.new) result }
        ensures ok { IfOk result (λ settings. Reports (two_told F.model F.held self.old)
            (two_told F.model F.held self.new) (λ rows records. settings ≡ F.model.settings rows)) }
        ensures same { IsLater self.old self.new 0 }
        ensures plan { plan_of self.new ≡ plan_of self.old }
    {
        self.working.settings()
    }

    fn counts(&mut self) -> Result<StoreCounts, StoreFault>
        ensures looked { Looked (two_told F.model F.held self.old)
            (two_told F.model F.held self.new) result }
        ensures nodes { IfOk result (λ counts. Reports (two_told F.model F.held self.old)
            (two_told F.model F.held self.new) (λ rows records. counts.nodes ≡ F.model.nodes rows)) }
        ensures handles { IfOk result (λ counts. Reports (two_told F.model F.held self.old)
            (two_told F.model F.held self.new) (λ rows records. counts.handles ≡ F.model.handles rows)) }
        ensures records { IfOk result (λ counts. Reports (two_told F.model F.held self.old)
            (two_told F.model F.held self.new) (λ rows records. CountsRecords records counts.records)) }
        ensures lots { IfOk result (λ counts. Reports (two_told F.model F.held self.old)
            (two_told F.model F.held self.new) (λ rows records. counts.lots ≡ 0)) }
        ensures same { IsLater self.old self.new 0 }
        ensures plan { plan_of self.new ≡ plan_of self.old }
    {
        self.working.counts()
    }

    fn failed(&self) -> bool {
        self.in_doubt || self.working.failed()
    }

    fn model_is_sound() {
        F::model_is_sound();
    }

    ghost sound = { λ k. record {
      one_holding = λ x y p q one two. (one.0.0 ∙ sym two.0.0, λ i. one.0.1 i ∙ sym (two.0.1 i));
      clean_is_honest = λ clean. tt;
      service = λ honest. refl;
    } };

    ghost memory_is_clean = { λ k memory. absurd memory };

    ghost counted = { record {
      none = λ k. (omega arith, refl);
      then = λ a b c m n before after. (
        omega (arith, before.0, after.0),
        after.1 ∙ before.1,
      );
    } };

    ghost log = { record { none = λ k. tt; onward = λ a b c before after one two. tt } };
}

impl<F: FileSystem> Restart for TwoCopies<F> {
    ghost use Rattle.fuse_keeper.specs.declared.fault.StoreFault.TheVariants.{Memory as NoMemory};

    type Rest = ();

    // Out of memory, or where the openings can't be counted any further.
    ghost refuses = { λ k fault rest. (fault ≡ NoMemory) ⊎ (k.openings + 1 ≡ 2 ^ 64) };

    /// Makes the working copy anew from the committed one. Uncommitted changes are lost.
    fn restart(mut self) -> Result<TwoCopies<F>, (StoreFault, ())>
        ensures reopened { IfOk result
            (λ k. Reopened (two_told F.model F.held self) (two_told F.model F.held k)) }
        ensures refused { IfErr result (λ e. (e.0 ≡ NoMemory) ⊎ (self.openings + 1 ≡ 2 ^ 64)) }
        ensures once { IfOk result (λ k. IsLater self k 1) }
        ensures plan { IfOk result (λ k. plan_of k ≡ plan_of self) }
    {
        let Some(openings) = self.openings.checked_add(1) else {
            return Err((StoreFault::Damaged, ()));
        };
        self.working = match self.committed.to_copy() {
            Ok(copy) => copy,
            Err(Memory) => return Err((StoreFault::Memory, ())),
        };
        self.openings = openings;
        self.in_doubt = false;
        Ok(self)
    }
}
