//! Events that can't be run, and the keeper after them.
use super::*;
use crate::texts::{AGREED, MKDIR_A, MKDIR_B};
use fuse_answer::Answer;
use fuse_init::Settings;
use fuse_keeper::{Done, StoreCounts};
use fuse_request::Request;
use fuse_wire::Id;

// A keeper that can't be opened again.
#[derive(Drop)]
struct Closed {
    inner: TreeKeeper,
}

impl Keeper for Closed {
    ghost use Rattle.fuse_init.specs.declared.profile.Profile.TheVariants.{Plain};
    ghost use Rattle.fuse_tree.specs.TheTree.{tree_of};
    ghost use Rattle.spec_tests.specs.inner.TreeInLists.{tree_told};
    ghost use Rattle.std.proofs.Common.{sym, ◌∙◌, refl};

    ghost model = { tree_of Plain };

    ghost told = { λ k. tree_told k.inner };

    ghost became = { λ _ _ _. Unit {0} };

    ghost performed = { λ _ _ _. Unit {0} };

    fn serves(&self, opcode: u32) -> bool {
        self.inner.serves(opcode)
    }

    fn sees(&self, opcode: u32) -> bool {
        self.inner.sees(opcode)
    }

    fn perform(
        &mut self,
        group: &[(Request<'_>, Moment)],
        settled: &[Id],
    ) -> Result<Vec<Done>, StoreFault> {
        self.inner.perform(group, settled)
    }

    fn begin_mount(&mut self) -> Result<(), StoreFault> {
        self.inner.begin_mount()
    }

    fn answer_of(&mut self, id: Id) -> Result<Option<Answer>, StoreFault> {
        self.inner.answer_of(id)
    }

    fn settings(&mut self) -> Result<Option<Settings>, StoreFault> {
        self.inner.settings()
    }

    fn counts(&mut self) -> Result<StoreCounts, StoreFault> {
        self.inner.counts()
    }

    fn failed(&self) -> bool {
        self.inner.failed()
    }

    fn model_is_sound() {
        TreeKeeper::model_is_sound();
    }

    ghost sound = { λ k. record {
      one_holding = λ x y p q one two. (one.0 ∙ sym two.0, λ i. one.1 i ∙ sym (two.1 i));
      clean_is_honest = λ clean. clean;
      service = λ honest. refl;
    } };

    ghost memory_is_clean = { λ k memory. memory };

    ghost counted = { record { none = λ k. tt; then = λ a b c m n before after. tt } };

    ghost log = { record { none = λ k. tt; onward = λ a b c before after one two. tt } };
}

impl Restart for Closed {
    type Rest = TreeKeeper;

    ghost refuses = { λ _ _ _. Unit {0} };

    fn restart(self) -> Result<Closed, (StoreFault, TreeKeeper)> {
        Err((StoreFault::NotAStore, self.inner))
    }
}

fn closed_keeper(alloc: Global) -> Result<Option<Closed>, StoreFault> {
    let inner = new_keeper(alloc)?;
    Ok(Some(Closed { inner }))
}

// Whether `drive` ended at its second event, since the keeper can't be opened again.
fn is_not_a_store(ended: &Ended) -> bool {
    matches!(
        ended,
        Some(Err(DriveFault::Store {
            event: 1,
            fault: StoreFault::NotAStore
        }))
    )
}

// INIT, and a MKDIR with this fate between others. Whether `drive` ends so, with no keeper left.
fn ends_closed(alloc: Global, fate: Fate) -> Result<bool, StoreFault> {
    let steps = [
        (INIT_AGREED, Fate::Answered, AGREED),
        (MKDIR_A, fate, ""),
        (MKDIR_B, Fate::Answered, ""),
    ];
    let events = events_of(alloc, &steps)?;
    let mut keeper = closed_keeper(alloc)?;
    let ended = drive_on(alloc, &mut keeper, events.as_slice());
    Ok(is_not_a_store(&ended) && keeper.is_none())
}

// Case restart-fault. A `drive` that never restarts is proved, and fails here.
#[test]
fn restart_fault(rt: HostRuntime) -> Result<(), StoreFault> {
    let after = ends_closed(rt.alloc(), Fate::DiedAfterCommit)?;
    let before = ends_closed(rt.alloc(), Fate::DiedBeforeCommit)?;
    assert_eq!(rt; [after, before], [true; 2]);
    Ok(())
}
