ghost use Rattle.std.specs.Prelude.{◌≡◌, ◌≤◌, ◌⊎◌, ℕ, List, [], ◌∷◌, length, All, IfOk, OnOk};
ghost use Rattle.std.specs.Prelude.{true, None, is_err};
ghost use Rattle.fuse_keeper.specs.Model.{Model, IsSoundModel};
ghost use Rattle.fuse_keeper.specs.Stands.{Records, CountsRecords};
ghost use Rattle.fuse_keeper.specs.KeeperState.{KeeperState, IsSound, IsFirm, IsCount, Reports};
ghost use Rattle.fuse_keeper.specs.KeeperState.{AnswersNoMore, Called, Looked, Performs};
ghost use Rattle.fuse_keeper.specs.KeeperState.{ActsOn, KeepsOthers, KeepsLots, LeavesGroup, LeavesActed};
ghost use Rattle.fuse_keeper.specs.KeeperState.{BeginsMount, DropsLots, LeavesMount};
ghost use Rattle.fuse_keeper.specs.Group.{entries_of, HasId, IsPerformed, OnlySees, ids_of};
ghost use Rattle.fuse_keeper.specs.Performance.{Performance, IsPerformanceLog};

use crate::fault::StoreFault;
use fuse_answer::Answer;
use fuse_init::Settings;
use fuse_request::Request;
use fuse_wire::{Id, Moment};

/// The most requests of a group.
pub const MAX_GROUP: usize = 16;

/// The most settled ids of a call.
pub const MAX_SETTLED: usize = 16;

/// The answer to a request, and whether its id was recorded before.
#[derive(Drop)]
pub struct Done {
    pub answer: Answer,
    pub repeated: bool,
}

/// How much a store holds.
#[derive(Clone, Copy, Debug, PartialEq, Eq)]
pub struct StoreCounts {
    pub nodes: u64,
    pub handles: u64,
    pub records: u64,
    pub lots: u64,
}

/// A store of a file system and of the recorded answers.
///
/// A history is the kept requests performed since a start, each id once. Nothing stores it: a
/// keeper stands for a history where its rows and records are those that the history leads to.
/// A start is a state whose mount begins, and the settled ids are those whose records may be gone.
pub trait Keeper: Drop {
    /// The file system that it keeps.
    ghost model: { Model };

    /// The state of a keeper, as contracts see it.
    ghost told: { Self → KeeperState model };

    /// The second keeper is a later state of the first, which was opened again so often on the way.
    /// For a keeper that doesn't count, this always holds.
    ghost became: { Self → Self → ℕ → Type 0 };

    /// The second keeper is a later state of the first, which was asked to perform these on the
    /// way, and nothing else. For a keeper that keeps no log, this always holds.
    ghost performed: { Self → Self → List Performance → Type 0 };

    /// Whether its file system serves an opcode that isn't of the profile.
    fn serves(&self, opcode: u32) -> bool
        ensures { result ≡ (told self.now).service.serves opcode };

    /// Whether it sees the requests of an opcode that it serves or that is of the profile: they
    /// change nothing and leave no record.
    fn sees(&self, opcode: u32) -> bool
        ensures { result ≡ (told self.now).service.sees opcode };

    /// Removes the records of settled ids, then performs a group, all in one transaction. A kept
    /// request whose id is recorded, in the group too, is a repeat. A seen one is answered anew, in
    /// the state after the kept ones before it.
    fn perform(
        &mut self,
        group: &[(Request<'_>, Moment)],
        settled: &[Id],
    ) -> Result<Vec<Done>, StoreFault>
        requires short { length group.now ≤ MAX_GROUP }
        requires few { length settled.now ≤ MAX_SETTLED }
        requires named { All HasId (entries_of group.now) }
        requires performed { All (IsPerformed (told self.old).service) (entries_of group.now) }
        ensures count { IfOk result (λ dones. length dones.items ≡ length group.now) }
        ensures called { Called (told self.old) (told self.new) result }
        ensures may { AnswersNoMore (told self.old) (told self.new) }
        ensures ok { IfOk result (λ dones. Performs (told self.old) (told self.new)
            (ids_of settled.now) (entries_of group.now) dones.items) }
        // Where nothing is to be kept it only looks: there is no transaction that changes anything.
        ensures looked { OnlySees (told self.old).service (entries_of group.now) (ids_of settled.now)
            → Looked (told self.old) (told self.new) result }
        // The settled records go first: an id that is settled and in the group acts anew.
        ensures acts { IfOk result (λ dones. ActsOn (told self.old) (told self.new)
            (ids_of settled.now) (entries_of group.now) dones.items) }
        ensures others { OnOk result (KeepsOthers (told self.old) (told self.new)
            (ids_of settled.now) (entries_of group.now)) }
        // At most one lot is taken after a start, and its records go under that one.
        ensures lots { OnOk result (KeepsLots (told self.old) (told self.new)
            (ids_of settled.now) (entries_of group.now)) }
        ensures crash { LeavesGroup (told self.old) (told self.new)
            (ids_of settled.now) (entries_of group.now) }
        ensures crash_acts { LeavesActed (told self.old) (told self.new)
            (ids_of settled.now) (entries_of group.now) }
        ensures firm { OnOk result ((told self.new).is_honest → IsFirm (told self.old)
            ⊎ ¬ (OnlySees (told self.old).service (entries_of group.now) (ids_of settled.now))
            → IsFirm (told self.new)) }
        ensures same { became self.old self.new 0 }
        // A fault too: it was asked once.
        ensures asked { performed self.old self.new
            (record { group = entries_of group.now; settled = ids_of settled.now } ∷ []) };

    /// Begins a mount: in one transaction it deletes the records of the mount before, and the parts
    /// of the file system that don't outlive a mount.
    fn begin_mount(&mut self) -> Result<(), StoreFault>
        ensures called { Called (told self.old) (told self.new) result }
        // A lot that was taken is gone, and there may be no other one.
        ensures may { (is_err result ≡ true) ⊎ ((told self.old).lots.current ≡ None)
            → AnswersNoMore (told self.old) (told self.new) }
        ensures ok { OnOk result (BeginsMount (told self.old) (told self.new)) }
        ensures lots { OnOk result (DropsLots (told self.old) (told self.new)) }
        ensures crash { LeavesMount (told self.old) (told self.new) }
        ensures firm { OnOk result ((told self.new).is_honest → IsFirm (told self.new)) }
        ensures same { became self.old self.new 0 }
        ensures unasked { performed self.old self.new [] };

    /// The recorded answer of an id.
    fn answer_of(&mut self, id: Id) -> Result<Option<Answer>, StoreFault>
        ensures looked { Looked (told self.old) (told self.new) result }
        ensures ok { IfOk result (λ answer. (told self.new).is_honest
            → (rows : model.Rows) (records : Records) → (told self.old).holds rows records
            → answer ≡ records id.0) }
        ensures same { became self.old self.new 0 }
        ensures unasked { performed self.old self.new [] };

    /// The settings that INIT agreed on in this mount.
    fn settings(&mut self) -> Result<Option<Settings>, StoreFault>
        ensures looked { Looked (told self.old) (told self.new) result }
        ensures ok { IfOk result (λ settings. Reports (told self.old) (told self.new)
            (λ rows records. settings ≡ model.settings rows)) }
        ensures same { became self.old self.new 0 }
        ensures unasked { performed self.old self.new [] };

    /// How much it holds.
    fn counts(&mut self) -> Result<StoreCounts, StoreFault>
        ensures looked { Looked (told self.old) (told self.new) result }
        ensures nodes { IfOk result (λ counts. Reports (told self.old) (told self.new)
            (λ rows records. counts.nodes ≡ model.nodes rows)) }
        ensures handles { IfOk result (λ counts. Reports (told self.old) (told self.new)
            (λ rows records. counts.handles ≡ model.handles rows)) }
        ensures records { IfOk result (λ counts. Reports (told self.old) (told self.new)
            (λ rows records. CountsRecords records counts.records)) }
        ensures lots { IfOk result (λ counts. Reports (told self.old) (told self.new)
            (λ rows records. counts.lots ≡ length (told self.old).lots.numbers)) }
        ensures same { became self.old self.new 0 }
        ensures unasked { performed self.old self.new [] };

    /// Whether a call has failed since the keeper was made or opened. Takes no memory.
    fn failed(&self) -> bool
        ensures { result ≡ (told self.now).has_failed };

    /// A law: the model of its file system is sound.
    fn model_is_sound()
        ensures { IsSoundModel model };

    ghost sound: { (k : Self) → IsSound (told k) };

    /// A law: memory gives back what was written, and holds nothing half done.
    ghost memory_is_clean: { (k : Self) → (told k).in_memory → (told k).is_clean };

    ghost counted: { IsCount became };

    ghost log: { IsPerformanceLog performed };
}
