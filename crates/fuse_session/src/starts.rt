// The lots of records, over starts.
ghost use Rattle.std.specs.Prelude.{List};
ghost use Rattle.std.specs.List.{AllByRecursion};
ghost use Rattle.fuse_keeper.specs.KeeperState.{OfHeld};
ghost use Rattle.fuse_session.specs.Starts.{LotsOverStarts, HasFewEach, records_kept_by, HoldsKept};
ghost use Rattle.fuse_session.specs.Starts.{StartsOnce, StartsOften, IsStart};

use fuse_keeper::Keeper;

/// Each lot but 0 has the records of at most 16 ids after any number of starts, if it was so at
/// first. Each start opens the store again or begins a mount, and calls `serve` once, on a port that
/// confirms: its clause `lots` says what that leaves.
pub fn lots_over_starts()
    ensures { LotsOverStarts }
{}

/// The starts of a keeper are such starts. It is opened again (`Restart::restart`), or a mount begins
/// (`Keeper::begin_mount`); then `serve` is called once, on a port that confirms, and promises
/// `AddsFew`.
pub fn keepers_start<K: Keeper>()
    // What each start makes of the records and lots that are held is a start of records and lots,
    ensures once { (old left : K) (one : StartsOnce K.told old left) → OfHeld (K.told old)
        (λ rows records. HoldsKept (K.told left) (IsStart (records_kept_by (K.told old) records))) }
    // so after each of them each lot but 0 has the records of at most 16 ids, if it was so at first.
    ensures often { (old : K) (lefts : List K) → HoldsKept (K.told old) HasFewEach
        → StartsOften K.told old lefts
        → AllByRecursion (λ (left : K). HoldsKept (K.told left) HasFewEach) lefts }
{}
