// A script over a new store in files that crash.
ghost use Rattle.std.specs.Prelude.{◌≡◌, ◌≢◌, ◌≤◌, ◌⊎◌, [], false, IsTrue, IfSome, IfOk};
ghost use Rattle.std.specs.Prelude.{IfErr};
ghost use Rattle.std.specs.Io.KnownBytes.{Appends};
ghost use Rattle.sqlite.specs.Files.{image_of};
ghost use Rattle.fuse_keeper.specs.KeeperState.{StandsFor, IsFirm};
ghost use Rattle.fuse_tree.specs.TheTree.{tree_of};
ghost use Rattle.fuse_store_files.specs.Crashing.{crash_relations};
ghost use Rattle.fuse_store_files.specs.Restarting.{CrashRefuses, crash_told};
ghost use Rattle.fuse_commands.specs.Endings.{status_of, store_ending};
ghost use Rattle.fuse_commands.specs.Simulating.{driven, SimulatedFrom};
ghost use Rattle.fuse_files.specs.StoreReplays.{streams};
ghost use Rattle.fuse_files.specs.StoreSimulations.{new_state, crashing, SimulatesOver};
ghost use Rattle.fuse_files.specs.StoreSimulations.{StoreSimulated};
ghost use Rattle.fuse_files.specs.StoreSimulations.{AreSure, WereBlank, IsSimulated, NotSimulated};
ghost use Rattle.fuse_files.specs.StoreShown.{IsUnopened};

use crate::serving::ending_of;
use fuse_commands::{Ending, START, run_simulate};
use fuse_init::{EverydayProfile, PlainProfile, Profile, Profiled};
use fuse_keeper::{Restart, StoreFault};
use fuse_store::{StoreKind, StoreParts, TableKeeper, opening_fault};
use fuse_store_files::{CrashKeeper, Crashing};
use sqlite::{Connection, Files, Options};
use std::alloc::Global;
use std::io::{Read, Write};

// The log's salts need no random number: nobody else writes these files.
const SEED: u64 = 0;

// The number of the store. Nothing compares it with that of another one.
const NUMBER: u64 = 0;

// A keeper over a new store in these files.
fn new_keeper<P: Profiled, D: Crashing + Drop>(
    alloc: Global,
    files: (Files<D>, D),
    kind: StoreKind,
) -> Result<CrashKeeper<P, D, D>, StoreFault>
    requires log { IsTrue (D.Disk.is_usable files.0.log) }
    requires db { IsTrue (D.Disk.is_usable files.0.db) }
    ensures stands { IfOk result (λ k. (crash_told P.PROFILE D.Disk k).is_honest
        → StandsFor (crash_told P.PROFILE D.Disk k) (new_state P.PROFILE kind) [] []) }
    ensures firm { IfOk result (λ k. (crash_told P.PROFILE D.Disk k).is_honest
        → IsFirm (crash_told P.PROFILE D.Disk k)) }
    ensures going { IfOk result (λ k. (crash_told P.PROFILE D.Disk k).has_failed ≡ false) }
    ensures serves { IfOk result
        (λ k. (crash_told P.PROFILE D.Disk k).service ≡ (tree_of P.PROFILE).service) }
    ensures blank { IfOk result (λ k. WereBlank D.Disk files.0) }
    ensures fault { IfErr result (λ f. AreSure D.Disk
        → IsUnopened (image_of D.Disk files.0) (store_ending f)) }
{
    let options = Options::new(SEED);
    let (tables, disk) = files;
    let conn = match Connection::open_files(alloc, tables, options) {
        Ok(conn) => conn,
        Err((error, _left)) => return Err(opening_fault(error)),
    };
    let parts = StoreParts {
        conn,
        disk: Some(disk),
    };
    let new = kind.made_at(START, NUMBER);
    match TableKeeper::create(alloc, parts, new.volume(), new.origin()) {
        Ok(keeper) => Ok(CrashKeeper::new(alloc, keeper, options)),
        Err((fault, _)) => Err(fault),
    }
}

// Runs a script over this keeper.
fn simulate_over<K: Restart, R: Read + Drop, W: Write>(
    alloc: Global,
    keeper: K,
    reader: R,
    writer: &mut W,
) -> Ending
    requires going { (K.told keeper).has_failed ≡ false }
    requires serves { (K.told keeper).service ≡ K.model.service }
    ensures ran { SimulatesOver (driven K.told K.became K.performed K.refuses) keeper
        (streams (R.remaining reader) (W.contents writer.old) (W.contents writer.new)) result }
    ensures silent { 1 ≤ status_of result → status_of result ≤ 3
        → W.contents writer.new ≡ W.contents writer.old }
    ensures usage { status_of result ≢ 2 }
{
    let mut keeper = Some(keeper);
    run_simulate(alloc, &mut keeper, reader, writer)
}

// Runs a script over this keeper, if there is one.
fn simulate_opened<K: Restart, R: Read + Drop, W: Write>(
    alloc: Global,
    keeper: Result<K, StoreFault>,
    reader: R,
    writer: &mut W,
) -> Ending
    requires going { IfOk keeper (λ k. (K.told k).has_failed ≡ false) }
    requires serves { IfOk keeper (λ k. (K.told k).service ≡ K.model.service) }
    ensures ran { IfOk keeper (λ k. SimulatesOver (driven K.told K.became K.performed K.refuses) k
        (streams (R.remaining reader) (W.contents writer.old) (W.contents writer.new)) result) }
    ensures fault { IfErr keeper (λ f. (result ≡ store_ending f)
        × (W.contents writer.new ≡ W.contents writer.old)) }
    ensures silent { 1 ≤ status_of result → status_of result ≤ 3
        → W.contents writer.new ≡ W.contents writer.old }
    ensures usage { status_of result ≢ 2 }
{
    match keeper {
        Ok(keeper) => simulate_over(alloc, keeper, reader, writer),
        Err(fault) => ending_of(fault),
    }
}

// Runs a script over this keeper of files that crash, if there is one.
fn simulate_crashing<P: Profiled, D: Crashing + Drop, E: Crashing + Drop, R: Read + Drop, W: Write>(
    alloc: Global,
    keeper: Result<CrashKeeper<P, D, E>, StoreFault>,
    reader: R,
    writer: &mut W,
) -> Ending
    requires going { IfOk keeper
        (λ k. (crash_told P.PROFILE E.Disk k).has_failed ≡ false) }
    requires serves { IfOk keeper
        (λ k. (crash_told P.PROFILE E.Disk k).service ≡ (tree_of P.PROFILE).service) }
    ensures ran { IfOk keeper (λ k. SimulatesOver (driven (crash_told P.PROFILE E.Disk)
        (λ a b n. Unit {0}) (λ a b list. Unit {0})
        (CrashRefuses E.Disk P.PROFILE (crash_relations D.Crashing.crashed E.Crashing.crashed))) k
        (streams (R.remaining reader) (W.contents writer.old) (W.contents writer.new)) result) }
    ensures fault { IfErr keeper (λ f. (result ≡ store_ending f)
        × (W.contents writer.new ≡ W.contents writer.old)) }
    ensures silent { 1 ≤ status_of result → status_of result ≤ 3
        → W.contents writer.new ≡ W.contents writer.old }
    ensures usage { status_of result ≢ 2 }
{
    simulate_opened(alloc, keeper, reader, writer)
}

// Runs a script over a new store of this profile in these files.
fn simulate_under<P: Profiled, D: Crashing + Drop, R: Read + Drop, W: Write>(
    alloc: Global,
    files: (Files<D>, D),
    kind: StoreKind,
    reader: R,
    writer: &mut W,
) -> Ending
    requires log { IsTrue (D.Disk.is_usable files.0.log) }
    requires db { IsTrue (D.Disk.is_usable files.0.db) }
    ensures ran { (StoreSimulated P.PROFILE kind (crashing P P.PROFILE D.Disk D.Crashing.crashed)
        (streams (R.remaining reader) (W.contents writer.old) (W.contents writer.new)) result
        × WereBlank D.Disk files.0)
        ⊎ NotSimulated D.Disk files.0
        (streams (R.remaining reader) (W.contents writer.old) (W.contents writer.new)) result }
    ensures simulated { AreSure D.Disk → IfSome (R.remaining reader) (λ script.
        status_of result ≤ 1 → SimulatedFrom (tree_of P.PROFILE) (new_state P.PROFILE kind)
        (Appends (W.contents writer.old) (W.contents writer.new)) script result) }
    ensures silent { 1 ≤ status_of result → status_of result ≤ 3
        → W.contents writer.new ≡ W.contents writer.old }
    ensures usage { status_of result ≢ 2 }
{
    let keeper = new_keeper::<P, D>(alloc, files, kind);
    simulate_crashing::<P, D, D, R, W>(alloc, keeper, reader, writer)
}

/// Runs a script over a new store of this kind in these files, of which the last one is the data file,
/// and prints the outcomes. All files crash wherever the server dies: what was not synced is lost, and what is left is opened.
pub fn simulate_store<D: Crashing + Drop, R: Read + Drop, W: Write>(
    alloc: Global,
    files: (Files<D>, D),
    kind: StoreKind,
    reader: R,
    writer: &mut W,
) -> Ending
    requires log { IsTrue (D.Disk.is_usable files.0.log) }
    requires db { IsTrue (D.Disk.is_usable files.0.db) }
    // Nothing was in the files over which it is run.
    ensures ran { (IsSimulated kind.profile kind D.Disk D.Crashing.crashed
        (streams (R.remaining reader) (W.contents writer.old) (W.contents writer.new)) result
        × WereBlank D.Disk files.0)
        ⊎ NotSimulated D.Disk files.0
        (streams (R.remaining reader) (W.contents writer.old) (W.contents writer.new)) result }
    // Where the disks always return what was written, the output is that of the events.
    ensures simulated { AreSure D.Disk → IfSome (R.remaining reader) (λ script.
        status_of result ≤ 1
        → SimulatedFrom (tree_of kind.profile) (new_state kind.profile kind)
        (Appends (W.contents writer.old) (W.contents writer.new)) script result) }
    ensures silent { 1 ≤ status_of result → status_of result ≤ 3
        → W.contents writer.new ≡ W.contents writer.old }
    ensures usage { status_of result ≢ 2 }
{
    match kind.profile {
        Profile::Plain => {
            simulate_under::<PlainProfile, D, R, W>(alloc, files, kind, reader, writer)
        }
        Profile::Everyday => {
            simulate_under::<EverydayProfile, D, R, W>(alloc, files, kind, reader, writer)
        }
    }
}
