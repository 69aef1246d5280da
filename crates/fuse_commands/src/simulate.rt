//! A simulation of the events of a script.
ghost use Rattle.std.specs.Prelude.{◌≡◌, ◌≢◌, ◌⊎◌, ◌≤◌, ◌++◌, ℕ, List, [], false, Some, None, map};
ghost use Rattle.std.specs.Prelude.{length, All};
ghost use Rattle.std.specs.Prelude.{IsSomeAnd, IfSome, IfOk, IfErr, OnOk};
ghost use Rattle.std.specs.Io.KnownBytes.{Appends};
ghost use Rattle.fuse_sim.specs.Driving.{told_in, performed_in, StandsIn, NoneReused, IsFit};
ghost use Rattle.fuse_sim.specs.Driving.{KeepsMedium, Opened, bytes_given};
ghost use Rattle.fuse_sim.specs.HandedOn.{performances};
ghost use Rattle.fuse_commands.specs.Endings.{status_of};
ghost use Rattle.fuse_commands.specs.inner.Failing.{GaveOut};
ghost use Rattle.fuse_commands.specs.Output.{line, store_line};
ghost use Rattle.fuse_commands.specs.Simulating.{driven, BeginSo, StoreEnded, LeftBySome};
ghost use Rattle.fuse_commands.specs.Simulating.{CountsAre};
ghost use Rattle.fuse_commands.specs.Simulating.{RefusedAgain, RefusedIn};
ghost use Rattle.fuse_commands.specs.Simulating.{NotRun, Simulated, StoppedIn};
ghost use Rattle.fuse_commands.specs.inner.Simulating.{Went, RanScript};
ghost use Rattle.fuse_commands.specs.Simulating.{LeftByScript};
ghost use Rattle.fuse_commands.specs.Simulating.{outcome_line, outcome_lines};

use crate::ending::Ending;
use crate::input::read_all;
use crate::output::{write_hex_line, write_store};
use crate::script::read_script;
use fuse_keeper::{Restart, StoreCounts};
use fuse_sim::{DriveFault, Event, Outcome, drive};
use fuse_wire::Moment;
use std::alloc::Global;
use std::io::{Read, Write};

/// The moment at which a new store of `replay` or `simulate` is made.
pub const START: Moment = Moment { secs: 0, nanos: 0 };

// The outcomes of events, and the counts of the store after them.
#[derive(Drop)]
struct Simulation {
    outcomes: Vec<Option<Outcome>>,
    counts: StoreCounts,
}

// Runs events over a keeper.
fn run_events<K: Restart>(
    alloc: Global,
    keeper: &mut Option<K>,
    events: &[Event],
) -> Result<Simulation, Ending>
    requires going { IsSomeAnd keeper.old (λ k. (K.told k).has_failed ≡ false) }
    requires serves { IfSome keeper.old (λ k. (K.told k).service ≡ K.model.service) }
    requires fit { All IsFit events.now }
    ensures ok { IfOk result (λ simulation. (told_in K.told keeper.new).is_honest
        → (s : K.model.State) → StandsIn K.told keeper.old s [] []
        → NoneReused K.model.service [] events.now
        → Went K.told keeper.old keeper.new s events.now simulation) }
    ensures count { IfOk result
        (λ simulation. length simulation.outcomes.items ≡ length events.now) }
    ensures begin { IfOk result (λ simulation. BeginSo K.told keeper.old keeper.new events.now
        (map bytes_given simulation.outcomes.items)) }
    ensures counts { IfOk result (λ simulation. CountsAre K.told keeper.old keeper.new
        simulation.counts.nodes simulation.counts.handles) }
    ensures asked { OnOk result (performed_in K.performed keeper.old keeper.new
        (performances K.model.service events.now)) }
    ensures opened { OnOk result (Opened K.told K.became keeper.old keeper.new events.now) }
    ensures medium { KeepsMedium K.told keeper.old keeper.new }
    ensures left { OnOk result (IsSomeAnd keeper.new (λ k. (K.told k).has_failed ≡ false)) }
    ensures emptied { IfErr result (λ ending. keeper.new ≡ None
        → RefusedAgain (driven K.told K.became K.performed K.refuses) keeper.old events.now
        ending) }
    ensures err { IfErr result (λ ending. 3 ≤ status_of ending) }
    ensures store { IfErr result (λ ending. status_of ending ≡ 3
        → (s : K.model.State) → StandsIn K.told keeper.old s [] []
        → NoneReused K.model.service [] events.now
        → StoreEnded (driven K.told K.became K.performed K.refuses) keeper.old keeper.new
        events.now ending) }
    ensures kept { LeftBySome (driven K.told K.became K.performed K.refuses)
        keeper.old keeper.new events.now }
{
    let outcomes = match drive(alloc, keeper, events) {
        Ok(outcomes) => outcomes,
        Err(DriveFault::Store { fault, .. }) => return Err(Ending::of(fault)),
        Err(DriveFault::Memory { .. }) => return Err(Ending::Memory),
        Err(DriveFault::NotAMessage { .. }) => unreachable!(),
        Err(DriveFault::ZeroUnique { .. }) => unreachable!(),
    };
    let Some(keeper) = keeper else {
        unreachable!();
    };
    match keeper.counts() {
        Ok(counts) => Ok(Simulation { outcomes, counts }),
        Err(fault) => Err(Ending::of(fault)),
    }
}

// Prints the outcome of an event.
fn write_outcome<W: Write>(
    alloc: Global,
    writer: &mut W,
    outcome: &Option<Outcome>,
) -> Result<(), Ending>
    ensures ok { OnOk result (Appends (W.contents writer.old) (W.contents writer.new)
        (outcome_line (bytes_given outcome.now))) }
    ensures err { IfErr result GaveOut }
{
    let Some(outcome) = outcome else {
        writeln!(writer, "-")?;
        return Ok(());
    };
    let mut answer = Vec::new(alloc);
    answer.extend_from_slice(&outcome.head)?;
    answer.extend_from_slice(outcome.body.as_slice())?;
    write_hex_line(alloc, writer, answer.as_slice())
}

// Prints a line for each event, then the counts of the store.
fn print_simulation<W: Write>(
    alloc: Global,
    writer: &mut W,
    simulation: &Simulation,
) -> Result<(), Ending>
    ensures ok { OnOk result (Appends (W.contents writer.old) (W.contents writer.new)
        (outcome_lines (map bytes_given simulation.now.outcomes.items)
        ++ line (store_line simulation.now.counts.nodes simulation.now.counts.handles))) }
    ensures err { IfErr result GaveOut }
{
    for outcome in simulation.outcomes.as_slice() {
        write_outcome(alloc, writer, outcome)?;
    }
    write_store(writer, simulation.counts)?;
    writer.flush()?;
    Ok(())
}

// Reads a script and runs its events over a keeper.
fn simulate<K: Restart, R: Read + Drop>(
    alloc: Global,
    keeper: &mut Option<K>,
    reader: R,
) -> Result<Simulation, Ending>
    requires going { IsSomeAnd keeper.old (λ k. (K.told k).has_failed ≡ false) }
    requires serves { IfSome keeper.old (λ k. (K.told k).service ≡ K.model.service) }
    ensures ok { IfOk result (λ simulation. IfSome (R.remaining reader)
        (λ script. RanScript (driven K.told K.became K.performed K.refuses)
        keeper.old keeper.new script simulation)) }
    ensures medium { KeepsMedium K.told keeper.old keeper.new }
    ensures left { OnOk result (IsSomeAnd keeper.new (λ k. (K.told k).has_failed ≡ false)) }
    ensures emptied { IfErr result (λ ending. IfSome (R.remaining reader) (λ script.
        keeper.new ≡ None → RefusedIn (driven K.told K.became K.performed K.refuses)
        keeper.old script ending)) }
    ensures not_run { IfErr result (λ ending. status_of ending ≤ 1 → keeper.new ≡ keeper.old) }
    ensures bad { IfErr result (λ ending. IfSome (R.remaining reader) (λ script.
        status_of ending ≤ 1 → NotRun script ending)) }
    ensures usage { IfErr result (λ ending. status_of ending ≢ 2) }
    ensures store { IfErr result (λ ending. IfSome (R.remaining reader) (λ script.
        status_of ending ≡ 3
        → StoppedIn (driven K.told K.became K.performed K.refuses)
        keeper.old keeper.new script ending)) }
    ensures kept { (script : List ℕ) → R.remaining reader ≡ Some script
        → (keeper.new ≡ keeper.old) ⊎ LeftByScript (driven K.told K.became K.performed K.refuses)
        keeper.old keeper.new script }
{
    let script = read_all(alloc, reader)?;
    let events = read_script(alloc, script.as_slice())?;
    run_events(alloc, keeper, events.as_slice())
}

/// Runs the events of a script over a keeper, then prints a line for each event and the counts of the
/// store. A script with a malformed line is not run.
pub fn run_simulate<K: Restart, R: Read + Drop, W: Write>(
    alloc: Global,
    keeper: &mut Option<K>,
    reader: R,
    writer: &mut W,
) -> Ending
    requires going { IsSomeAnd keeper.old (λ k. (K.told k).has_failed ≡ false) }
    requires serves { IfSome keeper.old (λ k. (K.told k).service ≡ K.model.service) }
    // Status 0: the output, the state of the keeper and what it was asked to perform. Status 1:
    // nothing was done.
    ensures simulated { IfSome (R.remaining reader) (λ script. status_of result ≤ 1
        → Simulated (driven K.told K.became K.performed K.refuses) keeper.old keeper.new
        (Appends (W.contents writer.old) (W.contents writer.new)) script result) }
    // No keeper is left only where the one in place refused to be opened again.
    ensures emptied { IfSome (R.remaining reader) (λ script. keeper.new ≡ None
        → RefusedIn (driven K.told K.became K.performed K.refuses) keeper.old script result) }
    ensures left { status_of result ≤ 1
        → IsSomeAnd keeper.new (λ k. (K.told k).has_failed ≡ false) }
    ensures medium { KeepsMedium K.told keeper.old keeper.new }
    ensures usage { status_of result ≢ 2 }
    // Status 3: a keeper returned the fault, or refused to be opened again with it.
    ensures store { IfSome (R.remaining reader) (λ script. status_of result ≡ 3
        → StoppedIn (driven K.told K.became K.performed K.refuses) keeper.old keeper.new
        script result) }
    // However it ends, nothing was done, or the keeper stands for the first events.
    ensures kept { (script : List ℕ) → R.remaining reader ≡ Some script
        → (keeper.new ≡ keeper.old) ⊎ LeftByScript (driven K.told K.became K.performed K.refuses)
        keeper.old keeper.new script }
    // Nothing is printed at status 1 and 3.
    ensures silent { 1 ≤ status_of result → status_of result ≤ 3
        → W.contents writer.new ≡ W.contents writer.old }
{
    let simulation = match simulate(alloc, keeper, reader) {
        Ok(simulation) => simulation,
        Err(ending) => return ending,
    };
    match print_simulation(alloc, writer, &simulation) {
        Ok(()) => Ending::Done,
        Err(ending) => ending,
    }
}
