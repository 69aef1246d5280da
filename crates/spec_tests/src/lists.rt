//! `run_simulate` over a new store in lists.
ghost use Rattle.std.specs.Prelude.{◌≡◌, ◌≢◌, ◌≤◌, IfSome};
ghost use Rattle.fuse_commands.specs.Endings.{status_of};
ghost use Rattle.spec_tests.specs.InLists.{Reuses, SimulatedAnew};

use fuse_commands::{Ending, START, run_simulate};
use fuse_init::PlainProfile;
use fuse_keeper::PlainKeeper;
use fuse_lists::PlainTree;
use std::alloc::Global;
use std::io::{Read, Write};

/// Runs the events of a script over a new store in lists.
pub fn simulate_in_lists<R: Read + Drop, W: Write>(
    alloc: Global,
    reader: R,
    writer: &mut W,
) -> Ending
    ensures simulated { IfSome (R.remaining reader) (λ script. status_of result ≤ 1
        → SimulatedAnew (W.contents writer.old) (W.contents writer.new) script result) }
    ensures usage { status_of result ≢ 2 }
    // Lists have no fault, unless a message comes again whose answer was taken.
    ensures store { IfSome (R.remaining reader) (λ script. status_of result ≡ 3 → Reuses script) }
{
    let Ok(keeper) = PlainKeeper::<PlainTree<PlainProfile>>::new(alloc, START) else {
        return Ending::Memory;
    };
    let mut keeper = Some(keeper);
    run_simulate(alloc, &mut keeper, reader, writer)
}
