ghost use Rattle.std.specs.Prelude.{◌≡◌, ◌≢◌, ◌≤◌, ◌<◌, ◌^◌, true, false, None};
ghost use Rattle.std.specs.Prelude.{IfErr, OnOk};
ghost use Rattle.fuse_keeper.specs.KeeperState.{WhereHeld};
ghost use Rattle.fuse_session.specs.Serving.{KeepsFirm};
ghost use Rattle.fuse_commands.specs.Endings.{status_of};
ghost use Rattle.fuse_commands.specs.ServingRuns.{views, between, ServesPort};
ghost use Rattle.fuse_commands.specs.ServingRuns.{BeginsServing, NotServed, resume_ending};

use crate::ending::Ending;
use crate::input::MAX_READS;
use fuse_keeper::Keeper;
use fuse_session::{Clock, Port, ResumeFault, SessionCounts, resume, serve};
use std::alloc::Global;

/// How a server begins.
#[derive(Clone, Copy, Debug, PartialEq, Eq)]
pub enum Begin {
    /// A new mount, without records.
    Fresh,
    /// The same mount goes on. First the notices of `resume` are sent.
    Resume,
}

// The ending of a command whose notices could not be sent.
fn ending_of_resume(fault: ResumeFault) -> Ending
    ensures { result ≡ resume_ending fault }
{
    match fault {
        ResumeFault::NotOffered => Ending::NotOffered,
        ResumeFault::PortFailed => Ending::PortFailed,
        ResumeFault::Store(fault) => Ending::of(fault),
    }
}

// Sends the notices of `resume` at `Begin::Resume`.
fn send_notices<K: Keeper, P: Port>(
    keeper: &mut K,
    port: &mut P,
    begin: Begin,
) -> Result<(), Ending>
    requires going { (K.told keeper.old).has_failed ≡ false }
    requires receives { (P.told port.old).receives < 2 ^ 62 }
    requires failures { (P.told port.old).failures < 2 ^ 62 }
    ensures ok { OnOk result (BeginsServing begin (views K.told K.performed P.told P.became)
        (between keeper.old keeper.new port.old port.new)) }
    ensures still { OnOk result (((P.told port.new).receives ≡ (P.told port.old).receives)
        × ((P.told port.new).failures ≡ (P.told port.old).failures)) }
    ensures going { OnOk result ((K.told keeper.new).has_failed ≡ false) }
    ensures err { IfErr result (λ ending. NotServed (views K.told K.performed P.told P.became)
        (between keeper.old keeper.new port.old port.new) begin ending None) }
    ensures store { IfErr result (λ ending. (K.told keeper.new).has_failed ≡ true
        → 3 ≤ status_of ending) }
    ensures usage { IfErr result (λ ending. status_of ending ≢ 2) }
    ensures same { K.became keeper.old keeper.new 0 }
{
    if begin == Begin::Fresh {
        return Ok(());
    }
    match resume(keeper, port) {
        Ok(()) => Ok(()),
        Err(fault) => Err(ending_of_resume(fault)),
    }
}

/// Serves a port. At `Begin::Resume` it first sends the notices of `resume`. Nothing else is done at
/// the port, before the session or after it. Returns the ending, and the counts as the session has
/// them.
pub fn run_serve<K: Keeper, P: Port, C: Clock>(
    alloc: Global,
    keeper: &mut K,
    port: &mut P,
    clock: &mut C,
    begin: Begin,
) -> (Ending, Option<SessionCounts>)
    requires going { (K.told keeper.old).has_failed ≡ false }
    requires receives { (P.told port.old).receives < 2 ^ 62 }
    requires failures { (P.told port.old).failures < 2 ^ 62 }
    ensures served { ServesPort (views K.told K.performed P.told P.became)
        (C.gave clock.old clock.new) (between keeper.old keeper.new port.old port.new) begin
        result.0 result.1 }
    // A keeper that has not failed is as firm as before, for the next session.
    ensures firm { (K.told keeper.new).has_failed ≡ false → WhereHeld (K.told keeper.old)
        (KeepsFirm (K.told keeper.old) (K.told keeper.new)) }
    ensures failed { (K.told keeper.new).has_failed ≡ true → 3 ≤ status_of result.0 }
    ensures usage { status_of result.0 ≢ 2 }
    ensures same { K.became keeper.old keeper.new 0 }
{
    if let Err(ending) = send_notices(keeper, port, begin) {
        return (ending, None);
    }
    let served = serve(alloc, keeper, port, clock, MAX_READS);
    (Ending::of_session(served.ended), served.counts)
}
