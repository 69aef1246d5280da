// The log of what a keeper was asked to perform.
ghost use Rattle.std.specs.Prelude.{◌≡◌, true, [], ◌∷◌, ◌++◌, IfOk, OnOk};
ghost use Rattle.fuse_keeper.specs.History.{ids_in};
ghost use Rattle.fuse_keeper.specs.Group.{entries_of, ids_of};
ghost use Rattle.counting_keeper.specs.Logging.{Logged, calls_of};

use fuse_request::Request;
use fuse_wire::{Id, Memory, Moment};
use std::alloc::Global;

/// The ids of one call: of its group, and the settled ones that were handed on with it.
#[derive(Debug, PartialEq, Eq, Drop)]
pub struct Call {
    pub group: Vec<u64>,
    pub settled: Vec<u64>,
}

/// What a keeper was asked to perform, in order, whether it did so or failed.
#[derive(Debug, PartialEq, Eq, Drop)]
pub struct Log {
    pub calls: Vec<Call>,
    /// No call is missing. One is where there was no memory to note it.
    pub is_whole: bool,
}

// The ids of a group.
fn group_ids(alloc: Global, group: &[(Request<'_>, Moment)]) -> Result<Vec<u64>, Memory>
    ensures { IfOk result (λ ids. ids.items ≡ ids_in (entries_of group.now)) }
{
    let mut ids = Vec::new(alloc);
    for one in group {
        ids.push(Id::of(one.0.header.unique).0)?;
    }
    Ok(ids)
}

// The numbers of these ids.
fn numbers(alloc: Global, settled: &[Id]) -> Result<Vec<u64>, Memory>
    ensures { IfOk result (λ ids. ids.items ≡ ids_of settled.now) }
{
    let mut ids = Vec::new(alloc);
    for id in settled {
        ids.push(id.0)?;
    }
    Ok(ids)
}

impl Log {
    /// Nothing noted.
    pub(crate) fn new(alloc: Global) -> Log
        ensures calls { calls_of result ≡ [] }
        ensures whole { result.is_whole ≡ true }
    {
        Log {
            calls: Vec::new(alloc),
            is_whole: true,
        }
    }

    // Notes a call, if there is memory for it.
    fn add(
        &mut self,
        alloc: Global,
        group: &[(Request<'_>, Moment)],
        settled: &[Id],
    ) -> Result<(), Memory>
        ensures calls { OnOk result (calls_of self.new ≡ calls_of self.old
            ++ (ids_in (entries_of group.now), ids_of settled.now) ∷ []) }
        ensures whole { self.new.is_whole ≡ self.old.is_whole }
    {
        let call = Call {
            group: group_ids(alloc, group)?,
            settled: numbers(alloc, settled)?,
        };
        self.calls.push(call)?;
        Ok(())
    }

    /// Notes a call. Without memory for it the log isn't whole.
    pub(crate) fn note(&mut self, alloc: Global, group: &[(Request<'_>, Moment)], settled: &[Id])
        ensures { Logged self.old self.new
            (record { group = entries_of group.now; settled = ids_of settled.now } ∷ []) }
    {
        if self.add(alloc, group, settled).is_err() {
            self.is_whole = false;
        }
    }
}
