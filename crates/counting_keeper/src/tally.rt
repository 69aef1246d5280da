// The counts.
ghost use Rattle.std.specs.Prelude.{◌≡◌};
ghost use Rattle.counting_keeper.specs.Counting.{with_group, with_mount, with_fault, with_opening};
ghost use Rattle.counting_keeper.specs.Counting.{LooksCounted};

use fuse_keeper::{Done, StoreFault};

/// How much a keeper has done. A count that is full stays so.
#[derive(Clone, Copy, Debug, PartialEq, Eq)]
pub struct Tally {
    /// Groups that were performed.
    pub groups: u64,
    /// Requests of these groups.
    pub requests: u64,
    /// Those of them that were answered by the record of their id.
    pub repeated: u64,
    /// Mounts that were begun.
    pub mounts: u64,
    /// Calls that failed, but for those to open the keeper again.
    pub faults: u64,
    /// How often the keeper was opened again.
    pub openings: u64,
}

impl Tally {
    /// Nothing counted.
    pub const NONE: Tally = Tally {
        groups: 0,
        requests: 0,
        repeated: 0,
        mounts: 0,
        faults: 0,
        openings: 0,
    };

    /// Counts a group with this answer.
    pub(crate) fn count_group(&mut self, dones: &[Done])
        ensures { self.new ≡ with_group self.old dones.now }
    {
        let repeated = dones.iter().filter(|done| done.repeated).count();
        self.groups = self.groups.saturating_add(1);
        self.requests = self.requests.saturating_add(dones.len() as u64);
        self.repeated = self.repeated.saturating_add(repeated as u64);
    }

    pub(crate) fn count_mount(&mut self)
        ensures { self.new ≡ with_mount self.old }
    {
        self.mounts = self.mounts.saturating_add(1);
    }

    pub(crate) fn count_fault(&mut self)
        ensures { self.new ≡ with_fault self.old }
    {
        self.faults = self.faults.saturating_add(1);
    }

    /// Counts a call that only looks, with this answer.
    pub(crate) fn count_look<T>(&mut self, answer: &Result<T, StoreFault>)
        ensures { LooksCounted self.old self.new answer.now }
    {
        match answer {
            Ok(_) => {}
            Err(_) => self.count_fault(),
        }
    }

    pub(crate) fn count_opening(&mut self)
        ensures { self.new ≡ with_opening self.old }
    {
        self.openings = self.openings.saturating_add(1);
    }
}
