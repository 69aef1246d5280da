// What an opening makes ready before its commit.
ghost use Rattle.std.specs.Prelude.{OnOk, OnErr, IfErr};
ghost use Rattle.fuse_store_tables.specs.Faults.{IsOutside};

use fuse_keeper::StoreFault;

/// What an opening makes ready once its tests have passed, right before its commit.
pub trait BeforeCommit {
    /// A call that succeeds makes this of it, and one that fails may leave that.
    ghost makes: { Self → Self → Type 0 };

    ghost leaves: { Self → Self → Type 0 };

    /// Makes it ready. A fault says nothing of the store.
    fn ready(&mut self) -> Result<(), StoreFault>
        ensures made { OnOk result (makes self.old self.new) }
        ensures left { OnErr result (leaves self.old self.new) }
        ensures outside { IfErr result IsOutside };
}

/// There is nothing to make ready.
#[derive(Clone, Copy)]
pub struct NothingMore;

impl BeforeCommit for NothingMore {
    ghost use Rattle.fuse_store_tables.specs.Readying.{IsAny};

    ghost makes = { IsAny };

    ghost leaves = { IsAny };

    fn ready(&mut self) -> Result<(), StoreFault> {
        Ok(())
    }
}
