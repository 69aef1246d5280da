// Opening a keeper again.
ghost use Rattle.std.specs.Prelude.{IfOk, IfErr, []};
ghost use Rattle.fuse_keeper.specs.declared.fault.StoreFault.{StoreFault};
ghost use Rattle.fuse_keeper.specs.KeeperState.{Reopened};

use crate::fault::StoreFault;
use crate::keeper::Keeper;

/// A keeper that can be opened again, as after a crash.
pub trait Restart: Keeper {
    /// What is left of a keeper that refuses to be opened again.
    type Rest: Drop;

    /// The faults with which it may refuse, and what is then left.
    ghost refuses: { Self → StoreFault → Self.Rest → Type 0 };

    /// Opens its store again. A fault leaves no keeper, and what is left of it.
    fn restart(self) -> Result<Self, (StoreFault, Self::Rest)>
        ensures reopened { IfOk result (λ k. Reopened (Self.told self) (Self.told k)) }
        ensures refused { IfErr result (λ e. refuses self e.0 e.1) }
        ensures once { IfOk result (λ k. Self.became self k 1) }
        ensures unasked { IfOk result (λ k. Self.performed self k []) };
}
