use fuse_tree::LookFault;
use fuse_wire::Memory;
use std::alloc::AllocFailed;

/// Why there is no plan.
#[derive(Debug, Drop)]
pub enum PlanFault {
    /// A look failed.
    Look(LookFault),
    Memory,
    /// The rows that were looked up are those of no tree.
    NotATree,
}

impl From<LookFault> for PlanFault {
    ghost use Rattle.std.specs.Prelude.{◌≡◌};
    ghost use Rattle.fuse_plan.specs.declared.planning.fault.PlanFault.TheVariants.{Look as OfLook};

    ghost from_gives = { λ fault e. e ≡ OfLook fault };

    fn from(fault: LookFault) -> PlanFault {
        PlanFault::Look(fault)
    }
}

impl From<Memory> for PlanFault {
    ghost use Rattle.std.specs.Prelude.{◌≡◌};
    ghost use Rattle.fuse_plan.specs.declared.planning.fault.PlanFault.TheVariants as faults;

    ghost from_gives = { λ _ e. e ≡ faults.Memory };

    fn from(_e: Memory) -> PlanFault {
        PlanFault::Memory
    }
}

impl<T: Drop> From<AllocFailed<T>> for PlanFault {
    ghost use Rattle.std.specs.Prelude.{◌≡◌};
    ghost use Rattle.fuse_plan.specs.declared.planning.fault.PlanFault.TheVariants as faults;

    ghost from_gives = { λ _ e. e ≡ faults.Memory };

    fn from(_e: AllocFailed<T>) -> PlanFault {
        PlanFault::from(Memory)
    }
}
