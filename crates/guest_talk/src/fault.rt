use fuse_guest::TalkFault;
use fuse_keeper::StoreFault;
use std::alloc::AllocError;

/// Why a guest wasn't greeted.
#[derive(Clone, Copy, Debug, PartialEq, Eq)]
pub enum GreetFault {
    /// An allocation was refused.
    Memory,
    /// It ended, hung or broke the protocol.
    Guest(TalkFault),
    /// This opcode is pledged, and the guest doesn't serve it.
    Unserved(u32),
}

/// Why a request has no answer.
#[derive(Debug, Drop)]
pub enum AskFault {
    /// A look at the pairs failed, or an allocation was refused. The guest is in the middle of a
    /// request: it can only be ended.
    Store(StoreFault),
    /// The guest ended, hung or broke the protocol. It can only be ended.
    Guest(TalkFault),
    /// No message says the request, or it would be too long. Nothing was done.
    Unsayable,
}

impl From<AllocError> for AskFault {
    ghost use Rattle.std.specs.Prelude.{◌≡◌};
    ghost use Rattle.fuse_keeper.specs.declared.fault.StoreFault.TheVariants.{Memory};
    ghost use Rattle.guest_talk.specs.declared.fault.AskFault.TheVariants.{Store};

    ghost from_gives = { λ _ e. e ≡ Store Memory };

    fn from(_e: AllocError) -> AskFault {
        AskFault::Store(StoreFault::Memory)
    }
}
