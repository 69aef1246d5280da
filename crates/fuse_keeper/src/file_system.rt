// A file system in memory.
ghost use Rattle.std.specs.Prelude.{◌≡◌, true, IfOk, IfErr, OnOk};
ghost use Rattle.fuse_keeper.specs.Model.{Model, IsOfGoodState, IsSoundModel};
ghost use Rattle.fuse_keeper.specs.Group.{entry_of, IsPerformed};
ghost use Rattle.fuse_keeper.specs.History.{is_seen};
ghost use Rattle.fuse_keeper.specs.Taking.{Acts, Clears};

use crate::fault::StoreFault;
use fuse_answer::Answer;
use fuse_init::Settings;
use fuse_request::Request;
use fuse_wire::{Memory, Moment};
use std::alloc::Global;

/// A file system whose states lie in memory. It does what its model says.
pub trait FileSystem: Drop {
    /// The file system that it is.
    ghost model: { Model };

    /// The rows that it holds.
    ghost held: { Self → model.Rows };

    /// It may act.
    ghost is_ready: { Self → Type 0 };

    /// Whether it serves an opcode that isn't of the profile. It gets such a request as
    /// `Op::Further`, with the body as bytes.
    fn serves(opcode: u32) -> bool
        ensures { result ≡ model.service.serves opcode };

    /// Whether it sees the requests of an opcode that it serves or that is of the profile: they
    /// change nothing.
    fn sees(opcode: u32) -> bool
        ensures { result ≡ model.service.sees opcode };

    /// A new one, made at this moment.
    fn start(alloc: Global, now: Moment) -> Result<Self, Memory>
        ensures { IfOk result (λ files. held files ≡ model.held_for (model.start now)) };

    /// Performs a request. After a fault the file system isn't used again.
    fn act(
        &mut self,
        alloc: Global,
        request: &Request<'_>,
        now: Moment,
    ) -> Result<Answer, StoreFault>
        requires ready { is_ready self.old }
        requires performed { IsPerformed model.service (entry_of (request.now, now)) }
        ensures acts { IfOk result (λ answer. Acts model (held self.old)
            (entry_of (request.now, now)) (held self.new) answer) }
        // A seen request changes nothing, whatever the rows are.
        ensures same { OnOk result (is_seen model.service (entry_of (request.now, now)) ≡ true
            → held self.new ≡ held self.old) }
        ensures ready { OnOk result (is_ready self.new) }
        // Over a good state the only fault is out of memory.
        ensures fault { IfErr result
            (λ f. IsOfGoodState model (held self.old) → f ≡ StoreFault.Memory) };

    /// A copy, which may act.
    fn to_copy(&self) -> Result<Self, Memory>
        ensures held { IfOk result (λ copy. held copy ≡ held self.now) }
        ensures ready { IfOk result is_ready };

    /// Begins a mount.
    fn begin_mount(&mut self)
        ensures { Clears model (held self.old) (held self.new) };

    /// The settings that INIT agreed on in this mount.
    fn agreed(&self) -> Option<Settings>
        ensures { result ≡ model.settings (held self.now) };

    /// How many nodes and how many handles there are.
    fn counted(&self) -> (u64, u64)
        ensures nodes { result.0 ≡ model.nodes (held self.now) }
        ensures handles { result.1 ≡ model.handles (held self.now) };

    /// A law: the model is sound.
    fn model_is_sound()
        ensures { IsSoundModel model };
}
