ghost use Rattle.std.specs.Prelude.{◌≡◌, length, IfOk};
ghost use Rattle.fuse_wire.specs.Layout.{Lays};
ghost use Rattle.fuse_answer.specs.Bodies.{init_parts, init_bytes};
ghost use Rattle.fuse_answer.specs.Sizes.{init_out_size};

use crate::fields::body_of_fields;
use fuse_wire::Field::{U16, U32, Unused};
use fuse_wire::Memory;
use std::alloc::Global;

/// The answer to INIT, `fuse_init_out` of `fuse.h`.
#[derive(Clone, Copy, Debug, PartialEq, Eq)]
pub struct InitOut {
    pub major: u32,
    pub minor: u32,
    pub max_readahead: u32,
    pub flags: u32,
    pub max_background: u16,
    pub congestion_threshold: u16,
    pub max_write: u32,
    pub time_gran: u32,
    pub max_pages: u16,
    pub map_alignment: u16,
    pub flags2: u32,
    pub max_stack_depth: u32,
}

impl InitOut {
    /// The bytes that it takes.
    pub const SIZE: usize = 64;

    /// The body of an answer to INIT.
    #[tactic(auto, unfolding(crate::specs::Bodies::init_bytes))]
    pub fn body_of(&self, alloc: Global) -> Result<Vec<u8>, Memory>
        ensures bytes { IfOk result (λ body. body.items ≡ init_bytes self.now) }
        ensures size { IfOk result (λ body. length body.items ≡ init_out_size) }
        ensures laid { IfOk result (λ body. Lays (init_parts self.now) body.items) }
    {
        let fields = [
            U32(self.major),
            U32(self.minor),
            U32(self.max_readahead),
            U32(self.flags),
            U16(self.max_background),
            U16(self.congestion_threshold),
            U32(self.max_write),
            U32(self.time_gran),
            U16(self.max_pages),
            U16(self.map_alignment),
            U32(self.flags2),
            U32(self.max_stack_depth),
            Unused(24),
        ];
        body_of_fields(alloc, InitOut::SIZE, &fields)
    }
}
