ghost use Rattle.five_files.specs.TheFiles.{the_files};

use crate::asking::{answer, only_looks};
use crate::further::is_further;
use fuse_answer::{Answer, record_sizes};
use fuse_init::Settings;
use fuse_keeper::{FileSystem, StoreFault};
use fuse_request::Request;
use fuse_wire::{Memory, Moment};
use std::alloc::Global;

/// Five files for reading alone: a directory, and in it three regular files and a symbolic link.
#[derive(Drop)]
pub struct FiveFiles {
    agreed: Option<Settings>,
}

impl FileSystem for FiveFiles {
    ghost model = { the_files };

    ghost held = { λ files. files.agreed };

    ghost is_ready = { λ files. Unit {0} };

    fn serves(opcode: u32) -> bool {
        is_further(opcode)
    }

    fn sees(opcode: u32) -> bool {
        only_looks(opcode)
    }

    fn start(_alloc: Global, _now: Moment) -> Result<FiveFiles, Memory> {
        Ok(FiveFiles { agreed: None })
    }

    #[tactic(auto, using(crate::proofs::Looking::looks_stay))]
    fn act(
        &mut self,
        alloc: Global,
        request: &Request<'_>,
        _now: Moment,
    ) -> Result<Answer, StoreFault> {
        let answer = answer(alloc, &mut self.agreed, request)?;
        Ok(answer)
    }

    fn to_copy(&self) -> Result<FiveFiles, Memory> {
        Ok(FiveFiles {
            agreed: self.agreed,
        })
    }

    fn begin_mount(&mut self) {
        self.agreed = None;
    }

    fn agreed(&self) -> Option<Settings> {
        self.agreed
    }

    fn counted(&self) -> (u64, u64) {
        (5, 0)
    }

    fn model_is_sound() {
        record_sizes();
    }
}
