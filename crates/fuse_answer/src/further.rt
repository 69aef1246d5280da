// Records of answers to opcodes outside the profile, for file systems that serve them.
ghost use Rattle.std.specs.Prelude.{◌≡◌, length, IfOk};
ghost use Rattle.fuse_wire.specs.Layout.{Lays};
ghost use Rattle.fuse_answer.specs.FurtherAnswers.{create_bytes, create_out_size, create_parts};
ghost use Rattle.fuse_answer.specs.FurtherAnswers.{lseek_bytes, lseek_parts};
ghost use Rattle.fuse_answer.specs.FurtherAnswers.{statfs_bytes, statfs_parts};
ghost use Rattle.fuse_answer.specs.FurtherAnswers.{xattr_bytes, xattr_parts};
ghost use Rattle.fuse_answer.specs.Sizes.{getxattr_out_size, lseek_out_size, statfs_out_size};

use crate::fields::body_of_fields;
use crate::records::{EntryOut, OpenOut};
use fuse_wire::Field::{U32, U64, Unused};
use fuse_wire::{Memory, layouts_stand, put_bytes};
use std::alloc::Global;

/// What STATFS is answered, `fuse_kstatfs` of `fuse.h`. `blocks`, `bfree` and `bavail` count units
/// of `frsize` bytes.
#[derive(Clone, Copy, Debug, PartialEq, Eq)]
pub struct StatfsOut {
    pub blocks: u64,
    pub bfree: u64,
    pub bavail: u64,
    pub files: u64,
    pub ffree: u64,
    pub bsize: u32,
    pub namelen: u32,
    pub frsize: u32,
}

/// What GETXATTR and LISTXATTR with `size` 0 are answered, `fuse_getxattr_out` of `fuse.h`.
#[derive(Clone, Copy, Debug, PartialEq, Eq)]
pub struct XattrOut {
    pub size: u32,
}

/// What LSEEK is answered, `fuse_lseek_out` of `fuse.h`.
#[derive(Clone, Copy, Debug, PartialEq, Eq)]
pub struct LseekOut {
    pub offset: u64,
}

/// What CREATE is answered: `fuse_entry_out` and then `fuse_open_out` of `fuse.h`.
#[derive(Clone, Copy, Debug, PartialEq, Eq)]
pub struct CreateOut {
    pub entry: EntryOut,
    pub open: OpenOut,
}

impl StatfsOut {
    /// The bytes that it takes.
    pub const SIZE: usize = 80;

    /// The body of an answer to STATFS.
    #[tactic(auto, unfolding(crate::specs::FurtherAnswers::statfs_bytes))]
    pub fn body_of(&self, alloc: Global) -> Result<Vec<u8>, Memory>
        ensures bytes { IfOk result (λ body. body.items ≡ statfs_bytes self.now) }
        ensures size { IfOk result (λ body. length body.items ≡ statfs_out_size) }
        ensures laid { IfOk result (λ body. Lays (statfs_parts self.now) body.items) }
    {
        let fields = [
            U64(self.blocks),
            U64(self.bfree),
            U64(self.bavail),
            U64(self.files),
            U64(self.ffree),
            U32(self.bsize),
            U32(self.namelen),
            U32(self.frsize),
            Unused(28),
        ];
        body_of_fields(alloc, StatfsOut::SIZE, &fields)
    }
}

impl XattrOut {
    /// The bytes that it takes.
    pub const SIZE: usize = 8;

    /// The body of an answer that says the length of an attribute or of a list of names.
    #[tactic(auto, unfolding(crate::specs::FurtherAnswers::xattr_bytes))]
    pub fn body_of(&self, alloc: Global) -> Result<Vec<u8>, Memory>
        ensures bytes { IfOk result (λ body. body.items ≡ xattr_bytes self.now) }
        ensures size { IfOk result (λ body. length body.items ≡ getxattr_out_size) }
        ensures laid { IfOk result (λ body. Lays (xattr_parts self.now) body.items) }
    {
        body_of_fields(alloc, XattrOut::SIZE, &[U32(self.size), Unused(4)])
    }
}

impl LseekOut {
    /// The bytes that it takes.
    pub const SIZE: usize = 8;

    /// The body of an answer to LSEEK.
    #[tactic(auto, unfolding(crate::specs::FurtherAnswers::lseek_bytes))]
    pub fn body_of(&self, alloc: Global) -> Result<Vec<u8>, Memory>
        ensures bytes { IfOk result (λ body. body.items ≡ lseek_bytes self.now) }
        ensures size { IfOk result (λ body. length body.items ≡ lseek_out_size) }
        ensures laid { IfOk result (λ body. Lays (lseek_parts self.now) body.items) }
    {
        body_of_fields(alloc, LseekOut::SIZE, &[U64(self.offset)])
    }
}

impl CreateOut {
    /// The bytes that it takes.
    pub const SIZE: usize = 144;

    /// The body of an answer to CREATE.
    pub fn body_of(&self, alloc: Global) -> Result<Vec<u8>, Memory>
        ensures bytes { IfOk result (λ body. body.items ≡ create_bytes self.now) }
        ensures size { IfOk result (λ body. length body.items ≡ create_out_size) }
        ensures laid { IfOk result (λ body. Lays (create_parts self.now) body.items) }
    {
        layouts_stand();
        let mut body = self.entry.body_of(alloc)?;
        let open = self.open.body_of(alloc)?;
        put_bytes(&mut body, open.as_slice())?;
        Ok(body)
    }
}
