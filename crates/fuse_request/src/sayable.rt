// Which requests may be encoded.
ghost use Rattle.std.specs.Prelude.{◌≡◌};
ghost use Rattle.fuse_request.specs.Act.{act, asked};
ghost use Rattle.fuse_request.specs.Canon.{no_nul, sayable, sayable_act};

use crate::lengths::FORGET_ONE;
use crate::opcode::is_in_profile;
use crate::request::{Op, Request};

fn has_no_nul(name: &[u8]) -> bool
    ensures { result ≡ no_nul name.now }
{
    !name.contains(&0)
}

fn is_sayable_op(op: &Op<'_>) -> bool
    ensures { result ≡ sayable_act (act op.now) }
{
    match *op {
        Op::Lookup { name }
        | Op::Unlink { name }
        | Op::Rmdir { name }
        | Op::Mknod { name, .. }
        | Op::Mkdir { name, .. } => has_no_nul(name),
        Op::Rename {
            old_name,
            new_name,
            ..
        }
        | Op::Rename2 {
            old_name,
            new_name,
            ..
        } => has_no_nul(old_name) && has_no_nul(new_name),
        Op::BatchForget { items } => items.len() % FORGET_ONE == 0,
        Op::Further { opcode, .. } => !is_in_profile(opcode),
        Op::Forget { .. }
        | Op::Getattr { .. }
        | Op::Setattr(_)
        | Op::OpenFile { .. }
        | Op::OpenDir { .. }
        | Op::Read(_)
        | Op::ReadDir(_)
        | Op::Write { .. }
        | Op::Release(_)
        | Op::ReleaseDir(_)
        | Op::Init(_)
        | Op::Interrupt { .. }
        | Op::Destroy => true,
    }
}

impl<'a> Request<'a> {
    /// Whether there is a message that says it: its names hold no NUL, its extensions are whole
    /// units of 8 bytes, the items of BATCH_FORGET are whole, and no opcode of the profile is
    /// unsupported.
    pub fn is_sayable(&self) -> bool
        ensures { result ≡ sayable (asked self.now) }
    {
        is_sayable_op(&self.op) && self.ext.len() % 8 == 0
    }
}
