ghost use Rattle.std.specs.Prelude.{◌≡◌, ◌≤◌, [], length, IfOk};
ghost use Rattle.fuse_wire.specs.Bounds.{max_body_len};

use fuse_wire::{ByteList, Errno, Memory};
use std::alloc::Global;
use std::marker::Model;

/// The most bytes that an answer's body has: those of the largest READ or READDIR.
pub const MAX_BODY: usize = 1_048_576;

/// The answer to a request: an error number and no body, or no error and the body.
/// Contracts see it as `Said`, and know that it `FitsAnswer`.
#[derive(Drop)]
pub struct Answer {
    pub errno: Errno,
    pub body: ByteList,
}

impl Model for Answer {
    ghost use Rattle.fuse_answer.specs.Said.{Said, FitsAnswer};

    ghost Value = { Said };

    ghost view = { λ a. record { errno = a.errno.0; body = a.body } };

    ghost invariant = { λ a. FitsAnswer (record { errno = a.errno.0; body = a.body }) };
}

impl Answer {
    /// No body, and this error number, which may be 0. Takes no memory.
    pub fn refusal(alloc: Global, errno: Errno) -> Answer
        ensures { result ≡ record { errno = errno.0; body = [] } }
    {
        Answer {
            errno,
            body: ByteList::from_vec(Vec::new(alloc)),
        }
    }

    /// This body, and no error.
    pub fn success(body: ByteList) -> Answer
        requires { length body ≤ max_body_len }
        ensures { result ≡ record { errno = 0; body = body } }
    {
        Answer {
            errno: Errno::NONE,
            body,
        }
    }

    /// A copy of the answer.
    pub fn to_copy(&self, alloc: Global) -> Result<Answer, Memory>
        ensures { IfOk result (λ copy. copy ≡ self.now) }
    {
        let body = self.body.to_copy(alloc)?;
        Ok(Answer {
            errno: self.errno,
            body,
        })
    }
}
