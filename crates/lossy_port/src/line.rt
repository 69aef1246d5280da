// A line on which answers are lost.
ghost use Rattle.std.specs.Prelude.{◌≡◌, ◌+◌, ℕ, [], IfOk, OnOk, OnErr, length};
ghost use Rattle.lossy_port.specs.Losing.{HasRoom, LacksRoom};
ghost use Rattle.lossy_port.specs.inner.OneAnswer.{Takes, Stays};

use std::alloc::{AllocError, Global};

/// The answers sent on a line, and those that got through.
#[derive(Drop)]
pub(crate) struct Line {
    sent: Vec<u8>,
    delivered: Vec<u8>,
    // Each answer of this number is lost; at 0 none is.
    every: u32,
    // The place of the next answer to be lost: 1 is the very next, 0 none.
    left: u32,
}

impl Line {
    /// It has room for so many bytes.
    pub(crate) fn new(alloc: Global, every: u32, room: usize) -> Result<Line, AllocError>
        ensures sent { IfOk result (λ line. line.sent.items ≡ []) }
        ensures delivered { IfOk result (λ line. line.delivered.items ≡ []) }
        ensures every { IfOk result (λ line. line.every ≡ every) }
        ensures left { IfOk result (λ line. line.left ≡ every) }
        ensures room { IfOk result (λ line. HasRoom line room) }
    {
        Ok(Line {
            sent: Vec::with_capacity(alloc, room)?,
            delivered: Vec::with_capacity(alloc, room)?,
            every,
            left: every,
        })
    }

    pub(crate) fn sent(&self) -> &[u8]
        ensures { result.now ≡ self.now.sent.items }
    {
        self.sent.as_slice()
    }

    pub(crate) fn delivered(&self) -> &[u8]
        ensures { result.now ≡ self.now.delivered.items }
    {
        self.delivered.as_slice()
    }

    /// Sends an answer, which gets through unless it is the next to be lost. Out of memory,
    /// nothing of it is sent.
    pub(crate) fn take(&mut self, answer: &[u8]) -> Result<(), AllocError>
        ensures ok { OnOk result (Takes self.old self.new answer.now) }
        ensures err { OnErr result (Stays self.old self.new) }
        ensures full { OnErr result (LacksRoom self.old (length answer.now)) }
        ensures room { (more : ℕ) → HasRoom self.old (length answer.now + more)
            → HasRoom self.new more }
    {
        self.delivered.reserve(answer.len())?;
        self.sent.reserve(answer.len())?;
        self.sent.extend_from_slice(answer).unwrap();
        if self.left == 1 {
            self.left = self.every;
            return Ok(());
        }
        self.delivered.extend_from_slice(answer).unwrap();
        self.left = self.left.saturating_sub(1);
        Ok(())
    }
}
