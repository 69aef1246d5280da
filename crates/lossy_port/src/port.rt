// A port that loses answers.
ghost use Rattle.std.specs.Prelude.{◌≡◌, ◌≢◌, ◌≤◌, ◌+◌, ℕ, [], Some, false, length, IfOk};

use crate::line::Line;
use fuse_session::{Port, Received, Sent};
use std::alloc::{AllocError, Global};

/// Gives a list of bytes, and takes every answer. On the way from it each answer of some number is
/// lost, as where a server dies before the kernel has its answer.
#[derive(Drop)]
pub struct LossyPort {
    input: Vec<u8>,
    at: usize,
    line: Line,
    receives: u64,
    failures: u64,
    ends: u64,

    ghost within: { at ≤ length input.items },
    ghost ended: { ends ≤ receives },
}

impl LossyPort {
    ghost use Rattle.fuse_session.specs.Port.{fresh};
    ghost use Rattle.lossy_port.specs.Lossy.{lossy_told, delivered_of, every_of, next_lost};
    ghost use Rattle.lossy_port.specs.Lossy.{HasRoomFor};

    /// All of the input is to come. Each answer of this number is lost, as the third, the sixth and
    /// so on at 3; at 0 none is. There is room for so many bytes that are sent.
    pub fn new(
        alloc: Global,
        input: Vec<u8>,
        every: u32,
        room: usize,
    ) -> Result<LossyPort, AllocError>
        ensures told { IfOk result (λ port. lossy_told port
            ≡ fresh (Some input.items) (Some []) false) }
        ensures delivered { IfOk result (λ port. delivered_of port ≡ []) }
        ensures every { IfOk result (λ port. every_of port ≡ every) }
        ensures next { IfOk result (λ port. next_lost port ≡ every) }
        ensures room { IfOk result (λ port. HasRoomFor port room) }
    {
        Ok(LossyPort {
            input,
            at: 0,
            line: Line::new(alloc, every, room)?,
            receives: 0,
            failures: 0,
            ends: 0,
        })
    }

    /// The bytes that it took.
    pub fn sent(&self) -> &[u8]
        ensures { Some result.now ≡ (lossy_told self.now).sent }
    {
        self.line.sent()
    }

    /// The bytes that got through.
    pub fn delivered(&self) -> &[u8]
        ensures { result.now ≡ delivered_of self.now }
    {
        self.line.delivered()
    }
}

impl Port for LossyPort {
    ghost use Rattle.fuse_session.specs.Port.{IsYoung, Receives, Sends};
    ghost use Rattle.fuse_session.specs.Transcript.{one_receive, one_send};
    ghost use Rattle.lossy_port.specs.Lossy.{lossy_told, bytes_left, received_by, Passes};
    ghost use Rattle.lossy_port.specs.Lossy.{HasRoomFor};
    ghost use Rattle.lossy_port.specs.Lossy.{Delivered};
    ghost use Rattle.lossy_port.specs.inner.Laws.{delivered_path, delivered_tells};

    ghost told = { lossy_told };

    ghost became = { Delivered };

    fn receive(&mut self, buffer: &mut [u8]) -> Received
        requires young { IsYoung (lossy_told self.old) }
        ensures received { Receives (lossy_told self.old) (lossy_told self.new)
            result buffer.new }
        ensures same { Delivered self.old self.new (one_receive result buffer.new) }
        // As many bytes as there are and fit.
        ensures arrives { result ≡ received_by (bytes_left self.old) (length buffer.old) }
    {
        self.receives += 1;
        let left = self.input.len() - self.at;
        if left == 0 {
            self.ends += 1;
            return Received::End;
        }
        let n = left.min(buffer.len());
        buffer[..n].copy_from_slice(&self.input[self.at..self.at + n]);
        self.at += n;
        Received::Got(n)
    }

    // It grows where its room is used up, and fails where that is refused.
    fn send(&mut self, bytes: &[u8]) -> Sent
        requires young { IsYoung (lossy_told self.old) }
        requires some { bytes.now ≢ [] }
        ensures sent { Sends (lossy_told self.old) (lossy_told self.new) result bytes.now }
        ensures same { Delivered self.old self.new (one_send bytes.now result) }
        // All of it is taken, and gets through unless it is lost; or where it lacks room, nothing.
        ensures passes { Passes self.old self.new bytes.now result }
        // What it takes is taken from its room.
        ensures room { (more : ℕ) → HasRoomFor self.old (length bytes.now + more)
            → HasRoomFor self.new more }
    {
        match self.line.take(bytes) {
            Ok(()) => Sent::Took(bytes.len()),
            Err(_) => {
                self.failures += 1;
                Sent::Failed
            }
        }
    }

    // An answer that is taken may be lost, so its record must stay.
    fn confirms(&self) -> bool {
        false
    }

    fn tally(&self) -> (u64, u64) {
        (self.receives, self.failures)
    }

    ghost path = { delivered_path };

    ghost tells = { delivered_tells };
}
