// Where messages come from and answers go to.
ghost use Rattle.std.specs.Prelude.{◌≡◌, ◌≢◌, ◌≤◌, [], length, List, IfOk, OnOk, OnErr, true};
ghost use Rattle.fuse_request.specs.declared.header.TheConstants.{MAX_MESSAGE as max_message};
ghost use Rattle.fuse_session.specs.Port.{PortState, IsYoung, Receives, Sends};
ghost use Rattle.fuse_session.specs.Port.{SentWhole};
ghost use Rattle.fuse_session.specs.Transcript.{PortEvent, IsTranscript, Tells, Hands, SendsPart};
ghost use Rattle.fuse_session.specs.Transcript.{one_receive, one_send};
ghost use Rattle.fuse_session.specs.inner.Sending.{reports_gone};

/// The result of a call of `receive`.
#[derive(Clone, Copy, Debug, PartialEq, Eq)]
pub enum Received {
    /// So many bytes came, and stand at the start of the buffer.
    Got(usize),
    /// Nothing comes any more.
    End,
    /// Nothing came. A later call may give more.
    Failed,
}

/// The result of a call of `send`.
#[derive(Clone, Copy, Debug, PartialEq, Eq)]
pub enum Sent {
    /// So many bytes were taken.
    Took(usize),
    /// No request of this answer's unique is pending. The whole slice counts as sent.
    Gone,
    /// A prefix of the bytes may have been taken.
    Failed,
}

/// A connection to a kernel: messages come from it, and answers go to it.
pub trait Port: Drop {
    /// Its state.
    ghost told: { Self → PortState };

    /// The second is what became of the first by these calls.
    ghost became: { Self → Self → List PortEvent → Type 0 };

    /// Receives bytes into a buffer with room for the longest message, once. The rest of the buffer
    /// has no meaning.
    fn receive(&mut self, buffer: &mut [u8]) -> Received
        requires young { IsYoung (told self.old) }
        requires room { max_message ≤ length buffer.old }
        ensures received { Receives (told self.old) (told self.new) result buffer.new }
        ensures same { became self.old self.new (one_receive result buffer.new) };

    /// Sends the bytes that are left of one answer, once.
    fn send(&mut self, bytes: &[u8]) -> Sent
        requires young { IsYoung (told self.old) }
        requires some { bytes.now ≢ [] }
        ensures sent { Sends (told self.old) (told self.new) result bytes.now }
        ensures same { became self.old self.new (one_send bytes.now result) };

    /// Whether an answer taken whole counts as taken by the kernel. Allocates nothing.
    fn confirms(&self) -> bool
        ensures { result ≡ (told self.now).confirms };

    /// How often it was asked to receive, and how often it failed. Allocates nothing.
    fn tally(&self) -> (u64, u64)
        ensures receives { result.0 ≡ (told self.now).receives }
        ensures failures { result.1 ≡ (told self.now).failures };

    ghost path: { IsTranscript became };

    ghost tells: { Tells told became };
}

/// How all of an answer was sent.
#[derive(Clone, Copy, Debug, PartialEq, Eq)]
pub(crate) enum Passed {
    Taken,
    /// The port answered that nobody waits for it.
    Gone,
}

/// The port failed before all of an answer was sent.
#[derive(Clone, Copy, Debug, PartialEq, Eq)]
pub(crate) struct PortFailed;

/// Sends all of one answer. An `Err` leaves a prefix of it sent.
pub(crate) fn send_whole<P: Port>(port: &mut P, bytes: &[u8]) -> Result<Passed, PortFailed>
    requires young { IsYoung (P.told port.old) }
    ensures ok { IfOk result (λ passed. SentWhole (P.told port.old) (P.told port.new)
        bytes.now (reports_gone passed)) }
    ensures hands { OnOk result (Hands (P.became port.old port.new) bytes.now true) }
    ensures err { OnErr result (SendsPart (P.became port.old port.new) (P.told port.old)
        (P.told port.new) bytes.now) }
{
    let mut rest = bytes;
    while !rest.is_empty() {
        let taken = match port.send(rest) {
            Sent::Took(n) => n,
            Sent::Gone => return Ok(Passed::Gone),
            Sent::Failed => return Err(PortFailed),
        };
        if taken == 0 {
            return Err(PortFailed);
        }
        rest = &rest[taken..];
    }
    Ok(Passed::Taken)
}
