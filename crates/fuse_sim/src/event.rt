// Events: a message that comes, and the fate of its answer.
use fuse_keeper::StoreFault;
use fuse_wire::{ByteList, Moment};

/// The fate of a message and of its answer.
#[derive(Clone, Copy, Debug, PartialEq, Eq)]
pub enum Fate {
    /// The kernel takes the answer.
    Answered,
    /// The answer is lost after the commit.
    AnswerLost,
    /// The server dies before it commits, and starts again.
    DiedBeforeCommit,
    /// The server dies after its commit and before the answer is taken, and starts again.
    DiedAfterCommit,
}

/// A message that comes, its moment, and its fate.
#[derive(Drop)]
pub struct Event {
    pub bytes: ByteList,
    pub moment: Moment,
    pub fate: Fate,
}

/// The answer to an event.
#[derive(Drop)]
pub struct Outcome {
    pub head: [u8; 16],
    pub body: ByteList,
}

/// Why events were not run to their end. Events are counted from 0.
#[derive(Debug, Drop)]
pub enum DriveFault {
    /// The event's bytes are not just one message.
    NotAMessage { event: usize },
    /// The event's message would be answered under unique 0.
    ZeroUnique { event: usize },
    /// The store failed, or opening it again did.
    Store { event: usize, fault: StoreFault },
    /// There was no memory for a group of events, or for its answers.
    Memory { event: usize },
}
