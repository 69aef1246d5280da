use crate::counts::SessionCounts;
use fuse_keeper::StoreFault;
use fuse_request::FrameFault;

/// How serving ended.
#[derive(Drop)]
pub enum Ended {
    /// The port ended, and no bytes are left over.
    End,
    /// A DESTROY was answered without an error. Nothing after it is processed.
    Destroyed,
    /// The bound was used up before the end.
    Turns,
    /// The bytes are no messages. All whole messages before them are answered.
    Frame(FrameFault),
    /// The message at this offset could only be answered under the id 0. All messages before it
    /// are answered.
    ZeroUnique { at: u64 },
    /// The port failed, or took no byte of the rest of an answer.
    PortFailed,
    /// The keeper returned a fault. Nothing of that group is sent.
    Store(StoreFault),
    /// Out of memory outside the store.
    Memory,
}

/// How serving ended, and the counts of the messages that it processed. There are none where a
/// send, the store or a lack of memory ended it.
#[derive(Drop)]
pub struct Served {
    pub ended: Ended,
    pub counts: Option<SessionCounts>,
}
