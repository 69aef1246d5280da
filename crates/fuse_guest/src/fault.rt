use guest_frames::GuestFault;

/// Why a talk about a request ended without an answer that is taken.
#[derive(Clone, Copy, Debug, PartialEq, Eq)]
pub enum TalkFault {
    /// The guest's pipe ended where a frame was owed.
    Ended,
    /// No whole frame came in time.
    Hangs,
    /// What came is no frame, or one that isn't due.
    Frame(GuestFault),
    /// Changes in the ANSWER to a seen request, of this opcode.
    ChangesOf(u32),
    /// A body of so many bytes, which the opcode doesn't have.
    Body { len: u64, opcode: u32 },
    /// A body at which a kernel would end a request of this opcode by EIO.
    BadBody(u32),
    /// The last frame that a request may have is no ANSWER.
    TooManyFrames,
}
