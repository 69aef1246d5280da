/// The version of the protocol.
pub const VERSION: u32 = 1;

/// The most bytes of a frame, its head included.
pub const MAX_FRAME: u32 = 4_194_304;

/// The most bytes of a frame of VALUES or PAIRS, its head included.
pub const MAX_REPLY: u32 = 1_048_576;

/// The most bytes of a key.
pub const MAX_KEY: u32 = 1024;

/// The most bytes of a value.
pub const MAX_VALUE: u32 = 262_144;

/// The most keys of a GET.
pub const MAX_KEYS: u32 = 256;

/// The most changes of an ANSWER.
pub const MAX_CHANGES: u32 = 4096;

/// The most bytes of an ANSWER's body.
pub const MAX_ANSWER_BODY: u32 = 1_048_576;

/// The largest error number of an ANSWER.
pub const MAX_ERROR: u32 = 511;
