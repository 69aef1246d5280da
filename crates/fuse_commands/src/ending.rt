ghost use Rattle.std.specs.Prelude.{◌≡◌, nat_le, option_map};
ghost use Rattle.fuse_commands.specs.Endings.{line_of, session_ending, status_of, store_ending};
ghost use Rattle.fuse_commands.specs.Endings.{stream_ending};

use crate::cause::Cause;
use fuse_keeper::StoreFault;
use fuse_request::FrameFault;
use fuse_session::Ended;
use std::alloc::AllocError;
use std::{fmt, io};

/// How a command ended.
#[derive(Clone, Copy, Debug, PartialEq, Eq)]
pub enum Ending {
    /// The command did all that was asked for.
    Done,
    /// The length of a message is below that of a header.
    Short { at: u64, len: u32 },
    /// The length of a message is above the limit.
    TooLong { at: u64, len: u32 },
    /// The stream ends within a message.
    Cut { at: u64, have: u64, need: u64 },
    /// A message that needs an answer has the id 0.
    ZeroUnique { at: u64 },
    /// The stream has malformed messages.
    Malformed,
    /// A line of a script is malformed. Lines are counted from 1.
    ScriptLine { line: u64 },
    /// The command line is wrong, or asks for help.
    Usage,
    /// The command line of `serve` has neither `--fresh` nor `--resume`, or both.
    Modes,
    /// A statement failed, or the file of the database can't be opened.
    Sql(Cause),
    /// The database is not a store.
    NotAStore,
    /// The store has an unknown version.
    Version(u64),
    /// The store is damaged.
    Damaged,
    /// A server wrote to the store during each attempt to read it.
    Busy,
    /// The kernel did not offer the resend notice at INIT.
    NotOffered,
    /// A directory of the store has no entry with a name of the path.
    NoSuchPath,
    /// A node that the path uses as a directory is none.
    NotDirectory,
    /// The node at the path is no regular file.
    NotFile,
    /// Reading the input or writing the output failed.
    PortFailed,
    /// The input goes on past the bound on reads.
    PortTurns,
    /// Out of memory.
    Memory,
    /// The guest that does the requests failed. Whoever asked it says how.
    Guest,
}

impl Ending {
    /// The ending of a command whose store had this fault.
    pub fn of(fault: StoreFault) -> Ending
        ensures { result ≡ store_ending fault }
    {
        match fault {
            StoreFault::Memory => Ending::Memory,
            StoreFault::Sql(error) => Ending::Sql(Cause::of(error)),
            StoreFault::NotAStore => Ending::NotAStore,
            StoreFault::Version(version) => Ending::Version(version),
            StoreFault::Damaged => Ending::Damaged,
            StoreFault::Guest => Ending::Guest,
        }
    }

    /// The ending of a command whose stream had this fault.
    pub(crate) fn of_stream(fault: FrameFault) -> Ending
        ensures { result ≡ stream_ending fault }
    {
        match fault {
            FrameFault::Short { at, len } => Ending::Short { at, len },
            FrameFault::TooLong { at, len } => Ending::TooLong { at, len },
            FrameFault::Cut { at, have, need } => Ending::Cut { at, have, need },
            FrameFault::Memory => Ending::Memory,
        }
    }

    /// The ending of a command whose session ended this way.
    pub(crate) fn of_session(ended: Ended) -> Ending
        ensures { result ≡ session_ending ended }
    {
        match ended {
            Ended::End | Ended::Destroyed => Ending::Done,
            Ended::Turns => Ending::PortTurns,
            Ended::Frame(fault) => Ending::of_stream(fault),
            Ended::ZeroUnique { at } => Ending::ZeroUnique { at },
            Ended::PortFailed => Ending::PortFailed,
            Ended::Store(fault) => Ending::of(fault),
            Ended::Memory => Ending::Memory,
        }
    }

    /// Whether the input was processed to its end or its first fault.
    pub fn is_of_stream(self) -> bool
        ensures { result ≡ nat_le (status_of self) 1 }
    {
        self.status() <= 1
    }

    /// The exit status of the program.
    pub fn status(self) -> u8
        ensures { result ≡ status_of self }
    {
        match self {
            Ending::Done => 0,
            Ending::Short { .. }
            | Ending::TooLong { .. }
            | Ending::Cut { .. }
            | Ending::ZeroUnique { .. }
            | Ending::Malformed
            | Ending::ScriptLine { .. } => 1,
            Ending::Usage | Ending::Modes => 2,
            Ending::Sql(_)
            | Ending::NotAStore
            | Ending::Version(_)
            | Ending::Damaged
            | Ending::Busy
            | Ending::NotOffered
            | Ending::NoSuchPath
            | Ending::NotDirectory
            | Ending::NotFile => 3,
            Ending::PortFailed | Ending::PortTurns => 4,
            Ending::Memory | Ending::Guest => 5,
        }
    }

    /// The line for standard error. There is none for success, for `Usage`, where clap prints the
    /// text, for `Malformed`, where the counts show it, and for `Guest`, which has another line.
    pub fn line(self) -> Option<FaultLine>
        ensures { result ≡ option_map (λ _. record { ending = self }) (line_of self) }
    {
        match self {
            Ending::Done | Ending::Malformed | Ending::Usage | Ending::Guest => None,
            _ => Some(FaultLine { ending: self }),
        }
    }
}

impl From<AllocError> for Ending {
    ghost use Rattle.std.specs.Prelude.{◌≡◌};
    ghost use Rattle.fuse_commands.specs.declared.ending.Ending.TheVariants.{Memory as NoMemory};

    ghost from_gives = { λ _ ending. ending ≡ NoMemory };

    fn from(_e: AllocError) -> Ending {
        Ending::Memory
    }
}

impl From<io::Error> for Ending {
    ghost use Rattle.std.specs.Prelude.{◌≡◌};
    ghost use Rattle.fuse_commands.specs.declared.ending.Ending.TheVariants.{PortFailed as Failed};

    ghost from_gives = { λ _ ending. ending ≡ Failed };

    fn from(_e: io::Error) -> Ending {
        Ending::PortFailed
    }
}

/// The line of a fault on standard error.
#[derive(Clone, Copy, Debug, PartialEq, Eq)]
pub struct FaultLine {
    ending: Ending,
}

impl fmt::Display for FaultLine {
    ghost use Rattle.fuse_commands.specs.Endings.{line_of};

    ghost output = { λ line. line_of line.ending };

    fn fmt<W: fmt::Write>(&self, f: &mut fmt::Formatter<W>) -> fmt::Result {
        match self.ending {
            Ending::Done | Ending::Malformed | Ending::Usage | Ending::Guest => Ok(()),
            Ending::Short { at, len } => write!(f, "stream: Short at {at}: len {len}"),
            Ending::TooLong { at, len } => write!(f, "stream: TooLong at {at}: len {len}"),
            Ending::Cut { at, have, need } => {
                write!(f, "stream: Cut at {at}: have {have}, need {need}")
            }
            Ending::ZeroUnique { at } => write!(f, "stream: ZeroUnique at {at}"),
            Ending::ScriptLine { line } => write!(f, "script: line {line}"),
            Ending::Modes => f.write_str("usage: one of --fresh and --resume"),
            Ending::Sql(_) => f.write_str("store: Sql"),
            Ending::NotAStore => f.write_str("store: NotAStore"),
            Ending::Version(version) => write!(f, "store: Version({version})"),
            Ending::Damaged => f.write_str("store: Damaged"),
            Ending::Busy => f.write_str("store: Busy"),
            Ending::NotOffered => f.write_str("resume: NotOffered"),
            Ending::NoSuchPath => f.write_str("path: NoSuchPath"),
            Ending::NotDirectory => f.write_str("path: NotDirectory"),
            Ending::NotFile => f.write_str("path: NotFile"),
            Ending::PortFailed => f.write_str("port: failed"),
            Ending::PortTurns => f.write_str("port: turns"),
            Ending::Memory => f.write_str("memory"),
        }
    }
}
