use crate::guest_kind::GuestKind;
use std::error::Error;
use std::fmt;

/// Why a guest's bytes are no frame: what is wrong first.
#[derive(Clone, Copy, Debug, PartialEq, Eq)]
pub enum GuestFault {
    /// The frame says that it has so many bytes: fewer than a head, or too many.
    Length(u32),
    /// No guest sends frames of this kind.
    NotDue(u32),
    /// The payload is too short for its fields or counts, has bytes after them, a zero that isn't 0
    /// or an unknown flag.
    Malformed(GuestKind),
    /// A key of so many bytes.
    Key(u32),
    /// A value of so many bytes.
    Value(u32),
    /// Too many keys, or none, or too many changes.
    TooMany(GuestKind),
    /// A READY of another version.
    Version(u32),
    /// A READY that wants to see an opcode that changes something.
    CannotBeSeen(u32),
    /// An error number that is too large.
    Error(u32),
    /// An error with changes or a body.
    ErrorWithChanges,
    /// A change of an unknown kind.
    Change(u32),
    /// A body of so many bytes, too many for any opcode. The engine's line also names the opcode.
    Body(u32),
}

impl fmt::Display for GuestFault {
    fn fmt<W: fmt::Write>(&self, f: &mut fmt::Formatter<W>) -> fmt::Result {
        match *self {
            GuestFault::Length(len) => write!(f, "frame of {len} bytes"),
            GuestFault::NotDue(kind) => write!(f, "kind {kind} is not due"),
            GuestFault::Malformed(kind) => write!(f, "malformed {kind}"),
            GuestFault::Key(len) => write!(f, "key of {len} bytes"),
            GuestFault::Value(len) => write!(f, "value of {len} bytes"),
            GuestFault::TooMany(kind) => write!(f, "too many in {kind}"),
            GuestFault::Version(version) => write!(f, "version {version}"),
            GuestFault::CannotBeSeen(opcode) => write!(f, "opcode {opcode} can't be seen"),
            GuestFault::Error(errno) => write!(f, "error {errno}"),
            GuestFault::ErrorWithChanges => write!(f, "error with changes"),
            GuestFault::Change(what) => write!(f, "change {what}"),
            GuestFault::Body(len) => write!(f, "body of {len} bytes"),
        }
    }
}

impl Error for GuestFault {}
