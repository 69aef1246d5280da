ghost use Rattle.std.specs.Prelude.{◌≡◌};
ghost use Rattle.guest_frames.specs.Kinds.{guest_kind_of, kind_number};

use std::fmt;

/// The frames that a guest sends.
#[derive(Clone, Copy, Debug, PartialEq, Eq)]
pub enum GuestKind {
    Ready,
    Get,
    Scan,
    Answer,
}

const READY: u32 = 2;

const GET: u32 = 4;

const SCAN: u32 = 6;

const ANSWER: u32 = 8;

impl GuestKind {
    /// The kind of this number. `None` where no guest sends such frames.
    pub fn of(number: u32) -> Option<GuestKind>
        ensures { result ≡ guest_kind_of number }
    {
        match number {
            READY => Some(GuestKind::Ready),
            GET => Some(GuestKind::Get),
            SCAN => Some(GuestKind::Scan),
            ANSWER => Some(GuestKind::Answer),
            _ => None,
        }
    }

    /// Its number.
    pub fn number(self) -> u32
        ensures { result ≡ kind_number self }
    {
        match self {
            GuestKind::Ready => READY,
            GuestKind::Get => GET,
            GuestKind::Scan => SCAN,
            GuestKind::Answer => ANSWER,
        }
    }
}

impl fmt::Display for GuestKind {
    fn fmt<W: fmt::Write>(&self, f: &mut fmt::Formatter<W>) -> fmt::Result {
        let name = match self {
            GuestKind::Ready => "READY",
            GuestKind::Get => "GET",
            GuestKind::Scan => "SCAN",
            GuestKind::Answer => "ANSWER",
        };
        write!(f, "{name}")
    }
}
