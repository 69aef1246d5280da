// Which frames of a guest are due.
ghost use Rattle.std.specs.Prelude.{◌≡◌};
ghost use Rattle.guest_talk.specs.inner.Reads.{due_kinds};

use guest_frames::GuestKind;

/// What a guest owes.
#[derive(Clone, Copy, Debug, PartialEq, Eq)]
pub(crate) enum Due {
    /// READY, after HELLO.
    Ready,
    /// The others, after REQUEST.
    Others,
}

impl Due {
    /// Whether frames of this kind are due.
    pub(crate) fn has(self, kind: GuestKind) -> bool
        ensures { result ≡ due_kinds self kind }
    {
        match (self, kind) {
            (Due::Ready, GuestKind::Ready) => true,
            (Due::Ready, _) => false,
            (Due::Others, GuestKind::Ready) => false,
            (Due::Others, _) => true,
        }
    }
}
