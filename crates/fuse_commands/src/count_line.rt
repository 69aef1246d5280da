ghost use Rattle.std.specs.Prelude.{◌≡◌};
ghost use Rattle.fuse_commands.specs.Output.{shows_seen};

use fuse_init::Profile;
use fuse_keeper::StoreCounts;
use fuse_session::SessionCounts;
use std::fmt;

/// Whether the line of counts of a store of this profile shows the number of seen messages.
pub fn shows_seen(profile: Profile) -> bool
    ensures { result ≡ shows_seen profile }
{
    match profile {
        Profile::Plain => false,
        Profile::Everyday => true,
    }
}

/// The line with the number of messages that a session processed, by class.
#[derive(Clone, Copy, Debug, PartialEq, Eq)]
pub struct CountLine {
    /// The counts of the session.
    pub counts: SessionCounts,
    /// Whether the number of seen messages is shown.
    pub shows_seen: bool,
}

impl fmt::Display for CountLine {
    ghost use Rattle.std.specs.Prelude.{Some};
    ghost use Rattle.fuse_commands.specs.Output.{count_line};

    ghost output = { λ line. Some (count_line line.shows_seen line.counts) };

    fn fmt<W: fmt::Write>(&self, f: &mut fmt::Formatter<W>) -> fmt::Result {
        let counts = self.counts;
        if self.shows_seen {
            write!(
                f,
                "served messages={} kept={} repeated={} seen={} bare={} silent={} interrupts={}",
                counts.messages,
                counts.kept,
                counts.repeated,
                counts.seen,
                counts.bare,
                counts.silent,
                counts.interrupts
            )
        } else {
            write!(
                f,
                "served messages={} kept={} repeated={} bare={} silent={} interrupts={}",
                counts.messages,
                counts.kept,
                counts.repeated,
                counts.bare,
                counts.silent,
                counts.interrupts
            )
        }
    }
}

/// The line with the number of nodes and open handles of a store.
#[derive(Clone, Copy, Debug, PartialEq, Eq)]
pub(crate) struct StoreLine(pub(crate) StoreCounts);

impl fmt::Display for StoreLine {
    ghost use Rattle.std.specs.Prelude.{Some};
    ghost use Rattle.fuse_commands.specs.Output.{store_line};

    ghost output = { λ line. Some (store_line line.0.nodes line.0.handles) };

    fn fmt<W: fmt::Write>(&self, f: &mut fmt::Formatter<W>) -> fmt::Result {
        write!(f, "nodes={} handles={}", self.0.nodes, self.0.handles)
    }
}
