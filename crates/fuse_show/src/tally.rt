ghost use Rattle.std.specs.Prelude.{◌≡◌, IfErr};
ghost use Rattle.fuse_show.specs.Shown.{IsWritten, way_of};
ghost use Rattle.fuse_show.specs.Sinks.{Outputs};
ghost use Rattle.fuse_show.specs.Verdict.{tally_text};

use crate::checks::type_of;
use crate::fault::ShowFault;
use crate::output::{finish, put_fields};
use fuse_rows::NodeRow;
use fuse_session::Sink;
use fuse_tree::{S_IFDIR, S_IFLNK, S_IFREG};

/// What a walk over a tree met: its nodes, those of each type, and their bytes.
#[derive(Clone, Copy, Debug, PartialEq, Eq)]
pub struct Tally {
    pub nodes: u64,
    pub directories: u64,
    pub files: u64,
    pub links: u64,
    pub others: u64,
    /// The sum of all sizes.
    pub bytes: u64,
    /// The written blocks, where the store counts them.
    pub blocks: u64,
}

impl Tally {
    /// Of nothing.
    pub(crate) const NONE: Tally = Tally {
        nodes: 0,
        directories: 0,
        files: 0,
        links: 0,
        others: 0,
        bytes: 0,
        blocks: 0,
    };

    /// With one more node.
    pub(crate) fn with(self, row: &NodeRow) -> Tally {
        let mut tally = self;
        tally.nodes = self.nodes.saturating_add(1);
        tally.bytes = self.bytes.saturating_add(row.size);
        tally.blocks = self.blocks.saturating_add(row.written.unwrap_or(0));
        let kind = type_of(row.mode);
        if kind == S_IFDIR {
            tally.directories = self.directories.saturating_add(1);
        } else if kind == S_IFREG {
            tally.files = self.files.saturating_add(1);
        } else if kind == S_IFLNK {
            tally.links = self.links.saturating_add(1);
        } else {
            tally.others = self.others.saturating_add(1);
        }
        tally
    }
}

/// Writes the line of a sound tree.
pub fn show_tally<W: Sink>(tally: &Tally, writer: &mut W) -> Result<(), ShowFault>
    ensures shown { Outputs W.was_written W.was_flushed writer.old writer.new (way_of result)
        (λ bytes. IsWritten (tally_text tally.now) bytes result) }
    ensures fault { IfErr result (λ fault. fault ≡ ShowFault.Output) }
{
    let fields = [
        ("ok nodes=", tally.nodes),
        (" directories=", tally.directories),
        (" files=", tally.files),
        (" links=", tally.links),
        (" others=", tally.others),
        (" bytes=", tally.bytes),
    ];
    match put_fields(writer, &fields) {
        Ok(()) => {}
        Err(fault) => return Err(fault),
    }
    finish(writer, b"\n")
}
