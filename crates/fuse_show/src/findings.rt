ghost use Rattle.std.specs.Prelude.{◌≡◌, IfErr};
ghost use Rattle.fuse_show.specs.Findings.{finding_line, finding_text, line_at, unread_line};
ghost use Rattle.fuse_show.specs.Shown.{IsWritten, way_of};
ghost use Rattle.fuse_show.specs.Sinks.{Outputs};

use crate::fault::ShowFault;
use crate::names::write_name;
use crate::output::{finish, put, put_texts};
use fuse_session::Sink;

/// What is wrong at a path of a tree.
#[derive(Clone, Copy, Debug, PartialEq, Eq)]
pub enum Finding {
    HighCounter,
    MoreUsedThanRoom,
    NoDirectoryAtRoot,
    EntryOfAnotherDirectory,
    CookieOutOfOrder,
    CookieNotGiven,
    NoName,
    LeadsToRoot,
    NodeNotGiven,
    NodeMissing,
    NodeOfAnotherDirectory,
    NoMode,
    DeviceNumberOfNoDevice,
    LinkInPlainStore,
    NoSize,
    ContentCutShort,
    ZeroInTarget,
    OtherDirectories,
    MoreEntriesThanNodes,
    MoreNodes,
    FewerNodes,
    OtherWritten,
    OtherBlocks,
    /// Of the tables: rows that no walk over the tree meets.
    Strays,
    /// Of the tables: blocks after the end of their file.
    BlocksBeyond,
}

impl Finding {
    // Its text.
    fn text(self) -> &'static str
        ensures { result.now ≡ finding_text self }
    {
        match self {
            Finding::HighCounter => "a counter is too high",
            Finding::MoreUsedThanRoom => "more is in use than it has room for",
            Finding::NoDirectoryAtRoot => "it is no directory",
            Finding::EntryOfAnotherDirectory => "its entry is of another directory",
            Finding::CookieOutOfOrder => "its cookie is out of order",
            Finding::CookieNotGiven => "its cookie was not given out",
            Finding::NoName => "its name is none",
            Finding::LeadsToRoot => "it is the root",
            Finding::NodeNotGiven => "the number of its node was not given out",
            Finding::NodeMissing => "its node is missing",
            Finding::NodeOfAnotherDirectory => "its node is of another directory",
            Finding::NoMode => "its mode is none",
            Finding::DeviceNumberOfNoDevice => "it is no device, and has the number of one",
            Finding::LinkInPlainStore => "it is a symbolic link, and the store is plain",
            Finding::NoSize => "its size is none of such a node",
            Finding::ContentCutShort => "its content has fewer bytes than its size says",
            Finding::ZeroInTarget => "its target has a zero byte",
            Finding::OtherDirectories => "its directories are not those that are counted",
            Finding::MoreEntriesThanNodes => "it has more entries than there are nodes",
            Finding::MoreNodes => "more nodes lie in it than are counted",
            Finding::FewerNodes => "fewer nodes lie in it than are counted",
            Finding::OtherWritten => "its written blocks are not those that are counted",
            Finding::OtherBlocks => "its files take not as many blocks as are counted",
            Finding::Strays => "the tables have rows of no node or entry in the tree",
            Finding::BlocksBeyond => "a file has blocks after its end",
        }
    }
}

// Writes the line of a text at a path from the root on.
fn show_line<W: Sink>(writer: &mut W, path: &[u8], text: &str) -> Result<(), ShowFault>
    ensures shown { Outputs W.was_written W.was_flushed writer.old writer.new (way_of result)
        (λ bytes. IsWritten (line_at path.now text.now) bytes result) }
    ensures fault { IfErr result (λ fault. fault ≡ ShowFault.Output) }
{
    match put(writer, b"/") {
        Ok(()) => {}
        Err(fault) => return Err(fault),
    }
    match write_name(writer, path) {
        Ok(()) => {}
        Err(fault) => return Err(fault),
    }
    match put_texts(writer, &[": ", text]) {
        Ok(()) => {}
        Err(fault) => return Err(fault),
    }
    finish(writer, b"\n")
}

/// Writes the line of what is wrong at a path from the root on.
pub fn show_finding<W: Sink>(writer: &mut W, path: &[u8], finding: Finding) -> Result<(), ShowFault>
    ensures shown { Outputs W.was_written W.was_flushed writer.old writer.new (way_of result)
        (λ bytes. IsWritten (finding_line path.now finding) bytes result) }
    ensures fault { IfErr result (λ fault. fault ≡ ShowFault.Output) }
{
    show_line(writer, path, finding.text())
}

/// Writes that the rows at a path from the root on can't be read.
pub(crate) fn show_unread<W: Sink>(writer: &mut W, path: &[u8]) -> Result<(), ShowFault>
    ensures shown { Outputs W.was_written W.was_flushed writer.old writer.new (way_of result)
        (λ bytes. IsWritten (unread_line path.now) bytes result) }
    ensures fault { IfErr result (λ fault. fault ≡ ShowFault.Output) }
{
    show_line(writer, path, "its rows can't be read")
}
