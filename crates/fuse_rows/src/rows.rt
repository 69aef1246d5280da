use crate::body::FileBody;
use crate::limits::ROOT_ID;
use fuse_answer::Answer;
use fuse_init::{Profile, Settings};
use fuse_wire::{AccessMode, ByteList, Moment};
use std::marker::Model;

/// A node, with what is counted of it. Its bytes are kept apart.
#[derive(Clone, Copy, Debug, PartialEq, Eq)]
pub struct NodeRow {
    pub node: u64,
    /// The type and the permissions, as `st_mode` has them.
    pub mode: u32,
    pub uid: u32,
    pub gid: u32,
    pub rdev: u32,
    /// The number of its bytes.
    pub size: u64,
    pub atime: Moment,
    pub mtime: Moment,
    pub ctime: Moment,
    /// The directory above, 0 for the root and for a node without a name.
    pub up: u64,
    /// The number of directories that have an entry in it.
    pub subdirs: u32,
    /// The number of its written blocks. Only an everyday store counts them.
    pub written: Option<u64>,
}

impl NodeRow {
    ghost use Rattle.std.specs.Prelude.{◌≡◌};
    ghost use Rattle.fuse_rows.specs.Rows.{row_is_named};

    /// Whether it is that of the root, or an entry leads to its node.
    pub fn is_named(&self) -> bool
        ensures { result ≡ row_is_named self.now }
    {
        self.node == ROOT_ID || self.up != 0
    }
}

/// A node's row, with its bytes and its written blocks.
#[derive(Drop)]
pub struct Full {
    pub row: NodeRow,
    pub content: FileBody,
}

/// A name in a directory. Cookies give the order in which names are listed.
#[derive(Drop)]
pub struct EntryRow {
    pub dir: u64,
    pub name: ByteList,
    pub child: u64,
    pub cookie: u64,
}

/// An entry, with the row of the node that it leads to.
#[derive(Drop)]
pub struct Child {
    pub entry: EntryRow,
    /// None is there only where the rows are those of no tree.
    pub row: Option<NodeRow>,
}

/// A node that is open.
#[derive(Clone, Copy, Debug, PartialEq, Eq)]
pub struct HandleRow {
    pub fh: u64,
    pub node: u64,
    pub access: AccessMode,
}

/// The numbers that are given out next, and how many nodes and handles there are.
#[derive(Clone, Copy, Debug, PartialEq, Eq)]
pub struct Counters {
    pub next_node: u64,
    pub next_fh: u64,
    pub next_cookie: u64,
    pub nodes: u64,
    pub handles: u64,
    /// Only an everyday store counts its blocks.
    pub room: Option<Room>,
}

/// The blocks of a store, those in use, and those that it has room for.
#[derive(Clone, Copy, Debug, PartialEq, Eq)]
pub struct Room {
    pub capacity: u64,
    pub used: u64,
}

impl Counters {
    ghost use Rattle.std.specs.Prelude.{◌≡◌};
    ghost use Rattle.fuse_rows.specs.Rows.{profile_for};

    /// The profile of their store.
    pub fn profile(&self) -> Profile
        ensures { result ≡ profile_for self.now.room }
    {
        match self.room {
            None => Profile::Plain,
            Some(_) => Profile::Everyday,
        }
    }
}

/// One change of the rows.
#[derive(Drop)]
pub enum Change {
    /// A node's row, in place of the one with its number where there is one. The bytes and the
    /// written blocks stay.
    Node(NodeRow),
    /// The node's row and its bytes.
    NodeGone {
        node: u64,
    },
    /// An entry, after the others.
    Entry(EntryRow),
    EntryGone {
        cookie: u64,
    },
    /// A handle, after the others.
    Handle(HandleRow),
    HandleGone {
        fh: u64,
    },
    /// Bytes at their place, and zero bytes before them where the file was shorter. The blocks that
    /// they touch are written, where these are counted. The row's counts stay.
    Written {
        node: u64,
        offset: u64,
        bytes: ByteList,
    },
    /// The bytes cut, or filled up with zero bytes. No block above them is written any more. The
    /// row's counts stay.
    Sized {
        node: u64,
        size: u64,
    },
    Counters(Counters),
    Settings(Settings),
}

/// Changes, in the order in which they are made. Contracts see a list.
#[derive(Drop)]
pub struct ChangeList {
    changes: Vec<Change>,
}

impl Model for ChangeList {
    ghost use Rattle.std.specs.Prelude.{List};
    ghost use Rattle.fuse_rows.specs.declared.rows.Change.{Change};

    ghost Value = { List Change };

    ghost view = { λ a. a.changes.items };
}

impl ChangeList {
    ghost use Rattle.std.specs.Prelude.{◌≡◌};

    /// No memory is taken.
    pub fn from_vec(changes: Vec<Change>) -> ChangeList
        ensures { result ≡ changes.items }
    {
        ChangeList { changes }
    }

    /// No memory is taken.
    pub fn into_vec(self) -> Vec<Change>
        ensures { result.items ≡ self }
    {
        self.changes
    }

    /// The first change is the one that is made first.
    pub fn as_slice(&self) -> &[Change]
        ensures { result.now ≡ self.now }
    {
        self.changes.as_slice()
    }
}
