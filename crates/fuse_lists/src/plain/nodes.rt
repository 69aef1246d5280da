use fuse_init::Profile;
use fuse_rows::{Child, EntryRow, FileBody, Full, NodeRow, Origin, ROOT_ID};
use fuse_tree::S_IFDIR;
use fuse_wire::{ByteList, Memory};
use std::alloc::Global;
use std::marker::Model;

/// Nodes, no two of one number. Contracts see a list.
#[derive(Drop)]
pub struct NodeList {
    nodes: Vec<Full>,
}

impl Model for NodeList {
    ghost use Rattle.std.specs.Prelude.{◌≡◌, List, true};
    ghost use Rattle.fuse_rows.specs.declared.rows.Full.{Full};
    ghost use Rattle.fuse_lists.specs.inner.NumbersOnce.{are_distinct};

    ghost Value = { List Full };

    ghost view = { λ a. a.nodes.items };

    ghost invariant = { λ a. are_distinct a.nodes.items ≡ true };
}

impl NodeList {
    ghost use Rattle.std.specs.Prelude.{◌≡◌, ◌==◌, IfOk, OnOk, OnErr, [], length, map, filter};
    ghost use Rattle.std.specs.Prelude.{◌-◌, not, find, take, drop};
    ghost use Rattle.std.specs.Option.{option_map};
    ghost use Rattle.fuse_rows.specs.Rows.{put_node, at_node, body_written, body_sized};
    ghost use Rattle.fuse_rows.specs.Rows.{content_of, written_blocks_of};
    ghost use Rattle.fuse_rows.specs.Blocks.{count_between};
    ghost use Rattle.fuse_tree.specs.Clearing.{is_named_row, blocks_freed};

    pub(super) fn new(alloc: Global) -> NodeList
        ensures { result ≡ [] }
    {
        NodeList {
            nodes: Vec::new(alloc),
        }
    }

    pub(super) fn to_copy(&self, alloc: Global) -> Result<NodeList, Memory>
        ensures { IfOk result (λ copy. copy ≡ self.now) }
    {
        let nodes = copies_of(alloc, self.nodes.as_slice())?;
        Ok(NodeList { nodes })
    }

    pub(super) fn row(&self, number: u64) -> Option<NodeRow>
        ensures { result ≡ option_map (λ f. f.row) (find (λ f. f.row.node == number) self.now) }
    {
        row_in(self.nodes.as_slice(), number)
    }

    fn with_row(&self, entry: EntryRow) -> Child
        ensures { result ≡ record {
          entry = entry;
          row = option_map (λ f. f.row) (find (λ f. f.row.node == entry.child) self.now);
        } }
    {
        let row = self.row(entry.child);
        Child { entry, row }
    }

    // The entries, each with the row of the node that it leads to.
    pub(super) fn with_rows(
        &self,
        alloc: Global,
        entries: Vec<EntryRow>,
    ) -> Result<Vec<Child>, Memory>
        ensures { IfOk result (λ v. v.items ≡ map (λ e. record {
          entry = e;
          row = option_map (λ f. f.row) (find (λ f. f.row.node == e.child) self.now);
        }) entries.items) }
    {
        let mut children = Vec::new(alloc);
        for entry in entries {
            children.push(self.with_row(entry))?;
        }
        Ok(children)
    }

    pub(super) fn bytes(
        &self,
        alloc: Global,
        number: u64,
        offset: u64,
        len: u32,
    ) -> Result<ByteList, Memory>
        ensures { IfOk result (λ bytes. bytes ≡ take len (drop offset
            (content_of (find (λ f. f.row.node == number) self.now)))) }
    {
        bytes_in(alloc, self.nodes.as_slice(), number, offset, len)
    }

    pub(super) fn blocks_between(&self, number: u64, from: u64, to: u64) -> u64
        ensures { result ≡ count_between from to
            (written_blocks_of (find (λ f. f.row.node == number) self.now)) }
    {
        blocks_of_node(self.nodes.as_slice(), number, from, to)
    }

    pub(super) fn put(&mut self, alloc: Global, row: NodeRow) -> Result<(), Memory>
        ensures ok { OnOk result (self.new ≡ put_node row self.old) }
        ensures err { OnErr result (self.new ≡ self.old) }
    {
        if let Some(place) = place_in(self.nodes.as_slice(), row.node) {
            let full = &mut self.nodes[place];
            full.row = row;
            return Ok(());
        }
        let content = FileBody::new(alloc, row.written);
        self.nodes.push(Full { row, content })?;
        Ok(())
    }

    pub(super) fn write(
        &mut self,
        alloc: Global,
        number: u64,
        offset: u64,
        bytes: &[u8],
    ) -> Result<(), Memory>
        ensures ok { OnOk result (self.new ≡ map (at_node number (body_written offset bytes.now))
            self.old) }
        ensures err { OnErr result (self.new ≡ self.old) }
    {
        let Some(place) = place_in(self.nodes.as_slice(), number) else {
            return Ok(());
        };
        let full = &mut self.nodes[place];
        full.content.write(alloc, offset, bytes)
    }

    pub(super) fn set_size(&mut self, alloc: Global, number: u64, size: u64) -> Result<(), Memory>
        ensures ok { OnOk result (self.new ≡ map (at_node number (body_sized size)) self.old) }
        ensures err { OnErr result (self.new ≡ self.old) }
    {
        let Some(place) = place_in(self.nodes.as_slice(), number) else {
            return Ok(());
        };
        let full = &mut self.nodes[place];
        full.content.set_size(alloc, size)
    }

    pub(super) fn keep_named(&mut self)
        ensures { self.new ≡ filter is_named_row self.old }
    {
        self.nodes.retain(|full| full.row.is_named());
    }

    pub(super) fn remove(&mut self, number: u64)
        ensures { self.new ≡ filter (λ f. not (f.row.node == number)) self.old }
    {
        self.nodes.retain(|full| full.row.node != number);
    }

    // What is left of these blocks without the nodes that have no name.
    pub(super) fn left_of(&self, used: u64) -> u64
        ensures { result ≡ used - blocks_freed self.now }
    {
        left_in(self.nodes.as_slice(), used)
    }

    pub(super) fn len(&self) -> usize
        ensures { result ≡ length self.now }
    {
        self.nodes.len()
    }
}

ghost use Rattle.std.specs.Prelude.{◌≡◌, ◌==◌, ◌-◌, ℕ, IfOk, find, take, drop, position};
ghost use Rattle.std.specs.Option.{option_map};
ghost use Rattle.fuse_tree.specs.State.{root_node, new_store, capacity_for};
ghost use Rattle.fuse_tree.specs.Clearing.{blocks_freed};
ghost use Rattle.fuse_rows.specs.Rows.{content_of, written_blocks_of};
ghost use Rattle.fuse_rows.specs.Blocks.{count_between};
ghost use Rattle.fuse_tree.specs.Rowed.{row_of};

/// The root of a new store.
pub(super) fn root_row(profile: Profile, from: Origin) -> NodeRow
    ensures { (capacity : ℕ) → result ≡ row_of (new_store profile capacity from)
        (root_node (capacity_for profile capacity) from) }
{
    let written = match profile {
        Profile::Plain => None,
        Profile::Everyday => Some(0),
    };
    NodeRow {
        node: ROOT_ID,
        mode: S_IFDIR + 0o755,
        uid: from.owner.uid,
        gid: from.owner.gid,
        rdev: 0,
        size: 0,
        atime: from.made,
        mtime: from.made,
        ctime: from.made,
        up: 0,
        subdirs: 0,
        written,
    }
}

fn place_in(nodes: &[Full], number: u64) -> Option<usize>
    ensures { result ≡ position (λ f. f.row.node == number) nodes.now }
{
    nodes.iter().position(|full| full.row.node == number)
}

fn row_in(nodes: &[Full], number: u64) -> Option<NodeRow>
    ensures { result ≡ option_map (λ f. f.row) (find (λ f. f.row.node == number) nodes.now) }
{
    for full in nodes {
        if full.row.node == number {
            return Some(full.row);
        }
    }
    None
}

fn bytes_in(
    alloc: Global,
    nodes: &[Full],
    number: u64,
    offset: u64,
    len: u32,
) -> Result<ByteList, Memory>
    ensures { IfOk result (λ bytes. bytes ≡ take len (drop offset
        (content_of (find (λ f. f.row.node == number) nodes.now)))) }
{
    for full in nodes {
        if full.row.node == number {
            return full.content.bytes(alloc, offset, len);
        }
    }
    Ok(ByteList::from_vec(Vec::new(alloc)))
}

// How many blocks of this node were written, from one on and below another.
fn blocks_of_node(nodes: &[Full], number: u64, from: u64, to: u64) -> u64
    ensures { result ≡ count_between from to
        (written_blocks_of (find (λ f. f.row.node == number) nodes.now)) }
{
    for full in nodes {
        if full.row.node == number {
            return full.content.blocks_between(from, to);
        }
    }
    0
}

fn left_in(nodes: &[Full], used: u64) -> u64
    ensures { result ≡ used - blocks_freed nodes.now }
{
    let mut left = used;
    for full in nodes {
        if !full.row.is_named() {
            left = left.saturating_sub(full.row.written.unwrap_or(0));
        }
    }
    left
}

fn copy_of(alloc: Global, full: &Full) -> Result<Full, Memory>
    ensures { IfOk result (λ copy. copy ≡ full.now) }
{
    Ok(Full {
        row: full.row,
        content: full.content.to_copy(alloc)?,
    })
}

fn copies_of(alloc: Global, nodes: &[Full]) -> Result<Vec<Full>, Memory>
    ensures { IfOk result (λ copies. copies.items ≡ nodes.now) }
{
    let mut copies = Vec::with_capacity(alloc, nodes.len())?;
    for full in nodes {
        copies.push(copy_of(alloc, full)?)?;
    }
    Ok(copies)
}
