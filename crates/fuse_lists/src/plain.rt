mod entries;
mod handles;
mod nodes;

use crate::plain::nodes::NodeList;
use fuse_init::{Profile, Settings};
use fuse_rows::{Change, ChangeList, Child, Counters, EntryRow, HandleRow, NodeRow, Origin, Room};
use fuse_tree::{Agreement, Look, LookFault};
use fuse_wire::{ByteList, Memory};
use std::alloc::Global;

/// A tree whose rows are kept in lists. Contracts see them as `rows_of`.
#[derive(Drop)]
pub(crate) struct PlainRows {
    alloc: Global,
    nodes: NodeList,
    entries: Vec<EntryRow>,
    handles: Vec<HandleRow>,
    counters: Counters,
    settings: Option<Settings>,
    // A look has failed: it was out of memory.
    failed: bool,
}

impl PlainRows {
    ghost use Rattle.std.specs.Prelude.{◌≡◌, None, Some, IfOk, OnOk, OnErr, ◌++◌, ◌∷◌, [], map};
    ghost use Rattle.std.specs.Prelude.{filter, not, ◌==◌};
    ghost use Rattle.fuse_tree.specs.State.{new_store};
    ghost use Rattle.fuse_rows.specs.Rows.{apply_one, apply, put_node, at_node, body_written};
    ghost use Rattle.fuse_tree.specs.Rowed.{rowed};
    ghost use Rattle.fuse_rows.specs.Rows.{body_sized, children_after};
    ghost use Rattle.fuse_tree.specs.Clearing.{cleared_rows, cleared_room};
    ghost use Rattle.fuse_lists.specs.PlainRows.{rows_of, lists_fault};

    /// A new store of this profile, capacity and origin.
    pub(crate) fn new(
        alloc: Global,
        profile: Profile,
        capacity: u64,
        from: Origin,
    ) -> Result<PlainRows, Memory>
        ensures rows { IfOk result (λ p. rows_of p ≡ rowed (new_store profile capacity from)) }
        ensures fault { IfOk result (λ p. lists_fault p ≡ None) }
    {
        let mut nodes = NodeList::new(alloc);
        nodes.put(alloc, nodes::root_row(profile, from))?;
        Ok(PlainRows {
            alloc,
            nodes,
            entries: Vec::new(alloc),
            handles: Vec::new(alloc),
            counters: Counters {
                next_node: 2,
                next_fh: 1,
                next_cookie: 3,
                nodes: 1,
                handles: 0,
                room: new_room(profile, capacity),
            },
            settings: None,
            failed: false,
        })
    }

    /// A copy of the rows.
    pub(crate) fn to_copy(&self) -> Result<PlainRows, Memory>
        ensures rows { IfOk result (λ copy. rows_of copy ≡ rows_of self.now) }
        ensures fault { IfOk result (λ copy. lists_fault copy ≡ None) }
    {
        Ok(PlainRows {
            alloc: self.alloc,
            nodes: self.nodes.to_copy(self.alloc)?,
            entries: entries::copies_of(self.alloc, self.entries.as_slice())?,
            handles: Vec::from_slice(self.alloc, self.handles.as_slice())?,
            counters: self.counters,
            settings: self.settings,
            failed: false,
        })
    }

    /// Makes one change.
    pub(crate) fn apply(&mut self, change: Change) -> Result<(), Memory>
        ensures ok { OnOk result (rows_of self.new ≡ apply_one (rows_of self.old) change) }
        ensures err { OnErr result (rows_of self.new ≡ rows_of self.old) }
        ensures fault { lists_fault self.new ≡ lists_fault self.old }
    {
        match change {
            Change::Node(row) => self.put_node(row),
            Change::NodeGone { node } => {
                self.remove_node(node);
                Ok(())
            }
            Change::Entry(entry) => self.add_entry(entry),
            Change::EntryGone { cookie } => {
                self.remove_entry(cookie);
                Ok(())
            }
            Change::Handle(handle) => self.add_handle(handle),
            Change::HandleGone { fh } => {
                self.remove_handle(fh);
                Ok(())
            }
            Change::Written {
                node,
                offset,
                bytes,
            } => self.write_bytes(node, offset, bytes.as_slice()),
            Change::Sized { node, size } => self.set_size(node, size),
            Change::Counters(counters) => {
                self.counters = counters;
                Ok(())
            }
            Change::Settings(settings) => {
                self.settings = Some(settings);
                Ok(())
            }
        }
    }

    /// Makes the changes, one after the other. After an `Err` only some of them are made, so the
    /// rows may be those of no tree.
    pub(crate) fn apply_all(&mut self, changes: ChangeList) -> Result<(), Memory>
        ensures ok { OnOk result (rows_of self.new ≡ apply (rows_of self.old) changes) }
        ensures fault { lists_fault self.new ≡ lists_fault self.old }
    {
        for change in changes.into_vec() {
            self.apply(change)?;
        }
        Ok(())
    }

    /// Begins a mount: handles, settings and the nodes without a name go. No memory is taken.
    pub(crate) fn begin_mount(&mut self)
        ensures rows { rows_of self.new ≡ cleared_rows (rows_of self.old) }
        ensures fault { lists_fault self.new ≡ lists_fault self.old }
    {
        self.counters.room = self.room_left();
        self.nodes.keep_named();
        self.handles.clear();
        self.counters.nodes = self.nodes.len() as u64;
        self.counters.handles = 0;
        self.settings = None;
    }

    // The room without the nodes that have no name.
    fn room_left(&self) -> Option<Room>
        ensures { result ≡ cleared_room (rows_of self.now).nodes (rows_of self.now).counters.room }
    {
        match self.counters.room {
            None => None,
            Some(room) => Some(Room {
                capacity: room.capacity,
                used: self.nodes.left_of(room.used),
            }),
        }
    }

    /// The counters, by a look that cannot fail.
    pub(crate) fn counted(&self) -> Counters
        ensures { result ≡ (rows_of self.now).counters }
    {
        self.counters
    }

    /// The settings that INIT agreed on, by a look that cannot fail.
    pub(crate) fn agreed(&self) -> Option<Settings>
        ensures { result ≡ (rows_of self.now).settings }
    {
        self.settings
    }

    fn put_node(&mut self, row: NodeRow) -> Result<(), Memory>
        ensures ok { OnOk result (rows_of self.new
            ≡ record (rows_of self.old) { nodes = put_node row (rows_of self.old).nodes }) }
        ensures err { OnErr result (rows_of self.new ≡ rows_of self.old) }
        ensures fault { lists_fault self.new ≡ lists_fault self.old }
    {
        self.nodes.put(self.alloc, row)
    }

    fn remove_node(&mut self, node: u64)
        ensures rows { rows_of self.new ≡ record (rows_of self.old) {
          nodes = filter
              (λ f. not (f.row.node == node)) (rows_of self.old).nodes;
        } }
        ensures fault { lists_fault self.new ≡ lists_fault self.old }
    {
        self.nodes.remove(node);
    }

    fn add_entry(&mut self, entry: EntryRow) -> Result<(), Memory>
        ensures ok { OnOk result (rows_of self.new
            ≡ record (rows_of self.old) { entries = (rows_of self.old).entries ++ entry ∷ [] }) }
        ensures err { OnErr result (rows_of self.new ≡ rows_of self.old) }
        ensures fault { lists_fault self.new ≡ lists_fault self.old }
    {
        self.entries.push(entry)?;
        Ok(())
    }

    fn remove_entry(&mut self, cookie: u64)
        ensures rows { rows_of self.new ≡ record (rows_of self.old) {
          entries = filter
              (λ e. not (e.cookie == cookie)) (rows_of self.old).entries;
        } }
        ensures fault { lists_fault self.new ≡ lists_fault self.old }
    {
        entries::remove(&mut self.entries, cookie);
    }

    fn add_handle(&mut self, handle: HandleRow) -> Result<(), Memory>
        ensures ok { OnOk result (rows_of self.new
            ≡ record (rows_of self.old) { handles = (rows_of self.old).handles ++ handle ∷ [] }) }
        ensures err { OnErr result (rows_of self.new ≡ rows_of self.old) }
        ensures fault { lists_fault self.new ≡ lists_fault self.old }
    {
        self.handles.push(handle)?;
        Ok(())
    }

    fn remove_handle(&mut self, fh: u64)
        ensures rows { rows_of self.new ≡ record (rows_of self.old) {
          handles = filter
              (λ h. not (h.fh == fh)) (rows_of self.old).handles;
        } }
        ensures fault { lists_fault self.new ≡ lists_fault self.old }
    {
        handles::remove(&mut self.handles, fh);
    }

    fn write_bytes(&mut self, node: u64, offset: u64, bytes: &[u8]) -> Result<(), Memory>
        ensures ok { OnOk result (rows_of self.new
            ≡ record (rows_of self.old) {
              nodes = map (at_node node (body_written offset bytes.now))
                  (rows_of self.old).nodes;
            }) }
        ensures err { OnErr result (rows_of self.new ≡ rows_of self.old) }
        ensures fault { lists_fault self.new ≡ lists_fault self.old }
    {
        self.nodes.write(self.alloc, node, offset, bytes)
    }

    fn children_of(&self, dir: u64, cookie: u64, limit: usize) -> Result<Vec<Child>, Memory>
        ensures { IfOk result (λ v. v.items ≡ children_after (rows_of self.now) dir cookie limit) }
    {
        let entries = entries::after(self.alloc, self.entries.as_slice(), dir, cookie, limit)?;
        self.nodes.with_rows(self.alloc, entries)
    }

    fn set_size(&mut self, node: u64, size: u64) -> Result<(), Memory>
        ensures ok { OnOk result (rows_of self.new
            ≡ record (rows_of self.old) {
              nodes = map (at_node node (body_sized size))
                  (rows_of self.old).nodes;
            }) }
        ensures err { OnErr result (rows_of self.new ≡ rows_of self.old) }
        ensures fault { lists_fault self.new ≡ lists_fault self.old }
    {
        self.nodes.set_size(self.alloc, node, size)
    }
}

impl Look for PlainRows {
    ghost use Rattle.std.specs.Prelude.{◌≡◌};
    ghost use Rattle.std.proofs.Common.{refl, sym, ◌∙◌};
    ghost use Rattle.fuse_lists.specs.PlainRows.{rows_of, lists_fault};

    ghost sees = { λ p rows. rows_of p ≡ rows };

    ghost fault = { λ p. lists_fault p };

    ghost is_clean = { λ _. Unit {0} };

    ghost looks = { λ a b. rows_of a ≡ rows_of b };

    ghost fails = { λ a b. rows_of a ≡ rows_of b };

    fn node(&mut self, number: u64) -> Result<Option<NodeRow>, LookFault> {
        Ok(self.nodes.row(number))
    }

    fn entry(&mut self, dir: u64, name: &[u8]) -> Result<Option<EntryRow>, LookFault> {
        match entries::found(self.alloc, self.entries.as_slice(), dir, name) {
            Ok(entry) => Ok(entry),
            Err(Memory) => {
                self.failed = true;
                Err(LookFault::Memory)
            }
        }
    }

    fn entries_after(
        &mut self,
        dir: u64,
        cookie: u64,
        limit: usize,
    ) -> Result<Vec<EntryRow>, LookFault> {
        match entries::after(self.alloc, self.entries.as_slice(), dir, cookie, limit) {
            Ok(entries) => Ok(entries),
            Err(Memory) => {
                self.failed = true;
                Err(LookFault::Memory)
            }
        }
    }

    fn children_after(
        &mut self,
        dir: u64,
        cookie: u64,
        limit: usize,
    ) -> Result<Vec<Child>, LookFault> {
        match self.children_of(dir, cookie, limit) {
            Ok(children) => Ok(children),
            Err(Memory) => {
                self.failed = true;
                Err(LookFault::Memory)
            }
        }
    }

    fn handle(&mut self, fh: u64) -> Result<Option<HandleRow>, LookFault> {
        Ok(handles::found(self.handles.as_slice(), fh))
    }

    fn handles_of(&mut self, node: u64, limit: usize) -> Result<Vec<HandleRow>, LookFault> {
        match handles::at_node(self.alloc, self.handles.as_slice(), node, limit) {
            Ok(handles) => Ok(handles),
            Err(Memory) => {
                self.failed = true;
                Err(LookFault::Memory)
            }
        }
    }

    fn bytes(&mut self, node: u64, offset: u64, len: u32) -> Result<ByteList, LookFault> {
        match self.nodes.bytes(self.alloc, node, offset, len) {
            Ok(bytes) => Ok(bytes),
            Err(Memory) => {
                self.failed = true;
                Err(LookFault::Memory)
            }
        }
    }

    fn blocks_between(&mut self, node: u64, from: u64, to: u64) -> Result<u64, LookFault> {
        Ok(self.nodes.blocks_between(node, from, to))
    }

    fn counters(&mut self) -> Result<Counters, LookFault> {
        Ok(self.counters)
    }

    fn agreement(&mut self) -> Result<Agreement, LookFault> {
        Ok(Agreement {
            profile: self.counters.profile(),
            settings: self.settings,
        })
    }

    fn failed(&self) -> Option<LookFault> {
        if self.failed {
            Some(LookFault::Memory)
        } else {
            None
        }
    }

    ghost still = { λ a. refl };

    ghost and_then = { λ a b d p q. p ∙ q };

    ghost and_fails = { λ a b d p q. p ∙ q };

    ghost or_less = { λ a b p. p };

    ghost was_clean = { λ a b p clean. tt };

    ghost kept = { λ a b p clean rows e. sym p ∙ e };
}

ghost use Rattle.std.specs.Prelude.{◌≡◌};
ghost use Rattle.std.specs.Option.{option_map};
ghost use Rattle.fuse_tree.specs.State.{capacity_for};

// The room of a new store, which has no blocks in use.
fn new_room(profile: Profile, capacity: u64) -> Option<Room>
    ensures { result ≡ option_map (λ c. record { capacity = c; used = 0 })
        (capacity_for profile capacity) }
{
    match profile {
        Profile::Plain => None,
        Profile::Everyday => Some(Room { capacity, used: 0 }),
    }
}
