// The reads of `plan`, from the tables.
ghost use Rattle.std.specs.Prelude.{ℕ, List, IsTrue, ◌≡◌, ◌<◌, ◌≤◌, ◌^◌, None, Some, Option};
ghost use Rattle.std.specs.Prelude.{IfSome, IfOk, IfErr};
ghost use Rattle.std.specs.Prelude.{OnOk, OnErr};
ghost use Rattle.sqlite.specs.State.{HasCleanDisk};
ghost use Rattle.sqlite.specs.Held.{state};
ghost use Rattle.fuse_store_tables.specs.Faults.{IsOutside, IsPlain};
ghost use Rattle.fuse_store_tables.specs.Moves.{Stays};
ghost use Rattle.fuse_rows.specs.Bounds.{file_limit};
ghost use Rattle.fuse_rows.specs.Rows.{Rows, row_at, bytes_at};
ghost use Rattle.fuse_tree.specs.Rowed.{IsRowed};
ghost use Rattle.fuse_store_tree.specs.Holding.{Holding};
ghost use Rattle.fuse_store_tree.specs.Knowing.{Knows, Recalls, knowing, meta_of};
ghost use Rattle.fuse_store_tree.specs.Looking.{as_look_fault, told_as, sees_in, WentWell};
ghost use Rattle.fuse_store_tree.specs.Pieces.{ReadsFile};
ghost use Rattle.fuse_store_tree.specs.inner.Changing.{InsideFor};

use crate::block_counts::count_between;
use crate::bounds::END;
use crate::contents::Contents;
use crate::counters::find_meta;
use crate::entries::{find_after, find_children};
use crate::handles::find_handles_of;
use crate::meta::{Meta, agreement_of};
use crate::piece_cuts::Gone;
use crate::range_reads::{find_bytes, find_sized};
use crate::rows::{find_entry, find_handle, find_node};
use fuse_keeper::StoreFault;
use fuse_plan::rows_of_trees;
use fuse_rows::{Child, Counters, EntryRow, HandleRow, MAX_FILE, NodeRow};
use fuse_tree::{Agreement, Look, LookFault};
use fuse_wire::ByteList;
use sqlite::{Alter, Connection};
use std::alloc::Global;

/// What a look for a node found.
#[derive(Clone, Copy)]
pub struct LastNode {
    pub number: u64,
    pub row: Option<NodeRow>,
}

/// The tables within a transaction, as `plan` reads them.
#[derive(Drop)]
pub struct TableLook<S: Alter, C: Contents> {
    /// The allocator of the values that are read.
    pub alloc: Global,
    pub conn: Connection<S>,
    /// The contents of files that aren't in the tables.
    pub contents: C,
    /// What the open transaction takes off the list of pieces.
    pub gone: Gone,
    /// The fault of the first read that failed.
    pub fault: Option<StoreFault>,
    /// What is known of the table `meta`, which is read where nothing is.
    pub known: Option<Meta>,
    /// What the last look for a node found, which saves another one for its size.
    pub last: Option<LastNode>,
}

// The fault of a read, as `plan` gets it.
fn told_fault(fault: &StoreFault) -> LookFault
    ensures { result ≡ told_as fault.now }
{
    match fault {
        StoreFault::Memory => LookFault::Memory,
        StoreFault::Sql(_) => LookFault::Failed,
        StoreFault::NotAStore => LookFault::Failed,
        StoreFault::Version(_) => LookFault::Failed,
        StoreFault::Damaged => LookFault::Failed,
        StoreFault::Guest => LookFault::Failed,
    }
}

impl<S: Alter, C: Contents> TableLook<S, C> {
    /// Allocates nothing.
    pub fn new(alloc: Global, conn: Connection<S>, contents: C) -> TableLook<S, C>
        ensures conn { result.conn ≡ conn }
        ensures contents { result.contents ≡ contents }
        ensures fault { as_look_fault result.fault ≡ None }
        ensures known { result.known ≡ None }
        ensures last { result.last ≡ None }
    {
        TableLook {
            alloc,
            conn,
            contents,
            gone: Gone::new(alloc),
            fault: None,
            known: None,
            last: None,
        }
    }

    /// The fault of the first read that failed, which is then forgotten.
    pub(crate) fn take_fault(&mut self) -> Option<StoreFault>
        ensures was { result ≡ self.old.fault }
        ensures fault { as_look_fault self.new.fault ≡ None }
        ensures conn { self.new.conn ≡ self.old.conn }
        ensures contents { self.new.contents ≡ self.old.contents }
    {
        self.fault.take()
    }

    // The counters and the settings, as they are known or read.
    fn find_meta(&mut self) -> Result<Meta, StoreFault>
        ensures looks { OnOk result (WentWell
            (knowing self.old.known (state S.Store self.old.conn)
            (C.Contents.file self.old.contents))
            (knowing self.new.known (state S.Store self.new.conn)
            (C.Contents.file self.new.contents))
            self.old.fault self.new.fault self.old.last self.new.last) }
        ensures fails { OnErr result (Stays (state S.Store self.old.conn)
            (state S.Store self.new.conn)) }
        ensures value { HasCleanDisk (state S.Store self.new.conn) → IfOk result (λ meta.
            (file : List ℕ) (rows : Rows) → sees_in file (state S.Store self.old.conn) rows
            → Knows self.old.known rows → meta ≡ meta_of rows) }
        ensures fault { HasCleanDisk (state S.Store self.new.conn) → IfErr result (λ f.
            (file : List ℕ) (y : Holding) → InsideFor file y (state S.Store self.old.conn)
            → IsOutside f) }
        ensures plain { IfErr result IsPlain }
        ensures same { self.new.fault ≡ self.old.fault }
        ensures reads { ReadsFile (C.Contents.file self.old.contents)
            (C.Contents.file self.new.contents) }
    {
        if let Some(meta) = self.known {
            return Ok(meta);
        }
        match find_meta(&mut self.conn) {
            Ok(meta) => {
                self.known = Some(meta);
                Ok(meta)
            }
            Err(fault) => Err(fault),
        }
    }

    // The row of this node, if it was looked up last.
    fn last_row(&self, node: u64) -> Option<NodeRow>
        ensures node { IfSome result (λ _. node < 2 ^ 63) }
        ensures size { IfSome result (λ n. n.size ≤ file_limit) }
        ensures value { IfSome result (λ n. (rows : Rows) → IsRowed rows
            → Recalls self.now.last rows → row_at rows node ≡ Some n) }
    {
        match self.last {
            Some(
                LastNode {
                    number,
                    row: Some(row),
                },
            ) if number == node && node < END && row.size <= MAX_FILE => { Some(row) }
            _ => None,
        }
    }

    // At most `len` bytes of a node's content, whose size is known or read.
    fn find_bytes(&mut self, node: u64, offset: u64, len: u32) -> Result<ByteList, StoreFault>
        ensures looks { OnOk result (WentWell
            (knowing self.old.known (state S.Store self.old.conn)
            (C.Contents.file self.old.contents))
            (knowing self.new.known (state S.Store self.new.conn)
            (C.Contents.file self.new.contents))
            self.old.fault self.new.fault self.old.last self.new.last) }
        ensures fails { OnErr result (Stays (state S.Store self.old.conn)
            (state S.Store self.new.conn)) }
        ensures value { HasCleanDisk (state S.Store self.new.conn)
            → IsTrue (C.Contents.file self.new.contents).is_clean → IfOk result (λ bytes.
            (rows : Rows) → IsRowed rows
            → sees_in (C.Contents.file self.new.contents).bytes (state S.Store self.old.conn) rows
            → Recalls self.old.last rows → bytes ≡ bytes_at rows node offset len) }
        ensures fault { HasCleanDisk (state S.Store self.new.conn)
            → IsTrue (C.Contents.file self.new.contents).is_clean → IfErr result (λ f.
            (y : Holding) → InsideFor (C.Contents.file self.new.contents).bytes y
            (state S.Store self.old.conn) → IsOutside f) }
        ensures plain { IfErr result IsPlain }
        ensures same { self.new.fault ≡ self.old.fault }
        ensures reads { ReadsFile (C.Contents.file self.old.contents)
            (C.Contents.file self.new.contents) }
    {
        match self.last_row(node) {
            Some(row) => find_sized(
                &mut self.conn,
                &mut self.contents,
                self.alloc,
                node,
                row.size,
                offset,
                len,
            ),
            None => find_bytes(
                &mut self.conn,
                &mut self.contents,
                self.alloc,
                node,
                offset,
                len,
            ),
        }
    }

    // Keeps the fault.
    fn fail(&mut self, fault: StoreFault) -> LookFault
        ensures kept { self.new.fault ≡ Some fault }
        ensures fault { as_look_fault self.new.fault ≡ Some result }
        ensures conn { self.new.conn ≡ self.old.conn }
        ensures contents { self.new.contents ≡ self.old.contents }
    {
        let known = told_fault(&fault);
        self.fault = Some(fault);
        known
    }
}

impl<S: Alter, C: Contents> Look for TableLook<S, C> {
    ghost use Rattle.std.specs.Prelude.{IsTrue};
    ghost use Rattle.fuse_store_tree.specs.Knowing.{knowing};
    ghost use Rattle.fuse_store_tree.specs.Looking.{sees_with, WentWell, MayFail};
    ghost use Rattle.fuse_store_tree.specs.inner.Laws.{well_still, well_then, well_fails};
    ghost use Rattle.fuse_store_tree.specs.inner.Laws.{well_less, well_clean, well_kept};

    ghost sees = { λ k rows. sees_with (C.Contents.file k.contents).bytes k.known k.last
        (state S.Store k.conn) rows };

    ghost fault = { λ k. as_look_fault k.fault };

    ghost is_clean = { λ k. HasCleanDisk (state S.Store k.conn)
        × IsTrue (C.Contents.file k.contents).is_clean };

    ghost looks = { λ a b. WentWell
        (knowing a.known (state S.Store a.conn) (C.Contents.file a.contents))
        (knowing b.known (state S.Store b.conn) (C.Contents.file b.contents))
        a.fault b.fault a.last b.last };

    ghost fails = { λ a b. MayFail
        (knowing a.known (state S.Store a.conn) (C.Contents.file a.contents))
        (knowing b.known (state S.Store b.conn) (C.Contents.file b.contents))
        a.fault b.fault };

    fn node(&mut self, number: u64) -> Result<Option<NodeRow>, LookFault> {
        match find_node(&mut self.conn, number) {
            Ok(row) => {
                self.last = Some(LastNode { number, row });
                Ok(row)
            }
            Err(fault) => Err(self.fail(fault)),
        }
    }

    fn entry(&mut self, dir: u64, name: &[u8]) -> Result<Option<EntryRow>, LookFault> {
        match find_entry(&mut self.conn, self.alloc, dir, name) {
            Ok(row) => Ok(row),
            Err(fault) => Err(self.fail(fault)),
        }
    }

    fn entries_after(
        &mut self,
        dir: u64,
        cookie: u64,
        limit: usize,
    ) -> Result<Vec<EntryRow>, LookFault> {
        match find_after(&mut self.conn, self.alloc, dir, cookie, limit) {
            Ok(rows) => Ok(rows),
            Err(fault) => Err(self.fail(fault)),
        }
    }

    fn children_after(
        &mut self,
        dir: u64,
        cookie: u64,
        limit: usize,
    ) -> Result<Vec<Child>, LookFault> {
        match find_children(&mut self.conn, self.alloc, dir, cookie, limit) {
            Ok(children) => Ok(children),
            Err(fault) => Err(self.fail(fault)),
        }
    }

    fn handle(&mut self, fh: u64) -> Result<Option<HandleRow>, LookFault> {
        match find_handle(&mut self.conn, fh) {
            Ok(row) => Ok(row),
            Err(fault) => Err(self.fail(fault)),
        }
    }

    fn handles_of(&mut self, node: u64, limit: usize) -> Result<Vec<HandleRow>, LookFault> {
        match find_handles_of(&mut self.conn, self.alloc, node, limit) {
            Ok(rows) => Ok(rows),
            Err(fault) => Err(self.fail(fault)),
        }
    }

    fn bytes(&mut self, node: u64, offset: u64, len: u32) -> Result<ByteList, LookFault> {
        match self.find_bytes(node, offset, len) {
            Ok(bytes) => Ok(bytes),
            Err(fault) => Err(self.fail(fault)),
        }
    }

    fn blocks_between(&mut self, node: u64, from: u64, to: u64) -> Result<u64, LookFault> {
        rows_of_trees();
        match count_between(&mut self.conn, node, from, to) {
            Ok(count) => Ok(count),
            Err(fault) => Err(self.fail(fault)),
        }
    }

    fn counters(&mut self) -> Result<Counters, LookFault> {
        match self.find_meta() {
            Ok(meta) => Ok(meta.counters),
            Err(fault) => Err(self.fail(fault)),
        }
    }

    fn agreement(&mut self) -> Result<Agreement, LookFault> {
        match self.find_meta() {
            Ok(meta) => Ok(agreement_of(meta)),
            Err(fault) => Err(self.fail(fault)),
        }
    }

    fn failed(&self) -> Option<LookFault> {
        match &self.fault {
            None => None,
            Some(fault) => Some(told_fault(fault)),
        }
    }

    ghost still = { λ a. well_still _ _ _ };

    ghost and_then = { λ a b d p q. well_then _ _ _ _ _ _ p _ _ _ q };

    ghost and_fails = { λ a b d p q. well_fails _ _ _ _ _ _ p _ _ q };

    ghost or_less = { λ a b p. well_less _ _ _ _ _ _ p };

    ghost was_clean = { λ a b p clean. well_clean _ _ _ _ _ _ p clean };

    ghost kept = { λ a b p clean rows sees. well_kept _ _ _ _ _ _ p clean rows sees };
}
