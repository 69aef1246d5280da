ghost use Rattle.std.specs.Prelude.{◌≡◌, None, IfOk, OnOk, OnErr, Option};
ghost use Rattle.std.specs.Result.{result_err};
ghost use Rattle.fuse_rows.specs.Rows.{Rows, row_at, entry_at, entries_after, handle_at};
ghost use Rattle.fuse_tree.specs.Rowed.{IsRowed};
ghost use Rattle.fuse_rows.specs.Rows.{bytes_at, children_after, handles_of, blocks_between};
ghost use Rattle.fuse_tree.specs.Keeping.{agreement_at};
ghost use Rattle.fuse_tree.specs.declared.look.LookFault.{LookFault};

use crate::agreement::Agreement;
use fuse_rows::{Child, Counters, EntryRow, HandleRow, NodeRow};
use fuse_wire::ByteList;

/// Why a look failed.
#[derive(Clone, Copy, Debug, PartialEq, Eq)]
pub enum LookFault {
    Memory,
    /// Its store has failed.
    Failed,
}

/// Rows of a tree, wherever they are kept.
///
/// Where it is clean and sees the rows of a tree, an `Ok` reports these rows, and they stay in
/// view. A fault stays: after it nothing is looked up any more.
pub trait Look {
    /// It sees these rows.
    ghost sees: { Self → Rows → Type 0 };

    /// The fault of a look, once there was one.
    ghost fault: { Self → Option LookFault };

    /// It has taken no wrong answer of its store.
    ghost is_clean: { Self → Type 0 };

    /// Nothing but looks that went well lie between the two.
    ghost looks: { Self → Self → Type 0 };

    /// Nothing but looks lie between the two, of which the last may have failed.
    ghost fails: { Self → Self → Type 0 };

    /// The row of this node.
    fn node(&mut self, number: u64) -> Result<Option<NodeRow>, LookFault>
        requires { fault self.old ≡ None }
        ensures row { is_clean self.new → (rows : Rows) → IsRowed rows → sees self.old rows
            → IfOk result (λ row. row ≡ row_at rows number) }
        ensures fault { fault self.new ≡ result_err result }
        ensures looks { OnOk result (looks self.old self.new) }
        ensures fails { OnErr result (fails self.old self.new) };

    /// The entry of this name in the directory.
    fn entry(&mut self, dir: u64, name: &[u8]) -> Result<Option<EntryRow>, LookFault>
        requires { fault self.old ≡ None }
        ensures row { is_clean self.new → (rows : Rows) → IsRowed rows → sees self.old rows
            → IfOk result (λ row. row ≡ entry_at rows.entries dir name.now) }
        ensures fault { fault self.new ≡ result_err result }
        ensures looks { OnOk result (looks self.old self.new) }
        ensures fails { OnErr result (fails self.old self.new) };

    /// At most `limit` entries of the directory with a cookie above this one, in rising order.
    fn entries_after(
        &mut self,
        dir: u64,
        cookie: u64,
        limit: usize,
    ) -> Result<Vec<EntryRow>, LookFault>
        requires { fault self.old ≡ None }
        ensures rows { is_clean self.new → (rows : Rows) → IsRowed rows → sees self.old rows
            → IfOk result (λ v. v.items ≡ entries_after rows dir cookie limit) }
        ensures fault { fault self.new ≡ result_err result }
        ensures looks { OnOk result (looks self.old self.new) }
        ensures fails { OnErr result (fails self.old self.new) };

    /// The same entries, each with the row of the node that it leads to.
    fn children_after(
        &mut self,
        dir: u64,
        cookie: u64,
        limit: usize,
    ) -> Result<Vec<Child>, LookFault>
        requires { fault self.old ≡ None }
        ensures rows { is_clean self.new → (rows : Rows) → IsRowed rows → sees self.old rows
            → IfOk result (λ v. v.items ≡ children_after rows dir cookie limit) }
        ensures fault { fault self.new ≡ result_err result }
        ensures looks { OnOk result (looks self.old self.new) }
        ensures fails { OnErr result (fails self.old self.new) };

    /// The row of this handle.
    fn handle(&mut self, fh: u64) -> Result<Option<HandleRow>, LookFault>
        requires { fault self.old ≡ None }
        ensures row { is_clean self.new → (rows : Rows) → IsRowed rows → sees self.old rows
            → IfOk result (λ row. row ≡ handle_at rows.handles fh) }
        ensures fault { fault self.new ≡ result_err result }
        ensures looks { OnOk result (looks self.old self.new) }
        ensures fails { OnErr result (fails self.old self.new) };

    /// At most `limit` handles of the node, in rising order.
    fn handles_of(&mut self, node: u64, limit: usize) -> Result<Vec<HandleRow>, LookFault>
        requires { fault self.old ≡ None }
        ensures rows { is_clean self.new → (rows : Rows) → IsRowed rows → sees self.old rows
            → IfOk result (λ v. v.items ≡ handles_of rows.handles node limit) }
        ensures fault { fault self.new ≡ result_err result }
        ensures looks { OnOk result (looks self.old self.new) }
        ensures fails { OnErr result (fails self.old self.new) };

    /// At most `len` bytes of the node's content, from `offset` on.
    fn bytes(&mut self, node: u64, offset: u64, len: u32) -> Result<ByteList, LookFault>
        requires { fault self.old ≡ None }
        ensures bytes { is_clean self.new → (rows : Rows) → IsRowed rows → sees self.old rows
            → IfOk result (λ bytes. bytes ≡ bytes_at rows node offset len) }
        ensures fault { fault self.new ≡ result_err result }
        ensures looks { OnOk result (looks self.old self.new) }
        ensures fails { OnErr result (fails self.old self.new) };

    /// How many blocks of the node were written, from the block `from` on and below `to`.
    fn blocks_between(&mut self, node: u64, from: u64, to: u64) -> Result<u64, LookFault>
        requires { fault self.old ≡ None }
        ensures count { is_clean self.new → (rows : Rows) → IsRowed rows → sees self.old rows
            → IfOk result (λ count. count ≡ blocks_between rows node from to) }
        ensures fault { fault self.new ≡ result_err result }
        ensures looks { OnOk result (looks self.old self.new) }
        ensures fails { OnErr result (fails self.old self.new) };

    /// The numbers that are given out next, and how many nodes and handles there are.
    fn counters(&mut self) -> Result<Counters, LookFault>
        requires { fault self.old ≡ None }
        ensures row { is_clean self.new → (rows : Rows) → IsRowed rows → sees self.old rows
            → IfOk result (λ row. row ≡ rows.counters) }
        ensures fault { fault self.new ≡ result_err result }
        ensures looks { OnOk result (looks self.old self.new) }
        ensures fails { OnErr result (fails self.old self.new) };

    /// The profile of the tree, and the settings that INIT agreed on.
    fn agreement(&mut self) -> Result<Agreement, LookFault>
        requires { fault self.old ≡ None }
        ensures row { is_clean self.new → (rows : Rows) → IsRowed rows → sees self.old rows
            → IfOk result (λ row. row ≡ agreement_at rows) }
        ensures fault { fault self.new ≡ result_err result }
        ensures looks { OnOk result (looks self.old self.new) }
        ensures fails { OnErr result (fails self.old self.new) };

    /// The fault of a look, once there was one. No memory is taken.
    fn failed(&self) -> Option<LookFault>
        ensures { result ≡ fault self.now };

    ghost still: { (a : Self) → looks a a };

    ghost and_then: { (a b d : Self) → looks a b → looks b d → looks a d };

    ghost and_fails: { (a b d : Self) → looks a b → fails b d → fails a d };

    /// A fault that isn't of a look comes after looks that went well.
    ghost or_less: { (a b : Self) → looks a b → fails a b };

    /// Looks that left it clean found it clean.
    ghost was_clean: { (a b : Self) → looks a b → is_clean b → is_clean a };

    /// Looks change nothing of the rows that it sees.
    ghost kept: { (a b : Self) → looks a b → is_clean b → (rows : Rows) → sees a rows
        → sees b rows };
}
