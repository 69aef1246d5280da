ghost use Rattle.std.specs.Prelude.{◌≡◌, true, false, None, is_some, IfOk, IfSome};
ghost use Rattle.fuse_rows.specs.Rows.{row_at, entry_at, handle_at};
ghost use Rattle.fuse_tree.specs.Keeping.{agreement_at};
ghost use Rattle.fuse_tree.specs.Handles.{access_at, is_open};
ghost use Rattle.fuse_plan.specs.inner.Reading as reading;
ghost use Rattle.fuse_plan.specs.inner.Reading.{IsWithin, child_at, LooksUp, view};
ghost use Rattle.fuse_tree.specs.Removing as removing;
ghost use Rattle.fuse_plan.specs.inner.PlanRemoving.{link_at};

use super::attributes::count_of;
use super::fault::PlanFault;
use fuse_init::Profile;
use fuse_rows::{Counters, EntryRow, HandleRow, MAX_BLOCKS, MAX_FILE, MAX_NODES, NodeRow};
use fuse_tree::{Agreement, Look, max_file, max_nodes};
use fuse_wire::AccessMode;

/// An entry that was looked up: its cookie, and the row of its child.
#[derive(Clone, Copy)]
pub struct Link {
    pub cookie: u64,
    pub child: NodeRow,
}

// The row of a node, within the bounds of every profile.
#[tactic(auto, using(crate::proofs::Within::row_within))]
pub(crate) fn find_node<L: Look>(look: &mut L, number: u64) -> Result<Option<NodeRow>, PlanFault>
    requires { L.fault look.old ≡ None }
    ensures row { LooksUp (view L.is_clean L.sees L.fault L.looks L.fails) look.old look.new result
        (λ rows. row_at rows number) }
    ensures within { IfOk result (λ row. IfSome row IsWithin) }
{
    let Some(row) = look.node(number)? else {
        return Ok(None);
    };
    if is_beyond(&row) {
        return Err(PlanFault::NotATree);
    }
    Ok(Some(row))
}

// Whether the row is beyond the bounds of every profile.
pub(crate) fn is_beyond(row: &NodeRow) -> bool
    ensures beyond { result ≡ true → ¬ IsWithin row.now }
    ensures within { result ≡ false → IsWithin row.now }
{
    row.size > MAX_FILE || u64::from(row.subdirs) > MAX_NODES || count_of(row) > MAX_BLOCKS
}

// Whether the row is within the bounds of this profile.
pub(crate) fn is_within(profile: Profile, row: &NodeRow) -> bool
    ensures { result ≡ reading.is_within profile row.now }
{
    row.size <= max_file(profile)
        && u64::from(row.subdirs) <= max_nodes(profile)
        && count_of(row) <= MAX_BLOCKS
}

fn find_entry<L: Look>(look: &mut L, dir: u64, name: &[u8]) -> Result<Option<EntryRow>, PlanFault>
    requires { L.fault look.old ≡ None }
    ensures { LooksUp (view L.is_clean L.sees L.fault L.looks L.fails) look.old look.new result
        (λ rows. entry_at rows.entries dir name.now) }
{
    Ok(look.entry(dir, name)?)
}

// Whether the name stands in the directory.
pub(crate) fn is_taken<L: Look>(look: &mut L, dir: u64, name: &[u8]) -> Result<bool, PlanFault>
    requires { L.fault look.old ≡ None }
    ensures { LooksUp (view L.is_clean L.sees L.fault L.looks L.fails) look.old look.new result
        (λ rows. is_some (entry_at rows.entries dir name.now)) }
{
    Ok(find_entry(look, dir, name)?.is_some())
}

// The entry of this name in the directory, with the row of its child.
#[tactic(auto, using(crate::proofs::Bounds::child_row))]
pub(crate) fn find_link<L: Look>(
    look: &mut L,
    dir: u64,
    name: &[u8],
) -> Result<Option<Link>, PlanFault>
    requires { L.fault look.old ≡ None }
    ensures row { LooksUp (view L.is_clean L.sees L.fault L.looks L.fails) look.old look.new result
        (λ rows. link_at rows dir name.now) }
    ensures within { IfOk result (λ link. IfSome link (λ l. IsWithin l.child)) }
{
    let Some(entry) = find_entry(look, dir, name)? else {
        return Ok(None);
    };
    let Some(child) = find_node(look, entry.child)? else {
        return Err(PlanFault::NotATree);
    };
    Ok(Some(Link {
        cookie: entry.cookie,
        child,
    }))
}

// The row of the node under this name in the directory.
pub(crate) fn find_child<L: Look>(
    look: &mut L,
    dir: u64,
    name: &[u8],
) -> Result<Option<NodeRow>, PlanFault>
    requires { L.fault look.old ≡ None }
    ensures row { LooksUp (view L.is_clean L.sees L.fault L.looks L.fails) look.old look.new result
        (λ rows. child_at rows dir name.now) }
    ensures within { IfOk result (λ row. IfSome row IsWithin) }
{
    let Some(link) = find_link(look, dir, name)? else {
        return Ok(None);
    };
    Ok(Some(link.child))
}

// Whether an entry stands in the directory.
pub(crate) fn has_entries<L: Look>(look: &mut L, dir: u64) -> Result<bool, PlanFault>
    requires { L.fault look.old ≡ None }
    ensures { LooksUp (view L.is_clean L.sees L.fault L.looks L.fails) look.old look.new result
        (λ rows. removing.has_entries rows.entries dir) }
{
    Ok(!look.entries_after(dir, 0, 1)?.is_empty())
}

pub(crate) fn find_counters<L: Look>(look: &mut L) -> Result<Counters, PlanFault>
    requires { L.fault look.old ≡ None }
    ensures { LooksUp (view L.is_clean L.sees L.fault L.looks L.fails) look.old look.new result
        (λ rows. rows.counters) }
{
    Ok(look.counters()?)
}

pub(crate) fn find_handle<L: Look>(look: &mut L, fh: u64) -> Result<Option<HandleRow>, PlanFault>
    requires { L.fault look.old ≡ None }
    ensures { LooksUp (view L.is_clean L.sees L.fault L.looks L.fails) look.old look.new result
        (λ rows. handle_at rows.handles fh) }
{
    Ok(look.handle(fh)?)
}

// The access of the handle at this node. `None` where it is not open, or is of another node.
pub(crate) fn find_access<L: Look>(
    look: &mut L,
    fh: u64,
    node: u64,
) -> Result<Option<AccessMode>, PlanFault>
    requires { L.fault look.old ≡ None }
    ensures { LooksUp (view L.is_clean L.sees L.fault L.looks L.fails) look.old look.new result
        (λ rows. access_at rows.handles fh node) }
{
    match find_handle(look, fh)? {
        Some(handle) if handle.node == node => Ok(Some(handle.access)),
        _ => Ok(None),
    }
}

// Whether the handle is open at this node.
pub(crate) fn is_open_at<L: Look>(look: &mut L, fh: u64, node: u64) -> Result<bool, PlanFault>
    requires { L.fault look.old ≡ None }
    ensures { LooksUp (view L.is_clean L.sees L.fault L.looks L.fails) look.old look.new result
        (λ rows. is_open rows.handles fh node) }
{
    Ok(find_access(look, fh, node)?.is_some())
}

// The profile of the tree, and what INIT agreed on.
pub(crate) fn find_agreement<L: Look>(look: &mut L) -> Result<Agreement, PlanFault>
    requires { L.fault look.old ≡ None }
    ensures { LooksUp (view L.is_clean L.sees L.fault L.looks L.fails) look.old look.new result
        (λ rows. agreement_at rows) }
{
    Ok(look.agreement()?)
}
