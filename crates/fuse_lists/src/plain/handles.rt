ghost use Rattle.std.specs.Prelude.{◌≡◌, ◌==◌, not, filter, take, IfOk, OnOk, List, [], ◌∷◌, ◌++◌};
ghost use Rattle.fuse_rows.specs.declared.rows.HandleRow.{HandleRow};
ghost use Rattle.fuse_rows.specs.Rows.{handle_at, handles_of};

use fuse_rows::HandleRow;
use fuse_wire::Memory;
use std::alloc::Global;

pub(super) fn found(handles: &[HandleRow], fh: u64) -> Option<HandleRow>
    ensures { result ≡ handle_at handles.now fh }
{
    for handle in handles {
        if handle.fh == fh {
            return Some(*handle);
        }
    }
    None
}

// One more of at most `limit` handles.
fn push_row(found: &mut Vec<HandleRow>, limit: usize, handle: &HandleRow) -> Result<(), Memory>
    ensures { OnOk result ((all : List HandleRow) → found.old.items ≡ take limit all
        → found.new.items ≡ take limit (all ++ handle.now ∷ [])) }
{
    if found.len() < limit {
        found.push(*handle)?;
    }
    Ok(())
}

pub(super) fn at_node(
    alloc: Global,
    handles: &[HandleRow],
    node: u64,
    limit: usize,
) -> Result<Vec<HandleRow>, Memory>
    ensures { IfOk result (λ found. found.items ≡ handles_of handles.now node limit) }
{
    let mut found = Vec::new(alloc);
    for handle in handles {
        if handle.node == node {
            push_row(&mut found, limit, handle)?;
        }
    }
    Ok(found)
}

pub(super) fn remove(handles: &mut Vec<HandleRow>, fh: u64)
    ensures { handles.new.items ≡ filter (λ h. not (h.fh == fh)) handles.old.items }
{
    handles.retain(|handle| handle.fh != fh);
}
