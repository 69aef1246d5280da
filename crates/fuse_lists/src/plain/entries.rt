ghost use Rattle.std.specs.Prelude.{◌≡◌, ◌==◌, Some, IfOk, OnOk, List, [], ◌∷◌, ◌++◌, not, filter};
ghost use Rattle.std.specs.Prelude.{take};
ghost use Rattle.fuse_rows.specs.Rows.{is_entry};
ghost use Rattle.fuse_rows.specs.Rows.{entry_at, is_after};
ghost use Rattle.fuse_rows.specs.declared.rows.EntryRow.{EntryRow};

use fuse_rows::EntryRow;
use fuse_wire::Memory;
use std::alloc::Global;

pub(super) fn remove(entries: &mut Vec<EntryRow>, cookie: u64)
    ensures { entries.new.items ≡ filter (λ e. not (e.cookie == cookie)) entries.old.items }
{
    entries.retain(|entry| entry.cookie != cookie);
}

fn copy_of(alloc: Global, entry: &EntryRow) -> Result<EntryRow, Memory>
    ensures { IfOk result (λ copy. copy ≡ entry.now) }
{
    Ok(EntryRow {
        dir: entry.dir,
        name: entry.name.to_copy(alloc)?,
        child: entry.child,
        cookie: entry.cookie,
    })
}

pub(super) fn copies_of(alloc: Global, entries: &[EntryRow]) -> Result<Vec<EntryRow>, Memory>
    ensures { IfOk result (λ copies. copies.items ≡ entries.now) }
{
    let mut copies = Vec::with_capacity(alloc, entries.len())?;
    for entry in entries {
        copies.push(copy_of(alloc, entry)?)?;
    }
    Ok(copies)
}

fn is_at(entry: &EntryRow, dir: u64, name: &[u8]) -> bool
    ensures { result ≡ is_entry dir name.now entry.now }
{
    entry.dir == dir && entry.name.as_slice() == name
}

fn found_copy(alloc: Global, entry: &EntryRow) -> Result<Option<EntryRow>, Memory>
    ensures { IfOk result (λ found. found ≡ Some entry.now) }
{
    Ok(Some(copy_of(alloc, entry)?))
}

pub(super) fn found(
    alloc: Global,
    entries: &[EntryRow],
    dir: u64,
    name: &[u8],
) -> Result<Option<EntryRow>, Memory>
    ensures { IfOk result (λ found. found ≡ entry_at entries.now dir name.now) }
{
    for entry in entries {
        if is_at(entry, dir, name) {
            return found_copy(alloc, entry);
        }
    }
    Ok(None)
}

fn is_later(entry: &EntryRow, dir: u64, cookie: u64) -> bool
    ensures { result ≡ is_after dir cookie entry.now }
{
    entry.dir == dir && entry.cookie > cookie
}

// One more of at most `limit` entries.
fn push_copy(
    alloc: Global,
    found: &mut Vec<EntryRow>,
    limit: usize,
    entry: &EntryRow,
) -> Result<(), Memory>
    ensures { OnOk result ((all : List EntryRow) → found.old.items ≡ take limit all
        → found.new.items ≡ take limit (all ++ entry.now ∷ [])) }
{
    if found.len() < limit {
        found.push(copy_of(alloc, entry)?)?;
    }
    Ok(())
}

pub(super) fn after(
    alloc: Global,
    entries: &[EntryRow],
    dir: u64,
    cookie: u64,
    limit: usize,
) -> Result<Vec<EntryRow>, Memory>
    ensures { IfOk result (λ found. found.items ≡ take limit (filter (is_after dir cookie)
        entries.now)) }
{
    let mut found = Vec::new(alloc);
    for entry in entries {
        if is_later(entry, dir, cookie) {
            push_copy(alloc, &mut found, limit, entry)?;
        }
    }
    Ok(found)
}
