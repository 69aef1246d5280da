// The tables and the indexes, compared with those of the layout.
ghost use Rattle.std.specs.Prelude.{◌≡◌, [], ◌∷◌, codes, Decides};
ghost use Rattle.fuse_store_tables.specs.Layout.{number_column, meta, nodes, entries, blocks};
ghost use Rattle.fuse_store_tables.specs.Layout.{handles};
ghost use Rattle.fuse_store_tables.specs.Layout.{answers, lots, kept};
ghost use Rattle.fuse_store_tables.specs.inner.Shapes.{node_times, first_indexes, last_indexes};
ghost use Rattle.fuse_store_tables.specs.inner.Shapes.{all_indexes, first_tables, all_tables};

use crate::shapes::{
    are_plain_twice, is_bytes, is_index, is_key, is_keyed, is_no_stamp, is_none, is_number,
    is_one_reference, is_places, is_plain_once, is_reference, is_to_nodes,
};
use sqlite_items::Items;
use sqlite_schema::schema::{Column, Index, Reference, Table};

// The columns of `meta`.
fn are_meta(cs: &[Column]) -> bool
    ensures { Decides result (cs.now ≡ meta.columns) }
{
    match cs {
        [k, v] => is_key(k, b"k") && is_number(v, b"v"),
        _ => false,
    }
}

pub(crate) fn is_meta(t: &Table) -> bool
    ensures { Decides result (t.now ≡ meta) }
{
    is_keyed(t, b"meta", 0)
        && are_meta(t.columns.as_slice())
        && t.uniques.is_empty()
        && t.orders.is_empty()
        && t.references.is_empty()
}

// The columns of the entries.
pub(crate) fn are_entries(cs: &[Column]) -> bool
    ensures { Decides result (cs.now ≡ entries.columns) }
{
    match cs {
        [cookie, dir, name, child] => {
            is_key(cookie, b"cookie")
                && is_number(dir, b"dir")
                && is_bytes(name, b"name")
                && is_number(child, b"child")
        }
        _ => false,
    }
}

// A node has one entry, and a directory one entry of a name.
fn are_unique_in_entries(keys: &[Items<usize>]) -> bool
    ensures { Decides result (keys.now ≡ entries.uniques) }
{
    match keys {
        [first, second] => is_places(first, &[4]) && is_places(second, &[2, 3]),
        _ => false,
    }
}

// The references of an entry: its directory and its child.
fn are_references_of_entries(rs: &[Reference]) -> bool
    ensures { Decides result (rs.now ≡ entries.references) }
{
    match rs {
        [first, second] => is_to_nodes(first, 2) && is_to_nodes(second, 4),
        _ => false,
    }
}

fn is_entries(t: &Table) -> bool
    ensures { Decides result (t.now ≡ entries) }
{
    is_keyed(t, b"entries", 2)
        && are_entries(t.columns.as_slice())
        && are_unique_in_entries(t.uniques.as_slice())
        && are_plain_twice(t.orders.as_slice())
        && are_references_of_entries(t.references.as_slice())
}

// The last columns of a node in version 2.
fn are_last_of_node(cs: &[Column]) -> bool
    ensures { Decides result
        (cs.now ≡ number_column (codes "up") ∷ number_column (codes "subdirs") ∷ []) }
{
    match cs {
        [up, subdirs] => is_number(up, b"up") && is_number(subdirs, b"subdirs"),
        _ => false,
    }
}

// The columns of a node from its times on.
fn are_node_times(cs: &[Column]) -> bool
    ensures { Decides result (cs.now ≡ node_times []) }
{
    match cs {
        [
            atime,
            atimensec,
            mtime,
            mtimensec,
            ctime,
            ctimensec,
            rest @ ..,
        ] => {
            is_number(atime, b"atime")
                && is_number(atimensec, b"atimensec")
                && is_number(mtime, b"mtime")
                && is_number(mtimensec, b"mtimensec")
                && is_number(ctime, b"ctime")
                && is_number(ctimensec, b"ctimensec")
                && are_last_of_node(rest)
        }
        _ => false,
    }
}

// The columns of the nodes.
fn are_nodes(cs: &[Column]) -> bool
    ensures { Decides result (cs.now ≡ nodes.columns) }
{
    match cs {
        [node, mode, uid, gid, rdev, size, times @ ..] => {
            is_key(node, b"node")
                && is_number(mode, b"mode")
                && is_number(uid, b"uid")
                && is_number(gid, b"gid")
                && is_number(rdev, b"rdev")
                && is_number(size, b"size")
                && are_node_times(times)
        }
        _ => false,
    }
}

fn is_nodes(t: &Table) -> bool
    ensures { Decides result (t.now ≡ nodes) }
{
    is_keyed(t, b"nodes", 1)
        && are_nodes(t.columns.as_slice())
        && t.uniques.is_empty()
        && t.orders.is_empty()
        && t.references.is_empty()
}

/// Whether the indexes are those of the keys alone.
pub(crate) fn are_first_indexes(all: &[Index]) -> bool
    ensures { Decides result (all.now ≡ first_indexes) }
{
    match all {
        [child, place, block] => {
            is_index(child, b"sqlite_autoindex_entries_1", 3, 2, &[4], true)
                && is_index(place, b"sqlite_autoindex_entries_2", 4, 2, &[2, 3], true)
                && is_index(block, b"sqlite_autoindex_blocks_1", 6, 5, &[1, 2], true)
        }
        _ => false,
    }
}

// The last two indexes.
fn are_last_indexes(all: &[Index]) -> bool
    ensures { Decides result (all.now ≡ last_indexes) }
{
    match all {
        [block, ordered] => {
            is_index(block, b"sqlite_autoindex_blocks_1", 6, 5, &[1, 2], true)
                && is_index(ordered, b"entries_in_order", 11, 2, &[2, 0], false)
        }
        _ => false,
    }
}

/// Whether the indexes are those of the keys, and that of the entries in order.
pub(crate) fn are_indexes(all: &[Index]) -> bool
    ensures { Decides result (all.now ≡ all_indexes) }
{
    match all {
        [child, place, rest @ ..] => {
            is_index(child, b"sqlite_autoindex_entries_1", 3, 2, &[4], true)
                && is_index(place, b"sqlite_autoindex_entries_2", 4, 2, &[2, 3], true)
                && are_last_indexes(rest)
        }
        _ => false,
    }
}

// A node has one block of a number.
pub(crate) fn is_one_key(keys: &[Items<usize>]) -> bool
    ensures { Decides result (keys.now ≡ blocks.uniques) }
{
    match keys {
        [only] => is_places(only, &[1, 2]),
        _ => false,
    }
}

// The columns of the blocks.
fn are_blocks(cs: &[Column]) -> bool
    ensures { Decides result (cs.now ≡ blocks.columns) }
{
    match cs {
        [node, block, content] => {
            is_number(node, b"node") && is_number(block, b"block") && is_bytes(content, b"bytes")
        }
        _ => false,
    }
}

pub(crate) fn is_blocks(t: &Table) -> bool
    ensures { Decides result (t.now ≡ blocks) }
{
    t.name.as_slice() == b"blocks".as_slice()
        && t.tree == 5
        && are_blocks(t.columns.as_slice())
        && t.key.is_none()
        && t.primary.as_slice() == [1, 2].as_slice()
        && is_one_key(t.uniques.as_slice())
        && is_plain_once(t.orders.as_slice())
        && is_none(&t.checks)
        && is_one_reference(t.references.as_slice(), 1)
        && t.computed.is_empty()
        && is_no_stamp(&t.stamps)
        && !t.is_counted
}

// The columns of the handles.
pub(crate) fn are_handles(cs: &[Column]) -> bool
    ensures { Decides result (cs.now ≡ handles.columns) }
{
    match cs {
        [fh, node, access] => {
            is_key(fh, b"fh") && is_number(node, b"node") && is_number(access, b"access")
        }
        _ => false,
    }
}

fn is_handles(t: &Table) -> bool
    ensures { Decides result (t.now ≡ handles) }
{
    is_keyed(t, b"handles", 7)
        && are_handles(t.columns.as_slice())
        && t.uniques.is_empty()
        && t.orders.is_empty()
        && is_one_reference(t.references.as_slice(), 2)
}

// The columns of the records of version 1.
fn are_answers(cs: &[Column]) -> bool
    ensures { Decides result (cs.now ≡ answers.columns) }
{
    match cs {
        [id, errno, body] => {
            is_key(id, b"id") && is_number(errno, b"errno") && is_bytes(body, b"body")
        }
        _ => false,
    }
}

fn is_answers(t: &Table) -> bool
    ensures { Decides result (t.now ≡ answers) }
{
    is_keyed(t, b"answers", 8)
        && are_answers(t.columns.as_slice())
        && t.uniques.is_empty()
        && t.orders.is_empty()
        && t.references.is_empty()
}

// The column of the lots.
fn are_lots(cs: &[Column]) -> bool
    ensures { Decides result (cs.now ≡ lots.columns) }
{
    match cs {
        [lot] => is_key(lot, b"lot"),
        _ => false,
    }
}

pub(crate) fn is_lots(t: &Table) -> bool
    ensures { Decides result (t.now ≡ lots) }
{
    is_keyed(t, b"lots", 9)
        && are_lots(t.columns.as_slice())
        && t.uniques.is_empty()
        && t.orders.is_empty()
        && t.references.is_empty()
}

// The columns of the records.
fn are_kept(cs: &[Column]) -> bool
    ensures { Decides result (cs.now ≡ kept.columns) }
{
    match cs {
        [id, lot, errno, body] => {
            is_key(id, b"id")
                && is_number(lot, b"lot")
                && is_number(errno, b"errno")
                && is_bytes(body, b"body")
        }
        _ => false,
    }
}

// The reference of a record: its lot.
fn is_to_lots(rs: &[Reference]) -> bool
    ensures { Decides result (rs.now ≡ kept.references) }
{
    match rs {
        [only] => is_reference(only, 2, b"lots", b"lot"),
        _ => false,
    }
}

pub(crate) fn is_kept(t: &Table) -> bool
    ensures { Decides result (t.now ≡ kept) }
{
    is_keyed(t, b"kept", 10)
        && are_kept(t.columns.as_slice())
        && t.uniques.is_empty()
        && t.orders.is_empty()
        && is_to_lots(t.references.as_slice())
}

// The last tables of version 1.
fn are_later_tables(ts: &[Table]) -> bool
    ensures { Decides result (ts.now ≡ blocks ∷ handles ∷ answers ∷ []) }
{
    match ts {
        [fourth, fifth, sixth] => is_blocks(fourth) && is_handles(fifth) && is_answers(sixth),
        _ => false,
    }
}

/// Whether the tables are those of version 1.
pub(crate) fn are_tables(ts: &[Table]) -> bool
    ensures { Decides result (ts.now ≡ first_tables) }
{
    match ts {
        [first, second, third, rest @ ..] => {
            is_meta(first) && is_nodes(second) && is_entries(third) && are_later_tables(rest)
        }
        _ => false,
    }
}

// The tables that version 2 adds.
fn are_last_tables(ts: &[Table]) -> bool
    ensures { Decides result (ts.now ≡ lots ∷ kept ∷ []) }
{
    match ts {
        [lots, kept] => is_lots(lots) && is_kept(kept),
        _ => false,
    }
}

// The tables of version 2 from the blocks on.
fn are_more_tables(ts: &[Table]) -> bool
    ensures { Decides result (ts.now ≡ blocks ∷ handles ∷ answers ∷ lots ∷ kept ∷ []) }
{
    match ts {
        [fourth, fifth, sixth, rest @ ..] => {
            is_blocks(fourth) && is_handles(fifth) && is_answers(sixth) && are_last_tables(rest)
        }
        _ => false,
    }
}

/// Whether the tables are those of version 2.
pub(crate) fn are_all_tables(ts: &[Table]) -> bool
    ensures { Decides result (ts.now ≡ all_tables) }
{
    match ts {
        [first, second, third, rest @ ..] => {
            is_meta(first) && is_nodes(second) && is_entries(third) && are_more_tables(rest)
        }
        _ => false,
    }
}
