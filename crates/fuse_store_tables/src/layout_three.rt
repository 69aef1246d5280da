// The tables and the indexes of version 3, compared with those of the layout.
ghost use Rattle.std.specs.Prelude.{◌≡◌, [], ◌∷◌, codes, Decides};
ghost use Rattle.fuse_store_tables.specs.Layout.{number_column, later_columns, third_nodes};
ghost use Rattle.fuse_store_tables.specs.Layout.{third_entries, third_handles, pieces, xattrs};
ghost use Rattle.fuse_store_tables.specs.Layout.{blocks, lots, kept};
ghost use Rattle.fuse_store_tables.specs.inner.Shapes.{node_times, last_third_indexes};
ghost use Rattle.fuse_store_tables.specs.inner.Shapes.{paired_indexes};
ghost use Rattle.fuse_store_tables.specs.inner.Shapes.{third_indexes, third_tables};

use crate::layout::{are_entries, are_handles, is_blocks, is_kept, is_lots, is_meta, is_one_key};
use crate::shapes::{
    are_plain_twice, is_bytes, is_index, is_key, is_keyed, is_no_stamp, is_none, is_number,
    is_one_reference, is_places, is_plain_once,
};
use sqlite_items::Items;
use sqlite_schema::schema::{Column, Index, Table};

// The last columns of a node.
fn are_later(cs: &[Column]) -> bool
    ensures { Decides result (cs.now ≡ later_columns) }
{
    match cs {
        [links, written, attributes] => {
            is_number(links, b"links")
                && is_number(written, b"written")
                && is_number(attributes, b"attributes")
        }
        _ => false,
    }
}

// The columns of a node from the directory above on.
fn are_from_up(cs: &[Column]) -> bool
    ensures { Decides result
        (cs.now ≡ number_column (codes "up") ∷ number_column (codes "subdirs") ∷ later_columns) }
{
    match cs {
        [up, subdirs, rest @ ..] => {
            is_number(up, b"up") && is_number(subdirs, b"subdirs") && are_later(rest)
        }
        _ => false,
    }
}

// The columns of a node from its times on.
fn are_from_times(cs: &[Column]) -> bool
    ensures { Decides result (cs.now ≡ node_times later_columns) }
{
    match cs {
        [
            atime,
            atimensec,
            mtime,
            mtimensec,
            ctime,
            ctimensec,
            rest @ ..,
        ] => {
            is_number(atime, b"atime")
                && is_number(atimensec, b"atimensec")
                && is_number(mtime, b"mtime")
                && is_number(mtimensec, b"mtimensec")
                && is_number(ctime, b"ctime")
                && is_number(ctimensec, b"ctimensec")
                && are_from_up(rest)
        }
        _ => false,
    }
}

// The columns of the nodes.
fn are_third_nodes(cs: &[Column]) -> bool
    ensures { Decides result (cs.now ≡ third_nodes.columns) }
{
    match cs {
        [node, mode, uid, gid, rdev, size, times @ ..] => {
            is_key(node, b"node")
                && is_number(mode, b"mode")
                && is_number(uid, b"uid")
                && is_number(gid, b"gid")
                && is_number(rdev, b"rdev")
                && is_number(size, b"size")
                && are_from_times(times)
        }
        _ => false,
    }
}

fn is_third_nodes(t: &Table) -> bool
    ensures { Decides result (t.now ≡ third_nodes) }
{
    is_keyed(t, b"nodes", 1)
        && are_third_nodes(t.columns.as_slice())
        && t.uniques.is_empty()
        && t.orders.is_empty()
        && t.references.is_empty()
}

// A directory has one entry of a name, and one of a cookie.
fn are_in_directory(keys: &[Items<usize>]) -> bool
    ensures { Decides result (keys.now ≡ third_entries.uniques) }
{
    match keys {
        [name, cookie] => is_places(name, &[2, 3]) && is_places(cookie, &[2, 0]),
        _ => false,
    }
}

fn is_third_entries(t: &Table) -> bool
    ensures { Decides result (t.now ≡ third_entries) }
{
    is_keyed(t, b"entries", 2)
        && are_entries(t.columns.as_slice())
        && are_in_directory(t.uniques.as_slice())
        && are_plain_twice(t.orders.as_slice())
        && t.references.is_empty()
}

// A node has one handle of a number.
fn is_of_node(keys: &[Items<usize>]) -> bool
    ensures { Decides result (keys.now ≡ third_handles.uniques) }
{
    match keys {
        [only] => is_places(only, &[2, 0]),
        _ => false,
    }
}

fn is_third_handles(t: &Table) -> bool
    ensures { Decides result (t.now ≡ third_handles) }
{
    is_keyed(t, b"handles", 7)
        && are_handles(t.columns.as_slice())
        && is_of_node(t.uniques.as_slice())
        && is_plain_once(t.orders.as_slice())
        && is_one_reference(t.references.as_slice(), 2)
}

// The columns of the pieces.
fn are_pieces(cs: &[Column]) -> bool
    ensures { Decides result (cs.now ≡ pieces.columns) }
{
    match cs {
        [node, first, count, place, sum] => {
            is_number(node, b"node")
                && is_number(first, b"first")
                && is_number(count, b"count")
                && is_number(place, b"place")
                && is_number(sum, b"sum")
        }
        _ => false,
    }
}

fn is_pieces(t: &Table) -> bool
    ensures { Decides result (t.now ≡ pieces) }
{
    t.name.as_slice() == b"pieces".as_slice()
        && t.tree == 11
        && are_pieces(t.columns.as_slice())
        && t.key.is_none()
        && t.primary.as_slice() == [1, 2].as_slice()
        && is_one_key(t.uniques.as_slice())
        && is_plain_once(t.orders.as_slice())
        && is_none(&t.checks)
        && t.references.is_empty()
        && t.computed.is_empty()
        && is_no_stamp(&t.stamps)
        && !t.is_counted
}

// The columns of the extended attributes.
fn are_xattrs(cs: &[Column]) -> bool
    ensures { Decides result (cs.now ≡ xattrs.columns) }
{
    match cs {
        [node, name, value] => {
            is_number(node, b"node") && is_bytes(name, b"name") && is_bytes(value, b"value")
        }
        _ => false,
    }
}

fn is_xattrs(t: &Table) -> bool
    ensures { Decides result (t.now ≡ xattrs) }
{
    t.name.as_slice() == b"xattrs".as_slice()
        && t.tree == 13
        && are_xattrs(t.columns.as_slice())
        && t.key.is_none()
        && t.primary.as_slice() == [1, 2].as_slice()
        && is_one_key(t.uniques.as_slice())
        && is_plain_once(t.orders.as_slice())
        && is_none(&t.checks)
        && t.references.is_empty()
        && t.computed.is_empty()
        && is_no_stamp(&t.stamps)
        && !t.is_counted
}

// The indexes of the tables that version 3 adds.
fn are_paired_indexes(all: &[Index]) -> bool
    ensures { Decides result (all.now ≡ paired_indexes) }
{
    match all {
        [piece, xattr] => {
            is_index(piece, b"sqlite_autoindex_pieces_1", 12, 11, &[1, 2], true)
                && is_index(xattr, b"sqlite_autoindex_xattrs_1", 14, 13, &[1, 2], true)
        }
        _ => false,
    }
}

// The last four indexes.
fn are_last_third_indexes(all: &[Index]) -> bool
    ensures { Decides result (all.now ≡ last_third_indexes) }
{
    match all {
        [block, handle, rest @ ..] => {
            is_index(block, b"sqlite_autoindex_blocks_1", 6, 5, &[1, 2], true)
                && is_index(handle, b"sqlite_autoindex_handles_1", 8, 7, &[2, 0], true)
                && are_paired_indexes(rest)
        }
        _ => false,
    }
}

/// Whether the indexes are those of version 3.
pub(crate) fn are_third_indexes(all: &[Index]) -> bool
    ensures { Decides result (all.now ≡ third_indexes) }
{
    match all {
        [place, ordered, rest @ ..] => {
            is_index(place, b"sqlite_autoindex_entries_1", 3, 2, &[2, 3], true)
                && is_index(ordered, b"sqlite_autoindex_entries_2", 4, 2, &[2, 0], true)
                && are_last_third_indexes(rest)
        }
        _ => false,
    }
}

// The tables from the records on.
fn are_last_third_tables(ts: &[Table]) -> bool
    ensures { Decides result (ts.now ≡ kept ∷ pieces ∷ xattrs ∷ []) }
{
    match ts {
        [kept, pieces, xattrs] => is_kept(kept) && is_pieces(pieces) && is_xattrs(xattrs),
        _ => false,
    }
}

// The tables from the blocks on.
fn are_more_third_tables(ts: &[Table]) -> bool
    ensures { Decides result (ts.now ≡ blocks ∷ third_handles ∷ lots ∷ kept ∷ pieces ∷ xattrs
        ∷ []) }
{
    match ts {
        [fourth, fifth, sixth, rest @ ..] => {
            is_blocks(fourth)
                && is_third_handles(fifth)
                && is_lots(sixth)
                && are_last_third_tables(rest)
        }
        _ => false,
    }
}

/// Whether the tables are those of version 3.
pub(crate) fn are_third_tables(ts: &[Table]) -> bool
    ensures { Decides result (ts.now ≡ third_tables) }
{
    match ts {
        [first, second, third, rest @ ..] => {
            is_meta(first)
                && is_third_nodes(second)
                && is_third_entries(third)
                && are_more_third_tables(rest)
        }
        _ => false,
    }
}
