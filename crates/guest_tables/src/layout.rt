// The tables and the index, compared with those of the layout.
ghost use Rattle.std.specs.Prelude.{◌≡◌, [], ◌∷◌, codes, Decides};
ghost use Rattle.fuse_store_tables.specs.Layout.{meta, refers};
ghost use Rattle.guest_tables.specs.Layout.{pair_table, lot_table, kept_table};
ghost use Rattle.guest_tables.specs.inner.Shapes.{guest_indexes, guest_tables};

use crate::shapes::{
    is_bytes, is_key, is_keyed, is_no_stamp, is_none, is_number, is_places, is_plain_once,
    is_reference, is_unique_index,
};
use sqlite_items::Items;
use sqlite_schema::schema::{Column, Index, Reference, Table};

// The columns of `meta`.
fn are_meta(cs: &[Column]) -> bool
    ensures { Decides result (cs.now ≡ meta.columns) }
{
    match cs {
        [k, v] => is_key(k, b"k") && is_number(v, b"v"),
        _ => false,
    }
}

fn is_meta(t: &Table) -> bool
    ensures { Decides result (t.now ≡ meta) }
{
    is_keyed(t, b"meta", 0)
        && are_meta(t.columns.as_slice())
        && t.uniques.is_empty()
        && t.orders.is_empty()
        && t.references.is_empty()
}

// The columns of the pairs.
fn are_pairs(cs: &[Column]) -> bool
    ensures { Decides result (cs.now ≡ pair_table.columns) }
{
    match cs {
        [key, value, place, len, sum] => {
            is_bytes(key, b"key")
                && is_bytes(value, b"value")
                && is_number(place, b"place")
                && is_number(len, b"len")
                && is_number(sum, b"sum")
        }
        _ => false,
    }
}

// One pair has a key.
fn is_of_key(keys: &[Items<usize>]) -> bool
    ensures { Decides result (keys.now ≡ pair_table.uniques) }
{
    match keys {
        [only] => is_places(only, &[1]),
        _ => false,
    }
}

fn is_pairs(t: &Table) -> bool
    ensures { Decides result (t.now ≡ pair_table) }
{
    t.name.as_slice() == b"pairs".as_slice()
        && t.tree == 1
        && are_pairs(t.columns.as_slice())
        && t.key.is_none()
        && t.primary.as_slice() == [1].as_slice()
        && is_of_key(t.uniques.as_slice())
        && is_plain_once(t.orders.as_slice())
        && is_none(&t.checks)
        && t.references.is_empty()
        && t.computed.is_empty()
        && is_no_stamp(&t.stamps)
        && !t.is_counted
}

// The columns of the lots.
fn are_lots(cs: &[Column]) -> bool
    ensures { Decides result (cs.now ≡ lot_table.columns) }
{
    match cs {
        [lot] => is_key(lot, b"lot"),
        _ => false,
    }
}

fn is_lots(t: &Table) -> bool
    ensures { Decides result (t.now ≡ lot_table) }
{
    is_keyed(t, b"lots", 3)
        && are_lots(t.columns.as_slice())
        && t.uniques.is_empty()
        && t.orders.is_empty()
        && t.references.is_empty()
}

// The columns of the records.
fn are_kept(cs: &[Column]) -> bool
    ensures { Decides result (cs.now ≡ kept_table.columns) }
{
    match cs {
        [id, lot, errno, body] => {
            is_key(id, b"id")
                && is_number(lot, b"lot")
                && is_number(errno, b"errno")
                && is_bytes(body, b"body")
        }
        _ => false,
    }
}

// The reference of the records to the lots.
fn is_to_lots(rs: &[Reference]) -> bool
    ensures { Decides result (rs.now ≡ refers 2 (codes "lots") (codes "lot") ∷ []) }
{
    match rs {
        [only] => is_reference(only, 2, b"lots", b"lot"),
        _ => false,
    }
}

fn is_kept(t: &Table) -> bool
    ensures { Decides result (t.now ≡ kept_table) }
{
    is_keyed(t, b"kept", 4)
        && are_kept(t.columns.as_slice())
        && t.uniques.is_empty()
        && t.orders.is_empty()
        && is_to_lots(t.references.as_slice())
}

/// Whether the index is that of the keys of pairs.
pub(crate) fn are_guest_indexes(all: &[Index]) -> bool
    ensures { Decides result (all.now ≡ guest_indexes) }
{
    match all {
        [only] => is_unique_index(only, b"sqlite_autoindex_pairs_1", 2, 1, &[1]),
        _ => false,
    }
}

/// Whether the tables are those of a guest's store.
pub(crate) fn are_guest_tables(ts: &[Table]) -> bool
    ensures { Decides result (ts.now ≡ guest_tables) }
{
    match ts {
        [first, second, third, fourth] => {
            is_meta(first) && is_pairs(second) && is_lots(third) && is_kept(fourth)
        }
        _ => false,
    }
}
