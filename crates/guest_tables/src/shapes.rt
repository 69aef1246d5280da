// The parts of a schema, compared with those of the layout.
ghost use Rattle.std.specs.Prelude.{◌≡◌, [], ◌∷◌, true, false, Some, Decides};
ghost use Rattle.sqlite_value.specs.declared.value.Value.TheVariants.{Null};
ghost use Rattle.sqlite_value.specs.Keys.{plain};
ghost use Rattle.sqlite_schema.specs.declared.schema.Action.TheVariants.{NoAction};
ghost use Rattle.fuse_store_tables.specs.Layout.{strict, key, number_column, bytes_column, refers};
ghost use Rattle.fuse_store_tables.specs.Layout.{keyed_table};
ghost use Rattle.fuse_store_tables.specs.inner.Shapes.{plain_index};

use sqlite_items::Items;
use sqlite_schema::code::Terms;
use sqlite_schema::schema::{Action, Column, Index, Kind, Reference, Stamps, Table};
use sqlite_value::keys::{Collation, Order};
use sqlite_value::value::{Bytes, Value};

/// Whether there is no term.
pub(crate) fn is_none(terms: &Terms) -> bool
    ensures { Decides result (terms.now ≡ []) }
{
    terms.roots.is_empty()
}

// Whether there is no default.
fn is_null(value: &Value) -> bool
    ensures { Decides result (value.now ≡ Null) }
{
    matches!(value, Value::Null)
}

// Whether the column is one of a strict table, of this kind.
fn is_column(c: &Column, name: &[u8], kind: Kind, filled: bool) -> bool
    ensures { Decides result (c.now ≡ strict name.now kind filled) }
{
    c.name.as_slice() == name
        && c.kind == kind
        && c.is_strict
        && c.not_null == filled
        && is_null(&c.default)
        && c.collation == Collation::Binary
}

/// Whether the column is the rowid, under this name.
pub(crate) fn is_key(c: &Column, name: &[u8]) -> bool
    ensures { Decides result (c.now ≡ key name.now) }
{
    is_column(c, name, Kind::Integer, false)
}

/// Whether the column is one of numbers, under this name.
pub(crate) fn is_number(c: &Column, name: &[u8]) -> bool
    ensures { Decides result (c.now ≡ number_column name.now) }
{
    is_column(c, name, Kind::Integer, true)
}

/// Whether the column is one of bytes, under this name.
pub(crate) fn is_bytes(c: &Column, name: &[u8]) -> bool
    ensures { Decides result (c.now ≡ bytes_column name.now) }
{
    is_column(c, name, Kind::Blob, true)
}

// Whether the name is this one.
fn is_named(found: &Bytes, name: &[u8]) -> bool
    ensures { Decides result (found.now ≡ name.now) }
{
    found.as_slice() == name
}

// Whether this is the only name.
fn is_one(names: &[Bytes], name: &[u8]) -> bool
    ensures { Decides result (names.now ≡ name.now ∷ []) }
{
    match names {
        [only] => is_named(only, name),
        _ => false,
    }
}

/// Whether the column at this place refers to this column of another table.
pub(crate) fn is_reference(r: &Reference, place: usize, parent: &[u8], column: &[u8]) -> bool
    ensures { Decides result (r.now ≡ refers place parent.now column.now) }
{
    let places = [place];
    r.columns.as_slice() == places.as_slice()
        && r.parent.as_slice() == parent
        && is_one(r.parent_columns.as_slice(), column)
        && r.on_delete == Action::NoAction
        && r.on_update == Action::NoAction
        && !r.is_deferred
}

/// Whether no default reads the time.
pub(crate) fn is_no_stamp(stamps: &Stamps) -> bool
    ensures { Decides result (stamps.now ≡ record { places = []; terms = []; formats = [] }) }
{
    stamps.places.is_empty() && is_none(&stamps.terms) && stamps.formats.is_empty()
}

/// Whether all but the columns, keys and references are those of a table with this name and tree.
pub(crate) fn is_keyed(t: &Table, name: &[u8], tree: u32) -> bool
    ensures { Decides result (t.now ≡ keyed_table name.now tree t.now.columns t.now.uniques t.now.orders t.now.references) }
{
    t.name.as_slice() == name
        && t.tree == tree
        && t.key == Some(0)
        && t.primary.as_slice() == [0].as_slice()
        && is_none(&t.checks)
        && t.computed.is_empty()
        && is_no_stamp(&t.stamps)
        && !t.is_counted
}

/// Whether a key has these places.
pub(crate) fn is_places(found: &Items<usize>, places: &[usize]) -> bool
    ensures { Decides result (found.now ≡ places.now) }
{
    found.as_slice() == places
}

/// Whether one key ascends by its bytes.
pub(crate) fn is_plain_once(orders: &[Order]) -> bool
    ensures { Decides result (orders.now ≡ plain ∷ []) }
{
    match orders {
        [only] => only.digits == 0,
        _ => false,
    }
}

/// Whether the index is a unique one of this name, tree and table, and has these places.
pub(crate) fn is_unique_index(
    i: &Index,
    name: &[u8],
    tree: u32,
    table: u32,
    places: &[usize],
) -> bool
    ensures { Decides result (i.now ≡ plain_index name.now tree table places.now true) }
{
    i.name.as_slice() == name
        && i.tree == tree
        && i.table == table
        && i.columns.as_slice() == places
        && i.order.digits == 0
        && i.is_unique
}
