// The schema of a database, compared with that of a store of each version.
ghost use Rattle.std.specs.Prelude.{◌≡◌, ◌↔◌, [], IsTrue, Decides};
ghost use Rattle.sqlite.specs.Held.{state};
ghost use Rattle.fuse_store_tables.specs.Content.{Content, Holds};
ghost use Rattle.fuse_store_tables.specs.Opening.{IsLaid};
ghost use Rattle.fuse_store_tables.specs.Layout.{no_schema, with_answers, with_kept, store_schema};
ghost use Rattle.fuse_store_tables.specs.Layout.{third_schema};
ghost use Rattle.fuse_store_tables.specs.inner.Shapes.{first_tables, all_tables, first_indexes};
ghost use Rattle.fuse_store_tables.specs.inner.Shapes.{all_indexes, third_tables, third_indexes};

use crate::layout::{are_all_tables, are_first_indexes, are_indexes, are_tables};
use crate::layout_three::{are_third_indexes, are_third_tables};
use crate::version::Layout;
use sqlite::{Alter, Connection};
use sqlite_schema::schema::Schema;

fn spells_first(schema: &Schema) -> bool
    ensures { Decides result (schema.now
        ≡ record { tables = first_tables; indexes = first_indexes; views = [] }) }
{
    are_tables(schema.tables.as_slice())
        && are_first_indexes(schema.indexes.as_slice())
        && schema.views.is_empty()
}

fn spells_unindexed(schema: &Schema) -> bool
    ensures { Decides result (schema.now
        ≡ record { tables = all_tables; indexes = first_indexes; views = [] }) }
{
    are_all_tables(schema.tables.as_slice())
        && are_first_indexes(schema.indexes.as_slice())
        && schema.views.is_empty()
}

fn spells_second(schema: &Schema) -> bool
    ensures { Decides result (schema.now
        ≡ record { tables = all_tables; indexes = all_indexes; views = [] }) }
{
    are_all_tables(schema.tables.as_slice())
        && are_indexes(schema.indexes.as_slice())
        && schema.views.is_empty()
}

fn spells_third(schema: &Schema) -> bool
    ensures { Decides result (schema.now
        ≡ record { tables = third_tables; indexes = third_indexes; views = [] }) }
{
    are_third_tables(schema.tables.as_slice())
        && are_third_indexes(schema.indexes.as_slice())
        && schema.views.is_empty()
}

/// Whether the schema is that of version 1, and has nothing else.
pub(crate) fn is_first(schema: &Schema) -> bool
    ensures { Decides result (schema.now ≡ with_answers) }
{
    spells_first(schema)
}

/// Whether the schema is that of version 2 without its index, and has nothing else.
pub(crate) fn is_unindexed(schema: &Schema) -> bool
    ensures { Decides result (schema.now ≡ with_kept) }
{
    spells_unindexed(schema)
}

/// Whether the schema is that of version 2, and has nothing else.
pub(crate) fn is_second(schema: &Schema) -> bool
    ensures { Decides result (schema.now ≡ store_schema) }
{
    spells_second(schema)
}

/// Whether the schema is that of version 3, and has nothing else.
pub(crate) fn is_third(schema: &Schema) -> bool
    ensures { Decides result (schema.now ≡ third_schema) }
{
    spells_third(schema)
}

/// The layout of a store that holds these tables: version 3 has nine tables, and the earlier ones
/// have fewer.
pub fn layout_of<S: Alter>(conn: &Connection<S>) -> Layout
    ensures value { (c : Content) → Holds c (state S.Store conn.now).now → result ≡ c.layout }
    ensures laid { (c : Content) → IsLaid c (state S.Store conn.now).now → result ≡ c.layout }
{
    if conn.schema().tables.len() == 9 {
        Layout::Third
    } else {
        Layout::Second
    }
}

/// Whether there is no table, index or view.
pub fn is_empty(schema: &Schema) -> bool
    ensures { IsTrue result ↔ schema.now ≡ no_schema }
{
    schema.tables.is_empty() && schema.indexes.is_empty() && schema.views.is_empty()
}
