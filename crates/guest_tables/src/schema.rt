// The schema of a database, compared with that of a guest's store.
ghost use Rattle.std.specs.Prelude.{◌≡◌, [], Decides};
ghost use Rattle.guest_tables.specs.Layout.{guest_schema};
ghost use Rattle.guest_tables.specs.inner.Shapes.{guest_tables, guest_indexes};

use crate::layout::{are_guest_indexes, are_guest_tables};
use sqlite_schema::schema::Schema;

fn spells_guest(schema: &Schema) -> bool
    ensures { Decides result (schema.now
        ≡ record { tables = guest_tables; indexes = guest_indexes; views = [] }) }
{
    are_guest_tables(schema.tables.as_slice())
        && are_guest_indexes(schema.indexes.as_slice())
        && schema.views.is_empty()
}

/// Whether the schema is that of a guest's store, and has nothing else.
pub(crate) fn is_guest(schema: &Schema) -> bool
    ensures { Decides result (schema.now ≡ guest_schema) }
{
    spells_guest(schema)
}
