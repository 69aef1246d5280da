// The tables of version 2 whose rows version 3 has as they are.
ghost use Rattle.std.specs.Prelude.{◌≡◌, ◌<◌, [], ◌∷◌, ⊤, map, length};
ghost use Rattle.sqlite.specs.Held.{state};
ghost use Rattle.sqlite.specs.Values.{bound, bound_value};
ghost use Rattle.sqlite_value.specs.Value.{owned};
ghost use Rattle.sqlite.specs.Order.{column};
ghost use Rattle.sqlite.specs.declared.types.Value.{Value};
ghost use Rattle.fuse_store_tables.specs.Moves.{Takes};
ghost use Rattle.fuse_store_tables.specs.inner.Copies.{copy_row, rows_in, whole_text, put_text};
ghost use Rattle.fuse_store_tables.specs.inner.Copies.{RowGiven, RowPut, RowsGiven, RowsPut};
ghost use Rattle.fuse_store_tables.specs.inner.Looking.{ReadsIf};

use crate::statements::run;
use fuse_keeper::StoreFault;
use sqlite::types::ValueRef;
use sqlite::{Alter, Connection, Error, Row};

/// A table whose rows are copied.
#[derive(Clone, Copy)]
pub(crate) enum Copied {
    Counters,
    Entries,
    Blocks,
    Handles,
    Lots,
    Records,
}

// All rows of a table, in the order of their rowids.
fn whole_text(table: Copied) -> &'static str
    ensures { result.now ≡ whole_text table }
{
    match table {
        Copied::Counters => "SELECT k, v FROM meta ORDER BY k",
        Copied::Entries => "SELECT cookie, dir, name, child FROM entries ORDER BY cookie",
        Copied::Blocks => "SELECT rowid, node, block, bytes FROM blocks ORDER BY rowid",
        Copied::Handles => "SELECT fh, node, access FROM handles ORDER BY fh",
        Copied::Lots => "SELECT lot FROM lots ORDER BY lot",
        Copied::Records => "SELECT id, lot, errno, body FROM kept ORDER BY id",
    }
}

// A row that is put into a table.
fn put_text(table: Copied) -> &'static str
    ensures { result.now ≡ put_text table }
{
    match table {
        Copied::Counters => "INSERT INTO meta (k, v) VALUES (?1, ?2)",
        Copied::Entries => {
            "INSERT INTO entries (cookie, dir, name, child) VALUES (?1, ?2, ?3, ?4)"
        }
        Copied::Blocks => {
            "INSERT INTO blocks (rowid, node, block, bytes) VALUES (?1, ?2, ?3, ?4)"
        }
        Copied::Handles => "INSERT INTO handles (fh, node, access) VALUES (?1, ?2, ?3)",
        Copied::Lots => "INSERT INTO lots (lot) VALUES (?1)",
        Copied::Records => "INSERT INTO kept (id, lot, errno, body) VALUES (?1, ?2, ?3, ?4)",
    }
}

/// All rows of a table of version 2.
pub(crate) fn select_all<S: Alter>(
    conn: &mut Connection<S>,
    table: Copied,
) -> Result<Vec<Row>, StoreFault>
    ensures { ReadsIf (λ _. ⊤) (λ c rows. rows.items ≡ map (copy_row table) (rows_in table c))
        (state S.Store conn.old) (state S.Store conn.new) result }
{
    let text = whole_text(table);
    let rows = conn.query_all(text, &[])?;
    Ok(rows)
}

/// The value of a column, as a parameter.
pub(crate) fn value_of(row: &Row, at: usize) -> ValueRef<'_>
    ensures { at < length row.now → owned result ≡ column row.now at }
{
    match row.get_ref(at) {
        Ok(value) => value,
        Err(_) => ValueRef::Null,
    }
}

fn one_value(row: &Row) -> [ValueRef<'_>; 1]
    ensures { (a : Value) → row.now ≡ a ∷ [] → bound result ≡ bound_value a ∷ [] }
{
    [value_of(row, 0)]
}

fn two_values(row: &Row) -> [ValueRef<'_>; 2]
    ensures { (a b : Value) → row.now ≡ a ∷ b ∷ []
        → bound result ≡ bound_value a ∷ bound_value b ∷ [] }
{
    [value_of(row, 0), value_of(row, 1)]
}

fn three_values(row: &Row) -> [ValueRef<'_>; 3]
    ensures { (a b d : Value) → row.now ≡ a ∷ b ∷ d ∷ []
        → bound result ≡ bound_value a ∷ bound_value b ∷ bound_value d ∷ [] }
{
    [value_of(row, 0), value_of(row, 1), value_of(row, 2)]
}

fn four_values(row: &Row) -> [ValueRef<'_>; 4]
    ensures { (a b d e : Value) → row.now ≡ a ∷ b ∷ d ∷ e ∷ []
        → bound result ≡ bound_value a ∷ bound_value b ∷ bound_value d ∷ bound_value e ∷ [] }
{
    [
        value_of(row, 0),
        value_of(row, 1),
        value_of(row, 2),
        value_of(row, 3),
    ]
}

// Puts a row into a table.
fn insert_copy<S: Alter>(conn: &mut Connection<S>, table: Copied, row: &Row) -> Result<(), Error>
    ensures { Takes (RowGiven table row.now) (RowPut table) (state S.Store conn.old)
        (state S.Store conn.new) result }
{
    let text = put_text(table);
    match table {
        Copied::Counters => {
            let values = two_values(row);
            run(conn, text, &values)
        }
        Copied::Handles => {
            let values = three_values(row);
            run(conn, text, &values)
        }
        Copied::Lots => {
            let values = one_value(row);
            run(conn, text, &values)
        }
        Copied::Entries | Copied::Blocks | Copied::Records => {
            let values = four_values(row);
            run(conn, text, &values)
        }
    }
}

/// Puts these rows into a table.
pub(crate) fn insert_all<S: Alter>(
    conn: &mut Connection<S>,
    table: Copied,
    rows: &[Row],
) -> Result<(), Error>
    ensures { Takes (RowsGiven table rows.now) (RowsPut table) (state S.Store conn.old)
        (state S.Store conn.new) result }
{
    let mut at = 0;
    'rows: while at < rows.len() {
        match insert_copy(conn, table, &rows[at]) {
            Ok(()) => {}
            Err(error) => return Err(error),
        }
        at += 1;
    }
    Ok(())
}
