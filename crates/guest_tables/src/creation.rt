// A new store, made in one transaction.
ghost use Rattle.std.specs.Prelude.{◌≡◌, ◌<◌, ◌^◌, false, IsTrue, IfErr, OnOk};
ghost use Rattle.sqlite.specs.State.{HasCleanDisk};
ghost use Rattle.sqlite.specs.Held.{state};
ghost use Rattle.fuse_store_tables.specs.Faults.{IsOutside};
ghost use Rattle.fuse_store_tables.specs.Layout.{no_schema, with_meta};
ghost use Rattle.fuse_store_tables.specs.Making.{IsBare};
ghost use Rattle.fuse_store_tables.specs.Moves.{Takes, ServesAs, IsSafe, LeavesAlone};
ghost use Rattle.fuse_store_tables.specs.Moves.{CommitsNothing};
ghost use Rattle.fuse_store_tables.specs.inner.Performing.{TransactsAs, StaysWithin};
ghost use Rattle.guest_tables.specs.Layout.{with_pairs, with_lots, guest_schema};
ghost use Rattle.guest_tables.specs.Making.{IsNew};

use crate::statements::run;
use crate::values::bits;
use fuse_keeper::StoreFault;
use fuse_store_tables::{begin, commit, is_empty, undo};
use sqlite::{Alter, Connection, Error};

const META: &str = "CREATE TABLE meta (k INTEGER PRIMARY KEY, v INTEGER NOT NULL) STRICT";

const PAIRS: &str = "CREATE TABLE pairs (key BLOB NOT NULL, value BLOB NOT NULL, \
    place INTEGER NOT NULL, len INTEGER NOT NULL, sum INTEGER NOT NULL, PRIMARY KEY (key)) STRICT";

const LOTS: &str = "CREATE TABLE lots (lot INTEGER PRIMARY KEY) STRICT";

const KEPT: &str = "CREATE TABLE kept (id INTEGER PRIMARY KEY, \
    lot INTEGER NOT NULL REFERENCES lots (lot), errno INTEGER NOT NULL, \
    body BLOB NOT NULL) STRICT";

const FILL: &str = "INSERT INTO meta (k, v) VALUES (7, 0), (8, 0), (9, 0), (10, 0), (11, 1), \
    (15, ?1), (16, 1), (17, 0)";

fn make_meta<S: Alter>(conn: &mut Connection<S>) -> Result<(), Error>
    ensures { Takes (IsBare no_schema) (IsBare with_meta) (state S.Store conn.old)
        (state S.Store conn.new) result }
{
    run(conn, META, &[])
}

fn make_pairs<S: Alter>(conn: &mut Connection<S>) -> Result<(), Error>
    ensures { Takes (IsBare no_schema) (IsBare with_pairs) (state S.Store conn.old)
        (state S.Store conn.new) result }
{
    make_meta(conn)?;
    run(conn, PAIRS, &[])
}

fn make_lots<S: Alter>(conn: &mut Connection<S>) -> Result<(), Error>
    ensures { Takes (IsBare no_schema) (IsBare with_lots) (state S.Store conn.old)
        (state S.Store conn.new) result }
{
    make_pairs(conn)?;
    run(conn, LOTS, &[])
}

fn make_kept<S: Alter>(conn: &mut Connection<S>) -> Result<(), Error>
    ensures { Takes (IsBare no_schema) (IsBare guest_schema) (state S.Store conn.old)
        (state S.Store conn.new) result }
{
    make_lots(conn)?;
    run(conn, KEPT, &[])
}

fn fill<S: Alter>(conn: &mut Connection<S>, number: u64) -> Result<(), Error>
    requires { number < 2 ^ 63 }
    ensures { Takes (IsBare guest_schema) (IsNew number) (state S.Store conn.old)
        (state S.Store conn.new) result }
{
    let values = bits(number);
    run(conn, FILL, &values)
}

// The tables and their first rows.
fn make_all<S: Alter>(conn: &mut Connection<S>, number: u64) -> Result<(), Error>
    requires { number < 2 ^ 63 }
    ensures { Takes (IsBare no_schema) (IsNew number) (state S.Store conn.old)
        (state S.Store conn.new) result }
{
    make_kept(conn)?;
    fill(conn, number)
}

// The transaction. A fault may leave it open.
fn transact<S: Alter>(conn: &mut Connection<S>, number: u64) -> Result<(), StoreFault>
    requires { number < 2 ^ 63 }
    ensures performs { TransactsAs (IsBare no_schema) (IsNew number) (state S.Store conn.old)
        (state S.Store conn.new) result }
    ensures fault { IsSafe (IsBare no_schema) (state S.Store conn.old) (state S.Store conn.new)
        result }
    ensures outside { IfErr result IsOutside }
    ensures was { HasCleanDisk (state S.Store conn.new)
        → OnOk result (IsTrue (state S.Store conn.old).is_open) }
    ensures alone { ((state S.Store conn.old).now.schema ≡ no_schema → ⊥)
        → CommitsNothing (state S.Store conn.old) (state S.Store conn.new) }
    ensures ended { OnOk result (HasCleanDisk (state S.Store conn.new)
        → ((state S.Store conn.new).in_transaction ≡ false)
        × ((state S.Store conn.new).now ≡ (state S.Store conn.new).committed)) }
{
    begin(conn)?;
    if !is_empty(conn.schema()) {
        return Err(StoreFault::Sql(Error::InvalidQuery));
    }
    make_all(conn, number)?;
    commit(conn)?;
    Ok(())
}

/// Makes a guest's new store, with this number, in a database without tables. Any other database is
/// left as it was. The commit is its last call of the database.
pub fn make_store<S: Alter>(conn: &mut Connection<S>, number: u64) -> Result<(), StoreFault>
    requires { number < 2 ^ 63 }
    ensures serves { ServesAs (IsBare no_schema) (IsNew number) (state S.Store conn.old)
        (state S.Store conn.new) result }
    ensures fault { IsSafe (IsBare no_schema) (state S.Store conn.old) (state S.Store conn.new)
        result }
    // The fault is that of a statement, and says nothing of the tables.
    ensures outside { IfErr result IsOutside }
    ensures was { HasCleanDisk (state S.Store conn.new)
        → OnOk result (IsTrue (state S.Store conn.old).is_open) }
    // Nothing is made beside other tables.
    ensures alone { ((state S.Store conn.old).now.schema ≡ no_schema → ⊥)
        → LeavesAlone (state S.Store conn.old) (state S.Store conn.new) }
    // No transaction is left open.
    ensures ended { HasCleanDisk (state S.Store conn.new)
        → (state S.Store conn.new).in_transaction ≡ false }
{
    match transact(conn, number) {
        Ok(()) => Ok(()),
        Err(fault) => {
            undo(conn);
            Err(fault)
        }
    }
}
