// The migration of a store from version 1 to version 2, and the index of a store without it.
ghost use Rattle.std.specs.Prelude.{ℕ, Option};
ghost use Rattle.sqlite.specs.Held.{state};
ghost use Rattle.fuse_store_tables.specs.Moves.{Takes, Makes};
ghost use Rattle.fuse_store_tables.specs.Content.{Holds};
ghost use Rattle.fuse_store_tables.specs.Opening.{IsFirst, IsOpened, HoldsUnindexed};
ghost use Rattle.fuse_store_tables.specs.inner.Steps.{HasLots, HasKept, HasTables, moved_answers};
ghost use Rattle.fuse_store_tables.specs.inner.Steps.{HoldsIn};
ghost use Rattle.fuse_store_tables.specs.declared.version.Layout.TheVariants.{Second};
ghost use Rattle.fuse_store_tables.specs.Opening.{as_version_2};
ghost use Rattle.fuse_store_tables.specs.inner.Performing.{StaysWithin};

use crate::counters::{NEXT_LOT, VERSION, insert_counter, write_counter};
use crate::creation::{ENTRIES_IN_ORDER, KEPT, LOTS};
use crate::records::{copy_answers, delete_answers, write_lot};
use crate::statements::run;
use sqlite::{Alter, Connection, Error};

fn add_lots<S: Alter>(conn: &mut Connection<S>) -> Result<(), Error>
    ensures made { Takes IsFirst HasLots (state S.Store conn.old) (state S.Store conn.new) result }
    ensures within { StaysWithin (state S.Store conn.old) (state S.Store conn.new) result }
{
    run(conn, LOTS, &[])
}

fn add_kept<S: Alter>(conn: &mut Connection<S>) -> Result<(), Error>
    ensures made { Takes IsFirst HasKept (state S.Store conn.old) (state S.Store conn.new) result }
    ensures within { StaysWithin (state S.Store conn.old) (state S.Store conn.new) result }
{
    add_lots(conn)?;
    run(conn, KEPT, &[])
}

/// The index of version 2. It is made after all tables, as in a new store.
pub(crate) fn add_index<S: Alter>(conn: &mut Connection<S>) -> Result<(), Error>
    ensures made { Takes HoldsUnindexed Holds (state S.Store conn.old) (state S.Store conn.new)
        result }
    ensures within { StaysWithin (state S.Store conn.old) (state S.Store conn.new) result }
{
    run(conn, ENTRIES_IN_ORDER, &[])
}

fn add_tables<S: Alter>(conn: &mut Connection<S>) -> Result<(), Error>
    ensures made { Takes IsFirst HasTables (state S.Store conn.old) (state S.Store conn.new) result }
    ensures within { StaysWithin (state S.Store conn.old) (state S.Store conn.new) result }
{
    add_kept(conn)?;
    add_index(conn)
}

// Puts the records under lot 0.
fn move_records<S: Alter>(conn: &mut Connection<S>) -> Result<(), Error>
    ensures made { Takes (HoldsIn Second) (λ c. HoldsIn Second (moved_answers c))
        (state S.Store conn.old) (state S.Store conn.new) result }
    ensures within { StaysWithin (state S.Store conn.old) (state S.Store conn.new) result }
{
    write_lot(conn, 0)?;
    copy_answers(conn)?;
    delete_answers(conn)
}

// Sets the next lot and the version.
fn mark<S: Alter>(conn: &mut Connection<S>) -> Result<(), Error>
    ensures made { Makes as_version_2 (state S.Store conn.old) (state S.Store conn.new) result }
    ensures within { StaysWithin (state S.Store conn.old) (state S.Store conn.new) result }
{
    insert_counter(conn, NEXT_LOT, 1)?;
    write_counter(conn, VERSION, 2)
}

/// The whole migration, within a transaction.
pub(crate) fn migrate<S: Alter>(conn: &mut Connection<S>) -> Result<(), Error>
    ensures made { (number : Option ℕ) → Takes IsFirst (IsOpened number) (state S.Store conn.old)
        (state S.Store conn.new) result }
    ensures within { StaysWithin (state S.Store conn.old) (state S.Store conn.new) result }
{
    add_tables(conn)?;
    move_records(conn)?;
    mark(conn)
}
