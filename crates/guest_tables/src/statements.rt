// The run of a statement.
ghost use Rattle.sqlite.specs.State.{HasCleanDisk, Survives, CommitsBy};
ghost use Rattle.sqlite.specs.Held.{state};
ghost use Rattle.sqlite.specs.Values.{bound};
ghost use Rattle.fuse_store_tables.specs.inner.Performing.{Ran, RanAny};

use sqlite::types::ValueRef;
use sqlite::{Alter, Connection, Error};

/// Runs a statement.
pub(crate) fn run<S: Alter>(
    conn: &mut Connection<S>,
    statement: &str,
    values: &[ValueRef<'_>],
) -> Result<(), Error>
    ensures runs { HasCleanDisk (state S.Store conn.new) → Ran statement.now (bound values.now)
        (state S.Store conn.old) (state S.Store conn.new) result }
    ensures survives { Survives (state S.Store conn.old) (state S.Store conn.new)
        (CommitsBy statement.now (bound values.now) (state S.Store conn.old)) }
{
    conn.execute(statement, values)?;
    Ok(())
}

/// Runs a statement, and says whether it changed a row.
pub(crate) fn run_any<S: Alter>(
    conn: &mut Connection<S>,
    statement: &str,
    values: &[ValueRef<'_>],
) -> Result<bool, Error>
    ensures runs { HasCleanDisk (state S.Store conn.new) → RanAny statement.now (bound values.now)
        (state S.Store conn.old) (state S.Store conn.new) result }
    ensures survives { Survives (state S.Store conn.old) (state S.Store conn.new)
        (CommitsBy statement.now (bound values.now) (state S.Store conn.old)) }
{
    let changed = conn.execute(statement, values)?;
    Ok(changed > 0)
}
