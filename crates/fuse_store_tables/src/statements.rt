// The run of a statement, and the begin and the end of a transaction.
ghost use Rattle.sqlite.specs.State.{HasCleanDisk, Survives, CommitsBy};
ghost use Rattle.sqlite.specs.Held.{state};
ghost use Rattle.sqlite.specs.Values.{bound};
ghost use Rattle.fuse_store_tables.specs.Moves.{Begins, Ends, GoesBack, Undoes};
ghost use Rattle.fuse_store_tables.specs.inner.Performing.{Ran, RanAny};

use sqlite::types::ValueRef;
use sqlite::{Alter, Connection, Error};

/// Runs a statement.
pub(crate) fn run<S: Alter>(
    conn: &mut Connection<S>,
    statement: &str,
    values: &[ValueRef<'_>],
) -> Result<(), Error>
    ensures runs { HasCleanDisk (state S.Store conn.new) → Ran statement.now (bound values.now)
        (state S.Store conn.old) (state S.Store conn.new) result }
    ensures survives { Survives (state S.Store conn.old) (state S.Store conn.new)
        (CommitsBy statement.now (bound values.now) (state S.Store conn.old)) }
{
    conn.execute(statement, values)?;
    Ok(())
}

/// Runs a statement, and says whether it changed a row.
pub(crate) fn run_any<S: Alter>(
    conn: &mut Connection<S>,
    statement: &str,
    values: &[ValueRef<'_>],
) -> Result<bool, Error>
    ensures runs { HasCleanDisk (state S.Store conn.new) → RanAny statement.now (bound values.now)
        (state S.Store conn.old) (state S.Store conn.new) result }
    ensures survives { Survives (state S.Store conn.old) (state S.Store conn.new)
        (CommitsBy statement.now (bound values.now) (state S.Store conn.old)) }
{
    let changed = conn.execute(statement, values)?;
    Ok(changed > 0)
}

/// Begins a transaction.
pub fn begin<S: Alter>(conn: &mut Connection<S>) -> Result<(), Error>
    ensures { Begins (state S.Store conn.old) (state S.Store conn.new) result }
{
    run(conn, "BEGIN", &[])
}

/// Commits the transaction.
pub fn commit<S: Alter>(conn: &mut Connection<S>) -> Result<(), Error>
    ensures { Ends (state S.Store conn.old) (state S.Store conn.new) result }
{
    run(conn, "COMMIT", &[])
}

/// Rolls the transaction back, if one is open.
pub fn undo<S: Alter>(conn: &mut Connection<S>)
    ensures { Undoes (state S.Store conn.old) (state S.Store conn.new) }
{
    if !conn.is_autocommit() {
        let _ = conn.execute("ROLLBACK", &[]);
    }
}

/// Rolls the transaction back, if one is open. It fails where the connection is shut then.
pub fn go_back<S: Alter>(conn: &mut Connection<S>) -> Result<(), Error>
    ensures { GoesBack (state S.Store conn.old) (state S.Store conn.new) result }
{
    undo(conn);
    // Only an open connection compiles a text, and it has kept this one.
    let _ = conn.prepare("BEGIN")?;
    Ok(())
}
