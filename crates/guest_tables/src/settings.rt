// What INIT agreed on, in `meta`.
ghost use Rattle.sqlite.specs.Held.{state};
ghost use Rattle.fuse_store_tables.specs.Moves.{Takes};
ghost use Rattle.fuse_store_tables.specs.inner.Performing.{StaysWithin};
ghost use Rattle.guest_tables.specs.Content.{set_counter, agreed_key, minor_key, readahead_key};
ghost use Rattle.guest_tables.specs.Moves.{Makes};
ghost use Rattle.guest_tables.specs.Opening.{IsStored};
ghost use Rattle.guest_tables.specs.Settling.{with_settings};
ghost use Rattle.guest_tables.specs.inner.Steps.{settings_set, agreement_set};

use crate::counters::{AGREED, FLAGS, MAX_READAHEAD, MINOR, PLEDGED, write_counter};
use fuse_init::Settings;
use sqlite::{Alter, Connection, Error};

// The settings.
fn write_agreed<S: Alter>(
    conn: &mut Connection<S>,
    agreed: u64,
    minor: u32,
    max_readahead: u32,
) -> Result<(), Error>
    ensures made { Makes (agreement_set agreed minor max_readahead) (state S.Store conn.old)
        (state S.Store conn.new) result }
    ensures within { StaysWithin (state S.Store conn.old) (state S.Store conn.new) result }
{
    write_counter(conn, AGREED, agreed)?;
    write_counter(conn, MINOR, minor as u64)?;
    write_counter(conn, MAX_READAHEAD, max_readahead as u64)
}

/// The settings and what is pledged, all of them.
pub(crate) fn write_all<S: Alter>(
    conn: &mut Connection<S>,
    agreed: u64,
    minor: u32,
    max_readahead: u32,
    flags: u64,
    pledged: u64,
) -> Result<(), Error>
    ensures made { Makes (settings_set agreed minor max_readahead flags pledged)
        (state S.Store conn.old) (state S.Store conn.new) result }
    ensures within { StaysWithin (state S.Store conn.old) (state S.Store conn.new) result }
{
    write_agreed(conn, agreed, minor, max_readahead)?;
    write_counter(conn, FLAGS, flags)?;
    write_counter(conn, PLEDGED, pledged)
}

/// Writes what INIT agreed on, and the opcodes that were served then.
pub fn write_settings<S: Alter>(
    conn: &mut Connection<S>,
    settings: Settings,
    pledged: u64,
) -> Result<(), Error>
    ensures made { Makes (with_settings settings pledged) (state S.Store conn.old)
        (state S.Store conn.new) result }
    ensures fit { Takes IsStored (λ c. IsStored (with_settings settings pledged c))
        (state S.Store conn.old) (state S.Store conn.new) result }
{
    write_all(
        conn,
        1,
        settings.minor,
        settings.max_readahead,
        settings.flags.0,
        pledged,
    )
}
