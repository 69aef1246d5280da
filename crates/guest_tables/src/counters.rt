// The table of counters, `meta`.
ghost use Rattle.std.specs.Prelude.{◌≡◌, ◌<◌, ◌^◌, map, IfOk, OnOk, OnErr};
ghost use Rattle.sqlite.specs.State.{HasCleanDisk};
ghost use Rattle.sqlite.specs.Held.{state};
ghost use Rattle.fuse_store_tables.specs.Moves.{StaysOpen, OnlyReads, Stays};
ghost use Rattle.fuse_store_tables.specs.inner.Performing.{StaysWithin};
ghost use Rattle.guest_tables.specs.Content.{GuestContent, set_counter, shown_counter};
ghost use Rattle.guest_tables.specs.Moves.{Inside, Rests, Makes, LookedInside, Serves};

use crate::statements::run;
use crate::values::keyed_bits;
use sqlite::{Alter, Connection, Error, Row};

/// The key of whether settings were agreed on by INIT (0 or 1). The settings follow.
pub const AGREED: u64 = 7;

/// The key of the settings' minor version.
pub const MINOR: u64 = 8;

/// The key of the settings' `max_readahead`.
pub const MAX_READAHEAD: u64 = 9;

/// The key of the settings' flags.
pub const FLAGS: u64 = 10;

/// The key of the next lot.
pub const NEXT_LOT: u64 = 11;

/// The key of the store's number.
pub const NUMBER: u64 = 15;

/// The key of the version of the tables of a guest's store. A tree's store has its version under
/// another key.
pub const VERSION: u64 = 16;

/// The key of the opcodes that were served at INIT.
pub const PLEDGED: u64 = 17;

const UPDATE: &str = "UPDATE meta SET v = ?2 WHERE k = ?1";

const SELECT: &str = "SELECT v FROM meta ORDER BY k";

/// Changes the value of the counter with this key.
pub(crate) fn write_counter<S: Alter>(
    conn: &mut Connection<S>,
    key: u64,
    value: u64,
) -> Result<(), Error>
    requires { key < 2 ^ 63 }
    ensures made { Makes (set_counter key value) (state S.Store conn.old) (state S.Store conn.new)
        result }
    ensures within { StaysWithin (state S.Store conn.old) (state S.Store conn.new) result }
{
    let values = keyed_bits(key, value);
    run(conn, UPDATE, &values)
}

/// Changes the value of the counter with this key.
pub fn update_counter<S: Alter>(conn: &mut Connection<S>, key: u64, value: u64) -> Result<(), Error>
    requires { key < 2 ^ 63 }
    ensures { Makes (set_counter key value) (state S.Store conn.old) (state S.Store conn.new)
        result }
{
    write_counter(conn, key, value)
}

/// The values of all counters, in the order of their keys. Each is the signed number with the same
/// bits.
pub fn select_counters<S: Alter>(conn: &mut Connection<S>) -> Result<Vec<Row>, Error>
    ensures looks { OnOk result (LookedInside (state S.Store conn.old) (state S.Store conn.new)) }
    ensures fails { OnErr result (Stays (state S.Store conn.old) (state S.Store conn.new)) }
    ensures found { HasCleanDisk (state S.Store conn.new) → IfOk result (λ rows. (c : GuestContent)
        → Inside c (state S.Store conn.old) → rows.items ≡ map shown_counter c.counters) }
    ensures rests { Serves (λ c. c) (state S.Store conn.old) (state S.Store conn.new) result }
    ensures open { StaysOpen (state S.Store conn.old) (state S.Store conn.new) result }
    // Whatever the database is, nothing is changed.
    ensures reads { OnlyReads (state S.Store conn.old) (state S.Store conn.new) result }
    ensures found_at_rest { HasCleanDisk (state S.Store conn.new) → IfOk result (λ rows.
        (c : GuestContent) → Rests c (state S.Store conn.old)
        → rows.items ≡ map shown_counter c.counters) }
{
    conn.query_all(SELECT, &[])
}
