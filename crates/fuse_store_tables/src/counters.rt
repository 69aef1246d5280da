// The table of counters, `meta`.
ghost use Rattle.std.specs.Prelude.{◌≡◌, ◌<◌, ◌^◌, map, IfOk, OnOk, OnErr};
ghost use Rattle.std.specs.Option.{option_to_list};
ghost use Rattle.sqlite.specs.State.{HasCleanDisk};
ghost use Rattle.sqlite.specs.Held.{state};
ghost use Rattle.fuse_store_tables.specs.Moves.{Inside, Rests, Makes, LookedInside, Stays, Serves};
ghost use Rattle.fuse_store_tables.specs.Moves.{StaysOpen, OnlyReads};
ghost use Rattle.fuse_store_tables.specs.Content.{Content, with_counter, set_counter, shown_counter};
ghost use Rattle.fuse_store_tables.specs.Content.{counter_key, at_by};
ghost use Rattle.fuse_store_tables.specs.inner.Performing.{StaysWithin};

use crate::statements::run;
use crate::values::{number, pair};
use sqlite::{Alter, Connection, Error, Row};

/// The key of the version of the tables.
pub(crate) const VERSION: u64 = 1;

/// The key of the next node. The next fh, the next cookie and `NODES` follow.
pub const NEXT_NODE: u64 = 2;

/// The key of the next fh.
pub(crate) const NEXT_FH: u64 = 3;

/// The key of the next cookie.
pub(crate) const NEXT_COOKIE: u64 = 4;

/// The key of the number of nodes.
pub(crate) const NODES: u64 = 5;

/// The key of the number of handles.
pub const HANDLES: u64 = 6;

/// The key of whether settings were agreed on by INIT (0 or 1). The settings follow.
pub const AGREED: u64 = 7;

/// The key of the settings' minor version.
pub(crate) const MINOR: u64 = 8;

/// The key of the settings' `max_readahead`.
pub(crate) const MAX_READAHEAD: u64 = 9;

/// The key of the settings' flags.
pub(crate) const FLAGS: u64 = 10;

/// The key of the next lot.
pub const NEXT_LOT: u64 = 11;

/// The key of the profile, 2, of an everyday store. The capacity, the blocks in use and, in version
/// 3, the number of the store follow. A plain store has none of them.
pub(crate) const PROFILE: u64 = 12;

/// The key of the blocks that the store has room for.
pub(crate) const CAPACITY: u64 = 13;

/// The key of the blocks in use.
pub const USED: u64 = 14;

/// The key of the store's number, which version 3 has.
pub(crate) const NUMBER: u64 = 15;

const INSERT: &str = "INSERT INTO meta (k, v) VALUES (?1, ?2)";

const UPDATE: &str = "UPDATE meta SET v = ?2 WHERE k = ?1";

const SELECT: &str = "SELECT v FROM meta ORDER BY k";

const SELECT_ONE: &str = "SELECT v FROM meta WHERE k = ?1";

/// Adds a counter under a new key.
pub(crate) fn insert_counter<S: Alter>(
    conn: &mut Connection<S>,
    key: u64,
    value: u64,
) -> Result<(), Error>
    requires key { key < 2 ^ 63 }
    requires value { value < 2 ^ 63 }
    ensures made { Makes (with_counter key value) (state S.Store conn.old) (state S.Store conn.new)
        result }
    ensures within { StaysWithin (state S.Store conn.old) (state S.Store conn.new) result }
{
    let values = pair(key, value);
    run(conn, INSERT, &values)
}

/// Changes the value of the counter with this key.
pub(crate) fn write_counter<S: Alter>(
    conn: &mut Connection<S>,
    key: u64,
    number: u64,
) -> Result<(), Error>
    requires key { key < 2 ^ 63 }
    requires number { number < 2 ^ 63 }
    ensures made { Makes (set_counter key number) (state S.Store conn.old) (state S.Store conn.new)
        result }
    ensures within { StaysWithin (state S.Store conn.old) (state S.Store conn.new) result }
{
    let values = pair(key, number);
    run(conn, UPDATE, &values)
}

/// Changes the value of the counter with this key.
pub fn update_counter<S: Alter>(
    conn: &mut Connection<S>,
    key: u64,
    number: u64,
) -> Result<(), Error>
    requires key { key < 2 ^ 63 }
    requires number { number < 2 ^ 63 }
    ensures { Makes (set_counter key number) (state S.Store conn.old) (state S.Store conn.new)
        result }
{
    write_counter(conn, key, number)
}

/// The value of the counter with this key: one row or none.
pub(crate) fn select_counter<S: Alter>(
    conn: &mut Connection<S>,
    key: u64,
) -> Result<Vec<Row>, Error>
    requires { key < 2 ^ 63 }
    ensures made { Makes (λ c. c) (state S.Store conn.old) (state S.Store conn.new) result }
    ensures found { HasCleanDisk (state S.Store conn.new) → IfOk result (λ rows. (c : Content)
        → Inside c (state S.Store conn.old)
        → rows.items ≡ map shown_counter (option_to_list (at_by counter_key key c.counters))) }
    ensures within { StaysWithin (state S.Store conn.old) (state S.Store conn.new) result }
{
    let values = number(key);
    conn.query_all(SELECT_ONE, &values)
}

/// The values of all counters, in the order of their keys.
pub fn select_counters<S: Alter>(conn: &mut Connection<S>) -> Result<Vec<Row>, Error>
    ensures looks { OnOk result (LookedInside (state S.Store conn.old) (state S.Store conn.new)) }
    ensures fails { OnErr result (Stays (state S.Store conn.old) (state S.Store conn.new)) }
    ensures found { HasCleanDisk (state S.Store conn.new) → IfOk result (λ rows. (c : Content)
        → Inside c (state S.Store conn.old) → rows.items ≡ map shown_counter c.counters) }
    ensures rests { Serves (λ c. c) (state S.Store conn.old) (state S.Store conn.new) result }
    ensures open { StaysOpen (state S.Store conn.old) (state S.Store conn.new) result }
    // Whatever the database is, nothing is changed.
    ensures reads { OnlyReads (state S.Store conn.old) (state S.Store conn.new) result }
    ensures found_at_rest { HasCleanDisk (state S.Store conn.new) → IfOk result (λ rows.
        (c : Content) → Rests c (state S.Store conn.old)
        → rows.items ≡ map shown_counter c.counters) }
{
    conn.query_all(SELECT, &[])
}
