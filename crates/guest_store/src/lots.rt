// The lot number of an opening.
ghost use Rattle.std.specs.Prelude.{◌≡◌, ◌+◌, ◌<◌, ◌^◌, IfOk, IfSome};
ghost use Rattle.sqlite.specs.Held.{state};
ghost use Rattle.guest_tables.specs.Content.{next_lot_key, set_counter, with_lot};
ghost use Rattle.guest_tables.specs.Moves.{Makes};
ghost use Rattle.guest_talk.specs.TalkState.{TalkState};
ghost use Rattle.guest_store.specs.inner.Stepping.{Steps, with_talk};
ghost use Rattle.guest_store.specs.inner.Lotting.{lotting, lotting_next};

use fuse_guest::Guested;
use fuse_keeper::StoreFault;
use guest_tables::{NEXT_LOT, find_next_lot, insert_lot, update_counter};
use sqlite::{Alter, Connection, Error};

// All lot numbers are below it.
const END: u64 = 1 << 62;

// Adds a lot. The next lot number follows it.
fn add_lot<S: Alter>(conn: &mut Connection<S>, lot: u64) -> Result<(), Error>
    requires { lot < 2 ^ 62 }
    ensures { Makes (λ c. set_counter next_lot_key (lot + 1) (with_lot lot c)) (state S.Store conn.old)
        (state S.Store conn.new) result }
{
    insert_lot(conn, lot)?;
    update_counter(conn, NEXT_LOT, lot + 1)
}

// Allocates the next lot number.
fn take_next<G: Guested, S: Alter>(conn: &mut Connection<S>) -> Result<u64, StoreFault>
    ensures steps { (t : TalkState) → Steps G.GUEST (lotting_next G.GUEST)
        (with_talk (state S.Store conn.old) t) (with_talk (state S.Store conn.new) t) result }
    ensures low { IfOk result (λ lot. lot < 2 ^ 62) }
{
    let lot = match find_next_lot(conn) {
        Ok(lot) => lot,
        Err(fault) => return Err(fault),
    };
    if lot >= END {
        return Err(StoreFault::Damaged);
    }
    match add_lot(conn, lot) {
        Ok(()) => Ok(lot),
        Err(error) => Err(StoreFault::from(error)),
    }
}

/// This opening's lot number, which is allocated where there is none.
pub(crate) fn take_lot<G: Guested, S: Alter>(
    conn: &mut Connection<S>,
    lot: Option<u64>,
) -> Result<u64, StoreFault>
    requires { IfSome lot (λ n. n < 2 ^ 62) }
    // The fault is `Damaged` only where no lot number is left.
    ensures steps { (t : TalkState) → Steps G.GUEST (lotting G.GUEST lot)
        (with_talk (state S.Store conn.old) t) (with_talk (state S.Store conn.new) t) result }
    ensures low { IfOk result (λ n. n < 2 ^ 62) }
{
    match lot {
        Some(lot) => Ok(lot),
        None => take_next::<G, S>(conn),
    }
}
