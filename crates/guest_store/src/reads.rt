// Calls of the tables outside a transaction.
ghost use Rattle.std.specs.Prelude.{◌≡◌, ⊤, length, IfErr};
ghost use Rattle.sqlite.specs.Held.{state};
ghost use Rattle.guest_talk.specs.TalkState.{TalkState};
ghost use Rattle.guest_store.specs.Holding.{records_of};
ghost use Rattle.fuse_store_tables.specs.Faults.{IsOutside};
ghost use Rattle.guest_store.specs.Mounting.{begun};
ghost use Rattle.guest_store.specs.StoreState.{EndsWhole};
ghost use Rattle.guest_store.specs.inner.Stepping.{making, with_talk};
ghost use Rattle.guest_store.specs.inner.Transacting.{Serves, counting};

use fuse_answer::Answer;
use fuse_guest::Guested;
use fuse_init::Settings;
use fuse_keeper::{StoreCounts, StoreFault};
use guest_tables::{count_kept, count_lots, count_pairs, find_answer, find_settings};
use sqlite::{Alter, Connection};

// All ids of records are below it.
const END: u64 = 1 << 63;

/// Begins a mount: the pairs stay, and all else of the last mount is deleted.
pub(crate) fn begin_mount<G: Guested, S: Alter>(conn: &mut Connection<S>) -> Result<(), StoreFault>
    ensures serves { (t : TalkState) → Serves G.GUEST (making G.GUEST (λ y. begun y) (λ y r. ⊤))
        (with_talk (state S.Store conn.old) t) (with_talk (state S.Store conn.new) t) result }
    ensures ends { EndsWhole (state S.Store conn.old) (state S.Store conn.new) result }
    ensures outside { IfErr result IsOutside }
{
    guest_tables::begin_mount(conn)
}

/// The answer in the record of this id. No record has an id from 2^63 on.
pub(crate) fn answer_at_rest<G: Guested, S: Alter>(
    conn: &mut Connection<S>,
    id: u64,
) -> Result<Option<Answer>, StoreFault>
    ensures { (t : TalkState) → Serves G.GUEST
        (making G.GUEST (λ y. y) (λ y r. r ≡ records_of y.kept id))
        (with_talk (state S.Store conn.old) t) (with_talk (state S.Store conn.new) t) result }
{
    if id >= END {
        return Ok(None);
    }
    find_answer(conn, id)
}

/// The settings, if any were agreed on.
pub(crate) fn settings_at_rest<G: Guested, S: Alter>(
    conn: &mut Connection<S>,
) -> Result<Option<Settings>, StoreFault>
    ensures { (t : TalkState) → Serves G.GUEST
        (making G.GUEST (λ y. y) (λ y r. r ≡ y.state.settings))
        (with_talk (state S.Store conn.old) t) (with_talk (state S.Store conn.new) t) result }
{
    find_settings(conn)
}

// The number of pairs.
fn pairs_at_rest<G: Guested, S: Alter>(conn: &mut Connection<S>) -> Result<u64, StoreFault>
    ensures { (t : TalkState) → Serves G.GUEST
        (making G.GUEST (λ y. y) (λ y n. n ≡ length y.state.pairs))
        (with_talk (state S.Store conn.old) t) (with_talk (state S.Store conn.new) t) result }
{
    count_pairs(conn)
}

fn records_at_rest<G: Guested, S: Alter>(conn: &mut Connection<S>) -> Result<u64, StoreFault>
    ensures { (t : TalkState) → Serves G.GUEST
        (making G.GUEST (λ y. y) (λ y n. n ≡ length y.kept))
        (with_talk (state S.Store conn.old) t) (with_talk (state S.Store conn.new) t) result }
{
    count_kept(conn)
}

fn lots_at_rest<G: Guested, S: Alter>(conn: &mut Connection<S>) -> Result<u64, StoreFault>
    ensures { (t : TalkState) → Serves G.GUEST
        (making G.GUEST (λ y. y) (λ y n. n ≡ length y.lots))
        (with_talk (state S.Store conn.old) t) (with_talk (state S.Store conn.new) t) result }
{
    count_lots(conn)
}

/// The numbers of pairs, which are its nodes, of records and of lots. It has no handles.
pub(crate) fn counts_at_rest<G: Guested, S: Alter>(
    conn: &mut Connection<S>,
) -> Result<StoreCounts, StoreFault>
    ensures { (t : TalkState) → Serves G.GUEST (counting G.GUEST)
        (with_talk (state S.Store conn.old) t) (with_talk (state S.Store conn.new) t) result }
{
    let nodes = match pairs_at_rest::<G, S>(conn) {
        Ok(nodes) => nodes,
        Err(fault) => return Err(fault),
    };
    let records = match records_at_rest::<G, S>(conn) {
        Ok(records) => records,
        Err(fault) => return Err(fault),
    };
    match lots_at_rest::<G, S>(conn) {
        Ok(lots) => Ok(StoreCounts {
            nodes,
            handles: 0,
            records,
            lots,
        }),
        Err(fault) => Err(fault),
    }
}
