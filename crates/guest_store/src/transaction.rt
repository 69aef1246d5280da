// A group of requests as a whole transaction.
ghost use Rattle.std.specs.Prelude.{◌≡◌, ◌≢◌, ◌<◌, ◌^◌, [], None, true, false, All, length};
ghost use Rattle.std.specs.Prelude.{IfOk, IfSome, OnOk};
ghost use Rattle.sqlite.specs.State.{HasCleanDisk};
ghost use Rattle.fuse_keeper.specs.Group.{IsPerformed, entries_of, ids_of};
ghost use Rattle.fuse_keeper.specs.History.{kept_of};
ghost use Rattle.fuse_guest.specs.Service.{service_of};
ghost use Rattle.fuse_store_tables.specs.Moves.{CommitsNothing, LeavesAlone};
ghost use Rattle.guest_store.specs.Group.{keeps_nothing};
ghost use Rattle.guest_store.specs.Keeping.{store_of};
ghost use Rattle.guest_store.specs.Repeats.{AllAgain};
ghost use Rattle.guest_store.specs.StoreState.{EndsWhole};
ghost use Rattle.guest_store.specs.inner.Transacting.{Serves, Transacts, Tries, performing, sighting};
ghost use Rattle.guest_store.specs.inner.Transacting.{transacting};

use crate::group::{Transacted, perform_in, take_all};
use crate::store::{Deaths, GuestStore};
use fuse_guest::{Guested, is_seen};
use fuse_keeper::{Done, StoreFault};
use fuse_request::Request;
use fuse_store_tables::{begin, commit, go_back, undo};
use fuse_wire::{Id, Moment};
use guest_frames::Ready;
use sqlite::Alter;
use std::alloc::Global;
use std::io::{Read, Write};

/// The answers of a group, and the lot of this opening then.
#[derive(Drop)]
pub(crate) struct Performed {
    pub(crate) lot: Option<u64>,
    pub(crate) dones: Vec<Done>,
}

// The transaction. A fault may leave it open.
fn transact<G: Guested, S: Alter + Drop, R: Read + Drop, W: Write + Drop>(
    alloc: Global,
    store: &mut GuestStore<S, R, W>,
    deaths: Option<Deaths>,
    lot: Option<u64>,
    group: &[(Request<'_>, Moment)],
    settled: &[Id],
) -> Result<Transacted, StoreFault>
    requires lot { IfSome lot (λ n. n < 2 ^ 62) }
    requires performed { All (IsPerformed
        (service_of (store_of S.Store R.remaining W.contents store.old).talk.ready))
        (entries_of group.now) }
    ensures count { IfOk result (λ p. length p.dones.items ≡ length group.now) }
    ensures low { IfOk result (λ p. p.lot < 2 ^ 62) }
    ensures transacts { Transacts G.GUEST
        (transacting G.GUEST deaths lot (ids_of settled.now) (entries_of group.now))
        (store_of S.Store R.remaining W.contents store.old)
        (store_of S.Store R.remaining W.contents store.new) result }
    ensures tries { Tries (store_of S.Store R.remaining W.contents store.old).tables
        (store_of S.Store R.remaining W.contents store.new).tables result }
    ensures silent { IfOk result (λ p. AllAgain p.dones.items
        → (store_of S.Store R.remaining W.contents store.new).talk.events
        ≡ (store_of S.Store R.remaining W.contents store.old).talk.events) }
{
    match begin(&mut store.pairs.conn) {
        Ok(()) => {}
        Err(error) => return Err(StoreFault::from(error)),
    }
    let transacted = match perform_in::<G, S, R, W>(alloc, store, deaths, lot, group, settled) {
        Ok(transacted) => transacted,
        Err(fault) => return Err(fault),
    };
    match commit(&mut store.pairs.conn) {
        Ok(()) => Ok(transacted),
        Err(error) => Err(StoreFault::from(error)),
    }
}

// Performs a group in one transaction. Its commit is the last call of the database, and any fault
// takes all of it back.
fn commit_group<G: Guested, S: Alter + Drop, R: Read + Drop, W: Write + Drop>(
    alloc: Global,
    store: &mut GuestStore<S, R, W>,
    deaths: Option<Deaths>,
    lot: Option<u64>,
    group: &[(Request<'_>, Moment)],
    settled: &[Id],
) -> Result<Transacted, StoreFault>
    requires lot { IfSome lot (λ n. n < 2 ^ 62) }
    requires performed { All (IsPerformed
        (service_of (store_of S.Store R.remaining W.contents store.old).talk.ready))
        (entries_of group.now) }
    ensures count { IfOk result (λ p. length p.dones.items ≡ length group.now) }
    ensures low { IfOk result (λ p. p.lot < 2 ^ 62) }
    ensures serves { Serves G.GUEST
        (transacting G.GUEST deaths lot (ids_of settled.now) (entries_of group.now))
        (store_of S.Store R.remaining W.contents store.old)
        (store_of S.Store R.remaining W.contents store.new) result }
    ensures ends { EndsWhole (store_of S.Store R.remaining W.contents store.old).tables
        (store_of S.Store R.remaining W.contents store.new).tables result }
    ensures silent { IfOk result (λ p. AllAgain p.dones.items
        → (store_of S.Store R.remaining W.contents store.new).talk.events
        ≡ (store_of S.Store R.remaining W.contents store.old).talk.events) }
{
    match transact::<G, S, R, W>(alloc, store, deaths, lot, group, settled) {
        Ok(transacted) => Ok(transacted),
        Err(fault) => {
            undo(&mut store.pairs.conn);
            Err(fault)
        }
    }
}

// Sees the requests of a group in a transaction that is rolled back. A fault may leave it open.
fn see_inside<G: Guested, S: Alter + Drop, R: Read + Drop, W: Write + Drop>(
    alloc: Global,
    store: &mut GuestStore<S, R, W>,
    deaths: Option<Deaths>,
    group: &[(Request<'_>, Moment)],
) -> Result<Transacted, StoreFault>
    requires performed { All (IsPerformed
        (service_of (store_of S.Store R.remaining W.contents store.old).talk.ready))
        (entries_of group.now) }
    requires seen { kept_of
        (service_of (store_of S.Store R.remaining W.contents store.old).talk.ready)
        (entries_of group.now) ≡ [] }
    ensures count { IfOk result (λ p. length p.dones.items ≡ length group.now) }
    ensures transacts { Transacts G.GUEST (sighting G.GUEST deaths (entries_of group.now))
        (store_of S.Store R.remaining W.contents store.old)
        (store_of S.Store R.remaining W.contents store.new) result }
    ensures nothing { CommitsNothing (store_of S.Store R.remaining W.contents store.old).tables
        (store_of S.Store R.remaining W.contents store.new).tables }
    ensures back { OnOk result (HasCleanDisk (store_of S.Store R.remaining W.contents store.new).tables
        → (store_of S.Store R.remaining W.contents store.new).tables.now
        ≡ (store_of S.Store R.remaining W.contents store.new).tables.committed) }
    ensures silent { IfOk result (λ p. AllAgain p.dones.items
        → (store_of S.Store R.remaining W.contents store.new).talk.events
        ≡ (store_of S.Store R.remaining W.contents store.old).talk.events) }
{
    match begin(&mut store.pairs.conn) {
        Ok(()) => {}
        Err(error) => return Err(StoreFault::from(error)),
    }
    // No record is added, so it doesn't matter under which lot.
    let seen = match take_all::<G, S, R, W>(alloc, store, deaths, 0, group) {
        Ok(seen) => seen,
        Err(fault) => return Err(fault),
    };
    match go_back(&mut store.pairs.conn) {
        Ok(()) => Ok(seen),
        Err(error) => Err(StoreFault::from(error)),
    }
}

// Sees the requests of a group of which none is kept. Nothing is changed, whether it succeeds or
// not.
fn see_at_rest<G: Guested, S: Alter + Drop, R: Read + Drop, W: Write + Drop>(
    alloc: Global,
    store: &mut GuestStore<S, R, W>,
    deaths: Option<Deaths>,
    group: &[(Request<'_>, Moment)],
) -> Result<Transacted, StoreFault>
    requires performed { All (IsPerformed
        (service_of (store_of S.Store R.remaining W.contents store.old).talk.ready))
        (entries_of group.now) }
    requires seen { kept_of
        (service_of (store_of S.Store R.remaining W.contents store.old).talk.ready)
        (entries_of group.now) ≡ [] }
    ensures count { IfOk result (λ p. length p.dones.items ≡ length group.now) }
    ensures serves { Serves G.GUEST (sighting G.GUEST deaths (entries_of group.now))
        (store_of S.Store R.remaining W.contents store.old)
        (store_of S.Store R.remaining W.contents store.new) result }
    ensures alone { LeavesAlone (store_of S.Store R.remaining W.contents store.old).tables
        (store_of S.Store R.remaining W.contents store.new).tables }
    ensures silent { IfOk result (λ p. AllAgain p.dones.items
        → (store_of S.Store R.remaining W.contents store.new).talk.events
        ≡ (store_of S.Store R.remaining W.contents store.old).talk.events) }
{
    match see_inside::<G, S, R, W>(alloc, store, deaths, group) {
        Ok(seen) => Ok(seen),
        Err(fault) => {
            undo(&mut store.pairs.conn);
            Err(fault)
        }
    }
}

// Whether one of these requests is kept, and not seen.
fn keeps_any(ready: &Ready, group: &[(Request<'_>, Moment)]) -> bool
    ensures some { result ≡ true → ¬ (kept_of (service_of ready.now) (entries_of group.now) ≡ []) }
    ensures none { result ≡ false → kept_of (service_of ready.now) (entries_of group.now) ≡ [] }
{
    for one in group {
        if !is_seen(ready, one.0.op.opcode()) {
            return true;
        }
    }
    false
}

// Whether nothing is to be kept: no request of the group is, and no id is settled.
fn only_sees(ready: &Ready, group: &[(Request<'_>, Moment)], settled: &[Id]) -> bool
    ensures { result ≡ keeps_nothing (kept_of (service_of ready.now) (entries_of group.now))
        (ids_of settled.now) }
{
    settled.is_empty() && !keeps_any(ready, group)
}

// A group of which nothing is to be kept.
fn see_group<G: Guested, S: Alter + Drop, R: Read + Drop, W: Write + Drop>(
    alloc: Global,
    store: &mut GuestStore<S, R, W>,
    deaths: Option<Deaths>,
    lot: Option<u64>,
    group: &[(Request<'_>, Moment)],
    settled: &[Id],
) -> Result<Performed, StoreFault>
    requires lot { IfSome lot (λ n. n < 2 ^ 62) }
    requires performed { All (IsPerformed
        (service_of (store_of S.Store R.remaining W.contents store.old).talk.ready))
        (entries_of group.now) }
    requires nothing { keeps_nothing (kept_of
        (service_of (store_of S.Store R.remaining W.contents store.old).talk.ready)
        (entries_of group.now)) (ids_of settled.now) ≡ true }
    ensures count { IfOk result (λ p. length p.dones.items ≡ length group.now) }
    ensures low { IfOk result (λ p. IfSome p.lot (λ n. n < 2 ^ 62)) }
    ensures serves { Serves G.GUEST
        (performing G.GUEST deaths lot (ids_of settled.now) (entries_of group.now))
        (store_of S.Store R.remaining W.contents store.old)
        (store_of S.Store R.remaining W.contents store.new) result }
    ensures same_lot { IfOk result (λ p. p.lot ≡ lot) }
    ensures alone { LeavesAlone (store_of S.Store R.remaining W.contents store.old).tables
        (store_of S.Store R.remaining W.contents store.new).tables }
    ensures ends { EndsWhole (store_of S.Store R.remaining W.contents store.old).tables
        (store_of S.Store R.remaining W.contents store.new).tables result }
    ensures silent { IfOk result (λ p. AllAgain p.dones.items
        → (store_of S.Store R.remaining W.contents store.new).talk.events
        ≡ (store_of S.Store R.remaining W.contents store.old).talk.events) }
{
    match see_at_rest::<G, S, R, W>(alloc, store, deaths, group) {
        Ok(seen) => Ok(Performed {
            lot,
            dones: seen.dones,
        }),
        Err(fault) => Err(fault),
    }
}

// Any other group.
fn keep_group<G: Guested, S: Alter + Drop, R: Read + Drop, W: Write + Drop>(
    alloc: Global,
    store: &mut GuestStore<S, R, W>,
    deaths: Option<Deaths>,
    lot: Option<u64>,
    group: &[(Request<'_>, Moment)],
    settled: &[Id],
) -> Result<Performed, StoreFault>
    requires lot { IfSome lot (λ n. n < 2 ^ 62) }
    requires performed { All (IsPerformed
        (service_of (store_of S.Store R.remaining W.contents store.old).talk.ready))
        (entries_of group.now) }
    requires some { keeps_nothing (kept_of
        (service_of (store_of S.Store R.remaining W.contents store.old).talk.ready)
        (entries_of group.now)) (ids_of settled.now) ≡ false }
    ensures count { IfOk result (λ p. length p.dones.items ≡ length group.now) }
    ensures low { IfOk result (λ p. IfSome p.lot (λ n. n < 2 ^ 62)) }
    ensures serves { Serves G.GUEST
        (performing G.GUEST deaths lot (ids_of settled.now) (entries_of group.now))
        (store_of S.Store R.remaining W.contents store.old)
        (store_of S.Store R.remaining W.contents store.new) result }
    ensures some_lot { IfOk result (λ p. p.lot ≢ None) }
    ensures ends { EndsWhole (store_of S.Store R.remaining W.contents store.old).tables
        (store_of S.Store R.remaining W.contents store.new).tables result }
    ensures silent { IfOk result (λ p. AllAgain p.dones.items
        → (store_of S.Store R.remaining W.contents store.new).talk.events
        ≡ (store_of S.Store R.remaining W.contents store.old).talk.events) }
{
    match commit_group::<G, S, R, W>(alloc, store, deaths, lot, group, settled) {
        Ok(transacted) => Ok(Performed {
            lot: Some(transacted.lot),
            dones: transacted.dones,
        }),
        Err(fault) => Err(fault),
    }
}

/// Performs a group. Where nothing is to be kept, nothing is changed or committed. Else it is one
/// transaction, whose commit is the last call of the database: a fault leaves the state before the
/// group, and a crash leaves the state before or after it. After a call that failed nothing is
/// performed: the guest may be in the middle of a request, and knows nothing of what was taken back.
pub(crate) fn perform<G: Guested, S: Alter + Drop, R: Read + Drop, W: Write + Drop>(
    alloc: Global,
    store: &mut GuestStore<S, R, W>,
    deaths: Option<Deaths>,
    lot: Option<u64>,
    failed: bool,
    group: &[(Request<'_>, Moment)],
    settled: &[Id],
) -> Result<Performed, StoreFault>
    requires lot { IfSome lot (λ n. n < 2 ^ 62) }
    requires performed { All (IsPerformed
        (service_of (store_of S.Store R.remaining W.contents store.old).talk.ready))
        (entries_of group.now) }
    ensures count { IfOk result (λ p. length p.dones.items ≡ length group.now) }
    ensures low { IfOk result (λ p. IfSome p.lot (λ n. n < 2 ^ 62)) }
    ensures serves { Serves G.GUEST
        (performing G.GUEST deaths lot (ids_of settled.now) (entries_of group.now))
        (store_of S.Store R.remaining W.contents store.old)
        (store_of S.Store R.remaining W.contents store.new) result }
    ensures same_lot { keeps_nothing (kept_of
        (service_of (store_of S.Store R.remaining W.contents store.old).talk.ready)
        (entries_of group.now)) (ids_of settled.now) ≡ true → IfOk result (λ p. p.lot ≡ lot) }
    ensures some_lot { keeps_nothing (kept_of
        (service_of (store_of S.Store R.remaining W.contents store.old).talk.ready)
        (entries_of group.now)) (ids_of settled.now) ≡ false → IfOk result (λ p. p.lot ≢ None) }
    ensures going { OnOk result (failed ≡ false) }
    // Whatever the database is.
    ensures ends { EndsWhole (store_of S.Store R.remaining W.contents store.old).tables
        (store_of S.Store R.remaining W.contents store.new).tables result }
    ensures alone { keeps_nothing (kept_of
        (service_of (store_of S.Store R.remaining W.contents store.old).talk.ready)
        (entries_of group.now)) (ids_of settled.now) ≡ true → LeavesAlone
        (store_of S.Store R.remaining W.contents store.old).tables
        (store_of S.Store R.remaining W.contents store.new).tables }
    ensures silent { IfOk result (λ p. AllAgain p.dones.items
        → (store_of S.Store R.remaining W.contents store.new).talk.events
        ≡ (store_of S.Store R.remaining W.contents store.old).talk.events) }
{
    if failed {
        undo(&mut store.pairs.conn);
        return Err(StoreFault::Guest);
    }
    let ready = store.talk.ready();
    if only_sees(&ready, group, settled) {
        see_group::<G, S, R, W>(alloc, store, deaths, lot, group, settled)
    } else {
        keep_group::<G, S, R, W>(alloc, store, deaths, lot, group, settled)
    }
}
