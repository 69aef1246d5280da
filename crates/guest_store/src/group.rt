// A group of requests, within the open transaction.
ghost use Rattle.std.specs.Prelude.{◌≡◌, ◌<◌, ◌^◌, All, IfOk, IfSome, length};
ghost use Rattle.fuse_keeper.specs.Group.{IsPerformed, entries_of, ids_of};
ghost use Rattle.fuse_guest.specs.Service.{service_of};
ghost use Rattle.guest_store.specs.Keeping.{store_of};
ghost use Rattle.guest_store.specs.Repeats.{AllAgain};
ghost use Rattle.guest_store.specs.inner.Stepping.{Steps};
ghost use Rattle.guest_store.specs.inner.Transacting.{grouping, transacting};

use crate::lots::take_lot;
use crate::request::take_one;
use crate::settled_ids::settle;
use crate::store::{Deaths, GuestStore};
use fuse_guest::Guested;
use fuse_keeper::{Done, StoreFault};
use fuse_request::Request;
use fuse_wire::{Id, Moment};
use sqlite::Alter;
use std::alloc::Global;
use std::io::{Read, Write};

/// The answers of a group whose records went under this lot.
#[derive(Drop)]
pub(crate) struct Transacted {
    pub(crate) lot: u64,
    pub(crate) dones: Vec<Done>,
}

/// Takes the requests of a group, one after the other.
pub(crate) fn take_all<G: Guested, S: Alter + Drop, R: Read + Drop, W: Write + Drop>(
    alloc: Global,
    store: &mut GuestStore<S, R, W>,
    deaths: Option<Deaths>,
    lot: u64,
    group: &[(Request<'_>, Moment)],
) -> Result<Transacted, StoreFault>
    requires lot { lot < 2 ^ 62 }
    requires performed { All (IsPerformed
        (service_of (store_of S.Store R.remaining W.contents store.old).talk.ready))
        (entries_of group.now) }
    ensures count { IfOk result (λ p. length p.dones.items ≡ length group.now) }
    ensures lot { IfOk result (λ p. p.lot ≡ lot) }
    ensures steps { Steps G.GUEST (grouping G.GUEST deaths lot (entries_of group.now))
        (store_of S.Store R.remaining W.contents store.old)
        (store_of S.Store R.remaining W.contents store.new) result }
    ensures silent { IfOk result (λ p. AllAgain p.dones.items
        → (store_of S.Store R.remaining W.contents store.new).talk.events
        ≡ (store_of S.Store R.remaining W.contents store.old).talk.events) }
{
    let mut dones = Vec::new(alloc);
    for one in group {
        let done = match take_one::<G, S, R, W>(alloc, store, deaths, lot, &one.0, one.1) {
            Ok(done) => done,
            Err(fault) => return Err(fault),
        };
        dones.push(done)?;
    }
    Ok(Transacted { lot, dones })
}

/// Deletes the settled ids' records, allocates this opening's lot number where it has none, and
/// takes the requests of a group.
pub(crate) fn perform_in<G: Guested, S: Alter + Drop, R: Read + Drop, W: Write + Drop>(
    alloc: Global,
    store: &mut GuestStore<S, R, W>,
    deaths: Option<Deaths>,
    lot: Option<u64>,
    group: &[(Request<'_>, Moment)],
    settled: &[Id],
) -> Result<Transacted, StoreFault>
    requires lot { IfSome lot (λ n. n < 2 ^ 62) }
    requires performed { All (IsPerformed
        (service_of (store_of S.Store R.remaining W.contents store.old).talk.ready))
        (entries_of group.now) }
    ensures count { IfOk result (λ p. length p.dones.items ≡ length group.now) }
    ensures low { IfOk result (λ p. p.lot < 2 ^ 62) }
    ensures steps { Steps G.GUEST
        (transacting G.GUEST deaths lot (ids_of settled.now) (entries_of group.now))
        (store_of S.Store R.remaining W.contents store.old)
        (store_of S.Store R.remaining W.contents store.new) result }
    ensures silent { IfOk result (λ p. AllAgain p.dones.items
        → (store_of S.Store R.remaining W.contents store.new).talk.events
        ≡ (store_of S.Store R.remaining W.contents store.old).talk.events) }
{
    match settle::<G, S>(&mut store.pairs.conn, settled) {
        Ok(()) => {}
        Err(fault) => return Err(fault),
    }
    let lot = match take_lot::<G, S>(&mut store.pairs.conn, lot) {
        Ok(lot) => lot,
        Err(fault) => return Err(fault),
    };
    take_all::<G, S, R, W>(alloc, store, deaths, lot, group)
}
