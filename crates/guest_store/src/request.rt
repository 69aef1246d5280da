// One request of a group, within the open transaction.
ghost use Rattle.std.specs.Prelude.{◌≡◌, ◌<◌, ◌^◌, ⊤, false, true, IfOk};
ghost use Rattle.sqlite.specs.Held.{state};
ghost use Rattle.fuse_answer.specs.Said.{FitsAnswer};
ghost use Rattle.fuse_keeper.specs.Group.{IsPerformed, entry_of};
ghost use Rattle.fuse_keeper.specs.History.{is_seen as is_seen_by};
ghost use Rattle.fuse_guest.specs.Service.{service_of};
ghost use Rattle.guest_talk.specs.TalkState.{TalkState, talk_told};
ghost use Rattle.guest_store.specs.Group.{with_record};
ghost use Rattle.guest_store.specs.Keeping.{store_of};
ghost use Rattle.guest_store.specs.inner.Acting.{keeping, recording, seeing, taking};
ghost use Rattle.guest_store.specs.inner.Stepping.{Steps, making, with_talk};

use crate::action::do_request;
use crate::store::{Deaths, GuestStore};
use fuse_answer::Answer;
use fuse_guest::{Guested, guest_is_sound, is_seen};
use fuse_keeper::{Done, StoreFault};
use fuse_request::Request;
use fuse_wire::{Id, Moment};
use guest_tables::{find_answer, insert_kept};
use sqlite::{Alter, Connection};
use std::alloc::Global;
use std::io::{Read, Write};

// A number of 32 bits is below 2^32.
fn narrow(n: u32)
    ensures { n < 2 ^ 32 }
{
    let _ = n;
}

// The error number of an answer is of 32 bits.
fn law_of_errno(answer: &Answer)
    ensures { answer.now.errno < 2 ^ 32 }
{
    narrow(answer.errno.0);
}

// Adds the record of an answer, under a lot.
fn record<G: Guested, S: Alter>(
    conn: &mut Connection<S>,
    id: u64,
    lot: u64,
    answer: &Answer,
) -> Result<(), StoreFault>
    requires id { id < 2 ^ 63 }
    requires lot { lot < 2 ^ 62 }
    requires fits { FitsAnswer answer.now }
    ensures { (t : TalkState) → Steps G.GUEST
        (making G.GUEST (with_record id lot answer.now) (λ y r. ⊤))
        (with_talk (state S.Store conn.old) t) (with_talk (state S.Store conn.new) t) result }
{
    law_of_errno(answer);
    match insert_kept(conn, id, lot, answer) {
        Ok(()) => Ok(()),
        Err(error) => Err(StoreFault::from(error)),
    }
}

// Does a request and records its answer.
fn do_and_record<G: Guested, S: Alter + Drop, R: Read + Drop, W: Write + Drop>(
    alloc: Global,
    store: &mut GuestStore<S, R, W>,
    deaths: Option<Deaths>,
    lot: u64,
    request: &Request<'_>,
    now: Moment,
) -> Result<Done, StoreFault>
    requires lot { lot < 2 ^ 62 }
    ensures steps { Steps G.GUEST (recording G.GUEST deaths lot (entry_of (request.now, now)))
        (store_of S.Store R.remaining W.contents store.old)
        (store_of S.Store R.remaining W.contents store.new) result }
    ensures new { IfOk result (λ done. done.repeated ≡ false) }
{
    let answer = match do_request::<G, S, R, W>(alloc, store, deaths, request, now) {
        Ok(answer) => answer,
        Err(fault) => return Err(fault),
    };
    let id = Id::of(request.header.unique).0;
    match record::<G, S>(&mut store.pairs.conn, id, lot, &answer) {
        Ok(()) => Ok(Done {
            answer,
            repeated: false,
        }),
        Err(fault) => Err(fault),
    }
}

// Sees a request: it looks for no record and leaves none.
fn see_one<G: Guested, S: Alter + Drop, R: Read + Drop, W: Write + Drop>(
    alloc: Global,
    store: &mut GuestStore<S, R, W>,
    deaths: Option<Deaths>,
    request: &Request<'_>,
    now: Moment,
) -> Result<Done, StoreFault>
    ensures steps { Steps G.GUEST (seeing G.GUEST deaths (entry_of (request.now, now)))
        (store_of S.Store R.remaining W.contents store.old)
        (store_of S.Store R.remaining W.contents store.new) result }
    ensures new { IfOk result (λ done. done.repeated ≡ false) }
{
    match do_request::<G, S, R, W>(alloc, store, deaths, request, now) {
        Ok(answer) => Ok(Done {
            answer,
            repeated: false,
        }),
        Err(fault) => Err(fault),
    }
}

// Replays or does a request that is kept.
fn keep_one<G: Guested, S: Alter + Drop, R: Read + Drop, W: Write + Drop>(
    alloc: Global,
    store: &mut GuestStore<S, R, W>,
    deaths: Option<Deaths>,
    lot: u64,
    request: &Request<'_>,
    now: Moment,
) -> Result<Done, StoreFault>
    requires lot { lot < 2 ^ 62 }
    ensures steps { Steps G.GUEST (keeping G.GUEST deaths lot (entry_of (request.now, now)))
        (store_of S.Store R.remaining W.contents store.old)
        (store_of S.Store R.remaining W.contents store.new) result }
    // What has a record isn't asked.
    ensures silent { IfOk result (λ done. done.repeated ≡ true
        → (store_of S.Store R.remaining W.contents store.new).talk.events
        ≡ (store_of S.Store R.remaining W.contents store.old).talk.events) }
{
    let id = Id::of(request.header.unique).0;
    match find_answer(&mut store.pairs.conn, id) {
        Ok(Some(answer)) => Ok(Done {
            answer,
            repeated: true,
        }),
        Ok(None) => do_and_record::<G, S, R, W>(alloc, store, deaths, lot, request, now),
        Err(fault) => Err(fault),
    }
}

/// Takes one request: a kept one whose id has a record is a repeat.
pub(crate) fn take_one<G: Guested, S: Alter + Drop, R: Read + Drop, W: Write + Drop>(
    alloc: Global,
    store: &mut GuestStore<S, R, W>,
    deaths: Option<Deaths>,
    lot: u64,
    request: &Request<'_>,
    now: Moment,
) -> Result<Done, StoreFault>
    requires lot { lot < 2 ^ 62 }
    requires performed { IsPerformed
        (service_of (store_of S.Store R.remaining W.contents store.old).talk.ready)
        (entry_of (request.now, now)) }
    ensures steps { Steps G.GUEST (taking G.GUEST deaths lot (entry_of (request.now, now)))
        (store_of S.Store R.remaining W.contents store.old)
        (store_of S.Store R.remaining W.contents store.new) result }
    // What has a record isn't asked.
    ensures silent { IfOk result (λ done. done.repeated ≡ true
        → (store_of S.Store R.remaining W.contents store.new).talk.events
        ≡ (store_of S.Store R.remaining W.contents store.old).talk.events) }
{
    guest_is_sound::<G>();
    let ready = store.talk.ready();
    if is_seen(&ready, request.op.opcode()) {
        see_one::<G, S, R, W>(alloc, store, deaths, request, now)
    } else {
        keep_one::<G, S, R, W>(alloc, store, deaths, lot, request, now)
    }
}
