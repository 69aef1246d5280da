// What a guest is asked, and what came of it.
ghost use Rattle.std.specs.Prelude.{◌≡◌};
ghost use Rattle.fuse_request.specs.Act.{asked};
ghost use Rattle.guest_store.specs.Asks.{deaths_before};
ghost use Rattle.guest_store.specs.Keeping.{store_of};
ghost use Rattle.guest_store.specs.inner.Acting.{ask_fault, asking};
ghost use Rattle.guest_store.specs.inner.Stepping.{Steps};

use crate::store::{Broken, Deaths, GuestStore};
use fuse_guest::Guested;
use fuse_keeper::StoreFault;
use fuse_request::Request;
use fuse_wire::{Id, Moment};
use guest_tables::pair_steps_fit;
use guest_talk::{AskFault, GuestAnswer};
use sqlite::Alter;
use std::alloc::Global;
use std::io::{Read, Write};

// A request that ended so many guests in a row isn't asked any more.
const MOST_DEATHS: u32 = 3;

/// What came of a request that was handed on.
#[derive(Drop)]
pub(crate) enum Reply {
    Answered(GuestAnswer),
    /// It ended three guests in a row, and none was asked.
    GivenUp,
}

// How many guests in a row this request ended.
fn deaths_of(deaths: Option<Deaths>, id: u64) -> u32
    ensures { result ≡ deaths_before deaths id }
{
    match deaths {
        Some(deaths) if deaths.id == id => deaths.count,
        _ => 0,
    }
}

// What a request without an answer ends the call with. It is kept for the program's line.
fn end_by<S: Alter, R, W>(
    store: &mut GuestStore<S, R, W>,
    request: &Request<'_>,
    fault: AskFault,
) -> StoreFault
    ensures fault { result ≡ ask_fault fault }
    ensures pairs { store.new.pairs ≡ store.old.pairs }
    ensures talk { store.new.talk ≡ store.old.talk }
{
    let fault = match fault {
        AskFault::Store(fault) => return fault,
        AskFault::Guest(fault) => Some(fault),
        AskFault::Unsayable => None,
    };
    store.broken = Some(Broken {
        id: Id::of(request.header.unique).0,
        opcode: request.op.opcode(),
        fault,
    });
    StoreFault::Guest
}

/// Asks the guest a request of this moment, over the pairs as they stand in the transaction.
pub(crate) fn ask<G: Guested, S: Alter + Drop, R: Read + Drop, W: Write + Drop>(
    alloc: Global,
    store: &mut GuestStore<S, R, W>,
    deaths: Option<Deaths>,
    request: &Request<'_>,
    now: Moment,
) -> Result<Reply, StoreFault>
    ensures { Steps G.GUEST (asking G.GUEST deaths (asked request.now) now)
        (store_of S.Store R.remaining W.contents store.old)
        (store_of S.Store R.remaining W.contents store.new) result }
{
    pair_steps_fit();
    let id = Id::of(request.header.unique).0;
    let count = deaths_of(deaths, id);
    if count >= MOST_DEATHS {
        return match store.talk.give_up(request, now, count) {
            Ok(()) => Ok(Reply::GivenUp),
            Err(fault) => Err(end_by(store, request, fault)),
        };
    }
    match store.talk.ask(alloc, &mut store.pairs, request, now, count) {
        Ok(answer) => Ok(Reply::Answered(answer)),
        Err(fault) => Err(end_by(store, request, fault)),
    }
}
