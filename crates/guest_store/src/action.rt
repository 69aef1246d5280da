// One request, done.
ghost use Rattle.fuse_request.specs.Act.{act, asked};
ghost use Rattle.fuse_keeper.specs.Group.{entry_of};
ghost use Rattle.guest_store.specs.Keeping.{store_of};
ghost use Rattle.guest_store.specs.inner.Acting.{acting, carrying, planning};
ghost use Rattle.guest_store.specs.inner.Stepping.{Steps};

use crate::deciding::{Decision, decide};
use crate::replies::{init_answer, initiate, reply};
use crate::store::{Deaths, GuestStore};
use fuse_answer::Answer;
use fuse_guest::Guested;
use fuse_keeper::StoreFault;
use fuse_request::{Op, Request};
use fuse_wire::{ByteList, Moment};
use guest_tables::find_settings;
use sqlite::Alter;
use std::alloc::Global;
use std::io::{Read, Write};

// What is done about a request.
fn plan<G: Guested, S: Alter + Drop, R: Read + Drop, W: Write + Drop>(
    store: &mut GuestStore<S, R, W>,
    op: &Op<'_>,
) -> Result<Decision, StoreFault>
    ensures { Steps G.GUEST (planning G.GUEST (act op.now))
        (store_of S.Store R.remaining W.contents store.old)
        (store_of S.Store R.remaining W.contents store.new) result }
{
    let ready = store.talk.ready();
    match find_settings(&mut store.pairs.conn) {
        Ok(settings) => Ok(decide(&ready, settings.is_some(), op)),
        Err(fault) => Err(fault),
    }
}

// Does it.
fn carry_out<G: Guested, S: Alter + Drop, R: Read + Drop, W: Write + Drop>(
    alloc: Global,
    store: &mut GuestStore<S, R, W>,
    deaths: Option<Deaths>,
    request: &Request<'_>,
    now: Moment,
    decision: Decision,
) -> Result<Answer, StoreFault>
    ensures { Steps G.GUEST (carrying G.GUEST deaths (asked request.now) now decision)
        (store_of S.Store R.remaining W.contents store.old)
        (store_of S.Store R.remaining W.contents store.new) result }
{
    match decision {
        Decision::Refuse(errno) => Ok(Answer::refusal(alloc, errno)),
        Decision::Nothing => Ok(Answer::success(ByteList::from_vec(Vec::new(alloc)))),
        Decision::Again(out) => Ok(init_answer(alloc, &out)?),
        Decision::Ask => reply::<G, S, R, W>(alloc, store, deaths, request, now),
        Decision::Negotiate { out, settings } => {
            initiate::<G, S, R, W>(alloc, store, deaths, request, now, out, settings)
        }
    }
}

/// Does a request, as the model of the guest says.
pub(crate) fn do_request<G: Guested, S: Alter + Drop, R: Read + Drop, W: Write + Drop>(
    alloc: Global,
    store: &mut GuestStore<S, R, W>,
    deaths: Option<Deaths>,
    request: &Request<'_>,
    now: Moment,
) -> Result<Answer, StoreFault>
    ensures { Steps G.GUEST (acting G.GUEST deaths (entry_of (request.now, now)))
        (store_of S.Store R.remaining W.contents store.old)
        (store_of S.Store R.remaining W.contents store.new) result }
{
    match plan::<G, S, R, W>(store, &request.op) {
        Ok(decision) => carry_out::<G, S, R, W>(alloc, store, deaths, request, now, decision),
        Err(fault) => Err(fault),
    }
}
