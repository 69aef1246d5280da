// What a guest answers, done.
ghost use Rattle.std.specs.Prelude.{◌≡◌, [], ◌∷◌, IfOk};
ghost use Rattle.sqlite.specs.Held.{state};
ghost use Rattle.fuse_answer.specs.Bodies.{init_bytes};
ghost use Rattle.fuse_request.specs.Act.{asked};
ghost use Rattle.fuse_guest.specs.Talk.{talk_end};
ghost use Rattle.fuse_guest.specs.GuestModel.{init_reply, reply_of};
ghost use Rattle.guest_talk.specs.Answered.{said_by};
ghost use Rattle.guest_talk.specs.TalkState.{TalkState};
ghost use Rattle.guest_store.specs.Asks.{asking_of};
ghost use Rattle.guest_store.specs.Keeping.{store_of};
ghost use Rattle.guest_store.specs.inner.Acting.{answering, carrying, doing_by, replying};
ghost use Rattle.guest_store.specs.inner.Stepping.{Steps, with_talk};

use crate::asking::{Reply, ask};
use crate::deciding::Decision;
use crate::pair_changes::make_changes;
use crate::served_bits::served_bits;
use crate::store::{Deaths, GuestStore};
use fuse_answer::{Answer, InitOut};
use fuse_guest::Guested;
use fuse_init::Settings;
use fuse_keeper::StoreFault;
use fuse_request::Request;
use fuse_wire::{ByteList, Errno, Memory, Moment};
use guest_tables::write_settings;
use guest_talk::GuestAnswer;
use sqlite::{Alter, Connection};
use std::alloc::Global;
use std::io::{Read, Write};

// The error of a request whose talk failed.
const EIO: Errno = Errno(5);

// Makes the changes of an ANSWER. Its error and its body are the answer.
fn take_answer<G: Guested, S: Alter>(
    alloc: Global,
    conn: &mut Connection<S>,
    answer: &GuestAnswer,
) -> Result<Answer, StoreFault>
    ensures { (t : TalkState) → Steps G.GUEST (answering G.GUEST (said_by answer.now))
        (with_talk (state S.Store conn.old) t) (with_talk (state S.Store conn.new) t) result }
{
    let content = answer.content();
    match make_changes::<G, S>(conn, content.changes) {
        Ok(()) => {}
        Err(fault) => return Err(fault),
    }
    let body = Vec::from_slice(alloc, content.body)?;
    Ok(Answer {
        errno: Errno(content.error),
        body: ByteList::from_vec(body),
    })
}

/// Asks the guest a request, and does what it answers.
pub(crate) fn reply<G: Guested, S: Alter + Drop, R: Read + Drop, W: Write + Drop>(
    alloc: Global,
    store: &mut GuestStore<S, R, W>,
    deaths: Option<Deaths>,
    request: &Request<'_>,
    now: Moment,
) -> Result<Answer, StoreFault>
    ensures { Steps G.GUEST (replying G.GUEST deaths (asked request.now) now)
        (store_of S.Store R.remaining W.contents store.old)
        (store_of S.Store R.remaining W.contents store.new) result }
{
    match ask::<G, S, R, W>(alloc, store, deaths, request, now) {
        Ok(Reply::Answered(answer)) => {
            take_answer::<G, S>(alloc, &mut store.pairs.conn, &answer)
        }
        Ok(Reply::GivenUp) => Ok(Answer::refusal(alloc, EIO)),
        Err(fault) => Err(fault),
    }
}

/// The answer to INIT.
pub(crate) fn init_answer(alloc: Global, out: &InitOut) -> Result<Answer, Memory>
    ensures { IfOk result (λ answer. answer ≡ record { errno = 0; body = init_bytes out.now }) }
{
    let body = out.body_of(alloc)?;
    Ok(Answer::success(ByteList::from_vec(body)))
}

/// Asks the guest an INIT. Unless it gives an error, the settings are agreed on.
pub(crate) fn initiate<G: Guested, S: Alter + Drop, R: Read + Drop, W: Write + Drop>(
    alloc: Global,
    store: &mut GuestStore<S, R, W>,
    deaths: Option<Deaths>,
    request: &Request<'_>,
    now: Moment,
    out: InitOut,
    settings: Settings,
) -> Result<Answer, StoreFault>
    ensures { Steps G.GUEST (doing_by G.GUEST
        (λ s. asking_of deaths (asked request.now) now s ∷ [])
        (λ s. init_reply G.GUEST.ready (init_bytes out) settings
        (reply_of s (talk_end G.GUEST s.pairs (asked request.now) now))))
        (store_of S.Store R.remaining W.contents store.old)
        (store_of S.Store R.remaining W.contents store.new) result }
{
    let answer = match reply::<G, S, R, W>(alloc, store, deaths, request, now) {
        Ok(answer) => answer,
        Err(fault) => return Err(fault),
    };
    if answer.errno != Errno::NONE {
        return Ok(answer);
    }
    let pledged = served_bits(&store.talk.ready());
    match write_settings(&mut store.pairs.conn, settings, pledged) {
        Ok(()) => Ok(init_answer(alloc, &out)?),
        Err(error) => Err(StoreFault::from(error)),
    }
}
