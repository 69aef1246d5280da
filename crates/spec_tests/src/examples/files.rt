//! Sessions over the five files, and mounts with crashes.

use crate::hex::put_hex;
use five_files::{FiveFiles, serve_files};
use fuse_keeper::{Keeper, PlainKeeper};
use fuse_session::{Ended, Fixed, MemoryPort, SessionCounts};
use fuse_wire::Moment;
use std::alloc::{AllocError, Global};
use std::test::*;
use texts::*;

mod mounts;
mod texts;

const NOW: Moment = Moment {
    secs: 1000,
    nanos: 0,
};

// The input of one session, and the expected output.
#[derive(Drop)]
struct Session {
    input: Vec<u8>,
    wanted: Vec<u8>,
}

fn session_of(alloc: Global, pairs: &[Pair]) -> Result<Session, AllocError> {
    let mut session = Session {
        input: Vec::new(alloc),
        wanted: Vec::new(alloc),
    };
    for (asked, answer) in pairs {
        put_hex(&mut session.input, asked)?;
        put_hex(&mut session.wanted, answer)?;
    }
    Ok(session)
}

// The counts of kept messages, some of them repeated, and of seen ones.
fn counts_of(kept: u32, repeated: u32, seen: u32) -> SessionCounts {
    SessionCounts {
        messages: u64::from(kept) + u64::from(seen),
        kept: u64::from(kept),
        repeated: u64::from(repeated),
        seen: u64::from(seen),
        ..SessionCounts::NONE
    }
}

// A session with this input in one piece: whether it ended at the end of its input, exactly the
// expected bytes were sent, and the counts are these.
fn serves(
    alloc: Global,
    keeper: &mut PlainKeeper<FiveFiles>,
    pairs: &[Pair],
    counts: SessionCounts,
) -> Result<bool, AllocError> {
    let session = session_of(alloc, pairs)?;
    if keeper.failed() {
        return Ok(false);
    }
    let arrivals = Vec::new(alloc);
    let outcomes = Vec::new(alloc);
    let room = session.wanted.len();
    let mut port = MemoryPort::new(alloc, session.input, arrivals, outcomes, false, room)?;
    let served = serve_files(alloc, keeper, &mut port, &mut Fixed(NOW), 1000);
    let is_end = matches!(served.ended, Ended::End);
    Ok(is_end && port.sent() == session.wanted.as_slice() && served.counts == Some(counts))
}

// The same over new files.
fn serves_new(alloc: Global, pairs: &[Pair], counts: SessionCounts) -> Result<bool, Fail> {
    let mut keeper: PlainKeeper<FiveFiles> = PlainKeeper::new(alloc, NOW)?;
    Ok(serves(alloc, &mut keeper, pairs, counts)?)
}

// Reads, changes, refused requests, and requests before INIT. No change is made. The last of the
// changes is a resend, and gets the same bytes with the resend bit.
#[test]
fn sessions(rt: HostRuntime) -> Result<(), Fail> {
    let alloc = rt.alloc();
    let right = [
        serves_new(alloc, &READING, counts_of(4, 0, 5))?,
        serves_new(alloc, &CHANGING, counts_of(11, 1, 0))?,
        serves_new(alloc, &REFUSED, counts_of(7, 0, 9))?,
        serves_new(alloc, &BEFORE_INIT, counts_of(2, 0, 1))?,
    ];
    assert_eq!(rt; right, [true; 4]);
    Ok(())
}

// A resend of a seen request is answered anew, and its id may be that of a kept one.
#[test]
fn seen_requests(rt: HostRuntime) -> Result<(), Fail> {
    let right = serves_new(rt.alloc(), &SEEN, counts_of(3, 1, 3))?;
    assert_eq!(rt; right, true);
    Ok(())
}

// READLINK, whose refusals are recorded too, and STATFS.
#[test]
fn further_opcodes(rt: HostRuntime) -> Result<(), Fail> {
    let counts = SessionCounts {
        messages: 14,
        bare: 1,
        ..counts_of(10, 3, 3)
    };
    assert_eq!(rt; serves_new(rt.alloc(), &FURTHER, counts)?, true);
    Ok(())
}

fn begin_mount(keeper: &mut PlainKeeper<FiveFiles>) -> bool {
    keeper.begin_mount().is_ok()
}

// Whether there are five nodes and no handle.
fn holds_files(keeper: &mut PlainKeeper<FiveFiles>) -> bool {
    matches!(keeper.counts(), Ok(counts) if counts.nodes == 5 && counts.handles == 0)
}

// A new mount has agreed on nothing yet, and has the files of before.
fn two_mounts(alloc: Global) -> Result<[bool; 4], Fail> {
    let mut keeper: PlainKeeper<FiveFiles> = PlainKeeper::new(alloc, NOW)?;
    let first = serves(alloc, &mut keeper, &CHANGING, counts_of(11, 1, 0))?;
    let begun = begin_mount(&mut keeper);
    let again = serves(alloc, &mut keeper, &BEFORE_INIT, counts_of(2, 0, 1))?;
    Ok([first, begun, again, holds_files(&mut keeper)])
}

#[test]
fn mounted_again(rt: HostRuntime) -> Result<(), Fail> {
    assert_eq!(rt; two_mounts(rt.alloc())?, [true; 4]);
    Ok(())
}
