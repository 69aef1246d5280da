//! Ports that fail, take a part, or report that nobody waits.
use super::running::{Grouping, put_pieces, resent_run, run, size_of_answers};
use super::*;
use crate::hex::put_hex;
use crate::run::{ALL_HELD, MESSAGES, held_after, holding};
use crate::texts::{
    FIRST_ANSWERS, FIRST_RUN, LOOKUP_HELLO, LOOKUP_RESENT, NOT_THERE, NOT_THERE_BEFORE,
};
use fuse_keeper::Restart;

// A case: its messages, in one piece after these arrivals; the outcome of each send; the answers,
// and how many of their bytes are sent; how it ends; and the nodes and records that it leaves.
#[derive(Clone, Copy)]
struct Case {
    name: &'static str,
    asked: &'static str,
    arrivals: &'static [Arrival],
    outcomes: &'static [Outcome],
    answers: &'static str,
    sent: usize,
    ended: EndKind,
    left: (u64, u64),
}

const CASES: [Case; 6] = [
    Case {
        name: "send-stops, nothing is taken",
        asked: LOOKUP_HELLO,
        arrivals: &[],
        outcomes: &[Outcome::Take(0)],
        answers: NOT_THERE,
        sent: 0,
        ended: EndKind::PortFailed,
        left: (1, 2),
    },
    Case {
        name: "send-stops, nothing of a rest is taken",
        asked: LOOKUP_HELLO,
        arrivals: &[],
        outcomes: &[Outcome::Take(10), Outcome::Take(0)],
        answers: NOT_THERE,
        sent: 10,
        ended: EndKind::PortFailed,
        left: (1, 2),
    },
    Case {
        name: "an answer taken in parts",
        asked: LOOKUP_HELLO,
        arrivals: &[],
        outcomes: &[Outcome::Take(10), Outcome::Take(5), Outcome::Take(1)],
        answers: NOT_THERE,
        sent: 16,
        ended: EndKind::End,
        left: (1, 2),
    },
    Case {
        name: "gone-then-failed",
        asked: FIRST_RUN,
        arrivals: &[],
        outcomes: &[Outcome::Gone, Outcome::Failed],
        answers: FIRST_ANSWERS,
        sent: 144,
        ended: EndKind::PortFailed,
        left: (2, 3),
    },
    Case {
        name: "gone alone",
        asked: FIRST_RUN,
        arrivals: &[],
        outcomes: &[Outcome::Gone],
        answers: FIRST_ANSWERS,
        sent: 408,
        ended: EndKind::End,
        left: (2, 3),
    },
    Case {
        name: "receive-fails",
        asked: LOOKUP_HELLO,
        arrivals: &[Arrival::Piece(46), Arrival::Failed],
        outcomes: &[],
        answers: NOT_THERE,
        sent: 16,
        ended: EndKind::PortFailed,
        left: (1, 2),
    },
];

fn session_of(alloc: Global, case: &Case) -> Result<Session, AllocError> {
    Ok(Session {
        input: hex(alloc, case.asked)?,
        peer: Peer {
            arrivals: case.arrivals.to_vec(alloc)?,
            outcomes: case.outcomes.to_vec(alloc)?,
        },
        wanted: hex(alloc, case.answers)?,
    })
}

fn is_right(alloc: Global, case: &Case) -> Result<bool, StoreFault> {
    let mut keeper = begun(alloc, INIT_AGREED)?;
    let seen = serve_on(alloc, &mut keeper, session_of(alloc, case)?);
    let (nodes, records) = case.left;
    Ok(seen.is_cut(case.ended, case.sent, holding(nodes, 0, records)))
}

#[test]
fn cases(rt: HostRuntime) -> Result<(), StoreFault> {
    for case in &CASES {
        assert!(rt; is_right(rt.alloc(), case)?, "{}", case.name);
    }
    Ok(())
}

const STOPS: Case = Case {
    name: "send-stops",
    asked: LOOKUP_HELLO,
    arrivals: &[],
    outcomes: &[Outcome::Take(10), Outcome::Failed],
    answers: NOT_THERE,
    sent: 10,
    ended: EndKind::PortFailed,
    left: (1, 2),
};

// A session after `resume`: the notice is sent, then the answer to the resent LOOKUP.
fn resent_lookup(alloc: Global) -> Result<Session, AllocError> {
    let mut wanted = NOTICE.to_vec(alloc)?;
    put_hex(&mut wanted, NOT_THERE_BEFORE)?;
    Ok(plain(alloc, hex(alloc, LOOKUP_RESENT)?, wanted))
}

// Whether the keeper, opened again, serves this session after `resume` and has these counts then.
fn resumes(alloc: Global, keeper: TreeKeeper, session: Session, held: Held) -> bool {
    match keeper.restart() {
        Ok(mut opened) => resume_on(alloc, &mut opened, session, AT_1000).is(EndKind::End, held),
        Err(_) => false,
    }
}

// Case send-stops: whether the session that stops is right, and the one after it.
fn stopped_and_resumed(alloc: Global) -> Result<[bool; 2], StoreFault> {
    let stopping = session_of(alloc, &STOPS)?;
    let resent = resent_lookup(alloc)?;
    let mut keeper = begun(alloc, INIT_AGREED)?;
    let held = holding(1, 0, 2);
    let stopped = serve_on(alloc, &mut keeper, stopping);
    Ok([
        stopped.is_cut(STOPS.ended, STOPS.sent, held),
        resumes(alloc, keeper, resent, held),
    ])
}

#[test]
fn send_stops(rt: HostRuntime) -> Result<(), StoreFault> {
    assert_eq!(rt; stopped_and_resumed(rt.alloc())?, [true; 2]);
    Ok(())
}

// The run over a port that fails after `sent` answers, when `done` messages are processed. The store
// is opened again, the requests without an answer are resent, and the answers and the tree are the
// same.
fn is_served(alloc: Global, peer: Peer, sent: usize, done: usize) -> Result<bool, StoreFault> {
    let session = run(alloc, peer)?;
    let resent = resent_run(alloc, sent)?;
    let mut keeper = new_keeper(alloc)?;
    let first = serve_on(alloc, &mut keeper, session);
    let cut = first.is_cut(EndKind::PortFailed, size_of_answers(sent), held_after(done));
    Ok(cut && resumes(alloc, keeper, resent, ALL_HELD))
}

// A port that receives `before` messages and then fails.
fn receives(alloc: Global, grouping: Grouping, before: usize) -> Result<Peer, AllocError> {
    let mut peer = plain_peer(alloc);
    put_pieces(&mut peer.arrivals, grouping, before)?;
    peer.arrivals.push(Arrival::Failed)?;
    Ok(peer)
}

// A port that takes `before` answers and then fails. The group is committed by then.
fn sends(alloc: Global, grouping: Grouping, before: usize) -> Result<Peer, AllocError> {
    let mut peer = plain_peer(alloc);
    put_pieces(&mut peer.arrivals, grouping, MESSAGES)?;
    for _ in 0..before {
        peer.outcomes.push(Outcome::Take(1000))?;
    }
    peer.outcomes.push(Outcome::Failed)?;
    Ok(peer)
}

// Whether the run is right if the port fails after `before` messages received, and if it fails after
// `before` answers sent.
fn fails_after(alloc: Global, grouping: Grouping, before: usize) -> Result<[bool; 2], StoreFault> {
    let receives = receives(alloc, grouping, before)?;
    let received = is_served(alloc, receives, before, before)?;
    if before >= MESSAGES {
        return Ok([received, true]);
    }
    let done = match grouping {
        Grouping::Each => before + 1,
        Grouping::All => MESSAGES,
    };
    let sends = sends(alloc, grouping, before)?;
    Ok([received, is_served(alloc, sends, before, done)?])
}

// Case each-port-call: each receive in turn fails, and each send.
#[test]
fn each_port_call(rt: HostRuntime) -> Result<(), StoreFault> {
    for before in 0..MESSAGES + 1 {
        for grouping in [Grouping::Each, Grouping::All] {
            let right = fails_after(rt.alloc(), grouping, before)?;
            assert_eq!(rt; right, [true; 2], "after {before}, {grouping:?}");
        }
    }
    Ok(())
}
