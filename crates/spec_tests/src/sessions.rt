//! Cases of sessions over a keeper.
use crate::hex::hex;
use crate::keepers::{AT_1000, TreeKeeper, held_in, new_keeper};
use crate::run::Held;
use crate::texts::{INIT_AGREED, NOTICE};
use fuse_keeper::{Keeper, StoreFault};
use fuse_session::{Arrival, Ended, Fixed, MemoryPort, Outcome, ResumeFault, resume, serve};
use fuse_wire::Moment;
use std::alloc::{AllocError, Global};

mod clocks;
mod devices;
mod everyday;
mod mounts;
mod opcodes;
mod ports;
mod resumes;
mod running;

// The pieces in which bytes arrive, and the outcome of each send.
#[derive(Drop)]
struct Peer {
    arrivals: Vec<Arrival>,
    outcomes: Vec<Outcome>,
}

// A peer that sends everything in one piece and takes everything.
fn plain_peer(alloc: Global) -> Peer {
    Peer {
        arrivals: Vec::new(alloc),
        outcomes: Vec::new(alloc),
    }
}

// The input of one session, its peer, and the expected output.
#[derive(Drop)]
struct Session {
    input: Vec<u8>,
    peer: Peer,
    wanted: Vec<u8>,
}

// A plain session.
fn plain(alloc: Global, input: Vec<u8>, wanted: Vec<u8>) -> Session {
    Session {
        input,
        peer: plain_peer(alloc),
        wanted,
    }
}

// How a session or `resume` ended, as far as the tests need it.
#[derive(Clone, Copy, PartialEq, Eq)]
enum EndKind {
    End,
    PortFailed,
    StoreMemory,
    Memory,
    NotOffered,
    // The keeper had failed before.
    Failed,
    Other,
}

fn kind_of_store(fault: &StoreFault) -> EndKind {
    match fault {
        StoreFault::Memory => EndKind::StoreMemory,
        _ => EndKind::Other,
    }
}

fn kind_of(ended: &Ended) -> EndKind {
    match ended {
        Ended::End => EndKind::End,
        Ended::PortFailed => EndKind::PortFailed,
        Ended::Store(fault) => kind_of_store(fault),
        Ended::Memory => EndKind::Memory,
        _ => EndKind::Other,
    }
}

fn kind_of_resume(fault: &ResumeFault) -> EndKind {
    match fault {
        ResumeFault::NotOffered => EndKind::NotOffered,
        ResumeFault::PortFailed => EndKind::PortFailed,
        ResumeFault::Store(fault) => kind_of_store(fault),
    }
}

// What a session did: how it ended, how many bytes it sent, if they are a prefix of the expected
// ones, and the counts of the keeper. Numbers alone, so that a test has nothing to drop.
#[derive(Clone, Copy)]
struct Seen {
    ended: EndKind,
    sent: Option<usize>,
    wanted: usize,
    held: Option<Held>,
}

impl Seen {
    // It ended this way with these counts, and exactly the expected bytes were sent.
    fn is(&self, ended: EndKind, held: Held) -> bool {
        self.is_cut(ended, self.wanted, held)
    }

    // It ended this way with these counts, and a prefix of the expected bytes was sent.
    fn is_cut(&self, ended: EndKind, sent: usize, held: Held) -> bool {
        self.ended == ended && self.sent == Some(sent) && self.held == Some(held)
    }
}

// No session was served, since the keeper had failed before.
const FAILED: Seen = Seen {
    ended: EndKind::Failed,
    sent: None,
    wanted: 0,
    held: None,
};

// The number of bytes sent, if they are a prefix of the expected ones.
fn sent_of(sent: &[u8], wanted: &[u8]) -> Option<usize> {
    if wanted.starts_with(sent) {
        Some(sent.len())
    } else {
        None
    }
}

// A session over a keeper.
fn serve_on<K: Keeper>(alloc: Global, keeper: &mut K, session: Session) -> Seen {
    if keeper.failed() {
        return FAILED;
    }
    let peer = session.peer;
    let room = session.wanted.len();
    let Ok(mut port) = MemoryPort::new(
        alloc,
        session.input,
        peer.arrivals,
        peer.outcomes,
        false,
        room,
    ) else {
        return FAILED;
    };
    let served = serve(alloc, keeper, &mut port, &mut Fixed(AT_1000), 1000);
    Seen {
        ended: kind_of(&served.ended),
        sent: sent_of(port.sent(), session.wanted.as_slice()),
        wanted: session.wanted.len(),
        held: held_in(keeper),
    }
}

// The same after `resume`, over the same port.
fn resume_on(alloc: Global, keeper: &mut TreeKeeper, session: Session, now: Moment) -> Seen {
    if keeper.failed() {
        return FAILED;
    }
    let peer = session.peer;
    let room = session.wanted.len();
    let Ok(mut port) = MemoryPort::new(
        alloc,
        session.input,
        peer.arrivals,
        peer.outcomes,
        false,
        room,
    ) else {
        return FAILED;
    };
    let ended = match resume(keeper, &mut port) {
        Ok(()) => kind_of(&serve(alloc, keeper, &mut port, &mut Fixed(now), 1000).ended),
        Err(fault) => kind_of_resume(&fault),
    };
    Seen {
        ended,
        sent: sent_of(port.sent(), session.wanted.as_slice()),
        wanted: session.wanted.len(),
        held: held_in(keeper),
    }
}

// A new store after this INIT.
fn begun(alloc: Global, init: &str) -> Result<TreeKeeper, StoreFault> {
    let mut keeper = new_keeper(alloc)?;
    let session = plain(alloc, hex(alloc, init)?, Vec::new(alloc));
    serve_on(alloc, &mut keeper, session);
    Ok(keeper)
}
