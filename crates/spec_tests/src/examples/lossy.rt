//! Two lives of a server over a port that loses answers.
use crate::hex::put_hex;
use fuse_init::PlainProfile;
use fuse_keeper::{Keeper, PlainKeeper, Restart};
use fuse_lists::PlainTree;
use fuse_session::{Ended, Fixed, Port, SessionCounts, serve};
use fuse_wire::Moment;
use lossy_port::LossyPort;
use messages::*;
use std::alloc::{AllocError, Global};
use std::test::*;

mod messages;

const NOW: Moment = Moment {
    secs: 1000,
    nanos: 0,
};

// The input of a life, the expected output, and the part of it that gets through.
#[derive(Drop)]
struct Life {
    input: Vec<u8>,
    sent: Vec<u8>,
    delivered: Vec<u8>,
}

fn life_of(alloc: Global, exchanges: &[Exchange]) -> Result<Life, AllocError> {
    let mut life = Life {
        input: Vec::new(alloc),
        sent: Vec::new(alloc),
        delivered: Vec::new(alloc),
    };
    for (message, answer, gets_through) in exchanges {
        put_hex(&mut life.input, message)?;
        put_hex(&mut life.sent, answer)?;
        put_hex(&mut life.delivered, if *gets_through { answer } else { "" })?;
    }
    Ok(life)
}

// The counts of `messages` kept messages, some of them repeated.
fn counts_of(kept: u64, repeated: u64) -> SessionCounts {
    SessionCounts {
        messages: kept,
        kept,
        repeated,
        ..SessionCounts::NONE
    }
}

// Serves a life over a port that loses each answer with this number: whether it ended at the end of
// its input, exactly the expected bytes were sent and got through, and the counts are these. All
// messages arrive at once.
fn serves(
    alloc: Global,
    keeper: &mut PlainKeeper<PlainTree<PlainProfile>>,
    every: u32,
    exchanges: &[Exchange],
    counts: SessionCounts,
) -> Result<[bool; 4], AllocError> {
    let life = life_of(alloc, exchanges)?;
    if keeper.failed() {
        return Ok([false; 4]);
    }
    let mut port = LossyPort::new(alloc, life.input, every, life.sent.len())?;
    let served = serve(alloc, keeper, &mut port, &mut Fixed(NOW), 1000);
    Ok([
        matches!(served.ended, Ended::End) && port.tally() == (2, 0),
        port.sent() == life.sent.as_slice(),
        port.delivered() == life.delivered.as_slice(),
        served.counts == Some(counts),
    ])
}

// Whether the keeper has these numbers of nodes and handles.
fn holds(keeper: &mut PlainKeeper<PlainTree<PlainProfile>>, nodes: u64, handles: u64) -> bool {
    matches!(keeper.counts(), Ok(counts) if counts.nodes == nodes && counts.handles == handles)
}

// The third answer of the first life is lost, the one with handle 1. The second life opens the same
// keeper, and loses nothing. A repeated message gets the same bytes, whether its answer was lost or
// not, and changes nothing: there are the root and f, handles 1 and 2, and the new one of the second
// life.
fn lives(alloc: Global) -> Result<([[bool; 4]; 2], bool), Fail> {
    let mut keeper: PlainKeeper<PlainTree<PlainProfile>> = PlainKeeper::new(alloc, NOW)?;
    let first = serves(alloc, &mut keeper, 3, &FIRST, counts_of(4, 0))?;
    let mut opened = keeper.restart()?;
    let second = serves(alloc, &mut opened, 0, &SECOND, counts_of(6, 5))?;
    Ok(([first, second], holds(&mut opened, 2, 3)))
}

#[test]
fn what_was_lost_comes_again(rt: HostRuntime) -> Result<(), Fail> {
    assert_eq!(rt; lives(rt.alloc())?, ([[true; 4]; 2], true));
    Ok(())
}
