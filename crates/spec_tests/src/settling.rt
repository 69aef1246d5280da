//! Which settled ids are handed to which `perform`, in sessions and over events.
use crate::hex::hex;
use crate::keepers::{AT_1000, TreeKeeper, new_keeper};
use crate::texts::INIT_AGREED;
use counting_keeper::{Call, CountingKeeper, Log};
use fuse_keeper::{Keeper, Restart, StoreFault};
use fuse_session::{Arrival, Ended, Fixed, MemoryPort, Outcome, serve};
use fuse_sim::{Event, Fate, drive};
use fuse_wire::{ByteList, UNIQUE_RESEND};
use std::alloc::{AllocError, Global};

mod acting;
mod events;
mod sessions;

type Counted = CountingKeeper<TreeKeeper>;

fn new_counted(alloc: Global) -> Result<Counted, StoreFault> {
    Ok(CountingKeeper::new(alloc, new_keeper(alloc)?))
}

// Appends MKNOD of a name of its own under this `unique`.
fn put_mknod(out: &mut Vec<u8>, unique: u64) -> Result<(), AllocError> {
    out.extend_from_slice(b"\x3b\0\0\0\x08\0\0\0")?;
    out.extend_from_slice(&unique.to_le_bytes())?;
    out.extend_from_slice(b"\x01\0\0\0\0\0\0\0\xe8\x03\0\0\xe8\x03\0\0\x4d\0\0\0\0\0\0\0")?;
    out.extend_from_slice(b"\xa4\x81\0\0\0\0\0\0\x12\0\0\0\0\0\0\0")?;
    let number = unique & 0xff;
    out.extend_from_slice(&[b'a' + (number >> 4) as u8, b'a' + (number & 0xf) as u8, 0])
}

// Even ids, from one up to another.
type Ids = (u64, u64);

// The ids of a group, and those that are handed on with it.
type Asked = (Ids, Option<Ids>);

fn are_ids(ids: &[u64], wanted: Ids) -> bool {
    let mut next = wanted.0;
    for id in ids {
        if *id != next {
            return false;
        }
        next = next.saturating_add(2);
    }
    next == wanted.1.saturating_add(2)
}

fn is_asked(call: &Call, wanted: &Asked) -> bool {
    let settled = match wanted.1 {
        Some(ids) => are_ids(call.settled.as_slice(), ids),
        None => call.settled.is_empty(),
    };
    settled && are_ids(call.group.as_slice(), wanted.0)
}

// Whether the log is whole, and has these calls and no other.
fn has_calls(log: &Log, wanted: &[Asked]) -> bool {
    log.is_whole
        && log.calls.len() == wanted.len()
        && log
            .calls
            .iter()
            .zip(wanted)
            .all(|(call, asked)| is_asked(call, asked))
}

fn has_records(keeper: &mut Counted, count: u64) -> bool {
    matches!(keeper.counts(), Ok(counts) if counts.records == count)
}

// For the answers of a session.
const ROOM: usize = 65_536;

// The pieces in which bytes arrive, the outcome of each send, and whether the port confirms.
type Peer = (Vec<Arrival>, Vec<Outcome>, bool);

// Serves bytes, if the keeper has not failed. Whether all was served, or the port failed.
fn serves(alloc: Global, keeper: &mut Counted, input: Vec<u8>, peer: Peer, fails: bool) -> bool {
    if keeper.failed() {
        return false;
    }
    let Ok(mut port) = MemoryPort::new(alloc, input, peer.0, peer.1, peer.2, ROOM) else {
        return false;
    };
    match serve(alloc, keeper, &mut port, &mut Fixed(AT_1000), 1000).ended {
        Ended::End => !fails,
        Ended::PortFailed => fails,
        _ => false,
    }
}

// A peer that sends all in one piece and takes all.
fn plain(alloc: Global, confirms: bool) -> Peer {
    (Vec::new(alloc), Vec::new(alloc), confirms)
}
