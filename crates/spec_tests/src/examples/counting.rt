//! The counts of sessions, of a mount that begins, and of events at which the server dies.
use counting_keeper::{CountingKeeper, Tally};
use five_files::FiveFiles;
use fuse_keeper::{Keeper, Restart, StoreFault};
use fuse_session::{Arrival, Fixed, MemoryPort, serve};
use fuse_sim::{Event, Fate, drive};
use fuse_wire::{ByteList, Id, Memory, Moment, UNIQUE_RESEND};
use std::alloc::{AllocError, Global};
use two_copies::TwoCopies;

const NOW: Moment = Moment {
    secs: 1000,
    nanos: 0,
};

type Counted = CountingKeeper<TwoCopies<FiveFiles>>;

// The number of commits that succeed between two that fail.
fn begun(alloc: Global, commits: u64) -> Result<Counted, Memory> {
    Ok(CountingKeeper::new(alloc, TwoCopies::new(alloc, NOW, commits)?))
}

// An OPENDIR of the directory, which is kept, has 48 bytes.
const MESSAGE: usize = 48;

fn put_message(out: &mut Vec<u8>, unique: u64) -> Result<(), AllocError> {
    out.extend_from_slice(b"\x30\0\0\0\x1b\0\0\0")?;
    out.extend_from_slice(&unique.to_le_bytes())?;
    out.extend_from_slice(b"\x01\0\0\0\0\0\0\0\xe8\x03\0\0\xe8\x03\0\0\x4d\0\0\0\0\0\0\0")?;
    out.extend_from_slice(b"\0\0\0\0\0\0\0\0")
}

fn messages(alloc: Global, uniques: &[u64]) -> Result<Vec<u8>, AllocError> {
    let mut out = Vec::new(alloc);
    for unique in uniques {
        put_message(&mut out, *unique)?;
    }
    Ok(out)
}

// For the answers of a session.
const ROOM: usize = 4096;

// Serves these messages in pieces of `size` bytes, if the keeper has not failed.
fn serve_on(
    alloc: Global,
    keeper: &mut Counted,
    uniques: &[u64],
    piece: usize,
) -> Result<(), StoreFault> {
    let input = messages(alloc, uniques)?;
    let mut arrivals = Vec::new(alloc);
    for _ in uniques {
        arrivals.push(Arrival::Piece(piece))?;
    }
    let mut port = MemoryPort::new(alloc, input, arrivals, Vec::new(alloc), false, ROOM)?;
    if !keeper.failed() {
        serve(alloc, keeper, &mut port, &mut Fixed(NOW), 10);
    }
    Ok(())
}

fn reopened(keeper: Counted) -> Result<Counted, StoreFault> {
    keeper.restart().map_err(|refused| refused.0)
}

fn has_record(keeper: &mut Counted, id: u64) -> bool {
    matches!(keeper.answer_of(Id(id)), Ok(Some(_)))
}

fn begins_mount(keeper: &mut Counted) -> bool {
    keeper.begin_mount().is_ok()
}

// Each message in a group of its own. The third is not committed.
fn first(alloc: Global) -> Result<Counted, StoreFault> {
    let mut keeper = begun(alloc, 2)?;
    serve_on(alloc, &mut keeper, &[4, 6, 8], MESSAGE)?;
    Ok(keeper)
}

// One group, with one repeat and one new request. Then the next mount. Queries are not counted.
fn second(alloc: Global, keeper: &mut Counted) -> Result<bool, StoreFault> {
    serve_on(alloc, keeper, &[UNIQUE_RESEND | 6, 8], 2 * MESSAGE)?;
    Ok(has_record(keeper, 8) && begins_mount(keeper) && !has_record(keeper, 8))
}

const BEFORE: Tally = Tally {
    groups: 2,
    requests: 2,
    faults: 1,
    ..Tally::NONE
};

const LATER: Tally = Tally {
    groups: 3,
    requests: 4,
    repeated: 1,
    mounts: 1,
    faults: 1,
    openings: 1,
};

fn sessions(alloc: Global) -> Result<[bool; 3], StoreFault> {
    let keeper = first(alloc)?;
    let before = keeper.tally() == BEFORE;
    let mut opened = reopened(keeper)?;
    let looks = second(alloc, &mut opened)?;
    Ok([before, looks, opened.tally() == LATER])
}

#[test]
fn sessions_are_counted(rt: HostRuntime) -> Result<(), StoreFault> {
    assert_eq!(rt; sessions(rt.alloc())?, [true; 3]);
    Ok(())
}

// The server dies after one commit and before another; both requests are resent.
const STEPS: [(u64, Fate); 5] = [
    (4, Fate::Answered),
    (6, Fate::DiedAfterCommit),
    (UNIQUE_RESEND | 6, Fate::Answered),
    (8, Fate::DiedBeforeCommit),
    (UNIQUE_RESEND | 8, Fate::Answered),
];

fn events(alloc: Global) -> Result<Vec<Event>, AllocError> {
    let mut events = Vec::new(alloc);
    for (unique, fate) in STEPS {
        let bytes = messages(alloc, &[unique])?;
        events.push(Event {
            bytes: ByteList::from_vec(bytes),
            moment: NOW,
            fate,
        })?;
    }
    Ok(events)
}

fn is_driven(alloc: Global, keeper: &mut Option<Counted>, events: &[Event]) -> bool {
    let going = match keeper {
        Some(inner) => !inner.failed(),
        None => false,
    };
    going && drive(alloc, keeper, events).is_ok()
}

// Three groups: 4 and 6, the repeat of 6, and 8.
const DRIVEN: Tally = Tally {
    groups: 3,
    requests: 4,
    repeated: 1,
    openings: 2,
    ..Tally::NONE
};

// Whether the counts are these, and the inner keeper was opened again this number of times.
fn is_counted(keeper: Counted) -> bool {
    keeper.tally() == DRIVEN && keeper.into_inner().openings() == 2
}

fn driven(alloc: Global) -> Result<bool, StoreFault> {
    let events = events(alloc)?;
    let mut keeper = Some(begun(alloc, 8)?);
    let run = is_driven(alloc, &mut keeper, events.as_slice());
    Ok(run && keeper.is_some_and(is_counted))
}

#[test]
fn events_are_counted(rt: HostRuntime) -> Result<(), StoreFault> {
    assert!(rt; driven(rt.alloc())?);
    Ok(())
}
