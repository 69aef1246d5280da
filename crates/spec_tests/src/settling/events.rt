//! Events with their fates: seventeen MKNODs under the even ids from 4 on, sixteen in one group.
use super::*;

// The fates of the first sixteen events, from the second on and of the last of them.
#[derive(Clone, Copy)]
struct Fates {
    first: Fate,
    last: Fate,
}

// The fate of the event under this id.
fn fate_of(fates: Fates, id: u64) -> Fate {
    match id {
        4 => fates.first,
        34 => fates.last,
        _ => Fate::Answered,
    }
}

fn events_of(alloc: Global, fates: Fates) -> Result<Vec<Event>, AllocError> {
    let mut events = Vec::new(alloc);
    let mut id = 4;
    for _ in 0..17 {
        let mut bytes = Vec::new(alloc);
        put_mknod(&mut bytes, id)?;
        events.push(Event {
            bytes: ByteList::from_vec(bytes),
            moment: AT_1000,
            fate: fate_of(fates, id),
        })?;
        id = id.saturating_add(2);
    }
    Ok(events)
}

fn is_driven(alloc: Global, keeper: &mut Option<Counted>, events: &[Event]) -> bool {
    let going = match keeper {
        Some(inner) => !inner.failed(),
        None => false,
    };
    going && drive(alloc, keeper, events).is_ok()
}

// What the keeper is asked for, and the records that it has then.
type Wanted = (&'static [Asked], u64);

// All are settled that were answered.
const ALL_TAKEN: Wanted = (&[((4, 34), None), ((36, 36), Some((4, 34)))], 1);

// The first answer is lost, so that its record stays.
const FIRST_LOST: Wanted = (&[((4, 34), None), ((36, 36), Some((6, 34)))], 2);

// The server dies after it has committed the group, and forgets what was settled.
const LAST_DIES: Wanted = (&[((4, 34), None), ((36, 36), None)], 17);

// The server dies before it commits the last one, and forgets what was settled.
const LAST_UNDONE: Wanted = (&[((4, 32), None), ((36, 36), None)], 16);

fn is_as_wanted(alloc: Global, fates: Fates, wanted: Wanted) -> Result<bool, StoreFault> {
    let events = events_of(alloc, fates)?;
    let mut keeper = Some(new_counted(alloc)?);
    let run = is_driven(alloc, &mut keeper, events.as_slice());
    Ok(run && keeper.is_some_and(|left| is_left(left, wanted)))
}

fn is_left(keeper: Counted, wanted: Wanted) -> bool {
    let mut left = keeper;
    has_calls(left.log(), wanted.0) && has_records(&mut left, wanted.1)
}

const CASES: [(Fates, Wanted); 4] = [
    (
        Fates {
            first: Fate::Answered,
            last: Fate::Answered,
        },
        ALL_TAKEN,
    ),
    (
        Fates {
            first: Fate::AnswerLost,
            last: Fate::Answered,
        },
        FIRST_LOST,
    ),
    (
        Fates {
            first: Fate::Answered,
            last: Fate::DiedAfterCommit,
        },
        LAST_DIES,
    ),
    (
        Fates {
            first: Fate::Answered,
            last: Fate::DiedBeforeCommit,
        },
        LAST_UNDONE,
    ),
];

fn are_as_wanted(alloc: Global) -> Result<bool, StoreFault> {
    for (fates, wanted) in CASES {
        if !is_as_wanted(alloc, fates, wanted)? {
            return Ok(false);
        }
    }
    Ok(true)
}

#[test]
fn settled_by_events(rt: HostRuntime) -> Result<(), StoreFault> {
    assert!(rt; are_as_wanted(rt.alloc())?);
    Ok(())
}
