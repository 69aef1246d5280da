//! A mount in which the server dies.
use super::*;
use fuse_sim::{Event, Fate, Outcome, drive};
use fuse_wire::ByteList;

// The fate of a message, the message and its answer. The kernel takes the answer at
// `Fate::Answered` alone.
type Step = (Fate, Pair);

// The server dies before it commits MKDIR, which is resent; its refusal is lost with the server, and
// MKDIR is resent once more. Then the server dies after a READ, which is resent.
const STEPS: [Step; 7] = [
    (Fate::Answered, INIT),
    (Fate::Answered, OPEN),
    (Fate::DiedBeforeCommit, MKDIR),
    (Fate::DiedAfterCommit, MKDIR_AGAIN),
    (Fate::Answered, MKDIR_AGAIN),
    (Fate::DiedAfterCommit, READ),
    (Fate::Answered, READ_AGAIN),
];

fn bytes_of(alloc: Global, text: &str) -> Result<Vec<u8>, AllocError> {
    let mut bytes = Vec::new(alloc);
    put_hex(&mut bytes, text)?;
    Ok(bytes)
}

fn event_of(alloc: Global, fate: Fate, text: &str) -> Result<Event, AllocError> {
    Ok(Event {
        bytes: ByteList::from_vec(bytes_of(alloc, text)?),
        moment: NOW,
        fate,
    })
}

fn events_of(alloc: Global, steps: &[Step]) -> Result<Vec<Event>, AllocError> {
    let mut events = Vec::new(alloc);
    for (fate, (asked, _)) in steps {
        events.push(event_of(alloc, *fate, asked)?)?;
    }
    Ok(events)
}

// Whether an event was answered with these bytes, the head first, or with none.
fn is_answer(outcome: &Option<Outcome>, wanted: &[u8]) -> bool {
    match outcome {
        Some(answer) => {
            let head = answer.head.as_slice();
            wanted.starts_with(head)
                && wanted.ends_with(answer.body.as_slice())
                && wanted.len() == head.len() + answer.body.as_slice().len()
        }
        None => wanted.is_empty(),
    }
}

// The number of right outcomes, from the first on.
fn right_in(alloc: Global, outcomes: &[Option<Outcome>], steps: &[Step]) -> Result<usize, Fail> {
    for (place, (fate, (_, answer))) in steps.iter().enumerate() {
        let taken = if *fate == Fate::Answered { *answer } else { "" };
        let wanted = bytes_of(alloc, taken)?;
        match outcomes.get(place) {
            Some(outcome) if is_answer(outcome, wanted.as_slice()) => {}
            _ => return Ok(place),
        }
    }
    Ok(steps.len())
}

// Runs these steps over new files, and counts the right answers.
fn right_after(alloc: Global, steps: &[Step]) -> Result<usize, Fail> {
    let events = events_of(alloc, steps)?;
    let files: PlainKeeper<FiveFiles> = PlainKeeper::new(alloc, NOW)?;
    if files.failed() {
        return Ok(0);
    }
    let mut keeper = Some(files);
    match drive(alloc, &mut keeper, events.as_slice()) {
        Ok(outcomes) => right_in(alloc, outcomes.as_slice(), steps),
        Err(_) => Ok(0),
    }
}

#[test]
fn server_dies(rt: HostRuntime) -> Result<(), Fail> {
    let right = right_after(rt.alloc(), &STEPS)?;
    assert_eq!(rt; right, 7);
    Ok(())
}
