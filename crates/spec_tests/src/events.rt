//! Cases of events with their fates, and of a kernel.
use crate::hex::hex;
use crate::keepers::{AT_1000, START, TreeKeeper, held_in, new_keeper};
use crate::run::Held;
use crate::texts::INIT_AGREED;
use fuse_keeper::{Keeper, PlainKeeper, Restart, StoreFault};
use fuse_sim::{DriveFault, Event, Fate, Outcome, drive};
use fuse_wire::{ByteList, Moment};
use std::alloc::{AllocError, Global};
use std::test::*;

mod faults;
mod kernels;
mod sending;
mod twice;

fn event(bytes: Vec<u8>, fate: Fate) -> Event {
    Event {
        bytes: ByteList::from_vec(bytes),
        moment: AT_1000,
        fate,
    }
}

// The message of an event, its fate, and the answer that the kernel takes, if it takes one.
type Step = (&'static str, Fate, &'static str);

fn events_of(alloc: Global, steps: &[Step]) -> Result<Vec<Event>, AllocError> {
    let mut events = Vec::new(alloc);
    for (message, fate, _) in steps {
        let bytes = hex(alloc, message)?;
        events.push(event(bytes, *fate))?;
    }
    Ok(events)
}

// Appends events with this fate.
fn push_messages(
    events: &mut Vec<Event>,
    messages: Vec<Vec<u8>>,
    fate: Fate,
) -> Result<(), AllocError> {
    for message in messages {
        events.push(event(message, fate))?;
    }
    Ok(())
}

fn held_of(keeper: &mut Option<TreeKeeper>) -> Option<Held> {
    held_in(keeper.as_mut()?)
}

// The result of `drive`, if there was a keeper that had not failed.
type Ended = Option<Result<Vec<Option<Outcome>>, DriveFault>>;

fn drive_on<K: Restart>(alloc: Global, keeper: &mut Option<K>, events: &[Event]) -> Ended {
    let going = match keeper {
        Some(inner) => !inner.failed(),
        None => false,
    };
    if !going {
        return None;
    }
    Some(drive(alloc, keeper, events))
}

// Whether an outcome has these bytes. No bytes stand for no answer.
fn is_answer(outcome: &Option<Outcome>, wanted: &[u8]) -> bool {
    match (outcome, wanted.split_at_checked(16)) {
        (Some(given), Some((head, body))) => {
            given.head.as_slice() == head && given.body.as_slice() == body
        }
        (Some(_), None) => false,
        (None, _) => wanted.is_empty(),
    }
}

// Whether the outcomes of these steps are their answers.
fn are_answered(
    alloc: Global,
    outcomes: &[Option<Outcome>],
    steps: &[Step],
) -> Result<bool, AllocError> {
    for (outcome, (_, _, answer)) in outcomes.iter().zip(steps) {
        let wanted = hex(alloc, answer)?;
        if !is_answer(outcome, wanted.as_slice()) {
            return Ok(false);
        }
    }
    Ok(outcomes.len() == steps.len())
}
