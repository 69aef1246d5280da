//! Two lists of events, one after the other, in each of which the server dies.
use super::*;
use crate::run::holding;
use crate::texts::{AGREED, MKDIR_A, MKDIR_B};
use fuse_sim::drive_twice;

// MKDIR `a` is committed before the server dies, and the answer to MKDIR `b` is lost.
const FIRST: [Step; 3] = [
    (INIT_AGREED, Fate::Answered, AGREED),
    (MKDIR_A, Fate::DiedAfterCommit, ""),
    (MKDIR_B, Fate::AnswerLost, ""),
];

// Both are resent: `a` is node 2 and `b` node 3. The server dies before MKDIR `c` under id 8 is
// committed.
const SECOND: [Step; 3] = [
    (
        "32000000 09000000 0400000000000080 0100000000000000 e8030000 e8030000 4d000000 00000000
        ed010000 12000000 6100",
        Fate::Answered,
        "90000000 00000000 0400000000000080 0200000000000000 0*8 0100000000000000 0100000000000000
        0*8 0200000000000000 0*8 0*8 e803000000000000 e803000000000000 e803000000000000 0*12
        ed410000 02000000 e8030000 e8030000 00000000 00100000 00000000",
    ),
    (
        "32000000 09000000 0800000000000000 0100000000000000 e8030000 e8030000 4d000000 00000000
        ed010000 12000000 6300",
        Fate::DiedBeforeCommit,
        "",
    ),
    (
        "32000000 09000000 0600000000000080 0100000000000000 e8030000 e8030000 4d000000 00000000
        ed010000 12000000 6200",
        Fate::Answered,
        "90000000 00000000 0600000000000080 0300000000000000 0*8 0100000000000000 0100000000000000
        0*8 0300000000000000 0*8 0*8 e803000000000000 e803000000000000 e803000000000000 0*12
        ed410000 02000000 e8030000 e8030000 00000000 00100000 00000000",
    ),
];

// The outcomes of both lists.
type Both = Option<(Vec<Option<Outcome>>, Vec<Option<Outcome>>)>;

// Runs both lists, if there is a keeper that has not failed.
fn drive_both(
    alloc: Global,
    keeper: &mut Option<TreeKeeper>,
    events: &[Event],
    more: &[Event],
) -> Both {
    let going = match keeper {
        Some(inner) => !inner.failed(),
        None => false,
    };
    if !going {
        return None;
    }
    drive_twice(alloc, keeper, events, more).ok()
}

fn are_right(alloc: Global, both: &Both) -> Result<bool, AllocError> {
    match both {
        Some((first, second)) => {
            let right = are_answered(alloc, first.as_slice(), &FIRST)?;
            Ok(right && are_answered(alloc, second.as_slice(), &SECOND)?)
        }
        None => Ok(false),
    }
}

// Runs both over a new store: whether all answers are right, and whether the store has the root, `a`,
// `b` and three records then.
fn run(alloc: Global) -> Result<[bool; 2], StoreFault> {
    let events = events_of(alloc, &FIRST)?;
    let more = events_of(alloc, &SECOND)?;
    let mut keeper = new_keeper(alloc).ok();
    let both = drive_both(alloc, &mut keeper, events.as_slice(), more.as_slice());
    let held = held_of(&mut keeper);
    Ok([are_right(alloc, &both)?, held == Some(holding(3, 0, 3))])
}

#[test]
fn both_halves_stand(rt: HostRuntime) -> Result<(), StoreFault> {
    assert_eq!(rt; run(rt.alloc())?, [true; 2]);
    Ok(())
}
