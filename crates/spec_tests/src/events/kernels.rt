//! The kernel's side: case resent-in-another-order.
use super::sending::{resend, send_all};
use super::*;
use crate::requests::mkdir;
use crate::texts::AGREED;
use fuse_sim::{Kernel, TakeFault};
use std::test::*;

const INIT: Step = (INIT_AGREED, Fate::Answered, AGREED);

// The answers to both when they are resent: `b` is node 2 and `a` node 3.
const ANSWERS: [&str; 2] = [
    "90000000 00000000 0600000000000080 0200000000000000 0*8 0100000000000000 0100000000000000 0*8
    0200000000000000 0*8 0*8 e803000000000000 e803000000000000 e803000000000000 0*12 ed410000
    02000000 e8030000 e8030000 00000000 00100000 00000000",
    "90000000 00000000 0400000000000080 0300000000000000 0*8 0100000000000000 0100000000000000 0*8
    0300000000000000 0*8 0*8 e803000000000000 e803000000000000 e803000000000000 0*12 ed410000
    02000000 e8030000 e8030000 00000000 00100000 00000000",
];

// The server dies before MKDIR `a` (id 4) and `b` (id 6) are committed. They are resent in the order
// second, first.
fn resent_events(alloc: Global, kernel: &mut Kernel) -> Result<Vec<Event>, Fail> {
    let mut events = events_of(alloc, &[INIT])?;
    let sent = send_all(alloc, kernel, &[mkdir(4, b"a"), mkdir(6, b"b")])?;
    push_messages(&mut events, sent, Fate::DiedBeforeCommit)?;
    push_messages(&mut events, resend(kernel, &[1, 0])?, Fate::Answered)?;
    Ok(events)
}

// Their outcomes over a new store.
fn run_resent(alloc: Global, events: &[Event]) -> Vec<Option<Outcome>> {
    let mut keeper = new_keeper(alloc).ok();
    match drive_on(alloc, &mut keeper, events) {
        Some(Ok(outcomes)) => outcomes,
        _ => Vec::new(alloc),
    }
}

// Whether the outcome is this answer, which the kernel takes once.
fn takes_once(
    alloc: Global,
    kernel: &mut Kernel,
    outcome: &Option<Outcome>,
    text: &str,
) -> Result<bool, AllocError> {
    let answer = hex(alloc, text)?;
    let right = is_answer(outcome, answer.as_slice());
    let taken = kernel.take(answer.as_slice());
    let again = kernel.take(answer.as_slice());
    Ok(right && taken.is_ok() && again == Err(TakeFault::Unknown))
}

// Whether the last outcomes are the answers, after which nothing is pending.
fn takes_all(
    alloc: Global,
    kernel: &mut Kernel,
    outcomes: &[Option<Outcome>],
) -> Result<bool, AllocError> {
    let mut right = outcomes.len() == 3 + ANSWERS.len();
    for (outcome, text) in outcomes.iter().skip(3).zip(ANSWERS) {
        right = takes_once(alloc, kernel, outcome, text)? && right;
    }
    Ok(right && kernel.pending().is_empty())
}

fn is_right(alloc: Global) -> Result<bool, Fail> {
    let mut kernel = Kernel::new(alloc);
    let events = resent_events(alloc, &mut kernel)?;
    let outcomes = run_resent(alloc, events.as_slice());
    Ok(takes_all(alloc, &mut kernel, outcomes.as_slice())?)
}

#[test]
fn resent_in_another_order(rt: HostRuntime) -> Result<(), Fail> {
    assert!(rt; is_right(rt.alloc())?);
    Ok(())
}
