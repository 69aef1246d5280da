//! Each work, stopped at each call of the log and, in a test of its own, at each call of the file.
use crate::disks::Which;
use crate::requests::{MESSAGES, MORE};
use crate::stops::{Tally, stop_at_each};
use crate::stores::{State, Work};
use std::test::Fail;

const FIRST: State = State {
    version: 1,
    messages: MESSAGES,
    mounted: false,
};

const MOUNTED: State = State {
    version: 2,
    messages: MORE,
    mounted: true,
};

// Whether there were at least so many stops, calls cut short and whole steps, and never neither.
fn is_right(tally: &Tally, least: [u64; 3]) -> bool {
    let [stops, halves, whole] = least;
    tally.ended
        && tally.neither == 0
        && tally.before > 0
        && tally.stops >= stops
        && tally.halves >= halves
        && tally.whole >= whole
}

// Whether all is right where this disk stops. Prints the tally.
pub(crate) fn stopped(
    rt: &HostRuntime,
    work: Work,
    which: Which,
    least: [u64; 3],
) -> Result<bool, Fail> {
    let tally = stop_at_each(rt.alloc(), work, which)?;
    println!(rt; "{which:?}: {tally:?}")?;
    Ok(is_right(&tally, least))
}

#[test]
fn a_store_is_made_log(rt: HostRuntime) -> Result<(), Fail> {
    let work = Work::at_once(State::NOTHING, State::second(0));
    assert!(rt; stopped(&rt, work, Which::Log, [40, 20, 1])?);
    Ok(())
}

#[test]
fn a_store_is_made_file(rt: HostRuntime) -> Result<(), Fail> {
    let work = Work::at_once(State::NOTHING, State::second(0));
    assert!(rt; stopped(&rt, work, Which::File, [15, 4, 0])?);
    Ok(())
}

#[test]
fn a_mount_begins_log(rt: HostRuntime) -> Result<(), Fail> {
    let work = Work::at_once(State::second(MORE), MOUNTED);
    assert!(rt; stopped(&rt, work, Which::Log, [80, 8, 1])?);
    Ok(())
}

#[test]
fn a_mount_begins_file(rt: HostRuntime) -> Result<(), Fail> {
    let work = Work::at_once(State::second(MORE), MOUNTED);
    assert!(rt; stopped(&rt, work, Which::File, [55, 5, 0])?);
    Ok(())
}

#[test]
fn a_store_is_migrated_log(rt: HostRuntime) -> Result<(), Fail> {
    let work = Work::at_once(FIRST, State::second(MESSAGES));
    assert!(rt; stopped(&rt, work, Which::Log, [80, 10, 1])?);
    Ok(())
}

#[test]
fn a_store_is_migrated_file(rt: HostRuntime) -> Result<(), Fail> {
    let work = Work::at_once(FIRST, State::second(MESSAGES));
    assert!(rt; stopped(&rt, work, Which::File, [50, 4, 0])?);
    Ok(())
}

#[test]
fn the_first_groups_file(rt: HostRuntime) -> Result<(), Fail> {
    let work = Work::in_groups(State::second(0), State::second(4));
    assert!(rt; stopped(&rt, work, Which::File, [50, 20, 0])?);
    Ok(())
}
