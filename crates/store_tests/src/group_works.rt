//! Groups that are stopped at each call of the log or of the file. These take most of the time of the crate's tests.
use crate::disks::Which;
use crate::requests::MESSAGES;
use crate::stores::{State, Work};
use crate::works::stopped;
use std::test::Fail;

#[test]
fn the_run_in_one_group_log(rt: HostRuntime) -> Result<(), Fail> {
    let work = Work::at_once(State::second(0), State::second(MESSAGES));
    assert!(rt; stopped(&rt, work, Which::Log, [240, 20, 1])?);
    Ok(())
}

#[test]
fn the_run_in_one_group_file(rt: HostRuntime) -> Result<(), Fail> {
    let work = Work::at_once(State::second(0), State::second(MESSAGES));
    assert!(rt; stopped(&rt, work, Which::File, [28, 11, 0])?);
    Ok(())
}

#[test]
fn the_first_groups_log(rt: HostRuntime) -> Result<(), Fail> {
    let work = Work::in_groups(State::second(0), State::second(4));
    assert!(rt; stopped(&rt, work, Which::Log, [240, 20, 4])?);
    Ok(())
}

#[test]
fn the_last_groups_log(rt: HostRuntime) -> Result<(), Fail> {
    let work = Work::in_groups(State::second(4), State::second(MESSAGES));
    assert!(rt; stopped(&rt, work, Which::Log, [130, 18, 4])?);
    Ok(())
}

#[test]
fn the_last_groups_file(rt: HostRuntime) -> Result<(), Fail> {
    let work = Work::in_groups(State::second(4), State::second(MESSAGES));
    assert!(rt; stopped(&rt, work, Which::File, [80, 20, 0])?);
    Ok(())
}
