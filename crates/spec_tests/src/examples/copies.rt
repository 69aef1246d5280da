//! The store after a commit that failed, and after opening the keeper again.
ghost use Rattle.std.specs.Prelude.{◌≢◌};
ghost use Rattle.fuse_wire.specs.Ids.{id_of};

use five_files::FiveFiles;
use fuse_keeper::{Done, Keeper, Restart, StoreFault};
use fuse_request::{InHeader, Op, Request};
use fuse_wire::{Errno, Id, Memory, Moment};
use std::alloc::Global;
use two_copies::TwoCopies;

const NOW: Moment = Moment {
    secs: 1000,
    nanos: 0,
};

type Copies = TwoCopies<FiveFiles>;

// New files. `between` commits succeed between two that fail.
fn begun(alloc: Global, commits: u64) -> Result<Copies, Memory> {
    TwoCopies::new(alloc, NOW, commits)
}

// Performs a request with this `unique`. It is kept.
fn ask(keeper: &mut Copies, unique: u64) -> Result<Option<Done>, StoreFault>
    requires { id_of unique ≢ 0 }
{
    let request = Request {
        header: InHeader {
            unique,
            nodeid: 1,
            uid: 1000,
            gid: 1000,
            pid: 77,
        },
        op: Op::OpenDir {
            flags: 0,
            open_flags: 0,
        },
        ext: b"".as_slice(),
    };
    let mut dones = keeper.perform(&[(request, NOW)], &[])?;
    Ok(dones.pop())
}

// Whether the answer is EPROTO, since there was no INIT, for the first time or as a repeat.
fn answers(keeper: &mut Copies, unique: u64, repeated: bool) -> bool
    requires { id_of unique ≢ 0 }
{
    match ask(keeper, unique) {
        Ok(Some(done)) => done.answer.errno == Errno::EPROTO && done.repeated == repeated,
        _ => false,
    }
}

fn is_refused(keeper: &mut Copies, unique: u64) -> bool
    requires { id_of unique ≢ 0 }
{
    matches!(ask(keeper, unique), Err(StoreFault::Damaged))
}

fn has_records(keeper: &mut Copies, count: u64) -> bool {
    matches!(keeper.counts(), Ok(counts) if counts.records == count)
}

fn has_answer(keeper: &mut Copies, id: u64) -> bool {
    matches!(keeper.answer_of(Id(id)), Ok(Some(_)))
}

fn has_failed(keeper: &Copies) -> bool {
    keeper.failed()
}

fn is_opened(keeper: &Copies, times: u64) -> bool {
    !keeper.failed() && keeper.openings() == times
}

fn reopened(keeper: Copies) -> Result<Copies, StoreFault> {
    keeper.restart().map_err(|refused| refused.0)
}

// The first group is committed. The second one is in the working copy alone.
fn refuses(keeper: &mut Copies) -> [bool; 5] {
    [
        answers(keeper, 2, false),
        is_refused(keeper, 4),
        has_failed(keeper),
        has_records(keeper, 2),
        is_refused(keeper, 6),
    ]
}

// It is gone when the keeper is opened again, and is performed as new.
fn loses(keeper: &mut Copies) -> [bool; 3] {
    [
        is_opened(keeper, 1),
        has_records(keeper, 1),
        answers(keeper, 4, false),
    ]
}

fn refused_and_lost(alloc: Global) -> Result<([bool; 5], [bool; 3], bool), StoreFault> {
    let mut keeper = begun(alloc, 1)?;
    let refused = refuses(&mut keeper);
    let mut opened = reopened(keeper)?;
    let lost = loses(&mut opened);
    let mut twice = reopened(opened)?;
    Ok((
        refused,
        lost,
        is_opened(&twice, 2) && has_records(&mut twice, 2),
    ))
}

#[test]
fn a_refused_commit_is_lost(rt: HostRuntime) -> Result<(), StoreFault> {
    assert_eq!(rt; refused_and_lost(rt.alloc())?, ([true; 5], [true; 3], true));
    Ok(())
}

// A commit that succeeds and still returns a fault, once: when the keeper is opened again its group is
// a repeat.
fn finds(keeper: &mut Copies) -> [bool; 4] {
    [
        has_records(keeper, 1),
        has_answer(keeper, 2),
        answers(keeper, 2, true),
        answers(keeper, 4, false),
    ]
}

fn faulted(alloc: Global) -> Result<(bool, [bool; 4]), StoreFault> {
    let mut keeper = begun(alloc, 8)?.with_a_fault();
    let faults = is_refused(&mut keeper, 2) && has_failed(&keeper);
    let mut opened = reopened(keeper)?;
    Ok((faults, finds(&mut opened)))
}

#[test]
fn a_commit_that_faults_is_kept(rt: HostRuntime) -> Result<(), StoreFault> {
    assert_eq!(rt; faulted(rt.alloc())?, (true, [true; 4]));
    Ok(())
}

fn begins_mount(keeper: &mut Copies) -> bool {
    keeper.begin_mount().is_ok()
}

// A mount that is not committed leaves the records of the one before.
fn refused_mount(alloc: Global) -> Result<([bool; 3], [bool; 3]), StoreFault> {
    let mut keeper = begun(alloc, 1)?;
    let refused = [
        answers(&mut keeper, 2, false),
        !begins_mount(&mut keeper),
        has_records(&mut keeper, 0),
    ];
    let mut opened = reopened(keeper)?;
    Ok((refused, mounted(&mut opened)))
}

fn mounted(keeper: &mut Copies) -> [bool; 3] {
    [
        has_records(keeper, 1),
        begins_mount(keeper),
        has_records(keeper, 0),
    ]
}

#[test]
fn a_refused_mount_is_lost(rt: HostRuntime) -> Result<(), StoreFault> {
    assert_eq!(rt; refused_mount(rt.alloc())?, ([true; 3], [true; 3]));
    Ok(())
}
