//! A keeper over the tables: each of its calls.
use crate::stores::NO_VOLUME;
use fuse_init::PlainProfile;
use fuse_request::{InHeader, InitIn, Op, Request};
use fuse_rows::Origin;
use fuse_store::{Done, Keeper, Restart, StoreFault, StoreParts, TableKeeper};
use fuse_wire::{Id, Moment};
use sqlite::{Connection, MemStore};
use sqlite_disk::Memory;
use std::alloc::Global;

const START: Moment = Moment { secs: 0, nanos: 0 };

const AT_1000: Moment = Moment {
    secs: 1000,
    nanos: 0,
};

const RESEND: u64 = 0x8000_0000_0000_0000;

type MemKeeper = TableKeeper<PlainProfile, MemStore, Memory>;

fn made(alloc: Global) -> Result<MemKeeper, StoreFault> {
    let conn = Connection::open_in_memory(alloc)?;
    let parts = StoreParts { conn, disk: None };
    match TableKeeper::create(alloc, parts, NO_VOLUME, Origin::at(START)) {
        Ok(keeper) => Ok(keeper),
        Err((fault, _)) => Err(fault),
    }
}

fn asked(unique: u64, op: Op<'_>) -> (Request<'_>, Moment) {
    let header = InHeader {
        unique,
        nodeid: 1,
        uid: 1000,
        gid: 1000,
        pid: 77,
    };
    let request = Request {
        header,
        op,
        ext: &[],
    };
    (request, AT_1000)
}

// The INIT of case init-agreed.
const INIT: Op<'static> = Op::Init(InitIn {
    major: 7,
    minor: 40,
    max_readahead: 131_072,
    flags: 0x4000_2021,
    flags2: Some(0x80),
});

const MKDIR_A: Op<'static> = Op::Mkdir {
    mode: 0o755,
    umask: 0o022,
    name: b"a",
};

fn perform(
    keeper: &mut MemKeeper,
    group: &[(Request<'_>, Moment)],
    settled: &[Id],
) -> Result<Vec<Done>, StoreFault> {
    keeper.perform(group, settled)
}

// Whether a request had this error number, and was a repeat or not.
fn is_answered(done: &Done, errno: u32, repeated: bool) -> bool {
    done.answer.errno.0 == errno && done.repeated == repeated
}

fn are_answered(dones: &[Done], wanted: &[(u32, bool)]) -> bool {
    dones.len() == wanted.len()
        && dones.iter().zip(wanted).all(|(done, (errno, repeated))| is_answered(
            done, *errno, *repeated,
        ))
}

// INIT, and a directory made, resent, and made again: EEXIST.
fn performs_first(keeper: &mut MemKeeper) -> bool {
    let group = [
        asked(2, INIT),
        asked(4, MKDIR_A),
        asked(RESEND | 4, MKDIR_A),
        asked(6, MKDIR_A),
    ];
    let wanted = [(0, false), (0, false), (0, true), (17, false)];
    matches!(perform(keeper, &group, &[]), Ok(dones) if are_answered(dones.as_slice(), &wanted))
}

// The MKDIR resent to a keeper that has its record, and id 2 settled.
fn performs_resent(keeper: &mut MemKeeper) -> bool {
    let group = [asked(RESEND | 4, MKDIR_A)];
    let wanted = [(0, true)];
    matches!(perform(keeper, &group, &[Id(2)]), Ok(dones) if are_answered(dones.as_slice(), &wanted))
}

// Whether there are so many nodes, handles, records and lots.
fn counts(keeper: &mut MemKeeper, wanted: [u64; 4]) -> bool {
    match keeper.counts() {
        Ok(counts) => [counts.nodes, counts.handles, counts.records, counts.lots] == wanted,
        Err(_) => false,
    }
}

// Whether the record of id 4 and settings are there, or neither is.
fn remembers(keeper: &mut MemKeeper, wanted: bool) -> bool {
    let answered = matches!(keeper.answer_of(Id(4)), Ok(answer) if answer.is_some() == wanted);
    let agreed = matches!(keeper.settings(), Ok(settings) if settings.is_some() == wanted);
    answered && agreed
}

// Case new-counts, and a group.
fn first_life(keeper: &mut MemKeeper) -> [bool; 5] {
    [
        counts(keeper, [1, 0, 0, 0]),
        remembers(keeper, false),
        performs_first(keeper),
        counts(keeper, [2, 0, 3, 1]),
        remembers(keeper, true),
    ]
}

// The resend after a restart, and the next mount.
fn second_life(keeper: &mut MemKeeper) -> [bool; 5] {
    [
        performs_resent(keeper),
        counts(keeper, [2, 0, 2, 2]),
        keeper.begin_mount().is_ok(),
        counts(keeper, [2, 0, 0, 0]) && remembers(keeper, false),
        !keeper.failed(),
    ]
}

#[test]
fn two_lives(rt: HostRuntime) -> Result<(), StoreFault> {
    let mut keeper = made(rt.alloc())?;
    let first = first_life(&mut keeper);
    let mut opened = match keeper.restart() {
        Ok(opened) => opened,
        Err((fault, _)) => return Err(fault),
    };
    let second = second_life(&mut opened);
    assert_eq!(rt; [first, second], [[true; 5]; 2]);
    Ok(())
}
