// A keeper over a database in memory, and a guest whose frames are known before.
use crate::requests::asked;
use fuse_guest::Guested;
use fuse_keeper::{Keeper, StoreFault};
use fuse_request::{InitIn, Op, Request};
use fuse_wire::Moment;
use guest_store::{Deaths, GuestKeeper, Pipes, StartFault};
use sqlite::{Connection, MemStore};
use std::alloc::Global;
use std::io;
use std::io::Read;

// Any guest.
#[derive(Drop)]
struct Anyone;

impl Guested for Anyone {
    ghost use Rattle.fuse_guest.specs.Talk.{Fails};
    ghost use Rattle.fuse_guest.specs.declared.fault.TalkFault.TheVariants.{Ended};

    ghost GUEST = { record {
      ready = record { max_write = 0; opcodes = 0; wanted = 0; max_readahead = 0; seen = 0 };
      says = λ asked now told. Fails Ended;
      right = λ asked now told. tt;
    } };
}

// What a guest writes, one byte at a time.
#[derive(Drop)]
struct Script {
    rest: &'static [u8],
}

impl Read for Script {
    fn read(&mut self, buffer: &mut [u8]) -> io::Result<usize> {
        let Some((first, rest)) = self.rest.split_first() else {
            return Ok(0);
        };
        if buffer.is_empty() {
            return Ok(0);
        }
        buffer[0] = *first;
        self.rest = rest;
        Ok(1)
    }
}

// READY, which serves LOOKUP, READ, WRITE and READDIR and sees LOOKUP; ANSWER to INIT; and ANSWER to a
// WRITE of three bytes, which puts a pair.
const MOUNT: &[u8] =
    b"\x30\0\0\0\x02\0\0\0\x01\0\0\0\0\0\0\0\x02\x80\x01\x10\0\0\0\0\0\0\0\0\0\0\0\0\0\0\0\0\0\0\0\0\x02\0\0\0\0\0\0\0\x18\0\0\0\x08\0\0\0\0\0\0\0\0\0\0\0\0\0\0\0\0\0\0\0\x2f\0\0\0\x08\0\0\0\0\0\0\0\x01\0\0\0\x08\0\0\0\0\0\0\0\x01\0\0\0\x01\0\0\0k\x02\0\0\0vv\x03\0\0\0\0\0\0\0";

// READY of a guest that serves the same, and of one that serves nothing.
const READY: &[u8] =
    b"\x30\0\0\0\x02\0\0\0\x01\0\0\0\0\0\0\0\x02\x80\x01\x10\0\0\0\0\0\0\0\0\0\0\0\0\0\0\0\0\0\0\0\0\x02\0\0\0\0\0\0\0";

const NOTHING: &[u8] =
    b"\x30\0\0\0\x02\0\0\0\x01\0\0\0\0\0\0\0\0\0\0\0\0\0\0\0\0\0\0\0\0\0\0\0\0\0\0\0\0\0\0\0\0\0\0\0\0\0\0\0";

const INIT: Op<'static> = Op::Init(InitIn {
    major: 7,
    minor: 40,
    max_readahead: 131_072,
    flags: 0x4000_2021,
    flags2: Some(0x80),
});

const WRITE: Op<'static> = Op::Write {
    fh: 1,
    offset: 0,
    write_flags: 0,
    lock_owner: 0,
    flags: 0,
    payload: b"abc",
};

type ScriptKeeper = GuestKeeper<Anyone, MemStore, Script, Vec<u8>>;

fn pipes(alloc: Global, rest: &'static [u8]) -> Pipes<Script, Vec<u8>> {
    Pipes {
        source: Script { rest },
        sink: Vec::new(alloc),
    }
}

fn fault_of(fault: StartFault) -> StoreFault {
    match fault {
        StartFault::Store(fault) => fault,
        StartFault::Guest(_) => StoreFault::Guest,
    }
}

fn made(alloc: Global) -> Result<ScriptKeeper, StoreFault> {
    let conn = Connection::open_in_memory(alloc)?;
    match GuestKeeper::make(alloc, conn, 77, pipes(alloc, MOUNT)) {
        Ok(keeper) => Ok(keeper),
        Err((fault, _)) => Err(fault_of(fault)),
    }
}

fn opened(
    alloc: Global,
    conn: Connection<MemStore>,
    rest: &'static [u8],
) -> Result<ScriptKeeper, StoreFault> {
    match GuestKeeper::open(alloc, conn, pipes(alloc, rest)) {
        Ok(keeper) => Ok(keeper),
        Err((fault, _)) => Err(fault_of(fault)),
    }
}

// Whether the answer to this request alone is a repeat, and its error.
fn one(
    keeper: &mut ScriptKeeper,
    request: (Request<'static>, Moment),
) -> Result<(bool, u32), StoreFault> {
    let dones = keeper.perform(&[request], &[])?;
    match dones.first() {
        Some(done) => Ok((done.repeated, done.answer.errno.0)),
        None => Err(StoreFault::Damaged),
    }
}

// A mount that has answered INIT and a WRITE.
fn written(alloc: Global) -> Result<ScriptKeeper, StoreFault> {
    let mut keeper = made(alloc)?;
    one(&mut keeper, asked(2, 0, INIT))?;
    one(&mut keeper, asked(4, 1, WRITE))?;
    Ok(keeper)
}

#[test]
fn a_resend_is_answered_from_the_record(rt: HostRuntime) -> Result<(), StoreFault> {
    let mut keeper = written(rt.alloc())?;
    assert_eq!(rt; one(&mut keeper, asked(4, 1, WRITE))?, (true, 0));
    let counts = keeper.counts()?;
    assert_eq!(rt; (counts.nodes, counts.records, counts.lots), (1, 2, 1));
    Ok(())
}

#[test]
fn a_guest_that_ends_breaks_the_keeper(rt: HostRuntime) -> Result<(), StoreFault> {
    let mut keeper = written(rt.alloc())?;
    let asked_more = one(&mut keeper, asked(6, 1, WRITE));
    assert!(rt; matches!(asked_more, Err(StoreFault::Guest)));
    assert!(rt; matches!(keeper.broken(), Some(broken) if broken.id == 6 && broken.opcode == 16));
    let resent = one(&mut keeper, asked(4, 1, WRITE));
    assert!(rt; matches!(resent, Err(StoreFault::Guest)));
    Ok(())
}

#[test]
fn another_guest_goes_on(rt: HostRuntime) -> Result<(), StoreFault> {
    let conn = written(rt.alloc())?.into_conn();
    let mut keeper = opened(rt.alloc(), conn, READY)?;
    assert_eq!(rt; one(&mut keeper, asked(4, 1, WRITE))?, (true, 0));
    Ok(())
}

#[test]
fn a_guest_without_what_is_pledged_is_refused(rt: HostRuntime) -> Result<(), StoreFault> {
    let conn = written(rt.alloc())?.into_conn();
    let refused = opened(rt.alloc(), conn, NOTHING);
    assert!(rt; matches!(refused, Err(StoreFault::Guest)));
    Ok(())
}

#[test]
fn a_request_that_ended_three_guests_is_given_up(rt: HostRuntime) -> Result<(), StoreFault> {
    let mut keeper = written(rt.alloc())?;
    keeper.set_deaths(Deaths { id: 6, count: 3 });
    assert_eq!(rt; one(&mut keeper, asked(6, 1, WRITE))?, (false, 5));
    assert_eq!(rt; one(&mut keeper, asked(6, 1, WRITE))?, (true, 5));
    Ok(())
}
