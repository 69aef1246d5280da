//! Commands whose reader or writer fails, and a script that runs to its end.
use super::fakes::{Failing, Full, Unflushed};
use super::running::printed_to;
use crate::hex::hex;
use crate::lists::simulate_in_lists;
use crate::texts::LOOKUP_HELLO;
use fuse_commands::{Ending, run_check, run_dump};
use std::alloc::Global;
use std::test::Fail;

fn is_failure(ending: Ending) -> bool {
    matches!(ending, Ending::PortFailed)
}

// A reader that fails after LOOKUP: the line of LOOKUP is printed.
fn replays(alloc: Global, stream: &[u8]) -> Result<[bool; 2], Fail> {
    let mut printed = Vec::new(alloc);
    let ending = printed_to(alloc, Failing { rest: stream }, &mut printed)?;
    let answered = printed.as_slice() == b"10000000feffffff0400000000000000\n".as_slice();
    Ok([is_failure(ending), answered])
}

// Writers that fail.
fn replays_to(alloc: Global, stream: &[u8]) -> Result<[bool; 2], Fail> {
    let full = printed_to(alloc, stream, &mut Full)?;
    let unflushed = printed_to(alloc, stream, &mut Unflushed)?;
    Ok([is_failure(full), is_failure(unflushed)])
}

fn dumps(alloc: Global, stream: &[u8]) -> [bool; 2] {
    let mut printed = Vec::new(alloc);
    let ending = run_dump(alloc, Failing { rest: stream }, &mut printed);
    let is_printed = printed.as_slice() == b"0 LOOKUP id=4 resend=0 node=1 len=46\n".as_slice();
    [is_failure(ending), is_printed]
}

fn dumps_to(alloc: Global, stream: &[u8]) -> [bool; 2] {
    [
        is_failure(run_dump(alloc, stream, &mut Full)),
        is_failure(run_dump(alloc, stream, &mut Unflushed)),
    ]
}

fn checks_to(alloc: Global, stream: &[u8]) -> [bool; 2] {
    [
        is_failure(run_check(alloc, stream, &mut Full)),
        is_failure(run_check(alloc, stream, &mut Unflushed)),
    ]
}

const COMMENT: &[u8] = b"#";

fn simulates_to(alloc: Global) -> [bool; 2] {
    [
        is_failure(simulate_in_lists(alloc, COMMENT, &mut Full)),
        is_failure(simulate_in_lists(alloc, COMMENT, &mut Unflushed)),
    ]
}

// A script that fails, and one without an event.
fn simulates(alloc: Global) -> [bool; 2] {
    let mut printed = Vec::new(alloc);
    let failing = simulate_in_lists(alloc, Failing { rest: COMMENT }, &mut printed);
    let nothing = printed.is_empty();
    let ending = simulate_in_lists(alloc, COMMENT, &mut printed);
    let is_printed = printed.as_slice() == b"nodes=1 handles=0\n".as_slice();
    [
        is_failure(failing) && nothing,
        matches!(ending, Ending::Done) && is_printed,
    ]
}

#[test]
fn failing_ports(rt: HostRuntime) -> Result<(), Fail> {
    let alloc = rt.alloc();
    let bytes = hex(alloc, LOOKUP_HELLO)?;
    let stream = bytes.as_slice();
    let right = [
        replays(alloc, stream)?,
        replays_to(alloc, stream)?,
        dumps(alloc, stream),
        dumps_to(alloc, stream),
        checks_to(alloc, stream),
        simulates_to(alloc),
        simulates(alloc),
    ];
    assert_eq!(rt; right, [[true; 2]; 7]);
    Ok(())
}
