//! An id that is settled and in the group acts anew.
ghost use Rattle.std.specs.Prelude.{◌≤◌, length};

use super::*;
use fuse_keeper::Done;
use fuse_request::{InHeader, Op, Request};
use fuse_wire::{Errno, Id};

// GETATTR of the root under id 4, where these ids are settled.
fn ask(keeper: &mut Counted, settled: &[Id]) -> Result<Option<Done>, StoreFault>
    requires { length settled.now ≤ 16 }
{
    let request = Request {
        header: InHeader {
            unique: 4,
            nodeid: 1,
            uid: 1000,
            gid: 1000,
            pid: 77,
        },
        op: Op::Getattr { flags: 0, fh: 0 },
        ext: b"".as_slice(),
    };
    let mut dones = keeper.perform(&[(request, AT_1000)], settled)?;
    Ok(dones.pop())
}

fn answers(keeper: &mut Counted, settled: &[Id], errno: Errno, repeated: bool) -> bool
    requires { length settled.now ≤ 16 }
{
    match ask(keeper, settled) {
        Ok(Some(done)) => done.answer.errno == errno && done.repeated == repeated,
        _ => false,
    }
}

fn agrees(alloc: Global, keeper: &mut Counted) -> Result<bool, StoreFault> {
    let input = hex(alloc, INIT_AGREED)?;
    Ok(serves(alloc, keeper, input, plain(alloc, true), false))
}

// Case before-init: the refusal is recorded. It is removed with the settled ids, of which one has no
// record, before the group acts.
fn acts_anew(alloc: Global) -> Result<[bool; 5], StoreFault> {
    let mut keeper = new_counted(alloc)?;
    let refused = answers(&mut keeper, &[], Errno::EPROTO, false);
    let agreed = agrees(alloc, &mut keeper)?;
    let again = answers(&mut keeper, &[], Errno::EPROTO, true);
    let anew = answers(&mut keeper, &[Id(4), Id(6)], Errno::NONE, false);
    let known = answers(&mut keeper, &[Id(6)], Errno::NONE, true);
    Ok([refused, agreed, again, anew, known])
}

#[test]
fn settled_in_the_group(rt: HostRuntime) -> Result<(), StoreFault> {
    assert_eq!(rt; acts_anew(rt.alloc())?, [true; 5]);
    Ok(())
}
