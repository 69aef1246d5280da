//! Case limits, over a `Look` of the tests.
use crate::tree::looks::{counting, planned_where};
use fuse_request::Op;
use std::alloc::Global;
use std::test::Fail;

const MKDIR: Op<'static> = Op::Mkdir {
    mode: 0o755,
    umask: 0o022,
    name: b"a",
};

const MKNOD: Op<'static> = Op::Mknod {
    mode: 0o644,
    rdev: 0,
    umask: 0o022,
    name: b"a",
};

const OPEN: Op<'static> = Op::OpenFile {
    flags: 0,
    open_flags: 0,
};

// The next node, fh and cookie, how many nodes and handles there are, and the error number.
type Limit = ([u64; 5], u32);

// MKDIR and MKNOD in the root.
const MADE: [Limit; 6] = [
    ([65_537, 1, 65_538, 65_535, 0], 0),
    ([65_537, 1, 65_538, 65_536, 0], 28),
    ([0x3fff_ffff_ffff_ffff, 1, 4, 2, 0], 0),
    ([0x4000_0000_0000_0000, 1, 4, 2, 0], 28),
    ([3, 1, 0x3fff_ffff_ffff_ffff, 2, 0], 0),
    ([3, 1, 0x4000_0000_0000_0000, 2, 0], 28),
];

// OPEN of the file.
const OPENED: [Limit; 4] = [
    ([3, 0x3fff_ffff_ffff_ffff, 4, 2, 65_535], 0),
    ([3, 65_537, 4, 2, 65_536], 23),
    ([3, 0x4000_0000_0000_0000, 4, 2, 65_536], 23),
    ([3, 0x4000_0000_0000_0000, 4, 2, 4], 28),
];

fn errno_where(alloc: Global, counters: [u64; 5], nodeid: u64, op: Op<'_>) -> Result<u32, Fail> {
    let (planned, _) = planned_where(alloc, counting(counters), nodeid, op)?;
    Ok(planned.answer.errno.0)
}

// Whether the operation on a node has the right error number at each of these limits.
fn are_limits(alloc: Global, limits: &[Limit], nodeid: u64, op: Op<'_>) -> Result<bool, Fail> {
    for (counters, errno) in limits {
        if errno_where(alloc, *counters, nodeid, op)? != *errno {
            return Ok(false);
        }
    }
    Ok(true)
}

#[test]
fn limits(rt: HostRuntime) -> Result<(), Fail> {
    let right = [
        are_limits(rt.alloc(), &MADE, 1, MKDIR)?,
        are_limits(rt.alloc(), &MADE, 1, MKNOD)?,
        are_limits(rt.alloc(), &OPENED, 2, OPEN)?,
    ];
    assert_eq!(rt; right, [true; 3]);
    Ok(())
}
