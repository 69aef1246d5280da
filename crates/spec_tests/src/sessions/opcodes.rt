//! Opcodes outside the profile: over a file system that serves READLINK and STATFS, and over the
//! tree, which serves none.
use super::running::put_pairs;
use super::*;
use crate::links::LinksKeeper;
use crate::run::{Pair, holding};
use crate::texts::MKDIR_A;
use fuse_keeper::PlainKeeper;

// Cases symlink-readlink and statfs.
const READLINK: &str = "28000000 05000000 0600000000000000 0200000000000000
    e8030000 e8030000 4d000000 00000000";

const TARGET: &str = "13000000 00000000 0600000000000000 612f62";

const STATFS: &str = "28000000 11000000 0400000000000000 0100000000000000
    e8030000 e8030000 4d000000 00000000";

const ROOM: &str = "60000000 00000000 0400000000000000 0000001000000000 0000001000000000
    0000001000000000 0000100000000000 ffff0f0000000000 00100000 ff000000 00100000 00000000 0*24";

// Case bodies: a READLINK with one byte, a STATFS with 8 bytes, and a READLINK with one byte and
// extensions that are longer than that.
const READLINK_OF_ONE: &str = "29000000 05000000 0400000000000000 0100000000000000
    e8030000 e8030000 4d000000 00000000 00";

const STATFS_OF_EIGHT: &str = "30000000 11000000 0400000000000000 0100000000000000
    e8030000 e8030000 4d000000 00000000 0*8";

const READLINK_EXTENDED: &str = "29000000 05000000 0400000000000000 0100000000000000
    e8030000 e8030000 4d000000 01000000 00";

const SYMLINK: &str = "2e000000 06000000 0400000000000000 0100000000000000
    e8030000 e8030000 4d000000 00000000 6c00 612f6200";

const EINVAL: &str = "10000000 eaffffff 0400000000000000";

const ENOSYS: &str = "10000000 daffffff 0400000000000000";

// Messages with their answers, and the records after them.
type Row = (&'static [Pair], u64);

// What is served is kept: it is recorded, and answered again. All else is as for any file system.
const SERVED: [Row; 7] = [
    (
        &[
            (READLINK, TARGET),
            (
                "28000000 05000000 0600000000000080 0200000000000000 e8030000 e8030000 4d000000
                00000000",
                "13000000 00000000 0600000000000080 612f62",
            ),
        ],
        1,
    ),
    (&[(READLINK, TARGET), (STATFS, ROOM)], 2),
    (&[(READLINK_OF_ONE, EINVAL), (MKDIR_A, EINVAL)], 1),
    (&[(STATFS_OF_EIGHT, EINVAL), (MKDIR_A, EINVAL)], 1),
    (&[(READLINK_EXTENDED, EINVAL), (STATFS, ROOM)], 1),
    (&[(SYMLINK, ENOSYS), (STATFS, ROOM)], 1),
    // NOTIFY_REPLY stays silent.
    (
        &[(
            "28000000 29000000 0400000000000000 0100000000000000 e8030000 e8030000 4d000000
            00000000",
            "",
        )],
        0,
    ),
];

// Nothing of it is recorded.
const IN_THE_TREE: [Pair; 6] = [
    (READLINK, "10000000 daffffff 0600000000000000"),
    (STATFS, ENOSYS),
    (READLINK_OF_ONE, ENOSYS),
    (STATFS_OF_EIGHT, ENOSYS),
    (READLINK_EXTENDED, EINVAL),
    (SYMLINK, ENOSYS),
];

fn session_of(alloc: Global, pairs: &[Pair]) -> Result<Session, AllocError> {
    let mut input = Vec::new(alloc);
    let mut wanted = Vec::new(alloc);
    put_pairs(&mut input, &mut wanted, pairs)?;
    Ok(plain(alloc, input, wanted))
}

fn new_links(alloc: Global) -> Result<LinksKeeper, StoreFault> {
    Ok(PlainKeeper::new(alloc, AT_1000)?)
}

// Whether each row is answered so over a new file system.
fn are_served(alloc: Global) -> Result<bool, StoreFault> {
    for (pairs, records) in SERVED {
        let mut keeper = new_links(alloc)?;
        let seen = serve_on(alloc, &mut keeper, session_of(alloc, pairs)?);
        if !seen.is(EndKind::End, holding(2, 0, records)) {
            return Ok(false);
        }
    }
    Ok(true)
}

fn are_unsupported(alloc: Global) -> Result<bool, StoreFault> {
    let mut keeper = begun(alloc, INIT_AGREED)?;
    let seen = serve_on(alloc, &mut keeper, session_of(alloc, &IN_THE_TREE)?);
    Ok(seen.is(EndKind::End, holding(1, 0, 1)))
}

#[test]
fn any_opcode(rt: HostRuntime) -> Result<(), StoreFault> {
    assert!(rt; are_served(rt.alloc())?);
    assert!(rt; are_unsupported(rt.alloc())?);
    Ok(())
}
