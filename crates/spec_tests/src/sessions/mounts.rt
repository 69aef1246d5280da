//! Case unlinked-open-file, and the mount after it.
use super::running::put_pairs;
use super::*;
use crate::run::{MKNOD, OPEN, Pair, WRITE, holding};

// UNLINK `f` under id 10, READ by its fh under id 12, and GETATTR of node 2 under id 14: nlink 0.
const BEFORE: [Pair; 6] = [
    MKNOD,
    OPEN,
    WRITE,
    (
        "2a000000 0a000000 0a00000000000000 0100000000000000 e8030000 e8030000 4d000000 00000000
        6600",
        "10000000 00000000 0a00000000000000",
    ),
    (
        "50000000 0f000000 0c00000000000000 0200000000000000 e8030000 e8030000 4d000000 00000000
        0100000000000000 0*8 00100000 00000000 0*8 00000000 00000000",
        "13000000 00000000 0c00000000000000 6f6e65",
    ),
    (
        "38000000 03000000 0e00000000000000 0200000000000000 e8030000 e8030000 4d000000 00000000
        0*16",
        "78000000 00000000 0e00000000000000 0100000000000000 0*8 0200000000000000 0300000000000000
        0100000000000000 e803000000000000 e803000000000000 e803000000000000 0*12 a4810000 00000000
        e8030000 e8030000 00000000 00100000 00000000",
    ),
];

// INIT under id 16, and GETATTR of node 2 under id 18: ESTALE.
const AFTER: [Pair; 2] = [
    (
        "68000000 1a000000 1000000000000000 0*8 0*16
        07000000 28000000 00000200 21200040 80000000 0*44",
        "50000000 00000000 1000000000000000 07000000 28000000 00000200 21000040 0c000900 00000200
        01000000 00000000 80000000 00000000 0*24",
    ),
    (
        "38000000 03000000 1200000000000000 0200000000000000 e8030000 e8030000 4d000000 00000000
        0*16",
        "10000000 8cffffff 1200000000000000",
    ),
];

fn session_of(alloc: Global, pairs: &[Pair]) -> Result<Session, AllocError> {
    let mut input = Vec::new(alloc);
    let mut wanted = Vec::new(alloc);
    put_pairs(&mut input, &mut wanted, pairs)?;
    Ok(plain(alloc, input, wanted))
}

fn begin_mount<K: Keeper>(keeper: &mut K) -> Result<(), StoreFault> {
    keeper.begin_mount()
}

// Whether the session before a mount is right, and the one in it.
fn around_a_mount(alloc: Global) -> Result<[bool; 2], StoreFault> {
    let mut keeper = begun(alloc, INIT_AGREED)?;
    let before = serve_on(alloc, &mut keeper, session_of(alloc, &BEFORE)?);
    begin_mount(&mut keeper)?;
    let after = serve_on(alloc, &mut keeper, session_of(alloc, &AFTER)?);
    Ok([
        before.is(EndKind::End, holding(2, 1, 7)),
        after.is(EndKind::End, holding(1, 0, 2)),
    ])
}

#[test]
fn unlinked_open_file(rt: HostRuntime) -> Result<(), StoreFault> {
    assert_eq!(rt; around_a_mount(rt.alloc())?, [true; 2]);
    Ok(())
}
