//! Cases of `pack`.
ghost use Rattle.std.specs.Prelude.{◌≤◌, length};

use fuse_answer::*;
use std::alloc::Global;

// The size of an entry with this name, or 0 if there is no room.
fn packed_size(alloc: Global, name: &[u8], size: u32) -> Result<usize, PackFault>
    requires some { 1 ≤ length name.now }
    requires few { length name.now ≤ 255 }
{
    let entries = [Dirent {
        ino: 2,
        off: 3,
        kind: 8,
        name,
    }];
    let packed = pack(alloc, &entries, size)?;
    Ok(packed.body.as_slice().len())
}

const DOT: Dirent<'static> = Dirent {
    ino: 1,
    off: 1,
    kind: 4,
    name: b".",
};

const DOTS: Dirent<'static> = Dirent {
    ino: 1,
    off: 2,
    kind: 4,
    name: b"..",
};

// How many of the first two entries of the root fit, and their size.
fn packed_dots(alloc: Global, size: u32) -> Result<(usize, usize), PackFault> {
    let packed = pack(alloc, &[DOT, DOTS], size)?;
    Ok((packed.taken, packed.body.as_slice().len()))
}

fn packed_nothing(alloc: Global) -> Result<(usize, usize), PackFault> {
    let packed = pack(alloc, &[], 0)?;
    Ok((packed.taken, packed.body.as_slice().len()))
}

const LONGEST: &[u8] = &[b'a'; 255];

// Names of 8, 9 and 255 bytes, and as many entries as fit.
#[test]
fn packed(rt: HostRuntime) -> Result<(), PackFault> {
    let alloc = rt.alloc();
    let sizes = [
        packed_size(alloc, &LONGEST[..8], 1000)?,
        packed_size(alloc, &LONGEST[..9], 1000)?,
        packed_size(alloc, LONGEST, 280)?,
    ];
    let fit = [
        packed_dots(alloc, 63)?,
        packed_dots(alloc, 64)?,
        packed_nothing(alloc)?,
    ];
    let none = matches!(
        packed_size(alloc, LONGEST, 279),
        Err(PackFault::FirstTooBig)
    );
    assert!(rt; none && sizes == [32, 40, 280] && fit == [(1, 32), (2, 64), (0, 0)]);
    Ok(())
}
