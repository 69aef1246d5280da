// Which bodies answer further opcodes, and how many bytes answers have that ask for some.
use crate::hex::hex;
use fuse_answer::BadAnswer::{BadDirent, BodyLength};
use fuse_answer::{BadAnswer, read_answer};
use fuse_request::opcode::is_silent;
use fuse_wire::opcode::{
    ACCESS, COPY_FILE_RANGE, CREATE, FALLOCATE, FLUSH, FSYNC, FSYNCDIR, GETXATTR, LINK, LISTXATTR,
    LSEEK, READ, READDIR, READDIRPLUS, READLINK, REMOVEXATTR, SETXATTR, STATFS, SYMLINK,
};
use std::alloc::{AllocError, Global};
use std::test::*;

// An opcode, the bytes that the request asks for, its answer, and the fault of that.
type Case = (u32, u32, &'static str, Option<BadAnswer>);

// The header alone, one byte, 8 bytes, 16, 80, 128 and 144.
const EMPTY: &str = "10000000 00000000 0400000000000000";

const BYTE: &str = "11000000 00000000 0400000000000000 61";

const EIGHT: &str = "18000000 00000000 0400000000000000 0*8";

const SIXTEEN: &str = "20000000 00000000 0400000000000000 0*16";

const STATFS_OUT: &str = "60000000 00000000 0400000000000000 0*80";

const ENTRY: &str = "90000000 00000000 0400000000000000 0*128";

const ENTRY_AND_OPEN: &str = "a0000000 00000000 0400000000000000 0*144";

// An entry of READDIR, the same after one of LOOKUP, and that with a name of no bytes.
const DIRENT: &str = "30000000 00000000 0400000000000000
    0100000000000000 0100000000000000 01000000 04000000 2e 0*7";

const DIRENT_PLUS: &str = "b0000000 00000000 0400000000000000 0*128
    0100000000000000 0100000000000000 01000000 04000000 2e 0*7";

const NAMELESS_PLUS: &str = "b0000000 00000000 0400000000000000 0*128
    0100000000000000 0100000000000000 00000000 04000000 2e 0*7";

const RECORDS: [Case; 15] = [
    (SYMLINK, 0, ENTRY, None),
    (SYMLINK, 0, ENTRY_AND_OPEN, Some(BodyLength)),
    (LINK, 0, EMPTY, Some(BodyLength)),
    (CREATE, 0, ENTRY_AND_OPEN, None),
    (CREATE, 0, ENTRY, Some(BodyLength)),
    (STATFS, 0, STATFS_OUT, None),
    (STATFS, 0, EMPTY, Some(BodyLength)),
    (LSEEK, 0, EIGHT, None),
    (LSEEK, 0, SIXTEEN, Some(BodyLength)),
    (COPY_FILE_RANGE, 0, EIGHT, None),
    (COPY_FILE_RANGE, 0, EMPTY, Some(BodyLength)),
    (GETXATTR, 0, EIGHT, None),
    (GETXATTR, 0, BYTE, Some(BodyLength)),
    (LISTXATTR, 0, EMPTY, Some(BodyLength)),
    (4096, 0, SIXTEEN, None),
];

const BYTES: [Case; 16] = [
    (READ, 8, EIGHT, None),
    (READ, 7, EIGHT, Some(BodyLength)),
    (READLINK, 0, EIGHT, None),
    (GETXATTR, 1, BYTE, None),
    (GETXATTR, 7, EIGHT, Some(BodyLength)),
    (LISTXATTR, 8, EIGHT, None),
    (LISTXATTR, 8, SIXTEEN, Some(BodyLength)),
    (READDIR, 32, DIRENT, None),
    (READDIR, 31, DIRENT, Some(BodyLength)),
    (READDIR, 160, DIRENT_PLUS, Some(BadDirent)),
    (READDIRPLUS, 160, EMPTY, None),
    (READDIRPLUS, 160, DIRENT_PLUS, None),
    (READDIRPLUS, 159, DIRENT_PLUS, Some(BodyLength)),
    (READDIRPLUS, 160, DIRENT, Some(BadDirent)),
    (READDIRPLUS, 160, NAMELESS_PLUS, Some(BadDirent)),
    (READDIRPLUS, 160, ENTRY, Some(BadDirent)),
];

const ANSWERED_BY_THE_HEADER: [u32; 7] = [
    FSYNC,
    SETXATTR,
    REMOVEXATTR,
    FLUSH,
    FSYNCDIR,
    ACCESS,
    FALLOCATE,
];

// Whether `read_answer` finds these faults and no others.
fn have_faults(alloc: Global, cases: &[Case]) -> Result<bool, AllocError> {
    for (opcode, size, text, fault) in cases {
        let answer = hex(alloc, text)?;
        if is_silent(*opcode) || read_answer(*opcode, *size, answer.as_slice()).err() != *fault {
            return Ok(false);
        }
    }
    Ok(true)
}

fn take_no_body(alloc: Global) -> Result<bool, AllocError> {
    for opcode in ANSWERED_BY_THE_HEADER {
        let right = have_faults(
            alloc,
            &[
                (opcode, 0, EMPTY, None),
                (opcode, 0, BYTE, Some(BodyLength)),
            ],
        )?;
        if !right {
            return Ok(false);
        }
    }
    Ok(true)
}

#[test]
fn records_of_further_opcodes(rt: HostRuntime) -> Result<(), AllocError> {
    assert!(rt; have_faults(rt.alloc(), &RECORDS)?);
    Ok(())
}

#[test]
fn no_more_than_was_asked_for(rt: HostRuntime) -> Result<(), AllocError> {
    assert!(rt; have_faults(rt.alloc(), &BYTES)?);
    Ok(())
}

#[test]
fn nothing_but_the_header(rt: HostRuntime) -> Result<(), AllocError> {
    assert!(rt; take_no_body(rt.alloc())?);
    Ok(())
}
