ghost use Rattle.spec_tests.specs.inner.AnswerCases.{ErrorFields, FirstRun, Headers, Inits, Listing};
ghost use Rattle.spec_tests.specs.inner.AnswerCases.{OpenAndWrite, Reads, Refusals};

use fuse_answer::*;
use fuse_wire::Memory;
use std::test::*;

#[tactic(auto, unfolding(fuse_wire::specs::Bytes::le))]
fn error_fields()
    ensures { ErrorFields }
{}

fn headers()
    ensures { Headers }
{}

fn refusals()
    ensures { Refusals }
{}

fn reads()
    ensures { Reads }
{}

fn first_run()
    ensures { FirstRun }
{}

fn open_and_write()
    ensures { OpenAndWrite }
{}

fn inits()
    ensures { Inits }
{}

#[tactic(auto, unfolding(fuse_wire::specs::Bytes::le))]
fn listing()
    ensures { Listing }
{}

#[test]
fn vectors() {
    error_fields();
    headers();
    refusals();
    reads();
    first_run();
    open_and_write();
    inits();
    listing();
    len_stands_first();
    record_sizes();
    read_back();
    answer_numbers();
}

// A directory made at second 1,000, and its bytes.
const DIRECTORY: Attr = Attr {
    ino: 2,
    size: 0,
    blocks: 0,
    atime: 1000,
    mtime: 1000,
    ctime: 1000,
    atimensec: 0,
    mtimensec: 0,
    ctimensec: 0,
    mode: 0o040755,
    nlink: 2,
    uid: 1000,
    gid: 1000,
    rdev: 0,
    blksize: 4096,
    flags: 0,
};

const DIRECTORY_BYTES: &[u8] = b"\x02\0\0\0\0\0\0\0\0\0\0\0\0\0\0\0\0\0\0\0\0\0\0\0\
    \xe8\x03\0\0\0\0\0\0\xe8\x03\0\0\0\0\0\0\xe8\x03\0\0\0\0\0\0\
    \0\0\0\0\0\0\0\0\0\0\0\0\xed\x41\0\0\x02\0\0\0\xe8\x03\0\0\
    \xe8\x03\0\0\0\0\0\0\0\x10\0\0\0\0\0\0";

// The resend notice, and its bytes.
const NOTICE: OutHeader = OutHeader {
    len: 16,
    error: 7,
    unique: 0,
};

const NOTICE_BYTES: &[u8] = b"\x10\0\0\0\x07\0\0\0\0\0\0\0\0\0\0\0";

// Records that are only parts of answers.
#[test]
fn bodies(rt: HostRuntime) -> Result<(), Memory> {
    let attributes = DIRECTORY.body_of(rt.alloc())?;
    let header = NOTICE.body_of(rt.alloc())?;
    let right = attributes.as_slice() == DIRECTORY_BYTES && header.as_slice() == NOTICE_BYTES;
    assert!(rt; right);
    Ok(())
}
