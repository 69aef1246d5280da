//! The messages of the run, and the questions after it.
use fuse_request::{InHeader, InitIn, Op, ReadIn, ReleaseIn, Request};
use fuse_wire::Moment;

/// A request and the moment at which it is performed.
pub(crate) type Timed = (Request<'static>, Moment);

/// When each store is made.
pub(crate) const START: Moment = Moment { secs: 0, nanos: 0 };

const AT_1000: Moment = Moment {
    secs: 1000,
    nanos: 0,
};

/// How many messages the run has.
pub(crate) const MESSAGES: usize = 8;

/// How many messages there are with the one after the run.
pub(crate) const MORE: usize = 9;

/// Their ids.
pub(crate) const IDS: [u64; MORE] = [2, 4, 6, 8, 10, 12, 14, 16, 18];

// The INIT of case init-agreed.
const INIT: Op<'static> = Op::Init(InitIn {
    major: 7,
    minor: 40,
    max_readahead: 131_072,
    flags: 0x4000_2021,
    flags2: Some(0x80),
});

const F_TO_G: Op<'static> = Op::Rename {
    new_dir: 3,
    old_name: b"f",
    new_name: b"g",
};

fn request(header: InHeader, op: Op<'_>) -> (Request<'_>, Moment) {
    let request = Request {
        header,
        op,
        ext: &[],
    };
    (request, AT_1000)
}

/// A request on a node, with the uid, gid and pid of the cases.
pub(crate) fn asked(unique: u64, nodeid: u64, op: Op<'_>) -> (Request<'_>, Moment) {
    let header = InHeader {
        unique,
        nodeid,
        uid: 1000,
        gid: 1000,
        pid: 77,
    };
    request(header, op)
}

/// The INIT of case init-agreed, with uid, gid and pid 0.
pub(crate) fn init(unique: u64) -> Timed {
    let header = InHeader {
        unique,
        nodeid: 0,
        uid: 0,
        gid: 0,
        pid: 0,
    };
    request(header, INIT)
}

/// A regular file `f`.
pub(crate) fn mknod() -> Op<'static> {
    Op::Mknod {
        mode: 0o100_644,
        rdev: 0,
        umask: 0o022,
        name: b"f",
    }
}

fn mkdir() -> Op<'static> {
    Op::Mkdir {
        mode: 0o755,
        umask: 0o022,
        name: b"a",
    }
}

/// To read and to write.
pub(crate) fn open() -> Op<'static> {
    Op::OpenFile {
        flags: 2,
        open_flags: 0,
    }
}

fn write() -> Op<'static> {
    Op::Write {
        fh: 1,
        offset: 0,
        write_flags: 0,
        lock_owner: 0,
        flags: 2,
        payload: b"one",
    }
}

fn read() -> Op<'static> {
    Op::Read(ReadIn {
        fh: 1,
        offset: 0,
        size: 4096,
        read_flags: 0,
        lock_owner: 0,
        flags: 0,
    })
}

/// Of the first open.
pub(crate) fn release() -> Op<'static> {
    Op::Release(ReleaseIn {
        fh: 1,
        flags: 2,
        release_flags: 0,
        lock_owner: 0,
    })
}

/// The run, under uniques with this bit: INIT, MKNOD `f`, OPEN, WRITE `one`, READ, MKDIR `a`, RENAME
/// `f` to `a/g`, RELEASE. After it UNLINK of `a/g`, which leaves node 2 without a name until the next
/// mount begins.
pub(crate) fn messages(bit: u64) -> [Timed; MORE] {
    [
        init(bit | 2),
        asked(bit | 4, 1, mknod()),
        asked(bit | 6, 2, open()),
        asked(bit | 8, 2, write()),
        asked(bit | 10, 2, read()),
        asked(bit | 12, 1, mkdir()),
        asked(bit | 14, 1, F_TO_G),
        asked(bit | 16, 2, release()),
        asked(bit | 18, 3, Op::Unlink { name: b"g" }),
    ]
}

/// The messages from one place up to another; all of them where these are no places.
pub(crate) fn part(messages: &[Timed], from: usize, upto: usize) -> &[Timed] {
    messages.get(from..upto).unwrap_or(messages)
}

fn getattr() -> Op<'static> {
    Op::Getattr { flags: 0, fh: 0 }
}

/// Questions to any store, under new ids. The INIT is first: without one before, the others would
/// be refused.
pub(crate) fn questions() -> [Timed; 8] {
    [
        init(40),
        asked(42, 1, getattr()),
        asked(44, 2, getattr()),
        asked(46, 3, getattr()),
        asked(48, 2, read()),
        asked(50, 1, Op::Lookup { name: b"f" }),
        asked(52, 1, Op::Lookup { name: b"a" }),
        asked(54, 3, Op::Lookup { name: b"g" }),
    ]
}
