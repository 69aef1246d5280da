// Messages of opcodes outside the profile, their bodies, and answers to them: the bytes of the
// cases of CREATE, SYMLINK and STATFS in the specification, and of structs of fuse.h.
use fuse_answer::{
    Attr, CreateOut, Dirent, EntryOut, LseekOut, OpenOut, PackFault, PlusDirent, StatfsOut,
    XattrOut, pack_plus, resend_notice,
};
use fuse_request::opcode::{CREATE, LOOKUP, LSEEK, READDIRPLUS, READLINK, SETXATTR, SYMLINK};
use fuse_request::{Body, Class, Malformed, Op, classify_for, decode, decode_body, is_message};
use fuse_wire::{Errno, Memory};
use std::alloc::Global;
use std::test::*;

// CREATE of `f`: flags O_RDWR and O_CREAT, mode 0o100644, umask 0o022.
fn reads_create() -> bool {
    match decode_body(
        CREATE,
        b"\x42\0\0\0\xa4\x81\0\0\x12\0\0\0\0\0\0\0f\0".as_slice(),
    ) {
        Ok(
            Some(
                Body::Create {
                    flags,
                    mode,
                    umask,
                    open_flags,
                    name,
                },
            ),
        ) => {
            flags == 0x42
                && mode == 0o100644
                && umask == 0o022
                && open_flags == 0
                && name == b"f".as_slice()
        }
        _ => false,
    }
}

// SYMLINK of `l` to `a/b`.
fn reads_symlink() -> bool {
    match decode_body(SYMLINK, b"l\0a/b\0".as_slice()) {
        Ok(Some(Body::Symlink { name, target })) => {
            name == b"l".as_slice() && target == b"a/b".as_slice()
        }
        _ => false,
    }
}

// SETXATTR of `u` to `xy`, with XATTR_CREATE.
fn reads_setxattr() -> bool {
    match decode_body(SETXATTR, b"\x02\0\0\0\x01\0\0\0u\0xy".as_slice()) {
        Ok(Some(Body::Setxattr { flags, name, value })) => {
            flags == 1 && name == b"u".as_slice() && value == b"xy".as_slice()
        }
        _ => false,
    }
}

// LSEEK by handle 1 from 2, to the next data.
fn reads_lseek() -> bool {
    match decode_body(
        LSEEK,
        b"\x01\0\0\0\0\0\0\0\x02\0\0\0\0\0\0\0\x03\0\0\0\0\0\0\0".as_slice(),
    ) {
        Ok(Some(Body::Lseek { fh, offset, whence })) => fh == 1 && offset == 2 && whence == 3,
        _ => false,
    }
}

// READDIRPLUS by handle 1 from 2, of 4,096 bytes.
fn reads_readdirplus() -> bool {
    match decode_body(
        READDIRPLUS,
        b"\x01\0\0\0\0\0\0\0\x02\0\0\0\0\0\0\0\0\x10\0\0\0\0\0\0\
            \0\0\0\0\0\0\0\0\0\0\0\0\0\0\0\0"
            .as_slice(),
    ) {
        Ok(Some(Body::ReadDirPlus(asked))) => {
            asked.fh == 1 && asked.offset == 2 && asked.size == 4096
        }
        _ => false,
    }
}

// A body is refused by its first fault, and a LOOKUP isn't read here.
fn refuses() -> bool {
    let longer = matches!(
        decode_body(READDIRPLUS, &[0; 41]),
        Err(Malformed::BodyLength)
    );
    let short = matches!(
        decode_body(CREATE, b"\x42\0\0\0".as_slice()),
        Err(Malformed::BodyLength)
    );
    let endless = matches!(
        decode_body(SYMLINK, b"l\0a/b".as_slice()),
        Err(Malformed::NoNul)
    );
    let after = matches!(
        decode_body(SYMLINK, b"l\0a\0\0".as_slice()),
        Err(Malformed::AfterNul)
    );
    let counted = matches!(
        decode_body(SETXATTR, b"\x03\0\0\0\x01\0\0\0u\0xy".as_slice()),
        Err(Malformed::CountDiffers)
    );
    let other = matches!(decode_body(LOOKUP, b"f\0".as_slice()), Ok(None));
    longer && short && endless && after && counted && other
}

#[test]
fn further_bodies(rt: HostRuntime) {
    assert!(rt; reads_create());
    assert!(rt; reads_symlink());
    assert!(rt; reads_setxattr());
    assert!(rt; reads_readdirplus());
    assert!(rt; reads_lseek());
    assert!(rt; refuses());
}

// STATFS of a new store of 2^40 bytes.
const ROOM: StatfsOut = StatfsOut {
    blocks: 0x1000_0000,
    bfree: 0x1000_0000,
    bavail: 0x1000_0000,
    files: 0x10_0000,
    ffree: 0xf_ffff,
    bsize: 4096,
    namelen: 255,
    frsize: 4096,
};

const ROOM_BYTES: &[u8] = b"\0\0\0\x10\0\0\0\0\0\0\0\x10\0\0\0\0\0\0\0\x10\0\0\0\0\
    \0\0\x10\0\0\0\0\0\xff\xff\x0f\0\0\0\0\0\0\x10\0\0\xff\0\0\0\0\x10\0\0\0\0\0\0\
    \0\0\0\0\0\0\0\0\0\0\0\0\0\0\0\0\0\0\0\0\0\0\0\0";

// The regular file `f` that CREATE made as node 2 at second 1,000.
const CREATED_ENTRY: EntryOut = EntryOut {
    nodeid: 2,
    generation: 0,
    entry_valid: 86400,
    attr_valid: 86400,
    entry_valid_nsec: 0,
    attr_valid_nsec: 0,
    attr: Attr {
        ino: 2,
        size: 0,
        blocks: 0,
        atime: 1000,
        mtime: 1000,
        ctime: 1000,
        atimensec: 0,
        mtimensec: 0,
        ctimensec: 0,
        mode: 0o100644,
        nlink: 1,
        uid: 1000,
        gid: 1000,
        rdev: 0,
        blksize: 4096,
        flags: 0,
    },
};

// It is open as handle 1.
const CREATED: CreateOut = CreateOut {
    entry: CREATED_ENTRY,
    open: OpenOut {
        fh: 1,
        open_flags: 2,
        backing_id: 0,
    },
};

const CREATED_BYTES: &[u8] = b"\x02\0\0\0\0\0\0\0\0\0\0\0\0\0\0\0\
    \x80\x51\x01\0\0\0\0\0\x80\x51\x01\0\0\0\0\0\0\0\0\0\0\0\0\0\
    \x02\0\0\0\0\0\0\0\0\0\0\0\0\0\0\0\0\0\0\0\0\0\0\0\
    \xe8\x03\0\0\0\0\0\0\xe8\x03\0\0\0\0\0\0\xe8\x03\0\0\0\0\0\0\
    \0\0\0\0\0\0\0\0\0\0\0\0\xa4\x81\0\0\x01\0\0\0\xe8\x03\0\0\xe8\x03\0\0\
    \0\0\0\0\0\x10\0\0\0\0\0\0\x01\0\0\0\0\0\0\0\x02\0\0\0\0\0\0\0";

fn writes_room(alloc: Global) -> Result<bool, Memory> {
    Ok(ROOM.body_of(alloc)?.as_slice() == ROOM_BYTES)
}

fn writes_created(alloc: Global) -> Result<bool, Memory> {
    Ok(CREATED.body_of(alloc)?.as_slice() == CREATED_BYTES)
}

fn writes_numbers(alloc: Global) -> Result<bool, Memory> {
    let size = XattrOut { size: 7 }.body_of(alloc)?;
    let place = LseekOut { offset: 9 }.body_of(alloc)?;
    let right = size.as_slice() == b"\x07\0\0\0\0\0\0\0".as_slice();
    Ok(right && place.as_slice() == b"\x09\0\0\0\0\0\0\0".as_slice())
}

#[test]
fn further_answers(rt: HostRuntime) -> Result<(), Memory> {
    let room = writes_room(rt.alloc())?;
    let created = writes_created(rt.alloc())?;
    let numbers = writes_numbers(rt.alloc())?;
    assert!(rt; room && created && numbers);
    Ok(())
}

// The entry of `f` in the root, with what LOOKUP answers.
const F: PlusDirent<'static> = PlusDirent {
    entry_out: Some(CREATED_ENTRY),
    dirent: Dirent {
        ino: 2,
        off: 3,
        kind: 8,
        name: b"f",
    },
};

const F_DIRENT: &[u8] = b"\x02\0\0\0\0\0\0\0\x03\0\0\0\0\0\0\0\
    \x01\0\0\0\x08\0\0\0f\0\0\0\0\0\0\0";

// The entry of `.`, of which nothing is said.
const DOT: PlusDirent<'static> = PlusDirent {
    entry_out: None,
    dirent: Dirent {
        ino: 1,
        off: 1,
        kind: 4,
        name: b".",
    },
};

const NO_ENTRY: &[u8] = &[0; 128];

const DOT_DIRENT: &[u8] = b"\x01\0\0\0\0\0\0\0\x01\0\0\0\0\0\0\0\
    \x01\0\0\0\x04\0\0\0.\0\0\0\0\0\0\0";

// Zeros and `.`, and then the entry of LOOKUP and `f`.
fn writes_plus(alloc: Global) -> Result<bool, PackFault> {
    let packed = pack_plus(alloc, &[DOT, F], 4096)?;
    let body = packed.body.as_slice();
    let dot = body.get(..128) == Some(NO_ENTRY) && body.get(128..160) == Some(DOT_DIRENT);
    let f = body.get(160..288) == CREATED_BYTES.get(..128) && body.get(288..) == Some(F_DIRENT);
    Ok(packed.taken == 2 && dot && f)
}

// How many of two entries fit, and their size; none where the first doesn't fit.
fn plus_size(alloc: Global, size: u32) -> Result<Option<(usize, usize)>, PackFault> {
    match pack_plus(alloc, &[DOT, F], size) {
        Ok(packed) => Ok(Some((packed.taken, packed.body.as_slice().len()))),
        Err(PackFault::FirstTooBig) => Ok(None),
        Err(fault) => Err(fault),
    }
}

const NINE: PlusDirent<'static> = PlusDirent {
    entry_out: None,
    dirent: Dirent {
        ino: 2,
        off: 3,
        kind: 8,
        name: b"ninebytes",
    },
};

#[test]
fn plus_entries(rt: HostRuntime) -> Result<(), PackFault> {
    let alloc = rt.alloc();
    let written = writes_plus(alloc)?;
    let sizes = [
        plus_size(alloc, 159)?,
        plus_size(alloc, 160)?,
        plus_size(alloc, 319)?,
        plus_size(alloc, 320)?,
    ];
    let nine = pack_plus(alloc, &[NINE], 168)?;
    assert!(rt; written);
    assert!(rt; sizes == [None, Some((1, 160)), Some((1, 160)), Some((2, 320))]);
    assert!(rt; nine.body.as_slice().len() == 168);
    Ok(())
}

#[test]
fn notice(rt: HostRuntime) {
    let resend = resend_notice();
    assert!(rt; resend.as_slice() == b"\x10\0\0\0\x07\0\0\0\0\0\0\0\0\0\0\0".as_slice());
}

// READLINK of node 2, and NOTIFY_REPLY.
const READLINK_BYTES: &[u8] = b"\x28\0\0\0\x05\0\0\0\x06\0\0\0\0\0\0\0\x02\0\0\0\0\0\0\0\
    \xe8\x03\0\0\xe8\x03\0\0\x4d\0\0\0\0\0\0\0";

const NOTIFY_REPLY_BYTES: &[u8] = b"\x28\0\0\0\x29\0\0\0\x06\0\0\0\0\0\0\0\x02\0\0\0\0\0\0\0\
    \xe8\x03\0\0\xe8\x03\0\0\x4d\0\0\0\0\0\0\0";

// The class of a whole message, and none of other bytes.
fn class_of_message(bytes: &[u8], served: bool, seen: bool) -> Option<Class> {
    if !is_message(bytes) {
        return None;
    }
    Some(classify_for(bytes, served, seen))
}

fn is_readlink(message: &[u8]) -> bool {
    match decode(message) {
        Ok(request) => match request.op {
            Op::Further { opcode, body } => opcode == READLINK && body.is_empty(),
            _ => false,
        },
        Err(_fault) => false,
    }
}

#[test]
fn further_classes(rt: HostRuntime) {
    let kept = class_of_message(READLINK_BYTES, true, false);
    let seen = class_of_message(READLINK_BYTES, true, true);
    let bare = class_of_message(READLINK_BYTES, false, true);
    let silent = class_of_message(NOTIFY_REPLY_BYTES, true, true);
    assert!(rt; kept == Some(Class::Kept));
    assert!(rt; seen == Some(Class::Seen));
    assert!(rt; bare == Some(Class::Bare(Errno::ENOSYS)));
    assert!(rt; silent == Some(Class::Silent));
    assert!(rt; is_readlink(READLINK_BYTES));
}
