//! Cases longest-write, rename-bytes, write-bytes and ignored-padding.
use crate::hex::hex;
use crate::requests::request;
use fuse_request::*;
use std::alloc::Global;
use std::test::*;

// A WRITE with this payload.
fn write(payload: &[u8]) -> Request<'_> {
    let op = Op::Write {
        fh: 1,
        offset: 0,
        write_flags: 0,
        lock_owner: 0,
        flags: 2,
        payload,
    };
    request(8, 2, op)
}

// Whether a WRITE with this payload is too long, and the length of the output then, if it was 1
// before.
fn written(alloc: Global, payload: &[u8]) -> Result<(bool, usize), Fail> {
    let mut out = Vec::from_slice(alloc, b"a")?;
    let request = write(payload);
    if !request.is_sayable() {
        return Err("the WRITE may be encoded".into());
    }
    let is_too_long = matches!(encode(&request, &mut out), Err(EncodeFault::TooLong));
    Ok((is_too_long, out.len()))
}

#[test]
fn longest_write(rt: HostRuntime) -> Result<(), Fail> {
    let payload = vec![in rt.alloc(); 7u8; 135_089]?;
    let longest = written(rt.alloc(), &payload[1..])?;
    let longer = written(rt.alloc(), &payload)?;
    assert_eq!(rt; [longest, longer], [(false, 135_169), (true, 1)]);
    Ok(())
}

// RENAME of `a` to `b`, and WRITE `one`.
const RENAME_BYTES: &str = "34000000 0c000000 0400000000000000 0100000000000000
    e8030000 e8030000 4d000000 00000000 0100000000000000 6100 6200";

const WRITE_BYTES: &str = "53000000 10000000 0800000000000000 0200000000000000
    e8030000 e8030000 4d000000 00000000
    0100000000000000 0*8 03000000 00000000 0*8 02000000 00000000 6f6e65";

fn rename() -> Request<'static> {
    let op = Op::Rename {
        new_dir: 1,
        old_name: b"a",
        new_name: b"b",
    };
    request(4, 1, op)
}

// Whether a request encodes to these bytes.
fn encodes_to(alloc: Global, request: &Request<'_>, text: &str) -> Result<bool, Fail> {
    if !request.is_sayable() {
        return Ok(false);
    }
    let mut out = Vec::new(alloc);
    let encoded = encode(request, &mut out).is_ok();
    Ok(encoded && out.as_slice() == hex(alloc, text)?.as_slice())
}

#[test]
fn encoded_bytes(rt: HostRuntime) -> Result<(), Fail> {
    assert!(rt; encodes_to(rt.alloc(), &rename(), RENAME_BYTES)?);
    assert!(rt; encodes_to(rt.alloc(), &write(b"one"), WRITE_BYTES)?);
    Ok(())
}

// The same messages with padding other than 0: in the body, and in the header.
const PADDED_BODY: &str = "53000000 10000000 0800000000000000 0200000000000000
    e8030000 e8030000 4d000000 00000000
    0100000000000000 0*8 03000000 00000000 0*8 02000000 ffffffff 6f6e65";

const PADDED_WRITE: &str = "53000000 10000000 0800000000000000 0200000000000000
    e8030000 e8030000 4d000000 0000ffff
    0100000000000000 0*8 03000000 00000000 0*8 02000000 00000000 6f6e65";

const PADDED_RENAME: &str = "34000000 0c000000 0400000000000000 0100000000000000
    e8030000 e8030000 4d000000 0000ffff 0100000000000000 6100 6200";

// Whether both are a WRITE of the same fields and the same payload.
fn are_same_write(one: &Op<'_>, other: &Op<'_>) -> bool {
    match (one, other) {
        (
            Op::Write {
                fh,
                offset,
                write_flags,
                lock_owner,
                flags,
                payload,
            },
            Op::Write {
                fh: fh2,
                offset: offset2,
                write_flags: write_flags2,
                lock_owner: lock_owner2,
                flags: flags2,
                payload: payload2,
            },
        ) => {
            fh == fh2
                && offset == offset2
                && write_flags == write_flags2
                && lock_owner == lock_owner2
                && flags == flags2
                && payload == payload2
        }
        _ => false,
    }
}

fn are_same_rename(one: &Op<'_>, other: &Op<'_>) -> bool {
    match (one, other) {
        (
            Op::Rename {
                new_dir,
                old_name,
                new_name,
            },
            Op::Rename {
                new_dir: new_dir2,
                old_name: old_name2,
                new_name: new_name2,
            },
        ) => new_dir == new_dir2 && old_name == old_name2 && new_name == new_name2,
        _ => false,
    }
}

// Whether these bytes are read as the request.
fn decodes_to(alloc: Global, text: &str, wanted: &Request<'_>) -> Result<bool, Fail> {
    let bytes = hex(alloc, text)?;
    let Ok(found) = decode(bytes.as_slice()) else {
        return Ok(false);
    };
    let same = are_same_write(&found.op, &wanted.op) || are_same_rename(&found.op, &wanted.op);
    Ok(same && found.header == wanted.header && found.ext.is_empty())
}

#[test]
fn ignored_padding(rt: HostRuntime) -> Result<(), Fail> {
    for text in [WRITE_BYTES, PADDED_BODY, PADDED_WRITE] {
        assert!(rt; decodes_to(rt.alloc(), text, &write(b"one"))?, "{text}");
    }
    for text in [RENAME_BYTES, PADDED_RENAME] {
        assert!(rt; decodes_to(rt.alloc(), text, &rename())?, "{text}");
    }
    Ok(())
}
