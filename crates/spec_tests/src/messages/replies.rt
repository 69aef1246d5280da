use fuse_answer::*;
use fuse_request::opcode::is_silent;
use fuse_wire::Errno;
use fuse_wire::opcode::{GETATTR, INIT, LOOKUP, OPEN, READ, READDIR, RELEASE, WRITE};
use std::test::*;

#[test]
fn size_of_write(rt: HostRuntime) {
    let bytes = b"\x18\0\0\0\0\0\0\0\x0c\0\0\0\0\0\0\0\x03\0\0\0\x01\0\0\0";
    let size = match read_answer(WRITE, 0, bytes) {
        Ok(
            Reply {
                unique: 12,
                errno: Errno(0),
                body: ReplyBody::Write(WriteOut { size }),
            },
        ) => size,
        _ => 0,
    };
    assert_eq!(rt; size, 3);
}

// The errors 511 and 512, the resend notice, a body after an error, the same cut short, and no
// body.
const LAST_ERROR: &[u8] = b"\x10\0\0\0\x01\xfe\xff\xff\x04\0\0\0\0\0\0\0";

const PAST_IT: &[u8] = b"\x10\0\0\0\0\xfe\xff\xff\x04\0\0\0\0\0\0\0";

const NOTICE: &[u8] = b"\x10\0\0\0\x07\0\0\0\0\0\0\0\0\0\0\0";

const REFUSAL: &[u8] = b"\x11\0\0\0\xfe\xff\xff\xff\x04\0\0\0\0\0\0\0\0";

const CUT_REFUSAL: &[u8] = b"\x11\0\0\0\xfe\xff\xff\xff\x04\0\0\0\0\0\0\0";

const SHORT: &[u8] = b"\x11\0\0\0\xfe\xff\xff\xff\x04\0\0\0\0\0\0";

const SUCCESS: &[u8] = b"\x10\0\0\0\0\0\0\0\x04\0\0\0\0\0\0\0";

// The answer to READDIR of the root, of 32 bytes, without its last byte, with a name of no bytes,
// and with padding other than 0.
const CUT_LISTING: &[u8] = b"\x2f\0\0\0\0\0\0\0\x06\0\0\0\0\0\0\0\
    \x01\0\0\0\0\0\0\0\x01\0\0\0\0\0\0\0\x01\0\0\0\x04\0\0\0.\0\0\0\0\0\0";

const NAMELESS: &[u8] = b"\x30\0\0\0\0\0\0\0\x06\0\0\0\0\0\0\0\
    \x01\0\0\0\0\0\0\0\x01\0\0\0\0\0\0\0\0\0\0\0\x04\0\0\0.\0\0\0\0\0\0\0";

const PADDED: &[u8] = b"\x30\0\0\0\0\0\0\0\x06\0\0\0\0\0\0\0\
    \x01\0\0\0\0\0\0\0\x01\0\0\0\0\0\0\0\x01\0\0\0\x04\0\0\0.\0\0\0\0\0\0\x01";

// Whether `read_answer` finds this fault, or none, where 32 bytes are asked for.
fn has_fault(opcode: u32, bytes: &[u8], fault: Option<BadAnswer>) -> bool {
    !is_silent(opcode) && read_answer(opcode, 32, bytes).err() == fault
}

// Whether it is read as an answer with this error alone, to the request of id 4.
fn has_error(opcode: u32, bytes: &[u8], number: u32) -> bool {
    if is_silent(opcode) {
        return false;
    }
    match read_answer(opcode, 0, bytes) {
        Ok(
            Reply {
                unique: 4,
                errno: Errno(found),
                body: ReplyBody::Nothing,
            },
        ) => found == number,
        _ => false,
    }
}

fn headers() -> [bool; 8] {
    [
        has_error(LOOKUP, LAST_ERROR, 511),
        has_fault(LOOKUP, PAST_IT, Some(BadAnswer::ErrorRange)),
        has_fault(LOOKUP, NOTICE, Some(BadAnswer::ErrorRange)),
        has_fault(READ, NOTICE, Some(BadAnswer::ErrorRange)),
        has_fault(4096, NOTICE, Some(BadAnswer::ErrorRange)),
        has_fault(LOOKUP, REFUSAL, Some(BadAnswer::BodyAfterError)),
        has_fault(LOOKUP, CUT_REFUSAL, Some(BadAnswer::LenDiffers)),
        has_fault(LOOKUP, SHORT, Some(BadAnswer::Short)),
    ]
}

fn bodies() -> [bool; 11] {
    [
        has_fault(LOOKUP, SUCCESS, Some(BadAnswer::BodyLength)),
        has_fault(GETATTR, SUCCESS, Some(BadAnswer::BodyLength)),
        has_fault(OPEN, SUCCESS, Some(BadAnswer::BodyLength)),
        has_fault(INIT, SUCCESS, Some(BadAnswer::BodyLength)),
        has_fault(READ, SUCCESS, None),
        has_fault(READDIR, SUCCESS, None),
        has_fault(RELEASE, SUCCESS, None),
        has_fault(4096, SUCCESS, None),
        has_fault(READDIR, CUT_LISTING, Some(BadAnswer::BadDirent)),
        has_fault(READDIR, NAMELESS, Some(BadAnswer::BadDirent)),
        has_fault(READDIR, PADDED, None),
    ]
}

#[test]
fn faults(rt: HostRuntime) {
    assert_eq!(rt; headers(), [true; 8]);
    assert_eq!(rt; bodies(), [true; 11]);
}
