// Bytes of the page of the protocol, and wrong frames that the trial of its engine refused.
use crate::{
    Agreed, EncodingFault, EngineFrame, GuestFault, GuestFrame, GuestHead, GuestKind, Hello, Pair,
    PairChange, Request,
};
use std::test::Fail;

#[test]
fn heads(rt: HostRuntime) -> Result<(), Fail> {
    let head = GuestHead::read(b"\x16\0\0\0\x04\0\0\0\x01")?.ok_or("the head is whole")?;
    assert!(&rt; head.len == 22 && head.kind == GuestKind::Get);
    assert!(&rt; GuestHead::read(b"\x16\0\0\0\x04\0\0")?.is_none());
    let short = GuestHead::read(b"\x07\0\0\0");
    assert!(&rt; matches!(short, Err(GuestFault::Length(7))));
    let long = GuestHead::read(b"\x01\0\x40\0\x08\0\0\0");
    assert!(&rt; matches!(long, Err(GuestFault::Length(4_194_305))));
    let unknown = GuestHead::read(b"\x08\0\0\0\x63\0\0\0");
    assert!(&rt; matches!(unknown, Err(GuestFault::NotDue(99))));
    assert_eq!(&rt; GuestKind::Scan.number(), 6);
    Ok(())
}

#[test]
fn a_get_has_its_key(rt: HostRuntime) -> Result<(), Fail> {
    let payload = b"\x01\0\0\0\0\0\0\0\x02\0\0\0ea";
    let GuestFrame::Get(mut keys) = GuestFrame::decode(GuestKind::Get, payload)? else {
        return Err("it is a GET".into());
    };
    let key = keys.next().ok_or("it has a key")?;
    assert!(&rt; key == b"ea".as_slice() && keys.next().is_none());
    Ok(())
}

#[test]
fn an_answer_has_its_change(rt: HostRuntime) -> Result<(), Fail> {
    let payload =
        b"\0\0\0\0\x01\0\0\0\x08\0\0\0\0\0\0\0\x01\0\0\0\x01\0\0\0k\x02\0\0\0vv\x03\0\0\0\0\0\0\0";
    let GuestFrame::Answer(mut answer) = GuestFrame::decode(GuestKind::Answer, payload)? else {
        return Err("it is an ANSWER".into());
    };
    assert!(&rt; answer.error == 0 && answer.body == b"\x03\0\0\0\0\0\0\0".as_slice());
    let Some(PairChange::Put { key, value }) = answer.changes.next() else {
        return Err("it puts a pair".into());
    };
    assert!(&rt; key == b"k".as_slice() && value == b"vv".as_slice());
    assert!(&rt; answer.changes.next().is_none());
    Ok(())
}

#[test]
fn a_scan_has_its_range(rt: HostRuntime) -> Result<(), Fail> {
    let payload = b"\x05\0\0\0\x02\0\0\0\x01\0\0\0a\0\0\0\0";
    let GuestFrame::Scan(scan) = GuestFrame::decode(GuestKind::Scan, payload)? else {
        return Err("it is a SCAN".into());
    };
    assert!(&rt; scan.limit == 5 && scan.downwards && !scan.keys_alone);
    assert!(&rt; scan.from == b"a".as_slice() && scan.to.is_empty());
    Ok(())
}

#[test]
fn a_guest_is_ready(rt: HostRuntime) -> Result<(), Fail> {
    let payload =
        b"\x01\0\0\0\0\0\x02\0\x06\0\0\0\0\0\0\0\x20\0\0\0\0\0\0\0\x03\0\0\0\0\0\0\0\x0a\0\0\0\0\0\0\0";
    let GuestFrame::Ready(ready) = GuestFrame::decode(GuestKind::Ready, payload)? else {
        return Err("it is a READY".into());
    };
    assert!(&rt; ready.max_write == 131_072 && ready.max_readahead == 3);
    assert!(&rt; ready.opcodes == 6 && ready.wanted == 32 && ready.seen == 10);
    Ok(())
}

// The words of faults that no payload here has.
#[test]
fn faults_of_heads_and_bodies(rt: HostRuntime) -> Result<(), Fail> {
    let length = format!(in rt.alloc(); "{}", GuestFault::Length(7))?;
    assert!(&rt; length.as_str() == "frame of 7 bytes");
    let kind = format!(in rt.alloc(); "{}", GuestFault::NotDue(99))?;
    assert!(&rt; kind.as_str() == "kind 99 is not due");
    let body = format!(in rt.alloc(); "{}", GuestFault::Body(1_048_577))?;
    assert!(&rt; body.as_str() == "body of 1048577 bytes");
    let get = format!(in rt.alloc(); "{}", GuestFault::Malformed(GuestKind::Get))?;
    assert!(&rt; get.as_str() == "malformed GET");
    Ok(())
}

// Whether the payload is refused, in these words.
fn is_refused(rt: &HostRuntime, kind: GuestKind, payload: &[u8], want: &str) -> Result<bool, Fail> {
    match GuestFrame::decode(kind, payload) {
        Ok(_) => Ok(false),
        Err(fault) => Ok(format!(in rt.alloc(); "{fault}")?.as_str() == want),
    }
}

#[test]
fn wrong_answers(rt: HostRuntime) -> Result<(), Fail> {
    let answer = GuestKind::Answer;
    let zeros = [0; 17];
    assert!(&rt; is_refused(&rt, answer, &zeros[..12], "malformed ANSWER")?);
    assert!(&rt; is_refused(&rt, answer, &zeros, "malformed ANSWER")?);
    let zero = b"\0\0\0\0\0\0\0\0\0\0\0\0\x01\0\0\0";
    assert!(&rt; is_refused(&rt, answer, zero, "malformed ANSWER")?);
    let fewer = b"\0\0\0\0\x02\0\0\0\0\0\0\0\0\0\0\0\x01\0\0\0\x01\0\0\0k\x01\0\0\0v";
    assert!(&rt; is_refused(&rt, answer, fewer, "malformed ANSWER")?);
    let error = b"\0\x02\0\0\0\0\0\0\0\0\0\0\0\0\0\0";
    assert!(&rt; is_refused(&rt, answer, error, "error 512")?);
    let change = b"\x05\0\0\0\x01\0\0\0\0\0\0\0\0\0\0\0\x02\0\0\0\x01\0\0\0k";
    assert!(&rt; is_refused(&rt, answer, change, "error with changes")?);
    let body = b"\x05\0\0\0\0\0\0\0\x01\0\0\0\0\0\0\0x";
    assert!(&rt; is_refused(&rt, answer, body, "error with changes")?);
    let unknown = b"\0\0\0\0\x01\0\0\0\0\0\0\0\0\0\0\0\x09\0\0\0";
    assert!(&rt; is_refused(&rt, answer, unknown, "change 9")?);
    let empty = b"\0\0\0\0\x01\0\0\0\0\0\0\0\0\0\0\0\x01\0\0\0\0\0\0\0";
    assert!(&rt; is_refused(&rt, answer, empty, "key of 0 bytes")?);
    let long = b"\0\0\0\0\x01\0\0\0\0\0\0\0\0\0\0\0\x01\0\0\0\x01\0\0\0k\x01\0\x04\0v";
    assert!(&rt; is_refused(&rt, answer, long, "value of 262145 bytes")?);
    let many = b"\0\0\0\0\x01\x10\0\0\0\0\0\0\0\0\0\0\x02\0\0\0\x01\0\0\0k";
    assert!(&rt; is_refused(&rt, answer, many, "too many in ANSWER")?);
    Ok(())
}

#[test]
fn other_wrong_frames(rt: HostRuntime) -> Result<(), Fail> {
    let (ready, get, scan) = (GuestKind::Ready, GuestKind::Get, GuestKind::Scan);
    assert!(&rt; is_refused(&rt, ready, b"\x02\0\0\0\0\0\0\0", "version 2")?);
    assert!(&rt; is_refused(&rt, ready, b"\x01\0\0\0\0\0\0\0", "malformed READY")?);
    let seen =
        b"\x01\0\0\0\0\0\0\0\0\0\0\0\0\0\0\0\0\0\0\0\0\0\0\0\0\0\0\0\0\0\0\0\x02\0\x01\0\0\0\0\0";
    assert!(&rt; is_refused(&rt, ready, seen, "opcode 16 can't be seen")?);
    let long = b"\x01\0\0\0\0\0\0\0\x01\x04\0\0";
    assert!(&rt; is_refused(&rt, get, long, "key of 1025 bytes")?);
    assert!(&rt; is_refused(&rt, get, &[0; 8], "too many in GET")?);
    let many = b"\x01\x01\0\0\0\0\0\0\x01\0\0\0k";
    assert!(&rt; is_refused(&rt, get, many, "too many in GET")?);
    let flag = b"\0\0\0\0\x04\0\0\0\0\0\0\0\0\0\0\0";
    assert!(&rt; is_refused(&rt, scan, flag, "malformed SCAN")?);
    Ok(())
}

fn encoded(rt: &HostRuntime, frame: &EngineFrame<'_>) -> Result<Vec<u8>, Fail> {
    let mut out = Vec::new(rt.alloc());
    match frame.encode(&mut out) {
        Ok(()) => Ok(out),
        Err(EncodingFault::BeyondLimits) => Err("it is within the limits".into()),
        Err(EncodingFault::Memory) => Err("there is memory".into()),
    }
}

#[test]
fn frames_of_the_engine(rt: HostRuntime) -> Result<(), Fail> {
    let hello = EngineFrame::Hello(Hello {
        agreed: Some(Agreed {
            minor: 40,
            flags: 0x80_0000_0001,
            pledged: 3,
        }),
        opcodes: 2,
    });
    let want =
        b"\x40\0\0\0\x01\0\0\0\x01\0\0\0\0\0\x40\0\0\x04\0\0\0\0\x04\0\0\x01\0\0\0\x10\0\0\x01\0\0\0\x28\0\0\0\x01\0\0\0\x80\0\0\0\x02\0\0\0\0\0\0\0\x03\0\0\0\0\0\0\0";
    assert!(&rt; encoded(&rt, &hello)?.as_slice() == want.as_slice());
    let request = EngineFrame::Request(Request {
        secs: 1000,
        nanos: 5,
        count: 0,
        message: b"\x2a\0\0\0\x01\0\0\0\x06\0\0\0\0\0\0\0\x01\0\0\0\0\0\0\0\xe8\x03\0\0\xe8\x03\0\0\x4d\0\0\0\0\0\0\0a\0",
    });
    let want =
        b"\x42\0\0\0\x03\0\0\0\xe8\x03\0\0\0\0\0\0\x05\0\0\0\0\0\0\0\x2a\0\0\0\x01\0\0\0\x06\0\0\0\0\0\0\0\x01\0\0\0\0\0\0\0\xe8\x03\0\0\xe8\x03\0\0\x4d\0\0\0\0\0\0\0a\0";
    assert!(&rt; encoded(&rt, &request)?.as_slice() == want.as_slice());
    let want = b"\x14\0\0\0\x05\0\0\0\x01\0\0\0\0\0\0\0\xff\xff\xff\xff";
    assert!(&rt; encoded(&rt, &EngineFrame::Values(&[None]))?.as_slice() == want.as_slice());
    let pairs = EngineFrame::Pairs {
        pairs: &[Pair {
            key: b"k",
            value: b"vv",
        }],
        more: true,
    };
    let want = b"\x1b\0\0\0\x07\0\0\0\x01\0\0\0\x01\0\0\0\x01\0\0\0k\x02\0\0\0vv";
    assert!(&rt; encoded(&rt, &pairs)?.as_slice() == want.as_slice());
    let mut out = Vec::new(rt.alloc());
    let none = EngineFrame::Values(&[]).encode(&mut out);
    assert!(&rt; matches!(none, Err(EncodingFault::BeyondLimits)) && out.is_empty());
    Ok(())
}
