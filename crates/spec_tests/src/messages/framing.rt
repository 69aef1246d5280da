// A framer over a length that no message has, and over the longest message.

use fuse_request::*;
use std::alloc::Global;
use std::test::*;

// Whether `next` over the four bytes of a length returns this fault, as do `feed` of one more byte
// and `next` after it. And the fault of `end`.
fn answers(
    alloc: Global,
    bytes: &[u8; 4],
    fault: Option<FrameFault>,
) -> Result<(bool, Option<FrameFault>), Fail> {
    let mut framer = Framer::new(alloc);
    framer.feed(bytes).ok().ok_or("the length is fed")?;
    let first = framer.next().err() == fault;
    let ended = framer.end().err();
    let fed = framer.fed() == 4 && framer.feed(b"a").err() == fault;
    Ok((first && fed && framer.next().err() == fault, ended))
}

const SHORT: Option<FrameFault> = Some(FrameFault::Short { at: 0, len: 39 });

const TOO_LONG: Option<FrameFault> = Some(FrameFault::TooLong {
    at: 0,
    len: 135_169,
});

const CUT: Option<FrameFault> = Some(FrameFault::Cut {
    at: 0,
    have: 4,
    need: 135_168,
});

// Cases length-bounds and feed-short.
fn bounds(alloc: Global) -> Result<[bool; 3], Fail> {
    Ok([
        answers(alloc, b"\x27\0\0\0", SHORT)? == (true, SHORT),
        answers(alloc, b"\x01\x10\x02\0", TOO_LONG)? == (true, TOO_LONG),
        answers(alloc, b"\0\x10\x02\0", None)? == (true, CUT),
    ])
}

#[test]
fn length_bounds(rt: HostRuntime) -> Result<(), Fail> {
    assert_eq!(rt; bounds(rt.alloc())?, [true; 3]);
    Ok(())
}
