//! Devices: the meaning of each error number of a read or a write (fuse(4)).
use super::*;
use crate::run::holding;
use crate::texts::{LOOKUP_HELLO, NOT_THERE};
use fuse_session::DevicePort;
use std::io;
use std::io::{Read, Write};

// The error numbers of the next calls, or none, call by call.
#[derive(Drop)]
struct Refusals {
    numbers: &'static [Option<i32>],
}

impl Refusals {
    fn next(&mut self) -> io::Result<()> {
        let [first, rest @ ..] = self.numbers else {
            return Ok(());
        };
        self.numbers = rest;
        match first {
            Some(number) => Err(io::Error::from_raw_os_error(*number)),
            None => Ok(()),
        }
    }
}

// Gives one message, and then the end.
#[derive(Drop)]
struct Reader {
    refusals: Refusals,
    message: Vec<u8>,
}

impl Read for Reader {
    fn read(&mut self, buf: &mut [u8]) -> io::Result<usize> {
        self.refusals.next()?;
        let n = self.message.as_slice().read(buf)?;
        self.message.clear();
        Ok(n)
    }
}

// Keeps the written bytes.
#[derive(Drop)]
struct Writer {
    refusals: Refusals,
    written: Vec<u8>,
}

impl Write for Writer {
    fn write(&mut self, buf: &[u8]) -> io::Result<usize> {
        self.refusals.next()?;
        self.written.extend_from_slice(buf)?;
        Ok(buf.len())
    }

    // A device has no buffer to flush.
    fn flush(&mut self) -> io::Result<()> {
        Err(io::Error::from(io::ErrorKind::Unsupported))
    }
}

// How a session ends in which these calls fail, and whether its one answer is written.
#[derive(Clone, Copy)]
struct Case {
    name: &'static str,
    reads: &'static [Option<i32>],
    writes: &'static [Option<i32>],
    ended: EndKind,
    answered: bool,
}

const CASES: [Case; 9] = [
    Case {
        name: "unmounted",
        reads: &[None, Some(19)],
        writes: &[],
        ended: EndKind::End,
        answered: true,
    },
    Case {
        name: "no byte",
        reads: &[],
        writes: &[],
        ended: EndKind::End,
        answered: true,
    },
    Case {
        name: "a request that ended before it was read",
        reads: &[Some(2), None, Some(2), Some(19)],
        writes: &[],
        ended: EndKind::End,
        answered: true,
    },
    Case {
        name: "a signal",
        reads: &[Some(4), None, Some(4), Some(19)],
        writes: &[],
        ended: EndKind::End,
        answered: true,
    },
    Case {
        name: "nothing waits",
        reads: &[Some(11), None, Some(11), Some(19)],
        writes: &[],
        ended: EndKind::End,
        answered: true,
    },
    Case {
        name: "a read fails",
        reads: &[None, Some(5)],
        writes: &[],
        ended: EndKind::PortFailed,
        answered: true,
    },
    Case {
        name: "nobody waits for the answer",
        reads: &[],
        writes: &[Some(2)],
        ended: EndKind::End,
        answered: false,
    },
    Case {
        name: "a write fails",
        reads: &[],
        writes: &[Some(5)],
        ended: EndKind::PortFailed,
        answered: false,
    },
    Case {
        name: "unmounted before the answer",
        reads: &[],
        writes: &[Some(19)],
        ended: EndKind::PortFailed,
        answered: false,
    },
];

// How a session over this device ends, and the bytes written to it.
fn serve_device(
    alloc: Global,
    keeper: &mut TreeKeeper,
    reader: Reader,
    writer: Writer,
) -> (EndKind, Vec<u8>) {
    if keeper.failed() {
        return (EndKind::Failed, writer.written);
    }
    let mut port = DevicePort::new(reader, writer);
    let served = serve(alloc, keeper, &mut port, &mut Fixed(AT_1000), 1000);
    (kind_of(&served.ended), port.into_writer().written)
}

fn is_right(alloc: Global, case: &Case) -> Result<bool, StoreFault> {
    let reader = Reader {
        refusals: Refusals {
            numbers: case.reads,
        },
        message: hex(alloc, LOOKUP_HELLO)?,
    };
    let writer = Writer {
        refusals: Refusals {
            numbers: case.writes,
        },
        written: Vec::new(alloc),
    };
    let mut keeper = begun(alloc, INIT_AGREED)?;
    let (ended, written) = serve_device(alloc, &mut keeper, reader, writer);
    let answer = hex(alloc, if case.answered { NOT_THERE } else { "" })?;
    Ok(
        ended == case.ended
            && written.as_slice() == answer.as_slice()
            && held_in(&mut keeper) == Some(holding(1, 0, 2)),
    )
}

#[test]
fn device_cases(rt: HostRuntime) -> Result<(), StoreFault> {
    for case in &CASES {
        assert!(rt; is_right(rt.alloc(), case)?, "{}", case.name);
    }
    Ok(())
}
