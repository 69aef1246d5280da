// Bytes that are cut, and errors that come as they came.
use crate::AloneSource;
use fuse_session::Source;
use fuse_wire::Id;
use std::io;
use std::io::Read;
use std::test::Fail;

// A message of 40 bytes with this opcode and this unique.
fn header(opcode: u8, unique: u8, resent: u8) -> [u8; 40] {
    let mut bytes = [0; 40];
    bytes[0] = 40;
    bytes[4] = opcode;
    bytes[8] = unique;
    bytes[15] = resent;
    bytes
}

#[test]
fn the_request_comes_alone(rt: HostRuntime) -> Result<(), Fail> {
    let mut input = Vec::new(rt.alloc());
    input.extend_from_slice(&header(17, 2, 0))?;
    input.extend_from_slice(&header(17, 4, 0))?;
    input.extend_from_slice(&header(17, 6, 0x80))?;
    input.extend_from_slice(&header(17, 8, 0))?;
    input.extend_from_slice(&header(17, 6, 0)[..20])?;
    let mut source = AloneSource::new(rt.alloc(), input.as_slice(), Some(Id(6)))?;
    let mut buffer = [0; 300];
    assert_eq!(&rt; source.read_once(&mut buffer)?, 80);
    assert_eq!(&rt; source.read_once(&mut buffer)?, 40);
    assert_eq!(&rt; buffer[8], 6);
    assert_eq!(&rt; buffer[15], 0x80);
    assert_eq!(&rt; source.read_once(&mut buffer)?, 60);
    assert_eq!(&rt; source.read_once(&mut buffer)?, 0);
    Ok(())
}

// Gives three bytes, then an error once, then a message, and then its end.
#[derive(Drop)]
struct Failing {
    calls: u8,
}

impl Read for Failing {
    fn read(&mut self, buf: &mut [u8]) -> io::Result<usize> {
        let call = self.calls;
        self.calls = call.saturating_add(1);
        match call {
            0 if buf.len() >= 3 => Ok(3),
            1 => Err(io::Error::from_raw_os_error(4)),
            _ => Ok(0),
        }
    }
}

#[test]
fn errors_come_once(rt: HostRuntime) -> Result<(), Fail> {
    let mut source = AloneSource::new(rt.alloc(), Failing { calls: 0 }, Some(Id(6)))?;
    let mut buffer = [0; 40];
    assert_eq!(&rt; source.read_once(&mut buffer)?, 3);
    assert!(&rt; source.read_once(&mut buffer).is_err());
    assert_eq!(&rt; source.read_once(&mut buffer)?, 0);
    Ok(())
}
