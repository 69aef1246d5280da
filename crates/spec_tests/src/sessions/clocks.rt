//! The machine's clock, when it works and when it fails.
use fuse_session::{Clock, System};
use fuse_wire::Moment;
use std::cell::Cell;
use std::test::*;
use std::time::Duration;
use std::{io, rt};

// Gives 1,000 s and 5 ns `left` times, and then fails.
#[derive(Drop)]
struct Stopping {
    left: Cell<u32>,
}

impl rt::Clock for Stopping {
    fn monotonic(&self) -> io::Result<Duration> {
        Ok(Duration::from_secs(7))
    }

    fn since_1970(&self) -> io::Result<Duration> {
        let left = self.left.get();
        if left == 0 {
            return Err(io::Error::from(io::ErrorKind::Other));
        }
        self.left.set(left - 1);
        Ok(Duration::new(1000, 5))
    }
}

const GIVEN: Moment = Moment {
    secs: 1000,
    nanos: 5,
};

const FIRST: Moment = Moment { secs: 0, nanos: 0 };

#[test]
fn the_last_moment_where_none_is_given(rt: HostRuntime) {
    let mut clock = System::new(Stopping { left: Cell::new(1) });
    assert_eq!(rt; clock.now(), GIVEN);
    assert_eq!(rt; clock.now(), GIVEN);
    let mut never = System::new(Stopping { left: Cell::new(0) });
    assert_eq!(rt; never.now(), FIRST);
}
