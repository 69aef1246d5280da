/// A point in time: seconds since 1970, and nanoseconds below 1,000,000,000 in a clock's answer.
/// SETATTR may set any 32-bit number of nanoseconds, which are then kept as received.
#[derive(Clone, Copy, Debug, PartialEq, Eq)]
pub struct Moment {
    pub secs: u64,
    pub nanos: u32,
}
