//! The number of a store, by which its data file knows it.
ghost use Rattle.std.specs.Prelude.{◌<◌, ◌^◌, IfOk};

use std::hash::{BuildHasher, RandomState};
use std::io;

/// A number below 2^63, drawn at random.
pub(crate) fn draw_number(rt: &HostRuntime) -> io::Result<u64>
    ensures { IfOk result (λ n. n < 2 ^ 63) }
{
    Ok(RandomState::new(rt)?.hash_one(&0u8) / 2)
}
