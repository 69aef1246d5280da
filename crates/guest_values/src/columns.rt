//! The columns of a row that lists a large value.
ghost use Rattle.std.specs.Prelude.{◌≡◌, ◌<◌, ◌^◌, length, IfOk, IfSome};
ghost use Rattle.std.specs.Option.{IfNone};
ghost use Rattle.guest_values.specs.declared.large_value.LargeValue.{LargeValue as AValue};
ghost use Rattle.guest_values.specs.Columns.{HasColumns, rest_bytes, second_bytes};
ghost use Rattle.guest_values.specs.Values.{IsFitValue};

use crate::large_value::{LargeValue, count_blocks, is_fit, is_large};
use fuse_data::{Extent, MOST};
use fuse_wire::{Memory, numbers_read, put_u64, u64_at};
use std::alloc::Global;

// The bytes of a second piece in the column `value`.
const SECOND: usize = 16;

/// What the column `value` has: the place and the digest of the second piece, or nothing.
pub fn rest_of(alloc: Global, value: LargeValue) -> Result<Vec<u8>, Memory>
    ensures { IfOk result (λ v. v.items ≡ rest_bytes value.second) }
{
    let mut bytes = Vec::new(alloc);
    match value.second {
        None => Ok(bytes),
        Some(second) => {
            put_u64(&mut bytes, second.place as u64)?;
            put_u64(&mut bytes, second.sum)?;
            Ok(bytes)
        }
    }
}

// The second piece, of so many blocks, in these bytes.
fn second_in(bytes: &[u8], count: usize) -> Extent
    requires { length bytes.now ≡ 16 }
    ensures count { result.count ≡ count }
    ensures low { result.place < 2 ^ 64 }
    ensures bytes { second_bytes result ≡ bytes.now }
{
    numbers_read();
    Extent {
        place: u64_at(bytes, 0) as usize,
        count,
        sum: u64_at(bytes, 8),
    }
}

// A value, if a data file can have it.
fn fit(value: LargeValue) -> Option<LargeValue>
    ensures some { IfSome result (λ v. (v ≡ value) × IsFitValue v) }
    ensures none { IfNone result (¬ IsFitValue value) }
{
    if is_fit(value) { Some(value) } else { None }
}

/// The value that a row with these columns lists: its place, length and digest, and what the column
/// `value` has. A row may say anything.
pub fn value_of(place: u64, len: u64, sum: u64, rest: &[u8]) -> Option<LargeValue>
    ensures some { IfSome result (λ v. IsFitValue v × HasColumns v rest.now place len sum) }
    ensures none { IfNone result ((v : AValue) → IsFitValue v
        → ¬ HasColumns v rest.now place len sum) }
{
    numbers_read();
    let len = len as usize;
    if !is_large(len) {
        return None;
    }
    let blocks = count_blocks(len);
    let first = Extent {
        place: place as usize,
        count: blocks.min(MOST),
        sum,
    };
    if rest.is_empty() {
        return fit(LargeValue {
            len,
            first,
            second: None,
        });
    }
    if rest.len() != SECOND {
        return None;
    }
    let second = second_in(rest, blocks.saturating_sub(MOST));
    fit(LargeValue {
        len,
        first,
        second: Some(second),
    })
}
