//! Writes that are cut short: the bytes of a disk after half of a change.
use std::alloc::{AllocError, Global};

fn common_prefix(one: &[u8], other: &[u8]) -> usize {
    let pairs = one.iter().zip(other);
    pairs.take_while(|(byte, at_it)| byte == at_it).count()
}

fn common_suffix(one: &[u8], other: &[u8]) -> usize {
    let pairs = one.iter().rev().zip(other.iter().rev());
    pairs.take_while(|(byte, at_it)| byte == at_it).count()
}

// The place in the middle of the difference.
fn middle(before: &[u8], after: &[u8]) -> usize {
    let first = common_prefix(before, after);
    let end = if before.len() == after.len() {
        before.len().saturating_sub(common_suffix(before, after))
    } else {
        before.len().max(after.len())
    };
    first.saturating_add(end.saturating_sub(first) / 2)
}

/// The bytes after the first half of a change, followed by the bytes before it. A truncation cuts
/// from the middle on.
pub(crate) fn half(alloc: Global, before: &[u8], after: &[u8]) -> Result<Vec<u8>, AllocError> {
    let place = middle(before, after);
    if after.len() < before.len() {
        return Vec::from_slice(alloc, before.get(..place).unwrap_or(before));
    }
    let mut half = Vec::from_slice(alloc, after.get(..place).unwrap_or(after))?;
    half.extend_from_slice(before.get(place..).unwrap_or(&[]))?;
    Ok(half)
}

fn is_half(alloc: Global, before: &str, after: &str, wanted: &str) -> Result<bool, AllocError> {
    let found = half(alloc, before.as_bytes(), after.as_bytes())?;
    Ok(found.as_slice() == wanted.as_bytes())
}

// Writes within the bytes, over their end and after it, and a truncation.
#[test]
fn halves(rt: HostRuntime) -> Result<(), AllocError> {
    let alloc = rt.alloc();
    for (before, after, wanted) in [
        ("abcdef", "aBCDEf", "aBCdef"),
        ("abc", "abXYZ1", "abXY"),
        ("abc", "abc12XY", "abc12"),
        ("abcdef", "ab", "abcd"),
    ] {
        assert!(rt; is_half(alloc, before, after, wanted)?);
    }
    Ok(())
}
