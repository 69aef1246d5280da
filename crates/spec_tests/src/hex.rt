//! Hexadecimal as the cases have it.
use std::alloc::{AllocError, Global};

fn digit(c: u8) -> Option<u8> {
    match c {
        b'0'..=b'9' => Some(c - b'0'),
        b'a'..=b'f' => Some(c - b'a' + 10),
        _ => None,
    }
}

// Appends the bytes of hexadecimal digits.
fn put_digits(out: &mut Vec<u8>, digits: &[u8]) -> Result<(), AllocError> {
    let mut first: Option<u8> = None;
    for c in digits {
        if let Some(low) = digit(*c) {
            match first {
                Some(high) => {
                    out.push((high << 4) | low)?;
                    first = None;
                }
                None => first = Some(low),
            }
        }
    }
    Ok(())
}

fn number(digits: &str) -> usize {
    let mut n: usize = 0;
    for c in digits.as_bytes() {
        n = n
            .saturating_mul(10)
            .saturating_add(c.wrapping_sub(b'0') as usize);
    }
    n
}

fn put_zeros(out: &mut Vec<u8>, count: usize) -> Result<(), AllocError> {
    for _ in 0..count {
        out.push(0)?;
    }
    Ok(())
}

/// Appends the bytes of a text, which may have spaces, and `0*n` for n zero bytes.
pub(crate) fn put_hex(out: &mut Vec<u8>, text: &str) -> Result<(), AllocError> {
    for word in text.split_whitespace() {
        match word.strip_prefix("0*") {
            Some(count) => put_zeros(out, number(count))?,
            None => put_digits(out, word.as_bytes())?,
        }
    }
    Ok(())
}

/// The bytes of a text.
pub(crate) fn hex(alloc: Global, text: &str) -> Result<Vec<u8>, AllocError> {
    let mut out = Vec::new(alloc);
    put_hex(&mut out, text)?;
    Ok(out)
}

/// Sets the resend bit in the message or the answer that begins here.
pub(crate) fn mark_resent(bytes: &mut [u8], begin: usize) {
    if let Some(highest) = bytes.get_mut(begin.saturating_add(15)) {
        *highest |= 0x80;
    }
}
