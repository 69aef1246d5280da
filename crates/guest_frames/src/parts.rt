// The parts of a payload: each reader returns the first one, and the bytes after it.
ghost use Rattle.guest_frames.specs.Reading as reading;
ghost use Rattle.guest_frames.specs.inner.Readers.{GivesPart};

use crate::fault::GuestFault;
use crate::guest_kind::GuestKind;
use crate::limits::{MAX_KEY, MAX_VALUE};
use fuse_wire::u32_at;

pub(crate) fn word_first(kind: GuestKind, bytes: &[u8]) -> Result<(u32, &[u8]), GuestFault>
    ensures { GivesPart (λ n. n) result (reading.word_first kind bytes.now) }
{
    if bytes.len() < 4 {
        return Err(GuestFault::Malformed(kind));
    }
    let (_word, rest) = bytes.split_at(4);
    Ok((u32_at(bytes, 0), rest))
}

fn bytes_first(kind: GuestKind, len: u32, bytes: &[u8]) -> Result<(&[u8], &[u8]), GuestFault>
    ensures { GivesPart (λ x. x.now) result (reading.bytes_first kind len bytes.now) }
{
    if bytes.len() < len as usize {
        return Err(GuestFault::Malformed(kind));
    }
    Ok(bytes.split_at(len as usize))
}

// A bound of a range.
#[tactic(auto, unfolding(crate::specs::Reading::bound_first))]
pub(crate) fn bound_first(kind: GuestKind, bytes: &[u8]) -> Result<(&[u8], &[u8]), GuestFault>
    ensures { GivesPart (λ x. x.now) result (reading.bound_first kind bytes.now) }
{
    let (len, rest) = word_first(kind, bytes)?;
    if len > MAX_KEY {
        return Err(GuestFault::Key(len));
    }
    bytes_first(kind, len, rest)
}

#[tactic(auto, unfolding(crate::specs::Reading::key_first))]
pub(crate) fn key_first(kind: GuestKind, bytes: &[u8]) -> Result<(&[u8], &[u8]), GuestFault>
    ensures { GivesPart (λ x. x.now) result (reading.key_first kind bytes.now) }
{
    let (len, rest) = word_first(kind, bytes)?;
    if len == 0 || len > MAX_KEY {
        return Err(GuestFault::Key(len));
    }
    bytes_first(kind, len, rest)
}

#[tactic(auto, unfolding(crate::specs::Reading::value_first))]
pub(crate) fn value_first(kind: GuestKind, bytes: &[u8]) -> Result<(&[u8], &[u8]), GuestFault>
    ensures { GivesPart (λ x. x.now) result (reading.value_first kind bytes.now) }
{
    let (len, rest) = word_first(kind, bytes)?;
    if len > MAX_VALUE {
        return Err(GuestFault::Value(len));
    }
    bytes_first(kind, len, rest)
}
