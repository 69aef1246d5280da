// How long frames of the engine are.
ghost use Rattle.std.specs.Prelude.{◌≡◌, ◌==◌, ◌&&◌, ◌≤◌, IfNone, IfSome, length, map};
ghost use Rattle.guest_frames.specs.Frames as frames;
ghost use Rattle.guest_frames.specs.Limits.{max_reply_len};
ghost use Rattle.guest_frames.specs.Encoding.{engine_content, pair_content, value_content};
ghost use Rattle.guest_frames.specs.inner.Writers as writers;

use crate::engine_frame::{EngineFrame, Pair};
use crate::limits::{MAX_FRAME, MAX_KEY, MAX_KEYS, MAX_REPLY, MAX_VALUE};
use fuse_wire::layouts_stand;

// The shortest message of a kernel: a header alone.
const MIN_MESSAGE: usize = 40;

// How many bytes a value takes. `None` where it is too long.
fn value_room(value: Option<&[u8]>) -> Option<u32>
    ensures { result ≡ writers.value_room (value_content value.entry) }
{
    match value {
        None => Some(4),
        Some(bytes) => {
            if bytes.len() > MAX_VALUE as usize {
                return None;
            }
            Some(4 + bytes.len() as u32)
        }
    }
}

// How many bytes a pair takes. `None` where a part is too long, or the key is empty.
fn pair_room(pair: &Pair<'_>) -> Option<u32>
    ensures { result ≡ writers.pair_room (pair_content pair.now) }
{
    if pair.key.is_empty() || pair.key.len() > MAX_KEY as usize {
        return None;
    }
    if pair.value.len() > MAX_VALUE as usize {
        return None;
    }
    Some(8 + pair.key.len() as u32 + pair.value.len() as u32)
}

// So much more. `None` where that is too long for a frame of VALUES or PAIRS.
fn add_room(len: u32, room: Option<u32>) -> Option<u32>
    ensures added { result ≡ writers.room_added len room }
    ensures short { IfSome result (λ n. n ≤ max_reply_len) }
{
    let total = u64::from(len) + u64::from(room?);
    if total > u64::from(MAX_REPLY) {
        return None;
    }
    Some(total as u32)
}

// How long a frame of these values is. `None` where one is beyond the limits, or the frame.
pub(crate) fn values_len(values: &[Option<&[u8]>]) -> Option<u32>
    ensures { result ≡ writers.measured writers.value_room 16 (map value_content values.now) }
{
    let mut len = 16;
    for value in values {
        len = add_room(len, value_room(*value))?;
    }
    Some(len)
}

// How long a frame of these pairs is. `None` where one is beyond the limits, or the frame.
pub(crate) fn pairs_len(pairs: &[Pair<'_>]) -> Option<u32>
    ensures { result ≡ writers.measured writers.pair_room 16 (map pair_content pairs.now) }
{
    let mut len = 16;
    for pair in pairs {
        len = add_room(len, pair_room(pair))?;
    }
    Some(len)
}

// Whether there are more pairs, and none of them comes.
fn none_of_more(pairs: &[Pair<'_>], more: bool) -> bool
    ensures { result ≡ (more && length (map pair_content pairs.now) == 0) }
{
    more && pairs.is_empty()
}

// How long a frame is. `None` where it is beyond the limits.
pub(crate) fn frame_len(frame: &EngineFrame<'_>) -> Option<u32>
    ensures some { IfSome result (λ n. frames.IsLimited (engine_content frame.now)
        × (n ≡ frames.frame_len (engine_content frame.now))) }
    ensures none { IfNone result (frames.IsLimited (engine_content frame.now) → ⊥) }
{
    layouts_stand();
    match *frame {
        EngineFrame::Hello(_) => Some(64),
        EngineFrame::Request(request) => {
            let _secs = request.secs;
            let len = request.message.len();
            if len < MIN_MESSAGE || len > MAX_FRAME as usize - 24 {
                return None;
            }
            Some(24 + len as u32)
        }
        EngineFrame::Values(values) => {
            if values.is_empty() || values.len() > MAX_KEYS as usize {
                return None;
            }
            values_len(values)
        }
        EngineFrame::Pairs { pairs, more } => {
            if none_of_more(pairs, more) {
                return None;
            }
            pairs_len(pairs)
        }
    }
}
