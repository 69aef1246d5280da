ghost use Rattle.guest_frames.specs.Borrowed as borrowed;
ghost use Rattle.guest_frames.specs.Reading as reading;
ghost use Rattle.guest_frames.specs.inner.Readers.{GivesPart};

use crate::fault::GuestFault;
use crate::guest_kind::GuestKind;
use crate::pair_change::PairChange;
use crate::parts::{bound_first, key_first, value_first, word_first};

const PUT: u32 = 1;

const DELETE: u32 = 2;

const CLEAR: u32 = 3;

#[tactic(auto, unfolding(crate::specs::Reading::put_first))]
fn put_first(bytes: &[u8]) -> Result<(PairChange<'_>, &[u8]), GuestFault>
    ensures { GivesPart borrowed.change_content result (reading.put_first bytes.now) }
{
    let (key, rest) = key_first(GuestKind::Answer, bytes)?;
    let (value, rest) = value_first(GuestKind::Answer, rest)?;
    Ok((PairChange::Put { key, value }, rest))
}

#[tactic(auto, unfolding(crate::specs::Reading::delete_first))]
fn delete_first(bytes: &[u8]) -> Result<(PairChange<'_>, &[u8]), GuestFault>
    ensures { GivesPart borrowed.change_content result (reading.delete_first bytes.now) }
{
    let (key, rest) = key_first(GuestKind::Answer, bytes)?;
    Ok((PairChange::Delete { key }, rest))
}

#[tactic(auto, unfolding(crate::specs::Reading::clear_first))]
fn clear_first(bytes: &[u8]) -> Result<(PairChange<'_>, &[u8]), GuestFault>
    ensures { GivesPart borrowed.change_content result (reading.clear_first bytes.now) }
{
    let (from, rest) = bound_first(GuestKind::Answer, bytes)?;
    let (to, rest) = bound_first(GuestKind::Answer, rest)?;
    Ok((PairChange::Clear { from, to }, rest))
}

// The first change, and the bytes after it.
#[tactic(auto, unfolding(crate::specs::Reading::change_first))]
fn change_first(bytes: &[u8]) -> Result<(PairChange<'_>, &[u8]), GuestFault>
    ensures { GivesPart borrowed.change_content result (reading.change_first bytes.now) }
{
    let (what, rest) = word_first(GuestKind::Answer, bytes)?;
    match what {
        PUT => put_first(rest),
        DELETE => delete_first(rest),
        CLEAR => clear_first(rest),
        _ => Err(GuestFault::Change(what)),
    }
}

/// The changes of an ANSWER, in their order, as they lie in its bytes. Takes no memory.
#[derive(Debug, Drop)]
pub struct Changes<'a> {
    rest: &'a [u8],
    left: u32,
}

// So many changes, and the bytes after them.
pub(crate) fn split_changes(count: u32, bytes: &[u8]) -> Result<(Changes<'_>, &[u8]), GuestFault>
    ensures { GivesPart borrowed.changes_left result
        (reading.items_first reading.change_first count bytes.now) }
{
    let mut rest = bytes;
    for _ in 0..count {
        let (_change, after) = change_first(rest)?;
        rest = after;
    }
    let changes = Changes {
        rest: bytes,
        left: count,
    };
    Ok((changes, rest))
}

impl<'a> Iterator for Changes<'a> {
    ghost use Rattle.std.specs.Iterator.{YieldsFirstBy, item_count};
    ghost use Rattle.guest_frames.specs.Borrowed.{change_content, changes_left};

    type Item = PairChange<'a>;

    ghost next_gives = { YieldsFirstBy change_content changes_left };

    ghost remaining = { item_count changes_left };

    fn next(&mut self) -> Option<PairChange<'a>> {
        if self.left == 0 {
            return None;
        }
        let Ok((change, rest)) = change_first(self.rest) else {
            return None;
        };
        self.rest = rest;
        self.left -= 1;
        Some(change)
    }
}
