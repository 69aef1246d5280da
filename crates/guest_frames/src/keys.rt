ghost use Rattle.guest_frames.specs.Borrowed.{keys_left};
ghost use Rattle.guest_frames.specs.Reading as reading;
ghost use Rattle.guest_frames.specs.declared.guest_kind.GuestKind.TheVariants as kinds;
ghost use Rattle.guest_frames.specs.inner.Readers.{GivesPart};

use crate::fault::GuestFault;
use crate::guest_kind::GuestKind;
use crate::parts::key_first;

/// The keys of a GET, in their order, as they lie in its bytes. Takes no memory.
#[derive(Debug, Drop)]
pub struct Keys<'a> {
    rest: &'a [u8],
    left: u32,
}

// So many keys, and the bytes after them.
pub(crate) fn split_keys(count: u32, bytes: &[u8]) -> Result<(Keys<'_>, &[u8]), GuestFault>
    ensures { GivesPart keys_left result
        (reading.items_first (reading.key_first kinds.Get) count bytes.now) }
{
    let mut rest = bytes;
    for _ in 0..count {
        let (_key, after) = key_first(GuestKind::Get, rest)?;
        rest = after;
    }
    let keys = Keys {
        rest: bytes,
        left: count,
    };
    Ok((keys, rest))
}

impl<'a> Iterator for Keys<'a> {
    ghost use Rattle.std.specs.Iterator.{YieldsFirstBy, item_count};

    type Item = &'a [u8];

    ghost next_gives = { YieldsFirstBy (λ k. k.now) keys_left };

    ghost remaining = { item_count keys_left };

    fn next(&mut self) -> Option<&'a [u8]> {
        if self.left == 0 {
            return None;
        }
        let Ok((key, rest)) = key_first(GuestKind::Get, self.rest) else {
            return None;
        };
        self.rest = rest;
        self.left -= 1;
        Some(key)
    }
}
