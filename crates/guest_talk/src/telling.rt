// What a query of a guest gets.
ghost use Rattle.std.specs.Prelude.{◌≡◌, true, map, IfErr, IfOk, OnErr, OnOk};
ghost use Rattle.std.specs.Option.{option_map};
ghost use Rattle.guest_frames.specs.Borrowed.{keys_left};
ghost use Rattle.guest_frames.specs.Frames.{HasRightParts, of_values};
ghost use Rattle.fuse_guest.specs.Pairs.{Pairs, value_for};
ghost use Rattle.fuse_guest.specs.Talk.{Says};
ghost use Rattle.fuse_guest.specs.Telling.{told_of, value_size};
ghost use Rattle.fuse_guest.specs.Conversations.{asks_more};
ghost use Rattle.guest_talk.specs.Answered.{incoming_frame};
ghost use Rattle.guest_talk.specs.Showing.{ShownBy, owned_value, page_frame};
ghost use Rattle.guest_talk.specs.inner.Writes.{IsNotWritten, IsStoreFault, IsToldIn, IsWritten};

use crate::incoming::Incoming;
use crate::outgoing::{Outgoing, encoded};
use crate::page::{OwnedPair, PairPage};
use crate::pair_source::PairSource;
use fuse_guest::replies_fit;
use fuse_keeper::StoreFault;
use guest_frames::{EngineFrame, GuestFrame, Keys, MAX_REPLY, Pair};
use std::alloc::Global;

// The bytes of VALUES and of PAIRS before the first value or pair.
const TOLD_HEAD: u64 = 16;

fn view_of(value: &Option<Vec<u8>>) -> Option<&[u8]>
    ensures { option_map (λ x. x.now) result ≡ owned_value value.now }
{
    match value {
        Some(bytes) => Some(bytes.as_slice()),
        None => None,
    }
}

// VALUES of these values.
fn values_frame(alloc: Global, values: &[Option<Vec<u8>>]) -> Result<Outgoing, StoreFault>
    ensures ok { IfOk result (IsWritten (of_values (map owned_value values.now))) }
    ensures err { IfErr result (IsNotWritten (of_values (map owned_value values.now))) }
{
    let mut views = Vec::new(alloc);
    for value in values {
        views.push(view_of(value))?;
    }
    encoded(alloc, &EngineFrame::Values(&views))
}

fn pair_of(pair: &OwnedPair) -> Pair<'_>
    ensures key { result.key.now ≡ pair.now.key.items }
    ensures value { result.value.now ≡ pair.now.value.items }
{
    Pair {
        key: &pair.key,
        value: &pair.value,
    }
}

// PAIRS of this page.
fn pairs_frame(alloc: Global, page: &PairPage) -> Result<Outgoing, StoreFault>
    ensures ok { IfOk result (IsWritten (page_frame page.now)) }
    ensures err { IfErr result (IsNotWritten (page_frame page.now)) }
{
    let mut views = Vec::new(alloc);
    for pair in &page.pairs {
        views.push(pair_of(pair))?;
    }
    encoded(
        alloc,
        &EngineFrame::Pairs {
            pairs: &views,
            more: page.more,
        },
    )
}

// How many bytes a value takes in VALUES.
fn size_of(value: &Option<Vec<u8>>) -> u64
    ensures { result ≡ value_size (owned_value value.now) }
{
    match value {
        Some(bytes) => 4 + bytes.len() as u64,
        None => 4,
    }
}

// The values of the first keys, as many as fit into a frame, but one at least.
fn values_of<P: PairSource>(
    alloc: Global,
    pairs: &mut P,
    keys: Keys<'_>,
) -> Result<Vec<Option<Vec<u8>>>, StoreFault>
    ensures ok { IfOk result (λ v. (ps : Pairs)
        → ShownBy P.shows P.is_honest pairs.old pairs.new ps
        → map owned_value v.items ≡ told_of value_size (map (value_for ps) (keys_left keys.entry))) }
    ensures err { IfErr result (IsStoreFault
        (ShownBy P.shows P.is_honest pairs.old pairs.new) (P.may_answer pairs.old)) }
    ensures looks { OnOk result (P.looks pairs.old pairs.new) }
    ensures fails { OnErr result (P.fails pairs.old pairs.new) }
{
    let mut values = Vec::new(alloc);
    let mut room = u64::from(MAX_REPLY) - TOLD_HEAD;
    for key in keys {
        let value = pairs.value(alloc, key)?;
        let size = size_of(&value);
        if size > room && !values.is_empty() {
            return Ok(values);
        }
        room = room.saturating_sub(size);
        values.push(value)?;
    }
    Ok(values)
}

/// The frame that a GET or a SCAN gets.
pub(crate) fn told_frame<P: PairSource>(
    alloc: Global,
    pairs: &mut P,
    query: &Incoming,
) -> Result<Outgoing, StoreFault>
    requires asks { asks_more (Says (incoming_frame query.now)) ≡ true }
    requires right { HasRightParts (incoming_frame query.now) }
    ensures ok { IfOk result (IsToldIn (ShownBy P.shows P.is_honest pairs.old pairs.new)
        (incoming_frame query.now)) }
    ensures err { IfErr result (IsStoreFault
        (ShownBy P.shows P.is_honest pairs.old pairs.new) (P.may_answer pairs.old)) }
    ensures looks { OnOk result (P.looks pairs.old pairs.new) }
    ensures fails { OnErr result (P.fails pairs.old pairs.new) }
{
    replies_fit();
    match query.frame() {
        GuestFrame::Get(keys) => {
            let values = values_of(alloc, pairs, keys)?;
            values_frame(alloc, &values)
        }
        GuestFrame::Scan(scan) => {
            let page = pairs.scan(alloc, &scan)?;
            pairs_frame(alloc, &page)
        }
        _ => unreachable!(),
    }
}
