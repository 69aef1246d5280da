//! Keepers of the tree in lists, and their counts.
use crate::run::{Held, holding};
use fuse_init::{EverydayProfile, PlainProfile};
use fuse_keeper::{Keeper, PlainKeeper};
use fuse_lists::PlainTree;
use fuse_wire::{Memory, Moment};
use std::alloc::Global;

/// A keeper of the tree in memory.
pub type TreeKeeper = PlainKeeper<PlainTree<PlainProfile>>;

/// One of the everyday profile.
pub type EverydayKeeper = PlainKeeper<PlainTree<EverydayProfile>>;

pub const START: Moment = Moment { secs: 0, nanos: 0 };

pub const AT_1000: Moment = Moment {
    secs: 1000,
    nanos: 0,
};

/// A new store, made at second 0.
pub(crate) fn new_keeper(alloc: Global) -> Result<TreeKeeper, Memory> {
    PlainKeeper::new(alloc, START)
}

/// One of the everyday profile, with the default capacity.
pub(crate) fn new_everyday_keeper(alloc: Global) -> Result<EverydayKeeper, Memory> {
    PlainKeeper::new(alloc, START)
}

/// The counts of a keeper. `None` if it is out of memory, or has a lot.
pub(crate) fn held_in<K: Keeper>(keeper: &mut K) -> Option<Held> {
    let counts = keeper.counts().ok()?;
    if counts.lots != 0 {
        return None;
    }
    Some(holding(counts.nodes, counts.handles, counts.records))
}
