//! The free space of the data file.
ghost use Rattle.std.specs.Prelude.{◌≡◌, ◌↔◌, ◌+◌, ◌<◌, ◌≤◌, ℕ, IfSome, IsTrue};
ghost use Rattle.std.specs.Prelude.{IfOk, IfErr, OnOk, OnErr, length, slice_index_or};
ghost use Rattle.std.specs.List.{All};
ghost use Rattle.std.specs.Option.{IfNone};
ghost use Rattle.fuse_data.specs.declared.extent.Extent.{Extent as AnExtent};
ghost use Rattle.fuse_data.specs.declared.extent.TheConstants as limits;
ghost use Rattle.fuse_data.specs.declared.gaps.Gap.{Gap as AGap};
ghost use Rattle.fuse_data.specs.Extents.{past, IsPlaced, AreByPlace};
ghost use Rattle.fuse_data.specs.Space.{IsFreeExtent, InUse, HasBlocks, HeadsGap};
ghost use Rattle.fuse_data.specs.Space.{TakesOut, PutsIn, IsSpaceOf, IsTail};
ghost use Rattle.fuse_data.specs.Causes.{FailsToFit, FailsToGiveBack};

use crate::extent::{Extent, is_placed};
use crate::fault::DataFault;
use crate::filling::{fill, replace};
use crate::gaps::{Gap, begin_of, find_gap, tail_of, take_head};
use crate::listing::gaps_of;
use std::alloc::Global;
use std::marker::Model;

/// The free space, as gaps in order. Contracts see the gaps.
#[derive(Drop)]
pub struct Space {
    gaps: Vec<Gap>,
}

impl Model for Space {
    ghost use Rattle.std.specs.Prelude.{List};
    ghost use Rattle.fuse_data.specs.declared.gaps.Gap.{Gap};
    ghost use Rattle.fuse_data.specs.Space.{AreGaps};

    ghost Value = { List Gap };

    ghost view = { λ s. s.gaps.items };

    ghost invariant = { λ s. AreGaps 1 s.gaps.items };
}

impl Space {
    /// What the listed extents leave. The list is in order of place, and its extents lie within so
    /// many blocks.
    pub fn of(alloc: Global, blocks: usize, listed: &[Extent]) -> Result<Space, DataFault>
        ensures space { IfOk result (λ s. IsSpaceOf listed.now s) }
        ensures by_place { OnOk result (AreByPlace 1 listed.now) }
        ensures within { OnOk result (All (λ p. past p ≤ blocks) listed.now) }
        ensures cause { IfErr result (FailsToFit listed.now blocks) }
    {
        let gaps = gaps_of(alloc, blocks, listed)?;
        Ok(Space { gaps })
    }

    /// The first gap with so many blocks.
    pub fn find(&self, count: usize) -> Option<usize>
        ensures some { IfSome result (λ i. HasBlocks self.now i count) }
        ensures first { IfSome result (λ i. (p : AnExtent) (d : AGap) → 1 ≤ p.count
            → p.count ≡ count → IsFreeExtent self.now p → (slice_index_or self.now i d).from
            ≤ p.place) }
        ensures none { IfNone result ((p : AnExtent) → 1 ≤ p.count → p.count ≡ count
            → ¬ IsFreeExtent self.now p) }
    {
        find_gap(self.gaps.as_slice(), count)
    }

    /// Where a gap begins.
    pub fn begin(&self, i: usize) -> usize
        requires { i < length self.now }
        ensures value { (d : AGap) → result ≡ (slice_index_or self.now i d).from }
        ensures low { 1 ≤ result }
        ensures high { (d : AGap) → (slice_index_or self.now i d).to ≤ limits.END }
    {
        begin_of(self.gaps.as_slice(), i)
    }

    /// Takes an extent at the head of a gap.
    pub fn take(&mut self, i: usize, extent: Extent)
        requires some { 1 ≤ extent.count }
        requires head { HeadsGap self.old i extent }
        ensures { TakesOut extent self.old self.new }
    {
        take_head(&mut self.gaps, i, extent);
    }

    /// Frees the blocks of an extent, whatever it says. It refuses one that isn't wholly in use, and
    /// then changes nothing.
    pub fn give_back(&mut self, extent: Extent) -> Result<(), DataFault>
        ensures freed { OnOk result (PutsIn extent self.old self.new) }
        ensures in_use { OnOk result (IsPlaced extent × InUse self.old extent) }
        ensures failed { OnErr result (self.new ≡ self.old) }
        ensures cause { IfErr result (FailsToGiveBack self.old extent) }
    {
        if !is_placed(extent) {
            return Err(DataFault::NotInUse(extent));
        }
        let Some(filling) = fill(self.gaps.as_slice(), extent) else {
            return Err(DataFault::NotInUse(extent));
        };
        replace(&mut self.gaps, filling)?;
        Ok(())
    }

    /// Whether no block of an extent is free.
    pub fn has(&self, extent: Extent) -> bool
        requires { IsPlaced extent }
        ensures { IsTrue result ↔ InUse self.now extent }
    {
        match fill(self.gaps.as_slice(), extent) {
            Some(_) => true,
            None => false,
        }
    }

    /// The first block from which on all are free.
    pub fn tail(&self) -> usize
        ensures { IsTail self.now result }
    {
        tail_of(self.gaps.as_slice())
    }
}
