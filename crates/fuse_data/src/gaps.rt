//! Free blocks, as gaps in order.
ghost use Rattle.std.specs.Prelude.{◌≡◌, ◌+◌, ◌<◌, ◌≤◌, ℕ, IfSome, length, slice_index_or};
ghost use Rattle.std.specs.Option.{IfNone};
ghost use Rattle.fuse_data.specs.declared.extent.Extent.{Extent as AnExtent};
ghost use Rattle.fuse_data.specs.declared.extent.TheConstants as limits;
ghost use Rattle.fuse_data.specs.declared.gaps.Gap.{Gap as AGap};
ghost use Rattle.fuse_data.specs.Space.{AreGaps, IsFreeBlock, IsFreeExtent};
ghost use Rattle.fuse_data.specs.Space.{HasBlocks, HeadsGap, TakesOut, IsTail};

use crate::extent::{END, Extent};

/// Free blocks, from one up to another.
#[derive(Clone, Copy, Debug, PartialEq, Eq)]
pub struct Gap {
    pub from: usize,
    pub to: usize,
}

/// The first gap with so many blocks.
pub fn find_gap(gaps: &[Gap], count: usize) -> Option<usize>
    requires { AreGaps 1 gaps.now }
    ensures some { IfSome result (λ i. HasBlocks gaps.now i count) }
    ensures first { IfSome result (λ i. (p : AnExtent) (d : AGap) → 1 ≤ p.count → p.count ≡ count
        → IsFreeExtent gaps.now p → (slice_index_or gaps.now i d).from ≤ p.place) }
    ensures none { IfNone result ((p : AnExtent) → 1 ≤ p.count → p.count ≡ count
        → ¬ IsFreeExtent gaps.now p) }
{
    for (i, gap) in gaps.iter().enumerate() {
        if count <= gap.to && gap.from <= gap.to - count {
            return Some(i);
        }
    }
    None
}

/// Where a gap begins.
pub fn begin_of(gaps: &[Gap], i: usize) -> usize
    requires gaps { AreGaps 1 gaps.now }
    requires within { i < length gaps.now }
    ensures value { (d : AGap) → result ≡ (slice_index_or gaps.now i d).from }
    ensures low { 1 ≤ result }
    ensures high { (d : AGap) → (slice_index_or gaps.now i d).to ≤ limits.END }
{
    gaps[i].from
}

/// Takes an extent at the head of a gap.
pub fn take_head(gaps: &mut Vec<Gap>, i: usize, extent: Extent)
    requires gaps { AreGaps 1 gaps.old.items }
    requires some { 1 ≤ extent.count }
    requires head { HeadsGap gaps.old.items i extent }
    ensures taken { TakesOut extent gaps.old.items gaps.new.items }
    ensures gaps { AreGaps 1 gaps.new.items }
{
    let gap = gaps[i];
    let from = extent.place + extent.count;
    if from < gap.to {
        gaps[i] = Gap { from, to: gap.to };
    } else {
        gaps.remove(i);
    }
}

/// The first block from which on all are free.
pub fn tail_of(gaps: &[Gap]) -> usize
    requires { AreGaps 1 gaps.now }
    ensures { IsTail gaps.now result }
{
    if gaps.is_empty() {
        return END;
    }
    let last = gaps[gaps.len() - 1];
    if last.to < END {
        return END;
    }
    last.from
}

/// How many gaps end before this block.
pub fn position(gaps: &[Gap], block: usize) -> usize
    requires { AreGaps 1 gaps.now }
    ensures within { result ≤ length gaps.now }
    ensures before { (k : ℕ) (d : AGap) → k < result → (slice_index_or gaps.now k d).to < block }
    ensures at { (d : AGap) → result < length gaps.now
        → block ≤ (slice_index_or gaps.now result d).to }
{
    let mut low = 0;
    let mut high = gaps.len();
    while low < high {
        let middle = low + (high - low) / 2;
        let gap = gaps[middle];
        if gap.to < block {
            low = middle + 1;
        } else {
            high = middle;
        }
    }
    low
}
