//! An extent that becomes free, among the gaps.
ghost use Rattle.std.specs.Prelude.{◌≡◌, ◌+◌, ◌<◌, ◌≤◌};
ghost use Rattle.std.specs.Prelude.{IfSome, OnOk, OnErr, length, slice_index_or};
ghost use Rattle.std.specs.Option.{IfNone};
ghost use Rattle.fuse_data.specs.Extents.{IsPlaced};
ghost use Rattle.fuse_data.specs.Space.{AreGaps, InUse};
ghost use Rattle.fuse_data.specs.inner.Filling.{Fills, filled};

use crate::extent::Extent;
use crate::gaps::{Gap, position};
use std::alloc::AllocError;

/// A gap in place of those from `at` up to `after`.
#[derive(Clone, Copy)]
pub struct Filling {
    pub at: usize,
    pub after: usize,
    pub gap: Gap,
}

/// The gap that an extent makes with the gaps that it touches. There is none where one of its blocks
/// is free.
pub fn fill(gaps: &[Gap], extent: Extent) -> Option<Filling>
    requires gaps { AreGaps 1 gaps.now }
    requires placed { IsPlaced extent }
    ensures some { IfSome result (λ f. Fills extent gaps.now f) }
    ensures none { IfNone result (¬ InUse gaps.now extent) }
{
    let from = extent.place;
    let to = extent.place + extent.count;
    let at = position(gaps, from);
    if at == gaps.len() {
        return Some(Filling {
            at,
            after: at,
            gap: Gap { from, to },
        });
    }
    let next = gaps[at];
    if next.to == from {
        return fill_behind(gaps, extent, at, next);
    }
    if next.from < to {
        return None;
    }
    if next.from > to {
        return Some(Filling {
            at,
            after: at,
            gap: Gap { from, to },
        });
    }
    Some(Filling {
        at,
        after: at + 1,
        gap: Gap { from, to: next.to },
    })
}

// The same, where the gap `at`, `before`, ends at the extent.
fn fill_behind(gaps: &[Gap], extent: Extent, at: usize, before: Gap) -> Option<Filling>
    requires gaps { AreGaps 1 gaps.now }
    requires placed { IsPlaced extent }
    requires within { at < length gaps.now }
    requires before { before ≡ slice_index_or gaps.now at before }
    requires ends { before.to ≡ extent.place }
    ensures some { IfSome result (λ f. Fills extent gaps.now f) }
    ensures none { IfNone result (¬ InUse gaps.now extent) }
{
    let from = before.from;
    let to = extent.place + extent.count;
    if at + 1 == gaps.len() {
        return Some(Filling {
            at,
            after: at + 1,
            gap: Gap { from, to },
        });
    }
    let next = gaps[at + 1];
    if next.from < to {
        return None;
    }
    if next.from > to {
        return Some(Filling {
            at,
            after: at + 1,
            gap: Gap { from, to },
        });
    }
    Some(Filling {
        at,
        after: at + 2,
        gap: Gap { from, to: next.to },
    })
}

/// Puts the gap in. An `Err` leaves `gaps` unchanged.
pub fn replace(gaps: &mut Vec<Gap>, filling: Filling) -> Result<(), AllocError>
    requires low { filling.at ≤ filling.after }
    requires few { filling.after ≤ filling.at + 2 }
    requires within { filling.after ≤ length gaps.old.items }
    ensures ok { OnOk result (gaps.new.items ≡ filled gaps.old.items filling) }
    ensures err { OnErr result (gaps.new.items ≡ gaps.old.items) }
{
    if filling.after == filling.at {
        gaps.insert(filling.at, filling.gap)?;
        return Ok(());
    }
    gaps[filling.at] = filling.gap;
    if filling.after == filling.at + 2 {
        gaps.remove(filling.at + 1);
    }
    Ok(())
}
