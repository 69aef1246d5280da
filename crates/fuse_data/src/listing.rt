//! The free space beside a listing.
ghost use Rattle.std.specs.Prelude.{◌≤◌, IfOk, IfErr, OnOk};
ghost use Rattle.std.specs.List.{All};
ghost use Rattle.fuse_data.specs.Extents.{AreByPlace, past};
ghost use Rattle.fuse_data.specs.Space.{AreGaps, IsSpaceOf};
ghost use Rattle.fuse_data.specs.Causes.{FailsToFit};
ghost use Rattle.fuse_data.specs.inner.Listing.{AddsGap, ClaimsAll};

use crate::extent::{END, Extent, is_placed};
use crate::fault::DataFault;
use crate::gaps::Gap;
use std::alloc::{AllocError, Global};

/// The gaps before and between the extents of a list, and the first block after them.
#[derive(Drop)]
struct Claims {
    gaps: Vec<Gap>,
    from: usize,
}

/// The gaps that the listed extents leave. The list is in order of place, and its extents lie within
/// so many blocks.
pub fn gaps_of(alloc: Global, blocks: usize, listed: &[Extent]) -> Result<Vec<Gap>, DataFault>
    ensures gaps { IfOk result (λ gaps. AreGaps 1 gaps.items) }
    ensures space { IfOk result (λ gaps. IsSpaceOf listed.now gaps.items) }
    ensures by_place { OnOk result (AreByPlace 1 listed.now) }
    ensures within { OnOk result (All (λ p. past p ≤ blocks) listed.now) }
    ensures cause { IfErr result (FailsToFit listed.now blocks) }
{
    let claims = claim_all(alloc, blocks, listed)?;
    let mut gaps = claims.gaps;
    push_gap(&mut gaps, claims.from, END)?;
    Ok(gaps)
}

fn claim_all(alloc: Global, blocks: usize, listed: &[Extent]) -> Result<Claims, DataFault>
    ensures claimed { IfOk result (λ c. ClaimsAll listed.now c.from blocks c.gaps.items) }
    ensures cause { IfErr result (FailsToFit listed.now blocks) }
{
    let mut gaps = Vec::new(alloc);
    let mut from = 1;
    for extent in listed {
        if !is_placed(*extent) {
            return Err(DataFault::Overlapping(*extent));
        }
        if extent.place < from {
            return Err(DataFault::Overlapping(*extent));
        }
        let to = extent.place + extent.count;
        if to > blocks {
            return Err(DataFault::Beyond(*extent));
        }
        push_gap(&mut gaps, from, extent.place)?;
        from = to;
    }
    Ok(Claims { gaps, from })
}

// Makes these blocks free, after all gaps.
fn push_gap(gaps: &mut Vec<Gap>, from: usize, to: usize) -> Result<(), AllocError>
    requires { from ≤ to }
    ensures { OnOk result (AddsGap from to gaps.old.items gaps.new.items) }
{
    if from < to {
        gaps.push(Gap { from, to })?;
    }
    Ok(())
}
