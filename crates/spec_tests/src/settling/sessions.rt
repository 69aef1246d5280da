//! Sessions with INIT under id 2 and MKNODs under the even ids after it.
use super::*;

// INIT and 40 MKNODs, under the ids 2 to 82.
const MKNODS: u64 = 40;

fn input_of(alloc: Global) -> Result<Vec<u8>, AllocError> {
    let mut input = hex(alloc, INIT_AGREED)?;
    put_mknods(&mut input, 4, MKNODS, 0)?;
    Ok(input)
}

// So many MKNODs under the even ids from this one on, each with these bits.
fn put_mknods(out: &mut Vec<u8>, first: u64, count: u64, bits: u64) -> Result<(), AllocError> {
    let mut id = first;
    for _ in 0..count {
        put_mknod(out, bits | id)?;
        id = id.saturating_add(2);
    }
    Ok(())
}

// Case settled-counts. The settled ids of each group are those of the one before.
const CONFIRMED: [Asked; 3] = [
    ((2, 32), None),
    ((34, 64), Some((2, 32))),
    ((66, 82), Some((34, 64))),
];

const UNCONFIRMED: [Asked; 3] = [((2, 32), None), ((34, 64), None), ((66, 82), None)];

fn settles(
    alloc: Global,
    confirms: bool,
    calls: &[Asked],
    records: u64,
) -> Result<bool, StoreFault> {
    let mut keeper = new_counted(alloc)?;
    let input = input_of(alloc)?;
    let ends = serves(alloc, &mut keeper, input, plain(alloc, confirms), false);
    Ok(ends && has_calls(keeper.log(), calls) && has_records(&mut keeper, records))
}

#[test]
fn settled_counts(rt: HostRuntime) -> Result<(), StoreFault> {
    assert!(rt; settles(rt.alloc(), true, &CONFIRMED, 9)?);
    assert!(rt; settles(rt.alloc(), false, &UNCONFIRMED, 41)?);
    Ok(())
}

// Case settled-after-fault. The first answer of the second group fails. In the next session its 16
// requests come again, and then one more.
const BROKEN: [Asked; 2] = [((2, 32), None), ((34, 64), Some((2, 32)))];

const RESENT: [Asked; 4] = [
    ((2, 32), None),
    ((34, 64), Some((2, 32))),
    ((34, 64), None),
    ((84, 84), Some((34, 64))),
];

// Sixteen answers are taken, and then one fails.
fn failing(alloc: Global) -> Result<Peer, AllocError> {
    let mut outcomes = Vec::new(alloc);
    for _ in 0..16 {
        outcomes.push(Outcome::Take(usize::MAX))?;
    }
    outcomes.push(Outcome::Failed)?;
    Ok((Vec::new(alloc), outcomes, true))
}

fn breaks(alloc: Global, keeper: &mut Counted) -> Result<bool, StoreFault> {
    let input = input_of(alloc)?;
    let peer = failing(alloc)?;
    let ends = serves(alloc, keeper, input, peer, true);
    Ok(ends && has_calls(keeper.log(), &BROKEN) && has_records(keeper, 16))
}

fn resends(alloc: Global, keeper: &mut Counted) -> Result<bool, StoreFault> {
    let mut input = Vec::new(alloc);
    put_mknods(&mut input, 34, 16, UNIQUE_RESEND)?;
    put_mknods(&mut input, 84, 1, 0)?;
    let ends = serves(alloc, keeper, input, plain(alloc, true), false);
    Ok(ends && has_calls(keeper.log(), &RESENT) && has_records(keeper, 1))
}

fn breaks_and_resends(alloc: Global) -> Result<[bool; 2], StoreFault> {
    let mut keeper = new_counted(alloc)?;
    let broken = breaks(alloc, &mut keeper)?;
    let mut opened = keeper.restart().map_err(|refused| refused.0)?;
    Ok([broken, resends(alloc, &mut opened)?])
}

#[test]
fn settled_after_fault(rt: HostRuntime) -> Result<(), StoreFault> {
    assert_eq!(rt; breaks_and_resends(rt.alloc())?, [true; 2]);
    Ok(())
}

// Each message in a group of its own, over a port that doesn't confirm. Nobody waits for the second
// answer, so that its id alone is settled, with the next group.
const ONE_IS_GONE: [Asked; 4] = [
    ((4, 4), None),
    ((6, 6), None),
    ((8, 8), Some((6, 6))),
    ((10, 10), None),
];

const MKNOD_LEN: usize = 59;

fn with_one_gone(alloc: Global) -> Result<Peer, AllocError> {
    let mut arrivals = Vec::new(alloc);
    for _ in 0..4 {
        arrivals.push(Arrival::Piece(MKNOD_LEN))?;
    }
    let mut outcomes = Vec::new(alloc);
    outcomes.push(Outcome::Take(usize::MAX))?;
    outcomes.push(Outcome::Gone)?;
    Ok((arrivals, outcomes, false))
}

fn settles_gone(alloc: Global) -> Result<bool, StoreFault> {
    let mut keeper = new_counted(alloc)?;
    let mut input = Vec::new(alloc);
    put_mknods(&mut input, 4, 4, 0)?;
    let peer = with_one_gone(alloc)?;
    let ends = serves(alloc, &mut keeper, input, peer, false);
    Ok(ends && has_calls(keeper.log(), &ONE_IS_GONE) && has_records(&mut keeper, 3))
}

#[test]
fn gone_is_settled(rt: HostRuntime) -> Result<(), StoreFault> {
    assert!(rt; settles_gone(rt.alloc())?);
    Ok(())
}
