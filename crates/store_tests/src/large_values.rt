//! Large values of guests in a data file in memory: written, read, given back, and as rows list them.
use fuse_data::{BLOCK, DataFault, DataFile};
use guest_values::{LargeValue, ValueFile, add_pieces, order_pieces, rest_of, value_of};
use sqlite_disk::{Crash, Memory};
use std::test::Fail;

fn made(rt: &HostRuntime) -> Result<ValueFile<Memory>, Fail> {
    match DataFile::create(rt.alloc(), Memory::new(rt.alloc()), 7) {
        Ok(file) => Ok(ValueFile::new(rt.alloc(), file)),
        Err((fault, _)) => Err(fault.into()),
    }
}

fn ones(rt: &HostRuntime, len: usize) -> Result<Vec<u8>, Fail> {
    let mut bytes = Vec::new(rt.alloc());
    bytes.resize(len, 1)?;
    Ok(bytes)
}

fn second_count(value: LargeValue) -> usize {
    match value.second {
        Some(second) => second.count,
        None => 0,
    }
}

// By the blocks of 4,096 bytes that the lengths need.
#[test]
fn a_value_has_as_many_blocks_as_it_needs(rt: HostRuntime) -> Result<(), Fail> {
    let mut file = made(&rt)?;
    let lens: [usize; 6] = [4096, 4097, 5000, 131_072, 131_073, 262_144];
    let first: [usize; 6] = [1, 2, 2, 32, 32, 32];
    let second: [usize; 6] = [0, 0, 0, 0, 1, 32];
    for i in 0..6 {
        let bytes = ones(&rt, lens[i])?;
        let value = file.put(rt.alloc(), bytes.as_slice())?;
        assert!(&rt; value.len == lens[i] && value.first.count == first[i]);
        assert_eq!(&rt; second_count(value), second[i]);
        let read = file.read(rt.alloc(), value)?;
        assert!(&rt; read.as_slice() == bytes.as_slice());
    }
    Ok(())
}

// The digest is that of 5,000 ones and 3,192 zeros by another implementation of SipHash-1-3.
#[test]
fn a_value_ends_with_zeros(rt: HostRuntime) -> Result<(), Fail> {
    let mut file = made(&rt)?;
    let bytes = ones(&rt, 5000)?;
    let value = file.put(rt.alloc(), bytes.as_slice())?;
    assert!(&rt; value.first.place == 1 && value.second.is_none());
    assert_eq!(&rt; value.first.sum, 0xab49_6606_9ad8_5063);
    Ok(())
}

#[test]
fn committed_values_outlive_a_crash(rt: HostRuntime) -> Result<(), Fail> {
    let mut file = made(&rt)?;
    let bytes = ones(&rt, 200_000)?;
    let value = file.put(rt.alloc(), bytes.as_slice())?;
    file.sync()?;
    assert!(&rt; file.settle());
    file.take_away(value)?;
    file.put(rt.alloc(), bytes.as_slice())?;
    let mut disk = file.into_file().into_disk();
    disk.crash();
    let mut pieces = Vec::new(rt.alloc());
    add_pieces(&mut pieces, value)?;
    order_pieces(&mut pieces);
    let Ok(opened) = DataFile::open(rt.alloc(), disk, 7, pieces.as_slice()) else {
        return Err(DataFault::Foreign.into());
    };
    let mut file = ValueFile::new(rt.alloc(), opened);
    let read = file.read(rt.alloc(), value)?;
    assert!(&rt; read.as_slice() == bytes.as_slice());
    Ok(())
}

#[test]
fn blocks_are_free_after_the_commit(rt: HostRuntime) -> Result<(), Fail> {
    let mut file = made(&rt)?;
    let bytes = ones(&rt, 4096)?;
    let first = file.put(rt.alloc(), bytes.as_slice())?;
    file.sync()?;
    assert!(&rt; file.settle());
    file.take_away(first)?;
    let second = file.put(rt.alloc(), bytes.as_slice())?;
    assert!(&rt; first.first.place == 1 && second.first.place == 2);
    file.sync()?;
    assert!(&rt; file.settle());
    let third = file.put(rt.alloc(), bytes.as_slice())?;
    assert_eq!(&rt; third.first.place, 1);
    assert!(&rt; file.take_back());
    let fourth = file.put(rt.alloc(), bytes.as_slice())?;
    assert_eq!(&rt; fourth.first.place, 1);
    Ok(())
}

#[test]
fn space_is_found_anew(rt: HostRuntime) -> Result<(), Fail> {
    let mut file = made(&rt)?;
    let bytes = ones(&rt, 4096)?;
    file.put(rt.alloc(), bytes.as_slice())?;
    let kept = file.put(rt.alloc(), bytes.as_slice())?;
    file.put(rt.alloc(), bytes.as_slice())?;
    file.sync()?;
    assert!(&rt; file.settle());
    file.find_space(rt.alloc(), &[kept.first])?;
    let disk = file.into_file().into_disk();
    assert_eq!(&rt; disk.bytes().len(), 3 * BLOCK);
    Ok(())
}

#[test]
fn another_digest_is_damaged(rt: HostRuntime) -> Result<(), Fail> {
    let mut file = made(&rt)?;
    let bytes = ones(&rt, 4096)?;
    let mut value = file.put(rt.alloc(), bytes.as_slice())?;
    value.first.sum ^= 1;
    assert!(&rt; matches!(file.read(rt.alloc(), value), Err(DataFault::Damaged(_))));
    Ok(())
}

// Eight bytes each, the lowest first.
#[test]
fn a_row_lists_a_value(rt: HostRuntime) -> Result<(), Fail> {
    let mut file = made(&rt)?;
    let bytes = ones(&rt, 131_073)?;
    let value = file.put(rt.alloc(), bytes.as_slice())?;
    let rest = rest_of(rt.alloc(), value)?;
    let sum = value.first.sum;
    assert!(&rt; rest.len() == 16 && rest[0] == 33 && rest[1] == 0 && rest[7] == 0);
    assert!(&rt; value_of(1, 131_073, sum, rest.as_slice()) == Some(value));
    assert!(&rt; value_of(1, 131_073, sum, &[]).is_none());
    assert!(&rt; value_of(1, 131_072, sum, rest.as_slice()).is_none());
    assert!(&rt; value_of(0, 131_073, sum, rest.as_slice()).is_none());
    assert!(&rt; value_of(1, 4095, sum, &[]).is_none());
    Ok(())
}
