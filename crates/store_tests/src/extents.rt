//! The data file over a disk in memory: extents that are written, given back and cut.
use fuse_data::{BLOCK, DataFault, DataFile, sum_of_bytes};
use sqlite_disk::{Crash, Disk, Memory};
use std::test::Fail;

fn made(rt: &HostRuntime) -> Result<DataFile<Memory>, Fail> {
    match DataFile::create(rt.alloc(), Memory::new(rt.alloc()), 7) {
        Ok(file) => Ok(file),
        Err((fault, _)) => Err(fault.into()),
    }
}

// As SipHash-1-3 under keys of 0 has it, by another implementation.
#[test]
fn a_digest(rt: HostRuntime) -> Result<(), Fail> {
    assert_eq!(&rt; sum_of_bytes(b"abc"), 0x7ca7_b1a5_4971_d15a);
    Ok(())
}

#[test]
fn extents_outlive_a_crash(rt: HostRuntime) -> Result<(), Fail> {
    let mut file = made(&rt)?;
    let first = file.write(&[1; 2 * BLOCK])?;
    file.sync()?;
    let lost = file.write(&[2; BLOCK])?;
    assert!(&rt; first.place == 1 && first.count == 2 && lost.place == 3);
    let mut disk = file.into_disk();
    disk.crash();
    let listed = [first];
    let Ok(mut file) = DataFile::open(rt.alloc(), disk, 7, &listed) else {
        return Err(DataFault::Foreign.into());
    };
    let mut bytes = [0; 2 * BLOCK];
    file.read(first, &mut bytes)?;
    assert!(&rt; bytes == [1; 2 * BLOCK]);
    Ok(())
}

#[test]
fn space_comes_back(rt: HostRuntime) -> Result<(), Fail> {
    let mut file = made(&rt)?;
    let first = file.write(&[1; BLOCK])?;
    let second = file.write(&[2; BLOCK])?;
    file.give_back(first)?;
    assert!(&rt; file.give_back(first).is_err());
    file.give_back(second)?;
    file.cut()?;
    let again = file.write(&[3; BLOCK])?;
    assert_eq!(&rt; again.place, 1);
    let mut bytes = [0; BLOCK];
    assert!(&rt; matches!(file.read(second, &mut bytes), Err(DataFault::Damaged(_))));
    assert!(&rt; matches!(file.read(first, &mut bytes), Err(DataFault::Damaged(_))));
    Ok(())
}

// The header stays.
#[test]
fn a_cut_goes_to_the_last_extent(rt: HostRuntime) -> Result<(), Fail> {
    let mut file = made(&rt)?;
    let first = file.write(&[1; BLOCK])?;
    let second = file.write(&[2; BLOCK])?;
    file.give_back(first)?;
    file.give_back(second)?;
    file.cut()?;
    assert_eq!(&rt; file.into_disk().len()?, BLOCK);
    Ok(())
}
