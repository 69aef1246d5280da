//! The data file beside a store, on a disk.
use fuse_data_host::{DataFrom, DataStart, OpenFault, open, open_or_make, open_to_read};
use sqlite_disk::{Disk, Start};
use std::fs;
use std::os::unix::fs::{MetadataExt, PermissionsExt, symlink};
use std::test::Fail;

const FOLDER: &str = "data_files";

const STORE: &str = "data_files/a.store";

const DATA: &str = "data_files/a.store-data";

const LINK: &str = "data_files/link";

fn is_missing<S: Start>(opened: Result<DataFrom<S>, OpenFault>) -> bool {
    matches!(opened, Err(OpenFault::Missing))
}

fn is_unsuited<S: Start>(opened: Result<DataFrom<S>, OpenFault>) -> bool {
    matches!(opened, Err(OpenFault::Unsuited))
}

fn make_store(rt: &HostRuntime) -> Result<(), Fail> {
    let _ = fs::remove_dir_all(rt, FOLDER);
    fs::create_dir(rt, FOLDER)?;
    fs::write(rt, STORE, b"".as_slice())?;
    fs::set_permissions(rt, STORE, fs::Permissions::from_mode(0o640))?;
    Ok(())
}

// What the calls answer, and what the file has afterwards.
#[test]
fn calls_reach_the_file(rt: HostRuntime) -> Result<(), Fail> {
    make_store(&rt)?;
    let mut file = open_or_make(&rt, STORE, DataStart)?;
    file.write_at(3, b"abc")?;
    file.sync()?;
    assert_eq!(&rt; file.len()?, 6);
    let mut back = [0; 4];
    file.read_at(2, &mut back)?;
    assert_eq!(&rt; back, *b"\0abc");
    file.set_len(5)?;
    assert_eq!(&rt; fs::read(&rt, DATA)?.as_slice(), b"\0\0\0ab".as_slice());
    drop(file);
    let mut file = open_to_read(&rt, STORE, DataStart)?;
    assert!(&rt; file.write_at(0, b"abc").is_err() && file.set_len(0).is_err());
    assert_eq!(&rt; file.len()?, 5);
    drop(file);
    let mut file = open(&rt, STORE, DataStart)?;
    file.write_at(0, b"c")?;
    assert_eq!(&rt; fs::read(&rt, DATA)?.as_slice(), b"c\0\0ab".as_slice());
    Ok(())
}

// One that is made has the store's mode; a link to the store leads to the file beside its target.
#[test]
fn a_missing_file_is_made_where_asked(rt: HostRuntime) -> Result<(), Fail> {
    make_store(&rt)?;
    assert!(&rt; is_missing(open(&rt, STORE, DataStart)));
    assert!(&rt; !fs::exists(&rt, DATA)?);
    symlink(&rt, "a.store", LINK)?;
    drop(open_or_make(&rt, LINK, DataStart)?);
    assert_eq!(&rt; fs::metadata(&rt, DATA)?.mode() & 0o777, 0o640);
    Ok(())
}

// A link, a folder and a file with a second name are refused, and stay.
#[test]
fn other_files_are_refused(rt: HostRuntime) -> Result<(), Fail> {
    make_store(&rt)?;
    fs::write(&rt, LINK, b"kept".as_slice())?;
    symlink(&rt, "link", DATA)?;
    assert!(&rt; is_unsuited(open_or_make(&rt, STORE, DataStart)));
    fs::remove_file(&rt, DATA)?;
    fs::hard_link(&rt, LINK, DATA)?;
    assert!(&rt; is_unsuited(open(&rt, STORE, DataStart)));
    fs::remove_file(&rt, DATA)?;
    fs::create_dir(&rt, DATA)?;
    assert!(&rt; is_unsuited(open_or_make(&rt, STORE, DataStart)));
    assert_eq!(&rt; fs::read(&rt, LINK)?.as_slice(), b"kept".as_slice());
    Ok(())
}
