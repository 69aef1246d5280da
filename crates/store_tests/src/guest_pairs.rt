// The statements over pairs, each on its happy path, over tables in memory.
use fuse_keeper::StoreFault;
use guest_frames::Scan;
use guest_tables::{PairPage, clear_pairs, delete_pair, put_pair, scan_pairs, select_pair};
use sqlite::{Alter, Connection};
use std::alloc::Global;

const PAIRS: &str = "CREATE TABLE pairs (key BLOB NOT NULL, value BLOB NOT NULL, \
    place INTEGER NOT NULL, len INTEGER NOT NULL, sum INTEGER NOT NULL, PRIMARY KEY (key)) STRICT";

// Five pairs, one of which was put twice, and one deleted.
fn fill<S: Alter>(conn: &mut Connection<S>) -> Result<(), StoreFault> {
    conn.execute(PAIRS, &[])?;
    put_pair(conn, b"b", b"2")?;
    put_pair(conn, b"a", b"1")?;
    put_pair(conn, b"ab", b"")?;
    put_pair(conn, b"c", b"3")?;
    put_pair(conn, b"\xff", b"4")?;
    put_pair(conn, b"b", b"22")?;
    delete_pair(conn, b"c")?;
    delete_pair(conn, b"missing")?;
    Ok(())
}

fn value_is<S: Alter>(
    conn: &mut Connection<S>,
    key: &[u8],
    value: &[u8],
) -> Result<bool, StoreFault> {
    match select_pair(conn, key)? {
        Some(found) => Ok(found.as_slice() == value),
        None => Ok(false),
    }
}

fn is_missing<S: Alter>(conn: &mut Connection<S>, key: &[u8]) -> Result<bool, StoreFault> {
    Ok(select_pair(conn, key)?.is_none())
}

// The keys of a page, each with a comma after it.
fn keys_of(alloc: Global, page: &PairPage) -> Result<Vec<u8>, StoreFault> {
    let mut keys = Vec::new(alloc);
    for pair in &page.pairs {
        keys.extend_from_slice(pair.key.as_slice())?;
        keys.push(b',')?;
    }
    Ok(keys)
}

fn scans<S: Alter>(
    conn: &mut Connection<S>,
    alloc: Global,
    scan: Scan<'_>,
    keys: &[u8],
    more: bool,
) -> Result<bool, StoreFault> {
    let page = scan_pairs(conn, alloc, &scan)?;
    let found = keys_of(alloc, &page)?;
    Ok(found.as_slice() == keys && page.more == more)
}

fn whole<'a>(limit: u32, keys_alone: bool, downwards: bool) -> Scan<'a> {
    Scan {
        limit,
        keys_alone,
        downwards,
        from: b"",
        to: b"",
    }
}

fn between<'a>(from: &'a [u8], to: &'a [u8], downwards: bool) -> Scan<'a> {
    Scan {
        limit: 0,
        keys_alone: false,
        downwards,
        from,
        to,
    }
}

#[test]
fn pairs_are_put_and_deleted(rt: HostRuntime) -> Result<(), StoreFault> {
    let mut conn = Connection::open_in_memory(rt.alloc())?;
    fill(&mut conn)?;
    assert!(rt; value_is(&mut conn, b"b", b"22")?);
    assert!(rt; value_is(&mut conn, b"ab", b"")?);
    assert!(rt; is_missing(&mut conn, b"c")?);
    Ok(())
}

#[test]
fn ranges_are_cleared(rt: HostRuntime) -> Result<(), StoreFault> {
    let mut conn = Connection::open_in_memory(rt.alloc())?;
    fill(&mut conn)?;
    clear_pairs(&mut conn, b"ab", b"b")?;
    assert!(rt; is_missing(&mut conn, b"ab")?);
    assert!(rt; value_is(&mut conn, b"b", b"22")?);
    clear_pairs(&mut conn, b"b", b"")?;
    assert!(rt; is_missing(&mut conn, b"\xff")?);
    assert!(rt; value_is(&mut conn, b"a", b"1")?);
    Ok(())
}

#[test]
fn pairs_are_scanned(rt: HostRuntime) -> Result<(), StoreFault> {
    let alloc = rt.alloc();
    let mut conn = Connection::open_in_memory(alloc)?;
    fill(&mut conn)?;
    assert!(rt;
        scans(
            &mut conn,
            alloc,
            whole(0, true, false),
            b"a,ab,b,\xff,",
            false
        )?
    );
    assert!(rt;
        scans(
            &mut conn,
            alloc,
            whole(0, false, false),
            b"a,ab,b,\xff,",
            false
        )?
    );
    assert!(rt;
        scans(
            &mut conn,
            alloc,
            whole(0, false, true),
            b"\xff,b,ab,a,",
            false
        )?
    );
    assert!(rt; scans(&mut conn, alloc, whole(2, true, true), b"\xff,b,", true)?);
    assert!(rt;
        scans(
            &mut conn,
            alloc,
            between(b"ab", b"c", false),
            b"ab,b,",
            false
        )?
    );
    assert!(rt; scans(&mut conn, alloc, between(b"a", b"b", true), b"ab,a,", false)?);
    Ok(())
}

// 200 pairs, and a limit on the rows that each statement may visit from now on.
fn filled<S: Alter>(conn: &mut Connection<S>) -> Result<(), StoreFault> {
    conn.execute(PAIRS, &[])?;
    for n in 0..200u8 {
        put_pair(conn, &[n], b"v")?;
    }
    conn.set_step_limit(Some(40));
    Ok(())
}

#[test]
fn put_is_searched(rt: HostRuntime) -> Result<(), StoreFault> {
    let alloc = rt.alloc();
    let mut conn = Connection::open_in_memory(alloc)?;
    filled(&mut conn)?;
    put_pair(&mut conn, &[100], b"w")?;
    Ok(())
}

#[test]
fn value_is_searched(rt: HostRuntime) -> Result<(), StoreFault> {
    let alloc = rt.alloc();
    let mut conn = Connection::open_in_memory(alloc)?;
    filled(&mut conn)?;
    assert!(rt; value_is(&mut conn, &[100], b"v")?);
    Ok(())
}

#[test]
fn delete_is_searched(rt: HostRuntime) -> Result<(), StoreFault> {
    let alloc = rt.alloc();
    let mut conn = Connection::open_in_memory(alloc)?;
    filled(&mut conn)?;
    delete_pair(&mut conn, &[101])?;
    Ok(())
}

#[test]
fn clear_is_searched(rt: HostRuntime) -> Result<(), StoreFault> {
    let alloc = rt.alloc();
    let mut conn = Connection::open_in_memory(alloc)?;
    filled(&mut conn)?;
    clear_pairs(&mut conn, &[110], &[112])?;
    Ok(())
}

#[test]
fn clear_from_is_searched(rt: HostRuntime) -> Result<(), StoreFault> {
    let alloc = rt.alloc();
    let mut conn = Connection::open_in_memory(alloc)?;
    filled(&mut conn)?;
    clear_pairs(&mut conn, &[198], b"")?;
    Ok(())
}

#[test]
fn scan_is_searched(rt: HostRuntime) -> Result<(), StoreFault> {
    let alloc = rt.alloc();
    let mut conn = Connection::open_in_memory(alloc)?;
    filled(&mut conn)?;
    assert!(rt;
        scans(
            &mut conn,
            alloc,
            between(b"0", b"3", false),
            b"0,1,2,",
            false
        )?
    );
    Ok(())
}

#[test]
fn scan_down_is_searched(rt: HostRuntime) -> Result<(), StoreFault> {
    let alloc = rt.alloc();
    let mut conn = Connection::open_in_memory(alloc)?;
    filled(&mut conn)?;
    assert!(rt;
        scans(
            &mut conn,
            alloc,
            between(b"0", b"3", true),
            b"2,1,0,",
            false
        )?
    );
    Ok(())
}

#[test]
fn from_up_is_searched(rt: HostRuntime) -> Result<(), StoreFault> {
    let alloc = rt.alloc();
    let mut conn = Connection::open_in_memory(alloc)?;
    filled(&mut conn)?;
    assert!(rt; scans(&mut conn, alloc, whole(1, false, false), b"\0,", true)?);
    Ok(())
}

#[test]
fn from_down_is_searched(rt: HostRuntime) -> Result<(), StoreFault> {
    let alloc = rt.alloc();
    let mut conn = Connection::open_in_memory(alloc)?;
    filled(&mut conn)?;
    assert!(rt; scans(&mut conn, alloc, whole(1, false, true), b"\xc7,", true)?);
    Ok(())
}
