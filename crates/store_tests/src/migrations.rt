//! An everyday store of version 2, which its opening brings to version 3.
use crate::everyday::{InMemory, Parts, blocks, has_free, nothing, reads};
use crate::requests::{START, asked, init, mknod, open};
use crate::stores::{NO_VOLUME, number};
use fuse_init::PlainProfile;
use fuse_request::{Op, Request};
use fuse_rows::Origin;
use fuse_store::{Keeper, StoreCounts, StoreFault, StoreKeeper, StoreParts, TableKeeper};
use fuse_store_tables::number_at_rest;
use fuse_wire::{Id, Moment};
use sqlite::{Connection, MemStore};
use sqlite_disk::Memory;
use std::alloc::Global;

// What an everyday store of version 2 has beside a plain one: its profile, its capacity, and the blocks
// up to the sizes of its files.
const ROOM_OF_SECOND: &str = "INSERT INTO meta (k, v) VALUES (12, 2), (13, 100), (14, 10)";

const VERSION: &str = "SELECT v FROM meta WHERE k = 1";

// 10,000 times the number of single blocks, 100 times that of pieces, and the written blocks of all nodes.
const WRITTEN: &str = "SELECT 10000 * (SELECT count(*) FROM blocks) \
    + 100 * (SELECT count(*) FROM pieces) + (SELECT sum(written) FROM nodes)";

fn write(offset: u64, payload: &[u8]) -> Op<'_> {
    Op::Write {
        fh: 1,
        offset,
        write_flags: 0,
        lock_owner: 0,
        flags: 2,
        payload,
    }
}

fn mkdir() -> Op<'static> {
    Op::Mkdir {
        mode: 0o755,
        umask: 0o022,
        name: b"a",
    }
}

// INIT, a file that is made, opened and written, and a directory.
fn run(two: &[u8]) -> [(Request<'_>, Moment); 6] {
    [
        init(2),
        asked(4, 1, mknod()),
        asked(6, 2, open()),
        asked(8, 2, write(0, two)),
        asked(10, 2, write(36_864, b"x")),
        asked(12, 1, mkdir()),
    ]
}

// The content of the file: two blocks, a hole of seven, and a byte.
fn content(alloc: Global) -> Result<Vec<u8>, StoreFault> {
    let mut bytes = blocks(alloc, 2)?;
    bytes.resize(36_864, 0)?;
    bytes.push(b'x')?;
    Ok(bytes)
}

fn performed(
    mut keeper: TableKeeper<PlainProfile, MemStore, Memory>,
    group: &[(Request<'_>, Moment)],
) -> Result<(Connection<MemStore>, StoreCounts), StoreFault> {
    keeper.perform(group, &[])?;
    let counts = keeper.counts()?;
    Ok((keeper.into_parts().conn, counts))
}

// The database of an everyday store of version 2, and what it counts.
fn second(alloc: Global) -> Result<(Connection<MemStore>, StoreCounts), StoreFault> {
    let two = blocks(alloc, 2)?;
    let parts = StoreParts {
        conn: Connection::open_in_memory(alloc)?,
        disk: None,
    };
    let keeper = match TableKeeper::create(alloc, parts, NO_VOLUME, Origin::at(START)) {
        Ok(keeper) => keeper,
        Err((fault, _)) => return Err(fault),
    };
    let (mut conn, counts) = performed(keeper, &run(two.as_slice()))?;
    conn.execute(ROOM_OF_SECOND, &[])?;
    Ok((conn, counts))
}

// The fault of an opening, and the version that the store still has.
fn refused(
    alloc: Global,
    parts: Parts,
    number_of: Option<u64>,
) -> Result<(bool, i64, Parts), StoreFault> {
    match StoreKeeper::open(alloc, parts, number_of) {
        Ok(_) => Err(StoreFault::Damaged),
        Err((fault, mut parts)) => {
            let is_sql = matches!(fault, StoreFault::Sql(_));
            let version = number(&mut parts.conn, VERSION)?;
            Ok((is_sql, version, parts))
        }
    }
}

// Without a number it isn't migrated, nor without a data file.
#[test]
fn what_a_migration_needs(rt: HostRuntime) -> Result<(), StoreFault> {
    let alloc = rt.alloc();
    let (conn, _) = second(alloc)?;
    let disk = nothing(alloc)?.disk;
    let (is_sql, version, parts) = refused(alloc, StoreParts { conn, disk }, None)?;
    assert_eq!(rt; (is_sql, version), (true, 2));
    let StoreParts { conn, disk } = parts;
    let (is_sql, version, parts) = refused(alloc, StoreParts { conn, disk: None }, Some(9))?;
    assert_eq!(rt; (is_sql, version), (true, 2));
    let conn = parts.conn;
    assert!(rt; StoreKeeper::open(alloc, StoreParts { conn, disk }, Some(9)).is_ok());
    Ok(())
}

fn migrated(alloc: Global, conn: Connection<MemStore>) -> Result<InMemory, StoreFault> {
    let disk = nothing(alloc)?.disk;
    match StoreKeeper::open(alloc, StoreParts { conn, disk }, Some(9)) {
        Ok(StoreKeeper::Everyday(keeper)) => Ok(keeper),
        Ok(StoreKeeper::Plain(_)) => Err(StoreFault::NotAStore),
        Err((fault, _)) => Err(fault),
    }
}

// Whether a store has these counts, and the record of the last message.
fn remembers(keeper: &mut InMemory, wanted: StoreCounts) -> bool {
    let counted = matches!(keeper.counts(), Ok(counts) if counts == wanted);
    let answered = matches!(keeper.answer_of(Id(12)), Ok(Some(_)));
    let agreed = matches!(keeper.settings(), Ok(Some(_)));
    counted && answered && agreed
}

// The content, the records and the counts stay; the blocks in use are those that are written.
#[test]
fn a_store_of_version_two(rt: HostRuntime) -> Result<(), StoreFault> {
    let alloc = rt.alloc();
    let wanted = content(alloc)?;
    let (conn, counts) = second(alloc)?;
    let mut keeper = migrated(alloc, conn)?;
    assert!(rt; remembers(&mut keeper, counts));
    assert!(rt; reads(&mut keeper, 20, 40_960, wanted.as_slice())?);
    assert!(rt; has_free(&mut keeper, 22, 97)?);
    let mut conn = keeper.into_parts().conn;
    assert_eq!(rt; number(&mut conn, VERSION)?, 3);
    assert_eq!(rt; number(&mut conn, WRITTEN)?, 30_003);
    assert_eq!(rt; number_at_rest(&mut conn)?, 9);
    Ok(())
}
