//! Contents in the data file: pieces, and what is left of them after a restart, a crash, a cut and a
//! removal.
use crate::everyday::{
    Everyday, InMemory, Parts, ROOM, blocks, created, has_free, nothing, open_file, reads, sizes,
    writes,
};
use crate::requests::{START, asked, release};
use crate::stores::number;
use fuse_data::BLOCK;
use fuse_init::{EverydayProfile, Profile};
use fuse_request::Op;
use fuse_rows::{Origin, Owner};
use fuse_store::{
    Keeper, Restart, StoreFault, StoreKeeper, StoreKind, StoreParts, TableKeeper, open_fresh,
    open_or_create,
};
use fuse_store_files::{CrashKeeper, CrashMemory};
use fuse_store_tables::{Volume, number_at_rest};
use fuse_store_tree::listed_extents;
use sqlite::{Alter, Connection, FileStore, Files, Options};
use sqlite_disk::{Disk, Memory};
use std::alloc::Global;

// 10,000 times the number of rows of single blocks, 100 times that of pieces, and the blocks of these.
const SHAPE: &str = "SELECT 10000 * (SELECT count(*) FROM blocks) \
    + 100 * (SELECT count(*) FROM pieces) + (SELECT coalesce(sum(count), 0) FROM pieces)";

// A new store, where a file is open.
fn opened(alloc: Global) -> Result<InMemory, StoreFault> {
    let mut keeper = created(alloc, nothing(alloc)?)?;
    if !open_file(&mut keeper)? {
        return Err(StoreFault::Damaged);
    }
    Ok(keeper)
}

fn restarted<K: Restart>(keeper: K) -> Result<K, StoreFault> {
    match keeper.restart() {
        Ok(opened) => Ok(opened),
        Err((fault, _)) => Err(fault),
    }
}

// What a WRITE of so many blocks from this byte on leaves in the tables.
fn shape_after(alloc: Global, offset: u64, count: u8) -> Result<i64, StoreFault> {
    let mut keeper = opened(alloc)?;
    let payload = blocks(alloc, count)?;
    if !writes(&mut keeper, 8, offset, payload.as_slice())? {
        return Err(StoreFault::Damaged);
    }
    let mut parts = keeper.into_parts();
    Ok(number(&mut parts.conn, SHAPE)?)
}

// WRITE of 16 blocks or more makes pieces of at most 32; the blocks at its ends are single ones.
#[test]
fn a_large_write_makes_a_piece(rt: HostRuntime) -> Result<(), StoreFault> {
    let alloc = rt.alloc();
    assert_eq!(rt; shape_after(alloc, 0, 15)?, 150_000);
    assert_eq!(rt; shape_after(alloc, 0, 16)?, 116);
    assert_eq!(rt; shape_after(alloc, 8192, 32)?, 132);
    assert_eq!(rt; shape_after(alloc, 100, 20)?, 20_119);
    Ok(())
}

#[test]
fn pieces_outlive_a_restart(rt: HostRuntime) -> Result<(), StoreFault> {
    let payload = blocks(rt.alloc(), 20)?;
    let mut keeper = opened(rt.alloc())?;
    let written = writes(&mut keeper, 8, 0, payload.as_slice())?;
    let read = reads(&mut keeper, 10, 81_920, payload.as_slice())?;
    let mut keeper = restarted(keeper)?;
    let read_again = reads(&mut keeper, 12, 81_920, payload.as_slice())?;
    let free = has_free(&mut keeper, 14, 80)?;
    assert_eq!(rt; [written, read, read_again, free], [true; 4]);
    Ok(())
}

type OnFiles = Everyday<FileStore<CrashMemory>, CrashMemory>;

// A new store over files that crash.
fn on_files(alloc: Global, options: Options) -> Result<OnFiles, StoreFault> {
    let files = Files {
        log: CrashMemory::new(alloc),
        db: CrashMemory::new(alloc),
    };
    let conn = match Connection::open_files(alloc, files, options) {
        Ok(conn) => conn,
        Err((error, _)) => return Err(StoreFault::from(error)),
    };
    let disk = Some(CrashMemory::new(alloc));
    created(alloc, StoreParts { conn, disk })
}

#[test]
fn pieces_outlive_a_crash(rt: HostRuntime) -> Result<(), StoreFault> {
    let (alloc, options) = (rt.alloc(), Options::new(7));
    let payload = blocks(alloc, 20)?;
    let mut keeper = on_files(alloc, options)?;
    let made = open_file(&mut keeper)?;
    let written = writes(&mut keeper, 8, 0, payload.as_slice())?;
    let crashed = restarted(CrashKeeper::new(alloc, keeper, options))?;
    let mut keeper = crashed.into_inner();
    let kept = matches!(keeper.counts(), Ok(counts) if counts.nodes == 2);
    let read = reads(&mut keeper, 10, 81_920, payload.as_slice())?;
    let free = has_free(&mut keeper, 12, 80)?;
    assert_eq!(rt; [made, written, kept, read, free], [true; 5]);
    Ok(())
}

// Ten blocks and 100 bytes of a piece of 20, and what a size that grows then adds: zeros.
#[test]
fn a_cut_within_a_piece(rt: HostRuntime) -> Result<(), StoreFault> {
    let mut wanted = blocks(rt.alloc(), 20)?;
    let mut keeper = opened(rt.alloc())?;
    let written = writes(&mut keeper, 8, 0, wanted.as_slice())?;
    let cut = sizes(&mut keeper, 10, 41_060)?;
    wanted.resize(41_060, 0)?;
    let read = reads(&mut keeper, 12, 81_920, wanted.as_slice())?;
    let free = has_free(&mut keeper, 14, 89)?;
    let grown = sizes(&mut keeper, 16, 49_152)?;
    wanted.resize(49_152, 0)?;
    let mut keeper = restarted(keeper)?;
    let read_again = reads(&mut keeper, 18, 81_920, wanted.as_slice())?;
    let free_again = has_free(&mut keeper, 20, 89)?;
    assert_eq!(rt;
        [written, cut, read, free, grown, read_again, free_again],
        [true; 7]
    );
    Ok(())
}

// The file is closed and removed.
fn removes(keeper: &mut InMemory) -> Result<bool, StoreFault> {
    let group = [
        asked(20, 2, release()),
        asked(22, 1, Op::Unlink { name: b"f" }),
    ];
    let dones = keeper.perform(&group, &[])?;
    Ok(dones.as_slice().iter().all(|done| done.answer.errno.0 == 0))
}

// The number of listed extents, and of the bytes of the data file.
fn found_in(alloc: Global, keeper: InMemory) -> Result<(usize, usize), StoreFault> {
    let StoreParts { mut conn, disk } = keeper.into_parts();
    let extents = listed_extents(&mut conn, alloc)?;
    let bytes = match disk {
        Some(disk) => disk.bytes().len(),
        None => 0,
    };
    Ok((extents.len(), bytes))
}

// Its blocks are free at once, and nothing is listed after a restart.
#[test]
fn a_removal_gives_back(rt: HostRuntime) -> Result<(), StoreFault> {
    let payload = blocks(rt.alloc(), 20)?;
    let mut keeper = opened(rt.alloc())?;
    let written = writes(&mut keeper, 8, 0, payload.as_slice())?;
    let full = has_free(&mut keeper, 10, 80)?;
    let removed = removes(&mut keeper)?;
    let mut keeper = restarted(keeper)?;
    assert_eq!(rt; [written, full, removed], [true; 3]);
    let counted = matches!(keeper.room(), Ok(Some(room)) if room.used == 0);
    assert!(rt; counted);
    assert_eq!(rt; found_in(rt.alloc(), keeper)?.0, 0);
    Ok(())
}

// How a data file begins: a text, the version and the store's number.
const HEADER: &[u8] = b"fusekeep content\x03\0\0\0\0\0\0\0\x07\0\0\0\0\0\0\0";

// Whether a data file has a header, and 20 blocks from a place on.
fn has_blocks(disk: Option<Memory>, place: usize, wanted: &[u8]) -> bool {
    let Some(disk) = disk else {
        return false;
    };
    let from = place.saturating_mul(BLOCK);
    let to = from.saturating_add(wanted.len());
    let begins = matches!(disk.bytes().get(..32), Some(found) if found == HEADER);
    begins && matches!(disk.bytes().get(from..to), Some(found) if found == wanted)
}

#[test]
fn what_is_listed(rt: HostRuntime) -> Result<(), StoreFault> {
    let alloc = rt.alloc();
    let payload = blocks(alloc, 20)?;
    let mut keeper = opened(alloc)?;
    assert!(rt; writes(&mut keeper, 8, 0, payload.as_slice())?);
    let StoreParts { mut conn, disk } = keeper.into_parts();
    let extents = listed_extents(&mut conn, alloc)?;
    let [extent] = extents.as_slice() else {
        return Err(StoreFault::Damaged);
    };
    assert_eq!(rt; [extent.place, extent.count], [1, 20]);
    assert_eq!(rt; number_at_rest(&mut conn)?, ROOM.number);
    assert!(rt; has_blocks(disk, extent.place, payload.as_slice()));
    Ok(())
}

// The parts of a store with another number.
fn another(alloc: Global) -> Result<Parts, StoreFault> {
    let volume = Volume { number: 8, ..ROOM };
    let parts = nothing(alloc)?;
    match TableKeeper::<EverydayProfile, _, _>::create(alloc, parts, volume, Origin::at(START)) {
        Ok(keeper) => Ok(keeper.into_parts()),
        Err((fault, _)) => Err(fault),
    }
}

fn open_parts(alloc: Global, parts: Parts) -> Result<InMemory, (StoreFault, Parts)> {
    TableKeeper::open(alloc, parts, None)
}

// Beside the data file of another store, and beside none, it isn't opened; then beside its own.
#[test]
fn another_data_file(rt: HostRuntime) -> Result<(), StoreFault> {
    let alloc = rt.alloc();
    let StoreParts { conn, disk } = opened(alloc)?.into_parts();
    let parts = StoreParts {
        conn,
        disk: another(alloc)?.disk,
    };
    let Err((StoreFault::Damaged, StoreParts { conn, .. })) = open_parts(alloc, parts) else {
        return Err(StoreFault::NotAStore);
    };
    let Err((_, StoreParts { conn, .. })) = open_parts(alloc, StoreParts { conn, disk: None })
    else {
        return Err(StoreFault::NotAStore);
    };
    assert!(rt; open_parts(alloc, StoreParts { conn, disk }).is_ok());
    Ok(())
}

const KIND: StoreKind = StoreKind {
    profile: Profile::Everyday,
    capacity: 100,
    owner: Owner::SUPERUSER,
};

type AnyKeeper = StoreKeeper<sqlite::MemStore, Memory>;

fn parts_of(opened: Result<AnyKeeper, (StoreFault, Parts)>) -> Result<Parts, StoreFault> {
    match opened {
        Ok(keeper) => Ok(keeper.into_parts()),
        Err((fault, _)) => Err(fault),
    }
}

// Of a number 63 bits are stored. A store that is there keeps its own.
#[test]
fn a_number(rt: HostRuntime) -> Result<(), StoreFault> {
    let alloc = rt.alloc();
    let new = KIND.made_at(START, u64::MAX);
    let mut parts = parts_of(open_or_create(alloc, nothing(alloc)?, new))?;
    assert_eq!(rt; number_at_rest(&mut parts.conn)?, 0x7fff_ffff_ffff_ffff);
    let mut parts = parts_of(open_fresh(alloc, parts, KIND.made_at(START, 5)))?;
    assert_eq!(rt; number_at_rest(&mut parts.conn)?, 0x7fff_ffff_ffff_ffff);
    Ok(())
}
