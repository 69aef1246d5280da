//! A store that is opened from its files and closed into them, and one whose files crash.
use crate::everyday::{Everyday, blocks, open_file, reads, writes};
use crate::stores::NO_VOLUME;
use fuse_data_host::{DataFrom, DataStart};
use fuse_init::{PlainProfile, Profile};
use fuse_request::{InHeader, InitIn, Op, Request};
use fuse_rows::{Origin, Owner};
use fuse_store::{
    Done, Keeper, NewStore, Restart, StoreFault, StoreKeeper, StoreKind, StoreParts, TableKeeper,
};
use fuse_store_files::{
    CrashKeeper, CrashMemory, Crashing, Opening, StoreFiles, close_store, open_store,
};
use fuse_wire::{Id, Moment};
use sqlite::{Alter, Connection, FileFrom, FileStore, Files, Options, Unknown};
use sqlite_disk::Disk;
use std::alloc::Global;
use std::{fs, io};

const START: Moment = Moment { secs: 0, nanos: 0 };

const NEW: NewStore = NewStore {
    kind: StoreKind::PLAIN,
    now: START,
    number: 7,
};

// INIT, whose answer is recorded, and a directory.
const OPS: [Op<'static>; 2] = [
    Op::Init(InitIn {
        major: 7,
        minor: 40,
        max_readahead: 131_072,
        flags: 0x4000_2021,
        flags2: Some(0x80),
    }),
    Op::Mkdir {
        mode: 0o755,
        umask: 0o022,
        name: b"a",
    },
];

fn asked(unique: u64, op: Op<'_>) -> (Request<'_>, Moment) {
    let header = InHeader {
        unique,
        nodeid: 1,
        uid: 1000,
        gid: 1000,
        pid: 77,
    };
    let request = Request {
        header,
        op,
        ext: &[],
    };
    (request, START)
}

fn perform<S: Alter + Drop, D: Disk + Drop>(
    keeper: &mut TableKeeper<PlainProfile, S, D>,
    group: &[(Request<'_>, Moment)],
) -> Result<Vec<Done>, StoreFault> {
    keeper.perform(group, &[])
}

fn makes_directory<S: Alter + Drop, D: Disk + Drop>(
    keeper: &mut TableKeeper<PlainProfile, S, D>,
) -> bool {
    let [init, mkdir] = OPS;
    let group = [asked(2, init), asked(4, mkdir)];
    perform(keeper, &group).is_ok()
}

// The number of nodes of a store, which is closed then.
fn nodes_of<D: Disk + Drop, E: Disk + Drop>(
    mut keeper: TableKeeper<PlainProfile, FileStore<D>, E>,
) -> Result<u64, StoreFault> {
    let counts = keeper.counts();
    let (tables, disk) = close_store(keeper);
    drop(disk);
    match tables {
        Ok(files) => drop(files),
        Err(store) => drop(store.close()),
    }
    Ok(counts?.nodes)
}

// The number of nodes of the store at this path, which is closed again.
fn nodes_at(rt: &HostRuntime, path: &str, how: Opening) -> Result<u64, StoreFault> {
    match open_store(StoreFiles::at(rt, path, Unknown, DataStart), how) {
        Ok(StoreKeeper::Plain(keeper)) => nodes_of(keeper),
        Ok(StoreKeeper::Everyday(_)) => Err(StoreFault::Damaged),
        Err((fault, _)) => Err(fault),
    }
}

// A directory is made in the store at this path, which is not closed.
fn makes_directory_at(rt: &HostRuntime, path: &str) -> bool {
    match open_store(
        StoreFiles::at(rt, path, Unknown, DataStart),
        Opening::Existing(7),
    ) {
        Ok(StoreKeeper::Plain(mut keeper)) => makes_directory(&mut keeper),
        _ => false,
    }
}

// Whether the store at this path has so many nodes, opened so.
fn has_nodes(rt: &HostRuntime, path: &str, how: Opening, wanted: u64) -> bool {
    matches!(nodes_at(rt, path, how), Ok(nodes) if nodes == wanted)
}

fn is_no_store(rt: &HostRuntime, path: &str) -> bool {
    matches!(
        nodes_at(rt, path, Opening::Existing(7)),
        Err(StoreFault::NotAStore)
    )
}

fn missing(rt: &HostRuntime, path: &str) -> bool {
    matches!(fs::exists(rt, path), Ok(false))
}

#[test]
fn from_file_to_file(rt: HostRuntime) -> Result<(), StoreFault> {
    let _ = fs::remove_dir_all(&rt, "store_files");
    let _ = fs::create_dir(&rt, "store_files");
    let path = "store_files/a";
    // Nothing is made where a store must be there. What was committed is in the log alone once the
    // keeper is let go.
    let found = [
        is_no_store(&rt, path) && missing(&rt, path),
        has_nodes(&rt, path, Opening::Any(NEW), 1),
        makes_directory_at(&rt, path),
        has_nodes(&rt, path, Opening::Existing(7), 2),
        has_nodes(&rt, path, Opening::Fresh(NEW), 2),
        nodes_at(&rt, ":memory:", Opening::Any(NEW)).is_err(),
    ];
    let _ = fs::remove_dir_all(&rt, "store_files");
    assert_eq!(rt; found, [true; 6]);
    Ok(())
}

const EVERYDAY: NewStore = NewStore {
    kind: StoreKind {
        profile: Profile::Everyday,
        capacity: 100,
        owner: Owner::SUPERUSER,
    },
    now: START,
    number: 7,
};

type OnDisk = Everyday<FileStore<FileFrom<Unknown>>, DataFrom<DataStart>>;

// The keeper of the everyday store at this path.
fn everyday_at(rt: &HostRuntime, path: &str, how: Opening) -> Result<OnDisk, StoreFault> {
    match open_store(StoreFiles::at(rt, path, Unknown, DataStart), how) {
        Ok(StoreKeeper::Everyday(keeper)) => Ok(keeper),
        Ok(StoreKeeper::Plain(_)) => Err(StoreFault::Damaged),
        Err((fault, _)) => Err(fault),
    }
}

// The length of a file.
fn length_of(rt: &HostRuntime, path: &str) -> u64 {
    match fs::metadata(rt, path) {
        Ok(metadata) => metadata.len(),
        Err(_) => 0,
    }
}

// What was written is in the data file: a header, and 20 blocks.
#[test]
fn three_files(rt: HostRuntime) -> Result<(), StoreFault> {
    let _ = fs::remove_dir_all(&rt, "three_files");
    let _ = fs::create_dir(&rt, "three_files");
    let path = "three_files/a";
    let payload = blocks(rt.alloc(), 20)?;
    let mut keeper = everyday_at(&rt, path, Opening::Any(EVERYDAY))?;
    let made = open_file(&mut keeper)?;
    let written = writes(&mut keeper, 8, 0, payload.as_slice())?;
    drop(keeper);
    let mut keeper = everyday_at(&rt, path, Opening::Existing(8))?;
    let read = reads(&mut keeper, 10, 81_920, payload.as_slice())?;
    drop(close_store(keeper));
    let length = length_of(&rt, "three_files/a-data");
    let _ = fs::remove_dir_all(&rt, "three_files");
    assert_eq!(rt; ([made, written, read], length), ([true; 3], 86_016));
    Ok(())
}

type MemFiles = FileStore<CrashMemory>;

fn empty(alloc: Global) -> Files<CrashMemory> {
    Files {
        log: CrashMemory::new(alloc),
        db: CrashMemory::new(alloc),
    }
}

fn connected(alloc: Global, options: Options) -> Result<Connection<MemFiles>, StoreFault> {
    match Connection::open_files(alloc, empty(alloc), options) {
        Ok(conn) => Ok(conn),
        Err((error, _)) => Err(StoreFault::from(error)),
    }
}

fn made(
    alloc: Global,
    options: Options,
) -> Result<TableKeeper<PlainProfile, MemFiles, CrashMemory>, StoreFault> {
    let parts = StoreParts {
        conn: connected(alloc, options)?,
        disk: None,
    };
    match TableKeeper::create(alloc, parts, NO_VOLUME, Origin::at(START)) {
        Ok(keeper) => Ok(keeper),
        Err((fault, _)) => Err(fault),
    }
}

// The keeper after a crash of its files.
fn crashed(
    alloc: Global,
    keeper: TableKeeper<PlainProfile, MemFiles, CrashMemory>,
    options: Options,
) -> Result<CrashKeeper<PlainProfile, CrashMemory, CrashMemory>, StoreFault> {
    match CrashKeeper::new(alloc, keeper, options).restart() {
        Ok(opened) => Ok(opened),
        Err((fault, _)) => Err(fault),
    }
}

// Whether the directory and its record are there.
fn remembers(keeper: &mut CrashKeeper<PlainProfile, CrashMemory, CrashMemory>) -> bool {
    let answered = matches!(keeper.answer_of(Id(4)), Ok(Some(_)));
    let counted = matches!(keeper.counts(), Ok(counts) if counts.nodes == 2);
    answered && counted
}

#[test]
fn files_crash(rt: HostRuntime) -> Result<(), StoreFault> {
    let options = Options::new(7);
    let mut keeper = made(rt.alloc(), options)?;
    let made = makes_directory(&mut keeper);
    let mut opened = crashed(rt.alloc(), keeper, options)?;
    assert_eq!(rt; [made, remembers(&mut opened)], [true; 2]);
    Ok(())
}

#[test]
fn unsynced_bytes_are_lost(rt: HostRuntime) -> io::Result<()> {
    let mut file = CrashMemory::new(rt.alloc());
    file.write_at(0, b"kept")?;
    file.sync()?;
    file.write_at(2, b"lost")?;
    let written = file.bytes() == b"kelost".as_slice();
    file.crash_once();
    let lost = file.bytes() == b"kept".as_slice();
    file.set_len(1)?;
    file.crash_once();
    let lost_again = file.bytes() == b"kept".as_slice();
    assert_eq!(rt; [written, lost, lost_again], [true; 3]);
    Ok(())
}
