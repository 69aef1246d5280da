//! Everyday stores: the requests of the tests, and what is found of a store.
use crate::requests::{START, asked, init, mknod, open};
use fuse_answer::Answer;
use fuse_data::BLOCK;
use fuse_init::EverydayProfile;
use fuse_request::{Op, ReadIn, SetattrIn};
use fuse_rows::Origin;
use fuse_store::{Keeper, StoreFault, StoreParts, TableKeeper};
use fuse_store_tables::Volume;
use sqlite::{Alter, Connection, MemStore};
use sqlite_disk::{Disk, Memory};
use std::alloc::{AllocError, Global};

/// The keeper of an everyday store.
pub(crate) type Everyday<S, D> = TableKeeper<EverydayProfile, S, D>;

/// One that lies in memory.
pub(crate) type InMemory = Everyday<MemStore, Memory>;

/// The parts of one that lies in memory.
pub(crate) type Parts = StoreParts<MemStore, Memory>;

/// The room of the stores, and the number of the first one.
pub(crate) const ROOM: Volume = Volume {
    capacity: 100,
    number: 7,
};

/// The file that the tests write, and how it is open.
pub(crate) const FILE: u64 = 2;

const STATFS: u32 = 17;

// The bit of SETATTR for a size.
const SIZE: u32 = 8;

/// A new store in a blank database.
pub(crate) fn created<S: Alter + Drop, D: Disk + Drop>(
    alloc: Global,
    parts: StoreParts<S, D>,
) -> Result<Everyday<S, D>, StoreFault> {
    match TableKeeper::create(alloc, parts, ROOM, Origin::at(START)) {
        Ok(keeper) => Ok(keeper),
        Err((fault, _)) => Err(fault),
    }
}

/// Nothing, in memory.
pub(crate) fn nothing(alloc: Global) -> Result<Parts, StoreFault> {
    Ok(StoreParts {
        conn: Connection::open_in_memory(alloc)?,
        disk: Some(Memory::new(alloc)),
    })
}

/// The answer to one request.
pub(crate) fn ask<S: Alter + Drop, D: Disk + Drop>(
    keeper: &mut Everyday<S, D>,
    unique: u64,
    op: Op<'_>,
) -> Result<Answer, StoreFault> {
    let mut dones = keeper.perform(&[asked(unique, FILE, op)], &[])?;
    match dones.pop() {
        Some(done) => Ok(done.answer),
        None => Err(StoreFault::Damaged),
    }
}

/// INIT, and a file that is made and opened, by ids up to 6.
pub(crate) fn open_file<S: Alter + Drop, D: Disk + Drop>(
    keeper: &mut Everyday<S, D>,
) -> Result<bool, StoreFault> {
    let group = [init(2), asked(4, 1, mknod()), asked(6, FILE, open())];
    let dones = keeper.perform(&group, &[])?;
    Ok(dones.as_slice().iter().all(|done| done.answer.errno.0 == 0))
}

/// Whether a WRITE was done.
pub(crate) fn writes<S: Alter + Drop, D: Disk + Drop>(
    keeper: &mut Everyday<S, D>,
    unique: u64,
    offset: u64,
    payload: &[u8],
) -> Result<bool, StoreFault> {
    let op = Op::Write {
        fh: 1,
        offset,
        write_flags: 0,
        lock_owner: 0,
        flags: 2,
        payload,
    };
    Ok(ask(keeper, unique, op)?.errno.0 == 0)
}

/// Whether a READ of so many bytes returns these.
pub(crate) fn reads<S: Alter + Drop, D: Disk + Drop>(
    keeper: &mut Everyday<S, D>,
    unique: u64,
    size: u32,
    wanted: &[u8],
) -> Result<bool, StoreFault> {
    let op = Op::Read(ReadIn {
        fh: 1,
        offset: 0,
        size,
        read_flags: 0,
        lock_owner: 0,
        flags: 0,
    });
    let answer = ask(keeper, unique, op)?;
    Ok(answer.errno.0 == 0 && answer.body.as_slice() == wanted)
}

/// Whether the file got this size.
pub(crate) fn sizes<S: Alter + Drop, D: Disk + Drop>(
    keeper: &mut Everyday<S, D>,
    unique: u64,
    size: u64,
) -> Result<bool, StoreFault> {
    let op = Op::Setattr(SetattrIn {
        valid: SIZE,
        fh: 0,
        size,
        lock_owner: 0,
        atime: 0,
        mtime: 0,
        ctime: 0,
        atimensec: 0,
        mtimensec: 0,
        ctimensec: 0,
        mode: 0,
        uid: 0,
        gid: 0,
    });
    Ok(ask(keeper, unique, op)?.errno.0 == 0)
}

// Whether the bytes of an answer have this number at a place.
fn has_number(body: &[u8], at: usize, number: u64) -> bool {
    match body.get(at..at.saturating_add(8)) {
        Some(found) => found == number.to_le_bytes().as_slice(),
        None => false,
    }
}

/// Whether STATFS says that so many blocks of the room are free.
pub(crate) fn has_free<S: Alter + Drop, D: Disk + Drop>(
    keeper: &mut Everyday<S, D>,
    unique: u64,
    free: u64,
) -> Result<bool, StoreFault> {
    let op = Op::Further {
        opcode: STATFS,
        body: b"",
    };
    let answer = ask(keeper, unique, op)?;
    let body = answer.body.as_slice();
    Ok(has_number(body, 0, ROOM.capacity) && has_number(body, 8, free))
}

/// So many blocks: each byte of the first one is 1, of the second one 2.
pub(crate) fn blocks(alloc: Global, count: u8) -> Result<Vec<u8>, AllocError> {
    let mut bytes = Vec::new(alloc);
    for fill in 1..=count {
        let len = bytes.len().saturating_add(BLOCK);
        bytes.resize(len, fill)?;
    }
    Ok(bytes)
}
