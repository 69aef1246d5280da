//! A data file that stops at each of its calls: the store that is opened then has the committed steps.
ghost use Rattle.std.specs.Prelude.{IsTrue, IfOk};
ghost use Rattle.sqlite_disk.specs.Memory.{memory_is_usable};

use crate::everyday::{Everyday, InMemory, blocks, created, open_file, reads, writes};
use fuse_store::{StoreFault, StoreParts, TableKeeper};
use sqlite::{Connection, MemStore};
use sqlite_disk::{Crash, Disk, Fuse, Memory};
use std::alloc::Global;

type Stopping = Fuse<Memory>;

// More calls than there are.
const MOST: u64 = 200;

// A file with a WRITE, and with another one over it.
#[derive(Drop)]
struct Contents {
    first: Vec<u8>,
    second: Vec<u8>,
}

// How many steps were done, and what is left.
#[derive(Drop)]
struct Left {
    steps: usize,
    parts: StoreParts<MemStore, Stopping>,
}

fn written_twice(alloc: Global) -> Result<Contents, StoreFault> {
    let first = blocks(alloc, 20)?;
    let mut second = blocks(alloc, 20)?;
    second.reverse();
    Ok(Contents { first, second })
}

// The file is made, written, and written over. Returns how many of these steps were done.
fn steps_of(keeper: &mut Everyday<MemStore, Stopping>, contents: &Contents) -> usize {
    if !matches!(open_file(keeper), Ok(true)) {
        return 1;
    }
    if !matches!(writes(keeper, 8, 0, contents.first.as_slice()), Ok(true)) {
        return 2;
    }
    if !matches!(writes(keeper, 10, 0, contents.second.as_slice()), Ok(true)) {
        return 3;
    }
    4
}

// Makes a store whose data file stops after so many calls.
fn stop_at(alloc: Global, contents: &Contents, calls: u64) -> Result<Option<Left>, StoreFault> {
    let parts = StoreParts {
        conn: Connection::open_in_memory(alloc)?,
        disk: Some(Fuse::new(Memory::new(alloc), calls)),
    };
    let Ok(mut keeper) = created(alloc, parts) else {
        return Ok(None);
    };
    let steps = steps_of(&mut keeper, contents);
    Ok(Some(Left {
        steps,
        parts: keeper.into_parts(),
    }))
}

// A disk that holds these bytes, also after a crash.
fn filled(alloc: Global, bytes: &[u8]) -> Result<Memory, StoreFault>
    ensures { IfOk result (λ m. IsTrue (memory_is_usable m)) }
{
    let mut memory = Memory::new(alloc);
    if memory.write_at(0, bytes).is_err() || memory.sync().is_err() {
        return Err(StoreFault::Memory);
    }
    Ok(memory)
}

// The store after a crash of its data file.
fn after_crash(
    alloc: Global,
    parts: StoreParts<MemStore, Stopping>,
) -> Result<InMemory, StoreFault> {
    let StoreParts { conn, disk } = parts;
    let disk = match disk {
        Some(mut disk) => {
            disk.crash();
            Some(filled(alloc, disk.inner().bytes())?)
        }
        None => None,
    };
    match TableKeeper::open(alloc, StoreParts { conn, disk }, None) {
        Ok(keeper) => Ok(keeper),
        Err((fault, _)) => Err(fault),
    }
}

// Whether the file has what it had before the stop.
fn is_whole(keeper: &mut InMemory, contents: &Contents, steps: usize) -> Result<bool, StoreFault> {
    match steps {
        1 => Ok(true),
        2 => reads(keeper, 12, 81_920, &[]),
        3 => reads(keeper, 12, 81_920, contents.first.as_slice()),
        _ => reads(keeper, 12, 81_920, contents.second.as_slice()),
    }
}

// The number of stops: while the store is made, in the first WRITE, and in the second one.
#[test]
fn the_data_file_stops(rt: HostRuntime) -> Result<(), StoreFault> {
    let contents = written_twice(rt.alloc())?;
    let mut stops = [0u32; 5];
    for calls in 0..MOST {
        let Some(Left { steps, parts }) = stop_at(rt.alloc(), &contents, calls)? else {
            stops[0] = stops[0].saturating_add(1);
            continue;
        };
        let mut keeper = after_crash(rt.alloc(), parts)?;
        assert!(rt; is_whole(&mut keeper, &contents, steps)?);
        if let Some(count) = stops.get_mut(steps) {
            *count = count.saturating_add(1);
        }
        if steps == 4 {
            break;
        }
    }
    assert!(rt; stops[0] > 1 && stops[2] > 1 && stops[3] > 1 && stops[4] == 1);
    Ok(())
}
