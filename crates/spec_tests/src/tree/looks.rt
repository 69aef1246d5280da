//! A `Look` of the tests that counts its calls, about which contracts say nothing.
use crate::tree::requests::request_of;
use fuse_init::{Profile, Settings};
use fuse_plan::{Planned, plan};
use fuse_request::{Op, ReadIn};
use fuse_rows::{Child, Counters, EntryRow, HandleRow, NodeRow, ROOT_ID};
use fuse_tree::{Agreement, Look, LookFault, S_IFDIR, S_IFREG};
use fuse_wire::{AccessMode, ByteList, InitFlags, Memory, Moment};
use std::alloc::Global;
use std::test::*;

/// The number of looks at nodes, entries, listings and counters.
pub type Looks = [u64; 4];

/// As many computed nodes and handles as the counters say. Node 1 is the root and holds the others:
/// even numbers are files, odd ones empty directories. The name `n2` is that of node 2, and so on to
/// `n9`; no other name is found. The root lists as many entries as are asked for, all of node 2 and
/// under a name of nine bytes. Even handles are of file 2, odd ones of the root; none is listed.
#[derive(Drop)]
pub struct Many {
    pub alloc: Global,
    pub counters: Counters,
    pub looks: Looks,
    pub fault: Option<LookFault>,
}

impl Look for Many {
    ghost sees = { λ _ _. ⊥ };

    ghost fault = { λ m. m.fault };

    ghost is_clean = { λ _. ⊥ };

    ghost looks = { λ _ _. Unit {0} };

    ghost fails = { λ _ _. Unit {0} };

    fn node(&mut self, number: u64) -> Result<Option<NodeRow>, LookFault> {
        self.looks[0] = self.looks[0].wrapping_add(1);
        if number == 0 || number > self.counters.nodes {
            return Ok(None);
        }
        Ok(Some(row_of(number)))
    }

    fn entry(&mut self, _dir: u64, name: &[u8]) -> Result<Option<EntryRow>, LookFault> {
        self.looks[1] = self.looks[1].wrapping_add(1);
        let [b'n', digit @ b'2'..=b'9'] = name else {
            return Ok(None);
        };
        let child = u64::from(*digit - b'0');
        match entry_of(self.alloc, b"", child, child) {
            Ok(entry) => Ok(Some(entry)),
            Err(_) => Err(self.fails()),
        }
    }

    fn entries_after(
        &mut self,
        dir: u64,
        cookie: u64,
        limit: usize,
    ) -> Result<Vec<EntryRow>, LookFault> {
        self.looks[2] = self.looks[2].wrapping_add(1);
        let count = if dir == ROOT_ID { limit } else { 0 };
        match entries_of(self.alloc, cookie, count) {
            Ok(entries) => Ok(entries),
            Err(_) => Err(self.fails()),
        }
    }

    fn children_after(
        &mut self,
        dir: u64,
        cookie: u64,
        limit: usize,
    ) -> Result<Vec<Child>, LookFault> {
        self.looks[2] = self.looks[2].wrapping_add(1);
        let count = if dir == ROOT_ID { limit } else { 0 };
        match children_of(self.alloc, cookie, count) {
            Ok(children) => Ok(children),
            Err(_) => Err(self.fails()),
        }
    }

    fn handle(&mut self, fh: u64) -> Result<Option<HandleRow>, LookFault> {
        if fh == 0 || fh > self.counters.handles {
            return Ok(None);
        }
        Ok(Some(HandleRow {
            fh,
            node: if fh % 2 == 0 { 2 } else { ROOT_ID },
            access: AccessMode::ReadOnly,
        }))
    }

    fn handles_of(&mut self, _node: u64, _limit: usize) -> Result<Vec<HandleRow>, LookFault> {
        Ok(Vec::new(self.alloc))
    }

    fn bytes(&mut self, _node: u64, _offset: u64, _len: u32) -> Result<ByteList, LookFault> {
        Ok(ByteList::from_vec(Vec::new(self.alloc)))
    }

    fn blocks_between(&mut self, _node: u64, _from: u64, _to: u64) -> Result<u64, LookFault> {
        Ok(0)
    }

    fn counters(&mut self) -> Result<Counters, LookFault> {
        self.looks[3] = self.looks[3].wrapping_add(1);
        Ok(self.counters)
    }

    fn agreement(&mut self) -> Result<Agreement, LookFault> {
        let settings = Settings {
            minor: 40,
            max_readahead: 131_072,
            flags: InitFlags(0),
        };
        Ok(Agreement {
            profile: Profile::Plain,
            settings: Some(settings),
        })
    }

    fn failed(&self) -> Option<LookFault> {
        self.fault
    }

    ghost still = { λ a. tt };

    ghost and_then = { λ a b d p q. tt };

    ghost and_fails = { λ a b d p q. tt };

    ghost or_less = { λ a b p. tt };

    ghost was_clean = { λ a b p clean. clean };

    ghost kept = { λ a b p clean rows e. e };
}

const START: Moment = Moment { secs: 0, nanos: 0 };

fn row_of(number: u64) -> NodeRow {
    let mode = if number % 2 == 0 {
        S_IFREG + 0o644
    } else {
        S_IFDIR + 0o755
    };
    NodeRow {
        node: number,
        mode,
        uid: 0,
        gid: 0,
        rdev: 0,
        size: 0,
        atime: START,
        mtime: START,
        ctime: START,
        up: if number == ROOT_ID { 0 } else { ROOT_ID },
        subdirs: 0,
        written: None,
    }
}

impl Many {
    ghost use Rattle.std.specs.Prelude.{◌≡◌, Some};

    fn fails(&mut self) -> LookFault
        ensures { self.new.fault ≡ Some result }
    {
        self.fault = Some(LookFault::Memory);
        LookFault::Memory
    }
}

fn entry_of(alloc: Global, name: &[u8], child: u64, cookie: u64) -> Result<EntryRow, Memory> {
    Ok(EntryRow {
        dir: ROOT_ID,
        name: ByteList::from_vec(Vec::from_slice(alloc, name)?),
        child,
        cookie,
    })
}

fn entries_of(alloc: Global, cookie: u64, count: usize) -> Result<Vec<EntryRow>, Memory> {
    let mut entries = Vec::new(alloc);
    let mut next = cookie;
    for _entry in 0..count {
        next = next.wrapping_add(1);
        entries.push(entry_of(alloc, b"nine.text", 2, next)?)?;
    }
    Ok(entries)
}

fn children_of(alloc: Global, cookie: u64, count: usize) -> Result<Vec<Child>, Memory> {
    let mut children = Vec::new(alloc);
    let mut next = cookie;
    for _child in 0..count {
        next = next.wrapping_add(1);
        children.push(Child {
            entry: entry_of(alloc, b"nine.text", 2, next)?,
            row: Some(row_of(2)),
        })?;
    }
    Ok(children)
}

/// The next node, fh and cookie, and how many nodes and handles there are.
pub(crate) fn counting(numbers: [u64; 5]) -> Counters {
    let [next_node, next_fh, next_cookie, nodes, handles] = numbers;
    Counters {
        next_node,
        next_fh,
        next_cookie,
        nodes,
        handles,
        room: None,
    }
}

/// The plan with these counters, and the number of looks that it took.
pub(crate) fn planned_where(
    alloc: Global,
    counters: Counters,
    nodeid: u64,
    op: Op<'_>,
) -> Result<(Planned, Looks), Fail> {
    let mut look = Many {
        alloc,
        counters,
        looks: [0; 4],
        fault: None,
    };
    match plan(alloc, &mut look, &request_of(nodeid, op), START) {
        Ok(planned) => Ok((planned, look.looks)),
        Err(_) => Err("a plan".into()),
    }
}

// The number of looks of an operation on the root among nine nodes. `None` if it is refused.
fn looks_of(alloc: Global, op: Op<'_>) -> Result<Option<Looks>, Fail> {
    let (planned, looks) = planned_where(alloc, counting([10, 2, 10, 9, 1]), ROOT_ID, op)?;
    Ok((planned.answer.errno.0 == 0).then_some(looks))
}

fn rename(old_name: &'static [u8], new_name: &'static [u8]) -> Op<'static> {
    Op::Rename {
        new_dir: 1,
        old_name,
        new_name,
    }
}

const EXCHANGE: Op<'static> = Op::Rename2 {
    new_dir: 1,
    flags: 2,
    old_name: b"n3",
    new_name: b"n2",
};

fn readdir(offset: u64, size: u32) -> Op<'static> {
    Op::ReadDir(ReadIn {
        fh: 1,
        offset,
        size,
        read_flags: 0,
        lock_owner: 0,
        flags: 0,
    })
}

// Within one directory no node is looked up twice, no file is listed, and the counters are read
// once. A listing looks its entries up with their children, once.
fn all_looks() -> [(Op<'static>, Looks); 8] {
    [
        (rename(b"n2", b"x"), [2, 2, 0, 1]),
        (rename(b"n3", b"x"), [2, 2, 0, 1]),
        (rename(b"n2", b"n4"), [3, 2, 0, 1]),
        (rename(b"n3", b"n5"), [3, 2, 1, 1]),
        (rename(b"n2", b"n2"), [2, 1, 0, 0]),
        (EXCHANGE, [3, 2, 0, 1]),
        (readdir(2, 4096), [1, 0, 1, 0]),
        (readdir(0, 64), [1, 0, 1, 0]),
    ]
}

// The number of right ones, from the first on.
fn looked(alloc: Global) -> Result<usize, Fail> {
    for (place, (op, looks)) in all_looks().iter().enumerate() {
        if looks_of(alloc, *op)? != Some(*looks) {
            return Ok(place);
        }
    }
    Ok(all_looks().len())
}

#[test]
fn looks_are_few(rt: HostRuntime) -> Result<(), Fail> {
    assert_eq!(rt; looked(rt.alloc())?, 8);
    Ok(())
}
