// Talks over frames in memory: those of the page of the protocol, and wrong ones.
use crate::{AskFault, GreetFault, OwnedPair, PairPage, PairSource, Talk};
use bitflags::Flags;
use fuse_guest::TalkFault;
use fuse_init::Settings;
use fuse_keeper::StoreFault;
use fuse_request::{InHeader, Op, Request};
use fuse_wire::{InitFlags, Moment};
use guest_frames::{GuestFault, GuestKind, PairChange, Scan};
use std::alloc::Global;
use std::io;
use std::io::Read;
use std::test::Fail;

// A list of pairs. A scan lists all of them.
#[derive(Drop)]
struct Listed {
    pairs: Vec<OwnedPair>,
}

impl PairSource for Listed {
    ghost shows = { λ a ps. ⊥ };

    ghost is_honest = { λ a. ⊥ };

    ghost may_answer = { λ a f. ⊥ };

    ghost looks = { λ a b. Unit {0} };

    ghost fails = { λ a b. Unit {0} };

    fn value(&mut self, alloc: Global, key: &[u8]) -> Result<Option<Vec<u8>>, StoreFault> {
        for pair in &self.pairs {
            if pair.key.as_slice() == key {
                return Ok(Some(Vec::from_slice(alloc, &pair.value)?));
            }
        }
        Ok(None)
    }

    fn scan(&mut self, alloc: Global, _scan: &Scan<'_>) -> Result<PairPage, StoreFault> {
        let mut pairs = Vec::new(alloc);
        for pair in &self.pairs {
            pairs.push(OwnedPair {
                key: Vec::from_slice(alloc, &pair.key)?,
                value: Vec::from_slice(alloc, &pair.value)?,
            })?;
        }
        Ok(PairPage { pairs, more: false })
    }

    ghost still = { λ a. tt };

    ghost and_then = { λ a b d first then. tt };

    ghost and_fails = { λ a b d first then. tt };

    ghost or_less = { λ a b looks. tt };

    ghost was_honest = { λ a b fails honest. honest };

    ghost kept = { λ a b looks honest. absurd honest };

    ghost may_stay = { λ a b looks f may. may };
}

// A reader that gives one byte at a time.
#[derive(Drop)]
struct Slow<'a> {
    rest: &'a [u8],
}

impl Read for Slow<'_> {
    fn read(&mut self, buffer: &mut [u8]) -> io::Result<usize> {
        let Some((first, rest)) = self.rest.split_first() else {
            return Ok(0);
        };
        if buffer.is_empty() {
            return Ok(0);
        }
        buffer[0] = *first;
        self.rest = rest;
        Ok(1)
    }
}

// Serves LOOKUP, READ, WRITE and READDIR, and sees LOOKUP.
const READY: &[u8] =
    b"\x30\0\0\0\x02\0\0\0\x01\0\0\0\0\0\0\0\x02\x80\x01\x10\0\0\0\0\0\0\0\0\0\0\0\0\0\0\0\0\0\0\0\0\x02\0\0\0\0\0\0\0";

const GET: &[u8] = b"\x16\0\0\0\x04\0\0\0\x01\0\0\0\0\0\0\0\x02\0\0\0ea";

const VALUES: &[u8] = b"\x14\0\0\0\x05\0\0\0\x01\0\0\0\0\0\0\0\xff\xff\xff\xff";

const NO_ENTRY: &[u8] = b"\x18\0\0\0\x08\0\0\0\x02\0\0\0\0\0\0\0\0\0\0\0\0\0\0\0";

const REQUEST: &[u8] =
    b"\x42\0\0\0\x03\0\0\0\xe8\x03\0\0\0\0\0\0\x05\0\0\0\0\0\0\0\x2a\0\0\0\x01\0\0\0\x06\0\0\0\0\0\0\0\x01\0\0\0\0\0\0\0\xe8\x03\0\0\xe8\x03\0\0\x4d\0\0\0\0\0\0\0a\0";

const NOW: Moment = Moment {
    secs: 1000,
    nanos: 5,
};

// A request of unique 6 that was sent again, in node 1.
fn request<'a>(op: Op<'a>) -> Request<'a> {
    Request {
        header: InHeader {
            unique: 0x8000_0000_0000_0006,
            nodeid: 1,
            uid: 1000,
            gid: 1000,
            pid: 77,
        },
        op,
        ext: b"\x08\0\0\0\0\0\0\0",
    }
}

fn lookup<'a>() -> Request<'a> {
    request(Op::Lookup { name: b"a" })
}

fn write<'a>() -> Request<'a> {
    request(Op::Write {
        fh: 1,
        offset: 0,
        write_flags: 0,
        lock_owner: 0,
        flags: 0,
        payload: b"abc",
    })
}

// No pairs.
fn nothing(alloc: Global) -> Listed {
    Listed {
        pairs: Vec::new(alloc),
    }
}

// One pair.
fn one_pair(alloc: Global) -> Result<Listed, Fail> {
    let mut pairs = Vec::new(alloc);
    pairs.push(OwnedPair {
        key: Vec::from_slice(alloc, b"ea")?,
        value: Vec::from_slice(alloc, b"vv")?,
    })?;
    Ok(Listed { pairs })
}

// READY, and then these bytes.
fn after_ready(alloc: Global, bytes: &[u8]) -> Result<Vec<u8>, Fail> {
    let mut all = Vec::from_slice(alloc, READY)?;
    all.extend_from_slice(bytes)?;
    Ok(all)
}

// Whether these are the bytes that were written after HELLO.
fn has_told(sent: &[u8], told: &[u8]) -> bool {
    sent.len() >= 64 && &sent[64..] == told
}

// The fault of a LOOKUP or a WRITE, where the guest says this.
fn fault_of(alloc: Global, request: &Request<'_>, said: &[u8]) -> Result<Option<TalkFault>, Fail> {
    let said = after_ready(alloc, said)?;
    let Ok(mut talk) = Talk::greet(alloc, said.as_slice(), Vec::new(alloc), None, 0) else {
        return Err("READY is right".into());
    };
    let mut pairs = nothing(alloc);
    match talk.ask(alloc, &mut pairs, request, NOW, 0) {
        Ok(_) => Ok(None),
        Err(AskFault::Guest(fault)) => Ok(Some(fault)),
        Err(_) => Err("it is the guest's fault".into()),
    }
}

#[test]
fn lookup_of_the_page(rt: HostRuntime) -> Result<(), Fail> {
    let alloc = rt.alloc();
    let mut said = after_ready(alloc, GET)?;
    said.extend_from_slice(NO_ENTRY)?;
    let slow = Slow { rest: &said };
    let Ok(mut talk) = Talk::greet(alloc, slow, Vec::new(alloc), None, 0) else {
        return Err("READY is right".into());
    };
    let mut pairs = nothing(alloc);
    let Ok(answer) = talk.ask(alloc, &mut pairs, &lookup(), NOW, 0) else {
        return Err("it is answered".into());
    };
    assert_eq!(&rt; answer.content().error, 2);
    let mut told = Vec::from_slice(alloc, REQUEST)?;
    told.extend_from_slice(VALUES)?;
    assert!(&rt; has_told(&talk.into_sink(), &told));
    Ok(())
}

#[test]
fn write_puts_a_pair(rt: HostRuntime) -> Result<(), Fail> {
    let alloc = rt.alloc();
    let said = after_ready(
        alloc,
        b"\x2f\0\0\0\x08\0\0\0\0\0\0\0\x01\0\0\0\x08\0\0\0\0\0\0\0\x01\0\0\0\x01\0\0\0k\x02\0\0\0vv\x03\0\0\0\0\0\0\0",
    )?;
    let Ok(mut talk) = Talk::greet(alloc, said.as_slice(), Vec::new(alloc), None, 0) else {
        return Err("READY is right".into());
    };
    assert!(&rt; talk.ready().seen == 2);
    let mut pairs = nothing(alloc);
    let Ok(answer) = talk.ask(alloc, &mut pairs, &write(), NOW, 0) else {
        return Err("it is answered".into());
    };
    let mut content = answer.content();
    assert!(&rt; content.error == 0 && content.body == b"\x03\0\0\0\0\0\0\0".as_slice());
    let Some(PairChange::Put { key, value }) = content.changes.next() else {
        return Err("it puts a pair".into());
    };
    assert!(&rt; key == b"k".as_slice() && value == b"vv".as_slice());
    Ok(())
}

#[test]
fn scans_and_values(rt: HostRuntime) -> Result<(), Fail> {
    let alloc = rt.alloc();
    let scan = b"\x18\0\0\0\x06\0\0\0\0\0\0\0\0\0\0\0\0\0\0\0\0\0\0\0";
    let mut said = after_ready(alloc, scan)?;
    said.extend_from_slice(GET)?;
    said.extend_from_slice(NO_ENTRY)?;
    let Ok(mut talk) = Talk::greet(alloc, said.as_slice(), Vec::new(alloc), None, 0) else {
        return Err("READY is right".into());
    };
    let mut pairs = one_pair(alloc)?;
    assert!(&rt; talk.ask(alloc, &mut pairs, &lookup(), NOW, 0).is_ok());
    let mut told = Vec::from_slice(alloc, REQUEST)?;
    told.extend_from_slice(b"\x1c\0\0\0\x07\0\0\0\x01\0\0\0\0\0\0\0\x02\0\0\0ea\x02\0\0\0vv")?;
    told.extend_from_slice(b"\x16\0\0\0\x05\0\0\0\x01\0\0\0\0\0\0\0\x02\0\0\0vv")?;
    assert!(&rt; has_told(&talk.into_sink(), &told));
    Ok(())
}

#[test]
fn faults(rt: HostRuntime) -> Result<(), Fail> {
    let alloc = rt.alloc();
    let lookup = lookup();
    let ended = Some(TalkFault::Ended);
    for cut in 0..NO_ENTRY.len() {
        assert!(&rt; fault_of(alloc, &lookup, &NO_ENTRY[..cut])? == ended);
    }
    let long = fault_of(alloc, &lookup, b"\x01\0\x40\0\x08\0\0\0")?;
    assert!(&rt; long == Some(TalkFault::Frame(GuestFault::Length(4_194_305))));
    let unknown = fault_of(alloc, &lookup, b"\x08\0\0\0\x63\0\0\0")?;
    assert!(&rt; unknown == Some(TalkFault::Frame(GuestFault::NotDue(99))));
    let ready = fault_of(alloc, &lookup, READY)?;
    assert!(&rt; ready == Some(TalkFault::Frame(GuestFault::NotDue(2))));
    let head = fault_of(alloc, &lookup, b"\x30\0\0\0\x02\0\0\0")?;
    assert!(&rt; head == Some(TalkFault::Frame(GuestFault::NotDue(2))));
    let four = fault_of(alloc, &lookup, b"\0\0\0\0")?;
    assert!(&rt; four == Some(TalkFault::Frame(GuestFault::Length(0))));
    let malformed = fault_of(alloc, &lookup, b"\x09\0\0\0\x08\0\0\0\0")?;
    let wanted = TalkFault::Frame(GuestFault::Malformed(GuestKind::Answer));
    assert!(&rt; malformed == Some(wanted));
    let changes = b"\x21\0\0\0\x08\0\0\0\0\0\0\0\x01\0\0\0\0\0\0\0\0\0\0\0\x02\0\0\0\x01\0\0\0k";
    assert!(&rt; fault_of(alloc, &lookup, changes)? == Some(TalkFault::ChangesOf(1)));
    let empty = b"\x18\0\0\0\x08\0\0\0\0\0\0\0\0\0\0\0\0\0\0\0\0\0\0\0";
    let wanted = TalkFault::Body { len: 0, opcode: 16 };
    assert!(&rt; fault_of(alloc, &write(), empty)? == Some(wanted));
    let four = b"\x20\0\0\0\x08\0\0\0\0\0\0\0\0\0\0\0\x08\0\0\0\0\0\0\0\x04\0\0\0\0\0\0\0";
    assert!(&rt; fault_of(alloc, &write(), four)? == Some(TalkFault::BadBody(16)));
    Ok(())
}

// Why a guest that says this isn't greeted.
fn refusal_of(alloc: Global, said: &[u8], pledged: u64) -> Option<GreetFault> {
    Talk::greet(alloc, said, Vec::new(alloc), None, pledged).err()
}

#[test]
fn greetings(rt: HostRuntime) -> Result<(), Fail> {
    let alloc = rt.alloc();
    let settings = Settings {
        minor: 40,
        max_readahead: 0,
        flags: InitFlags::from_bits_retain(0x80_0000_0001),
    };
    let Ok(talk) = Talk::greet(alloc, READY, Vec::new(alloc), Some(settings), 2) else {
        return Err("it serves what is pledged".into());
    };
    let hello =
        b"\x40\0\0\0\x01\0\0\0\x01\0\0\0\0\0\x40\0\0\x04\0\0\0\0\x04\0\0\x01\0\0\0\x10\0\0\x01\0\0\0\x28\0\0\0\x01\0\0\0\x80\0\0\0\x7a\xff\xf7\x7f\x0c\xf8\0\0\x02\0\0\0\0\0\0\0";
    assert!(&rt; talk.into_sink().as_slice() == hello.as_slice());
    let unserved = refusal_of(alloc, READY, 0x40a);
    assert!(&rt; matches!(unserved, Some(GreetFault::Unserved(3))));
    let get = TalkFault::Frame(GuestFault::NotDue(4));
    assert!(&rt; refusal_of(alloc, GET, 0) == Some(GreetFault::Guest(get)));
    let head = refusal_of(alloc, b"\x08\0\0\0\x04\0\0\0", 0);
    assert!(&rt; head == Some(GreetFault::Guest(get)));
    let version = TalkFault::Frame(GuestFault::Version(2));
    let other = refusal_of(alloc, b"\x0c\0\0\0\x02\0\0\0\x02\0\0\0", 0);
    assert!(&rt; other == Some(GreetFault::Guest(version)));
    let ended = refusal_of(alloc, b"", 0);
    assert!(&rt; ended == Some(GreetFault::Guest(TalkFault::Ended)));
    Ok(())
}

#[test]
fn no_message_says_it(rt: HostRuntime) -> Result<(), Fail> {
    let alloc = rt.alloc();
    let Ok(mut talk) = Talk::greet(alloc, READY, Vec::new(alloc), None, 0) else {
        return Err("READY is right".into());
    };
    let mut pairs = nothing(alloc);
    let unsayable = request(Op::Lookup { name: b"a\0" });
    let asked = talk.ask(alloc, &mut pairs, &unsayable, NOW, 0);
    assert!(&rt; matches!(asked, Err(AskFault::Unsayable)));
    Ok(())
}

#[test]
fn nothing_is_written_of_what_is_given_up(rt: HostRuntime) -> Result<(), Fail> {
    let alloc = rt.alloc();
    let said = after_ready(alloc, NO_ENTRY)?;
    let Ok(mut talk) = Talk::greet(alloc, said.as_slice(), Vec::new(alloc), None, 0) else {
        return Err("READY is right".into());
    };
    assert!(&rt; talk.give_up(&lookup(), NOW, 3).is_ok());
    let unsayable = request(Op::Lookup { name: b"a\0" });
    let refused = talk.give_up(&unsayable, NOW, 3);
    assert!(&rt; matches!(refused, Err(AskFault::Unsayable)));
    let mut pairs = nothing(alloc);
    assert!(&rt; talk.ask(alloc, &mut pairs, &lookup(), NOW, 0).is_ok());
    assert!(&rt; has_told(&talk.into_sink(), REQUEST));
    Ok(())
}
