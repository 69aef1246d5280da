//! Work that is stopped at each call of a disk, and the store that is found then.
use crate::disks::{Held, Stop, Stopped, Which, files_in, observed_in, stop_at, synced, written};
use crate::halves::half;
use crate::stores::{Observed, Work, wanted_in};
use fuse_keeper::StoreFault;
use std::alloc::{AllocError, Global};

// More calls than any work makes.
const MOST: u64 = 2000;

/// The numbers of stops, of calls that were cut short, and of stores that were found with the steps
/// before the stop, with these and the whole stopped step, and with neither.
#[derive(Clone, Copy, Debug)]
pub(crate) struct Tally {
    pub stops: u64,
    pub halves: u64,
    pub before: u64,
    pub whole: u64,
    pub neither: u64,
    /// The first stop after which neither was found.
    pub wrong: Option<u64>,
    /// Whether the work came to its end, and its states differ.
    pub ended: bool,
}

impl Tally {
    const NONE: Tally = Tally {
        stops: 0,
        halves: 0,
        before: 0,
        whole: 0,
        neither: 0,
        wrong: None,
        ended: false,
    };

    fn count(&mut self, found: Found) {
        match found {
            Found::Before => self.before = self.before.saturating_add(1),
            Found::Whole => self.whole = self.whole.saturating_add(1),
            Found::Neither => self.note(),
        }
    }

    fn note(&mut self) {
        self.neither = self.neither.saturating_add(1);
        if self.wrong.is_none() {
            self.wrong = Some(self.stops);
        }
    }
}

#[derive(Clone, Copy)]
enum Found {
    Before,
    Whole,
    Neither,
}

// The files after a stop: where the process dies, and where the machine does.
#[derive(Drop)]
struct Left {
    steps: usize,
    written: Held,
    synced: Held,
}

fn left_by(alloc: Global, stopped: Stopped) -> Result<Left, AllocError> {
    let Stopped { steps, disks } = stopped;
    Ok(Left {
        steps,
        written: written(alloc, &disks)?,
        synced: synced(alloc, disks)?,
    })
}

fn wanted_at(wanted: &[Observed], place: usize, observed: &Observed) -> bool {
    match wanted.get(place) {
        Some(wanted) => wanted == observed,
        None => false,
    }
}

fn found_among(wanted: &[Observed], steps: usize, observed: &Observed) -> Found {
    if wanted_at(wanted, steps, observed) {
        Found::Before
    } else if wanted_at(wanted, steps.saturating_add(1), observed) {
        Found::Whole
    } else {
        Found::Neither
    }
}

// Files that are not opened hold neither.
fn find(
    alloc: Global,
    wanted: &[Observed],
    held: &Held,
    steps: usize,
) -> Result<Found, StoreFault> {
    match observed_in(alloc, held) {
        Ok(observed) => Ok(found_among(wanted, steps, &observed)),
        Err(StoreFault::Memory) => Err(StoreFault::Memory),
        Err(_) => Ok(Found::Neither),
    }
}

// The files where the last call of the disk that stops was cut short, and the other disk is as it
// was before that call.
fn cut_short(alloc: Global, which: Which, last: &Held, now: &Held) -> Result<Held, AllocError> {
    let (log, file) = (last.log.as_slice(), last.file.as_slice());
    match which {
        Which::Log => Ok(Held {
            log: half(alloc, log, now.log.as_slice())?,
            file: Vec::from_slice(alloc, file)?,
        }),
        Which::File => Ok(Held {
            log: Vec::from_slice(alloc, log)?,
            file: half(alloc, file, now.file.as_slice())?,
        }),
    }
}

fn differs(which: Which, last: &Held, now: &Held) -> bool {
    match which {
        Which::Log => last.log.as_slice() != now.log.as_slice(),
        Which::File => last.file.as_slice() != now.file.as_slice(),
    }
}

/// The tally of a work, and the content that is expected after each of its steps.
#[derive(Drop)]
struct Judge {
    alloc: Global,
    which: Which,
    wanted: Vec<Observed>,
    tally: Tally,
}

impl Judge {
    fn find(&mut self, held: &Held, steps: usize) -> Result<(), StoreFault> {
        let found = find(self.alloc, self.wanted.as_slice(), held, steps)?;
        self.tally.count(found);
        Ok(())
    }

    // Judges half of the last call, where that changed something.
    fn judge_half(&mut self, last: &Left, now: &Left) -> Result<(), StoreFault> {
        if !differs(self.which, &last.written, &now.written) {
            return Ok(());
        }
        self.tally.halves = self.tally.halves.saturating_add(1);
        let held = cut_short(self.alloc, self.which, &last.written, &now.written)?;
        self.find(&held, last.steps)
    }

    // Judges the files where the process dies and those where the machine does. What is the same as
    // after the stop before was judged there.
    fn judge(&mut self, last: &Left, now: &Left) -> Result<(), StoreFault> {
        let goes_on = last.steps == now.steps;
        if !goes_on || last.written != now.written {
            self.find(&now.written, now.steps)?;
        }
        if !goes_on || last.synced != now.synced {
            self.find(&now.synced, now.steps)?;
        }
        Ok(())
    }

    fn judge_first(&mut self, now: &Left) -> Result<(), StoreFault> {
        self.find(&now.written, now.steps)?;
        self.find(&now.synced, now.steps)
    }

    fn judge_all(&mut self, last: Option<Left>, now: &Left) -> Result<(), StoreFault> {
        self.tally.stops = self.tally.stops.saturating_add(1);
        match last {
            Some(last) => {
                self.judge_half(&last, now)?;
                self.judge(&last, now)
            }
            None => self.judge_first(now),
        }
    }
}

fn all_wanted(alloc: Global, work: Work) -> Result<Vec<Observed>, StoreFault> {
    let mut wanted = Vec::new(alloc);
    for steps in 0..=work.steps() {
        wanted.push(wanted_in(alloc, work.after(steps))?)?;
    }
    Ok(wanted)
}

fn differ(wanted: &[Observed]) -> bool {
    wanted
        .iter()
        .zip(wanted.iter().skip(1))
        .all(|(one, next)| one != next)
}

/// Stops the work at each call of a disk: at the first, then at the second, until the work ends.
pub(crate) fn stop_at_each(alloc: Global, work: Work, which: Which) -> Result<Tally, StoreFault> {
    let held = files_in(alloc, work.first)?;
    let wanted = all_wanted(alloc, work)?;
    let mut judge = Judge {
        alloc,
        which,
        wanted,
        tally: Tally::NONE,
    };
    let mut last = None;
    for calls in 0..MOST {
        let stopped = stop_at(alloc, &held, Stop { which, calls }, work)?;
        if stopped.steps == work.steps() {
            judge.tally.ended = differ(judge.wanted.as_slice());
            return Ok(judge.tally);
        }
        let now = left_by(alloc, stopped)?;
        judge.judge_all(last, &now)?;
        last = Some(now);
    }
    Ok(judge.tally)
}
