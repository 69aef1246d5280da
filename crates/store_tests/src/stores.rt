//! The states of a store, and the steps from one to the next.
use crate::groups::perform;
use crate::observations::observe;
use crate::requests::{START, messages, part};
use fuse_init::PlainProfile;
use fuse_rows::Origin;
use fuse_store::{Keeper, PlainKeeper, PlainTree, StoreFault, StoreParts, TableKeeper};
use fuse_store_tables::Volume;
use sqlite::{Alter, Connection, Error};
use sqlite_disk::Memory;
use std::alloc::Global;

/// That of a plain store, which has no room.
pub(crate) const NO_VOLUME: Volume = Volume {
    capacity: 0,
    number: 0,
};

/// The version of a store, 0 where there is none, the number of messages that were performed, and
/// whether the next mount began then.
#[derive(Clone, Copy)]
pub(crate) struct State {
    pub version: i64,
    pub messages: usize,
    pub mounted: bool,
}

/// From one state to another: by a group of its own for each message between them, or all at once.
#[derive(Clone, Copy)]
pub(crate) struct Work {
    pub first: State,
    pub last: State,
    pub each: bool,
}

impl State {
    /// No store.
    pub(crate) const NOTHING: State = State {
        version: 0,
        messages: 0,
        mounted: false,
    };

    /// A store of version 2 where so many messages were performed.
    pub(crate) fn second(messages: usize) -> State {
        State {
            version: 2,
            messages,
            mounted: false,
        }
    }
}

impl Work {
    /// In one step.
    pub(crate) fn at_once(first: State, last: State) -> Work {
        Work {
            first,
            last,
            each: false,
        }
    }

    /// In a step for each message between them.
    pub(crate) fn in_groups(first: State, last: State) -> Work {
        Work {
            first,
            last,
            each: true,
        }
    }

    /// How many steps there are, each of one transaction.
    pub(crate) fn steps(self) -> usize {
        if self.each {
            self.last.messages.saturating_sub(self.first.messages)
        } else {
            1
        }
    }

    /// The state after so many of them.
    pub(crate) fn after(self, steps: usize) -> State {
        let messages = self.first.messages.saturating_add(steps);
        if steps == 0 {
            self.first
        } else if self.each {
            State {
                messages,
                ..self.first
            }
        } else {
            self.last
        }
    }
}

// Turns a store of version 2 into one of version 1, with its records in the table of that version.
const TO_FIRST: &str = "BEGIN; INSERT INTO answers SELECT id, errno, body FROM kept; \
    DROP INDEX entries_in_order; DROP TABLE kept; DROP TABLE lots; \
    DELETE FROM meta WHERE k = 11; UPDATE meta SET v = 1 WHERE k = 1; COMMIT";

/// Turns a store of version 2 into one of version 1, in one transaction.
pub(crate) fn make_first<S: Alter>(conn: &mut Connection<S>) -> Result<(), Error> {
    conn.execute_batch(TO_FIRST)
}

// The version, and the numbers of rows of `meta`, of records of version 1, and of tables and indexes
// of version 2.
const SHAPE: [&str; 4] = [
    "SELECT v FROM meta WHERE k = 1",
    "SELECT count(*) FROM meta",
    "SELECT count(*) FROM answers",
    "SELECT count(*) FROM sqlite_schema WHERE name IN ('lots', 'kept', 'entries_in_order')",
];

/// These numbers of a database; 0 where there is no such table.
pub(crate) fn shape<S: Alter>(conn: &mut Connection<S>) -> [i64; 4] {
    SHAPE.map(|text| number(conn, text).unwrap_or(0))
}

/// The number that a statement returns.
pub(crate) fn number<S: Alter>(conn: &mut Connection<S>, text: &str) -> Result<i64, Error> {
    conn.query_row(text, &[])?.get(0)
}

/// The shape of each version, of the first one with the records of the run.
pub(crate) fn shape_of(version: i64) -> [i64; 4] {
    match version {
        0 => [0; 4],
        1 => [1, 10, 8, 0],
        _ => [2, 11, 0, 3],
    }
}

// The keeper of a plain store, which has no data file.
type Plain<S> = TableKeeper<PlainProfile, S, Memory>;

// The keeper of a database, or the fault and the database.
type Started<S> = Result<Plain<S>, (StoreFault, StoreParts<S, Memory>)>;

// The keeper of a store of this version, which is made where there is none.
fn start<S: Alter + Drop>(alloc: Global, conn: Connection<S>, version: i64) -> Started<S> {
    let parts = StoreParts { conn, disk: None };
    if version == 0 {
        TableKeeper::create(alloc, parts, NO_VOLUME, Origin::at(START))
    } else {
        TableKeeper::open(alloc, parts, None)
    }
}

fn begin_mount<K: Keeper>(keeper: &mut K) -> Result<(), StoreFault> {
    keeper.begin_mount()
}

// The step from one state to the next.
fn go<K: Keeper>(keeper: &mut K, from: State, to: State) -> Result<(), StoreFault> {
    if to.mounted {
        return begin_mount(keeper);
    }
    perform(keeper, part(&messages(0), from.messages, to.messages))?;
    Ok(())
}

// Whether a step was done. A fault of SQL is a stop; any other is returned.
fn is_done<K: Keeper>(keeper: &mut K, from: State, to: State) -> Result<bool, StoreFault> {
    match go(keeper, from, to) {
        Ok(()) => Ok(true),
        Err(StoreFault::Sql(_)) => Ok(false),
        Err(fault) => Err(fault),
    }
}

fn does_step<K: Keeper>(keeper: &mut K, work: Work, place: usize) -> Result<bool, StoreFault> {
    let next = place.saturating_add(1);
    is_done(keeper, work.after(place), work.after(next))
}

// Does the steps from this one on, up to a stop, and returns how many are done then.
fn go_on<K: Keeper>(keeper: &mut K, work: Work, first: usize) -> Result<usize, StoreFault> {
    for place in first..work.steps() {
        if !does_step(keeper, work, place)? {
            return Ok(place);
        }
    }
    Ok(work.steps())
}

// How many steps were done, and the database.
type Ran<S> = Result<(usize, Connection<S>), StoreFault>;

fn run_on<S: Alter + Drop>(mut keeper: Plain<S>, work: Work) -> Ran<S> {
    let opening = if work.first.version == 2 { 0 } else { 1 };
    let steps = go_on(&mut keeper, work, opening)?;
    Ok((steps, keeper.into_parts().conn))
}

/// Does the work over a database, up to a stop. Making a store is a step, and so is a migration.
pub(crate) fn run<S: Alter + Drop>(alloc: Global, conn: Connection<S>, work: Work) -> Ran<S> {
    match start(alloc, conn, work.first.version) {
        Ok(keeper) => run_on(keeper, work),
        Err((StoreFault::Sql(_), parts)) => Ok((0, parts.conn)),
        Err((fault, _)) => Err(fault),
    }
}

/// Makes a store in such a state, where each message was a group of its own.
pub(crate) fn make<S: Alter + Drop>(
    alloc: Global,
    conn: Connection<S>,
    state: State,
) -> Result<Connection<S>, StoreFault> {
    let new = State::second(0);
    let last = State::second(state.messages);
    let (_, conn) = run(alloc, conn, Work::at_once(State::NOTHING, new))?;
    let (_, mut conn) = run(alloc, conn, Work::in_groups(new, last))?;
    if state.version == 1 {
        make_first(&mut conn)?;
    }
    Ok(conn)
}

/// The content of a database: its shape, and the values that its keeper returns.
#[derive(Drop, PartialEq)]
pub(crate) struct Observed {
    pub shape: [i64; 4],
    pub by_keeper: Vec<u8>,
}

fn observed_by<K: Keeper>(
    alloc: Global,
    mut keeper: K,
    shape: [i64; 4],
) -> Result<Observed, StoreFault> {
    let by_keeper = observe(alloc, &mut keeper)?;
    Ok(Observed { shape, by_keeper })
}

/// The content of a database.
pub(crate) fn observed_of<S: Alter + Drop>(
    alloc: Global,
    mut conn: Connection<S>,
) -> Result<Observed, StoreFault> {
    let shape = shape(&mut conn);
    match start(alloc, conn, shape[0]) {
        Ok(keeper) => observed_by(alloc, keeper, shape),
        Err((fault, _)) => Err(fault),
    }
}

// A keeper of lists in such a state.
fn lists_in(
    alloc: Global,
    state: State,
) -> Result<PlainKeeper<PlainTree<PlainProfile>>, StoreFault> {
    let mut lists = PlainKeeper::new(alloc, START)?;
    perform(&mut lists, part(&messages(0), 0, state.messages))?;
    if state.mounted {
        begin_mount(&mut lists)?;
    }
    Ok(lists)
}

/// The expected content in such a state, by a keeper of lists.
pub(crate) fn wanted_in(alloc: Global, state: State) -> Result<Observed, StoreFault> {
    observed_by(alloc, lists_in(alloc, state)?, shape_of(state.version))
}
