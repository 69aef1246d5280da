//! The command line.
ghost use Rattle.std.specs.Prelude.{◌≡◌, ◌⊎◌, codes, map, IfOk, IfSome};
ghost use Rattle.clap.specs.Values.{kind_of};
ghost use Rattle.clap.specs.Matches.{found_of, one_text};
ghost use Rattle.fuse_commands.specs.Asking.{asked_store_in, BeginsBy, IsNumberIn, IsFlag};
ghost use Rattle.fuse_commands.specs.Asking.{HasWord, IsRun, AsksRun, ParsesTo};

use crate::asked_store::{AskedStore, asked_store, names_no_owner};
use crate::program::{
    AT, CAT, CHECK, DB, DECODE, DUMP, FILE, FRESH, LIST, PATH, REPLAY, RESUME, SCRIPT, SERVE,
    SIMULATE, STORE, STREAM, VERIFY, WARY, program_command,
};
use crate::serve::Begin;
use clap::error::ErrorKind;
use clap::{ArgMatches, Error};
use std::alloc::{AllocError, Global};
use std::convert::AsStr;

/// The file name that means standard input.
pub const STANDARD_INPUT: &str = "-";

/// The path of the root directory of a store.
const TOP: &str = "/";

const OWNER_TEXT: &str = "--owner is UID:GID, two decimal numbers below 4294967296";

const CAPACITY_TEXT: &str =
    "--capacity is for --profile everyday: a multiple of 4096, at most 9223372036854771712";

/// What a command line asks for.
#[derive(Clone, Copy)]
pub enum Run<'a> {
    /// To process a file, or standard input (`STANDARD_INPUT`).
    Read {
        input: &'a str,
        work: Work<'a>,
    },
    /// To serve requests from a device over the store in a file, or over a `new` one. `begin` is
    /// `None` where neither way to begin is named, or both. Without `at` the moments are those of
    /// the machine's clock. Where it is `wary`, a torn write may leave any bytes in the store's
    /// files.
    Serve {
        db: &'a str,
        begin: Option<Begin>,
        at: Option<u64>,
        wary: bool,
        new: AskedStore,
    },
    /// To print a summary of the store in a file.
    Store {
        file: &'a str,
    },
    /// To list a directory of the store in a file.
    List {
        file: &'a str,
        path: &'a str,
    },
    /// To print a file of the store in a file.
    Cat {
        file: &'a str,
        path: &'a str,
    },
    /// To look at the whole tree of the store in a file.
    Verify {
        file: &'a str,
    },
}

/// What a command does with its input.
#[derive(Clone, Copy)]
pub enum Work<'a> {
    /// To print a line for each message of a stream.
    Dump,
    /// To print a line for each answer of a stream that a server sent.
    Decode,
    /// To count the messages of a stream.
    Check,
    /// To serve a recorded stream, each request at the same second, over the store in the file
    /// `db`, which `wary` is about as for a server, or over a `new` one: in that file, or else in
    /// memory.
    Replay {
        db: Option<&'a str>,
        at: u64,
        wary: bool,
        new: AskedStore,
    },
    /// To run the events of a script over a new store in memory.
    Simulate {
        new: AskedStore,
    },
}

impl Run<'_> {
    /// The new store that is asked for. Of a command that makes none it is a plain one.
    pub fn new_store(&self) -> AskedStore
        ensures { result ≡ asked_store_in self.now }
    {
        match self {
            Run::Serve { new, .. } => *new,
            Run::Read {
                work: Work::Replay { new, .. },
                ..
            } => *new,
            Run::Read {
                work: Work::Simulate { new },
                ..
            } => *new,
            _ => AskedStore::PLAIN,
        }
    }
}

// The second that is given.
fn at_of(found: &ArgMatches<'_>) -> Option<u64>
    ensures { IsNumberIn (one_text (found_of found.now) (codes "at")) result }
{
    found.get_one::<u64>(AT)
}

// Whether this flag is given.
fn flag_of(found: &ArgMatches<'_>, name: &str) -> bool
    ensures { IsFlag (found_of found.now) name.now result }
{
    found.get_flag(name)
}

// The argument that must stand there.
fn word_of<'a>(found: &ArgMatches<'a>, name: &str) -> Option<&'a str>
    ensures { IfSome result (HasWord (found_of found.now) name.now) }
{
    found.get_str(name)
}

fn dump_run<'a>(found: &ArgMatches<'a>) -> Option<Run<'a>>
    ensures { IfSome result (IsRun (codes "dump") (found_of found.now)) }
{
    let input = word_of(found, FILE)?;
    Some(Run::Read {
        input,
        work: Work::Dump,
    })
}

fn decode_run<'a>(found: &ArgMatches<'a>) -> Option<Run<'a>>
    ensures { IfSome result (IsRun (codes "decode") (found_of found.now)) }
{
    let input = word_of(found, FILE)?;
    Some(Run::Read {
        input,
        work: Work::Decode,
    })
}

fn check_run<'a>(found: &ArgMatches<'a>) -> Option<Run<'a>>
    ensures { IfSome result (IsRun (codes "check") (found_of found.now)) }
{
    let input = word_of(found, FILE)?;
    Some(Run::Read {
        input,
        work: Work::Check,
    })
}

fn replay_run<'a>(found: &ArgMatches<'a>) -> Option<Run<'a>>
    ensures { IfSome result (IsRun (codes "replay") (found_of found.now)) }
{
    let input = word_of(found, STREAM)?;
    let db = found.get_str(DB);
    let at = at_of(found)?;
    let wary = flag_of(found, WARY);
    let new = asked_store(found)?;
    Some(Run::Read {
        input,
        work: Work::Replay { db, at, wary, new },
    })
}

fn simulate_run<'a>(found: &ArgMatches<'a>) -> Option<Run<'a>>
    ensures { IfSome result (IsRun (codes "simulate") (found_of found.now)) }
{
    let input = word_of(found, SCRIPT)?;
    let new = asked_store(found)?;
    Some(Run::Read {
        input,
        work: Work::Simulate { new },
    })
}

// The way to begin, if exactly one is named.
fn begin_of(found: &ArgMatches<'_>) -> Option<Begin>
    ensures { BeginsBy (found_of found.now) result }
{
    let fresh = flag_of(found, FRESH);
    let resume = flag_of(found, RESUME);
    match (fresh, resume) {
        (true, false) => Some(Begin::Fresh),
        (false, true) => Some(Begin::Resume),
        _ => None,
    }
}

fn serve_run<'a>(found: &ArgMatches<'a>) -> Option<Run<'a>>
    ensures { IfSome result (IsRun (codes "serve") (found_of found.now)) }
{
    let db = word_of(found, DB)?;
    Some(Run::Serve {
        db,
        begin: begin_of(found),
        at: at_of(found),
        wary: flag_of(found, WARY),
        new: asked_store(found)?,
    })
}

fn store_run<'a>(found: &ArgMatches<'a>) -> Option<Run<'a>>
    ensures { IfSome result (IsRun (codes "store") (found_of found.now)) }
{
    let file = word_of(found, FILE)?;
    Some(Run::Store { file })
}

fn list_run<'a>(found: &ArgMatches<'a>) -> Option<Run<'a>>
    ensures { IfSome result (IsRun (codes "ls") (found_of found.now)) }
{
    let file = word_of(found, FILE)?;
    let path = found.get_str(PATH).unwrap_or(TOP);
    Some(Run::List { file, path })
}

fn cat_run<'a>(found: &ArgMatches<'a>) -> Option<Run<'a>>
    ensures { IfSome result (IsRun (codes "cat") (found_of found.now)) }
{
    let file = word_of(found, FILE)?;
    let path = word_of(found, PATH)?;
    Some(Run::Cat { file, path })
}

fn verify_run<'a>(found: &ArgMatches<'a>) -> Option<Run<'a>>
    ensures { IfSome result (IsRun (codes "verify") (found_of found.now)) }
{
    let file = word_of(found, FILE)?;
    Some(Run::Verify { file })
}

// The run of the command that was found.
fn run_of<'a>(matches: &ArgMatches<'a>) -> Option<Run<'a>>
    ensures { IfSome result (AsksRun matches.now) }
{
    match matches.subcommand()? {
        (DUMP, found) => dump_run(found),
        (DECODE, found) => decode_run(found),
        (CHECK, found) => check_run(found),
        (REPLAY, found) => replay_run(found),
        (SERVE, found) => serve_run(found),
        (SIMULATE, found) => simulate_run(found),
        (STORE, found) => store_run(found),
        (LIST, found) => list_run(found),
        (CAT, found) => cat_run(found),
        (VERIFY, found) => verify_run(found),
        _ => None,
    }
}

// An error of the command line, with the usage.
fn usage_error(alloc: Global, kind: ErrorKind, text: &str) -> Result<Error, AllocError>
    ensures { IfOk result (λ e. kind_of e ≡ kind) }
{
    program_command(alloc)?.error(kind, text)
}

// The error for words that ask for nothing: an owner that is none, or a word that is missing.
fn unread_error(alloc: Global, matches: &ArgMatches<'_>) -> Result<Error, AllocError> {
    match matches.subcommand() {
        Some((_, found)) if names_no_owner(found) => {
            usage_error(alloc, ErrorKind::ValueValidation, OWNER_TEXT)
        }
        _ => usage_error(
            alloc,
            ErrorKind::MissingRequiredArgument,
            "a word is missing",
        ),
    }
}

/// Parses a command line, whose first word is the program's name. An `Err` is a mistake in it, the
/// help or the version that it asks for, or out of memory.
pub fn parse<'a, S: AsStr>(
    alloc: Global,
    words: &'a [S],
    version: &'a str,
) -> Result<Run<'a>, Error>
    ensures { IfOk result (ParsesTo (map S.text words.now)) }
{
    let command = program_command(alloc)?.version(version);
    let matches = command.try_get_matches_from(words)?;
    match run_of(&matches) {
        Some(run) => Ok(run),
        None => Err(unread_error(alloc, &matches)?),
    }
}

/// The error for a new store that is not possible: a plain one with a capacity, or an everyday one
/// with a capacity that is none.
pub fn impossible_store(alloc: Global) -> Error
    ensures { (kind_of result ≡ ErrorKind.InvalidValue) ⊎ (kind_of result ≡ ErrorKind.OutOfMemory) }
{
    match usage_error(alloc, ErrorKind::InvalidValue, CAPACITY_TEXT) {
        Ok(error) => error,
        Err(refused) => Error::from(refused),
    }
}

/// The error for a command line that is not text.
pub fn unreadable(alloc: Global) -> Error
    ensures { (kind_of result ≡ ErrorKind.InvalidValue) ⊎ (kind_of result ≡ ErrorKind.OutOfMemory) }
{
    match usage_error(alloc, ErrorKind::InvalidValue, "a word is no text") {
        Ok(error) => error,
        Err(refused) => Error::from(refused),
    }
}
