//! The program `fusekeep`: it serves a FUSE device or a recorded stream from a store, shows stores
//! and streams, and runs scripts of events.
#![tactic(auto)]

mod causes;
mod companion;
mod deaths;
mod ends;
mod number;
mod serve;
mod show;
mod snapshot;
mod version;

use causes::say_cause;
use clap::Error;
use clap::error::ErrorKind;
use companion::{look_beside, remove_unused};
use ends::{DataEnd, End};
use fuse_commands::{
    Cause, Ending, ProgressReader, Run, STANDARD_INPUT, Work, impossible_store, parse, run_check,
    run_decode, run_dump, unreadable,
};
use fuse_data_host::DataStart;
use fuse_files::{Show, kind_asked, replay_in_memory, replay_store, simulate_store};
use fuse_store::StoreKind;
use fuse_store_files::{CrashMemory, StoreFiles, StoreLeft};
use fuse_wire::Moment;
use number::draw_number;
use serve::serve_as_asked;
use show::{show_file, verify_file};
use sqlite::{Files, Start, Unknown, Wary};
use std::alloc::Global;
use std::io::{BufWriter, IsTerminal, Read, Write};
use std::process::ExitCode;
use std::{env, fs, io};
use version::VERSION;

fn main(rt: HostRuntime) -> ExitCode {
    ExitCode::from(run(&rt).status())
}

// Prints the message of clap: on standard output if the version was asked for.
fn refuse<R: Print + Eprint>(rt: &R, error: Error) -> Ending {
    match error.kind() {
        ErrorKind::OutOfMemory => Ending::Memory,
        ErrorKind::DisplayVersion => match rt.print(&error) {
            Ok(()) => Ending::Done,
            Err(_) => Ending::PortFailed,
        },
        _ => {
            let _ = rt.eprint(&error);
            Ending::Usage
        }
    }
}

// Prints the line of an ending.
fn say_ending<R: Eprint>(rt: &R, ending: Ending) {
    if let Some(line) = ending.line() {
        let _ = rt.eprintln(line);
    }
}

// The command line.
fn words_of(rt: &HostRuntime) -> Result<Vec<String>, Ending> {
    match env::args(rt) {
        Ok(words) => Ok(words.collect::<Vec<String>>(rt.alloc())?),
        Err(error) if error.kind() == io::ErrorKind::OutOfMemory => Err(Ending::Memory),
        Err(_) => Err(refuse(rt, unreadable(rt.alloc()))),
    }
}

// Runs the command line. A fault has a line, and one for its cause if that is known.
fn run(rt: &HostRuntime) -> Ending {
    let words = match words_of(rt) {
        Ok(words) => words,
        Err(ending) => {
            say_ending(rt, ending);
            return ending;
        }
    };
    match parse(rt.alloc(), words.as_slice(), VERSION) {
        Ok(asked) => {
            let end = run_as_asked(rt, asked);
            say_ending(rt, end.ending);
            say_cause(rt, asked, end);
            end.ending
        }
        Err(error) => {
            let ending = refuse(rt, error);
            say_ending(rt, ending);
            ending
        }
    }
}

// Runs a command, if the new store that it asks for is possible.
fn run_as_asked(rt: &HostRuntime, asked: Run<'_>) -> End {
    match kind_asked(asked.new_store()) {
        Some(kind) => run_command(rt, asked, kind),
        None => End::of(refuse(rt, impossible_store(rt.alloc()))),
    }
}

// Runs a command. A new store is of this kind.
fn run_command(rt: &HostRuntime, asked: Run<'_>, kind: StoreKind) -> End {
    match asked {
        Run::Serve {
            db,
            begin,
            at,
            wary,
            ..
        } => {
            if wary {
                serve_as_asked(rt, db, Wary, begin, at, kind)
            } else {
                serve_as_asked(rt, db, Unknown, begin, at, kind)
            }
        }
        Run::Store { file } => End::of(show_file(rt, file, Show::Summary)),
        Run::List { file, path } => End::of(show_file(rt, file, Show::Directory(path))),
        Run::Cat { file, path } => End::of(show_file(rt, file, Show::File(path))),
        Run::Verify { file } => End::of(verify_file(rt, file)),
        Run::Read { input, work } => run_on_input(rt, input, work, kind),
    }
}

// Opens the input and processes it.
fn run_on_input(rt: &HostRuntime, input: &str, work: Work<'_>, kind: StoreKind) -> End {
    if input == STANDARD_INPUT {
        return run_with_progress(rt, rt.reader(), None, work, kind);
    }
    match fs::open(rt, input) {
        Ok(file) => {
            let total = size_of(&file);
            run_with_progress(rt, file, total, work, kind)
        }
        Err(_) => End::of(Ending::PortFailed),
    }
}

// The size of a regular file.
fn size_of(file: &fs::File) -> Option<u64> {
    match file.metadata() {
        Ok(metadata) if metadata.is_file() => Some(metadata.len()),
        _ => None,
    }
}

// Whether progress is shown: on a terminal on which no output appears meanwhile.
fn is_watched(rt: &HostRuntime, work: Work<'_>) -> bool {
    let prints_apart = match work {
        Work::Check => true,
        Work::Dump | Work::Decode | Work::Replay { .. } => !rt.stdout().is_terminal(),
        Work::Simulate { .. } => false,
    };
    prints_apart && rt.stderr().is_terminal()
}

// Processes the input, with progress on a terminal.
fn run_with_progress<R: Read + Drop>(
    rt: &HostRuntime,
    reader: R,
    total: Option<u64>,
    work: Work<'_>,
    kind: StoreKind,
) -> End {
    if is_watched(rt, work) {
        run_work(rt, ProgressReader::new(reader, rt, total), work, kind)
    } else {
        run_work(rt, reader, work, kind)
    }
}

// Processes the input, with buffered output.
fn run_work<R: Read + Drop>(rt: &HostRuntime, reader: R, work: Work<'_>, kind: StoreKind) -> End {
    let alloc = rt.alloc();
    let Ok(mut writer) = BufWriter::new(alloc, io::writer(rt)) else {
        return End::of(Ending::Memory);
    };
    match work {
        Work::Dump => End::of(run_dump(alloc, reader, &mut writer)),
        Work::Decode => End::of(run_decode(alloc, reader, &mut writer)),
        Work::Check => End::of(run_check(alloc, reader, &mut writer)),
        Work::Replay { db, at, wary, .. } => {
            let moment = Moment { secs: at, nanos: 0 };
            match db {
                None => End::of(replay_in_memory(alloc, kind, reader, &mut writer, moment)),
                Some(file) if wary => {
                    replay_on_file(rt, file, Wary, kind, reader, &mut writer, moment)
                }
                Some(file) => replay_on_file(rt, file, Unknown, kind, reader, &mut writer, moment),
            }
        }
        Work::Simulate { .. } => { End::of(simulate_in_memory(alloc, kind, reader, &mut writer)) }
    }
}

// Replays over the store in a file.
fn replay_on_file<S: Start, R: Read + Drop, W: Write>(
    rt: &HostRuntime,
    file: &str,
    start: S,
    kind: StoreKind,
    reader: R,
    writer: &mut W,
    moment: Moment,
) -> End {
    let Ok(number) = draw_number(rt) else {
        return End::of(Ending::Sql(Cause::CannotOpen));
    };
    let missing = look_beside(rt, file);
    let files = StoreFiles::at(rt, file, start, DataStart);
    let new = (kind, number);
    let (ending, left) = replay_store(rt.alloc(), files, new, reader, writer, moment);
    let Some(StoreLeft { tables, disk }) = left else {
        return End::of(ending);
    };
    remove_unused(rt, missing, ending);
    let data = DataEnd::of(&disk);
    let _files = (tables.into_files(), disk);
    End { ending, data }
}

// Runs a script over a new store in files in memory.
fn simulate_in_memory<R: Read + Drop, W: Write>(
    alloc: Global,
    kind: StoreKind,
    reader: R,
    writer: &mut W,
) -> Ending {
    let files = Files {
        log: CrashMemory::new(alloc),
        db: CrashMemory::new(alloc),
    };
    let disk = CrashMemory::new(alloc);
    simulate_store(alloc, (files, disk), kind, reader, writer)
}
