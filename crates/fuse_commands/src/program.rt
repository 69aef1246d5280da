//! The commands of the program, and their arguments. The lists of both are made first: a `?` while a
//! command lives makes a long proof.
use crate::asked_store::{add_new_store, without_new_store};
use clap::{Arg, ArgAction, Command, value_parser};
use std::alloc::{AllocError, Global};

pub(crate) const DUMP: &str = "dump";

pub(crate) const DECODE: &str = "decode";

pub(crate) const CHECK: &str = "check";

pub(crate) const REPLAY: &str = "replay";

pub(crate) const SERVE: &str = "serve";

pub(crate) const SIMULATE: &str = "simulate";

pub(crate) const STORE: &str = "store";

pub(crate) const LIST: &str = "ls";

pub(crate) const CAT: &str = "cat";

pub(crate) const VERIFY: &str = "verify";

pub(crate) const AT: &str = "at";

pub(crate) const DB: &str = "db";

pub(crate) const FRESH: &str = "fresh";

pub(crate) const RESUME: &str = "resume";

pub(crate) const WARY: &str = "wary";

pub(crate) const FILE: &str = "file";

pub(crate) const STREAM: &str = "stream";

pub(crate) const SCRIPT: &str = "script";

pub(crate) const PATH: &str = "path";

const STREAM_HELP: &str = "The file of the stream, or - for standard input";

// A required argument.
fn needed_argument<'a>(
    alloc: Global,
    name: &'static str,
    value: &'static str,
    help: &'static str,
) -> Arg<'a> {
    Arg::new(alloc, name)
        .value_name(value)
        .required(true)
        .help(help)
}

// A command over the stream in a file.
fn file_command<'a>(
    alloc: Global,
    name: &'static str,
    about: &'static str,
    example: &'static str,
) -> Result<Command<'a>, AllocError> {
    let file = needed_argument(alloc, FILE, "FILE", STREAM_HELP);
    Command::new(alloc, name)
        .about(about)
        .after_help(example)
        .arg(file)
}

fn dump_command<'a>(alloc: Global) -> Result<Command<'a>, AllocError> {
    let about = "Prints a line for each message of a stream";
    let example = "Example:\n  fusekeep dump examples/first-run.stream";
    file_command(alloc, DUMP, about, example)
}

fn decode_command<'a>(alloc: Global) -> Result<Command<'a>, AllocError> {
    let about = "Prints a line for each answer and notice of a stream that a server sent";
    let example = "Example:\n  fusekeep serve --db notes.store --fresh <in | fusekeep decode -";
    file_command(alloc, DECODE, about, example)
}

fn check_command<'a>(alloc: Global) -> Result<Command<'a>, AllocError> {
    let about = "Counts the messages of a stream";
    let example = "Example:\n  fusekeep check examples/first-run.stream";
    file_command(alloc, CHECK, about, example)
}

fn at_argument<'a>(alloc: Global) -> Arg<'a> {
    needed_argument(
        alloc,
        AT,
        "SECS",
        "The second at which all requests are served",
    )
    .long(AT)
    .value_parser(value_parser!(u64))
}

fn db_argument<'a>(alloc: Global) -> Arg<'a> {
    Arg::new(alloc, DB)
        .long(DB)
        .value_name("FILE")
        .help("The file of the store, created if it is missing or empty")
}

// An optional flag.
fn flag<'a>(alloc: Global, name: &'static str, help: &'static str) -> Arg<'a> {
    Arg::new(alloc, name)
        .long(name)
        .action(ArgAction::SetTrue)
        .help(help)
}

fn wary_argument<'a>(alloc: Global) -> Arg<'a> {
    flag(
        alloc,
        WARY,
        "Supposes nothing of the bytes that a torn write leaves: each commit syncs twice",
    )
}

/// Adds an argument.
pub(crate) fn add_argument<'a>(
    arguments: &mut Vec<Arg<'a>>,
    argument: Arg<'a>,
) -> Result<(), AllocError> {
    arguments.push(argument)?;
    Ok(())
}

fn stream_argument<'a>(alloc: Global) -> Arg<'a> {
    needed_argument(alloc, STREAM, "STREAM", STREAM_HELP)
}

fn replay_arguments<'a>(alloc: Global) -> Result<Vec<Arg<'a>>, AllocError> {
    let wary = wary_argument(alloc).requires_arg(DB)?;
    let mut arguments = Vec::new(alloc);
    add_argument(&mut arguments, db_argument(alloc))?;
    add_argument(&mut arguments, wary)?;
    add_argument(&mut arguments, at_argument(alloc))?;
    add_argument(&mut arguments, stream_argument(alloc))?;
    add_new_store(alloc, &mut arguments)?;
    Ok(arguments)
}

fn replay_command<'a>(alloc: Global) -> Result<Command<'a>, AllocError> {
    let arguments = replay_arguments(alloc)?;
    let example =
        "Example:\n  fusekeep replay --db notes.store --at 1000 examples/first-run.stream";
    Command::new(alloc, REPLAY)
        .about("Serves a recorded stream over a new store in memory, or over the store in a file")
        .after_help(example)
        .args(arguments)
}

fn fresh_argument<'a>(alloc: Global) -> Arg<'a> {
    flag(
        alloc,
        FRESH,
        "Begins a mount, over a new store if the file is missing or empty",
    )
}

fn resume_argument<'a>(alloc: Global) -> Result<Arg<'a>, AllocError> {
    let help = "Continues a mount: asks the kernel to resend its pending requests";
    without_new_store(flag(alloc, RESUME, help))
}

fn needed_db_argument<'a>(alloc: Global) -> Arg<'a> {
    needed_argument(alloc, DB, "FILE", "The file of the store").long(DB)
}

fn serve_arguments<'a>(alloc: Global) -> Result<Vec<Arg<'a>>, AllocError> {
    let resume = resume_argument(alloc)?;
    let mut arguments = Vec::new(alloc);
    add_argument(&mut arguments, needed_db_argument(alloc))?;
    add_argument(&mut arguments, fresh_argument(alloc))?;
    add_argument(&mut arguments, resume)?;
    add_argument(&mut arguments, wary_argument(alloc))?;
    add_argument(&mut arguments, at_argument(alloc).required(false))?;
    add_new_store(alloc, &mut arguments)?;
    Ok(arguments)
}

fn serve_command<'a>(alloc: Global) -> Result<Command<'a>, AllocError> {
    let arguments = serve_arguments(alloc)?;
    Command::new(alloc, SERVE)
        .about("Serves requests from standard input to standard output, as they come")
        .after_help("Example:\n  fusekeep serve --db notes.store --fresh <in >out")
        .args(arguments)
}

fn simulate_arguments<'a>(alloc: Global) -> Result<Vec<Arg<'a>>, AllocError> {
    let help = "The file of the script, or - for standard input";
    let mut arguments = Vec::new(alloc);
    add_argument(
        &mut arguments,
        needed_argument(alloc, SCRIPT, "SCRIPT", help),
    )?;
    add_new_store(alloc, &mut arguments)?;
    Ok(arguments)
}

fn simulate_command<'a>(alloc: Global) -> Result<Command<'a>, AllocError> {
    let arguments = simulate_arguments(alloc)?;
    Command::new(alloc, SIMULATE)
        .about("Runs the events of a script over a new store in memory")
        .after_help("Example:\n  fusekeep simulate examples/died-after-commit.script")
        .args(arguments)
}

// A read-only command over the store in a file.
fn look_command<'a>(
    alloc: Global,
    name: &'static str,
    about: &'static str,
    example: &'static str,
) -> Result<Command<'a>, AllocError> {
    let file = needed_argument(alloc, FILE, "FILE", "The file of the store");
    Command::new(alloc, name)
        .about(about)
        .after_help(example)
        .arg(file)
}

fn store_command<'a>(alloc: Global) -> Result<Command<'a>, AllocError> {
    let about = "Prints a summary of a store, without a mount";
    look_command(
        alloc,
        STORE,
        about,
        "Example:\n  fusekeep store notes.store",
    )
}

fn list_command<'a>(alloc: Global) -> Result<Command<'a>, AllocError> {
    let about = "Lists a directory of a store, without a mount";
    let help = "The path of the directory [default: the root]";
    let path = needed_argument(alloc, PATH, "PATH", help).required(false);
    look_command(alloc, LIST, about, "Example:\n  fusekeep ls notes.store a")?.arg(path)
}

fn cat_command<'a>(alloc: Global) -> Result<Command<'a>, AllocError> {
    let about = "Prints a file of a store, without a mount";
    let example = "Example:\n  fusekeep cat notes.store a/readme.txt >readme.txt";
    let path = needed_argument(alloc, PATH, "PATH", "The path of the file");
    look_command(alloc, CAT, about, example)?.arg(path)
}

fn verify_command<'a>(alloc: Global) -> Result<Command<'a>, AllocError> {
    let about = "Checks the whole tree of a store, without a mount";
    look_command(
        alloc,
        VERIFY,
        about,
        "Example:\n  fusekeep verify notes.store",
    )
}

// Adds a command, if it was made.
fn add_command<'a>(
    commands: &mut Vec<Command<'a>>,
    made: Result<Command<'a>, AllocError>,
) -> Result<(), AllocError> {
    commands.push(made?)?;
    Ok(())
}

// Adds the commands over a stream or a script.
fn add_runs<'a>(alloc: Global, commands: &mut Vec<Command<'a>>) -> Result<(), AllocError> {
    add_command(commands, dump_command(alloc))?;
    add_command(commands, decode_command(alloc))?;
    add_command(commands, check_command(alloc))?;
    add_command(commands, replay_command(alloc))?;
    add_command(commands, serve_command(alloc))?;
    add_command(commands, simulate_command(alloc))
}

// Adds the read-only commands over a store.
fn add_looks<'a>(alloc: Global, commands: &mut Vec<Command<'a>>) -> Result<(), AllocError> {
    add_command(commands, store_command(alloc))?;
    add_command(commands, list_command(alloc))?;
    add_command(commands, cat_command(alloc))?;
    add_command(commands, verify_command(alloc))
}

fn all_commands<'a>(alloc: Global) -> Result<Vec<Command<'a>>, AllocError> {
    let mut commands = Vec::new(alloc);
    add_runs(alloc, &mut commands)?;
    add_looks(alloc, &mut commands)?;
    Ok(commands)
}

/// The program's commands, with their arguments.
pub(crate) fn program_command<'a>(alloc: Global) -> Result<Command<'a>, AllocError> {
    let commands = all_commands(alloc)?;
    Command::new(alloc, "fusekeep")
        .about("Serves FUSE requests, with recovery by resends")
        .after_help("Example:\n  fusekeep check examples/first-run.stream")
        .subcommand_required(true)
        .subcommands(commands)
}
