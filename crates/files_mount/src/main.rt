//! The program `files_mount`: serves the five files to `fusekeep-mount`, from memory.
#![tactic(auto)]

ghost use Rattle.std.specs.Prelude.{◌<◌, ◌^◌};

use five_files::{FiveFiles, serve_files};
use fuse_keeper::PlainKeeper;
use fuse_session::{Clock, DevicePort, Ended, Port, System, resume};
use std::alloc::Global;
use std::env;
use std::process::ExitCode;

const USAGE: &str = "usage: files_mount serve --db STORE (--fresh | --resume)";

fn main(rt: HostRuntime) -> ExitCode {
    match run(&rt) {
        Ok(()) => ExitCode::SUCCESS,
        Err(line) => {
            let _ = rt.eprintln(line);
            ExitCode::FAILURE
        }
    }
}

// Does what the last word asks for. There is no store: nothing is made by `--fresh`.
fn run(rt: &HostRuntime) -> Result<(), &'static str> {
    let Ok(mut words) = env::args(rt) else {
        return Err(USAGE);
    };
    match words.last() {
        Some(word) if word.as_str() == "--fresh" => Ok(()),
        Some(word) if word.as_str() == "--resume" => serve_device(rt),
        _ => Err(USAGE),
    }
}

// No buffer may stand between the answers and the device: one write is one answer.
fn serve_device(rt: &HostRuntime) -> Result<(), &'static str> {
    let mut port = DevicePort::new(rt.stdin(), rt.stdout());
    serve_new_files(rt.alloc(), &mut port, &mut System::new(rt))
}

// Asks the kernel for its pending requests, and serves new files until the port ends.
fn serve_new_files<P: Port, C: Clock>(
    alloc: Global,
    port: &mut P,
    clock: &mut C,
) -> Result<(), &'static str>
    requires receives { (P.told port.old).receives < 2 ^ 62 }
    requires failures { (P.told port.old).failures < 2 ^ 62 }
{
    let Ok(mut keeper) = PlainKeeper::<FiveFiles>::new(alloc, clock.now()) else {
        return Err("out of memory");
    };
    if resume(&mut keeper, port).is_err() {
        return Err("the notice can't be sent");
    }
    match serve_files(alloc, &mut keeper, port, clock, u32::MAX).ended {
        Ended::End | Ended::Destroyed => Ok(()),
        _ => Err("the session ended by a fault"),
    }
}
