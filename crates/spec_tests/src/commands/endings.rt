//! The table of endings.
use fuse_commands::{Cause, Ending};
use std::alloc::Global;
use std::test::Fail;

// An ending, its exit status, and the line on standard error, if there is one.
type Case = (Ending, u8, &'static str);

fn of_streams() -> [Case; 7] {
    [
        (Ending::Done, 0, ""),
        (
            Ending::Short { at: 46, len: 39 },
            1,
            "stream: Short at 46: len 39",
        ),
        (
            Ending::TooLong {
                at: 0,
                len: 135_169,
            },
            1,
            "stream: TooLong at 0: len 135169",
        ),
        (
            Ending::Cut {
                at: 46,
                have: 3,
                need: 4,
            },
            1,
            "stream: Cut at 46: have 3, need 4",
        ),
        (Ending::ZeroUnique { at: 7 }, 1, "stream: ZeroUnique at 7"),
        (Ending::Malformed, 1, ""),
        (Ending::ScriptLine { line: 3 }, 1, "script: line 3"),
    ]
}

fn others() -> [Case; 15] {
    [
        (Ending::Usage, 2, ""),
        (Ending::Modes, 2, "usage: one of --fresh and --resume"),
        (Ending::Sql(Cause::NoRoom), 3, "store: Sql"),
        (Ending::NotAStore, 3, "store: NotAStore"),
        (Ending::Version(7), 3, "store: Version(7)"),
        (Ending::Damaged, 3, "store: Damaged"),
        (Ending::Busy, 3, "store: Busy"),
        (Ending::NotOffered, 3, "resume: NotOffered"),
        (Ending::NoSuchPath, 3, "path: NoSuchPath"),
        (Ending::NotDirectory, 3, "path: NotDirectory"),
        (Ending::NotFile, 3, "path: NotFile"),
        (Ending::PortFailed, 4, "port: failed"),
        (Ending::PortTurns, 4, "port: turns"),
        (Ending::Memory, 5, "memory"),
        (Ending::Guest, 5, ""),
    ]
}

// The line on standard error.
fn said(alloc: Global, ending: Ending) -> Result<String, Fail> {
    match ending.line() {
        Some(line) => Ok(format!(in alloc; "{line}")?),
        None => Ok(String::new(alloc)),
    }
}

// The number of right cases, from the first on.
fn right_in(alloc: Global, cases: &[Case]) -> Result<usize, Fail> {
    for (place, (ending, status, line)) in cases.iter().enumerate() {
        if ending.status() != *status || said(alloc, *ending)?.as_str() != *line {
            return Ok(place);
        }
    }
    Ok(cases.len())
}

#[test]
fn endings(rt: HostRuntime) -> Result<(), Fail> {
    let streams = right_in(rt.alloc(), &of_streams())?;
    let others = right_in(rt.alloc(), &others())?;
    assert_eq!(rt; [streams, others], [7, 15]);
    Ok(())
}
