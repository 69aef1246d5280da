// What a store shows, read beside a server that may be at work.

use crate::deaths::show_deaths;
use crate::snapshot::{LogMark, mark_log, open_data, read_store};
use fuse_commands::{Cause, Ending};
use fuse_files::{Show, show_store, verify_store};
use std::io::{self, BufWriter, Write};

// A store that changes while it is read is read again, at most so often.
const TRIES: usize = 8;

// What is asked of a store.
#[derive(Clone, Copy)]
enum Asked<'a> {
    Show(Show<'a>),
    Verify,
}

// A writer that knows whether anything was written to it.
#[derive(Drop)]
struct Watched<W: Drop> {
    inner: W,
    wrote: bool,
}

impl<W: Write + Drop> Write for Watched<W> {
    fn write(&mut self, buf: &[u8]) -> io::Result<usize> {
        self.wrote = self.wrote || !buf.is_empty();
        self.inner.write(buf)
    }

    fn flush(&mut self) -> io::Result<()> {
        self.inner.flush()
    }
}

// What the log was when a store was read, with the ending of what was shown of it.
struct Once {
    mark: LogMark,
    ending: Ending,
}

// Answers over the store as it is now.
fn answer_once<W: Write + Drop>(
    rt: &HostRuntime,
    file: &str,
    asked: Asked<'_>,
    writer: &mut W,
) -> Result<Once, Ending> {
    let read = read_store(rt, file)?;
    let mark = LogMark::of(read.log.as_slice());
    let (disk, refused) = open_data(rt, file);
    let shown = match asked {
        Asked::Show(show) => show_store(rt.alloc(), read, disk, show, writer),
        Asked::Verify => verify_store(rt.alloc(), read, disk, writer),
    };
    let ending = match shown.ending {
        Ending::Damaged if refused => Ending::Sql(Cause::CannotOpen),
        ending => ending,
    };
    Ok(Once { mark, ending })
}

// Answers once more where a server took pieces off the list while they were read. Their space may be
// written anew, and the tables that were read still name them.
fn answer<W: Write + Drop>(
    rt: &HostRuntime,
    file: &str,
    asked: Asked<'_>,
    writer: &mut Watched<W>,
) -> Result<Ending, Ending> {
    for _ in 0..TRIES {
        let Once { mark, ending } = answer_once(rt, file, asked, writer)?;
        if !matches!(ending, Ending::Damaged) || mark_log(rt, file)? == mark {
            return Ok(ending);
        }
        if writer.wrote {
            return Ok(Ending::Busy);
        }
    }
    Ok(Ending::Busy)
}

/// Shows a part of a store.
pub(crate) fn show_file(rt: &HostRuntime, file: &str, show: Show<'_>) -> Ending {
    let Ok(inner) = BufWriter::new(rt.alloc(), io::writer(rt)) else {
        return Ending::Memory;
    };
    let mut writer = Watched {
        inner,
        wrote: false,
    };
    let ending = match answer(rt, file, Asked::Show(show), &mut writer) {
        Ok(ending) => ending,
        Err(ending) => return ending,
    };
    if matches!((ending, show), (Ending::Done, Show::Summary))
        && show_deaths(rt, file, &mut writer).is_err()
    {
        return Ending::PortFailed;
    }
    ending
}

/// Verifies a store.
pub(crate) fn verify_file(rt: &HostRuntime, file: &str) -> Ending {
    let Ok(inner) = BufWriter::new(rt.alloc(), io::writer(rt)) else {
        return Ending::Memory;
    };
    let mut writer = Watched {
        inner,
        wrote: false,
    };
    match answer(rt, file, Asked::Verify, &mut writer) {
        Ok(ending) | Err(ending) => ending,
    }
}
