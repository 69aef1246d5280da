//! The command `serve`: standard input and standard output are a FUSE device.
use crate::companion::{look_beside, remove_unused};
use crate::ends::{DataEnd, End};
use crate::number::draw_number;
use fuse_commands::{Begin, Cause, CountLine, Ending, shows_seen};
use fuse_data_host::DataStart;
use fuse_files::{StoreRun, serve_store};
use fuse_session::{Clock, DevicePort, Fixed, System};
use fuse_store::StoreKind;
use fuse_store_files::{StoreFiles, StoreLeft};
use fuse_wire::Moment;
use sqlite::Start;

/// Serves over the store in a file, if the command line names one way to begin.
pub(crate) fn serve_as_asked<S: Start>(
    rt: &HostRuntime,
    file: &str,
    start: S,
    begin: Option<Begin>,
    at: Option<u64>,
    kind: StoreKind,
) -> End {
    let Some(begin) = begin else {
        return End::of(Ending::Modes);
    };
    match at {
        Some(secs) => {
            let mut clock = Fixed(Moment { secs, nanos: 0 });
            serve_on_files(rt, file, start, &mut clock, begin, kind)
        }
        None => serve_on_files(rt, file, start, &mut System::new(rt), begin, kind),
    }
}

// Serves, and prints the line of counts that the store's profile has. The two sides have no buffers:
// one read is one message, and one write one answer.
fn serve_on_files<S: Start, C: Clock>(
    rt: &HostRuntime,
    file: &str,
    start: S,
    clock: &mut C,
    begin: Begin,
    kind: StoreKind,
) -> End {
    let alloc = rt.alloc();
    let Ok(number) = draw_number(rt) else {
        return End::of(Ending::Sql(Cause::CannotOpen));
    };
    let missing = look_beside(rt, file);
    let files = StoreFiles::at(rt, file, start, DataStart);
    let mut port = DevicePort::new(rt.stdin(), rt.stdout());
    let StoreRun {
        ending,
        profile,
        counts,
        left,
    } = serve_store(alloc, files, &mut port, clock, begin, (kind, number));
    if let Some(profile) = profile
        && let Some(counts) = counts
        && ending.is_of_stream()
    {
        let _ = rt.eprintln(CountLine {
            counts,
            shows_seen: shows_seen(profile),
        });
    }
    let Some(StoreLeft { tables, disk }) = left else {
        return End::of(ending);
    };
    remove_unused(rt, missing, ending);
    let data = DataEnd::of(&disk);
    let _files = (tables.into_files(), disk);
    End { ending, data }
}
