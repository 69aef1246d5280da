// A run of a server over the files of a store.
ghost use Rattle.std.specs.Prelude.{◌≡◌, ◌≢◌, ◌⊎◌, ◌<◌, ◌^◌, false, codes};
ghost use Rattle.sqlite.specs.Files.{over_files};
ghost use Rattle.fuse_store.specs.TableKeeper.{keeper_told};
ghost use Rattle.fuse_store_files.specs.Files.{StoreImage, found_at};
ghost use Rattle.fuse_store_files.specs.Starting.{path_of};
ghost use Rattle.fuse_commands.specs.Endings.{status_of, store_ending};
ghost use Rattle.fuse_files.specs.StoreRuns.{around, around_views, OpensBy, left_closed};
ghost use Rattle.fuse_files.specs.StoreRuns.{KeeperServed, IsServed, StoreRefused};

use fuse_commands::{Begin, Ending, run_serve};
use fuse_data_host::DataFrom;
use fuse_init::{Profile, Profiled};
use fuse_keeper::StoreFault;
use fuse_session::{Clock, Port, SessionCounts};
use fuse_store::{StoreKeeper, StoreKind, TableKeeper};
use fuse_store_files::{Opening, StoreFiles, StoreLeft, close_store, open_store};
use sqlite::{FileFrom, FileStore, Files, Leftover, Start};
use sqlite_disk::Disk;
use std::alloc::Global;

/// How a server over the files of a store ended.
pub struct StoreRun<D: Disk, E: Disk> {
    /// The ending of the command.
    pub ending: Ending,
    /// The profile of the store, if one was opened.
    pub profile: Option<Profile>,
    /// The counts, as the session has them.
    pub counts: Option<SessionCounts>,
    /// What is left of the files, if they were opened.
    pub left: Option<StoreLeft<D, E>>,
}

// How the files are opened: for a new mount, at this moment of the clock.
fn opening_for<C: Clock>(clock: &mut C, begin: Begin, kind: StoreKind, number: u64) -> Opening
    ensures { (first : StoreImage) → OpensBy C.gave (record {
      first = first;
      begin = begin;
      kind = kind;
      number = number;
    }) clock.old clock.new result }
{
    match begin {
        Begin::Fresh => Opening::Fresh(kind.made_at(clock.now(), number)),
        Begin::Resume => Opening::Existing(number),
    }
}

// The ending of a run whose store is not opened.
pub(crate) fn ending_of(fault: StoreFault) -> Ending
    ensures is { result ≡ store_ending fault }
    ensures usage { status_of result ≢ 2 }
{
    Ending::of(fault)
}

// What is left of files that were closed.
pub(crate) fn left_of<D: Disk, E: Disk>(
    closed: (Result<Files<D>, FileStore<D>>, Option<E>),
) -> StoreLeft<D, E>
    ensures { result ≡ left_closed closed.0 closed.1 }
{
    let (tables, disk) = closed;
    let tables = match tables {
        Ok(files) => Leftover::Files(files),
        Err(store) => Leftover::Store(store),
    };
    StoreLeft { tables, disk }
}

// Serves a port over a keeper. Then closes its files.
fn serve_keeper<P: Profiled, D: Disk + Drop, E: Disk + Drop, O: Port, C: Clock>(
    alloc: Global,
    mut keeper: TableKeeper<P, FileStore<D>, E>,
    port: &mut O,
    clock: &mut C,
    begin: Begin,
) -> StoreRun<D, E>
    requires going { (keeper_told P.PROFILE over_files E.Disk keeper).has_failed ≡ false }
    requires receives { (O.told port.old).receives < 2 ^ 62 }
    requires failures { (O.told port.old).failures < 2 ^ 62 }
    ensures ran { KeeperServed E.Disk P.PROFILE keeper (around_views O.told O.became C.gave)
        (around port.old port.new clock.old clock.new) begin result }
    ensures usage { status_of result.ending ≢ 2 }
{
    let (ending, counts) = run_serve(alloc, &mut keeper, port, clock, begin);
    StoreRun {
        ending,
        profile: Some(P::PROFILE),
        counts,
        left: Some(left_of(close_store(keeper))),
    }
}

/// Opens the store in these files, at `Begin::Fresh` for a mount that begins; where they hold
/// nothing, a store of this kind is made. An everyday store that is made, or is migrated from version
/// 2, gets this number. Serves a port over it, and does nothing else at the port.
/// Then closes the files.
pub fn serve_store<S: Start, T: Start, O: Port, C: Clock>(
    alloc: Global,
    files: StoreFiles<'_, '_, S, T>,
    port: &mut O,
    clock: &mut C,
    begin: Begin,
    new: (StoreKind, u64),
) -> StoreRun<FileFrom<S>, DataFrom<T>>
    requires receives { (O.told port.old).receives < 2 ^ 62 }
    requires failures { (O.told port.old).failures < 2 ^ 62 }
    ensures ran { IsServed ⟦<DataFrom<T> as Disk>⟧ (around_views O.told O.became C.gave)
        (around port.old port.new clock.old clock.new)
        (record { first = found_at S.Start T.Start; begin = begin; kind = new.0; number = new.1 }) result
        ⊎ StoreRefused ⟦<DataFrom<T> as Disk>⟧ (around_views O.told O.became C.gave)
        (around port.old port.new clock.old clock.new)
        (record { first = found_at S.Start T.Start; begin = begin; kind = new.0; number = new.1 }) result }
    // A store in memory has no files.
    ensures memory { path_of files.entry ≡ codes ":memory:"
        → StoreRefused ⟦<DataFrom<T> as Disk>⟧ (around_views O.told O.became C.gave)
        (around port.old port.new clock.old clock.new)
        (record { first = found_at S.Start T.Start; begin = begin; kind = new.0; number = new.1 }) result }
    ensures usage { status_of result.ending ≢ 2 }
{
    let (kind, number) = new;
    let opening = opening_for(clock, begin, kind, number);
    match open_store(files, opening) {
        Ok(StoreKeeper::Plain(keeper)) => serve_keeper(alloc, keeper, port, clock, begin),
        Ok(StoreKeeper::Everyday(keeper)) => serve_keeper(alloc, keeper, port, clock, begin),
        Err((fault, left)) => StoreRun {
            ending: ending_of(fault),
            profile: None,
            counts: None,
            left,
        },
    }
}
