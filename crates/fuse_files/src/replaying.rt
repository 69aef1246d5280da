// A replay over the files of a store.
ghost use Rattle.std.specs.Prelude.{◌≡◌, ◌≢◌, ◌⊎◌, [], false, codes, IfOk};
ghost use Rattle.sqlite.specs.Files.{over_files};
ghost use Rattle.fuse_store.specs.TableKeeper.{keeper_told};
ghost use Rattle.fuse_store_files.specs.Files.{found_at};
ghost use Rattle.fuse_store_files.specs.Starting.{path_of};
ghost use Rattle.fuse_commands.specs.Endings.{status_of};
ghost use Rattle.fuse_keeper.specs.KeeperState.{StandsFor};
ghost use Rattle.fuse_files.specs.StoreReplays.{streams, KeeperReplayed, IsReplayed};
ghost use Rattle.fuse_files.specs.StoreReplays.{NotReplayed};
ghost use Rattle.fuse_files.specs.ListReplays.{lists_told, ListsReplayed, IsReplayedAnew};
ghost use Rattle.fuse_files.specs.ListReplays.{NotReplayedAnew};
ghost use Rattle.fuse_files.specs.StoreSimulations.{new_state};

use crate::serving::{ending_of, left_of};
use fuse_commands::{Ending, START, run_replay, shows_seen};
use fuse_data_host::DataFrom;
use fuse_init::{EverydayProfile, PlainProfile, Profile, Profiled};
use fuse_plan::new_store_is_tree;
use fuse_rows::Origin;
use fuse_store::{NewStore, PlainKeeper, PlainTree, StoreKeeper, StoreKind, TableKeeper};
use fuse_store_files::{Opening, StoreFiles, StoreLeft, close_store, open_store};
use fuse_wire::{Memory, Moment};
use sqlite::{FileFrom, FileStore, Start};
use sqlite_disk::Disk;
use std::alloc::Global;
use std::io::{Read, Write};

// Serves the stream of a reader over a keeper, with one moment for all requests, and prints the
// answers and the line of counts that its profile has. Then closes its files.
fn replay_keeper<P: Profiled, D: Disk + Drop, E: Disk + Drop, R: Read + Drop, W: Write>(
    alloc: Global,
    mut keeper: TableKeeper<P, FileStore<D>, E>,
    reader: R,
    writer: &mut W,
    moment: Moment,
) -> (Ending, Option<StoreLeft<D, E>>)
    requires going { (keeper_told P.PROFILE over_files E.Disk keeper).has_failed ≡ false }
    ensures ran { KeeperReplayed E.Disk P.PROFILE keeper moment
        (streams (R.remaining reader) (W.contents writer.old) (W.contents writer.new)) result }
    ensures usage { status_of result.0 ≢ 2 }
{
    let shown = shows_seen(P::PROFILE);
    let ending = run_replay(alloc, &mut keeper, reader, writer, moment, shown);
    (ending, Some(left_of(close_store(keeper))))
}

/// Opens the store in these files, or makes one of this kind where they hold nothing, with this number
/// if it is everyday. Serves the
/// stream of a reader over it, with one moment for all requests, and prints the answers. Then closes
/// the files. Returns the ending, and what is left of the files if they were opened.
pub fn replay_store<S: Start, T: Start, R: Read + Drop, W: Write>(
    alloc: Global,
    files: StoreFiles<'_, '_, S, T>,
    new: (StoreKind, u64),
    reader: R,
    writer: &mut W,
    moment: Moment,
) -> (Ending, Option<StoreLeft<FileFrom<S>, DataFrom<T>>>)
    ensures ran { IsReplayed ⟦<DataFrom<T> as Disk>⟧ (record {
      first = found_at S.Start T.Start;
      kind = new.0;
      number = new.1;
      moment = moment;
    })
        (streams (R.remaining reader) (W.contents writer.old) (W.contents writer.new)) result
        ⊎ NotReplayed ⟦<DataFrom<T> as Disk>⟧ (record {
          first = found_at S.Start T.Start;
          kind = new.0;
          number = new.1;
          moment = moment;
        })
        (streams (R.remaining reader) (W.contents writer.old) (W.contents writer.new)) result }
    ensures memory { path_of files.entry ≡ codes ":memory:" → NotReplayed ⟦<DataFrom<T> as Disk>⟧
        (record { first = found_at S.Start T.Start; kind = new.0; number = new.1; moment = moment })
        (streams (R.remaining reader) (W.contents writer.old) (W.contents writer.new)) result }
    ensures usage { status_of result.0 ≢ 2 }
{
    let (kind, number) = new;
    let new = NewStore {
        kind,
        now: START,
        number,
    };
    match open_store(files, Opening::Any(new)) {
        Ok(StoreKeeper::Plain(keeper)) => replay_keeper(alloc, keeper, reader, writer, moment),
        Ok(StoreKeeper::Everyday(keeper)) => replay_keeper(alloc, keeper, reader, writer, moment),
        Err((fault, left)) => (ending_of(fault), left),
    }
}

// A keeper of a new store in memory.
fn new_lists<P: Profiled>(
    alloc: Global,
    kind: StoreKind,
) -> Result<PlainKeeper<PlainTree<P>>, Memory>
    ensures stands { IfOk result (λ k. StandsFor (lists_told P.PROFILE k)
        (new_state P.PROFILE kind) [] []) }
    ensures going { IfOk result (λ k. (lists_told P.PROFILE k).has_failed ≡ false) }
{
    new_store_is_tree();
    let from = Origin {
        owner: kind.owner,
        made: START,
    };
    let tree = PlainTree::<P>::sized(alloc, from, kind.capacity)?;
    Ok(PlainKeeper::over(alloc, tree))
}

// Serves the stream of a reader over a new store of this profile in memory.
fn replay_lists<P: Profiled, R: Read + Drop, W: Write>(
    alloc: Global,
    kind: StoreKind,
    reader: R,
    writer: &mut W,
    moment: Moment,
) -> Ending
    ensures ran { ListsReplayed P P.PROFILE kind moment
        (streams (R.remaining reader) (W.contents writer.old) (W.contents writer.new)) result
        ⊎ NotReplayedAnew
        (streams (R.remaining reader) (W.contents writer.old) (W.contents writer.new)) result }
    ensures usage { status_of result ≢ 2 }
{
    match new_lists::<P>(alloc, kind) {
        Ok(mut keeper) => {
            let shown = shows_seen(P::PROFILE);
            run_replay(alloc, &mut keeper, reader, writer, moment, shown)
        }
        Err(_) => Ending::Memory,
    }
}

/// Serves the stream of a reader over a new store of this kind in memory, with one moment for all
/// requests, and prints the answers.
pub fn replay_in_memory<R: Read + Drop, W: Write>(
    alloc: Global,
    kind: StoreKind,
    reader: R,
    writer: &mut W,
    moment: Moment,
) -> Ending
    ensures ran { IsReplayedAnew kind.profile kind moment
        (streams (R.remaining reader) (W.contents writer.old) (W.contents writer.new)) result
        ⊎ NotReplayedAnew
        (streams (R.remaining reader) (W.contents writer.old) (W.contents writer.new)) result }
    ensures usage { status_of result ≢ 2 }
{
    match kind.profile {
        Profile::Plain => replay_lists::<PlainProfile, R, W>(alloc, kind, reader, writer, moment),
        Profile::Everyday => {
            replay_lists::<EverydayProfile, R, W>(alloc, kind, reader, writer, moment)
        }
    }
}
