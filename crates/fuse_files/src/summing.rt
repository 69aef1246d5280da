// The summary of a store.
ghost use Rattle.std.specs.Prelude.{◌≡◌, ℕ, List, length, IfOk, IfErr, IsTrue};
ghost use Rattle.sqlite.specs.Held.{state};
ghost use Rattle.fuse_keeper.specs.KeeperState.{Reports, OfHeld};
ghost use Rattle.fuse_keeper.specs.Stands.{Records};
ghost use Rattle.fuse_rows.specs.Rows.{Rows};
ghost use Rattle.fuse_store_tables.specs.Faults.{IsOutside, IsPlain};
ghost use Rattle.fuse_store.specs.Opening.{Stored, WasOver, version_for};
ghost use Rattle.fuse_store.specs.TableKeeper.{disk_in, keeper_told, parts_state};
ghost use Rattle.fuse_store.specs.StoreKeeper.{store_told};
ghost use Rattle.fuse_files.specs.StoreShown.{IsRefused, IsSummary, OutputsAs, ShowsText, SumsUp, Sums};
ghost use Rattle.fuse_files.specs.inner.Showing.{IsAlwaysClean, ShowsOver};

use crate::showing::{ShownStore, open_keeper};
use fuse_commands::Ending;
use fuse_init::Profiled;
use fuse_keeper::{Keeper, StoreFault};
use fuse_plan::rows_tell_state;
use fuse_session::Sink;
use fuse_show::{Summary, show_summary};
use fuse_store::{StoreKeeper, StoreParts, TableKeeper};
use fuse_store_tables::{Layout, layout_of};
use sqlite::{Alter, Connection};
use sqlite_disk::Disk;
use std::alloc::Global;

// The version of the store of a database. One of version 1 has no table of lots.
fn version_of<S: Alter>(conn: &Connection<S>) -> u64
    ensures { (file : List ℕ) (z : Stored) → WasOver file z (state S.Store conn.now)
        → result ≡ version_for z }
{
    let _ = conn.is_autocommit();
    if conn.schema().table_named(b"lots").is_none() {
        return 1;
    }
    match layout_of(conn) {
        Layout::Second => 2,
        Layout::Third => 3,
    }
}

// What the summary says of this store of this version.
fn read_summary<P: Profiled, S: Alter + Drop, D: Disk + Drop>(
    keeper: &mut TableKeeper<P, S, D>,
    version: u64,
) -> Result<Summary, StoreFault>
    ensures so { IfOk result (λ it. Reports (keeper_told P.PROFILE S.Store D.Disk keeper.old)
        (keeper_told P.PROFILE S.Store D.Disk keeper.new) (λ rows records. SumsUp rows records
        (length (keeper_told P.PROFILE S.Store D.Disk keeper.old).lots.numbers) it)) }
    ensures version { IfOk result (λ it. it.version ≡ version) }
    ensures plain { IfErr result IsPlain }
    ensures honest { (keeper_told P.PROFILE S.Store D.Disk keeper.new).is_honest
        → (keeper_told P.PROFILE S.Store D.Disk keeper.old).is_honest }
    ensures fault { IfErr result (λ f. (keeper_told P.PROFILE S.Store D.Disk keeper.new).is_honest
        → (rows : Rows) (records : Records)
        → (keeper_told P.PROFILE S.Store D.Disk keeper.old).holds rows records → IsOutside f) }
{
    let counts = match keeper.counts() {
        Ok(counts) => counts,
        Err(fault) => return Err(fault),
    };
    let agreed = match keeper.settings() {
        Ok(agreed) => agreed,
        Err(fault) => return Err(fault),
    };
    let bytes = match keeper.content_size() {
        Ok(bytes) => bytes,
        Err(fault) => return Err(fault),
    };
    match keeper.room() {
        Ok(room) => Ok(Summary {
            version,
            counts,
            bytes,
            room,
            agreed,
        }),
        Err(fault) => Err(fault),
    }
}

// The same of a store of either profile, whose data file is handed back.
fn summary_for<S: Alter + Drop, D: Disk + Drop>(
    keeper: StoreKeeper<S, D>,
    version: u64,
) -> (Result<Summary, StoreFault>, Option<D>)
    ensures so { IsAlwaysClean S.Store → IsTrue (disk_in D.Disk result.1).is_clean
        → IfOk result.0 (λ it. OfHeld (store_told S.Store D.Disk keeper)
        (λ rows records. SumsUp rows records (length (store_told S.Store D.Disk keeper).lots.numbers) it)) }
    ensures version { IfOk result.0 (λ it. it.version ≡ version) }
    ensures plain { IfErr result.0 IsPlain }
    ensures fault { IsAlwaysClean S.Store → IsTrue (disk_in D.Disk result.1).is_clean
        → IfErr result.0 (λ f. (rows : Rows) (records : Records)
        → (store_told S.Store D.Disk keeper).holds rows records → IsOutside f) }
    ensures honest { IsAlwaysClean S.Store → IsTrue (disk_in D.Disk result.1).is_clean
        → (store_told S.Store D.Disk keeper).is_honest }
{
    match keeper {
        StoreKeeper::Plain(mut keeper) => {
            let summary = read_summary(&mut keeper, version);
            (summary, keeper.into_parts().disk)
        }
        StoreKeeper::Everyday(mut keeper) => {
            let summary = read_summary(&mut keeper, version);
            (summary, keeper.into_parts().disk)
        }
    }
}

// Prints a summary of the store of a database. The version is that before the store is opened, which
// makes a store of version 1 one of version 2, and an everyday store one of version 3.
pub(crate) fn summary_of<S: Alter + Drop, D: Disk + Drop, W: Sink>(
    alloc: Global,
    parts: StoreParts<S, D>,
    writer: &mut W,
) -> ShownStore<D>
    ensures shown { IsAlwaysClean S.Store → IsTrue (disk_in D.Disk result.disk).is_clean
        → ShowsOver (λ z. Sums z (W.contents writer.old) (W.contents writer.new) result.ending)
        (parts_state S.Store D.Disk parts) result.ending }
    ensures silent { IsRefused result.ending
        → W.contents writer.new ≡ W.contents writer.old }
    ensures written { OutputsAs W.was_written W.was_flushed writer.old writer.new
        (ShowsText IsSummary result.ending) }
{
    rows_tell_state();
    let version = version_of(&parts.conn);
    let keeper = match open_keeper(alloc, parts) {
        Ok(keeper) => keeper,
        Err(shown) => return shown,
    };
    let (summary, disk) = summary_for(keeper, version);
    let summary = match summary {
        Ok(summary) => summary,
        Err(fault) => {
            return ShownStore {
                ending: Ending::of(fault),
                disk,
            };
        }
    };
    match show_summary(&summary, writer) {
        Ok(()) => ShownStore {
            ending: Ending::Done,
            disk,
        },
        Err(_) => ShownStore {
            ending: Ending::PortFailed,
            disk,
        },
    }
}
