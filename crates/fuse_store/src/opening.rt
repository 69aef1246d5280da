// The opening of a store in its database and its data file.
ghost use Rattle.std.specs.Prelude.{◌≡◌, ◌<◌, ◌^◌, ℕ, List, Option, true, false, None, codes, is_some};
ghost use Rattle.std.specs.Prelude.{IsTrue, IfSome, IfOk, IfErr, IsErrAnd, MatchResult};
ghost use Rattle.sqlite.specs.State.{HasCleanDisk};
ghost use Rattle.sqlite.specs.Held.{state};
ghost use Rattle.sqlite_disk.specs.Disk.{Only};
ghost use Rattle.sqlite_schema.specs.Names.{table_named};
ghost use Rattle.fuse_init.specs.declared.profile.Profile.TheVariants as profiles;
ghost use Rattle.fuse_data.specs.State.{state_of};
ghost use Rattle.fuse_keeper.specs.declared.fault.StoreFault.TheVariants.{NotAStore};
ghost use Rattle.fuse_store_tables.specs.Faults.{IsOutside, IsPlain};
ghost use Rattle.fuse_store_tables.specs.Moves.{RestsAs, OnlyReads, StaysOpen};
ghost use Rattle.fuse_store_tables.specs.Opening.{IsWanted};
ghost use Rattle.fuse_store_tables.specs.ToCount.{IsOfSecond};
ghost use Rattle.fuse_store_tree.specs.Holding.{Holding, HeldFor};
ghost use Rattle.fuse_store_tree.specs.Leaving.{ListsInUse};
ghost use Rattle.fuse_store_tree.specs.Looking.{as_look_fault};
ghost use Rattle.fuse_store_tree.specs.StoreState.{store_in};
ghost use Rattle.fuse_store.specs.Opening.{HasFileFor, KeepsRows, OpenRefused, numbered, opened_for};
ghost use Rattle.fuse_store.specs.TableKeeper.{disk_in, parts_state};
ghost use Rattle.fuse_store.specs.inner.Opened.{Finds, FollowsAny, IsCurrent, Opens};

use crate::contents::contents_fault;
use crate::new_store::stored_number;
use crate::parts::{StoreParts, look_over};
use crate::setup::{law_of_rest, set_up_for};
use crate::third_data::ThirdData;
use fuse_data::DataFile;
use fuse_init::Profile;
use fuse_keeper::StoreFault;
use fuse_store_tables::{Layout, NothingMore, is_to_count, layout_of, number_at_rest};
use fuse_store_tree::{Data, TableLook, listed_extents, rows_in_order};
use sqlite::{Alter, Connection, Error, ErrorCode};
use sqlite_disk::Disk;
use std::alloc::Global;

/// A store that was opened.
#[derive(Drop)]
pub(crate) struct Opened<S: Alter, D: Disk> {
    pub(crate) look: TableLook<S, Data<D>>,
    pub(crate) profile: Profile,
}

// Opens the data file of a store whose tables list its pieces, and syncs it. It reads the tables
// alone. Where the file isn't that of the store, it is `Damaged`. A fault hands the disk back.
fn open_contents<S: Alter, D: Disk>(
    alloc: Global,
    conn: &mut Connection<S>,
    disk: Option<D>,
) -> Result<DataFile<D>, (StoreFault, Option<D>)>
    ensures reads { OnlyReads (state S.Store conn.old) (state S.Store conn.new) result }
    ensures open { StaysOpen (state S.Store conn.old) (state S.Store conn.new) result }
    // No block is free of a piece that a store lists.
    ensures in_use { HasCleanDisk (state S.Store conn.new) → IfOk result (λ f.
        IsTrue (state_of D.Disk f).is_clean → (y : Holding)
        → RestsAs (HeldFor (state_of D.Disk f).seen y) (state S.Store conn.old)
        → ListsInUse (state_of D.Disk f).gaps (state S.Store conn.old).now) }
    ensures synced { IfOk result
        (λ f. Only (state_of D.Disk f).seen (state_of D.Disk f).may_leave) }
    ensures usable { IfOk result (λ f. IsTrue (state_of D.Disk f).is_usable) }
    ensures seen { MatchResult result
        (λ f. (state_of D.Disk f).seen ≡ (disk_in D.Disk disk).seen)
        (λ left. (disk_in D.Disk left.1).seen ≡ (disk_in D.Disk disk).seen) }
    ensures clean { MatchResult result
        (λ f. IsTrue (state_of D.Disk f).is_clean → IsTrue (disk_in D.Disk disk).is_clean)
        (λ left. IsTrue (disk_in D.Disk left.1).is_clean → IsTrue (disk_in D.Disk disk).is_clean) }
    ensures crash { MatchResult result (λ f. (c : List ℕ) → (state_of D.Disk f).may_leave c
        → (disk_in D.Disk disk).may_leave c) (λ left. (c : List ℕ)
        → (disk_in D.Disk left.1).may_leave c → (disk_in D.Disk disk).may_leave c) }
    // Of a sound store the fault is out of memory, of SQL or of the disk.
    ensures outside { IfErr result (λ left. HasCleanDisk (state S.Store conn.new)
        → IsTrue (disk_in D.Disk left.1).is_clean → (y : Holding)
        → IsTrue (is_some y.tree.capacity)
        → RestsAs (HeldFor (disk_in D.Disk disk).seen y) (state S.Store conn.old)
        → IsOutside left.0) }
    ensures plain { IfErr result (λ left. IsPlain left.0) }
{
    rows_in_order();
    let Some(disk) = disk else {
        return Err((StoreFault::Damaged, None));
    };
    if layout_of(conn) == Layout::Second {
        return Err((StoreFault::Sql(Error::InvalidQuery), Some(disk)));
    }
    let number = match number_at_rest(conn) {
        Ok(number) => number,
        Err(fault) => return Err((fault, Some(disk))),
    };
    let listed = match listed_extents(conn, alloc) {
        Ok(listed) => listed,
        Err(fault) => return Err((fault, Some(disk))),
    };
    let mut file = match DataFile::open(alloc, disk, number, listed.as_slice()) {
        Ok(file) => file,
        Err((fault, disk)) => return Err((contents_fault(fault), Some(disk))),
    };
    match file.sync() {
        Ok(()) => Ok(file),
        Err(fault) => Err((contents_fault(fault), Some(file.into_disk()))),
    }
}

/// The data file of an everyday store of version 2, which gets this number: the header is written
/// over whatever the disk holds, and synced. A fault hands the disk back.
pub(crate) fn make_third<D: Disk>(
    alloc: Global,
    disk: Option<D>,
    number: Option<u64>,
) -> Result<DataFile<D>, (StoreFault, Option<D>)>
    requires { IfSome number (λ n. n < 2 ^ 63) }
    ensures header { IfOk result (λ f. HasFileFor number (state_of D.Disk f).seen) }
    ensures synced { IfOk result
        (λ f. Only (state_of D.Disk f).seen (state_of D.Disk f).may_leave) }
    ensures usable { IfOk result (λ f. IsTrue (state_of D.Disk f).is_usable) }
    ensures clean { MatchResult result
        (λ f. IsTrue (state_of D.Disk f).is_clean → IsTrue (disk_in D.Disk disk).is_clean)
        (λ left. IsTrue (disk_in D.Disk left.1).is_clean → IsTrue (disk_in D.Disk disk).is_clean) }
    // Whatever is in the data file, there was one before.
    ensures follows { MatchResult result
        (λ f. FollowsAny (disk_in D.Disk disk).may_leave (state_of D.Disk f).may_leave)
        (λ left. FollowsAny (disk_in D.Disk disk).may_leave (disk_in D.Disk left.1).may_leave) }
    ensures outside { IfErr result (λ left. IsOutside left.0) }
{
    let Some(number) = number else {
        return Err((StoreFault::Sql(Error::InvalidQuery), disk));
    };
    let Some(disk) = disk else {
        return Err((
            StoreFault::Sql(Error::SqliteFailure(ErrorCode::CannotOpen)),
            None,
        ));
    };
    match DataFile::create(alloc, disk, number) {
        Ok(file) => Ok(file),
        Err((fault, disk)) => Err((contents_fault(fault), Some(disk))),
    }
}

// Opens an everyday store of version 2, which becomes one of version 3: its data file is made once all
// tests have passed, before the commit, which is its last call.
fn open_second<S: Alter, D: Disk + Drop>(
    alloc: Global,
    parts: StoreParts<S, D>,
    wanted: Option<Profile>,
    number: Option<u64>,
) -> Result<Opened<S, D>, (StoreFault, StoreParts<S, D>)>
    requires low { IfSome number (λ n. n < 2 ^ 63) }
    requires second { HasCleanDisk (state S.Store parts.conn)
        → IsOfSecond (state S.Store parts.conn).now.schema }
    requires was { HasCleanDisk (state S.Store parts.conn)
        → IsTrue (state S.Store parts.conn).is_open
        × ((state S.Store parts.conn).in_transaction ≡ false) }
    ensures opens { IfOk result (λ o. Opens o.profile opened_for o.look.known
        (parts_state S.Store D.Disk parts)
        (store_in S.Store D.Disk o.look.conn o.look.contents.file)) }
    ensures wanted { IfOk result (λ o. IsWanted wanted o.profile) }
    ensures plain { IfOk result (λ o. o.profile ≡ profiles.Plain
        → is_some o.look.contents.file ≡ false) }
    ensures ready { IfOk result (λ o. as_look_fault o.look.fault ≡ None) }
    ensures rows { IfOk result (λ o. KeepsRows number (state S.Store parts.conn)
        (state S.Store o.look.conn)) }
    ensures refused { IfErr result (λ r. OpenRefused wanted
        (parts_state S.Store D.Disk parts) (parts_state S.Store D.Disk r.1) r.0) }
{
    let StoreParts { mut conn, disk } = parts;
    law_of_rest(&conn);
    let Some(stored) = number else {
        return Err((
            StoreFault::Sql(Error::InvalidQuery),
            StoreParts { conn, disk },
        ));
    };
    let mut third = ThirdData::unmade(alloc, stored, disk);
    match set_up_for(alloc, &mut conn, wanted, number, &mut third) {
        Ok(Profile::Plain) => Ok(Opened {
            look: look_over(alloc, conn, None),
            profile: Profile::Plain,
        }),
        Ok(Profile::Everyday) => Ok(Opened {
            look: look_over(alloc, conn, third.file),
            profile: Profile::Everyday,
        }),
        Err(fault) => Err((
            fault,
            StoreParts {
                conn,
                disk: third.into_disk(),
            },
        )),
    }
}

/// Opens a store that isn't an everyday one of version 2.
pub(crate) fn open_current<S: Alter, D: Disk + Drop>(
    alloc: Global,
    parts: StoreParts<S, D>,
    wanted: Option<Profile>,
) -> Result<Opened<S, D>, (StoreFault, StoreParts<S, D>)>
    requires { IsCurrent (state S.Store parts.conn) }
    ensures opens { IfOk result (λ o. Opens o.profile opened_for o.look.known
        (parts_state S.Store D.Disk parts)
        (store_in S.Store D.Disk o.look.conn o.look.contents.file)) }
    ensures wanted { IfOk result (λ o. IsWanted wanted o.profile) }
    ensures plain { IfOk result (λ o. o.profile ≡ profiles.Plain
        → is_some o.look.contents.file ≡ false) }
    ensures ready { IfOk result (λ o. as_look_fault o.look.fault ≡ None) }
    ensures known { IfOk result (λ o. o.look.known ≡ None) }
    ensures rows { IfOk result (λ o. (number : Option ℕ) → KeepsRows number
        (state S.Store parts.conn) (state S.Store o.look.conn)) }
    ensures found { IfOk result (λ o. Finds o.profile (parts_state S.Store D.Disk parts)
        (store_in S.Store D.Disk o.look.conn o.look.contents.file)) }
    ensures refused { IfErr result (λ r. OpenRefused wanted (parts_state S.Store D.Disk parts)
        (parts_state S.Store D.Disk r.1) r.0) }
    ensures absent { (state S.Store parts.conn).in_transaction ≡ false
        → table_named (state S.Store parts.conn).now.schema (codes "meta") ≡ None
        → IsErrAnd result (λ r. r.0 ≡ NotAStore) }
    ensures busy { (state S.Store parts.conn).in_transaction ≡ true
        → IsErrAnd result (λ r. r.1 ≡ parts) }
{
    let StoreParts { mut conn, disk } = parts;
    law_of_rest(&conn);
    match set_up_for(alloc, &mut conn, wanted, None, &mut NothingMore) {
        Ok(Profile::Plain) => Ok(Opened {
            look: look_over(alloc, conn, None),
            profile: Profile::Plain,
        }),
        Ok(Profile::Everyday) => match open_contents(alloc, &mut conn, disk) {
            Ok(file) => Ok(Opened {
                look: look_over(alloc, conn, Some(file)),
                profile: Profile::Everyday,
            }),
            Err((fault, disk)) => Err((fault, StoreParts { conn, disk })),
        },
        Err(fault) => Err((fault, StoreParts { conn, disk })),
    }
}

/// Opens a store, of this profile where one is wanted. An everyday store of version 2 gets this
/// number, of which 63 bits are stored; without one it isn't opened. A fault gives back what was
/// handed in.
pub(crate) fn open_parts<S: Alter, D: Disk + Drop>(
    alloc: Global,
    parts: StoreParts<S, D>,
    wanted: Option<Profile>,
    number: Option<u64>,
) -> Result<Opened<S, D>, (StoreFault, StoreParts<S, D>)>
    ensures opens { IfOk result (λ o. Opens o.profile opened_for o.look.known
        (parts_state S.Store D.Disk parts)
        (store_in S.Store D.Disk o.look.conn o.look.contents.file)) }
    ensures wanted { IfOk result (λ o. IsWanted wanted o.profile) }
    ensures plain { IfOk result (λ o. o.profile ≡ profiles.Plain
        → is_some o.look.contents.file ≡ false) }
    ensures ready { IfOk result (λ o. as_look_fault o.look.fault ≡ None) }
    ensures rows { IfOk result (λ o. KeepsRows (numbered number) (state S.Store parts.conn)
        (state S.Store o.look.conn)) }
    ensures refused { IfErr result (λ r. OpenRefused wanted (parts_state S.Store D.Disk parts)
        (parts_state S.Store D.Disk r.1) r.0) }
    ensures absent { (state S.Store parts.conn).in_transaction ≡ false
        → table_named (state S.Store parts.conn).now.schema (codes "meta") ≡ None
        → IsErrAnd result (λ r. r.0 ≡ NotAStore) }
    ensures busy { (state S.Store parts.conn).in_transaction ≡ true
        → IsErrAnd result (λ r. r.1 ≡ parts) }
{
    let StoreParts { mut conn, disk } = parts;
    law_of_rest(&conn);
    let number = stored_number(number);
    match is_to_count(&mut conn) {
        Ok(true) => open_second(alloc, StoreParts { conn, disk }, wanted, number),
        Ok(false) => open_current(alloc, StoreParts { conn, disk }, wanted),
        Err(fault) => Err((fault, StoreParts { conn, disk })),
    }
}
