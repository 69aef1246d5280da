// The opening of a store for a mount that begins.
ghost use Rattle.std.specs.Prelude.{◌≡◌, ◌<◌, ◌^◌, ℕ, Option, true, false, None, codes, is_some, IsTrue};
ghost use Rattle.std.specs.Prelude.{IfSome, IfOk, IfErr, IsErrAnd};
ghost use Rattle.sqlite.specs.State.{HasCleanDisk};
ghost use Rattle.sqlite.specs.Held.{state};
ghost use Rattle.sqlite_schema.specs.Names.{table_named};
ghost use Rattle.fuse_init.specs.declared.profile.Profile.TheVariants as profiles;
ghost use Rattle.fuse_keeper.specs.declared.fault.StoreFault.TheVariants.{NotAStore};
ghost use Rattle.fuse_store_tables.specs.ToCount.{IsOfSecond};
ghost use Rattle.fuse_store_tree.specs.Looking.{as_look_fault};
ghost use Rattle.fuse_store_tree.specs.StoreState.{store_in};
ghost use Rattle.fuse_store.specs.Opening.{numbered};
ghost use Rattle.fuse_store.specs.Starting.{FreshRefused, KeepsNamed, begun_for};
ghost use Rattle.fuse_store.specs.TableKeeper.{parts_state};
ghost use Rattle.fuse_store.specs.inner.Opened.{IsCurrent, Opens, has_nine};

use crate::contents::disk_of;
use crate::mount::{begin_mount, set_up_begun};
use crate::new_store::stored_number;
use crate::opening::{Opened, open_current};
use crate::parts::{StoreParts, look_over};
use crate::setup::law_of_rest;
use crate::third_data::ThirdData;
use fuse_init::Profile;
use fuse_keeper::StoreFault;
use fuse_store_tables::{NothingMore, is_to_count};
use sqlite::{Alter, Error};
use sqlite_disk::Disk;
use std::alloc::Global;

// Opens an everyday store of version 2, which becomes one of version 3, and begins a mount of it, in
// one transaction: its data file is made once all tests have passed, before the commit, which is its
// last call.
fn begin_second<S: Alter, D: Disk + Drop>(
    alloc: Global,
    parts: StoreParts<S, D>,
    number: Option<u64>,
) -> Result<Opened<S, D>, (StoreFault, StoreParts<S, D>)>
    requires low { IfSome number (λ n. n < 2 ^ 63) }
    requires second { HasCleanDisk (state S.Store parts.conn)
        → IsOfSecond (state S.Store parts.conn).now.schema }
    requires was { HasCleanDisk (state S.Store parts.conn)
        → IsTrue (state S.Store parts.conn).is_open
        × ((state S.Store parts.conn).in_transaction ≡ false) }
    ensures opens { IfOk result (λ o. Opens o.profile begun_for o.look.known
        (parts_state S.Store D.Disk parts)
        (store_in S.Store D.Disk o.look.conn o.look.contents.file)) }
    ensures plain { IfOk result (λ o. o.profile ≡ profiles.Plain
        → is_some o.look.contents.file ≡ false) }
    ensures ready { IfOk result (λ o. as_look_fault o.look.fault ≡ None) }
    ensures rows { IfOk result (λ o. KeepsNamed number (state S.Store parts.conn)
        (state S.Store o.look.conn)) }
    ensures refused { IfErr result (λ r. FreshRefused (parts_state S.Store D.Disk parts)
        (parts_state S.Store D.Disk r.1) r.0) }
{
    let StoreParts { mut conn, disk } = parts;
    law_of_rest(&conn);
    let Some(stored) = number else {
        return Err((
            StoreFault::Sql(Error::InvalidQuery),
            StoreParts { conn, disk },
        ));
    };
    let mut third = ThirdData::unmade(alloc, stored, disk);
    match set_up_begun(alloc, &mut conn, number, &mut third) {
        Ok(Profile::Plain) => Ok(Opened {
            look: look_over(alloc, conn, None),
            profile: Profile::Plain,
        }),
        Ok(Profile::Everyday) => Ok(Opened {
            look: look_over(alloc, conn, third.file),
            profile: Profile::Everyday,
        }),
        Err(fault) => Err((
            fault,
            StoreParts {
                conn,
                disk: third.into_disk(),
            },
        )),
    }
}

// Opens a plain store and begins a mount of it, in one transaction.
fn begin_plain<S: Alter, D: Disk + Drop>(
    alloc: Global,
    parts: StoreParts<S, D>,
) -> Result<Opened<S, D>, (StoreFault, StoreParts<S, D>)>
    requires current { IsCurrent (state S.Store parts.conn) }
    requires few { has_nine (state S.Store parts.conn).now.schema ≡ false }
    ensures opens { IfOk result (λ o. Opens o.profile begun_for o.look.known
        (parts_state S.Store D.Disk parts)
        (store_in S.Store D.Disk o.look.conn o.look.contents.file)) }
    ensures plain { IfOk result (λ o. o.profile ≡ profiles.Plain
        → is_some o.look.contents.file ≡ false) }
    ensures ready { IfOk result (λ o. as_look_fault o.look.fault ≡ None) }
    ensures rows { IfOk result (λ o. (number : Option ℕ) → KeepsNamed number
        (state S.Store parts.conn) (state S.Store o.look.conn)) }
    ensures refused { IfErr result (λ r. FreshRefused (parts_state S.Store D.Disk parts)
        (parts_state S.Store D.Disk r.1) r.0) }
    ensures absent { (state S.Store parts.conn).in_transaction ≡ false
        → table_named (state S.Store parts.conn).now.schema (codes "meta") ≡ None
        → IsErrAnd result (λ r. r.0 ≡ NotAStore) }
    ensures busy { (state S.Store parts.conn).in_transaction ≡ true
        → IsErrAnd result (λ r. r.1 ≡ parts) }
{
    let StoreParts { mut conn, disk } = parts;
    law_of_rest(&conn);
    match set_up_begun(alloc, &mut conn, None, &mut NothingMore) {
        Ok(profile) => Ok(Opened {
            look: look_over(alloc, conn, None),
            profile,
        }),
        Err(fault) => Err((fault, StoreParts { conn, disk })),
    }
}

// Opens a store of version 3, which is everyday, and begins a mount of it: the opening changes
// nothing, and the begin of the mount is one transaction.
fn begin_third<S: Alter, D: Disk + Drop>(
    alloc: Global,
    parts: StoreParts<S, D>,
) -> Result<Opened<S, D>, (StoreFault, StoreParts<S, D>)>
    requires current { IsCurrent (state S.Store parts.conn) }
    requires nine { has_nine (state S.Store parts.conn).now.schema ≡ true }
    ensures opens { IfOk result (λ o. Opens o.profile begun_for o.look.known
        (parts_state S.Store D.Disk parts)
        (store_in S.Store D.Disk o.look.conn o.look.contents.file)) }
    ensures plain { IfOk result (λ o. o.profile ≡ profiles.Plain
        → is_some o.look.contents.file ≡ false) }
    ensures ready { IfOk result (λ o. as_look_fault o.look.fault ≡ None) }
    ensures rows { IfOk result (λ o. (number : Option ℕ) → KeepsNamed number
        (state S.Store parts.conn) (state S.Store o.look.conn)) }
    ensures refused { IfErr result (λ r. FreshRefused (parts_state S.Store D.Disk parts)
        (parts_state S.Store D.Disk r.1) r.0) }
    ensures absent { (state S.Store parts.conn).in_transaction ≡ false
        → table_named (state S.Store parts.conn).now.schema (codes "meta") ≡ None
        → IsErrAnd result (λ r. r.0 ≡ NotAStore) }
    ensures busy { (state S.Store parts.conn).in_transaction ≡ true
        → IsErrAnd result (λ r. r.1 ≡ parts) }
{
    law_of_rest(&parts.conn);
    let mut opened = match open_current(alloc, parts, Some(Profile::Everyday)) {
        Ok(opened) => opened,
        Err(left) => return Err(left),
    };
    match begin_mount(&mut opened.look.conn) {
        Ok(()) => Ok(opened),
        Err(fault) => Err((
            fault,
            StoreParts {
                conn: opened.look.conn,
                disk: disk_of(opened.look.contents.file),
            },
        )),
    }
}

// Opens a store that isn't an everyday one of version 2, and begins a mount of it.
fn begin_current<S: Alter, D: Disk + Drop>(
    alloc: Global,
    parts: StoreParts<S, D>,
) -> Result<Opened<S, D>, (StoreFault, StoreParts<S, D>)>
    requires { IsCurrent (state S.Store parts.conn) }
    ensures opens { IfOk result (λ o. Opens o.profile begun_for o.look.known
        (parts_state S.Store D.Disk parts)
        (store_in S.Store D.Disk o.look.conn o.look.contents.file)) }
    ensures plain { IfOk result (λ o. o.profile ≡ profiles.Plain
        → is_some o.look.contents.file ≡ false) }
    ensures ready { IfOk result (λ o. as_look_fault o.look.fault ≡ None) }
    ensures rows { IfOk result (λ o. (number : Option ℕ) → KeepsNamed number
        (state S.Store parts.conn) (state S.Store o.look.conn)) }
    ensures refused { IfErr result (λ r. FreshRefused (parts_state S.Store D.Disk parts)
        (parts_state S.Store D.Disk r.1) r.0) }
    ensures absent { (state S.Store parts.conn).in_transaction ≡ false
        → table_named (state S.Store parts.conn).now.schema (codes "meta") ≡ None
        → IsErrAnd result (λ r. r.0 ≡ NotAStore) }
    ensures busy { (state S.Store parts.conn).in_transaction ≡ true
        → IsErrAnd result (λ r. r.1 ≡ parts) }
{
    if parts.conn.schema().tables.len() == 9 {
        begin_third(alloc, parts)
    } else {
        begin_plain(alloc, parts)
    }
}

/// Opens a store and begins a mount of it. An everyday store of version 2 gets this number, of which
/// 63 bits are stored; without one it isn't opened. A fault gives back what was handed in.
pub(crate) fn open_parts_begun<S: Alter, D: Disk + Drop>(
    alloc: Global,
    parts: StoreParts<S, D>,
    number: Option<u64>,
) -> Result<Opened<S, D>, (StoreFault, StoreParts<S, D>)>
    ensures opens { IfOk result (λ o. Opens o.profile begun_for o.look.known
        (parts_state S.Store D.Disk parts)
        (store_in S.Store D.Disk o.look.conn o.look.contents.file)) }
    ensures plain { IfOk result (λ o. o.profile ≡ profiles.Plain
        → is_some o.look.contents.file ≡ false) }
    ensures ready { IfOk result (λ o. as_look_fault o.look.fault ≡ None) }
    ensures rows { IfOk result (λ o. KeepsNamed (numbered number) (state S.Store parts.conn)
        (state S.Store o.look.conn)) }
    ensures refused { IfErr result (λ r. FreshRefused (parts_state S.Store D.Disk parts)
        (parts_state S.Store D.Disk r.1) r.0) }
    ensures absent { (state S.Store parts.conn).in_transaction ≡ false
        → table_named (state S.Store parts.conn).now.schema (codes "meta") ≡ None
        → IsErrAnd result (λ r. r.0 ≡ NotAStore) }
    ensures busy { (state S.Store parts.conn).in_transaction ≡ true
        → IsErrAnd result (λ r. r.1 ≡ parts) }
{
    let StoreParts { mut conn, disk } = parts;
    law_of_rest(&conn);
    let number = stored_number(number);
    match is_to_count(&mut conn) {
        Ok(true) => begin_second(alloc, StoreParts { conn, disk }, number),
        Ok(false) => begin_current(alloc, StoreParts { conn, disk }),
        Err(fault) => Err((fault, StoreParts { conn, disk })),
    }
}
