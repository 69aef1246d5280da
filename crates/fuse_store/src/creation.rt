// A new store.
ghost use Rattle.std.specs.Prelude.{◌≡◌, ◌<◌, ◌^◌, ◌↔◌, ℕ, List, true, false, IsTrue, IfErr, IfSome};
ghost use Rattle.std.specs.Prelude.{IsErrAnd, OnOk};
ghost use Rattle.sqlite.specs.State.{HasCleanDisk, Survives};
ghost use Rattle.sqlite.specs.Held.{state};
ghost use Rattle.fuse_store_tables.specs.Content.{HasWidths};
ghost use Rattle.fuse_store_tables.specs.Faults.{IsOutside};
ghost use Rattle.fuse_store_tables.specs.Layout.{no_schema};
ghost use Rattle.fuse_store_tables.specs.declared.version.Layout.{Layout};
ghost use Rattle.fuse_store_tables.specs.Making.{IsBare, IsVolume, root};
ghost use Rattle.fuse_store_tables.specs.Moves.{RestsAs, ServesAs, LeavesAlone};
ghost use Rattle.fuse_store_tables.specs.Refusing.{HasMetaTable};
ghost use Rattle.fuse_data.specs.declared.gaps.Gap.{Gap};
ghost use Rattle.fuse_store_tree.specs.Holding.{HeldFor};
ghost use Rattle.fuse_store_tree.specs.Leaving.{ListsInUse};
ghost use Rattle.fuse_store.specs.Creating.{IsBlank, IsDataOf, IsTakenFault, LeavesNewTables};
ghost use Rattle.fuse_store.specs.Creating.{new_holding, volume_for};
ghost use Rattle.fuse_store.specs.Opening.{Stored, WasOver};

use fuse_init::Profile;
use fuse_keeper::StoreFault;
use fuse_plan::new_store_is_tree;
use fuse_rows::Origin;
use fuse_store_tables::{Volume, is_empty, make_store, try_store};
use sqlite::{Alter, Connection, Error};

/// Whether a database is blank.
pub(crate) fn is_blank<S: Alter>(conn: &Connection<S>) -> bool
    ensures blank { IsTrue result ↔ IsBlank (state S.Store conn.now) }
    ensures none { IsTrue result → (file : List ℕ) (z : Stored)
        → WasOver file z (state S.Store conn.now) → ⊥ }
{
    conn.is_autocommit() && is_empty(conn.schema())
}

// How a store of this profile is made: a plain one has no bound and no number.
fn volume_for(profile: Profile, volume: Volume) -> Option<Volume>
    requires { IsVolume volume }
    ensures is { result ≡ volume_for profile volume }
    ensures low { IfSome result IsVolume }
{
    match profile {
        Profile::Plain => None,
        Profile::Everyday => Some(volume),
    }
}

// A number of 64 bits.
fn wide(number: u64)
    ensures { number < 2 ^ 64 }
{
    let _ = number;
}

// A number of 32 bits.
fn narrow(number: u32)
    ensures { number < 2 ^ 32 }
{
    let _ = number;
}

// The columns of the root are of their widths.
fn law_of_root(from: Origin)
    ensures { (layout : Layout) → HasWidths (root layout from) }
{
    narrow(from.owner.uid);
    narrow(from.owner.gid);
    wide(from.made.secs);
    narrow(from.made.nanos);
}

// The fault of a new store in a database that has tables: the error of the statement that SQLite
// refuses. Where it refuses none, the tables have other names, and nothing is made beside them.
fn refuse_store<S: Alter>(conn: &mut Connection<S>, from: Origin) -> StoreFault
    ensures alone { LeavesAlone (state S.Store conn.old) (state S.Store conn.new) }
    ensures outside { IsOutside result }
    ensures taken { HasCleanDisk (state S.Store conn.new)
        → (state S.Store conn.old).in_transaction ≡ false
        → HasMetaTable (state S.Store conn.old).now.schema → IsTakenFault result }
{
    match try_store(conn, from) {
        Ok(()) => StoreFault::Sql(Error::InvalidQuery),
        Err(error) => StoreFault::from(error),
    }
}

/// The fault of a new store in a database that is not blank, which is left as it was.
pub(crate) fn refuse_new<S: Alter>(conn: &mut Connection<S>, from: Origin) -> StoreFault
    ensures outside { IsOutside result }
    ensures alone { (state S.Store conn.old).in_transaction ≡ false
        → LeavesAlone (state S.Store conn.old) (state S.Store conn.new) }
    ensures busy { (state S.Store conn.old).in_transaction ≡ true → conn.new ≡ conn.old }
    ensures taken { HasCleanDisk (state S.Store conn.new)
        → (state S.Store conn.old).in_transaction ≡ false
        → HasMetaTable (state S.Store conn.old).now.schema → IsTakenFault result }
{
    if !conn.is_autocommit() {
        return StoreFault::Sql(Error::InvalidQuery);
    }
    refuse_store(conn, from)
}

/// Makes a new store of this origin in a blank database. The commit is its last call of the
/// database.
pub(crate) fn make_for<S: Alter>(
    conn: &mut Connection<S>,
    profile: Profile,
    volume: Volume,
    from: Origin,
) -> Result<(), StoreFault>
    requires { IsVolume volume }
    // Over the data file of the store, where it has one.
    ensures serves { (file : List ℕ) → IsDataOf profile volume.number file
        → ServesAs (IsBare no_schema) (λ _. HeldFor file (new_holding profile volume.capacity from))
        (state S.Store conn.old) (state S.Store conn.new) result }
    ensures blank { OnOk result (IsBlank (state S.Store conn.old)) }
    ensures was { HasCleanDisk (state S.Store conn.new)
        → OnOk result (IsTrue (state S.Store conn.old).is_open) }
    ensures done { HasCleanDisk (state S.Store conn.new) → OnOk result
        (IsTrue (state S.Store conn.old).is_open → (file : List ℕ)
        → IsDataOf profile volume.number file
        → RestsAs (HeldFor file (new_holding profile volume.capacity from))
        (state S.Store conn.new)) }
    // It lists no piece.
    ensures lists { HasCleanDisk (state S.Store conn.new) → OnOk result
        (IsTrue (state S.Store conn.old).is_open → (gaps : List Gap)
        → ListsInUse gaps (state S.Store conn.new).now) }
    ensures crash { Survives (state S.Store conn.old) (state S.Store conn.new)
        (LeavesNewTables profile volume from (state S.Store conn.old)) }
    // The fault is out of memory or of SQL.
    ensures outside { IfErr result IsOutside }
    ensures ended { HasCleanDisk (state S.Store conn.new)
        → (state S.Store conn.old).in_transaction ≡ false
        → (state S.Store conn.new).in_transaction ≡ false }
    ensures busy { (state S.Store conn.old).in_transaction ≡ true
        → IsErrAnd result (λ f. conn.new ≡ conn.old) }
    // A database that is not blank is left as it was.
    ensures untouched { (state S.Store conn.old).in_transaction ≡ false
        → (IsBlank (state S.Store conn.old) → ⊥)
        → LeavesAlone (state S.Store conn.old) (state S.Store conn.new) }
    // Where there is a table `meta`, the fault is the error that SQLite gave.
    ensures taken { HasCleanDisk (state S.Store conn.new)
        → (state S.Store conn.old).in_transaction ≡ false
        → HasMetaTable (state S.Store conn.old).now.schema → IsErrAnd result IsTakenFault }
{
    new_store_is_tree();
    law_of_root(from);
    if !conn.is_autocommit() {
        return Err(StoreFault::Sql(Error::InvalidQuery));
    }
    if !is_empty(conn.schema()) {
        return Err(refuse_store(conn, from));
    }
    make_store(conn, volume_for(profile, volume), from)
}
