// A group of requests as a whole transaction.
ghost use Rattle.std.specs.Prelude.{◌≡◌, ◌≢◌, ◌<◌, ◌^◌, [], None, true, false, length, map};
ghost use Rattle.std.specs.Prelude.{IsTrue, IfOk, IfErr, IfSome, OnOk, OnErr};
ghost use Rattle.sqlite.specs.State.{HasCleanDisk, KeepsCommit};
ghost use Rattle.sqlite.specs.Held.{state};
ghost use Rattle.fuse_data.specs.State.{state_in};
ghost use Rattle.fuse_keeper.specs.Group.{entries_of, ids_of};
ghost use Rattle.fuse_keeper.specs.History.{kept_of};
ghost use Rattle.fuse_tree.specs.TheTree.{tree_of};
ghost use Rattle.fuse_store_tables.specs.Faults.{IsPlain};
ghost use Rattle.fuse_store_tables.specs.Moves.{CommitsOnce, LeavesAlone, RollsBack, StaysOpen};
ghost use Rattle.fuse_store_tables.specs.Saying.{IsRefusal};
ghost use Rattle.fuse_store_tables.specs.inner.Performing.{CommitsNothing, TransactsAs};
ghost use Rattle.fuse_store_tree.specs.Group.{all_dones, keeps_nothing, lot_after, lot_for};
ghost use Rattle.fuse_store_tree.specs.Group.{performed, transacted};
ghost use Rattle.fuse_store_tree.specs.Knowing.{HeldForKnown, IsSafeKnown, ReportsKnown};
ghost use Rattle.fuse_store_tree.specs.Looking.{as_look_fault};
ghost use Rattle.fuse_store_tree.specs.Pieces.{ReadsData};
ghost use Rattle.fuse_store_tree.specs.StoreState.{IsSafeStore, IsSoundStore, ReportsStore};
ghost use Rattle.fuse_store_tree.specs.StoreState.{ServesStore, StaysUsable, store_in};
ghost use Rattle.fuse_store_tree.specs.Viewing.{view_in};
ghost use Rattle.fuse_store_tree.specs.inner.Preparing.{AreForEach, IsMadeAside};
ghost use Rattle.fuse_store_tree.specs.inner.Transacting.{HeldForSynced, TransactsAside, WritesOn};

use crate::free_space::{find_space, lost_after};
use crate::group::{Performed, Transacted};
use crate::look::TableLook;
use crate::made::{MadePiece, make_group};
use crate::moved_group::{either, move_and_perform};
use crate::piece_cuts::Gone;
use crate::seeing::{only_sees, see_at_rest};
use crate::store_data::Data;
use fuse_init::Profile;
use fuse_keeper::StoreFault;
use fuse_request::Request;
use fuse_store_tables::{begin, commit, undo};
use fuse_wire::{Id, Moment};
use sqlite::Alter;
use sqlite_disk::Disk;
use std::alloc::Global;

// The transaction. A fault may leave it open. What was written for it is synced before the commit.
fn transact<S: Alter, D: Disk>(
    alloc: Global,
    look: &mut TableLook<S, Data<D>>,
    profile: Profile,
    lot: Option<u64>,
    group: &[(Request<'_>, Moment)],
    settled: &[Id],
    made: &[Vec<MadePiece>],
    wrote: bool,
) -> Result<Transacted, StoreFault>
    requires ready { as_look_fault look.old.fault ≡ None }
    requires lot { IfSome lot (λ n. n < 2 ^ 62) }
    requires made { AreForEach (IsMadeAside (state_in D.Disk look.old.contents.file)
        look.old.contents.written.items) (entries_of group.now) (map (λ v. v.items) made.now) }
    ensures count { IfOk result (λ p. length p.dones.items ≡ length group.now) }
    ensures performs { IsTrue (state_in D.Disk look.new.contents.file).is_clean
        → TransactsAs (HeldForKnown (view_in D.Disk look.old.contents).bytes look.old.known)
        (λ y. HeldForSynced wrote (state_in D.Disk look.old.contents.file)
        (state_in D.Disk look.new.contents.file) (HeldForKnown (view_in D.Disk look.new.contents).bytes look.new.known
        (transacted (tree_of profile).service lot (ids_of settled.now) (entries_of group.now) y)))
        (state S.Store look.old.conn) (state S.Store look.new.conn) result }
    ensures contents { WritesOn (state_in D.Disk look.old.contents.file)
        (state_in D.Disk look.new.contents.file) look.old.contents.written.items
        look.new.contents.written.items result }
    ensures open { StaysOpen (state S.Store look.old.conn) (state S.Store look.new.conn) result }
    ensures ended { OnOk result (HasCleanDisk (state S.Store look.new.conn)
        → (state S.Store look.new.conn).in_transaction ≡ false) }
    ensures lot { IsTrue (state_in D.Disk look.new.contents.file).is_clean → IfOk result (λ p.
        ReportsKnown (view_in D.Disk look.old.contents).bytes look.old.known
        (state S.Store look.old.conn) (state S.Store look.new.conn) (λ y. p.lot ≡ lot_for lot y)) }
    ensures low { IfOk result (λ p. p.lot < 2 ^ 62) }
    ensures dones { IsTrue (state_in D.Disk look.new.contents.file).is_clean → IfOk result (λ p.
        ReportsKnown (view_in D.Disk look.old.contents).bytes look.old.known
        (state S.Store look.old.conn) (state S.Store look.new.conn) (λ y. p.dones.items
        ≡ all_dones (tree_of profile).service lot (ids_of settled.now)
        (entries_of group.now) y)) }
    ensures ready { as_look_fault look.new.fault ≡ None }
    ensures fault { IsTrue (state_in D.Disk look.new.contents.file).is_clean
        → IsSafeKnown (view_in D.Disk look.old.contents).bytes look.old.known lot
        (state S.Store look.old.conn) (state S.Store look.new.conn) result }
    ensures refused { IfErr result (λ f. IsRefusal f
        → CommitsNothing (state S.Store look.old.conn) (state S.Store look.new.conn)) }
    ensures keeps { OnErr result (HasCleanDisk (state S.Store look.new.conn)
        → KeepsCommit (state S.Store look.old.conn) (state S.Store look.new.conn)) }
    ensures once { CommitsOnce (state S.Store look.old.conn) (state S.Store look.new.conn) result }
    ensures plain { IfErr result IsPlain }
{
    match begin(&mut look.conn) {
        Ok(()) => {}
        Err(error) => return Err(StoreFault::from(error)),
    }
    let transacted = match move_and_perform(alloc, look, profile, lot, group, settled, made) {
        Ok(transacted) => transacted,
        Err(fault) => return Err(fault),
    };
    let moved = look.contents.moved;
    match look.contents.sync_if(either(wrote, moved)) {
        Ok(()) => {}
        Err(fault) => return Err(fault),
    }
    match commit(&mut look.conn) {
        Ok(()) => Ok(transacted),
        Err(error) => Err(StoreFault::from(error)),
    }
}

// Writes what the large WRITEs of a group are made of, and performs the group. A fault may leave a
// transaction open, and what was written unsynced.
fn make_and_transact<S: Alter, D: Disk>(
    alloc: Global,
    look: &mut TableLook<S, Data<D>>,
    profile: Profile,
    lot: Option<u64>,
    group: &[(Request<'_>, Moment)],
    settled: &[Id],
) -> Result<Transacted, StoreFault>
    requires ready { as_look_fault look.old.fault ≡ None }
    requires lot { IfSome lot (λ n. n < 2 ^ 62) }
    requires empty { look.old.contents.written.items ≡ [] }
    ensures count { IfOk result (λ p. length p.dones.items ≡ length group.now) }
    ensures performs { TransactsAside look.old.known look.new.known
        (transacted (tree_of profile).service lot (ids_of settled.now) (entries_of group.now))
        (store_in S.Store D.Disk look.old.conn look.old.contents.file)
        (store_in S.Store D.Disk look.new.conn look.new.contents.file)
        look.new.contents.written.items result }
    ensures open { StaysOpen (state S.Store look.old.conn) (state S.Store look.new.conn) result }
    ensures ended { OnOk result (HasCleanDisk (state S.Store look.new.conn)
        → (state S.Store look.new.conn).in_transaction ≡ false) }
    ensures lot { IfOk result (λ p. ReportsStore look.old.known
        (store_in S.Store D.Disk look.old.conn look.old.contents.file)
        (store_in S.Store D.Disk look.new.conn look.new.contents.file)
        (λ y. p.lot ≡ lot_for lot y)) }
    ensures low { IfOk result (λ p. p.lot < 2 ^ 62) }
    ensures dones { IfOk result (λ p. ReportsStore look.old.known
        (store_in S.Store D.Disk look.old.conn look.old.contents.file)
        (store_in S.Store D.Disk look.new.conn look.new.contents.file) (λ y. p.dones.items
        ≡ all_dones (tree_of profile).service lot (ids_of settled.now)
        (entries_of group.now) y)) }
    ensures ready { as_look_fault look.new.fault ≡ None }
    ensures fault { IsSafeStore look.old.known lot
        (store_in S.Store D.Disk look.old.conn look.old.contents.file)
        (store_in S.Store D.Disk look.new.conn look.new.contents.file) result }
    ensures refused { IfErr result (λ f. IsRefusal f
        → CommitsNothing (state S.Store look.old.conn) (state S.Store look.new.conn)) }
    ensures keeps { OnErr result (HasCleanDisk (state S.Store look.new.conn)
        → KeepsCommit (state S.Store look.old.conn) (state S.Store look.new.conn)) }
    ensures once { CommitsOnce (state S.Store look.old.conn) (state S.Store look.new.conn) result }
    ensures plain { IfErr result IsPlain }
{
    let made = match make_group(alloc, &mut look.contents, group) {
        Ok(made) => made,
        Err(fault) => return Err(fault),
    };
    let wrote = look.contents.has_written();
    let pieces = made.as_slice();
    transact(alloc, look, profile, lot, group, settled, pieces, wrote)
}

// Performs a group in one transaction. Its commit is the last call of the database.
fn commit_group<S: Alter, D: Disk>(
    alloc: Global,
    look: &mut TableLook<S, Data<D>>,
    profile: Profile,
    lot: Option<u64>,
    group: &[(Request<'_>, Moment)],
    settled: &[Id],
) -> Result<Transacted, StoreFault>
    requires ready { as_look_fault look.old.fault ≡ None }
    requires lot { IfSome lot (λ n. n < 2 ^ 62) }
    requires empty { look.old.contents.written.items ≡ [] }
    ensures count { IfOk result (λ p. length p.dones.items ≡ length group.now) }
    ensures serves { ServesStore look.old.known look.new.known
        (transacted (tree_of profile).service lot (ids_of settled.now) (entries_of group.now))
        (store_in S.Store D.Disk look.old.conn look.old.contents.file)
        (store_in S.Store D.Disk look.new.conn look.new.contents.file) result }
    ensures usable { StaysUsable (store_in S.Store D.Disk look.old.conn look.old.contents.file)
        (store_in S.Store D.Disk look.new.conn look.new.contents.file) result }
    ensures open { StaysOpen (state S.Store look.old.conn) (state S.Store look.new.conn) result }
    // No transaction is left open, whether it succeeds or not.
    ensures ended { HasCleanDisk (state S.Store look.new.conn)
        → (state S.Store look.new.conn).in_transaction ≡ false }
    ensures lot { IfOk result (λ p. ReportsStore look.old.known
        (store_in S.Store D.Disk look.old.conn look.old.contents.file)
        (store_in S.Store D.Disk look.new.conn look.new.contents.file)
        (λ y. p.lot ≡ lot_for lot y)) }
    ensures low { IfOk result (λ p. p.lot < 2 ^ 62) }
    ensures dones { IfOk result (λ p. ReportsStore look.old.known
        (store_in S.Store D.Disk look.old.conn look.old.contents.file)
        (store_in S.Store D.Disk look.new.conn look.new.contents.file) (λ y. p.dones.items
        ≡ all_dones (tree_of profile).service lot (ids_of settled.now)
        (entries_of group.now) y)) }
    ensures ready { as_look_fault look.new.fault ≡ None }
    ensures forgets { OnErr result (look.new.known ≡ None) }
    // Of a store that was sound, the fault is `Damaged` only where no lot number is left.
    ensures fault { IsSafeStore look.old.known lot
        (store_in S.Store D.Disk look.old.conn look.old.contents.file)
        (store_in S.Store D.Disk look.new.conn look.new.contents.file) result }
    // Then the tables are as they were, after a crash too, whatever the database.
    ensures refused { IfErr result (λ f. IsRefusal f
        → LeavesAlone (state S.Store look.old.conn) (state S.Store look.new.conn)) }
    // Where the call fails, what was committed before is seen, whatever the database.
    ensures undone { OnErr result (RollsBack (state S.Store look.old.conn)
        (state S.Store look.new.conn)) }
    // It commits once at most: after a crash all of it is seen, or nothing.
    ensures once { CommitsOnce (state S.Store look.old.conn) (state S.Store look.new.conn) result }
    // The fault is never `NotAStore` or `Version`.
    ensures plain { IfErr result IsPlain }
{
    match make_and_transact(alloc, look, profile, lot, group, settled) {
        Ok(transacted) => Ok(transacted),
        Err(fault) => {
            undo(&mut look.conn);
            look.known = None;
            look.contents.settle();
            // The tables still list what the transaction took off.
            look.gone = Gone::new(alloc);
            Err(fault)
        }
    }
}

// Finds the free space anew, where too much of it is lost, and performs a group in one transaction.
fn commit_anew<S: Alter, D: Disk>(
    alloc: Global,
    look: &mut TableLook<S, Data<D>>,
    profile: Profile,
    lot: Option<u64>,
    group: &[(Request<'_>, Moment)],
    settled: &[Id],
) -> Result<Transacted, StoreFault>
    requires ready { as_look_fault look.old.fault ≡ None }
    requires lot { IfSome lot (λ n. n < 2 ^ 62) }
    requires empty { look.old.contents.written.items ≡ [] }
    ensures count { IfOk result (λ p. length p.dones.items ≡ length group.now) }
    ensures serves { ServesStore look.old.known look.new.known
        (transacted (tree_of profile).service lot (ids_of settled.now) (entries_of group.now))
        (store_in S.Store D.Disk look.old.conn look.old.contents.file)
        (store_in S.Store D.Disk look.new.conn look.new.contents.file) result }
    ensures usable { StaysUsable (store_in S.Store D.Disk look.old.conn look.old.contents.file)
        (store_in S.Store D.Disk look.new.conn look.new.contents.file) result }
    ensures open { StaysOpen (state S.Store look.old.conn) (state S.Store look.new.conn) result }
    ensures ended { HasCleanDisk (state S.Store look.new.conn)
        → (state S.Store look.new.conn).in_transaction ≡ false }
    ensures lot { IfOk result (λ p. ReportsStore look.old.known
        (store_in S.Store D.Disk look.old.conn look.old.contents.file)
        (store_in S.Store D.Disk look.new.conn look.new.contents.file)
        (λ y. p.lot ≡ lot_for lot y)) }
    ensures low { IfOk result (λ p. p.lot < 2 ^ 62) }
    ensures dones { IfOk result (λ p. ReportsStore look.old.known
        (store_in S.Store D.Disk look.old.conn look.old.contents.file)
        (store_in S.Store D.Disk look.new.conn look.new.contents.file) (λ y. p.dones.items
        ≡ all_dones (tree_of profile).service lot (ids_of settled.now)
        (entries_of group.now) y)) }
    ensures ready { as_look_fault look.new.fault ≡ None }
    ensures forgets { OnErr result (look.new.known ≡ None) }
    ensures fault { IsSafeStore look.old.known lot
        (store_in S.Store D.Disk look.old.conn look.old.contents.file)
        (store_in S.Store D.Disk look.new.conn look.new.contents.file) result }
    ensures refused { IfErr result (λ f. IsRefusal f
        → LeavesAlone (state S.Store look.old.conn) (state S.Store look.new.conn)) }
    ensures undone { OnErr result (RollsBack (state S.Store look.old.conn)
        (state S.Store look.new.conn)) }
    ensures once { CommitsOnce (state S.Store look.old.conn) (state S.Store look.new.conn) result }
    ensures plain { IfErr result IsPlain }
{
    match find_space(&mut look.conn, &mut look.contents, alloc) {
        Ok(()) => commit_group(alloc, look, profile, lot, group, settled),
        Err(fault) => {
            look.known = None;
            Err(fault)
        }
    }
}

/// Performs a group. Where nothing is to be kept, nothing is changed or committed. Else it is one
/// transaction, whose commit is the last call of the database: a fault leaves the state before the
/// group, and a crash leaves the state before or after it. What the transaction lists of the data
/// file was written and synced before the commit, into blocks that no committed transaction lists.
/// What is known of `meta` stays right, and is forgotten at a fault.
pub fn perform<S: Alter, D: Disk>(
    alloc: Global,
    look: &mut TableLook<S, Data<D>>,
    profile: Profile,
    lot: Option<u64>,
    group: &[(Request<'_>, Moment)],
    settled: &[Id],
) -> Result<Performed, StoreFault>
    requires ready { as_look_fault look.old.fault ≡ None }
    requires lot { IfSome lot (λ n. n < 2 ^ 62) }
    ensures count { IfOk result (λ p. length p.dones.items ≡ length group.now) }
    ensures serves { ServesStore look.old.known look.new.known
        (performed (tree_of profile).service lot (ids_of settled.now) (entries_of group.now))
        (store_in S.Store D.Disk look.old.conn look.old.contents.file)
        (store_in S.Store D.Disk look.new.conn look.new.contents.file) result }
    ensures usable { StaysUsable (store_in S.Store D.Disk look.old.conn look.old.contents.file)
        (store_in S.Store D.Disk look.new.conn look.new.contents.file) result }
    ensures open { StaysOpen (state S.Store look.old.conn) (state S.Store look.new.conn) result }
    // No transaction is left open, whether it succeeds or not.
    ensures ended { HasCleanDisk (state S.Store look.new.conn)
        → (state S.Store look.new.conn).in_transaction ≡ false }
    ensures lot { IfOk result (λ p. ReportsStore look.old.known
        (store_in S.Store D.Disk look.old.conn look.old.contents.file)
        (store_in S.Store D.Disk look.new.conn look.new.contents.file) (λ y. p.lot
        ≡ lot_after (tree_of profile).service lot (ids_of settled.now) (entries_of group.now) y)) }
    ensures low { IfOk result (λ p. IfSome p.lot (λ n. n < 2 ^ 62)) }
    ensures dones { IfOk result (λ p. ReportsStore look.old.known
        (store_in S.Store D.Disk look.old.conn look.old.contents.file)
        (store_in S.Store D.Disk look.new.conn look.new.contents.file) (λ y. p.dones.items
        ≡ all_dones (tree_of profile).service lot (ids_of settled.now)
        (entries_of group.now) y)) }
    ensures ready { as_look_fault look.new.fault ≡ None }
    ensures forgets { OnErr result (look.new.known ≡ None) }
    // Of a store that was sound, the fault is `Damaged` only where no lot number is left.
    ensures fault { IsSafeStore look.old.known lot
        (store_in S.Store D.Disk look.old.conn look.old.contents.file)
        (store_in S.Store D.Disk look.new.conn look.new.contents.file) result }
    // Where nothing is to be kept, it never is, whether a lot number is left or not.
    ensures sound { keeps_nothing (kept_of (tree_of profile).service (entries_of group.now))
        (ids_of settled.now) ≡ true → IsSoundStore look.old.known
        (store_in S.Store D.Disk look.old.conn look.old.contents.file)
        (store_in S.Store D.Disk look.new.conn look.new.contents.file) result }
    // A refusal leaves the tables as they were, after a crash too, whatever the database.
    ensures refused { IfErr result (λ f. IsRefusal f
        → LeavesAlone (state S.Store look.old.conn) (state S.Store look.new.conn)) }
    // Where the call fails, what was committed before is seen, whatever the database.
    ensures undone { OnErr result (RollsBack (state S.Store look.old.conn)
        (state S.Store look.new.conn)) }
    ensures same_lot { keeps_nothing (kept_of (tree_of profile).service (entries_of group.now))
        (ids_of settled.now) ≡ true → IfOk result (λ p. p.lot ≡ lot) }
    ensures some_lot { keeps_nothing (kept_of (tree_of profile).service (entries_of group.now))
        (ids_of settled.now) ≡ false → IfOk result (λ p. p.lot ≢ None) }
    // Where nothing is to be kept, the store is left alone, whether it succeeds or not.
    ensures alone { keeps_nothing (kept_of (tree_of profile).service (entries_of group.now))
        (ids_of settled.now) ≡ true
        → LeavesAlone (state S.Store look.old.conn) (state S.Store look.new.conn) }
    ensures reads { keeps_nothing (kept_of (tree_of profile).service (entries_of group.now))
        (ids_of settled.now) ≡ true → ReadsData (state_in D.Disk look.old.contents.file)
        (state_in D.Disk look.new.contents.file) }
    // It commits once at most: after a crash all of it is seen, or nothing.
    ensures once { CommitsOnce (state S.Store look.old.conn) (state S.Store look.new.conn) result }
    // The fault is never `NotAStore` or `Version`.
    ensures plain { IfErr result IsPlain }
{
    let written = look.contents.written.as_slice();
    look.contents.lost = lost_after(look.contents.lost, written, &look.gone);
    look.contents.written = Vec::new(alloc);
    look.gone = Gone::new(alloc);
    if only_sees(profile, group, settled) {
        return match see_at_rest(alloc, look, profile, group) {
            Ok(dones) => Ok(Performed { lot, dones }),
            Err(fault) => Err(fault),
        };
    }
    match commit_anew(alloc, look, profile, lot, group, settled) {
        Ok(transacted) => Ok(Performed {
            lot: Some(transacted.lot),
            dones: transacted.dones,
        }),
        Err(fault) => Err(fault),
    }
}
