// A group of requests, within the open transaction.
ghost use Rattle.std.specs.Prelude.{◌≡◌, ◌<◌, ◌^◌, ℕ, List, [], None, length, map, IsTrue};
ghost use Rattle.std.specs.Prelude.{IfOk, IfErr, IfSome, OnOk, OnErr};
ghost use Rattle.sqlite.specs.State.{HasCleanDisk};
ghost use Rattle.sqlite.specs.Held.{state};
ghost use Rattle.fuse_keeper.specs.Group.{entries_of, ids_of};
ghost use Rattle.fuse_keeper.specs.History.{kept_of};
ghost use Rattle.fuse_tree.specs.TheTree.{tree_of};
ghost use Rattle.fuse_store_tables.specs.Faults.{IsPlain};
ghost use Rattle.fuse_store_tables.specs.Moves.{Stays};
ghost use Rattle.fuse_store_tables.specs.inner.Performing.{IsSure};
ghost use Rattle.fuse_store_tree.specs.Group.{all_dones, dones_of, lot_for, prepared, transacted};
ghost use Rattle.fuse_store_tree.specs.Group.{with_group};
ghost use Rattle.fuse_store_tree.specs.Holding.{Holding};
ghost use Rattle.fuse_store_tree.specs.Knowing.{HeldForKnown};
ghost use Rattle.fuse_store_tree.specs.Looking.{as_look_fault};
ghost use Rattle.fuse_store_tree.specs.Pieces.{ReadsFile};
ghost use Rattle.fuse_store_tree.specs.Widening.{Widens};
ghost use Rattle.fuse_store_tree.specs.inner.Changing.{InsideFor, IsSureFor, Turned};
ghost use Rattle.fuse_store_tree.specs.inner.Knowing.{InsideKnown, IsSureKnown};
ghost use Rattle.fuse_store_tree.specs.inner.Over.{TurnedOver};
ghost use Rattle.fuse_store_tree.specs.inner.Preparing.{AreForEach, IsMade};

use crate::contents::Contents;
use crate::look::TableLook;
use crate::lots::take_lot;
use crate::made::{MadePiece, made_at, made_for};
use crate::request::take_one;
use crate::settled_ids::settle;
use fuse_init::Profile;
use fuse_keeper::{Done, StoreFault};
use fuse_request::Request;
use fuse_wire::{Id, Moment};
use sqlite::{Alter, Connection};
use std::alloc::Global;

/// The answers of a group, and the lot of this opening then.
#[derive(Drop)]
pub struct Performed {
    pub lot: Option<u64>,
    pub dones: Vec<Done>,
}

/// The answers of a group whose records went under this lot.
#[derive(Drop)]
pub(crate) struct Transacted {
    pub(crate) lot: u64,
    pub(crate) dones: Vec<Done>,
}

/// Takes the requests of a group, one after the other: kept ones are replayed or executed. Large
/// WRITEs list what was written for them.
pub(crate) fn take_all<S: Alter, C: Contents>(
    alloc: Global,
    look: &mut TableLook<S, C>,
    profile: Profile,
    lot: u64,
    group: &[(Request<'_>, Moment)],
    made: &[Vec<MadePiece>],
) -> Result<Vec<Done>, StoreFault>
    requires ready { as_look_fault look.old.fault ≡ None }
    requires lot { lot < 2 ^ 62 }
    requires made { AreForEach (IsMade (C.Contents.file look.old.contents).contents.seen)
        (entries_of group.now) (map (λ v. v.items) made.now) }
    ensures count { IfOk result (λ dones. length dones.items ≡ length group.now) }
    ensures widens { Widens (C.Contents.file look.old.contents)
        (C.Contents.file look.new.contents) }
    ensures turned { OnOk result (TurnedOver (C.Contents.file look.old.contents)
        (C.Contents.file look.new.contents) look.old.known look.new.known
        (with_group (tree_of profile).service lot (entries_of group.now))
        (state S.Store look.old.conn) (state S.Store look.new.conn)) }
    ensures dones { HasCleanDisk (state S.Store look.new.conn)
        → IsTrue (C.Contents.file look.new.contents).is_clean → IfOk result (λ dones.
        (y : Holding) → InsideKnown (C.Contents.file look.old.contents).bytes look.old.known y
        (state S.Store look.old.conn)
        → dones.items ≡ dones_of (tree_of profile).service lot (entries_of group.now) y) }
    // Seen requests list nothing.
    ensures reads { kept_of (tree_of profile).service (entries_of group.now) ≡ []
        → ReadsFile (C.Contents.file look.old.contents) (C.Contents.file look.new.contents) }
    ensures fails { OnErr result (Stays (state S.Store look.old.conn)
        (state S.Store look.new.conn)) }
    ensures ready { as_look_fault look.new.fault ≡ None }
    ensures fault { IsTrue (C.Contents.file look.new.contents).is_clean
        → IsSure (HeldForKnown (C.Contents.file look.old.contents).bytes look.old.known)
        (state S.Store look.old.conn) (state S.Store look.new.conn) result }
    ensures plain { IfErr result IsPlain }
{
    let mut dones = Vec::new(alloc);
    let mut i = 0;
    for one in group {
        let made = made_for(&one.0, made_at(made, i));
        let done = match take_one(alloc, look, profile, lot, &one.0, one.1, &made) {
            Ok(done) => done,
            Err(fault) => return Err(fault),
        };
        dones.push(done)?;
        i += 1;
    }
    Ok(dones)
}

// Deletes the settled ids' records, and allocates this opening's lot number where it has none.
fn prepare<S: Alter>(
    conn: &mut Connection<S>,
    lot: Option<u64>,
    settled: &[Id],
) -> Result<u64, StoreFault>
    requires { IfSome lot (λ n. n < 2 ^ 62) }
    ensures turned { OnOk result ((file : List ℕ) → Turned file
        (prepared lot (ids_of settled.now)) (state S.Store conn.old) (state S.Store conn.new)) }
    ensures value { HasCleanDisk (state S.Store conn.new) → IfOk result (λ n. (file : List ℕ)
        (y : Holding) → InsideFor file y (state S.Store conn.old) → n ≡ lot_for lot y) }
    ensures low { IfOk result (λ n. n < 2 ^ 62) }
    ensures fails { OnErr result (Stays (state S.Store conn.old) (state S.Store conn.new)) }
    ensures fault { (file : List ℕ) → IsSureFor file lot (state S.Store conn.old)
        (state S.Store conn.new) result }
    ensures plain { IfErr result IsPlain }
{
    match settle(conn, settled) {
        Ok(()) => take_lot(conn, lot),
        Err(fault) => Err(fault),
    }
}

/// Performs a group in the open transaction: deletes settled records, allocates this opening's lot
/// number, then takes each request.
pub(crate) fn perform_in<S: Alter, C: Contents>(
    alloc: Global,
    look: &mut TableLook<S, C>,
    profile: Profile,
    lot: Option<u64>,
    group: &[(Request<'_>, Moment)],
    settled: &[Id],
    made: &[Vec<MadePiece>],
) -> Result<Transacted, StoreFault>
    requires ready { as_look_fault look.old.fault ≡ None }
    requires lot { IfSome lot (λ n. n < 2 ^ 62) }
    requires made { AreForEach (IsMade (C.Contents.file look.old.contents).contents.seen)
        (entries_of group.now) (map (λ v. v.items) made.now) }
    ensures count { IfOk result (λ p. length p.dones.items ≡ length group.now) }
    ensures widens { Widens (C.Contents.file look.old.contents)
        (C.Contents.file look.new.contents) }
    ensures turned { OnOk result (TurnedOver (C.Contents.file look.old.contents)
        (C.Contents.file look.new.contents) look.old.known look.new.known
        (transacted (tree_of profile).service lot (ids_of settled.now) (entries_of group.now))
        (state S.Store look.old.conn) (state S.Store look.new.conn)) }
    ensures lot { HasCleanDisk (state S.Store look.new.conn) → IfOk result (λ p. (file : List ℕ)
        (y : Holding) → InsideFor file y (state S.Store look.old.conn) → p.lot ≡ lot_for lot y) }
    ensures low { IfOk result (λ p. p.lot < 2 ^ 62) }
    ensures dones { HasCleanDisk (state S.Store look.new.conn)
        → IsTrue (C.Contents.file look.new.contents).is_clean → IfOk result (λ p.
        (y : Holding) → InsideKnown (C.Contents.file look.old.contents).bytes look.old.known y
        (state S.Store look.old.conn) → p.dones.items
        ≡ all_dones (tree_of profile).service lot (ids_of settled.now) (entries_of group.now) y) }
    // Nothing is committed, whether it succeeds or not.
    ensures fails { OnErr result (Stays (state S.Store look.old.conn)
        (state S.Store look.new.conn)) }
    ensures ready { as_look_fault look.new.fault ≡ None }
    // Of a store that was sound, the fault is `Damaged` only where no lot number is left.
    ensures fault { IsTrue (C.Contents.file look.new.contents).is_clean
        → IsSureKnown (C.Contents.file look.old.contents).bytes look.old.known lot
        (state S.Store look.old.conn) (state S.Store look.new.conn) result }
    ensures plain { IfErr result IsPlain }
{
    let lot = match prepare(&mut look.conn, lot, settled) {
        Ok(lot) => lot,
        Err(fault) => return Err(fault),
    };
    match take_all(alloc, look, profile, lot, group, made) {
        Ok(dones) => Ok(Transacted { lot, dones }),
        Err(fault) => Err(fault),
    }
}
