// A group in the open transaction, after the rows that it could make too many are moved.
ghost use Rattle.std.specs.Prelude.{◌≡◌, ◌<◌, ◌^◌, ◌||◌, None, false, length, map, IsTrue};
ghost use Rattle.std.specs.Prelude.{IfOk, IfErr, IfSome, OnOk, OnErr};
ghost use Rattle.sqlite.specs.State.{HasCleanDisk};
ghost use Rattle.sqlite.specs.Held.{state};
ghost use Rattle.fuse_data.specs.State.{state_in};
ghost use Rattle.fuse_keeper.specs.Group.{entries_of, ids_of};
ghost use Rattle.fuse_tree.specs.TheTree.{tree_of};
ghost use Rattle.fuse_store_tables.specs.Faults.{IsPlain};
ghost use Rattle.fuse_store_tables.specs.Moves.{Stays};
ghost use Rattle.fuse_store_tree.specs.Group.{all_dones, lot_for, transacted};
ghost use Rattle.fuse_store_tree.specs.Holding.{Holding};
ghost use Rattle.fuse_store_tree.specs.Looking.{as_look_fault};
ghost use Rattle.fuse_store_tree.specs.Pieces.{ReadsData};
ghost use Rattle.fuse_store_tree.specs.Viewing.{view_in};
ghost use Rattle.fuse_store_tree.specs.inner.Knowing.{InsideKnown, IsSureKnown};
ghost use Rattle.fuse_store_tree.specs.inner.Moving.{AddsTo};
ghost use Rattle.fuse_store_tree.specs.inner.Over.{TurnedOver};
ghost use Rattle.fuse_store_tree.specs.inner.Preparing.{AreForEach, IsMadeAside};

use crate::group::{Transacted, perform_in};
use crate::look::TableLook;
use crate::made::MadePiece;
use crate::store_data::Data;
use crate::windows::move_rows;
use fuse_init::Profile;
use fuse_keeper::StoreFault;
use fuse_request::Request;
use fuse_wire::{Id, Moment};
use sqlite::Alter;
use sqlite_disk::Disk;
use std::alloc::Global;

/// Whether one of the two is so.
pub(crate) fn either(a: bool, b: bool) -> bool
    ensures { result ≡ (a || b) }
{
    a || b
}

/// Moves rows of `blocks`, where a group could make them too many, and performs the group.
pub(crate) fn move_and_perform<S: Alter, D: Disk>(
    alloc: Global,
    look: &mut TableLook<S, Data<D>>,
    profile: Profile,
    lot: Option<u64>,
    group: &[(Request<'_>, Moment)],
    settled: &[Id],
    made: &[Vec<MadePiece>],
) -> Result<Transacted, StoreFault>
    requires ready { as_look_fault look.old.fault ≡ None }
    requires lot { IfSome lot (λ n. n < 2 ^ 62) }
    requires made { AreForEach (IsMadeAside (state_in D.Disk look.old.contents.file)
        look.old.contents.written.items) (entries_of group.now) (map (λ v. v.items) made.now) }
    ensures count { IfOk result (λ p. length p.dones.items ≡ length group.now) }
    ensures adds { AddsTo (state_in D.Disk look.old.contents.file)
        (state_in D.Disk look.new.contents.file) look.old.contents.written.items
        look.new.contents.written.items }
    ensures idle { OnOk result (look.new.contents.moved ≡ false
        → ReadsData (state_in D.Disk look.old.contents.file)
        (state_in D.Disk look.new.contents.file)) }
    ensures turned { OnOk result (TurnedOver (view_in D.Disk look.old.contents)
        (view_in D.Disk look.new.contents) look.old.known look.new.known
        (transacted (tree_of profile).service lot (ids_of settled.now) (entries_of group.now))
        (state S.Store look.old.conn) (state S.Store look.new.conn)) }
    ensures lot { HasCleanDisk (state S.Store look.new.conn)
        → IsTrue (state_in D.Disk look.new.contents.file).is_clean → IfOk result (λ p.
        (y : Holding) → InsideKnown (view_in D.Disk look.old.contents).bytes look.old.known y
        (state S.Store look.old.conn) → p.lot ≡ lot_for lot y) }
    ensures low { IfOk result (λ p. p.lot < 2 ^ 62) }
    ensures dones { HasCleanDisk (state S.Store look.new.conn)
        → IsTrue (state_in D.Disk look.new.contents.file).is_clean → IfOk result (λ p.
        (y : Holding) → InsideKnown (view_in D.Disk look.old.contents).bytes look.old.known y
        (state S.Store look.old.conn) → p.dones.items
        ≡ all_dones (tree_of profile).service lot (ids_of settled.now) (entries_of group.now) y) }
    ensures fails { OnErr result (Stays (state S.Store look.old.conn)
        (state S.Store look.new.conn)) }
    ensures ready { as_look_fault look.new.fault ≡ None }
    ensures fault { IsTrue (state_in D.Disk look.new.contents.file).is_clean
        → IsSureKnown (view_in D.Disk look.old.contents).bytes look.old.known lot
        (state S.Store look.old.conn) (state S.Store look.new.conn) result }
    ensures plain { IfErr result IsPlain }
{
    let moved = match move_rows(
        &mut look.conn,
        &mut look.contents,
        &mut look.gone,
        alloc,
        group,
    ) {
        Ok(moved) => moved,
        Err(fault) => return Err(fault),
    };
    match perform_in(alloc, look, profile, lot, group, settled, made) {
        Ok(transacted) => {
            look.contents.moved = moved;
            Ok(transacted)
        }
        Err(fault) => Err(fault),
    }
}
