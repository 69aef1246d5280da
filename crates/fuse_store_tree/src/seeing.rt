// A group of seen requests alone.
ghost use Rattle.std.specs.Prelude.{◌≡◌, [], None, true, false, length, IsTrue};
ghost use Rattle.std.specs.Prelude.{IfOk, IfErr, OnOk, OnErr};
ghost use Rattle.sqlite.specs.Held.{state};
ghost use Rattle.fuse_keeper.specs.Group.{entries_of, ids_of};
ghost use Rattle.fuse_keeper.specs.History.{kept_of};
ghost use Rattle.fuse_store_tables.specs.Moves.{ServesAs, StaysOpen, LeavesAlone, IsSafe};
ghost use Rattle.fuse_store_tables.specs.inner.Performing.{CommitsNothing, TransactsAs};
ghost use Rattle.fuse_store_tables.specs.Faults.{IsPlain};
ghost use Rattle.fuse_tree.specs.TheTree.{tree_of};
ghost use Rattle.fuse_store_tree.specs.Looking.{as_look_fault};
ghost use Rattle.fuse_store_tree.specs.Pieces.{ReadsFile};
ghost use Rattle.fuse_store_tree.specs.Knowing.{HeldForKnown, ReportsKnown};
ghost use Rattle.fuse_store_tree.specs.Group.{dones_of, keeps_nothing};

use crate::contents::Contents;
use crate::group::take_all;
use crate::look::TableLook;
use fuse_init::Profile;
use fuse_keeper::{Done, StoreFault};
use fuse_request::Request;
use fuse_store_tables::{begin, go_back, undo};
use fuse_tree::sees_requests;
use fuse_wire::{Id, Moment};
use sqlite::Alter;
use std::alloc::Global;

// Whether one of these requests is kept, and not seen.
fn keeps_any(profile: Profile, group: &[(Request<'_>, Moment)]) -> bool
    ensures some { result ≡ true → ¬ (kept_of (tree_of profile).service (entries_of group.now) ≡ []) }
    ensures none { result ≡ false → kept_of (tree_of profile).service (entries_of group.now) ≡ [] }
{
    for one in group {
        if !sees_requests(profile, one.0.op.opcode()) {
            return true;
        }
    }
    false
}

/// Whether nothing is to be kept: no request of the group is, and no id is settled.
pub(crate) fn only_sees(profile: Profile, group: &[(Request<'_>, Moment)], settled: &[Id]) -> bool
    ensures { result ≡ keeps_nothing (kept_of (tree_of profile).service (entries_of group.now))
        (ids_of settled.now) }
{
    settled.is_empty() && !keeps_any(profile, group)
}

// Sees the requests of a group in a transaction that is rolled back. A fault may leave it open.
fn see_inside<S: Alter, C: Contents>(
    alloc: Global,
    look: &mut TableLook<S, C>,
    profile: Profile,
    group: &[(Request<'_>, Moment)],
) -> Result<Vec<Done>, StoreFault>
    requires ready { as_look_fault look.old.fault ≡ None }
    requires seen { kept_of (tree_of profile).service (entries_of group.now) ≡ [] }
    ensures count { IfOk result (λ dones. length dones.items ≡ length group.now) }
    ensures reads { ReadsFile (C.Contents.file look.old.contents)
        (C.Contents.file look.new.contents) }
    ensures performs { IsTrue (C.Contents.file look.new.contents).is_clean
        → TransactsAs (HeldForKnown (C.Contents.file look.new.contents).bytes look.old.known)
        (HeldForKnown (C.Contents.file look.new.contents).bytes look.new.known)
        (state S.Store look.old.conn) (state S.Store look.new.conn) result }
    ensures open { StaysOpen (state S.Store look.old.conn) (state S.Store look.new.conn) result }
    // Nothing is committed, whether it succeeds or not.
    ensures nothing { CommitsNothing (state S.Store look.old.conn) (state S.Store look.new.conn) }
    ensures alone { OnOk result (LeavesAlone (state S.Store look.old.conn)
        (state S.Store look.new.conn)) }
    ensures dones { IsTrue (C.Contents.file look.new.contents).is_clean
        → IfOk result (λ dones. ReportsKnown (C.Contents.file look.new.contents).bytes look.old.known (state S.Store look.old.conn)
        (state S.Store look.new.conn) (λ y. dones.items
        ≡ dones_of (tree_of profile).service 0 (entries_of group.now) y)) }
    ensures ready { as_look_fault look.new.fault ≡ None }
    ensures fault { IsTrue (C.Contents.file look.new.contents).is_clean
        → IsSafe (HeldForKnown (C.Contents.file look.new.contents).bytes look.old.known) (state S.Store look.old.conn)
        (state S.Store look.new.conn) result }
    ensures plain { IfErr result IsPlain }
{
    match begin(&mut look.conn) {
        Ok(()) => {}
        Err(error) => return Err(StoreFault::from(error)),
    }
    // No record is added, so it doesn't matter under which lot.
    let dones = match take_all(alloc, look, profile, 0, group, &[]) {
        Ok(dones) => dones,
        Err(fault) => return Err(fault),
    };
    match go_back(&mut look.conn) {
        Ok(()) => Ok(dones),
        Err(error) => Err(StoreFault::from(error)),
    }
}

/// Sees the requests of a group of which none is kept. Nothing is changed, and nothing is committed,
/// whether it succeeds or not.
pub(crate) fn see_at_rest<S: Alter, C: Contents>(
    alloc: Global,
    look: &mut TableLook<S, C>,
    profile: Profile,
    group: &[(Request<'_>, Moment)],
) -> Result<Vec<Done>, StoreFault>
    requires ready { as_look_fault look.old.fault ≡ None }
    requires seen { kept_of (tree_of profile).service (entries_of group.now) ≡ [] }
    ensures count { IfOk result (λ dones. length dones.items ≡ length group.now) }
    ensures reads { ReadsFile (C.Contents.file look.old.contents)
        (C.Contents.file look.new.contents) }
    ensures serves { IsTrue (C.Contents.file look.new.contents).is_clean
        → ServesAs (HeldForKnown (C.Contents.file look.new.contents).bytes look.old.known)
        (HeldForKnown (C.Contents.file look.new.contents).bytes look.new.known)
        (state S.Store look.old.conn) (state S.Store look.new.conn) result }
    ensures open { StaysOpen (state S.Store look.old.conn) (state S.Store look.new.conn) result }
    ensures alone { LeavesAlone (state S.Store look.old.conn) (state S.Store look.new.conn) }
    ensures dones { IsTrue (C.Contents.file look.new.contents).is_clean
        → IfOk result (λ dones. ReportsKnown (C.Contents.file look.new.contents).bytes look.old.known (state S.Store look.old.conn)
        (state S.Store look.new.conn) (λ y. dones.items
        ≡ dones_of (tree_of profile).service 0 (entries_of group.now) y)) }
    ensures ready { as_look_fault look.new.fault ≡ None }
    ensures forgets { OnErr result (look.new.known ≡ None) }
    ensures fault { IsTrue (C.Contents.file look.new.contents).is_clean
        → IsSafe (HeldForKnown (C.Contents.file look.new.contents).bytes look.old.known) (state S.Store look.old.conn)
        (state S.Store look.new.conn) result }
    ensures plain { IfErr result IsPlain }
{
    match see_inside(alloc, look, profile, group) {
        Ok(dones) => Ok(dones),
        Err(fault) => {
            undo(&mut look.conn);
            look.known = None;
            Err(fault)
        }
    }
}
