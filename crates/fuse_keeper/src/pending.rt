// A group, and the settled ids that are handed to the keeper with it.
ghost use Rattle.std.specs.Prelude.{◌≡◌, ◌≤◌, ◌⊎◌, [], length, All, vec_capacity};
ghost use Rattle.std.specs.Prelude.{IfOk, IsOk, OnOk, OnErr, true, false, if◌then◌else◌};
ghost use Rattle.fuse_request.specs.Opcodes.{Service};
ghost use Rattle.fuse_keeper.specs.KeeperState.{IsFirm, Called, Looked, AnswersNoMore, of_service};
ghost use Rattle.fuse_keeper.specs.KeeperState.{Performs, ActsOn};
ghost use Rattle.fuse_keeper.specs.KeeperState.{KeepsOthers, KeepsLots, LeavesGroup, LeavesActed};
ghost use Rattle.fuse_keeper.specs.Group.{entries_of, HasId, IsPerformed, ids_of};
ghost use Rattle.fuse_keeper.specs.Group.{handed_to, left_pending};
ghost use Rattle.fuse_keeper.specs.Performance.{performances_of};
ghost use Rattle.fuse_keeper.specs.History.{kept_of};
ghost use Rattle.fuse_keeper.specs.declared.keeper.TheConstants.{MAX_GROUP as max_group};
ghost use Rattle.fuse_keeper.specs.declared.keeper.TheConstants.{MAX_SETTLED as max_settled};

use crate::fault::StoreFault;
use crate::keeper::{Done, Keeper};
use fuse_request::Request;
use fuse_wire::{Id, Moment};
use std::alloc::Global;

/// Whether one of these requests is kept, and not seen. Takes no memory.
pub fn has_kept<K: Keeper>(keeper: &K, group: &[(Request<'_>, Moment)]) -> bool
    ensures some { result ≡ true
        → ¬ (kept_of (K.told keeper.now).service (entries_of group.now) ≡ []) }
    ensures none { result ≡ false
        → kept_of (K.told keeper.now).service (entries_of group.now) ≡ [] }
{
    for one in group {
        if !keeper.sees(one.0.op.opcode()) {
            return true;
        }
    }
    false
}

// The ids that are handed on: all, if a request is kept.
fn handed(kept: bool, pending: &[Id]) -> &[Id]
    ensures { ids_of result.now ≡ (if kept then ids_of pending.now else []) }
{
    if kept { pending } else { &[] }
}

// None is pending then, if a request is kept.
fn forget_if(kept: bool, pending: &mut Vec<Id>)
    ensures ids { ids_of pending.new.items ≡ (if kept then [] else ids_of pending.old.items) }
    ensures capacity { vec_capacity pending.new ≡ vec_capacity pending.old }
{
    if kept {
        pending.clear();
    }
}

/// Performs a group, if it isn't empty, and hands on the pending ids with it, if one of its
/// requests is kept: their records are deleted first, in the same transaction, and then none is
/// pending. With a group of seen requests alone all stay pending. An empty group calls nothing.
/// After a fault all are still pending. What is kept and what is seen is said by `service`, which
/// the keeper gives.
pub fn perform_group<K: Keeper>(
    alloc: Global,
    keeper: &mut K,
    group: &[(Request<'_>, Moment)],
    pending: &mut Vec<Id>,
) -> Result<Vec<Done>, StoreFault>
    ghost service: { Service }
    requires serves { (K.told keeper.old).service ≡ service }
    requires short { length group.now ≤ max_group }
    requires few { length pending.old.items ≤ max_settled }
    requires named { All HasId (entries_of group.now) }
    requires performed { All (IsPerformed service) (entries_of group.now) }
    ensures count { IfOk result (λ dones. length dones.items ≡ length group.now) }
    ensures called { Called (K.told keeper.old) (K.told keeper.new) result }
    ensures may { AnswersNoMore (K.told keeper.old) (K.told keeper.new) }
    ensures ok { IfOk result (λ dones. Performs (of_service service (K.told keeper.old))
        (of_service service (K.told keeper.new))
        (handed_to (kept_of service (entries_of group.now)) (ids_of pending.old.items))
        (entries_of group.now) dones.items) }
    // With seen requests alone it only looks.
    ensures looked { kept_of service (entries_of group.now) ≡ []
        → Looked (K.told keeper.old) (K.told keeper.new) result }
    ensures acts { IfOk result (λ dones. ActsOn (of_service service (K.told keeper.old))
        (of_service service (K.told keeper.new))
        (handed_to (kept_of service (entries_of group.now)) (ids_of pending.old.items))
        (entries_of group.now) dones.items) }
    ensures others { OnOk result (KeepsOthers (of_service service (K.told keeper.old))
        (of_service service (K.told keeper.new))
        (handed_to (kept_of service (entries_of group.now)) (ids_of pending.old.items)) (entries_of group.now)) }
    ensures lots { OnOk result (KeepsLots (of_service service (K.told keeper.old))
        (of_service service (K.told keeper.new))
        (handed_to (kept_of service (entries_of group.now)) (ids_of pending.old.items)) (entries_of group.now)) }
    ensures crash { LeavesGroup (K.told keeper.old) (K.told keeper.new)
        (handed_to (kept_of service (entries_of group.now)) (ids_of pending.old.items)) (entries_of group.now) }
    ensures crash_acts { LeavesActed (K.told keeper.old) (K.told keeper.new)
        (handed_to (kept_of service (entries_of group.now)) (ids_of pending.old.items)) (entries_of group.now) }
    ensures firm { OnOk result ((K.told keeper.new).is_honest
        → IsFirm (K.told keeper.old) ⊎ ¬ (kept_of service (entries_of group.now) ≡ [])
        → IsFirm (K.told keeper.new)) }
    ensures same { K.became keeper.old keeper.new 0 }
    ensures asked { K.performed keeper.old keeper.new
        (performances_of (entries_of group.now)
        (handed_to (kept_of service (entries_of group.now)) (ids_of pending.old.items))) }

    // An empty group changes nothing.
    ensures none { group.now ≡ [] → IsOk result × (keeper.new ≡ keeper.old) }
    ensures pending { OnOk result (ids_of pending.new.items
        ≡ left_pending (kept_of service (entries_of group.now))
        (ids_of pending.old.items)) }
    ensures capacity { vec_capacity pending.new ≡ vec_capacity pending.old }
    ensures err { OnErr result (pending.new ≡ pending.old) }
{
    if group.is_empty() {
        return Ok(Vec::new(alloc));
    }
    let kept = has_kept(keeper, group);
    match keeper.perform(group, handed(kept, pending.as_slice())) {
        Ok(dones) => {
            forget_if(kept, pending);
            Ok(dones)
        }
        Err(fault) => Err(fault),
    }
}
