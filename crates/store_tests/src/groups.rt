//! Groups that a keeper performs.
ghost use Rattle.std.specs.Prelude.{◌≡◌, ◌≢◌, ◌≤◌, true, length, All};
ghost use Rattle.fuse_wire.specs.Ids.{id_of};
ghost use Rattle.fuse_request.specs.Act.{act, IsPerformedFor};
ghost use Rattle.fuse_request.specs.Opcodes.{profile_alone};
ghost use Rattle.fuse_keeper.specs.Group.{entry_of, HasId};
ghost use Rattle.fuse_keeper.specs.declared.keeper.TheConstants.{MAX_GROUP as MOST_OF_GROUP};
ghost use Rattle.fuse_keeper.specs.declared.keeper.TheConstants.{MAX_SETTLED as MOST_SETTLED};

use fuse_keeper::{Done, Keeper, MAX_GROUP, StoreFault};
use fuse_request::{Op, Request};
use fuse_wire::{Id, Moment};

// Whether a keeper can perform the request: the tests use these kinds.
fn is_kept(request: &Request<'_>) -> bool
    ensures id { result ≡ true → id_of request.now.header.unique ≢ 0 }
    ensures performed { result ≡ true → IsPerformedFor profile_alone (act request.now.op) }
{
    if Id::of(request.header.unique).0 == 0 {
        return false;
    }
    match request.op {
        Op::Init(_) => true,
        Op::Lookup { .. } => true,
        Op::Getattr { .. } => true,
        Op::Mknod { .. } => true,
        Op::Mkdir { .. } => true,
        Op::Unlink { .. } => true,
        Op::Rename { .. } => true,
        Op::OpenFile { .. } => true,
        Op::Read(_) => true,
        Op::Write { .. } => true,
        Op::Release(_) => true,
        _ => false,
    }
}

// Whether a keeper can perform these.
fn are_kept(group: &[(Request<'_>, Moment)]) -> bool
    ensures ids { result ≡ true → All (λ p. HasId (entry_of p)) group.now }
    ensures performed { result ≡ true
        → All (λ p. IsPerformedFor profile_alone (entry_of p).asked.act) group.now }
{
    for one in group {
        if !is_kept(&one.0) {
            return false;
        }
    }
    true
}

fn ask_all<K: Keeper>(
    keeper: &mut K,
    group: &[(Request<'_>, Moment)],
    settled: &[Id],
) -> Result<Vec<Done>, StoreFault>
    requires short { length group.now ≤ MOST_OF_GROUP }
    requires few { length settled.now ≤ MOST_SETTLED }
    requires ids { All (λ p. HasId (entry_of p)) group.now }
    requires performed { All (λ p. IsPerformedFor profile_alone (entry_of p).asked.act) group.now }
{
    keeper.perform(group, settled)
}

/// Performs a group. `Damaged` where no keeper could; no test reaches that.
pub(crate) fn perform<K: Keeper>(
    keeper: &mut K,
    group: &[(Request<'_>, Moment)],
) -> Result<Vec<Done>, StoreFault> {
    if group.len() > MAX_GROUP || !are_kept(group) {
        return Err(StoreFault::Damaged);
    }
    ask_all(keeper, group, &[])
}
