ghost use Rattle.std.specs.Prelude.{◌≡◌};
ghost use Rattle.fuse_request.specs.Opcodes.{Service};
ghost use Rattle.fuse_keeper.specs.Bounds as bounds;
ghost use Rattle.fuse_keeper.specs.History.{HistoriesGrow, SaidFits};
ghost use Rattle.fuse_keeper.specs.Model.{serving};
ghost use Rattle.fuse_keeper.specs.Stands.{StillStands};
ghost use Rattle.fuse_keeper.specs.Taking.{GroupsGrow};

use crate::file_system::FileSystem;
use crate::keeper::{Keeper, MAX_GROUP, MAX_SETTLED};
use crate::modelled::Modelled;

/// The answer to each id of a history fits.
pub fn said_fits<K: Keeper>()
    ensures { SaidFits K.model }
{
    K::model_is_sound();
}

/// A request that is added to a history is in it, the answers of the others stay, and none stands
/// twice, whichever requests are seen.
pub fn histories_grow<K: Keeper>()
    ensures { (V : Service) → HistoriesGrow (serving V K.model) }
{}

/// What stands for a history still does, over the same rows and records, and with more ids settled.
pub fn still_stands<K: Keeper>()
    ensures { (V : Service) → StillStands (serving V K.model) }
{}

/// A group of one more entry was performed where that entry was taken after the others. The first
/// entries are answered as a group of their own.
pub fn groups_grow<F: FileSystem>()
    ensures { GroupsGrow F.model }
{}

/// The same, for the file system of a keeper, whichever requests are seen.
pub fn kept_groups_grow<K: Keeper>()
    ensures { (V : Service) → GroupsGrow (serving V K.model) }
{}

/// The same, for any model.
pub fn groups_of_model_grow<M: Modelled>()
    ensures { GroupsGrow M.model }
{}

/// The most requests of a group, and the most settled ids of a call.
pub fn group_bounds()
    ensures requests { MAX_GROUP ≡ bounds.max_group_len }
    ensures settled { MAX_SETTLED ≡ bounds.max_settled_len }
{}
