// What is so of the tree of each profile.
ghost use Rattle.fuse_keeper.specs.Model.{IsSoundModel};
ghost use Rattle.fuse_tree.specs.TheTree.{tree_of};

use fuse_init::Profiled;
use fuse_keeper::FileSystem;
use fuse_lists::PlainTree;

/// The tree is a sound model.
pub(crate) fn tree_is_sound<P: Profiled>()
    ensures { IsSoundModel (tree_of P.PROFILE) }
{
    PlainTree::<P>::model_is_sound();
}
