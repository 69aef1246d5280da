// Laws of the content of a database, and of the effect of a call.
ghost use Rattle.fuse_store_tree.specs.Holding.{TreesAreInOrder};
ghost use Rattle.fuse_store_tree.specs.Leaving.{FreeBlocksHoldNothing, HeldIsShown};
ghost use Rattle.fuse_store_tree.specs.Lots.{LotsAreRead, LotsAreSame};
ghost use Rattle.fuse_store_tree.specs.Performing.{OneHolding, CallsPerform};

use fuse_init::Profiled;
use fuse_keeper::groups_grow;
use fuse_lists::PlainTree;
use fuse_plan::{rows_of_trees, rows_tell_state, tree_kept};

/// A database and a data file hold only one tree, with its records and lots.
pub fn one_holding()
    ensures { OneHolding }
{
    rows_of_trees();
    rows_tell_state();
}

/// A call changes the tables as its group extends a history.
pub fn calls_perform<P: Profiled>()
    ensures { CallsPerform P.PROFILE }
{
    tree_kept();
    rows_tell_state();
    groups_grow::<PlainTree<P>>();
}

/// The lots read from the rows of a database are those that it holds.
pub fn lots_are_read()
    ensures read { LotsAreRead }
    ensures same { LotsAreSame }
{}

/// The rows of a tree are in the order of their numbers, as those of a table.
pub fn rows_in_order()
    ensures { TreesAreInOrder }
{}

/// What a database and a data file hold stays where the data file changes in free blocks alone.
pub fn free_blocks_hold_nothing()
    ensures { FreeBlocksHoldNothing }
{}

/// What is held over a data file is held over it as the tables may list it.
pub fn held_is_shown()
    ensures { HeldIsShown }
{}
