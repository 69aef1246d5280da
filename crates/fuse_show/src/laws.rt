ghost use Rattle.fuse_show.specs.Lookup.{FindsSomething, FoundOnce};
ghost use Rattle.fuse_show.specs.Names.{NamesApart};

use fuse_plan::rows_of_trees;

/// In a tree the names of a path lead to exactly one node, or fail for exactly one reason.
pub fn found_once()
    ensures some { FindsSomething }
    ensures once { FoundOnce }
{
    rows_of_trees();
}

/// Different names are written differently.
pub fn names_apart()
    ensures { NamesApart }
{}
