ghost use Rattle.fuse_tree.specs.Bytes.{BytesKept};
ghost use Rattle.fuse_tree.specs.Clearing.{Clearing};
ghost use Rattle.fuse_tree.specs.Laws.{AnswersAreRead, AnswersFit, NewStoreIsTree, RowsTellState};
ghost use Rattle.fuse_tree.specs.Laws.{LooksStay, TreeKept};
ghost use Rattle.fuse_tree.specs.Listing.{ListingIsLongest};
ghost use Rattle.fuse_tree.specs.PlusListing.{PlusIsLongest};
ghost use Rattle.fuse_tree.specs.Renaming.{LiesInIsUnder};
ghost use Rattle.fuse_tree.specs.RowsOfTrees.{RowsOfTrees};

use fuse_answer::{read_back, record_sizes};

/// A new store is a tree.
pub fn new_store_is_tree()
    ensures { NewStoreIsTree }
{}

/// Each request leaves a tree of the same capacity.
pub fn tree_kept()
    ensures { TreeKept }
{}

/// A mount of a tree begins with a tree, whose rows follow from the rows before alone.
pub fn clearing()
    ensures { Clearing }
{}

/// Where requests bring bytes, contents are bytes and names are bytes other than NUL.
pub fn bytes_kept()
    ensures { BytesKept }
{}

/// The rows determine the state.
pub fn rows_tell_state()
    ensures { RowsTellState }
{}

/// In the rows of a tree the root is there, each entry leads to a node, cookies rise, and sizes are
/// those of contents.
pub fn rows_of_trees()
    ensures { RowsOfTrees }
{}

/// Each answer fits.
pub fn answers_fit()
    ensures { AnswersFit }
{
    record_sizes();
}

/// Each answer is read as one to its opcode.
pub fn answers_are_read()
    ensures { AnswersAreRead }
{
    read_back();
    record_sizes();
}

/// Requests that only look leave the state as it was.
pub fn looks_stay()
    ensures { LooksStay }
{}

/// The entries of a directory rise, and READDIR lists the longest prefix that fits.
pub fn listing_is_longest()
    ensures { ListingIsLongest }
{}

/// READDIRPLUS lists the longest prefix that fits.
pub fn plus_listing_is_longest()
    ensures { PlusIsLongest }
{}

/// A directory lies under another one within as many steps up as there are nodes.
pub fn lies_in_is_under()
    ensures { LiesInIsUnder }
{}
