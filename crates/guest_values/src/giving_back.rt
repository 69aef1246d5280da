//! Pieces that are given back.
ghost use Rattle.std.specs.Prelude.{[], ◌∷◌};
ghost use Rattle.fuse_data.specs.State.{state_of};
ghost use Rattle.guest_values.specs.State.{GivesBack};

use fuse_data::{DataFile, Extent};
use sqlite_disk::Disk;

// Gives a piece back, and says whether that was possible.
fn give_back<D: Disk>(file: &mut DataFile<D>, piece: Extent) -> bool
    ensures { GivesBack (piece ∷ []) result (state_of D.Disk file.old) (state_of D.Disk file.new) }
{
    match file.give_back(piece) {
        Ok(()) => true,
        Err(_) => false,
    }
}

/// Gives pieces back that nothing lists any more, and says whether that was possible for all. The
/// blocks of the others stay in use until the free space is found anew.
pub(crate) fn give_back_all<D: Disk>(file: &mut DataFile<D>, pieces: &[Extent]) -> bool
    ensures { GivesBack pieces.now result (state_of D.Disk file.old) (state_of D.Disk file.new) }
{
    let mut all = true;
    for piece in pieces {
        let freed = give_back(file, *piece);
        all = all && freed;
    }
    all
}
