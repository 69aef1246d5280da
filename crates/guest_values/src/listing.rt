//! Lists of pieces, as tables have them.
ghost use Rattle.std.specs.Prelude.{◌≡◌, ◌++◌, OnOk, OnErr};
ghost use Rattle.std.specs.List.{All, AllPairs};
ghost use Rattle.std.specs.List.Sorted.{IsPermutation, IsNonDecreasingBy};
ghost use Rattle.fuse_data.specs.Extents.{AreByPlace, AreDisjoint, IsPlaced};
ghost use Rattle.guest_values.specs.Values.{value_pieces};

use crate::large_value::LargeValue;
use fuse_data::Extent;
use std::alloc::AllocError;

/// Appends the pieces of a value. An `Err` leaves the list as it was.
pub fn add_pieces(pieces: &mut Vec<Extent>, value: LargeValue) -> Result<(), AllocError>
    ensures ok { OnOk result (pieces.new.items ≡ pieces.old.items ++ value_pieces value) }
    ensures err { OnErr result (pieces.new.items ≡ pieces.old.items) }
{
    match value.second {
        None => pieces.push(value.first)?,
        Some(second) => pieces.extend_from_slice(&[value.first, second])?,
    }
    Ok(())
}

// In place, whatever their number.
fn sort_by_place(pieces: &mut Vec<Extent>)
    ensures same { IsPermutation pieces.old.items pieces.new.items }
    ensures rise { IsNonDecreasingBy (λ e. e.place) pieces.new.items }
{
    pieces.sort_unstable_by_key(|piece| piece.place);
}

/// Puts pieces in the order of their places, in which a data file is opened with them.
pub fn order_pieces(pieces: &mut Vec<Extent>)
    ensures same { IsPermutation pieces.old.items pieces.new.items }
    ensures by_place { All IsPlaced pieces.old.items → AllPairs AreDisjoint pieces.old.items
        → AreByPlace 1 pieces.new.items }
{
    sort_by_place(pieces);
}
