ghost use Rattle.std.specs.Prelude.{◌≡◌, ◌+◌, ◌≤◌};
ghost use Rattle.fuse_rows.specs.declared.limits.TheConstants.{MAX_FILE as max_file};
ghost use Rattle.fuse_rows.specs.Pieces.{Covers, first_piece};

use crate::limits::BLOCK_SIZE;
use std::marker::Model;

/// Bytes of one block of a file.
#[derive(Clone, Copy, Debug, PartialEq, Eq)]
pub struct Piece {
    /// The block's number in the file, from 0.
    pub block: u32,
    /// Where the bytes begin in the block.
    pub start: u32,
    pub len: u32,
}

/// A range of a file, cut at the ends of blocks. Contracts see the pieces that are left. Takes no
/// memory.
#[derive(Drop)]
pub struct Pieces {
    at: u64,
    left: u32,
}

impl Model for Pieces {
    ghost use Rattle.std.specs.Prelude.{◌+◌, ◌≤◌, List};
    ghost use Rattle.fuse_rows.specs.declared.limits.TheConstants.{MAX_FILE};
    ghost use Rattle.fuse_rows.specs.declared.pieces.Piece.{Piece};
    ghost use Rattle.fuse_rows.specs.Pieces.{pieces_of};

    ghost Value = { List Piece };

    ghost view = { λ a. pieces_of a.at a.left };

    ghost invariant = { λ a. a.at + a.left ≤ MAX_FILE };
}

impl Pieces {
    /// The pieces of `len` bytes from `offset` on.
    pub fn new(offset: u64, len: u32) -> Pieces
        requires { offset + len ≤ max_file }
        ensures { Covers result offset (offset + len) }
    {
        Pieces {
            at: offset,
            left: len,
        }
    }
}

// The first piece of so many bytes.
fn first_of(at: u64, left: u32) -> Piece
    requires { at ≤ max_file }
    ensures { result ≡ first_piece at left }
{
    let start = (at % u64::from(BLOCK_SIZE)) as u32;
    Piece {
        block: (at / u64::from(BLOCK_SIZE)) as u32,
        start,
        len: left.min(BLOCK_SIZE - start),
    }
}

impl Iterator for Pieces {
    ghost use Rattle.std.specs.Iterator.{YieldsFirst, item_count};

    type Item = Piece;

    ghost next_gives = { YieldsFirst (λ left. left) };

    ghost remaining = { item_count (λ left. left) };

    fn next(&mut self) -> Option<Piece> {
        if self.left == 0 {
            return None;
        }
        let piece = first_of(self.at, self.left);
        self.at += u64::from(piece.len);
        self.left -= piece.len;
        Some(piece)
    }
}
