//! Case pieces, and as many pieces as the largest file has blocks.
ghost use Rattle.std.specs.Prelude.{◌≤◌, ◌+◌};
ghost use Rattle.fuse_rows.specs.declared.limits.TheConstants.{MAX_FILE as max_file};

use fuse_rows::{Piece, Pieces};
use std::alloc::{AllocError, Global};

fn cut(alloc: Global, offset: u64, len: u32) -> Result<Vec<Piece>, AllocError>
    requires { offset + len ≤ max_file }
{
    Pieces::new(offset, len).collect(alloc)
}

fn are(found: &[Piece], wanted: &[[u32; 3]]) -> bool {
    found.len() == wanted.len()
        && found.iter().zip(wanted).all(|(piece, numbers)| [piece.block, piece.start, piece.len]
            == *numbers)
}

fn three(alloc: Global) -> Result<bool, AllocError> {
    let found = cut(alloc, 4095, 4098)?;
    Ok(are(found.as_slice(), &[[0, 4095, 1], [1, 0, 4096], [2, 0, 1]]))
}

#[test]
fn pieces(rt: HostRuntime) -> Result<(), AllocError> {
    let none = cut(rt.alloc(), 7, 0)?.len();
    let all = cut(rt.alloc(), 0, 16_777_216)?.len();
    assert!(rt; three(rt.alloc())? && none == 0 && all == 4096);
    Ok(())
}
