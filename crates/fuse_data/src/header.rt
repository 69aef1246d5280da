//! Block 0 of the data file.
ghost use Rattle.std.specs.Prelude.{◌≡◌, IfOk};
ghost use Rattle.fuse_data.specs.Header.{header_of};

use fuse_wire::{Memory, put_bytes, put_u64};
use std::alloc::Global;

/// The version of the data file.
pub const VERSION: u64 = 3;

/// The bytes with which the data file of a store begins.
pub fn header_bytes(alloc: Global, store: u64) -> Result<Vec<u8>, Memory>
    ensures { IfOk result (λ bytes. bytes.items ≡ header_of store) }
{
    let mut bytes = Vec::new(alloc);
    put_bytes(&mut bytes, b"fusekeep content")?;
    put_u64(&mut bytes, VERSION)?;
    put_u64(&mut bytes, store)?;
    Ok(bytes)
}
