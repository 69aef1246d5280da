ghost use Rattle.std.specs.Prelude.{◌≡◌, length, IfOk};
ghost use Rattle.fuse_wire.specs.Layout.{Lays, form, widths};
ghost use Rattle.fuse_wire.specs.Written.{laid};
ghost use Rattle.fuse_answer.specs.inner.NoText.{HasNoText};

use fuse_wire::{Field, Memory, layouts_stand, put_fields};
use std::alloc::Global;

// A body of fields, for which `size` bytes are allocated at once.
pub(crate) fn body_of_fields(
    alloc: Global,
    size: usize,
    fields: &[Field<'_>],
) -> Result<Vec<u8>, Memory>
    requires { HasNoText (laid fields.now) }
    ensures bytes { IfOk result (λ body. body.items ≡ form (laid fields.now)) }
    ensures size { IfOk result (λ body. length body.items ≡ widths (laid fields.now)) }
    ensures laid { IfOk result (λ body. Lays (laid fields.now) body.items) }
{
    layouts_stand();
    let mut body = Vec::with_capacity(alloc, size)?;
    put_fields(&mut body, fields)?;
    Ok(body)
}
