ghost use Rattle.std.specs.Prelude.{◌≡◌, ◌++◌, ◌∷◌, [], OnErr, OnOk, replicate};
ghost use Rattle.fuse_wire.specs.Layout.{form};
ghost use Rattle.fuse_wire.specs.Written.{AllFit, Puts, laid, part_of};
ghost use Rattle.fuse_wire.specs.inner.Growing.{Extends};

use crate::memory::Memory;
use crate::put::{put_bytes, put_u16, put_u32, put_u64};

/// A field of a message, as it is written.
#[derive(Clone, Copy, Debug)]
pub enum Field<'a> {
    U16(u16),
    U32(u32),
    U64(u64),
    /// So many bytes that aren't used: zeros.
    Unused(u8),
    /// A name, and the NUL that ends it.
    Name(&'a [u8]),
    Bytes(&'a [u8]),
}

// Appends zeros.
fn put_zeros(out: &mut Vec<u8>, n: u8) -> Result<(), Memory>
    ensures ok { OnOk result (out.new.items ≡ out.old.items ++ replicate n 0) }
    ensures err { OnErr result (out.new.items ≡ out.old.items) }
{
    put_bytes(out, &[0; 255][..n as usize])
}

// Appends a name and its NUL.
fn put_name(out: &mut Vec<u8>, name: &[u8]) -> Result<(), Memory>
    ensures ok { OnOk result (out.new.items ≡ (out.old.items ++ name.now) ++ 0 ∷ []) }
    ensures grows { Extends out.old.items out.new.items }
{
    put_bytes(out, name)?;
    put_bytes(out, &[0])
}

// Appends a field, or a part of it.
fn put_field(out: &mut Vec<u8>, field: &Field<'_>) -> Result<(), Memory>
    ensures ok { OnOk result (out.new.items ≡ out.old.items ++ form (part_of field.now ∷ [])) }
    ensures fits { OnOk result (AllFit (part_of field.now ∷ [])) }
    ensures grows { Extends out.old.items out.new.items }
{
    match *field {
        Field::U16(n) => put_u16(out, n),
        Field::U32(n) => put_u32(out, n),
        Field::U64(n) => put_u64(out, n),
        Field::Unused(n) => put_zeros(out, n),
        Field::Name(name) => put_name(out, name),
        Field::Bytes(payload) => put_bytes(out, payload),
    }
}

/// Appends fields, one after the other. An `Err` leaves `out` unchanged.
pub fn put_fields(out: &mut Vec<u8>, fields: &[Field<'_>]) -> Result<(), Memory>
    ensures { Puts (laid fields.now) out.old.items out.new.items result }
{
    let start = out.len();
    for field in fields {
        if let Err(memory) = put_field(out, field) {
            out.truncate(start);
            return Err(memory);
        }
    }
    Ok(())
}
