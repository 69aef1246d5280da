// The parameters of statements.
ghost use Rattle.std.specs.Prelude.{◌≡◌, ◌<◌, ◌^◌, [], ◌∷◌, pos};
ghost use Rattle.std.specs.Int.{w64, cast_signed};
ghost use Rattle.sqlite.specs.declared.types.Value.TheVariants.{Int};
ghost use Rattle.sqlite.specs.Values.{bound};

use sqlite::types::{ToSql, ValueRef};

/// One number.
pub(crate) fn number(id: u64) -> [ValueRef<'static>; 1]
    requires { id < 2 ^ 63 }
    ensures { bound result ≡ Int (pos id) ∷ [] }
{
    [(id as i64).to_sql()]
}

/// One number of 64 bits, as the signed number with the same bits.
pub(crate) fn bits(value: u64) -> [ValueRef<'static>; 1]
    ensures { bound result ≡ Int (cast_signed w64 value) ∷ [] }
{
    [value.cast_signed().to_sql()]
}

/// A key, and a number of 64 bits.
pub(crate) fn keyed_bits(key: u64, value: u64) -> [ValueRef<'static>; 2]
    requires { key < 2 ^ 63 }
    ensures { bound result ≡ Int (pos key) ∷ Int (cast_signed w64 value) ∷ [] }
{
    [(key as i64).to_sql(), value.cast_signed().to_sql()]
}
