// Typed values of the columns of a row.
ghost use Rattle.std.specs.Prelude.{◌≡◌, ◌<◌, ◌^◌, [], ◌∷◌, ℕ, ℤ, length, IfOk, IfErr};
ghost use Rattle.std.specs.Int.{w64, cast_signed};
ghost use Rattle.sqlite.specs.declared.types.Value.TheVariants.{Int};
ghost use Rattle.sqlite.specs.Order.{column};
ghost use Rattle.fuse_keeper.specs.Faults.{is_memory};
ghost use Rattle.fuse_store_tables.specs.Clearing.{reached};
ghost use Rattle.fuse_store_tables.specs.Faults.{IsOutside, IsPlain, IsMisread};
ghost use Rattle.fuse_store_tables.specs.inner.Columns.{misread_as, shown_number};

use fuse_keeper::StoreFault;
use fuse_store_tables::number_at;
use sqlite::{Error, ErrorCode, Row};

// Whether memory ran out.
fn is_memory(e: &Error) -> bool
    ensures { result ≡ is_memory e.now }
{
    matches!(e, Error::SqliteFailure(ErrorCode::OutOfMemory))
}

/// The fault of a column of the wrong type.
#[tactic(auto, using(crate::proofs::Sayings::plain_misread, crate::proofs::Sayings::misread_so))]
pub(crate) fn misread(e: Error) -> StoreFault
    ensures value { result ≡ misread_as e }
    ensures misread { IsMisread result }
    ensures plain { IsPlain result }
{
    if is_memory(&e) {
        StoreFault::Memory
    } else {
        StoreFault::Damaged
    }
}

/// A number of 64 bits, stored as the signed number with the same bits.
pub fn bits_at(row: &Row, at: usize) -> Result<u64, StoreFault>
    ensures bits { IfOk result (λ n. column row.now at ≡ Int (cast_signed w64 n)) }
    ensures value { IfOk result (λ n. (m : ℕ) → m < 2 ^ 64
        → column row.now at ≡ Int (cast_signed w64 m) → n ≡ m) }
    // A value of another type is damage.
    ensures misread { IfErr result IsMisread }
    ensures fault { IfErr result (λ f. (n : ℤ) → at < length row.now
        → column row.now at ≡ Int n → IsOutside f) }
    ensures plain { IfErr result IsPlain }
{
    match row.get::<i64>(at) {
        Ok(value) => Ok(value.cast_unsigned()),
        Err(e) => Err(misread(e)),
    }
}

// The number in the only row of a count.
fn the_number(rows: &[Row]) -> Result<u64, StoreFault>
    ensures value { IfOk result (λ n. (m : ℕ) → rows.now ≡ shown_number m ∷ [] → n ≡ m) }
    ensures small { IfOk result (λ n. n < 2 ^ 63) }
    ensures fault { IfErr result (λ f. (m : ℕ) → rows.now ≡ shown_number m ∷ [] → IsOutside f) }
    ensures plain { IfErr result IsPlain }
{
    match rows.first() {
        None => Err(StoreFault::Damaged),
        Some(row) => number_at(row, 0),
    }
}

// The greatest number that SQLite counts to.
const LAST_COUNT: u64 = i64::MAX as u64;

/// The number of rows, in the only row of a count.
pub(crate) fn the_count(rows: &[Row]) -> Result<u64, StoreFault>
    ensures value { IfOk result (λ n. (m : ℕ) → rows.now ≡ shown_number (reached m) ∷ [] → n ≡ m) }
    ensures small { IfOk result (λ n. n < 2 ^ 63) }
    ensures fault { IfErr result (λ f. (m : ℕ) → rows.now ≡ shown_number m ∷ [] → IsOutside f) }
    ensures plain { IfErr result IsPlain }
{
    let count = the_number(rows)?;
    if count == LAST_COUNT {
        let beyond = Error::SqliteFailure(ErrorCode::IntegerOverflow);
        return Err(StoreFault::Sql(beyond));
    }
    Ok(count)
}
