// Typed values of the columns of a row.
ghost use Rattle.std.specs.Prelude.{◌≡◌, ◌≢◌, ◌<◌, ◌^◌, ◌+◌, ◌++◌, ℕ, ℤ, List, [], ◌∷◌, pos, length};
ghost use Rattle.std.specs.Prelude.{Option, IfSome, IfOk, IfErr, MatchOption};
ghost use Rattle.sqlite.specs.declared.types.Value.{Value};
ghost use Rattle.std.specs.Int.{w64, cast_signed};
ghost use Rattle.sqlite.specs.declared.types.Value.TheVariants.{Null, Int, Blob};
ghost use Rattle.sqlite.specs.Order.{column};
ghost use Rattle.fuse_wire.specs.declared.moment.Moment.{Moment as Time};
ghost use Rattle.fuse_rows.specs.declared.rows.NodeRow.{NodeRow as Node};
ghost use Rattle.fuse_keeper.specs.Faults.{is_memory};
ghost use Rattle.fuse_store_tables.specs.Faults.{IsOutside, IsPlain, IsMisread};
ghost use Rattle.fuse_store_tables.specs.inner.Columns.{misread_as, shown_number};
ghost use Rattle.fuse_store_tables.specs.Content.{node_columns, columns_of, HasWidths, HasCount};
ghost use Rattle.fuse_store_tables.specs.Clearing.{reached};

use crate::version::Layout;
use fuse_keeper::StoreFault;
use fuse_rows::NodeRow;
use fuse_wire::Moment;
use sqlite::{Error, ErrorCode, Row};

// Whether memory ran out.
fn is_memory(e: &Error) -> bool
    ensures { result ≡ is_memory e.now }
{
    matches!(e, Error::SqliteFailure(ErrorCode::OutOfMemory))
}

/// The fault of a column of the wrong type.
#[tactic(auto, using(crate::proofs::Sayings::plain_misread, crate::proofs::Sayings::misread_so))]
pub(crate) fn misread(e: Error) -> StoreFault
    ensures value { result ≡ misread_as e }
    ensures misread { IsMisread result }
    ensures plain { IsPlain result }
{
    if is_memory(&e) {
        StoreFault::Memory
    } else {
        StoreFault::Damaged
    }
}

/// A number that is not negative.
pub fn number_at(row: &Row, at: usize) -> Result<u64, StoreFault>
    ensures value { IfOk result (λ n. column row.now at ≡ Int (pos n)) }
    ensures small { IfOk result (λ n. n < 2 ^ 63) }
    ensures misread { IfErr result IsMisread }
    ensures fault { IfErr result (λ f. (n : ℕ) → at < length row.now
        → column row.now at ≡ Int (pos n) → IsOutside f) }
    ensures plain { IfErr result IsPlain }
{
    match row.get::<i64>(at) {
        Ok(value) => {
            if value < 0 {
                return Err(StoreFault::Damaged);
            }
            Ok(value as u64)
        }
        Err(e) => Err(misread(e)),
    }
}

/// The number in the only row of a count.
pub(crate) fn the_number(rows: &[Row]) -> Result<u64, StoreFault>
    ensures value { IfOk result (λ n. (m : ℕ) → rows.now ≡ shown_number m ∷ [] → n ≡ m) }
    ensures some { IfOk result (λ n. 0 < length rows.now) }
    ensures small { IfOk result (λ n. n < 2 ^ 63) }
    ensures fault { IfErr result (λ f. (m : ℕ) → rows.now ≡ shown_number m ∷ [] → IsOutside f) }
    ensures plain { IfErr result IsPlain }
{
    match rows.first() {
        None => Err(StoreFault::Damaged),
        Some(row) => number_at(row, 0),
    }
}

// The greatest number that SQLite counts to.
const LAST_COUNT: u64 = i64::MAX as u64;

/// The number of rows, in the only row of a count.
pub(crate) fn the_count(rows: &[Row]) -> Result<u64, StoreFault>
    ensures value { IfOk result (λ n. (m : ℕ) → rows.now ≡ shown_number (reached m) ∷ [] → n ≡ m) }
    ensures small { IfOk result (λ n. n < 2 ^ 63) }
    ensures fault { IfErr result (λ f. (m : ℕ) → rows.now ≡ shown_number m ∷ [] → IsOutside f) }
    ensures plain { IfErr result IsPlain }
{
    let count = the_number(rows)?;
    if count == LAST_COUNT {
        let beyond = Error::SqliteFailure(ErrorCode::IntegerOverflow);
        return Err(StoreFault::Sql(beyond));
    }
    Ok(count)
}

/// A number of 32 bits.
pub fn small_at(row: &Row, at: usize) -> Result<u32, StoreFault>
    ensures value { IfOk result (λ n. column row.now at ≡ Int (pos n)) }
    // A value of another type or range is damage.
    ensures misread { IfErr result IsMisread }
    ensures fault { IfErr result (λ f. (n : ℕ) → n < 2 ^ 32 → at < length row.now
        → column row.now at ≡ Int (pos n) → IsOutside f) }
    ensures plain { IfErr result IsPlain }
{
    match row.get::<u32>(at) {
        Ok(value) => Ok(value),
        Err(e) => Err(misread(e)),
    }
}

/// A number of 64 bits, stored as the signed number with the same bits.
pub(crate) fn bits_at(row: &Row, at: usize) -> Result<u64, StoreFault>
    ensures bits { IfOk result (λ n. column row.now at ≡ Int (cast_signed w64 n)) }
    ensures value { IfOk result (λ n. (m : ℕ) → m < 2 ^ 64
        → column row.now at ≡ Int (cast_signed w64 m) → n ≡ m) }
    ensures misread { IfErr result IsMisread }
    ensures fault { IfErr result (λ f. (n : ℤ) → at < length row.now
        → column row.now at ≡ Int n → IsOutside f) }
    ensures plain { IfErr result IsPlain }
{
    match row.get::<i64>(at) {
        Ok(value) => Ok(value.cast_unsigned()),
        Err(e) => Err(misread(e)),
    }
}

/// Bytes.
pub fn bytes_at(row: &Row, at: usize) -> Result<Vec<u8>, StoreFault>
    ensures value { IfOk result (λ v. column row.now at ≡ Blob v.items) }
    ensures misread { IfErr result IsMisread }
    ensures fault { IfErr result (λ f. (l : List ℕ) → at < length row.now
        → column row.now at ≡ Blob l → IsOutside f) }
    ensures plain { IfErr result IsPlain }
{
    match row.get::<Vec<u8>>(at) {
        Ok(value) => Ok(value),
        Err(e) => Err(misread(e)),
    }
}

// A time, in two columns.
fn moment_at(row: &Row, at: usize) -> Result<Moment, StoreFault>
    requires { at < 2 ^ 32 }
    ensures value { IfOk result (λ t. (m : Time) → m.secs < 2 ^ 64
        → column row.now at ≡ Int (cast_signed w64 m.secs)
        → column row.now (at + 1) ≡ Int (pos m.nanos) → t ≡ m) }
    ensures misread { IfErr result IsMisread }
    ensures fault { IfErr result (λ f. (m : Time) → m.nanos < 2 ^ 32 → at + 1 < length row.now
        → column row.now at ≡ Int (cast_signed w64 m.secs)
        → column row.now (at + 1) ≡ Int (pos m.nanos) → IsOutside f) }
    ensures plain { IfErr result IsPlain }
{
    let secs = bits_at(row, at)?;
    let nanos = small_at(row, at + 1)?;
    Ok(Moment { secs, nanos })
}

// The written blocks of a node, none where the layout doesn't count them.
fn written_at(row: &Row, layout: Layout) -> Result<Option<u64>, StoreFault>
    ensures value { IfOk result (λ o. (n : Node) (more : List Value) → HasCount layout n
        → row.now ≡ node_columns layout n ++ more → o ≡ n.written) }
    ensures misread { IfErr result IsMisread }
    ensures fault { IfErr result (λ f. (n : Node) (more : List Value)
        → row.now ≡ node_columns layout n ++ more → IsOutside f) }
    ensures plain { IfErr result IsPlain }
{
    match layout {
        Layout::Second => Ok(None),
        Layout::Third => match number_at(row, 14) {
            Ok(count) => Ok(Some(count)),
            Err(fault) => Err(fault),
        },
    }
}

/// The row of a node, without its number, in the first columns, as tables of this layout have them.
pub fn node_at(row: &Row, node: u64, layout: Layout) -> Result<NodeRow, StoreFault>
    ensures value { IfOk result (λ r. (n : Node) (more : List Value) → HasWidths n
        → HasCount layout n → n.node ≡ node → row.now ≡ node_columns layout n ++ more → r ≡ n) }
    ensures misread { IfErr result IsMisread }
    ensures fault { IfErr result (λ f. (n : Node) (more : List Value) → HasWidths n
        → row.now ≡ node_columns layout n ++ more → IsOutside f) }
    ensures plain { IfErr result IsPlain }
{
    let mode = small_at(row, 0)?;
    let uid = small_at(row, 1)?;
    let gid = small_at(row, 2)?;
    let rdev = small_at(row, 3)?;
    let size = number_at(row, 4)?;
    let atime = moment_at(row, 5)?;
    let mtime = moment_at(row, 7)?;
    let ctime = moment_at(row, 9)?;
    let up = number_at(row, 11)?;
    let subdirs = small_at(row, 12)?;
    let written = written_at(row, layout)?;
    Ok(NodeRow {
        node,
        mode,
        uid,
        gid,
        rdev,
        size,
        atime,
        mtime,
        ctime,
        up,
        subdirs,
        written,
    })
}

// The mode of a node, none where its columns are NULL.
fn mode_at(row: &Row) -> Result<Option<u32>, StoreFault>
    ensures ok { IfOk result (λ o. (0 < length row.now) × MatchOption o (column row.now 0 ≡ Null)
        (λ n. (column row.now 0 ≢ Null) × (column row.now 0 ≡ Int (pos n)))) }
    ensures misread { IfErr result IsMisread }
    ensures none { IfErr result (λ f. 0 < length row.now → column row.now 0 ≡ Null → IsOutside f) }
    ensures some { IfErr result (λ f. (n : ℕ) → n < 2 ^ 32 → 0 < length row.now
        → column row.now 0 ≡ Int (pos n) → IsOutside f) }
    ensures plain { IfErr result IsPlain }
{
    match row.get::<Option<u32>>(0) {
        Ok(mode) => Ok(mode),
        Err(e) => Err(misread(e)),
    }
}

/// The same, and none where these columns are NULL.
pub fn node_if_any(row: &Row, node: u64, layout: Layout) -> Result<Option<NodeRow>, StoreFault>
    ensures value { IfOk result (λ r. (o : Option Node) (more : List Value)
        → IfSome o (λ n. HasWidths n × HasCount layout n × (n.node ≡ node))
        → row.now ≡ columns_of layout o ++ more → r ≡ o) }
    ensures misread { IfErr result IsMisread }
    ensures fault { IfErr result (λ f. (o : Option Node) (more : List Value)
        → IfSome o HasWidths → row.now ≡ columns_of layout o ++ more → IsOutside f) }
    ensures plain { IfErr result IsPlain }
{
    let mode = mode_at(row)?;
    match mode {
        None => Ok(None),
        Some(_) => match node_at(row, node, layout) {
            Ok(found) => Ok(Some(found)),
            Err(fault) => Err(fault),
        },
    }
}
