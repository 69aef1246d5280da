ghost use Rattle.std.specs.Prelude.{◌≡◌, ◌⊎◌, ◌<◌, ◌≤◌, ◌++◌, ℕ, List, length, IfErr, OnOk};
ghost use Rattle.std.specs.List.{AllByRecursion};
ghost use Rattle.std.specs.Io.KnownBytes.{Appends};
ghost use Rattle.hex.specs.Hex.{encode_lower};
ghost use Rattle.fuse_request.specs.Stream.{joined};
ghost use Rattle.fuse_answer.specs.Laws.{BeginsWithLen};
ghost use Rattle.fuse_commands.specs.Output.{line, answer_lines, count_line};
ghost use Rattle.fuse_commands.specs.inner.Sending.{IsAnswer};
ghost use Rattle.fuse_commands.specs.Output.{store_line};

use crate::count_line::{CountLine, StoreLine};
use crate::ending::Ending;
use fuse_keeper::StoreCounts;
use fuse_wire::{Fields, one_number};
use std::alloc::Global;
use std::io::Write;

// The length of the first answer: its `len`, or all bytes if `len` is out of range.
fn answer_len(sent: &[u8]) -> usize
    requires { 0 < length sent.now }
    ensures some { 0 < result }
    ensures there { result ≤ length sent.now }
    ensures first { (answer others : List ℕ) → BeginsWithLen answer → sent.now ≡ answer ++ others
        → result ≡ length answer }
{
    one_number();
    match Fields::new(sent).u32() {
        Some(len) => (len as usize).clamp(1, sent.len()),
        None => sent.len(),
    }
}

/// Writes an answer in hexadecimal, on a line of its own.
pub(crate) fn write_hex_line<W: Write>(
    alloc: Global,
    writer: &mut W,
    answer: &[u8],
) -> Result<(), Ending>
    ensures ok { OnOk result (Appends (W.contents writer.old) (W.contents writer.new)
        (line (encode_lower answer.now))) }
    ensures err { IfErr result (λ ending. (ending ≡ Ending.PortFailed) ⊎ (ending ≡ Ending.Memory)) }
{
    let text = hex::encode(alloc, answer)?;
    writeln!(writer, "{text}")?;
    Ok(())
}

/// Writes each of the answers in `sent` in hexadecimal, on a line of its own.
pub(crate) fn write_answers<W: Write>(
    alloc: Global,
    writer: &mut W,
    sent: &[u8],
) -> Result<(), Ending>
    ensures ok { OnOk result ((answers : List (List ℕ)) → AllByRecursion IsAnswer answers
        → sent.now ≡ joined answers
        → Appends (W.contents writer.old) (W.contents writer.new) (answer_lines answers)) }
    ensures err { IfErr result (λ ending. (ending ≡ Ending.PortFailed) ⊎ (ending ≡ Ending.Memory)) }
{
    let mut rest = sent;
    while !rest.is_empty() {
        let (answer, others) = rest.split_at(answer_len(rest));
        write_hex_line(alloc, writer, answer)?;
        rest = others;
    }
    Ok(())
}

/// Writes the line of counts.
pub(crate) fn write_counts<W: Write>(writer: &mut W, counts: CountLine) -> Result<(), Ending>
    ensures ok { OnOk result (Appends (W.contents writer.old) (W.contents writer.new)
        (line (count_line counts.shows_seen counts.counts))) }
    ensures err { IfErr result (λ ending. ending ≡ Ending.PortFailed) }
{
    writeln!(writer, "{counts}")?;
    Ok(())
}

/// Writes the line of the counts of a store.
pub(crate) fn write_store<W: Write>(writer: &mut W, counts: StoreCounts) -> Result<(), Ending>
    ensures ok { OnOk result (Appends (W.contents writer.old) (W.contents writer.new)
        (line (store_line counts.nodes counts.handles))) }
    ensures err { IfErr result (λ ending. ending ≡ Ending.PortFailed) }
{
    writeln!(writer, "{}", StoreLine(counts))?;
    Ok(())
}
