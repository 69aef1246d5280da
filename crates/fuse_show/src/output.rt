// Texts that are written to a sink.
ghost use Rattle.std.specs.Prelude.{◌≡◌, ◌++◌, decimal, IfErr};
ghost use Rattle.std.specs.List.{flat_map};
ghost use Rattle.fuse_show.specs.Shown.{IsWritten, way_of};
ghost use Rattle.fuse_show.specs.Sinks.{Outputs};
ghost use Rattle.fuse_show.specs.inner.Writing.{PutsOut, WritesOut};

use crate::fault::ShowFault;
use fuse_session::Sink;
use itoa::Buffer;

/// Writes all of a text. A write that takes nothing, or answers an error, is the last one: then a part
/// of the text was taken.
pub(crate) fn put<W: Sink>(writer: &mut W, text: &[u8]) -> Result<(), ShowFault>
    ensures put { PutsOut W.was_written writer.old writer.new result
        (λ bytes. WritesOut text.now bytes result) }
    ensures fault { IfErr result (λ fault. fault ≡ ShowFault.Output) }
{
    let mut rest = text;
    while !rest.is_empty() {
        let n = match writer.write_once(rest) {
            Ok(n) => n,
            Err(_) => return Err(ShowFault::Output),
        };
        if n == 0 {
            return Err(ShowFault::Output);
        }
        rest = &rest[n..];
    }
    Ok(())
}

/// Writes texts, one after the other.
pub(crate) fn put_texts<W: Sink>(writer: &mut W, texts: &[&str]) -> Result<(), ShowFault>
    ensures put { PutsOut W.was_written writer.old writer.new result
        (λ bytes. WritesOut (flat_map (λ t. t.now) texts.now) bytes result) }
    ensures fault { IfErr result (λ fault. fault ≡ ShowFault.Output) }
{
    for text in texts {
        match put(writer, text.as_bytes()) {
            Ok(()) => {}
            Err(fault) => return Err(fault),
        }
    }
    Ok(())
}

/// Writes a label and a number after it.
pub(crate) fn put_field<W: Sink>(writer: &mut W, label: &str, number: u128) -> Result<(), ShowFault>
    ensures put { PutsOut W.was_written writer.old writer.new result
        (λ bytes. WritesOut (label.now ++ decimal number) bytes result) }
    ensures fault { IfErr result (λ fault. fault ≡ ShowFault.Output) }
{
    match put(writer, label.as_bytes()) {
        Ok(()) => {}
        Err(fault) => return Err(fault),
    }
    let mut buffer = Buffer::new();
    put(writer, buffer.format(number).as_bytes())
}

/// Writes labels, each with a number after it.
pub(crate) fn put_fields<W: Sink>(writer: &mut W, fields: &[(&str, u64)]) -> Result<(), ShowFault>
    ensures put { PutsOut W.was_written writer.old writer.new result
        (λ bytes. WritesOut (flat_map (λ f. f.0.now ++ decimal f.1) fields.now) bytes result) }
    ensures fault { IfErr result (λ fault. fault ≡ ShowFault.Output) }
{
    for field in fields {
        match put_field(writer, field.0, u128::from(field.1)) {
            Ok(()) => {}
            Err(fault) => return Err(fault),
        }
    }
    Ok(())
}

/// Writes the last text, and flushes.
pub(crate) fn finish<W: Sink>(writer: &mut W, text: &[u8]) -> Result<(), ShowFault>
    ensures ends { Outputs W.was_written W.was_flushed writer.old writer.new (way_of result)
        (λ bytes. IsWritten text.now bytes result) }
    ensures fault { IfErr result (λ fault. fault ≡ ShowFault.Output) }
{
    match put(writer, text) {
        Ok(()) => {}
        Err(fault) => return Err(fault),
    }
    match writer.flush_once() {
        Ok(()) => Ok(()),
        Err(_) => Err(ShowFault::Output),
    }
}
