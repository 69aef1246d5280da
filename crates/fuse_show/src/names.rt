ghost use Rattle.std.specs.Prelude.{◌≡◌, ◌<◌, ◌&&◌, IfErr};
ghost use Rattle.fuse_show.specs.inner.Writing.{PutsOut, WritesOut};
ghost use Rattle.fuse_show.specs.Names.{hex_digit, is_plain, byte_text, name_text};

use crate::fault::ShowFault;
use crate::output::put;
use fuse_session::Sink;

// The digit of a number below 16.
fn digit_of(number: u8) -> u8
    requires { number < 16 }
    ensures { result ≡ hex_digit number }
{
    if number < 10 {
        b'0' + number
    } else {
        b'a' + (number - 10)
    }
}

// Whether a byte is printable ASCII other than the backslash.
fn stands_for_itself(byte: u8) -> bool
    ensures { result ≡ is_plain byte }
{
    byte >= 32 && byte < 127 && byte != b'\\'
}

// Writes a byte, or `\x` and its hexadecimal digits.
fn write_byte<W: Sink>(writer: &mut W, byte: u8) -> Result<(), ShowFault>
    ensures put { PutsOut W.was_written writer.old writer.new result
        (λ bytes. WritesOut (byte_text byte) bytes result) }
    ensures fault { IfErr result (λ fault. fault ≡ ShowFault.Output) }
{
    if stands_for_itself(byte) {
        put(writer, &[byte])
    } else {
        let digits = [b'\\', b'x', digit_of(byte / 16), digit_of(byte % 16)];
        put(writer, &digits)
    }
}

/// Writes a name on one line. Different names are written differently.
pub(crate) fn write_name<W: Sink>(writer: &mut W, name: &[u8]) -> Result<(), ShowFault>
    ensures put { PutsOut W.was_written writer.old writer.new result
        (λ bytes. WritesOut (name_text name.now) bytes result) }
    ensures fault { IfErr result (λ fault. fault ≡ ShowFault.Output) }
{
    for byte in name {
        match write_byte(writer, *byte) {
            Ok(()) => {}
            Err(fault) => return Err(fault),
        }
    }
    Ok(())
}
