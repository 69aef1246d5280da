ghost use Rattle.std.specs.Prelude.{◌≡◌, IfErr};
ghost use Rattle.fuse_show.specs.Shown.{IsWritten, way_of};
ghost use Rattle.fuse_show.specs.Sinks.{Outputs};
ghost use Rattle.fuse_show.specs.Summary.{size_of_blocks, counts_text, room_text};
ghost use Rattle.fuse_show.specs.Summary.{settings_text, store_text};
ghost use Rattle.fuse_show.specs.inner.Writing.{PutsOut, WritesOut};

use crate::fault::ShowFault;
use crate::output::{finish, put, put_field, put_fields};
use fuse_init::Settings;
use fuse_keeper::StoreCounts;
use fuse_rows::{BLOCK_SIZE, Room};
use fuse_session::Sink;

/// What a summary says of a store.
#[derive(Clone, Copy)]
pub struct Summary {
    pub version: u64,
    pub counts: StoreCounts,
    /// The size of all contents.
    pub bytes: u64,
    /// The room of an everyday store.
    pub room: Option<Room>,
    /// The settings that INIT agreed on.
    pub agreed: Option<Settings>,
}

// Writes a line for the version, for each count, and for the bytes of all contents.
fn put_counts<W: Sink>(writer: &mut W, summary: &Summary) -> Result<(), ShowFault>
    ensures put { PutsOut W.was_written writer.old writer.new result (λ bytes. WritesOut
        (counts_text summary.now.version summary.now.counts summary.now.bytes) bytes result) }
    ensures fault { IfErr result (λ fault. fault ≡ ShowFault.Output) }
{
    let fields = [
        ("version=", summary.version),
        ("\nnodes=", summary.counts.nodes),
        ("\nhandles=", summary.counts.handles),
        ("\nrecords=", summary.counts.records),
        ("\nlots=", summary.counts.lots),
        ("\nbytes=", summary.bytes),
    ];
    match put_fields(writer, &fields) {
        Ok(()) => {}
        Err(fault) => return Err(fault),
    }
    put(writer, b"\n")
}

// The bytes of so many blocks.
fn bytes_in(blocks: u64) -> u128
    ensures { result ≡ size_of_blocks blocks }
{
    u128::from(blocks) * u128::from(BLOCK_SIZE)
}

// Writes the lines of the profile and the room, none of a plain store.
fn put_room<W: Sink>(writer: &mut W, room: Option<Room>) -> Result<(), ShowFault>
    ensures put { PutsOut W.was_written writer.old writer.new result
        (λ bytes. WritesOut (room_text room) bytes result) }
    ensures fault { IfErr result (λ fault. fault ≡ ShowFault.Output) }
{
    let Some(room) = room else {
        return Ok(());
    };
    match put_field(
        writer,
        "profile=everyday\ncapacity=",
        bytes_in(room.capacity),
    ) {
        Ok(()) => {}
        Err(fault) => return Err(fault),
    }
    match put_field(writer, "\nused=", bytes_in(room.used)) {
        Ok(()) => {}
        Err(fault) => return Err(fault),
    }
    put(writer, b"\n")
}

// Writes the line of the settings, and flushes.
fn finish_settings<W: Sink>(writer: &mut W, agreed: Option<Settings>) -> Result<(), ShowFault>
    ensures ends { Outputs W.was_written W.was_flushed writer.old writer.new (way_of result)
        (λ bytes. IsWritten (settings_text agreed) bytes result) }
    ensures fault { IfErr result (λ fault. fault ≡ ShowFault.Output) }
{
    let Some(settings) = agreed else {
        return finish(writer, b"settings: none\n");
    };
    let fields = [
        ("settings: minor=", u64::from(settings.minor)),
        (" max_readahead=", u64::from(settings.max_readahead)),
        (" flags=", settings.flags.0),
    ];
    match put_fields(writer, &fields) {
        Ok(()) => {}
        Err(fault) => return Err(fault),
    }
    finish(writer, b"\n")
}

/// Writes the lines of a summary.
pub fn show_summary<W: Sink>(summary: &Summary, writer: &mut W) -> Result<(), ShowFault>
    ensures shown { Outputs W.was_written W.was_flushed writer.old writer.new (way_of result)
        (λ bytes. IsWritten (store_text summary.now.version summary.now.counts summary.now.bytes
        summary.now.room summary.now.agreed) bytes result) }
    ensures fault { IfErr result (λ fault. fault ≡ ShowFault.Output) }
{
    match put_counts(writer, summary) {
        Ok(()) => {}
        Err(fault) => return Err(fault),
    }
    match put_room(writer, summary.room) {
        Ok(()) => {}
        Err(fault) => return Err(fault),
    }
    finish_settings(writer, summary.agreed)
}
