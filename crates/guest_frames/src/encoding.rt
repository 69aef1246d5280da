// Writing frames of the engine: each function appends. After an `Err` a part of the frame may stand at the end.
ghost use Rattle.std.specs.Prelude.{◌≡◌, ◌<◌, ◌≤◌, ◌^◌, ◌++◌, ◌∷◌, All, IfSome, OnOk, length, map};
ghost use Rattle.fuse_wire.specs.Layout.{HasForm, form, number};
ghost use Rattle.fuse_wire.specs.Written.{Puts};
ghost use Rattle.guest_frames.specs.Encoding as encoding;
ghost use Rattle.guest_frames.specs.Frames as frames;
ghost use Rattle.guest_frames.specs.Kinds as kinds;
ghost use Rattle.guest_frames.specs.inner.Writers as writers;

use crate::engine_frame::{EngineFrame, Pair, Request};
use crate::hello::Hello;
use crate::limits::{MAX_CHANGES, MAX_FRAME, MAX_KEY, MAX_KEYS, MAX_VALUE, VERSION};
use fuse_wire::{Field, Memory, layouts_stand, put_fields};

const HELLO: u32 = 1;

const REQUEST: u32 = 3;

const VALUES: u32 = 5;

const PAIRS: u32 = 7;

// The size of a value that says that there is no such pair.
const NO_VALUE: u32 = 0xffff_ffff;

fn put_hello(out: &mut Vec<u8>, len: u32, hello: &Hello) -> Result<(), Memory>
    ensures { Puts (number 4 len ∷ number 4 kinds.hello_kind
        ∷ frames.payload_parts (frames.of_hello hello.now)) out.old.items out.new.items result }
{
    let (has_settings, minor, flags, pledged) = match hello.agreed {
        Some(agreed) => (1, agreed.minor, agreed.flags, agreed.pledged),
        None => (0, 0, 0, 0),
    };
    put_fields(
        out,
        &[
            Field::U32(len),
            Field::U32(HELLO),
            Field::U32(VERSION),
            Field::U32(MAX_FRAME),
            Field::U32(MAX_KEY),
            Field::U32(MAX_VALUE),
            Field::U32(MAX_KEYS),
            Field::U32(MAX_CHANGES),
            Field::U32(has_settings),
            Field::U32(minor),
            Field::U64(flags),
            Field::U64(hello.opcodes),
            Field::U64(pledged),
        ],
    )
}

fn put_request(out: &mut Vec<u8>, len: u32, request: &Request<'_>) -> Result<(), Memory>
    ensures { Puts (number 4 len ∷ number 4 kinds.request_kind
        ∷ frames.payload_parts (frames.of_request (encoding.request_content request.now)))
        out.old.items out.new.items result }
{
    put_fields(
        out,
        &[
            Field::U32(len),
            Field::U32(REQUEST),
            Field::U64(request.secs.cast_unsigned()),
            Field::U32(request.nanos),
            Field::U32(request.count),
            Field::Bytes(request.message),
        ],
    )
}

fn put_value(out: &mut Vec<u8>, value: Option<&[u8]>) -> Result<(), Memory>
    requires { IfSome (encoding.value_content value) frames.IsValue }
    ensures { Puts (frames.value_parts (encoding.value_content value.entry))
        out.old.items out.new.items result }
{
    match value {
        None => put_fields(out, &[Field::U32(NO_VALUE)]),
        Some(bytes) => put_fields(out, &[Field::U32(bytes.len() as u32), Field::Bytes(bytes)]),
    }
}

fn put_values(out: &mut Vec<u8>, len: u32, values: &[Option<&[u8]>]) -> Result<(), Memory>
    requires few { length values.now < 2 ^ 32 }
    requires each { All (λ v. IfSome (encoding.value_content v) frames.IsValue) values.now }
    ensures { writers.PutsWhole (number 4 len ∷ number 4 kinds.values_kind
        ∷ frames.payload_parts (frames.of_values (map encoding.value_content values.now)))
        out.old.items out.new.items result }
{
    put_fields(
        out,
        &[
            Field::U32(len),
            Field::U32(VALUES),
            Field::U32(values.len() as u32),
            Field::U32(0),
        ],
    )?;
    for value in values {
        put_value(out, *value)?;
    }
    Ok(())
}

fn put_pair(out: &mut Vec<u8>, pair: &Pair<'_>) -> Result<(), Memory>
    requires { frames.IsPair (encoding.pair_content pair.now) }
    ensures { Puts (frames.pair_parts (encoding.pair_content pair.now))
        out.old.items out.new.items result }
{
    put_fields(
        out,
        &[
            Field::U32(pair.key.len() as u32),
            Field::Bytes(pair.key),
            Field::U32(pair.value.len() as u32),
            Field::Bytes(pair.value),
        ],
    )
}

fn put_pairs(out: &mut Vec<u8>, len: u32, pairs: &[Pair<'_>], more: bool) -> Result<(), Memory>
    requires few { length pairs.now < 2 ^ 32 }
    requires each { All (λ p. frames.IsPair (encoding.pair_content p)) pairs.now }
    ensures { writers.PutsWhole (number 4 len ∷ number 4 kinds.pairs_kind
        ∷ frames.payload_parts (frames.of_pairs (map encoding.pair_content pairs.now) more))
        out.old.items out.new.items result }
{
    put_fields(
        out,
        &[
            Field::U32(len),
            Field::U32(PAIRS),
            Field::U32(pairs.len() as u32),
            Field::U32(u32::from(more)),
        ],
    )?;
    for pair in pairs {
        put_pair(out, pair)?;
    }
    Ok(())
}

// A frame of this length.
pub(crate) fn put_frame(out: &mut Vec<u8>, len: u32, frame: &EngineFrame<'_>) -> Result<(), Memory>
    requires limited { frames.IsLimited (encoding.engine_content frame.now) }
    requires len { len ≡ frames.frame_len (encoding.engine_content frame.now) }
    ensures { writers.PutsWhole (frames.frame_parts (encoding.engine_content frame.now))
        out.old.items out.new.items result }
{
    layouts_stand();
    match *frame {
        EngineFrame::Hello(hello) => put_hello(out, len, &hello),
        EngineFrame::Request(request) => put_request(out, len, &request),
        EngineFrame::Values(values) => put_values(out, len, values),
        EngineFrame::Pairs { pairs, more } => put_pairs(out, len, pairs, more),
    }
}
