// HELLO and READY.
ghost use Rattle.std.specs.Prelude.{◌≡◌, true, IfErr, IfOk, OnOk};
ghost use Rattle.std.specs.Io.KnownBytes.{Appends};
ghost use Rattle.guest_frames.specs.Frames.{frame_bytes, of_hello, of_ready};
ghost use Rattle.fuse_guest.specs.GuestModel.{agreed_with};
ghost use Rattle.guest_talk.specs.Answered.{incoming_frame};
ghost use Rattle.guest_talk.specs.Greeting.{hello_for};
ghost use Rattle.guest_talk.specs.declared.due.Due.TheVariants as due;
ghost use Rattle.guest_talk.specs.inner.Greets.{ReadsNoReady, ReadsReady, SaysNoHello};
ghost use Rattle.guest_talk.specs.inner.Reads.{due_kinds};

use crate::due::Due;
use crate::fault::{AskFault, GreetFault};
use crate::incoming::Incoming;
use crate::outgoing::encoded;
use crate::pipe::write_bytes;
use crate::reading::read_frame;
use bitflags::Flags;
use fuse_init::Settings;
use guest_frames::{Agreed, EngineFrame, GuestFrame, Hello, Ready};
use std::alloc::Global;
use std::io::{Read, Write};

// The opcodes that can be handed on, opcode n as bit n.
const HANDED: u64 = 0xf80c_7ff7_ff7a;

fn agreed_by(settings: Option<Settings>, pledged: u64) -> Option<Agreed>
    ensures { result ≡ agreed_with pledged settings }
{
    let settings = settings?;
    Some(Agreed {
        minor: settings.minor,
        flags: settings.flags.bits(),
        pledged,
    })
}

/// Writes HELLO.
pub(crate) fn say_hello<W: Write>(
    alloc: Global,
    sink: &mut W,
    settings: Option<Settings>,
    pledged: u64,
) -> Result<(), GreetFault>
    ensures ok { OnOk result (Appends (W.contents sink.old) (W.contents sink.new)
        (frame_bytes (of_hello (hello_for settings pledged)))) }
    ensures err { IfErr result SaysNoHello }
{
    let hello = EngineFrame::Hello(Hello {
        agreed: agreed_by(settings, pledged),
        opcodes: HANDED,
    });
    let Ok(out) = encoded(alloc, &hello) else {
        return Err(GreetFault::Memory);
    };
    match write_bytes(sink, &out.bytes) {
        Ok(()) => Ok(()),
        Err(fault) => Err(GreetFault::Guest(fault)),
    }
}

// What a READY says.
fn ready_of(came: &Incoming) -> Ready
    requires { due_kinds due.Ready came.now.kind ≡ true }
    ensures { incoming_frame came.now ≡ of_ready result }
{
    match came.frame() {
        GuestFrame::Ready(ready) => ready,
        _ => unreachable!(),
    }
}

/// Reads READY.
pub(crate) fn hear_ready<R: Read>(alloc: Global, source: &mut R) -> Result<Ready, GreetFault>
    ensures ok { IfOk result (ReadsReady (R.remaining source.old) (R.remaining source.new)) }
    ensures err { IfErr result (ReadsNoReady (R.remaining source.old) (R.remaining source.new)) }
{
    match read_frame(alloc, source, Due::Ready) {
        Ok(came) => Ok(ready_of(&came)),
        Err(AskFault::Guest(fault)) => Err(GreetFault::Guest(fault)),
        Err(_) => Err(GreetFault::Memory),
    }
}
