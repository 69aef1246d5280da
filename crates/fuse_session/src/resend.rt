// The notice by which the kernel sends its pending requests again.
ghost use Rattle.std.specs.Prelude.{◌≡◌, ◌<◌, ◌^◌, false, [], IfErr, OnOk};
ghost use Rattle.fuse_keeper.specs.KeeperState.{Looked, WhereHeld, IsFirm};
ghost use Rattle.fuse_session.specs.Resuming.{Resumed, NotResumed, may_ask, of_store};

use crate::port::{Port, PortFailed, send_whole};
use bitflags::Flags;
use fuse_answer::resend_notice;
use fuse_init::Settings;
use fuse_keeper::{Keeper, StoreFault};
use fuse_wire::InitFlags;

/// Why the kernel was not asked to send its pending requests again.
#[derive(Drop)]
pub enum ResumeFault {
    /// By the flags that INIT agreed on, the kernel does not know the notice.
    NotOffered,
    /// The port failed, or took no byte of the rest of the notice.
    PortFailed,
    /// The keeper returned a fault.
    Store(StoreFault),
}

// Whether the kernel may be asked: before an INIT too, since that may be pending.
fn may_be_asked(settings: Option<Settings>) -> bool
    ensures { result ≡ may_ask settings }
{
    match settings {
        None => true,
        Some(agreed) => agreed.flags.contains(InitFlags::HAS_RESEND),
    }
}

/// Asks the kernel to send its pending requests again, where the flags that INIT agreed on allow it
/// or there was no INIT yet. Allocates nothing itself, and changes nothing that the keeper holds.
/// Where the port answers `Gone`, the notice counts as sent, as an answer does, and the port's
/// state has the place where it ends.
pub fn resume<K: Keeper, P: Port>(keeper: &mut K, port: &mut P) -> Result<(), ResumeFault>
    requires going { (K.told keeper.old).has_failed ≡ false }
    requires receives { (P.told port.old).receives < 2 ^ 62 }
    requires failures { (P.told port.old).failures < 2 ^ 62 }
    // The notice was sent, handed to the port as all that was left of it each time, and nothing
    // else was.
    ensures ok { OnOk result (Resumed (K.told keeper.old) (K.told keeper.new)
        (P.told port.old) (P.told port.new) (P.became port.old port.new)) }

    // What was sent at each fault, and what the settings say then.
    ensures err { IfErr result (NotResumed (K.told keeper.old) (K.told keeper.new)
        (P.told port.old) (P.told port.new) (P.became port.old port.new)) }

    // The keeper only looked: it failed exactly where its fault is answered.
    ensures looked { Looked (K.told keeper.old) (K.told keeper.new) (of_store result) }
    ensures firm { OnOk (of_store result) ((K.told keeper.new).is_honest
        → WhereHeld (K.told keeper.old) (IsFirm (K.told keeper.old) → IsFirm (K.told keeper.new))) }
    ensures same { K.became keeper.old keeper.new 0 }
    ensures unasked { K.performed keeper.old keeper.new [] }
{
    let settings = match keeper.settings() {
        Ok(settings) => settings,
        Err(fault) => return Err(ResumeFault::Store(fault)),
    };
    if !may_be_asked(settings) {
        return Err(ResumeFault::NotOffered);
    }
    match send_whole(port, &resend_notice()) {
        Ok(_) => Ok(()),
        Err(PortFailed) => Err(ResumeFault::PortFailed),
    }
}
