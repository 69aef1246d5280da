ghost use Rattle.std.specs.Prelude.{◌≡◌, ◌≤◌, ◌||◌, length};
ghost use Rattle.fuse_wire.specs.Bounds.{min_message_len};
ghost use Rattle.fuse_wire.specs.Bytes.{number_of};
ghost use Rattle.fuse_request.specs.Classes.{class_for, class_of, IsOfClass, is_zero};
ghost use Rattle.fuse_request.specs.Header.{raw_of};
ghost use Rattle.fuse_request.specs.Opcodes.{Service, in_profile, profile_alone};

use crate::decoding::decode;
use crate::header::MIN_MESSAGE;
use crate::opcode::{is_in_profile, is_silent};
use fuse_wire::{Errno, Id, layouts_stand, names_end, u32_at, u64_at};

/// How a message is answered.
#[derive(Clone, Copy, Debug, PartialEq, Eq)]
pub enum Class {
    /// Not at all.
    Silent,
    /// With this error. It follows from the bytes alone, and isn't recorded.
    Bare(Errno),
    /// By what its request does. The answer is recorded.
    Kept,
    /// By what its request finds. It changes nothing, and the answer isn't recorded.
    Seen,
}

// Whether an opcode is of the profile or served beside it.
fn is_served(opcode: u32, served: bool) -> bool
    ensures { result ≡ (served || in_profile opcode) }
{
    served || is_in_profile(opcode)
}

/// The class of a whole message for a file system that serves further opcodes or sees requests:
/// `served` is whether its opcode is one of those, `seen` whether its requests change nothing.
/// Takes no memory.
pub fn classify_for(message: &[u8], served: bool, seen: bool) -> Class
    requires header { min_message_len ≤ length message.now }
    requires len { number_of 4 message.now ≡ length message.now }
    ensures class { (V : Service) → V.serves (raw_of message.now).opcode ≡ served
        → V.sees (raw_of message.now).opcode ≡ seen → result ≡ class_for V message.now }
    // How the class follows from the request that the message spells.
    ensures spells { (V : Service) → V.serves (raw_of message.now).opcode ≡ served
        → V.sees (raw_of message.now).opcode ≡ seen → IsOfClass V result message.now }
{
    layouts_stand();
    names_end();
    let opcode = u32_at(message, 4);
    if is_silent(opcode) {
        return Class::Silent;
    }
    let Ok(_request) = decode(message) else {
        return Class::Bare(Errno::EINVAL);
    };
    if !is_served(opcode, served) {
        return Class::Bare(Errno::ENOSYS);
    }
    if seen {
        return Class::Seen;
    }
    Class::Kept
}

/// The class of a whole message where only the profile is served, and nothing is seen. Takes no
/// memory.
pub fn classify(message: &[u8]) -> Class
    requires header { min_message_len ≤ length message.now }
    requires len { number_of 4 message.now ≡ length message.now }
    ensures class { result ≡ class_of message.now }
    // How the class follows from the request that the message spells.
    ensures spells { IsOfClass profile_alone result message.now }
{
    classify_for(message, false, false)
}

/// Whether a message must be answered and has the id 0, which an answer can't bear.
pub fn has_zero_unique(message: &[u8]) -> bool
    requires { min_message_len ≤ length message.now }
    ensures { result ≡ is_zero message.now }
{
    !is_silent(u32_at(message, 4)) && Id::of(u64_at(message, 8)).0 == 0
}
