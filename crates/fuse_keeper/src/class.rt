// The class of a message for the file system of a keeper.
ghost use Rattle.std.specs.Prelude.{◌≡◌, ◌≤◌, length};
ghost use Rattle.fuse_wire.specs.Bounds.{min_message_len};
ghost use Rattle.fuse_wire.specs.Bytes.{number_of};
ghost use Rattle.fuse_request.specs.Classes.{class_for};

use crate::keeper::Keeper;
use fuse_request::{Class, classify_for};
use fuse_wire::u32_at;

/// The class of a whole message: one whose opcode the file system serves is kept, or seen where it
/// sees such requests. Takes no memory.
pub fn classify<K: Keeper>(keeper: &K, message: &[u8]) -> Class
    requires header { min_message_len ≤ length message.now }
    requires len { number_of 4 message.now ≡ length message.now }
    ensures { result ≡ class_for (K.told keeper.now).service message.now }
{
    let opcode = u32_at(message, 4);
    classify_for(message, keeper.serves(opcode), keeper.sees(opcode))
}
