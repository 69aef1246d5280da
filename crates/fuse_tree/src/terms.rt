// What a profile decides of a tree.
ghost use Rattle.std.specs.Prelude.{◌≡◌, ◌≤◌};
ghost use Rattle.fuse_init.specs.Profile.{terms};
ghost use Rattle.fuse_rows.specs.Bounds.{node_limit, file_limit};

use fuse_init::Profile;
use fuse_wire::{FOPEN_KEEP_CACHE, opcode};

/// The most nodes of a tree of this profile.
pub fn max_nodes(profile: Profile) -> u64
    ensures limit { result ≡ (terms profile).node_limit }
    ensures most { result ≤ node_limit }
{
    match profile {
        Profile::Plain => 65_536,
        Profile::Everyday => 1_048_576,
    }
}

/// The most bytes of a file of this profile.
pub fn max_file(profile: Profile) -> u64
    ensures limit { result ≡ (terms profile).file_limit }
    ensures most { result ≤ file_limit }
{
    match profile {
        Profile::Plain => 16_777_216,
        Profile::Everyday => 1_099_511_627_776,
    }
}

/// Whether a node without a name and without an fh goes.
pub fn removes(profile: Profile) -> bool
    ensures { result ≡ (terms profile).removes }
{
    match profile {
        Profile::Plain => false,
        Profile::Everyday => true,
    }
}

/// The flags that OPEN is answered.
pub fn open_flags(profile: Profile) -> u32
    ensures { result ≡ (terms profile).open_flags }
{
    match profile {
        Profile::Plain => 0,
        Profile::Everyday => FOPEN_KEEP_CACHE,
    }
}

/// Whether what is made in a directory with S_ISGID gets its group.
pub fn inherits(profile: Profile) -> bool
    ensures { result ≡ (terms profile).inherits }
{
    match profile {
        Profile::Plain => false,
        Profile::Everyday => true,
    }
}

/// Whether this profile sees the requests of an opcode: they change nothing and leave no record.
pub fn sees_requests(profile: Profile, number: u32) -> bool
    ensures { result ≡ (terms profile).seen number }
{
    match profile {
        Profile::Plain => false,
        Profile::Everyday => {
            number == opcode::LOOKUP
                || number == opcode::GETATTR
                || number == opcode::READLINK
                || number == opcode::READ
                || number == opcode::STATFS
                || number == opcode::FSYNC
                || number == opcode::READDIR
                || number == opcode::FSYNCDIR
                || number == opcode::READDIRPLUS
        }
    }
}

/// Whether this profile serves an opcode that isn't of the protocol's profile.
pub fn serves_further(profile: Profile, number: u32) -> bool
    ensures { result ≡ (terms profile).further number }
{
    match profile {
        Profile::Plain => false,
        Profile::Everyday => {
            number == opcode::READLINK
                || number == opcode::SYMLINK
                || number == opcode::STATFS
                || number == opcode::FSYNC
                || number == opcode::FSYNCDIR
                || number == opcode::CREATE
                || number == opcode::READDIRPLUS
        }
    }
}
