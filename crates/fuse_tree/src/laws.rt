ghost use Rattle.std.specs.Prelude.{◌≡◌};
ghost use Rattle.fuse_tree.specs.Modes as modes;

use crate::mode::*;
use crate::rename_mode::{RENAME_EXCHANGE, RENAME_NOREPLACE};

/// The types of modes and the flags of RENAME2 are those of Linux, as the definitions state them.
pub fn mode_numbers()
    ensures directory { S_IFDIR ≡ modes.s_ifdir }
    ensures regular { S_IFREG ≡ modes.s_ifreg }
    ensures character { S_IFCHR ≡ modes.s_ifchr }
    ensures block { S_IFBLK ≡ modes.s_ifblk }
    ensures fifo { S_IFIFO ≡ modes.s_ififo }
    ensures socket { S_IFSOCK ≡ modes.s_ifsock }
    ensures group { S_ISGID ≡ modes.s_isgid }
    ensures link { S_IFLNK ≡ modes.s_iflnk }
    ensures unit { TYPE_UNIT ≡ modes.type_unit }
    ensures types { TYPES ≡ modes.type_count }
    ensures no_replace { RENAME_NOREPLACE ≡ modes.rename_noreplace }
    ensures exchange { RENAME_EXCHANGE ≡ modes.rename_exchange }
{}
