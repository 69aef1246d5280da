// The names of extended attributes in a body.
ghost use Rattle.std.specs.Prelude.{◌≡◌, false};
ghost use Rattle.fuse_guest.specs.RightBodies as bodies;

use fuse_request::opcode::LISTXATTR;

// Whether bytes are names, each with a NUL after it.
fn are_names(bytes: &[u8]) -> bool
    ensures { result ≡ bodies.are_names_after false bytes.now }
{
    let mut begun = false;
    for byte in bytes {
        if *byte == 0 && !begun {
            return false;
        }
        begun = *byte != 0;
    }
    !begun
}

/// Whether a body of LISTXATTR that lists names is one that a kernel takes.
pub(crate) fn has_right_names(opcode: u32, size: u32, body: &[u8]) -> bool
    ensures { result ≡ bodies.has_right_names opcode size body.now }
{
    opcode != LISTXATTR || size == 0 || are_names(body)
}
