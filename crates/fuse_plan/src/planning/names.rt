ghost use Rattle.std.specs.Prelude.{◌≡◌};
ghost use Rattle.fuse_tree.specs.Checks.{first_error};
ghost use Rattle.fuse_tree.specs.State.{name_fault};
ghost use Rattle.fuse_plan.specs.inner.Reading.{row_name_checks};

use super::attributes::is_directory;
use fuse_answer::MAX_NAME;
use fuse_rows::NodeRow;
use fuse_wire::Errno;

// The fault of a name: it is too long, empty, or one that leads elsewhere.
pub(crate) fn fault_of_name(name: &[u8]) -> Option<Errno>
    ensures { result ≡ name_fault name.now }
{
    if name.len() > MAX_NAME {
        return Some(Errno::ENAMETOOLONG);
    }
    let is_odd = name.is_empty()
        || name == b".".as_slice()
        || name == b"..".as_slice()
        || name.contains(&b'/');
    if is_odd { Some(Errno::EINVAL) } else { None }
}

// Why a name can't be looked up in the node of this row.
pub(crate) fn fault_of_lookup(name: &[u8], row: &NodeRow) -> Option<Errno>
    ensures { result ≡ first_error (row_name_checks name.now row.now) }
{
    if !is_directory(row.mode) {
        return Some(Errno::ENOTDIR);
    }
    if let Some(errno) = fault_of_name(name) {
        return Some(errno);
    }
    if row.is_named() {
        None
    } else {
        Some(Errno::ENOENT)
    }
}
