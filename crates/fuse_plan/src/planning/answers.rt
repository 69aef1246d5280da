ghost use Rattle.std.specs.Prelude.{◌≡◌, [], IfOk};
ghost use Rattle.fuse_answer.specs.Bodies.{entry_bytes};
ghost use Rattle.fuse_tree.specs.Done as done;
ghost use Rattle.fuse_tree.specs.Keeping.{absent_entry};
ghost use Rattle.fuse_plan.specs.inner.Reading as planning;
ghost use Rattle.fuse_plan.specs.inner.Reading.{IsWithin, entry_body, row_attr, attr_body, told};

use super::attributes::{attributes_of, is_directory};
use crate::planned::Planned;
use fuse_answer::{Answer, Attr, AttrOut, EntryOut};
use fuse_rows::{ABSENT_SECS, ChangeList, NodeRow, VALID_SECS};
use fuse_wire::{ByteList, Errno, Memory};
use std::alloc::Global;

// A refusal changes nothing.
pub(crate) fn refused(alloc: Global, errno: Errno) -> Planned
    ensures { result ≡ planning.refused errno }
{
    Planned {
        answer: Answer::refusal(alloc, errno),
        changes: ChangeList::from_vec(Vec::new(alloc)),
    }
}

// An answer that changes nothing.
pub(crate) fn unchanged(alloc: Global, answer: Answer) -> Planned
    ensures { result ≡ record { answer = answer; changes = [] } }
{
    Planned {
        answer,
        changes: ChangeList::from_vec(Vec::new(alloc)),
    }
}

// The answer without a body, and nothing is changed.
pub(crate) fn done_nothing(alloc: Global) -> Planned
    ensures { result ≡ told [] }
{
    unchanged(alloc, Answer::success(ByteList::from_vec(Vec::new(alloc))))
}

// For how many seconds the attributes of a node of this mode are valid, where its entry is valid for so many.
fn attr_valid(valid: u64, mode: u32) -> u64
    ensures { result ≡ done.attr_valid_of valid mode }
{
    if is_directory(mode) {
        VALID_SECS
    } else {
        valid
    }
}

// The entry of a node, valid for so many seconds.
pub(crate) fn entry_of(valid: u64, row: &NodeRow) -> EntryOut
    requires { IsWithin row.now }
    ensures { result ≡ done.entry_out_of valid (row_attr row.now) }
{
    let attr = attributes_of(row);
    EntryOut {
        nodeid: attr.ino,
        generation: 0,
        entry_valid: valid,
        attr_valid: attr_valid(valid, row.mode),
        entry_valid_nsec: 0,
        attr_valid_nsec: 0,
        attr,
    }
}

// It, as LOOKUP, MKNOD, MKDIR and SYMLINK answer it.
pub(crate) fn entry_answer(alloc: Global, valid: u64, row: &NodeRow) -> Result<Answer, Memory>
    requires { IsWithin row.now }
    ensures { IfOk result (λ answer. answer ≡ (told (entry_body valid row.now)).answer) }
{
    let body = entry_of(valid, row).body_of(alloc)?;
    Ok(Answer::success(ByteList::from_vec(body)))
}

// The entry that says that a name is absent.
pub(crate) fn absent_answer(alloc: Global) -> Result<Answer, Memory>
    ensures { IfOk result (λ answer. answer ≡ (told (entry_bytes absent_entry)).answer) }
{
    let attr = Attr {
        ino: 0,
        size: 0,
        blocks: 0,
        atime: 0,
        mtime: 0,
        ctime: 0,
        atimensec: 0,
        mtimensec: 0,
        ctimensec: 0,
        mode: 0,
        nlink: 0,
        uid: 0,
        gid: 0,
        rdev: 0,
        blksize: 0,
        flags: 0,
    };
    let entry = EntryOut {
        nodeid: 0,
        generation: 0,
        entry_valid: ABSENT_SECS,
        attr_valid: 0,
        entry_valid_nsec: 0,
        attr_valid_nsec: 0,
        attr,
    };
    let body = entry.body_of(alloc)?;
    Ok(Answer::success(ByteList::from_vec(body)))
}

// The attributes of a node, as GETATTR and SETATTR answer them where its entry is valid for so many seconds.
pub(crate) fn attr_answer(alloc: Global, valid: u64, row: &NodeRow) -> Result<Answer, Memory>
    requires { IsWithin row.now }
    ensures { IfOk result (λ answer. answer ≡ (told (attr_body valid row.now)).answer) }
{
    let attributes = AttrOut {
        attr_valid: attr_valid(valid, row.mode),
        attr_valid_nsec: 0,
        attr: attributes_of(row),
    };
    let body = attributes.body_of(alloc)?;
    Ok(Answer::success(ByteList::from_vec(body)))
}
