// The attributes of a node.
ghost use Rattle.std.specs.Prelude.{◌≡◌, IfOk};
ghost use Rattle.five_files.specs.Nodes.{links_of, attr_of};
ghost use Rattle.five_files.specs.Answers.{give_entry, give_attr};

use crate::node::Node;
use fuse_answer::{Answer, Attr, AttrOut, EntryOut};
use fuse_wire::{ByteList, Memory};
use std::alloc::Global;

fn links(node: Node) -> u32
    ensures { result ≡ links_of node }
{
    if node.is_directory() { 2 } else { 1 }
}

fn attributes_of(node: Node) -> Attr
    ensures { result ≡ attr_of node }
{
    let size = node.content().len() as u64;
    Attr {
        ino: node.number(),
        size,
        blocks: size.div_ceil(512),
        atime: 0,
        mtime: 0,
        ctime: 0,
        atimensec: 0,
        mtimensec: 0,
        ctimensec: 0,
        mode: node.mode(),
        nlink: links(node),
        uid: 0,
        gid: 0,
        rdev: 0,
        blksize: 4096,
        flags: 0,
    }
}

// The entry of a node, as LOOKUP answers it.
pub(crate) fn entry_answer(alloc: Global, node: Node) -> Result<Answer, Memory>
    ensures { IfOk result (λ answer. answer ≡ give_entry node) }
{
    let entry = EntryOut {
        nodeid: node.number(),
        generation: 0,
        entry_valid: 1,
        attr_valid: 1,
        entry_valid_nsec: 0,
        attr_valid_nsec: 0,
        attr: attributes_of(node),
    };
    let body = entry.body_of(alloc)?;
    Ok(Answer::success(ByteList::from_vec(body)))
}

// The attributes of a node, as GETATTR answers them.
pub(crate) fn attr_answer(alloc: Global, node: Node) -> Result<Answer, Memory>
    ensures { IfOk result (λ answer. answer ≡ give_attr node) }
{
    let attributes = AttrOut {
        attr_valid: 1,
        attr_valid_nsec: 0,
        attr: attributes_of(node),
    };
    let body = attributes.body_of(alloc)?;
    Ok(Answer::success(ByteList::from_vec(body)))
}
