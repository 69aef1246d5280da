// Bodies by their places.
ghost use Rattle.std.specs.Prelude.{◌≡◌, ◌==◌, if◌then◌else◌, length, FitsSigned};
ghost use Rattle.std.specs.Int.{w32};
ghost use Rattle.fuse_wire.specs.Layout.{Lays};
ghost use Rattle.fuse_answer.specs.Sizes.{attr_size, entry_out_size, open_out_size};
ghost use Rattle.fuse_answer.specs.Bodies.{attr_parts, entry_parts, open_parts};
ghost use Rattle.fuse_answer.specs.Replies as replies;
ghost use Rattle.fuse_answer.specs.Replies.{kind_of, AnEntry, ACreate, Attributes, AnOpen};
ghost use Rattle.fuse_answer.specs.Replies.{AWrite, AStatfs, AnXattr, AnLseek, AnInit, Data};
ghost use Rattle.fuse_answer.specs.Replies.{Directory, DirectoryPlus, Nothing as NothingKind};
ghost use Rattle.fuse_answer.specs.inner.Readers.{ReadsReply, ReadsAsked};

use crate::further::{CreateOut, LseekOut, StatfsOut, XattrOut};
use crate::init_out::InitOut;
use crate::records::{Attr, AttrOut, EntryOut, OpenOut, WriteOut};
use crate::reply::{BadAnswer, MAX_TARGET, ReplyBody};
use crate::unpacking::{is_listing, is_plus_listing};
use fuse_wire::opcode::{
    ACCESS, COPY_FILE_RANGE, CREATE, DESTROY, FALLOCATE, FLUSH, FSYNC, FSYNCDIR, GETATTR, GETXATTR,
    INIT, LINK, LISTXATTR, LOOKUP, LSEEK, MKDIR, MKNOD, OPEN, OPENDIR, READ, READDIR, READDIRPLUS,
    READLINK, RELEASE, RELEASEDIR, REMOVEXATTR, RENAME, RENAME2, RMDIR, SETATTR, SETXATTR, STATFS,
    SYMLINK, UNLINK, WRITE,
};
use fuse_wire::{layouts_stand, numbers_read, u16_at, u32_at, u64_at};

fn attr_of(bytes: &[u8]) -> Attr
    requires { length bytes.now ≡ attr_size }
    ensures { Lays (attr_parts result) bytes.now }
{
    layouts_stand();
    Attr {
        ino: u64_at(bytes, 0),
        size: u64_at(bytes, 8),
        blocks: u64_at(bytes, 16),
        atime: u64_at(bytes, 24),
        mtime: u64_at(bytes, 32),
        ctime: u64_at(bytes, 40),
        atimensec: u32_at(bytes, 48),
        mtimensec: u32_at(bytes, 52),
        ctimensec: u32_at(bytes, 56),
        mode: u32_at(bytes, 60),
        nlink: u32_at(bytes, 64),
        uid: u32_at(bytes, 68),
        gid: u32_at(bytes, 72),
        rdev: u32_at(bytes, 76),
        blksize: u32_at(bytes, 80),
        flags: u32_at(bytes, 84),
    }
}

fn entry_in(bytes: &[u8]) -> EntryOut
    requires { length bytes.now ≡ entry_out_size }
    ensures { Lays (entry_parts result) bytes.now }
{
    numbers_read();
    layouts_stand();
    let (prefix, attr) = bytes.split_at(EntryOut::SIZE - Attr::SIZE);
    EntryOut {
        nodeid: u64_at(prefix, 0),
        generation: u64_at(prefix, 8),
        entry_valid: u64_at(prefix, 16),
        attr_valid: u64_at(prefix, 24),
        entry_valid_nsec: u32_at(prefix, 32),
        attr_valid_nsec: u32_at(prefix, 36),
        attr: attr_of(attr),
    }
}

fn open_in(bytes: &[u8]) -> OpenOut
    requires { length bytes.now ≡ open_out_size }
    ensures laid { Lays (open_parts result) bytes.now }
    ensures fits { FitsSigned w32 result.backing_id }
{
    layouts_stand();
    OpenOut {
        fh: u64_at(bytes, 0),
        open_flags: u32_at(bytes, 8),
        backing_id: u32_at(bytes, 12).cast_signed(),
    }
}

fn entry_of(body: &[u8]) -> Result<ReplyBody<'_>, BadAnswer>
    ensures { ReadsReply AnEntry body.now result }
{
    if body.len() != EntryOut::SIZE {
        return Err(BadAnswer::BodyLength);
    }
    Ok(ReplyBody::Entry(entry_in(body)))
}

fn create_of(body: &[u8]) -> Result<ReplyBody<'_>, BadAnswer>
    ensures { ReadsReply ACreate body.now result }
{
    layouts_stand();
    if body.len() != CreateOut::SIZE {
        return Err(BadAnswer::BodyLength);
    }
    let (entry, open) = body.split_at(EntryOut::SIZE);
    Ok(ReplyBody::Create(CreateOut {
        entry: entry_in(entry),
        open: open_in(open),
    }))
}

fn attributes_of(body: &[u8]) -> Result<ReplyBody<'_>, BadAnswer>
    ensures { ReadsReply Attributes body.now result }
{
    numbers_read();
    layouts_stand();
    if body.len() != AttrOut::SIZE {
        return Err(BadAnswer::BodyLength);
    }
    let (prefix, attr) = body.split_at(AttrOut::SIZE - Attr::SIZE);
    Ok(ReplyBody::Attributes(AttrOut {
        attr_valid: u64_at(prefix, 0),
        attr_valid_nsec: u32_at(prefix, 8),
        attr: attr_of(attr),
    }))
}

fn open_of(body: &[u8]) -> Result<ReplyBody<'_>, BadAnswer>
    ensures { ReadsReply AnOpen body.now result }
{
    if body.len() != OpenOut::SIZE {
        return Err(BadAnswer::BodyLength);
    }
    Ok(ReplyBody::Open(open_in(body)))
}

fn write_of(body: &[u8]) -> Result<ReplyBody<'_>, BadAnswer>
    ensures { ReadsReply AWrite body.now result }
{
    layouts_stand();
    if body.len() != WriteOut::SIZE {
        return Err(BadAnswer::BodyLength);
    }
    Ok(ReplyBody::Write(WriteOut {
        size: u32_at(body, 0),
    }))
}

fn statfs_of(body: &[u8]) -> Result<ReplyBody<'_>, BadAnswer>
    ensures { ReadsReply AStatfs body.now result }
{
    layouts_stand();
    if body.len() != StatfsOut::SIZE {
        return Err(BadAnswer::BodyLength);
    }
    Ok(ReplyBody::Statfs(StatfsOut {
        blocks: u64_at(body, 0),
        bfree: u64_at(body, 8),
        bavail: u64_at(body, 16),
        files: u64_at(body, 24),
        ffree: u64_at(body, 32),
        bsize: u32_at(body, 40),
        namelen: u32_at(body, 44),
        frsize: u32_at(body, 48),
    }))
}

fn xattr_of(body: &[u8]) -> Result<ReplyBody<'_>, BadAnswer>
    ensures { ReadsReply AnXattr body.now result }
{
    layouts_stand();
    if body.len() != XattrOut::SIZE {
        return Err(BadAnswer::BodyLength);
    }
    Ok(ReplyBody::Xattr(XattrOut {
        size: u32_at(body, 0),
    }))
}

fn lseek_of(body: &[u8]) -> Result<ReplyBody<'_>, BadAnswer>
    ensures { ReadsReply AnLseek body.now result }
{
    layouts_stand();
    if body.len() != LseekOut::SIZE {
        return Err(BadAnswer::BodyLength);
    }
    Ok(ReplyBody::Lseek(LseekOut {
        offset: u64_at(body, 0),
    }))
}

fn init_of(body: &[u8]) -> Result<ReplyBody<'_>, BadAnswer>
    ensures { ReadsReply AnInit body.now result }
{
    layouts_stand();
    if body.len() != InitOut::SIZE {
        return Err(BadAnswer::BodyLength);
    }
    Ok(ReplyBody::Init(InitOut {
        major: u32_at(body, 0),
        minor: u32_at(body, 4),
        max_readahead: u32_at(body, 8),
        flags: u32_at(body, 12),
        max_background: u16_at(body, 16),
        congestion_threshold: u16_at(body, 18),
        max_write: u32_at(body, 20),
        time_gran: u32_at(body, 24),
        max_pages: u16_at(body, 28),
        map_alignment: u16_at(body, 30),
        flags2: u32_at(body, 32),
        max_stack_depth: u32_at(body, 36),
    }))
}

fn directory_of(body: &[u8]) -> Result<ReplyBody<'_>, BadAnswer>
    ensures { ReadsReply Directory body.now result }
{
    if !is_listing(body) {
        return Err(BadAnswer::BadDirent);
    }
    Ok(ReplyBody::Directory(body))
}

fn directory_plus_of(body: &[u8]) -> Result<ReplyBody<'_>, BadAnswer>
    ensures { ReadsReply DirectoryPlus body.now result }
{
    if !is_plus_listing(body) {
        return Err(BadAnswer::BadDirent);
    }
    Ok(ReplyBody::DirectoryPlus(body))
}

fn nothing_of(body: &[u8]) -> Result<ReplyBody<'_>, BadAnswer>
    ensures { ReadsReply NothingKind body.now result }
{
    if !body.is_empty() {
        return Err(BadAnswer::BodyLength);
    }
    Ok(ReplyBody::Nothing)
}

// A value or a list of names, and where no byte is asked for its length.
fn xattr_or_data(size: u32, body: &[u8]) -> Result<ReplyBody<'_>, BadAnswer>
    ensures { ReadsReply (if size == 0 then AnXattr else Data) body.now result }
{
    if size == 0 {
        return xattr_of(body);
    }
    Ok(ReplyBody::Data(body))
}

// How many bytes a body has at most, where it is no record.
fn most_of(opcode: u32, size: u32) -> Option<u32>
    ensures { result ≡ replies.most_of opcode size }
{
    match opcode {
        READLINK => Some(MAX_TARGET),
        READ | READDIR | READDIRPLUS => Some(size),
        GETXATTR | LISTXATTR if size != 0 => Some(size),
        _ => None,
    }
}

// A body by its kind.
fn kind_read(opcode: u32, size: u32, body: &[u8]) -> Result<ReplyBody<'_>, BadAnswer>
    ensures { ReadsReply (kind_of opcode size) body.now result }
{
    match opcode {
        LOOKUP | SYMLINK | MKNOD | MKDIR | LINK => entry_of(body),
        GETATTR | SETATTR => attributes_of(body),
        OPEN | OPENDIR => open_of(body),
        CREATE => create_of(body),
        WRITE | COPY_FILE_RANGE => write_of(body),
        STATFS => statfs_of(body),
        LSEEK => lseek_of(body),
        INIT => init_of(body),
        READ | READLINK => Ok(ReplyBody::Data(body)),
        GETXATTR | LISTXATTR => xattr_or_data(size, body),
        READDIR => directory_of(body),
        READDIRPLUS => directory_plus_of(body),
        UNLINK | RMDIR | RENAME | RENAME2 => nothing_of(body),
        RELEASE | RELEASEDIR | DESTROY => nothing_of(body),
        FSYNC | FSYNCDIR | FLUSH | SETXATTR => nothing_of(body),
        REMOVEXATTR | ACCESS | FALLOCATE => nothing_of(body),
        _ => Ok(ReplyBody::Unknown(body)),
    }
}

// The body of an answer without an error to a request of this opcode that asks for `size` bytes,
// or what is wrong with it.
pub(crate) fn body_of(opcode: u32, size: u32, body: &[u8]) -> Result<ReplyBody<'_>, BadAnswer>
    ensures { ReadsAsked opcode size body.now result }
{
    if let Some(most) = most_of(opcode, size) {
        if body.len() > most as usize {
            return Err(BadAnswer::BodyLength);
        }
    }
    kind_read(opcode, size, body)
}
