ghost use Rattle.std.specs.Prelude.{◌≡◌, ◌≤◌, false, length, IfOk, IfErr, IsOkAnd};
ghost use Rattle.fuse_wire.specs.Opcodes.{silent};
ghost use Rattle.fuse_answer.specs.Sizes.{out_header_size};
ghost use Rattle.fuse_answer.specs.Replies.{Told, told_reply, reply_content, Answers, IsProper};
ghost use Rattle.fuse_answer.specs.Replies.{FirstFault};
ghost use Rattle.fuse_answer.specs.Replies.{errno_in};

use crate::bodies::body_of;
use crate::further::{CreateOut, LseekOut, StatfsOut, XattrOut};
use crate::init_out::InitOut;
use crate::records::{AttrOut, EntryOut, OpenOut, OutHeader, WriteOut};
use fuse_wire::{Errno, layouts_stand, numbers_read, u32_at, u64_at};

/// The largest error number that an answer may bear.
pub const MAX_ERRNO: u32 = 511;

/// The most bytes that the target of a symbolic link has: a page less one.
pub const MAX_TARGET: u32 = 4095;

/// The body of an answer, by the opcode of the request. Bytes lie in the message.
#[derive(Clone, Copy, Debug)]
pub enum ReplyBody<'a> {
    /// To LOOKUP, SYMLINK, MKNOD, MKDIR and LINK.
    Entry(EntryOut),
    /// To CREATE.
    Create(CreateOut),
    /// To GETATTR and SETATTR.
    Attributes(AttrOut),
    /// To OPEN and OPENDIR.
    Open(OpenOut),
    /// To WRITE and COPY_FILE_RANGE.
    Write(WriteOut),
    /// To STATFS.
    Statfs(StatfsOut),
    /// To GETXATTR and LISTXATTR that ask for no byte.
    Xattr(XattrOut),
    /// To LSEEK.
    Lseek(LseekOut),
    /// To INIT.
    Init(InitOut),
    /// To READ, READLINK, and GETXATTR and LISTXATTR that ask for bytes.
    Data(&'a [u8]),
    /// To READDIR: the entries that `unpack` takes.
    Directory(&'a [u8]),
    /// To READDIRPLUS: before each entry the bytes of what LOOKUP answers.
    DirectoryPlus(&'a [u8]),
    /// To opcodes that the header alone answers, and every error.
    Nothing,
    /// To an opcode that has no constant in `fuse_wire::opcode`.
    Unknown(&'a [u8]),
}

/// An answer, as it lies in the bytes of a message.
#[derive(Clone, Copy, Debug)]
pub struct Reply<'a> {
    pub unique: u64,
    pub errno: Errno,
    pub body: ReplyBody<'a>,
}

/// Why bytes are no answer. Where several apply it is the first in this order.
#[derive(Clone, Copy, Debug, PartialEq, Eq)]
pub enum BadAnswer {
    /// There are fewer bytes than a header has.
    Short,
    /// `len` isn't the number of bytes.
    LenDiffers,
    /// The error isn't within -511 and 0.
    ErrorRange,
    /// Bytes follow the header of an error.
    BodyAfterError,
    /// The body of the opcode has another length, or more bytes than were asked for.
    BodyLength,
    /// The body of READDIR or READDIRPLUS isn't whole entries, or a name hasn't 1 to 255 bytes.
    BadDirent,
}

// The error number of a header, which holds its negation.
fn errno_at(bytes: &[u8]) -> u32
    requires { out_header_size ≤ length bytes.now }
    ensures { result ≡ errno_in bytes.now }
{
    u32_at(bytes, 4).wrapping_neg()
}

// The content of an answer to such a request, or its first fault.
fn read(opcode: u32, size: u32, bytes: &[u8]) -> Result<Reply<'_>, BadAnswer>
    ensures found { IfOk result (λ r. Answers opcode size (told_reply r) bytes.now) }
    ensures fault { IfErr result (λ m. FirstFault opcode size bytes.now m) }
{
    numbers_read();
    if bytes.len() < OutHeader::SIZE {
        return Err(BadAnswer::Short);
    }
    if u32_at(bytes, 0) as usize != bytes.len() {
        return Err(BadAnswer::LenDiffers);
    }
    let errno = errno_at(bytes);
    if errno > MAX_ERRNO {
        return Err(BadAnswer::ErrorRange);
    }
    let unique = u64_at(bytes, 8);
    let body = &bytes[OutHeader::SIZE..];
    if errno != 0 {
        if !body.is_empty() {
            return Err(BadAnswer::BodyAfterError);
        }
        return Ok(Reply {
            unique,
            errno: Errno(errno),
            body: ReplyBody::Nothing,
        });
    }
    let body = body_of(opcode, size, body)?;
    Ok(Reply {
        unique,
        errno: Errno::NONE,
        body,
    })
}

/// The content of an answer to a request of this opcode, or its first fault. `size` is how many
/// bytes the request asks for: the field of READ, READDIR, READDIRPLUS, GETXATTR and LISTXATTR. For
/// others it has no meaning. Takes no memory.
pub fn read_answer(opcode: u32, size: u32, bytes: &[u8]) -> Result<Reply<'_>, BadAnswer>
    requires { silent opcode ≡ false }

    // What is read is answered so.
    ensures found { IfOk result (λ r. Answers opcode size (told_reply r) bytes.now) }
    // What is answered is read.
    ensures only { (t : Told) → Answers opcode size t bytes.now
        → IsOkAnd result (λ r. told_reply r ≡ t) }
    // The body of a directory is its entries, which `unpack` takes.
    ensures proper { IfOk result (λ r. IsProper (reply_content r.body)) }

    // Which fault it is.
    ensures fault { IfErr result (λ m. FirstFault opcode size bytes.now m) }
{
    layouts_stand();
    read(opcode, size, bytes)
}
