ghost use Rattle.std.specs.Prelude.{◌≡◌, ◌++◌, length, IfOk, OnOk};
ghost use Rattle.fuse_wire.specs.Layout.{HasForm, Lays, form, widths};
ghost use Rattle.fuse_wire.specs.Written.{AllFit, Puts, laid};
ghost use Rattle.fuse_answer.specs.inner.NoText.{HasNoText};
ghost use Rattle.fuse_answer.specs.Bodies.{out_header_parts, attr_parts, entry_parts};
ghost use Rattle.fuse_answer.specs.Bodies.{attr_out_parts};
ghost use Rattle.fuse_answer.specs.Bodies.{open_parts, write_parts, header_bytes, attr_bytes};
ghost use Rattle.fuse_answer.specs.Bodies.{entry_bytes, attr_out_bytes, open_bytes, write_bytes};
ghost use Rattle.fuse_answer.specs.Sizes.{out_header_size, attr_size, entry_out_size};
ghost use Rattle.fuse_answer.specs.Sizes.{attr_out_size, open_out_size, write_out_size};

use crate::fields::body_of_fields;
use byteorder::{ByteOrder, LittleEndian};
use fuse_wire::Field::{U32, U64, Unused};
use fuse_wire::{Field, Memory, layouts_stand, put_fields};
use std::alloc::Global;

/// The header of an answer, `fuse_out_header` of `fuse.h`.
#[derive(Clone, Copy, Debug, PartialEq, Eq)]
pub struct OutHeader {
    pub len: u32,
    pub error: i32,
    pub unique: u64,
}

/// The attributes of a node, `fuse_attr` of `fuse.h`.
#[derive(Clone, Copy, Debug, PartialEq, Eq)]
pub struct Attr {
    pub ino: u64,
    pub size: u64,
    pub blocks: u64,
    pub atime: u64,
    pub mtime: u64,
    pub ctime: u64,
    pub atimensec: u32,
    pub mtimensec: u32,
    pub ctimensec: u32,
    pub mode: u32,
    pub nlink: u32,
    pub uid: u32,
    pub gid: u32,
    pub rdev: u32,
    pub blksize: u32,
    pub flags: u32,
}

/// The answer to LOOKUP, MKNOD and MKDIR, `fuse_entry_out` of `fuse.h`.
#[derive(Clone, Copy, Debug, PartialEq, Eq)]
pub struct EntryOut {
    pub nodeid: u64,
    pub generation: u64,
    pub entry_valid: u64,
    pub attr_valid: u64,
    pub entry_valid_nsec: u32,
    pub attr_valid_nsec: u32,
    pub attr: Attr,
}

/// The answer to GETATTR and SETATTR, `fuse_attr_out` of `fuse.h`.
#[derive(Clone, Copy, Debug, PartialEq, Eq)]
pub struct AttrOut {
    pub attr_valid: u64,
    pub attr_valid_nsec: u32,
    pub attr: Attr,
}

/// The answer to OPEN and OPENDIR, `fuse_open_out` of `fuse.h`.
#[derive(Clone, Copy, Debug, PartialEq, Eq)]
pub struct OpenOut {
    pub fh: u64,
    pub open_flags: u32,
    pub backing_id: i32,
}

/// The answer to WRITE, `fuse_write_out` of `fuse.h`.
#[derive(Clone, Copy, Debug, PartialEq, Eq)]
pub struct WriteOut {
    pub size: u32,
}

impl OutHeader {
    /// The bytes that it takes.
    pub const SIZE: usize = 16;

    #[tactic(auto, unfolding(crate::specs::Bodies::header_bytes, fuse_wire::specs::Bytes::le))]
    pub(crate) fn bytes(&self) -> [u8; 16]
        ensures bytes { result ≡ header_bytes self.now }
        ensures fits { HasForm (out_header_parts self.now) }
    {
        let OutHeader { len, error, unique } = *self;
        let mut bytes = [0; 16];
        LittleEndian::write_u32(&mut bytes, len);
        LittleEndian::write_i32(&mut bytes[4..], error);
        LittleEndian::write_u64(&mut bytes[8..], unique);
        bytes
    }

    /// The bytes of a header alone, as a notice is.
    pub fn body_of(&self, alloc: Global) -> Result<Vec<u8>, Memory>
        ensures bytes { IfOk result (λ body. body.items ≡ header_bytes self.now) }
        ensures size { IfOk result (λ body. length body.items ≡ out_header_size) }
        ensures laid { IfOk result (λ body. Lays (out_header_parts self.now) body.items) }
    {
        layouts_stand();
        Ok(Vec::from_slice(alloc, &self.bytes())?)
    }
}

impl Attr {
    /// The bytes that it takes.
    pub const SIZE: usize = 88;

    // Appends the bytes.
    fn put(&self, out: &mut Vec<u8>) -> Result<(), Memory>
        ensures { Puts (attr_parts self.now) out.old.items out.new.items result }
    {
        put_fields(
            out,
            &[
                U64(self.ino),
                U64(self.size),
                U64(self.blocks),
                U64(self.atime),
                U64(self.mtime),
                U64(self.ctime),
                U32(self.atimensec),
                U32(self.mtimensec),
                U32(self.ctimensec),
                U32(self.mode),
                U32(self.nlink),
                U32(self.uid),
                U32(self.gid),
                U32(self.rdev),
                U32(self.blksize),
                U32(self.flags),
            ],
        )
    }

    // A body of fields and then the attributes, for which `size` bytes are allocated at once.
    fn body_after(&self, alloc: Global, size: usize, first: &[Field<'_>]) -> Result<Vec<u8>, Memory>
        requires { HasNoText (laid first.now) }
        ensures bytes { IfOk result (λ body. body.items
            ≡ form (laid first.now ++ attr_parts self.now)) }
        ensures size { IfOk result (λ body. length body.items
            ≡ widths (laid first.now ++ attr_parts self.now)) }
        ensures laid { IfOk result (λ body. Lays
            (laid first.now ++ attr_parts self.now) body.items) }
    {
        layouts_stand();
        let mut body = Vec::with_capacity(alloc, size)?;
        put_fields(&mut body, first)?;
        self.put(&mut body)?;
        Ok(body)
    }

    /// Its bytes, as they end an entry and an answer to GETATTR.
    #[tactic(auto, unfolding(crate::specs::Bodies::attr_bytes))]
    pub fn body_of(&self, alloc: Global) -> Result<Vec<u8>, Memory>
        ensures bytes { IfOk result (λ body. body.items ≡ attr_bytes self.now) }
        ensures size { IfOk result (λ body. length body.items ≡ attr_size) }
        ensures laid { IfOk result (λ body. Lays (attr_parts self.now) body.items) }
    {
        self.body_after(alloc, Attr::SIZE, &[])
    }
}

impl EntryOut {
    /// The bytes that it takes.
    pub const SIZE: usize = 128;

    // Appends the bytes. An `Err` may leave a part of them.
    pub(crate) fn put(&self, out: &mut Vec<u8>) -> Result<(), Memory>
        ensures bytes { OnOk result (out.new.items ≡ out.old.items ++ entry_bytes self.now) }
        ensures fits { OnOk result (AllFit (entry_parts self.now)) }
    {
        put_fields(
            out,
            &[
                U64(self.nodeid),
                U64(self.generation),
                U64(self.entry_valid),
                U64(self.attr_valid),
                U32(self.entry_valid_nsec),
                U32(self.attr_valid_nsec),
            ],
        )?;
        self.attr.put(out)
    }

    /// The body of an answer to LOOKUP, MKNOD or MKDIR.
    pub fn body_of(&self, alloc: Global) -> Result<Vec<u8>, Memory>
        ensures bytes { IfOk result (λ body. body.items ≡ entry_bytes self.now) }
        ensures size { IfOk result (λ body. length body.items ≡ entry_out_size) }
        ensures laid { IfOk result (λ body. Lays (entry_parts self.now) body.items) }
    {
        layouts_stand();
        let mut body = Vec::with_capacity(alloc, EntryOut::SIZE)?;
        self.put(&mut body)?;
        Ok(body)
    }
}

impl AttrOut {
    /// The bytes that it takes.
    pub const SIZE: usize = 104;

    /// The body of an answer to GETATTR or SETATTR.
    #[tactic(auto, unfolding(crate::specs::Bodies::attr_out_bytes))]
    pub fn body_of(&self, alloc: Global) -> Result<Vec<u8>, Memory>
        ensures bytes { IfOk result (λ body. body.items ≡ attr_out_bytes self.now) }
        ensures size { IfOk result (λ body. length body.items ≡ attr_out_size) }
        ensures laid { IfOk result (λ body. Lays (attr_out_parts self.now) body.items) }
    {
        let first = [U64(self.attr_valid), U32(self.attr_valid_nsec), Unused(4)];
        self.attr.body_after(alloc, AttrOut::SIZE, &first)
    }
}

impl OpenOut {
    /// The bytes that it takes.
    pub const SIZE: usize = 16;

    /// The body of an answer to OPEN or OPENDIR.
    #[tactic(auto, unfolding(crate::specs::Bodies::open_bytes))]
    pub fn body_of(&self, alloc: Global) -> Result<Vec<u8>, Memory>
        ensures bytes { IfOk result (λ body. body.items ≡ open_bytes self.now) }
        ensures size { IfOk result (λ body. length body.items ≡ open_out_size) }
        ensures laid { IfOk result (λ body. Lays (open_parts self.now) body.items) }
    {
        let fields = [
            U64(self.fh),
            U32(self.open_flags),
            U32(self.backing_id.cast_unsigned()),
        ];
        body_of_fields(alloc, OpenOut::SIZE, &fields)
    }
}

impl WriteOut {
    /// The bytes that it takes.
    pub const SIZE: usize = 8;

    /// The body of an answer to WRITE.
    #[tactic(auto, unfolding(crate::specs::Bodies::write_bytes))]
    pub fn body_of(&self, alloc: Global) -> Result<Vec<u8>, Memory>
        ensures bytes { IfOk result (λ body. body.items ≡ write_bytes self.now) }
        ensures size { IfOk result (λ body. length body.items ≡ write_out_size) }
        ensures laid { IfOk result (λ body. Lays (write_parts self.now) body.items) }
    {
        body_of_fields(alloc, WriteOut::SIZE, &[U32(self.size), Unused(4)])
    }
}
