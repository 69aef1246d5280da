// Bodies of opcodes outside the profile, read for a file system that serves them.
ghost use Rattle.std.specs.Prelude.{◌≡◌, length, Some, IsOkAnd, IfOk, IfSome, is_some, IsSomeAnd};
ghost use Rattle.std.specs.Option.{option_map};
ghost use Rattle.std.specs.Result.{result_err};
ghost use Rattle.fuse_wire.specs.Opcodes as opcodes;
ghost use Rattle.fuse_request.specs.FurtherBodies as further;
ghost use Rattle.fuse_request.specs.FurtherBodies.{FurtherContent, SpellsBody};
ghost use Rattle.fuse_request.specs.inner.FurtherReaders.{GivesValue, ReadsAny, ReadsBody};

use crate::bodies::{last_name, read_at, two_names};
use crate::decoding::Malformed;
use crate::lengths::{
    ACCESS_IN, COPY_FILE_RANGE_IN, CREATE_IN, FALLOCATE_IN, FLUSH_IN, FSYNC_IN, GETXATTR_IN,
    LINK_IN, LSEEK_IN, READ_IN, SETXATTR_IN,
};
use crate::opcode::{
    ACCESS, COPY_FILE_RANGE, CREATE, FALLOCATE, FLUSH, FSYNC, FSYNCDIR, GETXATTR, LINK, LISTXATTR,
    LSEEK, READDIRPLUS, READLINK, REMOVEXATTR, SETXATTR, STATFS, SYMLINK,
};
use crate::request::ReadIn;
use fuse_wire::{Fields, layouts_stand, names_end, u32_at, u64_at};

/// `fuse_copy_file_range_in` of `fuse.h`.
#[derive(Clone, Copy, Debug, PartialEq, Eq)]
pub struct CopyFileRangeIn {
    pub fh_in: u64,
    pub off_in: u64,
    pub nodeid_out: u64,
    pub fh_out: u64,
    pub off_out: u64,
    pub len: u64,
    pub flags: u64,
}

/// The body of a request whose opcode is outside the profile, with the fields of `fuse.h`. Names
/// and values lie in the body.
#[derive(Clone, Copy, Debug)]
pub enum Body<'a> {
    Readlink,
    Symlink {
        name: &'a [u8],
        target: &'a [u8],
    },
    Link {
        oldnodeid: u64,
        name: &'a [u8],
    },
    Statfs,
    Fsync {
        fh: u64,
        fsync_flags: u32,
    },
    /// The field `size` is the length of `value`.
    Setxattr {
        flags: u32,
        name: &'a [u8],
        value: &'a [u8],
    },
    Getxattr {
        size: u32,
        name: &'a [u8],
    },
    Listxattr {
        size: u32,
    },
    Removexattr {
        name: &'a [u8],
    },
    Flush {
        fh: u64,
        lock_owner: u64,
    },
    FsyncDir {
        fh: u64,
        fsync_flags: u32,
    },
    Access {
        mask: u32,
    },
    Create {
        flags: u32,
        mode: u32,
        umask: u32,
        open_flags: u32,
        name: &'a [u8],
    },
    /// `len` is the field `length`.
    Fallocate {
        fh: u64,
        offset: u64,
        len: u64,
        mode: u32,
    },
    /// Of the fields of READDIR.
    ReadDirPlus(ReadIn),
    Lseek {
        fh: u64,
        offset: u64,
        whence: u32,
    },
    CopyFileRange(CopyFileRangeIn),
}

// A body without fields.
fn readlink_of(body: &[u8]) -> Result<Body<'_>, Malformed>
    ensures { ReadsBody opcodes.fuse_readlink body.now result }
{
    if !body.is_empty() {
        return Err(Malformed::BodyLength);
    }
    Ok(Body::Readlink)
}

fn symlink_of(body: &[u8]) -> Result<Body<'_>, Malformed>
    ensures { ReadsBody opcodes.fuse_symlink body.now result }
{
    let names = two_names(body)?;
    let (name, target) = names;
    Ok(Body::Symlink { name, target })
}

fn link_of(body: &[u8]) -> Result<Body<'_>, Malformed>
    ensures { ReadsBody opcodes.fuse_link body.now result }
{
    if body.len() < LINK_IN {
        return Err(Malformed::BodyLength);
    }
    let (_fixed, rest) = body.split_at(LINK_IN);
    let oldnodeid = u64_at(body, 0);
    let name = last_name(rest)?;
    Ok(Body::Link { oldnodeid, name })
}

fn statfs_of(body: &[u8]) -> Result<Body<'_>, Malformed>
    ensures { ReadsBody opcodes.fuse_statfs body.now result }
{
    if !body.is_empty() {
        return Err(Malformed::BodyLength);
    }
    Ok(Body::Statfs)
}

fn fsync_of(body: &[u8]) -> Result<Body<'_>, Malformed>
    ensures { ReadsBody opcodes.fuse_fsync body.now result }
{
    if body.len() != FSYNC_IN {
        return Err(Malformed::BodyLength);
    }
    let fh = u64_at(body, 0);
    let fsync_flags = u32_at(body, 8);
    Ok(Body::Fsync { fh, fsync_flags })
}

// A name, and a value of this size that ends the body.
fn named_value(bytes: &[u8], size: u32) -> Result<(&[u8], &[u8]), Malformed>
    ensures { GivesValue size bytes.now result }
{
    names_end();
    let mut fields = Fields::new(bytes);
    let Some(name) = fields.until_nul() else {
        return Err(Malformed::NoNul);
    };
    let value = fields.rest();
    if value.len() != size as usize {
        return Err(Malformed::CountDiffers);
    }
    Ok((name, value))
}

fn setxattr_of(body: &[u8]) -> Result<Body<'_>, Malformed>
    ensures { ReadsBody opcodes.fuse_setxattr body.now result }
{
    if body.len() < SETXATTR_IN {
        return Err(Malformed::BodyLength);
    }
    let (_fixed, rest) = body.split_at(SETXATTR_IN);
    let size = u32_at(body, 0);
    let flags = u32_at(body, 4);
    let named = named_value(rest, size)?;
    let (name, value) = named;
    Ok(Body::Setxattr { flags, name, value })
}

fn getxattr_of(body: &[u8]) -> Result<Body<'_>, Malformed>
    ensures { ReadsBody opcodes.fuse_getxattr body.now result }
{
    if body.len() < GETXATTR_IN {
        return Err(Malformed::BodyLength);
    }
    let (_fixed, rest) = body.split_at(GETXATTR_IN);
    let size = u32_at(body, 0);
    let name = last_name(rest)?;
    Ok(Body::Getxattr { size, name })
}

fn listxattr_of(body: &[u8]) -> Result<Body<'_>, Malformed>
    ensures { ReadsBody opcodes.fuse_listxattr body.now result }
{
    if body.len() != GETXATTR_IN {
        return Err(Malformed::BodyLength);
    }
    let size = u32_at(body, 0);
    Ok(Body::Listxattr { size })
}

fn removexattr_of(body: &[u8]) -> Result<Body<'_>, Malformed>
    ensures { ReadsBody opcodes.fuse_removexattr body.now result }
{
    let name = last_name(body)?;
    Ok(Body::Removexattr { name })
}

fn flush_of(body: &[u8]) -> Result<Body<'_>, Malformed>
    ensures { ReadsBody opcodes.fuse_flush body.now result }
{
    if body.len() != FLUSH_IN {
        return Err(Malformed::BodyLength);
    }
    let fh = u64_at(body, 0);
    let lock_owner = u64_at(body, 16);
    Ok(Body::Flush { fh, lock_owner })
}

fn fsyncdir_of(body: &[u8]) -> Result<Body<'_>, Malformed>
    ensures { ReadsBody opcodes.fuse_fsyncdir body.now result }
{
    if body.len() != FSYNC_IN {
        return Err(Malformed::BodyLength);
    }
    let fh = u64_at(body, 0);
    let fsync_flags = u32_at(body, 8);
    Ok(Body::FsyncDir { fh, fsync_flags })
}

fn access_of(body: &[u8]) -> Result<Body<'_>, Malformed>
    ensures { ReadsBody opcodes.fuse_access body.now result }
{
    if body.len() != ACCESS_IN {
        return Err(Malformed::BodyLength);
    }
    let mask = u32_at(body, 0);
    Ok(Body::Access { mask })
}

fn create_of(body: &[u8]) -> Result<Body<'_>, Malformed>
    ensures { ReadsBody opcodes.fuse_create body.now result }
{
    if body.len() < CREATE_IN {
        return Err(Malformed::BodyLength);
    }
    let (_fixed, rest) = body.split_at(CREATE_IN);
    let flags = u32_at(body, 0);
    let mode = u32_at(body, 4);
    let umask = u32_at(body, 8);
    let open_flags = u32_at(body, 12);
    let name = last_name(rest)?;
    Ok(Body::Create {
        flags,
        mode,
        umask,
        open_flags,
        name,
    })
}

fn fallocate_of(body: &[u8]) -> Result<Body<'_>, Malformed>
    ensures { ReadsBody opcodes.fuse_fallocate body.now result }
{
    if body.len() != FALLOCATE_IN {
        return Err(Malformed::BodyLength);
    }
    let fh = u64_at(body, 0);
    let offset = u64_at(body, 8);
    let len = u64_at(body, 16);
    let mode = u32_at(body, 24);
    Ok(Body::Fallocate {
        fh,
        offset,
        len,
        mode,
    })
}

fn read_dir_plus_of(body: &[u8]) -> Result<Body<'_>, Malformed>
    ensures { ReadsBody opcodes.fuse_readdirplus body.now result }
{
    if body.len() != READ_IN {
        return Err(Malformed::BodyLength);
    }
    Ok(Body::ReadDirPlus(read_at(body)))
}

fn lseek_of(body: &[u8]) -> Result<Body<'_>, Malformed>
    ensures { ReadsBody opcodes.fuse_lseek body.now result }
{
    if body.len() != LSEEK_IN {
        return Err(Malformed::BodyLength);
    }
    let fh = u64_at(body, 0);
    let offset = u64_at(body, 8);
    let whence = u32_at(body, 16);
    Ok(Body::Lseek { fh, offset, whence })
}

fn copy_file_range_at(body: &[u8]) -> CopyFileRangeIn
    requires { length body.now ≡ COPY_FILE_RANGE_IN }
    ensures { result ≡ further.copy_file_range_at body.now }
{
    CopyFileRangeIn {
        fh_in: u64_at(body, 0),
        off_in: u64_at(body, 8),
        nodeid_out: u64_at(body, 16),
        fh_out: u64_at(body, 24),
        off_out: u64_at(body, 32),
        len: u64_at(body, 40),
        flags: u64_at(body, 48),
    }
}

fn copy_file_range_of(body: &[u8]) -> Result<Body<'_>, Malformed>
    ensures { ReadsBody opcodes.fuse_copy_file_range body.now result }
{
    if body.len() != COPY_FILE_RANGE_IN {
        return Err(Malformed::BodyLength);
    }
    Ok(Body::CopyFileRange(copy_file_range_at(body)))
}

// The body of a message of this opcode; none of an opcode whose bodies aren't read here.
fn body_of(opcode: u32, body: &[u8]) -> Result<Option<Body<'_>>, Malformed>
    ensures { ReadsAny opcode body.now result }
{
    let read = match opcode {
        READLINK => readlink_of(body),
        SYMLINK => symlink_of(body),
        LINK => link_of(body),
        STATFS => statfs_of(body),
        FSYNC => fsync_of(body),
        SETXATTR => setxattr_of(body),
        GETXATTR => getxattr_of(body),
        LISTXATTR => listxattr_of(body),
        REMOVEXATTR => removexattr_of(body),
        FLUSH => flush_of(body),
        FSYNCDIR => fsyncdir_of(body),
        ACCESS => access_of(body),
        CREATE => create_of(body),
        FALLOCATE => fallocate_of(body),
        READDIRPLUS => read_dir_plus_of(body),
        LSEEK => lseek_of(body),
        COPY_FILE_RANGE => copy_file_range_of(body),
        _ => return Ok(None),
    };
    match read {
        Ok(x) => Ok(Some(x)),
        Err(fault) => Err(fault),
    }
}

/// Reads the body of a request that `decode` returns as `Op::Further`: what it spells, or the
/// first of its faults. None for an opcode whose bodies this crate doesn't read. Takes no memory.
pub fn decode_body(opcode: u32, body: &[u8]) -> Result<Option<Body<'_>>, Malformed>
    // What is read is spelled so.
    ensures found { IfOk result (λ o. IfSome o (λ x.
        SpellsBody opcode (further.further_content x) body.now)) }
    // What is spelled is read.
    ensures only { (v : FurtherContent) → SpellsBody opcode v body.now
        → IsOkAnd result (λ o. IsSomeAnd o (λ x. further.further_content x ≡ v)) }

    // It is what stands at the places of the opcode.
    ensures placed { IfOk result (λ o.
        option_map (λ x. further.further_content x) o ≡ further.further_content_at opcode body.now) }

    // Which fault it is. There is none exactly where a body is spelled or the opcode isn't read.
    ensures fault { result_err result ≡ further.further_fault opcode body.now }

    // Which opcodes are read.
    ensures read { IfOk result (λ o. is_some o ≡ further.is_further opcode) }
{
    layouts_stand();
    names_end();
    body_of(opcode, body)
}
