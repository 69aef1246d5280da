// Reading the body of a message: numbers by their places, names by their NUL.
ghost use Rattle.std.specs.Prelude.{◌≡◌, ◌≤◌, length};
ghost use Rattle.fuse_wire.specs.Opcodes as opcodes;
ghost use Rattle.fuse_request.specs.Lengths as lengths;
ghost use Rattle.fuse_request.specs.Places as places;
ghost use Rattle.fuse_request.specs.inner.Readers.{GivesLastName, GivesTwoNames, ReadsOp};

use crate::decoding::Malformed;
use crate::lengths::{
    BATCH_FORGET_IN, COMPAT_INIT_IN, FORGET_IN, FORGET_ONE, GETATTR_IN, INIT_IN, INTERRUPT_IN,
    MKDIR_IN, MKNOD_IN, OPEN_IN, READ_IN, RELEASE_IN, RENAME_IN, RENAME2_IN, SETATTR_IN, WRITE_IN,
};
use crate::opcode::{
    BATCH_FORGET, DESTROY, FORGET, GETATTR, INIT, INTERRUPT, LOOKUP, MKDIR, MKNOD, OPEN, OPENDIR,
    READ, READDIR, RELEASE, RELEASEDIR, RENAME, RENAME2, RMDIR, SETATTR, UNLINK, WRITE,
};
use crate::request::{InitIn, Op, ReadIn, ReleaseIn, SetattrIn};
use fuse_wire::{Fields, names_end, u32_at, u64_at};

// A name that is the last of its body.
#[tactic(auto, using(crate::proofs::BodyFaults::endless, crate::proofs::BodyFaults::not_all))]
pub(crate) fn last_name(bytes: &[u8]) -> Result<&[u8], Malformed>
    ensures { GivesLastName bytes.now result }
{
    names_end();
    let mut fields = Fields::new(bytes);
    let Some(name) = fields.until_nul() else {
        return Err(Malformed::NoNul);
    };
    if !fields.rest().is_empty() {
        return Err(Malformed::AfterNul);
    }
    Ok(name)
}

// Two names that are the last of their body.
#[tactic(auto, using(crate::proofs::BodyFaults::endless_first, crate::proofs::BodyFaults::after_first))]
pub(crate) fn two_names(bytes: &[u8]) -> Result<(&[u8], &[u8]), Malformed>
    ensures { GivesTwoNames bytes.now result }
{
    names_end();
    let mut fields = Fields::new(bytes);
    let Some(old_name) = fields.until_nul() else {
        return Err(Malformed::NoNul);
    };
    let new_name = last_name(fields.rest())?;
    Ok((old_name, new_name))
}

fn lookup_of(body: &[u8]) -> Result<Op<'_>, Malformed>
    ensures { ReadsOp opcodes.fuse_lookup body.now result }
{
    let name = last_name(body)?;
    Ok(Op::Lookup { name })
}

fn forget_of(body: &[u8]) -> Result<Op<'_>, Malformed>
    ensures { ReadsOp opcodes.fuse_forget body.now result }
{
    if body.len() != FORGET_IN {
        return Err(Malformed::BodyLength);
    }
    let nlookup = u64_at(body, 0);
    Ok(Op::Forget { nlookup })
}

fn getattr_of(body: &[u8]) -> Result<Op<'_>, Malformed>
    ensures { ReadsOp opcodes.fuse_getattr body.now result }
{
    if body.len() != GETATTR_IN {
        return Err(Malformed::BodyLength);
    }
    let flags = u32_at(body, 0);
    let fh = u64_at(body, 8);
    Ok(Op::Getattr { flags, fh })
}

fn setattr_at(body: &[u8]) -> SetattrIn
    requires { length body.now ≡ lengths.setattr_in_size }
    ensures { result ≡ places.setattr_at body.now }
{
    SetattrIn {
        valid: u32_at(body, 0),
        fh: u64_at(body, 8),
        size: u64_at(body, 16),
        lock_owner: u64_at(body, 24),
        atime: u64_at(body, 32),
        mtime: u64_at(body, 40),
        ctime: u64_at(body, 48),
        atimensec: u32_at(body, 56),
        mtimensec: u32_at(body, 60),
        ctimensec: u32_at(body, 64),
        mode: u32_at(body, 68),
        uid: u32_at(body, 76),
        gid: u32_at(body, 80),
    }
}

fn setattr_of(body: &[u8]) -> Result<Op<'_>, Malformed>
    ensures { ReadsOp opcodes.fuse_setattr body.now result }
{
    if body.len() != SETATTR_IN {
        return Err(Malformed::BodyLength);
    }
    Ok(Op::Setattr(setattr_at(body)))
}

fn mknod_of(body: &[u8]) -> Result<Op<'_>, Malformed>
    ensures { ReadsOp opcodes.fuse_mknod body.now result }
{
    if body.len() < MKNOD_IN {
        return Err(Malformed::BodyLength);
    }
    let (_fixed, rest) = body.split_at(MKNOD_IN);
    let mode = u32_at(body, 0);
    let rdev = u32_at(body, 4);
    let umask = u32_at(body, 8);
    let name = last_name(rest)?;
    Ok(Op::Mknod {
        mode,
        rdev,
        umask,
        name,
    })
}

fn mkdir_of(body: &[u8]) -> Result<Op<'_>, Malformed>
    ensures { ReadsOp opcodes.fuse_mkdir body.now result }
{
    if body.len() < MKDIR_IN {
        return Err(Malformed::BodyLength);
    }
    let (_fixed, rest) = body.split_at(MKDIR_IN);
    let mode = u32_at(body, 0);
    let umask = u32_at(body, 4);
    let name = last_name(rest)?;
    Ok(Op::Mkdir { mode, umask, name })
}

fn unlink_of(body: &[u8]) -> Result<Op<'_>, Malformed>
    ensures { ReadsOp opcodes.fuse_unlink body.now result }
{
    let name = last_name(body)?;
    Ok(Op::Unlink { name })
}

fn rmdir_of(body: &[u8]) -> Result<Op<'_>, Malformed>
    ensures { ReadsOp opcodes.fuse_rmdir body.now result }
{
    let name = last_name(body)?;
    Ok(Op::Rmdir { name })
}

fn rename_of(body: &[u8]) -> Result<Op<'_>, Malformed>
    ensures { ReadsOp opcodes.fuse_rename body.now result }
{
    if body.len() < RENAME_IN {
        return Err(Malformed::BodyLength);
    }
    let (_fixed, rest) = body.split_at(RENAME_IN);
    let new_dir = u64_at(body, 0);
    let names = two_names(rest)?;
    let (old_name, new_name) = names;
    Ok(Op::Rename {
        new_dir,
        old_name,
        new_name,
    })
}

fn open_of(body: &[u8]) -> Result<Op<'_>, Malformed>
    ensures { ReadsOp opcodes.fuse_open body.now result }
{
    if body.len() != OPEN_IN {
        return Err(Malformed::BodyLength);
    }
    let flags = u32_at(body, 0);
    let open_flags = u32_at(body, 4);
    Ok(Op::OpenFile { flags, open_flags })
}

pub(crate) fn read_at(body: &[u8]) -> ReadIn
    requires { length body.now ≡ lengths.read_in_size }
    ensures { result ≡ places.read_at body.now }
{
    ReadIn {
        fh: u64_at(body, 0),
        offset: u64_at(body, 8),
        size: u32_at(body, 16),
        read_flags: u32_at(body, 20),
        lock_owner: u64_at(body, 24),
        flags: u32_at(body, 32),
    }
}

fn read_of(body: &[u8]) -> Result<Op<'_>, Malformed>
    ensures { ReadsOp opcodes.fuse_read body.now result }
{
    if body.len() != READ_IN {
        return Err(Malformed::BodyLength);
    }
    Ok(Op::Read(read_at(body)))
}

fn write_of(body: &[u8]) -> Result<Op<'_>, Malformed>
    ensures { ReadsOp opcodes.fuse_write body.now result }
{
    if body.len() < WRITE_IN {
        return Err(Malformed::BodyLength);
    }
    let (_fixed, payload) = body.split_at(WRITE_IN);
    let size = u32_at(body, 16);
    if size as usize != payload.len() {
        return Err(Malformed::CountDiffers);
    }
    let fh = u64_at(body, 0);
    let offset = u64_at(body, 8);
    let write_flags = u32_at(body, 20);
    let lock_owner = u64_at(body, 24);
    let flags = u32_at(body, 32);
    Ok(Op::Write {
        fh,
        offset,
        write_flags,
        lock_owner,
        flags,
        payload,
    })
}

fn release_at(body: &[u8]) -> ReleaseIn
    requires { length body.now ≡ lengths.release_in_size }
    ensures { result ≡ places.release_at body.now }
{
    ReleaseIn {
        fh: u64_at(body, 0),
        flags: u32_at(body, 8),
        release_flags: u32_at(body, 12),
        lock_owner: u64_at(body, 16),
    }
}

fn release_of(body: &[u8]) -> Result<Op<'_>, Malformed>
    ensures { ReadsOp opcodes.fuse_release body.now result }
{
    if body.len() != RELEASE_IN {
        return Err(Malformed::BodyLength);
    }
    Ok(Op::Release(release_at(body)))
}

fn init_with(body: &[u8], flags2: Option<u32>) -> InitIn
    requires { lengths.compat_init_in_size ≤ length body.now }
    ensures { result ≡ places.init_with body.now flags2 }
{
    InitIn {
        major: u32_at(body, 0),
        minor: u32_at(body, 4),
        max_readahead: u32_at(body, 8),
        flags: u32_at(body, 12),
        flags2,
    }
}

fn init_of(body: &[u8]) -> Result<Op<'_>, Malformed>
    ensures { ReadsOp opcodes.fuse_init body.now result }
{
    if body.len() == COMPAT_INIT_IN {
        return Ok(Op::Init(init_with(body, None)));
    }
    if body.len() != INIT_IN {
        return Err(Malformed::BodyLength);
    }
    let flags2 = u32_at(body, 16);
    Ok(Op::Init(init_with(body, Some(flags2))))
}

fn open_dir_of(body: &[u8]) -> Result<Op<'_>, Malformed>
    ensures { ReadsOp opcodes.fuse_opendir body.now result }
{
    if body.len() != OPEN_IN {
        return Err(Malformed::BodyLength);
    }
    let flags = u32_at(body, 0);
    let open_flags = u32_at(body, 4);
    Ok(Op::OpenDir { flags, open_flags })
}

fn read_dir_of(body: &[u8]) -> Result<Op<'_>, Malformed>
    ensures { ReadsOp opcodes.fuse_readdir body.now result }
{
    if body.len() != READ_IN {
        return Err(Malformed::BodyLength);
    }
    Ok(Op::ReadDir(read_at(body)))
}

fn release_dir_of(body: &[u8]) -> Result<Op<'_>, Malformed>
    ensures { ReadsOp opcodes.fuse_releasedir body.now result }
{
    if body.len() != RELEASE_IN {
        return Err(Malformed::BodyLength);
    }
    Ok(Op::ReleaseDir(release_at(body)))
}

fn interrupt_of(body: &[u8]) -> Result<Op<'_>, Malformed>
    ensures { ReadsOp opcodes.fuse_interrupt body.now result }
{
    if body.len() != INTERRUPT_IN {
        return Err(Malformed::BodyLength);
    }
    let unique = u64_at(body, 0);
    Ok(Op::Interrupt { unique })
}

fn destroy_of(body: &[u8]) -> Result<Op<'_>, Malformed>
    ensures { ReadsOp opcodes.fuse_destroy body.now result }
{
    if !body.is_empty() {
        return Err(Malformed::BodyLength);
    }
    Ok(Op::Destroy)
}

fn batch_forget_of(body: &[u8]) -> Result<Op<'_>, Malformed>
    ensures { ReadsOp opcodes.fuse_batch_forget body.now result }
{
    if body.len() < BATCH_FORGET_IN {
        return Err(Malformed::BodyLength);
    }
    let (_fixed, items) = body.split_at(BATCH_FORGET_IN);
    let count = u32_at(body, 0);
    if FORGET_ONE * count as usize != items.len() {
        return Err(Malformed::CountDiffers);
    }
    Ok(Op::BatchForget { items })
}

fn rename2_of(body: &[u8]) -> Result<Op<'_>, Malformed>
    ensures { ReadsOp opcodes.fuse_rename2 body.now result }
{
    if body.len() < RENAME2_IN {
        return Err(Malformed::BodyLength);
    }
    let (_fixed, rest) = body.split_at(RENAME2_IN);
    let new_dir = u64_at(body, 0);
    let flags = u32_at(body, 8);
    let names = two_names(rest)?;
    let (old_name, new_name) = names;
    Ok(Op::Rename2 {
        new_dir,
        flags,
        old_name,
        new_name,
    })
}

// The body of a message of this opcode.
pub(crate) fn op_of(opcode: u32, body: &[u8]) -> Result<Op<'_>, Malformed>
    ensures { ReadsOp opcode body.now result }
{
    match opcode {
        LOOKUP => lookup_of(body),
        FORGET => forget_of(body),
        GETATTR => getattr_of(body),
        SETATTR => setattr_of(body),
        MKNOD => mknod_of(body),
        MKDIR => mkdir_of(body),
        UNLINK => unlink_of(body),
        RMDIR => rmdir_of(body),
        RENAME => rename_of(body),
        OPEN => open_of(body),
        READ => read_of(body),
        WRITE => write_of(body),
        RELEASE => release_of(body),
        INIT => init_of(body),
        OPENDIR => open_dir_of(body),
        READDIR => read_dir_of(body),
        RELEASEDIR => release_dir_of(body),
        INTERRUPT => interrupt_of(body),
        DESTROY => destroy_of(body),
        BATCH_FORGET => batch_forget_of(body),
        RENAME2 => rename2_of(body),
        _ => Ok(Op::Further { opcode, body }),
    }
}
