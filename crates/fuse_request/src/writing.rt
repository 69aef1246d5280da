// Writing the body of a request, by the fields of its struct in `fuse.h`.
ghost use Rattle.std.specs.Prelude.{◌≤◌, length};
ghost use Rattle.fuse_wire.specs.Bounds.{max_message_len};
ghost use Rattle.fuse_wire.specs.Layout.{widths};
ghost use Rattle.fuse_wire.specs.Written.{Puts};
ghost use Rattle.fuse_request.specs.Act.{act};
ghost use Rattle.fuse_request.specs.Act as acts;
ghost use Rattle.fuse_request.specs.inner.Writing.{EndsWithName};
ghost use Rattle.fuse_request.specs.Spelling.{parts};

use crate::lengths::FORGET_ONE;
use crate::request::{InitIn, Op, ReadIn, ReleaseIn, SetattrIn};
use fuse_wire::Field::{Bytes, Name, U32, U64, Unused};
use fuse_wire::{Field, Memory, put_fields};

fn put_setattr(out: &mut Vec<u8>, x: &SetattrIn) -> Result<(), Memory>
    ensures { Puts (parts (acts.Setattr x.now)) out.old.items out.new.items result }
{
    put_fields(
        out,
        &[
            U32(x.valid),
            Unused(4),
            U64(x.fh),
            U64(x.size),
            U64(x.lock_owner),
            U64(x.atime),
            U64(x.mtime),
            U64(x.ctime),
            U32(x.atimensec),
            U32(x.mtimensec),
            U32(x.ctimensec),
            U32(x.mode),
            Unused(4),
            U32(x.uid),
            U32(x.gid),
            Unused(4),
        ],
    )
}

fn put_read(out: &mut Vec<u8>, x: &ReadIn) -> Result<(), Memory>
    ensures { Puts (parts (acts.Read x.now)) out.old.items out.new.items result }
{
    put_fields(
        out,
        &[
            U64(x.fh),
            U64(x.offset),
            U32(x.size),
            U32(x.read_flags),
            U64(x.lock_owner),
            U32(x.flags),
            Unused(4),
        ],
    )
}

fn put_release(out: &mut Vec<u8>, x: &ReleaseIn) -> Result<(), Memory>
    ensures { Puts (parts (acts.Release x.now)) out.old.items out.new.items result }
{
    put_fields(
        out,
        &[
            U64(x.fh),
            U32(x.flags),
            U32(x.release_flags),
            U64(x.lock_owner),
        ],
    )
}

// Appends the body of INIT, which has its last two fields from version 7.36 on.
fn put_init(out: &mut Vec<u8>, x: &InitIn) -> Result<(), Memory>
    ensures { Puts (parts (acts.Init x.now)) out.old.items out.new.items result }
{
    let major = U32(x.major);
    let minor = U32(x.minor);
    let max_readahead = U32(x.max_readahead);
    let flags = U32(x.flags);
    match x.flags2 {
        None => put_fields(out, &[major, minor, max_readahead, flags]),
        Some(flags2) => put_fields(
            out,
            &[major, minor, max_readahead, flags, U32(flags2), Unused(44)],
        ),
    }
}

// Appends the body of a request that ends with a name.
fn put_named(out: &mut Vec<u8>, op: &Op<'_>) -> Result<(), Memory>
    requires { EndsWithName (act op.now) }
    ensures { Puts (parts (act op.now)) out.old.items out.new.items result }
{
    match *op {
        Op::Lookup { name } | Op::Unlink { name } | Op::Rmdir { name } => {
            put_fields(out, &[Name(name)])
        }
        Op::Mknod {
            mode,
            rdev,
            umask,
            name,
        } => put_fields(
            out,
            &[U32(mode), U32(rdev), U32(umask), Unused(4), Name(name)],
        ),
        Op::Mkdir { mode, umask, name } => put_fields(out, &[U32(mode), U32(umask), Name(name)]),
        Op::Rename {
            new_dir,
            old_name,
            new_name,
        } => put_fields(out, &[U64(new_dir), Name(old_name), Name(new_name)]),
        Op::Rename2 {
            new_dir,
            flags,
            old_name,
            new_name,
        } => put_fields(
            out,
            &[
                U64(new_dir),
                U32(flags),
                Unused(4),
                Name(old_name),
                Name(new_name),
            ],
        ),
        _ => unreachable!(),
    }
}

// Appends the body of WRITE.
fn put_write(
    out: &mut Vec<u8>,
    fh: u64,
    offset: u64,
    write_flags: u32,
    lock_owner: u64,
    flags: u32,
    payload: &[u8],
) -> Result<(), Memory>
    requires { length payload.now ≤ max_message_len }
    ensures { Puts (parts (acts.Write fh offset write_flags lock_owner flags payload.now))
        out.old.items out.new.items result }
{
    put_fields(
        out,
        &[
            U64(fh),
            U64(offset),
            U32(payload.len() as u32),
            U32(write_flags),
            U64(lock_owner),
            U32(flags),
            Unused(4),
            Bytes(payload),
        ],
    )
}

/// Appends the body of a request. An `Err` leaves `out` unchanged.
pub(crate) fn put_body(out: &mut Vec<u8>, op: &Op<'_>) -> Result<(), Memory>
    requires short { widths (parts (act op.now)) ≤ max_message_len }
    ensures { Puts (parts (act op.now)) out.old.items out.new.items result }
{
    match *op {
        Op::Lookup { .. }
        | Op::Mknod { .. }
        | Op::Mkdir { .. }
        | Op::Unlink { .. }
        | Op::Rmdir { .. }
        | Op::Rename { .. }
        | Op::Rename2 { .. } => put_named(out, op),
        Op::Forget { nlookup } => put_fields(out, &[U64(nlookup)]),
        Op::Getattr { flags, fh } => put_fields(out, &[U32(flags), Unused(4), U64(fh)]),
        Op::Setattr(x) => put_setattr(out, &x),
        Op::OpenFile { flags, open_flags } | Op::OpenDir { flags, open_flags } => {
            put_fields(out, &[U32(flags), U32(open_flags)])
        }
        Op::Read(x) | Op::ReadDir(x) => put_read(out, &x),
        Op::Write {
            fh,
            offset,
            write_flags,
            lock_owner,
            flags,
            payload,
        } => put_write(out, fh, offset, write_flags, lock_owner, flags, payload),
        Op::Release(x) | Op::ReleaseDir(x) => put_release(out, &x),
        Op::Init(x) => put_init(out, &x),
        Op::Interrupt { unique } => put_fields(out, &[U64(unique)]),
        Op::Destroy => Ok(()),
        Op::BatchForget { items } => {
            let count = (items.len() / FORGET_ONE) as u32;
            put_fields(out, &[U32(count), Unused(4), Bytes(items)])
        }
        Op::Further { body, .. } => put_fields(out, &[Bytes(body)]),
    }
}
