ghost use Rattle.std.specs.Prelude.{◌≡◌};
ghost use Rattle.fuse_request.specs.Act.{act, opcode_of};

use crate::opcode::{
    BATCH_FORGET, DESTROY, FORGET, GETATTR, INIT, INTERRUPT, LOOKUP, MKDIR, MKNOD, OPEN, OPENDIR,
    READ, READDIR, RELEASE, RELEASEDIR, RENAME, RENAME2, RMDIR, SETATTR, UNLINK, WRITE,
};

/// The header of a request without its length and its opcode.
#[derive(Clone, Copy, Debug, PartialEq, Eq)]
pub struct InHeader {
    pub unique: u64,
    pub nodeid: u64,
    pub uid: u32,
    pub gid: u32,
    pub pid: u32,
}

/// `fuse_setattr_in` of `fuse.h`.
#[derive(Clone, Copy, Debug, PartialEq, Eq)]
pub struct SetattrIn {
    pub valid: u32,
    pub fh: u64,
    pub size: u64,
    pub lock_owner: u64,
    pub atime: u64,
    pub mtime: u64,
    pub ctime: u64,
    pub atimensec: u32,
    pub mtimensec: u32,
    pub ctimensec: u32,
    pub mode: u32,
    pub uid: u32,
    pub gid: u32,
}

/// `fuse_read_in` of `fuse.h`, of READ and of READDIR.
#[derive(Clone, Copy, Debug, PartialEq, Eq)]
pub struct ReadIn {
    pub fh: u64,
    pub offset: u64,
    pub size: u32,
    pub read_flags: u32,
    pub lock_owner: u64,
    pub flags: u32,
}

/// `fuse_release_in` of `fuse.h`, of RELEASE and of RELEASEDIR.
#[derive(Clone, Copy, Debug, PartialEq, Eq)]
pub struct ReleaseIn {
    pub fh: u64,
    pub flags: u32,
    pub release_flags: u32,
    pub lock_owner: u64,
}

/// `fuse_init_in` of `fuse.h`. Up to version 7.35 it ends before `flags2`.
#[derive(Clone, Copy, Debug, PartialEq, Eq)]
pub struct InitIn {
    pub major: u32,
    pub minor: u32,
    pub max_readahead: u32,
    pub flags: u32,
    pub flags2: Option<u32>,
}

/// What a request asks for, with the fields of `fuse.h`. Names and bodies lie in the message.
#[derive(Clone, Copy, Debug)]
pub enum Op<'a> {
    Lookup {
        name: &'a [u8],
    },
    Forget {
        nlookup: u64,
    },
    Getattr {
        flags: u32,
        fh: u64,
    },
    Setattr(SetattrIn),
    Mknod {
        mode: u32,
        rdev: u32,
        umask: u32,
        name: &'a [u8],
    },
    Mkdir {
        mode: u32,
        umask: u32,
        name: &'a [u8],
    },
    Unlink {
        name: &'a [u8],
    },
    Rmdir {
        name: &'a [u8],
    },
    Rename {
        new_dir: u64,
        old_name: &'a [u8],
        new_name: &'a [u8],
    },
    OpenFile {
        flags: u32,
        open_flags: u32,
    },
    Read(ReadIn),
    Write {
        fh: u64,
        offset: u64,
        write_flags: u32,
        lock_owner: u64,
        flags: u32,
        payload: &'a [u8],
    },
    Release(ReleaseIn),
    Init(InitIn),
    OpenDir {
        flags: u32,
        open_flags: u32,
    },
    ReadDir(ReadIn),
    ReleaseDir(ReleaseIn),
    Interrupt {
        unique: u64,
    },
    Destroy,
    /// `items` holds a node and a count of 8 bytes each for each one forgotten.
    BatchForget {
        items: &'a [u8],
    },
    Rename2 {
        new_dir: u64,
        flags: u32,
        old_name: &'a [u8],
        new_name: &'a [u8],
    },
    /// An opcode outside the profile. A file system may serve it.
    Further {
        opcode: u32,
        body: &'a [u8],
    },
}

impl Op<'_> {
    /// The number of its opcode.
    pub fn opcode(&self) -> u32
        ensures { result ≡ opcode_of (act self.now) }
    {
        match *self {
            Op::Lookup { .. } => LOOKUP,
            Op::Forget { .. } => FORGET,
            Op::Getattr { .. } => GETATTR,
            Op::Setattr(_) => SETATTR,
            Op::Mknod { .. } => MKNOD,
            Op::Mkdir { .. } => MKDIR,
            Op::Unlink { .. } => UNLINK,
            Op::Rmdir { .. } => RMDIR,
            Op::Rename { .. } => RENAME,
            Op::OpenFile { .. } => OPEN,
            Op::Read(_) => READ,
            Op::Write { .. } => WRITE,
            Op::Release(_) => RELEASE,
            Op::Init(_) => INIT,
            Op::OpenDir { .. } => OPENDIR,
            Op::ReadDir(_) => READDIR,
            Op::ReleaseDir(_) => RELEASEDIR,
            Op::Interrupt { .. } => INTERRUPT,
            Op::Destroy => DESTROY,
            Op::BatchForget { .. } => BATCH_FORGET,
            Op::Rename2 { .. } => RENAME2,
            Op::Further { opcode, .. } => opcode,
        }
    }
}

/// A request, as it lies in the bytes of a message.
#[derive(Clone, Copy, Debug)]
pub struct Request<'a> {
    pub header: InHeader,
    pub op: Op<'a>,
    /// The extensions, which are not interpreted.
    pub ext: &'a [u8],
}
