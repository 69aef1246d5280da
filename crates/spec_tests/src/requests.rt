//! The requests of the cases as values.
use fuse_request::{InHeader, Op, Request};

/// A request on a node, with the uid, gid and pid of the cases.
pub(crate) fn request(unique: u64, nodeid: u64, op: Op<'_>) -> Request<'_> {
    let header = InHeader {
        unique,
        nodeid,
        uid: 1000,
        gid: 1000,
        pid: 77,
    };
    Request {
        header,
        op,
        ext: &[],
    }
}

/// MKDIR of a name in the root.
pub(crate) fn mkdir(unique: u64, name: &[u8]) -> Request<'_> {
    let op = Op::Mkdir {
        mode: 0o755,
        umask: 0o022,
        name,
    };
    request(unique, 1, op)
}
