//! Requests to a tree.
use fuse_request::{InHeader, Op, Request};

/// A request with the uid, gid and pid of the cases.
pub(crate) fn request_of(nodeid: u64, op: Op<'_>) -> Request<'_> {
    let header = InHeader {
        unique: 6,
        nodeid,
        uid: 1000,
        gid: 1000,
        pid: 77,
    };
    Request {
        header,
        op,
        ext: b"",
    }
}
