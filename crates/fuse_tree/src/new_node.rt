use fuse_wire::Moment;

/// The initial attributes of a new node.
#[derive(Clone, Copy)]
pub struct NewNode {
    pub mode: u32,
    pub uid: u32,
    pub gid: u32,
    pub rdev: u32,
    pub made: Moment,
}
