// The faults that end a session.
use fuse_keeper::StoreFault;

/// A fault that ends a session.
#[derive(Drop)]
pub(crate) enum Fault {
    /// The port failed, or took no byte of the rest of an answer.
    PortFailed,
    /// The keeper returned a fault.
    Store(StoreFault),
    /// Out of memory outside the store.
    Memory,
}
