//! Calls of a `Kernel` whose conditions hold.
use super::*;
use fuse_request::{Request, encode};
use fuse_sim::Kernel;
use fuse_wire::Id;

/// Why a request was not sent.
#[derive(Clone, Copy, Debug)]
pub enum Unsent {
    /// It may not be sent.
    MayNotBe,
    /// Out of memory for that test.
    Untested,
    /// Out of memory for sending.
    Memory,
}

/// Sends a request, if it may be sent.
pub(crate) fn send(
    alloc: Global,
    kernel: &mut Kernel,
    request: &Request<'_>,
) -> Result<Vec<u8>, Unsent> {
    let id = Id::of(request.header.unique);
    if !request.is_sayable() || id.0 == 0 || kernel.awaits(id) {
        return Err(Unsent::MayNotBe);
    }
    let mut scratch = Vec::new(alloc);
    if encode(request, &mut scratch).is_err() {
        return Err(Unsent::Untested);
    }
    match kernel.send(request) {
        Ok(message) => Ok(message),
        Err(_) => Err(Unsent::Memory),
    }
}

/// Resends the requests at these places, if they exist.
pub(crate) fn resend(kernel: &mut Kernel, order: &[usize]) -> Result<Vec<Vec<u8>>, Unsent> {
    let count = kernel.pending().len();
    if !order.iter().all(|place| *place < count) {
        return Err(Unsent::MayNotBe);
    }
    match kernel.resend(order) {
        Ok(messages) => Ok(messages),
        Err(_) => Err(Unsent::Memory),
    }
}

/// Sends requests, one after another.
pub(crate) fn send_all(
    alloc: Global,
    kernel: &mut Kernel,
    requests: &[Request<'_>],
) -> Result<Vec<Vec<u8>>, Unsent> {
    let mut messages = Vec::new(alloc);
    for request in requests {
        let message = send(alloc, kernel, request)?;
        if messages.push(message).is_err() {
            return Err(Unsent::Memory);
        }
    }
    Ok(messages)
}
