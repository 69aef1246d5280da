// A group, read off the messages that wait.
ghost use Rattle.std.specs.Prelude.{◌≡◌, ◌≤◌, ◌==◌, ◌++◌, List, length, take, drop, All, IfOk};
ghost use Rattle.fuse_wire.specs.declared.moment.Moment.{Moment as MomentValue};
ghost use Rattle.fuse_request.specs.Stream.{IsMessage};
ghost use Rattle.fuse_request.specs.Classes.{class_for};
ghost use Rattle.fuse_request.specs.Header.{raw_of};
ghost use Rattle.fuse_request.specs.Opcodes.{Service};
ghost use Rattle.fuse_keeper.specs.Group.{entries_of, HasId, IsPerformed};
ghost use Rattle.fuse_keeper.specs.declared.keeper.TheConstants.{MAX_GROUP as max_group};
ghost use Rattle.fuse_session.specs.Grouping.{one_group, groups_of, asked_in};
ghost use Rattle.fuse_session.specs.Processed.{performed_if, message_entry, moment_if, destroys_by};
ghost use Rattle.fuse_session.specs.inner.Group.{Gathers, IsStuck, as_list, classes_in};

use crate::clock::Clock;
use bytes::Bytes;
use fuse_keeper::{Keeper, MAX_GROUP, classify};
use fuse_request::opcode::DESTROY;
use fuse_request::{Class, Request, decode, has_zero_unique, header_of};
use fuse_wire::Moment;
use std::alloc::{AllocError, Global};

/// A group read off the first messages: the class of each of them, and the requests of the kept and
/// the seen ones. `ends` says that the last of them is a kept DESTROY.
#[derive(Drop)]
pub(crate) struct Gathered<'a> {
    pub(crate) classes: Vec<Class>,
    pub(crate) taken: Vec<(Request<'a>, Moment)>,
    pub(crate) ends: bool,
}

/// Whether a message has this opcode.
pub(crate) fn has_opcode(message: &[u8], opcode: u32) -> bool
    requires { IsMessage message.now }
    ensures { result ≡ ((raw_of message.now).opcode == opcode) }
{
    match header_of(message) {
        Some(header) => header.opcode == opcode,
        None => false,
    }
}

// The request of a message of this class, and its moment: only a kept or a seen one has it.
fn read_one<'a, C: Clock>(
    clock: &mut C,
    message: &'a [u8],
    class: Class,
) -> Option<(Request<'a>, Moment)>
    ghost service: { Service }
    requires message { IsMessage message.now }
    requires class { class ≡ class_for service message.now }
    ensures entry { (t : MomentValue) × (entries_of (as_list result)
        ≡ performed_if (class_for service message.now) (message_entry message.now t))
        × C.gave clock.old clock.new (moment_if (class_for service message.now) t) }
    ensures kept { All (IsPerformed service) (entries_of (as_list result)) }
{
    match class {
        Class::Kept | Class::Seen => match decode(message) {
            Ok(request) => Some((request, clock.now())),
            Err(_) => None,
        },
        Class::Silent => None,
        Class::Bare(_) => None,
    }
}

// Whether a message of this class is a kept DESTROY.
fn is_kept_destroy(message: &[u8], class: Class) -> bool
    requires { IsMessage message.now }
    ensures { result ≡ destroys_by class (raw_of message.now).opcode }
{
    match class {
        Class::Kept => has_opcode(message, DESTROY),
        Class::Silent | Class::Bare(_) | Class::Seen => false,
    }
}

/// Reads a group off the first messages: at most 16 kept and seen ones, up to one that is zero, and
/// none after a kept DESTROY.
pub(crate) fn gather<'a, K: Keeper, C: Clock>(
    alloc: Global,
    keeper: &K,
    clock: &mut C,
    messages: &'a [Bytes],
) -> Result<Gathered<'a>, AllocError>
    ghost service: { Service }
    requires serves { (K.told keeper.now).service ≡ service }
    requires messages { All IsMessage messages.now }
    ensures within { IfOk result (λ r. length r.classes.items ≤ length messages.now) }
    ensures classes { IfOk result (λ r.
        r.classes.items ≡ classes_in service (take (length r.classes.items) messages.now)) }
    ensures gathers { IfOk result (λ r. Gathers service (C.gave clock.old clock.new)
        (take (length r.classes.items) messages.now) r.taken.items r.ends) }
    ensures few { IfOk result (λ r. length r.taken.items ≤ max_group) }
    ensures named { IfOk result (λ r. All HasId (entries_of r.taken.items)) }
    ensures kept { IfOk result (λ r. All (IsPerformed service) (entries_of r.taken.items)) }
    ensures stuck { IfOk result (λ r. length r.classes.items ≡ 0 → IsStuck messages.now) }
    ensures groups { IfOk result (λ r. groups_of service messages.now
        ≡ one_group (asked_in (entries_of r.taken.items))
        ++ groups_of service (drop (length r.classes.items) messages.now)) }
    ensures logged { (given : List MomentValue) × C.gave clock.old clock.new given }
{
    let mut classes = Vec::new(alloc);
    let mut taken = Vec::new(alloc);
    for message in messages {
        let bytes = message.as_slice();
        if taken.len() >= MAX_GROUP || has_zero_unique(bytes) {
            return Ok(Gathered {
                classes,
                taken,
                ends: false,
            });
        }
        let class = classify(keeper, bytes);
        classes.push(class)?;
        if let Some(one) = read_one(clock, bytes, class) {
            let ends = is_kept_destroy(bytes, class);
            taken.push(one)?;
            if ends {
                return Ok(Gathered {
                    classes,
                    taken,
                    ends,
                });
            }
        }
    }
    Ok(Gathered {
        classes,
        taken,
        ends: false,
    })
}
