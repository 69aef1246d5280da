// Notes for the record.
ghost use Rattle.std.specs.Prelude.{◌≡◌, List, [], ◌∷◌, ◌++◌};
ghost use Rattle.guest_talk.specs.Events as events;

use crate::record::Record;
use fuse_guest::TalkFault;
use fuse_request::Request;
use fuse_wire::Moment;
use guest_frames::GuestFault;

pub(crate) fn note_frame(log: &mut Record, kind: u32, payload: &[u8])
    ensures { log.new.events
        ≡ log.old.events ++ events.event_of (kind ∷ []) payload.now ∷ [] }
{
    log.note(&[u64::from(kind)], payload);
}

fn numbers_of(fault: GuestFault) -> (u64, u64)
    ensures { events.bad_frame_numbers fault ≡ result.0 ∷ result.1 ∷ [] }
{
    match fault {
        GuestFault::Length(len) => (100, u64::from(len)),
        GuestFault::NotDue(kind) => (101, u64::from(kind)),
        GuestFault::Malformed(kind) => (102, u64::from(kind.number())),
        GuestFault::Key(len) => (103, u64::from(len)),
        GuestFault::Value(len) => (104, u64::from(len)),
        GuestFault::TooMany(kind) => (105, u64::from(kind.number())),
        GuestFault::Version(version) => (106, u64::from(version)),
        GuestFault::CannotBeSeen(opcode) => (107, u64::from(opcode)),
        GuestFault::Error(errno) => (108, u64::from(errno)),
        GuestFault::ErrorWithChanges => (109, 0),
        GuestFault::Change(what) => (110, u64::from(what)),
        GuestFault::Body(len) => (111, u64::from(len)),
    }
}

fn note_bad_frame(log: &mut Record, fault: GuestFault)
    ensures { log.new.events
        ≡ log.old.events ++ events.event_of (events.bad_frame_numbers fault) [] ∷ [] }
{
    let (number, said) = numbers_of(fault);
    log.note(&[number, said], &[]);
}

pub(crate) fn note_fault(log: &mut Record, fault: TalkFault)
    ensures { log.new.events ≡ log.old.events ++ events.fault_event fault ∷ [] }
{
    match fault {
        TalkFault::Ended => log.note(&[112, 0], &[]),
        TalkFault::Hangs => log.note(&[113, 0], &[]),
        TalkFault::Frame(fault) => note_bad_frame(log, fault),
        TalkFault::ChangesOf(opcode) => log.note(&[114, u64::from(opcode)], &[]),
        TalkFault::Body { len, opcode } => log.note(&[115, len, u64::from(opcode)], &[]),
        TalkFault::BadBody(opcode) => log.note(&[116, u64::from(opcode)], &[]),
        TalkFault::TooManyFrames => log.note(&[117, 0], &[]),
    }
}

/// Notes what is said of a request. No message is made for it.
pub(crate) fn note_request(log: &mut Record, _request: &Request<'_>, _now: Moment, _count: u32)
    ghost more: { List events.Event }
    ensures { log.new.events ≡ log.old.events ++ more }
{
    log.note_all();
}
