// A group of events: read off the first ones, and answered.
ghost use Rattle.std.specs.Prelude.{◌≡◌, ◌≤◌, ◌<◌, ◌⊎◌, ◌+◌, ◌++◌, true, false};
ghost use Rattle.std.specs.Prelude.{length, take, drop, Some, All, vec_capacity};
ghost use Rattle.std.specs.Prelude.{IfOk, IfErr, OnOk};
ghost use Rattle.std.specs.Vec.Iter.{into_iter_items};
ghost use Rattle.fuse_answer.specs.Wire.{wire};
ghost use Rattle.fuse_request.specs.Stream.{IsMessage};
ghost use Rattle.fuse_request.specs.Classes.{class_for};
ghost use Rattle.fuse_request.specs.Opcodes.{Service};
ghost use Rattle.fuse_keeper.specs.Model.{serving};
ghost use Rattle.fuse_keeper.specs.Group.{entries_of, IsPerformed, ids_of};
ghost use Rattle.fuse_session.specs.Grouping.{is_performed_class};
ghost use Rattle.fuse_session.specs.Processed.{performed_if, message_entry};
ghost use Rattle.fuse_session.specs.inner.Group.{as_list, left_by};
ghost use Rattle.fuse_sim.specs.Driving.{IsFit, CausedBy, event_of, is_store, dies, dies_before};
ghost use Rattle.fuse_sim.specs.Driving.{bytes_given, settles, settles_in, is_taken};
ghost use Rattle.fuse_sim.specs.inner.Running.{GathersEvents, EndsWith, StopsAt};
ghost use Rattle.fuse_sim.specs.inner.Running.{Joins};
ghost use Rattle.fuse_sim.specs.inner.Running.{classes_of_events};
ghost use Rattle.fuse_sim.specs.inner.Running.{answers_in, head_outcome, outcomes_by, HasAnswers, Adds};

use crate::event::{DriveFault, Event, Fate, Outcome};
use fuse_answer::{Answer, head_of};
use fuse_keeper::{Done, Keeper, MAX_GROUP, classify};
use fuse_request::{Class, Request, decode, has_zero_unique, is_message, one_cut, unique_of};
use fuse_session::performed_have_ids;
use fuse_wire::{Id, Moment};
use std::alloc::{AllocError, Global};
use std::vec::IntoIter;

/// A group of events: the class of each message, and the requests of the kept and the seen ones.
/// `died` says that the server dies after the last of them.
#[derive(Drop)]
pub(crate) struct Group<'a> {
    pub(crate) classes: Vec<Class>,
    pub(crate) taken: Vec<(Request<'a>, Moment)>,
    pub(crate) died: bool,
}

/// Whether an event, of this number, can be run.
pub(crate) fn test_event(event: &Event, number: usize) -> Result<(), DriveFault>
    ensures fit { OnOk result (IsFit event.now) }
    ensures message { OnOk result (IsMessage event.now.bytes) }
    ensures names { IfErr result (λ fault. event_of fault ≡ number) }
    ensures caused { IfErr result (λ fault. CausedBy fault event.now) }
    ensures unfit { IfErr result (λ fault. ¬ IsFit event.now) }
    ensures store { IfErr result (λ fault. is_store fault ≡ false) }
{
    let bytes = event.bytes.as_slice();
    if !is_message(bytes) {
        return Err(DriveFault::NotAMessage { event: number });
    }
    if has_zero_unique(bytes) {
        return Err(DriveFault::ZeroUnique { event: number });
    }
    Ok(())
}

/// Whether the server dies before it commits.
pub(crate) fn is_before_commit(fate: Fate) -> bool
    ensures { result ≡ dies_before fate }
{
    matches!(fate, Fate::DiedBeforeCommit)
}

// Whether the server dies after its commit.
fn is_after_commit(fate: Fate) -> bool
    ensures died { result ≡ true → fate ≡ Fate.DiedAfterCommit }
    ensures dies { dies_before fate ≡ false → dies fate ≡ result }
{
    matches!(fate, Fate::DiedAfterCommit)
}

// Whether an event belongs to no group.
fn stands_apart(event: &Event) -> bool
    ensures apart { result ≡ true → (dies_before event.now.fate ≡ true) ⊎ ¬ IsFit event.now }
    ensures goes { result ≡ false → dies_before event.now.fate ≡ false }
    ensures fit { result ≡ false → IsFit event.now }
    ensures message { result ≡ false → IsMessage event.now.bytes }
{
    match test_event(event, 0) {
        Ok(()) => is_before_commit(event.fate),
        Err(_) => true,
    }
}

// The request of an event whose message is of this class, and its moment: only a kept or a seen one
// has it.
fn read_one<'a>(event: &'a Event, class: Class) -> Option<(Request<'a>, Moment)>
    ghost service: { Service }
    requires message { IsMessage event.now.bytes }
    requires class { class ≡ class_for service event.now.bytes }
    ensures entry { entries_of (as_list result)
        ≡ performed_if (class_for service event.now.bytes)
        (message_entry event.now.bytes event.now.moment) }
    ensures kept { All (IsPerformed service) (entries_of (as_list result)) }
{
    match class {
        Class::Kept | Class::Seen => match decode(event.bytes.as_slice()) {
            Ok(request) => Some((request, event.moment)),
            Err(_) => None,
        },
        Class::Silent => None,
        Class::Bare(_) => None,
    }
}

// Takes an event into a group. False where the group ends before it: the server died, the event
// stands apart, or it has a request and the group is full.
fn take_in<'a, K: Keeper>(
    keeper: &K,
    group: &mut Group<'a>,
    event: &'a Event,
) -> Result<bool, AllocError>
    ghost service: { Service }
    requires serves { (K.told keeper.now).service ≡ service }
    ensures joins { IfOk result
        (λ joins. joins ≡ true → Joins (serving service K.model) event.now group.old group.new) }
    ensures ends { IfOk result (λ joins. joins ≡ false
        → (group.new ≡ group.old) × EndsWith service group.old event.now) }
{
    performed_have_ids();
    if group.died || stands_apart(event) {
        return Ok(false);
    }
    let class = classify(keeper, event.bytes.as_slice());
    if let Some(one) = read_one(event, class) {
        if group.taken.len() == MAX_GROUP {
            return Ok(false);
        }
        group.taken.push(one)?;
    }
    group.classes.push(class)?;
    group.died = is_after_commit(event.fate);
    Ok(true)
}

/// Reads a group off the first events: at most 16 kept and seen ones, up to one that stands apart,
/// and none after a crash.
pub(crate) fn gather<'a, K: Keeper>(
    alloc: Global,
    keeper: &K,
    events: &'a [Event],
) -> Result<Group<'a>, AllocError>
    ghost service: { Service }
    requires serves { (K.told keeper.now).service ≡ service }
    ensures within { IfOk result (λ r. length r.classes.items ≤ length events.now) }
    ensures gathers { IfOk result
        (λ r. GathersEvents (serving service K.model) (take (length r.classes.items) events.now) r) }
    ensures stops { IfOk result
        (λ r. StopsAt service r (drop (length r.classes.items) events.now)) }
{
    let mut group = Group {
        classes: Vec::new(alloc),
        taken: Vec::new(alloc),
        died: false,
    };
    for event in events {
        if !take_in(keeper, &mut group, event)? {
            return Ok(group);
        }
    }
    Ok(group)
}

// Whether the kernel takes the answer.
fn is_answered(fate: Fate) -> bool
    ensures { result ≡ is_taken fate }
{
    matches!(fate, Fate::Answered)
}

// An answer under this unique. Its body is moved.
fn outcome_with(unique: u64, answer: Answer) -> Outcome
    ensures { bytes_given (Some result) ≡ Some (wire answer.errno answer.body unique) }
{
    Outcome {
        head: head_of(unique, &answer),
        body: answer.body,
    }
}

// The answer that the kernel takes to an event whose message is of this class. A kept or a seen one
// uses the next answer.
fn outcome_of_event(
    alloc: Global,
    event: &Event,
    class: Class,
    answers: &mut IntoIter<Done>,
) -> Option<Outcome>
    ghost service: { Service }
    requires message { IsMessage event.now.bytes }
    requires class { class ≡ class_for service event.now.bytes }
    requires enough { is_performed_class (class_for service event.now.bytes) ≡ true
        → 0 < length (into_iter_items answers.old) }
    ensures outcome { bytes_given result
        ≡ head_outcome service event.now (answers_in (into_iter_items answers.old)) }
    ensures left { answers_in (into_iter_items answers.new)
        ≡ left_by (class_for service event.now.bytes)
        (answers_in (into_iter_items answers.old)) }
{
    let answer = match class {
        Class::Silent => return None,
        Class::Bare(errno) => Answer::refusal(alloc, errno),
        Class::Kept | Class::Seen => answers.next().unwrap().answer,
    };
    if is_answered(event.fate) {
        Some(outcome_with(unique_of(event.bytes.as_slice()), answer))
    } else {
        None
    }
}

// Adds the id that an event settles to the pending ones.
fn settle(pending: &mut Vec<Id>, event: &Event, class: Class)
    ghost service: { Service }
    requires message { IsMessage event.now.bytes }
    requires class { class ≡ class_for service event.now.bytes }
    requires place { class_for service event.now.bytes ≡ Class.Kept
        → length pending.old.items < vec_capacity pending.old }
    ensures settled { ids_of pending.new.items ≡ ids_of pending.old.items
        ++ settles service event.now }
    ensures capacity { vec_capacity pending.new ≡ vec_capacity pending.old }
{
    let taken = is_answered(event.fate);
    match class {
        Class::Kept => {
            if taken {
                pending.push_reserved(Id::of(unique_of(event.bytes.as_slice())));
            }
        }
        Class::Silent | Class::Bare(_) | Class::Seen => {}
    }
}

/// Gives the events of a group, whose messages are of these classes, their outcomes by the answers
/// to the kept and the seen ones, and adds the ids that they settle to the pending ones. Allocates
/// nothing.
pub(crate) fn answer_group(
    alloc: Global,
    run: &[Event],
    classes: &[Class],
    dones: Vec<Done>,
    pending: &mut Vec<Id>,
    outcomes: &mut Vec<Option<Outcome>>,
)
    ghost service: { Service }
    requires fit { All IsFit run.now }
    requires classes { classes.now ≡ classes_of_events service run.now }
    requires enough { HasAnswers service run.now (answers_in dones.items) }
    requires room { length outcomes.old.items + length run.now ≤ vec_capacity outcomes.old }
    requires places { length pending.old.items + length dones.items ≤ vec_capacity pending.old }
    ensures outcomes { Adds outcomes.old.items outcomes.new.items
        (outcomes_by service run.now (answers_in dones.items)) }
    ensures pending { ids_of pending.new.items ≡ ids_of pending.old.items
        ++ settles_in service run.now }
{
    one_cut();
    let mut answers = dones.into_iter();
    for (place, event) in run.iter().enumerate() {
        let class = classes[place];
        outcomes.push_reserved(outcome_of_event(alloc, event, class, &mut answers));
        settle(pending, event, class);
    }
}
