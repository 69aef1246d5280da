ghost use Rattle.std.specs.Prelude.{◌≡◌, List, [], ◌∷◌, ◌++◌};
ghost use Rattle.std.specs.Borrow.{ftrue};
ghost use Rattle.guest_talk.specs.Events.{Event, event_of};

use std::marker::{Model, PhantomData};

/// What passed, in its order. No memory holds it: only clauses read it.
#[derive(Drop)]
pub(crate) struct Record {
    marker: PhantomData<u8>,
    pub ghost events: { List Event },
}

impl Model for Record {
    ghost also_owns = { λ _. ftrue };
}

impl Record {
    pub(crate) fn new() -> Record
        ensures { result.events ≡ [] }
    {
        Record {
            marker: PhantomData,
        }
    }

    // The kind of a frame and its payload, or the numbers of a fault.
    pub(crate) fn note(&mut self, _numbers: &[u64], _bytes: &[u8])
        ensures { self.new.events ≡ self.old.events ++ event_of _numbers.now _bytes.now ∷ [] }
    {}

    // What a caller knows of, without its bytes.
    pub(crate) fn note_all(&mut self)
        ghost more: { List Event }
        ensures { self.new.events ≡ self.old.events ++ more }
    {}
}
