// What is read of the table `meta`.
ghost use Rattle.std.specs.Prelude.{◌≡◌};
ghost use Rattle.fuse_store_tree.specs.inner.Knowing.{agreed_on, known_after};
ghost use Rattle.fuse_store_tree.specs.inner.Writing.{room_over};

use fuse_init::Settings;
use fuse_rows::{Change, Counters, Room};
use fuse_tree::Agreement;

/// The counters of a store, and the settings that INIT agreed on.
#[derive(Clone, Copy, Debug, PartialEq, Eq)]
pub struct Meta {
    pub counters: Counters,
    pub settings: Option<Settings>,
}

/// The profile and the settings.
pub(crate) fn agreement_of(meta: Meta) -> Agreement
    ensures { result ≡ agreed_on meta }
{
    Agreement {
        profile: meta.counters.profile(),
        settings: meta.settings,
    }
}

// A room keeps its capacity.
fn room_of(old: Option<Room>, new: Option<Room>) -> Option<Room>
    ensures { result ≡ room_over old new }
{
    match (old, new) {
        (Some(old), Some(new)) => Some(Room {
            capacity: old.capacity,
            used: new.used,
        }),
        _ => old,
    }
}

/// What is known after a change of a plan that was made.
pub(crate) fn after_change(known: Option<Meta>, change: &Change) -> Option<Meta>
    ensures { result ≡ known_after known change.now }
{
    let meta = match known {
        Some(meta) => meta,
        None => return None,
    };
    match change {
        Change::Counters(counters) => Some(Meta {
            counters: Counters {
                room: room_of(meta.counters.room, counters.room),
                ..*counters
            },
            settings: meta.settings,
        }),
        Change::Settings(settings) => Some(Meta {
            counters: meta.counters,
            settings: Some(*settings),
        }),
        _ => known,
    }
}
