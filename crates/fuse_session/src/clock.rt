// The clocks that moments come from.
ghost use Rattle.std.specs.Prelude.{◌≡◌, ◌∷◌, [], List};
ghost use Rattle.fuse_wire.specs.declared.moment.Moment.{Moment as MomentValue};
ghost use Rattle.fuse_session.specs.Clock.{IsLog};

use fuse_wire::Moment;
use std::rt;
use std::time::SystemTime;

/// A clock, asked once for each message whose answer is recorded.
pub trait Clock: Drop {
    /// The first gave these moments, in order, and the second is what became of it.
    ghost gave: { Self → Self → List MomentValue → Type 0 };

    /// The moment now.
    fn now(&mut self) -> Moment
        ensures { gave self.old self.new (result ∷ []) };

    ghost logged: { IsLog gave };
}

/// A clock that stands still.
#[derive(Drop)]
pub struct Fixed(pub Moment);

impl Clock for Fixed {
    ghost use Rattle.fuse_session.specs.Clock.{GaveFixed};
    ghost use Rattle.fuse_session.specs.inner.Logged.{fixed_logged};

    ghost gave = { GaveFixed };

    fn now(&mut self) -> Moment {
        self.0
    }

    ghost logged = { fixed_logged };
}

/// The machine's clock: its moment, or where it gives none the last one (at first 0).
#[derive(Drop)]
pub struct System<T: rt::Clock + Drop> {
    rt: T,
    last: Moment,
}

impl<T: rt::Clock + Drop> System<T> {
    /// Asks this runtime. Until it gives a moment, the last one is 0.
    pub fn new(rt: T) -> System<T>
        ensures runtime { result.rt ≡ rt }
        ensures last { result.last ≡ record { secs = 0; nanos = 0 } }
    {
        System {
            rt,
            last: Moment { secs: 0, nanos: 0 },
        }
    }
}

impl<T: rt::Clock + Drop> Clock for System<T> {
    ghost use Rattle.fuse_session.specs.Clock.{GaveSystem};
    ghost use Rattle.fuse_session.specs.inner.Logged.{system_logged};

    // Any moment, of which it keeps the last.
    ghost gave = { GaveSystem };

    fn now(&mut self) -> Moment {
        if let Ok(now) = SystemTime::now(&self.rt)
            && let Ok(age) = now.duration_since(SystemTime::UNIX_EPOCH)
        {
            self.last = Moment {
                secs: age.as_secs(),
                nanos: age.subsec_nanos(),
            };
        }
        self.last
    }

    ghost logged = { system_logged };
}
