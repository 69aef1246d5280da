// The ids that are handed on, so that their records are deleted.
ghost use Rattle.std.specs.Prelude.{◌≡◌, ℕ, List, true};
ghost use Rattle.fuse_request.specs.Opcodes.{Service};
ghost use Rattle.fuse_keeper.specs.Bounds.{max_group_len};
ghost use Rattle.fuse_keeper.specs.History.{is_in};
ghost use Rattle.fuse_sim.specs.declared.event.Event.{Event as EventValue};
ghost use Rattle.fuse_sim.specs.HandedOn.{performances, handed_on_in};
ghost use Rattle.fuse_sim.specs.LeftRecords.{SettledBefore};

/// When an id is handed on whose answer was taken.
pub fn ids_are_handed_on()
    // With the 16th kept request committed after it at the latest, unless the server dies before,
    ensures in_time { (V : Service) (events : List EventValue) (i : ℕ)
        → SettledBefore V max_group_len events i
        → is_in (handed_on_in (performances V events)) i ≡ true }
    // and with the first one after it at the earliest.
    ensures not_before { (V : Service) (events : List EventValue) (i : ℕ)
        → is_in (handed_on_in (performances V events)) i ≡ true → SettledBefore V 1 events i }
{}
