// What the mount of a store that was tested has promised.
ghost use Rattle.std.specs.Prelude.{◌≡◌, IfOk, IfErr, OnOk};
ghost use Rattle.sqlite.specs.State.{HasCleanDisk};
ghost use Rattle.sqlite.specs.Held.{state};
ghost use Rattle.fuse_store_tables.specs.Faults.{IsOutside};
ghost use Rattle.fuse_store_tables.specs.Moves.{LeavesAlone, RestsAs};
ghost use Rattle.guest_tables.specs.Content.{GuestContent};
ghost use Rattle.guest_tables.specs.Holding.{GuestHolding, HeldFor};
ghost use Rattle.guest_tables.specs.Opening.{IsLaid, IsTested};
ghost use Rattle.guest_tables.specs.Saying.{Says, IsTabled};

use fuse_init::Settings;
use fuse_keeper::StoreFault;
use guest_tables::{find_pledged, find_settings, open_store};
use sqlite::{Alter, Connection};

/// What INIT agreed on, if it did, and the opcodes that were served then.
#[derive(Clone, Copy)]
pub(crate) struct Promised {
    pub(crate) settings: Option<Settings>,
    pub(crate) pledged: u64,
}

/// Tests a store, and finds what its mount has promised. Nothing is changed.
pub(crate) fn look_over<S: Alter>(conn: &mut Connection<S>) -> Result<Promised, StoreFault>
    ensures alone { LeavesAlone (state S.Store conn.old) (state S.Store conn.new) }
    ensures held { HasCleanDisk (state S.Store conn.new) → OnOk result ((y : GuestHolding)
        → RestsAs (HeldFor y) (state S.Store conn.old)
        → RestsAs (HeldFor y) (state S.Store conn.new)) }
    ensures value { HasCleanDisk (state S.Store conn.new) → IfOk result (λ p. (y : GuestHolding)
        → RestsAs (HeldFor y) (state S.Store conn.old)
        → (p.settings ≡ y.state.settings) × (p.pledged ≡ y.state.pledged)) }
    ensures whole { HasCleanDisk (state S.Store conn.new) → OnOk result ((c : GuestContent)
        → RestsAs (IsLaid c) (state S.Store conn.old) → IsTested c) }
    ensures tabled { HasCleanDisk (state S.Store conn.new)
        → OnOk result (IsTabled (state S.Store conn.old).now) }
    ensures says { HasCleanDisk (state S.Store conn.new)
        → IfErr result (Says (state S.Store conn.old).now) }
    ensures fault { HasCleanDisk (state S.Store conn.new) → IfErr result (λ f. (y : GuestHolding)
        → RestsAs (HeldFor y) (state S.Store conn.old) → IsOutside f) }
{
    match open_store(conn) {
        Ok(()) => {}
        Err(fault) => return Err(fault),
    }
    let settings = match find_settings(conn) {
        Ok(settings) => settings,
        Err(fault) => return Err(fault),
    };
    match find_pledged(conn) {
        Ok(pledged) => Ok(Promised { settings, pledged }),
        Err(fault) => Err(fault),
    }
}
