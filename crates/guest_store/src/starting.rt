// Making and opening a keeper of a guest.
ghost use Rattle.std.specs.Prelude.{◌≡◌, false, IsTrue};
ghost use Rattle.sqlite.specs.State.{IsLive};
ghost use Rattle.sqlite.specs.Held.{state};

use crate::keeper::GuestKeeper;
use crate::pledge::look_over;
use crate::store::{Broken, Deaths, GuestStore};
use crate::table_pairs::TablePairs;
use crate::taken_lot::TakenLot;
use fuse_guest::Guested;
use fuse_keeper::StoreFault;
use guest_tables::{holdings_are_read, make_store, pair_steps_fit};
use guest_talk::{GreetFault, Talk};
use sqlite::{Alter, Connection};
use std::alloc::Global;
use std::io::{Read, Write};
use std::marker::PhantomData;

/// Both ends of the pipes of a guest that was just started: what it writes, and what it reads.
#[derive(Drop)]
pub struct Pipes<R, W> {
    pub source: R,
    pub sink: W,
}

/// Why a keeper of a guest isn't made or opened.
#[derive(Debug, Drop)]
pub enum StartFault {
    Store(StoreFault),
    /// The guest said no READY, or none that serves what is pledged.
    Guest(GreetFault),
}

// Outside a transaction, what is seen is what was committed.
fn law_of_rest<S: Alter>(conn: &Connection<S>)
    ensures live { IsLive (state S.Store conn.now) }
    ensures settled { (state S.Store conn.now).in_transaction ≡ false
        → IsTrue (state S.Store conn.now).is_open
        → (state S.Store conn.now).now ≡ (state S.Store conn.now).committed }
{
    let _ = conn.schema();
    let _ = conn.is_autocommit();
}

impl<G: Guested, S: Alter + Drop, R: Read + Drop, W: Write + Drop> GuestKeeper<G, S, R, W> {
    ghost use Rattle.std.specs.Prelude.{◌<◌, ◌^◌, ℕ, None, Some, Err, IfOk, IfErr};
    ghost use Rattle.sqlite.specs.State.{HasCleanDisk, Survives};
    ghost use Rattle.fuse_keeper.specs.KeeperState.{IsFirm};
    ghost use Rattle.fuse_keeper.specs.Lots.{SameLots};
    ghost use Rattle.fuse_store_tables.specs.Faults.{IsOutside};
    ghost use Rattle.fuse_store_tables.specs.Layout.{no_schema};
    ghost use Rattle.fuse_store_tables.specs.Moves.{LeavesAlone, RestsAs};
    ghost use Rattle.guest_tables.specs.Content.{GuestContent};
    ghost use Rattle.guest_tables.specs.Opening.{IsLaid, IsTested};
    ghost use Rattle.guest_tables.specs.Saying.{Says, IsTabled};
    ghost use Rattle.guest_talk.specs.Greeting.{IsGreeted, IsRefused, hello_for};
    ghost use Rattle.guest_store.specs.Holding.{lots_of, records_of};
    ghost use Rattle.guest_store.specs.Keeping.{broken_of, conn_of, deaths_of};
    ghost use Rattle.guest_store.specs.Keeping.{keeper_told, store_at};
    ghost use Rattle.guest_store.specs.Mounting.{begun};
    ghost use Rattle.guest_store.specs.StoreState.{EndsWhole, HeldOf, IsAtRest};
    ghost use Rattle.guest_store.specs.Starts.{IsBlank, LeavesBegun, LeavesMade, MakesGuest};
    ghost use Rattle.guest_store.specs.Starts.{OfGreeting, SaysOfStore};
    ghost use Rattle.guest_store.specs.Starts.{WhereNotGreeted, WhereStore, new_held};

    /// Greets the guest, and makes a new store with this number in a blank database, in one
    /// transaction. A fault gives the connection back.
    pub fn make(
        alloc: Global,
        conn: Connection<S>,
        number: u64,
        pipes: Pipes<R, W>,
    ) -> Result<GuestKeeper<G, S, R, W>, (StartFault, Connection<S>)>
        requires { number < 2 ^ 63 }
        ensures held { IfOk result (λ k.
            (keeper_told G.GUEST S.Store R.remaining W.contents k).is_honest
            → IsBlank (state S.Store conn)
            → IsAtRest G.GUEST number (new_held G.GUEST)
            (store_at S.Store R.remaining W.contents k).tables) }
        // With an empty history.
        ensures makes { IfOk result (λ k.
            (keeper_told G.GUEST S.Store R.remaining W.contents k).is_honest
            → IsBlank (state S.Store conn)
            → MakesGuest G.GUEST (keeper_told G.GUEST S.Store R.remaining W.contents k)) }
        ensures clean { IfOk result (λ k.
            (keeper_told G.GUEST S.Store R.remaining W.contents k).is_honest
            → HasCleanDisk (state S.Store conn)) }
        ensures firm { IfOk result (λ k.
            (keeper_told G.GUEST S.Store R.remaining W.contents k).is_honest
            → IsFirm (keeper_told G.GUEST S.Store R.remaining W.contents k)) }
        ensures going { IfOk result (λ k.
            (keeper_told G.GUEST S.Store R.remaining W.contents k).has_failed ≡ false) }
        // HELLO says that nothing was agreed on.
        ensures greeted { IfOk result (λ k. IsGreeted (R.remaining pipes.source)
            (W.contents pipes.sink) (hello_for None 0) 0
            (store_at S.Store R.remaining W.contents k).talk) }
        ensures crash { IfErr result (λ r. Survives (state S.Store conn) (state S.Store r.1)
            (LeavesMade G.GUEST number (state S.Store conn))) }
        ensures fault { IfErr result (λ r. SaysOfStore (state S.Store conn) (state S.Store r.1)
            r.0) }
        // Any other database is left as it was, and the fault is that of a statement.
        ensures outside { IfErr result (λ r. WhereStore IsOutside r.0) }
        ensures alone { IfErr result (λ r. WhereStore (λ f.
            ((state S.Store conn).now.schema ≡ no_schema → ⊥)
            → LeavesAlone (state S.Store conn) (state S.Store r.1)) r.0) }
        // Where the guest isn't greeted, nothing is asked of the database.
        ensures ungreeted { IfErr result (λ r. WhereNotGreeted (r.1 ≡ conn) r.0) }
        ensures refused { IfErr result (λ r. OfGreeting (IsRefused (R.remaining pipes.source) 0) r.0) }
        ensures deathless { IfOk result (λ k. deaths_of k ≡ None) }
        ensures unbroken { IfOk result (λ k. broken_of k ≡ None) }
    {
        holdings_are_read();
        pair_steps_fit();
        law_of_rest(&conn);
        let Pipes { source, sink } = pipes;
        let talk = match Talk::greet(alloc, source, sink, None, 0) {
            Ok(talk) => talk,
            Err(fault) => return Err((StartFault::Guest(fault), conn)),
        };
        let mut conn = conn;
        match make_store(&mut conn, number) {
            Ok(()) => Ok(GuestKeeper {
                alloc,
                store: GuestStore {
                    pairs: TablePairs { conn },
                    talk,
                    broken: None,
                },
                deaths: None,
                lot: TakenLot { number: None },
                failed: false,
                of: PhantomData,
            }),
            Err(fault) => Err((StartFault::Store(fault), conn)),
        }
    }

    /// Greets the guest, and opens its store for a mount that begins, in one transaction. A fault
    /// gives the connection back.
    pub fn open_fresh(
        alloc: Global,
        conn: Connection<S>,
        pipes: Pipes<R, W>,
    ) -> Result<GuestKeeper<G, S, R, W>, (StartFault, Connection<S>)>
        ensures begins { IfOk result (λ k.
            (keeper_told G.GUEST S.Store R.remaining W.contents k).is_honest
            → (number : ℕ) (y : HeldOf G.GUEST) → IsAtRest G.GUEST number y (state S.Store conn)
            → (keeper_told G.GUEST S.Store R.remaining W.contents k).holds (begun y).state
            (records_of (begun y).kept)) }
        ensures held { IfOk result (λ k.
            (keeper_told G.GUEST S.Store R.remaining W.contents k).is_honest
            → (number : ℕ) (y : HeldOf G.GUEST) → IsAtRest G.GUEST number y (state S.Store conn)
            → IsAtRest G.GUEST number (begun y)
            (store_at S.Store R.remaining W.contents k).tables) }
        ensures lots { IfOk result (λ k.
            (keeper_told G.GUEST S.Store R.remaining W.contents k).is_honest
            → (number : ℕ) (y : HeldOf G.GUEST) → IsAtRest G.GUEST number y (state S.Store conn)
            → SameLots (lots_of None (begun y))
            (keeper_told G.GUEST S.Store R.remaining W.contents k).lots) }
        ensures clean { IfOk result (λ k.
            (keeper_told G.GUEST S.Store R.remaining W.contents k).is_honest
            → HasCleanDisk (state S.Store conn)) }
        ensures firm { IfOk result (λ k.
            (keeper_told G.GUEST S.Store R.remaining W.contents k).is_honest
            → IsFirm (keeper_told G.GUEST S.Store R.remaining W.contents k)) }
        ensures going { IfOk result (λ k.
            (keeper_told G.GUEST S.Store R.remaining W.contents k).has_failed ≡ false) }
        ensures greeted { IfOk result (λ k. IsGreeted (R.remaining pipes.source)
            (W.contents pipes.sink) (hello_for None 0) 0
            (store_at S.Store R.remaining W.contents k).talk) }
        // A store with damaged counters, a lot at or above the next one or a record that isn't one is
        // never opened, nor is a schema other than that of a guest's store.
        ensures whole { IfOk result (λ k.
            (keeper_told G.GUEST S.Store R.remaining W.contents k).is_honest → (c : GuestContent)
            → RestsAs (IsLaid c) (state S.Store conn) → IsTested c) }
        ensures tabled { IfOk result (λ k.
            (keeper_told G.GUEST S.Store R.remaining W.contents k).is_honest
            → IsTabled (state S.Store conn).now) }
        ensures crash { IfErr result (λ r. Survives (state S.Store conn) (state S.Store r.1)
            (LeavesBegun G.GUEST (state S.Store conn))) }
        // `NotAStore`, `Version` and `Damaged` come only where they are true, and never of a store
        // that is in order.
        ensures fault { IfErr result (λ r. SaysOfStore (state S.Store conn) (state S.Store r.1)
            r.0) }
        ensures sound { IfErr result (λ r. HasCleanDisk (state S.Store r.1)
            → WhereStore (λ f. (number : ℕ) (y : HeldOf G.GUEST)
            → IsAtRest G.GUEST number y (state S.Store conn) → IsOutside f) r.0) }
        // Whatever the database is.
        ensures ends { IfErr result (λ r. WhereStore (λ f. EndsWhole {A = Unit {0}} (state S.Store conn)
            (state S.Store r.1) (Err f)) r.0) }
        ensures ungreeted { IfErr result (λ r. WhereNotGreeted (r.1 ≡ conn) r.0) }
        ensures refused { IfErr result (λ r. OfGreeting (IsRefused (R.remaining pipes.source) 0) r.0) }
        ensures deathless { IfOk result (λ k. deaths_of k ≡ None) }
        ensures unbroken { IfOk result (λ k. broken_of k ≡ None) }
    {
        holdings_are_read();
        let Pipes { source, sink } = pipes;
        let talk = match Talk::greet(alloc, source, sink, None, 0) {
            Ok(talk) => talk,
            Err(fault) => return Err((StartFault::Guest(fault), conn)),
        };
        let mut conn = conn;
        match guest_tables::open_fresh(&mut conn) {
            Ok(()) => Ok(GuestKeeper {
                alloc,
                store: GuestStore {
                    pairs: TablePairs { conn },
                    talk,
                    broken: None,
                },
                deaths: None,
                lot: TakenLot { number: None },
                failed: false,
                of: PhantomData,
            }),
            Err(fault) => Err((StartFault::Store(fault), conn)),
        }
    }

    /// Opens a store whose mount goes on, and greets its guest by what the mount has promised.
    /// Nothing is changed. A fault gives the connection back.
    pub fn open(
        alloc: Global,
        conn: Connection<S>,
        pipes: Pipes<R, W>,
    ) -> Result<GuestKeeper<G, S, R, W>, (StartFault, Connection<S>)>
        ensures holds { IfOk result (λ k.
            (keeper_told G.GUEST S.Store R.remaining W.contents k).is_honest
            → (number : ℕ) (y : HeldOf G.GUEST) → IsAtRest G.GUEST number y (state S.Store conn)
            → (keeper_told G.GUEST S.Store R.remaining W.contents k).holds y.state (records_of y.kept)) }
        ensures held { IfOk result (λ k.
            (keeper_told G.GUEST S.Store R.remaining W.contents k).is_honest
            → (number : ℕ) (y : HeldOf G.GUEST) → IsAtRest G.GUEST number y (state S.Store conn)
            → IsAtRest G.GUEST number y (store_at S.Store R.remaining W.contents k).tables) }
        ensures lots { IfOk result (λ k.
            (keeper_told G.GUEST S.Store R.remaining W.contents k).is_honest
            → (number : ℕ) (y : HeldOf G.GUEST) → IsAtRest G.GUEST number y (state S.Store conn)
            → SameLots (lots_of None y)
            (keeper_told G.GUEST S.Store R.remaining W.contents k).lots) }
        ensures clean { IfOk result (λ k.
            (keeper_told G.GUEST S.Store R.remaining W.contents k).is_honest
            → HasCleanDisk (state S.Store conn)) }
        ensures firm { IfOk result (λ k.
            (keeper_told G.GUEST S.Store R.remaining W.contents k).is_honest
            → IsFirm (keeper_told G.GUEST S.Store R.remaining W.contents k)) }
        ensures going { IfOk result (λ k.
            (keeper_told G.GUEST S.Store R.remaining W.contents k).has_failed ≡ false) }
        // HELLO says what was agreed on and pledged, and the guest serves all that is pledged.
        ensures greeted { IfOk result (λ k.
            (keeper_told G.GUEST S.Store R.remaining W.contents k).is_honest
            → (number : ℕ) (y : HeldOf G.GUEST) → IsAtRest G.GUEST number y (state S.Store conn)
            → IsGreeted (R.remaining pipes.source) (W.contents pipes.sink)
            (hello_for y.state.settings y.state.pledged) y.state.pledged
            (store_at S.Store R.remaining W.contents k).talk) }
        ensures whole { IfOk result (λ k.
            (keeper_told G.GUEST S.Store R.remaining W.contents k).is_honest → (c : GuestContent)
            → RestsAs (IsLaid c) (state S.Store conn) → IsTested c) }
        ensures tabled { IfOk result (λ k.
            (keeper_told G.GUEST S.Store R.remaining W.contents k).is_honest
            → IsTabled (state S.Store conn).now) }
        ensures fault { IfErr result (λ r. SaysOfStore (state S.Store conn) (state S.Store r.1)
            r.0) }
        ensures sound { IfErr result (λ r. HasCleanDisk (state S.Store r.1)
            → WhereStore (λ f. (number : ℕ) (y : HeldOf G.GUEST)
            → IsAtRest G.GUEST number y (state S.Store conn) → IsOutside f) r.0) }
        // Whatever the database is, and however the call ends.
        ensures alone { IfErr result (λ r. LeavesAlone (state S.Store conn) (state S.Store r.1)) }
        ensures refused { IfErr result (λ r. HasCleanDisk (state S.Store r.1) → (number : ℕ)
            (y : HeldOf G.GUEST) → IsAtRest G.GUEST number y (state S.Store conn)
            → OfGreeting (IsRefused (R.remaining pipes.source) y.state.pledged) r.0) }
        ensures same { IfOk result (λ k. LeavesAlone (state S.Store conn)
            (store_at S.Store R.remaining W.contents k).tables) }
        ensures deathless { IfOk result (λ k. deaths_of k ≡ None) }
        ensures unbroken { IfOk result (λ k. broken_of k ≡ None) }
    {
        holdings_are_read();
        let mut conn = conn;
        let promised = match look_over(&mut conn) {
            Ok(promised) => promised,
            Err(fault) => return Err((StartFault::Store(fault), conn)),
        };
        let Pipes { source, sink } = pipes;
        match Talk::greet(alloc, source, sink, promised.settings, promised.pledged) {
            Ok(talk) => Ok(GuestKeeper {
                alloc,
                store: GuestStore {
                    pairs: TablePairs { conn },
                    talk,
                    broken: None,
                },
                deaths: None,
                lot: TakenLot { number: None },
                failed: false,
                of: PhantomData,
            }),
            Err(fault) => Err((StartFault::Guest(fault), conn)),
        }
    }

    /// The request that ended so many guests before this one.
    pub fn set_deaths(&mut self, deaths: Deaths)
        ensures deaths { deaths_of self.new ≡ Some deaths }
        ensures broken { broken_of self.new ≡ broken_of self.old }
        ensures same { conn_of self.new ≡ conn_of self.old }
        ensures talk { (store_at S.Store R.remaining W.contents self.new).talk
            ≡ (store_at S.Store R.remaining W.contents self.old).talk }
        ensures lots { (keeper_told G.GUEST S.Store R.remaining W.contents self.new).lots
            ≡ (keeper_told G.GUEST S.Store R.remaining W.contents self.old).lots }
        ensures going { (keeper_told G.GUEST S.Store R.remaining W.contents self.new).has_failed
            ≡ (keeper_told G.GUEST S.Store R.remaining W.contents self.old).has_failed }
    {
        self.deaths = Some(deaths);
    }

    /// The request at which the guest failed, and how.
    pub fn broken(&self) -> Option<Broken>
        ensures { result ≡ broken_of self.now }
    {
        self.store.broken
    }

    /// The connection, as it is. The pipes are closed.
    pub fn into_conn(self) -> Connection<S>
        ensures { result ≡ conn_of self }
    {
        self.store.pairs.conn
    }
}
