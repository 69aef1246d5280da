// A keeper whose restart loses what a crash of its files loses.
ghost use Rattle.std.specs.Prelude.{◌≡◌};
ghost use Rattle.fuse_store_files.specs.Restarting.{inner_of};

use crate::crashing::{Crashing, crash_store};
use crate::left::{CrashedFiles, StoreLeft};
use fuse_answer::Answer;
use fuse_init::{Profiled, Settings};
use fuse_keeper::{Done, Keeper, Restart, StoreCounts, StoreFault};
use fuse_request::Request;
use fuse_store::{StoreParts, TableKeeper, opening_fault};
use fuse_store_tree::lots_are_read;
use fuse_wire::{Id, Moment};
use sqlite::{Connection, FileStore, Leftover, Options};
use sqlite_disk::Disk;
use std::alloc::Global;

/// A keeper over tables in files, and over a data file. Over disks that crash, its restart lets all
/// files crash.
#[derive(Drop)]
pub struct CrashKeeper<P, D: Disk, E: Disk> {
    alloc: Global,
    inner: TableKeeper<P, FileStore<D>, E>,
    options: Options,
}

impl<P: Profiled, D: Disk, E: Disk> CrashKeeper<P, D, E> {
    /// Over this keeper. Its files are opened again with these options.
    pub fn new(
        alloc: Global,
        inner: TableKeeper<P, FileStore<D>, E>,
        options: Options,
    ) -> CrashKeeper<P, D, E>
        ensures { inner_of result ≡ inner }
    {
        CrashKeeper {
            alloc,
            inner,
            options,
        }
    }

    /// The keeper that it stands on.
    pub fn into_inner(self) -> TableKeeper<P, FileStore<D>, E>
        ensures { result ≡ inner_of self }
    {
        self.inner
    }
}

impl<P: Profiled, D: Disk + Drop, E: Disk + Drop> Keeper for CrashKeeper<P, D, E> {
    ghost use Rattle.std.specs.Prelude.{refl};
    ghost use Rattle.fuse_tree.specs.TheTree.{tree_of};
    ghost use Rattle.fuse_store.specs.inner.Laws.{one_held};
    ghost use Rattle.fuse_store_files.specs.Restarting.{crash_told};
    ghost use Rattle.fuse_store_files.specs.inner.Laws.{clean_in_memory};

    ghost model = { tree_of P.PROFILE };

    ghost told = { crash_told P.PROFILE E.Disk };

    ghost became = { λ a b n. Unit {0} };

    ghost performed = { λ a b list. Unit {0} };

    fn serves(&self, opcode: u32) -> bool {
        self.inner.serves(opcode)
    }

    fn sees(&self, opcode: u32) -> bool {
        self.inner.sees(opcode)
    }

    fn perform(
        &mut self,
        group: &[(Request<'_>, Moment)],
        settled: &[Id],
    ) -> Result<Vec<Done>, StoreFault> {
        self.inner.perform(group, settled)
    }

    fn begin_mount(&mut self) -> Result<(), StoreFault> {
        self.inner.begin_mount()
    }

    fn answer_of(&mut self, id: Id) -> Result<Option<Answer>, StoreFault> {
        self.inner.answer_of(id)
    }

    fn settings(&mut self) -> Result<Option<Settings>, StoreFault> {
        self.inner.settings()
    }

    fn counts(&mut self) -> Result<StoreCounts, StoreFault> {
        self.inner.counts()
    }

    fn failed(&self) -> bool {
        self.inner.failed()
    }

    fn model_is_sound() {
        TableKeeper::<P, FileStore<D>, E>::model_is_sound();
    }

    ghost sound = { λ k. record {
      one_holding = λ x y p q one two. one_held _ _ _ _ _ _ one two;
      clean_is_honest = λ clean. clean.0;
      service = λ honest. refl;
    } };

    ghost memory_is_clean = { λ k memory. clean_in_memory _ _ memory k.inner.look.conn k.inner.look.contents.file };

    ghost counted = { record { none = λ k. tt; then = λ a b c m n before after. tt } };

    ghost log = { record { none = λ k. tt; onward = λ a b c before after one two. tt } };
}

impl<P: Profiled, D: Crashing + Drop, E: Crashing + Drop> Restart for CrashKeeper<P, D, E> {
    ghost use Rattle.std.specs.Prelude.{IfOk, IfErr};
    ghost use Rattle.fuse_keeper.specs.KeeperState.{Reopened};
    ghost use Rattle.fuse_store_files.specs.Crashing.{crash_relations};
    ghost use Rattle.fuse_store_files.specs.Restarting.{crash_told, ReopensCrashed, CrashRefuses};

    type Rest = StoreLeft<D, E>;

    ghost refuses = { CrashRefuses E.Disk P.PROFILE
        (crash_relations D.Crashing.crashed E.Crashing.crashed) };

    /// Lets all files crash, and opens what is left of them.
    fn restart(self) -> Result<CrashKeeper<P, D, E>, (StoreFault, StoreLeft<D, E>)>
        ensures reopened { IfOk result (λ k. Reopened (crash_told P.PROFILE E.Disk self) (crash_told P.PROFILE E.Disk k)) }
        ensures refused { IfErr result (λ e. CrashRefuses E.Disk P.PROFILE
            (crash_relations D.Crashing.crashed E.Crashing.crashed) self e.0 e.1) }
        ensures once { IfOk result (λ k. Unit {0}) }
        ensures unasked { IfOk result (λ k. Unit {0}) }
        // Nothing but a crash of each file shows this.
        ensures crashed { IfOk result (ReopensCrashed E.Disk P.PROFILE
            (crash_relations D.Crashing.crashed E.Crashing.crashed) self) }
    {
        lots_are_read();
        let CrashKeeper {
            alloc,
            inner,
            options,
        } = self;
        let CrashedFiles { tables, disk } = crash_store(inner.into_parts());
        let conn = match Connection::open_files(alloc, tables, options) {
            Ok(conn) => conn,
            Err((error, tables)) => {
                return Err((opening_fault(error), StoreLeft { tables, disk }));
            }
        };
        match TableKeeper::open(alloc, StoreParts { conn, disk }, None) {
            Ok(inner) => Ok(CrashKeeper {
                alloc,
                inner,
                options,
            }),
            Err((fault, StoreParts { conn, disk })) => {
                let tables = Leftover::Store(conn.into_store());
                Err((fault, StoreLeft { tables, disk }))
            }
        }
    }
}
