// A keeper over tables that is opened again.
use crate::parts::StoreParts;
use crate::table_keeper::TableKeeper;
use fuse_init::Profiled;
use fuse_keeper::{Restart, StoreFault};
use fuse_store_tree::{lots_are_read, one_holding};
use sqlite::Alter;
use sqlite_disk::Disk;

impl<P: Profiled, S: Alter + Drop, D: Disk + Drop> Restart for TableKeeper<P, S, D> {
    ghost use Rattle.std.specs.Prelude.{None, IfOk, IfErr};
    ghost use Rattle.fuse_keeper.specs.KeeperState.{Reopened};
    ghost use Rattle.fuse_store_tree.specs.StoreState.{IsAtRest};
    ghost use Rattle.fuse_store.specs.Opening.{Stored, WasFor, opened_for};
    ghost use Rattle.fuse_store.specs.TableKeeper.{Refuses, keeper_told, store_at};

    type Rest = StoreParts<S, D>;

    ghost refuses = { Refuses P.PROFILE S.Store D.Disk };

    /// Opens the same database and data file again, without a lot number.
    fn restart(self) -> Result<TableKeeper<P, S, D>, (StoreFault, StoreParts<S, D>)>
        ensures reopened { IfOk result (λ k. Reopened (keeper_told P.PROFILE S.Store D.Disk self)
            (keeper_told P.PROFILE S.Store D.Disk k)) }
        ensures refused { IfErr result (λ e. Refuses P.PROFILE S.Store D.Disk self e.0 e.1) }
        ensures once { IfOk result (λ k. Unit {0}) }
        ensures unasked { IfOk result (λ k. Unit {0}) }
        // The next lot has the number that it had; in a store of version 1, which has none, 1.
        ensures held { IfOk result (λ k. (keeper_told P.PROFILE S.Store D.Disk k).is_honest → (z : Stored)
            → WasFor z (store_at S.Store D.Disk self)
            → IsAtRest None (opened_for z) (store_at S.Store D.Disk k)) }
    {
        one_holding();
        lots_are_read();
        let alloc = self.look.alloc;
        match TableKeeper::open(alloc, self.into_parts(), None) {
            Ok(keeper) => Ok(keeper),
            Err(left) => Err(left),
        }
    }
}
