// Runs of servers over the files of a store, one after another.
ghost use Rattle.std.specs.Prelude.{◌≡◌, ℕ, List, [], ◌∷◌, take, Option, None, Result};
ghost use Rattle.sqlite_disk.specs.declared.Files.{Files as TwoFiles};
ghost use Rattle.sqlite_store.specs.declared.store.FileStore.{FileStore as OwnStore};
ghost use Rattle.sqlite.specs.Files.{over_files};
ghost use Rattle.fuse_sim.specs.FileLives.{FileRun, no_run, IsMount, AllHaveNew, FilesLived};
ghost use Rattle.fuse_tree.specs.TheTree.{tree_of};
ghost use Rattle.fuse_keeper.specs.KeeperState.{WhereHeld};
ghost use Rattle.fuse_keeper.specs.Lots.{AreReopened};
ghost use Rattle.fuse_store.specs.Opening.{Stored, opened_for};
ghost use Rattle.fuse_store.specs.declared.table_keeper.TableKeeper.{TableKeeper as OwnKeeper};
ghost use Rattle.fuse_store.specs.TableKeeper.{keeper_told};
ghost use Rattle.fuse_store_files.specs.Files.{StoreImage, FilesStand, FilesHold};
ghost use Rattle.fuse_store_files.specs.Left.{Closes};
ghost use Rattle.fuse_store_files.specs.Starting.{KeepsHolding};
ghost use Rattle.fuse_commands.specs.declared.serve.Begin.TheVariants.{Resume};
ghost use Rattle.fuse_files.specs.declared.serving.StoreRun.{StoreRun};
ghost use Rattle.fuse_files.specs.StoreRuns.{Task, Around, around_views};
ghost use Rattle.fuse_files.specs.StoreRuns.{StoreServed, StoreRefused};
ghost use Rattle.fuse_files.specs.StoreLives.{MayBeLeft, MayBeLeftUnopened, Resumes, RunsOn};
ghost use Rattle.fuse_files.specs.StoreLives.{file_run};

use fuse_init::Profiled;
use fuse_session::{Clock, Port};
use fuse_sim::{lives, runs_are_lives};
use fuse_store::{PlainKeeper, PlainTree, TableKeeper};
use fuse_store_files::plain_over_any;
use fuse_store_tree::lots_are_read;
use sqlite::FileStore;
use sqlite_disk::Disk;

/// Each run of `serve_store` is a life: of the mount that the files held, or of the one that began.
/// Whatever a crash leaves of the files, in the session or after the closing, stands for the history
/// that it leads to. A run that opened no store is one too, in which nothing was done.
pub fn runs_are_file_lives<P: Profiled, D: Disk + Drop, E: Disk + Drop, O: Port, C: Clock>()
    ensures served { (x : Around O C) (task : Task) (run : StoreRun D E D.Disk)
        (served : StoreServed E.Disk P P.PROFILE (around_views O.told O.became C.gave) x task run)
        (image : StoreImage) → MayBeLeft served.ran.closed image
        → RunsOn P.PROFILE served.how task.first (file_run served.ran.served image) }
    // A run that was to resume, whose store is not opened, leaves the files as they stood.
    ensures refused { (x : Around O C) (task : Task) (run : StoreRun D E D.Disk)
        → StoreRefused E.Disk (around_views O.told O.became C.gave) x task run → task.begin ≡ Resume
        → (image : StoreImage) → MayBeLeftUnopened E.Disk task.first run.left image
        → Resumes P.PROFILE task.first (no_run image) }
{
    runs_are_lives::<TableKeeper<P, FileStore<D>, E>, O, C>();
}

/// The lots outlive the closing of files. A keeper that holds the store which a crash may leave of
/// them, as one that is opened to continue does, has those of the keeper that was closed, and has
/// taken none.
pub fn lots_outlive_files<P: Profiled, D: Disk + Drop, E: Disk + Drop>()
    ensures { (k k' : OwnKeeper P (OwnStore D D.Disk) E)
        (left : Result (TwoFiles D) (OwnStore D D.Disk)) (disk : Option E)
        (closed : Closes E.Disk P.PROFILE k left disk) (image : StoreImage) → MayBeLeft closed image
        → ((z : Stored) → FilesHold image z
        → KeepsHolding P.PROFILE (opened_for z) (keeper_told P.PROFILE over_files E.Disk k'))
        → WhereHeld (keeper_told P.PROFILE over_files E.Disk k)
        (AreReopened (keeper_told P.PROFILE over_files E.Disk k).lots
        (keeper_told P.PROFILE over_files E.Disk k').lots) }
{
    lots_are_read();
    plain_over_any();
}

/// Over every list of runs of one mount, each over files that a crash may have left of the one
/// before, where no kept message comes again whose answer was settled: they are lives of one mount.
/// The last history has each kept request once. Each run sent a prefix of its answers: to a kept
/// message by the last history, to a seen one by the history before that message.
pub fn files_live<P: Profiled>()
    ensures whole { (s : (tree_of P.PROFILE).State) (first : FileRun StoreImage)
        (later : List (FileRun StoreImage))
        → IsMount (FilesStand P.PROFILE) s first later
        → AllHaveNew (tree_of P.PROFILE).service [] (first ∷ later)
        → FilesLived (FilesStand P.PROFILE) s first later }
    // So it is of the runs before the one in which such a message comes again.
    ensures before { (s : (tree_of P.PROFILE).State) (first : FileRun StoreImage)
        (later : List (FileRun StoreImage)) (n : ℕ)
        → IsMount (FilesStand P.PROFILE) s first later
        → AllHaveNew (tree_of P.PROFILE).service [] (first ∷ take n later)
        → FilesLived (FilesStand P.PROFILE) s first (take n later) }
{
    lives::<PlainKeeper<PlainTree<P>>>();
}
