// The five files, served over a port.
ghost use Rattle.std.specs.Prelude.{◌≡◌, ◌<◌, ◌^◌, false};
ghost use Rattle.fuse_session.specs.Deeds.{Did};
ghost use Rattle.fuse_session.specs.Passage.{passage};
ghost use Rattle.fuse_session.specs.Session.{Session};
ghost use Rattle.five_files.specs.Serving.{files_told, FilesStay};

use crate::files::FiveFiles;
use fuse_keeper::{Keeper, PlainKeeper};
use fuse_session::{Clock, Port, Served, serve};
use std::alloc::Global;

/// Serves the files, as `serve` does. However it ends, and whatever requests came, they stay as
/// they were.
pub fn serve_files<P: Port, C: Clock>(
    alloc: Global,
    keeper: &mut PlainKeeper<FiveFiles>,
    port: &mut P,
    clock: &mut C,
    turns: u32,
) -> Served
    requires going { (files_told keeper.old).has_failed ≡ false }
    requires receives { (P.told port.old).receives < 2 ^ 62 }
    requires failures { (P.told port.old).failures < 2 ^ 62 }
    // All that `serve` promises.
    ensures session { Session (passage (files_told keeper.old) (files_told keeper.new)
        (P.told port.old) (P.told port.new) (Did (C.gave clock.old clock.new)
        (⟦<PlainKeeper<FiveFiles> as Keeper>⟧.performed keeper.old keeper.new)
        (P.became port.old port.new))) turns result }

    // From INIT on, no request changes anything of the files.
    ensures files { FilesStay (passage (files_told keeper.old) (files_told keeper.new)
        (P.told port.old) (P.told port.new) (Did (C.gave clock.old clock.new)
        (⟦<PlainKeeper<FiveFiles> as Keeper>⟧.performed keeper.old keeper.new)
        (P.became port.old port.new))) result.ended }
{
    serve(alloc, keeper, port, clock, turns)
}
