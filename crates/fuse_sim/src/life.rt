// Several lives of a server in one mount.
ghost use Rattle.std.specs.Prelude.{◌≡◌, List, []};
ghost use Rattle.fuse_keeper.specs.History.{Distinct, grown};
ghost use Rattle.fuse_session.specs.Deeds.{Did};
ghost use Rattle.fuse_session.specs.Passage.{passage_for};
ghost use Rattle.fuse_session.specs.Processed.{kept_in};
ghost use Rattle.fuse_sim.specs.Lives.{Lifetime, AreLives, after_lives, all_processed, AllSend};
ghost use Rattle.fuse_sim.specs.Lives.{RunsAreLives};

use fuse_keeper::{Keeper, histories_grow};
use fuse_session::{Clock, Port, answers_stay};

/// Over every list of lives of one mount, each beginning with the history that the one before left
/// and the first with none.
pub fn lives<K: Keeper>()
    // The last history is that of all messages that they processed, in a row,
    ensures in_a_row { (ls : List Lifetime) → after_lives K.model.service [] ls
        ≡ grown [] (kept_in K.model.service (all_processed ls)) }
    // in which no request stands twice,
    ensures once { (ls : List Lifetime) → Distinct (after_lives K.model.service [] ls) }
    // and the bytes that each life sent are a prefix of those to be sent by that history.
    ensures send { (s : K.model.State) (ls : List Lifetime)
        → AreLives K.model s [] ls → AllSend K.model s (after_lives K.model.service [] ls) [] ls }
{
    histories_grow::<K>();
    answers_stay::<K>();
}

/// Each run of `serve` is such a life, of a keeper that was `k` and is `k'`, at whatever end. Its port
/// was `p` and is `p'`, its clock was `c` and is `c'`. It is said with the service that the keeper
/// gave.
pub fn runs_are_lives<K: Keeper, P: Port, C: Clock>()
    ensures { (k k' : K) (p p' : P) (c c' : C)
        → RunsAreLives (passage_for (K.told k).service (K.told k) (K.told k') (P.told p) (P.told p')
        (Did (C.gave c c') (K.performed k k') (P.became p p'))) }
{}
