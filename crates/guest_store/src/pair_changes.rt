// The changes of an ANSWER.
ghost use Rattle.sqlite.specs.Held.{state};
ghost use Rattle.guest_frames.specs.Borrowed.{change_content, changes_left};
ghost use Rattle.guest_frames.specs.Frames.{IsChange};
ghost use Rattle.std.specs.List.{AllByRecursion};
ghost use Rattle.fuse_guest.specs.Pairs.{changed_pairs, pairs_after};
ghost use Rattle.guest_tables.specs.PairSteps.{Changes as ChangesPairs};
ghost use Rattle.guest_talk.specs.TalkState.{TalkState};
ghost use Rattle.guest_store.specs.inner.Changing.{changing};
ghost use Rattle.guest_store.specs.inner.Stepping.{Steps, with_talk};

use fuse_guest::Guested;
use fuse_keeper::StoreFault;
use guest_frames::{Changes, PairChange};
use guest_tables::{clear_pairs, delete_pair, put_pair};
use sqlite::{Alter, Connection, Error};

// Writes one change.
fn write_change<S: Alter>(conn: &mut Connection<S>, change: &PairChange<'_>) -> Result<(), Error>
    requires { IsChange (change_content change.now) }
    ensures { ChangesPairs (λ ps. pairs_after ps (change_content change.now)) (state S.Store conn.old)
        (state S.Store conn.new) result }
{
    match *change {
        PairChange::Put { key, value } => put_pair(conn, key, value),
        PairChange::Delete { key } => delete_pair(conn, key),
        PairChange::Clear { from, to } => clear_pairs(conn, from, to),
    }
}

// Makes it.
fn make_change<G: Guested, S: Alter>(
    conn: &mut Connection<S>,
    change: &PairChange<'_>,
) -> Result<(), StoreFault>
    requires { IsChange (change_content change.now) }
    ensures { (t : TalkState) → Steps G.GUEST
        (changing G.GUEST (λ ps. pairs_after ps (change_content change.now)))
        (with_talk (state S.Store conn.old) t) (with_talk (state S.Store conn.new) t) result }
{
    match write_change(conn, change) {
        Ok(()) => Ok(()),
        Err(error) => Err(StoreFault::from(error)),
    }
}

/// Makes these changes, in their order.
pub(crate) fn make_changes<G: Guested, S: Alter>(
    conn: &mut Connection<S>,
    changes: Changes<'_>,
) -> Result<(), StoreFault>
    requires { AllByRecursion IsChange (changes_left changes) }
    ensures { (t : TalkState) → Steps G.GUEST
        (changing G.GUEST (λ ps. changed_pairs (changes_left changes.entry) ps))
        (with_talk (state S.Store conn.old) t) (with_talk (state S.Store conn.new) t) result }
{
    for change in changes {
        match make_change::<G, S>(conn, &change) {
            Ok(()) => {}
            Err(fault) => return Err(fault),
        }
    }
    Ok(())
}
