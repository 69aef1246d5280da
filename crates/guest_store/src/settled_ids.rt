// Deletion of the records of settled ids.
ghost use Rattle.std.specs.Prelude.{⊤, List, [], ◌∷◌};
ghost use Rattle.sqlite.specs.Held.{state};
ghost use Rattle.fuse_keeper.specs.Group.{ids_of};
ghost use Rattle.guest_talk.specs.TalkState.{TalkState};
ghost use Rattle.guest_store.specs.Group.{without_record, without_settled};
ghost use Rattle.guest_store.specs.inner.Stepping.{Steps, making, with_talk};

use fuse_guest::Guested;
use fuse_keeper::StoreFault;
use fuse_wire::Id;
use guest_tables::delete_kept;
use sqlite::{Alter, Connection};

// All ids of records are below it.
const END: u64 = 1 << 63;

// Deletes the record of this id, if there is one.
fn forget<G: Guested, S: Alter>(conn: &mut Connection<S>, id: u64) -> Result<(), StoreFault>
    ensures { (t : TalkState) → Steps G.GUEST (making G.GUEST (without_record id) (λ y r. ⊤))
        (with_talk (state S.Store conn.old) t) (with_talk (state S.Store conn.new) t) result }
{
    if id >= END {
        return Ok(());
    }
    match delete_kept(conn, id) {
        Ok(()) => Ok(()),
        Err(error) => Err(StoreFault::from(error)),
    }
}

/// Deletes the records of these ids, where there are any.
pub(crate) fn settle<G: Guested, S: Alter>(
    conn: &mut Connection<S>,
    ids: &[Id],
) -> Result<(), StoreFault>
    ensures { (t : TalkState) → Steps G.GUEST
        (making G.GUEST (without_settled (ids_of ids.now)) (λ y r. ⊤))
        (with_talk (state S.Store conn.old) t) (with_talk (state S.Store conn.new) t) result }
{
    let mut done: usize = 0;
    'rest: while done < ids.len() {
        match forget::<G, S>(conn, ids[done].0) {
            Ok(()) => done += 1,
            Err(fault) => return Err(fault),
        }
    }
    Ok(())
}
