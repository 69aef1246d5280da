// Laws of the effect of a call.
ghost use Rattle.fuse_guest.specs.GuestModel.{guest_model};
ghost use Rattle.guest_store.specs.Performing.{CallsPerform, RowsTellState};

use crate::of_guest::OfGuest;
use fuse_guest::Guested;
use fuse_keeper::{Modelled, groups_of_model_grow};

/// What a call makes of a store, and what it answers, is what its group says, for any model whose
/// rows determine its state.
pub fn calls_perform<M: Modelled>()
    ensures { RowsTellState M.model → CallsPerform M.model }
{
    M::model_is_sound();
    groups_of_model_grow::<M>();
}

/// So it is for a guest, whose rows are its state.
pub(crate) fn guest_calls_perform<G: Guested>()
    ensures { CallsPerform (guest_model G.GUEST) }
{
    calls_perform::<OfGuest<G>>();
}
