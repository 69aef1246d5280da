use fuse_guest::{Guested, guest_is_sound};
use fuse_keeper::Modelled;
use std::marker::PhantomData;

/// The file system that a guest is, as a type.
#[derive(Drop)]
pub struct OfGuest<G> {
    of: PhantomData<G>,
}

impl<G: Guested> Modelled for OfGuest<G> {
    ghost use Rattle.fuse_guest.specs.GuestModel.{guest_model};

    ghost model = { guest_model G.GUEST };

    fn model_is_sound() {
        guest_is_sound::<G>();
    }
}
