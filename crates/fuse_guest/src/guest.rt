ghost use Rattle.fuse_guest.specs.Talk.{Guest};

/// A guest as a type. What is proved over `G: Guested` holds of every guest.
pub trait Guested: Drop {
    ghost GUEST: { Guest };
}
