ghost use Rattle.fuse_keeper.specs.Model.{Model, IsSoundModel};

/// A file system as a type, by its model alone. What is proved over `M: Modelled` holds of every
/// sound model.
pub trait Modelled: Drop {
    ghost model: { Model };

    /// A law: the model is sound.
    fn model_is_sound()
        ensures { IsSoundModel model };
}
