// The lot that a keeper has taken.
ghost use Rattle.std.specs.Prelude.{◌<◌, ◌^◌};
ghost use Rattle.std.specs.Option.{ForSome};

/// The number of the lot that was allocated since a store was opened or a mount began, if one was.
#[derive(Clone, Copy)]
pub(crate) struct TakenLot {
    pub(crate) number: Option<u64>,
    ghost low: { ForSome number (λ n. n < 2 ^ 62) },
}
