// The number of a store that becomes one of version 3.
ghost use Rattle.std.specs.Prelude.{◌<◌, ◌^◌};

/// The number of a store, of which the tables store 63 bits.
#[derive(Clone, Copy)]
pub(crate) struct ThirdNumber {
    pub(crate) value: u64,
    ghost low: { value < 2 ^ 63 },
}
