// The versions of the tables.

/// The tables of a store. Version 1 is migrated when it is opened.
#[derive(Clone, Copy, Debug, PartialEq, Eq)]
pub enum Layout {
    /// Those of version 2.
    Second,
    /// Those of version 3, which counts written blocks and lists pieces.
    Third,
}

/// How a new everyday store is made.
#[derive(Clone, Copy, Debug, PartialEq, Eq)]
pub struct Volume {
    /// The blocks that it has room for.
    pub capacity: u64,
    /// The number of the store, by which its contents know it.
    pub number: u64,
}
