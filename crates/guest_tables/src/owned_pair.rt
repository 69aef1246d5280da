// The pairs that a look shows.

/// A pair, with memory of its own.
#[derive(Debug, Drop)]
pub struct OwnedPair {
    pub key: Vec<u8>,
    pub value: Vec<u8>,
}

/// The pairs that PAIRS lists, and whether there are more.
#[derive(Debug, Drop)]
pub struct PairPage {
    pub pairs: Vec<OwnedPair>,
    pub more: bool,
}
