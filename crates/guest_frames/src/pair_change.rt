/// A change of the pairs, as it lies in an ANSWER.
#[derive(Clone, Copy, Debug)]
pub enum PairChange<'a> {
    /// Sets a pair.
    Put { key: &'a [u8], value: &'a [u8] },
    /// Removes a pair, which may be missing.
    Delete { key: &'a [u8] },
    /// Removes all pairs from one key on and below another. Where `to` is empty it is no bound.
    Clear { from: &'a [u8], to: &'a [u8] },
}
