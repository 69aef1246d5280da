/// What a guest says of itself, after HELLO. Opcodes are sets: bit n is opcode n.
#[derive(Clone, Copy, Debug, PartialEq, Eq)]
pub struct Ready {
    /// 0 for the engine's own.
    pub max_write: u32,
    /// Those that it serves.
    pub opcodes: u64,
    /// The flags of INIT that it wants, `flags2` as bits 32 to 63.
    pub wanted: u64,
    /// 0 for the engine's own.
    pub max_readahead: u32,
    /// Those whose requests change nothing.
    pub seen: u64,
}
