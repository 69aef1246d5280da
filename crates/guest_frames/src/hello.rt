/// What was agreed on by INIT.
#[derive(Clone, Copy, Debug, PartialEq, Eq)]
pub struct Agreed {
    pub minor: u32,
    /// `flags2` as bits 32 to 63.
    pub flags: u64,
    /// The opcodes that were served then, which must be served until the mount ends.
    pub pledged: u64,
}

/// What the engine says of itself, first. Opcodes are sets: bit n is opcode n.
#[derive(Clone, Copy, Debug, PartialEq, Eq)]
pub struct Hello {
    /// `None` before INIT.
    pub agreed: Option<Agreed>,
    /// Those that it can hand on.
    pub opcodes: u64,
}
