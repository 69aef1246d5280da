ghost use Rattle.std.specs.Prelude.{◌≡◌};
ghost use Rattle.fuse_tree.specs.Renaming.{mode_of};

/// The flag of RENAME2 that refuses to replace an entry.
pub const RENAME_NOREPLACE: u32 = 1;

/// The flag of RENAME2 that makes two children change places.
pub const RENAME_EXCHANGE: u32 = 2;

/// The treatment of a node that stands at the new place.
#[derive(Clone, Copy, Debug, PartialEq, Eq)]
pub enum RenameMode {
    /// It loses its name there. RENAME does so too.
    Replace,
    /// Nothing may stand there.
    NoReplace,
    /// It gets the old place.
    Exchange,
}

impl RenameMode {
    /// The mode of the flags of RENAME2. `None` where they have no meaning.
    pub fn of(flags: u32) -> Option<RenameMode>
        ensures { result ≡ mode_of flags }
    {
        match flags {
            0 => Some(RenameMode::Replace),
            RENAME_NOREPLACE => Some(RenameMode::NoReplace),
            RENAME_EXCHANGE => Some(RenameMode::Exchange),
            _ => None,
        }
    }
}
