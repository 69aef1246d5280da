ghost use Rattle.std.specs.Prelude.{◌≡◌};
ghost use Rattle.fuse_tree.specs.Keeping as keeping;

use fuse_init::{Profile, Settings};
use fuse_rows::{KEPT_SECS, VALID_SECS};

/// The profile of a tree, and the settings that INIT agreed on, where there was one.
#[derive(Clone, Copy, Debug, PartialEq, Eq)]
pub struct Agreement {
    pub profile: Profile,
    pub settings: Option<Settings>,
}

impl Agreement {
    /// Whether the kernel keeps names and their absence.
    pub fn keeps(&self) -> bool
        ensures { result ≡ keeping.keeps self.now }
    {
        self.profile.keeps()
    }

    /// For how many seconds it may keep an entry, and the attributes of what is no directory.
    pub fn valid_secs(&self) -> u64
        ensures { result ≡ keeping.valid_of self.now }
    {
        if self.keeps() { KEPT_SECS } else { VALID_SECS }
    }
}
