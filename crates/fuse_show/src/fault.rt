use fuse_tree::LookFault;

/// Why a listing or a content is not shown, or not to its end.
#[derive(Clone, Copy, Debug, PartialEq, Eq)]
pub enum ShowFault {
    /// A look failed.
    Look(LookFault),
    /// The rows are not those of a tree.
    NotATree,
    /// A directory has no entry with a name of the path.
    NoSuchPath,
    /// A name of the path follows a node that is no directory, or the listed node is none.
    NotDirectory,
    /// The node at the path is no regular file.
    NotFile,
    /// Writing failed.
    Output,
}

impl From<LookFault> for ShowFault {
    ghost use Rattle.std.specs.Prelude.{◌≡◌};
    ghost use Rattle.fuse_show.specs.declared.fault.ShowFault.TheVariants.{Look as OfLook};

    ghost from_gives = { λ fault e. e ≡ OfLook fault };

    fn from(fault: LookFault) -> ShowFault {
        ShowFault::Look(fault)
    }
}
