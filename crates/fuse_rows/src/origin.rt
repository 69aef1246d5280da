// Where a new store comes from.
ghost use Rattle.std.specs.Prelude.{◌≡◌};
ghost use Rattle.fuse_rows.specs.Origins.{made_at};

use fuse_wire::Moment;

/// A user and a group that own a node.
#[derive(Clone, Copy, Debug, PartialEq, Eq)]
pub struct Owner {
    pub uid: u32,
    pub gid: u32,
}

impl Owner {
    /// The superuser and the group of this number.
    pub const SUPERUSER: Owner = Owner { uid: 0, gid: 0 };
}

/// Who owns the root of a new store, and when the store is made.
#[derive(Clone, Copy)]
pub struct Origin {
    pub owner: Owner,
    pub made: Moment,
}

impl Origin {
    /// The superuser's, made at this moment.
    pub fn at(made: Moment) -> Origin
        ensures { result ≡ made_at made }
    {
        Origin {
            owner: Owner::SUPERUSER,
            made,
        }
    }
}
