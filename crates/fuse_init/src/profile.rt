ghost use Rattle.std.specs.Prelude.{◌≡◌};
ghost use Rattle.fuse_init.specs.Profile as profiles;
ghost use Rattle.fuse_init.specs.Profile.{terms};
ghost use Rattle.fuse_init.specs.declared.profile.Profile.{Profile};

use bitflags::Flags;
use fuse_wire::InitFlags;

/// How the tree of a file system behaves. A store is made under a profile and keeps it.
#[derive(Clone, Copy, Debug, PartialEq, Eq)]
pub enum Profile {
    /// The kernel asks for all that it wants to know.
    Plain,
    /// The kernel keeps what it knows for a day, but of directories and absent names.
    Everyday,
}

impl Profile {
    // The flags of INIT that are taken where they are offered.
    pub(crate) fn wanted(self) -> InitFlags
        ensures { result.0 ≡ (terms self).wanted }
    {
        match self {
            Profile::Plain => InitFlags::ASYNC_READ
                .union(InitFlags::BIG_WRITES)
                .union(InitFlags::INIT_EXT)
                .union(InitFlags::HAS_RESEND),
            Profile::Everyday => InitFlags::ASYNC_READ
                .union(InitFlags::BIG_WRITES)
                .union(directory_flags())
                .union(InitFlags::CACHE_SYMLINKS)
                .union(InitFlags::INIT_EXT)
                .union(InitFlags::HAS_RESEND),
        }
    }

    /// Whether the kernel keeps the names that it has looked up, and knows which are absent.
    pub fn keeps(self) -> bool
        ensures { result ≡ (terms self).keeps }
    {
        match self {
            Profile::Plain => false,
            Profile::Everyday => true,
        }
    }
}

fn directory_flags() -> InitFlags
    ensures { result.0 ≡ profiles.directory_flags }
{
    InitFlags::DO_READDIRPLUS
        .union(InitFlags::READDIRPLUS_AUTO)
        .union(InitFlags::PARALLEL_DIROPS)
}

/// A profile as a type.
pub trait Profiled {
    ghost PROFILE: { Profile };

    const PROFILE: Profile;
}

/// `Profile::Plain`.
pub struct PlainProfile;

impl Profiled for PlainProfile {
    ghost use Rattle.fuse_init.specs.declared.profile.Profile.TheVariants.{Plain};

    ghost PROFILE = { Plain };

    const PROFILE: Profile = Profile::Plain;
}

/// `Profile::Everyday`.
pub struct EverydayProfile;

impl Profiled for EverydayProfile {
    ghost use Rattle.fuse_init.specs.declared.profile.Profile.TheVariants.{Everyday};

    ghost PROFILE = { Everyday };

    const PROFILE: Profile = Profile::Everyday;
}
