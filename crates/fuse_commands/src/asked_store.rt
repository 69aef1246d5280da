//! The new store that a command line asks for.
ghost use Rattle.std.specs.Prelude.{◌≡◌, ◌<◌, ◌^◌, codes, option_map, IfSome};
ghost use Rattle.clap.specs.Matches.{found_of, first_value, one_text};
ghost use Rattle.fuse_commands.specs.Asking.{AsksFor, IsNumberIn, IsOwner, IsNamedOwner};
ghost use Rattle.fuse_commands.specs.Asking.{profile_named};
ghost use Rattle.fuse_commands.specs.Scripts.{IsDecimal};

use crate::program::add_argument;
use crate::script::{number_of, split_at};
use clap::{Arg, ArgMatches, value_parser};
use fuse_init::Profile;
use std::alloc::{AllocError, Global};

const PROFILE: &str = "profile";

const CAPACITY: &str = "capacity";

const OWNER: &str = "owner";

const EVERYDAY: &str = "everyday";

/// The owner of the root of a new store, as a command line names it.
#[derive(Clone, Copy, Debug, PartialEq, Eq)]
pub struct AskedOwner {
    pub uid: u32,
    pub gid: u32,
}

/// The new store that a command line asks for.
#[derive(Clone, Copy, Debug, PartialEq, Eq)]
pub struct AskedStore {
    pub profile: Profile,
    /// In bytes, if one is given.
    pub capacity: Option<u64>,
    /// If one is named.
    pub owner: Option<AskedOwner>,
}

impl AskedStore {
    /// A plain store.
    pub const PLAIN: AskedStore = AskedStore {
        profile: Profile::Plain,
        capacity: None,
        owner: None,
    };
}

fn profile_argument<'a>(alloc: Global) -> Arg<'a> {
    Arg::new(alloc, PROFILE)
        .long(PROFILE)
        .value_name("PROFILE")
        .value_parser(["plain", EVERYDAY].as_slice())
        .help("The profile of a new store [default: plain]")
}

fn capacity_argument<'a>(alloc: Global) -> Arg<'a> {
    Arg::new(alloc, CAPACITY)
        .long(CAPACITY)
        .value_name("BYTES")
        .value_parser(value_parser!(u64))
        .help("The room of a new everyday store, a multiple of 4096 [default: 2^40]")
}

fn owner_argument<'a>(alloc: Global) -> Arg<'a> {
    Arg::new(alloc, OWNER)
        .long(OWNER)
        .value_name("UID:GID")
        .help("The owner of the root of a new store [default: 0:0]")
}

/// Adds the arguments that say what a new store is.
pub(crate) fn add_new_store<'a>(
    alloc: Global,
    arguments: &mut Vec<Arg<'a>>,
) -> Result<(), AllocError> {
    add_argument(arguments, profile_argument(alloc))?;
    add_argument(arguments, capacity_argument(alloc))?;
    add_argument(arguments, owner_argument(alloc))
}

/// An argument that may not stand beside these.
pub(crate) fn without_new_store<'a>(argument: Arg<'a>) -> Result<Arg<'a>, AllocError> {
    argument.conflicts_with_all(&[PROFILE, CAPACITY, OWNER])
}

// The profile of this name.
fn profile_of(name: Option<&str>) -> Profile
    ensures { result ≡ profile_named (option_map (λ s. s.now) name.entry) }
{
    match name {
        Some(name) if name == EVERYDAY => Profile::Everyday,
        _ => Profile::Plain,
    }
}

// The number that is given as the capacity.
fn capacity_of(found: &ArgMatches<'_>) -> Option<u64>
    ensures { IsNumberIn (one_text (found_of found.now) (codes "capacity")) result }
{
    found.get_one::<u64>(CAPACITY)
}

// A number of 32 bits in decimal digits.
fn small_number_of(text: &[u8]) -> Option<u32>
    ensures { IfSome result (λ n. IsDecimal text.now n × (n < 2 ^ 32)) }
{
    u32::try_from(number_of(text)?).ok()
}

// The owner that a text names.
fn owner_of(text: &[u8]) -> Option<AskedOwner>
    ensures { IfSome result (IsOwner text.now) }
{
    let (uid, gid) = split_at(text, b':')?;
    Some(AskedOwner {
        uid: small_number_of(uid)?,
        gid: small_number_of(gid)?,
    })
}

/// Whether an owner is named by a text that names none.
pub(crate) fn names_no_owner(found: &ArgMatches<'_>) -> bool {
    match found.get_str(OWNER) {
        Some(text) => owner_of(text.as_bytes()).is_none(),
        None => false,
    }
}

// The owner that is named, if one is; none where the text of it names none.
fn owner_named(found: &ArgMatches<'_>) -> Option<Option<AskedOwner>>
    ensures { IfSome result (IsNamedOwner (first_value (found_of found.now) (codes "owner"))) }
{
    match found.get_str(OWNER) {
        Some(text) => Some(Some(owner_of(text.as_bytes())?)),
        None => Some(None),
    }
}

/// The new store that these arguments ask for; none where an owner is named by a text that names
/// none.
pub(crate) fn asked_store(found: &ArgMatches<'_>) -> Option<AskedStore>
    ensures { IfSome result (AsksFor (found_of found.now)) }
{
    Some(AskedStore {
        profile: profile_of(found.get_str(PROFILE)),
        capacity: capacity_of(found),
        owner: owner_named(found)?,
    })
}
