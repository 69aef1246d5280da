//! The data file beside a store.
ghost use Rattle.std.specs.Prelude.{◌≢◌, IfOk, IfErr};
ghost use Rattle.fuse_data_host.specs.declared.fault.OpenFault.TheVariants.{Missing};
ghost use Rattle.fuse_data_host.specs.Found.{IsFound};

use crate::fault::OpenFault;
use crate::host::Host;
use sqlite_disk::{Disk, Modelled, Start};
use std::fs::OpenOptions;
use std::hash::{BuildHasher, RandomState};
use std::os::fd::AsRawFd;
use std::os::unix::fs::{MetadataExt, OpenOptionsExt, PermissionsExt, fchown};
use std::path::PathBuf;
use std::{fs, io};

/// What comes after the path of a store in that of its data file.
pub const SUFFIX: &str = "-data";

/// A data file that held what `S` says.
pub type DataFrom<S> = Modelled<Host, S>;

/// Opens the data file of the store at this path. For a symbolic link it is the one beside its target.
/// `S` stands for what the file holds. Its value is used up, so that code over any `S` opens one file.
pub fn open<S: Start>(rt: &HostRuntime, store: &str, _start: S) -> Result<DataFrom<S>, OpenFault>
    ensures { IfOk result (IsFound ⟦<DataFrom<S> as Disk>⟧ S.Start.db) }
{
    find_beside(rt, store, true)
}

/// The same, only to read it: the system refuses each call that would change the file.
pub fn open_to_read<S: Start>(
    rt: &HostRuntime,
    store: &str,
    _start: S,
) -> Result<DataFrom<S>, OpenFault>
    ensures { IfOk result (IsFound ⟦<DataFrom<S> as Disk>⟧ S.Start.db) }
{
    find_beside(rt, store, false)
}

/// The same as `open`, and a data file that is missing is made. It gets the mode of the store, and its
/// group and owner where this process may set them.
pub fn open_or_make<S: Start>(
    rt: &HostRuntime,
    store: &str,
    _start: S,
) -> Result<DataFrom<S>, OpenFault>
    ensures found { IfOk result (IsFound ⟦<DataFrom<S> as Disk>⟧ S.Start.db) }
    ensures made { IfErr result (λ f. f ≢ Missing) }
{
    let real = fs::canonicalize(rt, store)?;
    let path = format!(in rt.alloc(); "{}{SUFFIX}", real.as_str())?;
    match make(rt, path.as_str()) {
        Ok(file) => {
            copy_access(&fs::metadata(rt, real.as_str())?, &file)?;
            settle(rt, file, path.as_str(), real)
        }
        Err(error) if error.kind() == io::ErrorKind::AlreadyExists => {
            let file = find(rt, path.as_str(), true)?;
            settle(rt, file, path.as_str(), real)
        }
        Err(error) => Err(OpenFault::Io(error)),
    }
}

// The data file beside a store, which is there.
fn find_beside<S: Start>(
    rt: &HostRuntime,
    store: &str,
    writes: bool,
) -> Result<DataFrom<S>, OpenFault>
    ensures { IfOk result (IsFound ⟦<DataFrom<S> as Disk>⟧ S.Start.db) }
{
    let real = fs::canonicalize(rt, store)?;
    let path = format!(in rt.alloc(); "{}{SUFFIX}", real.as_str())?;
    match find(rt, path.as_str(), writes) {
        Ok(file) => settle(rt, file, path.as_str(), real),
        Err(OpenFault::Io(error)) if error.kind() == io::ErrorKind::NotFound => {
            Err(OpenFault::Missing)
        }
        Err(fault) => Err(fault),
    }
}

// The regular file at this path, to read or to write, too. No link is followed.
fn find(rt: &HostRuntime, path: &str, writes: bool) -> Result<fs::File, OpenFault>
    ensures { IfErr result (λ f. f ≢ Missing) }
{
    if !fs::symlink_metadata(rt, path)?.is_file() {
        return Err(OpenFault::Unsuited);
    }
    Ok(OpenOptions::new().read(true).write(writes).open(rt, path)?)
}

// A new file. Nothing may have the path, a link neither.
fn make(rt: &HostRuntime, path: &str) -> io::Result<fs::File> {
    OpenOptions::new()
        .read(true)
        .write(true)
        .create_new(true)
        .mode(0o600)
        .open(rt, path)
}

// Gives a file the mode of the store, and its group and owner where this process may. Only root sets
// the owner, and a member of the group may still set that.
fn copy_access(store: &fs::Metadata, file: &fs::File) -> io::Result<()> {
    unless_denied(fchown(file, None, Some(store.gid())))?;
    unless_denied(fchown(file, Some(store.uid()), None))?;
    file.set_permissions(fs::Permissions::from_mode(store.mode() & 0o777))
}

fn unless_denied(outcome: io::Result<()>) -> io::Result<()> {
    match outcome {
        Err(error) if error.kind() == io::ErrorKind::PermissionDenied => Ok(()),
        other => other,
    }
}

// The file of this path, on the disk as it reads. The folder is that of the store at `real`.
fn settle<S: Start>(
    rt: &HostRuntime,
    file: fs::File,
    path: &str,
    real: PathBuf,
) -> Result<DataFrom<S>, OpenFault>
    ensures found { IfOk result (IsFound ⟦<DataFrom<S> as Disk>⟧ S.Start.db) }
    ensures there { IfErr result (λ f. f ≢ Missing) }
{
    let file = above_standard(file)?;
    if !is_alone(rt, &file, path)? {
        return Err(OpenFault::Unsuited);
    }
    let key = RandomState::new(rt)?.hash_one(&0u8);
    let folder = folder_of(rt, real)?;
    let host = Host::settle(file, &folder, key)?;
    Ok(Modelled::new(host, false, key))
}

// What is meant for a standard stream that was closed must not land in the file.
fn above_standard(file: fs::File) -> io::Result<fs::File> {
    if file.as_raw_fd() <= 2 {
        file.try_clone()
    } else {
        Ok(file)
    }
}

// Whether this regular file has the path as its name, and no other one.
fn is_alone(rt: &HostRuntime, file: &fs::File, path: &str) -> io::Result<bool> {
    let (found, named) = (file.metadata()?, fs::symlink_metadata(rt, path)?);
    let is_named = found.dev() == named.dev() && found.ino() == named.ino();
    Ok(is_named && found.is_file() && found.nlink() == 1)
}

fn folder_of(rt: &HostRuntime, mut path: PathBuf) -> io::Result<fs::File> {
    path.pop();
    fs::File::open(rt, path.as_str())
}
