ghost use Rattle.std.specs.Prelude.{◌≡◌, ◌<◌, if◌then◌else◌, codes, IfErr};
ghost use Rattle.fuse_tree.specs.State.{is_dir, is_file};
ghost use Rattle.fuse_show.specs.Modes.{has_bit, kind_text, run_text, mode_text};
ghost use Rattle.fuse_show.specs.inner.Writing.{class_text, PutsOut, WritesOut};
ghost use Rattle.fuse_show.specs.Modes.{owner_text, group_text, others_text};

use crate::fault::ShowFault;
use crate::output::put_texts;
use fuse_session::Sink;
use fuse_tree::{S_IFBLK, S_IFCHR, S_IFDIR, S_IFIFO, S_IFLNK, S_IFREG, S_IFSOCK, TYPE_UNIT, TYPES};

/// Whether a mode is of a directory.
pub(crate) fn is_directory(mode: u32) -> bool
    ensures { result ≡ is_dir mode }
{
    mode / TYPE_UNIT % TYPES == S_IFDIR / TYPE_UNIT
}

/// Whether a mode is of a regular file.
pub(crate) fn is_regular_file(mode: u32) -> bool
    ensures { result ≡ is_file mode }
{
    mode / TYPE_UNIT % TYPES == S_IFREG / TYPE_UNIT
}

// The letter of the file type.
fn kind_of(mode: u32) -> &'static str
    ensures { result.now ≡ kind_text mode }
{
    let kind = mode / TYPE_UNIT % TYPES * TYPE_UNIT;
    if kind == S_IFDIR {
        "d"
    } else if kind == S_IFCHR {
        "c"
    } else if kind == S_IFBLK {
        "b"
    } else if kind == S_IFIFO {
        "p"
    } else if kind == S_IFSOCK {
        "s"
    } else if kind == S_IFLNK {
        "l"
    } else {
        "-"
    }
}

// Whether a mode has the bit of this value.
fn has(mode: u32, unit: u32) -> bool
    requires { 0 < unit }
    ensures { result ≡ has_bit mode unit }
{
    mode / unit % 2 == 1
}

// The letter if the bit is set, else a dash.
fn letter(is_set: bool, letter: &'static str) -> &'static str
    ensures { result.now ≡ (if is_set then letter.now else codes "-") }
{
    if is_set { letter } else { "-" }
}

// The letter of the execute bit, which also shows a set-id or sticky bit.
fn run_letter(runs: bool, is_special: bool, both: &'static str, alone: &'static str) -> &'static str
    ensures { result.now ≡ run_text runs is_special both.now alone.now }
{
    if is_special {
        if runs { both } else { alone }
    } else {
        letter(runs, "x")
    }
}

// The permissions of a class of users.
#[derive(Clone, Copy)]
struct Class {
    read: &'static str,
    write: &'static str,
    run: &'static str,
}

fn owner_class(mode: u32) -> Class
    ensures { class_text result.read.now result.write.now result.run.now ≡ owner_text mode }
{
    Class {
        read: letter(has(mode, 0o400), "r"),
        write: letter(has(mode, 0o200), "w"),
        run: run_letter(has(mode, 0o100), has(mode, 0o4000), "s", "S"),
    }
}

fn group_class(mode: u32) -> Class
    ensures { class_text result.read.now result.write.now result.run.now ≡ group_text mode }
{
    Class {
        read: letter(has(mode, 0o40), "r"),
        write: letter(has(mode, 0o20), "w"),
        run: run_letter(has(mode, 0o10), has(mode, 0o2000), "s", "S"),
    }
}

fn others_class(mode: u32) -> Class
    ensures { class_text result.read.now result.write.now result.run.now ≡ others_text mode }
{
    Class {
        read: letter(has(mode, 0o4), "r"),
        write: letter(has(mode, 0o2), "w"),
        run: run_letter(has(mode, 0o1), has(mode, 0o1000), "t", "T"),
    }
}

/// Writes the type and the permissions of a node, as the ten letters of ls(1).
pub(crate) fn put_mode<W: Sink>(writer: &mut W, mode: u32) -> Result<(), ShowFault>
    ensures put { PutsOut W.was_written writer.old writer.new result
        (λ bytes. WritesOut (mode_text mode) bytes result) }
    ensures fault { IfErr result (λ fault. fault ≡ ShowFault.Output) }
{
    let owner = owner_class(mode);
    let group = group_class(mode);
    let others = others_class(mode);
    put_texts(
        writer,
        &[
            kind_of(mode),
            owner.read,
            owner.write,
            owner.run,
            group.read,
            group.write,
            group.run,
            others.read,
            others.write,
            others.run,
        ],
    )
}
