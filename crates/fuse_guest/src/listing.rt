// Whether bytes are entries of a directory.
ghost use Rattle.std.specs.Prelude.{◌≡◌, ◌≤◌, drop, length};
ghost use Rattle.std.specs.Option.{option_map};
ghost use Rattle.fuse_answer.specs.Entries.{padding, entry_len};
ghost use Rattle.fuse_answer.specs.FirstEntry.{leading_entry};
ghost use Rattle.fuse_guest.specs.RightBodies as bodies;

use fuse_answer::{Dirent, MAX_NAME};
use fuse_wire::u32_at;

// Neither a slash nor a NUL is in it.
fn is_clean_name(name: &[u8]) -> bool
    ensures { result ≡ bodies.is_clean_name name.now }
{
    !(name.contains(&b'/') || name.contains(&0))
}

// How many bytes an entry takes whose name has this length, at most `MAX_NAME`.
fn entry_len(name_len: usize) -> usize
    requires { name_len ≤ MAX_NAME }
    ensures { result ≡ entry_len name_len }
{
    Dirent::NAME_AT + (name_len + (8 - name_len % 8) % 8)
}

// The bytes after the entry that stands first, if it is whole and its name is clean.
fn clean_rest(bytes: &[u8]) -> Option<&[u8]>
    ensures { option_map (λ rest. rest.now) result ≡ bodies.clean_rest (leading_entry bytes.now) }
{
    if bytes.len() < Dirent::NAME_AT {
        return None;
    }
    let name_len = u32_at(bytes, 16) as usize;
    if name_len == 0 || name_len > MAX_NAME {
        return None;
    }
    let len = entry_len(name_len);
    if bytes.len() < len {
        return None;
    }
    if !is_clean_name(&bytes[Dirent::NAME_AT..Dirent::NAME_AT + name_len]) {
        return None;
    }
    Some(&bytes[len..])
}

// The same, for an entry after so many bytes.
fn rest_after(bytes: &[u8], before: usize) -> Option<&[u8]>
    ensures { option_map (λ rest. rest.now) result
        ≡ bodies.clean_rest (leading_entry (drop before bytes.now)) }
{
    if bytes.len() < before {
        return None;
    }
    let (_before, entry) = bytes.split_at(before);
    clean_rest(entry)
}

// Whether a body is whole entries with clean names, each after so many bytes.
pub(crate) fn lists_entries(body: &[u8], before: usize) -> bool
    ensures { result ≡ bodies.lists_entries (length body.now) before body.now }
{
    let mut rest = body;
    for _entry in 0..body.len() {
        if rest.is_empty() {
            return true;
        }
        let Some(follows) = rest_after(rest, before) else {
            return false;
        };
        rest = follows;
    }
    rest.is_empty()
}
