ghost use Rattle.std.specs.Prelude.{◌≡◌, true, None, IfErr};
ghost use Rattle.fuse_show.specs.Looks.{ReadOff, OnlyLooked};
ghost use Rattle.fuse_show.specs.inner.Finding.{is_of_finding, IsRoot, StepsTo};
ghost use Rattle.fuse_show.specs.Paths.{names_of};
ghost use Rattle.fuse_show.specs.Lookup.{Finds};

use crate::fault::ShowFault;
use crate::modes::is_directory;
use crate::paths::next_name;
use fuse_plan::rows_of_trees;
use fuse_rows::{NodeRow, ROOT_ID};
use fuse_tree::Look;

// The row of the root.
fn find_root<L: Look>(look: &mut L) -> Result<NodeRow, ShowFault>
    requires { L.fault look.old ≡ None }
    ensures found { ReadOff (L.is_clean look.new) (L.sees look.old) (λ rows. IsRoot rows result) }
    ensures looked { OnlyLooked L.fault L.looks L.fails look.old look.new result }
    ensures reasons { IfErr result (λ fault. is_of_finding fault ≡ true) }
{
    rows_of_trees();
    let Some(row) = look.node(ROOT_ID)? else {
        return Err(ShowFault::NotATree);
    };
    Ok(row)
}

// The row of the node that a name leads to from `from`.
fn step<L: Look>(look: &mut L, from: &NodeRow, name: &[u8]) -> Result<NodeRow, ShowFault>
    requires { L.fault look.old ≡ None }
    ensures found { ReadOff (L.is_clean look.new) (L.sees look.old) (λ rows.
        StepsTo rows from.now name.now result) }
    ensures looked { OnlyLooked L.fault L.looks L.fails look.old look.new result }
    ensures reasons { IfErr result (λ fault. is_of_finding fault ≡ true) }
{
    rows_of_trees();
    if !is_directory(from.mode) {
        return Err(ShowFault::NotDirectory);
    }
    let Some(entry) = look.entry(from.node, name)? else {
        return Err(ShowFault::NoSuchPath);
    };
    let Some(row) = look.node(entry.child)? else {
        return Err(ShowFault::NotATree);
    };
    Ok(row)
}

/// The row of the node at a path, from the root. Any number of slashes may stand before, between and
/// after the names. The names `.` and `..` have no special meaning.
pub(crate) fn find<L: Look>(look: &mut L, path: &[u8]) -> Result<NodeRow, ShowFault>
    requires { L.fault look.old ≡ None }
    ensures found { ReadOff (L.is_clean look.new) (L.sees look.old) (λ rows.
        Finds rows (names_of path.now) result) }
    ensures looked { OnlyLooked L.fault L.looks L.fails look.old look.new result }
    ensures reasons { IfErr result (λ fault. is_of_finding fault ≡ true) }
{
    let mut place = match find_root(look) {
        Ok(root) => root,
        Err(fault) => return Err(fault),
    };
    let mut rest = path;
    while let Some((name, after)) = next_name(rest) {
        match step(look, &place, name) {
            Ok(row) => place = row,
            Err(fault) => return Err(fault),
        }
        rest = after;
    }
    Ok(place)
}
