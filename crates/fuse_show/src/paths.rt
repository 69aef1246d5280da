ghost use Rattle.std.specs.Prelude.{◌≡◌, ◌<◌, ◌++◌, ◌∷◌, [], None, length, IfSome};
ghost use Rattle.fuse_show.specs.Paths.{names_of};
ghost use Rattle.fuse_show.specs.inner.Finding.{Lacks};

// The parts of a path before and after its first slash.
fn split_at_slash(path: &[u8]) -> Option<(&[u8], &[u8])>
    ensures some { IfSome result (λ parts. (path.now ≡ parts.0.now ++ 47 ∷ parts.1.now)
        × Lacks 47 parts.0.now) }
    ensures none { result ≡ None → Lacks 47 path.now }
{
    let place = path.iter().position(|b| *b == b'/')?;
    Some((&path[..place], &path[place + 1..]))
}

/// The first name of a path, and the part of the path after it.
pub(crate) fn next_name(path: &[u8]) -> Option<(&[u8], &[u8])>
    ensures some { IfSome result (λ parts. (names_of path.now
        ≡ parts.0.now ∷ names_of parts.1.now) × (length parts.1.now < length path.now)) }
    ensures none { result ≡ None → names_of path.now ≡ [] }
{
    let mut rest = path;
    while let Some((part, after)) = split_at_slash(rest) {
        if !part.is_empty() {
            return Some((part, after));
        }
        rest = after;
    }
    if rest.is_empty() {
        None
    } else {
        let (_, after) = rest.split_at(rest.len());
        Some((rest, after))
    }
}
