//! What `--version` prints after the program's name.

/// The version, and the digest of the sources, which `dist/version` writes in place of the zeros.
pub(crate) const VERSION: &str =
    "1.0, sources 0000000000000000000000000000000000000000000000000000000000000000";
