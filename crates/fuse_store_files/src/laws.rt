// What is so of the files of a plain store.
ghost use Rattle.fuse_store_files.specs.Files.{PlainOverAny};

/// A plain store is the same over any data file.
pub fn plain_over_any()
    ensures { PlainOverAny }
{}
