//! What the data file held as it was opened.
ghost use Rattle.std.specs.Prelude.{false, []};

use sqlite_disk::Start;

/// For `main` to name. It is another type than that of the database's files, since one value of each
/// type opens one of them. A torn write may leave any bytes.
#[derive(Drop)]
pub struct DataStart;

impl Start for DataStart {
    ghost log = { [] };

    ghost db = { [] };

    ghost is_mixing = { false };

    fn mixes() -> bool {
        false
    }
}
