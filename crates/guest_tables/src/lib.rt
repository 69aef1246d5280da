//! The tables of a guest's store, and the statements on them.
#![tactic(auto)]

mod columns;
mod counters;
mod creation;
mod found;
mod fresh;
mod laws;
mod layout;
mod lots;
mod meta;
mod mount;
mod opening;
mod owned_pair;
mod pair_counts;
mod pair_laws;
mod pairs;
mod record_checks;
mod records;
mod scans;
mod schema;
mod settings;
mod shapes;
mod slices;
mod statements;
mod taking;
mod values;

pub use columns::bits_at;
pub use counters::{
    AGREED, FLAGS, MAX_READAHEAD, MINOR, NEXT_LOT, NUMBER, PLEDGED, VERSION, select_counters,
    update_counter,
};
pub use creation::make_store;
pub use found::{find_answer, find_next_lot, find_pledged, find_settings};
pub use fresh::open_fresh;
pub use laws::{contents_are_read, holdings_are_read, steps_fit, steps_hold};
pub use lots::{count_lots, insert_lot, take_lot};
pub use mount::begin_mount;
pub use opening::open_store;
pub use owned_pair::{OwnedPair, PairPage};
pub use pair_counts::count_pairs;
pub use pair_laws::{pair_steps_fit, steps_are_of_pairs};
pub use pairs::{clear_pairs, delete_pair, put_pair, select_pair};
pub use records::{count_kept, delete_four_kept, delete_kept, insert_kept, select_kept};
pub use scans::scan_pairs;
pub use settings::write_settings;
