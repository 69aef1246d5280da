ghost use Rattle.std.specs.Prelude.{◌≡◌};
ghost use Rattle.fuse_rows.specs.Bounds as bounds;

use crate::limits::*;

/// The limits are those of the definitions, which state them as numbers.
pub fn limit_numbers()
    ensures nodes { MAX_NODES ≡ bounds.node_limit }
    ensures handles { MAX_HANDLES ≡ bounds.handle_limit }
    ensures counters { COUNTER_END ≡ bounds.number_end }
    ensures file { MAX_FILE ≡ bounds.file_limit }
    ensures blocks { MAX_BLOCKS ≡ bounds.block_limit }
    ensures capacities { CAPACITY_END ≡ bounds.capacity_end }
    ensures capacity { DEFAULT_CAPACITY ≡ bounds.default_capacity }
    ensures read { MAX_READ ≡ bounds.read_limit }
    ensures target { MAX_TARGET ≡ bounds.target_limit }
    ensures root { ROOT_ID ≡ bounds.fuse_root_id }
    ensures block { BLOCK_SIZE ≡ bounds.block_bytes }
    ensures sector { SECTOR_SIZE ≡ bounds.sector_bytes }
    ensures valid { VALID_SECS ≡ bounds.valid_seconds }
    ensures kept { KEPT_SECS ≡ bounds.kept_seconds }
    ensures absent { ABSENT_SECS ≡ bounds.absent_seconds }
    ensures entry { LEAST_ENTRY ≡ bounds.least_entry }
{}
