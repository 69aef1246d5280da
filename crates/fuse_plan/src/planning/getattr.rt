ghost use Rattle.std.specs.Prelude.{◌≡◌, IfOk};
ghost use Rattle.fuse_tree.specs.Keeping.{valid_of};
ghost use Rattle.fuse_plan.specs.inner.Reading.{IsWithin, attr_body, told};

use super::answers::{attr_answer, unchanged};
use crate::planned::Planned;
use fuse_rows::NodeRow;
use fuse_tree::Agreement;
use fuse_wire::Memory;
use std::alloc::Global;

// GETATTR. Its flags and its handle are not looked at.
pub(crate) fn plan_getattr(
    alloc: Global,
    agreement: &Agreement,
    row: &NodeRow,
) -> Result<Planned, Memory>
    requires { IsWithin row.now }
    ensures { IfOk result (λ p. p ≡ told (attr_body
        (valid_of agreement.now) row.now)) }
{
    let valid = agreement.valid_secs();
    Ok(unchanged(alloc, attr_answer(alloc, valid, row)?))
}
