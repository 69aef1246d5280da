ghost use Rattle.fuse_session.specs.Processed.{AnswersStay, PerformedHaveIds};

use fuse_keeper::{Keeper, histories_grow};

/// The answer to a message stays when the history grows after it.
pub fn answers_stay<K: Keeper>()
    ensures { AnswersStay K.model }
{
    histories_grow::<K>();
}

/// A kept or a seen message that isn't zero has an id.
pub fn performed_have_ids()
    ensures { PerformedHaveIds }
{}
