ghost use Rattle.std.specs.Prelude.{◌≡◌, [], ◌∷◌, IfOk};
ghost use Rattle.fuse_answer.specs.Bodies.{init_bytes};
ghost use Rattle.fuse_init.specs.Agree.{agree};
ghost use Rattle.fuse_plan.specs.inner.PlanInit as planning;
ghost use Rattle.fuse_plan.specs.inner.Reading.{told};

use super::answers::{refused, unchanged};
use crate::planned::Planned;
use fuse_answer::{Answer, InitOut};
use fuse_init::{Negotiated, Profile, Settings, negotiate};
use fuse_request::InitIn;
use fuse_rows::{Change, ChangeList};
use fuse_wire::{ByteList, Memory};
use std::alloc::Global;

// INIT. The new settings replace the old ones.
pub(crate) fn plan_init(alloc: Global, profile: Profile, offer: &InitIn) -> Result<Planned, Memory>
    ensures { IfOk result (λ p. p ≡ planning.plan_init (agree profile offer.now)) }
{
    match negotiate(profile, offer) {
        Negotiated::Agreed { out, settings } => Ok(Planned {
            answer: init_answer(alloc, &out)?,
            changes: settled(alloc, settings)?,
        }),
        Negotiated::Again { out } => Ok(unchanged(alloc, init_answer(alloc, &out)?)),
        Negotiated::Refused(errno) => Ok(refused(alloc, errno)),
    }
}

fn init_answer(alloc: Global, out: &InitOut) -> Result<Answer, Memory>
    ensures { IfOk result (λ answer. answer ≡ (told (init_bytes out.now)).answer) }
{
    let body = out.body_of(alloc)?;
    Ok(Answer::success(ByteList::from_vec(body)))
}

// The one change that sets these settings.
fn settled(alloc: Global, settings: Settings) -> Result<ChangeList, Memory>
    ensures { IfOk result (λ changes. changes ≡ Change.Settings settings ∷ []) }
{
    let mut changes = Vec::new(alloc);
    changes.push(Change::Settings(settings))?;
    Ok(ChangeList::from_vec(changes))
}
