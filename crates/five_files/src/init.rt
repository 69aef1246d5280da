// INIT.
ghost use Rattle.std.specs.Prelude.{◌≡◌, IfOk, OnOk};
ghost use Rattle.fuse_answer.specs.Bodies.{init_bytes};
ghost use Rattle.fuse_init.specs.Agree.{agree};
ghost use Rattle.fuse_init.specs.declared.profile.Profile.TheVariants as profiles;
ghost use Rattle.five_files.specs.Answers.{give};
ghost use Rattle.five_files.specs.Asking.{said_init, agreed_by};

use fuse_answer::{Answer, InitOut};
use fuse_init::{Negotiated, Profile, Settings, negotiate};
use fuse_request::InitIn;
use fuse_wire::{ByteList, Memory};
use std::alloc::Global;

fn init_answer(alloc: Global, out: &InitOut) -> Result<Answer, Memory>
    ensures { IfOk result (λ answer. answer ≡ give (init_bytes out.now)) }
{
    let body = out.body_of(alloc)?;
    Ok(Answer::success(ByteList::from_vec(body)))
}

// The new settings replace the old ones.
pub(crate) fn init(
    alloc: Global,
    agreed: &mut Option<Settings>,
    offer: &InitIn,
) -> Result<Answer, Memory>
    ensures answer { IfOk result (λ answer. answer ≡ said_init (agree profiles.Plain offer.now)) }
    ensures agreed { OnOk result (agreed.new ≡ agreed_by agreed.old (agree profiles.Plain offer.now)) }
{
    match negotiate(Profile::Plain, offer) {
        Negotiated::Agreed { out, settings } => {
            let answer = init_answer(alloc, &out)?;
            *agreed = Some(settings);
            Ok(answer)
        }
        Negotiated::Again { out } => init_answer(alloc, &out),
        Negotiated::Refused(errno) => Ok(Answer::refusal(alloc, errno)),
    }
}
