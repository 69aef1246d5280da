ghost use Rattle.fuse_keeper.specs.Model.{IsSoundModel};
ghost use Rattle.fuse_guest.specs.Conversations.{HasReply, OneGuest};
ghost use Rattle.fuse_guest.specs.GuestModel.{guest_model};
ghost use Rattle.fuse_guest.specs.Laws.{PairsAreMap, RepliesFit, ScansList};
ghost use Rattle.fuse_guest.specs.Replayed.{PremiseIsMet, TalksAreModel};

use crate::guest::Guested;
use fuse_answer::record_sizes;
use fuse_wire::layouts_stand;

/// Whatever a guest says, it is a file system of which a keeper can be made.
pub fn guest_is_sound<G: Guested>()
    ensures { IsSoundModel (guest_model G.GUEST) }
{
    record_sizes();
}

/// An engine that shows the pairs as they are has the reply of the model, where the guest said what
/// came.
pub fn has_reply()
    ensures { HasReply }
{}

/// Whatever was said about requests that differ in id or moment, there is one guest that says it.
pub fn one_guest()
    ensures { OneGuest }
{}

/// Where the guest agrees with the talk about each request of a history, over the pairs that stand
/// there, the model says what the engine made of these talks: the same pairs, and the same answers.
pub fn talks_are_the_model()
    ensures { TalksAreModel }
{}

/// Whatever the guests of a mount said of its requests, there is one guest that agrees with all.
pub fn premise_is_met()
    ensures { PremiseIsMet }
{}

/// What the engine shows of pairs is a frame, and not too long.
pub fn replies_fit()
    ensures { RepliesFit }
{
    layouts_stand();
}

/// Pairs are a map: each change does what it says, and they are the same where they hold the same.
pub fn pairs_are_a_map()
    ensures { PairsAreMap }
{}

/// PAIRS lists the pairs of the range in their order, from the first on, as many as may be.
pub fn scans_list()
    ensures { ScansList }
{}
