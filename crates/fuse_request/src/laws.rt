ghost use Rattle.std.specs.Prelude.{◌≡◌};
ghost use Rattle.fuse_wire.specs.Bounds as bounds;
ghost use Rattle.fuse_request.specs.Canon.{CanonSpells};
ghost use Rattle.fuse_request.specs.Classes.{SeenByClass};
ghost use Rattle.fuse_request.specs.Places.{SpelledAt};
ghost use Rattle.fuse_request.specs.Stream.{IsOneCut, CutJoins, CutSteps};

use crate::framer::MAX_FED;
use crate::header::{MAX_MESSAGE, MIN_MESSAGE};
use fuse_wire::{layouts_stand, names_end, numbers_read};

/// A stream has one cut into messages and a rest.
pub fn one_cut()
    ensures { IsOneCut }
{
    numbers_read();
}

/// It doesn't matter in which pieces a stream came.
pub fn cut_joins()
    ensures { CutJoins }
{
    numbers_read();
}

/// A whole message is the first of the cut.
pub fn cut_steps()
    ensures { CutSteps }
{
    numbers_read();
}

/// A request that has a spelling is spelled by its canon.
pub fn canon_spells()
    ensures { CanonSpells }
{
    layouts_stand();
}

/// The request that a message spells stands at the places of its opcode.
pub fn spelled_at()
    ensures { SpelledAt }
{
    layouts_stand();
    names_end();
}

/// The request in a message that is seen is of an opcode that is seen, and in one that is kept it
/// isn't.
pub fn seen_by_class()
    ensures { SeenByClass }
{}

/// How short and how long messages are, and how much a framer is fed.
pub fn message_bounds()
    ensures shortest { MIN_MESSAGE ≡ bounds.min_message_len }
    ensures longest { MAX_MESSAGE ≡ bounds.max_message_len }
    ensures fed { MAX_FED ≡ bounds.max_fed_len }
{}
