ghost use Rattle.fuse_session.specs.StreamSteps.{sides};
ghost use Rattle.alone_source.specs.Groups.{AlwaysAlone, AlwaysAloneStream};

use fuse_request::{cut_joins, cut_steps, one_cut};
use fuse_session::{Sink, Source};
use fuse_wire::numbers_read;

/// The groups of a session over a device or a stream that is read through an `AloneSource`: the
/// request of the id is the only one of its group.
pub fn groups_alone<S: Source, W: Sink>()
    ensures device { AlwaysAlone S.was_read W.was_written }
    ensures stream { AlwaysAloneStream (sides S.remaining W.contents S.was_read W.was_written
        W.was_flushed) }
{
    numbers_read();
    one_cut();
    cut_joins();
    cut_steps();
}
