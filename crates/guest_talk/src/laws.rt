ghost use Rattle.guest_talk.specs.Growing.{RecordsGrow};
ghost use Rattle.guest_talk.specs.Lives.{SomeGuestAgrees};

use fuse_wire::numbers_read;
use guest_frames::frames_stand;

/// A guest that agrees with a record agrees with each beginning of it.
pub fn records_grow()
    ensures { RecordsGrow }
{}

/// Whatever guests of one READY said in their lives, where no two requests were asked by the same
/// bytes there is one guest that agrees with the record of each life.
pub fn some_guest_agrees_with_lives()
    ensures { SomeGuestAgrees }
{
    numbers_read();
    frames_stand();
}
