ghost use Rattle.std.specs.Prelude.{◌≡◌};
ghost use Rattle.fuse_wire.specs.Bounds as bounds;
ghost use Rattle.guest_frames.specs.Laws.{FramesStand};
ghost use Rattle.guest_frames.specs.Limits as limits;

use crate::limits::{
    MAX_ANSWER_BODY, MAX_CHANGES, MAX_ERROR, MAX_FRAME, MAX_KEY, MAX_KEYS, MAX_REPLY, MAX_VALUE,
    VERSION,
};
use fuse_wire::{layouts_stand, numbers_read};

/// A stream has one cut into frames, and a frame's bytes are those of its head and its payload.
pub fn frames_stand()
    ensures { FramesStand }
{
    numbers_read();
    layouts_stand();
}

/// The constants are the limits of the definitions.
pub fn frame_limits()
    ensures version { VERSION ≡ limits.protocol_version }
    ensures frame { MAX_FRAME ≡ limits.max_frame_len }
    ensures reply { MAX_REPLY ≡ limits.max_reply_len }
    ensures key { MAX_KEY ≡ limits.max_key_len }
    ensures value { MAX_VALUE ≡ limits.max_value_len }
    ensures keys { MAX_KEYS ≡ limits.max_keys }
    ensures changes { MAX_CHANGES ≡ limits.max_changes }
    ensures body { MAX_ANSWER_BODY ≡ bounds.max_body_len }
    ensures error { MAX_ERROR ≡ bounds.max_error_number }
{}
