//! The limits of a session.

ghost use Rattle.std.specs.Prelude.{◌≡◌};
ghost use Rattle.misp_api.specs.Limits.{request_limit, room_limit, change_limit};

use crate::{CHANGE_TEXT, MAX_REQUESTS, REPLY_ROOM};

/// The constants are the limits of the definitions.
pub fn the_limits_are_as_stated()
    ensures { (MAX_REQUESTS ≡ request_limit) × (REPLY_ROOM ≡ room_limit)
        × (CHANGE_TEXT ≡ change_limit) }
{}
