//! Laws of readings.

ghost use Rattle.std.specs.Prelude.{◌≡◌, ◌<◌, ◌^◌, ℕ, Bool, List, Option, length};
ghost use Rattle.misp_http.specs.Limits.{head_limit, header_limit, body_limit};
ghost use Rattle.misp_http.specs.ReadBack.{HasForms, IsWritable, IsReadBack, IsTooLong};
ghost use Rattle.misp_http.specs.Reading.{AreOne, LeaveOne};
ghost use Rattle.misp_http.specs.Reply.{IsReply, IsOneReply};
ghost use Rattle.misp_http.specs.Texts.{IsReplyStatus, reply_text};
ghost use Rattle.misp_http.specs.declared.kind.BodyKind.{BodyKind};

use crate::{MAX_BODY, MAX_HEAD, MAX_HEADERS};

/// Bytes are one thing: what is read of them is the same, however they come, and so is what a
/// request leaves.
pub fn bytes_are_one_thing()
    ensures read { (bytes : List ℕ) → AreOne bytes }
    ensures left { (bytes : List ℕ) → LeaveOne bytes }
{}

/// A request is read back as what it was made of, where its parts have the forms that a head takes.
pub fn a_request_is_read_back()
    ensures { (method target : List ℕ) (key : Option (List ℕ)) (body : List ℕ) (close : Bool)
        → IsWritable method target key body close → IsReadBack method target key body close }
{}

/// A request with a longer body than the limit is refused for that, whatever follows. Every body
/// in memory is short enough to be written.
pub fn a_long_request_is_refused()
    ensures { (method target : List ℕ) (key : Option (List ℕ)) (body : List ℕ) (close : Bool)
        → HasForms method target key body close → body_limit < length body → length body < 2 ^ 63
        → IsTooLong method target key body close }
{}

/// Bytes are at most one reply.
pub fn a_reply_is_one_thing()
    ensures { (bytes : List ℕ) → IsOneReply bytes }
{}

/// A reply is read back as what it was made of. Every body in memory is short enough.
pub fn a_reply_is_read_back()
    ensures { (status : ℕ) (kind : BodyKind) (body : List ℕ) (close : Bool)
        → IsReplyStatus status → length body < 2 ^ 63
        → IsReply (reply_text status kind body close) status body }
{}

/// The constants are the limits of the definitions.
pub fn the_limits_are_as_stated()
    ensures { (MAX_HEAD ≡ head_limit) × (MAX_HEADERS ≡ header_limit) × (MAX_BODY ≡ body_limit) }
{}
