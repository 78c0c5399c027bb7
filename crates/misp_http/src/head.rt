//! The head of a request.

ghost use Rattle.std.specs.Prelude.{◌≤◌};
ghost use Rattle.misp_http.specs.Limits.{head_limit, body_limit};

use misp_ids::Text;

/// What a head says: its request line and its headers (RFC 9112, sections 3 and 5).
#[derive(Drop)]
pub struct Head {
    pub method: Text,
    pub target: Text,
    pub key: Option<Text>,
    pub close: bool,
    /// How many bytes the head has.
    pub size: usize,
    /// How many bytes the body has.
    pub body_size: usize,
    ghost short: { size ≤ head_limit },
    ghost small: { body_size ≤ body_limit },
}
