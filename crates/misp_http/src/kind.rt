//! Kinds of bodies.

/// What the body of a reply is (RFC 9110, section 8.3).
#[derive(Clone, Copy, PartialEq, Eq)]
pub enum BodyKind {
    Json,
    Octets,
}
