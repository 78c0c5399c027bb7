//! Requests and replies of HTTP/1.1 (RFC 9110 and RFC 9112) as bytes: what the bytes of a
//! connection are, and what is written to it.
#![tactic(auto)]

mod fault;
mod head;
mod headers;
mod kind;
mod laws;
mod lines;
mod parsing;
mod printing;
mod reading;
mod reply;
mod request;
mod writing;

pub use fault::{Fault, HeadFault};
pub use kind::BodyKind;
pub use laws::{
    a_long_request_is_refused, a_reply_is_one_thing, a_reply_is_read_back, a_request_is_read_back,
    bytes_are_one_thing, the_limits_are_as_stated,
};
pub use printing::{put_reply, reply_bytes, request_bytes};
pub use reading::read_request;
pub use reply::{ReplyFault, read_reply};
pub use request::{Read, ReadEnd, Request};
pub use writing::write_all;

/// The most bytes that are looked at for the head of a request.
pub const MAX_HEAD: usize = 16384;

/// The most headers of a head.
pub const MAX_HEADERS: usize = 64;

/// The most bytes of the body of a request.
pub const MAX_BODY: usize = 8_388_608;
