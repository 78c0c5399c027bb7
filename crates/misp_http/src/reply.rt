//! Reads replies.

ghost use Rattle.std.specs.Prelude.{◌≡◌};
ghost use Rattle.misp_http.specs.Reply.{ReadsReply};

use crate::headers::only_content_length;
use httparse::Status;
use httparse::spans::{EMPTY_HEADER_SPAN, parse_response};
use misp_ids::NoMemory;
use std::alloc::{AllocError, Global};

/// Why bytes are no reply.
#[derive(Clone, Copy, PartialEq, Eq)]
pub enum ReplyFault {
    /// They begin with no head of at most 64 headers that says one length.
    Head,
    /// There are more or fewer bytes after the head.
    Body,
    NoMemory,
}

impl From<AllocError> for ReplyFault {
    ghost use Rattle.misp_http.specs.declared.reply.ReplyFault.TheVariants.{NoMemory};

    ghost from_gives = { λ _ fault. fault ≡ NoMemory };

    fn from(_error: AllocError) -> ReplyFault {
        ReplyFault::NoMemory
    }
}

/// The status and the body of the one reply that the bytes are (RFC 9112, sections 4 and 6.3).
pub fn read_reply(alloc: Global, bytes: &[u8]) -> Result<(u16, Vec<u8>), ReplyFault>
    ensures { ReadsReply (λ body. body.items) bytes.now result }
{
    let mut spans = [EMPTY_HEADER_SPAN; 64];
    let Ok(Status::Complete(head)) = parse_response(bytes, &mut spans) else {
        return Err(ReplyFault::Head);
    };
    let Some(size) = only_content_length(bytes, &spans[..head.headers]) else {
        return Err(ReplyFault::Head);
    };
    let body = &bytes[head.len..];
    if body.len() != size {
        return Err(ReplyFault::Body);
    }
    Ok((head.code, Vec::from_slice(alloc, body)?))
}
