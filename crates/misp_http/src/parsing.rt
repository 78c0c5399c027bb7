//! What the first bytes of a request are.

ghost use Rattle.std.specs.Prelude.{◌≡◌, ◌≤◌, length, IfOk, IsUtf8};
ghost use Rattle.httparse.specs.Grammar.{NeverHasRequest};
ghost use Rattle.httparse.specs.Spans.{IsRequestOf, IsRequestWithin, RequestOverflows};
ghost use Rattle.misp_http.specs.Limits.{head_limit, header_limit};
ghost use Rattle.misp_http.specs.Reading.{spaces};
ghost use Rattle.misp_http.specs.Parsing.{IsHeadState};

use crate::fault::{Fault, HeadFault};
use crate::head::Head;
use crate::headers::{asks_to_close, body_length, key};
use httparse::spans::{EMPTY_HEADER_SPAN, HeaderSpan, RequestSpans, parse_request};
use httparse::{Error, Status};
use misp_ids::{NoMemory, Text};
use std::alloc::Global;

/// What the first bytes of a request are.
#[derive(Drop)]
pub enum HeadState {
    /// A head, and perhaps more.
    Whole(Head),
    Faulty(Fault),
    /// Neither yet.
    Undecided,
}

fn spaces(bytes: &[u8]) -> usize
    ensures { result ≡ spaces bytes.now }
{
    bytes.iter().filter(|byte| **byte == 32).count()
}

// Bytes with which no head begins are faulty once there are two spaces.
fn without_head(bytes: &[u8]) -> HeadState
    requires { NeverHasRequest bytes.now }
    ensures { IsHeadState bytes.now result }
{
    if spaces(bytes) >= 2 {
        HeadState::Faulty(Fault::NoHead)
    } else {
        HeadState::Undecided
    }
}

// What the first bytes are, where a head has more headers than it may have. There are spans for as
// many headers as the bytes can have, each of which has three bytes or more.
#[tactic(auto, using(crate::proofs::Heads::no_exceeding, crate::proofs::Heads::may_begin))]
fn parse_with_more_spans(alloc: Global, bytes: &[u8]) -> Result<HeadState, NoMemory>
    requires { RequestOverflows header_limit bytes.now }
    ensures { IfOk result (IsHeadState bytes.now) }
{
    let mut spans = vec![in alloc; EMPTY_HEADER_SPAN; bytes.len() / 3 + 1]?;
    match parse_request(bytes, &mut spans) {
        Ok(Status::Complete(_head)) => {
            Ok(HeadState::Faulty(Fault::BadHead(HeadFault::ManyHeaders)))
        }
        Ok(Status::Partial) => Ok(HeadState::Undecided),
        Err(Error::TooManyHeaders) => unreachable!(),
        Err(_) => Ok(without_head(bytes)),
    }
}

// A text of bytes that are known to be one.
fn utf8_text(alloc: Global, bytes: &[u8]) -> Result<Text, NoMemory>
    requires { IsUtf8 bytes.now }
    ensures { IfOk result (λ text. text ≡ bytes.now) }
{
    let text = str::from_utf8(bytes).unwrap();
    Ok(Text::of(String::from_str(alloc, text)?))
}

// What a head says that the bytes begin with.
fn whole_head(
    alloc: Global,
    bytes: &[u8],
    spans: &[HeaderSpan],
    head: RequestSpans,
) -> Result<HeadState, NoMemory>
    requires short { length bytes.now ≤ head_limit }
    requires within { IsRequestWithin bytes.now spans.now head }
    requires head { IsRequestOf bytes.now spans.now head }
    ensures { IfOk result (IsHeadState bytes.now) }
{
    let headers = &spans[..head.headers];
    let body_size = match body_length(bytes, headers) {
        Ok(body_size) => body_size,
        Err(fault) => return Ok(HeadState::Faulty(Fault::BadHead(fault))),
    };
    Ok(HeadState::Whole(Head {
        method: utf8_text(alloc, head.method.of(bytes))?,
        target: utf8_text(alloc, head.path.of(bytes))?,
        key: key(alloc, bytes, headers)?,
        close: asks_to_close(bytes, headers, head.version),
        size: head.len,
        body_size,
    }))
}

/// What the first bytes of a request are.
#[tactic(auto, using(crate::proofs::Heads::may_begin))]
pub fn parse_head(alloc: Global, bytes: &[u8]) -> Result<HeadState, NoMemory>
    requires { length bytes.now ≤ head_limit }
    ensures { IfOk result (IsHeadState bytes.now) }
{
    let mut spans = [EMPTY_HEADER_SPAN; 64];
    match parse_request(bytes, &mut spans) {
        Ok(Status::Complete(head)) => whole_head(alloc, bytes, &spans, head),
        Ok(Status::Partial) => Ok(HeadState::Undecided),
        Err(Error::TooManyHeaders) => parse_with_more_spans(alloc, bytes),
        Err(_) => Ok(without_head(bytes)),
    }
}
