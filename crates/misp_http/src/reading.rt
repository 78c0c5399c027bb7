//! Reads requests.

ghost use Rattle.std.specs.Prelude.{◌≡◌, true, false, ◌≢◌, ◌≤◌, ◌<◌, ◌+◌, ◌++◌, ℕ, List, Ok, Err, IfSome, IfOk, IfErr, OnOk, vec_len, length, drop};
ghost use Rattle.std.specs.Io.KnownBytes.{prepend_known, Keeps, IsAtEnd};
ghost use Rattle.misp_outside.specs.Causes.{HasCause, StaysUnless};
ghost use Rattle.httparse.specs.Grammar.{RequestHead, HasNoRequest};
ghost use Rattle.misp_http.specs.Limits.{head_limit};
ghost use Rattle.misp_http.specs.Parsing.{IsSeen};
ghost use Rattle.misp_http.specs.Finding.{Finds, HasFound, IsFailure, IsBodyEnd, IsTaken, IsRequestRead};
ghost use Rattle.misp_http.specs.Reading.{looked_at, Begins, BeginsWithRequest, IsRead};

use crate::fault::Fault;
use crate::head::Head;
use crate::lines::LineScanner;
use crate::parsing::{HeadState, parse_head};
use crate::{MAX_HEAD, Read, ReadEnd, Request};
use misp_ids::{Items, NoMemory};
use misp_outside::Source;
use std::alloc::Global;

/// How many bytes are asked for at a time.
const PIECE: usize = 4096;

// Reads some more bytes after those that were read. None are the end of the source.
fn read_more<S: Source>(
    source: &mut S,
    rest: &mut Vec<u8>,
    buffer: &mut [u8],
) -> Result<usize, ReadEnd>
    requires { 0 < length buffer.old }
    ensures room { length buffer.new ≡ length buffer.old }
    ensures keeps { OnOk result (Keeps (prepend_known rest.old.items (S.left source.old))
        (prepend_known rest.new.items (S.left source.new))) }
    ensures more { IfOk result (λ count. vec_len rest.new ≡ vec_len rest.old + count) }
    ensures end { IfOk result (λ count. count ≡ 0 → IsAtEnd (S.left source.new)) }
    ensures stops { IfErr result IsFailure }
    ensures cause { HasCause (S.faults source.old) (S.faults source.new)
        (result ≡ Err ReadEnd.ReadFault) }
    ensures stays { StaysUnless (S.faults source.old) (S.faults source.new)
        (result ≡ Err ReadEnd.ReadFault) }
{
    let Ok(count) = source.read(buffer) else {
        return Err(ReadEnd::ReadFault);
    };
    rest.extend_from_slice(&buffer[..count])?;
    Ok(count)
}

// What bytes are, where a head can have ended in those that were not scanned yet. Else they are not
// parsed, so that each byte is scanned once and few are parsed twice.
#[tactic(auto, using(crate::proofs::Prompt::seen))]
fn head_if_ended(
    alloc: Global,
    lines: &mut LineScanner,
    bytes: &[u8],
) -> Result<HeadState, NoMemory>
    requires { length bytes.now ≤ head_limit }
    ensures seen { IfOk result (IsSeen bytes.now) }
    ensures undecided { result ≡ Ok HeadState.Undecided → lines.old.scanned ≡ 0
        → lines.old.begun ≡ false → lines.old.empty ≡ true → HasNoRequest bytes.now }
{
    if lines.scan_on(bytes) {
        parse_head(alloc, bytes)
    } else {
        Ok(HeadState::Undecided)
    }
}

// What bytes are after which the source ended.
#[tactic(auto, using(crate::proofs::Growing::all_looked_at))]
fn head_at_end(alloc: Global, rest: &[u8]) -> Result<Result<Head, Fault>, ReadEnd>
    requires { length rest.now < head_limit }
    ensures found { Finds rest.now result }
    ensures unread { result ≢ Err ReadEnd.ReadFault }
{
    match parse_head(alloc, rest)? {
        HeadState::Whole(head) => Ok(Ok(head)),
        HeadState::Faulty(fault) => Ok(Err(fault)),
        HeadState::Undecided if rest.is_empty() => Err(ReadEnd::Ended),
        HeadState::Undecided => Err(ReadEnd::Cut),
    }
}

// What bytes are of which no more are looked at.
fn head_at_limit(alloc: Global, rest: &[u8]) -> Result<Result<Head, Fault>, NoMemory>
    requires { head_limit ≤ length rest.now }
    ensures { IfOk result (λ found. (more : List ℕ) → Finds (rest.now ++ more) (Ok found)) }
{
    match parse_head(alloc, &rest[..MAX_HEAD])? {
        HeadState::Whole(head) => Ok(Ok(head)),
        HeadState::Faulty(fault) => Ok(Err(fault)),
        HeadState::Undecided => Ok(Err(Fault::LongHead)),
    }
}

// Reads until the bytes begin with a head, or are faulty.
fn read_head<S: Source>(
    alloc: Global,
    source: &mut S,
    rest: &mut Vec<u8>,
    buffer: &mut [u8],
) -> Result<Result<Head, Fault>, ReadEnd>
    requires { 0 < length buffer.old }
    ensures room { length buffer.new ≡ length buffer.old }
    ensures keeps { OnOk result (Keeps (prepend_known rest.old.items (S.left source.old))
        (prepend_known rest.new.items (S.left source.new))) }
    ensures found { IfSome (prepend_known rest.old.items (S.left source.old))
        (λ bytes. Finds bytes result) }

    // Where the bytes that were read before begin with a head, the source is not asked.
    ensures unasked { (h : RequestHead) → Begins (looked_at rest.old.items) h
        → (source.new ≡ source.old) × (rest.new.items ≡ rest.old.items) }
    ensures here { HasFound rest.new.items result }
    ensures cause { HasCause (S.faults source.old) (S.faults source.new)
        (result ≡ Err ReadEnd.ReadFault) }
    ensures stays { StaysUnless (S.faults source.old) (S.faults source.new)
        (result ≡ Err ReadEnd.ReadFault) }
{
    let mut lines = LineScanner {
        scanned: 0,
        begun: false,
        empty: true,
    };
    while rest.len() < MAX_HEAD {
        match head_if_ended(alloc, &mut lines, rest)? {
            HeadState::Whole(head) => return Ok(Ok(head)),
            HeadState::Faulty(fault) => return Ok(Err(fault)),
            HeadState::Undecided => {}
        }
        if read_more(source, rest, buffer)? == 0 {
            return head_at_end(alloc, rest);
        }
    }
    Ok(head_at_limit(alloc, rest)?)
}

// Reads until there are so many bytes.
fn read_at_least<S: Source>(
    source: &mut S,
    rest: &mut Vec<u8>,
    buffer: &mut [u8],
    size: usize,
) -> Result<(), ReadEnd>
    requires { 0 < length buffer.old }
    ensures ok { OnOk result (Keeps (prepend_known rest.old.items (S.left source.old))
        (prepend_known rest.new.items (S.left source.new)) × (size ≤ length rest.new.items)) }
    ensures cut { result ≡ Err ReadEnd.Cut →
        Keeps (prepend_known rest.old.items (S.left source.old))
        (prepend_known rest.new.items (S.left source.new))
        × IsAtEnd (S.left source.new) × (length rest.new.items < size) }
    ensures ends { IfErr result IsBodyEnd }
    ensures cause { HasCause (S.faults source.old) (S.faults source.new)
        (result ≡ Err ReadEnd.ReadFault) }
    ensures stays { StaysUnless (S.faults source.old) (S.faults source.new)
        (result ≡ Err ReadEnd.ReadFault) }
{
    while rest.len() < size {
        if read_more(source, rest, buffer)? == 0 {
            return Err(ReadEnd::Cut);
        }
    }
    Ok(())
}

// Takes a request, whose head is known and which is there whole, from the bytes.
fn take_request(alloc: Global, rest: &mut Vec<u8>, head: Head) -> Result<Request, NoMemory>
    requires { head.size + head.body_size ≤ length rest.old.items }
    ensures request { IfOk result (λ request. IsTaken rest.old.items head request) }
    ensures rest { OnOk result
        (rest.new.items ≡ drop (head.size + head.body_size) rest.old.items) }
{
    let size = head.size + head.body_size;
    let body = Vec::from_slice(alloc, &rest[head.size..size])?;
    let after = Vec::from_slice(alloc, &rest[size..])?;
    *rest = after;
    Ok(Request {
        method: head.method,
        target: head.target,
        key: head.key,
        body: Items::of(body),
        close: head.close,
    })
}

// Reads the body of a request whose head is known.
fn read_body<S: Source>(
    alloc: Global,
    source: &mut S,
    rest: &mut Vec<u8>,
    buffer: &mut [u8],
    head: Head,
) -> Result<Request, ReadEnd>
    requires { 0 < length buffer.old }
    ensures read { IfSome (prepend_known rest.old.items (S.left source.old)) (λ bytes.
        Finds bytes (Ok (Ok head)) →
        IsRequestRead bytes result (prepend_known rest.new.items (S.left source.new))) }
    ensures unasked { head.size + head.body_size ≤ length rest.old.items → source.new ≡ source.old }
    ensures cause { HasCause (S.faults source.old) (S.faults source.new)
        (result ≡ Err ReadEnd.ReadFault) }
    ensures stays { StaysUnless (S.faults source.old) (S.faults source.new)
        (result ≡ Err ReadEnd.ReadFault) }
{
    let size = head.size + head.body_size;
    if rest.len() >= size {
        return Ok(take_request(alloc, rest, head)?);
    }
    match read_at_least(source, rest, buffer, size) {
        Ok(()) => Ok(take_request(alloc, rest, head)?),
        Err(end) => Err(end),
    }
}

/// Reads the request that the bytes begin with (RFC 9112, sections 2.2, 3, 5 and 6): those of
/// `rest`, which were read before, and those of the source. What was read after it stays in `rest`.
/// It does not matter how the source cuts its bytes.
pub fn read_request<S: Source>(
    alloc: Global,
    source: &mut S,
    rest: &mut Vec<u8>,
) -> Result<Read, ReadEnd>
    ensures read { IfSome (prepend_known rest.old.items (S.left source.old)) (λ bytes.
        IsRead bytes result (prepend_known rest.new.items (S.left source.new))) }

    // Where the bytes that were read before begin with a whole request, the source is not asked.
    ensures unasked { BeginsWithRequest rest.old.items → source.new ≡ source.old }
    ensures cause { HasCause (S.faults source.old) (S.faults source.new)
        (result ≡ Err ReadEnd.ReadFault) }
    ensures stays { StaysUnless (S.faults source.old) (S.faults source.new)
        (result ≡ Err ReadEnd.ReadFault) }
{
    let mut buffer = [0u8; PIECE];
    match read_head(alloc, source, rest, &mut buffer) {
        Ok(Ok(head)) => match read_body(alloc, source, rest, &mut buffer, head) {
            Ok(request) => Ok(Read::Request(request)),
            Err(end) => Err(end),
        },
        Ok(Err(fault)) => Ok(Read::Refused(fault)),
        Err(end) => Err(end),
    }
}
