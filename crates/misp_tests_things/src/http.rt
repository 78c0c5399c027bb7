//! Requests and replies as bytes.

use crate::values::{add, assert_text, text};
use misp_http::{
    BodyKind, Fault, Read, ReadEnd, Request, read_request, reply_bytes, request_bytes, write_all,
};
use misp_ids::NoMemory;
use misp_outside::{MemSource, Sink, SureSink};
use std::alloc::Global;
use std::fmt::Write;
use std::process::Abort;

const KEY: &str = "AlphaAlphaAlphaAlphaAlphaAlphaAlphaAlpha";

// Adds what a request says to the line.
fn show(rt: &impl Abort, line: &mut String, request: &Request) {
    let method = request.method.as_str();
    let target = request.target.as_str();
    let key = match &request.key {
        Some(key) => key.as_str(),
        None => "-",
    };
    let end = if request.close { "close" } else { "open" };
    let body = text(rt, request.body.as_slice());
    write!(line, "{method} {target} {key} {end} {body}").expect(rt, "memory");
}

// Adds the rule and the place of a refusal.
fn show_refused(rt: &impl Abort, alloc: Global, line: &mut String, fault: Fault) {
    let refusal = fault.refusal(alloc).expect(rt, "memory");
    let rule = refusal.rule();
    let place = refusal.place.as_str();
    write!(line, "{rule} {place}").expect(rt, "memory");
    drop(refusal);
}

// A source of these bytes, which arrive in pieces of seven.
fn source(rt: &impl Abort, alloc: Global, bytes: &[u8]) -> MemSource {
    let pieces = vec![in alloc; 7usize; bytes.len()].expect(rt, "memory");
    let bytes = bytes.to_vec(alloc).expect(rt, "memory");
    MemSource::new(bytes, pieces, Vec::new(alloc))
}

// What is read of a source: a request, or the rule and the place of a refusal, or how it ends.
fn read(rt: &impl Abort, alloc: Global, source: &mut MemSource) -> String {
    let mut line = String::new(alloc);
    let mut rest = Vec::new(alloc);
    match read_request(alloc, source, &mut rest) {
        Ok(Read::Request(request)) => {
            show(rt, &mut line, &request);
            drop(request);
        }
        Ok(Read::Refused(fault)) => show_refused(rt, alloc, &mut line, fault),
        Err(ReadEnd::Ended) => add(rt, &mut line, "ended"),
        Err(ReadEnd::Cut) => add(rt, &mut line, "cut"),
        Err(_) => add(rt, &mut line, "nothing is read"),
    }
    drop(rest);
    line
}

// Asserts what a sink has after these bytes were written.
fn assert_written(rt: &impl Abort, alloc: Global, bytes: Result<Vec<u8>, NoMemory>, want: &str) {
    let bytes = bytes.expect(rt, "memory");
    let mut sink = SureSink::new(alloc);
    sink.room(bytes.len()).expect(rt, "memory");
    write_all(&mut sink, &bytes)
        .ok()
        .expect(rt, "written bytes");
    assert_text(rt, text(rt, sink.bytes()), want);
    drop(sink);
    drop(bytes);
}

#[test]
fn requests_and_replies_have_their_texts(rt: HostRuntime) {
    let alloc = rt.alloc();
    let rows = [
        (
            request_bytes(alloc, "GET", "/events/view/E1", Some(KEY), b"", false),
            "GET /events/view/E1 HTTP/1.1\r\nAuthorization: \
             AlphaAlphaAlphaAlphaAlphaAlphaAlphaAlpha\r\nContent-Length: 0\r\n\r\n",
        ),
        (
            reply_bytes(alloc, 404, BodyKind::Json, b"{\"rule\":9}", false),
            "HTTP/1.1 404 Not Found\r\nContent-Type: application/json\r\n\
             Content-Length: 10\r\n\r\n{\"rule\":9}",
        ),
        (
            reply_bytes(alloc, 200, BodyKind::Octets, b"ab", true),
            "HTTP/1.1 200 OK\r\nContent-Type: application/octet-stream\r\n\
             Content-Length: 2\r\nConnection: close\r\n\r\nab",
        ),
    ];
    for (bytes, want) in rows {
        assert_written(&rt, alloc, bytes, want);
    }
}

#[test]
fn heads_are_read_or_refused_as_the_table_says(rt: HostRuntime) {
    let rows = [
        ("GET / HTTP/2.0\r\n\r\n", "2 head"),
        ("GET / HTTP/1.1\r\na b: c\r\n\r\n", "2 head"),
        (
            "GET / HTTP/1.1\r\nContent-Length: 1\r\ncontent-length: 1\r\n\r\na",
            "2 length",
        ),
        ("GET / HTTP/1.1\r\nContent-Length: +1\r\n\r\na", "2 length"),
        (
            "GET / HTTP/1.1\r\nContent-Length: 00000000000000000001\r\n\r\na",
            "2 length",
        ),
        (
            "GET / HTTP/1.1\r\nContent-Length: 8388609\r\n\r\n",
            "3 body",
        ),
        (
            "GET / HTTP/1.1\r\nContent-Length: x\r\nTransfer-Encoding: chunked\r\n\r\n",
            "2 encoding",
        ),
        (
            "GET / HTTP/1.1\r\nX-Content-Length: 1\r\n\r\na",
            "GET / - open ",
        ),
        (
            "GET / HTTP/1.1\r\nAuthorization: a\r\nAuthorization: b\r\n\r\n",
            "GET / a open ",
        ),
        ("GET / HTTP/1.0\r\n\r\n", "GET / - close "),
        (
            "\r\nPUT /a HTTP/1.1\r\nContent-Length: 2\r\n\r\nab",
            "PUT /a - open ab",
        ),
        ("\r\nPUT /a HTTP/1.1\r\nContent-Length: 2\r\n\r\na", "cut"),
        ("\r\nPUT /a HTTP/1.1\r\nConte", "cut"),
        ("", "ended"),
    ];
    for (text, want) in &rows {
        let mut source = source(&rt, rt.alloc(), text.as_bytes());
        let found = read(&rt, rt.alloc(), &mut source);
        assert!(rt; found.as_str() == *want, "{text}");
        drop(found);
        drop(source);
    }
}
