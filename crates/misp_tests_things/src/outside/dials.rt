//! Asks of a dial in memory, and over sockets.

use super::doors::{assert_answered, listening};
use crate::values::{add, assert_bytes, assert_text, bytes, text};
use misp_outside::{Dial, Door, MemDial, Source, TcpDial, TcpDoor, WireFault};
use std::alloc::Global;
use std::fmt::Write;
use std::net::TcpListener;
use std::process::Abort;

// The bytes of a long request, which a connection takes before it is accepted.
const LONG: usize = 40_000;

// Adds the reply to an ask at an address, or its fault, to the line.
fn tell<L: Dial>(
    rt: &impl Abort,
    alloc: Global,
    dial: &mut L,
    ask: (&str, &str),
    line: &mut String,
) {
    match dial.ask(alloc, ask.0, ask.1.as_bytes()) {
        Ok(reply) => {
            add(rt, line, text(rt, reply.as_slice()));
            drop(reply);
        }
        Err(WireFault::Failed) => add(rt, line, "failed"),
        Err(WireFault::NoMemory) => add(rt, line, "no memory"),
    }
    add(rt, line, ";");
}

// Asserts the replies to these asks, each at an address, in a line.
fn assert_told<L: Dial>(
    rt: &impl Abort,
    alloc: Global,
    dial: &mut L,
    asks: &[(&str, &str)],
    want: &str,
) {
    let mut line = String::new(alloc);
    for ask in asks {
        tell(rt, alloc, dial, *ask, &mut line);
    }
    assert_text(rt, line.as_str(), want);
    drop(line);
}

// Asserts what was asked of a dial in memory, and what was answered.
fn assert_asks(rt: &impl Abort, alloc: Global, dial: &MemDial, want: &str) {
    let mut line = String::new(alloc);
    for ask in dial.asks() {
        let address = text(rt, ask.address.as_slice());
        let bytes = text(rt, ask.bytes.as_slice());
        let reply = match &ask.reply {
            Some(reply) => text(rt, reply.as_slice()),
            None => "failed",
        };
        write!(line, "{address} {bytes} {reply};").expect(rt, "memory");
    }
    assert_text(rt, line.as_str(), want);
    drop(line);
}

// A dial of three replies, whose second call fails.
fn dial_of_three(rt: &impl Abort, alloc: Global) -> MemDial {
    let mut replies = Vec::new(alloc);
    for text in ["one", "two", "three"] {
        replies.push(bytes(rt, alloc, text)).expect(rt, "memory");
    }
    MemDial::new(alloc, replies, vec![in alloc; 2u64].expect(rt, "memory"))
}

#[test]
fn each_call_has_the_reply_of_its_number(rt: HostRuntime) {
    let alloc = rt.alloc();
    let mut dial = dial_of_three(&rt, alloc);
    let asks = [("x:1", "a"), ("x:1", "b"), ("y:2", "c"), ("y:2", "d")];
    assert_told(&rt, alloc, &mut dial, &asks, "one;failed;three;failed;");
    assert_asks(
        &rt,
        alloc,
        &dial,
        "x:1 a one;x:1 b failed;y:2 c three;y:2 d failed;",
    );
    drop(dial);
}

// The address of the listener.
fn address_of(rt: &impl Abort, alloc: Global, listener: &TcpListener) -> String {
    let port = listener.local_addr().expect(rt, "an address").port();
    format!(in alloc; "127.0.0.1:{port}").expect(rt, "memory")
}

// Asserts that a dial asks at this address, and is answered through the door.
fn assert_exchanged<D: Door>(rt: &impl Abort, dial: &mut TcpDial<'_>, door: &mut D, address: &str) {
    let waiting = dial.send(address, b"asked").expect(rt, "a connection");
    assert_answered(rt, door, "asked", "told");
    let reply = dial.receive(waiting).expect(rt, "a reply");
    assert_bytes(rt, reply.as_slice(), b"told");
    drop(reply);
}

#[test]
fn a_dial_asks_over_a_socket(rt: HostRuntime) {
    let alloc = rt.alloc();
    let listener = listening(&rt).expect(&rt, "a listener");
    let address = address_of(&rt, alloc, &listener);
    let mut door = TcpDoor::new(&rt, listener);
    let mut dial = TcpDial::new(&rt);
    assert_exchanged(&rt, &mut dial, &mut door, address.as_str());
    drop(door);
    let asks = [(address.as_str(), "more"), ("", "more")];
    assert_told(&rt, alloc, &mut dial, &asks, "failed;failed;");
    drop(dial);
    drop(address);
}

// How many bytes a connection gives until there are so many.
fn arrived<S: Source>(source: &mut S, whole: usize) -> usize {
    let mut into = [0; 1024];
    let mut count: usize = 0;
    for _ in 0..1000 {
        if count >= whole {
            break;
        }
        match source.read(&mut into) {
            Ok(more) => count = count.saturating_add(more),
            Err(_) => break,
        }
    }
    count
}

#[test]
fn a_long_request_arrives_whole(rt: HostRuntime) {
    let listener = listening(&rt).expect(&rt, "a listener");
    let address = address_of(&rt, rt.alloc(), &listener);
    let mut dial = TcpDial::new(&rt);
    let sent = dial
        .send(address.as_str(), &[b'a'; LONG])
        .expect(&rt, "a connection");
    let next = TcpDoor::new(&rt, listener).next().expect(&rt, "a door");
    let (mut from, to) = next.expect(&rt, "a client");
    assert_eq!(rt; arrived(&mut from, LONG), LONG);
    drop(from);
    drop(to);
    drop(sent);
    drop(dial);
    drop(address);
}
