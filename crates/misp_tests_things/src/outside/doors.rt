//! Connections that come through doors in memory and over sockets.

use super::{assert_reads, assert_writes};
use crate::values::{assert_bytes, bytes};
use misp_outside::{Door, DoorFault, MemDoor, MemSink, MemSource, Source, SourceFault, TcpDoor};
use std::alloc::Global;
use std::io::{self, Read, Write};
use std::net::{Shutdown, TcpListener, TcpStream};
use std::process::Abort;

// A connection that sends the text.
fn sends(rt: &impl Abort, alloc: Global, text: &str) -> (MemSource, MemSink) {
    let source = MemSource::new(bytes(rt, alloc, text), Vec::new(alloc), Vec::new(alloc));
    (source, MemSink::new(alloc, Vec::new(alloc)))
}

fn assert_asked<S: Source>(rt: &impl Abort, from: &mut S, want: &str) {
    let mut into = [0; 5];
    let count = from.read(&mut into).expect(rt, "bytes");
    assert_bytes(rt, &into[..count], want.as_bytes());
}

// Asserts the first five bytes of the next connection, which is answered and given back.
pub(super) fn assert_answered<D: Door>(rt: &impl Abort, door: &mut D, want: &str, reply: &str) {
    let next = door.next().expect(rt, "a door");
    let (mut from, mut to) = next.expect(rt, "a connection");
    assert_asked(rt, &mut from, want);
    assert_writes(rt, &mut to, reply.as_bytes(), &[Ok(reply.len())]);
    door.close(from, to);
}

fn assert_failed<D: Door>(rt: &impl Abort, door: &mut D) {
    assert!(rt; matches!(door.next(), Err(DoorFault::Failed)));
}

fn assert_nobody<D: Door>(rt: &impl Abort, door: &mut D) {
    assert!(rt; matches!(door.next(), Ok(None)));
}

// A door through which two connections come, with a failed call between them.
fn door_of_two(rt: &impl Abort, alloc: Global) -> MemDoor {
    let pairs = vec![in alloc; sends(rt, alloc, "first"), sends(rt, alloc, "other")];
    let fails = vec![in alloc; 2u64].expect(rt, "memory");
    MemDoor::new(alloc, pairs.expect(rt, "memory"), fails).expect(rt, "memory")
}

// Asserts what was written to the two connections.
fn assert_back(rt: &impl Abort, door: &MemDoor) {
    let back = door.back();
    assert_eq!(rt; back.len(), 2);
    assert_bytes(rt, back[0].1.bytes(), b"one");
    assert_bytes(rt, back[1].1.bytes(), b"two");
}

#[test]
fn connections_come_in_their_order_and_are_kept(rt: HostRuntime) {
    let mut door = door_of_two(&rt, rt.alloc());
    assert_answered(&rt, &mut door, "first", "one");
    assert_failed(&rt, &mut door);
    assert_answered(&rt, &mut door, "other", "two");
    assert_nobody(&rt, &mut door);
    assert_back(&rt, &door);
    drop(door);
}

pub(super) fn listening(system: &HostRuntime) -> io::Result<TcpListener> {
    TcpListener::bind(system, "127.0.0.1:0")
}

// A client, and the door through which it comes.
fn connected(system: &HostRuntime) -> io::Result<(TcpStream, TcpDoor<'_>)> {
    let listener = listening(system)?;
    let client = TcpStream::connect(system, listener.local_addr()?)?;
    Ok((client, TcpDoor::new(system, listener)))
}

// Sends the text, and the end of it where the client ends its side.
fn send(rt: &impl Abort, client: &mut TcpStream, text: &str, ends: bool) {
    client.write_all(text.as_bytes()).expect(rt, "a sent text");
    if ends {
        client.shutdown(Shutdown::Write).expect(rt, "an ended side");
    }
}

// Asserts what the client reads to the end.
fn assert_reply(rt: &impl Abort, alloc: Global, client: &mut TcpStream, want: &str) {
    let mut reply = Vec::new(alloc);
    client.read_to_end(&mut reply).expect(rt, "an end");
    assert_bytes(rt, reply.as_slice(), want.as_bytes());
    drop(reply);
}

// Where a client does not end its side, the door does not wait for that.
#[test]
fn a_client_reads_its_reply_to_the_end(rt: HostRuntime) {
    for (text, ends) in [("asked", true), ("asked, and more", false)] {
        let (mut client, mut door) = connected(&rt).expect(&rt, "a client");
        send(&rt, &mut client, text, ends);
        assert_answered(&rt, &mut door, "asked", "told");
        assert_reply(&rt, rt.alloc(), &mut client, "told");
        drop(client);
        drop(door);
    }
}

// A client that closes with unread bytes resets the connection.
fn assert_reset<S: Source>(rt: &impl Abort, mut client: TcpStream, from: &mut S) {
    let count = client.read(&mut [0]).expect(rt, "a byte");
    drop(client);
    assert_eq!(rt; count, 1);
    assert_reads(rt, from, &mut [0], &[Err(SourceFault::Failed)]);
}

#[test]
fn an_error_of_a_socket_is_a_fault_and_no_end(rt: HostRuntime) {
    let (client, mut door) = connected(&rt).expect(&rt, "a client");
    let next = door.next().expect(&rt, "a door");
    drop(door);
    let (mut from, mut to) = next.expect(&rt, "a connection");
    assert_writes(&rt, &mut to, b"told", &[Ok(4)]);
    assert_reset(&rt, client, &mut from);
    drop(from);
    drop(to);
}

#[test]
fn a_failed_accept_is_a_fault(rt: HostRuntime) {
    let listener = listening(&rt).expect(&rt, "a listener");
    listener.set_nonblocking(true).expect(&rt, "no waits");
    let mut door = TcpDoor::new(&rt, listener);
    assert_failed(&rt, &mut door);
    drop(door);
}
