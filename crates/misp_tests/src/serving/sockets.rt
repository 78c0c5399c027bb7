//! Clients over sockets of this process.

use super::{REPLY, VIEW, assert_served};
use misp_app::Status;
use misp_outside::{Door, TcpDoor};
use std::alloc::Global;
use std::io::{self, Read, Write};
use std::net::{Shutdown, TcpListener, TcpStream};
use std::process::Abort;

/// The same view by a client that asks to close.
const LAST_VIEW: &str = "GET /events/view/e1000000-0000-4000-8000-000000000001 HTTP/1.1\r\n\
    Authorization: AAAAAAAAAAAAAAAAAAAAAAAAAAAAAAAAAAAAAAAA\r\nConnection: close\r\n\r\n";

/// Its reply.
const LAST_REPLY: &str = "HTTP/1.1 404 Not Found\r\nContent-Type: application/json\r\n\
    Content-Length: 41\r\nConnection: close\r\n\r\n{\"name\":\"NotGranted\",\"place\":\"\",\"rule\":9}";

// A client, and the door through which it comes.
fn connected(system: &HostRuntime) -> io::Result<(TcpStream, TcpDoor<'_>)> {
    let listener = TcpListener::bind(system, "127.0.0.1:0")?;
    let client = TcpStream::connect(system, listener.local_addr()?)?;
    Ok((client, TcpDoor::new(system, listener)))
}

// Sends the texts, and the end of them where the client ends its side.
fn send(rt: &impl Abort, client: &mut TcpStream, texts: &[&str], ends: bool) {
    for text in texts {
        client.write_all(text.as_bytes()).expect(rt, "a sent text");
    }
    if ends {
        client.shutdown(Shutdown::Write).expect(rt, "an ended side");
    }
}

// Asserts what the client reads to the end.
fn assert_read(rt: &impl Abort, alloc: Global, client: &mut TcpStream, want: &str) {
    let mut replies = Vec::new(alloc);
    client.read_to_end(&mut replies).expect(rt, "an end");
    assert_eq!(rt; replies.as_slice(), want.as_bytes());
    drop(replies);
}

// Asserts what is written of the client that has sent its texts, and what it reads to the end.
fn assert_asked<D: Door>(
    rt: &impl Abort,
    alloc: Global,
    client: &mut TcpStream,
    door: &mut D,
    want: (&str, &str),
) {
    let ended = (Status::Done, want.0);
    assert_served(rt, alloc, "serve a 127.0.0.1:0 1", door, ended);
    assert_read(rt, alloc, client, want.1);
}

// Where a client does not end its side, the server does not wait for that.
fn assert_closed<D: Door>(rt: &impl Abort, alloc: Global, client: &mut TcpStream, door: &mut D) {
    let replies = format!(in alloc; "{REPLY}{LAST_REPLY}").expect(rt, "memory");
    send(rt, client, &[VIEW, LAST_VIEW, VIEW], false);
    assert_asked(rt, alloc, client, door, ("1 Closed 2\n", replies.as_str()));
    drop(replies);
}

#[test]
fn a_client_reads_the_reply_of_each_request(rt: HostRuntime) {
    let (mut client, mut door) = connected(&rt).expect(&rt, "a client");
    send(&rt, &mut client, &[VIEW], true);
    let want = ("1 Ended 1\n", REPLY);
    assert_asked(&rt, rt.alloc(), &mut client, &mut door, want);
    drop(client);
    drop(door);
    let (mut client, mut door) = connected(&rt).expect(&rt, "a client");
    assert_closed(&rt, rt.alloc(), &mut client, &mut door);
    drop(client);
    drop(door);
}

#[test]
fn a_client_that_ends_within_a_request_reads_nothing(rt: HostRuntime) {
    let cut = VIEW.get(..20).expect(&rt, "a longer text");
    let (mut client, mut door) = connected(&rt).expect(&rt, "a client");
    send(&rt, &mut client, &[cut], true);
    assert_asked(&rt, rt.alloc(), &mut client, &mut door, ("1 Cut 0\n", ""));
    drop(client);
    drop(door);
}
