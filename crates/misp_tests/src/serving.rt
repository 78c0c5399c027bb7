//! Connections that are served, through a door in memory and over sockets.

mod faults;
mod sockets;

use crate::outside::{carry, idle_dial, ran_from};
use misp_app::Status;
use misp_outside::{Door, MemDoor, MemSink, MemSource};
use std::alloc::Global;
use std::process::Abort;

/// An instance of one organisation.
const NET: &str = "[[org]]\nname = \"Alpha\"\nuuid = \"aaaaaaaa-0000-4000-8000-000000000001\"\n\
    [[instance]]\nname = \"a\"\n[[key]]\ninstance = \"a\"\norg = \"Alpha\"\nrole = \"publisher\"\n\
    key = \"AAAAAAAAAAAAAAAAAAAAAAAAAAAAAAAAAAAAAAAA\"\n";

/// A view of an event that is not there.
const VIEW: &str = "GET /events/view/e1000000-0000-4000-8000-000000000001 HTTP/1.1\r\n\
    Authorization: AAAAAAAAAAAAAAAAAAAAAAAAAAAAAAAAAAAAAAAA\r\nContent-Length: 0\r\n\r\n";

/// Its reply.
const REPLY: &str = "HTTP/1.1 404 Not Found\r\nContent-Type: application/json\r\n\
    Content-Length: 41\r\n\r\n{\"name\":\"NotGranted\",\"place\":\"\",\"rule\":9}";

// A connection that sends a text so often.
fn sends(rt: &impl Abort, alloc: Global, text: &str, often: usize) -> (MemSource, MemSink) {
    let mut bytes = Vec::new(alloc);
    for _ in 0..often {
        bytes
            .extend_from_slice(text.as_bytes())
            .expect(rt, "memory");
    }
    let source = MemSource::new(bytes, Vec::new(alloc), Vec::new(alloc));
    (source, MemSink::new(alloc, Vec::new(alloc)))
}

// How a run of these words ends, and what it writes.
fn served<D: Door>(rt: &impl Abort, alloc: Global, line: &str, door: &mut D) -> (Status, String) {
    let mut carry = carry(alloc);
    let mut dial = idle_dial(alloc);
    let served = ran_from(rt, alloc, line, NET, &mut carry, door, &mut dial);
    drop(carry);
    drop(dial);
    served
}

// Asserts how a run of these words ends, and what it writes.
fn assert_served<D: Door>(
    rt: &impl Abort,
    alloc: Global,
    line: &str,
    door: &mut D,
    want: (Status, &str),
) {
    let (status, written) = served(rt, alloc, line, door);
    assert_eq!(rt; status, want.0, "{line}");
    assert_eq!(rt; written.as_str(), want.1, "{line}");
    drop(written);
}

// A door through which two connections come, of which the second ends within a request.
fn door_of_two(rt: &impl Abort, alloc: Global) -> MemDoor {
    let cut = VIEW.get(..20).expect(rt, "a longer text");
    let pairs = vec![in alloc; sends(rt, alloc, VIEW, 2), sends(rt, alloc, cut, 1)];
    MemDoor::new(alloc, pairs.expect(rt, "memory"), Vec::new(alloc)).expect(rt, "memory")
}

#[test]
fn connections_are_served_one_after_another(rt: HostRuntime) {
    let alloc = rt.alloc();
    let mut door = door_of_two(&rt, alloc);
    let want = (Status::Done, "1 Ended 2\n2 Cut 0\n");
    assert_served(&rt, alloc, "serve a 127.0.0.1:0 2", &mut door, want);
    let back = door.back();
    assert_eq!(rt; back.len(), 2);
    let (first, second) = back[0].1.bytes().split_at(back[0].1.bytes().len() / 2);
    assert_eq!(rt; first, REPLY.as_bytes());
    assert_eq!(rt; second, REPLY.as_bytes());
    assert_eq!(rt; back[1].1.bytes().len(), 0);
    drop(door);
}

/// Words, how many connections come, the calls of the door that fail, and how it ends.
const ENDS: [(&str, usize, u64, Status, &str); 8] = [
    ("serve a x 3", 1, 0, Status::Done, "1 Ended 1\n"),
    ("serve a x 1", 2, 0, Status::Done, "1 Ended 1\n"),
    ("serve a x 3", 2, 2, Status::DoorFault, "1 Ended 1\n"),
    ("serve a x 3", 3, 1, Status::DoorFault, ""),
    (
        "serve a x 3",
        3,
        3,
        Status::DoorFault,
        "1 Ended 1\n2 Ended 1\n",
    ),
    (
        "serve a x 3",
        3,
        4,
        Status::Done,
        "1 Ended 1\n2 Ended 1\n3 Ended 1\n",
    ),
    ("serve b x 1", 1, 0, Status::NoSuchInstance, ""),
    ("serve a -x 1", 1, 0, Status::Usage, ""),
];

// A door through which so many connections come, and whose call of this number fails.
fn door_of(rt: &impl Abort, alloc: Global, count: usize, fails: u64) -> MemDoor {
    let mut pairs = Vec::new(alloc);
    for _ in 0..count {
        let pair = sends(rt, alloc, VIEW, 1);
        pairs.push(pair).expect(rt, "memory");
    }
    let fails = vec![in alloc; fails].expect(rt, "memory");
    MemDoor::new(alloc, pairs, fails).expect(rt, "memory")
}

#[test]
fn serving_ends_as_the_table_says(rt: HostRuntime) {
    let alloc = rt.alloc();
    for (line, count, fails, status, text) in &ENDS {
        let mut door = door_of(&rt, alloc, *count, *fails);
        assert_served(&rt, alloc, line, &mut door, (*status, text));
        drop(door);
    }
}
