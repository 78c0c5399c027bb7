//! Connections of which one fails, and those over a keeper of which one call after another fails.

use super::{NET, REPLY, VIEW};
use crate::failing::{MOST_CALLS, calls_made, failing};
use crate::outside::{carry, idle_dial, ran, ran_over};
use misp_app::Status;
use misp_outside::{MemDoor, MemKeeper, MemSink, MemSource};
use std::alloc::Global;
use std::process::Abort;

/// What four connections send: an event is added, viewed, published and viewed.
const SENT: [&str; 4] = [
    "POST /events/add HTTP/1.1\r\nAuthorization: AAAAAAAAAAAAAAAAAAAAAAAAAAAAAAAAAAAAAAAA\r\n\
     Content-Length: 95\r\n\r\n{\"uuid\":\"e1000000-0000-4000-8000-000000000001\",\
     \"info\":\"One\",\"date\":\"2023-11-14\",\"Attribute\":[]}",
    VIEW,
    "POST /events/publish/e1000000-0000-4000-8000-000000000001 HTTP/1.1\r\n\
     Authorization: AAAAAAAAAAAAAAAAAAAAAAAAAAAAAAAAAAAAAAAA\r\nContent-Length: 0\r\n\r\n",
    VIEW,
];

/// What is written of them.
const LINES: &str = "1 Ended 1\n2 Ended 1\n3 Ended 1\n4 Ended 1\n";

/// How a reply begins that says that a call of the keeper failed.
const FAILED: &[u8] = b"HTTP/1.1 503 ";

// A connection that sends the text.
fn sends(rt: &impl Abort, alloc: Global, text: &str) -> (MemSource, MemSink) {
    let bytes = text.as_bytes().to_vec(alloc).expect(rt, "memory");
    let source = MemSource::new(bytes, Vec::new(alloc), Vec::new(alloc));
    (source, MemSink::new(alloc, Vec::new(alloc)))
}

// A door through which the connections come, of which the one of this place sends nothing.
fn door(rt: &impl Abort, alloc: Global, silent: usize) -> MemDoor {
    let mut pairs = Vec::new(alloc);
    for (place, text) in SENT.iter().enumerate() {
        let text = if place == silent { "" } else { text };
        let pair = sends(rt, alloc, text);
        pairs.push(pair).expect(rt, "memory");
    }
    MemDoor::new(alloc, pairs, Vec::new(alloc)).expect(rt, "memory")
}

// How they are served over these keepers, and what is written.
fn served(
    rt: &impl Abort,
    alloc: Global,
    keepers: &mut Vec<MemKeeper>,
    door: &mut MemDoor,
) -> (Status, String) {
    let mut carry = carry(alloc);
    let mut dial = idle_dial(alloc);
    let line = "serve a x 4";
    let served = ran_over(rt, alloc, line, NET, keepers, &mut carry, door, &mut dial);
    drop(carry);
    drop(dial);
    served
}

// The same over keepers of which this call of the first fails.
fn stopped(rt: &impl Abort, alloc: Global, fails: u64, door: &mut MemDoor) -> (Status, String) {
    let mut keepers = failing(rt, alloc, fails);
    let stopped = served(rt, alloc, &mut keepers, door);
    drop(keepers);
    stopped
}

// How many calls they make of the keeper.
fn calls(rt: &impl Abort, alloc: Global) -> u64 {
    let mut door = door(rt, alloc, SENT.len());
    let mut keepers = failing(rt, alloc, MOST_CALLS);
    drop(served(rt, alloc, &mut keepers, &mut door));
    drop(door);
    calls_made(rt, alloc, keepers)
}

// The place of the one connection whose reply says that a call failed.
fn failed_place(rt: &impl Abort, door: &MemDoor) -> usize {
    let mut found = None;
    for (place, back) in door.back().iter().enumerate() {
        if back.1.bytes().starts_with(FAILED) {
            assert!(rt; found.is_none());
            found = Some(place);
        }
    }
    found.expect(rt, "a reply that says it")
}

// Asserts that the replies are the same but for the connection of this place.
fn assert_same_but(rt: &impl Abort, place: usize, found: &MemDoor, want: &MemDoor) {
    for (index, (found, want)) in found.back().iter().zip(want.back()).enumerate() {
        let is_same = found.1.bytes() == want.1.bytes();
        assert!(rt; is_same || index == place, "connection {index}");
    }
}

// Asserts that the connection of one place is refused, and that the others are served as if it had
// sent nothing.
fn assert_refused(rt: &impl Abort, alloc: Global, found: &MemDoor) {
    let place = failed_place(rt, found);
    let mut want = door(rt, alloc, place);
    let (status, lines) = stopped(rt, alloc, 0, &mut want);
    drop(lines);
    assert_eq!(rt; (status, want.back().len()), (Status::Done, SENT.len()));
    assert_same_but(rt, place, found, &want);
    drop(want);
}

// Asserts how serving ends where this call of the keeper fails: the first two open the instance.
fn assert_stopped(rt: &impl Abort, alloc: Global, fails: u64) {
    let mut found = door(rt, alloc, SENT.len());
    let (status, lines) = stopped(rt, alloc, fails, &mut found);
    if fails < 3 {
        assert_eq!(rt; (status, found.back().len()), (Status::KeeperFault, 0));
        assert_eq!(rt; lines.as_str(), "");
    } else {
        assert_eq!(rt; (status, found.back().len()), (Status::Done, SENT.len()));
        assert_eq!(rt; lines.as_str(), LINES);
        assert_refused(rt, alloc, &found);
    }
    drop(lines);
    drop(found);
}

#[test]
fn a_connection_whose_keeper_fails_is_refused_and_changes_nothing(rt: HostRuntime) {
    let alloc = rt.alloc();
    let count = calls(&rt, alloc);
    assert!(rt; 7 < count, "{count} calls");
    for fails in 1..count.saturating_add(1) {
        assert_stopped(&rt, alloc, fails);
    }
}

// How serving ends where the write of the lines of this number fails, and what is written.
fn cut(rt: &impl Abort, alloc: Global, fails: u64, door: &mut MemDoor) -> (Status, String) {
    let bytes = NET.as_bytes().to_vec(alloc).expect(rt, "memory");
    let mut source = MemSource::new(bytes, Vec::new(alloc), Vec::new(alloc));
    let mut sink = MemSink::new(alloc, vec![in alloc; fails].expect(rt, "memory"));
    let mut keepers = failing(rt, alloc, 0);
    let mut carry = carry(alloc);
    let mut dial = idle_dial(alloc);
    let cut = ran(
        rt,
        alloc,
        "serve a x 4",
        &mut source,
        &mut keepers,
        &mut carry,
        door,
        &mut dial,
        &mut sink,
    );
    drop(source);
    drop(sink);
    drop(keepers);
    drop(carry);
    drop(dial);
    cut
}

/// The write of the lines that fails, how serving ends, what is written, and how many connections
/// were served.
const CUTS: [(u64, Status, &str, usize); 3] = [
    (1, Status::WriteFault, "", 1),
    (3, Status::WriteFault, "1 Ended 1\n2 Ended 1\n", 3),
    (5, Status::Done, LINES, 4),
];

#[test]
fn a_line_that_is_not_written_ends_the_serving(rt: HostRuntime) {
    let alloc = rt.alloc();
    for (fails, status, lines, count) in CUTS {
        let mut door = door(&rt, alloc, SENT.len());
        let (ended, written) = cut(&rt, alloc, fails, &mut door);
        assert_eq!(rt;
            (ended, door.back().len()),
            (status, count),
            "write {fails}"
        );
        assert_eq!(rt; written.as_str(), lines, "write {fails}");
        drop(written);
        drop(door);
    }
}

// A door through which two connections come. The first sends two views in pieces, and its read and
// its write of these numbers fail.
fn failing_door(rt: &impl Abort, alloc: Global, fails: [u64; 2]) -> MemDoor {
    let bytes = format!(in alloc; "{VIEW}{VIEW}").expect(rt, "memory");
    let pieces = vec![in alloc; 40usize, 40, 40, 40, 40, 40].expect(rt, "memory");
    let read = vec![in alloc; fails[0]].expect(rt, "memory");
    let source = MemSource::new(bytes.into_bytes(), pieces, read);
    let sink = MemSink::new(alloc, vec![in alloc; fails[1]].expect(rt, "memory"));
    let pairs = vec![in alloc; (source, sink), sends(rt, alloc, VIEW)];
    MemDoor::new(alloc, pairs.expect(rt, "memory"), Vec::new(alloc)).expect(rt, "memory")
}

// Asserts that the second connection is served, and that what the first got is a part of the two
// replies, from their beginning.
fn assert_replies(rt: &impl Abort, alloc: Global, door: &MemDoor) {
    let whole = format!(in alloc; "{REPLY}{REPLY}").expect(rt, "memory");
    let back = door.back();
    assert_eq!(rt; back.len(), 2);
    assert!(rt; whole.as_bytes().starts_with(back[0].1.bytes()));
    assert_eq!(rt; back[1].1.bytes(), REPLY.as_bytes());
    drop(whole);
}

// The line of the first connection where its read and its write of these numbers fail.
fn line_of_first(rt: &impl Abort, alloc: Global, fails: [u64; 2]) -> String {
    let mut door = failing_door(rt, alloc, fails);
    let (status, lines) = stopped(rt, alloc, 0, &mut door);
    assert_eq!(rt; status, Status::Done);
    assert_replies(rt, alloc, &door);
    drop(door);
    let ends = lines.as_str().split_once('\n');
    let (first, second) = ends.expect(rt, "a line");
    assert_eq!(rt; second, "2 Ended 1\n");
    let first = String::from_str(alloc, first).expect(rt, "memory");
    drop(lines);
    first
}

// All lines of the first connection, where each of its reads fails in turn, or each of its writes.
fn lines_of_first(rt: &impl Abort, alloc: Global, is_read: bool) -> String {
    let mut lines = String::new(alloc);
    for call in 1..MOST_CALLS {
        let fails = if is_read { [call, 0] } else { [0, call] };
        let line = line_of_first(rt, alloc, fails);
        let is_last = line.as_str() == "1 Ended 2";
        lines.push_str(line.as_str()).expect(rt, "memory");
        lines.push(';').expect(rt, "memory");
        drop(line);
        if is_last {
            break;
        }
    }
    lines
}

/// Whether reads fail, and the lines.
const FAULTS: [(bool, &str); 2] = [
    (
        true,
        "1 ReadFault 0;1 ReadFault 0;1 ReadFault 0;1 ReadFault 0;1 ReadFault 1;1 ReadFault 1;\
         1 ReadFault 1;1 ReadFault 2;1 Ended 2;",
    ),
    (false, "1 WriteFault 1;1 WriteFault 2;1 Ended 2;"),
];

#[test]
fn a_connection_that_fails_ends_and_the_next_is_served(rt: HostRuntime) {
    let alloc = rt.alloc();
    for (is_read, want) in FAULTS {
        let lines = lines_of_first(&rt, alloc, is_read);
        assert_eq!(rt; lines.as_str(), want);
        drop(lines);
    }
}
