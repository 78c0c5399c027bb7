//! Synchronisations over a dial in memory.

mod faults;

use crate::outside::{carry, idle_door, ran_from};
use misp_app::Status;
use misp_outside::MemDial;
use std::alloc::Global;
use std::process::Abort;

/// Instances a, b and c, of which c has no address. At b is a link to a, one to it that is off, and
/// one to c.
const NET: &str = "[[org]]\nname = \"Beta\"\nuuid = \"bbbbbbbb-0000-4000-8000-000000000002\"\n\
    [[instance]]\nname = \"a\"\naddress = \"127.0.0.1:8081\"\n\
    [[instance]]\nname = \"b\"\naddress = \"127.0.0.1:8082\"\n\
    [[instance]]\nname = \"c\"\n\
    [[link]]\nname = \"ba\"\nat = \"b\"\nto = \"a\"\n\
    key = \"XXXXXXXXXXXXXXXXXXXXXXXXXXXXXXXXXXXXXXXX\"\nholder = \"Beta\"\npush_org = \"Beta\"\n\
    [[link]]\nname = \"off\"\nat = \"b\"\nto = \"a\"\non = false\n\
    key = \"XXXXXXXXXXXXXXXXXXXXXXXXXXXXXXXXXXXXXXXX\"\nholder = \"Beta\"\npush_org = \"Beta\"\n\
    [[link]]\nname = \"bc\"\nat = \"b\"\nto = \"c\"\n\
    key = \"XXXXXXXXXXXXXXXXXXXXXXXXXXXXXXXXXXXXXXXX\"\nholder = \"Beta\"\npush_org = \"Beta\"\n";

/// An empty list.
const NONE: &str = "HTTP/1.1 200 OK\r\nContent-Type: application/json\r\nContent-Length: 2\r\n\
    Connection: close\r\n\r\n[]";

/// The manifest of no event.
const NOTHING: &str = "HTTP/1.1 200 OK\r\nContent-Type: application/octet-stream\r\n\
    Content-Length: 8\r\nConnection: close\r\n\r\nMSP2\0\0\0\0";

/// That no group was taken.
const TAKEN: &str = "HTTP/1.1 200 OK\r\nContent-Type: application/json\r\nContent-Length: 11\r\n\
    Connection: close\r\n\r\n{\"taken\":0}";

/// Words, the replies of the peer, of which an empty one is none, how it ends, what it writes, how
/// often the peer is asked, and at which address.
const ENDS: [(&str, [&str; 2], Status, &str, usize, &str); 9] = [
    (
        "sync b ba pull",
        ["x", ""],
        Status::Stopped,
        "1 502 {\"name\":\"PeerGarbled\",\"packages\":0,\"place\":\"head\",\"rule\":24}\n",
        1,
        "127.0.0.1:8081",
    ),
    (
        "sync b ba push",
        ["x", ""],
        Status::Stopped,
        "1 502 {\"name\":\"PeerGarbled\",\"packages\":0,\"place\":\"head\",\"rule\":24}\n",
        1,
        "127.0.0.1:8081",
    ),
    (
        "sync b ba pull",
        [NONE, NOTHING],
        Status::Done,
        "1 200 {\"elements\":0,\"events\":0,\"groups\":0,\"packages\":0}\n",
        2,
        "127.0.0.1:8081",
    ),
    (
        "sync b ba push",
        [TAKEN, ""],
        Status::Done,
        "1 200 {\"elements\":0,\"events\":0,\"groups\":0,\"packages\":0}\n",
        1,
        "127.0.0.1:8081",
    ),
    (
        "sync b ba pull",
        ["", ""],
        Status::Stopped,
        "1 502 {\"name\":\"LinkFault\",\"packages\":0,\"place\":\"\",\"rule\":25}\n",
        1,
        "127.0.0.1:8081",
    ),
    (
        "sync b bc pull",
        ["x", ""],
        Status::Stopped,
        "1 502 {\"name\":\"PeerGarbled\",\"packages\":0,\"place\":\"head\",\"rule\":24}\n",
        1,
        "",
    ),
    (
        "sync b off pull",
        ["x", ""],
        Status::Stopped,
        "1 403 {\"name\":\"LinkOff\",\"packages\":0,\"place\":\"\",\"rule\":22}\n",
        0,
        "",
    ),
    (
        "sync a ba pull",
        ["x", ""],
        Status::Stopped,
        "1 404 {\"name\":\"NoLink\",\"packages\":0,\"place\":\"\",\"rule\":21}\n",
        0,
        "",
    ),
    (
        "sync d ba pull",
        ["x", ""],
        Status::NoSuchInstance,
        "",
        0,
        "",
    ),
];

// A dial with these replies, but for empty ones.
fn answering(rt: &impl Abort, alloc: Global, replies: &[&str]) -> MemDial {
    let mut all = Vec::new(alloc);
    for reply in replies {
        if !reply.is_empty() {
            let bytes = reply.as_bytes().to_vec(alloc).expect(rt, "memory");
            all.push(bytes).expect(rt, "memory");
        }
    }
    MemDial::new(alloc, all, Vec::new(alloc))
}

// How a run of these words ends, and what it writes.
fn synced(rt: &impl Abort, alloc: Global, line: &str, dial: &mut MemDial) -> (Status, String) {
    let mut carry = carry(alloc);
    let mut door = idle_door(rt, alloc);
    let synced = ran_from(rt, alloc, line, NET, &mut carry, &mut door, dial);
    drop(carry);
    drop(door);
    synced
}

// Asserts how often the peer is asked, and at which address.
fn assert_asks(rt: &impl Abort, dial: &MemDial, line: &str, count: usize, address: &str) {
    assert_eq!(rt; dial.asks().len(), count, "{line}");
    for ask in dial.asks() {
        assert_eq!(rt; ask.address.as_slice(), address.as_bytes(), "{line}");
    }
}

#[test]
fn synchronising_ends_as_the_table_says(rt: HostRuntime) {
    let alloc = rt.alloc();
    for (line, replies, wanted, text, count, address) in &ENDS {
        let mut dial = answering(&rt, alloc, replies);
        let (status, written) = synced(&rt, alloc, line, &mut dial);
        assert_eq!(rt; status, *wanted, "{line}");
        assert_eq!(rt; written.as_str(), *text, "{line}");
        drop(written);
        assert_asks(&rt, &dial, line, *count, address);
        drop(dial);
    }
}
