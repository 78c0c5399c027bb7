//! Pulls over a dial in memory from a peer whose replies are not what they should be.

use crate::outside::{carry, empty_keepers, idle_door, ran_over};
use misp_outside::{Keeper, MemDial, MemKeeper};
use std::alloc::Global;
use std::process::Abort;

/// Instances a and b. At b is a link to a.
pub(super) const NET: &str =
    "[[org]]\nname = \"Beta\"\nuuid = \"bbbbbbbb-0000-4000-8000-000000000002\"\n\
    [[instance]]\nname = \"a\"\naddress = \"127.0.0.1:8081\"\n\
    [[instance]]\nname = \"b\"\n\
    [[link]]\nname = \"ba\"\nat = \"b\"\nto = \"a\"\n\
    key = \"XXXXXXXXXXXXXXXXXXXXXXXXXXXXXXXXXXXXXXXX\"\nholder = \"Beta\"\npush_org = \"Beta\"\n";

/// No group, with the length of the body before it, as each of these.
pub(super) const GROUPS: (&str, &str) = ("2", "5b5d");

/// The manifest of an event with one attribute.
pub(super) const MANIFEST: (&str, &str) = (
    "108",
    "4d53503200000001e100000000004000800000000000000100000001000000020000001200e1000000000040\
     00800000000000000100000000006553f1010000002200e100000000004000800000000000000102a1000000\
     000040008000000000000001000000006553f100",
);

/// Its package.
pub(super) const PART: (&str, &str) = (
    "240",
    "4d535031e10000000000400080000000000000010000000000000001000000020000006c0200000000000000\
     00000000000000000000e100000000004000800000000000000100000000006553f101030200000000045761\
     76650000000a323032332d31312d31340400000000006553f10000aaaaaaaa00004000800000000000000100\
     000005416c706861000000000000005c020000000000000000000000000000000000e1000000000040008000\
     00000000000102a1000000000040008000000000000001000000006553f10005020200000004746578740f00\
     0000000000000000017800000000000000000000",
);

/// The manifest of two such events.
const TWO: (&str, &str) = (
    "208",
    "4d53503200000002e100000000004000800000000000000100000001000000020000001200e1000000000040\
     00800000000000000100000000006553f1010000002200e100000000004000800000000000000102a1000000\
     000040008000000000000001000000006553f100e10000000000400080000000000000020000000100000002\
     0000001200e100000000004000800000000000000200000000006553f1010000002200e10000000000400080\
     0000000000000202a1000000000040008000000000000002000000006553f100",
);

/// The package of the second.
const SECOND: (&str, &str) = (
    "240",
    "4d535031e10000000000400080000000000000020000000000000001000000020000006c0200000000000000\
     00000000000000000000e100000000004000800000000000000200000000006553f101030200000000045761\
     76650000000a323032332d31312d31340400000000006553f10000aaaaaaaa00004000800000000000000100\
     000005416c706861000000000000005c020000000000000000000000000000000000e1000000000040008000\
     00000000000202a1000000000040008000000000000002000000006553f10005020200000004746578740f00\
     0000000000000000017800000000000000000000",
);

/// The manifest of the event with its own row alone.
const OWN: (&str, &str) = (
    "62",
    "4d53503200000001e100000000004000800000000000000100000001000000010000001200e1000000000040\
     00800000000000000100000000006553f101",
);

/// The manifest of the first event, whose keys do not ascend.
const DOWN: (&str, &str) = (
    "108",
    "4d53503200000001e100000000004000800000000000000100000001000000020000002200e1000000000040\
     00800000000000000102a1000000000040008000000000000001000000006553f1000000001200e100000000\
     004000800000000000000100000000006553f101",
);

/// A manifest that is to have 2^32 - 1 events.
const ENDLESS: (&str, &str) = (
    "108",
    "4d535032ffffffffe100000000004000800000000000000100000001000000020000001200e1000000000040\
     00800000000000000100000000006553f1010000002200e100000000004000800000000000000102a1000000\
     000040008000000000000001000000006553f100",
);

/// A manifest with a byte after it.
const LONGER: (&str, &str) = (
    "109",
    "4d53503200000001e100000000004000800000000000000100000001000000020000001200e1000000000040\
     00800000000000000100000000006553f1010000002200e100000000004000800000000000000102a1000000\
     000040008000000000000001000000006553f10000",
);

/// A manifest without its last byte.
const CUT: (&str, &str) = (
    "107",
    "4d53503200000001e100000000004000800000000000000100000001000000020000001200e1000000000040\
     00800000000000000100000000006553f1010000002200e100000000004000800000000000000102a1000000\
     000040008000000000000001000000006553f1",
);

/// The package as the second of two.
const OTHER_PART: (&str, &str) = (
    "240",
    "4d535031e10000000000400080000000000000010000000100000002000000020000006c0200000000000000\
     00000000000000000000e100000000004000800000000000000100000000006553f101030200000000045761\
     76650000000a323032332d31312d31340400000000006553f10000aaaaaaaa00004000800000000000000100\
     000005416c706861000000000000005c020000000000000000000000000000000000e1000000000040008000\
     00000000000102a1000000000040008000000000000001000000006553f10005020200000004746578740f00\
     0000000000000000017800000000000000000000",
);

/// The package without its last byte.
const CUT_PART: (&str, &str) = (
    "239",
    "4d535031e10000000000400080000000000000010000000000000001000000020000006c0200000000000000\
     00000000000000000000e100000000004000800000000000000100000000006553f101030200000000045761\
     76650000000a323032332d31312d31340400000000006553f10000aaaaaaaa00004000800000000000000100\
     000005416c706861000000000000005c020000000000000000000000000000000000e1000000000040008000\
     00000000000102a1000000000040008000000000000001000000006553f10005020200000004746578740f00\
     00000000000000000178000000000000000000",
);

/// A body that is not as long as its head says.
const SHORT: (&str, &str) = ("9", "4d53503200000000");

/// What the peer replies, what the line says, how often the peer is asked, and how many rows are held
/// then. After the last of these replies there is none.
const ENDS: [(&[(&str, &str)], &str, usize, usize); 14] = [
    (
        &[GROUPS, MANIFEST, PART],
        "1 200 {\"elements\":2,\"events\":1,\"groups\":0,\"packages\":1}\n",
        3,
        2,
    ),
    (
        &[GROUPS, TWO, PART, SECOND],
        "1 200 {\"elements\":4,\"events\":2,\"groups\":0,\"packages\":2}\n",
        4,
        4,
    ),
    (
        &[GROUPS, OWN, PART],
        "1 502 {\"name\":\"PeerGarbled\",\"packages\":0,\"place\":\"package\",\"rule\":24}\n",
        3,
        0,
    ),
    (
        &[GROUPS, DOWN],
        "1 502 {\"name\":\"PeerGarbled\",\"packages\":0,\"place\":\"manifest\",\"rule\":24}\n",
        2,
        0,
    ),
    (
        &[GROUPS, ENDLESS],
        "1 502 {\"name\":\"PeerGarbled\",\"packages\":0,\"place\":\"manifest\",\"rule\":24}\n",
        2,
        0,
    ),
    (
        &[GROUPS, LONGER],
        "1 502 {\"name\":\"PeerGarbled\",\"packages\":0,\"place\":\"manifest\",\"rule\":24}\n",
        2,
        0,
    ),
    (
        &[GROUPS, CUT],
        "1 502 {\"name\":\"PeerGarbled\",\"packages\":0,\"place\":\"manifest\",\"rule\":24}\n",
        2,
        0,
    ),
    (
        &[GROUPS, SHORT],
        "1 502 {\"name\":\"PeerGarbled\",\"packages\":0,\"place\":\"body\",\"rule\":24}\n",
        2,
        0,
    ),
    (
        &[GROUPS, MANIFEST, SECOND],
        "1 502 {\"name\":\"PeerGarbled\",\"packages\":0,\"place\":\"package\",\"rule\":24}\n",
        3,
        0,
    ),
    (
        &[GROUPS, MANIFEST, OTHER_PART],
        "1 502 {\"name\":\"PeerGarbled\",\"packages\":0,\"place\":\"package\",\"rule\":24}\n",
        3,
        0,
    ),
    (
        &[GROUPS, MANIFEST, CUT_PART],
        "1 502 {\"name\":\"PeerGarbled\",\"packages\":0,\"place\":\"package\",\"rule\":24}\n",
        3,
        0,
    ),
    (
        &[GROUPS, MANIFEST],
        "1 502 {\"name\":\"LinkFault\",\"packages\":0,\"place\":\"\",\"rule\":25}\n",
        3,
        0,
    ),
    (
        &[GROUPS, TWO, PART, PART],
        "1 502 {\"name\":\"PeerGarbled\",\"packages\":1,\"place\":\"package\",\"rule\":24}\n",
        4,
        2,
    ),
    (
        &[GROUPS, TWO, PART],
        "1 502 {\"name\":\"LinkFault\",\"packages\":1,\"place\":\"\",\"rule\":25}\n",
        4,
        2,
    ),
];

/// The head of a reply, up to the length of its body, and what is after that.
const HEAD: &[u8] =
    b"HTTP/1.1 200 OK\r\nContent-Type: application/octet-stream\r\nContent-Length: ";

const REST: &[u8] = b"\r\nConnection: close\r\n\r\n";

// A reply with this body.
fn reply(rt: &impl Abort, alloc: Global, length: &str, body: &str) -> Vec<u8> {
    let mut bytes = Vec::new(alloc);
    let body = hex::decode(alloc, body).expect(rt, "bytes");
    bytes.extend_from_slice(HEAD).expect(rt, "memory");
    bytes
        .extend_from_slice(length.as_bytes())
        .expect(rt, "memory");
    bytes.extend_from_slice(REST).expect(rt, "memory");
    bytes.extend_from_slice(&body).expect(rt, "memory");
    bytes
}

/// A dial with these replies, whose ask of this number fails.
pub(super) fn lying(
    rt: &impl Abort,
    alloc: Global,
    replies: &[(&str, &str)],
    fails: u64,
) -> MemDial {
    let mut all = Vec::new(alloc);
    for (length, body) in replies {
        all.push(reply(rt, alloc, length, body))
            .expect(rt, "memory");
    }
    MemDial::new(alloc, all, vec![in alloc; fails].expect(rt, "memory"))
}

// What a pull over these keepers writes.
fn pulled(
    rt: &impl Abort,
    alloc: Global,
    keepers: &mut Vec<MemKeeper>,
    dial: &mut MemDial,
) -> String {
    let mut carry = carry(alloc);
    let mut door = idle_door(rt, alloc);
    let (_, written) = ran_over(
        rt,
        alloc,
        "sync b ba pull",
        NET,
        keepers,
        &mut carry,
        &mut door,
        dial,
    );
    drop(carry);
    drop(door);
    written
}

// How many rows the first of these keepers holds.
fn held(rt: &impl Abort, alloc: Global, keepers: &mut Vec<MemKeeper>) -> usize {
    assert!(rt; 0 < keepers.len());
    let rows = keepers[0].load_all(alloc).expect(rt, "rows");
    let count = rows.len();
    drop(rows);
    count
}

#[test]
fn a_lying_peer_is_refused_and_what_was_taken_stays(rt: HostRuntime) {
    let alloc = rt.alloc();
    for (replies, text, asked, rows) in &ENDS {
        let mut keepers = empty_keepers(&rt, alloc);
        let mut dial = lying(&rt, alloc, replies, 0);
        let written = pulled(&rt, alloc, &mut keepers, &mut dial);
        assert_eq!(rt; written.as_str(), *text);
        assert_eq!(rt; dial.asks().len(), *asked, "{text}");
        assert_eq!(rt; held(&rt, alloc, &mut keepers), *rows, "{text}");
        drop(written);
        drop(dial);
        drop(keepers);
    }
}
