//! Synchronisations over a dial and over a keeper of which one call after another fails, and the next
//! one, which takes what was left.

use crate::failing::{MOST_CALLS, calls_made, failing};
use crate::lying::{GROUPS, MANIFEST, NET, PART, lying};
use crate::outside::{carry, idle_dial, idle_door, ran_over};
use misp_app::Status;
use misp_outside::{MemDial, MemKeeper};
use std::alloc::Global;
use std::process::Abort;
use std::test::Fail;

/// What the names in the texts stand for, in the order in which they are put in.
const NAMES: [(&str, &str); 5] = [
    (
        "{key}",
        "[[key]]\ninstance = 'b'\nkey = '{kb}'\norg = 'Beta'\nrole = 'publisher'\n",
    ),
    (
        "{b}",
        "1700000000 00000000000000000000000000000000 req b {kb} POST /events/",
    ),
    ("{kb}", "BBBBBBBBBBBBBBBBBBBBBBBBBBBBBBBBBBBBBBBB"),
    ("{e7}", "e1000000-0000-4000-8000-000000000007"),
    ("'", "\""),
];

/// An event at b, which is published.
const SCRIPT: &str = "[[instance]]\nname = 'b'\n[[org]]\nname = 'Beta'\n\
    uuid = 'bbbbbbbb-0000-4000-8000-000000000002'\n{key}---\n\
    {b}add {'uuid':'{e7}','info':'Seven','distribution':'3',\
    'Attribute':[{'type':'text','value':'x'}]}\n{b}publish/{e7}\n";

/// That no group was taken, and that a package was.
const NO_GROUP: (&str, &str) = ("11", "7b2274616b656e223a307d");

const TAKEN: (&str, &str) = ("11", "7b2274616b656e223a327d");

/// What is written of what was done, where the peer was not reached, and where a keeper failed.
const DONE: &str = "1 200 {\"elements\":2,\"events\":1,\"groups\":0,\"packages\":1}\n";

const NO_PEER: &str = "1 502 {\"name\":\"LinkFault\",\"packages\":0,\"place\":\"\",\"rule\":25}\n";

const NO_KEEPER: &str =
    "1 503 {\"name\":\"KeeperFault\",\"packages\":0,\"place\":\"\",\"rule\":26}\n";

/// Words, and what the peer replies.
type Exchange = (&'static str, &'static [(&'static str, &'static str)]);

const SYNCS: [Exchange; 2] = [
    ("sync b ba pull", &[GROUPS, MANIFEST, PART]),
    ("sync b ba push", &[NO_GROUP, TAKEN]),
];

// How a run of these words ends, and what it writes.
fn synced(
    rt: &impl Abort,
    alloc: Global,
    line: &str,
    text: &str,
    keepers: &mut Vec<MemKeeper>,
    dial: &mut MemDial,
) -> (Status, String) {
    let mut carry = carry(alloc);
    let mut door = idle_door(rt, alloc);
    let synced = ran_over(rt, alloc, line, text, keepers, &mut carry, &mut door, dial);
    drop(carry);
    drop(door);
    synced
}

// Adds the event at b to the keepers.
fn add_event(rt: &impl Abort, alloc: Global, text: &str, keepers: &mut Vec<MemKeeper>) {
    let mut dial = idle_dial(alloc);
    let (status, lines) = synced(rt, alloc, "net", text, keepers, &mut dial);
    drop(dial);
    assert_eq!(rt; status, Status::Done);
    let is_added = lines.as_str().starts_with("1 200 ");
    assert!(rt;
        is_added && lines.as_str().find("\n2 200 ").is_some(),
        "{lines}"
    );
    drop(lines);
}

// Keepers with the event at b, of which this call of the first fails.
fn prepared(rt: &impl Abort, alloc: Global, text: &str, fails: u64) -> Vec<MemKeeper> {
    let mut keepers = failing(rt, alloc, fails);
    add_event(rt, alloc, text, &mut keepers);
    keepers
}

// How a synchronisation over these keepers ends, where its ask of this number fails, what it writes,
// and how often the peer is asked.
fn asked(
    rt: &impl Abort,
    alloc: Global,
    sync: &Exchange,
    keepers: &mut Vec<MemKeeper>,
    fails: u64,
) -> (Status, String, usize) {
    let mut dial = lying(rt, alloc, sync.1, fails);
    let (status, line) = synced(rt, alloc, sync.0, NET, keepers, &mut dial);
    let asks = dial.asks().len();
    drop(dial);
    (status, line, asks)
}

// Asserts it.
fn assert_asked(
    rt: &impl Abort,
    alloc: Global,
    sync: &Exchange,
    keepers: &mut Vec<MemKeeper>,
    fails: u64,
    want: (Status, &str, usize),
) {
    let (status, line, asks) = asked(rt, alloc, sync, keepers, fails);
    assert_eq!(rt; (status, line.as_str(), asks), want, "{fails}");
    drop(line);
}

// Asserts that a synchronisation over these keepers takes or hands in all.
fn assert_done(rt: &impl Abort, alloc: Global, sync: &Exchange, keepers: &mut Vec<MemKeeper>) {
    let want = (Status::Done, DONE, sync.1.len());
    assert_asked(rt, alloc, sync, keepers, 0, want);
}

#[test]
fn what_an_ask_that_fails_leaves_is_taken_by_the_next(rt: HostRuntime) -> Result<(), Fail> {
    let alloc = rt.alloc();
    let text = misp_samples::filled(alloc, &NAMES, SCRIPT)?;
    for sync in &SYNCS {
        for (asks, fails) in (0..sync.1.len()).zip(1..MOST_CALLS) {
            let mut keepers = prepared(&rt, alloc, text.as_str(), 0);
            let want = (Status::Stopped, NO_PEER, asks.saturating_add(1));
            assert_asked(&rt, alloc, sync, &mut keepers, fails, want);
            assert_done(&rt, alloc, sync, &mut keepers);
            drop(keepers);
        }
    }
    drop(text);
    Ok(())
}

// How many calls are made of the first keeper before a synchronisation, and with it.
fn calls(rt: &impl Abort, alloc: Global, text: &str, sync: &Exchange) -> [u64; 2] {
    let before = calls_made(rt, alloc, prepared(rt, alloc, text, MOST_CALLS));
    let mut keepers = prepared(rt, alloc, text, MOST_CALLS);
    assert_done(rt, alloc, sync, &mut keepers);
    [before, calls_made(rt, alloc, keepers)]
}

// Asserts how a synchronisation ended, and what it wrote.
fn assert_ended(
    rt: &impl Abort,
    ended: &(Status, String, usize),
    want: (Status, &str),
    fails: u64,
) {
    assert_eq!(rt; (ended.0, ended.1.as_str()), want, "call {fails}");
}

// Asserts how a synchronisation ends whose keeper fails at this call, which is of its opening or
// after it, and that the next one takes what was left.
fn assert_stopped(
    rt: &impl Abort,
    alloc: Global,
    sync: &Exchange,
    text: &str,
    fails: u64,
    is_opening: bool,
) {
    let mut keepers = prepared(rt, alloc, text, fails);
    let ended = asked(rt, alloc, sync, &mut keepers, 0);
    if is_opening {
        assert_ended(rt, &ended, (Status::KeeperFault, ""), fails);
        assert_eq!(rt; ended.2, 0, "call {fails}");
    } else {
        assert_ended(rt, &ended, (Status::Stopped, NO_KEEPER), fails);
    }
    drop(ended);
    assert_done(rt, alloc, sync, &mut keepers);
    drop(keepers);
}

#[test]
fn what_a_keeper_that_fails_leaves_is_taken_by_the_next(rt: HostRuntime) -> Result<(), Fail> {
    let alloc = rt.alloc();
    let text = misp_samples::filled(alloc, &NAMES, SCRIPT)?;
    for sync in &SYNCS {
        let [before, all] = calls(&rt, alloc, text.as_str(), sync);
        assert!(rt; before.saturating_add(2) < all, "{before} and {all} calls");
        for fails in before.saturating_add(1)..all.saturating_add(1) {
            let is_opening = fails.saturating_sub(before) < 3;
            assert_stopped(&rt, alloc, sync, text.as_str(), fails, is_opening);
        }
    }
    drop(text);
    Ok(())
}
