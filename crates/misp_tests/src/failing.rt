//! Runs over a keeper, a source or a sink of which one call after another fails.

mod script;

use crate::outside::{carry, idle_dial, idle_door, keepers, ran, ran_over};
use misp_app::Status;
use misp_outside::{Keeper, MemKeeper, MemSink, MemSource};
use script::{NAMES, NETS, REFUSED, SCRIPT};
use std::alloc::Global;
use std::process::Abort;
use std::test::Fail;

/// More calls than a run makes.
pub(super) const MOST_CALLS: u64 = 1000;

/// How a line says that a call of the keeper failed: of this instance, of the peer of a
/// synchronisation, and in the digits of a session.
const SAYS: [&str; 3] = ["\"rule\":26}", "\"503 26\"", "2272756c65223a32367d"];

/// What a refused synchronisation says, and no refused request.
const OF_SYNC: &str = "\"packages\":";

/// Keepers of which this call of the first fails.
pub(super) fn failing(rt: &impl Abort, alloc: Global, fails: u64) -> Vec<MemKeeper> {
    let fails = vec![in alloc; fails].expect(rt, "memory");
    keepers(rt, alloc, MemKeeper::new(alloc, fails))
}

// How a run of the text over these keepers ends, and what it writes.
fn run(
    rt: &impl Abort,
    alloc: Global,
    text: &str,
    keepers: &mut Vec<MemKeeper>,
) -> (Status, String) {
    let mut carry = carry(alloc);
    let mut door = idle_door(rt, alloc);
    let mut dial = idle_dial(alloc);
    let run = ran_over(
        rt, alloc, "net", text, keepers, &mut carry, &mut door, &mut dial,
    );
    drop(carry);
    drop(door);
    drop(dial);
    run
}

// The same over keepers of which this call of the first fails.
fn stopped(rt: &impl Abort, alloc: Global, text: &str, fails: u64) -> (Status, String) {
    let mut keepers = failing(rt, alloc, fails);
    let stopped = run(rt, alloc, text, &mut keepers);
    drop(keepers);
    stopped
}

// What a run of the text writes where no call fails.
fn written(rt: &impl Abort, alloc: Global, text: &str) -> String {
    let (status, written) = stopped(rt, alloc, text, 0);
    assert_eq!(rt; status, Status::Done);
    written
}

// How many calls a keeper takes until one fails.
fn calls_left(alloc: Global, keeper: &mut MemKeeper) -> u64 {
    for calls in 0..MOST_CALLS {
        if keeper.load_admin(alloc).is_err() {
            return calls;
        }
    }
    MOST_CALLS
}

/// How many calls were made of the first of these keepers, whose last call before `MOST_CALLS`
/// works.
pub(super) fn calls_made(rt: &impl Abort, alloc: Global, mut keepers: Vec<MemKeeper>) -> u64 {
    assert!(rt; 0 < keepers.len());
    let mut first = keepers.remove(0);
    let left = calls_left(alloc, &mut first);
    drop(first);
    drop(keepers);
    MOST_CALLS.saturating_sub(left).saturating_sub(1)
}

// How many calls a run of the text makes of its first keeper.
fn calls(rt: &impl Abort, alloc: Global, text: &str) -> u64 {
    let mut keepers = failing(rt, alloc, MOST_CALLS);
    drop(run(rt, alloc, text, &mut keepers));
    calls_made(rt, alloc, keepers)
}

// Whether the line says that a call of the keeper failed.
fn is_failed(line: &str) -> bool {
    SAYS.iter().any(|says| line.find(*says).is_some())
}

// How many lines say that something was refused.
fn refusals(written: &str) -> usize {
    let mut count = 0usize;
    for line in written.split('\n') {
        if line.find("\"rule\":").is_some() {
            count = count.saturating_add(1);
        }
    }
    count
}

// The place of the one line that says it, and whether it is a synchronisation.
fn failed_line(rt: &impl Abort, written: &str) -> (usize, bool) {
    let mut found = None;
    let mut place = 0usize;
    for line in written.split('\n') {
        if is_failed(line) {
            assert!(rt; found.is_none(), "{written}");
            found = Some((place, line.find(OF_SYNC).is_some()));
        }
        place = place.saturating_add(1);
    }
    found.expect(rt, "a line that failed")
}

// The text with another line in place of the first and the last of these lines, and of those
// between.
fn replaced(
    rt: &impl Abort,
    alloc: Global,
    text: &str,
    lines: (usize, usize),
    other: &str,
) -> String {
    let mut whole = String::new(alloc);
    let mut place = 0usize;
    for line in text.split('\n') {
        let is_replaced = lines.0 <= place && place <= lines.1;
        let line = if is_replaced { other } else { line };
        if 0 < place {
            whole.push('\n').expect(rt, "memory");
        }
        whole.push_str(line).expect(rt, "memory");
        place = place.saturating_add(1);
    }
    whole
}

// Asserts that two outputs are the same but for these lines.
fn assert_same_but(rt: &impl Abort, alloc: Global, lines: (usize, usize), found: &str, want: &str) {
    let found = replaced(rt, alloc, found, lines, "");
    let want = replaced(rt, alloc, want, lines, "");
    assert_eq!(rt; found.as_str(), want.as_str());
    drop(found);
    drop(want);
}

// Asserts that a run in which the line of this place failed writes for all others what a run
// writes in which nothing is done there.
fn assert_undone(
    rt: &impl Abort,
    alloc: Global,
    net: &str,
    script: &str,
    place: usize,
    found: &str,
) {
    let lines = replaced(rt, alloc, script, (place, place), "x");
    let text = format!(in alloc; "{net}{lines}").expect(rt, "memory");
    drop(lines);
    let want = written(rt, alloc, text.as_str());
    drop(text);
    assert_same_but(rt, alloc, (place, place), found, want.as_str());
    drop(want);
}

// Asserts what a run writes in which a call failed after the opening: one line says so. Where that
// is a request, nothing was done. Where it is a synchronisation, the next line takes what it left.
fn assert_refused(
    rt: &impl Abort,
    alloc: Global,
    net: &str,
    script: &str,
    whole: &str,
    found: &str,
) {
    let (place, is_sync) = failed_line(rt, found);
    if is_sync {
        let lines = (place, place.saturating_add(1));
        assert_same_but(rt, alloc, lines, found, whole);
    } else {
        assert_undone(rt, alloc, net, script, place, found);
    }
}

// Asserts how a run ends where this call of the first keeper fails: the first two open it.
fn assert_stopped(
    rt: &impl Abort,
    alloc: Global,
    net: &str,
    script: &str,
    whole: &str,
    fails: u64,
) {
    let text = format!(in alloc; "{net}{script}").expect(rt, "memory");
    let (status, found) = stopped(rt, alloc, text.as_str(), fails);
    drop(text);
    if fails < 3 {
        assert_eq!(rt; status, Status::KeeperFault, "call {fails}");
        assert_eq!(rt; found.as_str(), "", "call {fails}");
    } else {
        assert_eq!(rt; status, Status::Done, "call {fails}");
        assert_refused(rt, alloc, net, script, whole, found.as_str());
    }
    drop(found);
}

// Asserts it of each call of the first keeper, of which there are at least so many.
fn assert_each(rt: &impl Abort, alloc: Global, net: &str, script: &str, least: u64) {
    let text = format!(in alloc; "{net}{script}").expect(rt, "memory");
    let count = calls(rt, alloc, text.as_str());
    assert!(rt; least <= count, "{count} calls");
    let whole = written(rt, alloc, text.as_str());
    drop(text);
    assert_eq!(rt; refusals(whole.as_str()), REFUSED, "{whole}");
    for fails in 1..count.saturating_add(1) {
        assert_stopped(rt, alloc, net, script, whole.as_str(), fails);
    }
    drop(whole);
}

#[test]
fn a_request_whose_keeper_fails_is_refused_and_changes_nothing(
    rt: HostRuntime,
) -> Result<(), Fail> {
    let alloc = rt.alloc();
    let script = misp_samples::filled(alloc, &NAMES, SCRIPT)?;
    for (net, least) in NETS.iter().zip([100, 20]) {
        let net = misp_samples::filled(alloc, &NAMES, net)?;
        assert_each(&rt, alloc, net.as_str(), script.as_str(), least);
        drop(net);
    }
    drop(script);
    Ok(())
}

// How a run of the text ends whose read and write of these numbers fail, what it writes, and how
// many batches its first keeper has applied. The source comes in pieces.
fn cut(rt: &impl Abort, alloc: Global, text: &str, fails: [u64; 2]) -> (Status, String, u64) {
    let bytes = text.as_bytes().to_vec(alloc).expect(rt, "memory");
    let pieces = vec![in alloc; 9usize, 800, 800, 800, 800, 800, 800].expect(rt, "memory");
    let read = vec![in alloc; fails[0]].expect(rt, "memory");
    let mut source = MemSource::new(bytes, pieces, read);
    let mut sink = MemSink::new(alloc, vec![in alloc; fails[1]].expect(rt, "memory"));
    let mut keepers = failing(rt, alloc, 0);
    let mut carry = carry(alloc);
    let mut door = idle_door(rt, alloc);
    let mut dial = idle_dial(alloc);
    let (status, written) = ran(
        rt,
        alloc,
        "net",
        &mut source,
        &mut keepers,
        &mut carry,
        &mut door,
        &mut dial,
        &mut sink,
    );
    drop(source);
    drop(sink);
    drop(carry);
    drop(door);
    drop(dial);
    assert!(rt; 0 < keepers.len());
    let batches = keepers[0].batches();
    drop(keepers);
    (status, written, batches)
}

// How many reads a run makes, where each of them fails in turn, and then nothing is run.
fn reads(rt: &impl Abort, alloc: Global, text: &str, whole: &str) -> u64 {
    for fails in 1..MOST_CALLS {
        let (status, written, batches) = cut(rt, alloc, text, [fails, 0]);
        if status == Status::Done {
            assert_eq!(rt; written.as_str(), whole);
            drop(written);
            return fails.saturating_sub(1);
        }
        assert_eq!(rt; (status, batches), (Status::ReadFault, 0), "read {fails}");
        assert_eq!(rt; written.as_str(), "", "read {fails}");
        drop(written);
    }
    MOST_CALLS
}

// How many writes a run makes, where each of them fails in turn, and then all was run and a part
// of the output was written, from its beginning.
fn writes(rt: &impl Abort, alloc: Global, text: &str, whole: &str, all: u64) -> u64 {
    for fails in 1..MOST_CALLS {
        let (status, written, batches) = cut(rt, alloc, text, [0, fails]);
        assert_eq!(rt; batches, all, "write {fails}");
        if status == Status::Done {
            assert_eq!(rt; written.as_str(), whole);
            drop(written);
            return fails.saturating_sub(1);
        }
        assert_eq!(rt; status, Status::WriteFault, "write {fails}");
        assert!(rt; whole.starts_with(written.as_str()), "write {fails}");
        drop(written);
    }
    MOST_CALLS
}

#[test]
fn a_read_or_a_write_that_fails_ends_the_run(rt: HostRuntime) -> Result<(), Fail> {
    let alloc = rt.alloc();
    let net = misp_samples::filled(alloc, &NAMES, NETS[0])?;
    let script = misp_samples::filled(alloc, &NAMES, SCRIPT)?;
    let text = format!(in alloc; "{net}{script}")?;
    drop(net);
    drop(script);
    let (status, whole, all) = cut(&rt, alloc, text.as_str(), [0, 0]);
    assert_eq!(rt; status, Status::Done);
    assert!(rt; 20 < all, "{all} batches");
    let reads = reads(&rt, alloc, text.as_str(), whole.as_str());
    assert!(rt; 7 < reads, "{reads} reads");
    let writes = writes(&rt, alloc, text.as_str(), whole.as_str(), all);
    assert!(rt; 0 < writes, "{writes} writes");
    drop(text);
    drop(whole);
    Ok(())
}
