mod dials;
mod doors;

use crate::values::{add, assert_bytes, assert_text, bytes, text};
use misp_ids::{EventId, Items, LAST_SECOND, Uid};
use misp_outside::{
    AdminRow, Carry, Clock, Keeper, KeeperFault, MemKeeper, MemSink, MemSource, RawBatch, RawRow,
    Sink, SinkFault, Source, SourceFault, StandardInput, StandardOutput, StepClock, SureCarry,
    SureKeeper, SureSink, SureSource, SystemClock,
};
use std::alloc::Global;
use std::collections::BTreeSet;
use std::fmt::Write;
use std::io;
use std::process::Abort;

fn row(rt: &impl Abort, alloc: Global, event: u128, name: &str, text: &str) -> RawRow {
    RawRow {
        event: EventId(Uid(event)),
        name: Items::of(bytes(rt, alloc, name)),
        bytes: Items::of(bytes(rt, alloc, text)),
    }
}

fn admin_row(rt: &impl Abort, alloc: Global, name: &str, text: &str) -> AdminRow {
    AdminRow {
        kind: 1,
        name: Items::of(bytes(rt, alloc, name)),
        bytes: Items::of(bytes(rt, alloc, text)),
    }
}

// A batch of rows, each of an event, a name and bytes, and of as many rows of the administration.
pub(crate) fn batch(rt: &impl Abort, alloc: Global, told: &[(u128, &str, &str)]) -> RawBatch {
    let mut rows = Vec::new(alloc);
    let mut admin = Vec::new(alloc);
    for (event, name, text) in told {
        let row = row(rt, alloc, *event, name, text);
        rows.push(row).expect(rt, "memory");
        let row = admin_row(rt, alloc, name, text);
        admin.push(row).expect(rt, "memory");
    }
    RawBatch {
        rows: Items::of(rows),
        admin: Items::of(admin),
    }
}

// Asserts how a keeper answers a batch of the rows.
pub(crate) fn assert_put<K: Keeper>(
    rt: &impl Abort,
    alloc: Global,
    keeper: &mut K,
    told: &[(u128, &str, &str)],
    want: Result<(), KeeperFault>,
) {
    assert_eq!(rt; keeper.apply(batch(rt, alloc, told)), want);
}

// Adds the event, the name and the bytes to the line.
fn show(rt: &impl Abort, line: &mut String, row: &RawRow) {
    let event = row.event.0.0;
    let name = text(rt, row.name.as_slice());
    let text = text(rt, row.bytes.as_slice());
    write!(line, "{event} {name} {text};").expect(rt, "memory");
}

// All rows that a keeper holds, in a line.
pub(crate) fn held<K: Keeper>(rt: &impl Abort, alloc: Global, keeper: &mut K) -> String {
    let all = keeper.load_all(alloc).expect(rt, "rows");
    let mut line = String::new(alloc);
    for row in &all {
        show(rt, &mut line, row);
    }
    line
}

fn assert_held<K: Keeper>(rt: &impl Abort, alloc: Global, keeper: &mut K, want: &str) {
    let line = held(rt, alloc, keeper);
    assert_text(rt, line.as_str(), want);
    drop(line);
}

// How many rows of event 1 there are, and how many of them have names that begin with `a`.
fn counted_of_one<K: Keeper>(rt: &impl Abort, alloc: Global, keeper: &mut K) -> [usize; 2] {
    let event = EventId(Uid(1));
    let rows = keeper.load_event(alloc, &event).expect(rt, "rows").len();
    let named = keeper.load_named(alloc, &event, b"a");
    [rows, named.expect(rt, "rows").len()]
}

// The first row of event 1 from each of some names on, in a line.
pub(crate) fn next_of_one<K: Keeper>(rt: &impl Abort, alloc: Global, keeper: &mut K) -> String {
    let event = EventId(Uid(1));
    let mut line = String::new(alloc);
    for from in ["", "a", "aa", "b", "c"] {
        let found = keeper.load_next(alloc, &event, from.as_bytes());
        match found.expect(rt, "a row or none") {
            Some(row) => show(rt, &mut line, &row),
            None => add(rt, &mut line, "none;"),
        }
    }
    line
}

// How many rows there are, and how many of the administration.
fn counted<K: Keeper>(rt: &impl Abort, alloc: Global, keeper: &mut K) -> [usize; 2] {
    let all = keeper.load_all(alloc).expect(rt, "rows").len();
    [all, keeper.load_admin(alloc).expect(rt, "rows").len()]
}

#[test]
fn each_load_answers_its_rows(rt: HostRuntime) {
    let alloc = rt.alloc();
    let mut keeper = SureKeeper::new(alloc);
    let rows = [(1, "a", "x"), (1, "b", "y"), (2, "a", "z")];
    assert_put(&rt, alloc, &mut keeper, &rows, Ok(()));
    assert_eq!(rt; counted_of_one(&rt, alloc, &mut keeper), [2, 1]);
    assert_eq!(rt; counted(&rt, alloc, &mut keeper), [3, 2]);
    let line = next_of_one(&rt, alloc, &mut keeper);
    assert_text(&rt, line.as_str(), "1 a x;1 a x;1 b y;1 b y;none;");
    drop(line);
    drop(keeper);
}

fn assert_load_fails<K: Keeper>(rt: &impl Abort, alloc: Global, keeper: &mut K) {
    assert!(rt; matches!(keeper.load_admin(alloc), Err(KeeperFault::Failed)));
}

#[test]
fn a_failed_call_leaves_the_rows(rt: HostRuntime) {
    let alloc = rt.alloc();
    let fails = vec![in alloc; 2u64, 4u64].expect(&rt, "memory");
    let mut keeper = MemKeeper::new(alloc, fails);
    let two = [(1, "a", "y"), (2, "b", "z")];
    assert_put(&rt, alloc, &mut keeper, &[(1, "a", "x")], Ok(()));
    assert_put(&rt, alloc, &mut keeper, &two, Err(KeeperFault::Failed));
    assert_held(&rt, alloc, &mut keeper, "1 a x;");
    assert_load_fails(&rt, alloc, &mut keeper);
    assert_put(&rt, alloc, &mut keeper, &two, Ok(()));
    assert_held(&rt, alloc, &mut keeper, "1 a y;2 b z;");
    assert_eq!(rt; keeper.batches(), 2);
    drop(keeper);
}

// Asserts what the next reads answer.
fn assert_reads<S: Source>(
    rt: &impl Abort,
    source: &mut S,
    into: &mut [u8],
    want: &[Result<usize, SourceFault>],
) {
    for want in want {
        assert_eq!(rt; source.read(into), *want);
    }
}

// Asserts what the next writes of these bytes answer, over the room for them.
fn assert_writes<S: Sink>(
    rt: &impl Abort,
    sink: &mut S,
    from: &[u8],
    want: &[Result<usize, SinkFault>],
) {
    for want in want {
        sink.room(from.len()).expect(rt, "memory");
        assert_eq!(rt; sink.write(from), *want);
    }
}

fn assert_reads_fail(rt: &impl Abort, alloc: Global) {
    let pieces = vec![in alloc; 3usize].expect(rt, "memory");
    let fails = vec![in alloc; 3u64].expect(rt, "memory");
    let mut source = MemSource::new(bytes(rt, alloc, "abcde"), pieces, fails);
    let mut into = [0; 2];
    let want = [Ok(2), Ok(1), Err(SourceFault::Failed), Ok(2), Ok(0)];
    assert_reads(rt, &mut source, &mut into, &want);
    assert_bytes(rt, into.as_slice(), b"de");
    drop(source);
}

fn assert_writes_fail(rt: &impl Abort, alloc: Global) {
    let fails = vec![in alloc; 2u64].expect(rt, "memory");
    let mut sink = MemSink::new(alloc, fails);
    let want = [Ok(2), Err(SinkFault::Failed), Ok(2)];
    assert_writes(rt, &mut sink, b"ab", &want);
    assert_bytes(rt, sink.bytes(), b"abab");
    drop(sink);
}

#[test]
fn reads_and_writes_fail_in_mid_stream(rt: HostRuntime) {
    assert_reads_fail(&rt, rt.alloc());
    assert_writes_fail(&rt, rt.alloc());
}

#[test]
fn sources_and_sinks_that_never_fail(rt: HostRuntime) {
    let mut source = SureSource::new(bytes(&rt, rt.alloc(), "abc"));
    assert_reads(&rt, &mut source, &mut [0; 2], &[Ok(2), Ok(1), Ok(0)]);
    drop(source);
    let mut sink = SureSink::new(rt.alloc());
    assert_writes(&rt, &mut sink, b"a", &[Ok(1)]);
    assert_bytes(&rt, sink.bytes(), b"a");
    drop(sink);
}

fn assert_carried(rt: &impl Abort, alloc: Global) {
    let carried = SureCarry::new().pass(alloc, b"ab");
    let carried = carried.expect(rt, "what is carried");
    assert_bytes(rt, carried.as_slice(), b"ab");
    drop(carried);
}

fn assert_steps(rt: &impl Abort) {
    let mut clock = StepClock { time: 5, word: 1 };
    assert_eq!(rt;
        (clock.now(), clock.word(), clock.word()),
        (5, 1, (1 << 32) + 1)
    );
}

#[test]
fn the_system_and_what_is_not_there(rt: HostRuntime) {
    let mut input = StandardInput::new(rt.reader());
    assert_reads(&rt, &mut input, &mut [], &[Ok(0)]);
    drop(input);
    let mut output = StandardOutput::new(io::writer(&rt));
    assert_eq!(rt; output.room(1), Ok(()));
    assert_writes(&rt, &mut output, b"", &[Ok(0)]);
    drop(output);
    assert_carried(&rt, rt.alloc());
    assert_steps(&rt);
}

// Asserts that the next words of the clock differ, and that none is 0.
fn assert_words<C: Clock>(rt: &impl Abort, alloc: Global, clock: &mut C) {
    let mut words = BTreeSet::new(alloc);
    for _ in 0..40 {
        words.insert(clock.word()).expect(rt, "memory");
    }
    assert_eq!(rt; (words.len(), words.contains(&0)), (40, false));
    drop(words);
}

#[test]
fn the_clock_of_the_system_goes_and_gives_no_word_twice(rt: HostRuntime) {
    let mut clock = SystemClock::new(&rt);
    let now = clock.now();
    assert!(rt; 0 < now && now <= LAST_SECOND, "{now}");
    assert_words(&rt, rt.alloc(), &mut clock);
}
