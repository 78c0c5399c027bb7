//! How runs end over streams and keepers in memory, and what is written then.

mod cases;

use crate::outside::{carry, holding, idle_dial, idle_door, keepers, ran, tombstone};
use cases::{CASES, Case, NAMES};
use misp_app::Status;
use misp_ids::Items;
use misp_outside::{AdminRow, MemKeeper, MemSink, MemSource};
use std::alloc::Global;
use std::process::Abort;
use std::test::Fail;

/// The text with what its names stand for.
fn named(alloc: Global, text: &str) -> Result<String, Fail> {
    misp_samples::filled(alloc, &NAMES, text)
}

/// How a run ended, what was written, and how many batches each keeper has applied.
#[derive(Drop)]
struct Outcome {
    status: Status,
    written: String,
    batches: Vec<u64>,
}

// The bytes of a text, filled with `x` up to this length.
fn padded(rt: &impl Abort, alloc: Global, text: &str, len: usize) -> Vec<u8> {
    let mut bytes = text.as_bytes().to_vec(alloc).expect(rt, "memory");
    let more = len.saturating_sub(bytes.len());
    for _ in 0..more / 4096 {
        bytes.extend_from_slice(&[b'x'; 4096]).expect(rt, "memory");
    }
    for _ in 0..more % 4096 {
        bytes.push(b'x').expect(rt, "memory");
    }
    bytes
}

// A source of this text in pieces of five, filled up to the length of the case.
fn source(rt: &impl Abort, alloc: Global, text: &str, case: &Case<'_>) -> MemSource {
    let pieces = vec![in alloc; 5usize].expect(rt, "memory");
    let fails = vec![in alloc; case.fails[0]].expect(rt, "memory");
    MemSource::new(padded(rt, alloc, text, case.len), pieces, fails)
}

fn sink(rt: &impl Abort, alloc: Global, case: &Case<'_>) -> MemSink {
    MemSink::new(alloc, vec![in alloc; case.fails[1]].expect(rt, "memory"))
}

// How many batches each keeper has applied.
fn batches(rt: &impl Abort, alloc: Global, keepers: &[MemKeeper]) -> Vec<u64> {
    let mut batches = Vec::new(alloc);
    for keeper in keepers {
        batches.push(keeper.batches()).expect(rt, "memory");
    }
    batches
}

// How that case ends over these keepers.
fn ended(
    rt: &impl Abort,
    alloc: Global,
    text: &str,
    case: &Case<'_>,
    keepers: &mut Vec<MemKeeper>,
) -> (Status, String) {
    let mut source = source(rt, alloc, text, case);
    let mut sink = sink(rt, alloc, case);
    let mut door = idle_door(rt, alloc);
    let mut dial = idle_dial(alloc);
    let mut carry = carry(alloc);
    let ended = ran(
        rt,
        alloc,
        case.words,
        &mut source,
        keepers,
        &mut carry,
        &mut door,
        &mut dial,
        &mut sink,
    );
    drop(source);
    drop(sink);
    drop(door);
    drop(dial);
    drop(carry);
    ended
}

// How that case ends, whose source is this text, where its first keeper holds these rows of the
// administration.
fn case_ended(
    rt: &impl Abort,
    alloc: Global,
    text: &str,
    case: &Case<'_>,
    admin: Vec<AdminRow>,
) -> Outcome {
    let first = holding(rt, alloc, case.fails[2], tombstone(rt, alloc, 2), admin);
    let mut keepers = keepers(rt, alloc, first);
    let (status, written) = ended(rt, alloc, text, case, &mut keepers);
    let batches = batches(rt, alloc, keepers.as_slice());
    drop(keepers);
    Outcome {
        status,
        written,
        batches,
    }
}

// The first keepers have applied so many batches, and the others none.
fn applied(first: [u64; 4]) -> [u64; 16] {
    let [a, b, c, d] = first;
    [a, b, c, d, 0, 0, 0, 0, 0, 0, 0, 0, 0, 0, 0, 0]
}

// Asserts that a run ended as the case says, and wrote this.
fn assert_ended(rt: &impl Abort, ran: &Outcome, case: &Case<'_>, written: &str) {
    let source = case.source;
    let batches = applied(case.batches);
    assert_eq!(rt; ran.status, case.status, "after {source}");
    assert_eq!(rt; ran.written.as_str(), written, "after {source}");
    assert_eq!(rt;
        ran.batches.as_slice(),
        batches.as_slice(),
        "after {source}"
    );
}

#[test]
fn runs_end_and_write_as_the_table_says(rt: HostRuntime) -> Result<(), Fail> {
    let alloc = rt.alloc();
    for case in &CASES {
        let source = named(alloc, case.source)?;
        let written = named(alloc, case.written)?;
        let ran = case_ended(&rt, alloc, source.as_str(), case, Vec::new(alloc));
        assert_ended(&rt, &ran, case, written.as_str());
        drop(ran);
        drop(written);
        drop(source);
    }
    Ok(())
}

// A row of the administration that is none.
fn none(rt: &impl Abort, alloc: Global) -> Vec<AdminRow> {
    let row = AdminRow {
        kind: 1,
        name: Items::of(b"name".to_vec(alloc).expect(rt, "memory")),
        bytes: Items::of(Vec::new(alloc)),
    };
    vec![in alloc; row].expect(rt, "memory")
}

#[test]
fn a_row_of_the_administration_that_is_none_ends_the_run(rt: HostRuntime) -> Result<(), Fail> {
    let alloc = rt.alloc();
    let case = Case {
        words: "net",
        source: "{net}---\n{A adds} {wave}\n",
        len: 0,
        fails: [0, 0, 0],
        status: Status::BadRow,
        written: "",
        batches: [1, 0, 0, 0],
    };
    let source = named(alloc, case.source)?;
    let ran = case_ended(&rt, alloc, source.as_str(), &case, none(&rt, alloc));
    assert_ended(&rt, &ran, &case, case.written);
    drop(ran);
    drop(source);
    Ok(())
}
