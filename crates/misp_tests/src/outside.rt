//! What is outside of a run: streams, keepers, a door and a dial in memory.

use misp_app::{KEEPERS, Status, run};
use misp_ids::{EventId, Items, Uid};
use misp_outside::{
    AdminRow, Door, Keeper, MemCarry, MemDial, MemDoor, MemKeeper, MemSink, MemSource, RawBatch,
    RawRow, StepClock,
};
use misp_words::Words;
use std::alloc::Global;
use std::process::Abort;

/// The owner and the key of a tombstone of Alpha, which are its name.
const OF_ALPHA: &[u8] = b"\xaa\xaa\xaa\xaa\0\0\x40\0\x80\0\0\0\0\0\0\x01\
    \0\xe1\0\0\0\0\0\x40\0\x80\0\0\0\0\0\0\x09\0";

/// Its stamp 1700000000, its label, its flags and its content.
const DELETED: &[u8] = b"\0\0\0\0\x65\x53\xf1\0\0\0\x07";

/// The bytes of the tombstone in this form.
pub(super) fn tombstone_bytes(rt: &impl Abort, alloc: Global, form: u8) -> Vec<u8> {
    let mut bytes = Vec::new(alloc);
    bytes.push(form).expect(rt, "memory");
    bytes.extend_from_slice(OF_ALPHA).expect(rt, "memory");
    bytes.extend_from_slice(DELETED).expect(rt, "memory");
    bytes
}

/// A row of these bytes under the event and the name of the tombstone.
pub(super) fn row_of(rt: &impl Abort, alloc: Global, bytes: Vec<u8>) -> RawRow {
    RawRow {
        event: EventId(Uid(0xe100_0000_0000_4000_8000_0000_0000_0009)),
        name: Items::of(OF_ALPHA.to_vec(alloc).expect(rt, "memory")),
        bytes: Items::of(bytes),
    }
}

/// The tombstone of Alpha for an event, in this form.
pub(super) fn tombstone(rt: &impl Abort, alloc: Global, form: u8) -> RawRow {
    row_of(rt, alloc, tombstone_bytes(rt, alloc, form))
}

/// A keeper that holds this row and these rows of the administration, and whose call of this number
/// fails.
pub(super) fn holding(
    rt: &impl Abort,
    alloc: Global,
    fails: u64,
    row: RawRow,
    admin: Vec<AdminRow>,
) -> MemKeeper {
    let batch = RawBatch {
        rows: Items::of(vec![in alloc; row].expect(rt, "memory")),
        admin: Items::of(admin),
    };
    let mut keeper = MemKeeper::new(alloc, vec![in alloc; fails].expect(rt, "memory"));
    keeper.apply(batch).expect(rt, "a batch");
    keeper
}

/// As many keepers as a run asks for, of which this one is the first and the others hold nothing.
pub(super) fn keepers(rt: &impl Abort, alloc: Global, first: MemKeeper) -> Vec<MemKeeper> {
    let mut keepers = Vec::new(alloc);
    keepers.push(first).expect(rt, "memory");
    for _ in 1..KEEPERS {
        let keeper = MemKeeper::new(alloc, Vec::new(alloc));
        keepers.push(keeper).expect(rt, "memory");
    }
    keepers
}

/// The same, all of which hold nothing.
pub(super) fn empty_keepers(rt: &impl Abort, alloc: Global) -> Vec<MemKeeper> {
    keepers(rt, alloc, MemKeeper::new(alloc, Vec::new(alloc)))
}

// A source of this text, of which no call fails.
fn source(rt: &impl Abort, alloc: Global, text: &str) -> MemSource {
    let bytes = text.as_bytes().to_vec(alloc).expect(rt, "memory");
    MemSource::new(bytes, Vec::new(alloc), Vec::new(alloc))
}

/// A carry of which no call fails.
pub(super) fn carry(alloc: Global) -> MemCarry {
    MemCarry::new(alloc, Vec::new(alloc))
}

/// A door to which nobody comes.
pub(super) fn idle_door(rt: &impl Abort, alloc: Global) -> MemDoor {
    MemDoor::new(alloc, Vec::new(alloc), Vec::new(alloc)).expect(rt, "memory")
}

/// A dial that reaches nobody.
pub(super) fn idle_dial(alloc: Global) -> MemDial {
    MemDial::new(alloc, Vec::new(alloc), Vec::new(alloc))
}

// The words of a line, with one space between any two.
fn words_of(rt: &impl Abort, alloc: Global, line: &str) -> Vec<String> {
    let mut words = Vec::new(alloc);
    for word in line.split(' ') {
        let word = String::from_str(alloc, word).expect(rt, "memory");
        words.push(word).expect(rt, "memory");
    }
    words
}

// What a sink has.
fn written(rt: &impl Abort, alloc: Global, sink: &MemSink) -> String {
    let bytes = sink.bytes().to_vec(alloc).expect(rt, "memory");
    String::from_utf8(bytes).expect(rt, "a text")
}

/// How a run of these words ends over these, and what it writes.
#[tactic(auto, using(misp_app::proofs::Hosted::enough_keepers))]
pub(super) fn ran<K: Keeper, D: Door>(
    rt: &impl Abort,
    alloc: Global,
    line: &str,
    source: &mut MemSource,
    keepers: &mut Vec<K>,
    carry: &mut MemCarry,
    door: &mut D,
    dial: &mut MemDial,
    sink: &mut MemSink,
) -> (Status, String) {
    assert!(rt; keepers.len() >= KEEPERS);
    let words = words_of(rt, alloc, line);
    let mut clock = StepClock { time: 0, word: 0 };
    let status = run(
        alloc,
        &Words::read(alloc, &words),
        source,
        sink,
        keepers,
        carry,
        door,
        dial,
        &mut clock,
    );
    drop(words);
    (status, written(rt, alloc, sink))
}

/// The same from a source of this text, of which no call fails.
pub(super) fn ran_over<K: Keeper, D: Door>(
    rt: &impl Abort,
    alloc: Global,
    line: &str,
    text: &str,
    keepers: &mut Vec<K>,
    carry: &mut MemCarry,
    door: &mut D,
    dial: &mut MemDial,
) -> (Status, String) {
    let mut source = source(rt, alloc, text);
    let mut sink = MemSink::new(alloc, Vec::new(alloc));
    let ran = ran(
        rt,
        alloc,
        line,
        &mut source,
        keepers,
        carry,
        door,
        dial,
        &mut sink,
    );
    drop(source);
    drop(sink);
    ran
}

/// The same over keepers that hold nothing, of which no call fails.
pub(super) fn ran_from<D: Door>(
    rt: &impl Abort,
    alloc: Global,
    line: &str,
    text: &str,
    carry: &mut MemCarry,
    door: &mut D,
    dial: &mut MemDial,
) -> (Status, String) {
    let mut keepers = empty_keepers(rt, alloc);
    let ran = ran_over(rt, alloc, line, text, &mut keepers, carry, door, dial);
    drop(keepers);
    ran
}
