//! Disks that stop at a call, and the rows that are then in the files.

use super::{Disks, FIRST, found, made, run, told};
use crate::outside::{assert_put, batch};
use crate::values::text;
use misp_outside::{Keeper, RawBatch, SureKeeper};
use sqlite::Files;
use sqlite_disk::{Crash, Disk, Fuse, Memory};
use std::alloc::Global;
use std::process::Abort;

// More calls than a run makes of a disk.
const MOST_CALLS: u64 = 1000;

// The bytes of a long row.
const LONG: usize = 5000;

// The rows before the batch, and those with all of it.
#[derive(Drop)]
struct Lines {
    before: String,
    after: String,
}

// A batch that takes several pages, and of which a row is there already.
fn long_batch(rt: &impl Abort, alloc: Global) -> RawBatch {
    let long = vec![in alloc; b'l'; LONG].expect(rt, "memory");
    let batch = batch(
        rt,
        alloc,
        &[(1, "a", "w"), (3, "c", text(rt, long.as_slice()))],
    );
    drop(long);
    batch
}

// As a keeper in memory holds them.
fn told_in_memory(rt: &impl Abort, alloc: Global) -> Lines {
    let mut keeper = SureKeeper::new(alloc);
    assert_put(rt, alloc, &mut keeper, &FIRST, Ok(()));
    let before = told(rt, alloc, &mut keeper);
    keeper.apply(long_batch(rt, alloc)).expect(rt, "a batch");
    let after = told(rt, alloc, &mut keeper);
    drop(keeper);
    Lines { before, after }
}

// A disk that has the bytes, and passes so many calls on.
fn disk(rt: &impl Abort, alloc: Global, bytes: &[u8], calls: u64) -> Fuse<Memory> {
    let mut memory = Memory::new(alloc);
    memory.write_at(0, bytes).expect(rt, "written bytes");
    memory.sync().expect(rt, "synced bytes");
    Fuse::new(memory, calls)
}

// A copy of the files, whose log and database pass so many calls on.
fn copied(rt: &impl Abort, alloc: Global, files: &Disks, log: u64, db: u64) -> Disks {
    Files {
        log: disk(rt, alloc, files.log.inner().bytes(), log),
        db: disk(rt, alloc, files.db.inner().bytes(), db),
    }
}

// Asserts that the files hold the rows before the batch or with all of it, and with it where it was
// put.
fn assert_whole(rt: &impl Abort, alloc: Global, files: &Disks, lines: &Lines, is_put: bool) {
    let line = found(rt, alloc, copied(rt, alloc, files, u64::MAX, u64::MAX));
    let is_before = line.as_str() == lines.before.as_str();
    let is_after = line.as_str() == lines.after.as_str();
    assert!(rt; is_after || (is_before && !is_put));
    drop(line);
}

// Whether a disk passes no further call on.
fn has_stopped(files: &mut Disks) -> bool {
    !files.may_be_used() || files.log.len().is_err() || files.db.len().is_err()
}

// Asserts that the rows are whole where the process has ended, so that all stays that was written,
// and where the machine has, so that only what was synced stays.
fn assert_left(rt: &impl Abort, alloc: Global, left: &mut Disks, lines: &Lines, is_put: bool) {
    assert_whole(rt, alloc, left, lines, is_put);
    left.log.crash();
    left.db.crash();
    assert_whole(rt, alloc, left, lines, is_put);
}

// A run over the files. Whether a disk has stopped, and whether the batch was put.
fn stops(rt: &impl Abort, alloc: Global, files: Disks, lines: &Lines) -> [bool; 2] {
    let (is_put, mut left) = run(rt, alloc, files, long_batch(rt, alloc));
    let has_stopped = has_stopped(&mut left);
    assert_left(rt, alloc, &mut left, lines, is_put);
    drop(left);
    [has_stopped, is_put]
}

// Stops the log or the database after each number of calls, until a run ends. Whether a batch was
// put in that run, was lost in another, and was put in one that stopped later.
fn each_stop(
    rt: &impl Abort,
    alloc: Global,
    files: &Disks,
    lines: &Lines,
    is_log: bool,
) -> [bool; 3] {
    let (mut lost, mut kept) = (false, false);
    for calls in 0..MOST_CALLS {
        let log = if is_log { calls } else { u64::MAX };
        let db = if is_log { u64::MAX } else { calls };
        let [has_stopped, is_put] = stops(rt, alloc, copied(rt, alloc, files, log, db), lines);
        if !has_stopped {
            return [is_put, lost, kept];
        }
        lost |= !is_put;
        kept |= is_put;
    }
    [false; 3]
}

#[test]
fn a_stop_leaves_a_batch_whole_or_absent(rt: HostRuntime) {
    let alloc = rt.alloc();
    let lines = told_in_memory(&rt, alloc);
    let files = made(&rt, alloc);
    for is_log in [true, false] {
        assert_eq!(rt; each_stop(&rt, alloc, &files, &lines, is_log), [true; 3]);
    }
    drop(files);
    drop(lines);
}
