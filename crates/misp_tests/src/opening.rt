//! Opening an instance over a keeper that holds a row of the first form, which is put anew once, or
//! one that is none.

use crate::outside::{
    carry, holding, idle_dial, idle_door, keepers, ran_over, row_of, tombstone, tombstone_bytes,
};
use misp_app::Status;
use misp_outside::{Keeper, MemKeeper};
use std::alloc::Global;
use std::process::Abort;

/// An instance, and no line.
const SOURCE: &str = "[[instance]]\nname = \"a\"\n---\n";

// How a run over this keeper and others, which hold nothing, ends, and the keeper afterwards.
fn opened(rt: &impl Abort, alloc: Global, first: MemKeeper) -> (Status, MemKeeper) {
    let mut keepers = keepers(rt, alloc, first);
    let mut carry = carry(alloc);
    let mut door = idle_door(rt, alloc);
    let mut dial = idle_dial(alloc);
    let (status, lines) = ran_over(
        rt,
        alloc,
        "net",
        SOURCE,
        &mut keepers,
        &mut carry,
        &mut door,
        &mut dial,
    );
    drop(lines);
    drop(carry);
    drop(door);
    drop(dial);
    assert!(rt; 0 < keepers.len());
    let first = keepers.remove(0);
    drop(keepers);
    (status, first)
}

// Asserts that a keeper holds one row, of these bytes, and has applied so many batches.
fn assert_holds(rt: &impl Abort, alloc: Global, keeper: &mut MemKeeper, want: &[u8], batches: u64) {
    let all = keeper.load_all(alloc).expect(rt, "rows");
    assert_eq!(rt; (all.len(), keeper.batches()), (1, batches));
    for row in &all {
        assert_eq!(rt; row.bytes.as_slice(), want);
    }
    drop(all);
}

// Opens an instance over the keeper, and asserts that it is done, that the keeper holds the
// tombstone in the second form then, and that it has applied two batches: the one that it was made
// with, and one of an opening.
fn opened_in_second(rt: &impl Abort, alloc: Global, keeper: MemKeeper) -> MemKeeper {
    let (status, mut keeper) = opened(rt, alloc, keeper);
    assert_eq!(rt; status, Status::Done);
    let want = tombstone_bytes(rt, alloc, 2);
    assert_eq!(rt; want.len(), 46);
    assert_holds(rt, alloc, &mut keeper, want.as_slice(), 2);
    drop(want);
    keeper
}

#[test]
fn a_row_of_the_first_form_is_put_anew_once(rt: HostRuntime) {
    let alloc = rt.alloc();
    let old = tombstone(&rt, alloc, 1);
    let keeper = holding(&rt, alloc, 0, old, Vec::new(alloc));
    let keeper = opened_in_second(&rt, alloc, keeper);
    drop(opened_in_second(&rt, alloc, keeper));
}

// Asserts how an opening ends over a keeper that holds a row of these bytes and whose call of this
// number fails, and that it holds what it held.
fn assert_stays(rt: &impl Abort, alloc: Global, fails: u64, bytes: &[u8], want: Status) {
    let row = row_of(rt, alloc, bytes.to_vec(alloc).expect(rt, "memory"));
    let keeper = holding(rt, alloc, fails, row, Vec::new(alloc));
    let (status, mut keeper) = opened(rt, alloc, keeper);
    assert_eq!(rt; status, want);
    assert_holds(rt, alloc, &mut keeper, bytes, 1);
    drop(keeper);
}

#[test]
fn a_row_that_is_none_ends_the_opening(rt: HostRuntime) {
    let alloc = rt.alloc();
    assert_eq!(rt; Status::BadRow.code(), 11);
    assert_stays(&rt, alloc, 0, b"\xff", Status::BadRow);
    assert_stays(&rt, alloc, 0, b"", Status::BadRow);
}

// The calls 2 and 3 load what is held, and call 4 puts the row anew.
#[test]
fn an_opening_whose_batch_fails_leaves_the_row(rt: HostRuntime) {
    let alloc = rt.alloc();
    let old = tombstone_bytes(&rt, alloc, 1);
    assert_stays(&rt, alloc, 4, old.as_slice(), Status::KeeperFault);
    drop(old);
}
