//! Runs over a database in files whose disk stops after each number of calls: opened again, it holds
//! what was held before the line or after it.

use crate::outside::{idle_dial, idle_door, ran_over, tombstone};
use misp_app::{KEEPERS, Status};
use misp_ids::Items;
use misp_outside::{Keeper, MemCarry, RawBatch};
use misp_sqlite::SqliteKeeper;
use sqlite::{Connection, FileStore, Files, Options};
use sqlite_disk::{Crash, Disk, Fuse, Memory};
use std::alloc::Global;
use std::process::Abort;
use std::test::Fail;

/// More calls than a run makes of a disk.
const MOST_CALLS: u64 = 1000;

/// What the names in the texts stand for, in the order in which they are put in.
const NAMES: [(&str, &str); 12] = [
    (
        "{net}",
        "[[org]]\nname = 'Alpha'\nuuid = 'aaaaaaaa-0000-4000-8000-000000000001'\n\
         [[org]]\nname = 'Beta'\nuuid = 'bbbbbbbb-0000-4000-8000-000000000002'\n\
         [[key]]\ninstance = 'a'\nkey = '{ka}'\norg = 'Alpha'\nrole = 'publisher'\n\
         [[key]]\ninstance = 'a'\nkey = '{kx}'\norg = 'Beta'\nrole = 'sync'\npartner = 'b'\n\
         [[key]]\ninstance = 'b'\nkey = '{kb}'\norg = 'Beta'\nrole = 'publisher'\n\
         [[link]]\nname = 'ba'\nat = 'b'\nto = 'a'\nkey = '{kx}'\nholder = 'Beta'\n\
         push_org = 'Beta'\n---\n",
    ),
    ("{a}", "[[instance]]\nname = 'a'\n"),
    ("{b}", "[[instance]]\nname = 'b'\n"),
    (
        "{add}",
        "/events/add {'uuid':'{e}1','info':'One','distribution':'3',\
         'Attribute':[{'type':'text','value':'x'}]}\n",
    ),
    (
        "{add another}",
        "/events/add {'uuid':'{e}2','info':'Two','distribution':'3',\
         'Attribute':[{'type':'text','value':'y'}]}\n",
    ),
    ("{publish}", "/events/publish/{e}"),
    ("{time}", "1700000000 00000000000000000000000000000000"),
    ("{e}", "e1000000-0000-4000-8000-00000000000"),
    ("{ka}", "AAAAAAAAAAAAAAAAAAAAAAAAAAAAAAAAAAAAAAAA"),
    ("{kb}", "BBBBBBBBBBBBBBBBBBBBBBBBBBBBBBBBBBBBBBBB"),
    ("{kx}", "XXXXXXXXXXXXXXXXXXXXXXXXXXXXXXXXXXXXXXXX"),
    ("'", "\""),
];

/// Two events at a.
const PEER: &str = "{a}{b}{net}{time} req a {ka} POST {add}{time} req a {ka} POST {publish}1\n\
    {time} req a {ka} POST {add another}{time} req a {ka} POST {publish}2\n";

/// What is done at b before, the line, and the call of the carry that fails where a part of it is
/// done: that of the second package.
const CASES: [(&str, &str, u64); 3] = [
    ("{b}{a}{net}", "{b}{a}{net}{time} req b {kb} POST {add}", 0),
    (
        "{b}{a}{net}{time} req b {kb} POST {add}",
        "{b}{a}{net}{time} req b {kb} POST {publish}1\n",
        0,
    ),
    ("{b}{a}{net}", "{b}{a}{net}{time} pull b ba\n", 7),
];

// Files in memory, which stop after some calls or never. What is done to a database is said for any
// disk, since a store over these is dear to prove.
type Disks = Files<Fuse<Memory>>;

// Few pages in memory.
fn options() -> Options {
    Options {
        cache_pages: 4,
        spill_pages: 4,
        checkpoint_frames: 1000,
        seed: 7,
    }
}

// A connection over the files, or what is left of them.
fn connected<D: Disk + Drop>(
    alloc: Global,
    files: Files<D>,
) -> Result<Connection<FileStore<D>>, Files<D>> {
    if !files.may_be_used() {
        return Err(files);
    }
    match Connection::open_files(alloc, files, options()) {
        Ok(connection) => Ok(connection),
        Err((_, left)) => Err(left.into_files()),
    }
}

// The files of the connection, also where the log could not be copied into the database.
fn closed<D: Disk + Drop>(connection: Connection<FileStore<D>>) -> Files<D> {
    match connection.close_files() {
        Ok(files) => files,
        Err((_, store)) => store.close(),
    }
}

// The keeper of a connection, and those of the other files.
fn keepers<D: Disk + Drop>(
    rt: &impl Abort,
    alloc: Global,
    first: Connection<FileStore<D>>,
    others: Vec<Files<D>>,
) -> Vec<SqliteKeeper<FileStore<D>>> {
    let mut keepers = Vec::new(alloc);
    let first = SqliteKeeper::open(first).expect(rt, "a keeper");
    keepers.push(first).expect(rt, "memory");
    for files in others {
        let connection = connected(alloc, files).ok().expect(rt, "a connection");
        let keeper = SqliteKeeper::open(connection).expect(rt, "a keeper");
        keepers.push(keeper).expect(rt, "memory");
    }
    keepers
}

// Whether a run of the text over these keepers does all, where this call of the carry fails.
fn is_done<K: Keeper>(
    rt: &impl Abort,
    alloc: Global,
    text: &str,
    keepers: &mut Vec<K>,
    fails: u64,
) -> bool {
    let mut carry = MemCarry::new(alloc, vec![in alloc; fails].expect(rt, "memory"));
    let mut door = idle_door(rt, alloc);
    let mut dial = idle_dial(alloc);
    let (status, lines) = ran_over(
        rt, alloc, "net", text, keepers, &mut carry, &mut door, &mut dial,
    );
    drop(carry);
    drop(door);
    drop(dial);
    let is_taken = lines.is_empty() || lines.as_str().starts_with("1 200 ");
    drop(lines);
    status == Status::Done && is_taken
}

// Whether it does over the connection and the other files, and the files of the connection.
fn run_over<D: Disk + Drop>(
    rt: &impl Abort,
    alloc: Global,
    first: Connection<FileStore<D>>,
    others: Vec<Files<D>>,
    text: &str,
    fails: u64,
) -> (bool, Files<D>) {
    let mut keepers = keepers(rt, alloc, first, others);
    let is_done = is_done(rt, alloc, text, &mut keepers, fails);
    assert!(rt; 0 < keepers.len());
    let first = keepers.remove(0);
    drop(keepers);
    (is_done, closed(first.into_connection()))
}

// The same over files, which cannot be opened where they stop before.
fn run<D: Disk + Drop>(
    rt: &impl Abort,
    alloc: Global,
    files: Files<D>,
    others: Vec<Files<D>>,
    text: &str,
    fails: u64,
) -> (bool, Files<D>) {
    match connected(alloc, files) {
        Ok(first) => run_over(rt, alloc, first, others, text, fails),
        Err(left) => {
            drop(others);
            (false, left)
        }
    }
}

// The bytes of all rows that a keeper holds, those of the administration last.
fn told<K: Keeper>(rt: &impl Abort, alloc: Global, keeper: &mut K) -> Vec<u8> {
    let mut bytes = Vec::new(alloc);
    let all = keeper.load_all(alloc).expect(rt, "rows");
    for row in &all {
        bytes
            .extend_from_slice(row.name.as_slice())
            .expect(rt, "memory");
        bytes
            .extend_from_slice(row.bytes.as_slice())
            .expect(rt, "memory");
    }
    drop(all);
    let admin = keeper.load_admin(alloc).expect(rt, "rows");
    for row in &admin {
        bytes
            .extend_from_slice(row.name.as_slice())
            .expect(rt, "memory");
        bytes
            .extend_from_slice(row.bytes.as_slice())
            .expect(rt, "memory");
    }
    drop(admin);
    bytes
}

// The same of files.
fn found<D: Disk + Drop>(rt: &impl Abort, alloc: Global, files: Files<D>) -> Vec<u8> {
    let connection = connected(alloc, files).ok().expect(rt, "a connection");
    let mut keeper = SqliteKeeper::open(connection).expect(rt, "a keeper");
    let bytes = told(rt, alloc, &mut keeper);
    drop(keeper);
    bytes
}

// Puts the batch in a database.
fn put<D: Disk + Drop>(
    rt: &impl Abort,
    alloc: Global,
    files: Files<D>,
    batch: RawBatch,
) -> Files<D> {
    let connection = connected(alloc, files).ok().expect(rt, "a connection");
    let mut keeper = SqliteKeeper::open(connection).expect(rt, "a keeper");
    keeper.apply(batch).expect(rt, "a batch");
    closed(keeper.into_connection())
}

// A disk that has the bytes, and passes so many calls on.
fn disk(rt: &impl Abort, alloc: Global, bytes: &[u8], calls: u64) -> Fuse<Memory> {
    let mut memory = Memory::new(alloc);
    memory.write_at(0, bytes).expect(rt, "written bytes");
    memory.sync().expect(rt, "synced bytes");
    Fuse::new(memory, calls)
}

// A copy of the files, whose log and database pass so many calls on.
fn copied(rt: &impl Abort, alloc: Global, files: &Disks, log: u64, db: u64) -> Disks {
    Files {
        log: disk(rt, alloc, files.log.inner().bytes(), log),
        db: disk(rt, alloc, files.db.inner().bytes(), db),
    }
}

// Files of a database that holds nothing.
fn empty(alloc: Global) -> Disks {
    Files {
        log: Fuse::new(Memory::new(alloc), u64::MAX),
        db: Fuse::new(Memory::new(alloc), u64::MAX),
    }
}

// A copy of the files of the peer, and as many others as a run asks for, which hold nothing.
fn others(rt: &impl Abort, alloc: Global, peer: &Disks) -> Vec<Disks> {
    let mut others = Vec::new(alloc);
    let copy = copied(rt, alloc, peer, u64::MAX, u64::MAX);
    others.push(copy).expect(rt, "memory");
    for _ in 2..KEEPERS {
        others.push(empty(alloc)).expect(rt, "memory");
    }
    others
}

// The files after a run of the text over a copy of these, whose carry fails at this call.
fn after(
    rt: &impl Abort,
    alloc: Global,
    files: &Disks,
    peer: &Disks,
    text: &str,
    fails: u64,
) -> Disks {
    let copy = copied(rt, alloc, files, u64::MAX, u64::MAX);
    let others = others(rt, alloc, peer);
    let (_, files) = run(rt, alloc, copy, others, text, fails);
    files
}

/// What is held before the line, after a part of it, and after it.
#[derive(Drop)]
struct States {
    before: Vec<u8>,
    part: Vec<u8>,
    after: Vec<u8>,
}

fn states_around(
    rt: &impl Abort,
    alloc: Global,
    files: &Disks,
    peer: &Disks,
    text: &str,
    fails: u64,
) -> States {
    let copy = copied(rt, alloc, files, u64::MAX, u64::MAX);
    let before = found(rt, alloc, copy);
    let part = found(rt, alloc, after(rt, alloc, files, peer, text, fails));
    let after = found(rt, alloc, after(rt, alloc, files, peer, text, 0));
    States {
        before,
        part,
        after,
    }
}

// Asserts that the files hold what was held before the line, or after a part of it or all of it,
// and after it where it was done.
fn assert_whole(rt: &impl Abort, alloc: Global, files: &Disks, states: &States, is_done: bool) {
    let held = found(rt, alloc, copied(rt, alloc, files, u64::MAX, u64::MAX));
    let is_after = held.as_slice() == states.after.as_slice();
    let is_part = held.as_slice() == states.part.as_slice();
    let is_before = held.as_slice() == states.before.as_slice();
    assert!(rt; is_after || (!is_done && (is_part || is_before)));
    drop(held);
}

// Asserts it where the process has ended, so that all stays that was written, and where the machine
// has, so that only what was synced stays.
fn assert_left(rt: &impl Abort, alloc: Global, left: &mut Disks, states: &States, is_done: bool) {
    assert_whole(rt, alloc, left, states, is_done);
    left.log.crash();
    left.db.crash();
    assert_whole(rt, alloc, left, states, is_done);
}

// Whether a disk passes no further call on.
fn has_stopped(files: &mut Disks) -> bool {
    !files.may_be_used() || files.log.len().is_err() || files.db.len().is_err()
}

// A run over the files. Whether a disk has stopped, and whether the line was done.
fn stops(
    rt: &impl Abort,
    alloc: Global,
    files: Disks,
    peer: &Disks,
    text: &str,
    states: &States,
) -> [bool; 2] {
    let others = others(rt, alloc, peer);
    let (is_done, mut left) = run(rt, alloc, files, others, text, 0);
    let has_stopped = has_stopped(&mut left);
    assert_left(rt, alloc, &mut left, states, is_done);
    drop(left);
    [has_stopped, is_done]
}

// Stops the log or the database after each number of calls, until a run ends. Whether the line was
// done in that run, and was not in another.
fn each_stop(
    rt: &impl Abort,
    alloc: Global,
    files: &Disks,
    peer: &Disks,
    text: &str,
    states: &States,
    is_log: bool,
) -> [bool; 2] {
    let mut is_lost = false;
    for calls in 0..MOST_CALLS {
        let log = if is_log { calls } else { u64::MAX };
        let db = if is_log { u64::MAX } else { calls };
        let copy = copied(rt, alloc, files, log, db);
        let [has_stopped, is_done] = stops(rt, alloc, copy, peer, text, states);
        if !has_stopped {
            return [is_done, is_lost];
        }
        is_lost |= !is_done;
    }
    [false; 2]
}

// Asserts it of each stop in a run of the text over copies of the files.
fn assert_each(
    rt: &impl Abort,
    alloc: Global,
    files: &Disks,
    peer: &Disks,
    text: &str,
    fails: u64,
) {
    let states = states_around(rt, alloc, files, peer, text, fails);
    assert!(rt; states.before.as_slice() != states.after.as_slice());
    for is_log in [true, false] {
        let stops = each_stop(rt, alloc, files, peer, text, &states, is_log);
        assert_eq!(rt; stops, [true; 2], "{text}");
    }
    drop(states);
}

#[test]
fn a_line_over_a_disk_that_stops_is_done_or_not(rt: HostRuntime) -> Result<(), Fail> {
    let alloc = rt.alloc();
    let text = misp_samples::filled(alloc, &NAMES, PEER)?;
    let nothing = empty(alloc);
    let peer = after(&rt, alloc, &nothing, &nothing, text.as_str(), 0);
    drop(text);
    for (before, line, fails) in CASES {
        let before = misp_samples::filled(alloc, &NAMES, before)?;
        let line = misp_samples::filled(alloc, &NAMES, line)?;
        let files = after(&rt, alloc, &nothing, &peer, before.as_str(), 0);
        assert_each(&rt, alloc, &files, &peer, line.as_str(), fails);
        drop(before);
        drop(line);
        drop(files);
    }
    drop(peer);
    drop(nothing);
    Ok(())
}

// Files with a tombstone in the first form.
fn old_files(rt: &impl Abort, alloc: Global) -> Disks {
    let row = tombstone(rt, alloc, 1);
    let batch = RawBatch {
        rows: Items::of(vec![in alloc; row].expect(rt, "memory")),
        admin: Items::of(Vec::new(alloc)),
    };
    put(rt, alloc, empty(alloc), batch)
}

#[test]
fn rows_of_the_first_form_are_put_anew_or_not(rt: HostRuntime) -> Result<(), Fail> {
    let alloc = rt.alloc();
    let text = misp_samples::filled(alloc, &NAMES, "{b}{a}{net}")?;
    let nothing = empty(alloc);
    let files = old_files(&rt, alloc);
    assert_each(&rt, alloc, &files, &nothing, text.as_str(), 0);
    drop(files);
    drop(nothing);
    drop(text);
    Ok(())
}
