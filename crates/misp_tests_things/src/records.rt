//! Rows in the two files of a database, which are closed and opened again, and what no keeper puts
//! there.

mod stops;

use crate::outside::{batch, held, next_of_one};
use crate::values::{assert_text, text};
use misp_ids::{EventId, Items, Uid};
use misp_outside::{AdminRow, Keeper, KeeperFault, RawBatch, RawRow};
use misp_sqlite::SqliteKeeper;
use sqlite::{Alter, Connection, Error, FileStore, Files, Options};
use sqlite_disk::{Disk, Fuse, Memory};
use std::alloc::Global;
use std::fmt::Write;
use std::process::Abort;

// Files in memory, which stop after some calls or never. What is done to a database is said for any
// disk, since a store over these is dear to prove.
type Disks = Files<Fuse<Memory>>;

const FIRST: [(u128, &str, &str); 3] = [(1, "a", "x"), (1, "b", "y"), (2, "a", "z")];

// Few pages in memory, so that a long batch goes to the log before it is whole.
fn options() -> Options {
    Options {
        cache_pages: 4,
        spill_pages: 4,
        checkpoint_frames: 1000,
        seed: 7,
    }
}

// A connection over the files, or what is left of them.
fn connected<D: Disk + Drop>(
    alloc: Global,
    files: Files<D>,
) -> Result<Connection<FileStore<D>>, Files<D>> {
    if !files.may_be_used() {
        return Err(files);
    }
    match Connection::open_files(alloc, files, options()) {
        Ok(connection) => Ok(connection),
        Err((_, left)) => Err(left.into_files()),
    }
}

// The files of the connection, also where the log could not be copied into the database.
fn closed<D: Disk + Drop>(connection: Connection<FileStore<D>>) -> Files<D> {
    match connection.close_files() {
        Ok(files) => files,
        Err((_, store)) => store.close(),
    }
}

// Puts the batch by a keeper. Whether that was answered, and the connection.
fn put_over<A: Alter + Drop>(
    rt: &impl Abort,
    connection: Connection<A>,
    batch: RawBatch,
) -> (bool, Connection<A>) {
    let mut keeper = SqliteKeeper::open(connection).expect(rt, "a keeper");
    let is_put = keeper.apply(batch).is_ok();
    (is_put, keeper.into_connection())
}

fn run_over<D: Disk + Drop>(
    rt: &impl Abort,
    connection: Connection<FileStore<D>>,
    batch: RawBatch,
) -> (bool, Files<D>) {
    let (is_put, connection) = put_over(rt, connection, batch);
    (is_put, closed(connection))
}

// Opens the files, puts the batch and closes the files, whatever stops. Whether the batch was
// answered, and the files.
fn run<D: Disk + Drop>(
    rt: &impl Abort,
    alloc: Global,
    files: Files<D>,
    batch: RawBatch,
) -> (bool, Files<D>) {
    match connected(alloc, files) {
        Ok(connection) => run_over(rt, connection, batch),
        Err(left) => {
            drop(batch);
            (false, left)
        }
    }
}

// Files with the first rows.
fn made(rt: &impl Abort, alloc: Global) -> Disks {
    let files = Files {
        log: Fuse::new(Memory::new(alloc), u64::MAX),
        db: Fuse::new(Memory::new(alloc), u64::MAX),
    };
    let (is_put, files) = run(rt, alloc, files, batch(rt, alloc, &FIRST));
    assert!(rt; is_put);
    files
}

// Adds the kind, the name and the bytes to the line.
fn show(rt: &impl Abort, line: &mut String, row: &AdminRow) {
    let kind = row.kind;
    let name = text(rt, row.name.as_slice());
    let text = text(rt, row.bytes.as_slice());
    write!(line, "{kind} {name} {text};").expect(rt, "memory");
}

// All rows that a keeper holds, in a line, with those of the administration last.
fn told<K: Keeper>(rt: &impl Abort, alloc: Global, keeper: &mut K) -> String {
    let mut line = held(rt, alloc, keeper);
    let admin = keeper.load_admin(alloc).expect(rt, "rows");
    for row in &admin {
        show(rt, &mut line, row);
    }
    drop(admin);
    line
}

fn told_over<A: Alter + Drop>(rt: &impl Abort, alloc: Global, connection: Connection<A>) -> String {
    let mut keeper = SqliteKeeper::open(connection).expect(rt, "a keeper");
    let line = told(rt, alloc, &mut keeper);
    drop(keeper);
    line
}

// All rows that are in the files, in a line.
fn found<D: Disk + Drop>(rt: &impl Abort, alloc: Global, files: Files<D>) -> String {
    let connection = connected(alloc, files).ok().expect(rt, "a connection");
    told_over(rt, alloc, connection)
}

#[test]
fn rows_stay_where_files_are_closed_and_opened(rt: HostRuntime) {
    let alloc = rt.alloc();
    let newer = [(1, "a", "v"), (3, "c", "u"), (1, "a", "w")];
    let batch = batch(&rt, alloc, &newer);
    let (is_put, files) = run(&rt, alloc, made(&rt, alloc), batch);
    assert!(rt; is_put);
    assert!(rt;
        files.log.inner().bytes().len() < 100,
        "all is in the database"
    );
    let line = found(&rt, alloc, files);
    assert_text(
        &rt,
        line.as_str(),
        "1 a w;1 b y;2 a z;3 c u;1 a w;1 b y;1 c u;",
    );
    drop(line);
}

fn next_over<A: Alter + Drop>(rt: &impl Abort, alloc: Global, connection: Connection<A>) -> String {
    let mut keeper = SqliteKeeper::open(connection).expect(rt, "a keeper");
    let line = next_of_one(rt, alloc, &mut keeper);
    drop(keeper);
    line
}

#[test]
fn the_next_row_is_loaded(rt: HostRuntime) {
    let alloc = rt.alloc();
    let files = made(&rt, alloc);
    let connection = connected(alloc, files).ok().expect(&rt, "a connection");
    let line = next_over(&rt, alloc, connection);
    assert_text(&rt, line.as_str(), "1 a x;1 a x;1 b y;1 b y;none;");
    drop(line);
}

// A row of event 1 with a name of one byte.
fn short_row(rt: &impl Abort, alloc: Global, byte: u8) -> RawRow {
    RawRow {
        event: EventId(Uid(1)),
        name: Items::of(vec![in alloc; byte].expect(rt, "memory")),
        bytes: Items::of(vec![in alloc; byte].expect(rt, "memory")),
    }
}

// Files with 200 rows of event 1.
fn long(rt: &impl Abort, alloc: Global) -> Disks {
    let mut rows = Vec::new(alloc);
    for byte in 0..200u8 {
        rows.push(short_row(rt, alloc, byte)).expect(rt, "memory");
    }
    let batch = RawBatch {
        rows: Items::of(rows),
        admin: Items::of(Vec::new(alloc)),
    };
    let (is_put, files) = run(rt, alloc, made(rt, alloc), batch);
    assert!(rt; is_put);
    files
}

// Whether the first row from a name on is loaded where a statement may take 20 steps, and whether
// all rows of the event are.
fn loaded_in_few_steps<A: Alter + Drop>(
    rt: &impl Abort,
    alloc: Global,
    mut connection: Connection<A>,
) -> [bool; 2] {
    connection.set_step_limit(Some(20));
    let mut keeper = SqliteKeeper::open(connection).expect(rt, "a keeper");
    let event = EventId(Uid(1));
    let next = keeper.load_next(alloc, &event, &[100]).is_ok();
    let all = keeper.load_event(alloc, &event).is_ok();
    drop(keeper);
    [next, all]
}

#[test]
fn the_next_row_is_loaded_without_the_others(rt: HostRuntime) {
    let alloc = rt.alloc();
    let files = long(&rt, alloc);
    let connection = connected(alloc, files).ok().expect(&rt, "a connection");
    let loaded = loaded_in_few_steps(&rt, alloc, connection);
    assert_eq!(rt; loaded, [true, false]);
}

// Which loads fail: that of event 1, that of its rows whose names begin with `a`, that of the first
// from `a` on, that of all rows, and that of the administration.
fn failing<K: Keeper>(alloc: Global, keeper: &mut K) -> [bool; 5] {
    let event = EventId(Uid(1));
    let rows = matches!(keeper.load_event(alloc, &event), Err(KeeperFault::Failed));
    let named = matches!(
        keeper.load_named(alloc, &event, b"a"),
        Err(KeeperFault::Failed)
    );
    let next = matches!(
        keeper.load_next(alloc, &event, b"a"),
        Err(KeeperFault::Failed)
    );
    let all = matches!(keeper.load_all(alloc), Err(KeeperFault::Failed));
    let admin = matches!(keeper.load_admin(alloc), Err(KeeperFault::Failed));
    [rows, named, next, all, admin]
}

// It has no clause, so that no caller's proof carries what the statements do.
fn execute<A: Alter>(connection: &mut Connection<A>, statements: &str) -> Result<(), Error> {
    connection.execute_batch(statements)
}

fn failing_over<A: Alter + Drop>(
    rt: &impl Abort,
    alloc: Global,
    mut connection: Connection<A>,
    statements: &str,
) -> [bool; 5] {
    execute(&mut connection, statements).expect(rt, "run statements");
    match SqliteKeeper::open(connection) {
        Ok(mut keeper) => {
            let failing = failing(alloc, &mut keeper);
            drop(keeper);
            failing
        }
        Err(fault) => {
            assert_eq!(rt; fault, KeeperFault::Failed);
            [true; 5]
        }
    }
}

// Which loads fail over the files, on which the statements were run.
fn failing_after<D: Disk + Drop>(
    rt: &impl Abort,
    alloc: Global,
    files: Files<D>,
    statements: &str,
) -> [bool; 5] {
    let connection = connected(alloc, files).ok().expect(rt, "a connection");
    failing_over(rt, alloc, connection, statements)
}

// Statements, and which loads fail after them. The first four make another database, which no
// keeper opens. Then come a row under three bytes, one of another kind under event 1, and one of
// the administration whose kind is no byte.
const OTHERS: [(&str, [bool; 5]); 7] = [
    ("CREATE TABLE other (a INTEGER) STRICT", [true; 5]),
    ("CREATE INDEX other ON kept_row (bytes)", [true; 5]),
    ("CREATE VIEW other AS SELECT bytes FROM kept_row", [true; 5]),
    (
        "DROP TABLE kept_row; CREATE TABLE kept_row (event, kind, name, bytes)",
        [true; 5],
    ),
    (
        "INSERT INTO kept_row VALUES (x'010203', 0, x'61', x'62')",
        [false, false, false, true, false],
    ),
    (
        "INSERT INTO kept_row VALUES (x'00000000000000000000000000000001', 1, x'61', x'62')",
        [true, false, false, true, false],
    ),
    (
        "INSERT INTO kept_row VALUES (x'', 256, x'61', x'62')",
        [false, false, false, false, true],
    ),
];

#[test]
fn loads_fail_that_meet_what_no_keeper_puts(rt: HostRuntime) {
    let alloc = rt.alloc();
    for (statements, want) in OTHERS {
        let failing = failing_after(&rt, alloc, made(&rt, alloc), statements);
        assert_eq!(rt; failing, want, "{statements}");
    }
}
