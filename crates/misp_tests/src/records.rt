//! Runs over databases in memory.

use crate::outside::{carry, empty_keepers, idle_dial, idle_door, ran_over};
use misp_app::{KEEPERS, Status};
use misp_outside::Keeper;
use misp_sqlite::SqliteKeeper;
use sqlite::{Connection, MemStore};
use std::alloc::Global;
use std::process::Abort;
use std::test::Fail;

/// What the names in the texts stand for, in the order in which they are put in.
const NAMES: [(&str, &str); 6] = [
    (
        "{net}",
        "[[org]]\nname = 'Alpha'\nuuid = 'aaaaaaaa-0000-4000-8000-000000000001'\n\
         [[instance]]\nname = 'a'\n\
         [[key]]\ninstance = 'a'\nkey = '{ka}'\norg = 'Alpha'\nrole = 'publisher'\n",
    ),
    (
        "{add}",
        "{step} POST /events/add {'uuid':'e1000000-0000-4000-8000-000000000001','info':'One',\
         'distribution':'3','Attribute':[{'type':'text','value':'x'}]}\n",
    ),
    (
        "{view}",
        "{step} GET /events/view/e1000000-0000-4000-8000-000000000001\n",
    ),
    (
        "{step}",
        "1700000000 00000000000000000000000000000000 req a {ka}",
    ),
    ("{ka}", "AAAAAAAAAAAAAAAAAAAAAAAAAAAAAAAAAAAAAAAA"),
    ("'", "\""),
];

pub(super) type Records = SqliteKeeper<MemStore>;

/// As many keepers as a run asks for, each over a database of its own that holds nothing.
pub(super) fn databases(rt: &impl Abort, alloc: Global) -> Vec<Records> {
    let mut keepers = Vec::new(alloc);
    for _ in 0..KEEPERS {
        let connection = Connection::open_in_memory(alloc).expect(rt, "memory");
        let keeper = SqliteKeeper::open(connection).expect(rt, "a database");
        keepers.push(keeper).expect(rt, "memory");
    }
    keepers
}

/// The same keepers, each over its database as it is opened once more.
pub(super) fn opened_again(rt: &impl Abort, alloc: Global, keepers: Vec<Records>) -> Vec<Records> {
    let mut again = Vec::new(alloc);
    for keeper in keepers {
        let keeper = SqliteKeeper::open(keeper.into_connection()).expect(rt, "a database");
        again.push(keeper).expect(rt, "memory");
    }
    again
}

/// What a run of this source over these keepers writes.
pub(super) fn lines<K: Keeper>(
    rt: &impl Abort,
    alloc: Global,
    text: &str,
    keepers: &mut Vec<K>,
) -> String {
    let mut carry = carry(alloc);
    let mut door = idle_door(rt, alloc);
    let mut dial = idle_dial(alloc);
    let (status, lines) = ran_over(
        rt, alloc, "net", text, keepers, &mut carry, &mut door, &mut dial,
    );
    assert_eq!(rt; status, Status::Done);
    drop(carry);
    drop(door);
    drop(dial);
    lines
}

#[test]
fn a_run_over_databases_writes_the_same_lines(rt: HostRuntime) -> Result<(), Fail> {
    let alloc = rt.alloc();
    let text = misp_samples::filled(alloc, &NAMES, "{net}---\n{add}{view}")?;
    let mut keepers = databases(&rt, alloc);
    let found = lines(&rt, alloc, text.as_str(), &mut keepers);
    drop(keepers);
    let mut keepers = empty_keepers(&rt, alloc);
    let want = lines(&rt, alloc, text.as_str(), &mut keepers);
    drop(keepers);
    drop(text);
    assert_eq!(rt; found.as_str(), want.as_str());
    drop(found);
    drop(want);
    Ok(())
}

// Asserts that the event of the first text is viewed by the second, over the same databases as they
// are opened once more.
fn assert_kept(rt: &impl Abort, alloc: Global, add: &str, view: &str) {
    let mut keepers = databases(rt, alloc);
    drop(lines(rt, alloc, add, &mut keepers));
    let mut again = opened_again(rt, alloc, keepers);
    let viewed = lines(rt, alloc, view, &mut again);
    drop(again);
    assert!(rt;
        viewed.as_str().starts_with("1 200 {\"Event\":"),
        "{viewed}"
    );
    drop(viewed);
}

#[test]
fn rows_are_there_where_their_database_is_opened_again(rt: HostRuntime) -> Result<(), Fail> {
    let alloc = rt.alloc();
    let add = misp_samples::filled(alloc, &NAMES, "{net}---\n{add}")?;
    let view = misp_samples::filled(alloc, &NAMES, "{net}---\n{view}")?;
    assert_kept(&rt, alloc, add.as_str(), view.as_str());
    drop(add);
    drop(view);
    Ok(())
}
