//! Pulls and pushes over a carry in memory that fails at one of its calls.

use crate::outside::{idle_dial, idle_door, ran_from};
use misp_app::Status;
use misp_outside::MemCarry;
use std::alloc::Global;
use std::process::Abort;
use std::test::Fail;

/// What the names in the texts stand for, in the order in which they are put in.
const NAMES: [(&str, &str); 12] = [
    (
        "{net}",
        "[[org]]\nname = 'Alpha'\nuuid = 'aaaaaaaa-0000-4000-8000-000000000001'\n\
         [[org]]\nname = 'Beta'\nuuid = 'bbbbbbbb-0000-4000-8000-000000000002'\n\
         [[instance]]\nname = 'a'\n[[instance]]\nname = 'b'\n\
         [[key]]\ninstance = 'a'\nkey = '{ka}'\norg = 'Alpha'\nrole = 'publisher'\n\
         [[key]]\ninstance = 'a'\nkey = '{kx}'\norg = 'Beta'\nrole = 'sync'\npartner = 'b'\n\
         [[key]]\ninstance = 'b'\nkey = '{kz}'\norg = 'Alpha'\nrole = 'sync'\npartner = 'a'\n\
         [[link]]\nname = 'ba'\nat = 'b'\nto = 'a'\nkey = '{kx}'\nholder = 'Beta'\n\
         push_org = 'Beta'\n\
         [[link]]\nname = 'ab'\nat = 'a'\nto = 'b'\nkey = '{kz}'\nholder = 'Alpha'\n\
         push_org = 'Alpha'\n",
    ),
    (
        "{event 1}",
        "{add} {'uuid':'{e}1','info':'One','distribution':'3',\
         'Attribute':[{'type':'text','value':'x'}]}\n\
         {publish}1\n",
    ),
    (
        "{event 2}",
        "{add} {'uuid':'{e}2','info':'Two','distribution':'3',\
         'Attribute':[{'type':'text','value':'x'}]}\n\
         {publish}2\n",
    ),
    (
        "{event 3}",
        "{add} {'uuid':'{e}3','info':'Three','distribution':'3',\
         'Attribute':[{'type':'text','value':'x'}]}\n\
         {publish}3\n",
    ),
    ("{add}", "{step} req a {ka} POST /events/add"),
    ("{publish}", "{step} req a {ka} POST /events/publish/{e}"),
    ("{step}", "1700000000 00000000000000000000000000000000"),
    ("{e}", "e1000000-0000-4000-8000-00000000000"),
    ("{ka}", "AAAAAAAAAAAAAAAAAAAAAAAAAAAAAAAAAAAAAAAA"),
    ("{kx}", "XXXXXXXXXXXXXXXXXXXXXXXXXXXXXXXXXXXXXXXX"),
    ("{kz}", "ZZZZZZZZZZZZZZZZZZZZZZZZZZZZZZZZZZZZZZZZ"),
    ("'", "\""),
];

/// Three events, and before a line `pull` that may stop and another.
const PULL: &str = "{net}---\n{event 1}{event 2}{event 3}{step} pull b ba\n{step} pull b ba\n";

/// The same with lines `push`.
const PUSH: &str = "{net}---\n{event 1}{event 2}{event 3}{step} push a ab\n{step} push a ab\n";

/// Of a pull the call that fails, from 1 on, how many packages are counted then, and how many
/// elements and packages the next one takes. Each reply is carried after its request: those of the
/// groups, of the events and of three packages.
const PULLS: [(u64, &str, &str, &str); 10] = [
    (1, "0", "6", "3"),
    (2, "0", "6", "3"),
    (3, "0", "6", "3"),
    (4, "0", "6", "3"),
    (5, "0", "6", "3"),
    (6, "0", "6", "3"),
    (7, "1", "4", "2"),
    (8, "1", "4", "2"),
    (9, "2", "2", "1"),
    (10, "2", "2", "1"),
];

/// The same of a push: its requests are those of the groups and of three packages. Where the reply
/// is lost, the package was taken and is not counted.
const PUSHES: [(u64, &str, &str, &str); 8] = [
    (1, "0", "6", "3"),
    (2, "0", "6", "3"),
    (3, "0", "6", "3"),
    (4, "0", "4", "2"),
    (5, "1", "4", "2"),
    (6, "1", "2", "1"),
    (7, "2", "2", "1"),
    (8, "2", "0", "0"),
];

// How a run of this source ends where the carry fails at this call, and what it writes.
fn stopped(rt: &impl Abort, alloc: Global, text: &str, fails: u64) -> (Status, String) {
    let fails = vec![in alloc; fails].expect(rt, "memory");
    let mut carry = MemCarry::new(alloc, fails);
    let mut door = idle_door(rt, alloc);
    let mut dial = idle_dial(alloc);
    let stopped = ran_from(rt, alloc, "net", text, &mut carry, &mut door, &mut dial);
    drop(carry);
    drop(door);
    drop(dial);
    stopped
}

// The line that stopped after so many packages, and the next one, which takes so much.
fn wanted<'a>(
    alloc: Global,
    told: &'a str,
    elements: &'a str,
    left: &'a str,
) -> Result<String, Fail> {
    let names = [
        ("{told}", told),
        ("{elements}", elements),
        ("{left}", left),
        ("'", "\""),
    ];
    let text = "7 502 {'name':'LinkFault','packages':{told},'place':'','rule':25}\n\
                8 200 {'elements':{elements},'events':{left},'groups':0,'packages':{left}}\n";
    misp_samples::filled(alloc, &names, text)
}

// Asserts the end of what is written for this source where the carry fails at this call.
fn assert_stopped(rt: &impl Abort, alloc: Global, text: &str, fails: u64, want: &str) {
    let (status, written) = stopped(rt, alloc, text, fails);
    assert_eq!(rt; status, Status::Done);
    assert!(rt; written.as_str().ends_with(want), "call {fails}: {written}");
    drop(written);
}

#[test]
fn a_pull_over_a_carry_that_fails_says_what_it_took(rt: HostRuntime) -> Result<(), Fail> {
    let alloc = rt.alloc();
    let text = misp_samples::filled(alloc, &NAMES, PULL)?;
    for (fails, told, elements, left) in PULLS {
        let want = wanted(alloc, told, elements, left)?;
        assert_stopped(&rt, alloc, text.as_str(), fails, want.as_str());
        drop(want);
    }
    drop(text);
    Ok(())
}

#[test]
fn a_push_over_a_carry_that_fails_says_what_was_answered(rt: HostRuntime) -> Result<(), Fail> {
    let alloc = rt.alloc();
    let text = misp_samples::filled(alloc, &NAMES, PUSH)?;
    for (fails, told, elements, left) in PUSHES {
        let want = wanted(alloc, told, elements, left)?;
        assert_stopped(&rt, alloc, text.as_str(), fails, want.as_str());
        drop(want);
    }
    drop(text);
    Ok(())
}
