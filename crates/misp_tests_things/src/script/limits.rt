//! Each limit of a description, at its last good and its first bad value.

use super::show_fault;
use crate::values::{add, string};
use misp_samples::filled;
use misp_script::{Entry, read_description};
use std::alloc::Global;
use std::fmt::Write;
use std::process::Abort;
use std::test::Fail;

const NET: &str = "[[org]]\nname = 'A'\nuuid = 'aaaaaaaa-0000-4000-8000-000000000001'\n\
     [[instance]]\nname = 'one'\n[[instance]]\nname = 'two'\n";

// Adds how many instances there are, and how many organisations, keys and links the first has.
fn show(rt: &impl Abort, line: &mut String, instances: &[Entry]) {
    let first = instances.first().expect(rt, "an instance");
    let count = instances.len();
    let orgs = first.admin.orgs.as_slice().len();
    let keys = first.admin.keys.as_slice().len();
    let links = first.admin.links.as_slice().len();
    write!(line, "{count} {orgs} {keys} {links}").expect(rt, "memory");
}

// What a description is read as: what it has, or its fault.
fn shown(rt: &impl Abort, alloc: Global, text: &str) -> String {
    let mut line = String::new(alloc);
    match read_description(alloc, text.as_bytes()) {
        Ok(description) => {
            show(rt, &mut line, description.instances.as_slice());
            drop(description);
        }
        Err(fault) => {
            show_fault(rt, &mut line, &fault);
            drop(fault);
        }
    }
    line
}

// Adds the table, in which the number stands at `$n`.
fn add_table(rt: &impl Abort, alloc: Global, text: &mut String, table: &str, number: u32) {
    let number = format!(in alloc; "{}", 100_000 + u64::from(number)).expect(rt, "memory");
    let table = table
        .replace(alloc, "$n", number.as_str())
        .expect(rt, "memory");
    add(rt, text, table.as_str());
    drop(table);
    drop(number);
}

// The description with so many of these tables.
fn with(rt: &impl Abort, alloc: Global, table: &str, count: u32) -> String {
    let mut text = string(rt, alloc, NET);
    for number in 0..count {
        add_table(rt, alloc, &mut text, table, number);
    }
    text
}

/// Tables, how often they stand in a description, and what that is read as.
const LIMITS: [(&str, u32, &str); 10] = [
    ("{org}name = '$n'\n", 999, "2 1000 0 0"),
    ("{org}name = '$n'\n", 1000, "org limit"),
    ("[[instance]]\nname = 'i$n'\n", 14, "16 1 0 0"),
    ("[[instance]]\nname = 'i$n'\n", 15, "instance limit"),
    ("{key}", 1000, "2 1 1000 0"),
    ("{key}", 1001, "key limit"),
    ("{link}", 200, "2 1 0 200"),
    ("{link}", 201, "link limit"),
    ("{org}name = '{name}'\n", 1, "2 2 0 0"),
    ("{org}name = '{name}n'\n", 1, "org[1].name name"),
];

/// What the words in these tables stand for.
const TABLES: [(&str, &str); 4] = [
    (
        "{org}",
        "[[org]]\nuuid = 'bbbbbbbb-0000-4000-8000-000000$n'\n",
    ),
    (
        "{key}",
        "[[key]]\ninstance = 'one'\nkey = 'kkkkkkkkkkkkkkkkkkkkkkkkkkkkkkkkkk$n'\n\
         org = 'A'\nrole = 'user'\n",
    ),
    (
        "{link}",
        "[[link]]\nname = 'l$n'\nat = 'one'\nto = 'two'\n\
         key = 'kkkkkkkkkkkkkkkkkkkkkkkkkkkkkkkkkkkkkkkk'\nholder = 'A'\npush_org = 'A'\n",
    ),
    (
        "{name}",
        "nnnnnnnnnnnnnnnnnnnnnnnnnnnnnnnnnnnnnnnnnnnnnnnnnnnnnnnnnnnnnnnn",
    ),
];

// Asserts what a description with so many of these tables is read as.
fn assert_shown(rt: &impl Abort, alloc: Global, table: &str, count: u32, want: &str) {
    let text = with(rt, alloc, table, count);
    let is = shown(rt, alloc, text.as_str());
    assert!(rt; is.as_str() == want, "{count} of {table} are {is}");
    drop(is);
    drop(text);
}

#[test]
fn descriptions_are_read_up_to_their_limits(rt: HostRuntime) -> Result<(), Fail> {
    for (table, count, want) in &LIMITS {
        let table = filled(rt.alloc(), TABLES.as_slice(), table)?;
        assert_shown(&rt, rt.alloc(), table.as_str(), *count, want);
        drop(table);
    }
    Ok(())
}
