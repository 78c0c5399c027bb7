//! Descriptions and sources, and what each is read as.

mod limits;

use crate::values::add;
use misp_samples::filled;
use misp_script::{DescFault, Entry, read_description, split_line, split_source};
use std::alloc::Global;
use std::fmt::Write;
use std::process::Abort;
use std::test::Fail;

const ORG: &str = "[[org]]\nname = 'A'\nuuid = 'aaaaaaaa-0000-4000-8000-000000000001'\n";

const HOST: &str = "[[instance]]\nname = 'one'\n";

const TWO: &str = "[[instance]]\nname = 'two'\n";

const KEY: &str =
    "[[key]]\ninstance = 'one'\nkey = 'kkkkkkkkkkkkkkkkkkkkkkkkkkkkkkkkkkkkkkkk'\norg = 'A'\n";

const LINK: &str = "[[link]]\nname = 'l'\nat = 'one'\nto = 'two'\n\
     key = 'kkkkkkkkkkkkkkkkkkkkkkkkkkkkkkkkkkkkkkkk'\nholder = 'A'\npush_org = 'A'\n";

const OTHER: &str = "[[org]]\nname = 'B'\nuuid = 'bbbbbbbb-0000-4000-8000-000000000002'\n";

const TABLES: [(&str, &str); 6] = [
    ("{org}", ORG),
    ("{other}", OTHER),
    ("{host}", HOST),
    ("{two}", TWO),
    ("{key}", KEY),
    ("{link}", LINK),
];

// Adds which of its keys and links are internal.
fn show_internal(rt: &impl Abort, line: &mut String, entry: &Entry) {
    for key in entry.admin.keys.as_slice() {
        if key.record().internal {
            add(rt, line, " key");
        }
    }
    for link in entry.admin.links.as_slice() {
        if link.internal {
            add(rt, line, " link");
        }
    }
    add(rt, line, ";");
}

// Adds what the instance has.
fn show(rt: &impl Abort, line: &mut String, entry: &Entry) {
    let name = entry.name.text();
    let address = entry.address.as_str();
    let orgs = entry.admin.orgs.as_slice().len();
    let keys = entry.admin.keys.as_slice().len();
    let links = entry.admin.links.as_slice().len();
    write!(line, "{name}@{address} {orgs} {keys} {links}").expect(rt, "memory");
    show_internal(rt, line, entry);
}

fn show_all(rt: &impl Abort, line: &mut String, entries: &[Entry]) {
    for entry in entries {
        show(rt, line, entry);
    }
}

// Adds the fault.
fn show_fault(rt: &impl Abort, line: &mut String, fault: &DescFault) {
    match fault {
        DescFault::Bad { path, need } => {
            let path = path.as_str();
            let need = need.text();
            write!(line, "{path} {need}").expect(rt, "memory");
        }
        DescFault::NoMemory => add(rt, line, "no memory"),
    }
}

// What a description is read as: what it brings, or its fault.
fn shown(rt: &impl Abort, alloc: Global, text: &str) -> String {
    let mut line = String::new(alloc);
    match read_description(alloc, text.as_bytes()) {
        Ok(description) => {
            show_all(rt, &mut line, description.instances.as_slice());
            drop(description);
        }
        Err(fault) => {
            show_fault(rt, &mut line, &fault);
            drop(fault);
        }
    }
    line
}

fn assert_shown(rt: &impl Abort, alloc: Global, text: &str, want: &str) {
    let is = shown(rt, alloc, text);
    assert!(rt; is.as_str() == want, "{text} is {is}");
    drop(is);
}

/// Descriptions that are read, and each instance with the numbers of its organisations, keys
/// and links, and a word for each of them that is internal.
const READ: [(&str, &str); 3] = [
    ("", ""),
    (
        "{org}{host}address = 'here'\n{key}role = 'publisher'\n{two}{link}on = false\n",
        "one@here 1 1 1;two@ 1 0 0;",
    ),
    (
        "{org}{host}{two}{key}role = 'sync'\npartner = 'two'\n",
        "one@ 1 1 0;two@ 1 0 0;",
    ),
];

/// Descriptions that are not four lists of tables within their limits, and their faults.
const BAD_LISTS: [(&str, &str); 5] = [
    ("x = [", "- toml"),
    ("zzz = 1\nkeys = []\n", "keys member"),
    ("org = [1]\n", "org member"),
    ("instance = 7\n", "instance member"),
    (
        "instance = [{},{},{},{},{},{},{},{},{},{},{},{},{},{},{},{},{}]\n",
        "instance limit",
    ),
];

/// Descriptions of which an organisation has a fault.
const BAD_ORGS: [(&str, &str); 8] = [
    ("[[org]]\n", "org[0].name present"),
    ("[[org]]\nname = 1\n", "org[0].name text"),
    ("[[org]]\nname = ''\n", "org[0].name name"),
    ("[[org]]\nname = \"a\\u0085\"\n", "org[0].name name"),
    (
        "{org}[[org]]\nname = 'A'\nuuid = 1\n",
        "org[1].name distinct",
    ),
    ("[[org]]\nname = 'A'\nuuid = 'a'\n", "org[0].uuid uuid"),
    (
        "{org}[[org]]\nname = 'B'\nuuid = 'AAAAAAAA-0000-4000-8000-000000000001'\n",
        "org[1].uuid distinct",
    ),
    ("{org}zz = 1\nb = 2\n", "org[0].b member"),
];

/// Descriptions of which an instance has a fault.
const BAD_INSTANCES: [(&str, &str); 7] = [
    ("[[instance]]\nname = 'One'\n", "instance[0].name name"),
    ("{host}{host}", "instance[1].name distinct"),
    ("{host}address = 1\n", "instance[0].address text"),
    ("{host}host = 'A'\n", "instance[0].host known"),
    ("{org}{host}host = 1\n", "instance[0].host text"),
    (
        "{host}address = 1\nhost = 'A'\n",
        "instance[0].address text",
    ),
    ("{host}host = 'A'\nx = 1\n", "instance[0].host known"),
];

/// Descriptions of which a key has a fault.
const BAD_KEYS: [(&str, &str); 10] = [
    ("{host}[[key]]\ninstance = 'two'\n", "key[0].instance known"),
    (
        "{host}[[key]]\ninstance = 'one'\nkey = 'k'\n",
        "key[0].key key",
    ),
    ("{host}{key}", "key[0].org known"),
    ("{org}{host}{key}", "key[0].role present"),
    ("{org}{host}{key}role = 'admin'\n", "key[0].role role"),
    ("{org}{host}{key}role = 'sync'\n", "key[0].partner present"),
    (
        "{org}{host}{key}role = 'sync'\npartner = 'two'\n",
        "key[0].partner known",
    ),
    (
        "{org}{host}{key}role = 'user'\npartner = 'one'\n",
        "key[0].partner member",
    ),
    (
        "{org}{host}{key}role = 'user'\n{key}",
        "key[1].key distinct",
    ),
    ("{org}{host}{key}role = 'user'\nx = 1\n", "key[0].x member"),
];

/// Descriptions of which a key is internal, or is said to be so.
const INTERNAL_KEYS: [(&str, &str); 10] = [
    (
        "{org}{host}host = 'A'\n{two}host = 'A'\n{key}role = 'sync'\npartner = 'two'\n\
         internal = true\n",
        "one@ 1 1 0 key;two@ 1 0 0;",
    ),
    (
        "{org}{host}{two}{key}role = 'sync'\npartner = 'two'\ninternal = false\n",
        "one@ 1 1 0;two@ 1 0 0;",
    ),
    (
        "{org}{host}{two}{key}role = 'sync'\npartner = 'two'\ninternal = 1\n",
        "key[0].internal flag",
    ),
    (
        "{org}{host}{two}{key}role = 'sync'\npartner = 'two'\ninternal = true\n",
        "key[0].internal host",
    ),
    (
        "{org}{host}host = 'A'\n{two}{key}role = 'sync'\npartner = 'two'\ninternal = true\n",
        "key[0].internal host",
    ),
    (
        "{org}{host}{two}host = 'A'\n{key}role = 'sync'\npartner = 'two'\ninternal = true\n",
        "key[0].internal host",
    ),
    (
        "{org}{other}{host}host = 'A'\n{two}host = 'B'\n{key}role = 'sync'\npartner = 'two'\n\
         internal = true\nx = 1\n",
        "key[0].internal host",
    ),
    (
        "{org}{host}host = 'A'\n{key}role = 'user'\ninternal = true\nx = 1\n",
        "key[0].partner present",
    ),
    (
        "{org}{host}host = 'A'\n{key}role = 'user'\ninternal = false\nx = 1\n",
        "key[0].x member",
    ),
    (
        "{org}{host}{key}role = 'user'\npartner = 'one'\ninternal = 1\n",
        "key[0].partner member",
    ),
];

/// Descriptions of which a link is internal, or is said to be so.
const INTERNAL_LINKS: [(&str, &str); 6] = [
    (
        "{org}{other}{host}host = 'B'\n{two}host = 'B'\n{link}internal = true\n",
        "one@ 2 0 1 link;two@ 2 0 0;",
    ),
    (
        "{org}{host}{two}{link}internal = false\n",
        "one@ 1 0 1;two@ 1 0 0;",
    ),
    (
        "{org}{host}{two}{link}internal = true\n",
        "link[0].internal host",
    ),
    (
        "{org}{other}{host}host = 'A'\n{two}host = 'B'\n{link}internal = true\nx = 1\n",
        "link[0].internal host",
    ),
    (
        "{org}{host}{two}{link}on = 1\ninternal = true\n",
        "link[0].on flag",
    ),
    (
        "{org}{host}{two}{link}internal = 'A'\n",
        "link[0].internal flag",
    ),
];

/// Descriptions of which a link has a fault.
const BAD_LINKS: [(&str, &str); 12] = [
    ("{link}", "link[0].at known"),
    ("[[link]]\nat = 'one'\n", "link[0].name present"),
    ("[[link]]\nname = 'L'\n", "link[0].name name"),
    ("{host}{link}", "link[0].to known"),
    (
        "{host}[[link]]\nname = 'l'\nat = 'one'\nto = 'one'\n",
        "link[0].to distinct",
    ),
    (
        "{host}{two}[[link]]\nname = 'l'\nat = 'one'\nto = 'two'\nkey = 'k'\n",
        "link[0].key key",
    ),
    ("{host}{two}{link}", "link[0].holder known"),
    ("{org}{host}{two}{link}on = 1\n", "link[0].on flag"),
    ("{org}{host}{two}{link}role = 1\n", "link[0].role member"),
    (
        "{org}{host}{two}{link}[[link]]\nname = 'l'\nat = 'one'\n",
        "link[1].name distinct",
    ),
    (
        "{org}{host}{two}{link}[[link]]\nname = 'l'\nat = 'two'\n",
        "link[1].to present",
    ),
    (
        "{org}{host}{two}{link}[[link]]\nname = 'l'\nat = 1\n",
        "link[1].at text",
    ),
];

#[test]
fn descriptions_are_read_or_their_first_fault_is_told(rt: HostRuntime) -> Result<(), Fail> {
    let alloc = rt.alloc();
    let tables = [
        READ.as_slice(),
        BAD_LISTS.as_slice(),
        BAD_ORGS.as_slice(),
        BAD_INSTANCES.as_slice(),
        BAD_KEYS.as_slice(),
        INTERNAL_KEYS.as_slice(),
        BAD_LINKS.as_slice(),
        INTERNAL_LINKS.as_slice(),
    ];
    for table in &tables {
        for (text, told) in *table {
            let description = filled(alloc, TABLES.as_slice(), text)?;
            assert_shown(&rt, alloc, description.as_str(), told);
            drop(description);
        }
    }
    Ok(())
}

/// Sources, and the description and the script of each.
const SOURCES: [(&str, &str, &str); 5] = [
    ("a\n---\nb\nc", "a\n", "b\nc"),
    ("---\n---\n", "", "---\n"),
    ("a ---\n---b\n", "a ---\n---b\n", ""),
    ("a\n---", "a\n", ""),
    ("", "", ""),
];

#[test]
fn a_source_is_cut_at_the_first_line_of_three_hyphens(rt: HostRuntime) {
    for (source, description, script) in &SOURCES {
        let parts = split_source(source.as_bytes());
        assert!(rt; parts.0 == description.as_bytes());
        assert!(rt; parts.1 == script.as_bytes());
    }
    let (line, rest) = split_line(b"b\nc".as_slice());
    assert!(rt; line == b"b".as_slice());
    assert!(rt; rest == b"c".as_slice());
}
