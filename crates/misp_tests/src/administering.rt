//! Administration by requests, over databases in memory that are opened again, and over keepers.

use crate::outside::empty_keepers;
use crate::records::{databases, lines, opened_again};
use std::alloc::Global;
use std::process::Abort;
use std::test::Fail;

/// What the names in the texts stand for, in the order in which they are put in.
const NAMES: [(&str, &str); 20] = [
    (
        "{net}",
        "[[org]]\nname = 'Alpha'\nuuid = 'aaaaaaaa-0000-4000-8000-000000000001'\n\
         [[instance]]\nname = 'a'\n\
         [[key]]\ninstance = 'a'\nkey = '{ks}'\norg = 'Alpha'\nrole = 'siteadmin'\n",
    ),
    (
        "{add org}",
        "{S} POST /admin/organisations/add {'uuid':'{ob}','name':'Beta'}\n",
    ),
    (
        "{add D}",
        "{S} POST /admin/keys/add {'authkey':'{kd}','org':'{ob}','role':'reader'}\n",
    ),
    (
        "{add R}",
        "{S} POST /admin/keys/add {'authkey':'{kr}','org':'{ob}','role':'user'}\n",
    ),
    (
        "{revoke R}",
        "{S} POST /admin/keys/revoke {'authkey':'{kr}'}\n",
    ),
    (
        "{add link}",
        "{S} POST /admin/links/add {'name':'up','peer':'b','key':'{kd}','holder':'{ob}',\
         'push_org':'{ob}'}\n",
    ),
    ("{pull}", "{time} pull a up\n"),
    ("{D lists}", "{time} req a {kd} {groups}"),
    ("{R lists}", "{time} req a {kr} {groups}"),
    ("{S}", "{time} req a {ks}"),
    ("{time}", "1700000000 00000000000000000000000000000000"),
    ("{groups}", "GET /sharing_groups/index\n"),
    ("{taken}", "200 {'taken':1}\n"),
    ("{no key}", "403 {'name':'NoKey','place':'','rule':1}\n"),
    (
        "{key exists}",
        "409 {'name':'KeyExists','place':'','rule':35}\n",
    ),
    ("{ob}", "bbbbbbbb-0000-4000-8000-000000000002"),
    ("{kd}", "DDDDDDDDDDDDDDDDDDDDDDDDDDDDDDDDDDDDDDDD"),
    ("{kr}", "RRRRRRRRRRRRRRRRRRRRRRRRRRRRRRRRRRRRRRRR"),
    ("{ks}", "SSSSSSSSSSSSSSSSSSSSSSSSSSSSSSSSSSSSSSSS"),
    ("'", "\""),
];

/// A site administrator makes an organisation, two keys and a link, and revokes one of the keys.
const MADE: &str =
    "{net}---\n{add org}{add D}{add R}{D lists}{R lists}{revoke R}{R lists}{add link}";

const MADE_LINES: &str =
    "1 {taken}2 {taken}3 {taken}4 200 []\n5 200 []\n6 {taken}7 {no key}8 {taken}";

/// What is there then: the one key, and nobody asks with the other. All that was made is there, so
/// nothing is made again, and the link leads to an instance that is not there.
const AGAIN: &str = "{net}---\n{D lists}{R lists}{add D}{add R}{revoke R}{add org}{add link}{pull}";

const AGAIN_LINES: &str = "1 200 []\n2 {no key}3 {key exists}4 {key exists}\
    5 404 {'name':'UnknownKey','place':'','rule':36}\n\
    6 409 {'name':'OrgExists','place':'','rule':33}\n\
    7 409 {'name':'LinkExists','place':'','rule':37}\n\
    8 404 {'name':'NoPeer','packages':0,'place':'','rule':38}\n";

// What the two texts write, the second over the same databases as they are opened once more.
fn over_databases(rt: &impl Abort, alloc: Global, first: &str, second: &str) -> (String, String) {
    let mut keepers = databases(rt, alloc);
    let made = lines(rt, alloc, first, &mut keepers);
    let mut again = opened_again(rt, alloc, keepers);
    let then = lines(rt, alloc, second, &mut again);
    drop(again);
    (made, then)
}

// The same over the same keepers in memory.
fn over_keepers(rt: &impl Abort, alloc: Global, first: &str, second: &str) -> (String, String) {
    let mut keepers = empty_keepers(rt, alloc);
    let made = lines(rt, alloc, first, &mut keepers);
    let then = lines(rt, alloc, second, &mut keepers);
    drop(keepers);
    (made, then)
}

// Asserts what both texts write.
fn assert_written(rt: &impl Abort, written: &(String, String), made: &str, then: &str) {
    assert_eq!(rt; written.0.as_str(), made);
    assert_eq!(rt; written.1.as_str(), then);
}

#[test]
fn what_was_made_is_there_where_its_database_is_opened_again(rt: HostRuntime) -> Result<(), Fail> {
    let alloc = rt.alloc();
    let first = misp_samples::filled(alloc, &NAMES, MADE)?;
    let second = misp_samples::filled(alloc, &NAMES, AGAIN)?;
    let made = misp_samples::filled(alloc, &NAMES, MADE_LINES)?;
    let then = misp_samples::filled(alloc, &NAMES, AGAIN_LINES)?;
    let found = over_databases(&rt, alloc, first.as_str(), second.as_str());
    assert_written(&rt, &found, made.as_str(), then.as_str());
    drop(found);
    let found = over_keepers(&rt, alloc, first.as_str(), second.as_str());
    assert_written(&rt, &found, made.as_str(), then.as_str());
    drop(found);
    drop(first);
    drop(second);
    drop(made);
    drop(then);
    Ok(())
}
