//! The words of a command line.

use crate::values::{add, string};
use misp_ids::Direction;
use misp_words::{Command, ServeWords, SyncWords, WordsFault, read_words};
use std::alloc::Global;
use std::fmt::Write;
use std::process::Abort;

fn show_serve(rt: &impl Abort, line: &mut String, words: &ServeWords<'_>) {
    let name = words.name.text();
    let address = words.address;
    let count = words.count;
    write!(line, "{name} at <{address}> {count} times").expect(rt, "memory");
}

fn show_sync(rt: &impl Abort, line: &mut String, words: &SyncWords) {
    let name = words.name.text();
    let link = words.link.text();
    let direction = match words.direction {
        Direction::Pull => "pulls",
        Direction::Push => "pushes",
    };
    write!(line, "{name} {direction} over {link}").expect(rt, "memory");
}

// What these words ask for, as a line.
fn shown(rt: &impl Abort, alloc: Global, words: &[String]) -> String {
    let mut line = String::new(alloc);
    match read_words(alloc, words) {
        Ok(Command::Net) => add(rt, &mut line, "net"),
        Ok(Command::Check) => add(rt, &mut line, "check"),
        Ok(Command::Serve(words)) => show_serve(rt, &mut line, &words),
        Ok(Command::Sync(words)) => show_sync(rt, &mut line, &words),
        Ok(Command::Gen(count)) => write!(line, "{count} events").expect(rt, "memory"),
        Err(WordsFault::Usage) => add(rt, &mut line, "usage"),
        Err(WordsFault::OutOfMemory) => add(rt, &mut line, "no memory"),
    }
    line
}

// The words of a line, with one space between any two.
fn words_of(rt: &impl Abort, alloc: Global, line: &str) -> Vec<String> {
    let mut words = Vec::new(alloc);
    for word in line.split(' ') {
        words.push(string(rt, alloc, word)).expect(rt, "memory");
    }
    words
}

/// Words, and what they ask for.
const READ: [(&str, &str); 13] = [
    ("net", "net"),
    ("check", "check"),
    ("serve a 127.0.0.1:0 1", "a at <127.0.0.1:0> 1 times"),
    (
        "serve a-1 [::1]:8080 1000000",
        "a-1 at <[::1]:8080> 1000000 times",
    ),
    ("serve a  7", "a at <> 7 times"),
    ("serve help help 12", "help at <help> 12 times"),
    ("serve net check 999999", "net at <check> 999999 times"),
    ("serve serve a=b 10", "serve at <a=b> 10 times"),
    ("sync a b pull", "a pulls over b"),
    ("sync a-1 a-1 push", "a-1 pushes over a-1"),
    ("sync sync pull push", "sync pushes over pull"),
    ("gen 1", "1 events"),
    ("gen 10000", "10000 events"),
];

/// Words that ask for nothing: those of a command with a letter more, fewer or other, and others.
const OTHERS: [(&str, &str); 62] = [
    ("", "usage"),
    ("help", "usage"),
    ("n", "usage"),
    ("ne", "usage"),
    ("nets", "usage"),
    ("Net", "usage"),
    ("NET", "usage"),
    ("net ", "usage"),
    ("net x", "usage"),
    ("c", "usage"),
    ("chec", "usage"),
    ("checks", "usage"),
    ("Check", "usage"),
    ("check check", "usage"),
    ("-h", "usage"),
    ("--help", "usage"),
    ("-V", "usage"),
    ("--version", "usage"),
    ("help serve", "usage"),
    ("serve", "usage"),
    ("serv a x 1", "usage"),
    ("serves a x 1", "usage"),
    ("Serve a x 1", "usage"),
    ("serve a x", "usage"),
    ("serve a x 1 1", "usage"),
    ("serve -- x 1", "usage"),
    ("serve a -x 1", "usage"),
    ("serve a - 1", "usage"),
    ("serve a x -1", "usage"),
    ("serve a x +1", "usage"),
    ("serve a x ", "usage"),
    ("serve a x 0", "usage"),
    ("serve a x 01", "usage"),
    ("serve a x 1.", "usage"),
    ("serve a x 1000001", "usage"),
    ("serve a x 4294967297", "usage"),
    ("serve A x 1", "usage"),
    ("serve 1 x 1", "usage"),
    ("serve  x 1", "usage"),
    ("gen", "usage"),
    ("gens 1", "usage"),
    ("gen 0", "usage"),
    ("gen 01", "usage"),
    ("gen 10001", "usage"),
    ("gen x", "usage"),
    ("gen 1 1", "usage"),
    ("syn a b pull", "usage"),
    ("syncs a b pull", "usage"),
    ("Sync a b pull", "usage"),
    ("sync", "usage"),
    ("sync a b", "usage"),
    ("sync a b pull pull", "usage"),
    ("sync a b ", "usage"),
    ("sync a b Pull", "usage"),
    ("sync a b pul", "usage"),
    ("sync a b pushes", "usage"),
    ("sync a b -pull", "usage"),
    ("sync a -b pull", "usage"),
    ("sync -a b pull", "usage"),
    ("sync a B pull", "usage"),
    ("sync a  push", "usage"),
    ("pull a b pull", "usage"),
];

fn assert_read(rt: &impl Abort, alloc: Global, line: &str, want: &str) {
    let words = words_of(rt, alloc, line);
    let is = shown(rt, alloc, words.as_slice());
    assert!(rt; is.as_str() == want, "{line} is {is}");
    drop(is);
    drop(words);
}

#[test]
fn words_are_read_as_the_tables_say(rt: HostRuntime) {
    for table in [READ.as_slice(), OTHERS.as_slice()] {
        for (line, want) in table {
            assert_read(&rt, rt.alloc(), line, want);
        }
    }
}
