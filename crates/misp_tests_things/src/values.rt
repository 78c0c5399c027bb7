//! Values that tests make of texts, where memory suffices, and texts that they read.

use std::alloc::Global;
use std::process::Abort;

pub(crate) fn bytes(rt: &impl Abort, alloc: Global, text: &str) -> Vec<u8> {
    text.as_bytes().to_vec(alloc).expect(rt, "memory")
}

pub(crate) fn string(rt: &impl Abort, alloc: Global, text: &str) -> String {
    String::from_str(alloc, text).expect(rt, "memory")
}

pub(crate) fn text<'a>(rt: &impl Abort, bytes: &'a [u8]) -> &'a str {
    str::from_utf8(bytes).expect(rt, "a text")
}

pub(crate) fn add(rt: &impl Abort, line: &mut String, more: &str) {
    line.push_str(more).expect(rt, "memory");
}

pub(crate) fn assert_text(rt: &impl Abort, is: &str, want: &str) {
    assert_eq!(rt; is, want);
}

pub(crate) fn assert_bytes(rt: &impl Abort, are: &[u8], want: &[u8]) {
    assert_eq!(rt; are, want);
}
