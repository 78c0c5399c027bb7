//! What the tests of several crates write alike: texts in which words stand for longer ones.
#![tactic(auto)]

mod words;

pub use words::filled;
