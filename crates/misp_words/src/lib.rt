//! The words of a command line, and what they ask for.
#![tactic(auto)]

mod command;
mod count;
mod grammar;
mod laws;
mod names;
mod reading;

pub use command::{Command, ServeWords, SyncWords};
pub use laws::a_word_with_a_dash_asks_for_nothing;
pub use reading::{Words, WordsFault, read_words};

/// The most connections that can be asked for.
pub const MAX_COUNT: u32 = 1_000_000;

/// The most events of a generated network.
pub const MAX_EVENTS: u32 = 10_000;

/// How the program is called, for who calls it otherwise.
pub const USAGE: &str = "\
usage: misp net
       misp check
       misp serve NAME ADDRESS COUNT
       misp sync NAME LINK WAY
       misp gen EVENTS

net    reads a description and a script from standard input, runs the script,
       and writes a line for each request
check  reads a description from standard input, and writes ok or its first fault
serve  reads a description from standard input, serves COUNT connections, one
       after another, and writes a line for each
sync   reads a description from standard input, pulls from a peer or pushes to
       it, and writes a line with what came of it
gen    makes a network of four instances with so many events, runs a script of
       additions, pulls and searches over it, and writes a summary

NAME     the instance that is served or synchronised
ADDRESS  where connections come to, as 127.0.0.1:8080
COUNT    1 to 1000000
LINK     the link of the instance to the peer
WAY      pull or push
EVENTS   1 to 10000
";
