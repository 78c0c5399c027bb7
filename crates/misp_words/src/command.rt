//! What the words ask for.

ghost use Rattle.std.specs.Prelude.{◌≡◌, map, option_map, string_bytes};
ghost use Rattle.misp_words.specs.Words.{begins_with_dash, command_data, serve_data, serve_words, sync_data, sync_words, direction_of, command_counted, command_named, command_with, command_of};

use crate::count::{read_count, read_events};
use crate::names::{CHECK, GEN, NET, SERVE, SYNC};
use misp_ids::{Direction, InstId};

/// What the program is to do.
#[derive(Clone, Copy, PartialEq, Eq)]
pub enum Command<'a> {
    /// Runs the script of a source.
    Net,
    /// Tells whether the description of a source has a fault.
    Check,
    /// Serves an instance of the description of a source.
    Serve(ServeWords<'a>),
    /// Synchronises an instance of the description of a source over one of its links.
    Sync(SyncWords),
    /// Runs the script of a generated network with so many events, and sums up what came of it.
    Gen(u32),
}

/// The words after `serve`.
#[derive(Clone, Copy, PartialEq, Eq)]
pub struct ServeWords<'a> {
    /// The instance, which need not be in the description.
    pub name: InstId,
    /// Where connections come to. It need not be an address.
    pub address: &'a str,
    /// How many connections are served.
    pub count: u32,
}

/// The words after `sync`.
#[derive(Clone, Copy, PartialEq, Eq)]
pub struct SyncWords {
    /// The instance, which need not be in the description.
    pub name: InstId,
    /// The link, which the instance need not have.
    pub link: InstId,
    pub direction: Direction,
}

fn begins_with_dash(word: &str) -> bool
    ensures { result ≡ begins_with_dash word.now }
{
    word.as_bytes().first() == Some(&b'-')
}

fn serve_words<'a>(name: &str, address: &'a str, count: &str) -> Option<ServeWords<'a>>
    ensures { option_map serve_data result ≡ serve_words name.now address.now count.now }
{
    if begins_with_dash(address) {
        return None;
    }
    match (InstId::read(name), read_count(count)) {
        (Some(name), Some(count)) => Some(ServeWords {
            name,
            address,
            count,
        }),
        _ => None,
    }
}

fn direction_of(word: &str) -> Option<Direction>
    ensures { result ≡ direction_of word.now }
{
    match word {
        "pull" => Some(Direction::Pull),
        "push" => Some(Direction::Push),
        _ => None,
    }
}

fn sync_words(name: &str, link: &str, direction: &str) -> Option<SyncWords>
    ensures { option_map sync_data result ≡ sync_words name.now link.now direction.now }
{
    match (
        InstId::read(name),
        InstId::read(link),
        direction_of(direction),
    ) {
        (Some(name), Some(link), Some(direction)) => Some(SyncWords {
            name,
            link,
            direction,
        }),
        _ => None,
    }
}

fn command_named<'a>(word: &str) -> Option<Command<'a>>
    ensures { option_map command_data result ≡ command_named word.now }
{
    match word {
        NET => Some(Command::Net),
        CHECK => Some(Command::Check),
        _ => None,
    }
}

fn command_counted<'a>(word: &str, count: &str) -> Option<Command<'a>>
    ensures { option_map command_data result ≡ command_counted word.now count.now }
{
    match word {
        GEN => match read_events(count) {
            Some(count) => Some(Command::Gen(count)),
            None => None,
        },
        _ => None,
    }
}

fn command_with<'a>(word: &str, name: &str, other: &'a str, last: &str) -> Option<Command<'a>>
    ensures { option_map command_data result
        ≡ command_with word.now name.now other.now last.now }
{
    match word {
        SERVE => match serve_words(name, other, last) {
            Some(words) => Some(Command::Serve(words)),
            None => None,
        },
        SYNC => match sync_words(name, other, last) {
            Some(words) => Some(Command::Sync(words)),
            None => None,
        },
        _ => None,
    }
}

// What these words ask for. The check follows an arm for each number of words.
pub(crate) fn command_of<'a>(words: &'a [String]) -> Option<Command<'a>>
    ensures { option_map command_data result ≡ command_of (map string_bytes words.now) }
{
    match words {
        [] => None,
        [word] => command_named(word.as_str()),
        [word, count] => command_counted(word.as_str(), count.as_str()),
        [_, _, _] => None,
        [word, name, other, last] => command_with(
            word.as_str(),
            name.as_str(),
            other.as_str(),
            last.as_str(),
        ),
        [_, _, _, _, _, ..] => None,
    }
}
