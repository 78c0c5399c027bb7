//! The words as the crate `clap` reads them.

use crate::names::{CHECK, GEN, NET, SERVE, SYNC};
use clap::{Arg, ArgAction, ArgMatches, Command, Error};
use std::alloc::Global;

const NAME: &str = "NAME";

const ADDRESS: &str = "ADDRESS";

const COUNT: &str = "COUNT";

const LINK: &str = "LINK";

const WAY: &str = "WAY";

const EVENTS: &str = "EVENTS";

fn required<'a>(alloc: Global, name: &'a str) -> Arg<'a> {
    Arg::new(alloc, name).required(true).action(ArgAction::Set)
}

fn without_help<'a>(alloc: Global, name: &'a str) -> Command<'a> {
    Command::new(alloc, name).disable_help_flag(true)
}

// A command with a name and two more words.
fn with_words<'a>(
    alloc: Global,
    command: &'a str,
    second: &'a str,
    third: &'a str,
) -> Result<Command<'a>, Error> {
    Ok(
        without_help(alloc, command)
            .arg(required(alloc, NAME))?
            .arg(required(alloc, second))?
            .arg(required(alloc, third))?,
    )
}

fn grammar<'a>(alloc: Global) -> Result<Command<'a>, Error> {
    Ok(
        without_help(alloc, "misp")
            .no_binary_name(true)
            .disable_help_subcommand(true)
            .subcommand_required(true)
            .subcommand(without_help(alloc, NET))?
            .subcommand(without_help(alloc, CHECK))?
            .subcommand(with_words(alloc, SERVE, ADDRESS, COUNT)?)?
            .subcommand(with_words(alloc, SYNC, LINK, WAY)?)?
            .subcommand(without_help(alloc, GEN).arg(required(alloc, EVENTS))?)?,
    )
}

// Whether these are the values of the arguments of a command.
fn has_values(found: &ArgMatches, command: &str, values: &[String]) -> bool {
    let (second, third) = if command == SYNC {
        (LINK, WAY)
    } else {
        (ADDRESS, COUNT)
    };
    match values {
        [name, other, last] => {
            found.get_str(NAME) == Some(name.as_str())
                && found.get_str(second) == Some(other.as_str())
                && found.get_str(third) == Some(last.as_str())
        }
        [count] => found.get_str(EVENTS) == Some(count.as_str()),
        _ => values.is_empty(),
    }
}

// Whether `clap` reads the words too, and finds each of them in its place.
pub(crate) fn agrees(alloc: Global, words: &[String]) -> bool {
    let Ok(grammar) = grammar(alloc) else {
        return false;
    };
    let Ok(matches) = grammar.try_get_matches_from(words) else {
        return false;
    };
    match (matches.subcommand(), words) {
        (Some((command, found)), [word, values @ ..]) => {
            word.as_str() == command && has_values(found, command, values)
        }
        _ => false,
    }
}
